//! Records as they are read: numbers in front of bytes, and an entry of each kind.

ghost use Rattle.std.specs.Prelude.{◌≡◌, ◌++◌, ◌∷◌, ◌<◌, ◌^◌, IfSome, IfNone, length, ◌≢◌, ◌≤◌};
ghost use Rattle.std.specs.Prelude.{◌⊎◌, IfOk, drop};
ghost use Rattle.std.specs.Int.{w16, w32, w64, to_be_bytes};
ghost use Rattle.pay_frame.specs.Frame.{code_of};
ghost use Rattle.pay_record.specs.Loggable.{IsBodyRead, IsFrameRead, IsReadAs};
ghost use Rattle.pay_record.specs.Records.{known_bits};

use pay_frame::{Body, Bytes, GREATEST_VALUE, Kind, SEQS};
use pay_link::{Checked, Keys};
use pay_member::{AskedValue, Event, HistoryEntry, Reply, Told, Took};
use std::alloc::{AllocError, AllocFailed, Global};
use thiserror::Error;

/// The code of a value that the owner submitted.
pub(crate) const ASK: u8 = 1;

/// The code of a query.
pub(crate) const QUERY: u8 = 3;

/// The code of a frame that was accepted. Its receiver and its tag aren't stored.
pub(crate) const FRAME: u8 = 4;

/// The greatest size of a record in bytes.
pub const MOST_RECORD: usize = 1062;

/// Returns the first of `bytes`, and those after it.
pub(crate) fn one(bytes: &[u8]) -> Option<(u8, &[u8])>
    ensures some { IfSome result (λ r. bytes.now ≡ r.0 ∷ r.1.now) }
    ensures none { IfNone result (length bytes.now < 1) }
{
    match bytes.split_first() {
        Some((first, rest)) => Some((*first, rest)),
        None => None,
    }
}

/// Returns the number in the first two of `bytes`, and those after it.
#[tactic(auto, using(std::proofs::lemmas::Nat::be_bytes_2))]
pub(crate) fn two(bytes: &[u8]) -> Option<(u16, &[u8])>
    ensures some { IfSome result (λ r. bytes.now ≡ to_be_bytes w16 r.0 ++ r.1.now) }
    ensures range { IfSome result (λ r. r.0 < 2 ^ 16) }
    ensures none { IfNone result (length bytes.now < 2) }
{
    match bytes.split_first_chunk::<2>() {
        Some((number, rest)) => Some((u16::from_be_bytes(*number), rest)),
        None => None,
    }
}

/// Returns the number in the first four of `bytes`, and those after it.
#[tactic(auto, using(std::proofs::lemmas::Nat::be_bytes_4))]
pub(crate) fn four(bytes: &[u8]) -> Option<(u32, &[u8])>
    ensures some { IfSome result (λ r. bytes.now ≡ to_be_bytes w32 r.0 ++ r.1.now) }
    ensures range { IfSome result (λ r. r.0 < 2 ^ 32) }
    ensures none { IfNone result (length bytes.now < 4) }
{
    match bytes.split_first_chunk::<4>() {
        Some((number, rest)) => Some((u32::from_be_bytes(*number), rest)),
        None => None,
    }
}

/// Returns the number in the first eight of `bytes`, and those after it.
#[tactic(auto, using(std::proofs::lemmas::Nat::be_bytes_8))]
pub(crate) fn eight(bytes: &[u8]) -> Option<(u64, &[u8])>
    ensures some { IfSome result (λ r. bytes.now ≡ to_be_bytes w64 r.0 ++ r.1.now) }
    ensures range { IfSome result (λ r. r.0 < 2 ^ 64) }
    ensures none { IfNone result (length bytes.now < 8) }
{
    match bytes.split_first_chunk::<8>() {
        Some((number, rest)) => Some((u64::from_be_bytes(*number), rest)),
        None => None,
    }
}

/// The size of the part before the value in the record of a submitted value.
const ASK_LEN: usize = 17;

/// The size of the part before the frame's part in the record of a frame.
const FRAME_LEN: usize = 8;

/// The size of the part before the body in a frame's part.
const ADDRESS_LEN: usize = 10;

/// The size of the part before the value in a frame's body.
const BODY_LEN: usize = 9;

/// The size of a query's record in bytes.
const QUERY_LEN: usize = 21;

/// The reason why no record is read.
#[derive(Clone, Copy, Debug, PartialEq, Eq, Error)]
pub enum RecordFault {
    /// An allocation failed.
    #[error("no memory")]
    Memory,
    /// The bytes there are no record of this member.
    #[error("no record of this member")]
    NoRecord,
}

impl From<AllocError> for RecordFault {
    ghost use Rattle.pay_record.specs.declared.reading.RecordFault.TheVariants.{Memory};

    ghost from_gives = { λ _ e. e ≡ Memory };

    fn from(_error: AllocError) -> RecordFault {
        RecordFault::Memory
    }
}

impl<T: Drop> From<AllocFailed<T>> for RecordFault {
    ghost use Rattle.pay_record.specs.declared.reading.RecordFault.TheVariants.{Memory};

    ghost from_gives = { λ _ e. e ≡ Memory };

    fn from(_error: AllocFailed<T>) -> RecordFault {
        RecordFault::Memory
    }
}

/// Reads the entry of the record at the front of `bytes`, for the member that has `keys`. Returns
/// it with the id of a submitted value and the size of the record.
// promise: records
pub fn read_record(
    alloc: Global,
    keys: &Keys,
    bytes: &[u8],
) -> Result<(HistoryEntry, u64, usize), RecordFault>
    ensures { IsReadAs keys.now bytes.now result }
{
    let Some((code, rest)) = one(bytes) else {
        return Err(RecordFault::NoRecord);
    };
    let Some((stamp, fields)) = two(rest) else {
        return Err(RecordFault::NoRecord);
    };
    match code {
        ASK => read_ask(alloc, keys, stamp, fields),
        FRAME => read_frame(alloc, keys, stamp, fields),
        QUERY => read_query(keys, stamp, fields),
        _ => Err(RecordFault::NoRecord),
    }
}

// Reads the record of a submitted value. `fields` are the bytes after its stamp.
fn read_ask(
    alloc: Global,
    keys: &Keys,
    stamp: u16,
    fields: &[u8],
) -> Result<(HistoryEntry, u64, usize), RecordFault>
    ensures { IsReadAs keys.now ((ASK ∷ to_be_bytes w16 stamp) ++ fields.now) result }
{
    let Some((id, rest)) = eight(fields) else {
        return Err(RecordFault::NoRecord);
    };
    let Some((seq, rest)) = four(rest) else {
        return Err(RecordFault::NoRecord);
    };
    let Some((len, rest)) = two(rest) else {
        return Err(RecordFault::NoRecord);
    };
    let value = match value_in_front(alloc, len, rest) {
        Ok(value) => value,
        Err(fault) => return Err(fault),
    };
    let entry = HistoryEntry {
        stamp,
        event: Event::Ask(AskedValue::new(alloc, value)?),
        reply: Reply::Asked(seq),
    };
    Ok((entry, id, ASK_LEN + usize::from(len)))
}

// Returns a value of `len` bytes.
fn value_in_front(alloc: Global, len: u16, bytes: &[u8]) -> Result<Bytes, RecordFault>
    ensures value { IfOk result (λ value. (length value ≡ len) × (len ≤ GREATEST_VALUE)
        × (bytes.now ≡ value ++ drop len bytes.now)) }
    ensures none { result ≡ Err RecordFault.NoRecord →
        (GREATEST_VALUE < len) ⊎ (length bytes.now < len) }
{
    if len > GREATEST_VALUE {
        return Err(RecordFault::NoRecord);
    }
    match bytes.split_at_checked(usize::from(len)) {
        Some((value, _)) => Ok(Bytes::from_slice(alloc, value)?),
        None => Err(RecordFault::NoRecord),
    }
}

// Reads the record of a frame. `fields` are the bytes after its stamp.
fn read_frame(
    alloc: Global,
    keys: &Keys,
    stamp: u16,
    fields: &[u8],
) -> Result<(HistoryEntry, u64, usize), RecordFault>
    ensures { IsReadAs keys.now ((FRAME ∷ to_be_bytes w16 stamp) ++ fields.now) result }
{
    let Some((bits, rest)) = one(fields) else {
        return Err(RecordFault::NoRecord);
    };
    let Some((settled, rest)) = four(rest) else {
        return Err(RecordFault::NoRecord);
    };
    let Some(took) = took_of(bits, settled) else {
        return Err(RecordFault::NoRecord);
    };
    let (checked, size) = match frame_in_front(alloc, keys, rest) {
        Ok(found) => found,
        Err(fault) => return Err(fault),
    };
    let entry = HistoryEntry {
        stamp,
        event: Event::Taken(checked),
        reply: Reply::Took(took),
    };
    Ok((entry, 0, FRAME_LEN + size))
}

// Returns what followed from a frame, if `bits` encode it.
fn took_of(bits: u8, settled: u32) -> Option<Took>
    ensures some { IfSome result (λ took. (known_bits took ≡ bits) × (took.settled ≡ settled)) }
    ensures none { IfNone result (7 < bits) }
{
    if bits > 7 {
        return None;
    }
    Some(Took {
        echo: bits % 2 == 1,
        ready: bits / 2 % 2 == 1,
        deliver: bits / 4 == 1,
        settled,
    })
}

// Returns the frame of the part at the front of `bytes`, and the size of that part.
fn frame_in_front(alloc: Global, keys: &Keys, bytes: &[u8]) -> Result<(Checked, usize), RecordFault>
    ensures { IsFrameRead keys.now bytes.now result }
{
    let Some((from, rest)) = two(bytes) else {
        return Err(RecordFault::NoRecord);
    };
    let Some((number, rest)) = eight(rest) else {
        return Err(RecordFault::NoRecord);
    };
    let (body, size) = match body_in_front(alloc, rest) {
        Ok(found) => found,
        Err(fault) => return Err(fault),
    };
    if !keys.is_peer(from) {
        return Err(RecordFault::NoRecord);
    }
    if body.owner() >= keys.members() {
        return Err(RecordFault::NoRecord);
    }
    let checked = Checked::from_peer(alloc, keys, from, number, body)?;
    Ok((checked, ADDRESS_LEN + size))
}

// Returns the body at the front of `bytes`, and its size. A WANT's body is none.
fn body_in_front(alloc: Global, bytes: &[u8]) -> Result<(Body, usize), RecordFault>
    ensures { IsBodyRead bytes.now result }
{
    let Some((code, rest)) = one(bytes) else {
        return Err(RecordFault::NoRecord);
    };
    let Some((owner, rest)) = two(rest) else {
        return Err(RecordFault::NoRecord);
    };
    let Some((seq, rest)) = four(rest) else {
        return Err(RecordFault::NoRecord);
    };
    let Some((len, rest)) = two(rest) else {
        return Err(RecordFault::NoRecord);
    };
    let Some(kind) = vote_of(code) else {
        return Err(RecordFault::NoRecord);
    };
    if seq >= SEQS {
        return Err(RecordFault::NoRecord);
    }
    let value = match value_in_front(alloc, len, rest) {
        Ok(value) => value,
        Err(fault) => return Err(fault),
    };
    let body = Body::new(kind, owner, seq, value);
    Ok((body, BODY_LEN + usize::from(len)))
}

// Returns the kind that `code` stands for, if it is the kind of a vote.
fn vote_of(code: u8) -> Option<Kind>
    ensures some { IfSome result (λ kind. (code_of kind ≡ code) × (kind ≢ Kind.Want)) }
    ensures none { IfNone result ((kind : Kind) → kind ≢ Kind.Want → code_of kind ≡ code → ⊥) }
{
    match code {
        1 => Some(Kind::Send),
        2 => Some(Kind::Echo),
        3 => Some(Kind::Ready),
        _ => None,
    }
}

// Reads the record of a query. `fields` are the bytes after its stamp.
fn read_query(
    keys: &Keys,
    stamp: u16,
    fields: &[u8],
) -> Result<(HistoryEntry, u64, usize), RecordFault>
    ensures { IsReadAs keys.now ((QUERY ∷ to_be_bytes w16 stamp) ++ fields.now) result }
{
    let Some((account, rest)) = two(fields) else {
        return Err(RecordFault::NoRecord);
    };
    let Some((balance, rest)) = eight(rest) else {
        return Err(RecordFault::NoRecord);
    };
    let Some((front, rest)) = four(rest) else {
        return Err(RecordFault::NoRecord);
    };
    let Some((listed, _)) = four(rest) else {
        return Err(RecordFault::NoRecord);
    };
    let told = Told {
        balance,
        front,
        listed,
    };
    let entry = HistoryEntry {
        stamp,
        event: Event::Query(account),
        reply: Reply::Told(told),
    };
    Ok((entry, 0, QUERY_LEN))
}
