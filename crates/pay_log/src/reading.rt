//! The record blocks of a file, read one after the other. Each payload goes to a sink, so no list
//! of them is held in memory.

ghost use Rattle.std.specs.Prelude.{◌≡◌, ◌++◌, ◌∷◌, [], ℕ, List, OnOk, map, ◌↔◌, ◌+◌, ◌≤◌, ◌<◌};
ghost use Rattle.std.specs.Prelude.{IfErr, IfOk, IfSome, IfNone, IsTrue, OnErr, length, drop, take};
ghost use Rattle.pay_log.specs.Chunks.{IsShort, IsEnd, chunk_of};
ghost use Rattle.pay_log.specs.Damage.{HasChunkIn, IsDamaged};
ghost use Rattle.pay_log.specs.Device.{IsUnchanged};
ghost use Rattle.pay_log.specs.Faults.{IsReadFault};
ghost use Rattle.pay_log.specs.Headers.{IsForeignHeader, header_bytes};
ghost use Rattle.pay_log.specs.Recovery.{HasRead, HasRefused, IsReadLog, IsRefusedLog};
ghost use Rattle.pay_log.specs.Sinks.{TakesAll};
ghost use Rattle.pay_log.specs.declared.header.Mismatch.{Mismatch};

use crate::chunk::{
    BESIDE_LEN, HEAD_LEN, HEADER_LEN, LogKey, MOST_PAYLOAD, MOST_PLACE, front, has_chunk_in,
    payload_length,
};
use crate::device::{Device, DeviceFault};
use crate::fault::LogFault;
use crate::header::Header;
use std::alloc::{AllocError, AllocFailed, Global};
use std::io::ErrorKind;
use thiserror::Error;

/// The reason why a payload isn't accepted.
#[derive(Clone, Copy, Debug, PartialEq, Eq, Error)]
pub enum Refused {
    /// An allocation failed.
    #[error("no memory")]
    Memory,
    /// The disk that keeps the payload failed, as the system reports it.
    #[error("the disk failed")]
    Disk(ErrorKind),
    /// The record of this number, counted from the first of all payloads, isn't the one expected.
    #[error("record {0} isn't what belongs there")]
    Record(u64),
}

impl From<AllocError> for Refused {
    ghost use Rattle.pay_log.specs.declared.reading.Refused.TheVariants.{Memory};

    ghost from_gives = { λ _ e. e ≡ Memory };

    fn from(_error: AllocError) -> Refused {
        Refused::Memory
    }
}

impl<T: Drop> From<AllocFailed<T>> for Refused {
    ghost use Rattle.pay_log.specs.declared.reading.Refused.TheVariants.{Memory};

    ghost from_gives = { λ _ e. e ≡ Memory };

    fn from(_error: AllocFailed<T>) -> Refused {
        Refused::Memory
    }
}

impl From<ErrorKind> for Refused {
    ghost use Rattle.pay_log.specs.declared.reading.Refused.TheVariants.{Disk};

    ghost from_gives = { λ kind e. e ≡ Disk kind };

    fn from(kind: ErrorKind) -> Refused {
        Refused::Disk(kind)
    }
}

/// A sink of payloads, which accepts them one after the other.
pub trait Sink {
    // Relates the sink before a payload to the sink after it.
    ghost takes: { Self → Self → List ℕ → Type 0 };

    // Says that the sink accepts no such payload, because of the record of this number.
    ghost refuses: { Self → List ℕ → ℕ → Type 0 };

    fn take(&mut self, alloc: Global, payload: &[u8]) -> Result<(), Refused>
        requires { IsShort payload.now }
        ensures taken { OnOk result (takes self.old self.new payload.now) }
        ensures refused { (number : ℕ) → result ≡ Err (Refused.Record number)
            → refuses self.old payload.now number };
}

/// A list of all payloads.
#[derive(Drop)]
pub struct Payloads {
    pub items: Vec<Vec<u8>>,
}

impl Payloads {
    /// Creates an empty list.
    pub fn new(alloc: Global) -> Payloads
        ensures { result.items.items ≡ [] }
    {
        Payloads {
            items: Vec::new(alloc),
        }
    }
}

impl Sink for Payloads {
    ghost takes = { λ old new payload. map (λ v. v.items) new.items.items
        ≡ map (λ v. v.items) old.items.items ++ payload ∷ [] };

    ghost refuses = { λ _ _ _. ⊥ };

    fn take(&mut self, alloc: Global, payload: &[u8]) -> Result<(), Refused> {
        Ok(self.items.push(payload.to_vec(alloc)?)?)
    }
}

// The size in bytes of a file's record blocks, and their count.
#[derive(Clone, Copy)]
struct Extent {
    len: usize,
    count: u64,
}

/// Reads a log, passes its payloads to `sink`, and returns the size in bytes of its record blocks.
// promise: reading a log (read, foreign, damaged, illegal, fault, unchanged)
pub fn read_log<D: Device, S: Sink>(
    alloc: Global,
    device: &mut D,
    key: &[u8; 32],
    header: &Header,
    sink: &mut S,
) -> Result<usize, LogFault>
    ensures fed { OnOk result ((ps : List (List ℕ)) × TakesAll S.takes sink.old sink.new ps) }
    ensures read { IfOk result (λ len. D.is_known device.old →
        IsReadLog S.takes key.now (header_bytes header.now) (D.seen device.old)
        sink.old sink.new len) }
    ensures fault { IfErr result IsReadFault }
    ensures foreign { (part : Mismatch) → result ≡ Err (LogFault.Foreign part)
        → D.is_known device.old
        → IsForeignHeader header.now (take HEADER_LEN (D.seen device.old)) part }
    ensures damaged { (count : ℕ) → result ≡ Err (LogFault.Damaged count)
        → D.is_known device.old
        → IsDamaged key.now (header_bytes header.now) (D.seen device.old) count }
    ensures illegal { (number : ℕ) → result ≡ Err (LogFault.Illegal number)
        → D.is_known device.old → IsRefusedLog S.takes S.refuses key.now
        (header_bytes header.now) (D.seen device.old) sink.old number }
    ensures unchanged { D.is_known device.old →
        IsUnchanged D.is_known D.seen D.may_leave D.moment D.left_since device.old device.new }
{
    judge_header(alloc, device, header)?;
    let key = LogKey::new(*key);
    let Extent { len, count } = read_chunks(alloc, device, &key, sink)?;
    if has_more(alloc, device, &key, len)? {
        return Err(LogFault::Damaged(count));
    }
    Ok(len)
}

// Refuses a file that doesn't begin with `header`.
fn judge_header<D: Device>(alloc: Global, device: &mut D, header: &Header) -> Result<(), LogFault>
    ensures same { D.is_known device.old → OnOk result (
        take HEADER_LEN (D.seen device.old) ≡ header_bytes header.now) }
    ensures foreign { (part : Mismatch) → result ≡ Err (LogFault.Foreign part)
        → D.is_known device.old
        → IsForeignHeader header.now (take HEADER_LEN (D.seen device.old)) part }
    ensures fault { IfErr result IsReadFault }
    ensures undamaged { (count : ℕ) → result ≡ Err (LogFault.Damaged count) → ⊥ }
    ensures legal { (number : ℕ) → result ≡ Err (LogFault.Illegal number) → ⊥ }
    ensures unchanged { D.is_known device.old →
        IsUnchanged D.is_known D.seen D.may_leave D.moment D.left_since device.old device.new }
{
    let front = device.read(alloc, 0, HEADER_LEN)?;
    match header.judge(&front) {
        Ok(()) => Ok(()),
        Err(part) => Err(LogFault::Foreign(part)),
    }
}

// Returns whether a record block stands somewhere after the last one.
fn has_more<D: Device>(
    alloc: Global,
    device: &mut D,
    key: &LogKey,
    place: usize,
) -> Result<bool, DeviceFault>
    requires { place ≤ MOST_PLACE + 33554432 }
    ensures value { D.is_known device.old → IfOk result (λ more. IsTrue more
        ↔ HasChunkIn key.now (drop (HEADER_LEN + place) (D.seen device.old))) }
    ensures unchanged { D.is_known device.old →
        IsUnchanged D.is_known D.seen D.may_leave D.moment D.left_since device.old device.new }
{
    let tail = device.read(alloc, HEADER_LEN + place, usize::MAX)?;
    Ok(has_chunk_in(key, &tail))
}

// Reads the record blocks after a file's header, up to the first place that has none, and passes
// their payloads to `sink`.
fn read_chunks<D: Device, S: Sink>(
    alloc: Global,
    device: &mut D,
    key: &LogKey,
    sink: &mut S,
) -> Result<Extent, LogFault>
    ensures room { IfOk result (λ extent. extent.len ≤ MOST_PLACE + 33554432) }
    ensures fault { IfErr result IsReadFault }
    ensures own { (part : Mismatch) → result ≡ Err (LogFault.Foreign part) → ⊥ }
    ensures whole { (count : ℕ) → result ≡ Err (LogFault.Damaged count) → ⊥ }
    ensures illegal { (number : ℕ) → result ≡ Err (LogFault.Illegal number)
        → D.is_known device.old → HasRefused S.takes S.refuses key.now
        (drop HEADER_LEN (D.seen device.old)) sink.old number }
    ensures fed { OnOk result ((ps : List (List ℕ)) × TakesAll S.takes sink.old sink.new ps) }
    ensures read { IfOk result (λ extent. D.is_known device.old →
        HasRead S.takes key.now (drop HEADER_LEN (D.seen device.old)) sink.old sink.new
        extent.len extent.count) }
    ensures unchanged { D.is_known device.old →
        IsUnchanged D.is_known D.seen D.may_leave D.moment D.left_since device.old device.new }
{
    let mut len = 0;
    let mut count = 0;
    while let Some(chunk) = next_chunk(alloc, device, key, len)? {
        sink.take(alloc, chunk.payload())?;
        len += BESIDE_LEN + chunk.len;
        count += 1;
    }
    Ok(Extent { len, count })
}

// The bytes of a record block, with the length of its payload.
#[derive(Drop)]
struct Chunk {
    bytes: Vec<u8>,
    len: usize,
}

impl Chunk {
    fn payload(&self) -> &[u8]
        requires { HEAD_LEN + self.now.len ≤ length self.now.bytes.items }
        ensures { result.now ≡ take self.now.len (drop HEAD_LEN self.now.bytes.items) }
    {
        &self.bytes[HEAD_LEN..HEAD_LEN + self.len]
    }
}

// Returns the record block at `place`, if there is one.
fn next_chunk<D: Device>(
    alloc: Global,
    device: &mut D,
    key: &LogKey,
    place: usize,
) -> Result<Option<Chunk>, LogFault>
    ensures fault { IfErr result IsReadFault }
    ensures own { (part : Mismatch) → result ≡ Err (LogFault.Foreign part) → ⊥ }
    ensures whole { (count : ℕ) → result ≡ Err (LogFault.Damaged count) → ⊥ }
    ensures legal { (number : ℕ) → result ≡ Err (LogFault.Illegal number) → ⊥ }
    ensures room { IfOk result (λ next. IfSome next (λ chunk. (place < MOST_PLACE)
        × (chunk.len ≤ MOST_PAYLOAD)
        × (BESIDE_LEN + chunk.len ≤ length chunk.bytes.items))) }
    ensures chunk { D.is_known device.old → IfOk result (λ next. IfSome next (λ chunk.
        drop (HEADER_LEN + place) (D.seen device.old)
        ≡ chunk_of key.now place (take chunk.len (drop HEAD_LEN chunk.bytes.items))
        ++ drop (BESIDE_LEN + chunk.len) (drop (HEADER_LEN + place) (D.seen device.old)))) }
    ensures none { D.is_known device.old → IfOk result (λ next. IfNone next
        (IsEnd key.now place (drop (HEADER_LEN + place) (D.seen device.old)))) }
    ensures unchanged { D.is_known device.old →
        IsUnchanged D.is_known D.seen D.may_leave D.moment D.left_since device.old device.new }
{
    if place as u64 >= MOST_PLACE {
        return Err(LogFault::Disk(ErrorKind::StorageFull));
    }
    let head = device.read(alloc, HEADER_LEN + place, HEAD_LEN)?;
    let Some(length) = payload_length(key, place as u64, &head) else {
        return Ok(None);
    };
    let bytes = device.read(alloc, HEADER_LEN + place, BESIDE_LEN + length)?;
    match front(key, place as u64, &bytes) {
        Some(len) => Ok(Some(Chunk { bytes, len })),
        None => Ok(None),
    }
}
