//! A member with its log: a fresh one, one that starts again from its log, and one that is only
//! read from it. Each record of a log is replayed.

ghost use Rattle.std.specs.Prelude.{◌≡◌, ◌++◌, ◌≤◌, ℕ, IfOk, OnOk, false, length, drop, [], List};
ghost use Rattle.std.specs.Prelude.{IfErr, take};
ghost use Rattle.std.specs.Bool.{OnTrue};
ghost use Rattle.std.specs.Option.{option_to_list};
ghost use Rattle.pay_log.specs.Damage.{IsDamaged};
ghost use Rattle.pay_log.specs.Device.{IsUnchanged};
ghost use Rattle.pay_log.specs.Faults.{IsReadFault};
ghost use Rattle.pay_log.specs.Headers.{IsForeignHeader, header_bytes};
ghost use Rattle.pay_log.specs.Logs.{IsSynced};
ghost use Rattle.pay_log.specs.declared.chunk.TheConstants.{HEADER_LEN};
ghost use Rattle.pay_log.specs.declared.header.Mismatch.{Mismatch};
ghost use Rattle.pay_link.specs.Keys.{IsKeysOf};
ghost use Rattle.pay_member.specs.Events.{events};
ghost use Rattle.pay_member.specs.Group.{group_in};
ghost use Rattle.pay_member.specs.Legal.{IsOwed};
ghost use Rattle.pay_member.specs.Member.{with_entry};
ghost use Rattle.pay_member.specs.Remembering.{HasForgotten, Remembers};
ghost use Rattle.pay_record.specs.Identity.{header_of, log_key_of};
ghost use Rattle.pay_record.specs.Resuming.{HasResumed, IsRefusedAt, id_by, IsIllegalLog, IsLogOf};
ghost use Rattle.pay_record.specs.Resuming.{IsOfRecords, IsResumed};
ghost use Rattle.pay_record.specs.Starts.{IsForgottenLog, IsRestartFault, fresh_member};

use crate::identity::{log_header, log_key};
use crate::reading::{RecordFault, read_record};
use pay_book::Settle;
use pay_echo::Instance;
use pay_link::{Genesis, Keys};
use pay_log::{Device, Log, LogFault, Recovered, Refused, Sink, read_log, recover};
use pay_member::{Event, HistoryEntry, Member, MemberFault};
use std::alloc::{AllocError, Global};

/// Replays the entries of the records in `payload` at `member`, and keeps the ids of the submitted
/// values among them in `ids`. Each reply has to be the record's. After a fault neither `member`
/// nor `ids` may be used further.
pub(crate) fn take_payload<I: Instance + Drop, B: Settle + Drop>(
    alloc: Global,
    member: &mut Member<I, B>,
    ids: &mut Vec<u64>,
    payload: &[u8],
) -> Result<(), Refused>
    ensures taken { OnOk result (HasResumed member.old.keys member.old member.new
        ids.old.items ids.new.items payload.now) }
    ensures refused { (number : ℕ) → result ≡ Err (Refused.Record number) →
        IsRefusedAt member.old.keys member.old payload.now number }
{
    let mut rest = payload;
    while !rest.is_empty() {
        let number = member.history().len() as u64;
        let (entry, id, len) = match read_record(alloc, member.keys(), rest) {
            Ok(found) => found,
            Err(RecordFault::Memory) => return Err(Refused::Memory),
            Err(RecordFault::NoRecord) => return Err(Refused::Record(number)),
        };
        note(ids, &entry, id)?;
        if !take_again(alloc, member, entry)? {
            return Err(Refused::Record(number));
        }
        rest = bytes_after(rest, len);
    }
    Ok(())
}

// Keeps the id of a submitted value.
fn note(ids: &mut Vec<u64>, entry: &HistoryEntry, id: u64) -> Result<(), AllocError>
    ensures { OnOk result (ids.new.items
        ≡ ids.old.items ++ option_to_list (id_by entry.now.event id)) }
{
    match entry.event {
        Event::Ask(_) => Ok(ids.push(id)?),
        Event::Taken(_) | Event::Query(_) => Ok(()),
    }
}

// Returns the bytes after the first `len`.
fn bytes_after(bytes: &[u8], len: usize) -> &[u8]
    requires { len ≤ length bytes.now }
    ensures { result.now ≡ drop len bytes.now }
{
    &bytes[len..]
}

// Hands `entry` in again, and returns whether it is the one owed. If it isn't, the member may not
// be used further.
fn take_again<I: Instance + Drop, B: Settle + Drop>(
    alloc: Global,
    member: &mut Member<I, B>,
    entry: HistoryEntry,
) -> Result<bool, AllocError>
    ensures owed { IfOk result (λ owed.
        OnTrue owed (member.new ≡ with_entry member.old entry)) }
    ensures other { result ≡ Ok false → IsOwed member.old.genesis member.old.keys
        (events member.old.history) entry → ⊥ }
{
    let HistoryEntry {
        stamp,
        event,
        reply,
    } = entry;
    match member.hand_in(alloc, stamp, event) {
        Ok(again) => Ok(again == reply),
        Err(MemberFault::Memory) => Err(AllocError),
        Err(_) => Ok(false),
    }
}

/// A member that accepts payloads of records.
#[derive(Drop)]
struct Resuming<I: Instance + Drop, B: Settle + Drop> {
    member: Member<I, B>,
    ids: Vec<u64>,
}

impl<I: Instance + Drop, B: Settle + Drop> Resuming<I, B> {
    // Creates one of a fresh member, with copies of `genesis` and `keys`.
    fn new(alloc: Global, genesis: &Genesis, keys: &Keys) -> Result<Resuming<I, B>, AllocError>
        requires { IsKeysOf genesis.now keys.now }
        ensures member { IfOk result (λ r. r.member ≡ fresh_member genesis.now keys.now) }
        ensures ids { IfOk result (λ r. r.ids.items ≡ []) }
    {
        Ok(Resuming {
            member: Member::new(alloc, genesis.copy(alloc)?, keys.copy(alloc)?)?,
            ids: Vec::new(alloc),
        })
    }
}

impl<I: Instance + Drop, B: Settle + Drop> Sink for Resuming<I, B> {
    ghost takes = { λ old new payload. HasResumed old.member.keys old.member new.member
        old.ids.items new.ids.items payload };

    ghost refuses = { λ old payload number.
        IsRefusedAt old.member.keys old.member payload number };

    fn take(&mut self, alloc: Global, payload: &[u8]) -> Result<(), Refused> {
        take_payload(alloc, &mut self.member, &mut self.ids, payload)
    }
}

/// A member, the ids of its submitted values in their order, and its log. `len` is the size in
/// bytes of the record blocks in the file that it was read from.
#[derive(Drop)]
pub struct Restarted<D, I: Instance + Drop, B: Settle + Drop> {
    pub member: Member<I, B>,
    pub ids: Vec<u64>,
    pub log: Log<D>,
    pub len: usize,
}

/// A member as its log has it, the ids of its submitted values, and the size in bytes of the log's
/// record blocks.
#[derive(Drop)]
pub struct Resumed<I: Instance + Drop, B: Settle + Drop> {
    pub member: Member<I, B>,
    pub ids: Vec<u64>,
    pub len: usize,
}

/// Returns a fresh member of `genesis` with these `keys`, and its log in the empty file `device`.
// promise: starting again (log)
pub fn begin<D: Device + Drop, I: Instance + Drop, B: Settle + Drop>(
    alloc: Global,
    device: D,
    genesis: &Genesis,
    keys: &Keys,
) -> Result<Restarted<D, I, B>, LogFault>
    requires { IsKeysOf genesis.now keys.now }
    ensures member { IfOk result (λ r. r.member ≡ fresh_member genesis.now keys.now) }
    ensures ids { IfOk result (λ r. r.ids.items ≡ []) }
    ensures log { IfOk result (λ r. D.is_known device → D.seen device ≡ [] →
        IsSynced D.is_known D.seen D.may_leave r.log
        (header_bytes (header_of genesis.now keys.now)) []) }
    ensures key { IfOk result (λ r. r.log.key ≡ log_key_of keys.now) }
{
    let key = log_key(alloc, keys)?;
    let header = log_header(alloc, genesis, keys)?;
    let Resuming { member, ids } = Resuming::new(alloc, genesis, keys)?;
    let log = Log::create(alloc, device, &key, &header)?;
    Ok(Restarted {
        member,
        ids,
        log,
        len: 0,
    })
}

/// Returns the member with the history of the records in the log `old`, and the log, which is
/// written again into the empty file `new`. The member has this `genesis` and these `keys`, and
/// each frame is authenticated again. A member that lost state isn't started again. The old file
/// stays unchanged.
// promise: starting again (records, resumed, illegal); forgetting (remembers, forgotten)
pub fn restart<D: Device + Drop, I: Instance + Drop, B: Settle + Drop>(
    alloc: Global,
    old: &mut D,
    new: D,
    genesis: &Genesis,
    keys: &Keys,
) -> Result<Restarted<D, I, B>, LogFault>
    requires { IsKeysOf genesis.now keys.now }
    ensures genesis { IfOk result (λ r. r.member.genesis ≡ genesis.now) }
    ensures keys { IfOk result (λ r. r.member.keys ≡ keys.now) }
    ensures records { IfOk result (λ r. (ps : List (List ℕ))
        × IsOfRecords keys.now r.member r.ids.items ps) }
    ensures key { IfOk result (λ r. r.log.key ≡ log_key_of keys.now) }
    ensures resumed { IfOk result (λ r. D.is_known old.old → D.is_known new → D.seen new ≡ [] →
        IsResumed
        (record { is_known = D.is_known; seen = D.seen; may_leave = D.may_leave })
        keys.now (header_bytes (header_of genesis.now keys.now)) (D.seen old.old)
        (record { member = r.member; ids = r.ids.items; len = r.len }) r.log) }
    ensures remembers { IfOk result (λ r.
        Remembers (group_in genesis.now keys.now.own) (events r.member.history)) }
    ensures undamaged { IfOk result (λ _. D.is_known old.old → (count : ℕ) → IsDamaged
        (log_key_of keys.now) (header_bytes (header_of genesis.now keys.now)) (D.seen old.old)
        count → ⊥) }
    ensures fault { IfErr result IsRestartFault }
    ensures foreign { (part : Mismatch) → result ≡ Err (LogFault.Foreign part)
        → D.is_known old.old → IsForeignHeader (header_of genesis.now keys.now)
        (take HEADER_LEN (D.seen old.old)) part }
    ensures damaged { (count : ℕ) → result ≡ Err (LogFault.Damaged count)
        → D.is_known old.old → IsDamaged (log_key_of keys.now)
        (header_bytes (header_of genesis.now keys.now)) (D.seen old.old) count }
    ensures illegal { (number : ℕ) → result ≡ Err (LogFault.Illegal number)
        → D.is_known old.old → IsIllegalLog keys.now
        (log_key_of keys.now) (header_bytes (header_of genesis.now keys.now)) (D.seen old.old)
        (fresh_member genesis.now keys.now) number }
    ensures forgotten { result ≡ Err LogFault.Forgotten → D.is_known old.old → D.is_known new
        → D.seen new ≡ [] → IsForgottenLog genesis.now keys.now (D.seen old.old) }
    ensures unchanged { D.is_known old.old →
        IsUnchanged D.is_known D.seen D.may_leave D.moment D.left_since old.old old.new }
{
    let key = log_key(alloc, keys)?;
    let header = log_header(alloc, genesis, keys)?;
    let resuming = Resuming::new(alloc, genesis, keys)?;
    let Recovered { log, sink, len } = recover(alloc, old, new, &key, &header, resuming)?;
    let Resuming { member, ids } = sink;
    refuse_forgotten(&member)?;
    Ok(Restarted {
        member,
        ids,
        log,
        len,
    })
}

// Refuses a member that has lost state.
fn refuse_forgotten<I: Instance + Drop, B: Settle + Drop>(
    member: &Member<I, B>,
) -> Result<(), LogFault>
    ensures remembers { OnOk result (Remembers
        (group_in member.now.genesis member.now.keys.own) (events member.now.history)) }
    ensures forgotten { IfErr result (λ fault. (fault ≡ LogFault.Forgotten) × HasForgotten
        (group_in member.now.genesis member.now.keys.own) (events member.now.history)) }
{
    if member.view().has_forgotten() {
        return Err(LogFault::Forgotten);
    }
    Ok(())
}

/// Returns the member of `genesis` with these `keys` and the history of the records in the log
/// `device`, which is only read. The member may have lost state.
pub fn view<D: Device, I: Instance + Drop, B: Settle + Drop>(
    alloc: Global,
    device: &mut D,
    genesis: &Genesis,
    keys: &Keys,
) -> Result<Resumed<I, B>, LogFault>
    requires { IsKeysOf genesis.now keys.now }
    ensures genesis { IfOk result (λ r. r.member.genesis ≡ genesis.now) }
    ensures keys { IfOk result (λ r. r.member.keys ≡ keys.now) }
    ensures viewed { IfOk result (λ r. D.is_known device.old → (ps : List (List ℕ))
        × IsLogOf keys.now (log_key_of keys.now)
        (header_bytes (header_of genesis.now keys.now)) (D.seen device.old)
        (record { member = r.member; ids = r.ids.items; len = r.len }) ps) }
    ensures fault { IfErr result IsReadFault }
    ensures unchanged { D.is_known device.old →
        IsUnchanged D.is_known D.seen D.may_leave D.moment D.left_since device.old device.new }
{
    let key = log_key(alloc, keys)?;
    let header = log_header(alloc, genesis, keys)?;
    let mut resuming = Resuming::new(alloc, genesis, keys)?;
    let len = read_log(alloc, device, &key, &header, &mut resuming)?;
    let Resuming { member, ids } = resuming;
    Ok(Resumed { member, ids, len })
}
