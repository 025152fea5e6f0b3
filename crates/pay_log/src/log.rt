//! A log over a device. It is read once, written again, and then grows by one record block for each
//! call.

ghost use Rattle.std.specs.Prelude.{◌≡◌, ◌++◌, ◌∷◌, [], ℕ, List, IfErr, IfOk, OnOk, ◌≢◌, None};
ghost use Rattle.std.specs.Prelude.{Some, take};
ghost use Rattle.pay_log.specs.Chunks.{IsShort};
ghost use Rattle.pay_log.specs.Damage.{IsByChance, IsDamaged};
ghost use Rattle.pay_log.specs.Device.{IsUnchanged, LeavesOnly};
ghost use Rattle.pay_log.specs.Faults.{IsReadFault};
ghost use Rattle.pay_log.specs.Headers.{IsForeignHeader, header_bytes};
ghost use Rattle.pay_log.specs.Logs.{IsSynced, IsWithOrWithout};
ghost use Rattle.pay_log.specs.Recovery.{IsBegun, IsRecovered, IsRefusedLog};
ghost use Rattle.pay_log.specs.Sinks.{TakesAll};
ghost use Rattle.pay_log.specs.declared.header.Mismatch.{Mismatch};

use crate::chunk::{HEADER_LEN, LogKey, MOST_PLACE, encode};
use crate::device::{Device, DeviceFault};
use crate::fault::LogFault;
use crate::header::Header;
use crate::reading::{Refused, Sink, read_log};
use std::alloc::Global;
use std::io::ErrorKind;

/// The failure of a log that is too long, which counts as a full disk.
const TOO_LONG: ErrorKind = ErrorKind::StorageFull;

// The log uses one sync for each record block, and a checksum under a secret key. A byte written
// after the rest is on the disk would need two syncs. The clauses have a case for a checksum that
// fits by chance (`IsStray`, `IsByChance`).
//
// After a failed write or sync a log refuses every call, and each start writes it again. The kernel
// may show pages that it never wrote, so neither a second sync nor a read proves anything.
/// An open log, with the place after its last record block.
#[derive(Drop)]
pub struct Log<D> {
    device: D,
    key: LogKey,
    place: u64,
    failure: Option<ErrorKind>,
}

impl<D: Device + Drop> Log<D> {
    /// Creates a log without payloads in the empty file `device`, under `key` and with `header`,
    /// and syncs it.
    pub fn create(
        alloc: Global,
        device: D,
        key: &[u8; 32],
        header: &Header,
    ) -> Result<Log<D>, DeviceFault>
        ensures created { IfOk result (λ log. D.is_known device → D.seen device ≡ [] →
            IsSynced D.is_known D.seen D.may_leave log (header_bytes header.now) []) }
        ensures key { IfOk result (λ log. log.key ≡ key.now) }
    {
        let mut log = Log::begin(alloc, device, key, header)?;
        log.device.sync()?;
        Ok(log)
    }

    // Creates a log without payloads in the empty file `device`. Nothing of it may be on the disk
    // yet.
    fn begin(
        alloc: Global,
        device: D,
        key: &[u8; 32],
        header: &Header,
    ) -> Result<Log<D>, DeviceFault>
        ensures begun { IfOk result (λ log. D.is_known device → D.seen device ≡ [] →
            IsBegun D.is_known D.seen log (header_bytes header.now)) }
        ensures key { IfOk result (λ log. log.key ≡ key.now) }
        ensures place { IfOk result (λ log. log.place ≡ 0) }
        ensures works { IfOk result (λ log. log.failure ≡ None) }
    {
        let mut device = device;
        let bytes = header.encode(alloc)?;
        device.append(&bytes)?;
        Ok(Log {
            device,
            key: LogKey::new(*key),
            place: 0,
            failure: None,
        })
    }
}

impl<D> Log<D> {
    /// Returns how a write or a sync failed, if one did.
    pub fn failure(&self) -> Option<ErrorKind>
        ensures { result ≡ self.now.failure }
    {
        self.failure
    }
}

impl<D: Device> Log<D> {
    /// Appends `payload`. At `Ok` it is acknowledged: from then on each crash leaves a file that
    /// contains it. If memory runs out nothing has changed. After a failed write or sync each
    /// further call fails in this way, without using the disk.
    // promise: crashes (acknowledged, any_moment, key, stopped); reading a log (no_damage)
    pub fn append(&mut self, alloc: Global, payload: &[u8]) -> Result<(), DeviceFault>
        requires { IsShort payload.now }
        ensures acknowledged { OnOk result ((header : List ℕ) (ps : List (List ℕ))
            → IsSynced D.is_known D.seen D.may_leave self.old header ps
            → IsSynced D.is_known D.seen D.may_leave self.new header (ps ++ payload.now ∷ [])) }
        ensures any_moment { (header : List ℕ) (ps : List (List ℕ))
            → IsSynced D.is_known D.seen D.may_leave self.old header ps
            → LeavesOnly D.moment D.left_since self.old.device self.new.device
            (IsWithOrWithout self.old.key header ps payload.now) }
        ensures no_damage { (header : List ℕ) (ps : List (List ℕ))
            → IsSynced D.is_known D.seen D.may_leave self.old header ps
            → LeavesOnly D.moment D.left_since self.old.device self.new.device
            (λ file. (count : ℕ) → IsDamaged self.old.key header file count
            → IsByChance self.old.key header ps payload.now file) }
        ensures key { self.new.key ≡ self.old.key }
        ensures memory { result ≡ Err DeviceFault.Memory → self.new ≡ self.old }
        ensures fails { (kind : ErrorKind) → result ≡ Err (DeviceFault.Disk kind)
            → self.new.failure ≡ Some kind }
        ensures stopped { (kind : ErrorKind) → self.old.failure ≡ Some kind
            → result ≡ Err (DeviceFault.Disk kind) }
        ensures untouched { self.old.failure ≢ None → self.new ≡ self.old }
    {
        if let Some(kind) = self.failure {
            return Err(DeviceFault::Disk(kind));
        }
        if self.place >= MOST_PLACE {
            return Err(keep(&mut self.failure, TOO_LONG));
        }
        let chunk = encode(alloc, &self.key, self.place, payload)?;
        match self.device.append(&chunk) {
            Ok(()) => {}
            Err(kind) => return Err(keep(&mut self.failure, kind)),
        }
        match self.device.sync() {
            Ok(()) => {}
            Err(kind) => return Err(keep(&mut self.failure, kind)),
        }
        self.place += chunk.len() as u64;
        Ok(())
    }
}

// Keeps how a write or a sync failed, and returns it as a fault.
fn keep(failure: &mut Option<ErrorKind>, kind: ErrorKind) -> DeviceFault
    ensures fault { result ≡ DeviceFault.Disk kind }
    ensures kept { failure.new ≡ Some kind }
{
    *failure = Some(kind);
    DeviceFault::Disk(kind)
}

/// A sink that also writes each payload it accepts into a log.
#[derive(Drop)]
struct Copying<D, S> {
    log: Log<D>,
    sink: S,
}

impl<D: Device, S: Sink> Sink for Copying<D, S> {
    ghost use Rattle.pay_log.specs.Recovery.{IsCopied};

    ghost takes = { λ old new payload. S.takes old.sink new.sink payload
        × IsCopied D.is_known D.seen old.log new.log payload };

    ghost refuses = { λ old payload number. S.refuses old.sink payload number };

    fn take(&mut self, alloc: Global, payload: &[u8]) -> Result<(), Refused> {
        self.sink.take(alloc, payload)?;
        if self.log.place >= MOST_PLACE {
            return Err(Refused::Disk(TOO_LONG));
        }
        let chunk = encode(alloc, &self.log.key, self.log.place, payload)?;
        self.log.device.append(&chunk)?;
        self.log.place += chunk.len() as u64;
        Ok(())
    }
}

/// A log that was written again, the sink of its payloads, and the size of the record blocks in the
/// old file.
#[derive(Drop)]
pub struct Recovered<D, S> {
    pub log: Log<D>,
    pub sink: S,
    pub len: usize,
}

/// Reads a log that a crash may have left, passes its payloads to `sink`, and writes them into the
/// empty file `new`. Bytes that are no record block are left out. The old file stays unchanged.
// promise: reading a log (recovered, undamaged, foreign, damaged, illegal, fault, unchanged)
pub fn recover<D: Device + Drop, S: Sink + Drop>(
    alloc: Global,
    old: &mut D,
    new: D,
    key: &[u8; 32],
    header: &Header,
    sink: S,
) -> Result<Recovered<D, S>, LogFault>
    ensures fed { IfOk result (λ r. (ps : List (List ℕ)) × TakesAll S.takes sink r.sink ps) }
    ensures recovered { IfOk result (λ r. D.is_known old.old → D.is_known new → D.seen new ≡ [] →
        IsRecovered
        (record { is_known = D.is_known; seen = D.seen; may_leave = D.may_leave })
        S.takes (header_bytes header.now) (D.seen old.old) sink r) }
    ensures undamaged { IfOk result (λ _. D.is_known old.old → (count : ℕ)
        → IsDamaged key.now (header_bytes header.now) (D.seen old.old) count → ⊥) }
    ensures key { IfOk result (λ r. r.log.key ≡ key.now) }
    ensures fault { IfErr result IsReadFault }
    ensures foreign { (part : Mismatch) → result ≡ Err (LogFault.Foreign part)
        → D.is_known old.old
        → IsForeignHeader header.now (take HEADER_LEN (D.seen old.old)) part }
    ensures damaged { (count : ℕ) → result ≡ Err (LogFault.Damaged count)
        → D.is_known old.old
        → IsDamaged key.now (header_bytes header.now) (D.seen old.old) count }
    ensures illegal { (number : ℕ) → result ≡ Err (LogFault.Illegal number)
        → D.is_known old.old → IsRefusedLog S.takes S.refuses key.now
        (header_bytes header.now) (D.seen old.old) sink number }
    ensures unchanged { D.is_known old.old →
        IsUnchanged D.is_known D.seen D.may_leave D.moment D.left_since old.old old.new }
{
    let log = Log::begin(alloc, new, key, header)?;
    let mut copying = Copying { log, sink };
    let len = read_log(alloc, old, key, header, &mut copying)?;
    let Copying { log, sink } = copying;
    let mut log = log;
    log.device.sync()?;
    Ok(Recovered { log, sink, len })
}
