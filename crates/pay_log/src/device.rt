//! A file as a log sees it. The file grows at its end, and a crash may leave any form of the bytes
//! that no sync has followed. For tests, a file in memory behaves like this.

ghost use Rattle.std.specs.Prelude.{◌≡◌, ◌≤◌, ◌++◌, List, ℕ, length, drop, take, IfOk, OnOk, ◌⊎◌};
ghost use Rattle.std.specs.Prelude.{[]};
ghost use Rattle.std.proofs.Common.{inl};
ghost use Rattle.pay_log.specs.Device.{Elapses, Follows, IsUnchanged, Only, Stays, Torn};
ghost use Rattle.pay_log.specs.Lossy.{HadBeen, lossy_bytes, only_now};

use std::alloc::{AllocError, AllocFailed, Global};
use std::io::ErrorKind;
use thiserror::Error;

/// The reason why a device doesn't read.
#[derive(Clone, Copy, Debug, PartialEq, Eq, Error)]
pub enum DeviceFault {
    /// An allocation failed.
    #[error("no memory")]
    Memory,
    /// The disk failed, as the system reports it.
    #[error("the disk failed")]
    Disk(ErrorKind),
}

impl From<AllocError> for DeviceFault {
    ghost use Rattle.pay_log.specs.declared.device.DeviceFault.TheVariants.{Memory};

    ghost from_gives = { λ _ e. e ≡ Memory };

    fn from(_error: AllocError) -> DeviceFault {
        DeviceFault::Memory
    }
}

impl<T: Drop> From<AllocFailed<T>> for DeviceFault {
    ghost use Rattle.pay_log.specs.declared.device.DeviceFault.TheVariants.{Memory};

    ghost from_gives = { λ _ e. e ≡ Memory };

    fn from(_error: AllocFailed<T>) -> DeviceFault {
        DeviceFault::Memory
    }
}

impl From<ErrorKind> for DeviceFault {
    ghost use Rattle.pay_log.specs.declared.device.DeviceFault.TheVariants.{Disk};

    ghost from_gives = { λ kind e. e ≡ Disk kind };

    fn from(kind: ErrorKind) -> DeviceFault {
        DeviceFault::Disk(kind)
    }
}

/// A file.
pub trait Device {
    // Says that the file's contents are known. Of a real file they never are, and nothing is
    // claimed.
    ghost is_known: { Self → Type 0 };

    // The bytes that a read returns.
    ghost seen: { Self → List ℕ };

    // Says which bytes a crash at this moment may leave.
    ghost may_leave: { Self → List ℕ → Type 0 };

    // The current moment, as a number that never falls.
    ghost moment: { Self → ℕ };

    // Says which bytes a crash at or after an earlier moment might have left, during a call or
    // between two calls.
    ghost left_since: { Self → ℕ → List ℕ → Type 0 };

    /// Returns `most` bytes from index `from` on, or fewer if the file ends before.
    fn read(&mut self, alloc: Global, from: usize, most: usize) -> Result<Vec<u8>, DeviceFault>
        ensures bytes { is_known self.old → IfOk result (λ bytes.
            bytes.items ≡ take most (drop from (seen self.old))) }
        ensures unchanged { is_known self.old →
            IsUnchanged is_known seen may_leave moment left_since self.old self.new };

    /// Appends `bytes` to the file. Until a sync, a crash may leave at most as many bytes there, of
    /// any kind. It fails as the system reports it.
    fn append(&mut self, bytes: &[u8]) -> Result<(), ErrorKind>
        ensures known { is_known self.old → is_known self.new }
        ensures appended { is_known self.old →
            OnOk result (seen self.new ≡ seen self.old ++ bytes.now) }
        ensures crash { is_known self.old →
            Follows (Torn (length bytes.now)) (may_leave self.old) (may_leave self.new) }
        ensures time { is_known self.old → Elapses (moment self.old) (moment self.new)
            (left_since self.old) (left_since self.new) (may_leave self.new) };

    /// Syncs the file. After that, a crash leaves what a read returns. It fails as the system
    /// reports it.
    fn sync(&mut self) -> Result<(), ErrorKind>
        ensures known { is_known self.old → is_known self.new }
        ensures durable { is_known self.old →
            OnOk result (Only (seen self.old) (may_leave self.new)) }
        ensures seen { is_known self.old → seen self.new ≡ seen self.old }
        ensures crash { is_known self.old → Stays (may_leave self.old) (may_leave self.new) }
        ensures time { is_known self.old → Elapses (moment self.old) (moment self.new)
            (left_since self.old) (left_since self.new) (may_leave self.new) };

    // The current moment counts among those since an earlier moment.
    ghost counts_now: { (file : Self) (t : ℕ) (c : List ℕ)
        → t ≤ moment file → may_leave file c → left_since file t c };

    // There is no other moment since the current one.
    ghost only_now: { (file : Self) (c : List ℕ) → left_since file (moment file) c
        → may_leave file c };
}

/// The failure of a file in memory that has no room for its bytes.
const NO_ROOM: ErrorKind = ErrorKind::StorageFull;

/// What a crash might have left: these bytes, and then any other bytes up to this length.
#[derive(Drop)]
struct Left {
    synced: Vec<u8>,
    unsynced_len: usize,
}

/// A file in memory that behaves like a file on a disk. It keeps what a crash might have left at
/// each moment.
#[derive(Drop)]
pub struct LossyFile {
    alloc: Global,
    synced: Vec<u8>,
    unsynced: Vec<u8>,
    past: Vec<Left>,
}

impl LossyFile {
    /// Returns a file with `bytes`, all of them on the disk.
    pub fn new(alloc: Global, bytes: Vec<u8>) -> LossyFile
        ensures bytes { lossy_bytes result ≡ bytes.items }
        ensures synced { result.unsynced.items ≡ [] }
    {
        LossyFile {
            alloc,
            synced: bytes,
            unsynced: Vec::new(alloc),
            past: Vec::new(alloc),
        }
    }

    // Returns what a crash may leave now.
    fn may_leave(&self) -> Result<Left, AllocError>
        ensures { IfOk result (λ left. (left.synced.items ≡ self.now.synced.items)
            × (left.unsynced_len ≡ length self.now.unsynced.items)) }
    {
        Ok(Left {
            synced: self.synced.to_vec(self.alloc)?,
            unsynced_len: self.unsynced.len(),
        })
    }
}

// Returns `bytes` followed by `more`.
fn concatenate(alloc: Global, bytes: &[u8], more: &[u8]) -> Result<Vec<u8>, AllocError>
    ensures { IfOk result (λ all. all.items ≡ bytes.now ++ more.now) }
{
    let mut all = bytes.to_vec(alloc)?;
    all.extend_from_slice(more)?;
    Ok(all)
}

// Returns `most` of `bytes` from index `from` on, or fewer if they end before.
fn range(bytes: &[u8], from: usize, most: usize) -> &[u8]
    ensures { result.now ≡ take most (drop from bytes.now) }
{
    if from >= bytes.len() {
        return &bytes[..0];
    }
    let rest = &bytes[from..];
    if most >= rest.len() {
        rest
    } else {
        &rest[..most]
    }
}

impl Device for LossyFile {
    ghost is_known = { λ _. Unit {0} };

    ghost seen = { λ f. f.synced.items ++ f.unsynced.items };

    ghost may_leave = { λ f c. Torn (length f.unsynced.items) f.synced.items c };

    ghost moment = { λ f. length f.past.items };

    ghost left_since = { λ f t c. Torn (length f.unsynced.items) f.synced.items c
        ⊎ HadBeen (drop t f.past.items) c };

    ghost counts_now = { λ f t c le now. inl now };

    ghost only_now = { λ f c left. only_now f.past.items
        (Torn (length f.unsynced.items) f.synced.items c) c left };

    fn read(&mut self, alloc: Global, from: usize, most: usize) -> Result<Vec<u8>, DeviceFault> {
        let bytes = concatenate(alloc, &self.synced, &self.unsynced)?;
        Ok(range(&bytes, from, most).to_vec(alloc)?)
    }

    fn append(&mut self, bytes: &[u8]) -> Result<(), ErrorKind> {
        let Ok(next) = concatenate(self.alloc, &self.unsynced, bytes) else {
            return Err(NO_ROOM);
        };
        let Ok(left) = self.may_leave() else {
            return Err(NO_ROOM);
        };
        let Ok(()) = self.past.push(left) else {
            return Err(NO_ROOM);
        };
        self.unsynced = next;
        Ok(())
    }

    fn sync(&mut self) -> Result<(), ErrorKind> {
        let Ok(next) = concatenate(self.alloc, &self.synced, &self.unsynced) else {
            return Err(NO_ROOM);
        };
        let Ok(left) = self.may_leave() else {
            return Err(NO_ROOM);
        };
        let Ok(()) = self.past.push(left) else {
            return Err(NO_ROOM);
        };
        self.synced = next;
        self.unsynced = Vec::new(self.alloc);
        Ok(())
    }
}
