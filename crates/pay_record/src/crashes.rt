//! What a start finds in a log that a crash left.

ghost use Rattle.std.specs.Prelude.{◌≡◌, ◌≢◌, ◌++◌, ◌∷◌, [], ℕ, List, None, OnOk, Some};
ghost use Rattle.std.specs.List.{All, flat_map};
ghost use Rattle.pay_link.specs.Genesis.{GenesisFields};
ghost use Rattle.pay_link.specs.Keys.{KeyFields};
ghost use Rattle.pay_log.specs.Chunks.{IsShort};
ghost use Rattle.pay_log.specs.Device.{LeavesOnly};
ghost use Rattle.pay_log.specs.Logs.{IsSynced};
ghost use Rattle.pay_record.specs.Crashes.{AppendsOnDisk, HasOnDisk, ShorterStartsToo, StartsAs};
ghost use Rattle.pay_record.specs.Crashes.{StartsWith};
ghost use Rattle.pay_record.specs.Loggable.{IsLoggable};
ghost use Rattle.pay_record.specs.Records.{LoggedFields, record_of};

use crate::laws::one_list;
use pay_log::laws::one_reading;
use pay_log::{Device, DeviceFault, Log};
use std::alloc::Global;
use std::io::ErrorKind;

/// States that a start that begins with some entries begins with each prefix of these.
// promise: crashes
pub fn shorter_starts_too()
    ensures { ShorterStartsToo }
{}

/// States that a crash at this moment leaves `log` unchanged, if all of it is on the disk: a start
/// has just its entries.
// promise: crashes
pub fn settled_log_starts<D: Device>(log: &Log<D>)
    ensures { (g : GenesisFields) (k : KeyFields) (logged : List LoggedFields) (file : List ℕ)
        → HasOnDisk D.is_known D.seen D.may_leave g k log.now logged
        → D.may_leave log.now.device file → StartsAs g k logged file }
{
    one_list();
    one_reading();
}

/// States that crashes add up over two runs of calls, one after the other. If each crash within a
/// run leaves a file with which a start begins with some entries, so does each crash within both.
// promise: crashes
pub fn crashes_add_up<D: Device>(_device: &D)
    ensures { (g : GenesisFields) (k : KeyFields) (logged : List LoggedFields) (old mid new : D)
        → LeavesOnly D.moment D.left_since old mid (StartsWith g k logged)
        → LeavesOnly D.moment D.left_since mid new (StartsWith g k logged)
        → LeavesOnly D.moment D.left_since old new (StartsWith g k logged) }
{}

/// Appends `records`, those of further entries, to `log`. A crash at any moment since leaves a file
/// with which a start has all entries that were on the disk before. After `Ok` the further entries
/// are on the disk too. If memory runs out nothing has changed. After a failed write or sync each
/// further call fails in this way.
// promise: crashes (on_disk, since)
pub fn append_records<D: Device>(
    alloc: Global,
    log: &mut Log<D>,
    records: &[u8],
) -> Result<(), DeviceFault>
    requires { IsShort records.now }
    ensures on_disk { OnOk result
        (AppendsOnDisk D.is_known D.seen D.may_leave log.old log.new records.now) }
    ensures since { (g : GenesisFields) (k : KeyFields) (logged further : List LoggedFields)
        → HasOnDisk D.is_known D.seen D.may_leave g k log.old logged
        → All (IsLoggable k) further → flat_map record_of further ≡ records.now
        → LeavesOnly D.moment D.left_since log.old.device log.new.device (StartsWith g k logged) }
    ensures acknowledged { OnOk result ((header : List ℕ) (ps : List (List ℕ))
        → IsSynced D.is_known D.seen D.may_leave log.old header ps
        → IsSynced D.is_known D.seen D.may_leave log.new header (ps ++ records.now ∷ [])) }
    ensures key { log.new.key ≡ log.old.key }
    ensures memory { result ≡ Err DeviceFault.Memory → log.new ≡ log.old }
    ensures fails { (kind : ErrorKind) → result ≡ Err (DeviceFault.Disk kind)
        → log.new.failure ≡ Some kind }
    ensures stopped { (kind : ErrorKind) → log.old.failure ≡ Some kind
        → result ≡ Err (DeviceFault.Disk kind) }
    ensures untouched { log.old.failure ≢ None → log.new ≡ log.old }
{
    one_list();
    one_reading();
    log.append(alloc, records)
}
