//! A log that follows a member's history.

ghost use Rattle.std.specs.Prelude.{◌≡◌, ◌≢◌, ◌<◌, ◌≤◌, ◌⊎◌, IfSome, IsTrue, None, OnErr, OnOk};
ghost use Rattle.std.specs.Prelude.{Err, Some, [], length};
ghost use Rattle.pay_durable.specs.declared.following.TheConstants.{FULL};
ghost use Rattle.pay_log.specs.declared.chunk.TheConstants.{MOST_PAYLOAD};
ghost use Rattle.pay_durable.specs.Following.{AllKnown, HasGathered, IsFlushed, IsFollowingSome};
ghost use Rattle.pay_durable.specs.Following.{id_under};
ghost use Rattle.pay_durable.specs.Kept.{AreDurable, HasAtLeast};
ghost use Rattle.pay_record.specs.Crashes.{AppendsOnDisk};

use pay_log::{Device, DeviceFault, Log, MOST_PAYLOAD};
use pay_member::{HistoryEntry, Reply};
use pay_node::OwnMember;
use pay_record::laws::{legal_entries_have_room, one_list};
use pay_record::{MOST_RECORD, append_records, push_record};
use std::alloc::{AllocError, Global};
use std::io::ErrorKind;
use std::marker::Model;

/// The most bytes that may wait before a further record is gathered.
const FULL: usize = MOST_PAYLOAD - MOST_RECORD;

/// A log with the records of the first entries of a member's history, and the records of later
/// entries that were gathered and aren't written yet. Nothing is claimed of it after its log
/// failed.
#[derive(Drop)]
pub(crate) struct Following<D: Device> {
    log: Log<D>,
    count: usize,
    pending: Vec<u8>,
}

impl<D: Device> Model for Following<D> {
    ghost use Rattle.std.specs.Prelude.{◌≡◌, ◌≤◌, None, length};
    ghost use Rattle.pay_durable.specs.Following.{AllKnown, FollowingFields, IsFollowingSome};
    ghost use Rattle.pay_log.specs.declared.chunk.TheConstants.{MOST_PAYLOAD};

    ghost Value = { FollowingFields D };

    ghost view = { λ f. record { log = f.log; count = f.count; pending = f.pending.items } };

    ghost invariant = { λ f. (length f.pending.items ≤ MOST_PAYLOAD)
        × (AllKnown D.is_known → f.log.failure ≡ None
        → IsFollowingSome D.is_known D.seen D.may_leave f.log f.pending.items f.count) };
}

impl<D: Device + Drop> Following<D> {
    /// Creates a log from `log`, which has the records of `count` entries.
    pub(crate) fn new(alloc: Global, log: Log<D>, count: usize) -> Following<D>
        requires { AllKnown D.is_known
            → IsFollowingSome D.is_known D.seen D.may_leave log [] count }
        ensures { result ≡ record { log = log; count = count; pending = [] } }
    {
        Following {
            log,
            count,
            pending: Vec::new(alloc),
        }
    }

    /// Returns how a write or a sync failed, if one did: from then on nothing is kept.
    pub(crate) fn failure(&self) -> Option<ErrorKind>
        ensures { result ≡ self.now.log.failure }
    {
        self.log.failure()
    }

    /// Returns whether the log has `entries` entries on the disk, and nothing waits after them.
    // promise: log stays (there)
    pub(crate) fn has(&self, entries: usize) -> bool
        ensures durable { IsTrue result →
            HasAtLeast (AreDurable D.is_known D.seen D.may_leave) entries }
        ensures there { self.now.log.failure ≡ None → self.now.pending ≡ []
            → entries ≤ self.now.count → IsTrue result }
    {
        match self.durable() {
            Some(count) => entries <= count,
            None => false,
        }
    }

    /// Returns how many entries the log has on the disk, if it works and nothing waits after them.
    pub(crate) fn durable(&self) -> Option<usize>
        ensures durable { IfSome result (AreDurable D.is_known D.seen D.may_leave) }
        ensures count { self.now.log.failure ≡ None → self.now.pending ≡ []
            → result ≡ Some self.now.count }
    {
        if self.pending.is_empty() && self.log.failure().is_none() {
            Some(self.count)
        } else {
            None
        }
    }

    /// Gathers the records of the entries that `member` has beyond these, until all are gathered or
    /// very many bytes wait. The id of a submitted value is the one in `ids` under its number.
    // promise: nothing is lost; log stays (missing); ids (gathered)
    pub(crate) fn gather(
        &mut self,
        alloc: Global,
        member: &OwnMember,
        ids: &[u64],
    ) -> Result<(), AllocError>
        ensures log { self.new.log ≡ self.old.log }
        ensures gathered { HasGathered ids.now member.now.history self.old.count self.new.count
            self.old.pending self.new.pending }
        ensures ended { OnOk result ((length member.now.history ≤ self.new.count)
            ⊎ (FULL < length self.new.pending)) }
        ensures missing { OnErr result (self.new.count < length member.now.history) }
    {
        push_missing(alloc, &mut self.pending, &mut self.count, member, ids)
    }

    /// Writes all that waits, and syncs: after `Ok` its entries are on the disk, after those that
    /// were. If memory runs out, all is unchanged. After a failed write or sync nothing is kept any
    /// more.
    // promise: nothing is lost; log stays (memory, waiting)
    pub(crate) fn flush(&mut self, alloc: Global) -> Result<(), DeviceFault>
        ensures flushed { OnOk result (IsFlushed D.is_known D.seen D.may_leave
            self.old.log self.new.log self.old.pending self.new.pending) }
        ensures on_disk { OnOk result (AppendsOnDisk D.is_known D.seen D.may_leave
            self.old.log self.new.log self.old.pending) }
        ensures count { self.new.count ≡ self.old.count }
        ensures memory { result ≡ Err DeviceFault.Memory → self.new ≡ self.old }
        ensures fails { (kind : ErrorKind) → result ≡ Err (DeviceFault.Disk kind)
            → self.new.log.failure ≡ Some kind }
        ensures waiting { OnErr result (self.old.pending ≢ []) }
    {
        // for the proof, a law: the call does nothing
        one_list();
        if self.pending.is_empty() {
            return Ok(());
        }
        append_records(alloc, &mut self.log, &self.pending)?;
        self.pending.clear();
        Ok(())
    }
}

// Appends the records of the entries from a place on, and counts them.
fn push_missing(
    alloc: Global,
    pending: &mut Vec<u8>,
    count: &mut usize,
    member: &OwnMember,
    ids: &[u64],
) -> Result<(), AllocError>
    requires { length pending.old.items ≤ MOST_PAYLOAD }
    ensures short { length pending.new.items ≤ MOST_PAYLOAD }
    ensures gathered { HasGathered ids.now member.now.history count.old count.new
        pending.old.items pending.new.items }
    ensures ended { OnOk result ((length member.now.history ≤ count.new)
        ⊎ (FULL < length pending.new.items)) }
    ensures missing { OnErr result (count.new < length member.now.history) }
{
    legal_entries_have_room();
    let history = member.history();
    while *count < history.len() && pending.len() <= FULL {
        let entry = &history[*count];
        push_record(alloc, pending, entry, id_under(ids, entry.reply))?;
        *count += 1;
    }
    Ok(())
}

// Returns the id that the owner gave the submitted value of this `reply`.
fn id_under(ids: &[u64], reply: Reply) -> u64
    ensures { result ≡ id_under ids.now reply }
{
    match reply {
        Reply::Asked(seq) => ids.get(seq as usize).copied().unwrap_or(0),
        Reply::Took(_) | Reply::Told(_) => 0,
    }
}
