//! A node with its history kept in a log.

ghost use Rattle.std.specs.Prelude.{◌≡◌, ◌<◌, ◌≤◌, ◌⊎◌, Err, IsTrue, List, None, OnErr, OnOk, []};
ghost use Rattle.std.specs.Prelude.{length, ℕ};
ghost use Rattle.pay_durable.specs.Following.{AllKnown, HasGathered, HasSameIds};
ghost use Rattle.pay_durable.specs.Following.{IsFollowingSome, NotesId};
ghost use Rattle.pay_durable.specs.Kept.{AreDurable, IsHistoryKept};
ghost use Rattle.pay_durable.specs.declared.following.TheConstants.{FULL};
ghost use Rattle.pay_node.specs.Nodes.{HasEntries};

use crate::following::Following;
use crate::keeper::Keeper;
use pay_log::{Device, DeviceFault, Log};
use pay_node::{Beginning, Gatherer, Node, OwnMember};
use std::alloc::{AllocError, Global};
use std::io::ErrorKind;
use std::sync::{Mutex, Wait};

/// A log that gathers from a node's member, with the ids of the owner's payments. The ids are
/// locked while the member is. A submitted value that is gathered has its id there, since the id is
/// noted before the value is submitted.
#[derive(Drop)]
struct Gathering<'a, R, D: Device> {
    rt: &'a R,
    alloc: Global,
    ids: &'a Mutex<Vec<u64>>,
    following: &'a mut Following<D>,
}

impl<R: Wait, D: Device + Drop> Gatherer for Gathering<'_, R, D> {
    ghost gathers = { λ old member answer new.
        (new.following.ghost_name ≡ old.following.ghost_name)
        × (new.following.now.log ≡ old.following.now.log)
        × ((ids : List ℕ) × HasGathered ids member.history
        old.following.now.count new.following.now.count
        old.following.now.pending new.following.now.pending)
        × OnOk answer ((length member.history ≤ new.following.now.count)
        ⊎ (FULL < length new.following.now.pending))
        × OnErr answer (new.following.now.count < length member.history) };

    fn gather(&mut self, member: &OwnMember) -> Result<(), AllocError> {
        let ids = self.ids.lock(self.rt);
        self.following.gather(self.alloc, member, &*ids)
    }
}

/// A log that follows a node's history, and the ids of its owner's payments.
///
/// While one thread syncs, others wait for the log's lock. Each has noted before how long the
/// history was. The first of them gathers what all of them need, and those after it find that on
/// the disk. Locks are taken in this order: the log's, the node's, the ids'.
#[derive(Drop)]
pub struct Kept<D: Device> {
    alloc: Global,
    following: Mutex<Following<D>>,
    ids: Mutex<Vec<u64>>,
}

impl<D: Device + Drop> Kept<D> {
    /// Creates the gate of a node with `log`, which has the first `count` entries of a member's
    /// history. The ids of the submitted values in these entries aren't looked at again.
    pub fn new(alloc: Global, log: Log<D>, count: usize) -> Kept<D>
        requires { AllKnown D.is_known
            → IsFollowingSome D.is_known D.seen D.may_leave log [] count }
    {
        Kept {
            alloc,
            following: Mutex::new(Following::new(alloc, log, count)),
            ids: Mutex::new(Vec::new(alloc)),
        }
    }

    /// Returns how a write or a sync failed, if one did: from then on nothing is kept.
    pub fn failure<R: Wait>(&self, rt: &R) -> Option<ErrorKind> {
        self.following.lock(rt).failure()
    }

    // Syncs the log until it has at least `entries` entries, and all that the node's history had
    // when it was measured. Another call may have done that already.
    // promise: log stays (there)
    fn keep_entries<R: Wait, S: Beginning>(
        &self,
        rt: &R,
        node: &Node<S>,
        entries: usize,
        following: &mut Following<D>,
    ) -> bool
        requires { HasEntries node.now entries }
        ensures kept { IsTrue result → IsHistoryKept D.is_known D.seen D.may_leave node.now }
        ensures there { following.old.log.failure ≡ None → following.old.pending ≡ []
            → entries ≤ following.old.count → IsTrue result }
    {
        if following.has(entries) {
            return true;
        }
        for _ in rt.forever() {
            if self.bring_up(rt, node, following).is_err() {
                return false;
            }
            if following.has(entries) {
                return true;
            }
        }
        false
    }

    // Gathers from the node's member, and writes what was gathered. Nothing is gathered after the
    // log failed.
    // promise: log stays (memory)
    fn bring_up<R: Wait, S: Beginning>(
        &self,
        rt: &R,
        node: &Node<S>,
        following: &mut Following<D>,
    ) -> Result<(), DeviceFault>
        ensures memory { result ≡ Err DeviceFault.Memory
            → following.new.log ≡ following.old.log }
    {
        if let Some(kind) = following.failure() {
            return Err(DeviceFault::Disk(kind));
        }
        let mut gathering = Gathering {
            rt,
            alloc: self.alloc,
            ids: &self.ids,
            following: &mut *following,
        };
        node.lend(rt, &mut gathering)?;
        following.flush(self.alloc)
    }
}

impl<D: Device + Drop> Keeper for Kept<D> {
    ghost kept = { λ _ node. IsHistoryKept D.is_known D.seen D.may_leave node };

    ghost has = { λ _ entries. AreDurable D.is_known D.seen D.may_leave entries };

    fn keep<R: Wait, S: Beginning>(&self, rt: &R, node: &Node<S>) -> bool {
        let entries = node.history_len(rt);
        let mut following = self.following.lock(rt);
        self.keep_entries(rt, node, entries, &mut *following)
    }

    fn has_entries<R: Wait>(&self, rt: &R, entries: usize) -> bool {
        self.following.lock(rt).has(entries)
    }

    // The id is noted before the value is submitted, so it is found when the value is gathered. The
    // id of a refused order is overwritten by the next one.
    fn order<R: Wait>(&self, rt: &R, seq: u32, id: u64) -> Result<(), AllocError> {
        let mut guard = self.ids.lock(rt);
        note(&mut *guard, seq as usize, id)
    }

    fn durable<R: Wait>(&self, rt: &R) -> Option<usize> {
        self.following.lock(rt).durable()
    }
}

// Notes an id under the number `seq`.
// promise: ids (noted, err)
fn note(ids: &mut Vec<u64>, seq: usize, id: u64) -> Result<(), AllocError>
    ensures noted { OnOk result (NotesId ids.old.items seq id ids.new.items) }
    ensures err { OnErr result (HasSameIds ids.old.items ids.new.items) }
{
    if seq < ids.len() {
        ids[seq] = id;
        return Ok(());
    }
    fill_to(ids, seq)?;
    Ok(ids.push(id)?)
}

// Notes that no id is known under the numbers up to `seq`.
fn fill_to(ids: &mut Vec<u64>, seq: usize) -> Result<(), AllocError>
    requires { length ids.old.items ≤ seq }
    ensures filled { OnOk result (length ids.new.items ≡ seq) }
    ensures same { HasSameIds ids.old.items ids.new.items }
{
    while ids.len() < seq {
        ids.push(0)?;
    }
    Ok(())
}
