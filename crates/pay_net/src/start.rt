//! What a node starts from, and why a start is refused.

ghost use Rattle.std.specs.Prelude.{◌≡◌, ◌<◌, ◌≤◌, [], IfOk, IsErrOf, OnOk, false, length, map};
ghost use Rattle.std.specs.Prelude.{true};
ghost use Rattle.pay_frame.specs.declared.device.StreamFault.TheVariants.{Memory};
ghost use Rattle.pay_net.specs.Starting.{AreNoIdsOf, IsKeptOf, KeepsEntry, KeepsNext, LacksId};
ghost use Rattle.pay_net.specs.Starting.{RefusesEntry};
ghost use Rattle.pay_net.specs.declared.start.NodeFault.TheVariants.{Engine};
ghost use Rattle.pay_net.specs.declared.start.StartFault.TheVariants.{Ids};
ghost use Rattle.pay_node.specs.Nodes.{AreFresh, node_as};

use pay_desk::{Kept, KeptValues};
use pay_frame::{Bytes, StreamFault};
use pay_member::{Event, HistoryEntry};
use pay_node::{Beginning, CloseFault, MOST_SEATS, Node, OwnMember, Seat};
use std::alloc::{AllocError, AllocFailed, Global};
use std::io::ErrorKind;
use std::marker::Model;
use thiserror::Error;

/// The reason why a running node has no member to return.
#[derive(Clone, Copy, Debug, PartialEq, Eq, Error)]
pub enum NodeFault {
    /// The node can't listen on its own port, for this reason.
    #[error("port {0}")]
    Port(u16, ErrorKind),
    /// Memory ran out at the start, or the desk ended with this fault.
    #[error("engine {0}")]
    Engine(StreamFault),
    /// The receipts of the seats and the history don't agree.
    #[error("close {0}")]
    Close(CloseFault),
}

impl From<StreamFault> for NodeFault {
    ghost from_gives = { λ fault e. e ≡ Engine fault };

    fn from(fault: StreamFault) -> NodeFault {
        NodeFault::Engine(fault)
    }
}

impl From<AllocError> for NodeFault {
    ghost from_gives = { λ _ e. e ≡ Engine Memory };

    fn from(_: AllocError) -> NodeFault {
        NodeFault::Engine(StreamFault::Memory)
    }
}

impl<T: Drop> From<AllocFailed<T>> for NodeFault {
    ghost from_gives = { λ _ e. e ≡ Engine Memory };

    fn from(_: AllocFailed<T>) -> NodeFault {
        NodeFault::Engine(StreamFault::Memory)
    }
}

/// The reason why a node can't start from a member.
#[derive(Clone, Copy, Debug, PartialEq, Eq, Error)]
pub enum StartFault {
    /// An allocation failed.
    #[error("no memory")]
    Memory,
    /// The ids aren't different ids, one for each value that the member submitted.
    #[error("ids of no payments")]
    Ids,
}

impl From<AllocError> for StartFault {
    ghost use Rattle.pay_net.specs.declared.start.StartFault.TheVariants.{Memory};

    ghost from_gives = { λ _ e. e ≡ Memory };

    fn from(_error: AllocError) -> StartFault {
        StartFault::Memory
    }
}

/// A member, what its desk keeps of the submitted values, and whether the node makes a rollback
/// check before it accepts more. A member in memory alone has no rollback check.
#[derive(Drop)]
pub struct NodeStart {
    member: OwnMember,
    kept: KeptValues,
    compares: bool,
}

impl Model for NodeStart {
    ghost use Rattle.pay_net.specs.Starting.{IsKeptOf, StartFields};

    ghost Value = { StartFields };

    ghost view = { λ s. record { member = s.member; kept = s.kept; compares = s.compares } };

    ghost invariant = { λ s. IsKeptOf s.member.history s.kept };
}

impl NodeStart {
    /// Creates a start of `member`, which has no events.
    // promise: desk goes on; end of a restart
    pub fn fresh(alloc: Global, member: OwnMember) -> NodeStart
        requires { member.history ≡ [] }
        ensures { result ≡ record { member = member; kept = []; compares = false } }
    {
        NodeStart {
            member,
            kept: KeptValues::new(alloc),
            compares: false,
        }
    }

    /// Creates a start of `member`, which a log keeps, even if its history is empty. `ids` has the
    /// id of each value that its owner submitted, oldest first. The member may have lost state, so
    /// it accepts no value before enough peers have shown that they know no more about it.
    // promise: desk goes on; ids (ids, refused); end of a restart; comparing (compares)
    pub fn again(alloc: Global, member: OwnMember, ids: &[u64]) -> Result<NodeStart, StartFault>
        ensures member { IfOk result (λ start. start.member ≡ member) }
        ensures ids { IfOk result (λ start. map (λ k. k.id) start.kept ≡ ids.now) }
        ensures compares { IfOk result (λ start. start.compares ≡ true) }
        ensures refused { IsErrOf result Ids → AreNoIdsOf member.history ids.now }
    {
        let kept = kept_of(alloc, member.history(), ids)?;
        Ok(NodeStart {
            member,
            kept,
            compares: true,
        })
    }

    /// Returns the member's own number.
    pub(crate) fn own(&self) -> u16
        ensures own { result ≡ self.now.member.keys.own }
        ensures within { result < length self.now.member.keys.keys }
    {
        self.member.keys().own()
    }

    /// Returns the member, what its desk keeps, and whether the node makes a rollback check.
    pub(crate) fn into_parts(self) -> (OwnMember, KeptValues, bool)
        ensures member { result.0 ≡ self.member }
        ensures kept { result.1 ≡ self.kept }
        ensures compares { result.2 ≡ self.compares }
        ensures its { IsKeptOf self.member.history self.kept }
    {
        (self.member, self.kept, self.compares)
    }
}

/// Creates the node of `member` with `seats` seats. The node makes a rollback check if `compares`
/// is set.
pub(crate) fn node_of<S: Beginning>(
    alloc: Global,
    member: OwnMember,
    seats: u16,
    compares: bool,
) -> Result<(Node<S>, Vec<Seat>), (OwnMember, AllocError)>
    requires beginning { member ≡ S.beginning }
    requires few { seats ≤ MOST_SEATS }
    ensures node { IfOk result (λ made. made.0 ≡ node_as member seats compares) }
    ensures seats { IfOk result (λ made. AreFresh seats made.1.items) }
{
    if compares {
        Node::comparing(alloc, member, seats)
    } else {
        Node::new(alloc, member, seats)
    }
}

// Returns what a desk keeps of the values that a history submitted, under these `ids`.
fn kept_of(alloc: Global, history: &[HistoryEntry], ids: &[u64]) -> Result<KeptValues, StartFault>
    ensures kept { IfOk result (λ kept. IsKeptOf history.now kept) }
    ensures ids { IfOk result (λ kept. map (λ k. k.id) kept ≡ ids.now) }
    ensures refused { IsErrOf result Ids → AreNoIdsOf history.now ids.now }
{
    let mut kept = KeptValues::new(alloc);
    for entry in history {
        keep_entry(alloc, &mut kept, entry, ids)?;
    }
    if kept.len() != ids.len() {
        return Err(StartFault::Ids);
    }
    Ok(kept)
}

// Keeps the value that an entry submitted, if it did, under the next id.
fn keep_entry(
    alloc: Global,
    kept: &mut KeptValues,
    entry: &HistoryEntry,
    ids: &[u64],
) -> Result<(), StartFault>
    ensures kept { OnOk result (KeepsEntry ids.now entry.now.event kept.old kept.new) }
    ensures refused { IsErrOf result Ids → RefusesEntry ids.now entry.now.event kept.old }
{
    match &entry.event {
        Event::Ask(value) => keep_next(alloc, kept, value.bytes(), ids),
        Event::Taken(_) | Event::Query(_) => Ok(()),
    }
}

// Keeps a value under the next id, with its number.
fn keep_next(
    alloc: Global,
    kept: &mut KeptValues,
    value: &Bytes,
    ids: &[u64],
) -> Result<(), StartFault>
    ensures kept { OnOk result (KeepsNext ids.now value.now kept.old kept.new) }
    ensures refused { IsErrOf result Ids → LacksId ids.now kept.old }
{
    let place = kept.len();
    let Some(id) = ids.get(place) else {
        return Err(StartFault::Ids);
    };
    let Ok(seq) = u32::try_from(place) else {
        return Err(StartFault::Ids);
    };
    if kept.find(*id).is_some() {
        return Err(StartFault::Ids);
    }
    let value = value.copy(alloc)?;
    kept.keep(Kept {
        id: *id,
        value,
        seq,
    })?;
    Ok(())
}
