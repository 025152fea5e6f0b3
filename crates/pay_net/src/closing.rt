//! The end of a node: what the shutdown check found about its seats' receipts.

ghost use Rattle.std.specs.Prelude.{◌≡◌, ℕ, IfOk, IsErrOf, List, MatchResult, length};
ghost use Rattle.pay_desk.specs.declared.desk.Desk.{Desk};
ghost use Rattle.pay_durable.specs.Kept.{HasAtLeast};
ghost use Rattle.pay_frame.specs.declared.device.StreamFault.TheVariants.{Bound, Memory, Read};
ghost use Rattle.pay_net.specs.Desks.{DeskStreams};
ghost use Rattle.pay_net.specs.Running.{HasClosed, HasEnded, HasRun, IsNodeFault, IsSomehowAmiss};
ghost use Rattle.pay_net.specs.Running.{ended_by};
ghost use Rattle.pay_net.specs.declared.start.NodeFault.TheVariants.{Close, Engine};
ghost use Rattle.pay_node.specs.Nodes.{IsOwn};
ghost use Rattle.pay_node.specs.declared.closing.CloseFault.TheVariants.{Mismatch};
ghost use Rattle.pay_peers.specs.Telling.{TellerFields};

use crate::start::NodeFault;
use pay_durable::Keeper;
use pay_frame::StreamFault;
use pay_node::{Beginning, CloseFault, Node, OwnMember, Seat, Stopped};
use std::alloc::Global;
use std::sync::Wait;

/// What was found about the receipts of a node that ended.
#[derive(Clone, Copy, Debug, PartialEq, Eq)]
pub enum Receipts {
    /// The member's history is consistent with them.
    Consistent,
    /// Nothing was found: memory ran out first.
    Unjudged,
}

/// Returns what is left of `node`, if `ran` is the result of its threads. The history is synced by
/// `keeper` once more, and then compared with the node's seats.
// promise: node's end (amiss, memory, durable, whole)
pub(crate) fn finish<R, S, K>(
    rt: &R,
    alloc: Global,
    keeper: &K,
    node: Node<S>,
    ran: Result<Vec<Seat>, NodeFault>,
) -> Result<(OwnMember, Receipts), NodeFault>
where
    R: Wait,
    S: Beginning,
    K: Keeper,
    ensures ended { (first : Desk TellerFields) (ports : List ℕ) (streams : DeskStreams)
        → MatchResult ran (λ seats. HasRun node first seats.items streams)
        (IsNodeFault node first ports streams) → HasEnded node first ports streams result }
    ensures durable { IfOk result (λ _. K.kept keeper.now node) }
    ensures whole { IfOk result (λ ended.
        HasAtLeast (K.has keeper.now) (length ended.0.history)) }
    ensures read { IsErrOf result (Engine Read) → IsErrOf ran (Engine Read) }
    ensures bound { IsErrOf result (Engine Bound) → IsErrOf ran (Engine Bound) }
    ensures memory { IsErrOf result (Engine Memory) → IsErrOf ran (Engine Memory) }
    ensures amiss { (stamp : ℕ) → IsErrOf result (Close (Mismatch stamp))
        → IfOk ran (λ seats. IsSomehowAmiss node seats.items stamp) }
{
    let seats = ran?;
    if !keeper.keep(rt, &node) {
        return Err(NodeFault::Engine(StreamFault::Write));
    }
    let stopped = node.stop();
    if !keeper.has_entries(rt, stopped.member().history().len()) {
        return Err(NodeFault::Engine(StreamFault::Write));
    }
    match close_stopped(alloc, stopped, seats.as_slice()) {
        Ok(ended) => Ok(ended),
        Err(stamp) => Err(NodeFault::Close(CloseFault::Mismatch(stamp))),
    }
}

// Returns the member of a node that no thread calls any more, or the stamp that the shutdown check
// names.
// promise: node's end
fn close_stopped<S: Beginning>(
    alloc: Global,
    stopped: Stopped<S>,
    seats: &[Seat],
) -> Result<(OwnMember, Receipts), u16>
    ensures closed { HasClosed stopped seats.now result }
    ensures own { IsOwn stopped.node stopped.member }
{
    answer_of_close(stopped.close(alloc, seats))
}

// Returns the result for what the shutdown check `found`. A member that isn't known to be wrong is
// returned, judged or not.
// promise: node's end
fn answer_of_close<S: Beginning>(
    found: Result<OwnMember, (CloseFault, Stopped<S>)>,
) -> Result<(OwnMember, Receipts), u16>
    ensures { result ≡ ended_by found }
{
    match found {
        Ok(member) => Ok((member, Receipts::Consistent)),
        Err((CloseFault::Memory(None), stopped)) => {
            Ok((stopped.into_member(), Receipts::Unjudged))
        }
        Err((CloseFault::Memory(Some(stamp)) | CloseFault::Mismatch(stamp), _)) => Err(stamp),
    }
}
