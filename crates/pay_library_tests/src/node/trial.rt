//! A node that is given steps from two of its seats.

ghost use Rattle.std.specs.Prelude.{◌≡◌};

use crate::node::step::{Group, Said, Step};
use pay_book::Line;
use pay_frame::{Body, Bytes, SharedBody};
use pay_hmac::HmacSha256;
use pay_link::{Genesis, test_keys};
use pay_member::{AskFault, Lie, Member, Outcome, QueryFault};
use pay_node::{
    Beginning, CloseFault, FetchSeat, HandInFault, MOST_SEATS, Node, OpenGate, OwnMember, Receipt,
    Seat, Stopped,
};
use std::alloc::Global;
use std::sync::atomic::AtomicBool;
use std::sync::{Mutex, Wait};

/// Two seats of a node: bodies are fetched from one once they are sent, and all else is called from
/// the other.
#[derive(Drop)]
pub(crate) struct TwoSeats {
    pub(crate) calls: Seat,
    pub(crate) fetches: Mutex<FetchSeat>,
}

/// Removes the last two of `seats` and returns them, if there are two.
pub(crate) fn two_of(seats: &mut Vec<Seat>) -> Option<TwoSeats> {
    let calls = seats.pop()?;
    let fetches = fetch_seat(seats.pop()?)?;
    Some(TwoSeats {
        calls,
        fetches: Mutex::new(fetches),
    })
}

/// Creates a seat for fetches from `seat`, if nothing was called from it.
pub(crate) fn fetch_seat(seat: Seat) -> Option<FetchSeat> {
    if seat.receipts().is_empty() {
        Some(FetchSeat::new(seat))
    } else {
        None
    }
}

/// Creates a member of `group` without events, if there is such a member and memory suffices.
pub(crate) fn member_of(alloc: Global, group: Group) -> Option<OwnMember> {
    let members = group.opening.len() as u64;
    let genesis = Genesis::new(alloc, members, group.faults, group.opening).ok()?;
    if group.own >= genesis.members() {
        return None;
    }
    let keys = test_keys(alloc, &genesis, group.own).ok()?;
    Member::new(alloc, genesis, keys).ok()
}

/// Creates the node of `member` and its `seats` seats, if a node may have that many. If memory runs
/// out, the node is made a second time from the returned member.
pub(crate) fn node_of<S: Beginning>(
    alloc: Global,
    member: OwnMember,
    seats: u16,
) -> Option<(Node<S>, Vec<Seat>)>
    requires { member ≡ S.beginning }
{
    if seats > MOST_SEATS {
        return None;
    }
    match Node::new(alloc, member, seats) {
        Ok(made) => Some(made),
        Err((member, _)) => Node::new(alloc, member, seats).ok(),
    }
}

/// Closes `node` with `seats`, and returns the fault of the shutdown check, if there is one. If
/// memory runs out, the check is made once more.
pub(crate) fn fault_at_closing<S: Beginning>(
    alloc: Global,
    node: Node<S>,
    seats: &[Seat],
) -> Option<CloseFault> {
    let (fault, stopped) = node.close(alloc, seats).err()?;
    let (fault, _stopped) = refused_at_last(alloc, fault, stopped, seats)?;
    Some(fault)
}

// Closes `node` once more, if `fault` is a lack of memory. Returns the fault and the node, if it
// didn't close.
fn refused_at_last<S: Beginning>(
    alloc: Global,
    fault: CloseFault,
    node: Stopped<S>,
    seats: &[Seat],
) -> Option<(CloseFault, Stopped<S>)> {
    if matches!(fault, CloseFault::Memory(_)) {
        node.close(alloc, seats).err()
    } else {
        Some((fault, node))
    }
}

/// Takes `step`, a second time if memory runs out, and returns whether the answer is the expected
/// one.
pub(crate) fn meets<S: Beginning, R: Wait>(
    rt: &R,
    alloc: Global,
    node: &Node<S>,
    seats: &mut TwoSeats,
    step: &Step,
) -> bool {
    match is_met(rt, alloc, node, seats, step) {
        Some(is_met) => is_met,
        None => is_met(rt, alloc, node, seats, step) == Some(true),
    }
}

// Returns whether the answer to `step` is the expected one, or `None` if memory runs out.
fn is_met<S: Beginning, R: Wait>(
    rt: &R,
    alloc: Global,
    node: &Node<S>,
    seats: &mut TwoSeats,
    step: &Step,
) -> Option<bool> {
    match *step {
        Step::FetchOnce(number, said) => {
            let stop = AtomicBool::new(true);
            let found = node
                .fetch_when_sent(rt, alloc, &seats.fetches, number as u64, &stop)
                .ok()?;
            Some(is_fetched(found, said.get(number)))
        }
        Step::Receipts(all, with_entry) => {
            let fetches = seats.fetches.lock(rt);
            let (called, fetched) = (seats.calls.receipts(), fetches.receipts());
            let found = called.len().saturating_add(fetched.len());
            let entries = entries_in(called).saturating_add(entries_in(fetched));
            Some(found == all && entries == with_entry)
        }
        _ => is_met_from(rt, alloc, node, &mut seats.calls, step),
    }
}

// Returns whether the answer to `step`, a call from `seat`, is the expected one, or `None` if
// memory runs out. Nobody else has the seat.
fn is_met_from<S: Beginning, R: Wait>(
    rt: &R,
    alloc: Global,
    node: &Node<S>,
    seat: &mut Seat,
    step: &Step,
) -> Option<bool> {
    match *step {
        Step::Bring(bytes, outcome, wants) => {
            brings(rt, alloc, node, seat, bytes, outcome, wants)
        }
        Step::Ask(value, answer) => asks(rt, alloc, node, seat, value, answer),
        Step::Query(account, answer) => {
            let found = node.query(rt, alloc, seat, account);
            (found != Err(QueryFault::Memory)).then_some(found == answer)
        }
        Step::State(owner, seq, state) => {
            let found = node.state(rt, alloc, seat, owner, seq);
            (found != Err(QueryFault::Memory)).then_some(found == Ok(state))
        }
        Step::Statement(account, lines, balance) => {
            states(rt, alloc, node, seat, account, lines, balance)
        }
        Step::Fronts(fronts) => settles(rt, alloc, node, seat, fronts),
        Step::Fetch(from, max, said) => {
            let bodies = node.fetch(rt, alloc, seat, from, max).ok()?;
            Some(are_said(bodies.as_slice(), said))
        }
        Step::Lied(peer, lie) => Some(has_lied(rt, node, peer, lie)),
        Step::FetchOnce(..) | Step::Receipts(..) => None,
    }
}

/// Returns whether `node` answers the frame `bytes` with `outcome`, and with a WANT if `wants` is
/// set. Returns `None` if memory runs out.
pub(crate) fn brings<S: Beginning, R: Wait>(
    rt: &R,
    alloc: Global,
    node: &Node<S>,
    seat: &mut Seat,
    bytes: &[u8],
    outcome: Outcome,
    wants: bool,
) -> Option<bool> {
    let brought = node
        .bring(rt, alloc, seat, &HmacSha256, &OpenGate, bytes)
        .ok()?;
    Some(brought.outcome == outcome && brought.want.is_some() == wants)
}

/// Returns whether `node` answers the submitted `value` with `answer`, or `None` if memory runs
/// out.
pub(crate) fn asks<S: Beginning, R: Wait>(
    rt: &R,
    alloc: Global,
    node: &Node<S>,
    seat: &mut Seat,
    value: &[u8],
    answer: Result<u32, AskFault>,
) -> Option<bool> {
    let value = Bytes::from_slice(alloc, value).ok()?;
    let found = node.ask(rt, alloc, seat, value);
    let lacks = found == Err(HandInFault::Ask(AskFault::Memory));
    (!lacks).then_some(found == answer.map_err(|fault| HandInFault::Ask(fault)))
}

// Returns whether `lie` is what is known of the protocol violations of `peer`, even without the
// lock.
fn has_lied<S: Beginning, R: Wait>(rt: &R, node: &Node<S>, peer: u16, lie: Option<Lie>) -> bool {
    node.keys().is_peer(peer)
        && node.lie(rt, peer) == lie
        && node.may_have_lied(peer) == lie.is_some()
}

fn states<S: Beginning, R: Wait>(
    rt: &R,
    alloc: Global,
    node: &Node<S>,
    seat: &mut Seat,
    account: u16,
    lines: &[Line],
    balance: u64,
) -> Option<bool> {
    match node.statement(rt, alloc, seat, account) {
        Ok(found) => Some(found.lines() == lines && found.balance() == balance),
        Err(_) => None,
    }
}

fn settles<S: Beginning, R: Wait>(
    rt: &R,
    alloc: Global,
    node: &Node<S>,
    seat: &mut Seat,
    fronts: &[u32],
) -> Option<bool> {
    match node.fronts(rt, alloc, seat) {
        Ok(found) => Some(found.as_slice() == fronts),
        Err(_) => None,
    }
}

fn is_fetched(found: Option<SharedBody>, said: Option<&Said>) -> bool {
    match (found, said) {
        (Some(body), Some(said)) => is_said(body.body(), said),
        (None, None) => true,
        _ => false,
    }
}

fn entries_in(receipts: &[Receipt]) -> usize {
    receipts
        .iter()
        .filter(|receipt| receipt.has_entry())
        .count()
}

fn are_said(bodies: &[Body], said: &[Said]) -> bool {
    for (body, said) in bodies.iter().zip(said) {
        if !is_said(body, said) {
            return false;
        }
    }
    bodies.len() == said.len()
}

fn is_said(body: &Body, said: &Said) -> bool {
    body.kind() == said.kind
        && body.owner() == said.owner
        && body.seq() == said.seq
        && body.value() == said.value
}
