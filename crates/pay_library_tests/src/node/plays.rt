//! Calls at a node, and seats held against its history.

ghost use Rattle.std.specs.Prelude.{◌≡◌};

use crate::node::rows::{FOUR, HANDED, PAYMENT, ROWS};
use crate::node::step::{Group, Row, Step, Whose};
use crate::node::trial::{TwoSeats, asks, fault_at_closing, meets, member_of, node_of, two_of};
use pay_node::{Beginning, CloseFault, Node, OwnMember, Seat, Stopped};
use std::alloc::{AllocError, Global};
use std::marker::Brand;
use std::sync::Wait;

// Returns the place of the first of `steps` that isn't answered so from these `seats`, if there is
// one.
fn unmet_in<S: Beginning, R: Wait>(
    rt: &R,
    alloc: Global,
    node: &Node<S>,
    seats: &mut TwoSeats,
    steps: &[Step],
) -> Option<usize> {
    for (place, step) in steps.iter().enumerate() {
        if !meets(rt, alloc, node, seats, step) {
            return Some(place);
        }
    }
    None
}

// Creates a member of `group`, a second time if memory runs out.
fn fresh(alloc: Global, group: Group) -> Option<OwnMember> {
    match member_of(alloc, group) {
        None => member_of(alloc, group),
        made => made,
    }
}

// Puts two seats back among those of their node.
fn give_back(seats: &mut Vec<Seat>, two: TwoSeats) -> Result<(), AllocError> {
    let TwoSeats { calls, fetches } = two;
    seats.push(calls)?;
    seats.push(fetches.into_inner().into_seat())?;
    Ok(())
}

// Returns the place of the first step of `row` that isn't answered so from two seats of a fresh
// node of `member`. If the steps are answered so and the shutdown check fails, it returns the count
// of steps.
fn unmet_by<S: Beginning, R: Wait>(
    rt: &R,
    alloc: Global,
    member: OwnMember,
    row: &Row,
) -> Option<usize>
    requires { member ≡ S.beginning }
{
    let Some((node, mut seats)) = node_of::<S>(alloc, member, row.group.seats) else {
        return Some(0);
    };
    let Some(mut two) = two_of(&mut seats) else {
        return Some(0);
    };
    let unmet = unmet_in(rt, alloc, &node, &mut two, row.steps);
    if give_back(&mut seats, two).is_err() {
        return Some(0);
    }
    let fault = fault_at_closing(alloc, node, seats.as_slice());
    unmet.or(fault.is_some().then_some(row.steps.len()))
}

// Returns the place of the first step of `row` that isn't answered so at a node of the row's
// member.
fn unmet<R: Wait>(rt: &R, alloc: Global, row: &Row) -> Option<usize> {
    match fresh(alloc, row.group) {
        Some(member) => unmet_by::<Brand, R>(rt, alloc, member, row),
        None => Some(0),
    }
}

#[test]
fn calls_leave_receipts(rt: HostRuntime) {
    for row in ROWS {
        let name = row.name;
        assert_eq!(rt; unmet(&rt, rt.alloc(), row), None, "{name}");
    }
}

fn seat_of(seats: &mut Vec<Seat>, stamp: usize) -> Option<Seat> {
    let place = seats
        .iter()
        .position(|seat| usize::from(seat.stamp()) == stamp)?;
    Some(seats.swap_remove(place))
}

// Takes the seats that are handed in out of those of two nodes, where they are all there.
fn hand_in(
    handed: &[(Whose, usize)],
    own: &mut Vec<Seat>,
    others: &mut Vec<Seat>,
    seats: &mut Vec<Seat>,
) -> Option<()> {
    for (whose, stamp) in handed {
        let seat = match whose {
            Whose::This => seat_of(own, *stamp),
            Whose::Another => seat_of(others, *stamp),
        };
        seats.push(seat?).ok()?;
    }
    Some(())
}

// Returns the seats of a node of `member` with eight seats.
fn eight_seats<S: Beginning>(alloc: Global, member: OwnMember) -> Option<Vec<Seat>>
    requires { member ≡ S.beginning }
{
    let (_node, seats) = node_of::<S>(alloc, member, 8)?;
    Some(seats)
}

// Returns the eight seats of another node.
fn others(alloc: Global) -> Option<Vec<Seat>> {
    let member = member_of(alloc, FOUR)?;
    eight_seats::<Brand>(alloc, member)
}

// Returns the seats that are `handed` in: of a node with the seats `own`, and of another one with
// eight.
fn seats_handed_in(
    alloc: Global,
    handed: &[(Whose, usize)],
    own: &mut Vec<Seat>,
) -> Option<Vec<Seat>> {
    let mut others = others(alloc)?;
    let mut seats = Vec::new(alloc);
    hand_in(handed, own, &mut others, &mut seats)?;
    Some(seats)
}

// Creates a node of `member` with seats, and submits a value from the first seat.
fn node_asked_once<S: Beginning, R: Wait>(
    rt: &R,
    alloc: Global,
    member: OwnMember,
) -> Option<(Node<S>, Vec<Seat>)>
    requires { member ≡ S.beginning }
{
    let (node, mut seats) = node_of::<S>(alloc, member, FOUR.seats)?;
    let asks = match seats.first_mut() {
        Some(seat) => asks(rt, alloc, &node, seat, &[], Ok(0)) == Some(true),
        None => false,
    };
    asks.then_some((node, seats))
}

// Returns what the shutdown check of that node answers with the seats that are `handed` in, if
// there are such seats.
fn fault_by<S: Beginning, R: Wait>(
    rt: &R,
    alloc: Global,
    member: OwnMember,
    handed: &[(Whose, usize)],
) -> Option<Option<CloseFault>>
    requires { member ≡ S.beginning }
{
    let (node, mut own) = node_asked_once::<S, R>(rt, alloc, member)?;
    let seats = seats_handed_in(alloc, handed, &mut own)?;
    Some(fault_at_closing(alloc, node, seats.as_slice()))
}

fn fault_of<R: Wait>(
    rt: &R,
    alloc: Global,
    handed: &[(Whose, usize)],
) -> Option<Option<CloseFault>> {
    let member = member_of(alloc, FOUR)?;
    fault_by::<Brand, R>(rt, alloc, member, handed)
}

#[test]
fn seats_agree_or_not(rt: HostRuntime) {
    for handed in HANDED {
        let name = handed.name;
        let is_answered = fault_of(&rt, rt.alloc(), handed.seats) == Some(handed.answer);
        assert!(rt; is_answered, "{name}");
    }
}

// Closes a node with the seats of another one, if that is refused: the fault, and the node after
// it.
fn refused_close<S: Beginning>(alloc: Global, node: Node<S>) -> Option<(CloseFault, Stopped<S>)> {
    let others = others(alloc)?;
    node.close(alloc, others.as_slice()).err()
}

// Submits a second value to `node` from the first of its `seats`. Returns whether it got a number,
// and what the shutdown check with the seats answers then.
fn asked_again<S: Beginning, R: Wait>(
    rt: &R,
    alloc: Global,
    node: Node<S>,
    seats: &mut [Seat],
) -> (bool, Option<CloseFault>) {
    let asks = match seats.first_mut() {
        Some(seat) => asks(rt, alloc, &node, seat, PAYMENT, Ok(1)) == Some(true),
        None => false,
    };
    (asks, fault_at_closing(alloc, node, seats))
}

// Closes a node that got a value with the seats of another one, starts it again, submits a second
// value, and closes it with its own seats. Returns both faults, if both values got numbers.
fn faults_of_two<S: Beginning, R: Wait>(
    rt: &R,
    alloc: Global,
    member: OwnMember,
) -> Option<(Option<CloseFault>, Option<CloseFault>)>
    requires { member ≡ S.beginning }
{
    let (node, mut seats) = node_asked_once::<S, R>(rt, alloc, member)?;
    let (fault, stopped) = refused_close(alloc, node)?;
    let (asks, again) = asked_again(rt, alloc, stopped.start(), seats.as_mut_slice());
    asks.then_some((Some(fault), again))
}

fn started_again<R: Wait>(
    rt: &R,
    alloc: Global,
) -> Option<(Option<CloseFault>, Option<CloseFault>)> {
    let member = member_of(alloc, FOUR)?;
    faults_of_two::<Brand, R>(rt, alloc, member)
}

#[test]
fn a_stopped_node_starts_again(rt: HostRuntime) {
    let faults = started_again(&rt, rt.alloc());
    assert_eq!(rt; faults, Some((Some(CloseFault::Mismatch(0)), None)));
}
