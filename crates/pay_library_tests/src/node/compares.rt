//! A node that compares what its peers claim before it accepts values.

ghost use Rattle.std.specs.Prelude.{◌≡◌};

use crate::node::rows::{FOUR, PAYMENT};
use crate::node::trial::member_of;
use pay_frame::Bytes;
use pay_node::{Beginning, HandInFault, Node, OwnMember, Seat};
use std::alloc::Global;
use std::marker::Brand;
use std::sync::Wait;

/// The answers to a value that was submitted after each claim of a peer. `forgets` says whether the
/// node's member has lost state at the end.
#[derive(Clone, Copy, Debug, PartialEq, Eq)]
struct Came {
    first: Result<u32, HandInFault>,
    second: Result<u32, HandInFault>,
    forgets: bool,
}

/// Two claims, each with its peer and how many frames the peer accepted.
#[derive(Clone, Copy, Debug)]
struct Claims {
    first: (u16, u64),
    second: (u16, u64),
}

// Submits a value to `node`, and returns its number or why it got none. Returns `None` if memory
// runs out.
fn asks<S: Beginning, R: Wait>(
    rt: &R,
    alloc: Global,
    node: &Node<S>,
    seat: &mut Seat,
) -> Option<Result<u32, HandInFault>> {
    let value = Bytes::from_slice(alloc, PAYMENT).ok()?;
    match node.ask(rt, alloc, seat, value) {
        Err(HandInFault::Ask(_)) => None,
        found => Some(found),
    }
}

// Returns what comes of `claims` at a node of `member`, which sent nothing.
fn compares<S: Beginning, R: Wait>(
    rt: &R,
    alloc: Global,
    member: OwnMember,
    claims: Claims,
) -> Option<Came>
    requires { member ≡ S.beginning }
{
    let (node, mut seats) = Node::comparing(alloc, member, 1).ok()?;
    let node: Node<S> = node;
    let seat = seats.first_mut()?;
    node.note_claim(rt, claims.first.0, claims.first.1);
    let first = asks(rt, alloc, &node, seat)?;
    node.note_claim(rt, claims.second.0, claims.second.1);
    let second = asks(rt, alloc, &node, seat)?;
    Some(Came {
        first,
        second,
        forgets: node.forgets(),
    })
}

fn came_of<R: Wait>(rt: &R, alloc: Global, claims: Claims) -> Option<Came> {
    let member = member_of(alloc, FOUR)?;
    compares::<Brand, R>(rt, alloc, member, claims)
}

fn comes<R: Wait>(rt: &R, alloc: Global, first: (u16, u64), second: (u16, u64)) -> Option<Came> {
    let claims = Claims { first, second };
    match came_of(rt, alloc, claims) {
        None => came_of(rt, alloc, claims),
        found => found,
    }
}

#[test]
fn a_quorum_frees_a_node(rt: HostRuntime) {
    let found = comes(&rt, rt.alloc(), (0, 0), (2, 0));
    let free = Came {
        first: Err(HandInFault::TooEarly),
        second: Ok(0),
        forgets: false,
    };
    assert_eq!(rt; found, Some(free));
}

#[test]
fn a_node_notices_that_its_peers_know_more(rt: HostRuntime) {
    let found = comes(&rt, rt.alloc(), (0, 1), (2, 1));
    let forgotten = Came {
        first: Err(HandInFault::TooEarly),
        second: Err(HandInFault::Forgotten),
        forgets: true,
    };
    assert_eq!(rt; found, Some(forgotten));
}
