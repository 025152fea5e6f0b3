//! A node that is fed from a peer's stream with one frame in flight at a time.

ghost use Rattle.std.specs.Prelude.{◌≡◌};

use crate::node::rows::FOUR;
use crate::node::trial::{fault_at_closing, member_of, node_of};
use crate::peers::rows::{FED, WANTED};
use pay_frame::{Output, Reader, Writer};
use pay_hmac::HmacSha256;
use pay_node::{Beginning, Node, OpenGate, OwnMember, Seat};
use pay_peers::read_peer;
use std::alloc::Global;
use std::marker::Brand;
use std::sync::Wait;

// Writes what a node asks for at the bytes of member 0, and says whether the stream ends well.
fn feeds<S: Beginning, R: Wait>(
    rt: &R,
    alloc: Global,
    node: &Node<S>,
    seat: &mut Seat,
    bytes: &[u8],
    writer: &mut Writer<Vec<u8>>,
) -> bool {
    if !node.keys().is_peer(0) {
        return false;
    }
    let mut reader = Reader::new(bytes);
    let ended = read_peer(
        rt,
        alloc,
        node,
        seat,
        &HmacSha256,
        &OpenGate,
        0,
        &mut reader,
        writer,
    );
    ended.is_ok()
}

// Feeds `node` a frame twice. Returns whether it requests the first frame, and then the next one
// twice. It also returns how many receipts the first seat has then.
fn feed_twice<S: Beginning, R: Wait>(
    rt: &R,
    alloc: Global,
    node: &Node<S>,
    seats: &mut [Seat],
) -> (bool, usize) {
    let Some(seat) = seats.first_mut() else {
        return (false, 0);
    };
    let mut writer = Writer::new(Vec::new(alloc));
    let ends = feeds(rt, alloc, node, seat, FED, &mut writer);
    let asks = writer.into_inner().as_slice() == WANTED;
    (ends && asks, seat.receipts().len())
}

// Feeds a node of `member` a frame twice, and closes it with its seats. Returns what `feed_twice`
// returns, if the shutdown check succeeds.
fn fed_and_closed_by<S: Beginning, R: Wait>(
    rt: &R,
    alloc: Global,
    member: OwnMember,
) -> Option<(bool, usize)>
    requires { member ≡ S.beginning }
{
    let (node, mut seats) = node_of::<S>(alloc, member, FOUR.seats)?;
    let came = feed_twice(rt, alloc, &node, seats.as_mut_slice());
    let closes = fault_at_closing(alloc, node, seats.as_slice()).is_none();
    closes.then_some(came)
}

fn fed_and_closed<R: Wait>(rt: &R, alloc: Global) -> Option<(bool, usize)> {
    let member = member_of(alloc, FOUR)?;
    fed_and_closed_by::<Brand, R>(rt, alloc, member)
}

#[test]
fn a_repeated_frame_is_asked_on(rt: HostRuntime) {
    assert_eq!(rt; fed_and_closed(&rt, rt.alloc()), Some((true, 2)));
}
