//! The admission of a connection as a peer's: at its first authenticated WANT for a place, and at
//! each WANT for a higher place. Also what becomes of the WANTs that come.

ghost use Rattle.std.specs.Prelude.{◌≡◌};

use crate::node::rows::{FOUR, PAYMENT, SEND};
use crate::node::trial::{fetch_seat, member_of, node_of};
use crate::peers::rows::{CHALLENGE, CLAIM, NO_CHALLENGE, WANT, WANT_FROM_2, WANT_OF_0, WANT_OF_2};
use pay_frame::{Bytes, Output, Reader, Writer};
use pay_hmac::HmacSha256;
use pay_node::{Beginning, FetchSeat, Node, OwnMember, Seat};
use pay_peers::{Admission, NodeContext, write_peer};
use std::alloc::Global;
use std::marker::Brand;
use std::sync::atomic::{AtomicBool, AtomicU64, Ordering};
use std::sync::{Mutex, Wait};

/// A counter of admissions, which notes the last admitted peer, and lets each connection continue
/// or not.
#[derive(Drop)]
pub(crate) struct Admissions {
    goes_on: bool,
    count: AtomicU64,
    peer: AtomicU64,
}

impl Admissions {
    pub(crate) fn new(goes_on: bool) -> Admissions {
        Admissions {
            goes_on,
            count: AtomicU64::new(0),
            peer: AtomicU64::new(u64::MAX),
        }
    }

    // Returns how often a peer was admitted, and which peer was admitted last.
    fn counts(&self) -> (u64, u64) {
        (
            self.count.load(Ordering::SeqCst),
            self.peer.load(Ordering::SeqCst),
        )
    }
}

impl Admission for Admissions {
    fn admit<R: Wait>(&self, _rt: &R, peer: u16, _number: u64) -> bool {
        self.count.fetch_add(1, Ordering::SeqCst);
        self.peer.store(u64::from(peer), Ordering::SeqCst);
        self.goes_on
    }

    fn mistrust(&self, _peer: u16) {}
}

/// What comes on a connection to member 1 of four, and what comes of it.
struct Row {
    frames: &'static [&'static [u8]],
    goes_on: bool,
    came: Came,
}

/// How often a connection was admitted, and as which peer's it was last. How many bytes were
/// written, in how many calls. How many receipts are left in the seats of members 0 and 2.
#[derive(Clone, Copy, Debug, PartialEq, Eq)]
struct Came {
    admitted: (u64, u64),
    bytes: usize,
    calls: u64,
    receipts: (usize, usize),
}

/// The length of each reply, a frame with a payment.
const REPLY: usize = 67;

/// The length of a claim.
const CLAIM_LEN: usize = 56;

/// The result of a connection that was never admitted, and on which nothing was written.
const NOTHING: Came = Came {
    admitted: (0, u64::MAX),
    bytes: 0,
    calls: 0,
    receipts: (0, 0),
};

// The replies go out together, and a repeated WANT leaves no receipt.
const ROWS: &[Row] = &[
    Row {
        frames: &[SEND],
        goes_on: true,
        came: NOTHING,
    },
    Row {
        frames: &[WANT, WANT],
        goes_on: false,
        came: Came {
            admitted: (1, 0),
            ..NOTHING
        },
    },
    Row {
        frames: &[SEND, WANT],
        goes_on: true,
        came: Came {
            admitted: (1, 0),
            bytes: REPLY,
            calls: 1,
            receipts: (1, 0),
        },
    },
    Row {
        frames: &[SEND, WANT, WANT],
        goes_on: true,
        came: Came {
            admitted: (1, 0),
            bytes: 2 * REPLY,
            calls: 1,
            receipts: (1, 0),
        },
    },
    Row {
        frames: &[WANT, WANT_OF_0],
        goes_on: true,
        came: Came {
            admitted: (1, 0),
            bytes: 2 * REPLY,
            calls: 1,
            receipts: (2, 0),
        },
    },
    Row {
        frames: &[WANT, WANT_OF_2, SEND, WANT_OF_0],
        goes_on: true,
        came: Came {
            admitted: (1, 0),
            bytes: 3 * REPLY,
            calls: 1,
            receipts: (3, 0),
        },
    },
    Row {
        frames: &[WANT, WANT, WANT_OF_0, WANT, WANT_OF_0],
        goes_on: true,
        came: Came {
            admitted: (1, 0),
            bytes: 5 * REPLY,
            calls: 1,
            receipts: (2, 0),
        },
    },
    Row {
        frames: &[WANT_OF_0, WANT_OF_2, WANT],
        goes_on: true,
        came: Came {
            admitted: (3, 0),
            bytes: 3 * REPLY,
            calls: 1,
            receipts: (3, 0),
        },
    },
    Row {
        frames: &[WANT_FROM_2],
        goes_on: true,
        came: Came {
            admitted: (1, 2),
            bytes: REPLY,
            calls: 1,
            receipts: (0, 1),
        },
    },
    Row {
        frames: &[WANT, WANT_OF_0, WANT_FROM_2],
        goes_on: true,
        came: Came {
            admitted: (1, 0),
            bytes: 3 * REPLY,
            calls: 1,
            receipts: (2, 1),
        },
    },
    Row {
        frames: &[WANT_FROM_2, WANT_OF_0],
        goes_on: true,
        came: Came {
            admitted: (1, 2),
            bytes: 2 * REPLY,
            calls: 1,
            receipts: (1, 1),
        },
    },
    // a claim goes out with no admission, and nothing is asked for by what is no challenge
    Row {
        frames: &[CHALLENGE, NO_CHALLENGE, CLAIM],
        goes_on: false,
        came: Came {
            bytes: CLAIM_LEN,
            calls: 1,
            ..NOTHING
        },
    },
    Row {
        frames: &[CHALLENGE, WANT],
        goes_on: true,
        came: Came {
            admitted: (1, 0),
            bytes: CLAIM_LEN + REPLY,
            calls: 2,
            receipts: (1, 0),
        },
    },
];

// Returns these `frames`, one after the other.
fn join_frames(alloc: Global, frames: &[&[u8]]) -> Option<Vec<u8>> {
    let mut bytes = Vec::new(alloc);
    for frame in frames {
        bytes.extend_from_slice(frame).ok()?;
    }
    Some(bytes)
}

// Submits two payments to `node`, and returns whether both got numbers.
fn asks_twice<S: Beginning, R: Wait>(
    rt: &R,
    alloc: Global,
    node: &Node<S>,
    seat: &mut Seat,
) -> bool {
    for _ in 0..2 {
        let Ok(value) = Bytes::from_slice(alloc, PAYMENT) else {
            return false;
        };
        if node.ask(rt, alloc, seat, value).is_err() {
            return false;
        }
    }
    true
}

// Returns how many bytes `node` writes for `frames`, and in how many calls.
fn write_frames<S: Beginning, R: Wait>(
    rt: &R,
    alloc: Global,
    node: &Node<S>,
    seats: &[(u16, Mutex<FetchSeat>)],
    admissions: &Admissions,
    frames: &[u8],
) -> Option<(usize, u64)> {
    let mut reader = Reader::new(frames);
    let mut writer: Writer<Vec<u8>> = Writer::new(Vec::new(alloc));
    let stop = AtomicBool::new(false);
    let context = NodeContext {
        rt,
        alloc,
        node,
        tagger: &HmacSha256,
        nonce: 0,
    };
    let ended = write_peer(&context, seats, &stop, admissions, &mut reader, &mut writer);
    let calls = writer.calls();
    ended.is_ok().then_some((writer.into_inner().len(), calls))
}

// Returns how many receipts a peer's `seat` has.
fn receipts_in<R: Wait>(rt: &R, seat: &Mutex<FetchSeat>) -> usize {
    seat.lock(rt).receipts().len()
}

// Returns what comes of the connection of `row` to `node`.
fn came_of<S: Beginning, R: Wait>(
    rt: &R,
    alloc: Global,
    node: &Node<S>,
    writing: &[(u16, Mutex<FetchSeat>); 2],
    row: &Row,
) -> Option<Came> {
    let frames = join_frames(alloc, row.frames)?;
    let admissions = Admissions::new(row.goes_on);
    let (bytes, calls) = write_frames(rt, alloc, node, writing, &admissions, frames.as_slice())?;
    Some(Came {
        admitted: admissions.counts(),
        bytes,
        calls,
        receipts: (
            receipts_in(rt, &writing[1].1),
            receipts_in(rt, &writing[0].1),
        ),
    })
}

// Removes the last two of three `seats`, and returns them as those of members 2 and 0.
fn writing_of(seats: &mut Vec<Seat>) -> Option<[(u16, Mutex<FetchSeat>); 2]> {
    let of_2 = fetch_seat(seats.pop()?)?;
    let of_0 = fetch_seat(seats.pop()?)?;
    Some([(2, Mutex::new(of_2)), (0, Mutex::new(of_0))])
}

// Removes the last of `seats` and submits two payments to `node` from it. Returns whether both got
// numbers.
fn asks_from_last<S: Beginning, R: Wait>(
    rt: &R,
    alloc: Global,
    node: &Node<S>,
    seats: &mut Vec<Seat>,
) -> bool {
    match seats.pop() {
        Some(mut seat) => asks_twice(rt, alloc, node, &mut seat),
        None => false,
    }
}

// Returns what comes of the connection of `row` to `node`, after two payments were submitted from
// the last of its three `seats`.
fn came_behind_asks<S: Beginning, R: Wait>(
    rt: &R,
    alloc: Global,
    node: &Node<S>,
    seats: &mut Vec<Seat>,
    row: &Row,
) -> Option<Came> {
    if !asks_from_last(rt, alloc, node, seats) {
        return None;
    }
    let writing = writing_of(seats)?;
    came_of(rt, alloc, node, &writing, row)
}

// Returns what comes of the connection of `row` to a fresh node of `member`, after two payments
// were submitted.
fn outcome_by<S: Beginning, R: Wait>(
    rt: &R,
    alloc: Global,
    member: OwnMember,
    row: &Row,
) -> Option<Came>
    requires { member ≡ S.beginning }
{
    let (node, mut seats) = node_of::<S>(alloc, member, 3)?;
    came_behind_asks(rt, alloc, &node, &mut seats, row)
}

fn outcome<R: Wait>(rt: &R, alloc: Global, row: &Row) -> Option<Came> {
    let member = member_of(alloc, FOUR)?;
    outcome_by::<Brand, R>(rt, alloc, member, row)
}

#[test]
fn each_want_is_answered_from_its_senders_seat(rt: HostRuntime) {
    for (place, row) in ROWS.iter().enumerate() {
        assert_eq!(rt;
            outcome(&rt, rt.alloc(), row),
            Some(row.came),
            "row {place}"
        );
    }
}
