//! Two workers at one node. While one is held as its frame is authenticated, or after that, the
//! frame of the other one is accepted.

ghost use Rattle.std.specs.Prelude.{◌≡◌};

use crate::node::rows::FOUR;
use crate::node::trial::{fault_at_closing, member_of, node_of};
use crate::peers::rows::{CLAIM_AND_SEND, CLAIM_AND_SEND_OF_2};
use crate::peers::told::Told;
use pay_frame::{Reader, Writer};
use pay_hmac::{HmacSha256, Tagger};
use pay_node::{Beginning, Gate, Node, OwnMember, Seat};
use pay_peers::{Ahead, Dial, Dialed, Dials, NodeContext, PeerReader, run_readers};
use std::alloc::Global;
use std::marker::Brand;
use std::sync::Wait;
use std::sync::atomic::{AtomicBool, AtomicU32, Ordering};
use std::thread;
use std::thread::Threads;
use std::time::{Clock, Duration};

/// How often a held worker looks whether the other one was answered, a millisecond apart.
const TURNS: u32 = 20_000;

/// The place of a frame's kind, and those of a SEND and a WANT.
const KIND: usize = 3;

const SENT: u8 = 1;

const WANTED: u8 = 4;

/// Two workers. One of them is held as the tag of its frame is computed, or after that. They belong
/// to peers 0 and 2, or both to peer 0: then the held frame repeats the other one's.
#[derive(Clone, Copy, Debug)]
struct Row {
    held: u16,
    at_tag: bool,
    repeats: bool,
}

const ROWS: &[Row] = &[
    Row {
        held: 0,
        at_tag: false,
        repeats: false,
    },
    Row {
        held: 1,
        at_tag: false,
        repeats: false,
    },
    Row {
        held: 0,
        at_tag: true,
        repeats: false,
    },
    Row {
        held: 1,
        at_tag: true,
        repeats: false,
    },
    Row {
        held: 0,
        at_tag: false,
        repeats: true,
    },
    Row {
        held: 1,
        at_tag: false,
        repeats: true,
    },
];

/// Holds the worker of one stamp until the other one was answered: as its frame's tag is made, or
/// after that, before the lock is taken. The other one asks for no frame before that, or takes none
/// where both are of one peer.
#[derive(Drop)]
struct Held<'a, C> {
    clock: &'a C,
    row: Row,
    is_held: AtomicBool,
    other_answered: AtomicBool,
    gave_up: AtomicBool,
}

impl<C: Clock> Held<'_, C> {
    fn hold(&self) {
        self.is_held.store(true, Ordering::SeqCst);
        self.wait_for(&self.other_answered);
    }

    fn wait_for(&self, flag: &AtomicBool) {
        for _ in 0..TURNS {
            if flag.load(Ordering::SeqCst) {
                return;
            }
            thread::sleep(self.clock, Duration::from_millis(1));
        }
        self.gave_up.store(true, Ordering::SeqCst);
    }
}

impl<C: Clock> Gate for Held<'_, C> {
    fn pass(&self, stamp: u16) {
        if stamp != self.row.held && self.row.repeats {
            self.wait_for(&self.is_held);
        }
        if stamp == self.row.held && !self.row.at_tag {
            self.hold();
        }
    }

    fn answered(&self, stamp: u16) {
        if stamp != self.row.held {
            self.other_answered.store(true, Ordering::SeqCst);
        }
    }
}

impl<C: Clock> Tagger for Held<'_, C> {
    fn tag(&self, key: &[u8; 32], head: &[u8], rest: &[u8]) -> [u8; 32] {
        // the test key of members 0 and 1 ends with 1, that of members 1 and 2 with 2
        let stamp = if key[31] == 1 { 0 } else { 1 };
        let kind = head.get(KIND).copied();
        if stamp == self.row.held && self.row.at_tag && kind == Some(SENT) {
            self.hold();
        }
        if stamp != self.row.held && !self.row.repeats && kind == Some(WANTED) {
            self.wait_for(&self.is_held);
        }
        HmacSha256.tag(key, head, rest)
    }
}

/// Gives each worker a stream of its peer, and then tells it to stop.
#[derive(Drop)]
struct Once {
    alloc: Global,
    repeats: bool,
    of_0: AtomicU32,
    of_2: AtomicU32,
}

impl Dial<Reader<&'static [u8]>, Writer<Vec<u8>>> for Once {
    fn dial(&self, peer: u16, _asks: bool) -> Dialed<Reader<&'static [u8]>, Writer<Vec<u8>>> {
        let given = if peer == 0 { &self.of_0 } else { &self.of_2 };
        if given.fetch_add(1, Ordering::SeqCst) > u32::from(self.repeats) {
            return Dialed::Stop;
        }
        Dialed::Streams(
            Reader::new(frames_of(peer)),
            Writer::new(Vec::new(self.alloc)),
        )
    }
}

// Returns the claim and the one frame of `peer`, which is 0 or 2.
fn frames_of(peer: u16) -> &'static [u8] {
    if peer == 0 {
        CLAIM_AND_SEND
    } else {
        CLAIM_AND_SEND_OF_2
    }
}

// Returns whether each of `seats` has the receipt of one frame, which was accepted unless it is a
// repeat.
fn are_told(row: Row, seats: &[Seat]) -> bool {
    for seat in seats {
        let is_taken = !row.repeats || seat.stamp() != row.held;
        match seat.receipts() {
            [receipt] if receipt.has_entry() == is_taken => {}
            _ => return false,
        }
    }
    true
}

// Returns the peer that sends frames to `seat`.
fn peer_of(row: Row, seat: &Seat) -> u16 {
    if seat.stamp() == 0 || row.repeats {
        0
    } else {
        2
    }
}

// Returns each of `seats` with its peer.
fn pairs_of(alloc: Global, row: Row, seats: Vec<Seat>) -> Option<Vec<(u16, PeerReader)>> {
    let mut pairs = Vec::new(alloc);
    for seat in seats {
        pairs
            .push((peer_of(row, &seat), PeerReader::new(seat)))
            .ok()?;
    }
    Some(pairs)
}

fn seats_of(alloc: Global, pairs: Vec<(u16, PeerReader)>) -> Option<Vec<Seat>> {
    let mut seats = Vec::new(alloc);
    for (_, asking) in pairs {
        let PeerReader { seat, .. } = asking;
        seats.push(seat).ok()?;
    }
    Some(seats)
}

// Runs the workers while one of them is held, and returns whether the held worker was let go in
// time.
fn run<S: Beginning + Send + Sync, R: Threads + Wait + Clock + Sync>(
    rt: &R,
    alloc: Global,
    node: &Node<S>,
    row: Row,
    pairs: &mut [(u16, PeerReader)],
) -> bool {
    let gate = Held {
        clock: rt,
        row,
        is_held: AtomicBool::new(false),
        other_answered: AtomicBool::new(false),
        gave_up: AtomicBool::new(false),
    };
    let dial = Once {
        alloc,
        repeats: row.repeats,
        of_0: AtomicU32::new(0),
        of_2: AtomicU32::new(0),
    };
    let told = Told::new();
    let context = NodeContext {
        rt,
        alloc,
        node,
        tagger: &gate,
        nonce: 0,
    };
    run_readers(
        &context,
        &gate,
        &dial,
        &told,
        Dials::Usual,
        Ahead::usual(),
        pairs,
    );
    !gate.gave_up.load(Ordering::SeqCst) && told.counts() == (2, 0, 0, 0, 0, 0)
}

// Returns the `seats` after two workers ran while one of them was held, if the held worker was let
// go in time.
fn held_seats<S: Beginning + Send + Sync, R: Threads + Wait + Clock + Sync>(
    rt: &R,
    alloc: Global,
    node: &Node<S>,
    row: Row,
    seats: Vec<Seat>,
) -> Option<Vec<Seat>> {
    let mut pairs = pairs_of(alloc, row, seats)?;
    let in_time = run(rt, alloc, node, row, pairs.as_mut_slice());
    let seats = seats_of(alloc, pairs)?;
    in_time.then_some(seats)
}

// Returns whether `node` closes with these `seats`, and whether each has the receipt that it has to
// have.
fn is_closed<S: Beginning>(
    alloc: Global,
    node: Node<S>,
    row: Row,
    seats: Option<Vec<Seat>>,
) -> bool {
    match seats {
        Some(seats) => {
            fault_at_closing(alloc, node, seats.as_slice()).is_none()
                && are_told(row, seats.as_slice())
        }
        None => false,
    }
}

// Returns whether the held worker was let go in time, and both frames were answered.
fn overlaps_at<S, R>(rt: &R, alloc: Global, member: OwnMember, row: Row) -> Option<bool>
where
    S: Beginning + Send + Sync,
    R: Threads + Wait + Clock + Sync,
    requires { member ≡ S.beginning }
{
    let (node, seats) = node_of::<S>(alloc, member, FOUR.seats)?;
    let seats = held_seats(rt, alloc, &node, row, seats);
    Some(is_closed(alloc, node, row, seats))
}

fn overlaps<R: Threads + Wait + Clock + Sync>(rt: &R, alloc: Global, row: Row) -> Option<bool> {
    let member = member_of(alloc, FOUR)?;
    overlaps_at::<Brand, R>(rt, alloc, member, row)
}

#[test]
fn one_worker_waits_for_no_other(rt: HostRuntime) {
    for row in ROWS {
        assert_eq!(rt; overlaps(&rt, rt.alloc(), *row), Some(true), "{row:?}");
    }
}
