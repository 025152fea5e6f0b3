//! How a node is fed from a peer's stream.

ghost use Rattle.std.specs.Prelude.{◌≡◌, ◌+◌, ◌≤◌, ◌^◌, IsTrue, None, false};
ghost use Rattle.pay_frame.specs.Counts.{KeepsCounts, counts_of};
ghost use Rattle.pay_frame.specs.EngineFault.{engine_of};
ghost use Rattle.pay_link.specs.Keys.{IsPeer};
ghost use Rattle.pay_peers.specs.Feeding.{HasFed, feeding, want_for_all};
ghost use Rattle.pay_peers.specs.Window.{first_count, first_window, empty_window};

use crate::reading_ahead::MOST_WAITING;
use crate::window::{Ahead, Window};
use pay_frame::{EngineFault, FrameFault, FrameHandler, FrameRef, Input, Output, handle_stream};
use pay_hmac::Tagger;
use pay_link::want;
use pay_member::Lie;
use pay_node::{Beginning, Gate, Node, Seat};
use std::alloc::{AllocError, Global};
use std::sync::Wait;

/// The seat for a peer's frames, and the frames that were requested on its connection.
#[derive(Drop)]
pub struct PeerReader {
    /// The seat with the receipts of the peer's frames.
    pub seat: Seat,
    /// The window of the current connection.
    pub window: Window,
    /// The peer's last lie, once one was found.
    pub lie: Option<Lie>,
}

impl PeerReader {
    /// Creates a reader with this `seat` before the first connection.
    pub fn new(seat: Seat) -> PeerReader
        ensures { result ≡ record { seat = seat; window = empty_window; lie = None } }
    {
        PeerReader {
            seat,
            window: Window::new(),
            lie: None,
        }
    }

    /// Begins a connection: the frames from `from` on are requested, as many as a connection begins
    /// with. Returns whether there are that many numbers.
    pub fn begin(&mut self, ahead: Ahead, from: u64) -> bool
        ensures seat { self.new.seat ≡ self.old.seat }
        ensures begun { IsTrue result → self.new.window ≡ first_window ahead.count from }
        ensures full { result ≡ false → 2 ^ 64 ≤ from + first_count ahead.count }
    {
        match Window::first(ahead, from) {
            Some(window) => {
                self.window = window;
                true
            }
            None => false,
        }
    }
}

/// A handler that passes each frame to a node from a seat, and writes the WANT of the answer.
#[derive(Drop)]
struct FromPeer<'a, R, S: Beginning, T, G> {
    rt: &'a R,
    node: &'a Node<S>,
    tagger: &'a T,
    gate: &'a G,
}

impl<R, S, T, G> FrameHandler<Seat> for FromPeer<'_, R, S, T, G>
where
    R: Wait,
    S: Beginning,
    T: Tagger,
    G: Gate,
{
    ghost handling = { λ f. feeding f.node.now };

    ghost has_room = { λ _ _ _. Unit {0} };

    ghost keeps_room = { λ _ _ _ _ _ _ _ _. tt };

    fn goes_along(&self, _state: &Seat, waiting: usize, _frame: &FrameRef<'_>) -> bool {
        waiting < MOST_WAITING
    }

    fn handle(
        &self,
        alloc: Global,
        seat: &mut Seat,
        frame: FrameRef<'_>,
        out: &mut Vec<u8>,
    ) -> Result<bool, AllocError> {
        let from = frame.from();
        let received = self
            .node
            .bring_frame(self.rt, alloc, seat, self.tagger, self.gate, frame)?;
        let brought = received.with_want(self.tagger, self.node.keys(), from);
        match brought.want {
            None => Ok(true),
            Some(want) => {
                out.extend_from_slice(&want)?;
                Ok(true)
            }
        }
    }

    fn end(&self, _seat: &Seat, _fault: FrameFault, _out: &mut Vec<u8>) -> Result<(), AllocError> {
        Ok(())
    }
}

/// Feeds `node` from `reader`, the stream of `peer`. The loop first writes the WANT for all that
/// the peer sent. Then it passes each frame that is read to the node, and writes the WANT of the
/// answer, if any.
///
/// A fault in the frames ends the loop, and is returned. After a failed read, and at the read
/// limit, the node has received all frames that were read. After another fault it has received a
/// prefix of them, and a prefix of their WANTs is written.
// promise: early ends (counts); inbound streams (fed)
pub fn read_peer<S, R, T, G, In, Out>(
    rt: &R,
    alloc: Global,
    node: &Node<S>,
    seat: &mut Seat,
    tagger: &T,
    gate: &G,
    peer: u16,
    reader: &mut In,
    writer: &mut Out,
) -> Result<(), EngineFault>
where
    S: Beginning,
    R: Wait,
    T: Tagger,
    G: Gate,
    In: Input,
    Out: Output,
    requires { IsPeer node.now.keys peer }
    ensures fed { HasFed node.now
        (record {
          first = want_for_all node.now.keys peer;
          state = seat.old;
          input = In.remaining reader.old;
          before = Out.contents writer.old;
        })
        (record {
          state = seat.new;
          left = In.remaining reader.new;
          after = Out.contents writer.new;
        })
        result }
    ensures counts { let counted =
        counts_of In.call_count In.failure_count In.remaining Out.failure_count in
        KeepsCounts engine_of
        (counted reader.old writer.old) (counted reader.new writer.new) result }
{
    let from_peer = FromPeer {
        rt,
        node,
        tagger,
        gate,
    };
    let first = want(tagger, node.keys(), peer, 0);
    handle_stream(alloc, &from_peer, seat, &first, reader, writer)
}
