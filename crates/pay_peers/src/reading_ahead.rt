//! How a node is fed from a peer's stream with several frames in flight.

ghost use Rattle.std.specs.Prelude.{◌≡◌, ◌+◌, ◌<◌, ◌++◌, ◌^◌, OnOk};
ghost use Rattle.pay_frame.specs.Counts.{KeepsCounts, counts_of};
ghost use Rattle.pay_frame.specs.EngineFault.{engine_of};
ghost use Rattle.pay_link.specs.Keys.{IsPeer};
ghost use Rattle.pay_node.specs.Comparing.{HasStanding};
ghost use Rattle.pay_node.specs.declared.comparing.Standing.TheVariants.{Free};
ghost use Rattle.pay_peers.specs.Ahead.{HasFedAhead, LooksForLie, feeding_ahead, next_told};
ghost use Rattle.pay_peers.specs.Ahead.{wants};
ghost use Rattle.pay_peers.specs.Window.{first_count, first_window, row_of};

use crate::feeding::PeerReader;
use crate::readers::NodeContext;
use crate::window::{Ahead, Asks, Window};
use pay_frame::{
    EngineFault, FrameFault, FrameHandler, FrameRef, HEAD_LEN, Input, Output, TAG_LEN,
    handle_stream, stream_grows,
};
use pay_hmac::Tagger;
use pay_link::{Keys, LinkFault, want};
use pay_member::Outcome;
use pay_node::{Beginning, Gate};
use std::alloc::{AllocError, Global};
use std::sync::Wait;

/// The most bytes of WANTs that wait before another frame is handled: those of 64 WANTs.
pub(crate) const MOST_WAITING: usize = 64 * (HEAD_LEN + TAG_LEN);

/// A handler that passes the expected frames of a peer to the node, and requests more.
#[derive(Drop)]
struct FromPeerAhead<'a, R, S: Beginning, T, G> {
    context: &'a NodeContext<'a, R, S, T>,
    gate: &'a G,
    peer: u16,
    ahead: Ahead,
    ghost is_peer: { IsPeer context.now.node.now.keys peer },
}

impl<R, S, T, G> FrameHandler<PeerReader> for FromPeerAhead<'_, R, S, T, G>
where
    R: Wait,
    S: Beginning,
    T: Tagger,
    G: Gate,
{
    ghost handling = { λ a. feeding_ahead a.context.now.node.now a.peer a.ahead.count };

    ghost has_room = { λ _ _ _. Unit {0} };

    ghost keeps_room = { λ _ _ _ _ _ _ _ _. tt };

    fn goes_along(&self, _state: &PeerReader, waiting: usize, _frame: &FrameRef<'_>) -> bool {
        waiting < MOST_WAITING
    }

    // The connection ends with a frame that isn't the expected one, or of a peer with a protocol
    // violation. The node doesn't receive that frame.
    fn handle(
        &self,
        alloc: Global,
        asking: &mut PeerReader,
        frame: FrameRef<'_>,
        out: &mut Vec<u8>,
    ) -> Result<bool, AllocError> {
        let number = frame.number();
        if frame.from() != self.peer || number != asking.window.due || asking.lie.is_some() {
            return Ok(false);
        }
        let context = self.context;
        let received = context.node.bring_frame(
            context.rt,
            alloc,
            &mut asking.seat,
            context.tagger,
            self.gate,
            frame,
        )?;
        match next_told(&received.outcome, number) {
            None => {
                self.look_for_lie(alloc, asking)?;
                Ok(true)
            }
            Some(next) => {
                let asks = asking.window.move_to(next, self.ahead);
                self.look_for_lie(alloc, asking)?;
                ask_for(context.tagger, context.node.keys(), self.peer, asks, out)?;
                Ok(true)
            }
        }
    }

    fn end(
        &self,
        _asking: &PeerReader,
        _fault: FrameFault,
        _out: &mut Vec<u8>,
    ) -> Result<(), AllocError> {
        Ok(())
    }
}

impl<R, S, T, G> FromPeerAhead<'_, R, S, T, G>
where
    R: Wait,
    S: Beginning,
{
    // Looks for a protocol violation of the peer, if there may be one.
    fn look_for_lie(&self, alloc: Global, asking: &mut PeerReader) -> Result<(), AllocError>
        ensures window { asking.new.window ≡ asking.old.window }
        ensures looked { LooksForLie self.now.context.now.node.now self.now.peer
            asking.old.seat asking.old.lie asking.new }
    {
        let context = self.context;
        if context.node.may_have_lied(self.peer) {
            let seat = &mut asking.seat;
            asking.lie = context.node.accuse(context.rt, alloc, seat, self.peer)?;
        }
        Ok(())
    }
}

// Returns the number that is next after a frame, according to its outcome, if there is one.
fn next_told(outcome: &Outcome, number: u64) -> Option<u64>
    ensures { result ≡ next_told outcome.now number }
{
    match outcome {
        Outcome::Took(_) => {
            if number < u64::MAX {
                Some(number + 1)
            } else {
                None
            }
        }
        Outcome::Link(LinkFault::Repeat(next)) => Some(*next),
        Outcome::Link(_) | Outcome::Wanted { .. } | Outcome::Frame(_) | Outcome::WrongKey => None,
    }
}

// Appends the WANTs of consecutive numbers to `out`.
fn ask_for<T: Tagger>(
    tagger: &T,
    keys: &Keys,
    peer: u16,
    asks: Asks,
    out: &mut Vec<u8>,
) -> Result<(), AllocError>
    requires peer { IsPeer keys.now peer }
    requires fits { asks.from + asks.count < 2 ^ 64 }
    ensures { OnOk result (out.new.items
        ≡ out.old.items ++ wants keys.now peer (row_of asks.from asks.count)) }
{
    for place in 0..asks.count {
        out.extend_from_slice(&want(tagger, keys, peer, asks.from + place))?;
    }
    Ok(())
}

// An unexpected frame ends its connection before the node receives it. So neither repeats nor gaps
// of a faulty member grow the history. The number of a frame that failed authentication is
// requested again on the next connection.
/// Feeds a node from the stream of `peer`. The loop requests the frames that a connection begins
/// with. It passes each expected frame to the node and requests more, so that up to `ahead` frames
/// are in flight. The node has no rollback check, or is free.
///
/// An unexpected frame ends the loop: a frame out of the order of the requests, or in the name of
/// another member. So does the next frame of a peer with a protocol violation. A fault in the
/// frames ends the loop, and is returned. After a failed read, and at the read limit, the node has
/// received all frames that were read. After another fault it has received a prefix of them, and a
/// prefix of their WANTs is written.
// promise: early ends (counts); asked ahead (fed); dials
pub fn read_ahead<S, R, T, G, In, Out>(
    context: &NodeContext<'_, R, S, T>,
    gate: &G,
    peer: u16,
    ahead: Ahead,
    asking: &mut PeerReader,
    reader: &mut In,
    writer: &mut Out,
) -> Result<(), EngineFault>
where
    S: Beginning,
    R: Wait,
    T: Tagger,
    G: Gate,
    In: Input,
    Out: Output,
    requires peer { IsPeer context.now.node.now.keys peer }
    requires free { HasStanding context.now.node.now Free }
    requires begun { asking.old.window ≡ first_window ahead.count asking.old.window.due }
    ensures fed { HasFedAhead context.now.node.now peer ahead.count
        (record {
          first = wants context.now.node.now.keys peer
              (row_of asking.old.window.due (first_count ahead.count));
          state = asking.old;
          input = In.remaining reader.old;
          before = Out.contents writer.old;
        })
        (record {
          state = asking.new;
          left = In.remaining reader.new;
          after = Out.contents writer.new;
        })
        result }
    ensures counts { let counted =
        counts_of In.call_count In.failure_count In.remaining Out.failure_count in
        KeepsCounts engine_of
        (counted reader.old writer.old) (counted reader.new writer.new) result }
{
    let from_peer = FromPeerAhead {
        context,
        gate,
        peer,
        ahead,
    };
    // for the proof, a law: the call does nothing
    stream_grows();
    let Window { due, asked } = asking.window;
    let asks = Asks {
        from: due,
        count: asked - due,
    };
    let mut first = Vec::new(context.alloc);
    ask_for(context.tagger, context.node.keys(), peer, asks, &mut first)?;
    handle_stream(context.alloc, &from_peer, asking, &first, reader, writer)
}
