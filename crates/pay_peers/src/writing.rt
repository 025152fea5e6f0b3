//! How a peer's WANTs are answered on a connection.

ghost use Rattle.std.specs.Prelude.{◌↔◌, IsTrue};
ghost use Rattle.pay_frame.specs.Counts.{KeepsCounts, counts_of};
ghost use Rattle.pay_frame.specs.EngineFault.{engine_of};
ghost use Rattle.pay_frame.specs.Lent.{fields_of};
ghost use Rattle.pay_peers.specs.Answering.{HasAnswered, NeedsNoWait, answering};

use crate::answering::{Wanted, answer_challenge, answer_want, open_want};
use crate::readers::NodeContext;
use pay_frame::{
    EngineFault, FrameFault, FrameHandler, FrameRef, Input, Kind, Output, handle_stream,
};
use pay_hmac::Tagger;
use pay_link::{Asked, asked_by};
use pay_node::{Beginning, FetchSeat};
use std::alloc::{AllocError, Global};
use std::sync::atomic::{AtomicBool, AtomicU64, Ordering};
use std::sync::{Mutex, Wait};

/// The decision whether a connection continues as its WANTs are authenticated. An admission is also
/// told of a frame that ends the connection.
pub trait Admission {
    /// Notes that a WANT of `peer` requests a place above all earlier requests on the connection,
    /// or the first one. Returns whether the connection continues.
    fn admit<R: Wait>(&self, rt: &R, peer: u16, number: u64) -> bool;

    /// Notes that a frame in the name of `peer` failed authentication: its tag isn't the one under
    /// the shared key.
    fn mistrust(&self, peer: u16);
}

/// The most bytes of replies that wait before another frame is answered.
const MOST_WAITING: usize = 64 << 10;

/// A handler that writes what each WANT requests: a claim, or a frame after the connection was
/// admitted as its sender's.
#[derive(Drop)]
struct ToPeer<'a, R, S: Beginning, T, A> {
    context: &'a NodeContext<'a, R, S, T>,
    seats: &'a [(u16, Mutex<FetchSeat>)],
    stop: &'a AtomicBool,
    admission: &'a A,
    // one more than the greatest requested place, and 0 before the first
    asked: AtomicU64,
}

impl<R, S, T, A> FrameHandler<()> for ToPeer<'_, R, S, T, A>
where
    R: Wait,
    S: Beginning,
    T: Tagger,
    A: Admission,
{
    ghost handling = { λ a. answering a.context.now.node.now a.seats.now };

    ghost has_room = { λ _ _ _. Unit {0} };

    ghost keeps_room = { λ _ _ _ _ _ _ _ _. tt };

    // No reply is held back while a frame is waited for, and none before the connection is
    // admitted.
    fn goes_along(&self, _nothing: &(), waiting: usize, frame: &FrameRef<'_>) -> bool {
        self.asked.load(Ordering::SeqCst) > 0
            && waiting < MOST_WAITING
            && needs_no_wait(frame, self.context.node.sent_len())
    }

    // Writes the reply to a frame, if it requests one. The connection ends at a frame with a wrong
    // tag, if it may not continue, and if there is no reply because the node stops.
    fn handle(
        &self,
        _alloc: Global,
        _nothing: &mut (),
        frame: FrameRef<'_>,
        out: &mut Vec<u8>,
    ) -> Result<bool, AllocError> {
        let context = self.context;
        let wanted = match open_want(context.tagger, context.node.keys(), self.seats, frame) {
            Ok(wanted) => wanted,
            Err(None) => return Ok(true),
            Err(Some(peer)) => {
                self.admission.mistrust(peer);
                return Ok(false);
            }
        };
        match asked_by(wanted.number) {
            Asked::Place(_) => {}
            Asked::Challenge(nonce) => {
                out.extend_from_slice(&answer_challenge(context, wanted.seated.0, nonce))?;
                return Ok(true);
            }
            Asked::Nothing => return Ok(true),
        }
        if !self.goes_on(&wanted) {
            return Ok(false);
        }
        let answer = answer_want(context, self.stop, &wanted)?;
        match answer {
            None => Ok(false),
            Some(bytes) => {
                out.extend_from_slice(&bytes)?;
                Ok(true)
            }
        }
    }

    fn end(&self, _nothing: &(), _fault: FrameFault, _out: &mut Vec<u8>) -> Result<(), AllocError> {
        Ok(())
    }
}

impl<R: Wait, S: Beginning, T, A: Admission> ToPeer<'_, R, S, T, A> {
    // Returns whether the connection continues. This is decided at the first requested place, and
    // at each place above the earlier ones.
    fn goes_on(&self, wanted: &Wanted<'_>) -> bool {
        let asked = wanted.number.saturating_add(1);
        // only one thread answers a connection
        if asked <= self.asked.load(Ordering::SeqCst) {
            return true;
        }
        self.asked.store(asked, Ordering::SeqCst);
        self.admission
            .admit(self.context.rt, wanted.seated.0, wanted.number)
    }
}

// Returns whether a member that sent `sent` frames answers `frame` without a wait.
// promise: answered WANTs
fn needs_no_wait(frame: &FrameRef<'_>, sent: u64) -> bool
    ensures { IsTrue result ↔ NeedsNoWait sent (fields_of frame.now) }
{
    frame.kind() != Kind::Want
        || frame.number() < sent
        || !matches!(asked_by(frame.number()), Asked::Place(_))
}

// A seat that connections share is locked inside the node's lock, after the body is sent, so a
// connection that waits delays no other.
//
// An inbound connection ends at its first wrong tag, which no correct peer sends. Otherwise anybody
// without a key could have tags computed as fast as bytes come.
/// Answers a peer's WANTs on a connection. The loop reads frames, and writes the frame that each
/// WANT requests, after the member sent it. A claim on a challenge is written at once.
///
/// The connection ends at a frame with a tag that isn't the one under the shared key. Some frames
/// are passed over without an answer: other frames that fail authentication, are no WANT, request
/// nothing, or come from a sender that has no seat in `seats`. At the first WANT for a place
/// `admission` admits the connection as its sender's, or ends it. The decision is repeated at each
/// WANT for a higher place. The connection ends well at the input's end, and at a WANT that waits
/// when `stop` is set. A fault in the frames ends it, and is returned. After another fault a prefix
/// of the replies is written.
// promise: early ends (counts); answered WANTs (answered)
pub fn write_peer<S, R, T, A, In, Out>(
    context: &NodeContext<'_, R, S, T>,
    seats: &[(u16, Mutex<FetchSeat>)],
    stop: &AtomicBool,
    admission: &A,
    reader: &mut In,
    writer: &mut Out,
) -> Result<(), EngineFault>
where
    S: Beginning,
    R: Wait,
    T: Tagger,
    A: Admission,
    In: Input,
    Out: Output,
    ensures answered { HasAnswered context.now.node.now seats.now
        (In.remaining reader.old) (In.remaining reader.new)
        (Out.contents writer.old) (Out.contents writer.new) result }
    ensures counts { let counted =
        counts_of In.call_count In.failure_count In.remaining Out.failure_count in
        KeepsCounts engine_of
        (counted reader.old writer.old) (counted reader.new writer.new) result }
{
    let to_peer = ToPeer {
        context,
        seats,
        stop,
        admission,
        asked: AtomicU64::new(0),
    };
    handle_stream(context.alloc, &to_peer, &mut (), &[], reader, writer)
}
