//! The loop that feeds a member from a peer's stream.

ghost use Rattle.std.specs.Prelude.{◌≡◌, OnOk};
ghost use Rattle.pay_frame.specs.Counts.{KeepsCounts, counts_of};
ghost use Rattle.pay_frame.specs.EngineFault.{engine_of};
ghost use Rattle.pay_frame.specs.Exact.{TakesFrames, Writes, exactly};
ghost use Rattle.pay_link.specs.Keys.{IsPeer};
ghost use Rattle.pay_member.specs.Serving.{serve_start, serving};

use crate::member::Member;
use pay_book::Settle;
use pay_echo::Instance;
use pay_frame::{
    EngineFault, FrameFault, FrameHandler, FrameRef, Input, Output, exact_text, handle_stream,
};
use pay_hmac::Tagger;
use pay_link::want;
use std::alloc::{AllocError, Global};

/// A handler that passes each frame to a member, and writes the WANT of its answer.
#[derive(Drop)]
struct FromPeer<'a, T> {
    stamp: u16,
    tagger: &'a T,
}

impl<I: Instance + Drop, B: Settle + Drop, T: Tagger> FrameHandler<Member<I, B>>
    for FromPeer<'_, T> {
    ghost handling = { λ f. exactly (serving f.stamp) };

    ghost has_room = { λ _ _ _. Unit {0} };

    ghost keeps_room = { λ _ _ _ _ _ _ _ _. tt };

    fn handle(
        &self,
        alloc: Global,
        member: &mut Member<I, B>,
        frame: FrameRef<'_>,
        out: &mut Vec<u8>,
    ) -> Result<bool, AllocError> {
        let from = frame.from();
        let received = member.bring_frame(alloc, self.stamp, self.tagger, frame)?;
        let brought = received.with_want(self.tagger, member.keys(), from);
        if let Some(want) = brought.want {
            out.extend_from_slice(&want)?;
        }
        Ok(true)
    }

    fn end(
        &self,
        _member: &Member<I, B>,
        _fault: FrameFault,
        _out: &mut Vec<u8>,
    ) -> Result<(), AllocError> {
        Ok(())
    }
}

/// Feeds a member from the stream of `peer`. It writes the WANT for what is next from the peer.
/// Then it passes each frame that is read to the member, and writes the WANT of the answer, if any.
///
/// A fault in the frames ends the loop, and is returned. After another fault, a prefix of the text
/// has been written, and the member has received a prefix of the frames.
// promise: early ends (counts, none_failed, all_written); peer's stream (text, took)
pub fn serve<I, B, T, R, W>(
    alloc: Global,
    member: &mut Member<I, B>,
    stamp: u16,
    tagger: &T,
    peer: u16,
    reader: &mut R,
    writer: &mut W,
) -> Result<(), EngineFault>
where
    I: Instance + Drop,
    B: Settle + Drop,
    T: Tagger,
    R: Input,
    W: Output,
    requires { IsPeer member.old.keys peer }
    ensures text { Writes (serving stamp)
        (serve_start member.old peer (R.remaining reader.old) (W.contents writer.old))
        (record {
          state = member.new;
          left = R.remaining reader.new;
          after = W.contents writer.new;
        })
        result }
    ensures took { TakesFrames (serving stamp)
        (serve_start member.old peer (R.remaining reader.old) (W.contents writer.old))
        member.new }
    ensures counts { let counted =
        counts_of R.call_count R.failure_count R.remaining W.failure_count in
        KeepsCounts engine_of
        (counted reader.old writer.old) (counted reader.new writer.new) result }
    ensures none_failed { OnOk result (R.failure_count reader.new ≡ R.failure_count reader.old) }
    ensures all_written { OnOk result (W.failure_count writer.new ≡ W.failure_count writer.old) }
{
    // for the proof, a law: the call does nothing
    exact_text::<Member<I, B>>();
    let first = want(tagger, member.keys(), peer, member.next(peer));
    handle_stream(
        alloc,
        &FromPeer { stamp, tagger },
        member,
        &first,
        reader,
        writer,
    )
}
