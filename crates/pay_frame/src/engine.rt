//! The loop that reads a stream of frames. It reads pieces, cuts them into frames, hands each frame
//! to a handler, and writes the texts that the handler makes.

ghost use Rattle.std.specs.Prelude.{◌≡◌, ◌+◌, ◌++◌, ℕ, List, OnOk, ◌≤◌, ◌<◌, ◌^◌, Option, []};
ghost use Rattle.std.specs.Prelude.{length, IfOk, ◌≢◌, Err, IfErr, IfSome, IsErrOf, IsTrue, OnErr};
ghost use Rattle.std.specs.Io.KnownBytes.{Consumes};
ghost use Rattle.pay_frame.specs.Counts.{KeepsCounts, counts_of};
ghost use Rattle.pay_frame.specs.Device.{WroteBeginning, next_count};
ghost use Rattle.pay_frame.specs.EngineFault.{engine_of};
ghost use Rattle.pay_frame.specs.Frame.{FrameFields};
ghost use Rattle.pay_frame.specs.Handling.{Handling, HandlesOne, HandlesHeld, HasHandled};
ghost use Rattle.pay_frame.specs.Handling.{InProgress, Start, WritesFront};
ghost use Rattle.pay_frame.specs.Lent.{fields_of};
ghost use Rattle.pay_frame.specs.Reading.{IsProperBeginning};
ghost use Rattle.pay_frame.specs.Stream.{IsStream};
ghost use Rattle.pay_frame.specs.declared.engine.EngineFault.TheVariants.{Memory};

use crate::device::{Input, Output, StreamFault, write_text};
use crate::frame_ref::FrameRef;
use crate::laws::{fault_is_for_good, frame_sizes, nothing_is_a_beginning, stream_grows};
use crate::limits::{MOST_READS, READ_ROOM};
use crate::reading::{FrameFault, read};
use crate::sliding_buffer::SlidingBuffer;
use std::alloc::{AllocError, AllocFailed, Global};
use std::fmt;
use thiserror::Error;

/// The cause for which a loop over an `Input` of frames and an `Output` ended early.
#[derive(Clone, Copy, Debug, PartialEq, Eq, Error)]
pub enum EngineFault {
    /// An allocation failed.
    Memory,
    /// The input is no stream of frames.
    Frame(FrameFault),
    /// A read failed.
    Read,
    /// A write failed.
    Write,
    /// The read limit was reached: `MOST_READS` reads did not reach the input's end.
    Bound,
}

impl EngineFault {
    ghost use Rattle.pay_frame.specs.EngineFault.{engine_number, engine_name};

    // promise: order of refusals (number, name)
    const fn entry(self) -> (u8, &'static str)
        ensures number { result.0 ≡ engine_number self }
        ensures name { result.1.now ≡ engine_name self }
    {
        match self {
            EngineFault::Memory => (0, "Memory"),
            EngineFault::Frame(_) => (1, "Frame"),
            EngineFault::Read => (2, "Read"),
            EngineFault::Write => (3, "Write"),
            EngineFault::Bound => (4, "Bound"),
        }
    }

    pub fn number(self) -> u8
        ensures value { result ≡ engine_number self }
    {
        self.entry().0
    }

    pub fn name(self) -> &'static str
        ensures value { result.now ≡ engine_name self }
    {
        self.entry().1
    }
}

impl fmt::Display for EngineFault {
    ghost use Rattle.std.specs.Prelude.{Some};
    ghost use Rattle.pay_frame.specs.EngineFault.{engine_words};

    ghost output = { λ fault. Some (engine_words fault) };

    fn fmt<W: fmt::Write>(&self, f: &mut fmt::Formatter<W>) -> fmt::Result {
        write!(f, "{} {}", self.number(), self.name())
    }
}

impl From<StreamFault> for EngineFault {
    ghost from_gives = { λ fault e. e ≡ engine_of fault };

    fn from(fault: StreamFault) -> EngineFault {
        match fault {
            StreamFault::Memory => EngineFault::Memory,
            StreamFault::Read => EngineFault::Read,
            StreamFault::Write => EngineFault::Write,
            StreamFault::Bound => EngineFault::Bound,
        }
    }
}

impl From<AllocError> for EngineFault {
    ghost from_gives = { λ _ e. e ≡ Memory };

    fn from(_error: AllocError) -> EngineFault {
        EngineFault::Memory
    }
}

impl<T: Drop> From<AllocFailed<T>> for EngineFault {
    ghost from_gives = { λ _ e. e ≡ Memory };

    fn from(_error: AllocFailed<T>) -> EngineFault {
        EngineFault::Memory
    }
}

/// A handler of the frames of a stream.
pub trait FrameHandler<S> {
    ghost handling: { Self → Handling S };

    // Says that the state has room for this many further frames.
    ghost has_room: { Self → S → ℕ → Type 0 };

    /// Returns whether `frame` may be handled while `waiting` bytes of texts wait to be written.
    fn goes_along(&self, _state: &S, _waiting: usize, _frame: &FrameRef<'_>) -> bool {
        true
    }

    /// Handles `frame`, and appends its text to `out`. Returns whether the stream continues. If
    /// memory runs out, the frame was handled or `state` is unchanged.
    fn handle(
        &self,
        alloc: Global,
        state: &mut S,
        frame: FrameRef<'_>,
        out: &mut Vec<u8>,
    ) -> Result<bool, AllocError>
        requires room { has_room self.now state.old 1 }
        ensures handles { HandlesOne (handling self.now) state.old state.new
            (fields_of frame.entry) out.old.items out.new.items result };

    /// Appends the text of the `fault` that ends a stream to `out`.
    fn end(&self, state: &S, fault: FrameFault, out: &mut Vec<u8>) -> Result<(), AllocError>
        ensures text { OnOk result (out.new.items
            ≡ out.old.items ++ (handling self.now).fault_text state.now fault) };

    // A frame uses up the room for one frame.
    ghost keeps_room: { (h : Self) (s t : S) (f : FrameFields) (text : List ℕ) (n : ℕ)
        → (handling h).step s t f text → has_room h s (n + 1) → has_room h t n };
}

/// Writes the text `first`, then reads frames, passes them to `handler` and writes their texts. It
/// ends at the input's end, or at a frame at which the handler leaves the stream.
///
/// A fault in the frames ends the loop: its text is written and the fault is returned. After a
/// failed read, and at the read limit, all frames that were read have been handled. After another
/// fault, a prefix of them has been handled, and a prefix of their texts is written.
// promise: early ends (counts, none_failed, all_written); handled once (handled)
pub fn handle_stream<S, H: FrameHandler<S>, In: Input, Out: Output>(
    alloc: Global,
    handler: &H,
    state: &mut S,
    first: &[u8],
    reader: &mut In,
    writer: &mut Out,
) -> Result<(), EngineFault>
    requires room { (n : ℕ) → n < 2 ^ 40 → H.has_room handler.now state.old n }
    ensures handled { HasHandled (H.handling handler.now)
        (record {
          first = first.now;
          state = state.old;
          input = In.remaining reader.old;
          before = Out.contents writer.old;
        })
        (record {
          state = state.new;
          left = In.remaining reader.new;
          after = Out.contents writer.new;
        })
        result }
    ensures counts { let counted =
        counts_of In.call_count In.failure_count In.remaining Out.failure_count in
        KeepsCounts engine_of
        (counted reader.old writer.old) (counted reader.new writer.new) result }
    ensures none_failed { OnOk result (In.failure_count reader.new ≡ In.failure_count reader.old) }
    ensures all_written { OnOk result
        (Out.failure_count writer.new ≡ Out.failure_count writer.old) }
{
    // calls of laws for the proof: they do nothing
    nothing_is_a_beginning();
    frame_sizes();
    stream_grows();
    let mut held = SlidingBuffer::new(alloc, READ_ROOM)?;
    let mut out = Vec::new(alloc);
    write_text(writer, first)?;
    for _ in 0..MOST_READS {
        let count = match held.fill(reader) {
            Ok(count) => count,
            Err(_) => return Err(EngineFault::Read),
        };
        if count == 0 {
            if held.bytes().is_empty() {
                return Ok(());
            }
            return Err(end_at(handler, state, &mut out, writer, FrameFault::Truncated));
        }
        if !handle_held(alloc, handler, state, &mut held, &mut out, writer)? {
            return Ok(());
        }
    }
    Err(EngineFault::Bound)
}

/// Handles the complete frames in `held`, up to one at which the stream is left, and returns the
/// fault after them. Returns whether the stream continues.
fn handle_held<S, H: FrameHandler<S>, Out: Output>(
    alloc: Global,
    handler: &H,
    state: &mut S,
    held: &mut SlidingBuffer,
    out: &mut Vec<u8>,
    writer: &mut Out,
) -> Result<bool, EngineFault>
    requires room { (n : ℕ) → n ≤ length held.old.bytes + 1
        → H.has_room handler.now state.old n }
    ensures handles { (start : Start S) (left : Option (List ℕ)) (reads : ℕ)
        → InProgress (H.handling handler.now) start
        (record { state = state.old; left = left; after = Out.contents writer.old })
        held.old.bytes [] reads
        → HandlesHeld (H.handling handler.now) start
        (record { state = state.new; left = left; after = Out.contents writer.new })
        held.new.bytes reads result }
    ensures begins { IfOk result (λ on. IsTrue on → IsProperBeginning held.new.bytes) }
    ensures same_room { held.new.room ≡ held.old.room }
    ensures bound { ¬ (IsErrOf result EngineFault.Bound) }
    ensures read { ¬ (IsErrOf result EngineFault.Read) }
    ensures write { IsErrOf result EngineFault.Write
        → Out.failure_count writer.new ≡ next_count (Out.failure_count writer.old) }
    ensures memory { IsErrOf result EngineFault.Memory
        → Out.failure_count writer.new ≡ Out.failure_count writer.old }
    ensures all_written { OnOk result
        (Out.failure_count writer.new ≡ Out.failure_count writer.old) }
{
    // calls of laws for the proof: they do nothing
    fault_is_for_good();
    frame_sizes();
    stream_grows();
    out.clear();
    'frames: loop {
        let (frame, size) = match read(held.bytes()) {
            Ok(Some(found)) => found,
            Ok(None) => {
                write_text(writer, out)?;
                return Ok(true);
            }
            Err(fault) => {
                write_text(writer, out)?;
                return Err(end_at(handler, state, out, writer, fault));
            }
        };
        write_before(handler, state, &frame, out, writer)?;
        if !handler.handle(alloc, state, frame, out)? {
            write_text(writer, out)?;
            return Ok(false);
        }
        held.consume(size);
    }
}

/// Writes the texts that wait, if there are any and `frame` may not be handled before that.
fn write_before<S, H: FrameHandler<S>, Out: Output>(
    handler: &H,
    state: &S,
    frame: &FrameRef<'_>,
    out: &mut Vec<u8>,
    writer: &mut Out,
) -> Result<(), EngineFault>
    ensures written { OnOk result (WritesFront (Out.contents writer.old) (Out.contents writer.new)
        out.old.items out.new.items) }
    ensures none_failed { OnOk result
        (Out.failure_count writer.new ≡ Out.failure_count writer.old) }
    ensures err { IfErr result (λ fault. fault ≡ EngineFault.Write) }
    ensures beginning { OnErr result
        (WroteBeginning (Out.contents writer.old) (Out.contents writer.new) out.old.items) }
    ensures failed { OnErr result
        (Out.failure_count writer.new ≡ next_count (Out.failure_count writer.old)) }
{
    if out.is_empty() || handler.goes_along(state, out.len(), frame) {
        return Ok(());
    }
    write_text(writer, out)?;
    out.clear();
    Ok(())
}

/// Writes the text of the `fault` that ends the stream. Returns `fault`, or why it could not be
/// written.
fn end_at<S, H: FrameHandler<S>, Out: Output>(
    handler: &H,
    state: &S,
    out: &mut Vec<u8>,
    writer: &mut Out,
    fault: FrameFault,
) -> EngineFault
    ensures handles { (start : Start S) (left rest : Option (List ℕ)) (held : List ℕ) (reads : ℕ)
        → (g : InProgress (H.handling handler.now) start
        (record { state = state.now; left = left; after = Out.contents writer.old })
        held [] reads)
        → Consumes left rest [] → IsStream g.read g.frames (Some fault)
        → IfSome start.input (λ bytes. IsStream bytes g.frames (Some fault))
        → HasHandled (H.handling handler.now) start
        (record { state = state.now; left = rest; after = Out.contents writer.new })
        (Err result) }
    ensures bound { result ≢ EngineFault.Bound }
    ensures read { result ≢ EngineFault.Read }
    ensures write { result ≡ EngineFault.Write
        → Out.failure_count writer.new ≡ next_count (Out.failure_count writer.old) }
    ensures memory { result ≡ EngineFault.Memory
        → Out.failure_count writer.new ≡ Out.failure_count writer.old }
{
    out.clear();
    let Ok(()) = handler.end(state, fault, out) else {
        return EngineFault::Memory;
    };
    match write_text(writer, out) {
        Ok(()) => EngineFault::Frame(fault),
        Err(_) => EngineFault::Write,
    }
}
