use crate::frame_ref::FrameRef;
use crate::limits::CUTTER_ROOM;
use crate::reading::{FrameFault, frame_of, frames_in_front, read};
use crate::sliding_buffer::SlidingBuffer;
use std::alloc::{AllocError, Global};
use std::marker::Model;

/// Splits a stream of bytes into frames, however the stream is cut into pieces.
///
/// It buffers at most `CUTTER_ROOM` bytes. `new` allocates the buffer, and no later call allocates.
#[derive(Debug, Drop)]
pub struct Cutter {
    stream: SlidingBuffer,
    met: Option<FrameFault>,
}

impl Model for Cutter {
    ghost use Rattle.pay_frame.specs.Cutting.{Held};

    ghost Value = { Held };

    ghost use Rattle.pay_frame.specs.CutterFields.{held_in, HasCutterRoom};

    ghost view = { held_in };

    ghost invariant = { HasCutterRoom };
}

impl Cutter {
    ghost use Rattle.std.specs.Prelude.{◌≡◌, ◌<◌, ◌≤◌, ◌++◌, [], ⊤, true, false, IfOk, IfErr, Err};
    ghost use Rattle.std.specs.Prelude.{length};
    ghost use Rattle.std.specs.Borrow.{sem};
    ghost use mathlib.Core.Option.{none};
    ghost use denote.Follow.{follows_so};
    ghost use Rattle.pay_frame.specs.contracts.cutter.Cutter.{the_row};
    ghost use Rattle.pay_frame.specs.Reading.{HasFrame};
    ghost use Rattle.pay_frame.specs.Cutting.{Held, Feeds, HandsOut, PassesFrames, EndsWith};
    ghost use Rattle.pay_frame.specs.Cutting.{IsDrained, nothing_held};
    ghost use Rattle.pay_frame.specs.Places.{IsWhole};
    ghost use Rattle.pay_frame.specs.Frame.{frame_bytes};
    ghost use Rattle.pay_frame.specs.Lent.{fields_of, given_of};
    ghost use Rattle.pay_frame.specs.Passing.{Passes};

    /// Creates an empty cutter. This is the only call that allocates.
    // promise: one stream
    pub fn new(alloc: Global) -> Result<Cutter, AllocError>
        ensures empty { IfOk result (λ cutter. cutter ≡ nothing_held) }
    {
        Ok(Cutter {
            stream: SlidingBuffer::new(alloc, CUTTER_ROOM)?,
            met: None,
        })
    }

    /// Buffers as much of `piece` as fits, and returns how many bytes were buffered. After `next`
    /// returned a fault it buffers nothing.
    // promise: memory; one stream
    pub fn feed(&mut self, piece: &[u8]) -> usize
        ensures feeds { Feeds self.old self.new piece.now result }
    {
        if self.met.is_some() {
            return 0;
        }
        self.stream.append(piece)
    }

    /// Removes and returns the next frame of the stream, if it is complete. After a fault, every
    /// later call of `next` and `end` returns the same fault.
    // promise: memory; one stream
    pub fn next(&mut self) -> Result<Option<FrameRef<'_>>, FrameFault>
        ensures* hands_out { sem 𝓛 (follows_so the_row the_row
            self.entry.ghost_name none (λ _ _. ⊤)
            (λ after. HandsOut self.old (given_of result) after)) }
    {
        match self.pass() {
            Ok(true) => Ok(Some(self.handed_out())),
            Ok(false) => Ok(None),
            Err(fault) => Err(fault),
        }
    }

    /// Removes up to `most` complete frames from the front, and returns their count. It does what
    /// that many calls of `next` would do. `given_bytes` lends their bytes.
    // promise: memory; one stream
    pub fn pass_frames(&mut self, most: usize) -> Result<usize, FrameFault>
        requires most { 0 < most }
        ensures passes { IfOk result (PassesFrames self.old self.new most) }
        ensures fault { IfErr result (λ fault. HandsOut self.old (Err fault) self.new) }
    {
        if let Some(fault) = self.met {
            return Err(fault);
        }
        match frames_in_front(self.stream.bytes(), most) {
            Ok((size, count)) => {
                self.stream.consume(size);
                Ok(count)
            }
            Err(fault) => {
                self.met = Some(fault);
                Err(fault)
            }
        }
    }

    /// Returns the bytes of the frames that were removed last.
    // promise: one stream
    pub fn given_bytes(&self) -> &[u8]
        ensures { result.now ≡ self.now.given }
    {
        self.stream.consumed_bytes()
    }

    /// Returns `Ok` if the stream may end here. If bytes are still buffered it returns their fault,
    /// or `Truncated`. No complete frame may be in front.
    // promise: memory; one stream
    pub fn end(&self) -> Result<(), FrameFault>
        requires drained { IsDrained self.now.bytes }
        ensures ends { EndsWith self.now result }
    {
        if let Some(fault) = self.met {
            return Err(fault);
        }
        read(self.stream.bytes())?;
        if self.stream.bytes().is_empty() {
            Ok(())
        } else {
            Err(FrameFault::Truncated)
        }
    }

    /// Moves past the frame in front, if it is complete.
    fn pass(&mut self) -> Result<bool, FrameFault>
        ensures passed { IfOk result (Passes self.old self.new) }
        ensures fault { IfErr result (λ fault. HandsOut self.old (Err fault) self.new) }
    {
        Ok(self.pass_frames(1)? > 0)
    }

    /// Returns the frame that `pass` moved past.
    fn handed_out(&self) -> FrameRef<'_>
        requires { IsWhole self.now.given }
        ensures { frame_bytes (fields_of result) ≡ self.now.given }
    {
        frame_of(self.given_bytes())
    }
}
