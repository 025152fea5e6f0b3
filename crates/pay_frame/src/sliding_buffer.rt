ghost use Rattle.std.specs.Prelude.{◌≡◌, ◌+◌, ◌-◌, ◌<◌, ◌≤◌, ◌++◌, drop, length, min, take};
ghost use Rattle.std.specs.Prelude.{vec_len, IfOk, OnErr};
ghost use Rattle.std.specs.Io.KnownBytes.{Keeps};
ghost use Rattle.pay_frame.specs.Device.{next_count, failures_after};
ghost use Rattle.pay_frame.specs.Sliding.{ReadsMore, nothing_in};

use crate::device::{DeviceFailed, Input};
use std::alloc::{AllocError, Global};
use std::marker::Model;

/// The bytes of a stream that were read and aren't consumed yet, in a buffer that `new` allocates
/// and that never grows.
///
/// The bytes lie one after the other. If the room after them is too short, they slide to the
/// buffer's front, over the consumed bytes. A read fills the free end, so nothing is copied between
/// a read and its frames.
#[derive(Debug, Drop)]
pub struct SlidingBuffer {
    buffer: Vec<u8>,
    /// The index of the first of the bytes that were consumed last.
    consumed: usize,
    /// The indices where the bytes held begin and end.
    start: usize,
    end: usize,
}

impl Model for SlidingBuffer {
    ghost use Rattle.pay_frame.specs.Sliding.{Sliding};

    ghost Value = { Sliding };

    ghost use Rattle.pay_frame.specs.SlidingFields.{sliding_of, IsInOrder};

    ghost view = { sliding_of };

    ghost invariant = { IsInOrder };
}

impl SlidingBuffer {
    /// Creates an empty buffer for `room` bytes. This is the only call that allocates.
    pub fn new(alloc: Global, room: usize) -> Result<SlidingBuffer, AllocError>
        ensures empty { IfOk result (λ buffer. buffer ≡ nothing_in room) }
    {
        let buffer = vec![in alloc; 0; room]?;
        Ok(SlidingBuffer {
            buffer,
            consumed: 0,
            start: 0,
            end: 0,
        })
    }

    /// Appends as much of `piece` as fits, and returns how many bytes were appended.
    pub fn append(&mut self, piece: &[u8]) -> usize
        ensures count { result ≡ min (length piece.now) (self.old.room - length self.old.bytes) }
        ensures appended { self.new.bytes ≡ self.old.bytes ++ take result piece.now }
        ensures room { self.new.room ≡ self.old.room }
    {
        let held = self.end - self.start;
        self.start = slide(&mut self.buffer, self.start, self.end, piece.len());
        self.consumed = self.start;
        self.end = self.start + held;
        let count = piece.len().min(self.buffer.len() - self.end);
        self.buffer[self.end..self.end + count].copy_from_slice(&piece[..count]);
        self.end += count;
        count
    }

    /// Reads once from `reader`, appends the bytes read, and returns their count. The count is 0
    /// only at the input's end.
    pub fn fill<In: Input>(&mut self, reader: &mut In) -> Result<usize, DeviceFailed>
        requires room { length self.old.bytes < self.old.room }
        ensures reads { IfOk result (ReadsMore self.old.bytes self.new.bytes
            (In.remaining reader.old) (In.remaining reader.new)) }
        ensures most { length self.new.bytes ≤ self.new.room }
        ensures kept { OnErr result (self.new.bytes ≡ self.old.bytes) }
        ensures none { OnErr result (Keeps (In.remaining reader.old) (In.remaining reader.new)) }
        ensures room { self.new.room ≡ self.old.room }
        ensures called { In.call_count reader.new ≡ next_count (In.call_count reader.old) }
        ensures failed { In.failure_count reader.new
            ≡ failures_after (In.failure_count reader.old) result }
    {
        let held = self.end - self.start;
        let room = self.buffer.len();
        self.start = slide(&mut self.buffer, self.start, self.end, room);
        self.consumed = self.start;
        self.end = self.start + held;
        let count = reader.read(&mut self.buffer[self.end..])?;
        self.end += count;
        Ok(count)
    }

    /// Returns the bytes that are held.
    pub fn bytes(&self) -> &[u8]
        ensures { result.now ≡ self.now.bytes }
    {
        &self.buffer[self.start..self.end]
    }

    /// Discards the first `size` bytes. `consumed_bytes` lends them until more are appended.
    pub fn consume(&mut self, size: usize)
        requires { size ≤ length self.old.bytes }
        ensures consumed { self.new.consumed ≡ take size self.old.bytes }
        ensures left { self.new.bytes ≡ drop size self.old.bytes }
        ensures room { self.new.room ≡ self.old.room }
    {
        self.consumed = self.start;
        self.start += size;
    }

    /// Returns the bytes that were consumed last.
    pub fn consumed_bytes(&self) -> &[u8]
        ensures { result.now ≡ self.now.consumed }
    {
        &self.buffer[self.consumed..self.start]
    }
}

/// Moves the bytes between `start` and `end` to the buffer's front if fewer than `size` bytes are
/// free after them. Returns where they begin.
///
/// If they moved at each read, a large frame would take 1.9 times the instructions when each read
/// gives 64 bytes.
fn slide(buffer: &mut Vec<u8>, start: usize, end: usize, size: usize) -> usize
    requires begins { start ≤ end }
    requires ends { end ≤ vec_len buffer.old }
    ensures kept { take (end - start) (drop result buffer.new.items)
        ≡ take (end - start) (drop start buffer.old.items) }
    ensures room { min size (vec_len buffer.old - (end - start))
        ≤ vec_len buffer.old - (result + (end - start)) }
    ensures within { result + (end - start) ≤ vec_len buffer.old }
    ensures len { vec_len buffer.new ≡ vec_len buffer.old }
{
    if size <= buffer.len() - end {
        return start;
    }
    buffer.copy_within(start..end, 0);
    0
}
