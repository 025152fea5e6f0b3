//! The devices that the loops over streams read from and write to. They count their calls and
//! failures, so that contracts can cite these counts.

ghost use Rattle.std.specs.Prelude.{◌≡◌, ◌+◌, ◌<◌, ℕ, List, Option, length, IfOk, OnOk, OnErr};
ghost use Rattle.std.specs.Prelude.{IfErr};
ghost use Rattle.std.specs.Io.{ReadsAtMost, WritesAtMost};
ghost use Rattle.std.specs.Io.KnownBytes.{Appends, ReadConsumes, WriteAppends};
ghost use Rattle.pay_frame.specs.Device.{next_count, failures_after, RoseBy, WroteBeginning};
ghost use Rattle.pay_frame.specs.declared.device.StreamFault.TheVariants.{Memory};

use crate::limits::MOST_TRIES;
use std::alloc::{AllocError, AllocFailed};
use std::io::{ErrorKind, Read, Write};
use std::{fmt, io};
use thiserror::Error;

/// The fault of a read or a write that failed.
#[derive(Clone, Copy, Debug, PartialEq, Eq, Error)]
#[error("the device failed")]
pub struct DeviceFailed;

/// A source of bytes that counts its calls and how many of them failed.
pub trait Input {
    // The bytes that are still to be read, if they are known.
    ghost remaining: { Self → Option (List ℕ) };

    ghost call_count: { Self → ℕ };

    ghost failure_count: { Self → ℕ };

    /// Fills a prefix of `buffer` and returns its length. If the buffer has room, 0 means the
    /// input's end.
    // promise: failing devices (called, failed); known bytes (bound, bytes)
    fn read(&mut self, buffer: &mut [u8]) -> Result<usize, DeviceFailed>
        ensures bound { ReadsAtMost result buffer.new }
        ensures bytes { ReadConsumes (remaining self.old) (remaining self.new) result buffer.new }
        ensures called { call_count self.new ≡ next_count (call_count self.old) }
        ensures failed { failure_count self.new ≡ failures_after (failure_count self.old) result };

    /// Returns how often `read` was called. The count saturates.
    fn calls(&self) -> u64
        ensures value { result ≡ call_count self.now };

    /// Returns how many of these calls failed. The count saturates.
    fn failures(&self) -> u64
        ensures value { result ≡ failure_count self.now };
}

/// A sink of bytes that counts its calls and how many of them failed.
pub trait Output {
    // The bytes written so far, if they are known.
    ghost contents: { Self → Option (List ℕ) };

    ghost call_count: { Self → ℕ };

    ghost failure_count: { Self → ℕ };

    /// Writes a prefix of `bytes` and returns its length. Writing nothing of a non-empty slice is a
    /// failure.
    // promise: failing devices (some, called, failed); known bytes (bound, bytes)
    fn write(&mut self, bytes: &[u8]) -> Result<usize, DeviceFailed>
        ensures bound { WritesAtMost result bytes.now }
        ensures some { IfOk result (λ count. 0 < length bytes.now → 0 < count) }
        ensures bytes { WriteAppends (contents self.old) (contents self.new) result bytes.now }
        ensures called { call_count self.new ≡ next_count (call_count self.old) }
        ensures failed { failure_count self.new ≡ failures_after (failure_count self.old) result };

    /// Returns how often `write` was called. The count saturates.
    fn calls(&self) -> u64
        ensures value { result ≡ call_count self.now };

    /// Returns how many of these calls failed. The count saturates.
    fn failures(&self) -> u64
        ensures value { result ≡ failure_count self.now };
}

/// Writes all `bytes`. After a failure, a prefix of them has been written.
// promise: failing devices (ok, none_failed, beginning, failed)
pub fn write_all<W: Output>(writer: &mut W, bytes: &[u8]) -> Result<(), DeviceFailed>
    ensures ok { OnOk result (Appends (W.contents writer.old) (W.contents writer.new) bytes.now) }
    ensures none_failed { OnOk result (W.failure_count writer.new ≡ W.failure_count writer.old) }
    ensures beginning { OnErr result
        (WroteBeginning (W.contents writer.old) (W.contents writer.new) bytes.now) }
    ensures failed { OnErr result
        (W.failure_count writer.new ≡ next_count (W.failure_count writer.old)) }
{
    let mut written = 0;
    while written < bytes.len() {
        written += writer.write(&bytes[written..])?;
    }
    Ok(())
}

/// A `std` reader or writer that counts its calls and failures. It is an `Input` over a reader, and
/// an `Output` over a writer. It never flushes.
#[derive(Drop)]
pub struct Counted<D> {
    inner: D,
    calls: u64,
    failures: u64,
}

/// An `Input` over a `std` reader.
pub type Reader<R> = Counted<R>;

/// An `Output` over a `std` writer.
pub type Writer<W> = Counted<W>;

impl<D> Counted<D> {
    // promise: known bytes (inner)
    pub fn new(inner: D) -> Counted<D>
        ensures inner { result.inner ≡ inner }
        ensures calls { result.calls ≡ 0 }
        ensures failures { result.failures ≡ 0 }
    {
        Counted {
            inner,
            calls: 0,
            failures: 0,
        }
    }

    pub fn into_inner(self) -> D
        ensures inner { result ≡ self.inner }
    {
        let Counted { inner, .. } = self;
        inner
    }
}

impl<R: Read> Input for Counted<R> {
    ghost remaining = { λ s. R.remaining s.inner };

    ghost call_count = { λ s. s.calls };

    ghost failure_count = { λ s. s.failures };

    fn read(&mut self, buffer: &mut [u8]) -> Result<usize, DeviceFailed> {
        self.calls = self.calls.saturating_add(1);
        match read_retrying(&mut self.inner, buffer) {
            Ok(count) => Ok(count),
            Err(_) => {
                self.failures = self.failures.saturating_add(1);
                Err(DeviceFailed)
            }
        }
    }

    fn calls(&self) -> u64 {
        self.calls
    }

    fn failures(&self) -> u64 {
        self.failures
    }
}

impl<W: Write> Output for Counted<W> {
    ghost contents = { λ s. W.contents s.inner };

    ghost call_count = { λ s. s.calls };

    ghost failure_count = { λ s. s.failures };

    fn write(&mut self, bytes: &[u8]) -> Result<usize, DeviceFailed> {
        self.calls = self.calls.saturating_add(1);
        match self.inner.write(bytes) {
            Ok(count) if count > 0 || bytes.is_empty() => Ok(count),
            _ => {
                self.failures = self.failures.saturating_add(1);
                Err(DeviceFailed)
            }
        }
    }

    fn calls(&self) -> u64 {
        self.calls
    }

    fn failures(&self) -> u64 {
        self.failures
    }
}

/// Reads once, and retries up to `MOST_TRIES` times if the system interrupts the read.
fn read_retrying<R: Read>(reader: &mut R, buffer: &mut [u8]) -> io::Result<usize>
    ensures bound { ReadsAtMost result buffer.new }
    ensures bytes { ReadConsumes (R.remaining reader.old) (R.remaining reader.new)
        result buffer.new }
{
    for _ in 1..MOST_TRIES {
        match reader.read(buffer) {
            Ok(count) => return Ok(count),
            Err(fault) if fault.kind() == ErrorKind::Interrupted => {}
            Err(fault) => return Err(fault),
        }
    }
    reader.read(buffer)
}

// `run_desk` and `run_sim` return `StreamFault`, since they never meet a frame's fault.
/// The cause for which a loop over an `Input` and an `Output` ended early.
#[derive(Clone, Copy, Debug, PartialEq, Eq, Error)]
pub enum StreamFault {
    /// An allocation failed.
    Memory,
    /// A read failed.
    Read,
    /// A write failed.
    Write,
    /// The read limit was reached: `MOST_READS` reads did not reach the input's end.
    Bound,
}

impl StreamFault {
    ghost use Rattle.pay_frame.specs.StreamFault.{stream_number, stream_name};

    // promise: order of refusals (number, name)
    const fn entry(self) -> (u8, &'static str)
        ensures number { result.0 ≡ stream_number self }
        ensures name { result.1.now ≡ stream_name self }
    {
        match self {
            StreamFault::Memory => (0, "Memory"),
            StreamFault::Read => (2, "Read"),
            StreamFault::Write => (3, "Write"),
            StreamFault::Bound => (4, "Bound"),
        }
    }

    pub fn number(self) -> u8
        ensures value { result ≡ stream_number self }
    {
        self.entry().0
    }

    pub fn name(self) -> &'static str
        ensures value { result.now ≡ stream_name self }
    {
        self.entry().1
    }
}

impl fmt::Display for StreamFault {
    ghost use Rattle.std.specs.Prelude.{Some};
    ghost use Rattle.pay_frame.specs.StreamFault.{stream_words};

    ghost output = { λ fault. Some (stream_words fault) };

    fn fmt<W: fmt::Write>(&self, f: &mut fmt::Formatter<W>) -> fmt::Result {
        write!(f, "{} {}", self.number(), self.name())
    }
}

impl From<AllocError> for StreamFault {
    ghost from_gives = { λ _ e. e ≡ Memory };

    fn from(_error: AllocError) -> StreamFault {
        StreamFault::Memory
    }
}

impl<T: Drop> From<AllocFailed<T>> for StreamFault {
    ghost from_gives = { λ _ e. e ≡ Memory };

    fn from(_error: AllocFailed<T>) -> StreamFault {
        StreamFault::Memory
    }
}

/// Writes the whole `text`. After a failure, a prefix of it has been written.
// promise: failing devices (ok, none_failed, beginning, failed)
pub fn write_text<W: Output>(writer: &mut W, text: &[u8]) -> Result<(), StreamFault>
    ensures ok { OnOk result (Appends (W.contents writer.old) (W.contents writer.new) text.now) }
    ensures none_failed { OnOk result (W.failure_count writer.new ≡ W.failure_count writer.old) }
    ensures err { IfErr result (λ fault. fault ≡ StreamFault.Write) }
    ensures beginning { OnErr result
        (WroteBeginning (W.contents writer.old) (W.contents writer.new) text.now) }
    ensures failed { OnErr result
        (W.failure_count writer.new ≡ next_count (W.failure_count writer.old)) }
{
    if write_all(writer, text).is_err() {
        return Err(StreamFault::Write);
    }
    Ok(())
}
