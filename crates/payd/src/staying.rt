//! The lines of a node. The node may continue after their end, or end before it.

ghost use Rattle.std.specs.Prelude.{◌≡◌, ◌↔◌, ◌<◌, ◌*◌, ℕ, IfErr, IsSome, IsTrue, None, Ok, OnOk};
ghost use Rattle.payd.specs.declared.stop.Stop.TheVariants.{New, Stay};

use crate::stop::Stop;
use libc::STDIN_FILENO;
use libc::net::{POLLIN, poll};
use libc::types::pollfd;
use pay_cli::NodeWords;
use pay_frame::{DeviceFailed, Input};
use std::sync::Wait;
use std::sync::atomic::{AtomicBool, AtomicU64, Ordering};
use std::thread;
use std::time::{Clock, Duration};

/// The pause before a node tests again whether it has to end.
const PAUSE_MILLIS: u16 = 100;

/// Refuses `--stay` without a folder.
pub(crate) fn judge_stay<'a>(words: &NodeWords) -> Result<(), Stop<'a>>
    ensures may { OnOk result (IsTrue words.now.stays → IsSome words.now.folder) }
    ensures stop { IfErr result (λ stop. (stop ≡ Stay) × IsTrue words.now.stays
        × (words.now.folder ≡ None)) }
{
    if words.stays && words.folder.is_none() {
        return Err(Stop::Stay);
    }
    Ok(())
}

/// Refuses `--new` without a folder.
pub(crate) fn judge_new<'a>(words: &NodeWords) -> Result<(), Stop<'a>>
    ensures may { OnOk result (IsTrue words.now.makes_new → IsSome words.now.folder) }
    ensures stop { IfErr result (λ stop. (stop ≡ New) × IsTrue words.now.makes_new
        × (words.now.folder ≡ None)) }
{
    if words.makes_new && words.folder.is_none() {
        return Err(Stop::New);
    }
    Ok(())
}

/// The lines of standard input. The lines can't be read any more when the node has to end. This is
/// tested while no line comes. After the lines' end, or after a failed read, a read may wait until
/// the node has to end.
#[derive(Drop)]
pub(crate) struct Lines<'a, R, In> {
    rt: &'a R,
    inner: In,
    stays: bool,
    ends: Ends<'a>,
    // how often they were read up to now, for others
    reads: &'a AtomicU64,
    calls: u64,
    failures: u64,
}

/// The reasons for which a node has to end before its lines do.
#[derive(Clone, Copy)]
pub(crate) struct Ends<'a> {
    /// True if the node's log failed.
    pub(crate) has_failed: &'a AtomicBool,
    /// True if the node's member has lost state.
    pub(crate) forgets: &'a AtomicBool,
    /// True if the node is out of memory.
    pub(crate) starves: &'a AtomicBool,
}

impl Ends<'_> {
    // Returns whether the node has to end now.
    fn are_there(&self) -> bool {
        self.has_failed.load(Ordering::SeqCst)
            || self.forgets.load(Ordering::SeqCst)
            || self.starves.load(Ordering::SeqCst)
    }
}

impl<'a, R, In> Lines<'a, R, In> {
    /// Creates the lines before the first read.
    pub(crate) fn new(
        rt: &'a R,
        inner: In,
        stays: bool,
        ends: Ends<'a>,
        reads: &'a AtomicU64,
    ) -> Lines<'a, R, In>
        ensures inner { result.inner ≡ inner }
        ensures stays { result.stays ≡ stays }
        ensures calls { result.calls ≡ 0 }
        ensures failures { result.failures ≡ 0 }
    {
        Lines {
            rt,
            inner,
            stays,
            ends,
            reads,
            calls: 0,
            failures: 0,
        }
    }

    /// Returns the flag that says whether the log of the node failed.
    pub(crate) fn has_failed(&self) -> &'a AtomicBool {
        self.ends.has_failed
    }
}

impl<R: Wait + Clock, In: Input> Input for Lines<'_, R, In> {
    ghost remaining = { λ lines. In.remaining lines.inner };

    ghost call_count = { λ lines. lines.calls };

    ghost failure_count = { λ lines. lines.failures };

    fn read(&mut self, buffer: &mut [u8]) -> Result<usize, DeviceFailed> {
        self.calls = self.calls.saturating_add(1);
        self.reads.store(self.calls, Ordering::SeqCst);
        if !self.wait_for_lines() {
            self.failures = self.failures.saturating_add(1);
            return Err(DeviceFailed);
        }
        let read = self.inner.read(buffer);
        if self.stays && !has_more(&read) {
            self.wait_for_end();
        }
        if read.is_err() {
            self.failures = self.failures.saturating_add(1);
        }
        read
    }

    fn calls(&self) -> u64 {
        self.calls
    }

    fn failures(&self) -> u64 {
        self.failures
    }
}

impl<R: Wait + Clock, In> Lines<'_, R, In> {
    // Waits until there is something to read, and returns `false` if the node has to end.
    fn wait_for_lines(&self) -> bool {
        for _ in self.rt.forever() {
            if self.ends.are_there() {
                return false;
            }
            if may_be_read() {
                return true;
            }
        }
        true
    }

    // Sleeps until the node has to end, which may be never.
    fn wait_for_end(&self) {
        for _ in self.rt.forever() {
            if self.ends.are_there() {
                return;
            }
            thread::sleep(self.rt, Duration::from_millis(u64::from(PAUSE_MILLIS)));
        }
    }
}

// Returns whether a read of standard input wouldn't wait, or the system can't tell. It waits for
// that until the pause is over.
fn may_be_read() -> bool {
    let mut asked = [pollfd {
        fd: STDIN_FILENO,
        events: POLLIN,
        revents: 0,
    }];
    poll(&mut asked, i32::from(PAUSE_MILLIS)) != 0
}

// Returns whether there may be more after what was read.
fn has_more(read: &Result<usize, DeviceFailed>) -> bool
    ensures { IsTrue result ↔ ((count : ℕ) × (read.now ≡ Ok count) × (0 < count)) }
{
    match read {
        Ok(count) => *count > 0,
        Err(_) => false,
    }
}
