//! The times at which a node saw entries settle, in a file of its folder: its member's own memory.

ghost use Rattle.std.specs.Prelude.{◌≡◌, ◌++◌, IfOk, IsOk, OnOk, min};
ghost use Rattle.std.specs.List.{sum};
ghost use Rattle.pay_desk.specs.Words.{number_words};
ghost use Rattle.payd.specs.Times.{IsInSeconds, times_words};

use crate::advice::say_unwritten;
use jiff::Zoned;
use jiff::civil::{DateTime, Time};
use jiff::tz::TimeZone;
use pay_text::{push_number, push_word};
use std::alloc::{AllocError, Global};
use std::fs::File;
use std::io;
use std::io::Write;
use std::os::unix::fs::{FileExt, OpenOptionsExt};
use std::rt::Files;
use std::sync::atomic::{AtomicBool, AtomicU64, Ordering};
use std::time::Clock;

/// The name of the file in a node's folder.
const TIMES: &str = "times";

/// The mode of a file that its owner may write and the folder's group may read.
const FILE_MODE: u32 = 0o640;

const LINE_FEED: u8 = 10;

/// The file to which a node appends a line when entries have settled.
#[derive(Drop)]
pub(crate) struct TimesFile<'a, R> {
    rt: &'a R,
    alloc: Global,
    path: String,
    /// The count of entries of all accounts that had settled by the last line of this node.
    noted: AtomicU64,
    has_failed: AtomicBool,
}

impl<'a, R> TimesFile<'a, R> {
    /// Returns the file of times in `folder`. Nothing is appended yet.
    pub(crate) fn new(
        rt: &'a R,
        alloc: Global,
        folder: &str,
    ) -> Result<TimesFile<'a, R>, AllocError> {
        Ok(TimesFile {
            rt,
            alloc,
            path: format!(in alloc; "{folder}/{TIMES}")?,
            noted: AtomicU64::new(0),
            has_failed: AtomicBool::new(false),
        })
    }
}

impl<R: Files<File = File> + Eprint + Clock> TimesFile<'_, R> {
    /// Appends a line if entries have settled since the last one. If that fails, it is reported
    /// once and the node continues.
    pub(crate) fn watch(&self, fronts: &[u32]) {
        let settled = settled_in(fronts);
        if settled == self.noted.load(Ordering::SeqCst) {
            return;
        }
        match self.append(fronts) {
            Ok(()) => self.noted.store(settled, Ordering::SeqCst),
            Err(error) => {
                if !self.has_failed.swap(true, Ordering::SeqCst) {
                    say_unwritten(self.rt, self.path.as_str(), error.kind());
                }
            }
        }
    }
}

impl<R: Files<File = File> + Clock> TimesFile<'_, R> {
    // Appends a line. A line that was cut off gets its end first.
    fn append(&self, fronts: &[u32]) -> io::Result<()> {
        let Ok(moment) = moment_of(self.rt) else {
            return Err(io::Error::from(io::ErrorKind::Other));
        };
        let Ok(line) = times_line(self.alloc, moment, fronts) else {
            return Err(io::Error::from(io::ErrorKind::OutOfMemory));
        };
        let mut file = File::options()
            .read(true)
            .append(true)
            .create(true)
            .mode(FILE_MODE)
            .open(self.rt, self.path.as_str())?;
        if is_cut(&file)? {
            file.write_all(&[LINE_FEED])?;
        }
        file.write_all(line.as_slice())
    }
}

// Returns whether a file's last line has no end.
fn is_cut(file: &File) -> io::Result<bool> {
    let len = file.metadata()?.len();
    let mut last = [LINE_FEED];
    if len > 0 {
        file.read_exact_at(&mut last, len - 1)?;
    }
    Ok(last[0] != LINE_FEED)
}

// Returns how many entries of all accounts have settled.
fn settled_in(fronts: &[u32]) -> u64
    ensures { result ≡ min (sum fronts.now) 18446744073709551615 }
{
    let mut settled: u64 = 0;
    for front in fronts {
        settled = settled.saturating_add(u64::from(*front));
    }
    settled
}

/// Returns the moment of `clock` in UTC, in whole seconds.
fn moment_of(clock: &impl Clock) -> Result<DateTime, jiff::Error>
    ensures { IfOk result (λ moment. moment.time.subsec_nanosecond ≡ 0) }
{
    in_seconds(Zoned::now(clock, TimeZone::UTC)?.datetime())
}

// Returns a moment without its fraction of a second.
fn in_seconds(now: DateTime) -> Result<DateTime, jiff::Error>
    ensures some { IsOk result }
    ensures value { IfOk result (IsInSeconds now) }
{
    let time = Time::new(now.hour(), now.minute(), now.second(), 0)?;
    Ok(DateTime::from_parts(now.date(), time))
}

/// Returns the line of `moment` with these `fronts`.
#[tactic(auto, unfolding(pay_desk::specs::Words::end_of_line))]
fn times_line(alloc: Global, moment: DateTime, fronts: &[u32]) -> Result<Vec<u8>, AllocError>
    ensures { IfOk result (λ line. line.items ≡ times_words moment fronts.now) }
{
    let mut line = Vec::new(alloc);
    push_word(&mut line, moment.to_string(alloc)?.as_str())?;
    push_word(&mut line, "Z")?;
    push_fronts(&mut line, fronts)?;
    push_word(&mut line, "\n")?;
    Ok(line)
}

#[tactic(auto, unfolding(pay_desk::specs::Words::number_words))]
fn push_fronts(line: &mut Vec<u8>, fronts: &[u32]) -> Result<(), AllocError>
    ensures { OnOk result (line.new.items ≡ line.old.items ++ number_words fronts.now) }
{
    for front in fronts {
        push_word(line, " ")?;
        push_number(line, u64::from(*front))?;
    }
    Ok(())
}
