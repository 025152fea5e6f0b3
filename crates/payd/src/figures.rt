//! A node's metrics in a file of its folder, for monitoring systems.

ghost use Rattle.std.specs.Prelude.{◌≡◌, ◌↔◌, ℕ, Some};
ghost use Rattle.std.specs.Duration.{as_nanos};
ghost use Rattle.payd.specs.Process.{SaysKibibytes, look_nanos};
ghost use Rattle.payd.specs.Values.{percent_used};

use crate::advice::say_unwritten;
use crate::metrics::{OwnFigures, metrics_text};
use jiff::Timestamp;
use pay_cli::VERSION;
use pay_frame::{MOST_READS, SEQS};
use pay_net::NodeFigures;
use pay_text::number;
use std::alloc::{AllocError, Global};
use std::fs::File;
use std::io::{Read, Write};
use std::os::unix::fs::OpenOptionsExt;
use std::rt::Files;
use std::sync::atomic::{AtomicBool, AtomicU64, Ordering};
use std::time::{Clock, Duration};
use std::{fs, io, str};

/// The seconds between two looks at a node, and the count of looks between two writes of its
/// metrics.
const EVERY_SECONDS: u64 = 1;

const EVERY_LOOKS: u64 = 5;

/// The mode of a file that its owner may write and the folder's group may read.
const FILE_MODE: u32 = 0o640;

/// The name of the file in a node's folder, and its name while it is written. A collector reads
/// files that end in `.prom`.
const STATUS: &str = "status.prom";

const NEW_STATUS: &str = "status.prom.new";

const LOG: &str = "log";

/// The system's file with this process's use of memory, and the most bytes that are read of it.
const PROCESS: &str = "/proc/self/status";

const MOST_PROCESS: u64 = 1 << 16;

/// The file of a node's metrics, which is written as a whole and then gets its name.
#[derive(Drop)]
pub(crate) struct FiguresFile<'a, R> {
    rt: &'a R,
    alloc: Global,
    path: String,
    new_path: String,
    log: String,
    started_seconds: Option<u64>,
    /// The count of reads of the desk's input.
    reads: &'a AtomicU64,
    /// The count of looks at the node.
    looks: AtomicU64,
    has_failed: AtomicBool,
}

impl<'a, R: Files + Clock> FiguresFile<'a, R> {
    /// Returns the file of metrics in `folder`, which isn't written yet. `reads` counts the reads
    /// of the desk's input.
    pub(crate) fn new(
        rt: &'a R,
        alloc: Global,
        folder: &str,
        reads: &'a AtomicU64,
    ) -> Result<FiguresFile<'a, R>, AllocError> {
        Ok(FiguresFile {
            rt,
            alloc,
            path: format!(in alloc; "{folder}/{STATUS}")?,
            new_path: format!(in alloc; "{folder}/{NEW_STATUS}")?,
            log: format!(in alloc; "{folder}/{LOG}")?,
            started_seconds: seconds_now(rt),
            reads,
            looks: AtomicU64::new(0),
            has_failed: AtomicBool::new(false),
        })
    }
}

impl<R: Files> FiguresFile<'_, R> {
    /// Returns the interval between two looks at a node.
    pub(crate) fn every() -> Duration
        ensures { as_nanos result ≡ look_nanos }
    {
        Duration::from_secs(EVERY_SECONDS)
    }

    /// Removes the file, so that nobody takes it for that of a running node.
    pub(crate) fn remove(&self) {
        let _ = fs::remove_file(self.rt, self.new_path.as_str());
        let _ = fs::remove_file(self.rt, self.path.as_str());
    }

    // Returns what the system and the desk's input provide.
    fn own(&self) -> OwnFigures {
        let reads = self.reads.load(Ordering::SeqCst);
        OwnFigures {
            version: VERSION,
            started_seconds: self.started_seconds,
            log_bytes: log_bytes(self.rt, self.log.as_str()),
            resident_bytes: resident_bytes(self.alloc, self.rt),
            reads_left: u64::from(MOST_READS).saturating_sub(reads),
        }
    }
}

impl<R: Files<File = File> + Eprint> FiguresFile<'_, R> {
    /// Writes the file again, at the first look and then at each fifth. If it can't be written,
    /// this is reported once and the node continues.
    pub(crate) fn watch(&self, figures: &NodeFigures) {
        if self.looks.fetch_add(1, Ordering::SeqCst) % EVERY_LOOKS != 0 {
            return;
        }
        let Err((path, kind)) = self.write(figures) else {
            return;
        };
        if !self.has_failed.swap(true, Ordering::SeqCst) {
            say_unwritten(self.rt, path, kind);
        }
    }
}

impl<R: Files<File = File>> FiguresFile<'_, R> {
    // Writes the file. Returns which of the two names failed, and how.
    fn write(&self, figures: &NodeFigures) -> Result<(), (&str, io::ErrorKind)> {
        let path = self.path.as_str();
        let Ok(text) = metrics_text(self.alloc, figures, &self.own()) else {
            return Err((path, io::ErrorKind::OutOfMemory));
        };
        if let Err(error) = self.write_new(text.as_slice()) {
            return Err((self.new_path.as_str(), error.kind()));
        }
        match fs::rename(self.rt, self.new_path.as_str(), path) {
            Ok(()) => Ok(()),
            Err(error) => Err((path, error.kind())),
        }
    }

    fn write_new(&self, text: &[u8]) -> io::Result<()> {
        let mut file = File::options()
            .write(true)
            .create(true)
            .truncate(true)
            .mode(FILE_MODE)
            .open(self.rt, self.new_path.as_str())?;
        file.write_all(text)
    }
}

// Returns the seconds since 1970, if the clock gives them.
fn seconds_now(clock: &impl Clock) -> Option<u64> {
    u64::try_from(Timestamp::now(clock).ok()?.as_second()).ok()
}

fn log_bytes(rt: &impl Files, name: &str) -> Option<u64> {
    Some(fs::metadata(rt, name).ok()?.len())
}

// Returns how much memory the process has, if the system gives it.
fn resident_bytes(alloc: Global, rt: &impl Files) -> Option<u64> {
    let source = fs::open(rt, PROCESS).ok()?;
    let mut bytes = Vec::new(alloc);
    source.take(MOST_PROCESS).read_to_end(&mut bytes).ok()?;
    let text = str::from_utf8(bytes.as_slice()).ok()?;
    let kibibytes = text.lines().find_map(|line| kibibytes_in(line))?;
    Some(kibibytes.saturating_mul(1024))
}

// Returns the count of kibibytes in a line such as `VmRSS:    1234 kB`.
fn kibibytes_in(line: &str) -> Option<u64>
    ensures { (count : ℕ) → (result ≡ Some count) ↔ SaysKibibytes line.now count }
{
    let count = line.strip_prefix("VmRSS:")?.strip_suffix(" kB")?;
    number(count.trim().as_bytes())
}

/// A watch that reports on standard error when 90 and 99 percent of an account's values are used.
#[derive(Drop)]
pub(crate) struct ValuesWatch<'a, R> {
    rt: &'a R,
    /// The percentage that was reported.
    told: AtomicU64,
}

impl<'a, R> ValuesWatch<'a, R> {
    /// Creates a watch before the first report.
    pub(crate) fn new(rt: &'a R) -> ValuesWatch<'a, R> {
        ValuesWatch {
            rt,
            told: AtomicU64::new(0),
        }
    }
}

impl<R: Eprint> ValuesWatch<'_, R> {
    /// Notes that `used` values are used.
    pub(crate) fn watch(&self, used: u32) {
        let percent = percent_used(used);
        if percent > self.told.load(Ordering::SeqCst) {
            self.told.store(percent, Ordering::SeqCst);
            let _ = eprintln!(self.rt;
                "payd: {used} of {SEQS} values of this account are used: plan the next group"
            );
        }
    }
}

fn percent_used(used: u32) -> u64
    ensures { result ≡ percent_used used }
{
    let part = 100 * u64::from(used);
    if part >= 99 * u64::from(SEQS) {
        99
    } else if part >= 90 * u64::from(SEQS) {
        90
    } else {
        0
    }
}
