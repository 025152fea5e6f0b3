//! The folder of a member's log, and the log's file on a disk. While a node runs, a lock on the log
//! keeps every other node out.
//!
//! A log that was found is written again before anything is appended to it, since a read after a
//! failed write may show bytes that never reached the disk. The new file gets the log's name once
//! all of it is on the disk.

ghost use Rattle.std.specs.Prelude.{[], ◌≡◌, ◌≢◌, ◌<◌, ◌^◌, ℕ, IfOk};
ghost use Rattle.pay_log.specs.Ended.{ended_text};
ghost use Rattle.pay_log.specs.Faults.{is_missing};

use crate::chunk::HEADER_LEN;
use crate::device::{Device, DeviceFault};
use crate::fault::LogFault;
use crate::obstacle::{LogPart, Obstacle};
use std::alloc::{AllocError, Global};
use std::fs::{DirBuilder, File, OpenOptions, TryLockError};
use std::io::{ErrorKind, Read, Seek, SeekFrom, Write};
use std::os::unix::fs::{DirBuilderExt, FileExt, MetadataExt, OpenOptionsExt};
use std::rt::Files;
use std::{fs, io};

// The lock is `flock` on the log itself. It ends with its process. Neither a second name of the log
// nor the removal of a file beside it lets in two nodes. A new log is locked and synced before it
// gets its name. The folder and its parent are synced before anything is appended.
/// An open file, and the count of its bytes that belong to the log. No clause can say what a file
/// contains.
#[derive(Drop)]
pub struct LogFile {
    file: File,
    len: u64,
}

impl LogFile {
    pub(crate) fn new(file: File, len: u64) -> LogFile {
        LogFile { file, len }
    }
}

impl Device for LogFile {
    ghost is_known = { λ f. ⊥ };

    ghost seen = { λ f. [] };

    ghost may_leave = { λ f c. ⊥ };

    ghost moment = { λ f. 0 };

    ghost left_since = { λ f t c. ⊥ };

    ghost counts_now = { λ f t c le now. now };

    ghost only_now = { λ f c left. left };

    fn read(&mut self, alloc: Global, from: usize, most: usize) -> Result<Vec<u8>, DeviceFault> {
        if let Err(error) = self.file.seek(SeekFrom::Start(from as u64)) {
            return Err(DeviceFault::Disk(error.kind()));
        }
        let left = self.len.saturating_sub(from as u64);
        let mut bytes = Vec::new(alloc);
        match (&self.file)
            .take(left.min(most as u64))
            .read_to_end(&mut bytes)
        {
            Ok(_) => Ok(bytes),
            Err(error) => Err(match error.kind() {
                ErrorKind::OutOfMemory => DeviceFault::Memory,
                kind => DeviceFault::Disk(kind),
            }),
        }
    }

    fn append(&mut self, bytes: &[u8]) -> Result<(), ErrorKind> {
        self.file
            .write_all_at(bytes, self.len)
            .map_err(|error| error.kind())?;
        self.len = self.len.saturating_add(bytes.len() as u64);
        Ok(())
    }

    fn sync(&mut self) -> Result<(), ErrorKind> {
        self.file.sync_data().map_err(|error| error.kind())
    }
}

/// The mode of a folder that only its owner may use.
const FOLDER_MODE: u32 = 0o700;

const FILE_MODE: u32 = 0o600;

const LOG: &str = "log";

/// The name of a log that isn't complete yet.
const NEW_LOG: &str = "log.new";

/// The name of the file of bytes found after the last record blocks of logs.
const DROPPED: &str = "log.dropped";

/// The name of the file with the log's size when its node ended cleanly. While a node runs the file
/// isn't there.
const ENDED: &str = "ended";

const NEW_ENDED: &str = "ended.new";

/// The greatest size of that file in bytes: a number and a line feed.
const MOST_ENDED: usize = 21;

/// The lock of a log. No other process has the log until the lock is dropped or its process ends,
/// in whatever way.
#[derive(Drop)]
pub struct LogLock {
    log: File,
    _found: Option<File>,
}

/// An empty file for a new log, which gets its name by [`name_log`].
#[derive(Drop)]
pub struct MadeLog {
    pub file: LogFile,
    pub lock: LogLock,
}

/// A log that was found, an empty file for writing the log again, and what is still to be done with
/// both.
#[derive(Drop)]
pub struct FoundLog {
    pub old: LogFile,
    pub new: LogFile,
    pub rest: FoundRest,
}

/// What is still to be done with a log that was found.
#[derive(Drop)]
pub struct FoundRest {
    lock: LogLock,
    ended: Option<u64>,
}

/// A log that is only looked at, even while a node has it.
#[derive(Drop)]
pub struct LogView {
    pub file: LogFile,
    pub is_held: bool,
    len: u64,
    ended: Option<u64>,
}

/// Creates an empty file for a log in the folder `path`, and the folder if there is none. Refuses a
/// folder that has or had a log.
pub fn make_log<R: Files<File = File>>(
    rt: &R,
    alloc: Global,
    path: &str,
) -> Result<MadeLog, LogFault> {
    make_folder(rt, path)?;
    refuse_obstacles(rt, alloc, path)?;
    let new = open_new(rt, alloc, path)?;
    refuse_log(rt, alloc, path)?;
    let file = LogFile::new(again(&new)?, 0);
    let lock = LogLock {
        log: new,
        _found: None,
    };
    Ok(MadeLog { file, lock })
}

/// Opens the log in the folder `path`, and an empty file beside it.
pub fn open_log<R: Files<File = File>>(
    rt: &R,
    alloc: Global,
    path: &str,
) -> Result<FoundLog, LogFault> {
    refuse_obstacles(rt, alloc, path)?;
    let log = open_file(rt, alloc, path, LOG, true)?;
    lock_file(&log)?;
    refuse_other(rt, alloc, path, &log)?;
    let ended = read_ended(rt, alloc, path)?;
    let new = open_new(rt, alloc, path)?;
    let files = (
        LogFile::new(again(&log)?, len_of(&log)?),
        LogFile::new(again(&new)?, 0),
    );
    let lock = LogLock {
        log: new,
        _found: Some(log),
    };
    Ok(FoundLog {
        old: files.0,
        new: files.1,
        rest: FoundRest { lock, ended },
    })
}

impl LogLock {
    /// Returns whether the log's name in the folder `path` still belongs to this log. If the system
    /// can't look there for another reason than a missing name, it returns `true`.
    pub fn has_name(&self, rt: &impl Files, alloc: Global, path: &str) -> Result<bool, AllocError> {
        let name = format!(in alloc; "{path}/{LOG}")?;
        match fs::symlink_metadata(rt, name.as_str()) {
            Ok(named) => Ok(is_same(&self.log, named.dev(), named.ino())),
            Err(error) => Ok(!is_missing(error.kind())),
        }
    }
}

impl FoundRest {
    /// Removes the new file, so that the folder `path` is as it was found.
    pub fn forget<R: Files<File = File>>(
        self,
        rt: &R,
        alloc: Global,
        path: &str,
    ) -> Result<(), LogFault> {
        remove(rt, alloc, path, NEW_LOG)
    }

    /// Gives the new file the log's name, and keeps the bytes after the first `len` bytes of record
    /// blocks in the old file. A log that ended cleanly elsewhere stays unchanged.
    pub fn settle<R: Files<File = File>>(
        self,
        rt: &R,
        alloc: Global,
        path: &str,
        old: LogFile,
        len: usize,
    ) -> Result<(LogLock, u64), LogFault> {
        let FoundRest { lock, ended } = self;
        let end = end_of(len);
        if ended.is_some_and(|ended| ended != end) {
            remove(rt, alloc, path, NEW_LOG)?;
            return Err(LogFault::Changed);
        }
        let dropped = keep_dropped(rt, alloc, path, old, end)?;
        if ended.is_some() {
            remove(rt, alloc, path, ENDED)?;
        }
        name_log(rt, alloc, path)?;
        Ok((lock, dropped))
    }
}

/// Gives the new file in the folder `path` the log's name, and syncs this name and the folder's
/// name.
pub fn name_log<R: Files<File = File>>(rt: &R, alloc: Global, path: &str) -> Result<(), LogFault> {
    rename(rt, alloc, path, NEW_LOG, LOG)?;
    sync_folder(rt, path)?;
    sync_folder(rt, parent(path))
}

impl LogView {
    /// Returns how many bytes the log has after its first `len` bytes of record blocks. Refuses a
    /// log that ended cleanly elsewhere.
    pub fn bytes_after(&self, len: usize) -> Result<u64, LogFault> {
        let end = end_of(len);
        if self.ended.is_some_and(|ended| ended != end) {
            return Err(LogFault::Changed);
        }
        Ok(self.len.saturating_sub(end))
    }
}

/// Returns the log in the folder `path`, for reading only, with the bytes that it has at this
/// moment. These bytes and the log's name are on the disk then, so they outlive a crash.
pub fn view_log<R: Files<File = File>>(
    rt: &R,
    alloc: Global,
    path: &str,
) -> Result<LogView, LogFault> {
    refuse_obstacles(rt, alloc, path)?;
    let log = open_file(rt, alloc, path, LOG, false)?;
    let is_held = is_held(rt, alloc, path)?;
    let ended = read_ended(rt, alloc, path)?;
    let len = len_of(&log)?;
    log.sync_all().map_err(fault_of)?;
    sync_folder(rt, path)?;
    Ok(LogView {
        file: LogFile::new(log, len),
        is_held,
        len,
        ended,
    })
}

/// Notes in the folder `path` that a node ended cleanly. All of its log is on the disk.
pub fn end_log<R: Files<File = File>>(rt: &R, alloc: Global, path: &str) -> Result<(), LogFault> {
    let log = open_file(rt, alloc, path, LOG, false)?;
    let len = len_of(&log)?;
    write_ended(rt, alloc, path, len)?;
    rename(rt, alloc, path, NEW_ENDED, ENDED)?;
    sync_folder(rt, path)
}

// Creates the folder `path` if there is none.
fn make_folder<R: Files>(rt: &R, path: &str) -> Result<(), LogFault> {
    match DirBuilder::new().mode(FOLDER_MODE).create(rt, path) {
        Ok(()) => Ok(()),
        Err(error) if error.kind() == ErrorKind::AlreadyExists => Ok(()),
        Err(error) => Err(fault_of(error)),
    }
}

// Refuses a folder that has or had a log, and removes the new log there.
fn refuse_log(rt: &impl Files, alloc: Global, path: &str) -> Result<(), LogFault> {
    if has_file(rt, alloc, path, LOG)? || has_file(rt, alloc, path, ENDED)? {
        remove(rt, alloc, path, NEW_LOG)?;
        return Err(LogFault::Exists);
    }
    Ok(())
}

fn has_file(rt: &impl Files, alloc: Global, path: &str, file: &str) -> Result<bool, LogFault> {
    let name = format!(in alloc; "{path}/{file}")?;
    fs::exists(rt, name.as_str()).map_err(fault_of)
}

fn remove(rt: &impl Files, alloc: Global, path: &str, file: &str) -> Result<(), LogFault> {
    let name = format!(in alloc; "{path}/{file}")?;
    fs::remove_file(rt, name.as_str()).map_err(fault_of)
}

fn rename(
    rt: &impl Files,
    alloc: Global,
    path: &str,
    from: &str,
    to: &str,
) -> Result<(), LogFault> {
    let from = format!(in alloc; "{path}/{from}")?;
    let to = format!(in alloc; "{path}/{to}")?;
    fs::rename(rt, from.as_str(), to.as_str()).map_err(fault_of)
}

// Opens an empty file for a log that isn't complete yet, and locks it.
fn open_new<R: Files<File = File>>(rt: &R, alloc: Global, path: &str) -> Result<File, LogFault> {
    let name = format!(in alloc; "{path}/{NEW_LOG}")?;
    let file = File::options()
        .read(true)
        .write(true)
        .create(true)
        .mode(FILE_MODE)
        .open(rt, name.as_str())
        .map_err(fault_of)?;
    lock_file(&file)?;
    file.set_len(0).map_err(fault_of)?;
    Ok(file)
}

// Returns the length of a file that has `len` bytes of record blocks.
fn end_of(len: usize) -> u64 {
    (len as u64).saturating_add(HEADER_LEN as u64)
}

fn open_file<R: Files<File = File>>(
    rt: &R,
    alloc: Global,
    path: &str,
    file: &str,
    writes: bool,
) -> Result<File, LogFault> {
    let name = format!(in alloc; "{path}/{file}")?;
    match File::options()
        .read(true)
        .write(writes)
        .open(rt, name.as_str())
    {
        Ok(file) => Ok(file),
        Err(error) if is_missing(error.kind()) => Err(LogFault::Missing),
        Err(error) => Err(fault_of(error)),
    }
}

fn is_missing(kind: ErrorKind) -> bool
    ensures { result ≡ is_missing kind }
{
    match kind {
        ErrorKind::NotFound | ErrorKind::NotADirectory => true,
        _ => false,
    }
}

// Refuses a folder that has something else under the name of one of the log's files.
fn refuse_obstacles(rt: &impl Files, alloc: Global, path: &str) -> Result<(), LogFault> {
    for part in [
        LogPart::Log,
        LogPart::NewLog,
        LogPart::Dropped,
        LogPart::Ended,
        LogPart::NewEnded,
    ] {
        if let Some(obstacle) = obstacle_at(rt, alloc, path, part)? {
            return Err(LogFault::Blocked(part, obstacle));
        }
    }
    Ok(())
}

// Returns what stands at the name of one of the log's files, if it is no file.
fn obstacle_at(
    rt: &impl Files,
    alloc: Global,
    path: &str,
    part: LogPart,
) -> Result<Option<Obstacle>, LogFault> {
    let name = format!(in alloc; "{path}/{part}")?;
    match fs::symlink_metadata(rt, name.as_str()) {
        Ok(found) => Ok(Obstacle::of(found.file_type())),
        Err(error) if is_missing(error.kind()) => Ok(None),
        Err(error) => Err(fault_of(error)),
    }
}

// Returns another handle to the open file, which shares its lock.
fn again(file: &File) -> Result<File, LogFault> {
    file.try_clone().map_err(fault_of)
}

fn len_of(file: &File) -> Result<u64, LogFault> {
    Ok(file.metadata().map_err(fault_of)?.len())
}

// Locks `file`, unless another process has the lock.
fn lock_file(file: &File) -> Result<(), LogFault> {
    match file.try_lock() {
        Ok(()) => Ok(()),
        Err(TryLockError::WouldBlock) => Err(LogFault::Held),
        Err(TryLockError::Error(error)) => Err(fault_of(error)),
    }
}

// Returns whether another process has the log's lock.
fn is_held<R: Files<File = File>>(rt: &R, alloc: Global, path: &str) -> Result<bool, LogFault> {
    let log = open_file(rt, alloc, path, LOG, false)?;
    match lock_file(&log) {
        Ok(()) => Ok(false),
        Err(LogFault::Held) => Ok(true),
        Err(fault) => Err(fault),
    }
}

// Refuses a log that no longer has its name: another process put a new log there before this one
// had its lock.
fn refuse_other(rt: &impl Files, alloc: Global, path: &str, log: &File) -> Result<(), LogFault> {
    let name = format!(in alloc; "{path}/{LOG}")?;
    let named = fs::symlink_metadata(rt, name.as_str()).map_err(fault_of)?;
    if is_same(log, named.dev(), named.ino()) {
        Ok(())
    } else {
        Err(LogFault::Held)
    }
}

// Returns whether `file` has these numbers of device and inode.
fn is_same(file: &File, dev: u64, ino: u64) -> bool {
    match file.metadata() {
        Ok(open) => open.dev() == dev && open.ino() == ino,
        Err(_) => false,
    }
}

// Returns the size that the log had when its node ended cleanly, if it did.
fn read_ended<R: Files<File = File>>(
    rt: &R,
    alloc: Global,
    path: &str,
) -> Result<Option<u64>, LogFault> {
    match open_file(rt, alloc, path, ENDED, false) {
        Ok(file) => {
            let bytes = LogFile::new(file, MOST_ENDED as u64).read(alloc, 0, MOST_ENDED)?;
            Ok(Some(length_in(alloc, &bytes)?))
        }
        Err(LogFault::Missing) => Ok(None),
        Err(fault) => Err(fault),
    }
}

// Returns the length that the text of a clean end contains.
fn length_in(alloc: Global, bytes: &[u8]) -> Result<u64, LogFault>
    ensures exact { IfOk result (λ len. bytes.now ≡ ended_text len) }
    ensures changed { result ≡ Err LogFault.Changed → (len : ℕ) → len < 2 ^ 64
        → bytes.now ≢ ended_text len }
{
    let Ok(text) = str::from_utf8(bytes) else {
        return Err(LogFault::Changed);
    };
    let Some(number) = text.strip_suffix('\n') else {
        return Err(LogFault::Changed);
    };
    let Ok(len) = number.parse() else {
        return Err(LogFault::Changed);
    };
    // this text also rejects a plus sign and leading zeros
    let exact = ended_text(alloc, len)?;
    if exact.as_bytes() == bytes {
        Ok(len)
    } else {
        Err(LogFault::Changed)
    }
}

// Returns the text of a clean end.
fn ended_text(alloc: Global, len: u64) -> Result<String, AllocError>
    ensures { IfOk result (λ text. text.bytes.items ≡ ended_text len) }
{
    format!(in alloc; "{len}\n")
}

fn write_ended<R: Files<File = File>>(
    rt: &R,
    alloc: Global,
    path: &str,
    len: u64,
) -> Result<(), LogFault> {
    let name = format!(in alloc; "{path}/{NEW_ENDED}")?;
    let text = ended_text(alloc, len)?;
    let mut options = File::options();
    options.write(true).truncate(true);
    write_file(rt, &mut options, name.as_str(), text.as_bytes()).map_err(fault_of)
}

// Appends the bytes after the log's end to `log.dropped`, and returns their count.
fn keep_dropped<R: Files<File = File>>(
    rt: &R,
    alloc: Global,
    path: &str,
    old: LogFile,
    end: u64,
) -> Result<u64, LogFault> {
    let mut old = old;
    let bytes = old.read(alloc, end as usize, usize::MAX)?;
    if bytes.is_empty() {
        return Ok(0);
    }
    let name = format!(in alloc; "{path}/{DROPPED}")?;
    let mut options = File::options();
    options.append(true);
    write_file(rt, &mut options, name.as_str(), &bytes).map_err(fault_of)?;
    Ok(bytes.len() as u64)
}

// Writes a file, and creates it if there is none. All of it is on the disk then.
fn write_file<R: Files<File = File>>(
    rt: &R,
    options: &mut OpenOptions,
    name: &str,
    bytes: &[u8],
) -> io::Result<()> {
    let mut file = options.create(true).mode(FILE_MODE).open(rt, name)?;
    file.write_all(bytes)?;
    file.sync_all()
}

// Syncs the names in a folder.
fn sync_folder<R: Files<File = File>>(rt: &R, path: &str) -> Result<(), LogFault> {
    let folder = File::open(rt, path).map_err(fault_of)?;
    folder.sync_all().map_err(fault_of)
}

// Returns the folder that contains the last part of `path`.
fn parent(path: &str) -> &str {
    match path.trim_end_matches('/').rsplit_once('/') {
        Some(("", _)) => "/",
        Some((parent, _)) => parent,
        None => ".",
    }
}

fn fault_of(error: io::Error) -> LogFault {
    match error.kind() {
        ErrorKind::OutOfMemory => LogFault::Memory,
        kind => LogFault::Disk(kind),
    }
}
