//! What is said about a fault after its line: the place, the reason as far as the system gives one,
//! and a remedy.

ghost use Rattle.std.specs.Prelude.{◌≡◌, position, string_bytes, is_some};
ghost use Rattle.payd.specs.Advice.{has_advice, reason_words};
ghost use Rattle.payd.specs.Controls.{has_control, is_control};
ghost use Rattle.payd.specs.declared.stop.Stop.TheVariants.{Engine};

use crate::files::MOST_BYTES;
use crate::stop::Stop;
use pay_audit::ExportFault;
use pay_frame::EngineFault;
use pay_link::{GenesisFault, KeysFault};
use pay_log::{LogFault, LogPart, Mismatch, Obstacle};
use pay_net::PortsFault;
use pay_node::CloseFault;
use std::io::ErrorKind;

/// Returns the index of the first of `words` that has a control character: a byte below 32, or 127.
pub(crate) fn control_in(words: &[String]) -> Option<usize>
    ensures { result ≡ position (λ word. has_control (string_bytes word)) words.now }
{
    words.iter().position(|word| has_control(word.as_bytes()))
}

/// Returns whether `word` has a control character.
pub(crate) fn has_control(word: &[u8]) -> bool
    ensures { result ≡ has_control word.now }
{
    word.iter().any(|byte| is_control(*byte))
}

fn is_control(byte: u8) -> bool
    ensures { result ≡ is_control byte }
{
    byte < 32 || byte == 127
}

/// The prefix of a mistake's text, as the reader of the words writes it.
const BEGINNING: &str = "error: ";

/// Prints what is wrong with the words, and the remedies in `text`, the text of the mistake: a line
/// for each that isn't empty.
pub(crate) fn say_mistake(rt: &impl Eprint, text: &str) {
    let text = text.strip_prefix(BEGINNING).unwrap_or(text);
    for line in text.lines() {
        if !line.is_empty() {
            let _ = eprintln!(rt; "payd: {line}");
        }
    }
}

const UNTOLD: &str = "the system doesn't say why";

const NO_MEMORY: &str = "memory ran out: free some, and try again";

const NOT_JSON: &str = "it isn't JSON: name the right file";

const MOVE_AWAY: &str = "look what it is for, move it away, and start again";

const OTHER_GROUP: &str =
    "these keys are of another group than the genesis's file, or it says something else since they \
were made";

/// Prints what is known about the fault `stop` in one line, if its own line doesn't say all. The
/// line names the `folder` of a job that has one.
pub(crate) fn say_advice(rt: &impl Eprint, stop: &Stop, folder: Option<&str>) {
    match stop {
        Stop::File(name, ErrorKind::FileTooLarge) => {
            let _ = eprintln!(rt; "payd: cannot read {name}: it has more than {MOST_BYTES} bytes");
        }
        Stop::File(name, kind) => {
            let why = reason_of(*kind);
            let _ = eprintln!(rt; "payd: cannot read {name}: {why}");
        }
        Stop::Socket(path, kind) => {
            let why = reason_of(*kind);
            let _ = eprintln!(rt; "payd: cannot listen on {path}: {why}");
        }
        Stop::Port(port, kind) => {
            let why = reason_of(*kind);
            let _ = eprintln!(rt; "payd: cannot bind 127.0.0.1:{port}: {why}");
        }
        Stop::Taken(path, obstacle) => {
            let kind = obstacle.map_or("file", Obstacle::name);
            let _ = eprintln!(rt; "payd: {path} is a {kind}: {MOVE_AWAY}");
        }
        Stop::Log(LogFault::Disk(kind)) | Stop::Unkept(LogFault::Disk(kind)) => {
            say_disk(rt, folder, *kind)
        }
        Stop::Log(LogFault::Blocked(part, obstacle)) => say_blocked(rt, folder, *part, *obstacle),
        _ => {
            if let Some(advice) = advice_on(stop) {
                let _ = eprintln!(rt; "payd: {advice}");
            }
        }
    }
}

/// Prints the remedy for `fault`, a fault of a log. The log may belong to a node that runs.
pub(crate) fn say_log_advice(rt: &impl Eprint, fault: LogFault) {
    let advice = log_advice(fault);
    let _ = eprintln!(rt; "payd: {advice}");
}

// Prints which name of a folder belongs to something that is no file.
fn say_blocked(rt: &impl Eprint, folder: Option<&str>, part: LogPart, obstacle: Obstacle) {
    let _ = match folder {
        None => eprintln!(rt; "payd: {part} is a {obstacle}: {MOVE_AWAY}"),
        Some(folder) => eprintln!(rt; "payd: {folder}/{part} is a {obstacle}: {MOVE_AWAY}"),
    };
}

// Prints why the disk of a log failed.
fn say_disk(rt: &impl Eprint, folder: Option<&str>, kind: ErrorKind) {
    let (why, advice) = (reason_of(kind), log_advice(LogFault::Disk(kind)));
    let _ = match folder {
        None => eprintln!(rt; "payd: {advice}"),
        Some(folder) if why == UNTOLD => eprintln!(rt; "payd: {folder}: {advice}"),
        Some(folder) => {
            eprintln!(rt; "payd: cannot use {folder}: {why}: mend that, and start again")
        }
    };
}

/// Prints why the file `path` of a node can't be written. The node's payments don't depend on that
/// file.
pub(crate) fn say_unwritten(rt: &impl Eprint, path: &str, kind: ErrorKind) {
    let why = reason_of(kind);
    let _ = eprintln!(rt; "payd: {path} can't be written: {why}");
}

/// Returns the remedy for the fault `stop`, if its line doesn't say all.
fn advice_on(stop: &Stop) -> Option<&'static str>
    ensures { is_some result ≡ has_advice stop.now }
{
    match stop {
        Stop::Engine(fault) => engine_advice(*fault),
        Stop::Unkept(fault) => Some(log_advice(*fault)),
        Stop::Genesis(fault, _) => Some(genesis_advice(*fault)),
        Stop::Keys(fault, _) => Some(keys_advice(*fault)),
        Stop::OtherGroup(_) => Some(OTHER_GROUP),
        Stop::Ports(fault, _) => Some(ports_advice(*fault)),
        Stop::Export(fault, _) => Some(export_advice(*fault)),
        Stop::Close(fault) => Some(close_advice(*fault)),
        Stop::Log(fault) => Some(log_advice(*fault)),
        Stop::File(..) => Some("look whether the file is there and may be read"),
        Stop::Port(..) => Some("look which program has the port"),
        Stop::Socket(..) => Some("look what has the name"),
        Stop::Taken(..) => Some(MOVE_AWAY),
        Stop::Account(_) => Some("the export has no account of this number"),
        Stop::Clock => Some("set the machine's clock, or name the day by --date"),
        Stop::Forgets(_)
        | Stop::New
        | Stop::Stay
        | Stop::LongSocket(_)
        | Stop::Descriptors(..)
        | Stop::Control(_)
        | Stop::Parts(_)
        | Stop::Dials(_)
        | Stop::Ahead(_)
        | Stop::Forms
        | Stop::Date(_) => None,
    }
}

fn engine_advice(fault: EngineFault) -> Option<&'static str>
    ensures { is_some result ≡ has_advice (Engine fault) }
{
    match fault {
        EngineFault::Frame(_) => None,
        EngineFault::Memory => Some(NO_MEMORY),
        EngineFault::Read => Some("the input can't be read"),
        EngineFault::Write => Some("the output can't be written, and isn't whole"),
        EngineFault::Bound => {
            Some("the input was read 1000000 times: give what is left to another run")
        }
    }
}

fn genesis_advice(fault: GenesisFault) -> &'static str {
    match fault {
        GenesisFault::Memory => NO_MEMORY,
        GenesisFault::BadJson => NOT_JSON,
        GenesisFault::BadShape => {
            "it lacks `members`, `faults` or `opening`, or one of them is no number or list"
        }
        GenesisFault::BadCount => "a group has 1 to 128 members",
        GenesisFault::BadFaults => "fewer than a third of the members may lie",
        GenesisFault::BadOpening => "`opening` has one number for each member",
        GenesisFault::BadTotal => "the accounts open with 9223372036854775807 together at most",
    }
}

fn keys_advice(fault: KeysFault) -> &'static str {
    match fault {
        KeysFault::Memory => NO_MEMORY,
        KeysFault::BadJson => NOT_JSON,
        KeysFault::BadShape => "it lacks `own` or `keys`: payd group keys makes it",
        KeysFault::BadOwn => "`own` is no member of this group: name the keys and the group of one",
        KeysFault::BadKeyCount =>
            "it has keys for another number of members: name those of this group",
        _ => "a key has 64 hexadecimal digits, and that at the own place none",
    }
}

fn ports_advice(fault: PortsFault) -> &'static str {
    match fault {
        PortsFault::Memory => NO_MEMORY,
        PortsFault::BadJson => NOT_JSON,
        PortsFault::BadShape => "`ports` has a number from 1 to 65535 for each member",
    }
}

fn export_advice(fault: ExportFault) -> &'static str {
    match fault {
        ExportFault::Memory => NO_MEMORY,
        ExportFault::BadJson => "it isn't JSON: it may be cut, so take the export once more",
        ExportFault::BadShape => "it is no export, or an account's list is too long",
        ExportFault::BadGenesis => "its members, faults and opening make no group",
    }
}

fn close_advice(fault: CloseFault) -> &'static str {
    match fault {
        CloseFault::Memory(_) =>
            "no memory to compare the answers with the history: the export is whole",
        CloseFault::Mismatch(_) => {
            "the history contradicts what was answered: keep everything, and report it"
        }
    }
}

/// Returns the remedy for `fault`, a fault of a log.
fn log_advice(fault: LogFault) -> &'static str {
    match fault {
        LogFault::Memory => NO_MEMORY,
        LogFault::Disk(_) => {
            "a read, write or sync failed: make room, or mend the disk or the folder's rights, and \
start again"
        }
        LogFault::Held => "another node has this folder: end that one, or leave it alone",
        LogFault::Foreign(mismatch) => foreign_advice(mismatch),
        LogFault::Damaged(_) => {
            "what the member said is lost: never start it again, unless you have a copy of the \
folder from this very moment"
        }
        LogFault::Illegal(_) => "another version of payd wrote this log: start that one",
        LogFault::Changed => {
            "the log ended cleanly and isn't whole any more: put that very log back, and never an \
older one"
        }
        LogFault::Forgotten => {
            "the group knows more of this member than its log: look for a newer folder, on another \
machine or where this one was copied from, and start that one; only if there is none does its \
balance go on in the next group"
        }
        LogFault::Missing => {
            "there is no log in this folder: --new makes a member there, but one that had a log \
needs that very log, which may be on a disk that isn't mounted"
        }
        LogFault::Exists => {
            "there is or was a log in this folder: without --new its member goes on where it was"
        }
        LogFault::Blocked(..) => MOVE_AWAY,
        LogFault::Unnamed => {
            "the log was removed or renamed while its node ran: put that very log back, never an \
older one, and start again"
        }
        LogFault::Known => {
            "others took payments or votes of this member, so a folder of it exists or existed: \
start that one; only if it is gone does its balance go on in the next group"
        }
    }
}

fn foreign_advice(mismatch: Mismatch) -> &'static str {
    match mismatch {
        Mismatch::NoLog => "the folder's file log is no member's log: name the right folder",
        Mismatch::Version => "another version of payd wrote this log: start that one",
        Mismatch::Genesis => "the folder is a member of another group: name the right ones",
        Mismatch::Member => "the folder is another member's: name the right folder and keys",
        Mismatch::Keys => "the folder's member has other keys: name the right ones",
    }
}

/// Returns the reason for which the system refused something.
pub(crate) fn reason_of(kind: ErrorKind) -> &'static str
    ensures { result.now ≡ reason_words kind }
{
    match kind {
        ErrorKind::NotFound => "there is no such file or folder",
        ErrorKind::PermissionDenied => "you may not",
        ErrorKind::AlreadyExists => "another file has this name",
        ErrorKind::AddrInUse => "another program has it",
        ErrorKind::NotADirectory => "a part of its path is no folder",
        ErrorKind::IsADirectory => "it is a folder",
        ErrorKind::FileTooLarge => "no file may be so long",
        ErrorKind::StorageFull => "the disk is full",
        ErrorKind::QuotaExceeded => "your share of the disk is full",
        ErrorKind::ReadOnlyFilesystem => "the disk may only be read",
        ErrorKind::FilesystemLoop => "links of its path lead in a circle",
        ErrorKind::InvalidFilename => "no file can have this name",
        ErrorKind::OutOfMemory => "memory ran out",
        _ => UNTOLD,
    }
}
