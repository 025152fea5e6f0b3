ghost use Rattle.std.specs.Prelude.{◌≡◌};
ghost use Rattle.pay_log.specs.Faults.{log_fault_name, log_fault_number, fault_of_device};
ghost use Rattle.pay_log.specs.Faults.{fault_of_sink};

use crate::device::DeviceFault;
use crate::header::Mismatch;
use crate::obstacle::{LogPart, Obstacle};
use crate::reading::Refused;
use std::alloc::{AllocError, AllocFailed};
use std::fmt;
use std::io::ErrorKind;
use thiserror::Error;

/// The reason why a log isn't opened, read or appended to, in the order of the tests.
#[derive(Clone, Copy, Debug, PartialEq, Eq, Error)]
pub enum LogFault {
    /// There is no memory to read the log. Nothing has changed: free some memory, and start again.
    Memory,
    /// A read, a write or a sync failed, or the disk is full. Make room, or repair the disk or the
    /// folder's permissions, and start again.
    Disk(ErrorKind),
    /// Another node has the log, by whatever name. End that node, or leave it alone.
    Held,
    /// The file is no log (`NoLog`), or a log of another `Version`, `Genesis` or `Member`, or under
    /// other `Keys`. Name the right folder and files.
    Foreign(Mismatch),
    /// The record block of the number that follows, from 0, is missing or doesn't fit, and a later
    /// block stands there. Never start the member again, for what it said is lost, unless you have
    /// a copy of the folder from this very moment.
    Damaged(u64),
    /// The record of the number that follows, from 0, isn't what this program's member has there.
    /// Another version of the program wrote the log, so start that version.
    Illegal(u64),
    /// The log ended cleanly and has changed since, or it was put back at the place that it was
    /// moved from. Put that very log back, never an older one, and leave it alone.
    Changed,
    /// The group knows more about the member than this log (`node` alone). A newer folder may
    /// exist elsewhere, so start that one. Only if there is none, the balance continues in the
    /// next group.
    Forgotten,
    /// There is no log. Mount the disk, or name the right folder, which may be on the machine that
    /// the member moved to. `--new` is for a new member only.
    Missing,
    /// There is or was a log in the folder that `--new` should make a log in. Leave out `--new`.
    Exists,
    /// The folder's file name that follows belongs to something else, which is named after it: a
    /// `link`, a `folder`, a `socket`, a `pipe` or a `device`. It stays unchanged. Find out what it
    /// is for, move it away, and start again.
    Blocked(LogPart, Obstacle),
    /// The log was removed or renamed while its node ran, and the node answers nothing after that.
    /// Put that very log back, never an older one, and start again.
    Unnamed,
    /// This log has no entry, and others took payments or votes of its member (`node` alone): a
    /// folder of it exists or existed, so start that one. Only if it is gone, its balance goes on
    /// in the next group.
    Known,
}

impl LogFault {
    // promise: order of refusals (number, name)
    const fn entry(self) -> (u8, &'static str)
        ensures number { result.0 ≡ log_fault_number self }
        ensures name { result.1.now ≡ log_fault_name self }
    {
        match self {
            LogFault::Memory => (0, "Memory"),
            LogFault::Disk(_) => (1, "Disk"),
            LogFault::Held => (2, "Held"),
            LogFault::Foreign(_) => (3, "Foreign"),
            LogFault::Damaged(_) => (4, "Damaged"),
            LogFault::Illegal(_) => (5, "Illegal"),
            LogFault::Changed => (6, "Changed"),
            LogFault::Forgotten => (7, "Forgotten"),
            LogFault::Missing => (8, "Missing"),
            LogFault::Exists => (9, "Exists"),
            LogFault::Blocked(..) => (10, "Blocked"),
            LogFault::Unnamed => (11, "Unnamed"),
            LogFault::Known => (12, "Known"),
        }
    }

    pub fn number(self) -> u8
        ensures value { result ≡ log_fault_number self }
    {
        self.entry().0
    }

    pub fn name(self) -> &'static str
        ensures value { result.now ≡ log_fault_name self }
    {
        self.entry().1
    }
}

impl fmt::Display for LogFault {
    ghost use Rattle.std.specs.Prelude.{Some};
    ghost use Rattle.pay_log.specs.Faults.{log_fault_words};

    ghost output = { λ fault. Some (log_fault_words fault) };

    fn fmt<W: fmt::Write>(&self, f: &mut fmt::Formatter<W>) -> fmt::Result {
        write!(f, "{} {}", self.number(), self.name())?;
        match self {
            LogFault::Foreign(part) => write!(f, " {part}"),
            LogFault::Damaged(number) | LogFault::Illegal(number) => write!(f, " {number}"),
            LogFault::Blocked(part, obstacle) => write!(f, " {part} {obstacle}"),
            LogFault::Memory
            | LogFault::Disk(_)
            | LogFault::Held
            | LogFault::Changed
            | LogFault::Forgotten
            | LogFault::Missing
            | LogFault::Exists
            | LogFault::Unnamed
            | LogFault::Known => Ok(()),
        }
    }
}

impl From<AllocError> for LogFault {
    ghost use Rattle.pay_log.specs.declared.fault.LogFault.TheVariants.{Memory};

    ghost from_gives = { λ _ e. e ≡ Memory };

    fn from(_error: AllocError) -> LogFault {
        LogFault::Memory
    }
}

impl<T: Drop> From<AllocFailed<T>> for LogFault {
    ghost use Rattle.pay_log.specs.declared.fault.LogFault.TheVariants.{Memory};

    ghost from_gives = { λ _ e. e ≡ Memory };

    fn from(_error: AllocFailed<T>) -> LogFault {
        LogFault::Memory
    }
}

impl From<DeviceFault> for LogFault {
    ghost from_gives = { λ fault e. e ≡ fault_of_device fault };

    fn from(fault: DeviceFault) -> LogFault {
        match fault {
            DeviceFault::Memory => LogFault::Memory,
            DeviceFault::Disk(kind) => LogFault::Disk(kind),
        }
    }
}

impl From<ErrorKind> for LogFault {
    ghost use Rattle.pay_log.specs.declared.fault.LogFault.TheVariants.{Disk};

    ghost from_gives = { λ kind e. e ≡ Disk kind };

    fn from(kind: ErrorKind) -> LogFault {
        LogFault::Disk(kind)
    }
}

impl From<Refused> for LogFault {
    ghost from_gives = { λ refused e. e ≡ fault_of_sink refused };

    fn from(refused: Refused) -> LogFault {
        match refused {
            Refused::Memory => LogFault::Memory,
            Refused::Disk(kind) => LogFault::Disk(kind),
            Refused::Record(number) => LogFault::Illegal(number),
        }
    }
}
