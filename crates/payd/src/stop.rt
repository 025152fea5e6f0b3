ghost use Rattle.std.specs.Prelude.{◌≡◌};
ghost use Rattle.std.specs.Option.{option_map};
ghost use Rattle.pay_frame.specs.EngineFault.{engine_of};
ghost use Rattle.pay_frame.specs.declared.engine.EngineFault.TheVariants.{Memory};
ghost use Rattle.payd.specs.Stops.{node_stop, stop_place, status_of};
ghost use Rattle.payd.specs.declared.stop.Stop.TheVariants.{Engine, Log};

use pay_audit::ExportFault;
use pay_frame::{EngineFault, StreamFault};
use pay_link::{GenesisFault, KeysFault};
use pay_log::{LogFault, Obstacle};
use pay_net::{NodeFault, PortsFault};
use pay_node::CloseFault;
use std::alloc::{AllocError, AllocFailed};
use std::fmt;
use std::io::ErrorKind;
use thiserror::Error;

/// The reason why the work wasn't done, or not all of it.
#[derive(Drop, Error)]
pub(crate) enum Stop<'a> {
    /// Memory ran out, a read or a write failed, or the read limit was reached: `0 Memory`,
    /// `2 Read`, `3 Write`, `4 Bound`.
    #[error("engine {0}")]
    Engine(EngineFault),
    /// The genesis file has this fault. The line `payd: in FILE` follows it.
    #[error("genesis {0}")]
    Genesis(GenesisFault, &'a str),
    /// The file of keys has this fault. For a bad key the line also has `, the key for member M`.
    #[error("keys {0}")]
    Keys(KeysFault, &'a str),
    /// The keys belong to another group than the genesis.
    #[error("keys 6 OtherGroup")]
    OtherGroup(&'a str),
    /// The file of ports has this fault.
    #[error("ports {0}")]
    Ports(PortsFault, &'a str),
    /// The export file has this fault.
    #[error("export {0}")]
    Export(ExportFault, &'a str),
    /// The history contradicts what the node answered, or no memory was left to compare them.
    #[error("close {0}")]
    Close(CloseFault),
    /// The log in the folder isn't read, or the folder isn't available.
    #[error("log {0}")]
    Log(LogFault),
    /// The node ended because its log failed in this way: nothing may be written any more.
    #[error("engine {}", EngineFault::Write)]
    Unkept(LogFault),
    /// The member of a node has lost state, which was reported already as this fault.
    #[error("log {0}")]
    Forgets(LogFault),
    /// `--new` was given without a folder.
    #[error("new: only with --data")]
    New,
    /// `--stay` was given without a folder.
    #[error("stay: only with --data")]
    Stay,
    /// The node can't listen on the socket of this name, for this reason.
    #[error("socket {0}")]
    Socket(String, ErrorKind),
    /// This name belongs to something that is no unused socket: this obstacle, or a file.
    #[error("socket {0}")]
    Taken(String, Option<Obstacle>),
    /// The system allows the node the first count of descriptors, and a node of this group needs
    /// the second.
    #[error("descriptors {0}: a node of this group needs {1}: ulimit -n {1}")]
    Descriptors(u64, u64),
    /// The socket's name is longer than the system accepts.
    #[error("socket {0}: more than 101 bytes; --socket gives it a shorter name")]
    LongSocket(String),
    /// The word at this place has a control character.
    #[error("word {0}: a control character")]
    Control(usize),
    /// The node can't listen on its own port, for this reason.
    #[error("port {0}")]
    Port(u16, ErrorKind),
    /// The file of this name can't be read, or has more than 1,073,741,824 bytes.
    #[error("file {0}")]
    File(&'a str, ErrorKind),
    /// The contents of the file of this name would take too much memory for its size.
    #[error("file {0}: it has so many parts that they would take more than 16 times its size")]
    Parts(&'a str),
    /// This word is no count of dials.
    #[error("dials {0}: neither a count from 1 on nor always")]
    Dials(&'a str),
    /// This word is no pipelining depth.
    #[error("ahead {0}: no number from 1 to 1024")]
    Ahead(&'a str),
    /// Two forms of a group ledger were requested.
    #[error("book: --genesis or --export, and not both")]
    Forms,
    /// This word names no account of the export.
    #[error("account {0}")]
    Account(&'a str),
    /// This word is no date of a journal.
    #[error("date {0}: not YYYY-MM-DD from the year 1400 on")]
    Date(&'a str),
    /// The clock doesn't give today's date.
    #[error("clock")]
    Clock,
}

// These words as `Display` has them: an error needs them, and nothing prints them.
impl fmt::Debug for Stop<'_> {
    fn fmt<W: fmt::Write>(&self, f: &mut fmt::Formatter<W>) -> fmt::Result {
        fmt::Display::fmt(self, f)
    }
}

impl<'a> From<EngineFault> for Stop<'a> {
    ghost from_gives = { λ fault stop. stop ≡ Engine fault };

    fn from(fault: EngineFault) -> Stop<'a> {
        Stop::Engine(fault)
    }
}

impl<'a> From<StreamFault> for Stop<'a> {
    ghost from_gives = { λ fault stop. stop ≡ Engine (engine_of fault) };

    fn from(fault: StreamFault) -> Stop<'a> {
        Stop::Engine(EngineFault::from(fault))
    }
}

impl<'a> From<LogFault> for Stop<'a> {
    ghost from_gives = { λ fault stop. stop ≡ Log fault };

    fn from(fault: LogFault) -> Stop<'a> {
        Stop::Log(fault)
    }
}

impl<'a> From<NodeFault> for Stop<'a> {
    ghost from_gives = { λ fault stop. stop ≡ node_stop fault };

    fn from(fault: NodeFault) -> Stop<'a> {
        match fault {
            NodeFault::Port(port, kind) => Stop::Port(port, kind),
            NodeFault::Engine(fault) => Stop::from(fault),
            NodeFault::Close(fault) => Stop::Close(fault),
        }
    }
}

impl<'a> From<AllocError> for Stop<'a> {
    ghost from_gives = { λ _ stop. stop ≡ Engine Memory };

    fn from(_: AllocError) -> Stop<'a> {
        Stop::Engine(EngineFault::Memory)
    }
}

impl<'a, T: Drop> From<AllocFailed<T>> for Stop<'a> {
    ghost from_gives = { λ _ stop. stop ≡ Engine Memory };

    fn from(_: AllocFailed<T>) -> Stop<'a> {
        Stop::Engine(EngineFault::Memory)
    }
}

impl<'a> Stop<'a> {
    /// Returns the file that has the fault, and the member of a key in it, if a file has one.
    pub(crate) fn place(&self) -> Option<(&'a str, Option<u16>)>
        ensures { option_map (λ place. (place.0.now, place.1)) result ≡ stop_place self.now }
    {
        match self {
            Stop::Genesis(GenesisFault::Memory, _)
            | Stop::Keys(KeysFault::Memory, _)
            | Stop::Ports(PortsFault::Memory, _)
            | Stop::Export(ExportFault::Memory, _) => None,
            Stop::Genesis(_, file)
            | Stop::OtherGroup(file)
            | Stop::Ports(_, file)
            | Stop::Export(_, file) => Some((*file, None)),
            Stop::Keys(KeysFault::BadKey(member), file) => Some((*file, Some(*member))),
            Stop::Keys(_, file) => Some((*file, None)),
            _ => None,
        }
    }

    /// Returns the program's status.
    // promise: statuses
    pub(crate) fn status(&self) -> u8
        ensures { result ≡ status_of self.now }
    {
        match self {
            Stop::Engine(EngineFault::Frame(_)) | Stop::Close(CloseFault::Mismatch(_)) => 1,
            Stop::Engine(_)
            | Stop::Genesis(GenesisFault::Memory, _)
            | Stop::Keys(KeysFault::Memory, _)
            | Stop::Ports(PortsFault::Memory, _)
            | Stop::Export(ExportFault::Memory, _)
            | Stop::Close(CloseFault::Memory(_))
            | Stop::Log(LogFault::Memory | LogFault::Held)
            | Stop::Port(..)
            | Stop::Socket(..)
            | Stop::Taken(..)
            | Stop::Descriptors(..)
            | Stop::Clock => 3,
            Stop::Unkept(_)
            | Stop::Forgets(_)
            | Stop::Log(
                LogFault::Disk(_) | LogFault::Forgotten | LogFault::Unnamed | LogFault::Known,
            ) => 4,
            Stop::Genesis(..)
            | Stop::Keys(..)
            | Stop::OtherGroup(_)
            | Stop::Ports(..)
            | Stop::Export(..)
            | Stop::Log(_)
            | Stop::New
            | Stop::Stay
            | Stop::LongSocket(_)
            | Stop::Control(_)
            | Stop::File(..)
            | Stop::Parts(_)
            | Stop::Dials(_)
            | Stop::Ahead(_)
            | Stop::Forms
            | Stop::Account(_)
            | Stop::Date(_) => 2,
        }
    }
}
