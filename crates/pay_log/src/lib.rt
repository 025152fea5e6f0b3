//! A write-ahead log: payloads in record blocks, each of them on the disk before it is
//! acknowledged, by one sync for each block.
//!
//! A record block begins with a block header, which nobody makes without the log's key, and with
//! its place. It ends with a checksum under that key, over its place and its bytes. [`recover`]
//! passes on all acknowledged payloads and writes them into a new file, without what a crash left
//! of an unacknowledged block. [`Log`] appends.
//!
//! ```
//! let Recovered { log, sink, .. } = recover(alloc, &mut old, new, &key, &header, payloads)?;
//! log.append(alloc, b"whole records")?;
//! ```
#![tactic(auto)]

mod chunk;
mod device;
mod fault;
mod folder;
mod header;
pub mod laws;
mod log;
mod obstacle;
mod reading;

pub use chunk::{HEADER_LEN, MOST_PAYLOAD};
pub use device::{Device, DeviceFault, LossyFile};
pub use fault::LogFault;
pub use folder::{
    FoundLog, FoundRest, LogFile, LogLock, LogView, MadeLog, end_log, make_log, name_log, open_log,
    view_log,
};
pub use header::{Header, Mismatch};
pub use log::{Log, Recovered, recover};
pub use obstacle::{LogPart, Obstacle};
pub use reading::{Payloads, Refused, Sink, read_log};
