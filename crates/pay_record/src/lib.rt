//! A member's history as records in a log: an entry as bytes, how they are read again, and a member
//! with the history of a log's records.
//!
//! [`push_record`] writes a record, [`read_record`] reads it for the member with its keys, and
//! [`log_key`] and [`log_header`] are those of this member's log. [`restart`] hands the entries to
//! the member one by one, so no history is held in memory beside the member.
//!
//! ```
//! push_record(alloc, &mut payload, &entry, id)?;
//! let (entry, id, size) = read_record(alloc, &keys, payload.as_slice())?;
//! let Restarted { member, log, .. } = restart(alloc, &mut old, new, &genesis, &keys)?;
//! ```
#![tactic(auto)]

mod crashes;
mod identity;
pub mod laws;
mod reading;
mod resuming;
mod writing;

pub use crashes::{append_records, crashes_add_up, settled_log_starts, shorter_starts_too};
pub use identity::{log_header, log_key};
pub use reading::{MOST_RECORD, RecordFault, read_record};
pub use resuming::{Restarted, Resumed, begin, restart, view};
pub use writing::push_record;
