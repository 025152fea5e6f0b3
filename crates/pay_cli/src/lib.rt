//! The words of the program, and the loop of its command `check`. It writes a line for each frame
//! of a stream, and a line for what its value pays, if that is requested.
//!
//! ```
//! let job = job_of(alloc, words.as_slice())?;
//! let checker = Checker { keys: &keys, tells_values: true };
//! run_check(alloc, &tagger, &genesis, &checker, &mut reader, &mut writer)?;
//! ```
#![tactic(auto)]

mod check;
mod helps;
mod laws;
mod values;
mod words;

pub use check::{Checker, Progress, run_check};
pub use helps::{NOT_UTF8, VERSION};
pub use laws::{every_text, next_is_ok_lines_before, one_text};
pub use words::{Job, NodeWords, job_of};
