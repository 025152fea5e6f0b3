//! Scripts of a group's day: their commands, and what is printed for each.
//!
//! ```
//! let end = run_sim::<MaskInstance, WaitingBook, _, _>(alloc, &mut reader, &mut writer)?;
//! ```
#![tactic(auto)]

mod command;
mod game;
mod group;
pub mod laws;
mod run;
mod test_frames;
mod words;

pub use command::{ACCOUNTS, MEMBERS, ScriptCommand, read_command};
pub use game::MOST_EVENTS;
pub use run::{LONGEST_LINE, SimEnd, run_sim};
pub use words::{push_book, push_outcome};
