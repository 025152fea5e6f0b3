//! An instance of authenticated double-echo broadcast, as a process of a group sees it.
//!
//! `specs/Broadcast.antt` defines what the process has echoed, readied and delivered, from the list
//! of all votes that it received. [`Instance`] answers these questions vote by vote:
//! [`MaskInstance`] from sets of processes kept as bits, and [`PlainInstance`], for tests to
//! compare with, from plain lists. [`laws`] states what holds of them.
//!
//! ```
//! let mut instance = MaskInstance::fresh(alloc, group)?;
//! let moves = instance.moves(vote);
//! instance.take(alloc, vote, moves)?;
//! if let Some(value) = instance.delivered() { .. }
//! ```
#![tactic(auto)]

mod candidate;
mod instance;
pub mod laws;
mod mask;
mod plain;

pub use instance::{Group, Instance, Moves, VoteRef};
pub use mask::MaskInstance;
pub use plain::PlainInstance;
