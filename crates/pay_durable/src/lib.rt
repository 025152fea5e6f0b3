//! What has to be on the disk before anything leaves a node.
//!
//! A [`Keeper`], the durability gate, keeps a node's history: [`Kept`] gathers it and writes it to
//! a log, [`Unkept`] keeps nothing. [`DurableOutput`] is an output that asks it before each write.
//!
//! ```
//! let mut output = DurableOutput::new(&rt, &keeper, &node, writer);
//! output.write(b"asked 7 seq 0\n")?;
//! ```
#![tactic(auto)]

mod following;
mod keeper;
mod kept;
pub mod laws;

pub use keeper::{DurableOutput, Keeper, Unkept};
pub use kept::Kept;
