//! A running node: one member under a lock, and the seats from which threads call it.
//!
//! Each call from a [`Seat`] has a receipt of its answer there. After all threads have ended, the
//! receipts are compared with the member's history: it is one that a single thread could have made,
//! with these very calls.
//!
//! ```
//! let Ok((node, mut seats)) = Node::<_, _, S>::new(alloc, member, 2) else { .. };
//! let seq = node.ask(&rt, alloc, &mut seats[1], value)?;
//! let Ok(member) = node.close(alloc, seats.as_slice()) else { .. };
//! ```
#![tactic(auto)]

mod closing;
mod comparing;
mod judging;
pub mod laws;
mod locked_member;
mod node;
mod receipt;
mod seat;

pub use closing::{CloseFault, Stopped};
pub use comparing::{Comparing, Standing};
pub use locked_member::{Beginning, OwnMember};
pub use node::{Gate, Gatherer, HandInFault, MOST_SEATS, Node, OpenGate, OwnAnswer};
pub use receipt::{Call, Receipt};
pub use seat::{FetchSeat, Seat};
