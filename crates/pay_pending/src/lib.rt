//! A ledger that settles by a worklist. It looks only at accounts with a next entry that may now be
//! covered.
//!
//! ```
//! let mut book = WaitingBook::new(alloc, &genesis)?;
//! let settled = book.settle(&channel, owner);
//! ```
#![tactic(auto)]

mod waiting;

pub use waiting::WaitingBook;
