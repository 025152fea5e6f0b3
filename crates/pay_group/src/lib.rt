//! The group ledger: what more than `f` of its members list, if at most `f` of them are faulty.
//!
//! [`group_lists`] returns the list of each account, over which a ledger settles as over a member's
//! own. Otherwise it returns two values of one number that are each listed by more than `f`.
//! [`group_book`] does this for exports of different members. [`book_text`] writes the result in
//! lines for people, with what single exports claim beyond it.
//!
//! ```
//! let lists = group_lists(alloc, &exports, genesis.members(), genesis.faults())?;
//! book.settle(&lists, account);
//! ```
#![tactic(auto)]

mod booking;
pub mod laws;
mod lines;
mod listing;
mod texts;

pub use booking::{BookFault, group_book};
pub use listing::{GroupLists, group_lists};
pub use texts::{BookForm, GroupFault, Said, book_text};
