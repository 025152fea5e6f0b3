//! The ledger: payments settled one account at a time, each as soon as its owner's balance covers
//! it.
//!
//! An account's entries settle in the order of its owner's list. An account waits for no other
//! account: how the steps of several accounts are interleaved makes no difference to the final
//! ledger ([`laws`]). [`Settle`] is what a ledger can do, over any source of lists.
//!
//! ```
//! let mut book = PlainBook::new(alloc, &genesis)?;
//! let settled = book.settle(&channel, owner);
//! let balance = book.balance(owner);
//! ```
#![tactic(auto)]

mod accounts;
mod excerpts;
pub mod laws;
mod line;
mod note;
mod payment;
mod plain;
pub mod rows;
mod statements;

pub use accounts::Accounts;
pub use excerpts::{Excerpt, MOST_SHOWN, ShownEntry, settled_excerpt, waiting_excerpt};
pub use line::{Line, Statement};
pub use note::{MOST_NOTE, NOTE_VERSION, note_in, note_text, note_value};
pub use payment::{
    Entry, MOST_PAYMENTS, PAIR_LENGTH, PAYMENT_LENGTH, PAYMENT_VERSION, Payment, SEVERAL_VERSION,
    decode_payment, entries_in, entry_at, payment_value, payments_named, payments_value,
    what_was_encoded,
};
pub use plain::{PlainBook, Settle};
pub use statements::statement;
