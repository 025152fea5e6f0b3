//! What people and their tools read from a member's export: statements as a desk answers them, and
//! a journal for accounting programs. All of it follows from the export's opening balances and
//! lists.
//!
//! ```
//! let export = read_export(alloc, &file)?;
//! let text = journal_text(alloc, &export, date_named(alloc, "2024-05-01")?.unwrap())?;
//! ```
#![tactic(auto)]

mod journal;
mod statements;

pub use journal::{date_named, journal_text};
pub use statements::{account_named, statement_text, statements_text};
