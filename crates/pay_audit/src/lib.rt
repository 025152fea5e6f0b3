//! For auditors of a group's ledgers: what a member shows of its own without its keys, and what is
//! wrong with several of these exports, if anything is.
//!
//! [`write_export`] writes a member's [`Export`], [`read_export`] reads one, and an [`Auditor`]
//! accepts exports one by one, as [`audit`] does. A verdict names the first case, and
//! [`findings_text`] names each, in lines for people, with the names of the exports' files.
//!
//! ```
//! let mut auditor = Auditor::new(alloc);
//! for file in files {
//!     auditor = auditor.take(alloc, read_export(alloc, file)?)?;
//! }
//! println!(rt; "{}", auditor.verdict())?;
//! ```
#![tactic(auto)]

mod auditing;
mod auditor;
mod by_lists;
mod comparison;
mod export_writing;
mod exported;
mod exporting;
mod findings;
mod forks;
pub mod laws;
mod reading;
mod replaying;
mod shown;

pub use auditing::{Verdict, audit, difference_at, other_genesis, settle_export};
pub use auditor::Auditor;
pub use by_lists::export_of_lists;
pub use export_writing::write_export;
pub use exported::{Export, ExportFault};
pub use exporting::export;
pub use findings::{Named, findings_text};
pub use reading::read_export;
pub use replaying::{ReplayFault, replay};
pub use shown::{genesis_text, next_genesis, shown_text};
