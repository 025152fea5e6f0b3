//! Links: what a ledger opens with, the keys of its members, and frames with the right tag for the
//! member that authenticates them.
//!
//! [`Genesis`] and [`Keys`] are read from files of JSON, and [`value_in`] and [`numbers_at`] find
//! the parts. `serde_json` decides which text has which value. [`seal`] encodes a frame for a peer.
//! [`open`] returns an [`Opened`] frame or the first cause to refuse it, and a [`Checked`] frame
//! can be kept.
//!
//! ```
//! let genesis = Genesis::read(alloc, &file)?;
//! let keys = Keys::read(alloc, &genesis, &keys_file)?;
//! let (frame, _) = read(&bytes)?.unwrap();
//! let opened = open(&tagger, &keys, frame)?;
//! ```
#![tactic(auto)]

mod checked;
mod claims;
mod fronts;
mod genesis;
mod json;
mod keys;
pub mod laws;
mod limits;
mod opened;
mod sealing;

pub use checked::Checked;
pub use claims::{Asked, NONCES, asked_by, challenge_number, claim_number, claimed_by};
pub use fronts::{Fronts, turn};
pub use genesis::{Genesis, GenesisFault};
pub use json::{number_at, numbers_at, value_in};
pub use keys::{Keys, KeysFault, pair_key, test_keys};
pub use limits::{GREATEST_TOTAL, WANT_LEN};
pub use opened::{LinkFault, Opened, open};
pub use pay_frame::MOST_MEMBERS;
pub use sealing::{seal, seal_checked, want};
