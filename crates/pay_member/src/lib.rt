//! A member, from the bytes that reach it to its ledger.
//!
//! [`Member`] is the object that a node locks, a simulator drives and an auditor replays. All that
//! it shows is a function of its genesis, its keys and its stored history.
//!
//! ```
//! let mut member = Member::<MaskInstance, WaitingBook>::new(alloc, genesis, keys)?;
//! let seq = member.ask(alloc, stamp, value)?;
//! let brought = member.bring(alloc, stamp, &tagger, &bytes)?;
//! ```
#![tactic(auto)]

mod bringing;
mod event;
mod fault;
pub mod laws;
mod ledger;
mod member;
pub mod question;
mod reading;
mod replay;
mod same;
mod serving;
mod view;

pub use bringing::{Brought, Incoming, Outcome, open_frame};
pub use event::{AskedValue, Event, HistoryEntry, Reply, Told, Took};
pub use fault::{AskFault, MemberFault, QueryFault, TakeFault};
pub use ledger::{Lie, Received};
pub use member::{MOST_FETCHED, Member};
pub use question::{PaymentState, Question};
pub use reading::{Bodies, Reading, SettledCounts};
pub use replay::Replay;
pub use same::{is_alone, is_same_body};
pub use serving::serve;
pub use view::MemberView;
