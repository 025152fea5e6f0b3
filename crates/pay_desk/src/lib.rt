//! What the owner of an account types: commands to pay and to look, each answered with one or more
//! lines.
//!
//! A [`Desk`] works over any [`Teller`], such as a member of its own. It keeps each submitted value
//! under the id that its owner gave it, so that a line may be repeated.
//!
//! ```
//! let mut desk = Desk::new(alloc, OneMember { member, stamp: 0 }, 4, own);
//! let answer = desk.line(alloc, b"PAY 7 1 30")?;
//! ```
//!
//! The lines of several clients may come in any order. A desk is what all answered lines made of
//! the first desk. So what it keeps of payments belongs to all clients, and a client that repeats
//! an id gets the answer that the id had.
#![tactic(auto)]

mod command;
mod desk;
mod engine;
mod fault;
mod kept;
mod laws;
mod putting;
mod teller;
mod wording;

pub use command::{Command, MOST_LINE, Order, Payments, read_command};
pub use desk::Desk;
pub use engine::run_desk;
pub use fault::{DeskFault, ReadFault, TellerFault};
pub use kept::{Kept, KeptValues};
pub use laws::{a_desk_asks_once, a_kept_id_answers_its_own, refusals_before_the_teller};
pub use teller::{OneMember, Teller};
pub use wording::push_statement;
