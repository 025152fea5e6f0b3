//! The streams of a node's peers, and the node as a desk's teller. This covers what the node
//! receives from them, how their WANTs are answered, and how long the node connects to them.
//!
//! It uses only the calls of a [`Node`](pay_node::Node): each call is made from a seat, which keeps
//! its receipt.
//!
//! ```
//! read_ahead(&context, &gate, peer, Ahead::usual(), &mut asking, &mut reader, &mut writer)?;
//! write_peer(&context, &seats, &stop, &admission, &mut reader, &mut writer)?;
//! ```
#![tactic(auto)]

mod answering;
mod backoff;
mod challenging;
mod feeding;
pub mod laws;
mod readers;
mod reading_ahead;
mod teller;
mod window;
mod writing;

pub use backoff::{Dials, MOST_IDLE, QUIET_SECONDS};
pub use challenging::CLAIM_SECONDS;
pub use feeding::{PeerReader, read_peer};
pub use readers::{Dial, Dialed, NodeContext, Observer, PeerEvent, run_readers};
pub use reading_ahead::read_ahead;
pub use teller::NodeTeller;
pub use window::{Ahead, MOST_AHEAD, Window};
pub use writing::{Admission, write_peer};
