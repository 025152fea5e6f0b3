//! A node among its peers on one machine: the file of ports, the connections of a node, and the
//! threads that keep it running until its desk's input ends.
//!
//! ```
//! let start = NodeStart::fresh(alloc, member);
//! let (ended, output) = run_node(&rt, alloc, start, &tagger, &config, &mut reader, writer);
//! let (member, receipts) = ended?;
//! ```
#![tactic(auto)]

mod accepting;
mod clients;
mod closing;
mod connections;
mod contacts;
mod desk_socket;
mod dialing;
mod inbound;
pub mod laws;
mod ports;
mod refusals;
mod running;
mod seats;
mod start;
mod watching;
mod workers;

pub use accepting::{MOST_CONNECTIONS, descriptors_needed, places_within};
pub use clients::MOST_CLIENTS;
pub use closing::Receipts;
pub use contacts::News;
pub use desk_socket::{DeskSocket, MOST_SOCKET_NAME};
pub use ports::{Ports, PortsFault};
pub use running::{NodeConfig, NodeRuntime, run_node};
pub use start::{NodeFault, NodeStart, StartFault};
pub use watching::{MemberFigures, NodeFigures, PeerFigures, Watcher};
