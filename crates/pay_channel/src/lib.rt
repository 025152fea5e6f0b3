//! A member's side of the broadcast channel: what each owner broadcast, in its order.
//!
//! A [`Channel`] applies events, and appends what the member sends to its outbound list. A layer
//! above needs to know only [`Source`]: one list of values for each owner.
//!
//! ```
//! let mut channel = Channel::<MaskInstance>::new(alloc, 4, 1, own)?;
//! let applied = channel.apply(alloc, EventRef::Ask(&value))?;
//! let listed = channel.length(own);
//! ```
#![tactic(auto)]

mod channel;
mod instances;
pub mod laws;

pub use channel::{Applied, Channel, EventRef, Source};
