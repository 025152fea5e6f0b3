//! The members of a group and all that happens to them: what holds between correct members,
//! whatever the others do.
//!
//! A [`World`] applies submitted values and received bytes one by one, and [`run_world`] a whole
//! list of them. The theorem is the law [`headline`](laws::headline); `docs/theorem.md` explains
//! it.
//!
//! ```
//! let mut world = World::<MaskInstance, WaitingBook>::new(alloc, &genesis, &keys, &liars)?;
//! let reply = world.apply(alloc, &tagger, WorldEvent::Bring(member, bytes))?;
//! ```
#![tactic(auto)]

mod convergence;
mod event;
pub mod examples;
pub mod laws;
mod liars;
mod run;
mod world;

pub use convergence::all_taken;
pub use event::{WorldEvent, WorldFault, WorldReply};
pub use laws::{liar_causes, what_is_forged, world_by_events};
pub use liars::{LiarFault, Liars};
pub use run::{group_test_keys, run_world};
pub use world::World;
