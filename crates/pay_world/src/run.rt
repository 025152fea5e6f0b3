//! A list of events, run in a world of test keys or of any others.

ghost use Rattle.std.specs.Prelude.{◌≡◌, IfOk, ℕ};
ghost use Rattle.pay_world.specs.GroupKeys.{group_test_keys};
ghost use Rattle.pay_world.specs.Headline.{Headline};
ghost use Rattle.pay_world.specs.Liars.{AreLiarsOf, setting_of};
ghost use Rattle.pay_world.specs.Run.{IsFirstForged, IsWorldAfter, actions_by};
ghost use Rattle.pay_world.specs.World.{AreKeysOf};

use crate::event::{WorldEvent, WorldFault};
use crate::laws::{forged_is_told, genuine_actions, headline, histories_by_actions};
use crate::liars::Liars;
use crate::world::World;
use pay_book::Settle;
use pay_echo::Instance;
use pay_echo::laws::sizes_of_sets;
use pay_hmac::Tagger;
use pay_link::{Genesis, Keys, test_keys};
use std::alloc::{AllocError, Global};

/// Returns the test keys of all members, each member's at its place.
pub fn group_test_keys(alloc: Global, genesis: &Genesis) -> Result<Vec<Keys>, AllocError>
    ensures value { IfOk result (λ keys. keys.items ≡ group_test_keys genesis.now.members) }
    ensures genesis { IfOk result (λ keys. AreKeysOf genesis.now keys.items) }
{
    let members = genesis.members();
    let mut keys = Vec::with_capacity(alloc, usize::from(members))?;
    for member in 0..members {
        keys.push(test_keys(alloc, genesis, member)?)?;
    }
    Ok(keys)
}

/// Returns the world of a group after a list of `events`. There are `keys` for each member, at its
/// place.
///
/// Refuses a list with a forged frame (`Forged`), and names the first. Except for lack of memory it
/// refuses no other list. The safety theorem holds for the events of a world that it returns.
// promise: from bytes
pub fn run_world<I: Instance + Drop, B: Settle + Drop, T: Tagger>(
    alloc: Global,
    tagger: &T,
    genesis: &Genesis,
    keys: &[Keys],
    liars: &Liars,
    events: Vec<WorldEvent>,
) -> Result<World<I, B>, WorldFault>
    requires keys { AreKeysOf genesis.now keys.now }
    requires liars { AreLiarsOf genesis.now liars.now }
    ensures after { IfOk result (IsWorldAfter genesis.now keys.now liars.now events.items) }
    ensures headline { IfOk result (λ _. Headline (setting_of liars.now) genesis.now.opening
        (actions_by keys.now liars.now events.items)) }
    ensures forged { (k : ℕ) → result ≡ Err (WorldFault.Forged k)
        → IsFirstForged keys.now liars.now events.items k }
{
    headline();
    sizes_of_sets();
    histories_by_actions();
    genuine_actions();
    forged_is_told();
    let mut world = World::new(alloc, genesis, keys, liars)?;
    for event in events {
        world.apply(alloc, tagger, event)?;
    }
    Ok(world)
}
