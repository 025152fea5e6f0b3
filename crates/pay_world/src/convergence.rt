//! Tests of whether anything is in flight between the correct members of a world.

ghost use Rattle.std.specs.Prelude.{◌≡◌, ◌↔◌, ◌<◌, ℕ, true};
ghost use Rattle.pay_world.specs.Convergence.{AllTaken, HasTaken};
ghost use Rattle.pay_world.specs.Converged.{BooksAlike, DeliveredAlike, DeliveredAsked};
ghost use Rattle.pay_world.specs.World.{history_in, setting_in};

use crate::laws::all_converge;
use crate::world::World;
use pay_book::Settle;
use pay_echo::Instance;
use pay_echo::laws::sizes_of_sets;
use pay_member::laws::book_of_events;

/// Returns whether each correct member of `world` accepted all that each other correct member sent.
///
/// Then all of them delivered equal values and have equal ledgers, and no value that one of them
/// submitted is missing.
// promise: convergence of a world (exact, delivered, asked, books)
pub fn all_taken<I: Instance + Drop, B: Settle + Drop>(world: &World<I, B>) -> bool
    ensures exact { (result ≡ true) ↔ AllTaken (setting_in world.now) (history_in world.now) }
    ensures delivered { result ≡ true → DeliveredAlike world.now }
    ensures asked { result ≡ true → DeliveredAsked world.now }
    ensures books { result ≡ true → BooksAlike world.now }
{
    sizes_of_sets();
    all_converge();
    book_of_events();
    for receiver in 0..world.members() {
        if !has_taken_all(world, receiver) {
            return false;
        }
    }
    true
}

// Returns whether `receiver`, if it is correct, accepted all that each other correct member sent.
fn has_taken_all<I: Instance + Drop, B: Settle + Drop>(world: &World<I, B>, receiver: u16) -> bool
    ensures { (result ≡ true)
        ↔ ((j : ℕ) → HasTaken (setting_in world.now) (history_in world.now) receiver j) }
{
    for sender in 0..world.members() {
        if !has_taken(world, receiver, sender) {
            return false;
        }
    }
    true
}

// Returns whether `receiver` accepted all that `sender` sent, if both are correct: nothing has the
// number that `receiver` expects next.
fn has_taken<I: Instance + Drop, B: Settle + Drop>(
    world: &World<I, B>,
    receiver: u16,
    sender: u16,
) -> bool
    requires { sender < world.now.genesis.members }
    ensures { (result ≡ true)
        ↔ HasTaken (setting_in world.now) (history_in world.now) receiver sender }
{
    if receiver == sender {
        return true;
    }
    let Some(taker) = world.member(receiver) else {
        return true;
    };
    let Some(giver) = world.member(sender) else {
        return true;
    };
    giver.sent(taker.next(sender)).is_none()
}
