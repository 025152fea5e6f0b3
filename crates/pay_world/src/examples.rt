//! Worked examples of what happens in a group, computed from the definitions alone. They show that
//! the premises of the laws can hold, and that none of them can be left out.

ghost use Rattle.std.specs.Prelude.{◌≡◌, ◌≢◌, ◌≤◌, true, [], ◌∷◌, Some, None};
ghost use Rattle.pay_channel.specs.Asked.{asked_values};
ghost use Rattle.pay_channel.specs.History.{Ask, From, body_of, list_of};
ghost use Rattle.pay_echo.specs.Broadcast.{size};
ghost use Rattle.pay_frame.specs.Frame.{frame_bytes, frame_of_parts};
ghost use Rattle.pay_frame.specs.declared.body.Kind.TheVariants.{Send, Ready};
ghost use Rattle.pay_member.specs.Events.{events};
ghost use Rattle.pay_member.specs.Remembering.{HasForgotten};
ghost use Rattle.pay_world.specs.Actions.{Asks, history_by, actions_in};
ghost use Rattle.pay_world.specs.Convergence.{AllTaken, HasHeardAll};
ghost use Rattle.pay_world.specs.Examples.{A, B, of_3, of_0, first_of, setting_of_four, two_liars};
ghost use Rattle.pay_world.specs.Examples.{three, by_a_forgetting_member, with_a_liar};
ghost use Rattle.pay_world.specs.Examples.{by_two_liars, by_a_forged_frame, of_three, stored_at_1};
ghost use Rattle.pay_world.specs.Examples.{liar_of_four, in_bytes};
ghost use Rattle.pay_world.specs.Genuine.{AreGenuine, is_forged};
ghost use Rattle.pay_world.specs.GroupKeys.{group_test_keys};
ghost use Rattle.pay_world.specs.Run.{events_of, history_of};
ghost use Rattle.pay_world.specs.Setting.{HasFewFaulty, group_at};

use crate::event::WorldEvent;
use crate::laws::forged_is_told;
use pay_hmac::laws::tag_length;
use pay_link::laws::shared_test_keys;
use pay_member::laws::what_is_brought;

/// States an example with one faulty member of four. Frames come twice and too early, and all
/// premises hold: the correct members deliver equal values.
// promise: premises
pub fn one_liar_of_four()
    ensures few { HasFewFaulty setting_of_four }
    ensures genuine { AreGenuine setting_of_four with_a_liar }
    ensures taken { AllTaken setting_of_four (history_by setting_of_four with_a_liar) }
    ensures zero { first_of setting_of_four with_a_liar 0 0 ≡ Some A }
    ensures one { first_of setting_of_four with_a_liar 1 0 ≡ Some A }
    ensures two { first_of setting_of_four with_a_liar 2 0 ≡ Some A }
{
    forged_is_told();
}

/// States an example of a member that lost state and submits another value under a used number. It
/// accepted all that the correct members sent, and they accepted all of each other: it has the
/// evidence.
// promise: premises
pub fn forgetting_member_of_four()
    ensures few { HasFewFaulty setting_of_four }
    ensures genuine { AreGenuine setting_of_four by_a_forgetting_member }
    ensures taken { AllTaken setting_of_four (history_by setting_of_four by_a_forgetting_member) }
    ensures heard { HasHeardAll setting_of_four
        (history_by setting_of_four by_a_forgetting_member) 3 }
    ensures listed { list_of (group_at setting_of_four 0)
        (history_by setting_of_four by_a_forgetting_member 0) 3 ≡ A ∷ [] }
    ensures asked { asked_values (history_by setting_of_four by_a_forgetting_member 3) ≡ B ∷ [] }
    ensures evidence { HasForgotten (group_at setting_of_four 3)
        (history_by setting_of_four by_a_forgetting_member 3) }
{
    forged_is_told();
}

/// States that two correct members deliver different values, with two faulty members while the
/// genesis allows one.
// promise: premises
pub fn two_liars_of_four()
    ensures liars { size 4 two_liars.faulty ≡ 2 }
    ensures genuine { AreGenuine two_liars by_two_liars }
    ensures zero { first_of two_liars by_two_liars 0 3 ≡ Some A }
    ensures one { first_of two_liars by_two_liars 1 3 ≡ Some B }
{
    forged_is_told();
}

/// States that two correct members deliver different values, with one faulty member and a single
/// forged frame.
// promise: premises
pub fn one_forged_frame()
    ensures few { HasFewFaulty setting_of_four }
    ensures forged { is_forged setting_of_four [] (of_3 Ready 0 2 0 A) ≡ true }
    ensures zero { first_of setting_of_four by_a_forged_frame 0 3 ≡ Some A }
    ensures one { first_of setting_of_four by_a_forged_frame 1 3 ≡ Some B }
{}

/// States an example of three members, one of them faulty, so that N = 3f. One correct member
/// delivers what the other doesn't, though each accepted all that the other sent.
// promise: premises
pub fn one_liar_of_three()
    ensures few { size 3 three.faulty ≤ three.faults }
    ensures genuine { AreGenuine three of_three }
    ensures taken { AllTaken three (history_by three of_three) }
    ensures zero { first_of three of_three 0 0 ≡ Some A }
    ensures one { first_of three of_three 1 0 ≡ None }
{
    forged_is_told();
}

/// States that a submitted value and a frame of a stored history are actions, and a query isn't.
/// The history is the one made by them. It isn't if the frame came out of turn, and no member can
/// have such a history.
// promise: premises
pub fn stored_history_of_four()
    ensures actions { actions_in 1 (stored_at_1 0) ≡ Asks 1 B ∷ of_0 Send 1 0 0 A ∷ [] }
    ensures same { events (stored_at_1 0)
        ≡ history_by setting_of_four (actions_in 1 (stored_at_1 0)) 1 }
    ensures early { events (stored_at_1 1)
        ≢ history_by setting_of_four (actions_in 1 (stored_at_1 1)) 1 }
{}

/// States an example of events in bytes, with test keys for all members. A member accepts its own
/// submitted value and the authenticated frame that is in turn. It accepts neither another's value
/// nor that frame again. As events, the stored history is the submitted value and the bytes of its
/// frame.
// promise: premises
pub fn events_of_four_in_bytes()
    ensures taken { history_of (group_test_keys 4) liar_of_four in_bytes 1
        ≡ Ask B ∷ From 0 (body_of Send 0 0 A) ∷ [] }
    ensures stored { events_of 1 (stored_at_1 0)
        ≡ WorldEvent.Ask 1 B
        ∷ WorldEvent.Bring 1 (frame_bytes (frame_of_parts 0 1 0 (body_of Send 0 0 A) []))
        ∷ [] }
{
    what_is_brought();
    shared_test_keys();
    tag_length();
}
