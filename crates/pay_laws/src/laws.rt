//! Laws of groups with members that start again, and of the exports of a group's correct members,
//! with worked examples. The functions do nothing: their contracts are the laws.

ghost use Rattle.std.specs.Prelude.{◌≡◌, [], ◌∷◌, ◌++◌, Some};
ghost use Rattle.pay_channel.specs.History.{From, body_of};
ghost use Rattle.pay_frame.specs.declared.body.Kind.TheVariants.{Send};
ghost use Rattle.pay_laws.specs.Books.{BookIsOfCorrectMembers, BookIsSettledByAll};
ghost use Rattle.pay_laws.specs.Challenges.{all_around, steps_in, AreUnforged, ComparesNoted};
ghost use Rattle.pay_laws.specs.Challenges.{ComparesAtFirst, ComparesOneMore, HasFreshNonce};
ghost use Rattle.pay_laws.specs.Challenges.{NotedIsHeld};
ghost use Rattle.pay_laws.specs.CheckExamples.{new_claims, recorded_claims, began_with};
ghost use Rattle.pay_laws.specs.CheckExamples.{delivered_by_0};
ghost use Rattle.pay_laws.specs.Claims.{NoClaimIsBeyond};
ghost use Rattle.pay_laws.specs.Examples.{ask_steps, told_steps, asked_again, with_its_ask};
ghost use Rattle.pay_laws.specs.Examples.{without_its_ask, own_list, own_asks};
ghost use Rattle.pay_laws.specs.Forgetting.{ForgettingIsNoLie};
ghost use Rattle.pay_laws.specs.Lasting.{ExportsStayClean};
ghost use Rattle.pay_laws.specs.Moments.{ExportsAreClean};
ghost use Rattle.pay_laws.specs.Once.{NoCorrectMemberLies, NoVoteIsTakenTwice, NobodyVotesTwice};
ghost use Rattle.pay_laws.specs.Released.{DeliveredWasAsked, FirstTakenIsFirstSent, IsTakenAmong};
ghost use Rattle.pay_laws.specs.Released.{LossIsFound, ReleasedHasDelivered};
ghost use Rattle.pay_laws.specs.Restarts.{AreFair, CorrectMembersRemember, HeadlineOfRestarts};
ghost use Rattle.pay_laws.specs.Restarts.{RestartIsNoLie, Restarts, IsFair, history_by_steps};
ghost use Rattle.pay_laws.specs.Worlds.{WorldExportsAreClean};
ghost use Rattle.pay_member.specs.Remembering.{HasForgotten};
ghost use Rattle.pay_node.specs.Comparing.{standing_of};
ghost use Rattle.pay_node.specs.declared.comparing.Standing.TheVariants.{Free, Forgotten};
ghost use Rattle.pay_world.specs.Examples.{A, B, setting_of_four};
ghost use Rattle.pay_world.specs.Setting.{group_at, HasFewFaulty};

use pay_audit::laws::verdict_is_judged;
use pay_book::laws::{
    equal_lists_equal_books, largest_is_computed, settled_book_exists, settled_entries_grow,
};
use pay_channel::laws::{
    delivered_for_good, grow_at_the_end, lists_are_delivered, nothing_at_first, sends_are_asks,
    taken_in_order, votes_are_taken, what_is_sent,
};
use pay_echo::laws::{members_of_sets, quorums_share, sizes_of_sets, votes_came, why_known};
use pay_group::laws::book_is_vouched_for;
use pay_world::laws::{
    correct_members_stand, forged_is_told, genuine_actions, headline, histories_by_actions,
    lists_by_actions, nothing_is_invented,
};

/// States that lost state is no fault if nothing of it was received. A member loses what it
/// accepted after a prefix of its history, and no correct member received a frame of it beyond
/// that. Then the actions without the lost ones have no forged frame, and nobody else's history
/// changes.
// promise: no lie
pub fn forgetting_is_no_lie()
    ensures { ForgettingIsNoLie }
{
    histories_by_actions();
    genuine_actions();
    grow_at_the_end();
}

/// States that lost state is no fault however often and whichever members start again. There are
/// actions without a restart, none of them a forged frame, that give each member its history.
// promise: no lie
pub fn restart_is_no_lie()
    ensures { RestartIsNoLie }
{
    histories_by_actions();
    genuine_actions();
    forgetting_is_no_lie();
}

/// States that the safety theorem holds for a group with members that start again.
// promise: no lie
pub fn headline_of_restarts()
    ensures { HeadlineOfRestarts }
{
    histories_by_actions();
    restart_is_no_lie();
    headline();
}

/// States that a correct member never finds a value in its own account's list that it didn't
/// submit, however often it starts again. So a member that finds one has lost state, or more than f
/// members are faulty, or a frame is forged.
// promise: forgetting
pub fn correct_members_remember()
    ensures { CorrectMembersRemember }
{
    histories_by_actions();
    genuine_actions();
    correct_members_stand();
    nothing_is_invented();
    restart_is_no_lie();
}

/// States that no correct member claims to have accepted more from another correct member than that
/// member has sent. This holds however often either starts again, and whoever plays an old claim
/// back. So the claims of correct members never show lost state of a member that kept its state.
// promise: comparing
pub fn no_claim_is_beyond()
    ensures { NoClaimIsBeyond }
{
    nothing_at_first();
    taken_in_order();
    grow_at_the_end();
    correct_members_stand();
    restart_is_no_lie();
}

/// States that a member that notes claims as `Comparing::note` does compares itself with noted
/// claims alone. While it has sent nothing since its start, it holds the latest claim of each peer.
// promise: comparing
pub fn noted_claims_are_compared()
    ensures first { ComparesAtFirst }
    ensures more { ComparesOneMore }
    ensures held { NotedIsHeld }
{}

/// States when a member finds that it has lost state. Suppose that more than f correct members have
/// accepted more from it than it began with, and that it noted a claim of each on a fresh nonce.
/// Then it finds the loss, whatever all others claim.
// promise: comparing
pub fn loss_is_found()
    ensures { LossIsFound }
{
    sizes_of_sets();
}

/// States that a member that lost state and began with `s` sent bodies is cleared only if no
/// delivered value is beyond them: the SEND of each value of its account that a correct member had
/// delivered by its start is among the first `s` bodies that some correct member accepted from it.
/// So a folder that is an older copy has it. The nonce is fresh, and all members may start again at
/// any time. A member that lost nothing submitted each such value, and remembers that.
// promise: comparing
pub fn released_has_delivered()
    ensures lost { ReleasedHasDelivered }
    ensures copy { FirstTakenIsFirstSent }
    ensures correct { DeliveredWasAsked }
{
    members_of_sets();
    votes_came();
    why_known();
    sizes_of_sets();
    quorums_share();
    nothing_at_first();
    taken_in_order();
    grow_at_the_end();
    what_is_sent();
    votes_are_taken();
    delivered_for_good();
    correct_members_stand();
    nothing_is_invented();
    restart_is_no_lie();
}

/// States that a member that keeps its state sends at most one SEND, one ECHO and one READY in each
/// broadcast. So a correct member accepts no second vote from another correct member, and never
/// finds a protocol violation of it, however often either starts again.
// promise: votes once (sent, taken); lies (no_lie)
pub fn nobody_votes_twice()
    ensures sent { NobodyVotesTwice }
    ensures taken { NoVoteIsTakenTwice }
    ensures no_lie { NoCorrectMemberLies }
{
    taken_in_order();
    what_is_sent();
    sends_are_asks();
    correct_members_stand();
    restart_is_no_lie();
}

/// States that the exports of correct members, each at any moment, have the verdict Clean. This
/// holds for any actions without a forged frame, in a group with few faulty members.
// promise: clean exports
pub fn exports_are_clean()
    ensures { ExportsAreClean }
{
    verdict_is_judged();
    equal_lists_equal_books();
    largest_is_computed();
    settled_book_exists();
    lists_are_delivered();
    lists_by_actions();
}

/// States that exports stay clean over restarts. Take any steps of a group with few faulty members,
/// so that each correct member that starts again has all that it sent to correct members. Then the
/// exports of correct members, each of what it never lost, have the verdict Clean.
// promise: no lie
pub fn exports_stay_clean()
    ensures { ExportsStayClean }
{
    headline_of_restarts();
    exports_are_clean();
}

/// States that the exports of members of a world have the verdict Clean, after any events that
/// `run_world` answers with a world. They may be exports after all events or after the first of
/// them.
// promise: clean exports
pub fn exports_of_worlds_are_clean()
    ensures { WorldExportsAreClean }
{
    forged_is_told();
    sizes_of_sets();
    exports_are_clean();
}

/// States that a group ledger belongs to correct members. Take any actions in a group with few
/// faulty members, and exports with a group ledger. Those of correct members are their own, each at
/// any moment. Then each list of the ledger is a prefix of a correct member's list. If no action is
/// a forged frame, every correct member that accepted everything has settled what the ledger has
/// settled.
// promise: book of correct members
pub fn book_is_of_correct_members()
    ensures lists { BookIsOfCorrectMembers }
    ensures settled { BookIsSettledByAll }
{
    book_is_vouched_for();
    settled_entries_grow();
    lists_by_actions();
}

/// States that member 0 may lose a value that it submitted and sent to nobody.
pub fn nothing_was_told()
    ensures fair { IsFair setting_of_four ask_steps (Restarts 0 0) }
    ensures lost { history_by_steps setting_of_four (ask_steps ++ Restarts 0 0 ∷ []) 0 ≡ [] }
{}

/// States that after member 1 received a value of member 0, member 0 may start again with the
/// value, and not without it.
pub fn one_was_told()
    ensures kept { IsFair setting_of_four told_steps (Restarts 0 1) }
    ensures lost { IsFair setting_of_four told_steps (Restarts 0 0) → ⊥ }
{}

/// States that two correct members receive two values under one number, if member 0 starts again
/// without its value.
pub fn two_values_of_one_member()
    ensures one { history_by_steps setting_of_four (told_steps ++ asked_again) 1
        ≡ From 0 (body_of Send 0 0 A) ∷ [] }
    ensures two { history_by_steps setting_of_four (told_steps ++ asked_again) 2
        ≡ From 0 (body_of Send 0 0 B) ∷ [] }
{}

/// States that member 0 has its submitted value in its list, if it starts again with it.
pub fn member_with_its_ask()
    ensures list { own_list with_its_ask ≡ A ∷ [] }
    ensures asked { own_asks with_its_ask ≡ A ∷ [] }
{}

/// States that member 0 has the evidence that it lost state, if it starts again without its value
/// and submits another.
pub fn member_without_its_ask()
    ensures list { own_list without_its_ask ≡ A ∷ [] }
    ensures asked { own_asks without_its_ask ≡ B ∷ [] }
    ensures evidence { HasForgotten (group_at setting_of_four 0)
        (history_by_steps setting_of_four without_its_ask 0) }
{}

/// States that member 3 is cleared by claims of two bodies if it began with two, and has lost state
/// if it began with none. All premises hold.
pub fn new_claims_are_noted()
    ensures few { HasFewFaulty setting_of_four }
    ensures fair { AreFair setting_of_four (steps_in (all_around new_claims)) }
    ensures unforged { AreUnforged setting_of_four (all_around new_claims) }
    ensures fresh { HasFreshNonce setting_of_four new_claims }
    ensures delivered { delivered_by_0 new_claims ≡ Some A }
    ensures noted { ComparesNoted setting_of_four new_claims (began_with 2 2) }
    ensures released { standing_of (began_with 2 2) ≡ Free }
    ensures noted_by_old { ComparesNoted setting_of_four new_claims (began_with 0 2) }
    ensures lost { standing_of (began_with 0 2) ≡ Forgotten }
{}

/// States that recorded claims, which members 0 and 1 made before they accepted anything, clear a
/// copy of member 3 that lacks a delivered value. No claim is forged, but the nonce isn't fresh.
pub fn recorded_claims_are_noted()
    ensures fair { AreFair setting_of_four (steps_in (all_around recorded_claims)) }
    ensures unforged { AreUnforged setting_of_four (all_around recorded_claims) }
    ensures stale { HasFreshNonce setting_of_four recorded_claims → ⊥ }
    ensures delivered { delivered_by_0 recorded_claims ≡ Some A }
    ensures noted { ComparesNoted setting_of_four recorded_claims (began_with 0 0) }
    ensures released { standing_of (began_with 0 0) ≡ Free }
    ensures lacking { IsTakenAmong setting_of_four (all_around recorded_claims) 3 0
        (body_of Send 3 0 A) → ⊥ }
{}
