//! Laws between members. The functions do nothing, or only name the laws that their proofs need:
//! their contracts are the laws.

ghost use Rattle.std.specs.Prelude.{◌≡◌, ◌<◌, ◌↔◌, length};
ghost use Rattle.pay_world.specs.ActionLaws.{NoHistoryAtFirst, HistoryByOneMore, HistoriesGrow};
ghost use Rattle.pay_world.specs.ActionLaws.{LegalHistoryByActions, NoActionIsGenuine};
ghost use Rattle.pay_world.specs.ActionLaws.{GenuineByOneMore, PrefixIsGenuine, GenuineByPlace};
ghost use Rattle.pay_world.specs.ActionLaws.{CorrectIsTold, ForgedIsTold, NoneForgedIsTold};
ghost use Rattle.pay_world.specs.Below.{Below, OfBooks};
ghost use Rattle.pay_world.specs.HeadlineLaws.{HeadlineHolds, BooksConverge, NoListForks};
ghost use Rattle.pay_world.specs.HeadlineLaws.{ListWasAsked, ListStays, ListsAreEqual};
ghost use Rattle.pay_world.specs.HeadlineLaws.{ListIsComplete, SettledValuesMakeBeginning};
ghost use Rattle.pay_world.specs.HeadlineLaws.{NoSettledValueForks, SettledValuesStay};
ghost use Rattle.pay_world.specs.HeadlineLaws.{SettledValuesWereAsked};
ghost use Rattle.pay_world.specs.Liars.{LiarFields, AreMembers, LiarsAreDistinct, AreLiars};
ghost use Rattle.pay_world.specs.Liars.{liar_fault};
ghost use Rattle.pay_world.specs.NoticeLaws.{ListenerDelivers, ListedIsNoticed, DeliveredIsNoticed};
ghost use Rattle.pay_world.specs.RunLaws.{AnsweredIsUnforged, HistoryIsLegal, LegalHistoryByEvents};
ghost use Rattle.pay_world.specs.RunLaws.{NoEventsMakeFresh, SaidIsForged, WorldByOneMore};
ghost use Rattle.pay_world.specs.StandLaws.{StandsAtFirst, StandsByOneMore, StandsByAction};
ghost use Rattle.pay_world.specs.StandLaws.{GenuineStands, Agreement, StandingListsCompare};
ghost use Rattle.pay_world.specs.StandLaws.{Integrity, ListIsAsked, NothingIsTakenBack};
ghost use Rattle.pay_world.specs.StandLaws.{Convergence, ListsConverge, AsksAreDelivered};
ghost use Rattle.pay_world.specs.StandLaws.{ListIsAllAsked};

use crate::liars::LiarFault;
use pay_book::laws::{
    book_keeps_total, equal_lists_equal_books, nobody_owes_once_settled, settled_book_exists,
    settled_entries_compare, settled_entries_grow, settled_entries_were_asked, settled_is_largest,
    settled_values,
};
use pay_channel::laws::{
    delivered_for_good, grow_at_the_end, lists_are_delivered, lists_compared, lists_grow,
    nothing_at_first, one_event_more, sends_are_asks, taken_in_order, votes_are_taken,
    what_is_sent,
};
use pay_echo::laws::{
    members_of_sets, nobody_leaves, nothing_known_at_first, quorums_can_form, quorums_share,
    sizes_of_sets, votes_came, why_known,
};
use pay_member::laws::{events_in_order, legal_histories, what_is_brought, what_opens};

// States the laws of one broadcast and of one member's channel that the laws between members need.
fn laws_below()
    ensures { Below }
{
    nothing_known_at_first();
    nobody_leaves();
    members_of_sets();
    votes_came();
    why_known();
    sizes_of_sets();
    quorums_share();
    quorums_can_form();
    nothing_at_first();
    one_event_more();
    grow_at_the_end();
    votes_are_taken();
    taken_in_order();
    what_is_sent();
    sends_are_asks();
    delivered_for_good();
    lists_compared();
    lists_grow();
}

// States the laws of settling that the laws between members need.
fn laws_of_books()
    ensures { OfBooks }
{
    settled_book_exists();
    settled_is_largest();
    nobody_owes_once_settled();
    book_keeps_total();
    equal_lists_equal_books();
    settled_entries_grow();
    settled_entries_compare();
    settled_entries_were_asked();
}

/// States that each member's history is what it accepted of the actions, one after the other. It
/// grows at its end, by at most one event for each action.
pub fn histories_by_actions()
    ensures first { NoHistoryAtFirst }
    ensures one_more { HistoryByOneMore }
    ensures grow { HistoriesGrow }
{}

/// States that a history that a member can have, without queries, is the one by its submitted
/// values and frames as actions. Each of them counts after those before it, whoever is faulty.
pub fn legal_history_by_actions()
    ensures { LegalHistoryByActions }
{
    events_in_order();
    legal_histories();
}

/// States that actions are genuine up to the first that isn't. This is equivalent to a statement
/// about each place in their list.
pub fn genuine_actions()
    ensures first { NoActionIsGenuine }
    ensures one_more { GenuineByOneMore }
    ensures prefix { PrefixIsGenuine }
    ensures by_place { GenuineByPlace }
{}

/// States that the tests say which members are correct, which action is genuine after those before
/// it, and whether all actions are.
// promise: world's step
pub fn forged_is_told()
    ensures correct { CorrectIsTold }
    ensures forged { ForgedIsTold }
    ensures none { NoneForgedIsTold }
{}

/// States that authenticity and the rule of READY hold between correct members at first. They hold
/// after one more event, after one more genuine action, and so after any genuine actions.
// promise: whole lists
pub fn correct_members_stand()
    ensures first { StandsAtFirst }
    ensures one_more { StandsByOneMore }
    ensures action { StandsByAction }
    ensures genuine { GenuineStands }
{
    laws_below();
}

/// States that two correct members, each at any moment, deliver no two values under one number of
/// one account. So one of their lists of an account is a prefix of the other.
// promise: whole lists
pub fn correct_members_agree()
    ensures values { Agreement }
    ensures lists { StandingListsCompare }
{
    laws_below();
}

/// States that the owner submitted what a correct member delivers of a correct owner, under that
/// number.
// promise: whole lists
pub fn nothing_is_invented()
    ensures value { Integrity }
    ensures list { ListIsAsked }
{
    laws_below();
}

/// States that a member's lists at an earlier moment are prefixes of its later lists.
pub fn nothing_is_taken_back()
    ensures { NothingIsTakenBack }
{
    laws_below();
}

/// States what holds if each correct member accepted all that the other correct members sent. All
/// of them delivered equal values, and all that correct owners submitted.
// promise: convergence
pub fn all_converge()
    ensures deliveries { Convergence }
    ensures lists { ListsConverge }
    ensures asks { AsksAreDelivered }
    ensures all { ListIsAllAsked }
{
    laws_below();
}

/// States how lost state is noticed, if each correct member accepted all of the others. A member
/// that accepted all that they sent delivered what any of them delivered, even if it is faulty. So
/// a member that lost state finds the evidence: its own list has a value that it didn't submit,
/// because another lists that value for its account.
// promise: forgetting
pub fn forgetting_is_noticed()
    ensures listener { ListenerDelivers }
    ensures listed { ListedIsNoticed }
    ensures delivered { DeliveredIsNoticed }
{
    laws_below();
    lists_are_delivered();
}

/// States the safety theorem, for any actions without a forged frame, in a group with few faulty
/// members. Correct members never settle different payments of one account. What a member settled
/// stays settled, and of a correct owner it is what the owner submitted. Each ledger is at the
/// largest front of its member's lists. No balance is below zero there, no money was made or lost,
/// and equal lists give equal ledgers.
// promise: agreement
pub fn headline()
    ensures { HeadlineHolds }
{
    laws_below();
    laws_of_books();
}

/// States that all ledgers of correct members are equal if each correct member accepted all that
/// the other correct ones sent.
// promise: convergence
pub fn books_converge()
    ensures { BooksConverge }
{
    laws_below();
    laws_of_books();
}

/// States the theorem for whole lists. No two correct members' lists of an account fork, and
/// nothing in them is invented or taken back. If everything was accepted, the lists are equal and
/// have all that correct owners submitted.
// promise: whole lists (no_fork, asked, stays); convergence (equal, complete)
pub fn lists_by_actions()
    ensures no_fork { NoListForks }
    ensures asked { ListWasAsked }
    ensures stays { ListStays }
    ensures equal { ListsAreEqual }
    ensures complete { ListIsComplete }
{
    laws_below();
}

/// States the theorem for wholly settled values, including void ones. Their entries are the first
/// of the settled entries. Of two correct members' settled values of an account, one list is a
/// prefix of the other, and no value is taken back. A correct owner submitted them, in that order.
// promise: whole lists
pub fn settled_values_by_actions()
    ensures entries { SettledValuesMakeBeginning }
    ensures agree { NoSettledValueForks }
    ensures for_good { SettledValuesStay }
    ensures asked { SettledValuesWereAsked }
{
    laws_below();
    settled_values();
}

/// States that a list of faulty members has no fault exactly if it keeps the limits. Each fault
/// comes exactly if its own cause holds and no earlier one.
pub fn liar_causes()
    ensures none { (l : LiarFields) → (liar_fault l ≡ None) ↔ AreLiars l }
    ensures unknown { (l : LiarFields) → (liar_fault l ≡ Some LiarFault.Unknown)
        ↔ ¬ (AreMembers l) }
    ensures twice { (l : LiarFields) → (liar_fault l ≡ Some LiarFault.Twice)
        ↔ (AreMembers l × ¬ (LiarsAreDistinct l)) }
    ensures too_many { (l : LiarFields) → (liar_fault l ≡ Some LiarFault.TooMany)
        ↔ (AreMembers l × LiarsAreDistinct l × (l.faults < length l.liars)) }
{}

/// States that a new world is that of a group without events. A world that answered one more event
/// is that after the earlier events and this one.
// promise: world's step
pub fn world_by_events()
    ensures first { NoEventsMakeFresh }
    ensures one_more { WorldByOneMore }
{
    histories_by_actions();
    genuine_actions();
    forged_is_told();
}

/// States that a correct member's history, whatever happens to the group in bytes, is one that a
/// member can have. Each such history is the one by the member's own submitted values and its
/// frames' bytes.
// promise: world's step
pub fn legal_history_by_events()
    ensures legal { HistoryIsLegal }
    ensures own { LegalHistoryByEvents }
{
    events_in_order();
    legal_histories();
    what_opens();
    what_is_brought();
    legal_history_by_actions();
}

/// States that an event which a world answers isn't forged. An event that it reports as forged is,
/// with the count of the events answered before.
// promise: world's step
pub fn what_is_forged()
    ensures answered { AnsweredIsUnforged }
    ensures said { SaidIsForged }
{}
