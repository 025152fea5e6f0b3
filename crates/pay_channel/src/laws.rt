//! Laws of a history's votes, sent list and lists, and a worked example of them. The functions do
//! nothing: their contracts are the laws.

ghost use Rattle.std.specs.Prelude.{◌≡◌, [], ◌∷◌, ◌++◌, All};
ghost use Rattle.pay_channel.specs.Asked.{asked_values, sends_in, sends_of};
ghost use Rattle.pay_channel.specs.Examples.{four, forestalled_ask, late_first_number, A, X, Y};
ghost use Rattle.pay_channel.specs.FollowLaws.{ChannelFollows, UnchangedFollows, ValuesFollow};
ghost use Rattle.pay_channel.specs.FollowLaws.{ListsFollow, AnswersFollow, FollowersAreAlike};
ghost use Rattle.pay_channel.specs.FollowLaws.{LiesFollow, ListsOfAreShort, UnchangedLists};
ghost use Rattle.pay_channel.specs.History.{IsEvent, Ask, From, body_of, votes, out, delivered_at};
ghost use Rattle.pay_channel.specs.History.{list_of};
ghost use Rattle.pay_channel.specs.ListLaws.{DeliveredIs, NothingDeliveredAtFirst, DeliveryStays};
ghost use Rattle.pay_channel.specs.ListLaws.{DeliveredCame, PlaceIsValue, PlaceIsDelivered};
ghost use Rattle.pay_channel.specs.ListLaws.{ListedIsDelivered, ListIsShort, ListReaches, ListEnds};
ghost use Rattle.pay_channel.specs.ListLaws.{EmptyAtFirst, EmptyOfNobody, ListIsValues};
ghost use Rattle.pay_channel.specs.ListLaws.{ListBeginsValues, ListsAlike, ListsCompare, ListsGrow};
ghost use Rattle.pay_channel.specs.ListLaws.{OneListGrows};
ghost use Rattle.pay_channel.specs.SentLaws.{NothingSentAtFirst, OutByOneMore, OutGrows, EchoInOut};
ghost use Rattle.pay_channel.specs.SentLaws.{ReadyInOut, EchoIsSaid, ReadyIsSaid, SentMayCome};
ghost use Rattle.pay_channel.specs.SentLaws.{NothingAskedAtFirst, AskedByOneMore, AskedGrows};
ghost use Rattle.pay_channel.specs.SentLaws.{AsksAreCounted, SendsAreAsks, SendInOut, SentIsAsked};
ghost use Rattle.pay_channel.specs.SentLaws.{OwnEchoIsAsk};
ghost use Rattle.pay_channel.specs.TakenLaws.{NothingTakenAtFirst, TakenByOneMore, TakenFromHere};
ghost use Rattle.pay_channel.specs.TakenLaws.{TakenFromElsewhere, TakenGrows, TakenIsFrom};
ghost use Rattle.pay_channel.specs.TakenLaws.{NextIsCount, NextByOneMore};
ghost use Rattle.pay_channel.specs.VoteLaws.{NoVotesAtFirst, NoAsksAtFirst, VotesByOneMore};
ghost use Rattle.pay_channel.specs.VoteLaws.{AsksByOneMore, OthersUntouched, VotesGrow};
ghost use Rattle.pay_channel.specs.VoteLaws.{EchoIsTaken, ReadyIsTaken, SendIsTaken};
ghost use Rattle.pay_echo.specs.Broadcast.{echoed};
ghost use Rattle.pay_frame.specs.declared.body.Kind.TheVariants.{Send, Echo, Ready};

use pay_echo::laws::{known_stays, nothing_known_at_first, one_vote_more, votes_came};

/// States that without events nothing is voted, submitted, sent, accepted, delivered or listed.
// promise: votes taken
pub fn nothing_at_first()
    ensures votes { NoVotesAtFirst }
    ensures asks { NoAsksAtFirst }
    ensures asked { NothingAskedAtFirst }
    ensures out { NothingSentAtFirst }
    ensures taken { NothingTakenAtFirst }
    ensures delivered { NothingDeliveredAtFirst }
    ensures lists { EmptyAtFirst }
{
    nothing_known_at_first();
}

/// States what one more event does to a history's votes, submitted values and sent list. The event
/// is a vote in at most one broadcast.
// promise: votes taken
pub fn one_event_more()
    ensures votes { VotesByOneMore }
    ensures asks { AsksByOneMore }
    ensures asked { AskedByOneMore }
    ensures out { OutByOneMore }
    ensures others { OthersUntouched }
{}

/// States that a shorter history's votes and sent list are prefixes of a longer one's.
// promise: growth
pub fn grow_at_the_end()
    ensures votes { VotesGrow }
    ensures out { OutGrows }
{}

/// States that votes are exactly what was accepted. An ECHO or READY of a process is a vote exactly
/// if that process's body is in the history. A SEND in another member's broadcast is a vote exactly
/// if its owner's body is.
// promise: votes taken
pub fn votes_are_taken()
    ensures echo { EchoIsTaken }
    ensures ready { ReadyIsTaken }
    ensures send { SendIsTaken }
{}

/// States what was accepted from a member, in order, after one more event and in a longer history.
/// The next number from the member counts its events.
// promise: growth
pub fn taken_in_order()
    ensures more { TakenByOneMore }
    ensures here { TakenFromHere }
    ensures elsewhere { TakenFromElsewhere }
    ensures grows { TakenGrows }
    ensures is_from { TakenIsFrom }
    ensures count { NextIsCount }
    ensures next { NextByOneMore }
{}

/// States what is sent. The sent list has one ECHO about a broadcast exactly if a value was echoed
/// in it, with that value, and READY likewise. Its bodies may come to any other member of the
/// group.
// promise: what is sent
pub fn what_is_sent()
    ensures echo { EchoInOut }
    ensures ready { ReadyInOut }
    ensures echo_is_said { EchoIsSaid }
    ensures ready_is_said { ReadyIsSaid }
    ensures may_come { SentMayCome }
{
    nothing_known_at_first();
    known_stays();
}

/// States that the SENDs of the sent list are the values that the member submitted, in their order
/// and numbered from 0. There is one SEND for each value and no other. These values are echoed in
/// its own broadcasts.
// promise: what is sent
pub fn sends_are_asks()
    ensures counted { AsksAreCounted }
    ensures sends { SendsAreAsks }
    ensures one { SendInOut }
    ensures sent { SentIsAsked }
    ensures echo { OwnEchoIsAsk }
{
    one_vote_more();
}

/// States that what is delivered in a broadcast is what its votes deliver, and stays so as the
/// history grows. It is the value of an event of the history.
// promise: growth
pub fn delivered_for_good()
    ensures is { DeliveredIs }
    ensures stays { DeliveryStays }
    ensures came { DeliveredCame }
{
    known_stays();
    nothing_known_at_first();
    one_vote_more();
}

/// States what an account's list is in terms of deliveries. It has a place exactly if all numbers
/// up to it are delivered, and there it has the delivered value. So it ends at the first number
/// without one.
// promise: lists
pub fn lists_are_delivered()
    ensures values { PlaceIsValue }
    ensures place { PlaceIsDelivered }
    ensures listed { ListedIsDelivered }
    ensures short { ListIsShort }
    ensures reaches { ListReaches }
    ensures ends { ListEnds }
    ensures nobody { EmptyOfNobody }
{}

/// States how lists compare. A list equals given values if the deliveries do, and is a prefix of
/// them if nothing else is delivered. If two members' deliveries never differ, one of their lists
/// is a prefix of the other.
// promise: lists
pub fn lists_compared()
    ensures values { ListIsValues }
    ensures begins { ListBeginsValues }
    ensures alike { ListsAlike }
    ensures compare { ListsCompare }
{}

/// States that a shorter history's submitted values and lists are prefixes of a longer one's. One
/// event can lengthen only the list of the account that it is about.
// promise: growth
pub fn lists_grow()
    ensures asked { AskedGrows }
    ensures many { ListsGrow }
    ensures one { OneListGrows }
{
    known_stays();
}

/// States that a channel which follows a history follows the longer history after one event, and
/// this history if nothing visible changed. Its deliveries, lists, answers and detected protocol
/// violations are those of the history. So nothing distinguishes two channels that follow one
/// history.
// promise: channel's history
pub fn a_channel_follows()
    ensures event { ChannelFollows }
    ensures unchanged { UnchangedFollows }
    ensures values { ValuesFollow }
    ensures lists { ListsFollow }
    ensures answers { AnswersFollow }
    ensures lies { LiesFollow }
    ensures alike { FollowersAreAlike }
{
    votes_came();
    votes_are_taken();
}

/// States that whatever events a channel had, no list of it has more than one value for each
/// number. If nothing visible changed, its lists are unchanged.
pub fn lists_of_a_channel()
    ensures short { ListsOfAreShort }
    ensures unchanged { UnchangedLists }
{}

/// States what is sent to all: READY for each number, and SEND and ECHO of the submitted value. The
/// SEND of account 3 by another member does nothing.
pub fn late_first_number_out()
    ensures { out four late_first_number
        ≡ body_of Ready 3 1 X ∷ body_of Ready 3 0 Y ∷ body_of Send 0 0 A ∷ body_of Echo 0 0 A ∷ [] }
{}

/// States that number 1 is delivered before number 0, and that the list has both, in their order.
pub fn late_first_number_list()
    ensures delivered { delivered_at four late_first_number 3 1 ≡ Some X }
    ensures listed { list_of four late_first_number 3 ≡ Y ∷ X ∷ [] }
    ensures own { list_of four late_first_number 0 ≡ [] }
{}

/// States that one value was submitted: it has the only SEND, and is echoed. A second value gets
/// number 1, and another member's earlier SEND for that number does nothing.
pub fn late_first_number_asked()
    ensures events { All (IsEvent four) late_first_number }
    ensures asked { asked_values late_first_number ≡ A ∷ [] }
    ensures sends { sends_in (out four late_first_number) ≡ body_of Send 0 0 A ∷ [] }
    ensures echo { echoed (votes 0 0 0 late_first_number) ≡ Some A }
    ensures again { asked_values forestalled_ask ≡ A ∷ X ∷ [] }
    ensures numbered { sends_of 0 (A ∷ X ∷ []) ≡ body_of Send 0 0 A ∷ body_of Send 0 1 X ∷ [] }
    ensures forged { echoed (votes 0 0 1 forestalled_ask) ≡ Some X }
{}
