//! Laws of the definitions: of the histories that a member can have, and of what it receives. Each
//! function's contract is the law, and its body only names the laws below that the proof needs.

ghost use Rattle.pay_member.specs.EventLaws.{NoEventsAtFirst, EventsByOneMore};
ghost use Rattle.pay_member.specs.Laws.{NoneIsLegal, LegalByOneMore, PrefixIsLegal};
ghost use Rattle.pay_member.specs.Laws.{LegalEventsMayCome, DeliveredAreValues};
ghost use Rattle.pay_member.specs.Laws.{EventsGrow, SentGrows, ListsOfHistoryGrow};
ghost use Rattle.pay_member.specs.Laws.{SettledStays, FrontsGrow, BookIsSettled};
ghost use Rattle.pay_member.specs.Laws.{TotalIsKept, NobodyOwes, EqualListsEqualBooksAfter};
ghost use Rattle.pay_member.specs.Laws.{OpenedIn, EventIn, BroughtMayCome};
ghost use Rattle.pay_member.specs.OpeningLaws.{WhatOpens};
ghost use Rattle.pay_member.specs.RefusalLaws.{TooLongCause, SpentCause, WrongKeyCause};
ghost use Rattle.pay_member.specs.RefusalLaws.{RepeatCause, GapCause, NoAccountCause};

use pay_book::laws::{
    book_keeps_total, equal_lists_equal_books, largest_grows, nobody_owes_once_settled,
    settled_book_exists, settled_entries_grow,
};
use pay_channel::laws::{delivered_for_good, grow_at_the_end, lists_grow};
use pay_frame::one_frame_is;
use pay_link::laws::judgement_opens;

/// States that the frame authenticated from bytes is all of them. It is for the member, from a
/// peer, about a member's broadcast and with the right tag, and it is no WANT.
pub fn what_opens()
    ensures { WhatOpens }
{
    one_frame_is();
    judgement_opens();
}

/// States that the events of a history come one entry after the other. A query is no event.
pub fn events_in_order()
    ensures first { NoEventsAtFirst }
    ensures one_more { EventsByOneMore }
{}

/// States which histories a member can have. Such a history stays one after one more entry that is
/// owed, and so does each prefix of it. Its events may come to the channel of the member's group,
/// and the delivered values fit a frame.
// promise: histories grow
pub fn legal_histories()
    ensures none { NoneIsLegal }
    ensures more { LegalByOneMore }
    ensures shorter { PrefixIsLegal }
    ensures may_come { LegalEventsMayCome }
    ensures values { DeliveredAreValues }
{
    delivered_for_good();
}

/// States that each refusal comes exactly if its own cause holds and no earlier one.
// promise: member's refusals
pub fn refusal_causes()
    ensures too_long { TooLongCause }
    ensures spent { SpentCause }
    ensures wrong_key { WrongKeyCause }
    ensures repeat { RepeatCause }
    ensures gap { GapCause }
    ensures no_account { NoAccountCause }
{}

/// States that as a history grows, its events, the sent list, each account's list and its settled
/// entries grow only at their ends. No front moves back, so nothing that settled at a member is
/// ever taken back.
// promise: histories grow
pub fn histories_grow()
    ensures events { EventsGrow }
    ensures sent { SentGrows }
    ensures lists { ListsOfHistoryGrow }
    ensures settled { SettledStays }
    ensures fronts { FrontsGrow }
{
    grow_at_the_end();
    lists_grow();
    settled_entries_grow();
    largest_grows();
}

/// States that the ledger of any events has settled all that their lists allow. Its balances sum to
/// what all accounts opened with, no balance is below zero, and equal lists have equal ledgers.
// promise: member's book
pub fn book_of_events()
    ensures settled { BookIsSettled }
    ensures total { TotalIsKept }
    ensures nobody_owes { NobodyOwes }
    ensures equal { EqualListsEqualBooksAfter }
{
    settled_book_exists();
    book_keeps_total();
    nobody_owes_once_settled();
    equal_lists_equal_books();
}

/// States what received bytes are. The frame authenticated from bytes is the one that they are, if
/// the member's keys authenticate it and it is no WANT. It is an event exactly if its number is the
/// next one, and that event may come to the channel of the member's group.
// promise: brought bytes
pub fn what_is_brought()
    ensures opened { OpenedIn }
    ensures event { EventIn }
    ensures may_come { BroughtMayCome }
{
    one_frame_is();
    judgement_opens();
}
