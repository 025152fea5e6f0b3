//! The laws of settling. The functions do nothing: their contracts are the laws.

ghost use Rattle.pay_book.specs.Laws.{ReachedFrontsJoin, StuckIsLargest, LargestIsStuck};
ghost use Rattle.pay_book.specs.Laws.{LargestIsOne, LargestIsComputed, ReachedIsWithinLists};
ghost use Rattle.pay_book.specs.Laws.{NoBalanceBelowZero, BalancesSumToOpening};
ghost use Rattle.pay_book.specs.Laws.{ReachedStaysReached, LargestGrows, EqualListsEqualLargest};
ghost use Rattle.pay_book.specs.Laws.{EqualListsEqualBalances, EqualListsEqualBooks};
ghost use Rattle.pay_book.specs.Laws.{FreshBookIsSettled, GrownListCanSettle, SameListsStaySettled};
ghost use Rattle.pay_book.specs.Laws.{FewEntriesAreCountable, ShortListsAreCountable};
ghost use Rattle.pay_book.specs.Laws.{GroupListsAreCountable, NotesAreRead, NotesAreVoid};
ghost use Rattle.pay_book.specs.Laws.{ValuesHaveFewEntries, SettledBookExists, SettledBookIsOne};
ghost use Rattle.pay_book.specs.Laws.{SettledIsLargest, BookKeepsTotal, NobodyOwesOnceSettled};
ghost use Rattle.pay_book.specs.Laws.{AllGrowWithOneList, BookStays, SettledCountGrows};
ghost use Rattle.pay_book.specs.Laws.{SettledEntriesGrow, SettledEntriesCompare};
ghost use Rattle.pay_book.specs.Laws.{SettledEntriesWereAsked, ValuesCountTheirEntries};
ghost use Rattle.pay_book.specs.Laws.{SingleEntries, WhollySettled, SettledBookTellsPlaces};
ghost use Rattle.pay_book.specs.Laws.{SettledPlacesGrow, SettledValuesBeginEntries};
ghost use Rattle.pay_book.specs.StepLaws.{StepSettlesOne, StepPaysWithin, OthersMayNoMore};
ghost use Rattle.pay_book.specs.StepLaws.{StuckBookIsSettled, SettledAreListed};

/// States that two reached fronts have a common one: the front that is as far as either at each
/// account is reached too.
pub fn reached_fronts_join()
    ensures { ReachedFrontsJoin }
{}

/// States that no order of settling matters. If steps have led to a front at which no account may
/// step, it is the largest front.
pub fn stuck_is_largest()
    ensures { StuckIsLargest }
{}

/// States that at the largest front no account may step.
pub fn largest_is_stuck()
    ensures { LargestIsStuck }
{}

/// States that there is one largest front.
pub fn largest_is_one()
    ensures { LargestIsOne }
{}

/// States that there is a largest front, with a place for each account, and that `largest_front`
/// computes it.
pub fn largest_is_computed()
    ensures { LargestIsComputed }
{}

/// States that a reached front is nowhere past a list's end.
pub fn reached_is_within_lists()
    ensures { ReachedIsWithinLists }
{}

/// States that at a reached front no balance is below zero.
pub fn no_balance_below_zero()
    ensures { NoBalanceBelowZero }
{}

/// States that the balances at any front sum to what all accounts opened with.
pub fn balances_sum_to_opening()
    ensures { BalancesSumToOpening }
{}

/// States that a reached front stays reached when lists grow at their ends.
pub fn reached_stays_reached()
    ensures { ReachedStaysReached }
{}

/// States that the largest front never moves back when lists grow at their ends.
pub fn largest_grows()
    ensures { LargestGrows }
{}

/// States that equal lists of the accounts have equal largest fronts.
pub fn equal_lists_equal_largest()
    ensures { EqualListsEqualLargest }
{}

/// States that equal lists of the accounts have equal balances at a front.
pub fn equal_lists_equal_balances()
    ensures { EqualListsEqualBalances }
{}

/// States that ledgers with equal opening balances are equal if they have settled all they can over
/// equal lists.
pub fn equal_lists_equal_books()
    ensures { EqualListsEqualBooks }
{}

/// States that a new ledger is settled as long as nothing is listed.
// promise: settling
pub fn fresh_book_is_settled()
    ensures { FreshBookIsSettled }
{}

/// States that a settled ledger can settle again after one owner's list grew at its end.
// promise: settling
pub fn grown_list_can_settle()
    ensures { GrownListCanSettle }
{}

/// States that a settled ledger is settled as long as the lists of its accounts are unchanged.
// promise: settling
pub fn same_lists_stay_settled()
    ensures { SameListsStaySettled }
{}

/// States when lists are countable. No account's list has more than some number of entries, and the
/// accounts times that number are fewer than 2^32.
pub fn few_entries_are_countable()
    ensures { FewEntriesAreCountable }
{}

/// States that lists of a bounded number of values are countable, if each value has few entries.
pub fn short_lists_are_countable()
    ensures { ShortListsAreCountable }
{}

/// States that every group's lists are countable: at most `MOST_MEMBERS` accounts have at most
/// `SEQS` values each.
// promise: settling
pub fn group_lists_are_countable()
    ensures { GroupListsAreCountable }
{}

/// States that a value has no more entries than `most_entries`.
pub fn values_have_few_entries()
    ensures { ValuesHaveFewEntries }
{}

/// States that a note is one void entry in every list and group, so fronts and balances pass over
/// it.
// promise: notes
pub fn notes_move_nothing()
    ensures { NotesAreVoid }
{}

/// States that the text read from a note is the text that it was made of. From any other value
/// nothing is read.
// promise: notes
pub fn notes_are_read()
    ensures { NotesAreRead }
{}

/// States that over any lists there is a ledger that has settled all it can, and that
/// `settled_book` computes it.
// promise: one book
pub fn settled_book_exists()
    ensures { SettledBookExists }
{}

/// States that every ledger that has settled all it can is the computed one.
// promise: one book
pub fn settled_book_is_one()
    ensures { SettledBookIsOne }
{}

/// States that the front of a ledger that has settled all it can is the largest.
pub fn settled_is_largest()
    ensures { SettledIsLargest }
{}

/// States that a ledger's balances sum to what all accounts opened with.
pub fn book_keeps_total()
    ensures { BookKeepsTotal }
{}

/// States that no balance is below zero in a ledger that has settled all it can.
pub fn nobody_owes_once_settled()
    ensures { NobodyOwesOnceSettled }
{}

/// States that if one owner's list grew at its end and no other list changed, all accounts' lists
/// grew at their ends.
pub fn one_list_grows()
    ensures { AllGrowWithOneList }
{}

/// States that a ledger stays at a reached front, with the balances there, while lists grow at
/// their ends.
pub fn book_stays()
    ensures { BookStays }
{}

/// States that no fewer entries are settled in all when lists grow at their ends.
pub fn settled_count_grows()
    ensures { SettledCountGrows }
{}

/// States that an account's settled entries stay, and others follow them, when lists grow at their
/// ends.
pub fn settled_entries_grow()
    ensures { SettledEntriesGrow }
{}

/// States that if one of two lists of an account is a prefix of the other, so are the entries that
/// are settled of them. The other accounts' lists make no difference.
pub fn settled_entries_compare()
    ensures { SettledEntriesCompare }
{}

/// States that the settled entries of an account come from the values that its owner submitted. If
/// the account's list is a prefix of these values, the settled entries are a prefix of their
/// entries.
pub fn settled_entries_were_asked()
    ensures { SettledEntriesWereAsked }
{}

/// States that a value has as many entries as `count_in` says, whoever owns it.
// promise: payments
pub fn values_count_their_entries()
    ensures { ValuesCountTheirEntries }
{}

/// States that without values of several payments each value is one entry. Fronts, balances and
/// statements are then what they were before such values existed.
pub fn single_entries()
    ensures { SingleEntries }
{}

/// States that an account's place says how many of its values are wholly settled, and how far the
/// next value is.
// promise: statements
pub fn wholly_settled()
    ensures { WhollySettled }
{}

/// States which values are wholly settled. A ledger that has settled all it can says how many they
/// are. As lists grow they are no fewer, and their entries are settled.
pub fn settled_values()
    ensures told { SettledBookTellsPlaces }
    ensures grow { SettledPlacesGrow }
    ensures entries { SettledValuesBeginEntries }
{}

/// States that a step settles one more entry, which pays an existing account, if it pays. Another
/// account may settle no more than before, unless the entry pays it.
pub fn what_a_step_does()
    ensures one_more { StepSettlesOne }
    ensures payee { StepPaysWithin }
    ensures others { OthersMayNoMore }
{}

/// States that a ledger has settled all it can if no account may step.
pub fn stuck_book_is_settled()
    ensures { StuckBookIsSettled }
{}

/// States that no more entries are settled than are listed.
pub fn settled_are_listed()
    ensures { SettledAreListed }
{}
