//! Laws of the definitions: what a verdict's parts say about an export. Each function's contract is
//! the law; its body only names the laws below that the proof needs.

ghost use Rattle.pay_audit.specs.Auditor.{VerdictOfTakenIsOne};
ghost use Rattle.pay_audit.specs.OneList.{OneListIsNoFork};
ghost use Rattle.pay_audit.specs.Former.{VerdictIsAsFormer};
ghost use Rattle.pay_audit.specs.FileLaws.{BadGenesisCause, BadJsonCause, BadShapeCause};
ghost use Rattle.pay_audit.specs.Laws.{BalancesAreJudged, ForkIsJudged, FrontIsJudged};
ghost use Rattle.pay_audit.specs.ReadBack.{ExportReadsBack};
ghost use Rattle.pay_audit.specs.Said.{CleanIsJudged, VerdictIsSaid};

use pay_book::laws::{largest_is_computed, largest_is_one, settled_book_exists, single_entries};
use pay_link::laws::genesis_limits;

/// States the faults of an export file. The file isn't JSON exactly if it has no value. It has a
/// wrong shape exactly if its value lacks a part of an export or has a part of another size. It has
/// no genesis exactly if the genesis that it contains is none.
// promise: exports
pub fn export_file_faults()
    ensures json { BadJsonCause }
    ensures shape { BadShapeCause }
    ensures genesis { BadGenesisCause }
{
    genesis_limits();
}

/// States that no account's front is named exactly if the export's front is the largest that steps
/// reach over its own lists.
// promise: audits
pub fn front_is_judged()
    ensures { FrontIsJudged }
{
    largest_is_computed();
    largest_is_one();
}

/// States that after a right front no account's balance is named exactly if the balances are those
/// at that front.
// promise: audits
pub fn balances_are_judged()
    ensures { BalancesAreJudged }
{
    largest_is_computed();
    settled_book_exists();
}

/// States that two exports have no fork exactly if their lists of each account agree at every place
/// that both have.
// promise: audits
pub fn fork_is_judged()
    ensures { ForkIsJudged }
{}

/// States that no two exports fork exactly if each account has one list that begins with every
/// export's.
// promise: audits
pub fn one_list_is_no_fork()
    ensures { OneListIsNoFork }
{}

/// States that the verdict of exports is true: nothing is wrong, or the case that the verdict names
/// is the first of the first kind that occurs. The verdict is Clean exactly if nothing is wrong.
// promise: audits
pub fn verdict_is_judged()
    ensures said { VerdictIsSaid }
    ensures clean { CleanIsJudged }
{
    largest_is_computed();
    largest_is_one();
    settled_book_exists();
}

/// States that exports without values of several payments have the verdict that they had when each
/// value was one payment.
// promise: audits
pub fn verdict_of_single_payments()
    ensures { VerdictIsAsFormer }
{
    single_entries();
}

/// States that all exports that an auditor can have accepted have one verdict. The creation of an
/// auditor shows that there are such exports.
// promise: audits
pub fn verdict_of_taken_is_one()
    ensures { VerdictOfTakenIsOne }
{}

/// States that an export is read back from each text that has the value written for it, if its
/// values fit a frame.
// promise: exports
pub fn export_reads_back()
    ensures { ExportReadsBack }
{
    genesis_limits();
}
