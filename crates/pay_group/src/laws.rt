//! Laws of the definitions. Each function's contract is the law; its body only names the laws that
//! the proof needs.

ghost use Rattle.pay_group.specs.BookLaws.{BookIsOne, BookIsVouchedFor, GroupBookIsSettled};
ghost use Rattle.pay_group.specs.BookLaws.{MembersVouchOnce, NextGenesisIsOne, NoBookOfAFault};
ghost use Rattle.pay_group.specs.ListLaws.{BackedIsListed, BackedIsVouchedFor, ListOrSplit};
ghost use Rattle.pay_group.specs.ListLaws.{NoListOfASplit, OneGroupList};

use pay_book::laws::{book_keeps_total, settled_book_exists, settled_is_largest};

/// States that more lists than there may be faulty members have one group list or a split, never
/// both. There is only one group list.
// promise: group's book
pub fn list_or_split()
    ensures exists { ListOrSplit }
    ensures one { OneGroupList }
    ensures not_both { NoListOfASplit }
{}

/// States that the group's list is a prefix of the list of a correct member, if at most `f` of the
/// members are faulty.
// promise: vouched for
pub fn backed_is_vouched_for()
    ensures { BackedIsVouchedFor }
{}

/// States that what more than `f` lists begin with is a prefix of one of them.
// promise: vouched for
pub fn backed_is_listed()
    ensures { BackedIsListed }
{}

/// States that exports have at most one group ledger, and none if a fault other than lack of memory
/// is named.
// promise: group's book
pub fn book_is_one()
    ensures one { BookIsOne }
    ensures none { NoBookOfAFault }
{
    list_or_split();
}

/// States that members have no more exports than they are, if no two exports belong to one member.
/// This holds for any set of faulty members.
// promise: vouched for
pub fn members_vouch_once()
    ensures { MembersVouchOnce }
{}

/// States that each list of the group ledger is a prefix of the list of a correct member, if at
/// most `f` members are faulty.
// promise: vouched for
pub fn book_is_vouched_for()
    ensures { BookIsVouchedFor }
{
    backed_is_vouched_for();
    members_vouch_once();
}

/// States that a group ledger has settled all that its lists allow.
// promise: group's book
pub fn book_is_settled()
    ensures { GroupBookIsSettled }
{
    settled_book_exists();
    settled_is_largest();
}

/// States that `next_genesis` makes a genesis of a group ledger. Each account opens with its
/// balance, and all together with as much as the group did.
// promise: group's book
pub fn next_genesis_is_one()
    ensures { NextGenesisIsOne }
{
    book_keeps_total();
    settled_book_exists();
}
