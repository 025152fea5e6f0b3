//! What is wrong with several exports, if anything is. The first finding is the verdict.

ghost use Rattle.std.specs.Prelude.{◌≡◌, ◌≤◌, length, IfOk, is_some, ◌<◌};
ghost use Rattle.std.specs.List.{list_any};
ghost use Rattle.pay_audit.specs.Compared.{lengths_of, differences_of};
ghost use Rattle.pay_audit.specs.Export.{list_in, lists_of};
ghost use Rattle.pay_audit.specs.Verdict.{book_of, first_from, fork_place, other_genesis};
ghost use Rattle.pay_audit.specs.Verdict.{other_genesis_at, verdict_of, wrong_balance_of};
ghost use Rattle.pay_audit.specs.Verdict.{wrong_front_of};
ghost use Rattle.pay_frame.specs.declared.limits.TheConstants.{MOST_MEMBERS};

use crate::auditor::Auditor;
use crate::exported::{Export, OwnerList};
use pay_book::Settle;
use pay_book::laws::{
    fresh_book_is_settled, group_lists_are_countable, grown_list_can_settle,
    same_lists_stay_settled, settled_book_is_one,
};
use pay_channel::Source;
use pay_link::Genesis;
use std::alloc::{AllocError, Global};
use std::fmt;
use std::marker::Model;

/// What is wrong with exports, which are named by their places from 0. A verdict is the first kind
/// of fault that occurs, and within it the least case in the order of its words.
#[derive(Clone, Copy, Debug, PartialEq, Eq)]
pub enum Verdict {
    Clean,
    /// An export has another genesis than export 0.
    OtherGenesis {
        export: usize,
    },
    /// The front of an account isn't the one that the export's lists allow.
    WrongFront {
        export: usize,
        account: u16,
    },
    /// The balance of an account isn't that of the entries that the export claims as settled.
    WrongBalance {
        export: usize,
        account: u16,
    },
    /// Two exports have different values at one place of an owner's list.
    Fork {
        one: usize,
        other: usize,
        owner: u16,
        seq: u32,
    },
}

impl fmt::Display for Verdict {
    ghost use Rattle.std.specs.Prelude.{Some};
    ghost use Rattle.pay_audit.specs.Verdict.{verdict_words};

    ghost output = { λ verdict. Some (verdict_words verdict) };

    fn fmt<W: fmt::Write>(&self, f: &mut fmt::Formatter<W>) -> fmt::Result {
        match self {
            Verdict::Clean => write!(f, "clean"),
            Verdict::OtherGenesis { export } => write!(f, "1 genesis {export}"),
            Verdict::WrongFront { export, account } => write!(
                f,
                "2 front {export} account {account}"
            ),
            Verdict::WrongBalance { export, account } => write!(
                f,
                "3 balance {export} account {account}"
            ),
            Verdict::Fork {
                one,
                other,
                owner,
                seq,
            } => write!(f, "4 fork {one} {other} owner {owner} seq {seq}"),
        }
    }
}

/// The lengths of an export's lists, account by account.
#[derive(Debug, Drop)]
pub(crate) struct Lengths {
    lengths: Vec<u32>,
}

impl Model for Lengths {
    ghost use Rattle.std.specs.Prelude.{◌≤◌, ℕ, List, length};
    ghost use Rattle.pay_frame.specs.declared.limits.TheConstants.{MOST_MEMBERS};

    ghost Value = { List ℕ };

    ghost view = { λ l. l.lengths.items };

    ghost invariant = { λ l. length l.lengths.items ≤ MOST_MEMBERS };
}

impl Lengths {
    pub(crate) fn of(alloc: Global, lists: &[OwnerList]) -> Result<Lengths, AllocError>
        requires { length lists.now ≤ MOST_MEMBERS }
        ensures { IfOk result (λ lengths. lengths ≡ lengths_of lists.now) }
    {
        let lengths = lists.iter().map(|list| list.len()).collect(alloc)?;
        Ok(Lengths { lengths })
    }

    pub(crate) fn as_slice(&self) -> &[u32]
        ensures value { result.now ≡ self.now }
        ensures limit { length self.now ≤ MOST_MEMBERS }
    {
        self.lengths.as_slice()
    }
}

/// The places at which an export's lists first differ from others, account by account.
#[derive(Debug, Drop)]
pub(crate) struct Differences {
    places: Vec<Option<u32>>,
}

impl Model for Differences {
    ghost use Rattle.std.specs.Prelude.{ℕ, List, Option};

    ghost Value = { List (Option ℕ) };

    ghost view = { λ d. d.places.items };
}

impl Differences {
    pub(crate) fn of(
        alloc: Global,
        longest: &[OwnerList],
        lists: &[OwnerList],
    ) -> Result<Differences, AllocError>
        ensures { IfOk result (λ differences.
            differences ≡ differences_of longest.now lists.now) }
    {
        let places = longest
            .iter()
            .zip(lists.iter())
            .map(|(one, other)| fork_place(one, other))
            .collect(alloc)?;
        Ok(Differences { places })
    }

    /// Returns whether any list differs.
    pub(crate) fn is_any(&self) -> bool
        ensures { result ≡ list_any is_some self.now }
    {
        self.places.iter().any(|place| place.is_some())
    }

    pub(crate) fn as_slice(&self) -> &[Option<u32>]
        ensures { result.now ≡ self.now }
    {
        self.places.as_slice()
    }
}

/// The lists of the first owners, and no lists of the others: a ledger settles after one list grew.
#[derive(Drop)]
struct FirstLists<'a> {
    lists: &'a [OwnerList],
}

impl Source for FirstLists<'_> {
    ghost lists = { λ shown. list_in shown.lists.now };

    fn length(&self, owner: u16) -> u32 {
        match self.lists.get(usize::from(owner)) {
            Some(list) => list.len(),
            None => 0,
        }
    }

    fn at(&self, owner: u16, k: u32) -> &[u8] {
        self.lists[usize::from(owner)].at(k)
    }
}

/// Returns a ledger that settled all that the lists of `export` allow, whatever its own front and
/// balances are.
// promise: statements of exports
pub fn settle_export<B: Settle + Drop>(alloc: Global, export: &Export) -> Result<B, AllocError>
    ensures { IfOk result (λ book. B.shows book ≡ book_of export.now) }
{
    fresh_book_is_settled();
    group_lists_are_countable();
    grown_list_can_settle();
    same_lists_stay_settled();
    settled_book_is_one();
    let mut book = B::new(alloc, &export.genesis)?;
    for owner in 0..export.genesis.members() {
        let shown = FirstLists {
            lists: &export.lists[..usize::from(owner) + 1],
        };
        book.settle(&shown, owner);
    }
    Ok(book)
}

/// Returns what is wrong with `exports`, if anything is: the verdict of an auditor that accepts
/// them one after the other.
// promise: order of refusals; audits
pub fn audit(alloc: Global, exports: &[Export]) -> Result<Verdict, AllocError>
    ensures { IfOk result (λ verdict. verdict ≡ verdict_of exports.now) }
{
    let auditor = Auditor::of(alloc, exports)?;
    Ok(auditor.verdict())
}

/// Returns the first of `exports` that has another genesis than the first of all.
// promise: group's book
pub fn other_genesis(exports: &[Export]) -> Option<Verdict>
    ensures { result ≡ other_genesis exports.now }
{
    let first = exports.first()?;
    other_than(&first.genesis, exports)
}

fn other_than(genesis: &Genesis, exports: &[Export]) -> Option<Verdict>
    ensures { result ≡ first_from (other_genesis_at genesis.now) 0 exports.now }
{
    for (place, export) in exports.iter().enumerate() {
        let other = other_genesis_at(genesis, place, export);
        if other.is_some() {
            return other;
        }
    }
    None
}

// Returns this export's verdict, if it has another genesis.
pub(crate) fn other_genesis_at(genesis: &Genesis, place: usize, export: &Export) -> Option<Verdict>
    ensures { result ≡ other_genesis_at genesis.now place export.now }
{
    if genesis.is_same(&export.genesis) {
        None
    } else {
        Some(Verdict::OtherGenesis { export: place })
    }
}

// Returns the first account with a front that isn't that of `book`.
#[tactic(auto, unfolding(crate::specs::Verdict::wrong_front_of))]
pub(crate) fn wrong_front_of<B: Settle>(export: &Export, book: &B) -> Option<u16>
    requires { B.shows book.now ≡ book_of export.now }
    ensures { result ≡ wrong_front_of export.now }
{
    for (account, front) in export.front.iter().enumerate() {
        if *front != u64::from(book.front(account as u16)) {
            return Some(account as u16);
        }
    }
    None
}

// Returns the first account with a balance that isn't that of `book`.
#[tactic(auto, unfolding(crate::specs::Verdict::wrong_balance_of))]
pub(crate) fn wrong_balance_of<B: Settle>(export: &Export, book: &B) -> Option<u16>
    requires { B.shows book.now ≡ book_of export.now }
    ensures { result ≡ wrong_balance_of export.now }
{
    for (account, balance) in export.balances.iter().enumerate() {
        if *balance != book.balance(account as u16) {
            return Some(account as u16);
        }
    }
    None
}

/// Returns the first place at which the lists of `account` in two exports both have a value and
/// differ.
// promise: group's book
pub fn difference_at(one: &Export, other: &Export, account: u16) -> Option<u32>
    requires one { account < one.now.genesis.members }
    requires other { account < other.now.genesis.members }
    ensures { result ≡ fork_place (lists_of one.now account) (lists_of other.now account) }
{
    let account = usize::from(account);
    fork_place(&one.lists[account], &other.lists[account])
}

// Returns the first place at which two lists both have a value and differ.
#[tactic(auto, unfolding(crate::specs::Verdict::fork_place))]
pub(crate) fn fork_place(one: &OwnerList, other: &OwnerList) -> Option<u32>
    ensures { result ≡ fork_place one.now other.now }
{
    for place in 0..one.len().min(other.len()) {
        if one.at(place) != other.at(place) {
            return Some(place);
        }
    }
    None
}
