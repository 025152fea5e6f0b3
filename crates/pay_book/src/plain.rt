//! What a ledger can do, and the plain ledger. If the owner may settle an entry, the plain ledger
//! looks at all accounts again after each step.

ghost use Rattle.std.specs.Prelude.{◌≡◌, ◌+◌, ◌<◌, length, sum, slice_index, IfOk};
ghost use Rattle.std.specs.Bool.{OnTrue, OnFalse};
ghost use Rattle.pay_book.specs.Book.{Standing, fresh, IsSettled, CanSettle, AreCountable, IsStuck};
ghost use Rattle.pay_book.specs.Book.{IsBook};
ghost use Rattle.pay_book.specs.Places.{place_of};

use crate::accounts::Accounts;
use pay_channel::Source;
use pay_link::Genesis;
use std::alloc::{AllocError, Global};

/// A ledger over the lists of a [`Source`].
///
/// It allocates all its memory when it is made. Settling allocates nothing and has no error, but it
/// requires a ledger that can settle. Such a ledger stands at a reached front of the source's
/// lists, no account except `owner` has a step, and there are fewer than 2^32 entries in all. A
/// settled ledger can settle again whenever one owner's list grew (`laws::grown_list_can_settle`).
/// The lists of a group are never too long (`laws::group_lists_are_countable`).
pub trait Settle {
    // What the ledger shows.
    ghost shows: { Self → Standing };

    /// Returns a ledger with the opening balances of `genesis`. Nothing is settled.
    // promise: settling
    fn new(alloc: Global, genesis: &Genesis) -> Result<Self, AllocError>
        ensures { IfOk result (λ book. shows book ≡ fresh genesis.now.opening) };

    /// Settles all that can be settled after the list of `owner` grew, and returns the count of
    /// settled entries.
    ///
    /// Money that reaches an account may let that account's next entries settle, and so on.
    // promise: settling
    fn settle<S: Source>(&mut self, source: &S, owner: u16) -> u32
        requires { CanSettle (S.lists source.now) (shows self.old) owner }
        ensures opening { (shows self.new).opening ≡ (shows self.old).opening }
        ensures settled { IsSettled (S.lists source.now) (shows self.new) }
        ensures count { sum (shows self.old).front + result ≡ sum (shows self.new).front };

    /// Returns how many entries of `account` are settled.
    // promise: statements
    fn front(&self, account: u16) -> u32
        requires { account < length (shows self.now).opening }
        ensures { result ≡ slice_index (shows self.now).front account };

    /// Returns the balance of `account`.
    // promise: statements
    fn balance(&self, account: u16) -> u64
        requires { account < length (shows self.now).opening }
        ensures { result ≡ slice_index (shows self.now).balances account };

    /// Returns how many values of `account` are wholly settled, and how many entries of its next
    /// value.
    // promise: statements
    fn place(&self, account: u16) -> (u32, u8)
        requires { account < length (shows self.now).opening }
        ensures { result ≡ place_of (shows self.now).places account };
}

/// A ledger that looks for the next entry to settle in the order of the accounts.
#[derive(Debug, Drop)]
pub struct PlainBook {
    accounts: Accounts,
}

impl PlainBook {
    /// Settles one entry of the first account that may settle one, and returns whether there was
    /// such an account.
    fn step<S: Source>(&mut self, source: &S) -> bool
        requires countable { AreCountable (S.lists source.now) self.old.accounts }
        requires book { IsBook (S.lists source.now) self.old.accounts }
        ensures opening { self.new.accounts.opening ≡ self.old.accounts.opening }
        ensures book { IsBook (S.lists source.now) self.new.accounts }
        ensures stepped { OnTrue result
            (sum self.new.accounts.front ≡ sum self.old.accounts.front + 1) }
        ensures unchanged { OnFalse result (self.new.accounts ≡ self.old.accounts) }
        ensures stuck { OnFalse result (IsStuck (S.lists source.now) self.new.accounts) }
    {
        for account in 0..self.accounts.count() {
            if self.accounts.try_step(source, account).is_some() {
                return true;
            }
        }
        false
    }
}

impl Settle for PlainBook {
    ghost shows = { λ book. book.accounts };

    fn new(alloc: Global, genesis: &Genesis) -> Result<Self, AllocError> {
        Ok(PlainBook {
            accounts: Accounts::new(alloc, genesis)?,
        })
    }

    fn settle<S: Source>(&mut self, source: &S, owner: u16) -> u32 {
        let mut settled = 0;
        // only the owner may have an entry to settle
        if !self.accounts.may_step(source, owner) {
            return settled;
        }
        while self.step(source) {
            settled += 1;
        }
        settled
    }

    fn front(&self, account: u16) -> u32 {
        self.accounts.front(account)
    }

    fn balance(&self, account: u16) -> u64 {
        self.accounts.balance(account)
    }

    fn place(&self, account: u16) -> (u32, u8) {
        self.accounts.place(account)
    }
}
