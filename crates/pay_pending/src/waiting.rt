//! The ledger and its list of accounts to look at.

ghost use Rattle.std.specs.Prelude.{◌≡◌, ◌+◌, ◌<◌, ◌≤◌, ℕ, length, vec_capacity, Contains};
ghost use Rattle.pay_book.specs.Balance.{PayWithin};
ghost use Rattle.pay_pending.specs.Waiting.{IsWaitingList, KeepsWaiting, IsPaid};

use pay_book::laws::{settled_are_listed, stuck_book_is_settled, what_a_step_does};
use pay_book::{Accounts, Entry, Settle};
use pay_channel::Source;
use pay_link::Genesis;
use std::alloc::{AllocError, Global};

/// A ledger that settles from a list of the accounts with a next entry that may now be covered.
/// Each account is on the list at most once. The list has room for all of them, so that settling
/// allocates nothing.
///
/// The list is used as a stack: the order makes no difference.
#[derive(Debug, Drop)]
pub struct WaitingBook {
    accounts: Accounts,
    waiting: Vec<u16>,
    ghost room: { length accounts.opening ≤ vec_capacity waiting },
}

impl WaitingBook {
    /// Puts `account` on the list, if it isn't there already.
    fn put(&mut self, account: u16)
        requires account { account < length self.old.accounts.opening }
        requires list { IsWaitingList (length self.old.accounts.opening) self.old.waiting.items }
        ensures accounts { self.new.accounts ≡ self.old.accounts }
        ensures list { IsWaitingList (length self.old.accounts.opening) self.new.waiting.items }
        ensures there { Contains self.new.waiting.items account }
        ensures kept { KeepsWaiting self.old.waiting.items self.new.waiting.items }
        ensures longer { length self.new.waiting.items ≤ length self.old.waiting.items + 1 }
    {
        if !self.waiting.contains(&account) {
            // there is room for each account once
            let _ = self.waiting.push(account);
        }
    }

    /// Puts `account`, which settled `entry`, on the list, and the account that the entry paid.
    fn wake(&mut self, account: u16, entry: Entry)
        requires account { account < length self.old.accounts.opening }
        requires payee { PayWithin (length self.old.accounts.opening) entry }
        requires list { IsWaitingList (length self.old.accounts.opening) self.old.waiting.items }
        ensures accounts { self.new.accounts ≡ self.old.accounts }
        ensures list { IsWaitingList (length self.old.accounts.opening) self.new.waiting.items }
        ensures owner { Contains self.new.waiting.items account }
        ensures payee { (a : ℕ) → IsPaid a entry → Contains self.new.waiting.items a }
        ensures kept { KeepsWaiting self.old.waiting.items self.new.waiting.items }
        ensures longer { length self.new.waiting.items ≤ length self.old.waiting.items + 2 }
    {
        if let Entry::Pay { payee, .. } = entry {
            self.put(payee);
        }
        self.put(account);
    }
}

impl Settle for WaitingBook {
    ghost shows = { λ book. book.accounts };

    fn new(alloc: Global, genesis: &Genesis) -> Result<Self, AllocError> {
        let accounts = Accounts::new(alloc, genesis)?;
        let waiting = Vec::with_capacity(alloc, usize::from(accounts.count()))?;
        Ok(WaitingBook { accounts, waiting })
    }

    fn settle<S: Source>(&mut self, source: &S, owner: u16) -> u32 {
        what_a_step_does();
        stuck_book_is_settled();
        settled_are_listed();
        let mut settled = 0;
        self.waiting.clear();
        self.put(owner);
        while let Some(account) = self.waiting.pop() {
            if let Some(entry) = self.accounts.try_step(source, account) {
                settled += 1;
                self.wake(account, entry);
            }
        }
        settled
    }

    fn front(&self, account: u16) -> u32 {
        self.accounts.front(account)
    }

    fn balance(&self, account: u16) -> u64 {
        self.accounts.balance(account)
    }

    fn place(&self, account: u16) -> (u32, u8) {
        self.accounts.place(account)
    }
}
