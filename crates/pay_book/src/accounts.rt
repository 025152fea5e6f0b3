//! A ledger's accounts, which move by one settled entry at a time.

ghost use Rattle.std.specs.Prelude.{◌≡◌, ◌+◌, ◌<◌, ◌≤◌, ◌^◌, ◌↔◌, length, sum, slice_get};
ghost use Rattle.std.specs.Prelude.{slice_index, slice_set, IsTrue, IfOk, IfNone, IfSome};
ghost use Rattle.std.specs.Bool.{OnTrue, OnFalse};
ghost use Rattle.pay_book.specs.Balance.{amount_of, PayWithin, MovesAmount};
ghost use Rattle.pay_book.specs.Book.{fresh, entries_for, AreCountable, MaySettle, IsBook, IsStep};
ghost use Rattle.pay_book.specs.Payment.{count_in};
ghost use Rattle.pay_book.specs.Places.{place_in, place_of};

use crate::payment::{Entry, entry_at, place_after};
use pay_channel::Source;
use pay_link::Genesis;
use std::alloc::{AllocError, Global};
use std::marker::Model;

/// The opening balances of all accounts, and their state after settling.
#[derive(Debug, Drop)]
pub struct Accounts {
    opening: Vec<u64>,
    front: Vec<u32>,
    balances: Vec<u64>,
    // for each account, how many of its values are wholly settled, and how many entries of its next
    // value
    places: Vec<(u32, u8)>,
}

impl Model for Accounts {
    ghost use Rattle.pay_book.specs.Book.{Standing, IsSoundBook, standing_of_parts};

    ghost Value = { Standing };

    ghost view = { λ a.
        standing_of_parts a.opening.items a.front.items a.balances.items a.places.items };

    ghost invariant = { λ a. IsSoundBook
        (standing_of_parts a.opening.items a.front.items a.balances.items a.places.items) };
}

impl Accounts {
    /// Returns the accounts of `genesis`. Nothing is settled.
    pub fn new(alloc: Global, genesis: &Genesis) -> Result<Self, AllocError>
        ensures { IfOk result (λ book. book ≡ fresh genesis.now.opening) }
    {
        let mut opening = Vec::new(alloc);
        for account in 0..genesis.members() {
            opening.push(genesis.opening(account))?;
        }
        Accounts::new_unsettled(alloc, opening)
    }

    /// Returns accounts with these opening balances. Nothing is settled.
    fn new_unsettled(alloc: Global, opening: Vec<u64>) -> Result<Self, AllocError>
        requires accounts { length opening.items < 2 ^ 16 }
        requires total { sum opening.items < 2 ^ 64 }
        ensures { IfOk result (λ book. book ≡ fresh opening.items) }
    {
        Ok(Accounts {
            front: vec![in alloc; 0; opening.len()]?,
            balances: opening.as_slice().to_vec(alloc)?,
            places: vec![in alloc; (0, 0); opening.len()]?,
            opening,
        })
    }

    /// Returns the number of accounts.
    pub fn count(&self) -> u16
        ensures { result ≡ length self.now.opening }
    {
        self.opening.len() as u16
    }

    /// Returns how many entries of `account` are settled.
    pub fn front(&self, account: u16) -> u32
        requires { account < length self.now.opening }
        ensures { result ≡ slice_index self.now.front account }
    {
        self.front[account as usize]
    }

    /// Returns the balance of `account`.
    pub fn balance(&self, account: u16) -> u64
        requires { account < length self.now.opening }
        ensures { result ≡ slice_index self.now.balances account }
    {
        self.balances[account as usize]
    }

    /// Returns how many values of `account` are wholly settled, and how many entries of its next
    /// value.
    pub fn place(&self, account: u16) -> (u32, u8)
        requires { account < length self.now.opening }
        ensures { result ≡ place_of self.now.places account }
    {
        self.places[account as usize]
    }

    /// Returns the entry that `account` settles next, if its list has one.
    fn next_entry<S: Source>(&self, source: &S, account: u16) -> Option<Entry>
        requires book { IsBook (S.lists source.now) self.now }
        requires account { account < length self.now.opening }
        ensures { result
            ≡ slice_get (entries_for self.now (S.lists source.now) account)
            (slice_index self.now.front account) }
    {
        let (value, place) = self.place(account);
        if value < source.length(account) {
            Some(entry_at(source.at(account, value), place, account, self.count()))
        } else {
            None
        }
    }

    /// Returns the place of `account` after it settles its next entry.
    fn next_place<S: Source>(&self, source: &S, account: u16) -> (u32, u8)
        requires book { IsBook (S.lists source.now) self.now }
        requires account { account < length self.now.opening }
        requires entry { slice_index self.now.front account
            < length (entries_for self.now (S.lists source.now) account) }
        requires number { slice_index self.now.front account + 1 < 2 ^ 32 }
        ensures { result
            ≡ place_in count_in (S.lists source.now account)
            (slice_index self.now.front account + 1) }
    {
        let place = self.place(account);
        place_after(source.at(account, place.0), place)
    }

    /// Returns whether `account` may settle its next entry: whether there is one and the balance
    /// covers it.
    pub fn may_step<S: Source>(&self, source: &S, account: u16) -> bool
        requires book { IsBook (S.lists source.now) self.now }
        requires account { account < length self.now.opening }
        ensures allowed { OnTrue result (MaySettle (S.lists source.now) self.now account) }
        ensures not_allowed { OnFalse result (MaySettle (S.lists source.now) self.now account → ⊥) }
    {
        match self.next_entry(source, account) {
            Some(entry) => is_covered(entry, self.balance(account)),
            None => false,
        }
    }

    /// Settles the next entry of `account` if its balance covers it, and returns that entry.
    pub fn try_step<S: Source>(&mut self, source: &S, account: u16) -> Option<Entry>
        requires countable { AreCountable (S.lists source.now) self.old }
        requires book { IsBook (S.lists source.now) self.old }
        requires account { account < length self.old.opening }
        ensures book { IsBook (S.lists source.now) self.new }
        ensures unchanged { IfNone result (self.new ≡ self.old) }
        ensures not_allowed { IfNone result (MaySettle (S.lists source.now) self.old account → ⊥) }
        ensures step { IfSome result (λ entry.
            IsStep (S.lists source.now) self.old account entry self.new) }
    {
        let entry = self.next_entry(source, account)?;
        if !is_covered(entry, self.balance(account)) {
            return None;
        }
        let place = self.next_place(source, account);
        self.pass(account, entry, place);
        Some(entry)
    }

    /// Moves the place of `account` past `entry`, and moves the money that the entry pays.
    fn pass(&mut self, account: u16, entry: Entry, place: (u32, u8))
        requires account { account < length self.old.opening }
        requires payee { PayWithin (length self.old.opening) entry }
        requires covered { amount_of entry ≤ slice_index self.old.balances account }
        requires front { slice_index self.old.front account + 1 < 2 ^ 32 }
        requires total { sum self.old.balances ≡ sum self.old.opening }
        ensures opening { self.new.opening ≡ self.old.opening }
        ensures front { self.new.front
            ≡ slice_set self.old.front account (slice_index self.old.front account + 1) }
        ensures one_for_each { length self.new.balances ≡ length self.old.opening }
        ensures balances { MovesAmount entry account self.old.balances self.new.balances }
        ensures places { self.new.places ≡ slice_set self.old.places account place }
    {
        self.front[account as usize] += 1;
        self.places[account as usize] = place;
        transfer(&mut self.balances, account, entry);
    }
}

/// Returns whether `balance` covers the amount of `entry`.
fn is_covered(entry: Entry, balance: u64) -> bool
    ensures { IsTrue result ↔ (amount_of entry ≤ balance) }
{
    match entry {
        Entry::Pay { amount, .. } => amount <= balance,
        Entry::Void => true,
    }
}

/// Moves what `entry` of `account` pays.
fn transfer(balances: &mut [u64], account: u16, entry: Entry)
    requires account { account < length balances.old }
    requires payee { PayWithin (length balances.old) entry }
    requires covered { amount_of entry ≤ slice_index balances.old account }
    requires total { sum balances.old < 2 ^ 64 }
    ensures { MovesAmount entry account balances.old balances.new }
{
    if let Entry::Pay { payee, amount } = entry {
        balances[account as usize] -= amount;
        balances[payee as usize] += amount;
    }
}
