//! A book over lists of its own, which is settled after each value.

ghost use Rattle.std.specs.Prelude.{◌≡◌, IfOk};
ghost use Rattle.pay_book.specs.Book.{fresh};

use crate::book::lists::Lists;
use pay_book::{Settle, laws};
use pay_link::Genesis;
use std::alloc::{AllocError, Global};
use std::marker::Model;

/// A book, and the lists that it settles.
#[derive(Drop)]
pub(crate) struct Ledger<B: Settle> {
    accounts: u16,
    lists: Lists,
    book: B,
}

impl<B: Settle> Model for Ledger<B> {
    ghost use Rattle.pay_book.specs.Book.{Standing};
    ghost use Rattle.pay_library_tests.specs.Ledger.{IsPlainLedger};
    ghost use Rattle.pay_library_tests.specs.Lists.{owner_values};
    ghost use Rattle.std.specs.Prelude.{vec_len};

    ghost Value = { Standing };

    ghost view = { λ ledger. B.shows ledger.book };

    ghost invariant = { λ ledger.
        IsPlainLedger ledger.accounts (vec_len ledger.lists.values)
        (owner_values ledger.lists.values.items) (B.shows ledger.book) };
}

impl<B: Settle + Drop> Ledger<B> {
    /// Creates a fresh book of `genesis` over empty lists.
    pub(crate) fn new(alloc: Global, genesis: &Genesis) -> Result<Self, AllocError>
        ensures { IfOk result (λ ledger. ledger ≡ fresh genesis.now.opening) }
    {
        laws::fresh_book_is_settled();
        Ok(Ledger {
            accounts: genesis.members(),
            lists: Lists::new(alloc, genesis.members())?,
            book: B::new(alloc, genesis)?,
        })
    }

    /// Puts `value` on the list of `owner`. Returns how many entries settled, or `None` if there is
    /// no such owner or no room on its list.
    pub(crate) fn add(&mut self, owner: u16, value: Vec<u8>) -> Result<Option<u32>, AllocError> {
        if owner >= self.accounts || !self.lists.has_room(owner) {
            return Ok(None);
        }
        laws::same_lists_stay_settled();
        laws::grown_list_can_settle();
        laws::group_lists_are_countable();
        self.lists.append(owner, value)?;
        Ok(Some(self.book.settle(&self.lists, owner)))
    }

    /// Returns whether the two books have the same accounts, each with the same front, balance and
    /// place.
    pub(crate) fn stands_as<C: Settle + Drop>(&self, other: &Ledger<C>) -> bool {
        for account in 0..self.accounts {
            if account >= other.accounts
                || self.book.front(account) != other.book.front(account)
                || self.book.balance(account) != other.book.balance(account)
                || self.book.place(account) != other.book.place(account)
            {
                return false;
            }
        }
        self.accounts == other.accounts
    }
}
