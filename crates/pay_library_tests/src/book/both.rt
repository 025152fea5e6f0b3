//! Both books, given equal values.

use crate::book::ledger::Ledger;
use pay_book::PlainBook;
use pay_link::Genesis;
use pay_pending::WaitingBook;
use std::alloc::Global;

/// Both books, over lists of their own that are equal.
#[derive(Drop)]
pub(crate) struct Both {
    plain: Ledger<PlainBook>,
    waiting: Ledger<WaitingBook>,
}

impl Both {
    /// Creates fresh books of a group with these `opening` balances and at most `faults` faulty
    /// members, if there is such a group.
    pub(crate) fn new(alloc: Global, faults: u64, opening: &[u64]) -> Option<Both> {
        let genesis = Genesis::new(alloc, opening.len() as u64, faults, opening).ok()?;
        Both::fresh(alloc, &genesis)
    }

    fn fresh(alloc: Global, genesis: &Genesis) -> Option<Both> {
        Some(Both {
            plain: Ledger::new(alloc, genesis).ok()?,
            waiting: Ledger::new(alloc, genesis).ok()?,
        })
    }

    /// Puts `value` on the list of `owner` in both books. Returns how many entries settled, or
    /// `None` if the books answered differently or came to stand differently.
    pub(crate) fn added_alike(&mut self, alloc: Global, owner: u16, value: &[u8]) -> Option<u32> {
        let answer = self.plain.add(owner, value.to_vec(alloc).ok()?).ok()?;
        let other = self.waiting.add(owner, value.to_vec(alloc).ok()?).ok()?;
        let is_alike = other == answer && self.waiting.stands_as(&self.plain);
        is_alike.then_some(answer.unwrap_or(0))
    }
}
