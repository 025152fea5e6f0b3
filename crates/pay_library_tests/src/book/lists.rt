//! A source of lists that are held in memory.

ghost use Rattle.std.specs.Prelude.{◌≡◌, ◌+◌, ◌<◌, ℕ, length, vec_len, IfOk, IsTrue, OnOk, OnErr};
ghost use Rattle.pay_channel.specs.Source.{GrowsOnly};
ghost use Rattle.pay_library_tests.specs.Lists.{owner_values, AreShortLists};

use pay_channel::Source;
use pay_frame::SEQS;
use std::alloc::{AllocError, Global};

/// The values of some owners, each owner's in order.
#[derive(Drop)]
pub(crate) struct Lists {
    values: Vec<Vec<Vec<u8>>>,
    ghost short: { AreShortLists values.items },
}

impl Lists {
    /// Creates empty lists of `owners` owners.
    pub(crate) fn new(alloc: Global, owners: u16) -> Result<Self, AllocError>
        ensures owners { IfOk result (λ lists. vec_len lists.values ≡ owners) }
        ensures empty { IfOk result (λ lists. (owner : ℕ)
            → length (owner_values lists.values.items owner) ≡ 0) }
    {
        let mut values = Vec::new(alloc);
        for _owner in 0..owners {
            values.push(Vec::new(alloc))?;
        }
        Ok(Lists { values })
    }

    /// Returns whether there is an `owner` of this number and its list has room for another value.
    pub(crate) fn has_room(&self, owner: u16) -> bool
        ensures owner { IsTrue result → owner < vec_len self.now.values }
        ensures room { IsTrue result → length (owner_values self.now.values.items owner) < SEQS }
    {
        match self.values.get(owner as usize) {
            Some(list) => list.len() < SEQS as usize,
            None => false,
        }
    }

    /// Appends a value to the list of `owner`.
    pub(crate) fn append(&mut self, owner: u16, value: Vec<u8>) -> Result<(), AllocError>
        requires owner { owner < vec_len self.old.values }
        requires room { length (owner_values self.old.values.items owner) < SEQS }
        ensures owners { vec_len self.new.values ≡ vec_len self.old.values }
        ensures ok { OnOk result
            (GrowsOnly (owner_values self.old.values.items)
            (owner_values self.new.values.items) owner) }
        ensures err { OnErr result ((a : ℕ)
            → owner_values self.new.values.items a ≡ owner_values self.old.values.items a) }
    {
        self.values[owner as usize].push(value)?;
        Ok(())
    }
}

impl Source for Lists {
    ghost lists = { λ lists. owner_values lists.values.items };

    fn length(&self, owner: u16) -> u32 {
        match self.values.get(owner as usize) {
            Some(list) => list.len() as u32,
            None => 0,
        }
    }

    fn at(&self, owner: u16, k: u32) -> &[u8] {
        self.values[owner as usize][k as usize].as_slice()
    }
}
