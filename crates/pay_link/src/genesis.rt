//! What a ledger opens with, and how its file is read.

ghost use Rattle.std.specs.Prelude.{◌≡◌, ◌<◌, ◌≤◌, ◌↔◌, ◌⊎◌, IfOk, IsOkUnless, IsTrue, MatchOption};
ghost use Rattle.std.specs.Prelude.{slice_index, sum};
ghost use Rattle.pay_link.specs.Faults.{genesis_fault_name, genesis_fault_number};
ghost use Rattle.pay_link.specs.Files.{genesis_in};
ghost use Rattle.pay_link.specs.Genesis.{IsGenesis, genesis_fault};

use crate::json::{number_at, numbers_at, value_in};
use crate::limits::GREATEST_TOTAL;
use pay_frame::MOST_MEMBERS;
use std::alloc::{AllocError, Global};
use std::fmt;
use std::marker::Model;
use thiserror::Error;

/// The reason why there is no genesis, in the order of the tests. `Memory` is outside of this
/// order.
#[derive(Clone, Copy, Debug, PartialEq, Eq, Error)]
pub enum GenesisFault {
    /// There is no memory. The file may be right.
    Memory,
    /// The file isn't JSON.
    BadJson,
    /// The object lacks a member, or a member has the wrong type.
    BadShape,
    /// N is 0, or more than 128.
    BadCount,
    /// N isn't more than 3f.
    BadFaults,
    /// There isn't one opening for each member.
    BadOpening,
    /// The openings together are more than 2^63 - 1.
    BadTotal,
}

impl GenesisFault {
    // promise: order of refusals (number, name)
    const fn entry(self) -> (u8, &'static str)
        ensures number { result.0 ≡ genesis_fault_number self }
        ensures name { result.1.now ≡ genesis_fault_name self }
    {
        match self {
            GenesisFault::Memory => (0, "Memory"),
            GenesisFault::BadJson => (1, "BadJson"),
            GenesisFault::BadShape => (2, "BadShape"),
            GenesisFault::BadCount => (3, "BadCount"),
            GenesisFault::BadFaults => (4, "BadFaults"),
            GenesisFault::BadOpening => (5, "BadOpening"),
            GenesisFault::BadTotal => (6, "BadTotal"),
        }
    }

    pub fn number(self) -> u8
        ensures value { result ≡ genesis_fault_number self }
    {
        self.entry().0
    }

    pub fn name(self) -> &'static str
        ensures value { result.now ≡ genesis_fault_name self }
    {
        self.entry().1
    }
}

impl fmt::Display for GenesisFault {
    ghost use Rattle.std.specs.Prelude.{Some};
    ghost use Rattle.pay_link.specs.Faults.{genesis_fault_words};

    ghost output = { λ fault. Some (genesis_fault_words fault) };

    fn fmt<W: fmt::Write>(&self, f: &mut fmt::Formatter<W>) -> fmt::Result {
        write!(f, "{} {}", self.number(), self.name())
    }
}

impl From<AllocError> for GenesisFault {
    ghost use Rattle.pay_link.specs.declared.genesis.GenesisFault.TheVariants.{Memory};

    ghost from_gives = { λ _ e. e ≡ Memory };

    fn from(_error: AllocError) -> GenesisFault {
        GenesisFault::Memory
    }
}

/// What a ledger opens with: its members, how many of them may be faulty, and the opening balance
/// of each account. A member is its number, from 0, and owns the account of that number.
///
/// Counts are read as 64-bit numbers and are judged before they are cut to 16 bits: 65,537 isn't 1.
#[derive(Debug, Drop)]
pub struct Genesis {
    members: u16,
    faults: u16,
    opening: Vec<u64>,
}

impl Model for Genesis {
    ghost use Rattle.pay_link.specs.Genesis.{GenesisFields, IsGenesis};

    ghost Value = { GenesisFields };

    ghost view = { λ g.
        record { members = g.members; faults = g.faults; opening = g.opening.items } };

    ghost invariant = { λ g. IsGenesis
        (record { members = g.members; faults = g.faults; opening = g.opening.items }) };
}

impl Genesis {
    /// Creates a genesis of `members`, `faults` and `opening` balances, or returns its first fault.
    /// A lack of memory is reported last.
    // promise: order of refusals; files
    pub fn new(
        alloc: Global,
        members: u64,
        faults: u64,
        opening: &[u64],
    ) -> Result<Genesis, GenesisFault>
        ensures fault { MatchOption
            (genesis_fault (record { members = members; faults = faults; opening = opening.now }))
            (IsOkUnless result GenesisFault.Memory)
            (λ fault. result ≡ Err fault) }
        ensures value { IfOk result (λ genesis.
            genesis ≡ record { members = members; faults = faults; opening = opening.now }) }
        ensures limits { IfOk result IsGenesis }
    {
        if members == 0 || members > u64::from(MOST_MEMBERS) {
            return Err(GenesisFault::BadCount);
        }
        if faults >= members || 3 * faults >= members {
            return Err(GenesisFault::BadFaults);
        }
        if opening.len() as u64 != members {
            return Err(GenesisFault::BadOpening);
        }
        if !has_bounded_total(opening) {
            return Err(GenesisFault::BadTotal);
        }
        let opening = Vec::from_slice(alloc, opening)?;
        Ok(Genesis {
            members: members as u16,
            faults: faults as u16,
            opening,
        })
    }

    /// Returns the genesis that `bytes`, a file of JSON, contain.
    // promise: order of refusals; files
    pub fn read(alloc: Global, bytes: &[u8]) -> Result<Genesis, GenesisFault>
        ensures value { (result ≡ genesis_in bytes.now) ⊎ (result ≡ Err GenesisFault.Memory) }
        ensures limits { IfOk result IsGenesis }
    {
        let value = value_in(alloc, bytes)?;
        let Some(value) = value else {
            return Err(GenesisFault::BadJson);
        };
        let Some(members) = number_at(&value, "members") else {
            return Err(GenesisFault::BadShape);
        };
        let Some(faults) = number_at(&value, "faults") else {
            return Err(GenesisFault::BadShape);
        };
        let opening = numbers_at(alloc, &value, "opening")?;
        let Some(opening) = opening else {
            return Err(GenesisFault::BadShape);
        };
        Genesis::new(alloc, members, faults, opening.as_slice())
    }

    pub fn members(&self) -> u16
        ensures value { result ≡ self.now.members }
        ensures limits { IsGenesis self.now }
    {
        self.members
    }

    /// Returns how many members may be faulty.
    pub fn faults(&self) -> u16
        ensures value { result ≡ self.now.faults }
        ensures limits { IsGenesis self.now }
    {
        self.faults
    }

    /// Returns the opening balance of `account`.
    pub fn opening(&self, account: u16) -> u64
        requires { account < self.now.members }
        ensures value { result ≡ slice_index self.now.opening account }
        ensures limits { IsGenesis self.now }
    {
        self.opening[usize::from(account)]
    }

    /// Returns whether `other` is equal.
    pub fn is_same(&self, other: &Genesis) -> bool
        ensures { IsTrue result ↔ (self.now ≡ other.now) }
    {
        self.members == other.members
            && self.faults == other.faults
            && self.opening.as_slice() == other.opening.as_slice()
    }

    /// Returns a copy of the genesis.
    pub fn copy(&self, alloc: Global) -> Result<Genesis, AllocError>
        ensures { IfOk result (λ copy. copy ≡ self.now) }
    {
        let opening = Vec::from_slice(alloc, self.opening.as_slice())?;
        Ok(Genesis {
            members: self.members,
            faults: self.faults,
            opening,
        })
    }
}

// Returns whether the openings together are at most the greatest total. What is left of that total
// is never below zero, so nothing wraps.
fn has_bounded_total(opening: &[u64]) -> bool
    ensures { IsTrue result ↔ (sum opening.now ≤ GREATEST_TOTAL) }
{
    let mut left = GREATEST_TOTAL;
    for amount in opening {
        if *amount > left {
            return false;
        }
        left -= *amount;
    }
    true
}
