//! The faulty members of a group.

ghost use Rattle.std.specs.Prelude.{◌≡◌, nat_lt, IfOk, IsOkUnless, MatchOption};
ghost use Rattle.std.specs.List.{list_all};
ghost use Rattle.pay_world.specs.Faults.{liar_fault_name, liar_fault_number};
ghost use Rattle.pay_world.specs.Liars.{AreLiars, AreLiarsOf, has_twice, is_listed, liar_fault};
ghost use Rattle.pay_world.specs.Liars.{liars_in};

use pay_link::Genesis;
use std::alloc::{AllocError, Global};
use std::fmt;
use std::marker::Model;
use thiserror::Error;

/// The reason why a list isn't one of a group's faulty members, in the order of the tests. `Memory`
/// is outside of this order.
#[derive(Clone, Copy, Debug, PartialEq, Eq, Error)]
pub enum LiarFault {
    Memory,
    /// The list has a number of no member.
    Unknown,
    /// The list has a number twice.
    Twice,
    /// The list has more members than may be faulty.
    TooMany,
}

impl LiarFault {
    // promise: order of refusals (number, name)
    const fn entry(self) -> (u8, &'static str)
        ensures number { result.0 ≡ liar_fault_number self }
        ensures name { result.1.now ≡ liar_fault_name self }
    {
        match self {
            LiarFault::Memory => (0, "Memory"),
            LiarFault::Unknown => (1, "Unknown"),
            LiarFault::Twice => (2, "Twice"),
            LiarFault::TooMany => (3, "TooMany"),
        }
    }

    /// Returns the number that the fault is printed with.
    pub fn number(self) -> u8
        ensures value { result ≡ liar_fault_number self }
    {
        self.entry().0
    }

    /// Returns the name that the fault is printed with.
    pub fn name(self) -> &'static str
        ensures value { result.now ≡ liar_fault_name self }
    {
        self.entry().1
    }
}

impl fmt::Display for LiarFault {
    ghost use Rattle.std.specs.Prelude.{Some};
    ghost use Rattle.pay_world.specs.Faults.{liar_fault_words};

    ghost output = { λ fault. Some (liar_fault_words fault) };

    fn fmt<W: fmt::Write>(&self, f: &mut fmt::Formatter<W>) -> fmt::Result {
        write!(f, "{} {}", self.number(), self.name())
    }
}

impl From<AllocError> for LiarFault {
    ghost use Rattle.pay_world.specs.declared.liars.LiarFault.TheVariants.{Memory};

    ghost from_gives = { λ _ e. e ≡ Memory };

    fn from(_error: AllocError) -> LiarFault {
        LiarFault::Memory
    }
}

/// The faulty members of a group. The type keeps that they are members, each named once, and no
/// more than the genesis allows.
#[derive(Debug, Drop)]
pub struct Liars {
    members: u16,
    faults: u16,
    liars: Vec<u16>,
}

impl Model for Liars {
    ghost use Rattle.pay_world.specs.Liars.{AreLiars, LiarFields};

    ghost Value = { LiarFields };

    ghost view = { λ l. record { members = l.members; faults = l.faults; liars = l.liars.items } };

    ghost invariant = { λ l. AreLiars
        (record { members = l.members; faults = l.faults; liars = l.liars.items }) };
}

impl Liars {
    /// Creates a list of the faulty members `liars`, or returns its first fault. A lack of memory
    /// is reported last.
    pub fn new(alloc: Global, genesis: &Genesis, liars: &[u16]) -> Result<Liars, LiarFault>
        ensures fault { MatchOption
            (liar_fault (liars_in genesis.now liars.now))
            (IsOkUnless result LiarFault.Memory)
            (λ fault. result ≡ Err fault) }
        ensures value { IfOk result (λ made. made ≡ liars_in genesis.now liars.now) }
        ensures genesis { IfOk result (AreLiarsOf genesis.now) }
    {
        let members = genesis.members();
        if !are_members(members, liars) {
            return Err(LiarFault::Unknown);
        }
        if has_twice(liars) {
            return Err(LiarFault::Twice);
        }
        if liars.len() > usize::from(genesis.faults()) {
            return Err(LiarFault::TooMany);
        }
        let liars = Vec::from_slice(alloc, liars)?;
        Ok(Liars {
            members,
            faults: genesis.faults(),
            liars,
        })
    }

    /// Returns whether `member` is faulty.
    pub fn is_liar(&self, member: u16) -> bool
        ensures value { result ≡ is_listed self.now.liars member }
        ensures limits { AreLiars self.now }
    {
        self.liars.contains(&member)
    }

    /// Returns a copy of the list.
    pub fn copy(&self, alloc: Global) -> Result<Liars, AllocError>
        ensures value { IfOk result (λ copy. copy ≡ self.now) }
        ensures limits { AreLiars self.now }
    {
        let liars = Vec::from_slice(alloc, self.liars.as_slice())?;
        Ok(Liars {
            members: self.members,
            faults: self.faults,
            liars,
        })
    }
}

fn are_members(members: u16, liars: &[u16]) -> bool
    ensures { result ≡ list_all (λ i. nat_lt i members) liars.now }
{
    liars.iter().all(|liar| *liar < members)
}

// Returns whether a number stands in the list twice. There are at most 128 members, so one of the
// first 129 numbers of members stands twice, and the loop ends there.
fn has_twice(liars: &[u16]) -> bool
    ensures { result ≡ has_twice liars.now }
{
    for place in 0..liars.len() {
        if liars[place + 1..].contains(&liars[place]) {
            return true;
        }
    }
    false
}
