//! An export: the lists, front and balances that a member shows, and what may be wrong with its
//! file.

ghost use Rattle.std.specs.Prelude.{◌≡◌, ◌<◌, ◌≤◌, [], length, slice_get, IfOk, slice_index};
ghost use Rattle.pay_audit.specs.Export.{IsExport};
ghost use Rattle.pay_audit.specs.Faults.{export_fault_name, export_fault_number};
ghost use Rattle.pay_frame.specs.declared.limits.TheConstants.{SEQS};

use pay_channel::Source;
use pay_frame::Bytes;
use pay_link::Genesis;
use std::alloc::{AllocError, Global};
use std::fmt;
use std::marker::Model;
use thiserror::Error;

/// The reason why a file is no export, in the order of the tests. `Memory` is outside of this
/// order.
#[derive(Clone, Copy, Debug, PartialEq, Eq, Error)]
pub enum ExportFault {
    /// There is no memory. The file may be right.
    Memory,
    /// The file isn't JSON.
    BadJson,
    /// The object lacks a member, or a member has the wrong type. This includes a list without an
    /// item for each member, a `member` that is too large, and a text that is too long.
    BadShape,
    /// The object's parts make no genesis.
    BadGenesis,
}

impl ExportFault {
    // promise: order of refusals (number, name)
    const fn entry(self) -> (u8, &'static str)
        ensures number { result.0 ≡ export_fault_number self }
        ensures name { result.1.now ≡ export_fault_name self }
    {
        match self {
            ExportFault::Memory => (0, "Memory"),
            ExportFault::BadJson => (1, "BadJson"),
            ExportFault::BadShape => (2, "BadShape"),
            ExportFault::BadGenesis => (3, "BadGenesis"),
        }
    }

    /// Returns the number that the fault is printed with.
    pub fn number(self) -> u8
        ensures value { result ≡ export_fault_number self }
    {
        self.entry().0
    }

    /// Returns the name that the fault is printed with.
    pub fn name(self) -> &'static str
        ensures value { result.now ≡ export_fault_name self }
    {
        self.entry().1
    }
}

impl fmt::Display for ExportFault {
    ghost use Rattle.std.specs.Prelude.{Some};
    ghost use Rattle.pay_audit.specs.Faults.{export_fault_words};

    ghost output = { λ fault. Some (export_fault_words fault) };

    fn fmt<W: fmt::Write>(&self, f: &mut fmt::Formatter<W>) -> fmt::Result {
        write!(f, "{} {}", self.number(), self.name())
    }
}

impl From<AllocError> for ExportFault {
    ghost use Rattle.pay_audit.specs.declared.exported.ExportFault.TheVariants.{Memory};

    ghost from_gives = { λ _ e. e ≡ Memory };

    fn from(_error: AllocError) -> ExportFault {
        ExportFault::Memory
    }
}

/// The values of an owner, in its order: no more than it has numbers for. The values are stored one
/// after the other, with the place at which each ends.
///
/// A vector for each would need 40 percent more memory.
#[derive(Debug, Drop)]
pub(crate) struct OwnerList {
    bytes: Vec<u8>,
    ends: Vec<usize>,
}

impl Model for OwnerList {
    ghost use Rattle.std.specs.Prelude.{◌≤◌, ℕ, List, length};
    ghost use Rattle.pay_frame.specs.declared.limits.TheConstants.{SEQS};
    ghost use Rattle.pay_audit.specs.Rows.{AreRows, rows_from};

    ghost Value = { List (List ℕ) };

    ghost view = { λ l. rows_from 0 l.bytes.items l.ends.items };

    ghost invariant = { λ l. (length l.ends.items ≤ SEQS)
        × AreRows 0 (length l.bytes.items) l.ends.items };
}

impl OwnerList {
    pub(crate) fn new(alloc: Global) -> OwnerList
        ensures { result ≡ [] }
    {
        OwnerList {
            bytes: Vec::new(alloc),
            ends: Vec::new(alloc),
        }
    }

    /// Returns the list of `values`.
    pub(crate) fn of(alloc: Global, values: &[Bytes]) -> Result<OwnerList, AllocError>
        requires { length values.now ≤ SEQS }
        ensures { IfOk result (λ list. list ≡ values.now) }
    {
        let mut bytes = Vec::new(alloc);
        let mut ends = Vec::with_capacity(alloc, values.len())?;
        for value in values {
            bytes.extend_from_slice(value.as_slice())?;
            ends.push(bytes.len())?;
        }
        Ok(OwnerList { bytes, ends })
    }

    /// Returns the list of `owner` in `source`.
    pub(crate) fn from_source<S: Source>(
        alloc: Global,
        source: &S,
        owner: u16,
    ) -> Result<OwnerList, AllocError>
        requires { length (S.lists source.now owner) ≤ SEQS }
        ensures { IfOk result (λ list. list ≡ S.lists source.now owner) }
    {
        let mut bytes = Vec::new(alloc);
        let mut ends = Vec::new(alloc);
        for place in 0..source.length(owner) {
            bytes.extend_from_slice(source.at(owner, place))?;
            ends.push(bytes.len())?;
        }
        Ok(OwnerList { bytes, ends })
    }

    pub(crate) fn len(&self) -> u32
        ensures value { result ≡ length self.now }
        ensures limit { length self.now ≤ SEQS }
    {
        self.ends.len() as u32
    }

    pub(crate) fn at(&self, place: u32) -> &[u8]
        requires { place < length self.now }
        ensures { slice_get self.now place ≡ Some result.now }
    {
        let place = place as usize;
        let start = if place == 0 { 0 } else { self.ends[place - 1] };
        &self.bytes[start..self.ends[place]]
    }

    /// Returns a clone of the list.
    pub(crate) fn copy(&self, alloc: Global) -> Result<OwnerList, AllocError>
        ensures { IfOk result (λ copy. copy ≡ self.now) }
    {
        Ok(OwnerList {
            bytes: Vec::from_slice(alloc, self.bytes.as_slice())?,
            ends: Vec::from_slice(alloc, self.ends.as_slice())?,
        })
    }
}

/// What a member shows of its own without its keys. This is the genesis, the list of each account's
/// values, how many of its entries are settled, and all balances. Nothing of it is taken for true.
#[derive(Debug, Drop)]
pub struct Export {
    pub(crate) genesis: Genesis,
    pub(crate) member: u16,
    pub(crate) lists: Vec<OwnerList>,
    pub(crate) front: Vec<u64>,
    pub(crate) balances: Vec<u64>,
}

impl Model for Export {
    ghost use Rattle.pay_audit.specs.Export.{ExportFields, IsExport};

    ghost Value = { ExportFields };

    ghost view = { λ e. record {
      genesis = e.genesis;
      member = e.member;
      lists = e.lists.items;
      front = e.front.items;
      balances = e.balances.items;
    } };

    ghost invariant = { λ e. IsExport (record {
      genesis = e.genesis;
      member = e.member;
      lists = e.lists.items;
      front = e.front.items;
      balances = e.balances.items;
    }) };
}

impl Export {
    /// Returns the genesis.
    pub fn genesis(&self) -> &Genesis
        ensures { result.now ≡ self.now.genesis }
    {
        &self.genesis
    }

    /// Returns the member that the export claims to belong to.
    pub fn member(&self) -> u16
        ensures value { result ≡ self.now.member }
        ensures limit { self.now.member < self.now.genesis.members }
        ensures limits { IsExport self.now }
    {
        self.member
    }

    /// Returns the claimed front of `account`.
    pub fn front(&self, account: u16) -> u64
        requires { account < self.now.genesis.members }
        ensures { result ≡ slice_index self.now.front account }
    {
        self.front[usize::from(account)]
    }

    /// Returns the claimed balance of `account`.
    pub fn balance(&self, account: u16) -> u64
        requires { account < self.now.genesis.members }
        ensures { result ≡ slice_index self.now.balances account }
    {
        self.balances[usize::from(account)]
    }
}

/// The lists of the export. What is no account has no values.
impl Source for Export {
    ghost use Rattle.pay_audit.specs.Export.{lists_of};

    ghost lists = { lists_of };

    fn length(&self, owner: u16) -> u32 {
        match self.lists.get(usize::from(owner)) {
            Some(list) => list.len(),
            None => 0,
        }
    }

    fn at(&self, owner: u16, k: u32) -> &[u8] {
        self.lists[usize::from(owner)].at(k)
    }
}
