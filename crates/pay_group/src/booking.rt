//! The group ledger of members' exports.

ghost use Rattle.std.specs.Prelude.{◌≡◌, ◌+◌, ◌^◌, ◌<◌, IfErr, IfOk, Some, length, map, slice_get};
ghost use Rattle.pay_audit.specs.Export.{IsExport};
ghost use Rattle.pay_audit.specs.Said.{Each};
ghost use Rattle.pay_audit.specs.Verdict.{first_from};
ghost use Rattle.pay_group.specs.Book.{AreOfGroup, HasNoBook, IsGroupBook, other_by, split_by};
ghost use Rattle.pay_group.specs.Book.{twice_at, twice_from};
ghost use Rattle.pay_group.specs.declared.booking.BookFault.TheVariants.{Memory};

use crate::laws::backed_is_listed;
use crate::listing::group_lists;
use crate::texts::GroupFault;
use pay_audit::{Export, Verdict, export_of_lists, other_genesis};
use std::alloc::{AllocError, AllocFailed, Global};
use thiserror::Error;

/// The reason why exports, named by their places from 0, have no group ledger.
#[derive(Clone, Copy, Debug, PartialEq, Eq, Error)]
pub enum BookFault {
    /// An allocation failed.
    #[error("no memory")]
    Memory,
    /// An export has another genesis than export 0.
    #[error("1 genesis {export}")]
    OtherGenesis { export: usize },
    /// Two exports belong to one member.
    #[error("5 twice {one} {other}")]
    Twice { one: usize, other: usize },
    /// There are no more exports than there may be faulty members.
    #[error("6 few {count}")]
    Few { count: usize },
    /// Two values under one number of an account are each listed by more exports than there may be
    /// faulty members.
    #[error("7 split account {account} seq {seq}")]
    Split { account: u16, seq: u32 },
}

impl From<AllocError> for BookFault {
    ghost from_gives = { λ _ e. e ≡ Memory };

    fn from(_error: AllocError) -> BookFault {
        BookFault::Memory
    }
}

impl<T: Drop> From<AllocFailed<T>> for BookFault {
    ghost from_gives = { λ _ e. e ≡ Memory };

    fn from(_error: AllocFailed<T>) -> BookFault {
        BookFault::Memory
    }
}

/// Returns the group ledger of `exports`. For each account it has the longest list that more than
/// `f` of them begin with, and all that these lists allow is settled.
// promise: group's book
pub fn group_book(alloc: Global, exports: &[Export]) -> Result<Export, BookFault>
    ensures book { IfOk result (IsGroupBook exports.now) }
    ensures fault { IfErr result (HasNoBook exports.now) }
{
    if let Some(verdict) = other_genesis(exports) {
        return Err(other_by(verdict));
    }
    if let Some(fault) = twice(exports) {
        return Err(fault);
    }
    let count = exports.len();
    let Some(first) = exports.first() else {
        return Err(BookFault::Few { count });
    };
    if count <= usize::from(first.genesis().faults()) {
        return Err(BookFault::Few { count });
    }
    settled_book(alloc, exports, first)
}

/// Returns the ledger of `exports`, which have one genesis and belong to different members. There
/// are more exports than there may be faulty members. `first` is the first of them.
fn settled_book(alloc: Global, exports: &[Export], first: &Export) -> Result<Export, BookFault>
    requires first { slice_get exports.now 0 ≡ Some first.now }
    requires are { AreOfGroup first.now.genesis exports.now }
    ensures book { IfOk result (IsGroupBook exports.now) }
    ensures fault { IfErr result (HasNoBook exports.now) }
{
    backed_is_listed();
    let genesis = first.genesis();
    let member = first.member();
    let sources = lend_each(alloc, exports)?;
    match group_lists(
        alloc,
        sources.as_slice(),
        genesis.members(),
        genesis.faults(),
    ) {
        Ok(lists) => Ok(export_of_lists(alloc, genesis, member, &lists)?),
        Err(fault) => Err(split_by(fault)),
    }
}

// Returns another genesis as a fault. No other verdict comes here.
fn other_by(verdict: Verdict) -> BookFault
    ensures { result ≡ other_by verdict }
{
    match verdict {
        Verdict::OtherGenesis { export } => BookFault::OtherGenesis { export },
        _ => BookFault::Memory,
    }
}

fn split_by(fault: GroupFault) -> BookFault
    ensures { result ≡ split_by fault }
{
    match fault {
        GroupFault::Split { owner, seq } => BookFault::Split {
            account: owner,
            seq,
        },
        GroupFault::Memory => BookFault::Memory,
    }
}

// Returns references to all exports.
fn lend_each<'a>(alloc: Global, exports: &'a [Export]) -> Result<Vec<&'a Export>, AllocError>
    ensures lent { IfOk result (λ lent. map (λ e. e.now) lent.items ≡ exports.now) }
    ensures limits { IfOk result (λ _. Each IsExport exports.now) }
{
    let mut lent = Vec::with_capacity(alloc, exports.len())?;
    for export in exports {
        // for the limits of an export: the call does nothing
        export.member();
        lent.push(export)?;
    }
    Ok(lent)
}

// Returns the first two exports of one member.
fn twice(exports: &[Export]) -> Option<BookFault>
    ensures { result ≡ twice_from 0 exports.now }
{
    for (place, export) in exports.iter().enumerate() {
        let next = place + 1;
        let twice = twice_after(place, export, next, &exports[next..]);
        if twice.is_some() {
            return twice;
        }
    }
    None
}

// Returns the first export of the member of export `one` among those that follow. The first of
// these has the place `next`.
fn twice_after(one: usize, export: &Export, next: usize, following: &[Export]) -> Option<BookFault>
    requires { next + length following.now < 2 ^ 64 }
    ensures { result ≡ first_from (twice_at one export.now.member) next following.now }
{
    for (k, other) in following.iter().enumerate() {
        if other.member() == export.member() {
            return Some(BookFault::Twice {
                one,
                other: next + k,
            });
        }
    }
    None
}
