//! The export that follows from lists alone.

ghost use Rattle.std.specs.Prelude.{◌≡◌, ◌<◌, ◌≤◌, ℕ, IfOk, length, map, replicate};
ghost use Rattle.std.specs.List.{range_with_len};
ghost use Rattle.pay_audit.specs.ByLists.{HasOwnBook};
ghost use Rattle.pay_audit.specs.Export.{AreShort, IsExport};
ghost use Rattle.pay_frame.specs.declared.limits.TheConstants.{SEQS};

use crate::auditing::settle_export;
use crate::exported::{Export, OwnerList};
use pay_book::Settle;
use pay_book::laws::settled_book_exists;
use pay_channel::Source;
use pay_link::Genesis;
use pay_pending::WaitingBook;
use std::alloc::{AllocError, Global};

/// Returns what `member` of `genesis` shows if it has the lists of `source`: all is settled that
/// the lists allow.
// promise: group's book
pub fn export_of_lists<S: Source>(
    alloc: Global,
    genesis: &Genesis,
    member: u16,
    source: &S,
) -> Result<Export, AllocError>
    requires member { member < genesis.now.members }
    requires short { (owner : ℕ) → length (S.lists source.now owner) ≤ SEQS }
    ensures genesis { IfOk result (λ e. e.genesis ≡ genesis.now) }
    ensures member { IfOk result (λ e. e.member ≡ member) }
    ensures lists { IfOk result (λ e. e.lists
        ≡ map (S.lists source.now) (range_with_len 0 genesis.now.members)) }
    ensures book { IfOk result HasOwnBook }
    ensures limits { IfOk result IsExport }
{
    let members = genesis.members();
    let unsettled = Export {
        genesis: genesis.copy(alloc)?,
        member,
        lists: lists_from(alloc, source, members)?,
        front: zeros(alloc, members)?,
        balances: zeros(alloc, members)?,
    };
    with_own_book(alloc, unsettled)
}

/// Returns an export with the lists of `export`, and the front and the balances of their ledger.
fn with_own_book(alloc: Global, export: Export) -> Result<Export, AllocError>
    ensures genesis { IfOk result (λ e. e.genesis ≡ export.genesis) }
    ensures member { IfOk result (λ e. e.member ≡ export.member) }
    ensures lists { IfOk result (λ e. e.lists ≡ export.lists) }
    ensures book { IfOk result HasOwnBook }
    ensures limits { IfOk result IsExport }
{
    settled_book_exists();
    let book: WaitingBook = settle_export(alloc, &export)?;
    let members = export.genesis.members();
    let front = front_in(alloc, &book, members)?;
    let balances = balances_in(alloc, &book, members)?;
    let Export {
        genesis,
        member,
        lists,
        ..
    } = export;
    Ok(Export {
        genesis,
        member,
        lists,
        front,
        balances,
    })
}

/// Returns the lists of the first `accounts` accounts of `source`.
fn lists_from<S: Source>(
    alloc: Global,
    source: &S,
    accounts: u16,
) -> Result<Vec<OwnerList>, AllocError>
    requires { (owner : ℕ) → length (S.lists source.now owner) ≤ SEQS }
    ensures lists { IfOk result (λ lists.
        lists.items ≡ map (S.lists source.now) (range_with_len 0 accounts)) }
    ensures short { IfOk result (λ lists. AreShort lists.items) }
{
    let mut lists = Vec::with_capacity(alloc, usize::from(accounts))?;
    for owner in 0..accounts {
        lists.push(OwnerList::from_source(alloc, source, owner)?)?;
    }
    Ok(lists)
}

/// Returns `count` zeros.
fn zeros(alloc: Global, count: u16) -> Result<Vec<u64>, AllocError>
    ensures { IfOk result (λ zeros. zeros.items ≡ replicate count 0) }
{
    let mut zeros = Vec::with_capacity(alloc, usize::from(count))?;
    for _ in 0..count {
        zeros.push(0)?;
    }
    Ok(zeros)
}

/// Returns how many entries of each account are settled in `book`.
fn front_in<B: Settle>(alloc: Global, book: &B, accounts: u16) -> Result<Vec<u64>, AllocError>
    requires opening { length (B.shows book.now).opening ≡ accounts }
    requires front { length (B.shows book.now).front ≡ accounts }
    ensures { IfOk result (λ front. front.items ≡ (B.shows book.now).front) }
{
    let mut front = Vec::with_capacity(alloc, usize::from(accounts))?;
    for account in 0..accounts {
        front.push(u64::from(book.front(account)))?;
    }
    Ok(front)
}

/// Returns the balances of `book`.
fn balances_in<B: Settle>(alloc: Global, book: &B, accounts: u16) -> Result<Vec<u64>, AllocError>
    requires opening { length (B.shows book.now).opening ≡ accounts }
    requires balances { length (B.shows book.now).balances ≡ accounts }
    ensures { IfOk result (λ balances. balances.items ≡ (B.shows book.now).balances) }
{
    let mut balances = Vec::with_capacity(alloc, usize::from(accounts))?;
    for account in 0..accounts {
        balances.push(book.balance(account))?;
    }
    Ok(balances)
}
