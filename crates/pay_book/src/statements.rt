//! The statement of an account.

ghost use Rattle.std.specs.Prelude.{◌≡◌, ◌+◌, ◌<◌, ◌≤◌, ◌++◌, map, take, length, slice_index, IfOk};
ghost use Rattle.std.specs.Prelude.{OnOk};
ghost use Rattle.std.specs.List.{filter_map};
ghost use Rattle.pay_book.specs.Book.{IsBook};
ghost use Rattle.pay_book.specs.Payment.{entries_of};
ghost use Rattle.pay_book.specs.Statement.{numbered_entries_of, own_line, incoming_line};
ghost use Rattle.pay_book.specs.Statement.{statement_of};

use crate::line::Line;
use crate::payment::{Entry, entry_at, place_after};
use crate::plain::Settle;
use pay_channel::Source;
use std::alloc::{AllocError, Global};

/// Returns what settled on `account`: its own entries, then the payments to it, by owner.
// promise: statements
pub fn statement<S: Source, B: Settle>(
    alloc: Global,
    source: &S,
    book: &B,
    accounts: u16,
    account: u16,
) -> Result<Vec<Line>, AllocError>
    requires book { IsBook (S.lists source.now) (B.shows book.now) }
    requires accounts { accounts ≡ length (B.shows book.now).opening }
    requires account { account < accounts }
    ensures { IfOk result (λ lines. lines.items
        ≡ statement_of accounts (S.lists source.now)
        (slice_index (B.shows book.now).front) account) }
{
    let mut lines = Vec::new(alloc);
    push_own(&mut lines, source, accounts, account, book.front(account))?;
    for owner in 0..accounts {
        push_incoming(
            &mut lines,
            source,
            accounts,
            account,
            owner,
            book.front(owner),
        )?;
    }
    Ok(lines)
}

/// Appends the lines of the account's own entries before `front`.
fn push_own<S: Source>(
    lines: &mut Vec<Line>,
    source: &S,
    accounts: u16,
    account: u16,
    front: u32,
) -> Result<(), AllocError>
    requires { front ≤ length (entries_of accounts (S.lists source.now) account) }
    ensures { OnOk result (lines.new.items
        ≡ lines.old.items ++ map (λ e. own_line e.0 e.1)
        (take front (numbered_entries_of accounts (S.lists source.now) account))) }
{
    let mut place = (0, 0);
    for number in 0..front {
        let value = source.at(account, place.0);
        let entry = entry_at(value, place.1, account, accounts);
        lines.push(own_line(place.0, entry))?;
        place = place_after(value, place);
    }
    Ok(())
}

/// Appends the lines of the payments to `account` among the entries of `owner` before `front`.
fn push_incoming<S: Source>(
    lines: &mut Vec<Line>,
    source: &S,
    accounts: u16,
    account: u16,
    owner: u16,
    front: u32,
) -> Result<(), AllocError>
    requires { front ≤ length (entries_of accounts (S.lists source.now) owner) }
    ensures { OnOk result (lines.new.items
        ≡ lines.old.items ++ filter_map (λ e. incoming_line account owner e.0 e.1)
        (take front (numbered_entries_of accounts (S.lists source.now) owner))) }
{
    let mut place = (0, 0);
    for number in 0..front {
        let value = source.at(owner, place.0);
        let entry = entry_at(value, place.1, owner, accounts);
        if let Some(line) = incoming_line(account, owner, place.0, entry) {
            lines.push(line)?;
        }
        place = place_after(value, place);
    }
    Ok(())
}

/// Returns the line of an account's own entry.
fn own_line(seq: u32, entry: Entry) -> Line
    ensures { result ≡ own_line seq entry }
{
    match entry {
        Entry::Pay { payee, amount } => Line::Out { seq, payee, amount },
        Entry::Void => Line::Void { seq },
    }
}

/// Returns the line of an `owner`'s entry on another account's statement, if it pays to `account`.
fn incoming_line(account: u16, owner: u16, seq: u32, entry: Entry) -> Option<Line>
    ensures { result ≡ incoming_line account owner seq entry }
{
    match entry {
        Entry::Pay { payee, amount } if payee == account => Some(Line::In { owner, seq, amount }),
        _ => None,
    }
}
