//! The lines of a group ledger.

ghost use Rattle.std.specs.Prelude.{◌≡◌, ◌++◌, map, IfOk, OnOk, ◌<◌, ◌^◌, length, sum};
ghost use Rattle.std.specs.List.{enumerate_from, flat_map, range_with_len};
ghost use Rattle.pay_audit.specs.Findings.{payment_or_void};
ghost use Rattle.pay_book.specs.Payment.{entries_in};
ghost use Rattle.pay_book.specs.Statement.{numbered_entries_of};
ghost use Rattle.pay_group.specs.Book.{AreOfSize};
ghost use Rattle.pay_group.specs.Text.{account_words, against_words, all_export_words};
ghost use Rattle.pay_group.specs.Text.{all_waiting_words, beyond_words, claim_words, export_words};
ghost use Rattle.pay_group.specs.Text.{if_waits, lack_words, shortfall_words, total_words};
ghost use Rattle.pay_group.specs.Text.{account_waiting_words, waits_words};

use pay_audit::{Export, difference_at};
use pay_book::laws::values_count_their_entries;
use pay_book::{Entry, entries_in, entry_at};
use pay_channel::Source;
use pay_text::{push_number, push_word};
use std::alloc::{AllocError, Global};

/// Returns the entries in the list of `account` in `source`, in their order, each with the number
/// of its value.
pub(crate) fn numbered_entries<S: Source>(
    alloc: Global,
    source: &S,
    accounts: u16,
    account: u16,
) -> Result<Vec<(u32, Entry)>, AllocError>
    ensures { IfOk result (λ entries. entries.items
        ≡ numbered_entries_of accounts (S.lists source.now) account) }
{
    let mut entries = Vec::new(alloc);
    for seq in 0..source.length(account) {
        push_entries(
            &mut entries,
            source.at(account, seq),
            seq,
            account,
            accounts,
        )?;
    }
    Ok(entries)
}

// Appends the entries of a value to `entries`.
fn push_entries(
    entries: &mut Vec<(u32, Entry)>,
    value: &[u8],
    seq: u32,
    account: u16,
    accounts: u16,
) -> Result<(), AllocError>
    ensures { OnOk result (entries.new.items ≡ entries.old.items
        ++ map (λ e. (seq, e)) (entries_in accounts account value.now)) }
{
    values_count_their_entries();
    for place in 0..entries_in(value) {
        entries.push((seq, entry_at(value, place, account, accounts)))?;
    }
    Ok(())
}

/// Appends how many entries of each account are settled, and its balance, to `out`.
pub(crate) fn push_accounts(out: &mut Vec<u8>, book: &Export) -> Result<(), AllocError>
    ensures { OnOk result (out.new.items ≡ out.old.items
        ++ flat_map (account_words book.now) (range_with_len 0 book.now.genesis.members)) }
{
    for account in 0..book.genesis().members() {
        push_account(out, book, account)?;
    }
    Ok(())
}

#[tactic(auto, unfolding(crate::specs::Text::account_words))]
fn push_account(out: &mut Vec<u8>, book: &Export, account: u16) -> Result<(), AllocError>
    requires { account < book.now.genesis.members }
    ensures { OnOk result (out.new.items ≡ out.old.items ++ account_words book.now account) }
{
    push_word(out, "account ")?;
    push_number(out, u64::from(account))?;
    push_word(out, " settled ")?;
    push_number(out, book.front(account))?;
    push_word(out, " balance ")?;
    push_number(out, book.balance(account))?;
    push_word(out, "\n")
}

/// Appends what waits in `book`, account by account, to `out`.
pub(crate) fn push_all_waiting(
    alloc: Global,
    out: &mut Vec<u8>,
    book: &Export,
) -> Result<(), AllocError>
    ensures { OnOk result (out.new.items ≡ out.old.items ++ all_waiting_words book.now) }
{
    for account in 0..book.genesis().members() {
        push_waiting(alloc, out, book, account)?;
    }
    Ok(())
}

// Appends an account's entries after its front.
#[tactic(auto, unfolding(crate::specs::Text::account_waiting_words))]
fn push_waiting(
    alloc: Global,
    out: &mut Vec<u8>,
    book: &Export,
    account: u16,
) -> Result<(), AllocError>
    requires { account < book.now.genesis.members }
    ensures { OnOk result
        (out.new.items ≡ out.old.items ++ account_waiting_words book.now account) }
{
    let entries = numbered_entries(alloc, book, book.genesis().members(), account)?;
    push_those_that_wait(out, book, account, entries.as_slice())
}

fn push_those_that_wait(
    out: &mut Vec<u8>,
    book: &Export,
    account: u16,
    entries: &[(u32, Entry)],
) -> Result<(), AllocError>
    requires { account < book.now.genesis.members }
    ensures { OnOk result (out.new.items ≡ out.old.items
        ++ flat_map (if_waits book.now account) (enumerate_from 0 entries.now)) }
{
    for (number, numbered) in entries.iter().enumerate() {
        push_if_waiting(out, book, account, number as u64, *numbered)?;
    }
    Ok(())
}

// Appends an entry, if it isn't settled.
fn push_if_waiting(
    out: &mut Vec<u8>,
    book: &Export,
    account: u16,
    number: u64,
    numbered: (u32, Entry),
) -> Result<(), AllocError>
    requires { account < book.now.genesis.members }
    ensures { OnOk result (out.new.items
        ≡ out.old.items ++ if_waits book.now account (number, numbered)) }
{
    if number < book.front(account) {
        return Ok(());
    }
    push_waits(out, book, account, number, numbered.0, numbered.1)
}

#[tactic(auto, unfolding(crate::specs::Text::waits_words))]
fn push_waits(
    out: &mut Vec<u8>,
    book: &Export,
    account: u16,
    number: u64,
    seq: u32,
    entry: Entry,
) -> Result<(), AllocError>
    requires { account < book.now.genesis.members }
    ensures { OnOk result (out.new.items
        ≡ out.old.items ++ waits_words book.now account number seq entry) }
{
    push_word(out, "waits account ")?;
    push_number(out, u64::from(account))?;
    push_word(out, " entry ")?;
    push_number(out, number)?;
    push_word(out, " seq ")?;
    push_number(out, u64::from(seq))?;
    push_entry(out, entry)?;
    push_lack(out, book, account, number, entry)?;
    push_word(out, "\n")
}

#[tactic(auto, unfolding(pay_audit::specs::Findings::payment_or_void))]
fn push_entry(out: &mut Vec<u8>, entry: Entry) -> Result<(), AllocError>
    ensures { OnOk result (out.new.items ≡ out.old.items ++ payment_or_void entry) }
{
    match entry {
        Entry::Pay { payee, amount } => {
            push_word(out, " to ")?;
            push_number(out, u64::from(payee))?;
            push_word(out, " amount ")?;
            push_number(out, amount)
        }
        Entry::Void => push_word(out, " void"),
    }
}

// Appends what the balance lacks for an account's first payment that waits.
fn push_lack(
    out: &mut Vec<u8>,
    book: &Export,
    account: u16,
    number: u64,
    entry: Entry,
) -> Result<(), AllocError>
    requires { account < book.now.genesis.members }
    ensures { OnOk result (out.new.items
        ≡ out.old.items ++ lack_words book.now account number entry) }
{
    if number == book.front(account) {
        push_short(out, book.balance(account), entry)
    } else {
        Ok(())
    }
}

#[tactic(auto, unfolding(crate::specs::Text::shortfall_words))]
fn push_short(out: &mut Vec<u8>, balance: u64, entry: Entry) -> Result<(), AllocError>
    ensures { OnOk result (out.new.items ≡ out.old.items ++ shortfall_words balance entry) }
{
    match entry {
        Entry::Pay { amount, .. } => {
            push_word(out, " short ")?;
            push_number(out, amount.saturating_sub(balance))
        }
        Entry::Void => Ok(()),
    }
}

/// Appends what is beyond the ledger `book`, for each of the `exports`, to `out`.
pub(crate) fn push_all_exports(
    out: &mut Vec<u8>,
    book: &Export,
    exports: &[Export],
) -> Result<(), AllocError>
    requires { AreOfSize book.now.genesis.members exports.now }
    ensures { OnOk result (out.new.items ≡ out.old.items
        ++ all_export_words book.now exports.now) }
{
    for (place, export) in exports.iter().enumerate() {
        push_export(out, book, place as u64, export)?;
    }
    Ok(())
}

#[tactic(auto, unfolding(crate::specs::Text::export_words))]
fn push_export(
    out: &mut Vec<u8>,
    book: &Export,
    place: u64,
    export: &Export,
) -> Result<(), AllocError>
    requires { export.now.genesis.members ≡ book.now.genesis.members }
    ensures { OnOk result (out.new.items ≡ out.old.items
        ++ export_words book.now place export.now) }
{
    for account in 0..book.genesis().members() {
        push_beyond(out, book, place, export, account)?;
    }
    Ok(())
}

// Appends the place at which an export has another value of an account within the group's list, or
// else continues after its end.
#[tactic(auto, unfolding(crate::specs::Text::beyond_words))]
fn push_beyond(
    out: &mut Vec<u8>,
    book: &Export,
    place: u64,
    export: &Export,
    account: u16,
) -> Result<(), AllocError>
    requires book { account < book.now.genesis.members }
    requires export { account < export.now.genesis.members }
    ensures { OnOk result (out.new.items ≡ out.old.items
        ++ beyond_words book.now place export.now account) }
{
    let end = book.length(account);
    match difference_at(book, export, account) {
        Some(seq) => push_claim(out, "differs", place, account, seq),
        None => {
            if end < export.length(account) {
                push_claim(out, "beyond", place, account, end)
            } else {
                Ok(())
            }
        }
    }
}

#[tactic(auto, unfolding(crate::specs::Text::claim_words))]
fn push_claim(
    out: &mut Vec<u8>,
    word: &str,
    place: u64,
    account: u16,
    seq: u32,
) -> Result<(), AllocError>
    ensures { OnOk result (out.new.items ≡ out.old.items
        ++ claim_words word.now place account seq) }
{
    push_word(out, word)?;
    push_word(out, " ")?;
    push_number(out, place)?;
    push_word(out, " account ")?;
    push_number(out, u64::from(account))?;
    push_word(out, " seq ")?;
    push_number(out, u64::from(seq))?;
    push_word(out, "\n")
}

/// Appends the sum of all balances to `out`.
#[tactic(auto, unfolding(crate::specs::Text::total_words))]
pub(crate) fn push_total(out: &mut Vec<u8>, book: &Export) -> Result<(), AllocError>
    requires total { sum book.now.balances < 2 ^ 64 }
    requires count { length book.now.balances ≡ book.now.genesis.members }
    ensures { OnOk result (out.new.items ≡ out.old.items ++ total_words book.now) }
{
    push_word(out, "total ")?;
    push_number(out, total(book))?;
    push_word(out, "\n")
}

fn total(book: &Export) -> u64
    requires total { sum book.now.balances < 2 ^ 64 }
    requires count { length book.now.balances ≡ book.now.genesis.members }
    ensures { result ≡ sum book.now.balances }
{
    let mut total = 0;
    for account in 0..book.genesis().members() {
        total += book.balance(account);
    }
    total
}
