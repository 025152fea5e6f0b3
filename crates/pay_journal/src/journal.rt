//! The settled payments of an export as a journal.

ghost use Rattle.std.specs.Prelude.{IfOk, IfSome, IfNone, ◌≡◌, ◌++◌, ◌<◌, OnOk, codes};
ghost use Rattle.std.specs.List.{enumerate_from, flat_map, range_with_len};
ghost use Rattle.jiff.specs.Types.{Date as PlainDate};
ghost use Rattle.pay_audit.specs.Verdict.{book_of};
ghost use Rattle.pay_journal.specs.Journal.{IsDateWord, declared_words, account_transactions};
ghost use Rattle.pay_journal.specs.Journal.{entry_name, transaction_words, journal_of, names_words};
ghost use Rattle.pay_journal.specs.Journal.{opening_posting, opening_words, posting_words};
ghost use Rattle.pay_journal.specs.Journal.{title_words, journal_on};
ghost use Rattle.pay_journal.specs.Rows.{worked_export, worked_journal};

use crate::statements::lines_of;
use jiff::civil::Date;
use pay_audit::{Export, settle_export};
use pay_book::{Line, Settle};
use pay_pending::WaitingBook;
use pay_text::{push_number, push_word};
use std::alloc::{AllocError, Global};

// The first year that the program ledger supports.
const FIRST_YEAR: i16 = 1400;

/// Returns the date that `word` is, as YYYY-MM-DD, if journals can have it.
// promise: statements of exports
pub fn date_named(alloc: Global, word: &str) -> Result<Option<Date>, AllocError>
    ensures date { IfOk result (λ named. IfSome named (IsDateWord word.now)) }
    ensures none { IfOk result (λ named.
        IfNone named ((date : PlainDate) → ¬ (IsDateWord word.now date))) }
{
    let Ok(date) = word.parse::<Date>() else {
        return Ok(None);
    };
    let text = date.to_string(alloc)?;
    if text.as_str() == word && date.year() >= FIRST_YEAR {
        Ok(Some(date))
    } else {
        Ok(None)
    }
}

// A journal has one export. A second export repeats its transactions, or belongs to another group.
// The date is today's unless `--date` gives another.
/// Returns the journal of `export`, with `date` for each transaction.
#[tactic(auto, unfolding(crate::specs::Journal::journal_on))]
// promise: statements of exports
pub fn journal_text(alloc: Global, export: &Export, date: Date) -> Result<Vec<u8>, AllocError>
    ensures { IfOk result (λ text. text.items ≡ journal_of date export.now) }
{
    let book: WaitingBook = settle_export(alloc, export)?;
    let date = date.to_string(alloc)?;
    let day = date.as_str();
    let members = export.genesis().members();
    let mut text = Vec::new(alloc);
    push_names(&mut text, members)?;
    push_opening(&mut text, day, export)?;
    for account in 0..members {
        push_entries(alloc, &mut text, day, export, &book, account)?;
    }
    Ok(text)
}

// Appends the names of all accounts, and of the account that opening balances come from.
fn push_names(out: &mut Vec<u8>, members: u16) -> Result<(), AllocError>
    ensures { OnOk result (out.new.items ≡ out.old.items ++ names_words members) }
{
    for account in 0..members {
        push_declared(out, account)?;
    }
    push_word(out, "account equity:opening\n")
}

#[tactic(auto, unfolding(crate::specs::Journal::declared_words))]
fn push_declared(out: &mut Vec<u8>, account: u16) -> Result<(), AllocError>
    ensures { OnOk result (out.new.items ≡ out.old.items ++ declared_words account) }
{
    push_word(out, "account account:")?;
    push_number(out, u64::from(account))?;
    push_word(out, "\n")
}

// Appends what all accounts opened with.
#[tactic(auto, unfolding(crate::specs::Journal::opening_words))]
fn push_opening(out: &mut Vec<u8>, day: &str, export: &Export) -> Result<(), AllocError>
    ensures { OnOk result (out.new.items ≡ out.old.items ++ opening_words day.now export.now) }
{
    push_word(out, "\n")?;
    push_word(out, day)?;
    push_word(out, " opening balances\n")?;
    push_openings(out, export)?;
    push_word(out, "    equity:opening\n")
}

fn push_openings(out: &mut Vec<u8>, export: &Export) -> Result<(), AllocError>
    ensures { OnOk result (out.new.items ≡ out.old.items
        ++ flat_map (opening_posting export.now) (range_with_len 0 export.now.genesis.members)) }
{
    let genesis = export.genesis();
    for account in 0..genesis.members() {
        push_posting(out, "", account, genesis.opening(account))?;
    }
    Ok(())
}

// Appends what settled of an account's own entries, according to `book`, the ledger of the export's
// lists.
#[tactic(auto, unfolding(crate::specs::Journal::account_transactions))]
fn push_entries<B: Settle>(
    alloc: Global,
    out: &mut Vec<u8>,
    day: &str,
    export: &Export,
    book: &B,
    account: u16,
) -> Result<(), AllocError>
    requires book { B.shows book.now ≡ book_of export.now }
    requires account { account < export.now.genesis.members }
    ensures { OnOk result (out.new.items
        ≡ out.old.items ++ account_transactions day.now export.now account) }
{
    let lines = lines_of(alloc, export, book, account)?;
    push_lines(out, day, account, lines.as_slice())
}

fn push_lines(out: &mut Vec<u8>, day: &str, account: u16, lines: &[Line]) -> Result<(), AllocError>
    ensures { OnOk result (out.new.items ≡ out.old.items
        ++ flat_map (λ l. transaction_words day.now account l.0 l.1) (enumerate_from 0 lines.now)) }
{
    for (number, line) in lines.iter().enumerate() {
        push_entry(out, day, account, number as u64, *line)?;
    }
    Ok(())
}

#[tactic(auto, unfolding(crate::specs::Journal::transaction_words))]
fn push_entry(
    out: &mut Vec<u8>,
    day: &str,
    account: u16,
    number: u64,
    line: Line,
) -> Result<(), AllocError>
    ensures { OnOk result (out.new.items
        ≡ out.old.items ++ transaction_words day.now account number line) }
{
    match line {
        Line::Out { seq, payee, amount } => {
            push_title(out, day, account, number, seq)?;
            push_posting(out, "-", account, amount)?;
            push_posting(out, "", payee, amount)
        }
        Line::Void { seq } => {
            push_word(out, "\n; void ")?;
            push_name(out, account, seq, number)
        }
        Line::In { .. } => Ok(()),
    }
}

// Appends the first line of a transaction.
#[tactic(auto, unfolding(crate::specs::Journal::title_words))]
fn push_title(
    out: &mut Vec<u8>,
    day: &str,
    account: u16,
    number: u64,
    seq: u32,
) -> Result<(), AllocError>
    ensures { OnOk result (out.new.items
        ≡ out.old.items ++ title_words day.now account number seq) }
{
    push_word(out, "\n")?;
    push_word(out, day)?;
    push_word(out, " (")?;
    push_number(out, u64::from(account))?;
    push_word(out, ".")?;
    push_number(out, number)?;
    push_word(out, ") ")?;
    push_name(out, account, seq, number)
}

#[tactic(auto, unfolding(crate::specs::Journal::entry_name))]
fn push_name(out: &mut Vec<u8>, account: u16, seq: u32, number: u64) -> Result<(), AllocError>
    ensures { OnOk result (out.new.items ≡ out.old.items ++ entry_name account seq number) }
{
    push_word(out, "account ")?;
    push_number(out, u64::from(account))?;
    push_word(out, " seq ")?;
    push_number(out, u64::from(seq))?;
    push_word(out, " entry ")?;
    push_number(out, number)?;
    push_word(out, "\n")
}

#[tactic(auto, unfolding(crate::specs::Journal::posting_words))]
fn push_posting(out: &mut Vec<u8>, sign: &str, account: u16, amount: u64) -> Result<(), AllocError>
    ensures { OnOk result (out.new.items
        ≡ out.old.items ++ posting_words sign.now account amount) }
{
    push_word(out, "    account:")?;
    push_number(out, u64::from(account))?;
    push_word(out, "  ")?;
    push_word(out, sign)?;
    push_number(out, amount)?;
    push_word(out, "\n")
}

/// States the journal of an example with several payments in one value, one that waits, and a void
/// one.
pub fn journal_by_hand()
    ensures { journal_on (codes "2026-01-31") worked_export ≡ worked_journal }
{}
