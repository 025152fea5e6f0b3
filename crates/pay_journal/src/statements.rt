//! Statements of an export.

ghost use Rattle.std.specs.Prelude.{◌≡◌, ◌++◌, ◌<◌, IfOk, IfSome, OnOk};
ghost use Rattle.pay_audit.specs.Verdict.{book_of};
ghost use Rattle.pay_journal.specs.Statements.{account_named, lines_in, statement_in};
ghost use Rattle.pay_journal.specs.Statements.{statements_in};

use pay_audit::{Export, settle_export};
use pay_book::laws::settled_book_exists;
use pay_book::{Line, Settle, statement};
use pay_desk::push_statement;
use pay_pending::WaitingBook;
use pay_text::number;
use std::alloc::{AllocError, Global};

/// Returns the account that `word` names, if it is a number and the export has that account.
// promise: statements of exports
pub fn account_named(export: &Export, word: &[u8]) -> Option<u16>
    ensures value { result ≡ account_named export.now word.now }
    ensures limit { IfSome result (λ account. account < export.now.genesis.members) }
{
    let account = number(word)?;
    if account < u64::from(export.genesis().members()) {
        Some(account as u16)
    } else {
        None
    }
}

/// Returns the statement of `account`, as the desk of a member with these lists answers it.
// promise: statements of exports
pub fn statement_text(alloc: Global, export: &Export, account: u16) -> Result<Vec<u8>, AllocError>
    requires { account < export.now.genesis.members }
    ensures { IfOk result (λ text. text.items ≡ statement_in export.now account) }
{
    let book: WaitingBook = settle_export(alloc, export)?;
    let mut text = Vec::new(alloc);
    push_account(alloc, &mut text, export, &book, account)?;
    Ok(text)
}

/// Returns the statements of all accounts of `export`, one after the other.
// promise: statements of exports
pub fn statements_text(alloc: Global, export: &Export) -> Result<Vec<u8>, AllocError>
    ensures { IfOk result (λ texts. texts.items ≡ statements_in export.now) }
{
    let book: WaitingBook = settle_export(alloc, export)?;
    let mut texts = Vec::new(alloc);
    for account in 0..export.genesis().members() {
        push_account(alloc, &mut texts, export, &book, account)?;
    }
    Ok(texts)
}

#[tactic(auto, unfolding(crate::specs::Statements::statement_in))]
fn push_account<B: Settle>(
    alloc: Global,
    out: &mut Vec<u8>,
    export: &Export,
    book: &B,
    account: u16,
) -> Result<(), AllocError>
    requires book { B.shows book.now ≡ book_of export.now }
    requires account { account < export.now.genesis.members }
    ensures { OnOk result (out.new.items ≡ out.old.items ++ statement_in export.now account) }
{
    let lines = lines_of(alloc, export, book, account)?;
    // for the proof, the limits of a genesis: the call does nothing
    export.genesis().members();
    push_statement(out, account, lines.as_slice(), book.balance(account))
}

// Returns what settled on `account`, according to `book`, the ledger of the export's lists.
pub(crate) fn lines_of<B: Settle>(
    alloc: Global,
    export: &Export,
    book: &B,
    account: u16,
) -> Result<Vec<Line>, AllocError>
    requires book { B.shows book.now ≡ book_of export.now }
    requires account { account < export.now.genesis.members }
    ensures { IfOk result (λ lines. lines.items ≡ lines_in export.now account) }
{
    settled_book_exists();
    statement(alloc, export, book, export.genesis().members(), account)
}
