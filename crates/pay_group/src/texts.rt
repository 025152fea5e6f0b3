//! What is said about exports as a whole.

ghost use Rattle.std.specs.Prelude.{◌≡◌, ◌++◌, IfOk, OnOk};
ghost use Rattle.pay_audit.specs.Findings.{end_of_line};
ghost use Rattle.pay_group.specs.Book.{IsGroupBook};
ghost use Rattle.pay_group.specs.Text.{IsBookText, book_words, fault_words, form_words};

use crate::booking::{BookFault, group_book};
use crate::lines::{push_accounts, push_all_exports, push_all_waiting, push_total};
use pay_audit::{Export, genesis_text, next_genesis, shown_text};
use pay_book::laws::{book_keeps_total, settled_book_exists};
use pay_text::{push_number, push_word};
use std::alloc::{AllocError, AllocFailed, Global};
use thiserror::Error;

/// The reason why there is no group ledger.
#[derive(Clone, Copy, Debug, PartialEq, Eq, Error)]
pub enum GroupFault {
    /// An allocation failed.
    #[error("no memory")]
    Memory,
    /// Two values under one number of an account are each listed by more than `f` members, so more
    /// than `f` are faulty.
    #[error("two values under {seq} of account {owner}")]
    Split { owner: u16, seq: u32 },
}

impl From<AllocError> for GroupFault {
    ghost use Rattle.pay_group.specs.declared.texts.GroupFault.TheVariants.{Memory};

    ghost from_gives = { λ _ e. e ≡ Memory };

    fn from(_error: AllocError) -> GroupFault {
        GroupFault::Memory
    }
}

impl<T: Drop> From<AllocFailed<T>> for GroupFault {
    ghost use Rattle.pay_group.specs.declared.texts.GroupFault.TheVariants.{Memory};

    ghost from_gives = { λ _ e. e ≡ Memory };

    fn from(_error: AllocFailed<T>) -> GroupFault {
        GroupFault::Memory
    }
}

/// The forms of a group ledger.
#[derive(Clone, Copy, Debug, PartialEq, Eq)]
pub enum BookForm {
    /// Lines, for people.
    Lines,
    /// The genesis of the next group: each account opens with its balance.
    NextGenesis,
    /// An export.
    AsExport,
}

/// The text of a group ledger, or the line that says why there is none.
#[derive(Debug, Drop)]
pub struct Said {
    pub text: Vec<u8>,
    pub is_book: bool,
}

/// Returns what is said about `exports`, in this `form`.
// promise: group's book
pub fn book_text(alloc: Global, exports: &[Export], form: BookForm) -> Result<Said, AllocError>
    ensures { IfOk result (λ said. IsBookText exports.now form said.is_book said.text.items) }
{
    match group_book(alloc, exports) {
        Ok(book) => Ok(Said {
            text: text_in(alloc, exports, &book, form)?,
            is_book: true,
        }),
        Err(BookFault::Memory) => Err(AllocError),
        Err(fault) => Ok(Said {
            text: fault_text(alloc, fault)?,
            is_book: false,
        }),
    }
}

/// Returns the group ledger in this `form`.
#[tactic(auto, unfolding(crate::specs::Text::form_words))]
fn text_in(
    alloc: Global,
    exports: &[Export],
    book: &Export,
    form: BookForm,
) -> Result<Vec<u8>, AllocError>
    requires { IsGroupBook exports.now book.now }
    ensures { IfOk result (λ text. text.items ≡ form_words form exports.now book.now) }
{
    match form {
        BookForm::Lines => lines_text(alloc, exports, book),
        BookForm::NextGenesis => {
            let Ok(genesis) = next_genesis(alloc, book) else {
                return Err(AllocError);
            };
            line_of(alloc, genesis_text(alloc, &genesis)?.as_str())
        }
        BookForm::AsExport => line_of(alloc, shown_text(alloc, book)?.as_str()),
    }
}

/// Returns a line with this `text`.
fn line_of(alloc: Global, text: &str) -> Result<Vec<u8>, AllocError>
    ensures { IfOk result (λ line. line.items ≡ text.now ++ end_of_line) }
{
    let mut line = Vec::new(alloc);
    push_word(&mut line, text)?;
    push_word(&mut line, "\n")?;
    Ok(line)
}

#[tactic(auto, unfolding(crate::specs::Text::book_words))]
fn lines_text(alloc: Global, exports: &[Export], book: &Export) -> Result<Vec<u8>, AllocError>
    requires { IsGroupBook exports.now book.now }
    ensures { IfOk result (λ text. text.items ≡ book_words exports.now book.now) }
{
    book_keeps_total();
    settled_book_exists();
    let mut text = Vec::new(alloc);
    push_accounts(&mut text, book)?;
    push_all_waiting(alloc, &mut text, book)?;
    push_all_exports(&mut text, book, exports)?;
    push_total(&mut text, book)?;
    Ok(text)
}

/// Returns the line that says why there is no group ledger.
fn fault_text(alloc: Global, fault: BookFault) -> Result<Vec<u8>, AllocError>
    ensures { IfOk result (λ text. text.items ≡ fault_words fault) }
{
    let mut text = Vec::new(alloc);
    push_fault(&mut text, fault)?;
    Ok(text)
}

#[tactic(auto, unfolding(crate::specs::Text::fault_words))]
fn push_fault(out: &mut Vec<u8>, fault: BookFault) -> Result<(), AllocError>
    ensures { OnOk result (out.new.items ≡ out.old.items ++ fault_words fault) }
{
    match fault {
        BookFault::Memory => Ok(()),
        BookFault::OtherGenesis { export } => {
            push_word(out, "1 genesis ")?;
            push_number(out, export as u64)?;
            push_word(out, "\n")
        }
        BookFault::Twice { one, other } => {
            push_word(out, "5 twice ")?;
            push_number(out, one as u64)?;
            push_word(out, " ")?;
            push_number(out, other as u64)?;
            push_word(out, "\n")
        }
        BookFault::Few { count } => {
            push_word(out, "6 few ")?;
            push_number(out, count as u64)?;
            push_word(out, "\n")
        }
        BookFault::Split { account, seq } => {
            push_word(out, "7 split account ")?;
            push_number(out, u64::from(account))?;
            push_word(out, " seq ")?;
            push_number(out, u64::from(seq))?;
            push_word(out, "\n")
        }
    }
}
