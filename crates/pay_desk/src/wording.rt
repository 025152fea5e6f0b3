//! The words of a desk's answers: statements, entries that settled or wait, and fronts.

ghost use Rattle.std.specs.Prelude.{◌≡◌, ◌++◌, OnOk, ◌+◌, ◌<◌, ◌^◌, length, ◌≤◌, [], ℕ, List, IfOk};
ghost use Rattle.std.specs.Prelude.{OnErr, true, vec_capacity, vec_len};
ghost use Rattle.std.specs.List.{flat_map};
ghost use Rattle.pay_desk.specs.Answers.{if_there, stated_words};
ghost use Rattle.pay_desk.specs.Calls.{is_long};
ghost use Rattle.pay_desk.specs.Words.{end_words, line_words, statement_words, entries_words};
ghost use Rattle.pay_desk.specs.Words.{entry_words, next_entry_words, payment_words, settled_words};
ghost use Rattle.pay_desk.specs.Words.{short_by, short_words, void_words, waiting_words};
ghost use Rattle.pay_desk.specs.Words.{front_words, state_words};
ghost use Rattle.pay_book.specs.declared.line.Line.TheVariants as line;

use crate::fault::DeskFault;
use crate::putting::{MOST_ANSWER, MOST_FRONT, put_front, put_refused, put_state, room_for};
use pay_book::{Entry, Excerpt, Line, ShownEntry, Statement};
use pay_frame::Bytes;
use pay_member::question::{AllFronts, EntriesOf, StateOf, StatementOf, WaitingOf};
use pay_member::{PaymentState, Question, SettledCounts};
use pay_text::{push_number, push_word};
use std::alloc::{AllocError, Global};

/// Appends `lines`, those of the statement of `account`, and the `balance`, to `out`.
#[tactic(auto, unfolding(crate::specs::Words::statement_words))]
// promise: statements of exports
pub fn push_statement(
    out: &mut Vec<u8>,
    account: u16,
    lines: &[Line],
    balance: u64,
) -> Result<(), AllocError>
    ensures { OnOk result (out.new.items ≡ out.old.items
        ++ statement_words account lines.now balance) }
{
    push_lines(out, lines)?;
    push_end(out, account, balance)
}

fn push_lines(out: &mut Vec<u8>, lines: &[Line]) -> Result<(), AllocError>
    ensures { OnOk result (out.new.items ≡ out.old.items ++ flat_map line_words lines.now) }
{
    for line in lines {
        push_line(out, *line)?;
    }
    Ok(())
}

#[tactic(auto, unfolding(crate::specs::Words::line_words))]
fn push_line(out: &mut Vec<u8>, line: Line) -> Result<(), AllocError>
    ensures { OnOk result (out.new.items ≡ out.old.items ++ line_words line) }
{
    match line {
        Line::Out { seq, payee, amount } => push_out(out, seq, payee, amount),
        Line::Void { seq } => push_void(out, seq),
        Line::In { owner, seq, amount } => push_in(out, owner, seq, amount),
    }
}

#[tactic(auto, unfolding(crate::specs::Words::line_words))]
fn push_out(out: &mut Vec<u8>, seq: u32, payee: u16, amount: u64) -> Result<(), AllocError>
    ensures { OnOk result (out.new.items
        ≡ out.old.items ++ line_words (line.Out seq payee amount)) }
{
    push_word(out, "out ")?;
    push_number(out, u64::from(seq))?;
    push_word(out, " to ")?;
    push_number(out, u64::from(payee))?;
    push_word(out, " ")?;
    push_number(out, amount)?;
    push_word(out, "\n")
}

#[tactic(auto, unfolding(crate::specs::Words::line_words))]
fn push_void(out: &mut Vec<u8>, seq: u32) -> Result<(), AllocError>
    ensures { OnOk result (out.new.items ≡ out.old.items ++ line_words (line.Void seq)) }
{
    push_word(out, "void ")?;
    push_number(out, u64::from(seq))?;
    push_word(out, "\n")
}

#[tactic(auto, unfolding(crate::specs::Words::line_words))]
fn push_in(out: &mut Vec<u8>, owner: u16, seq: u32, amount: u64) -> Result<(), AllocError>
    ensures { OnOk result (out.new.items
        ≡ out.old.items ++ line_words (line.In owner seq amount)) }
{
    push_word(out, "in ")?;
    push_number(out, u64::from(owner))?;
    push_word(out, " ")?;
    push_number(out, u64::from(seq))?;
    push_word(out, " ")?;
    push_number(out, amount)?;
    push_word(out, "\n")
}

#[tactic(auto, unfolding(crate::specs::Words::end_words))]
fn push_end(out: &mut Vec<u8>, account: u16, balance: u64) -> Result<(), AllocError>
    ensures { OnOk result (out.new.items ≡ out.old.items ++ end_words account balance) }
{
    push_word(out, "end ")?;
    push_number(out, u64::from(account))?;
    push_word(out, " balance ")?;
    push_number(out, balance)?;
    push_word(out, "\n")
}

/// Appends a line for each settled entry of `account` in `excerpt`, and the number of the next, to
/// `out`.
#[tactic(auto, unfolding(crate::specs::Words::settled_words))]
pub(crate) fn push_settled(
    out: &mut Vec<u8>,
    account: u16,
    excerpt: &Excerpt,
) -> Result<(), AllocError>
    ensures { OnOk result (out.new.items
        ≡ out.old.items ++ settled_words account excerpt.now) }
{
    let entries = excerpt.entries();
    push_entries(out, "entry", account, excerpt.first(), entries)?;
    push_next(out, account, excerpt.first() + entries.len() as u64)
}

/// Appends a line for each entry of `account` in `excerpt` that waits, and what the balance lacks
/// for the first, to `out`.
#[tactic(auto, unfolding(crate::specs::Words::waiting_words))]
pub(crate) fn push_waiting(
    out: &mut Vec<u8>,
    account: u16,
    excerpt: &Excerpt,
) -> Result<(), AllocError>
    ensures { OnOk result (out.new.items
        ≡ out.old.items ++ waiting_words account excerpt.now) }
{
    let entries = excerpt.entries();
    push_entries(out, "waiting", account, excerpt.first(), entries)?;
    push_short(out, account, short_by(excerpt.balance(), entries))
}

fn push_entries(
    out: &mut Vec<u8>,
    word: &str,
    account: u16,
    first: u64,
    entries: &[ShownEntry],
) -> Result<(), AllocError>
    requires { first + length entries.now < 2 ^ 64 }
    ensures { OnOk result (out.new.items
        ≡ out.old.items ++ entries_words word.now account first entries.now) }
{
    for k in 0..entries.len() {
        push_entry(out, word, account, first + k as u64, &entries[k])?;
    }
    Ok(())
}

#[tactic(auto, unfolding(crate::specs::Words::entry_words))]
fn push_entry(
    out: &mut Vec<u8>,
    word: &str,
    account: u16,
    number: u64,
    entry: &ShownEntry,
) -> Result<(), AllocError>
    ensures { OnOk result (out.new.items
        ≡ out.old.items ++ entry_words word.now account number entry.now) }
{
    push_word(out, word)?;
    push_word(out, " ")?;
    push_number(out, u64::from(account))?;
    push_word(out, " ")?;
    push_number(out, number)?;
    push_word(out, " seq ")?;
    push_number(out, u64::from(entry.seq))?;
    push_payment(out, entry.entry, &entry.note)?;
    push_word(out, "\n")
}

#[tactic(auto, unfolding(crate::specs::Words::payment_words))]
fn push_payment(out: &mut Vec<u8>, entry: Entry, note: &Option<Bytes>) -> Result<(), AllocError>
    ensures { OnOk result (out.new.items ≡ out.old.items ++ payment_words entry note.now) }
{
    match entry {
        Entry::Pay { payee, amount } => {
            push_word(out, " to ")?;
            push_number(out, u64::from(payee))?;
            push_word(out, " ")?;
            push_number(out, amount)
        }
        Entry::Void => push_void_entry(out, note),
    }
}

#[tactic(auto, unfolding(crate::specs::Words::void_words))]
fn push_void_entry(out: &mut Vec<u8>, note: &Option<Bytes>) -> Result<(), AllocError>
    ensures { OnOk result (out.new.items ≡ out.old.items ++ void_words note.now) }
{
    match note {
        Some(text) => {
            push_word(out, " note ")?;
            out.extend_from_slice(text.as_slice())
        }
        None => push_word(out, " void"),
    }
}

#[tactic(auto, unfolding(crate::specs::Words::next_entry_words))]
fn push_next(out: &mut Vec<u8>, account: u16, number: u64) -> Result<(), AllocError>
    ensures { OnOk result (out.new.items ≡ out.old.items ++ next_entry_words account number) }
{
    push_word(out, "end ")?;
    push_number(out, u64::from(account))?;
    push_word(out, " ")?;
    push_number(out, number)?;
    push_word(out, "\n")
}

#[tactic(auto, unfolding(crate::specs::Words::short_words))]
fn push_short(out: &mut Vec<u8>, account: u16, short: u64) -> Result<(), AllocError>
    ensures { OnOk result (out.new.items ≡ out.old.items ++ short_words account short) }
{
    push_word(out, "end ")?;
    push_number(out, u64::from(account))?;
    push_word(out, " short ")?;
    push_number(out, short)?;
    push_word(out, "\n")
}

// Returns what `balance` lacks for the first of these entries.
#[tactic(auto, unfolding(crate::specs::Words::short_by))]
fn short_by(balance: u64, entries: &[ShownEntry]) -> u64
    ensures { result ≡ short_by balance entries.now }
{
    let Some(entry) = entries.first() else {
        return 0;
    };
    match entry.entry {
        Entry::Pay { amount, .. } => amount.saturating_sub(balance),
        Entry::Void => 0,
    }
}

/// A question of a desk. Room for its words is made before the call, unless they may be long.
pub(crate) trait Wording: Question {
    // The words of an answer.
    ghost words: { Self → Self.Answer → List ℕ };

    // The least room for the words.
    ghost most: { ℕ };

    /// Creates room for the words, or for those of a refusal.
    fn room(alloc: Global) -> Result<Vec<u8>, AllocError>
        ensures empty { IfOk result (λ out. out.items ≡ []) }
        ensures room { IfOk result (λ out. vec_len out + most ≤ vec_capacity out) }
        ensures refusal { IfOk result (λ out. vec_len out + MOST_ANSWER ≤ vec_capacity out) };

    /// Appends the words to `out`. Only long words can run out of memory.
    fn put(self, out: &mut Vec<u8>, answer: &Self::Answer) -> Result<(), AllocError>
        requires room { vec_len out.old + most ≤ vec_capacity out.old }
        ensures words { OnOk result (out.new.items ≡ out.old.items ++ words self answer.now) }
        ensures memory { OnErr result (is_long (Self.reading self answer.now) ≡ true) };
}

impl Wording for StateOf {
    ghost use Rattle.pay_desk.specs.declared.putting.TheConstants.{MOST_ANSWER};

    ghost words = { λ q state. if_there (state_words q.owner q.seq) state };

    ghost most = { MOST_ANSWER };

    fn room(alloc: Global) -> Result<Vec<u8>, AllocError> {
        room_for(alloc, MOST_ANSWER)
    }

    fn put(self, out: &mut Vec<u8>, answer: &Option<PaymentState>) -> Result<(), AllocError> {
        match answer {
            Some(state) => put_state(out, self.owner, self.seq, *state),
            None => put_refused(out, DeskFault::NoAccount),
        }
        Ok(())
    }
}

impl Wording for StatementOf {
    ghost use Rattle.pay_desk.specs.declared.putting.TheConstants.{MOST_ANSWER};

    ghost words = { λ q statement. if_there (stated_words q.0) statement };

    ghost most = { MOST_ANSWER };

    fn room(alloc: Global) -> Result<Vec<u8>, AllocError> {
        room_for(alloc, MOST_ANSWER)
    }

    fn put(self, out: &mut Vec<u8>, answer: &Option<Statement>) -> Result<(), AllocError> {
        match answer {
            Some(statement) => push_statement(out, self.0, statement.lines(), statement.balance()),
            None => {
                put_refused(out, DeskFault::NoAccount);
                Ok(())
            }
        }
    }
}

impl Wording for EntriesOf {
    ghost use Rattle.pay_desk.specs.declared.putting.TheConstants.{MOST_ANSWER};

    ghost words = { λ q excerpt. if_there (settled_words q.account) excerpt };

    ghost most = { MOST_ANSWER };

    fn room(alloc: Global) -> Result<Vec<u8>, AllocError> {
        room_for(alloc, MOST_ANSWER)
    }

    fn put(self, out: &mut Vec<u8>, answer: &Option<Excerpt>) -> Result<(), AllocError> {
        match answer {
            Some(excerpt) => push_settled(out, self.account, excerpt),
            None => {
                put_refused(out, DeskFault::NoAccount);
                Ok(())
            }
        }
    }
}

impl Wording for WaitingOf {
    ghost use Rattle.pay_desk.specs.declared.putting.TheConstants.{MOST_ANSWER};

    ghost words = { λ q excerpt. if_there (waiting_words q.0) excerpt };

    ghost most = { MOST_ANSWER };

    fn room(alloc: Global) -> Result<Vec<u8>, AllocError> {
        room_for(alloc, MOST_ANSWER)
    }

    fn put(self, out: &mut Vec<u8>, answer: &Option<Excerpt>) -> Result<(), AllocError> {
        match answer {
            Some(excerpt) => push_waiting(out, self.0, excerpt),
            None => {
                put_refused(out, DeskFault::NoAccount);
                Ok(())
            }
        }
    }
}

impl Wording for AllFronts {
    ghost use Rattle.pay_desk.specs.declared.putting.TheConstants.{MOST_FRONT};

    ghost words = { λ q counts. front_words counts };

    ghost most = { MOST_FRONT };

    fn room(alloc: Global) -> Result<Vec<u8>, AllocError> {
        room_for(alloc, MOST_FRONT)
    }

    fn put(self, out: &mut Vec<u8>, answer: &SettledCounts) -> Result<(), AllocError> {
        put_front(out, answer.as_slice());
        Ok(())
    }
}
