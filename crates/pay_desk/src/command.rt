//! The commands of a desk, and how its lines are read.

ghost use Rattle.std.specs.Prelude.{◌≡◌, ◌≤◌, length, IfOk, IfSome, drop, Some};
ghost use Rattle.std.specs.Str.{bytes_eq};
ghost use Rattle.pay_desk.specs.Commands.{AsksFew, balance_in, command_by, command_in, first_seq};
ghost use Rattle.pay_desk.specs.Commands.{entries_command, if_last, note_command, note_under};
ghost use Rattle.pay_desk.specs.Commands.{pay_in, pays_in, rest_of_line, state_in};
ghost use Rattle.pay_desk.specs.Commands.{statement_command_in, waiting_command};
ghost use Rattle.pay_desk.specs.Payments.{HasFew, if_named, pairs_of, value_of_payments};

use pay_book::{MOST_PAYMENTS, note_text, payment_value, payments_named, payments_value};
use pay_frame::{Bytes, GREATEST_VALUE, SEQS};
use pay_text::{Pairs, Words, read_pairs};
use std::alloc::{AllocError, Global};

/// The payments of a line: accounts by any numbers, and what each gets.
#[derive(Debug, Drop)]
pub enum Payments {
    /// A payment in a value of its own.
    One { to: u64, amount: u64 },
    /// Several payments in one value.
    Several(Pairs),
}

impl Payments {
    /// Returns the value of the payments, unless it can't name one of the payees.
    pub(crate) fn value(&self, alloc: Global) -> Result<Option<Bytes>, AllocError>
        requires { HasFew self.now }
        ensures value { IfOk result
            (λ value. value ≡ if_named self.now (value_of_payments self.now)) }
        ensures short { IfOk result (λ value. IfSome value (λ v. length v ≤ GREATEST_VALUE)) }
    {
        match self {
            Payments::One { to, amount } => one_value(alloc, *to, *amount),
            Payments::Several(pairs) => several_value(alloc, pairs.as_slice()),
        }
    }
}

fn one_value(alloc: Global, to: u64, amount: u64) -> Result<Option<Bytes>, AllocError>
    ensures value { IfOk result (λ value.
        value ≡ if_named (Payments.One to amount) (value_of_payments (Payments.One to amount))) }
    ensures short { IfOk result (λ value. IfSome value (λ v. length v ≤ GREATEST_VALUE)) }
{
    let Ok(payee) = u16::try_from(to) else {
        return Ok(None);
    };
    let value = Bytes::from_slice(alloc, &payment_value(payee, amount))?;
    Ok(Some(value))
}

fn several_value(alloc: Global, pairs: &[(u64, u64)]) -> Result<Option<Bytes>, AllocError>
    requires { length pairs.now ≤ MOST_PAYMENTS }
    ensures value { IfOk result (λ value.
        value ≡ if_named (Payments.Several pairs.now)
        (value_of_payments (Payments.Several pairs.now))) }
    ensures short { IfOk result (λ value. IfSome value (λ v. length v ≤ GREATEST_VALUE)) }
{
    let Some(payments) = payments_named(alloc, pairs)? else {
        return Ok(None);
    };
    let value = payments_value(alloc, payments.as_slice())?;
    Ok(Some(value))
}

/// The greatest size of a command in bytes, without its line feed. A longer line is no command.
pub const MOST_LINE: usize = 1_024;

/// The request of a `PAY` or a `PAYS` line: these payments, once under this id.
#[derive(Debug, Drop)]
pub struct Order {
    pub id: u64,
    pub payments: Payments,
}

/// The request of a desk's line.
#[derive(Debug, Drop)]
pub enum Command {
    Pay(Order),
    /// A note of this text in the owner's name, once under this id.
    Note { id: u64, text: Bytes },
    /// An account's balance.
    Balance(u64),
    /// What became of the value under a number of an account.
    State { owner: u64, seq: u32 },
    /// All that settled of an account, and what was paid to it.
    Statement(u64),
    /// What settled of an account from a number on.
    Entries { account: u64, from: u64 },
    /// What an account submitted or has listed and isn't settled.
    Waiting(u64),
    /// The counts of settled entries of all accounts.
    Front,
}

/// Returns the request of `line`, or `None` if it is no command.
#[tactic(auto, unfolding(crate::specs::Commands::command_in))]
// promise: desk lines
pub fn read_command(alloc: Global, line: &[u8]) -> Result<Option<Command>, AllocError>
    ensures command { IfOk result (λ command. command ≡ command_in line.now) }
    ensures few { IfOk result (λ command. IfSome command AsksFew) }
{
    if line.len() > MOST_LINE {
        return Ok(None);
    }
    read_words(alloc, Words::new(line))
}

#[tactic(auto, unfolding(crate::specs::Commands::command_by))]
fn read_words(alloc: Global, words: Words) -> Result<Option<Command>, AllocError>
    ensures command { IfOk result (λ command. command ≡ command_by words.entry) }
    ensures few { IfOk result (λ command. IfSome command AsksFew) }
{
    let mut words = words;
    let Some(name) = words.next_word() else {
        return Ok(None);
    };
    if is_word(name, "PAY") {
        Ok(read_pay(&mut words))
    } else if is_word(name, "PAYS") {
        read_pays(alloc, &mut words)
    } else if is_word(name, "NOTE") {
        read_note(alloc, &mut words)
    } else if is_word(name, "BALANCE") {
        Ok(read_balance(&mut words))
    } else if is_word(name, "STATE") {
        Ok(read_state(&mut words))
    } else if is_word(name, "STATEMENT") {
        Ok(read_statement(&mut words))
    } else if is_word(name, "ENTRIES") {
        Ok(read_entries(&mut words))
    } else if is_word(name, "WAITING") {
        Ok(read_waiting(&mut words))
    } else if is_word(name, "FRONT") {
        Ok(if_last(&words, Command::Front))
    } else {
        Ok(None)
    }
}

#[tactic(auto, unfolding(crate::specs::Commands::pay_in))]
fn read_pay(words: &mut Words) -> Option<Command>
    ensures command { result ≡ pay_in words.old }
    ensures few { IfSome result AsksFew }
{
    let id = words.next_number()?;
    let to = words.next_number()?;
    let amount = words.next_number()?;
    let payments = Payments::One { to, amount };
    if_last(words, Command::Pay(Order { id, payments }))
}

#[tactic(auto, unfolding(crate::specs::Commands::pays_in))]
fn read_pays(alloc: Global, words: &mut Words) -> Result<Option<Command>, AllocError>
    ensures command { IfOk result (λ command. command ≡ pays_in words.old) }
    ensures few { IfOk result (λ command. IfSome command AsksFew) }
{
    let Some(id) = words.next_number() else {
        return Ok(None);
    };
    let Some(pairs) = read_pairs(alloc, words, usize::from(MOST_PAYMENTS))? else {
        return Ok(None);
    };
    let payments = Payments::Several(pairs);
    Ok(Some(Command::Pay(Order { id, payments })))
}

#[tactic(auto, unfolding(crate::specs::Commands::note_command))]
fn read_note(alloc: Global, words: &mut Words) -> Result<Option<Command>, AllocError>
    ensures command { IfOk result (λ command. command ≡ note_command words.old) }
    ensures few { IfOk result (λ command. IfSome command AsksFew) }
{
    let Some(id) = words.next_number() else {
        return Ok(None);
    };
    let Some(text) = rest_of_line(alloc, words)? else {
        return Ok(None);
    };
    Ok(note_under(id, text))
}

// Returns the command for a note of this `text`, if a note may contain it.
#[tactic(auto, using(crate::proofs::Texts::few))]
fn note_under(id: u64, text: Bytes) -> Option<Command>
    ensures command { result ≡ note_under id text }
    ensures few { IfSome result AsksFew }
{
    if note_text(text.as_slice()).is_some() {
        Some(Command::Note { id, text })
    } else {
        None
    }
}

#[tactic(auto, unfolding(crate::specs::Commands::balance_in))]
fn read_balance(words: &mut Words) -> Option<Command>
    ensures command { result ≡ balance_in words.old }
    ensures few { IfSome result AsksFew }
{
    let account = words.next_number()?;
    if_last(words, Command::Balance(account))
}

#[tactic(auto, unfolding(crate::specs::Commands::state_in))]
fn read_state(words: &mut Words) -> Option<Command>
    ensures command { result ≡ state_in words.old }
    ensures few { IfSome result AsksFew }
{
    let owner = words.next_number()?;
    let seq = next_seq(words)?;
    if_last(words, Command::State { owner, seq })
}

#[tactic(auto, unfolding(crate::specs::Commands::statement_command_in))]
fn read_statement(words: &mut Words) -> Option<Command>
    ensures command { result ≡ statement_command_in words.old }
    ensures few { IfSome result AsksFew }
{
    let account = words.next_number()?;
    if_last(words, Command::Statement(account))
}

#[tactic(auto, unfolding(crate::specs::Commands::entries_command))]
fn read_entries(words: &mut Words) -> Option<Command>
    ensures command { result ≡ entries_command words.old }
    ensures few { IfSome result AsksFew }
{
    let account = words.next_number()?;
    let from = words.next_number()?;
    if_last(words, Command::Entries { account, from })
}

#[tactic(auto, unfolding(crate::specs::Commands::waiting_command))]
fn read_waiting(words: &mut Words) -> Option<Command>
    ensures command { result ≡ waiting_command words.old }
    ensures few { IfSome result AsksFew }
{
    let account = words.next_number()?;
    if_last(words, Command::Waiting(account))
}

// Removes a word, and returns it as the number of a payment.
fn next_seq(words: &mut Words) -> Option<u32>
    ensures number { result ≡ first_seq words.old }
    ensures rest { words.new ≡ drop 1 words.old }
{
    let number = words.next_number()?;
    if number < u64::from(SEQS) {
        u32::try_from(number).ok()
    } else {
        None
    }
}

// Removes all words that are left, and returns them with the blanks between them.
fn rest_of_line(alloc: Global, words: &mut Words) -> Result<Option<Bytes>, AllocError>
    ensures { IfOk result (λ rest. rest ≡ rest_of_line words.old) }
{
    let Some(first) = words.next_word() else {
        return Ok(None);
    };
    let mut rest = Vec::from_slice(alloc, first)?;
    while let Some(word) = words.next_word() {
        rest.push(b' ')?;
        rest.extend_from_slice(word)?;
    }
    Ok(Some(Bytes::new(alloc, rest)?))
}

fn is_word(word: &[u8], name: &str) -> bool
    ensures { result ≡ bytes_eq word.now name.now }
{
    word == name.as_bytes()
}

fn if_last(words: &Words, command: Command) -> Option<Command>
    ensures { result ≡ if_last words.now command }
{
    if words.is_done() { Some(command) } else { None }
}
