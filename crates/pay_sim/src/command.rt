//! The commands of a script, and how its lines are read.

ghost use Rattle.std.specs.Prelude.{◌≡◌, ◌≤◌, IfOk, drop};
ghost use Rattle.std.specs.Str.{bytes_eq};
ghost use Rattle.pay_frame.specs.OneFrame.{is_body};
ghost use Rattle.pay_sim.specs.Commands.{alone_in, ask_in, asks_in, below, body_in, bring_in};
ghost use Rattle.pay_sim.specs.Commands.{bringing_in, bytes_in_word, script_command_in};
ghost use Rattle.pay_sim.specs.Commands.{first_bytes, first_kind, first_turn, if_last};
ghost use Rattle.pay_sim.specs.Commands.{kind_in_word, lie_in, raw_in, several_in, turn_in_word};

use hex::{FromHexError, decode};
use pay_book::{MOST_PAYMENTS, payment_value, payments_named, payments_value};
use pay_frame::{Body, Bytes, GREATEST_VALUE, Kind, SEQS};
use pay_text::{Words, number, read_pairs};
use std::alloc::{AllocError, Global};

/// The bound of a script's numbers of members, whether the group has such members or not.
pub const MEMBERS: u32 = 128;

/// The bound of a script's numbers of accounts: those that a payment can name.
pub const ACCOUNTS: u32 = 65_536;

/// The request of a script's line.
#[derive(Debug, Drop)]
pub enum ScriptCommand {
    /// A member submits the value of a payment, or of several.
    Ask {
        member: u8,
        value: Bytes,
    },
    /// The frame at a place of a member's sent list is delivered to another member.
    Bring {
        from: u8,
        to: u8,
        number: u64,
    },
    /// A frame is encoded with the test key of two members and delivered to one of them. Without a
    /// number it has the one that its receiver expects next.
    Lie {
        from: u8,
        to: u8,
        number: Option<u64>,
        body: Body,
    },
    /// Bytes are delivered to a member.
    Raw {
        to: u8,
        bytes: Bytes,
    },
    /// All that correct members sent one another and didn't accept yet is delivered.
    All,
    /// Each correct member shows its ledger.
    Show,
}

/// Returns the request of `line`, or `None` if it is no command.
#[tactic(auto, unfolding(crate::specs::Commands::script_command_in))]
pub fn read_command(alloc: Global, line: &[u8]) -> Result<Option<ScriptCommand>, AllocError>
    ensures { IfOk result (λ command. command ≡ script_command_in line.now) }
{
    let mut words = Words::new(line);
    let Some(name) = words.next_word() else {
        return Ok(None);
    };
    if is_word(name, "ask") {
        read_ask(alloc, &mut words)
    } else if is_word(name, "asks") {
        read_asks(alloc, &mut words)
    } else {
        read_bringing(alloc, name, &mut words)
    }
}

// Returns a command that delivers something, or a command that is its name alone.
#[tactic(auto, unfolding(crate::specs::Commands::bringing_in))]
fn read_bringing(
    alloc: Global,
    name: &[u8],
    words: &mut Words,
) -> Result<Option<ScriptCommand>, AllocError>
    ensures { IfOk result (λ command. command ≡ bringing_in name.now words.old) }
{
    if is_word(name, "bring") {
        Ok(read_bring(words))
    } else if is_word(name, "lie") {
        read_lie(alloc, words)
    } else if is_word(name, "raw") {
        read_raw(alloc, words)
    } else {
        Ok(read_alone(name, words))
    }
}

#[tactic(auto, unfolding(crate::specs::Commands::ask_in))]
fn read_ask(alloc: Global, words: &mut Words) -> Result<Option<ScriptCommand>, AllocError>
    ensures { IfOk result (λ command. command ≡ ask_in words.old) }
{
    let (Some(member), Some(payee), Some(amount)) = (
        next_member(words),
        next_below(words, ACCOUNTS),
        words.next_number(),
    ) else {
        return Ok(None);
    };
    let value = Bytes::from_slice(alloc, &payment_value(payee, amount))?;
    Ok(if_last(words, ScriptCommand::Ask { member, value }))
}

#[tactic(auto, unfolding(crate::specs::Commands::asks_in))]
fn read_asks(alloc: Global, words: &mut Words) -> Result<Option<ScriptCommand>, AllocError>
    ensures { IfOk result (λ command. command ≡ asks_in words.old) }
{
    let Some(member) = next_member(words) else {
        return Ok(None);
    };
    let Some(value) = several_value(alloc, words)? else {
        return Ok(None);
    };
    Ok(Some(ScriptCommand::Ask { member, value }))
}

// Returns the value of the payments in the last words.
#[tactic(auto, unfolding(crate::specs::Commands::several_in))]
fn several_value(alloc: Global, words: &mut Words) -> Result<Option<Bytes>, AllocError>
    ensures { IfOk result (λ value. value ≡ several_in words.old) }
{
    let Some(pairs) = read_pairs(alloc, words, usize::from(MOST_PAYMENTS))? else {
        return Ok(None);
    };
    let Some(payments) = payments_named(alloc, pairs.as_slice())? else {
        return Ok(None);
    };
    Ok(Some(payments_value(alloc, payments.as_slice())?))
}

#[tactic(auto, unfolding(crate::specs::Commands::bring_in))]
fn read_bring(words: &mut Words) -> Option<ScriptCommand>
    ensures { result ≡ bring_in words.old }
{
    let from = next_member(words)?;
    let to = next_member(words)?;
    let number = words.next_number()?;
    if_last(words, ScriptCommand::Bring { from, to, number })
}

#[tactic(auto, unfolding(crate::specs::Commands::lie_in))]
fn read_lie(alloc: Global, words: &mut Words) -> Result<Option<ScriptCommand>, AllocError>
    ensures { IfOk result (λ command. command ≡ lie_in words.old) }
{
    let (Some(from), Some(to), Some(number)) = (
        next_member(words),
        next_member(words),
        next_turn(words),
    ) else {
        return Ok(None);
    };
    let Some(body) = read_body(alloc, words)? else {
        return Ok(None);
    };
    Ok(Some(ScriptCommand::Lie {
        from,
        to,
        number,
        body,
    }))
}

#[tactic(auto, unfolding(crate::specs::Commands::body_in))]
fn read_body(alloc: Global, words: &mut Words) -> Result<Option<Body>, AllocError>
    ensures { IfOk result (λ body. body ≡ body_in words.old) }
{
    let (Some(kind), Some(owner), Some(seq)) = (
        next_kind(words),
        next_below(words, ACCOUNTS),
        next_below(words, SEQS),
    ) else {
        return Ok(None);
    };
    let Some(value) = next_bytes(alloc, words)? else {
        return Ok(None);
    };
    if !is_body(kind, owner, seq, &value) || !words.is_done() {
        return Ok(None);
    }
    Ok(Some(Body::new(kind, owner, u32::from(seq), value)))
}

#[tactic(auto, unfolding(crate::specs::Commands::raw_in))]
fn read_raw(alloc: Global, words: &mut Words) -> Result<Option<ScriptCommand>, AllocError>
    ensures { IfOk result (λ command. command ≡ raw_in words.old) }
{
    let Some(to) = next_member(words) else {
        return Ok(None);
    };
    let Some(bytes) = next_bytes(alloc, words)? else {
        return Ok(None);
    };
    Ok(if_last(words, ScriptCommand::Raw { to, bytes }))
}

// Returns a command that is its name alone.
#[tactic(auto, unfolding(crate::specs::Commands::alone_in))]
fn read_alone(name: &[u8], words: &Words) -> Option<ScriptCommand>
    ensures { result ≡ alone_in name.now words.now }
{
    if is_word(name, "all") {
        if_last(words, ScriptCommand::All)
    } else if is_word(name, "show") {
        if_last(words, ScriptCommand::Show)
    } else {
        None
    }
}

// Returns whether these parts are within a frame's limits.
fn is_body(kind: Kind, owner: u16, seq: u16, value: &Bytes) -> bool
    ensures { result
        ≡ is_body (record { kind = kind; owner = owner; seq = seq; value = value.now }) }
{
    value.len() <= usize::from(GREATEST_VALUE)
        && (kind != Kind::Want || (owner == 0 && seq == 0 && value.is_empty()))
}

// Removes a word, and returns the bytes that it encodes in hexadecimal digits.
#[tactic(auto, unfolding(crate::specs::Commands::bytes_in_word))]
fn next_bytes(alloc: Global, words: &mut Words) -> Result<Option<Bytes>, AllocError>
    ensures bytes { IfOk result (λ bytes. bytes ≡ first_bytes words.old) }
    ensures rest { words.new ≡ drop 1 words.old }
{
    let Some(word) = words.next_word() else {
        return Ok(None);
    };
    if is_word(word, "-") {
        return Ok(Some(Bytes::empty()));
    }
    if word.is_empty() {
        return Ok(None);
    }
    match decode(alloc, word) {
        Ok(bytes) => Ok(Some(Bytes::new(alloc, bytes)?)),
        Err(FromHexError::OutOfMemory) => Err(AllocError),
        Err(_) => Ok(None),
    }
}

// Removes a word, and returns the kind of frame that it names.
#[tactic(auto, unfolding(crate::specs::Commands::kind_in_word))]
fn next_kind(words: &mut Words) -> Option<Kind>
    ensures kind { result ≡ first_kind words.old }
    ensures rest { words.new ≡ drop 1 words.old }
{
    let word = words.next_word()?;
    if is_word(word, "send") {
        Some(Kind::Send)
    } else if is_word(word, "echo") {
        Some(Kind::Echo)
    } else if is_word(word, "ready") {
        Some(Kind::Ready)
    } else if is_word(word, "want") {
        Some(Kind::Want)
    } else {
        None
    }
}

// Removes a word, and returns the frame's number that it is. `next` is no number.
#[tactic(auto, unfolding(crate::specs::Commands::turn_in_word))]
fn next_turn(words: &mut Words) -> Option<Option<u64>>
    ensures number { result ≡ first_turn words.old }
    ensures rest { words.new ≡ drop 1 words.old }
{
    let word = words.next_word()?;
    if is_word(word, "next") {
        Some(None)
    } else {
        number(word).map(Some)
    }
}

fn is_word(word: &[u8], name: &str) -> bool
    ensures { result ≡ bytes_eq word.now name.now }
{
    word == name.as_bytes()
}

// Removes a word, and returns it as the number of a member.
fn next_member(words: &mut Words) -> Option<u8>
    ensures number { result ≡ below MEMBERS words.old }
    ensures rest { words.new ≡ drop 1 words.old }
{
    let number = words.next_number()?;
    if number < u64::from(MEMBERS) {
        u8::try_from(number).ok()
    } else {
        None
    }
}

// Removes a word, and returns it as a number below `bound`, which has at most 16 bits.
fn next_below(words: &mut Words, bound: u32) -> Option<u16>
    requires { bound ≤ ACCOUNTS }
    ensures number { result ≡ below bound words.old }
    ensures rest { words.new ≡ drop 1 words.old }
{
    let number = words.next_number()?;
    if number < u64::from(bound) {
        u16::try_from(number).ok()
    } else {
        None
    }
}

fn if_last(words: &Words, command: ScriptCommand) -> Option<ScriptCommand>
    ensures { result ≡ if_last words.now command }
{
    if words.is_done() { Some(command) } else { None }
}
