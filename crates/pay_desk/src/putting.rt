//! Answers of one line each, written into room that was made before. So nothing can fail between a
//! teller's reply and the answer that reports it.

ghost use Rattle.std.specs.Prelude.{◌≡◌, ◌+◌, ◌*◌, ◌++◌, ◌≤◌, [], IfOk};
ghost use Rattle.std.specs.Prelude.{decimal, length, vec_capacity, vec_len};
ghost use Rattle.pay_desk.specs.Answers.{kept_words};
ghost use Rattle.pay_desk.specs.Kept.{is_value};
ghost use Rattle.pay_frame.specs.declared.limits.TheConstants.{MOST_MEMBERS};
ghost use Rattle.pay_desk.specs.Words.{asked_words, balance_words, front_words, number_words};
ghost use Rattle.pay_desk.specs.Words.{refused_words, state_name, state_words};

use crate::fault::DeskFault;
use crate::kept::Kept;
use itoa::Buffer;
use pay_frame::{Bytes, MOST_MEMBERS};
use pay_member::PaymentState;
use std::alloc::{AllocError, Global};

/// The greatest size of an answer of one line in bytes.
pub(crate) const MOST_ANSWER: usize = 64;

/// The greatest size of a number in bytes, with the blank before it.
const MOST_NUMBER: usize = 21;

/// The greatest size of an answer to `FRONT` in bytes.
pub(crate) const MOST_FRONT: usize = 64 + MOST_MEMBERS as usize * MOST_NUMBER;

/// Creates room for an answer of this many `bytes`.
pub(crate) fn room_for(alloc: Global, bytes: usize) -> Result<Vec<u8>, AllocError>
    ensures empty { IfOk result (λ out. out.items ≡ []) }
    ensures room { IfOk result (λ out. vec_len out + bytes ≤ vec_capacity out) }
{
    Vec::with_capacity(alloc, bytes)
}

#[tactic(auto, unfolding(crate::specs::Words::refused_words))]
pub(crate) fn put_refused(out: &mut Vec<u8>, fault: DeskFault)
    requires { vec_len out.old + MOST_ANSWER ≤ vec_capacity out.old }
    ensures { out.new.items ≡ out.old.items ++ refused_words fault }
{
    put_word(out, "refused ");
    put_number(out, u64::from(fault.number()));
    put_word(out, " ");
    put_word(out, fault.name());
    put_word(out, "\n");
}

#[tactic(auto, unfolding(crate::specs::Words::asked_words))]
pub(crate) fn put_asked(out: &mut Vec<u8>, id: u64, seq: u32)
    requires { vec_len out.old + MOST_ANSWER ≤ vec_capacity out.old }
    ensures { out.new.items ≡ out.old.items ++ asked_words id seq }
{
    put_word(out, "asked ");
    put_number(out, id);
    put_word(out, " seq ");
    put_number(out, u64::from(seq));
    put_word(out, "\n");
}

#[tactic(auto, unfolding(crate::specs::Words::balance_words))]
pub(crate) fn put_balance(out: &mut Vec<u8>, account: u16, balance: u64)
    requires { vec_len out.old + MOST_ANSWER ≤ vec_capacity out.old }
    ensures { out.new.items ≡ out.old.items ++ balance_words account balance }
{
    put_word(out, "balance ");
    put_number(out, u64::from(account));
    put_word(out, " ");
    put_number(out, balance);
    put_word(out, "\n");
}

#[tactic(auto, unfolding(crate::specs::Words::state_words))]
pub(crate) fn put_state(out: &mut Vec<u8>, owner: u16, seq: u32, state: PaymentState)
    requires { vec_len out.old + MOST_ANSWER ≤ vec_capacity out.old }
    ensures { out.new.items ≡ out.old.items ++ state_words owner seq state }
{
    put_word(out, "state ");
    put_number(out, u64::from(owner));
    put_word(out, " ");
    put_number(out, u64::from(seq));
    put_word(out, " ");
    put_word(out, name_of(state));
    put_word(out, "\n");
}

#[tactic(auto, unfolding(crate::specs::Words::front_words))]
pub(crate) fn put_front(out: &mut Vec<u8>, fronts: &[u32])
    requires few { length fronts.now ≤ MOST_MEMBERS }
    requires room { vec_len out.old + MOST_FRONT ≤ vec_capacity out.old }
    ensures { out.new.items ≡ out.old.items ++ front_words fronts.now }
{
    put_word(out, "front");
    put_numbers(out, fronts);
    put_word(out, "\n");
}

#[tactic(auto, unfolding(crate::specs::Words::state_name))]
fn name_of(state: PaymentState) -> &'static str
    ensures name { result.now ≡ state_name state }
    ensures short { length result.now ≤ 7 }
{
    match state {
        PaymentState::Unknown => "unknown",
        PaymentState::Asked => "asked",
        PaymentState::Waiting => "waiting",
        PaymentState::Settled => "settled",
    }
}

// Writes `word` into room that is there.
fn put_word(out: &mut Vec<u8>, word: &str)
    requires { vec_len out.old + length word.now ≤ vec_capacity out.old }
    ensures items { out.new.items ≡ out.old.items ++ word.now }
    ensures len { vec_len out.new ≡ vec_len out.old + length word.now }
    ensures capacity { vec_capacity out.old ≤ vec_capacity out.new }
{
    for byte in word.as_bytes() {
        out.push_reserved(*byte);
    }
}

// Writes `number` into room that is there.
fn put_number(out: &mut Vec<u8>, number: u64)
    requires { vec_len out.old + 20 ≤ vec_capacity out.old }
    ensures items { out.new.items ≡ out.old.items ++ decimal number }
    ensures len { vec_len out.new ≤ vec_len out.old + 20 }
    ensures capacity { vec_capacity out.old ≤ vec_capacity out.new }
{
    let mut buffer = Buffer::new();
    put_word(out, buffer.format(number));
}

// Writes `numbers`, each after a blank, into room that is there.
#[tactic(auto, unfolding(crate::specs::Words::number_words))]
fn put_numbers(out: &mut Vec<u8>, numbers: &[u32])
    requires { vec_len out.old + MOST_NUMBER * length numbers.now ≤ vec_capacity out.old }
    ensures items { out.new.items ≡ out.old.items ++ number_words numbers.now }
    ensures len { vec_len out.new ≤ vec_len out.old + MOST_NUMBER * length numbers.now }
    ensures capacity { vec_capacity out.old ≤ vec_capacity out.new }
{
    for number in numbers {
        put_word(out, " ");
        put_number(out, u64::from(*number));
    }
}

/// Returns a line that says why a command is refused.
pub(crate) fn refused_text(alloc: Global, fault: DeskFault) -> Result<Vec<u8>, AllocError>
    ensures { IfOk result (λ text. text.items ≡ refused_words fault) }
{
    let mut text = room_for(alloc, MOST_ANSWER)?;
    put_refused(&mut text, fault);
    Ok(text)
}

/// Returns the answer to a line with the `id` that `kept` is kept under. If `value` is the
/// submitted value, it gets the answer that it got before. Any other value is refused.
pub(crate) fn kept_text(
    alloc: Global,
    kept: &Kept,
    id: u64,
    value: &Option<Bytes>,
) -> Result<Vec<u8>, AllocError>
    ensures { IfOk result (λ text. text.items ≡ kept_words kept.now id value.now) }
{
    let mut text = room_for(alloc, MOST_ANSWER)?;
    if is_kept(kept, value) {
        put_asked(&mut text, id, kept.seq);
    } else {
        put_refused(&mut text, DeskFault::IdUsed);
    }
    Ok(text)
}

// Returns whether `value` is the submitted value.
fn is_kept(kept: &Kept, value: &Option<Bytes>) -> bool
    ensures { result ≡ is_value value.now kept.now.value }
{
    match value {
        Some(value) => value.as_slice() == kept.value.as_slice(),
        None => false,
    }
}
