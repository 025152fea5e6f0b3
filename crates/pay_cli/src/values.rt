//! The lines about what the values of frames pay.

ghost use Rattle.std.specs.Prelude.{◌≡◌, ◌++◌, OnOk};
ghost use Rattle.std.specs.List.{flat_map};
ghost use Rattle.pay_book.specs.Payment.{entries_in};
ghost use Rattle.pay_cli.specs.Values.{checker_of, payee_and_amount, pays_line, told_line};

use crate::check::Checker;
use pay_book::laws::values_count_their_entries;
use pay_book::{Entry, entries_in, entry_at};
use pay_frame::Kind;
use pay_text::{push_number, push_word};
use std::alloc::AllocError;

/// Appends the line about `value`, a frame's, to `out`, if a frame of this `kind` has a value and
/// the line is requested.
#[tactic(auto, unfolding(crate::specs::Values::told_line))]
// promise: check's text
pub fn push_told(
    out: &mut Vec<u8>,
    checker: &Checker<'_>,
    kind: Kind,
    owner: u16,
    value: &[u8],
) -> Result<(), AllocError>
    ensures { OnOk result (out.new.items
        ≡ out.old.items ++ told_line (checker_of checker.now) kind owner value.now) }
{
    if !checker.tells_values || kind == Kind::Want {
        return Ok(());
    }
    push_pays(out, checker.keys.members(), owner, value)
}

/// Appends the line about `value` to `out`: what it pays in the list of `owner`, among this many
/// `accounts`.
fn push_pays(out: &mut Vec<u8>, accounts: u16, owner: u16, value: &[u8]) -> Result<(), AllocError>
    ensures { OnOk result (out.new.items ≡ out.old.items ++ pays_line accounts owner value.now) }
{
    push_word(out, "  pays")?;
    push_entries(out, accounts, owner, value)?;
    push_word(out, "\n")
}

/// Appends what each entry of `value` pays, and to whom, to `out`.
fn push_entries(
    out: &mut Vec<u8>,
    accounts: u16,
    owner: u16,
    value: &[u8],
) -> Result<(), AllocError>
    ensures { OnOk result (out.new.items ≡ out.old.items
        ++ flat_map payee_and_amount (entries_in accounts owner value.now)) }
{
    // for the proof, a law: the call does nothing
    values_count_their_entries();
    for place in 0..entries_in(value) {
        push_entry(out, entry_at(value, place, owner, accounts))?;
    }
    Ok(())
}

#[tactic(auto, unfolding(crate::specs::Values::payee_and_amount))]
fn push_entry(out: &mut Vec<u8>, entry: Entry) -> Result<(), AllocError>
    ensures { OnOk result (out.new.items ≡ out.old.items ++ payee_and_amount entry) }
{
    match entry {
        Entry::Pay { payee, amount } => {
            push_word(out, " ")?;
            push_number(out, u64::from(payee))?;
            push_word(out, " ")?;
            push_number(out, amount)
        }
        Entry::Void => push_word(out, " void"),
    }
}
