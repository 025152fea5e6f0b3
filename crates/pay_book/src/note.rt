//! Values that contain a text in their owner's name, and pay nothing.

ghost use Rattle.std.specs.Prelude.{◌≡◌, ◌&&◌, ℕ, List, IfOk, MatchOption, chars, false};
ghost use Rattle.std.specs.Prelude.{length, nat_le, nat_lt, true, None, Some};
ghost use Rattle.std.specs.List.{list_any};
ghost use Rattle.std.specs.Char.{is_control};
ghost use Rattle.pay_book.specs.Notes.{is_note_text, note_of, note_value};

use pay_frame::Bytes;
use std::alloc::{AllocError, Global};
use std::str;

/// The version of a note's value, which is its first byte.
pub const NOTE_VERSION: u8 = 3;

/// The most bytes that the text of a note has.
pub const MOST_NOTE: usize = 1_000;

/// Returns the value of a note with this `text`.
#[tactic(auto, unfolding(crate::specs::Notes::note_value))]
// promise: notes
pub fn note_value(alloc: Global, text: &[u8]) -> Result<Bytes, AllocError>
    ensures { IfOk result (λ value. value ≡ note_value text.now) }
{
    let mut value = Vec::new(alloc);
    value.push(NOTE_VERSION)?;
    value.extend_from_slice(text)?;
    Bytes::new(alloc, value)
}

/// Returns the text of a note, if `value` is a note.
#[tactic(auto, unfolding(crate::specs::Notes::note_of))]
// promise: notes
pub fn note_in(value: &[u8]) -> Option<&str>
    ensures { MatchOption result
        (note_of value.now ≡ None) (λ text. note_of value.now ≡ Some text.now) }
{
    let (version, text) = value.split_first()?;
    if *version == NOTE_VERSION {
        note_text(text)
    } else {
        None
    }
}

/// Returns the text that `bytes` encode, if a note may contain it.
#[tactic(auto, using(crate::proofs::NoteTexts::of_text, crate::proofs::NoteTexts::of_no_text))]
// promise: notes
pub fn note_text(bytes: &[u8]) -> Option<&str>
    ensures { MatchOption result
        (is_note_text bytes.now ≡ false)
        (λ text. (text.now ≡ bytes.now) × (is_note_text bytes.now ≡ true)) }
{
    let Ok(text) = str::from_utf8(bytes) else {
        return None;
    };
    if !has_length(bytes) || has_control(text) {
        return None;
    }
    Some(text)
}

// Returns whether `bytes` isn't empty and has no more bytes than a note's text may have.
fn has_length(bytes: &[u8]) -> bool
    ensures { result ≡ (nat_lt 0 (length bytes.now) && nat_le (length bytes.now) MOST_NOTE) }
{
    !bytes.is_empty() && bytes.len() <= MOST_NOTE
}

fn has_control(text: &str) -> bool
    ensures { result ≡ list_any is_control (chars text.now) }
{
    text.chars().any(|char| char.is_control())
}
