//! Words and numbers of a line: how they are read, and how they are written.

ghost use Rattle.std.specs.Prelude.{◌≡◌, ◌==◌, drop, ◌<◌, ◌^◌, MatchOption, ◌≤◌, length, IfOk};
ghost use Rattle.std.specs.Prelude.{IfSome, ◌++◌, OnOk, decimal};
ghost use Rattle.std.specs.List.{position};
ghost use Rattle.std.specs.Option.{option_copied};
ghost use Rattle.std.specs.Str.Parse.{AllDigits, digits_value};
ghost use Rattle.pay_text.specs.Numbers.{first_number, number_of};
ghost use Rattle.pay_text.specs.Pairs.{first_pair, pairs_within};
ghost use Rattle.pay_text.specs.Words.{blank, first_word, is_none, words_of};

use itoa::Buffer;
use std::alloc::{AllocError, Global};
use std::marker::Model;

/// The words of a line that aren't taken yet, from the left.
#[derive(Drop)]
pub struct Words<'a> {
    rest: Option<&'a [u8]>,
}

impl<'a> Model for Words<'a> {
    ghost use Rattle.std.specs.Prelude.{ℕ, List};
    ghost use Rattle.std.specs.Option.{option_copied};
    ghost use Rattle.pay_text.specs.Words.{words_in};

    ghost Value = { List (List ℕ) };

    ghost view = { λ w. words_in (option_copied w.rest) };
}

impl<'a> Words<'a> {
    // promise: lines and words
    pub fn new(line: &'a [u8]) -> Words<'a>
        ensures { result ≡ words_of line.now }
    {
        Words { rest: Some(line) }
    }

    /// Removes and returns the next word.
    // promise: lines and words
    pub fn next_word(&mut self) -> Option<&'a [u8]>
        ensures word { option_copied result ≡ first_word self.old }
        ensures rest { self.new ≡ drop 1 self.old }
    {
        let rest = self.rest?;
        match blank_in(rest) {
            Some(at) => {
                self.rest = Some(&rest[at + 1..]);
                Some(&rest[..at])
            }
            None => {
                self.rest = None;
                Some(rest)
            }
        }
    }

    /// Removes the next word, and returns the number that it is, if any.
    // promise: lines and words
    pub fn next_number(&mut self) -> Option<u64>
        ensures number { result ≡ first_number self.old }
        ensures rest { self.new ≡ drop 1 self.old }
    {
        number(self.next_word()?)
    }

    /// Returns whether all words are taken.
    // promise: lines and words
    pub fn is_done(&self) -> bool
        ensures { result ≡ is_none self.now }
    {
        self.rest.is_none()
    }
}

// Returns the place of the first blank.
fn blank_in(line: &[u8]) -> Option<usize>
    ensures { result ≡ position (λ byte. byte == blank) line.now }
{
    line.iter().position(|byte| *byte == b' ')
}

/// Returns the number that `word` is, if any. Numbers are decimal, without a sign, without a zero
/// in front of other digits, and of at most 64 bits.
// promise: lines and words
pub fn number(word: &[u8]) -> Option<u64>
    ensures { result ≡ number_of word.now }
{
    if word.is_empty() {
        return None;
    }
    if word[0] == b'0' && word.len() > 1 {
        return None;
    }
    value(word)
}

// Returns the value of `digits` if it has at most 64 bits.
fn value(digits: &[u8]) -> Option<u64>
    ensures { MatchOption result
        (¬ (AllDigits 10 digits.now × (digits_value 10 digits.now < 2 ^ 64)))
        (λ n. AllDigits 10 digits.now × (digits_value 10 digits.now < 2 ^ 64)
        × (n ≡ digits_value 10 digits.now)) }
{
    let mut value: u64 = 0;
    for byte in digits {
        if !byte.is_ascii_digit() {
            return None;
        }
        value = value.checked_mul(10)?.checked_add(u64::from(*byte - b'0'))?;
    }
    Some(value)
}

/// Pairs of numbers, in the order of a line.
#[derive(Debug, Drop)]
pub struct Pairs {
    pairs: Vec<(u64, u64)>,
}

impl Model for Pairs {
    ghost use Rattle.std.specs.Prelude.{ℕ, List};

    ghost Value = { List (ℕ × ℕ) };

    ghost view = { λ p. p.pairs.items };
}

impl Pairs {
    pub fn as_slice(&self) -> &[(u64, u64)]
        ensures { result.now ≡ self.now }
    {
        self.pairs.as_slice()
    }
}

/// Reads all words that are left as pairs of numbers. There must be at least one pair and at most
/// `most` pairs.
pub fn read_pairs(
    alloc: Global,
    words: &mut Words,
    most: usize,
) -> Result<Option<Pairs>, AllocError>
    ensures pairs { IfOk result (λ pairs. pairs ≡ pairs_within most words.old) }
    ensures few { IfOk result (λ pairs. IfSome pairs (λ pairs. length pairs ≤ most)) }
{
    let mut pairs = Vec::new(alloc);
    while !words.is_done() {
        let Some(pair) = next_pair(words) else {
            return Ok(None);
        };
        if pairs.len() == most {
            return Ok(None);
        }
        pairs.push(pair)?;
    }
    if pairs.is_empty() {
        return Ok(None);
    }
    Ok(Some(Pairs { pairs }))
}

// Removes two words, and returns the numbers that they are, if both are numbers.
fn next_pair(words: &mut Words) -> Option<(u64, u64)>
    ensures pair { result ≡ first_pair words.old }
    ensures rest { words.new ≡ drop 2 words.old }
{
    let (Some(first), Some(second)) = (words.next_number(), words.next_number()) else {
        return None;
    };
    Some((first, second))
}

// promise: lines and words
pub fn push_number(out: &mut Vec<u8>, number: u64) -> Result<(), AllocError>
    ensures { OnOk result (out.new.items ≡ out.old.items ++ decimal number) }
{
    let mut buffer = Buffer::new();
    out.extend_from_slice(buffer.format(number).as_bytes())
}

// promise: lines and words
pub fn push_word(out: &mut Vec<u8>, word: &str) -> Result<(), AllocError>
    ensures { OnOk result (out.new.items ≡ out.old.items ++ word.now) }
{
    out.extend_from_slice(word.as_bytes())
}
