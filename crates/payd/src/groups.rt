//! The group that a genesis's file and keys belong to, and what that file calls the group and its
//! members.

ghost use Rattle.std.specs.Prelude.{◌≡◌, ◌+◌, ◌%◌, ◌<◌, ◌++◌, ◌↔◌, IfOk, IsTrue, OnOk, map};
ghost use Rattle.std.specs.Prelude.{option_map};
ghost use Rattle.pay_link.specs.Json as file;
ghost use Rattle.serde_json.specs.View.{view};
ghost use Rattle.payd.specs.Groups.{IsOther, count_words, digits_named, digits_of};
ghost use Rattle.payd.specs.Groups.{first_digits, former_line, genesis_lines, group_line};
ghost use Rattle.payd.specs.Groups.{fifth_words, fifths_words, fingerprint_of, group_lines};
ghost use Rattle.payd.specs.Groups.{group_text, called_words, names_lines, text_named, unit_line};
ghost use Rattle.std.specs.List.{flat_map};

use hex::encode_to_slice;
use pay_link::{Genesis, number_at, value_in};
use pay_text::{push_number, push_word};
use serde_json::Value;
use sha2::{Digest, Sha256, Sha512};
use std::alloc::{AllocError, Global};
use std::{fmt, str};

/// The count of groups of digits in a fingerprint.
const FIFTHS: usize = 12;

/// The name of a group and of its members: its fingerprint and their names, if a group's file has
/// them. Other files have none.
#[derive(Drop)]
pub(crate) struct Called {
    fingerprint: Option<Vec<u8>>,
    names: Vec<String>,
}

/// What a line says about a group: its fingerprint, if it has one.
#[derive(Clone, Copy)]
pub(crate) struct GroupSaid<'a>(Option<&'a str>);

/// A member's number, and its name if it is known.
#[derive(Clone, Copy)]
pub(crate) struct MemberSaid<'a> {
    pub(crate) number: u16,
    pub(crate) name: Option<&'a str>,
}

impl Called {
    /// Returns the `number` and the name of a member.
    pub(crate) fn member(&self, number: u16) -> MemberSaid<'_>
        ensures { result.number ≡ number }
    {
        MemberSaid {
            number,
            name: self.name(number),
        }
    }

    /// Returns the name of the member `number`, if it has one that stays in its line.
    pub(crate) fn name(&self, number: u16) -> Option<&str> {
        let name = self.names.get(usize::from(number))?.as_str();
        if is_plain(name) { Some(name) } else { None }
    }

    /// Returns what a line says about the group.
    pub(crate) fn group(&self) -> GroupSaid<'_> {
        match &self.fingerprint {
            Some(digits) => GroupSaid(str::from_utf8(digits.as_slice()).ok()),
            None => GroupSaid(None),
        }
    }
}

impl fmt::Display for GroupSaid<'_> {
    fn fmt<W: fmt::Write>(&self, f: &mut fmt::Formatter<W>) -> fmt::Result {
        match self.0 {
            Some(fingerprint) => write!(f, ", group{fingerprint}"),
            None => Ok(()),
        }
    }
}

impl fmt::Display for MemberSaid<'_> {
    ghost use Rattle.std.specs.Prelude.{Some};
    ghost use Rattle.std.specs.Option.{option_copied};
    ghost use Rattle.payd.specs.Groups.{called_words};

    ghost output = { λ said. Some (called_words said.number (option_copied said.name)) };

    fn fmt<W: fmt::Write>(&self, f: &mut fmt::Formatter<W>) -> fmt::Result {
        match self.name {
            Some(name) => write!(f, "{} {name}", self.number),
            None => write!(f, "{}", self.number),
        }
    }
}

// Returns whether `name` has nothing that hides it or ends its line. The name may have letters and
// digits of any script, and what may stand between them.
fn is_plain(name: &str) -> bool {
    !name.is_empty()
        && name.chars().all(|letter| letter.is_alphanumeric()
            || matches!(letter, ' ' | '.' | '_' | '-'))
}

/// Returns the names of a group of this `genesis` and of its members, from the bytes of `file`.
pub(crate) fn called_in(
    alloc: Global,
    genesis: &Genesis,
    file: &[u8],
) -> Result<Called, AllocError> {
    let mut names = Vec::new(alloc);
    let Some(file) = value_in(alloc, file)? else {
        return Ok(Called {
            fingerprint: None,
            names,
        });
    };
    if let Some(texts) = texts_at(alloc, &file, "names")? {
        for text in &texts {
            names.push(String::from_str(alloc, text)?)?;
        }
    }
    Ok(Called {
        fingerprint: fingerprint_of(alloc, genesis, &file)?,
        names,
    })
}

// Returns the fingerprint of the group of `file`, with a blank before each group of its digits.
fn fingerprint_of(
    alloc: Global,
    genesis: &Genesis,
    file: &Value,
) -> Result<Option<Vec<u8>>, AllocError>
    ensures { IfOk result (λ digits.
        option_map (λ digits. digits.items) digits ≡ fingerprint_of genesis.now (view file.now)) }
{
    let Some(mut text) = group_text(alloc, genesis, file)? else {
        return Ok(None);
    };
    push_unit(&mut text, file)?;
    let digest = Sha512::digest(text.as_slice());
    Ok(Some(fifths_of(alloc, &digest)?))
}

fn push_unit(text: &mut Vec<u8>, file: &Value) -> Result<(), AllocError>
    ensures { OnOk result (text.new.items ≡ text.old.items ++ unit_line (view file.now)) }
{
    let Some(unit) = text_at(file, "unit") else {
        return Ok(());
    };
    let Some(decimals) = number_at(file, "decimals") else {
        return Ok(());
    };
    push_word(text, "unit ")?;
    push_word(text, unit)?;
    push_count(text, decimals)?;
    push_word(text, "\n")
}

fn fifths_of(alloc: Global, digest: &[u8; 64]) -> Result<Vec<u8>, AllocError>
    ensures { IfOk result (λ text. text.items ≡ fifths_words digest.now 12) }
{
    let mut text = Vec::new(alloc);
    for at in 0..FIFTHS {
        push_fifth(&mut text, digest, at)?;
    }
    Ok(text)
}

// Appends the last five digits of five bytes as a number.
fn push_fifth(text: &mut Vec<u8>, digest: &[u8; 64], at: usize) -> Result<(), AllocError>
    requires { at < 12 }
    ensures { OnOk result (text.new.items ≡ text.old.items ++ fifth_words digest.now at) }
{
    let from = 5 * at;
    let number = u64::from_be_bytes([
        0,
        0,
        0,
        digest[from],
        digest[from + 1],
        digest[from + 2],
        digest[from + 3],
        digest[from + 4],
    ]);
    text.extend_from_slice(&[
        b' ',
        digit_of(number / 10_000),
        digit_of(number / 1_000),
        digit_of(number / 100),
        digit_of(number / 10),
        digit_of(number),
    ])
}

fn digit_of(number: u64) -> u8
    ensures { result ≡ 48 + number % 10 }
{
    b'0' + (number % 10) as u8
}

/// Returns whether `keys` name a group that isn't the group of this `genesis` and these bytes of
/// `file`.
// promise: words and files
pub(crate) fn are_of_two_groups(
    alloc: Global,
    genesis: &Genesis,
    file: &[u8],
    keys: &[u8],
) -> Result<bool, AllocError>
    ensures { IfOk result (λ other.
        IsTrue other ↔ IsOther (digits_named keys.now) (digits_of genesis.now file.now)) }
{
    let Some(keys) = value_in(alloc, keys)? else {
        return Ok(false);
    };
    let Some(named) = text_at(&keys, "digest") else {
        return Ok(false);
    };
    match digits_of(alloc, genesis, file)? {
        Some(digits) => Ok(named.as_bytes() != digits.as_slice()),
        None => Ok(true),
    }
}

// Returns the first digits of the digest of the group of `file`.
fn digits_of(alloc: Global, genesis: &Genesis, file: &[u8]) -> Result<Option<[u8; 16]>, AllocError>
    ensures { IfOk result (λ digits. digits ≡ digits_of genesis.now file.now) }
{
    let Some(file) = value_in(alloc, file)? else {
        return Ok(None);
    };
    match group_text(alloc, genesis, &file)? {
        Some(text) => Ok(Some(first_digits(text.as_slice()))),
        None => Ok(None),
    }
}

fn first_digits(text: &[u8]) -> [u8; 16]
    ensures { result ≡ first_digits text.now }
{
    let digest = Sha256::digest(text);
    let mut digits = [0; 16];
    let _ = encode_to_slice(&digest[..8], &mut digits);
    digits
}

// Returns the lines from which the digest of the group of `file` is made.
fn group_text(alloc: Global, genesis: &Genesis, file: &Value) -> Result<Option<Vec<u8>>, AllocError>
    ensures { IfOk result (λ text.
        option_map (λ text. text.items) text ≡ group_text genesis.now (view file.now)) }
{
    let Some(group) = text_at(file, "group") else {
        return Ok(None);
    };
    let Some(public) = texts_at(alloc, file, "public")? else {
        return Ok(None);
    };
    let mut text = genesis_lines(alloc, genesis)?;
    push_line(&mut text, "group", group)?;
    push_lines(&mut text, "public", public.as_slice())?;
    push_names(alloc, &mut text, file)?;
    push_former(&mut text, file)?;
    Ok(Some(text))
}

fn genesis_lines(alloc: Global, genesis: &Genesis) -> Result<Vec<u8>, AllocError>
    ensures { IfOk result (λ text. text.items ≡ genesis_lines genesis.now) }
{
    let mut text = Vec::new(alloc);
    push_word(&mut text, "payd group 1\nmembers")?;
    push_count(&mut text, u64::from(genesis.members()))?;
    push_word(&mut text, "\nfaults")?;
    push_count(&mut text, u64::from(genesis.faults()))?;
    push_word(&mut text, "\nopening")?;
    push_opening(&mut text, genesis)?;
    push_word(&mut text, "\n")?;
    Ok(text)
}

fn push_opening(text: &mut Vec<u8>, genesis: &Genesis) -> Result<(), AllocError>
    ensures { OnOk result (text.new.items
        ≡ text.old.items ++ flat_map count_words genesis.now.opening) }
{
    for account in 0..genesis.members() {
        push_count(text, genesis.opening(account))?;
    }
    Ok(())
}

fn push_names(alloc: Global, text: &mut Vec<u8>, file: &Value) -> Result<(), AllocError>
    ensures { OnOk result (text.new.items ≡ text.old.items ++ names_lines (view file.now)) }
{
    match texts_at(alloc, file, "names")? {
        Some(names) => push_lines(text, "name", names.as_slice()),
        None => Ok(()),
    }
}

fn push_former(text: &mut Vec<u8>, file: &Value) -> Result<(), AllocError>
    ensures { OnOk result (text.new.items ≡ text.old.items ++ former_line (view file.now)) }
{
    match text_at(file, "former") {
        Some(former) => push_line(text, "former", former),
        None => Ok(()),
    }
}

fn push_lines(text: &mut Vec<u8>, word: &str, lines: &[&str]) -> Result<(), AllocError>
    ensures { OnOk result (text.new.items
        ≡ text.old.items ++ group_lines word.now (map (λ line. line.now) lines.now)) }
{
    for line in lines {
        push_line(text, word, line)?;
    }
    Ok(())
}

fn push_line(text: &mut Vec<u8>, word: &str, line: &str) -> Result<(), AllocError>
    ensures { OnOk result (text.new.items ≡ text.old.items ++ group_line word.now line.now) }
{
    push_word(text, word)?;
    push_word(text, " ")?;
    push_word(text, line)?;
    push_word(text, "\n")
}

fn push_count(text: &mut Vec<u8>, number: u64) -> Result<(), AllocError>
    ensures { OnOk result (text.new.items ≡ text.old.items ++ count_words number) }
{
    push_word(text, " ")?;
    push_number(text, number)
}

// Returns the text that `value` has at `name`.
fn text_at<'a>(value: &'a Value, name: &str) -> Option<&'a str>
    ensures { option_map (λ text. text.now) result ≡ text_named name.now (view value.now) }
{
    value.get(name).and_then(Value::as_str)
}

// Returns the texts of the list that `value` has at `name`.
fn texts_at<'a>(
    alloc: Global,
    value: &'a Value,
    name: &str,
) -> Result<Option<Vec<&'a str>>, AllocError>
    ensures { IfOk result (λ found.
        option_map (λ texts. map (λ text. text.now) texts.items) found
        ≡ file.texts_at name.now (view value.now)) }
{
    let Some(list) = value.get(name).and_then(Value::as_array) else {
        return Ok(None);
    };
    let mut texts = Vec::new(alloc);
    for item in list {
        let Some(text) = item.as_str() else {
            return Ok(None);
        };
        texts.push(text)?;
    }
    Ok(Some(texts))
}
