//! Frames as they are read, and what is wrong with bytes that no frame begins with.

ghost use Rattle.std.specs.Prelude.{◌≡◌, ℕ, ◌+◌, ◌<◌, ◌≤◌, true, false, Some, length, min, IfOk};
ghost use Rattle.std.specs.Prelude.{IfErr, IfSome, IfNone};
ghost use Rattle.pay_frame.specs.Cutting.{IsFront};
ghost use Rattle.pay_frame.specs.Fault.{fault_number, name_of};
ghost use Rattle.pay_frame.specs.Frame.{code_of, frame_bytes};
ghost use Rattle.pay_frame.specs.Lent.{fields_of, sized_of, one_of};
ghost use Rattle.pay_frame.specs.OneFrame.{IsOneReading};
ghost use Rattle.pay_frame.specs.Places.{length_field, says_want, may_stand, PassBelow};
ghost use Rattle.pay_frame.specs.Places.{IsFirstWrong, IsWhole, IsSizeOf, two_at, eight_at};
ghost use Rattle.pay_frame.specs.Places.{are_lengths, is_bare_head, is_head};
ghost use Rattle.pay_frame.specs.Reading.{IsReading, IsProperBeginning, IsFault, fault_at};

use crate::body::Kind;
use crate::frame_ref::FrameRef;
use crate::limits::{GREATEST_VALUE, HEAD_LEN, LEAST_LENGTH, TAG_LEN};
use std::fmt;
use thiserror::Error;

/// The reason why bytes are no frame.
#[derive(Clone, Copy, Debug, PartialEq, Eq, Error)]
pub enum FrameFault {
    /// The length field is below 54 or above 1,078.
    BadLength,
    /// The version isn't 1.
    BadVersion,
    /// The kind isn't 1 to 4.
    BadKind,
    /// The value length isn't the length less 54.
    BadValueLength,
    /// The sequence number is above 65,535.
    BadSeq,
    /// A WANT has an owner, a sequence number or a value.
    BadWant,
    /// The bytes end inside a frame.
    Truncated,
    /// More bytes follow the one frame that was expected.
    Trailing,
}

impl FrameFault {
    // promise: order of refusals (number, name)
    const fn entry(self) -> (u8, &'static str)
        ensures number { result.0 ≡ fault_number self }
        ensures name { result.1.now ≡ name_of self }
    {
        match self {
            FrameFault::BadLength => (1, "BadLength"),
            FrameFault::BadVersion => (2, "BadVersion"),
            FrameFault::BadKind => (3, "BadKind"),
            FrameFault::BadValueLength => (4, "BadValueLength"),
            FrameFault::BadSeq => (5, "BadSeq"),
            FrameFault::BadWant => (6, "BadWant"),
            FrameFault::Truncated => (7, "Truncated"),
            FrameFault::Trailing => (8, "Trailing"),
        }
    }

    pub fn number(self) -> u8
        ensures value { result ≡ fault_number self }
    {
        self.entry().0
    }

    pub fn name(self) -> &'static str
        ensures value { result.now ≡ name_of self }
    {
        self.entry().1
    }
}

impl fmt::Display for FrameFault {
    ghost use Rattle.std.specs.Prelude.{Some};
    ghost use Rattle.pay_frame.specs.Fault.{frame_fault_words};

    ghost output = { λ fault. Some (frame_fault_words fault) };

    fn fmt<W: fmt::Write>(&self, f: &mut fmt::Formatter<W>) -> fmt::Result {
        write!(f, "{} {}", self.number(), self.name())
    }
}

/// The greatest value of the length field.
const GREATEST_LENGTH: u16 = LEAST_LENGTH + GREATEST_VALUE;

const WANT: u8 = 4;

/// Decodes the frame at the front of `bytes`, and returns it with its size. Returns `None` if
/// `bytes` is empty or another proper prefix of some frame. Otherwise the first wrong byte names
/// the fault, which is never `Truncated` or `Trailing`.
// promise: order of refusals; memory; one reading
pub fn read(bytes: &[u8]) -> Result<Option<(FrameRef<'_>, usize)>, FrameFault>
    ensures reading { IsReading bytes.now (sized_of result) }
{
    match size_in_front(bytes)? {
        Some(size) => Ok(Some((frame_of(&bytes[..size]), size))),
        None => Ok(None),
    }
}

/// Decodes `bytes` that are one frame and nothing else. Returns `Truncated` if they end inside the
/// frame, `Trailing` if more bytes follow it, and otherwise the fault that `read` returns.
// promise: memory; one reading
pub fn read_one(bytes: &[u8]) -> Result<FrameRef<'_>, FrameFault>
    ensures one { IsOneReading bytes.now (one_of result) }
{
    match read(bytes)? {
        Some((frame, size)) if size == bytes.len() => Ok(frame),
        Some(_) => Err(FrameFault::Trailing),
        None => Err(FrameFault::Truncated),
    }
}

/// Returns the size and the count of the complete frames at the front of `bytes`, at most `most` of
/// them. Returns a fault only if no frame is before it.
pub(crate) fn frames_in_front(bytes: &[u8], most: usize) -> Result<(usize, usize), FrameFault>
    requires most { 0 < most }
    ensures front { IfOk result (λ found. IsFront bytes.now most found.0 found.1) }
    ensures fault { IfErr result (IsFault bytes.now) }
{
    let mut size = 0;
    for count in 0..most {
        match read(&bytes[size..]) {
            Ok(Some((_, next))) => size += next,
            Ok(None) => return Ok((size, count)),
            Err(fault) if count == 0 => return Err(fault),
            Err(_) => return Ok((size, count)),
        }
    }
    Ok((size, most))
}

/// Returns the size of the frame at the front of `bytes`, if it is complete.
fn size_in_front(bytes: &[u8]) -> Result<Option<usize>, FrameFault>
    ensures frame { IfOk result (λ found. IfSome found (IsSizeOf bytes.now)) }
    ensures beginning { IfOk result (λ found. IfNone found (IsProperBeginning bytes.now)) }
    ensures fault { IfErr result (IsFault bytes.now) }
{
    if bytes.len() < HEAD_LEN || !is_head(bytes) {
        return match first_wrong(bytes) {
            Some(place) => Err(fault_at(bytes, place)),
            None => Ok(None),
        };
    }
    let size = 2 + usize::from(length_field(bytes));
    Ok(if size <= bytes.len() {
        Some(size)
    } else {
        None
    })
}

/// Returns whether all bytes of a complete head are allowed. It tests by fields what `first_wrong`
/// tests byte by byte.
fn is_head(bytes: &[u8]) -> bool
    requires { 24 ≤ length bytes.now }
    ensures { result ≡ is_head bytes.now }
{
    are_lengths(bytes)
        && bytes[2] == 1
        && (1..=4).contains(&bytes[3])
        && two_at(bytes, 18) == 0
        && (!is_want(bytes) || is_bare(bytes))
}

/// Returns whether a head's two lengths are within the limits and belong together.
fn are_lengths(bytes: &[u8]) -> bool
    requires { 24 ≤ length bytes.now }
    ensures { result ≡ are_lengths bytes.now }
{
    let length = length_field(bytes);
    (LEAST_LENGTH..=GREATEST_LENGTH).contains(&length) && two_at(bytes, 22) == length - LEAST_LENGTH
}

/// Returns whether a head has owner 0, sequence number 0 and no value.
fn is_bare(bytes: &[u8]) -> bool
    requires { 24 ≤ length bytes.now }
    ensures { result ≡ is_bare_head bytes.now }
{
    two_at(bytes, 16) == 0 && two_at(bytes, 20) == 0 && two_at(bytes, 22) == 0
}

/// Returns the index of the first byte of the head, if any, that isn't allowed.
fn first_wrong(bytes: &[u8]) -> Option<usize>
    ensures none { IfNone result (PassBelow bytes.now (min 24 (length bytes.now))) }
    ensures some { IfSome result (IsFirstWrong bytes.now) }
{
    for place in 0..HEAD_LEN.min(bytes.len()) {
        if !may_stand(bytes, place) {
            return Some(place);
        }
    }
    None
}

/// Returns whether the byte at index `place` is allowed there. All bytes before it are allowed.
fn may_stand(bytes: &[u8], place: usize) -> bool
    requires within { place < length bytes.now }
    requires before { PassBelow bytes.now place }
    ensures { result ≡ may_stand bytes.now place }
{
    let byte = bytes[place];
    match place {
        0 => byte <= 4,
        1 => (LEAST_LENGTH..=GREATEST_LENGTH).contains(&length_field(bytes)),
        2 => byte == 1,
        3 => (1..=4).contains(&byte) && (byte != WANT || length_field(bytes) == LEAST_LENGTH),
        16 | 17 | 20 | 21 => !is_want(bytes) || byte == 0,
        18 | 19 => byte == 0,
        22 => u16::from(byte) == (length_field(bytes) - LEAST_LENGTH) / 256,
        23 => u16::from(byte) == (length_field(bytes) - LEAST_LENGTH) % 256,
        _ => true,
    }
}

/// Returns the fault that the first wrong byte, at `place`, names.
fn fault_at(bytes: &[u8], place: usize) -> FrameFault
    requires { IsFirstWrong bytes.now place }
    ensures { fault_at bytes.now place ≡ Some result }
{
    match place {
        0 | 1 => FrameFault::BadLength,
        2 => FrameFault::BadVersion,
        3 if !is_want(bytes) => FrameFault::BadKind,
        18..22 if !is_want(bytes) => FrameFault::BadSeq,
        3..22 => FrameFault::BadWant,
        _ => FrameFault::BadValueLength,
    }
}

/// Returns the frame that `bytes` encode.
pub(crate) fn frame_of(bytes: &[u8]) -> FrameRef<'_>
    requires { IsWhole bytes.now }
    ensures { frame_bytes (fields_of result) ≡ bytes.now }
{
    let value_len = bytes.len() - HEAD_LEN - TAG_LEN;
    let (head, rest) = bytes.split_at(HEAD_LEN);
    let (value, tag) = rest.split_at(value_len);
    FrameRef {
        kind: kind_of(bytes[3]),
        from: u16::from_be_bytes([bytes[4], bytes[5]]),
        to: u16::from_be_bytes([bytes[6], bytes[7]]),
        number: number_of(bytes),
        owner: u16::from_be_bytes([bytes[16], bytes[17]]),
        seq: u32::from_be_bytes([bytes[18], bytes[19], bytes[20], bytes[21]]),
        head,
        value,
        tag,
    }
}

fn kind_of(code: u8) -> Kind
    requires least { 1 ≤ code }
    requires greatest { code ≤ 4 }
    ensures { code_of result ≡ code }
{
    match code {
        1 => Kind::Send,
        2 => Kind::Echo,
        3 => Kind::Ready,
        _ => Kind::Want,
    }
}

fn number_of(bytes: &[u8]) -> u64
    requires { 24 ≤ length bytes.now }
    ensures { result ≡ eight_at bytes.now 8 }
{
    u64::from_be_bytes([
        bytes[8], bytes[9], bytes[10], bytes[11], bytes[12], bytes[13], bytes[14], bytes[15],
    ])
}

fn length_field(bytes: &[u8]) -> u16
    requires { 1 < length bytes.now }
    ensures { result ≡ length_field bytes.now }
{
    u16::from_be_bytes([bytes[0], bytes[1]])
}

fn is_want(bytes: &[u8]) -> bool
    requires { 3 < length bytes.now }
    ensures { result ≡ says_want bytes.now }
{
    bytes[3] == WANT
}

fn two_at(bytes: &[u8], place: usize) -> u16
    requires { place + 1 < length bytes.now }
    ensures { result ≡ two_at bytes.now place }
{
    u16::from_be_bytes([bytes[place], bytes[place + 1]])
}
