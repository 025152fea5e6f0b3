//! A log's record blocks as bytes: the key of a log, the beginning of each record block, and the
//! search for a record block after a damaged place.

ghost use Rattle.std.specs.Prelude.{◌≡◌, ◌++◌, ◌↔◌, ◌≤◌, ◌^◌, ◌<◌, List, ℕ, IsTrue, OnOk, length};
ghost use Rattle.std.specs.Prelude.{take, drop, ◌+◌, IfOk, IfSome, IfNone};
ghost use Rattle.pay_hmac.specs.Mac.{mac};
ghost use Rattle.pay_log.specs.Chunks.{BeginsWith, IsShort, chunk_of, IsEnd, IsHead, IsHeadless};
ghost use Rattle.pay_log.specs.Chunks.{length_at};
ghost use Rattle.pay_log.specs.Damage.{HasChunkIn, IsChunkAt};
ghost use Rattle.pay_log.specs.Keys.{front_of, place_bytes, secret_mark};

use pay_hmac::{HmacSha256, Tagger};
use std::alloc::{AllocError, Global};
use std::marker::Model;

/// The size of a log's header in bytes.
pub const HEADER_LEN: usize = 75;

/// The greatest size of a payload in bytes.
pub const MOST_PAYLOAD: usize = 16_777_216;

/// The size of the beginning of a record block: its block header and its place.
pub(crate) const FRONT_LEN: usize = 16;

/// The size of what precedes the payload in a record block: its beginning, and the payload's
/// length.
pub(crate) const HEAD_LEN: usize = 20;

/// The size of a record block without its payload.
pub(crate) const BESIDE_LEN: usize = 52;

/// The size of a checksum in bytes.
pub(crate) const SUM_LEN: usize = 32;

/// The greatest place of a record block. A longer log counts as a full disk.
pub(crate) const MOST_PLACE: u64 = 1 << 62;

/// The text that the block header is made from, in two parts.
const MARK_TEXT: (&[u8], &[u8]) = (b"payd log", b" mark");

/// The size of the block header in bytes.
const MARK_LEN: usize = 8;

/// The key of a log.
#[derive(Drop)]
pub(crate) struct LogKey {
    bytes: [u8; 32],
    sum: [u8; 32],
}

impl Model for LogKey {
    ghost use Rattle.std.specs.Prelude.{◌≡◌, ℕ, List, codes};
    ghost use Rattle.pay_hmac.specs.Mac.{mac};

    ghost Value = { List ℕ };

    ghost view = { λ k. k.bytes };

    ghost invariant = { λ k. k.sum ≡ mac k.bytes (codes "payd log mark") };
}

impl LogKey {
    pub(crate) fn new(bytes: [u8; 32]) -> LogKey
        ensures { result ≡ bytes }
    {
        let (head, rest) = MARK_TEXT;
        let sum = HmacSha256.tag(&bytes, head, rest);
        LogKey { bytes, sum }
    }

    pub(crate) fn bytes(&self) -> &[u8; 32]
        ensures { result.now ≡ self.now }
    {
        &self.bytes
    }

    /// Appends the beginning of the record block at `place` to `bytes`.
    pub(crate) fn write_front(&self, place: u64, bytes: &mut Vec<u8>) -> Result<(), AllocError>
        ensures { OnOk result (bytes.new.items ≡ bytes.old.items ++ front_of self.now place) }
    {
        bytes.extend_from_slice(self.mark())?;
        bytes.extend_from_slice(&place.to_be_bytes())
    }

    /// Returns whether the record block at `place` may begin with `bytes`.
    pub(crate) fn has_front(&self, place: u64, bytes: &[u8]) -> bool
        requires { HEAD_LEN ≤ length bytes.now }
        ensures { IsTrue result ↔ (take FRONT_LEN bytes.now ≡ front_of self.now place) }
    {
        self.has_mark(bytes) && has_place(bytes, place)
    }

    /// Returns the place that the record block at the front of `bytes` was made for, if there is
    /// one.
    pub(crate) fn made_for(&self, bytes: &[u8]) -> Option<u64>
        ensures { (p : List ℕ) (made_for : ℕ) → IsShort p → made_for < 2 ^ 64
            → BeginsWith bytes.now (chunk_of self.now made_for p)
            → result ≡ Some made_for }
    {
        self.place_in(bytes)
    }

    // Returns the place after the block header, if a block header stands at the front of `bytes`.
    fn place_in(&self, bytes: &[u8]) -> Option<u64>
        ensures { (place : ℕ) (rest : List ℕ) → place < 2 ^ 64
            → bytes.now ≡ secret_mark self.now ++ (place_bytes place ++ rest)
            → result ≡ Some place }
    {
        if bytes.len() < FRONT_LEN {
            return None;
        }
        if !self.has_mark(bytes) {
            return None;
        }
        Some(u64::from_be_bytes([
            bytes[8], bytes[9], bytes[10], bytes[11], bytes[12], bytes[13], bytes[14], bytes[15],
        ]))
    }

    fn has_mark(&self, bytes: &[u8]) -> bool
        requires { 8 ≤ length bytes.now }
        ensures { IsTrue result ↔ (take 8 bytes.now ≡ secret_mark self.now) }
    {
        begins_with(bytes, self.mark())
    }

    fn mark(&self) -> &[u8]
        ensures { result.now ≡ secret_mark self.now }
    {
        &self.sum[..MARK_LEN]
    }
}

// Returns whether `place` stands after the block header.
fn has_place(bytes: &[u8], place: u64) -> bool
    requires { 16 ≤ length bytes.now }
    ensures { IsTrue result ↔ (take 8 (drop 8 bytes.now) ≡ place_bytes place) }
{
    begins_with(&bytes[MARK_LEN..], &place.to_be_bytes())
}

fn begins_with(bytes: &[u8], front: &[u8]) -> bool
    requires { length front.now ≤ length bytes.now }
    ensures { IsTrue result ↔ (take (length front.now) bytes.now ≡ front.now) }
{
    let there = &bytes[..front.len()];
    there == front
}

// A checksum covers the place of its record block, and not the checksum before it. A block that was
// moved, doubled or left out fits nowhere, and each block can be judged alone. In a chain, one
// turned bit would silently remove all later blocks.
//
// A record block begins with a block header, which is made from the log's key, and with its place.
// Recovery looks for record blocks at each byte after the end. If anybody could make block headers,
// a value full of them would make recovery hash the rest at each: 16 MiB would take hours. With the
// place beside it a block is recognized wherever it stands, so a missing block before it is
// noticed.
/// Returns the record block of `payload` at `place`.
#[tactic(auto, unfolding(crate::specs::Chunks::chunk_of))]
pub(crate) fn encode(
    alloc: Global,
    key: &LogKey,
    place: u64,
    payload: &[u8],
) -> Result<Vec<u8>, AllocError>
    requires { IsShort payload.now }
    ensures { IfOk result (λ chunk. chunk.items ≡ chunk_of key.now place payload.now) }
{
    let mut bytes = Vec::with_capacity(alloc, BESIDE_LEN + payload.len())?;
    key.write_front(place, &mut bytes)?;
    bytes.extend_from_slice(&(payload.len() as u32).to_be_bytes())?;
    bytes.extend_from_slice(payload)?;
    let sum = HmacSha256.tag(key.bytes(), &place.to_be_bytes(), &bytes);
    bytes.extend_from_slice(&sum)?;
    Ok(bytes)
}

/// Returns the length of the payload of the record block at the front of `bytes`, if the head of
/// such a block stands there.
pub(crate) fn payload_length(key: &LogKey, place: u64, bytes: &[u8]) -> Option<usize>
    ensures some { IfSome result (λ n. IsHead key.now place bytes.now n) }
    ensures none { IfNone result (IsHeadless key.now place bytes.now) }
{
    if bytes.len() < HEAD_LEN {
        return None;
    }
    if !key.has_front(place, bytes) {
        return None;
    }
    let length = length_at(bytes);
    if length > MOST_PAYLOAD {
        return None;
    }
    Some(length)
}

/// Returns the length of the payload of the record block at the front of `bytes`, if a whole one
/// stands there.
pub(crate) fn front(key: &LogKey, place: u64, bytes: &[u8]) -> Option<usize>
    ensures room { IfSome result (λ n. (n ≤ MOST_PAYLOAD)
        × (BESIDE_LEN + n ≤ length bytes.now)) }
    ensures chunk { IfSome result (λ n. bytes.now
        ≡ chunk_of key.now place (take n (drop HEAD_LEN bytes.now))
        ++ drop (BESIDE_LEN + n) bytes.now) }
    ensures none { IfNone result (IsEnd key.now place bytes.now) }
{
    let Some(length) = payload_length(key, place, bytes) else {
        return None;
    };
    let body_len = HEAD_LEN + length;
    if bytes.len() < body_len + SUM_LEN {
        return None;
    }
    let sum = sum_of(key, place, bytes, body_len);
    if has_sum(bytes, body_len, &sum) {
        Some(length)
    } else {
        None
    }
}

// Returns the payload's length, which stands after the beginning of a record block.
fn length_at(bytes: &[u8]) -> usize
    requires { HEAD_LEN ≤ length bytes.now }
    ensures { result ≡ length_at bytes.now }
{
    let number = &bytes[FRONT_LEN..];
    u32::from_be_bytes([number[0], number[1], number[2], number[3]]) as usize
}

// Returns the checksum of the first `len` of `bytes`, which stand at `place` in the log.
fn sum_of(key: &LogKey, place: u64, bytes: &[u8], len: usize) -> [u8; 32]
    requires { len ≤ length bytes.now }
    ensures { result ≡ mac key.now (place_bytes place ++ take len bytes.now) }
{
    HmacSha256.tag(key.bytes(), &place.to_be_bytes(), &bytes[..len])
}

// Returns whether the checksum `sum` stands at `at`.
fn has_sum(bytes: &[u8], at: usize, sum: &[u8; 32]) -> bool
    requires { at + 32 ≤ length bytes.now }
    ensures { IsTrue result ↔ (take 32 (drop at bytes.now) ≡ sum.now) }
{
    let there = &bytes[at..at + SUM_LEN];
    there == sum.as_slice()
}

// Any record block after the end means damage. Other bytes pass for a torn end, which is reported
// and kept.
/// Returns whether a record block stands at some index of `bytes`. At most indices no block header
/// begins.
pub(crate) fn has_chunk_in(key: &LogKey, bytes: &[u8]) -> bool
    ensures { IsTrue result ↔ HasChunkIn key.now bytes.now }
{
    for at in 0..bytes.len() {
        if is_chunk_at(key, bytes, at) {
            return true;
        }
    }
    false
}

// Returns whether the bytes from `at` on begin with a record block.
fn is_chunk_at(key: &LogKey, bytes: &[u8], at: usize) -> bool
    requires { at ≤ length bytes.now }
    ensures { IsTrue result ↔ IsChunkAt key.now bytes.now at }
{
    let rest = &bytes[at..];
    match key.made_for(rest) {
        Some(made_for) => front(key, made_for, rest).is_some(),
        None => false,
    }
}
