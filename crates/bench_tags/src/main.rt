//! Computes a given count of tags, and nothing else, for `bench/check` to compare with. Its words
//! are this count, the length of the value that each tag covers, and the count of prepared keys.
//! The tags are under the last of these keys. Without prepared keys `HmacSha256` computes them.
#![tactic(auto)]

use pay_hmac::{HmacSha256, PreparedHmac, Tagger};
use std::alloc::{AllocError, Global};
use std::{env, io};

const HEAD: [u8; 24] = [0; 24];

const NO_KEY: [u8; 32] = [0; 32];

/// Returns `count` keys, and at least one. As with test keys, only their last bytes differ.
fn keys_of(alloc: Global, count: u64) -> Result<Vec<[u8; 32]>, AllocError> {
    let mut keys = vec![in alloc; NO_KEY]?;
    for place in 1..count {
        let [_, _, _, _, _, _, high, low] = place.to_be_bytes();
        let mut key = NO_KEY;
        key[30] = high;
        key[31] = low;
        keys.push(key)?;
    }
    Ok(keys)
}

/// Returns the exclusive or of the first bytes of `count` tags, each of another head. It depends on
/// all tags, so that no tag can be left out.
fn xor_of_tags<T: Tagger>(tagger: &T, keys: &[[u8; 32]], value: &[u8], count: u64) -> u8 {
    let place = keys.len().saturating_sub(1);
    let key = keys.last().unwrap_or(&NO_KEY);
    let mut head = HEAD;
    let mut all = 0u8;
    for number in 0..count {
        let [_, _, _, _, _, _, high, low] = number.to_be_bytes();
        head[14] = high;
        head[15] = low;
        let tag = tagger.tag_at(place, key, &head, value);
        all ^= tag[0];
    }
    all
}

fn joined_by(alloc: Global, count: u64, length: u64, prepared: u64) -> Result<u8, AllocError> {
    let value = vec![in alloc; 255u8; length as usize]?;
    let keys = keys_of(alloc, prepared)?;
    if prepared == 0 {
        return Ok(xor_of_tags(&HmacSha256, keys.as_slice(), value.as_slice(), count));
    }
    let tagger = PreparedHmac::new(alloc, keys.as_slice())?;
    Ok(xor_of_tags(&tagger, keys.as_slice(), value.as_slice(), count))
}

/// Returns the number in `word`, or 0 if it has none. Without a word it returns `other`.
fn number_or(word: Option<String>, other: u64) -> u64 {
    word.map_or(other, |word| word.as_str().parse().unwrap_or(0))
}

fn main(rt: HostRuntime) -> io::Result<()> {
    let mut words = env::args(&rt)?;
    let _program = words.next();
    let count = number_or(words.next(), 2);
    let length = number_or(words.next(), 11);
    let prepared = number_or(words.next(), 1);
    let all = joined_by(rt.alloc(), count, length, prepared)?;
    println!(rt; "{count} tags of {length} bytes, {prepared} keys prepared: {all}")
}
