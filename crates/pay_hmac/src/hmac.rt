//! HMAC with SHA-256: computed from the key at each call, or with keys that had their two pads
//! hashed before.

ghost use Rattle.std.specs.Prelude.{◌≡◌, ◌++◌, replicate, ◌↔◌, ℕ, List, IsTrue, IfOk};
ghost use Rattle.pay_hmac.specs.Mac.{mac, block_bytes, padded_key, xor_bytes, inner_pad, outer_pad};
ghost use Rattle.sha2.specs.Hashers.{Holds256};
ghost use Rattle.sha2.specs.Sha256.{sha256};

use sha2::{Digest, Sha256};
use std::alloc::{AllocError, Global};
use std::marker::Model;

/// A tagger: it computes the authentication tag of a text under a key of 32 bytes. However it keeps
/// or computes its hashes, its answer depends on the key and the text alone.
pub trait Tagger {
    /// Returns the tag of the text `head` followed by `rest`, under `key`.
    // promise: memory; tags
    fn tag(&self, key: &[u8; 32], head: &[u8], rest: &[u8]) -> [u8; 32]
        ensures { result ≡ mac key.now (head.now ++ rest.now) };

    /// Returns the tag of the text `head` followed by `rest`, under `key`, as `tag` does. The key
    /// may be kept prepared at this place, and is found there at once.
    // promise: memory; tags
    fn tag_at(&self, _place: usize, key: &[u8; 32], head: &[u8], rest: &[u8]) -> [u8; 32]
        ensures { result ≡ mac key.now (head.now ++ rest.now) }
    {
        self.tag(key, head, rest)
    }
}

/// The size of a block of SHA-256 in bytes.
const BLOCK: usize = 64;

pub(crate) const INNER_PAD: u8 = 0x36;

pub(crate) const OUTER_PAD: u8 = 0x5C;

/// A tagger that keeps nothing between two tags.
#[derive(Clone, Copy, Debug, Default, PartialEq, Eq)]
pub struct HmacSha256;

impl Tagger for HmacSha256 {
    fn tag(&self, key: &[u8; 32], head: &[u8], rest: &[u8]) -> [u8; 32] {
        mac_of_parts(key, head, rest)
    }
}

/// Returns the tag of `text` under `key`, which may have any length.
// promise: memory; tags
pub fn mac(key: &[u8], text: &[u8]) -> [u8; 32]
    ensures { result ≡ mac key.now text.now }
{
    mac_of_parts(key, text, &[])
}

// Returns the tag of `head` followed by `rest`. The two parts are never joined in memory.
#[tactic(auto, unfolding(crate::specs::Mac::mac, crate::specs::Mac::inner_digest))]
fn mac_of_parts(key: &[u8], head: &[u8], rest: &[u8]) -> [u8; 32]
    ensures { result ≡ mac key.now (head.now ++ rest.now) }
{
    let block = padded_key(key);
    let inner = digest_of_parts(&xor_with(block, INNER_PAD), head, rest);
    digest_of_parts(&xor_with(block, OUTER_PAD), &inner, &[])
}

// Returns the digest of `block` followed by two parts.
fn digest_of_parts(block: &[u8; BLOCK], head: &[u8], rest: &[u8]) -> [u8; 32]
    ensures { result ≡ sha256 (block.now ++ (head.now ++ rest.now)) }
{
    let mut hasher = Sha256::new();
    hasher.update(block);
    hasher.update(head);
    hasher.update(rest);
    hasher.finalize()
}

// Returns `key` as one block: the key, or the digest of a longer key, and then zeros.
#[tactic(auto, using(crate::proofs::Pads::filled_blocks))]
pub(crate) fn padded_key(key: &[u8]) -> [u8; BLOCK]
    ensures { result ≡ padded_key key.now }
{
    let mut block = [0u8; BLOCK];
    if key.len() > BLOCK {
        block[..32].copy_from_slice(&Sha256::digest(key));
    } else {
        block[..key.len()].copy_from_slice(key);
    }
    block
}

// Returns the exclusive or of each byte of `block` with the byte `pad`.
pub(crate) fn xor_with(mut block: [u8; BLOCK], pad: u8) -> [u8; BLOCK]
    ensures { result ≡ xor_bytes block (replicate block_bytes pad) }
{
    for byte in block.iter_mut() {
        *byte ^= pad;
    }
    block
}

/// A key of 32 bytes, with the states of the hash after its inner and its outer pad. A tag under it
/// needs two compressions less. It has no `Debug`, so that no line of a log shows a key.
#[derive(Drop)]
pub struct PreparedKey {
    bytes: [u8; 32],
    inner: Sha256,
    outer: Sha256,
}

impl Model for PreparedKey {
    ghost Value = { List ℕ };

    ghost view = { λ k. k.bytes };

    ghost invariant = { λ k. Holds256 k.inner (xor_bytes (padded_key k.bytes) inner_pad)
        × Holds256 k.outer (xor_bytes (padded_key k.bytes) outer_pad) };
}

impl PreparedKey {
    /// Hashes the two pads of the key `bytes`.
    // promise: tags
    pub fn new(bytes: &[u8; 32]) -> PreparedKey
        ensures { result ≡ bytes.now }
    {
        let block = padded_key(bytes);
        PreparedKey {
            bytes: *bytes,
            inner: Sha256::new_with_prefix(&xor_with(block, INNER_PAD)),
            outer: Sha256::new_with_prefix(&xor_with(block, OUTER_PAD)),
        }
    }

    /// Returns whether this key was prepared from `bytes`.
    // promise: tags
    pub fn is_for(&self, bytes: &[u8; 32]) -> bool
        ensures { IsTrue result ↔ (self.now ≡ bytes.now) }
    {
        self.bytes == *bytes
    }

    /// Returns the tag of the text `head` followed by `rest`, under this key.
    #[tactic(auto, unfolding(crate::specs::Mac::mac, crate::specs::Mac::inner_digest))]
    // promise: tags
    pub fn tag(&self, head: &[u8], rest: &[u8]) -> [u8; 32]
        ensures { result ≡ mac self.now (head.now ++ rest.now) }
    {
        let mut inner = copy_of(&self.inner);
        inner.update(head);
        inner.update(rest);
        let mut outer = copy_of(&self.outer);
        outer.update(&inner.finalize());
        outer.finalize()
    }
}

// Returns a copy of `hasher`, without an allocation.
fn copy_of(hasher: &Sha256) -> Sha256
    ensures { result ≡ hasher.now }
{
    hasher.clone().unwrap()
}

/// A tagger that computes what `HmacSha256` does, and keeps the hashed pads of some keys, each at a
/// place. It allocates when it is made, and never again.
///
/// The caller names a key's place. A key that isn't there is hashed at each call.
#[derive(Drop)]
pub struct PreparedHmac {
    keys: Vec<PreparedKey>,
}

impl Model for PreparedHmac {
    ghost Value = { List (List ℕ) };

    ghost view = { λ t. t.keys.items };
}

impl PreparedHmac {
    /// Returns a tagger with `keys` prepared, each at its place.
    // promise: tags
    pub fn new(alloc: Global, keys: &[[u8; 32]]) -> Result<PreparedHmac, AllocError>
        ensures { IfOk result (λ tagger. tagger ≡ keys.now) }
    {
        let keys = keys.iter().map(PreparedKey::new).collect(alloc)?;
        Ok(PreparedHmac { keys })
    }
}

impl Tagger for PreparedHmac {
    fn tag(&self, key: &[u8; 32], head: &[u8], rest: &[u8]) -> [u8; 32] {
        HmacSha256.tag(key, head, rest)
    }

    fn tag_at(&self, place: usize, key: &[u8; 32], head: &[u8], rest: &[u8]) -> [u8; 32] {
        match self.keys.get(place) {
            Some(prepared) if prepared.is_for(key) => prepared.tag(head, rest),
            _ => self.tag(key, head, rest),
        }
    }
}
