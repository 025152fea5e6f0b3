//! The keys of a member, one for each peer and shared with that peer alone, and how their file is
//! read. Test keys, which anyone can name, are here too.

ghost use Rattle.std.specs.Prelude.{◌≡◌, IfOk, ◌<◌, ◌≤◌, ◌↔◌, ◌⊎◌, IsOkUnless, IsTrue};
ghost use Rattle.std.specs.Prelude.{MatchOption, length, map, IsSome};
ghost use Rattle.std.specs.List.{AllPass};
ghost use Rattle.std.specs.Option.{option_map_or};
ghost use Rattle.std.specs.Result.{result_map_both};
ghost use Rattle.hex.specs.Hex.{is_hex_digit};
ghost use Rattle.pay_link.specs.Faults.{keys_fault_name, keys_fault_number};
ghost use Rattle.pay_link.specs.Files.{key_at, keys_from, keys_in_file};
ghost use Rattle.pay_link.specs.Keys.{IsKeys, IsKeysOf, IsPeer, kept_keys, key_for, keys_fault};
ghost use Rattle.pay_link.specs.Keys.{place_fault};
ghost use Rattle.pay_link.specs.TestKeys.{pair_key, test_key, test_keys_of};
ghost use Rattle.pay_link.specs.Hexadecimal as hexadecimal;

use crate::genesis::Genesis;
use crate::json::{number_at, texts_at, value_in};
use hex::FromHex;
use pay_frame::MOST_MEMBERS;
use pay_hmac::PreparedHmac;
use std::alloc::{AllocError, Global};
use std::fmt;
use std::marker::Model;
use std::sync::Arc;
use thiserror::Error;

/// The reason why there are no keys, in the order of the tests. `Memory` is outside of this order.
#[derive(Clone, Copy, Debug, PartialEq, Eq, Error)]
pub enum KeysFault {
    /// There is no memory. The file may be right.
    Memory,
    /// The file isn't JSON.
    BadJson,
    /// The object lacks a member, or a member has the wrong type.
    BadShape,
    /// There is no member of this number.
    BadOwn,
    /// The count of keys isn't N.
    BadKeyCount,
    /// A text isn't 64 hexadecimal digits, or the text at the member's own place isn't empty. The
    /// number is the first such place.
    BadKey(u16),
}

impl KeysFault {
    // promise: order of refusals (number, name)
    const fn entry(self) -> (u8, &'static str)
        ensures number { result.0 ≡ keys_fault_number self }
        ensures name { result.1.now ≡ keys_fault_name self }
    {
        match self {
            KeysFault::Memory => (0, "Memory"),
            KeysFault::BadJson => (1, "BadJson"),
            KeysFault::BadShape => (2, "BadShape"),
            KeysFault::BadOwn => (3, "BadOwn"),
            KeysFault::BadKeyCount => (4, "BadKeyCount"),
            KeysFault::BadKey(_) => (5, "BadKey"),
        }
    }

    pub fn number(self) -> u8
        ensures value { result ≡ keys_fault_number self }
    {
        self.entry().0
    }

    pub fn name(self) -> &'static str
        ensures value { result.now ≡ keys_fault_name self }
    {
        self.entry().1
    }
}

impl fmt::Display for KeysFault {
    ghost use Rattle.std.specs.Prelude.{Some};
    ghost use Rattle.pay_link.specs.Faults.{keys_fault_words};

    ghost output = { λ fault. Some (keys_fault_words fault) };

    fn fmt<W: fmt::Write>(&self, f: &mut fmt::Formatter<W>) -> fmt::Result {
        write!(f, "{} {}", self.number(), self.name())
    }
}

impl From<AllocError> for KeysFault {
    ghost use Rattle.pay_link.specs.declared.keys.KeysFault.TheVariants.{Memory};

    ghost from_gives = { λ _ e. e ≡ Memory };

    fn from(_error: AllocError) -> KeysFault {
        KeysFault::Memory
    }
}

/// A key that was taken from those of a member without an allocation: its bytes, and a copy that
/// shares it, unless the key has too many copies already.
#[derive(Drop)]
pub(crate) struct LentKey {
    bytes: [u8; 32],
    shared: Option<SharedKey>,
}

impl Model for LentKey {
    ghost use Rattle.std.specs.Prelude.{◌≡◌, ℕ, List, IfSome};

    ghost Value = { List ℕ };

    ghost view = { λ k. k.bytes };

    ghost invariant = { λ k. IfSome k.shared (λ shared. shared ≡ k.bytes) };
}

impl LentKey {
    pub(crate) fn of(key: &SharedKey) -> LentKey
        ensures { result ≡ key.now }
    {
        LentKey {
            bytes: *key.bytes(),
            shared: key.copy().ok(),
        }
    }

    /// Returns a shared copy of the key. It allocates only if the key can't be shared.
    pub(crate) fn share(&self, alloc: Global) -> Result<SharedKey, AllocError>
        ensures { IfOk result (λ key. key ≡ self.now) }
    {
        match &self.shared {
            Some(key) => key.copy(),
            None => SharedKey::new(alloc, &self.bytes),
        }
    }
}

/// A key that its copies share. Contracts see it as its bytes. Like `Keys` it has no `Debug`.
#[derive(Drop)]
pub(crate) struct SharedKey {
    bytes: Arc<[u8; 32], Global>,
}

impl Model for SharedKey {
    ghost use Rattle.std.specs.Prelude.{ℕ, List};

    ghost Value = { List ℕ };

    ghost view = { λ k. k.bytes.value };
}

impl SharedKey {
    /// Returns a key with these `bytes` that has no copy yet.
    pub(crate) fn new(alloc: Global, bytes: &[u8; 32]) -> Result<SharedKey, AllocError>
        ensures { IfOk result (λ key. key ≡ bytes.now) }
    {
        let bytes = Arc::new(alloc, *bytes)?;
        Ok(SharedKey { bytes })
    }

    pub(crate) fn bytes(&self) -> &[u8; 32]
        ensures { result.now ≡ self.now }
    {
        &self.bytes
    }

    /// Returns another handle to this key.
    pub(crate) fn copy(&self) -> Result<SharedKey, AllocError>
        ensures { IfOk result (λ copy. copy ≡ self.now) }
    {
        let bytes = Arc::try_clone(&self.bytes)?;
        Ok(SharedKey { bytes })
    }
}

/// The value at a member's own place.
pub(crate) const NO_KEY: [u8; 32] = [0; 32];

/// A member's keys, one for each other member. Both members of a pair have the same key. The type
/// has no `Debug`, so that no line of a log shows a key.
#[derive(Drop)]
pub struct Keys {
    own: u16,
    keys: Vec<SharedKey>,
}

impl Model for Keys {
    ghost use Rattle.pay_link.specs.Keys.{IsKeys, KeyFields};

    ghost Value = { KeyFields };

    ghost view = { λ k. record { own = k.own; keys = k.keys.items } };

    ghost invariant = { λ k. IsKeys (record { own = k.own; keys = k.keys.items }) };
}

impl Keys {
    /// Returns the keys of the member `own` of `genesis`, or their first fault. The key at the
    /// member's own place isn't kept. A lack of memory is reported last.
    // promise: order of refusals; files
    pub fn new(
        alloc: Global,
        genesis: &Genesis,
        own: u64,
        keys: &[[u8; 32]],
    ) -> Result<Keys, KeysFault>
        ensures fault { MatchOption
            (keys_fault genesis.now.members (record { own = own; keys = keys.now }))
            (IsOkUnless result KeysFault.Memory)
            (λ fault. result ≡ Err fault) }
        ensures value { IfOk result (λ kept.
            kept ≡ kept_keys (record { own = own; keys = keys.now })) }
        ensures genesis { IfOk result (IsKeysOf genesis.now) }
    {
        let own = place_in(genesis, own, keys.len())?;
        let mut keys = Vec::from_slice(alloc, keys)?;
        keys[usize::from(own)] = NO_KEY;
        let keys = share_each(alloc, keys.as_slice())?;
        Ok(Keys { own, keys })
    }

    /// Returns the keys that `bytes`, a file of JSON, contain for a member of `genesis`.
    // promise: order of refusals; files
    pub fn read(alloc: Global, genesis: &Genesis, bytes: &[u8]) -> Result<Keys, KeysFault>
        ensures value { (result ≡ keys_in_file genesis.now.members bytes.now)
            ⊎ (result ≡ Err KeysFault.Memory) }
        ensures genesis { IfOk result (IsKeysOf genesis.now) }
    {
        let value = value_in(alloc, bytes)?;
        let Some(value) = value else {
            return Err(KeysFault::BadJson);
        };
        let Some(own) = number_at(&value, "own") else {
            return Err(KeysFault::BadShape);
        };
        let texts = texts_at(alloc, &value, "keys")?;
        let Some(texts) = texts else {
            return Err(KeysFault::BadShape);
        };
        let own = place_in(genesis, own, texts.len())?;
        let keys = keys_of_texts(alloc, own, texts.as_slice())?;
        let keys = share_each(alloc, keys.as_slice())?;
        Ok(Keys { own, keys })
    }

    /// Returns the keys of the member `own`. `keys` has a key at that place too.
    pub(crate) fn of_parts(alloc: Global, own: u16, keys: &[[u8; 32]]) -> Result<Keys, AllocError>
        requires { IsKeys (record { own = own; keys = keys.now }) }
        ensures { IfOk result (λ kept. kept ≡ record { own = own; keys = keys.now }) }
    {
        let keys = share_each(alloc, keys)?;
        Ok(Keys { own, keys })
    }

    /// Returns the member that the keys belong to.
    pub fn own(&self) -> u16
        ensures value { result ≡ self.now.own }
        ensures limits { IsKeys self.now }
    {
        self.own
    }

    /// Returns how many members there are, including this member.
    pub fn members(&self) -> u16
        ensures value { result ≡ length self.now.keys }
        ensures limits { IsKeys self.now }
    {
        self.keys.len() as u16
    }

    /// Returns whether `member` is another member.
    pub fn is_peer(&self, member: u16) -> bool
        ensures { IsTrue result ↔ IsPeer self.now member }
    {
        member < self.members() && member != self.own
    }

    /// Returns the key that is shared with `peer`.
    pub fn key(&self, peer: u16) -> &[u8; 32]
        requires { IsPeer self.now peer }
        ensures { result.now ≡ key_for self.now peer }
    {
        self.keys[usize::from(peer)].bytes()
    }

    /// Returns the key that is shared with `peer`, without an allocation.
    pub(crate) fn lend(&self, peer: u16) -> LentKey
        requires { IsPeer self.now peer }
        ensures { result ≡ key_for self.now peer }
    {
        LentKey::of(&self.keys[usize::from(peer)])
    }

    /// Returns a tagger with each of these keys prepared, at its member's place.
    // promise: tags
    pub fn tagger(&self, alloc: Global) -> Result<PreparedHmac, AllocError>
        ensures { IfOk result (λ tagger. tagger ≡ self.now.keys) }
    {
        let mut keys = Vec::with_capacity(alloc, self.keys.len())?;
        for key in &self.keys {
            keys.push(*key.bytes())?;
        }
        PreparedHmac::new(alloc, keys.as_slice())
    }

    /// Returns another handle to the key that is shared with `peer`.
    pub(crate) fn share(&self, peer: u16) -> Result<SharedKey, AllocError>
        requires { IsPeer self.now peer }
        ensures { IfOk result (λ key. key ≡ key_for self.now peer) }
    {
        self.keys[usize::from(peer)].copy()
    }

    /// Returns whether `other` belongs to the same member and has equal keys.
    pub fn is_same(&self, other: &Keys) -> bool
        ensures { IsTrue result ↔ (self.now ≡ other.now) }
    {
        self.own == other.own && are_same(self.keys.as_slice(), other.keys.as_slice())
    }

    /// Returns a copy of the keys.
    pub fn copy(&self, alloc: Global) -> Result<Keys, AllocError>
        ensures { IfOk result (λ copy. copy ≡ self.now) }
    {
        let keys = copy_each(alloc, self.keys.as_slice())?;
        Ok(Keys {
            own: self.own,
            keys,
        })
    }
}

fn copy_each(alloc: Global, keys: &[SharedKey]) -> Result<Vec<SharedKey>, AllocError>
    ensures { IfOk result (λ copies. copies.items ≡ keys.now) }
{
    let mut copies = Vec::with_capacity(alloc, keys.len())?;
    for key in keys {
        copies.push(key.copy()?)?;
    }
    Ok(copies)
}

fn are_same(a: &[SharedKey], b: &[SharedKey]) -> bool
    ensures { IsTrue result ↔ (a.now ≡ b.now) }
{
    if a.len() != b.len() {
        return false;
    }
    for k in 0..a.len() {
        if !is_same_key(a[k].bytes(), b[k].bytes()) {
            return false;
        }
    }
    true
}

fn is_same_key(a: &[u8; 32], b: &[u8; 32]) -> bool
    ensures { IsTrue result ↔ (a.now ≡ b.now) }
{
    a == b
}

// Returns each key in a form that its copies share.
fn share_each(alloc: Global, keys: &[[u8; 32]]) -> Result<Vec<SharedKey>, AllocError>
    ensures { IfOk result (λ shared. shared.items ≡ keys.now) }
{
    let mut shared = Vec::with_capacity(alloc, keys.len())?;
    for key in keys {
        shared.push(SharedKey::new(alloc, key)?)?;
    }
    Ok(shared)
}

/// Returns the place of the member `own`, if `count` keys are one for each member of `genesis`.
fn place_in(genesis: &Genesis, own: u64, count: usize) -> Result<u16, KeysFault>
    ensures value { result
        ≡ option_map_or Err (place_fault genesis.now.members own count) (Ok own) }
    ensures limits { IfOk result (λ place.
        (place < count) × (count ≤ MOST_MEMBERS) × (count ≡ genesis.now.members)) }
{
    let members = genesis.members();
    if own >= u64::from(members) {
        return Err(KeysFault::BadOwn);
    }
    if count != usize::from(members) {
        return Err(KeysFault::BadKeyCount);
    }
    Ok(own as u16)
}

/// Returns the keys that `texts` encode, and none at the place `own`.
fn keys_of_texts(alloc: Global, own: u16, texts: &[&str]) -> Result<Vec<[u8; 32]>, KeysFault>
    requires { length texts.now ≤ MOST_MEMBERS }
    ensures count { IfOk result (λ keys. length keys.items ≡ length texts.now) }
    ensures value { (result_map_both (λ keys. keys.items) (λ fault. fault) result
        ≡ keys_from own 0 (map (λ text. text.now) texts.now))
        ⊎ (result ≡ Err KeysFault.Memory) }
{
    let mut keys = Vec::new(alloc);
    for (place, text) in texts.iter().enumerate() {
        let Some(key) = key_at(own, place as u16, text) else {
            return Err(KeysFault::BadKey(place as u16));
        };
        keys.push(key).map_err(|_| KeysFault::Memory)?;
    }
    Ok(keys)
}

/// Returns the key that `text` encodes at `place`.
fn key_at(own: u16, place: u16, text: &str) -> Option<[u8; 32]>
    ensures { result ≡ key_at own place text.now }
{
    if place != own {
        key_in(text)
    } else if text.is_empty() {
        Some(NO_KEY)
    } else {
        None
    }
}

/// Returns the 32 bytes that `text` encodes: 64 digits, of either case.
// promise: files
pub(crate) fn key_in(text: &str) -> Option<[u8; 32]>
    ensures value { result ≡ hexadecimal.key_in text.now }
    ensures found { IsSome result ↔ ((length text.now ≡ 64) × AllPass is_hex_digit text.now) }
{
    <[u8; 32] as FromHex>::from_hex(text).ok()
}

/// Returns the test keys of the member `own`.
// promise: files
pub fn test_keys(alloc: Global, genesis: &Genesis, own: u16) -> Result<Keys, AllocError>
    requires { own < genesis.now.members }
    ensures value { IfOk result (λ keys. keys ≡ test_keys_of genesis.now.members own) }
    ensures genesis { IfOk result (IsKeysOf genesis.now) }
{
    let members = genesis.members();
    let mut keys = Vec::with_capacity(alloc, usize::from(members))?;
    for place in 0..members {
        keys.push(test_key(own, place))?;
    }
    let kept = Keys::of_parts(alloc, own, keys.as_slice())?;
    Ok(kept)
}

fn test_key(own: u16, place: u16) -> [u8; 32]
    requires own { own < 256 }
    requires place { place < 256 }
    ensures { result ≡ test_key own place }
{
    if place == own {
        NO_KEY
    } else {
        pair_key(own, place)
    }
}

/// Returns the test key that the members `x` and `y` share: 30 zeros, the lesser number and the
/// greater.
pub fn pair_key(x: u16, y: u16) -> [u8; 32]
    requires one_byte { x < 256 }
    requires other_byte { y < 256 }
    ensures { result ≡ pair_key x y }
{
    let mut key = [0; 32];
    key[30] = x.min(y) as u8;
    key[31] = x.max(y) as u8;
    key
}
