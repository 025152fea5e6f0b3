//! A frame with the right authentication tag, kept with the key that authenticated it.

ghost use Rattle.std.specs.Prelude.{◌≡◌, ◌≢◌, ◌↔◌, IfOk, IsTrue};
ghost use Rattle.pay_link.specs.Checked.{IsChecked, checked_parts, IsFor, checked_from};
ghost use Rattle.pay_link.specs.Keys.{IsPeer};

use crate::keys::{Keys, SharedKey};
use pay_frame::{Body, HEAD_LEN, Kind, TAG_LEN, head_into};
use pay_hmac::laws::tag_length;
use pay_hmac::{HmacSha256, Tagger};
use std::alloc::{AllocError, Global};
use std::marker::Model;
use std::sync::Arc;

/// What the copies of a `Checked` share. The tag isn't kept: it follows from the rest.
#[derive(Drop)]
pub(crate) struct CheckedParts {
    from: u16,
    to: u16,
    number: u64,
    body: Body,
    key: SharedKey,
}

impl Model for CheckedParts {
    ghost use Rattle.pay_link.specs.Checked.{CheckedFields, IsChecked, checked_parts};

    ghost Value = { CheckedFields };

    ghost view = { λ c. checked_parts c.from c.to c.number c.body c.key };

    ghost invariant = { λ c. IsChecked (checked_parts c.from c.to c.number c.body c.key) };
}

impl CheckedParts {
    pub(crate) fn new(from: u16, to: u16, number: u64, body: Body, key: SharedKey) -> CheckedParts
        requires { body.kind ≢ Kind.Want }
        ensures value { result ≡ checked_parts from to number body key }
        ensures limits { IsChecked (checked_parts from to number body key) }
    {
        tag_length();
        // for the proof, a body's limits: the call does nothing
        body.value();
        CheckedParts {
            from,
            to,
            number,
            body,
            key,
        }
    }

    pub(crate) fn from(&self) -> u16
        ensures { result ≡ self.now.frame.from }
    {
        self.from
    }

    pub(crate) fn to(&self) -> u16
        ensures { result ≡ self.now.frame.to }
    {
        self.to
    }

    pub(crate) fn number(&self) -> u64
        ensures { result ≡ self.now.frame.number }
    {
        self.number
    }

    pub(crate) fn body(&self) -> &Body
        ensures value { result.now ≡ self.now.frame.body }
        ensures limits { IsChecked self.now }
    {
        &self.body
    }

    #[tactic(auto, unfolding(crate::specs::Sealing::tagged_bytes))]
    pub(crate) fn tag(&self) -> [u8; TAG_LEN]
        ensures value { result ≡ self.now.frame.tag }
        ensures limits { IsChecked self.now }
    {
        let mut head = [0; HEAD_LEN];
        head_into(&mut head, self.from, self.to, self.number, &self.body);
        HmacSha256.tag(self.key.bytes(), &head, self.body.value())
    }

    pub(crate) fn key(&self) -> &[u8; 32]
        ensures value { result.now ≡ self.now.key }
        ensures limits { IsChecked self.now }
    {
        self.key.bytes()
    }
}

// A stored frame is a `Checked`, so a history itself says that its frames have the right tags.
// Copies share the frame, so it is stored once, and `Checked::copy` needs no allocator.
/// A frame that was authenticated, stored by itself with the key that authenticated it. Copies
/// share it.
///
/// Its type keeps that the frame is within its limits, that its tag is right under that key, and
/// that it is no WANT. Only `Opened::own`, `seal_checked`, `from_peer` and `copy` make a `Checked`.
/// Like `Keys` it has no `Debug`, so that no line of a log shows the key.
#[derive(Drop)]
pub struct Checked {
    parts: Arc<CheckedParts, Global>,
}

impl Model for Checked {
    ghost use Rattle.pay_link.specs.Checked.{CheckedFields};

    ghost Value = { CheckedFields };

    ghost view = { λ c. c.parts.value };
}

impl Checked {
    /// Creates a `Checked` that owns `parts`.
    pub(crate) fn new(alloc: Global, parts: CheckedParts) -> Result<Checked, AllocError>
        ensures { IfOk result (λ checked. checked ≡ parts) }
    {
        let parts = Arc::new(alloc, parts)?;
        Ok(Checked { parts })
    }

    /// Returns the frame with `number` and `body` that the peer `from` sends to the member with
    /// `keys`. Its tag follows from the rest.
    // promise: owned frames
    pub fn from_peer(
        alloc: Global,
        keys: &Keys,
        from: u16,
        number: u64,
        body: Body,
    ) -> Result<Checked, AllocError>
        requires peer { IsPeer keys.now from }
        requires kind { body.kind ≢ Kind.Want }
        ensures value { IfOk result (λ checked.
            checked ≡ checked_from keys.now from number body) }
        ensures limits { IfOk result IsChecked }
    {
        let key = keys.share(from)?;
        let parts = CheckedParts::new(from, keys.own(), number, body, key);
        Checked::new(alloc, parts)
    }

    /// Returns the sender.
    pub fn from(&self) -> u16
        ensures { result ≡ self.now.frame.from }
    {
        self.parts.from()
    }

    /// Returns the receiver.
    pub fn to(&self) -> u16
        ensures { result ≡ self.now.frame.to }
    {
        self.parts.to()
    }

    /// Returns the frame's place among all that the sender sent.
    pub fn number(&self) -> u64
        ensures { result ≡ self.now.frame.number }
    {
        self.parts.number()
    }

    // promise: owned frames
    pub fn body(&self) -> &Body
        ensures value { result.now ≡ self.now.frame.body }
        ensures limits { IsChecked self.now }
    {
        self.parts.body()
    }

    /// Computes the frame's tag, which isn't stored.
    // promise: owned frames
    pub fn tag(&self) -> [u8; TAG_LEN]
        ensures value { result ≡ self.now.frame.tag }
        ensures limits { IsChecked self.now }
    {
        self.parts.tag()
    }

    /// Returns the key that sender and receiver share.
    // promise: owned frames
    pub fn key(&self) -> &[u8; 32]
        ensures value { result.now ≡ self.now.key }
        ensures limits { IsChecked self.now }
    {
        self.parts.key()
    }

    /// Returns whether the frame is for the member with `keys` and was authenticated under the
    /// right one of them.
    // promise: owned frames
    pub fn is_for(&self, keys: &Keys) -> bool
        ensures { IsTrue result ↔ IsFor keys.now self.now }
    {
        self.to() == keys.own()
            && keys.is_peer(self.from())
            && self.body().owner() < keys.members()
            && *self.key() == *keys.key(self.from())
    }

    /// Returns another handle to this frame and its key.
    // promise: owned frames
    pub fn copy(&self) -> Result<Checked, AllocError>
        ensures { IfOk result (λ copy. copy ≡ self.now) }
    {
        let parts = Arc::try_clone(&self.parts)?;
        Ok(Checked { parts })
    }
}
