//! How a frame is authenticated. It must be for this member, from a peer, about an account that
//! exists, and have the right tag. Otherwise a fault says which of these fails first.

ghost use Rattle.std.specs.Prelude.{◌≡◌, ◌++◌, OnOk, codes, decimal, ◌≢◌, IfOk};
ghost use Rattle.std.specs.Str.{bytes_eq};
ghost use Rattle.pay_frame.specs.Lent.{fields_of};
ghost use Rattle.pay_link.specs.Checked.{checked_fields};
ghost use Rattle.pay_link.specs.Faults.{link_fault_name, link_fault_number};
ghost use Rattle.pay_link.specs.Keys.{IsPeer, key_for};
ghost use Rattle.pay_link.specs.Opening.{IsOpened, judgement, right_tag};
ghost use Rattle.pay_link.specs.Words.{link_words, next_words};

use crate::checked::{Checked, CheckedParts};
use crate::keys::{Keys, LentKey};
use pay_frame::{Body, Bytes, FrameRef, Kind};
use pay_hmac::Tagger;
use pay_text::{push_number, push_word};
use std::alloc::{AllocError, Global};
use std::fmt;
use std::marker::Model;
use thiserror::Error;

/// The reason why a frame is refused, in the order of the tests. The first four are tests of
/// authentication, the last two of acceptance.
#[derive(Clone, Copy, Debug, PartialEq, Eq, Error)]
pub enum LinkFault {
    /// The frame is for another receiver.
    NotForMe,
    /// The sender is no member, or this member.
    UnknownSender,
    /// The owner is no member.
    UnknownOwner,
    /// The tag isn't the right one under the key that is shared with the sender.
    BadTag,
    /// The frame's number is below the next one, which is given.
    Repeat(u64),
    /// The frame's number is above the next one, which is given.
    Gap(u64),
}

impl LinkFault {
    // promise: order of refusals (number, name)
    const fn entry(self) -> (u8, &'static str)
        ensures number { result.0 ≡ link_fault_number self }
        ensures name { result.1.now ≡ link_fault_name self }
    {
        match self {
            LinkFault::NotForMe => (1, "NotForMe"),
            LinkFault::UnknownSender => (2, "UnknownSender"),
            LinkFault::UnknownOwner => (3, "UnknownOwner"),
            LinkFault::BadTag => (4, "BadTag"),
            LinkFault::Repeat(_) => (5, "Repeat"),
            LinkFault::Gap(_) => (6, "Gap"),
        }
    }

    pub fn number(self) -> u8
        ensures value { result ≡ link_fault_number self }
    {
        self.entry().0
    }

    pub fn name(self) -> &'static str
        ensures value { result.now ≡ link_fault_name self }
    {
        self.entry().1
    }

    /// Appends the fault's number and name to `out`. A repeat and a gap also have the number that
    /// is next.
    pub fn push_words(self, out: &mut Vec<u8>) -> Result<(), AllocError>
        ensures words { OnOk result (out.new.items ≡ out.old.items ++ link_words self) }
    {
        push_number(out, u64::from(self.number()))?;
        push_word(out, " ")?;
        push_word(out, self.name())?;
        match self {
            LinkFault::Repeat(next) | LinkFault::Gap(next) => push_next(out, next),
            _ => Ok(()),
        }
    }
}

fn push_next(out: &mut Vec<u8>, next: u64) -> Result<(), AllocError>
    ensures { OnOk result (out.new.items ≡ out.old.items ++ codes " next " ++ decimal next) }
{
    push_word(out, " next ")?;
    push_number(out, next)
}

impl fmt::Display for LinkFault {
    ghost use Rattle.std.specs.Prelude.{Some};
    ghost use Rattle.pay_link.specs.Faults.{link_fault_words};

    ghost output = { λ fault. Some (link_fault_words fault) };

    fn fmt<W: fmt::Write>(&self, f: &mut fmt::Formatter<W>) -> fmt::Result {
        write!(f, "{} {}", self.number(), self.name())
    }
}

/// A frame that was authenticated, in the buffer that lends it, with the key that authenticated it.
///
/// Its type keeps that the tag is right under that key, that sender and owner are among the
/// members, and that the sender isn't the receiver. The clause of `open` says that the receiver is
/// the member who opened it, and that the key is the one shared with the sender. `open` alone makes
/// an `Opened`.
#[derive(Drop)]
pub struct Opened<'a> {
    frame: FrameRef<'a>,
    key: LentKey,
    members: u16,
}

impl<'a> Model for Opened<'a> {
    ghost use Rattle.pay_link.specs.Opening.{IsOpened, OpenedFields};

    ghost Value = { OpenedFields };

    ghost use Rattle.pay_frame.specs.Lent.{fields_of};

    ghost view = { λ o. record { frame = fields_of o.frame; key = o.key; members = o.members } };

    ghost invariant = { λ o. IsOpened
        (record { frame = fields_of o.frame; key = o.key; members = o.members }) };
}

impl<'a> Opened<'a> {
    // promise: opening
    pub fn frame(&self) -> &FrameRef<'a>
        ensures value { fields_of result.now ≡ self.now.frame }
        ensures limits { IsOpened self.now }
    {
        &self.frame
    }

    /// Returns the frame by itself, with its key. The value is copied. A WANT is answered at once
    /// and never kept.
    #[tactic(auto, using(crate::proofs::Owned::parts_of_opened))]
    // promise: owned frames
    pub fn own(&self, alloc: Global) -> Result<Checked, AllocError>
        requires { self.now.frame.body.kind ≢ Kind.Want }
        ensures { IfOk result (λ checked. checked ≡ checked_fields self.now) }
    {
        let frame = &self.frame;
        let value = Bytes::from_slice(alloc, frame.value())?;
        let body = Body::new(frame.kind(), frame.owner(), frame.seq(), value);
        let key = self.key.share(alloc)?;
        let parts = CheckedParts::new(frame.from(), frame.to(), frame.number(), body, key);
        Checked::new(alloc, parts)
    }
}

/// Authenticates `frame`, which was sent to the member with `keys`, or returns the first cause of
/// refusal. It allocates nothing and waits for nobody.
#[tactic(auto, using(crate::proofs::Judged::judged))]
// promise: order of refusals; memory; opening
pub fn open<'a, T: Tagger>(t: &T, keys: &Keys, frame: FrameRef<'a>) -> Result<Opened<'a>, LinkFault>
    ensures { result ≡ judgement keys.now (fields_of frame.entry) }
{
    if frame.to() != keys.own() {
        return Err(LinkFault::NotForMe);
    }
    let from = frame.from();
    if !keys.is_peer(from) {
        return Err(LinkFault::UnknownSender);
    }
    if frame.owner() >= keys.members() {
        return Err(LinkFault::UnknownOwner);
    }
    if !is_tagged(t, keys, &frame) {
        return Err(LinkFault::BadTag);
    }
    Ok(Opened {
        frame,
        key: keys.lend(from),
        members: keys.members(),
    })
}

// Returns whether the tag of `frame` is right. The tag covers all bytes before it, which the frame
// lends in two parts.
#[tactic(auto, using(crate::proofs::Judged::bytes_eq_read), unfolding(crate::specs::Sealing::tagged_bytes))]
fn is_tagged<T: Tagger>(t: &T, keys: &Keys, frame: &FrameRef<'_>) -> bool
    requires { IsPeer keys.now (fields_of frame.now).from }
    ensures { let f = fields_of frame.now in
        result ≡ bytes_eq f.tag (right_tag (key_for keys.now f.from) f) }
{
    let from = frame.from();
    let tag = t.tag_at(
        usize::from(from),
        keys.key(from),
        frame.head(),
        frame.value(),
    );
    frame.tag() == tag.as_slice()
}
