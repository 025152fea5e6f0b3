ghost use Rattle.std.specs.Prelude.{◌≡◌, ◌≢◌, ◌<◌, ◌++◌, IfOk, length};
ghost use Rattle.pay_frame.specs.Frame.{IsFrame, frame_bytes};
ghost use Rattle.pay_hmac.specs.Mac.{mac};
ghost use Rattle.pay_link.specs.Checked.{IsChecked, IsFor, bytes_of, checked_fields};
ghost use Rattle.pay_link.specs.Keys.{IsPeer, KeyFields, key_for};
ghost use Rattle.pay_link.specs.Opening.{judgement, opened_fields};
ghost use Rattle.pay_link.specs.Sealing.{sealed_frame, tagged_bytes, want_frame};

use crate::checked::{Checked, CheckedParts};
use crate::keys::Keys;
use crate::limits::WANT_LEN;
use pay_frame::{Body, Bytes, HEAD_LEN, Kind, TAG_LEN, head_into, write};
use pay_hmac::Tagger;
use pay_hmac::laws::tag_length;
use std::alloc::{AllocError, Global};

/// Encodes a frame for the peer `to`, with its right tag.
// promise: sealing
pub fn seal<T: Tagger>(
    alloc: Global,
    t: &T,
    keys: &Keys,
    to: u16,
    number: u64,
    body: &Body,
) -> Result<Vec<u8>, AllocError>
    requires { IsPeer keys.now to }
    ensures bytes { IfOk result (λ bytes.
        bytes.items ≡ frame_bytes (sealed_frame keys.now to number body.now)) }
    ensures frame { IfOk result (λ _. IsFrame (sealed_frame keys.now to number body.now)) }
{
    let tag = tag_for(t, keys, to, number, body);
    write(alloc, keys.own(), to, number, body, &tag)
}

/// Encodes a frame for the peer `to` by itself, with the key of its tag.
///
/// If the peer has this key for the sender, the frame's bytes are authenticated there, and what is
/// owned there is this very frame. So within one process the frame is passed on without a tag.
// promise: sealing
pub fn seal_checked(
    alloc: Global,
    keys: &Keys,
    to: u16,
    number: u64,
    body: &Body,
) -> Result<Checked, AllocError>
    requires peer { IsPeer keys.now to }
    requires kind { body.now.kind ≢ Kind.Want }
    ensures value { IfOk result (λ checked. checked
        ≡ record { frame = sealed_frame keys.now to number body.now; key = key_for keys.now to }) }
    ensures bytes { IfOk result (λ checked.
        bytes_of checked ≡ frame_bytes (sealed_frame keys.now to number body.now)) }
    ensures frame { IsFrame (sealed_frame keys.now to number body.now) }
    ensures limits { IfOk result IsChecked }
    ensures owned { IfOk result (λ checked. (k : KeyFields) → k.own ≡ to → IsPeer k keys.now.own
        → key_for keys.now to ≡ key_for k keys.now.own → body.now.owner < length k.keys
        → IsFor k checked
        × (judgement k checked.frame ≡ Ok (opened_fields k checked.frame))
        × (checked_fields (opened_fields k checked.frame) ≡ checked)) }
{
    let checked = checked_for(alloc, keys, to, number, body)?;
    Ok(checked)
}

/// Encodes a WANT for the peer `to`, with its right tag. It requests the frames from `number` on.
/// It allocates nothing.
// promise: memory; sealing
pub fn want<T: Tagger>(t: &T, keys: &Keys, to: u16, number: u64) -> [u8; WANT_LEN]
    requires { IsPeer keys.now to }
    ensures bytes { result ≡ frame_bytes (want_frame keys.now to number) }
    ensures frame { IsFrame (want_frame keys.now to number) }
{
    let body = Body::new(Kind::Want, 0, 0, Bytes::empty());
    let mut head = [0; HEAD_LEN];
    head_into(&mut head, keys.own(), to, number, &body);
    let tag = tag_for(t, keys, to, number, &body);
    join_head_and_tag(&head, &tag)
}

// Returns `head` followed by `tag`, with no value between them.
fn join_head_and_tag(head: &[u8; HEAD_LEN], tag: &[u8; TAG_LEN]) -> [u8; WANT_LEN]
    ensures { result ≡ head.now ++ tag.now }
{
    let mut bytes = [0; WANT_LEN];
    let (front, back) = bytes.split_at_mut(head.len());
    front.copy_from_slice(head);
    back.copy_from_slice(tag);
    bytes
}

#[tactic(auto, unfolding(crate::specs::Sealing::tagged_bytes))]
fn tag_for<T: Tagger>(t: &T, keys: &Keys, to: u16, number: u64, body: &Body) -> [u8; TAG_LEN]
    requires { IsPeer keys.now to }
    ensures tag { result
        ≡ mac (key_for keys.now to) (tagged_bytes keys.now.own to number body.now) }
    ensures frame { IsFrame (sealed_frame keys.now to number body.now) }
{
    let mut head = [0; HEAD_LEN];
    head_into(&mut head, keys.own(), to, number, body);
    t.tag_at(usize::from(to), keys.key(to), &head, body.value())
}

// Returns a frame for the peer `to` by itself, with the key that is shared with that peer.
fn checked_for(
    alloc: Global,
    keys: &Keys,
    to: u16,
    number: u64,
    body: &Body,
) -> Result<Checked, AllocError>
    requires peer { IsPeer keys.now to }
    requires kind { body.now.kind ≢ Kind.Want }
    ensures value { IfOk result (λ checked. checked
        ≡ record { frame = sealed_frame keys.now to number body.now; key = key_for keys.now to }) }
    ensures frame { IsFrame (sealed_frame keys.now to number body.now) }
    ensures limits { IfOk result IsChecked }
{
    tag_length();
    // for the proof, a body's limits: the call does nothing
    body.value();
    let from = keys.own();
    let body = body.copy(alloc)?;
    let key = keys.share(to)?;
    let parts = CheckedParts::new(from, to, number, body, key);
    Checked::new(alloc, parts)
}
