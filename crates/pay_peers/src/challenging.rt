//! How a member requests a peer's claim on a connection that it made.

ghost use Rattle.std.specs.Prelude.{◌≡◌, IfOk, IfSome, IsTrue, []};
ghost use Rattle.std.specs.Io.KnownBytes.{Appends, Consumes};
ghost use Rattle.pay_frame.specs.Frame.{frame_bytes};
ghost use Rattle.pay_frame.specs.Lent.{fields_of};
ghost use Rattle.pay_frame.specs.Sliding.{nothing_in};
ghost use Rattle.pay_link.specs.Claims.{IsNonce, challenge_number};
ghost use Rattle.pay_link.specs.Keys.{IsPeer};
ghost use Rattle.pay_link.specs.Sealing.{want_frame};
ghost use Rattle.pay_peers.specs.Challenging.{HasClaimed, IsClaimIn};

use crate::readers::NodeContext;
use pay_frame::{FrameRef, Input, Output, SlidingBuffer, read_one, write_text};
use pay_hmac::Tagger;
use pay_link::{Keys, WANT_LEN, challenge_number, claimed_by, want};
use pay_member::{Incoming, open_frame};
use pay_node::Beginning;
use std::alloc::AllocError;

/// The seconds for which a peer may be silent after a challenge.
pub const CLAIM_SECONDS: u64 = 2;

/// Writes a challenge with `nonce`, and reads one frame. Returns how many frames of the member
/// `peer` claims to have accepted, if the frame is its claim on this challenge.
// promise: comparing
pub(crate) fn ask_claim<R, S, T, In, Out>(
    context: &NodeContext<'_, R, S, T>,
    peer: u16,
    nonce: u64,
    reader: &mut In,
    writer: &mut Out,
) -> Result<Option<u64>, AllocError>
where
    S: Beginning,
    T: Tagger,
    In: Input,
    Out: Output,
    requires peer { IsPeer context.now.node.now.keys peer }
    requires nonce { IsNonce nonce }
    ensures claimed { IfOk result (λ found. IfSome found
        (HasClaimed context.now.node.now.keys peer nonce
        (In.remaining reader.old) (In.remaining reader.new))) }
    ensures asked { IfOk result (λ found. IfSome found (λ _.
        Appends (Out.contents writer.old) (Out.contents writer.new)
        (frame_bytes (want_frame context.now.node.now.keys peer (challenge_number nonce))))) }
{
    let NodeContext { node, tagger, .. } = *context;
    let mut held = SlidingBuffer::new(context.alloc, WANT_LEN)?;
    let challenge = want(tagger, node.keys(), peer, challenge_number(nonce));
    match write_text(writer, &challenge) {
        Ok(()) => {}
        Err(_) => return Ok(None),
    }
    if !fill(&mut held, reader) {
        return Ok(None);
    }
    match read_one(held.bytes()) {
        Ok(frame) => Ok(claim_in(tagger, node.keys(), peer, nonce, frame)),
        Err(_) => Ok(None),
    }
}

// Reads until the empty buffer `held` for one WANT is full. Returns whether it is.
fn fill<In: Input>(held: &mut SlidingBuffer, reader: &mut In) -> bool
    requires { held.old ≡ nothing_in WANT_LEN }
    ensures { IsTrue result
        → Consumes (In.remaining reader.old) (In.remaining reader.new) held.new.bytes }
{
    // each read gives at least a byte
    for _ in 0..WANT_LEN {
        match held.fill(reader) {
            Ok(0) | Err(_) => return false,
            Ok(_) if held.bytes().len() == WANT_LEN => return true,
            Ok(_) => {}
        }
    }
    false
}

// Returns how many frames `frame` claims, if it is the claim of `peer` on a challenge with `nonce`.
// promise: comparing
fn claim_in<T: Tagger>(
    tagger: &T,
    keys: &Keys,
    peer: u16,
    nonce: u64,
    frame: FrameRef<'_>,
) -> Option<u64>
    requires { IsNonce nonce }
    ensures { IsClaimIn keys.now (fields_of frame.entry) peer nonce result }
{
    match open_frame(tagger, keys, frame) {
        Ok(Incoming::Want { from, number }) if from == peer => claimed_by(nonce, number),
        _ => None,
    }
}
