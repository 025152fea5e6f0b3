//! What a peer's WANT requests, a frame or a claim, and the answer to it.

ghost use Rattle.std.specs.Prelude.{◌≡◌, ◌≢◌, ℕ, IfErr, IfNone, IfOk, IfSome};
ghost use Rattle.std.specs.List.{All, Any};
ghost use Rattle.pay_frame.specs.Lent.{fields_of};
ghost use Rattle.pay_link.specs.Claims.{IsNonce};
ghost use Rattle.pay_link.specs.Keys.{IsPeer};
ghost use Rattle.pay_peers.specs.Answering.{HasWrongTag, IsUnopened, IsWant, IsClaimTo, IsSentTo};

use crate::readers::NodeContext;
use pay_frame::FrameRef;
use pay_hmac::Tagger;
use pay_link::{Keys, LinkFault, WANT_LEN, claim_number, seal, want};
use pay_member::{Incoming, open_frame};
use pay_node::{Beginning, FetchSeat};
use std::alloc::AllocError;
use std::sync::atomic::AtomicBool;
use std::sync::{Mutex, Wait};

/// A WANT that was authenticated: its sender with the seat that it has, and which frame it
/// requests.
#[derive(Drop)]
pub(crate) struct Wanted<'a> {
    pub(crate) seated: &'a (u16, Mutex<FetchSeat>),
    pub(crate) number: u64,
}

/// Authenticates `frame`, a WANT of a sender with a seat in `seats`. For any other frame it returns
/// the named sender, if the authentication tag isn't the one under that peer's key.
// promise: news of peers (unopened)
pub(crate) fn open_want<'a, T: Tagger>(
    tagger: &T,
    keys: &Keys,
    seats: &'a [(u16, Mutex<FetchSeat>)],
    frame: FrameRef<'_>,
) -> Result<Wanted<'a>, Option<u16>>
    ensures some { IfOk result (λ w.
        IsWant keys.now seats.now (fields_of frame.entry) w.seated.now.0 w.number) }
    ensures peer { IfOk result (λ w. IsPeer keys.now w.seated.now.0) }
    ensures none { IfErr result (λ _. (from number : ℕ)
        → ¬ (IsWant keys.now seats.now (fields_of frame.entry) from number)) }
    ensures unopened { IfErr result (λ peer. IfSome peer
        (IsUnopened keys.now (fields_of frame.entry))) }
    ensures passed { IfErr result (λ peer. IfNone peer
        (¬ (HasWrongTag keys.now (fields_of frame.entry)))) }
{
    let from = frame.from();
    match open_frame(tagger, keys, frame) {
        Ok(Incoming::Want { from, number }) => match seat_of(seats, from) {
            Some(seated) => Ok(Wanted { seated, number }),
            None => Err(None),
        },
        Ok(Incoming::Message(_)) => Err(None),
        Err(LinkFault::BadTag) => Err(Some(from)),
        Err(_) => Err(None),
    }
}

// Returns `peer` with its seat.
fn seat_of(seats: &[(u16, Mutex<FetchSeat>)], peer: u16) -> Option<&(u16, Mutex<FetchSeat>)>
    ensures its { IfSome result (λ seated. seated.now.0 ≡ peer) }
    ensures some { IfSome result (λ _. Any (λ s. s.0 ≡ peer) seats.now) }
    ensures none { IfNone result (All (λ s. s.0 ≢ peer) seats.now) }
{
    for seated in seats {
        if seated.0 == peer {
            return Some(seated);
        }
    }
    None
}

/// Returns the frame that `wanted` requests, as soon as its body is sent, or `None` if `stop` is
/// set before. The frame is encoded for the peer of the seat, and a receipt of the number at this
/// seat shows its body.
pub(crate) fn answer_want<S, R, T>(
    context: &NodeContext<'_, R, S, T>,
    stop: &AtomicBool,
    wanted: &Wanted<'_>,
) -> Result<Option<Vec<u8>>, AllocError>
where
    S: Beginning,
    R: Wait,
    T: Tagger,
    requires { IsPeer context.now.node.now.keys wanted.now.seated.now.0 }
    ensures { IfOk result (λ reply. IfSome reply (λ bytes.
        IsSentTo context.now.node.now wanted.now.seated.now.0 wanted.now.number bytes.items)) }
{
    let alloc = context.alloc;
    let (to, seat) = wanted.seated;
    let found = context
        .node
        .fetch_when_sent(context.rt, alloc, seat, wanted.number, stop)?;
    match found {
        Some(body) => {
            let keys = context.node.keys();
            let frame = seal(alloc, context.tagger, keys, *to, wanted.number, body.body())?;
            Ok(Some(frame))
        }
        None => Ok(None),
    }
}

/// Returns the claim on the challenge `nonce` of the peer `to`: how many of its frames the member
/// accepted.
// promise: comparing
pub(crate) fn answer_challenge<S, R, T>(
    context: &NodeContext<'_, R, S, T>,
    to: u16,
    nonce: u64,
) -> [u8; WANT_LEN]
where
    S: Beginning,
    R: Wait,
    T: Tagger,
    requires peer { IsPeer context.now.node.now.keys to }
    requires nonce { IsNonce nonce }
    ensures { IsClaimTo context.now.node.now to nonce result }
{
    let NodeContext {
        rt,
        node,
        tagger,
        ..
    } = *context;
    let next = node.next(rt, to);
    want(tagger, node.keys(), to, claim_number(nonce, next))
}
