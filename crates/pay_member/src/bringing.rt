//! What a frame is to a member, whatever its history, and what came of receiving it.

ghost use Rattle.std.specs.Prelude.{◌≡◌, None, IfOk};
ghost use Rattle.pay_frame.specs.Lent.{fields_of};
ghost use Rattle.pay_member.specs.Bringing.{IsOfPeer, incoming_at};

use crate::event::Took;
use pay_frame::{FrameFault, FrameRef, Kind};
use pay_hmac::Tagger;
use pay_link::{Keys, LinkFault, Opened, WANT_LEN, laws, open};

/// A frame that was authenticated.
#[derive(Drop)]
pub enum Incoming<'a> {
    /// A WANT: a peer requests the frames from a number on.
    Want { from: u16, number: u64 },
    /// A SEND, an ECHO or a READY.
    Message(Opened<'a>),
}

/// What came of bytes that a member received.
#[derive(Clone, Copy, Debug, PartialEq, Eq)]
pub enum Outcome {
    /// The bytes are a frame, and the member accepted it.
    Took(Took),
    /// The bytes are a WANT: a peer requests the frames from a number on.
    Wanted { from: u16, number: u64 },
    /// The bytes aren't one frame and nothing else.
    Frame(FrameFault),
    /// The bytes are a frame that isn't authenticated, or its number isn't the next one from its
    /// sender.
    Link(LinkFault),
    /// The bytes are a frame that was authenticated with other keys than those of the member that
    /// should accept it. `Member::bring` never answers this, since it authenticates frames with the
    /// member's own keys.
    WrongKey,
}

/// The answer to bytes that a member received.
#[derive(Clone, Copy, Debug, PartialEq, Eq)]
pub struct Brought {
    /// What came of the bytes.
    pub outcome: Outcome,
    /// The WANT to the sender of an authenticated frame. It requests the frame that is next after
    /// the call.
    pub want: Option<[u8; WANT_LEN]>,
}

impl Brought {
    /// Returns the answer with this `outcome` if nothing was handed to the member.
    pub fn at_once(outcome: Outcome) -> Brought
        ensures { result ≡ record { outcome = outcome; want = None } }
    {
        Brought {
            outcome,
            want: None,
        }
    }
}

/// Authenticates `frame` with the `keys` of the member that it reached.
pub fn open_frame<'a, T: Tagger>(
    tagger: &T,
    keys: &Keys,
    frame: FrameRef<'a>,
) -> Result<Incoming<'a>, LinkFault>
    ensures incoming { result ≡ incoming_at keys.now (fields_of frame.entry) }
    ensures peer { IfOk result (IsOfPeer keys.now (fields_of frame.entry)) }
{
    laws::judgement_opens();
    let opened = open(tagger, keys, frame)?;
    let frame = opened.frame();
    match frame.kind() {
        Kind::Want => Ok(Incoming::Want {
            from: frame.from(),
            number: frame.number(),
        }),
        Kind::Send | Kind::Echo | Kind::Ready => Ok(Incoming::Message(opened)),
    }
}
