ghost use Rattle.std.specs.Prelude.{◌≡◌};
ghost use Rattle.pay_frame.specs.Frame.{IsFrame, body_of_parts, frame_of_parts, head_bytes};

use crate::body::Kind;

/// A frame that borrows the buffer it was read from.
///
/// The type keeps that its parts are within the format's limits and that the head encodes them. It
/// has ghost fields and no model, since only then can the prover check a result that borrows from
/// `&mut self`.
#[derive(Debug, Drop)]
pub struct FrameRef<'a> {
    pub(crate) kind: Kind,
    pub(crate) from: u16,
    pub(crate) to: u16,
    pub(crate) number: u64,
    pub(crate) owner: u16,
    pub(crate) seq: u32,
    pub(crate) head: &'a [u8],
    pub(crate) value: &'a [u8],
    pub(crate) tag: &'a [u8],
    pub ghost is_frame: { IsFrame (frame_of_parts from to number
        (body_of_parts kind owner seq value.now) tag.now) },
    pub ghost head_spelled: { head.now ≡ head_bytes from to number
        (body_of_parts kind owner seq value.now) },
}

impl<'a> FrameRef<'a> {
    ghost use Rattle.pay_frame.specs.Frame.{head_of};
    ghost use Rattle.pay_frame.specs.Lent.{fields_of};

    pub fn kind(&self) -> Kind
        ensures value { result ≡ (fields_of self.now).body.kind }
    {
        self.kind
    }

    /// Returns the number of the sender.
    pub fn from(&self) -> u16
        ensures value { result ≡ (fields_of self.now).from }
    {
        self.from
    }

    /// Returns the number of the receiver.
    pub fn to(&self) -> u16
        ensures value { result ≡ (fields_of self.now).to }
    {
        self.to
    }

    /// Returns the frame's index in the sender's list of sent bodies. In a WANT it is the next
    /// index that is wanted.
    pub fn number(&self) -> u64
        ensures value { result ≡ (fields_of self.now).number }
    {
        self.number
    }

    /// Returns the member that owns the frame's broadcast.
    pub fn owner(&self) -> u16
        ensures value { result ≡ (fields_of self.now).body.owner }
    {
        self.owner
    }

    /// Returns the sequence number of the frame's broadcast, counted from 0 for each owner.
    pub fn seq(&self) -> u32
        ensures value { result ≡ (fields_of self.now).body.seq }
    {
        self.seq
    }

    pub fn value(&self) -> &'a [u8]
        ensures value { result.now ≡ (fields_of self.now).body.value }
    {
        self.value
    }

    /// Returns the 24 bytes before the value.
    pub fn head(&self) -> &'a [u8]
        ensures value { result.now ≡ head_of (fields_of self.now) }
    {
        self.head
    }

    /// Returns the 32 bytes of the authentication tag.
    pub fn tag(&self) -> &'a [u8]
        ensures value { result.now ≡ (fields_of self.now).tag }
        ensures limits { IsFrame (fields_of self.now) }
    {
        self.tag
    }
}
