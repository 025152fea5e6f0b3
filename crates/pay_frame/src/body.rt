//! What a frame says: its kind, owner, seq and value.

ghost use Rattle.std.specs.Prelude.{◌≡◌, ◌↔◌, ◌≤◌, [], length, IfOk, IsTrue};
ghost use Rattle.pay_frame.specs.Frame.{IsBody, body_of_parts};

use std::alloc::{AllocError, Global};
use std::marker::Model;
use std::mem::size_of;
use std::sync::Arc;

/// What a frame is for.
#[derive(Clone, Copy, Debug, PartialEq, Eq)]
pub enum Kind {
    /// The owner broadcasts a value.
    Send = 1,
    /// A member echoes the value that the owner sent.
    Echo = 2,
    /// A member is ready to deliver the value.
    Ready = 3,
    /// The receiver of a stream requests the frames from a number on.
    Want = 4,
}

impl Kind {
    ghost use Rattle.pay_frame.specs.Frame.{code_of};

    /// Returns the byte that stands for this kind in a frame.
    pub fn code(self) -> u8
        ensures value { result ≡ code_of self }
    {
        self as u8
    }
}

/// The most bytes that are stored without an allocation.
const MOST_SHORT: usize = 14;

/// How bytes are stored. With the variant's tag it has 16 bytes.
#[derive(Debug, Drop)]
enum Layout {
    /// The first `len` of these bytes.
    Short { len: u8, bytes: [u8; MOST_SHORT] },
    /// All bytes of the vector.
    Long(Box<Vec<u8>>),
}

/// A list of bytes. Up to 14 bytes, such as a value of one payment, are stored without an
/// allocation. Contracts see the list of numbers.
#[derive(Debug, Drop)]
pub struct Bytes {
    layout: Layout,
}

impl Model for Bytes {
    ghost use Rattle.std.specs.Prelude.{ℕ, List};
    ghost use Rattle.pay_frame.specs.Layout.{bytes_in, IsShortEnough};

    ghost Value = { List ℕ };

    ghost view = { λ b. bytes_in b.layout };

    ghost invariant = { λ b. IsShortEnough b.layout };
}

impl Bytes {
    /// Takes over the vector `bytes`. If they are more than 14, they aren't copied.
    pub fn new(alloc: Global, bytes: Vec<u8>) -> Result<Bytes, AllocError>
        ensures value { IfOk result (λ made. made ≡ bytes.items) }
    {
        if bytes.len() <= MOST_SHORT {
            return Ok(Bytes::short(bytes.as_slice()));
        }
        Ok(Bytes {
            layout: Layout::Long(Box::new(alloc, bytes)?),
        })
    }

    /// Returns a copy of the slice `bytes`.
    pub fn from_slice(alloc: Global, bytes: &[u8]) -> Result<Bytes, AllocError>
        ensures value { IfOk result (λ copy. copy ≡ bytes.now) }
    {
        if bytes.len() <= MOST_SHORT {
            return Ok(Bytes::short(bytes));
        }
        Bytes::new(alloc, Vec::from_slice(alloc, bytes)?)
    }

    /// Returns no bytes, without an allocation.
    pub fn empty() -> Bytes
        ensures value { result ≡ [] }
    {
        Bytes::short(&[])
    }

    /// Returns a copy of the slice `bytes`, without an allocation.
    fn short(bytes: &[u8]) -> Bytes
        requires { length bytes.now ≤ MOST_SHORT }
        ensures { result ≡ bytes.now }
    {
        let mut short = [0; MOST_SHORT];
        short[..bytes.len()].copy_from_slice(bytes);
        Bytes {
            layout: Layout::Short {
                len: bytes.len() as u8,
                bytes: short,
            },
        }
    }

    pub fn as_slice(&self) -> &[u8]
        ensures value { result.now ≡ self.now }
    {
        match &self.layout {
            Layout::Short { len, bytes } => &bytes[..usize::from(*len)],
            Layout::Long(bytes) => bytes.as_slice(),
        }
    }

    pub fn len(&self) -> usize
        ensures value { result ≡ length self.now }
    {
        self.as_slice().len()
    }

    pub fn is_empty(&self) -> bool
        ensures value { IsTrue result ↔ (self.now ≡ []) }
    {
        self.as_slice().is_empty()
    }

    /// Returns a clone of the bytes.
    pub fn copy(&self, alloc: Global) -> Result<Bytes, AllocError>
        ensures value { IfOk result (λ copy. copy ≡ self.now) }
    {
        Bytes::from_slice(alloc, self.as_slice())
    }
}

const _: () = prove!(size_of::<Bytes>() == 16);

/// A frame's message without its addresses: its kind, the broadcast that it belongs to (owner and
/// sequence number) and a value.
///
/// The type keeps the format's limits: a sequence number below `SEQS`, a value of at most
/// `GREATEST_VALUE` bytes, and nothing but the kind in a WANT.
#[derive(Debug, Drop)]
pub struct Body {
    kind: Kind,
    owner: u16,
    seq: u32,
    value: Bytes,
}

impl Model for Body {
    ghost use Rattle.pay_frame.specs.Frame.{BodyFields, IsBody, body_of_parts};

    ghost Value = { BodyFields };

    ghost view = { λ b. body_of_parts b.kind b.owner b.seq b.value };

    ghost invariant = { λ b. IsBody (body_of_parts b.kind b.owner b.seq b.value) };
}

impl Body {
    pub fn new(kind: Kind, owner: u16, seq: u32, value: Bytes) -> Body
        requires { IsBody (body_of_parts kind owner seq value) }
        ensures value { result ≡ body_of_parts kind owner seq value }
    {
        Body {
            kind,
            owner,
            seq,
            value,
        }
    }

    pub fn kind(&self) -> Kind
        ensures value { result ≡ self.now.kind }
    {
        self.kind
    }

    pub fn owner(&self) -> u16
        ensures value { result ≡ self.now.owner }
    {
        self.owner
    }

    // promise: one reading (limits)
    pub fn seq(&self) -> u32
        ensures value { result ≡ self.now.seq }
        ensures limits { IsBody self.now }
    {
        self.seq
    }

    // promise: one reading (limits)
    pub fn value(&self) -> &[u8]
        ensures value { result.now ≡ self.now.value }
        ensures limits { IsBody self.now }
    {
        self.value.as_slice()
    }

    /// Returns a clone of the body.
    pub fn copy(&self, alloc: Global) -> Result<Body, AllocError>
        ensures value { IfOk result (λ copy. copy ≡ self.now) }
    {
        let value = self.value.copy(alloc)?;
        Ok(Body {
            kind: self.kind,
            owner: self.owner,
            seq: self.seq,
            value,
        })
    }
}

/// A body that its copies share. Contracts see it as the body.
#[derive(Drop)]
pub struct SharedBody {
    body: Arc<Body, Global>,
}

impl Model for SharedBody {
    ghost use Rattle.pay_frame.specs.Frame.{BodyFields};

    ghost Value = { BodyFields };

    ghost view = { λ s. s.body.value };
}

impl SharedBody {
    /// Shares `body`, which has no copy yet.
    pub fn new(alloc: Global, body: Body) -> Result<SharedBody, AllocError>
        ensures { IfOk result (λ shared. shared ≡ body) }
    {
        let body = Arc::new(alloc, body)?;
        Ok(SharedBody { body })
    }

    /// Returns the body.
    pub fn body(&self) -> &Body
        ensures { result.now ≡ self.now }
    {
        &self.body
    }

    /// Returns another handle to this body.
    pub fn copy(&self) -> Result<SharedBody, AllocError>
        ensures { IfOk result (λ copy. copy ≡ self.now) }
    {
        let body = Arc::try_clone(&self.body)?;
        Ok(SharedBody { body })
    }
}
