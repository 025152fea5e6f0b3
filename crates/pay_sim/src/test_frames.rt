//! Frames under the test keys, which anyone can name.

ghost use Rattle.std.specs.Prelude.{◌≡◌, ◌<◌, IfOk};
ghost use Rattle.pay_sim.specs.TestFrames.{test_frame, test_tag};

use pay_frame::{Body, Bytes, HEAD_LEN, TAG_LEN, head_into, write};
use pay_hmac::{HmacSha256, PreparedKey, Tagger};
use pay_link::pair_key;
use std::alloc::{AllocError, Global};
use std::cell::OnceCell;

/// A tagger that computes what `HmacSha256` does, and keeps the test keys of a group's pairs
/// prepared, each from its first tag on. If memory runs out for a key, it isn't kept.
#[derive(Drop)]
pub(crate) struct PairTagger {
    alloc: Global,
    members: u16,
    keys: Vec<OnceCell<Box<PreparedKey>>>,
}

impl PairTagger {
    pub(crate) fn new(alloc: Global, members: u16) -> Result<PairTagger, AllocError>
        requires { members < 256 }
    {
        let mut keys = Vec::with_capacity(alloc, usize::from(members * members))?;
        for _pair in 0..members * members {
            keys.push(OnceCell::new())?;
        }
        Ok(PairTagger {
            alloc,
            members,
            keys,
        })
    }

    /// Returns what is kept at the place of the pair of `key`, if it is this key: `key` is the test
    /// key of a pair.
    fn prepared_key(&self, key: &[u8; 32]) -> Option<&PreparedKey> {
        let place = usize::from(key[30]) * usize::from(self.members) + usize::from(key[31]);
        let kept = self.keys.get(place)?;
        let prepared = kept.get_or_try_init(|| -> Result<Box<PreparedKey>, AllocError> {
            Ok(Box::new(self.alloc, PreparedKey::new(key))?)
        });
        match prepared {
            Ok(prepared) => Some(prepared),
            Err(_) => None,
        }
    }
}

impl Tagger for PairTagger {
    fn tag(&self, key: &[u8; 32], head: &[u8], rest: &[u8]) -> [u8; 32] {
        match self.prepared_key(key) {
            Some(prepared) if prepared.is_for(key) => prepared.tag(head, rest),
            _ => HmacSha256.tag(key, head, rest),
        }
    }
}

/// Returns the bytes of the frame `number` with `body`, with its right tag under the test key of
/// the members `from` and `to`.
#[tactic(auto, unfolding(crate::specs::TestFrames::test_frame))]
pub(crate) fn test_frame<T: Tagger>(
    alloc: Global,
    tagger: &T,
    from: u16,
    to: u16,
    number: u64,
    body: &Body,
) -> Result<Bytes, AllocError>
    requires from { from < 256 }
    requires to { to < 256 }
    ensures { IfOk result (λ bytes. bytes ≡ test_frame from to number body.now) }
{
    let tag = test_tag(tagger, from, to, number, body);
    Bytes::new(alloc, write(alloc, from, to, number, body, &tag)?)
}

fn test_tag<T: Tagger>(tagger: &T, from: u16, to: u16, number: u64, body: &Body) -> [u8; TAG_LEN]
    requires from { from < 256 }
    requires to { to < 256 }
    ensures { result ≡ test_tag from to number body.now }
{
    let mut head = [0; HEAD_LEN];
    head_into(&mut head, from, to, number, body);
    tagger.tag(&pair_key(from, to), &head, body.value())
}
