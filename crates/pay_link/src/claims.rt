//! WANTs that request no frame: the challenge of a member that starts again, and the claim that
//! answers it.

ghost use Rattle.std.specs.Prelude.{◌≡◌};
ghost use Rattle.pay_link.specs.Claims.{IsAskedBy, IsClaimedBy, IsNonce};
ghost use Rattle.pay_link.specs.Claims.{challenge_number, claim_number};

/// The count of nonces.
pub const NONCES: u64 = 1 << 37;

/// The least number that is no place.
const FIRST_CHALLENGE: u64 = 1 << 63;

/// The least number of a claim.
const FIRST_CLAIM: u64 = 3 << 62;

/// The distance from one nonce's numbers to the next nonce's.
const STRIDE: u64 = 1 << 25;

/// What a WANT requests.
#[derive(Clone, Copy, Debug, PartialEq, Eq)]
pub enum Asked {
    /// The frame at this place of the receiver's outbound list.
    Place(u64),
    /// A claim on this nonce: how many frames the receiver accepted from the sender.
    Challenge(u64),
    /// Nothing that is answered: the WANT is a claim, or has no meaning.
    Nothing,
}

/// Returns what a WANT with `number` requests.
// promise: comparing
pub fn asked_by(number: u64) -> Asked
    ensures { IsAskedBy number result }
{
    if number < FIRST_CHALLENGE {
        return Asked::Place(number);
    }
    let nonce = (number - FIRST_CHALLENGE) / STRIDE;
    if nonce < NONCES && challenge_number(nonce) == number {
        Asked::Challenge(nonce)
    } else {
        Asked::Nothing
    }
}

/// Returns the number of a challenge with this `nonce`.
// promise: comparing
pub fn challenge_number(nonce: u64) -> u64
    requires { IsNonce nonce }
    ensures { result ≡ challenge_number nonce }
{
    FIRST_CHALLENGE + nonce * STRIDE
}

/// Returns the number of the claim that answers the challenge `nonce`. The claiming member expects
/// `next` as the challenger's next frame.
// promise: comparing
pub fn claim_number(nonce: u64, next: u64) -> u64
    requires { IsNonce nonce }
    ensures { result ≡ claim_number nonce next }
{
    FIRST_CLAIM + nonce * STRIDE + next.min(STRIDE - 1)
}

/// Returns how many frames a WANT with `number` claims, if it is a claim on the challenge `nonce`.
// promise: comparing
pub fn claimed_by(nonce: u64, number: u64) -> Option<u64>
    requires { IsNonce nonce }
    ensures { IsClaimedBy nonce number result }
{
    let taken = number.checked_sub(claim_number(nonce, 0))?;
    if taken < STRIDE { Some(taken) } else { None }
}
