//! Laws of pipelining. Each body only names the laws that the proof needs: the contract is the law.

ghost use Rattle.pay_peers.specs.AheadLaws.{AheadByOne, AsksForAll, AskedOnce, OpensByOne};

/// States that no number is requested twice on one connection, and that no expected number is left
/// out.
// promise: asked ahead
pub fn asked_once()
    ensures { AskedOnce }
{}

/// States that a window opens by one with each frame, while frames come in their order, up to the
/// pipelining depth. All numbers from 0 on are requested, each once.
// promise: asked ahead
pub fn opens_by_one()
    ensures { OpensByOne }
{}

/// States what is requested if all requested frames came: the numbers from 0 on, with no more in
/// flight than the pipelining depth.
// promise: asked ahead
pub fn asks_for_all()
    ensures { AsksForAll }
{}

/// States that a pipelining depth of one frame is the same as no pipelining.
// promise: asked ahead
pub fn ahead_by_one()
    ensures { AheadByOne }
{
    pay_link::laws::judgement_opens();
}
