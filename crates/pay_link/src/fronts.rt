ghost use Rattle.std.specs.Prelude.{◌≡◌, ◌+◌, ◌<◌, ◌^◌, IfOk, length, replicate, slice_index};
ghost use Rattle.std.specs.Prelude.{slice_set};
ghost use Rattle.pay_link.specs.Fronts.{turn};

use crate::opened::LinkFault;
use std::alloc::{AllocError, Global};
use std::cmp::Ordering;
use std::marker::Model;

/// The next number that is expected from each member.
#[derive(Debug, Drop)]
pub struct Fronts {
    next: Vec<u64>,
}

impl Model for Fronts {
    ghost use Rattle.std.specs.Prelude.{ℕ, List};

    ghost Value = { List ℕ };

    ghost view = { λ f. f.next.items };
}

impl Fronts {
    /// Returns fronts at which nothing was accepted from any of `members` members.
    // promise: numbers in turn
    pub fn new(alloc: Global, members: u16) -> Result<Fronts, AllocError>
        ensures { IfOk result (λ fronts. fronts ≡ replicate members 0) }
    {
        let next = vec![in alloc; 0; usize::from(members)]?;
        Ok(Fronts { next })
    }

    /// Returns the next number that is expected from the member `from`.
    pub fn next(&self, from: u16) -> u64
        requires { from < length self.now }
        ensures { result ≡ slice_index self.now from }
    {
        self.next[usize::from(from)]
    }

    /// Returns `Ok` if `number` is the next one from the member `from`, and a fault otherwise.
    // promise: memory; numbers in turn
    pub fn judge(&self, from: u16, number: u64) -> Result<(), LinkFault>
        requires { from < length self.now }
        ensures { result ≡ turn (slice_index self.now from) number }
    {
        turn(self.next(from), number)
    }

    /// Counts the next frame from the member `from` as accepted.
    // promise: memory; numbers in turn
    pub fn advance(&mut self, from: u16)
        requires member { from < length self.old }
        requires below_the_last { slice_index self.old from + 1 < 2 ^ 64 }
        ensures { self.new ≡ slice_set self.old from (slice_index self.old from + 1) }
    {
        self.next[usize::from(from)] += 1;
    }
}

/// Returns `Ok` if `number` equals `next`. A lower number was accepted before, and a higher number
/// leaves a gap.
pub fn turn(next: u64, number: u64) -> Result<(), LinkFault>
    ensures { result ≡ turn next number }
{
    match number.cmp(&next) {
        Ordering::Equal => Ok(()),
        Ordering::Less => Err(LinkFault::Repeat(next)),
        Ordering::Greater => Err(LinkFault::Gap(next)),
    }
}
