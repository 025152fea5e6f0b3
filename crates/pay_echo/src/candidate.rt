//! Values that were voted for: a candidate is a value with its votes.

ghost use Rattle.std.specs.Prelude.{◌≡◌, ◌<◌, ◌≤◌, Some, slice_get, IfOk, OnErr};
ghost use Rattle.std.specs.Option.{option_copied};
ghost use Rattle.pay_echo.specs.Broadcast.{IsForeign};
ghost use Rattle.pay_echo.specs.Masks.{has, with_process, place_by, values_of, masks_of, IsGrown};
ghost use Rattle.pay_echo.specs.Plain.{value_at, AreDistinct, IsPlaceOf};
ghost use Rattle.pay_echo.specs.Votes.{vote_of_ref};

use crate::instance::{Group, VoteKind, VoteRef};
use pay_frame::{Bytes, MOST_MEMBERS};
use std::alloc::{AllocError, Global};

/// A value, and as bits the processes that sent ECHO and those that sent READY for it.
#[derive(Drop)]
pub(crate) struct Candidate {
    pub(crate) value: Bytes,
    pub(crate) echoes: u128,
    pub(crate) readys: u128,
}

impl Candidate {
    ghost use Rattle.pay_echo.specs.Masks.{mask_of, with_vote_for, with_ready_if};

    /// Adds `vote`, a vote for this value. A SEND makes this process of `group` echo it.
    pub(crate) fn add(&mut self, group: Group, vote: VoteRef)
        requires few { group.members ≤ MOST_MEMBERS }
        requires own { group.own < group.members }
        requires foreign { IsForeign group (vote_of_ref vote) }
        ensures { self.new ≡ with_vote_for group.own (vote_of_ref vote.entry) self.old }
    {
        match vote {
            VoteRef::Send(_) => self.echoes = with(self.echoes, group.own),
            VoteRef::Echo(process, _) => self.echoes = with(self.echoes, process),
            VoteRef::Ready(process, _) => self.readys = with(self.readys, process),
        }
    }

    /// Adds the READY of `process` if it is `due`.
    pub(crate) fn add_ready_if(&mut self, due: bool, process: u16)
        requires { process < MOST_MEMBERS }
        ensures { self.new ≡ with_ready_if due process self.old }
    {
        if due {
            self.readys = with(self.readys, process);
        }
    }

    // Returns the processes that sent a vote of this `kind` for the value.
    fn mask(&self, kind: VoteKind) -> u128
        ensures { result ≡ mask_of kind self.now }
    {
        match kind {
            VoteKind::Echo => self.echoes,
            VoteKind::Ready => self.readys,
        }
    }
}

/// Returns the value that `process` voted for.
pub(crate) fn vote_at(candidates: &[Candidate], kind: VoteKind, process: u16) -> Option<&[u8]>
    requires { process < MOST_MEMBERS }
    ensures { option_copied result
        ≡ value_at (values_of candidates.now) (place_by (masks_of kind candidates.now) process) }
{
    for candidate in candidates {
        if is_in(candidate.mask(kind), process) {
            return Some(candidate.value.as_slice());
        }
    }
    None
}

/// Returns the place of `value`, if it is there.
pub(crate) fn place_of(candidates: &[Candidate], value: &[u8]) -> Option<usize>
    ensures { IsPlaceOf value.now (values_of candidates.now) result }
{
    for (place, candidate) in candidates.iter().enumerate() {
        if candidate.value.as_slice() == value {
            return Some(place);
        }
    }
    None
}

/// Returns the place of `value`, and appends it first if it isn't there yet.
pub(crate) fn keep(
    candidates: &mut Vec<Candidate>,
    alloc: Global,
    value: &[u8],
) -> Result<usize, AllocError>
    requires { AreDistinct (values_of candidates.old.items) }
    ensures distinct { AreDistinct (values_of candidates.new.items) }
    ensures place { IfOk result (λ place.
        slice_get (values_of candidates.new.items) place ≡ Some value.now) }
    ensures grown { IsGrown candidates.old.items candidates.new.items }
    ensures err { OnErr result (candidates.new.items ≡ candidates.old.items) }
{
    if let Some(place) = place_of(candidates, value) {
        return Ok(place);
    }
    let place = candidates.len();
    let value = Bytes::from_slice(alloc, value)?;
    candidates.push(Candidate {
        value,
        echoes: 0,
        readys: 0,
    })?;
    Ok(place)
}

// Returns whether `process` is in `mask`.
fn is_in(mask: u128, process: u16) -> bool
    requires { process < 128 }
    ensures { result ≡ has mask process }
{
    (mask >> process) & 1 == 1
}

// Returns `mask` with one more process.
fn with(mask: u128, process: u16) -> u128
    requires { process < 128 }
    ensures { result ≡ with_process mask process }
{
    mask | (1 << process)
}
