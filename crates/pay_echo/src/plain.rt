ghost use Rattle.std.specs.Prelude.{◌≡◌, ◌≤◌, ◌<◌, ◌+◌, ◌++◌, ℕ, List, Bool, Some, None, length};
ghost use Rattle.std.specs.Prelude.{slice_get, slice_set, replicate, IfOk, IfSome, OnOk, OnErr};
ghost use Rattle.std.specs.Prelude.{is_some, is_none, true, false};
ghost use Rattle.std.specs.List.{count_by};
ghost use Rattle.std.specs.Option.{option_copied};
ghost use Rattle.pay_echo.specs.Broadcast.{IsForeign, is_for};
ghost use Rattle.pay_echo.specs.Plain.{value_at, votes_at_places, is_at, AreDistinct, IsPlaceOf};
ghost use Rattle.pay_echo.specs.Step.{vote_at, vote_before, echo_count, ready_count, moves_by};
ghost use Rattle.pay_echo.specs.Step.{can_ready, can_deliver, put_echo, put_ready, put_if};
ghost use Rattle.pay_echo.specs.Step.{with_moves, IsPlaced};
ghost use Rattle.pay_echo.specs.Votes.{vote_of_ref};

use crate::instance::{Group, Instance, Moves, VoteRef};
use pay_frame::{Bytes, MOST_MEMBERS};
use std::alloc::{AllocError, Global};
use std::marker::Model;

/// An instance kept as plain lists: each process's first ECHO and first READY, by its number. A
/// value is stored once, whoever votes for it.
#[derive(Drop)]
pub struct PlainInstance {
    group: Group,
    values: Vec<Bytes>,
    // the places of the votes' values; this process's own are what it echoed and readied
    echoes: Vec<Option<usize>>,
    readys: Vec<Option<usize>>,
    delivered: Option<usize>,
}

impl Model for PlainInstance {
    ghost use Rattle.pay_echo.specs.Meaning.{Meaning};
    ghost use Rattle.pay_echo.specs.Plain.{meaning_by, AreVotePlaces};

    ghost Value = { Meaning };

    ghost view = { λ i.
        meaning_by i.group i.values.items i.echoes.items i.readys.items i.delivered };

    ghost invariant = { λ i.
        AreVotePlaces i.group i.values.items i.echoes.items i.readys.items i.delivered };
}

impl Instance for PlainInstance {
    ghost meaning = { λ i. i };

    fn fresh(alloc: Global, group: Group) -> Result<PlainInstance, AllocError> {
        let echoes = no_votes(alloc, group.members)?;
        let readys = no_votes(alloc, group.members)?;
        Ok(PlainInstance {
            group,
            values: Vec::new(alloc),
            echoes,
            readys,
            delivered: None,
        })
    }

    fn has_voted(&self, vote: VoteRef) -> bool {
        self.is_repeated(vote)
    }

    fn moves(&self, vote: VoteRef) -> Moves {
        if self.is_repeated(vote) {
            return Moves::NONE;
        }
        self.moves_by(vote)
    }

    fn take(&mut self, alloc: Global, vote: VoteRef, moves: Moves) -> Result<(), AllocError> {
        if self.is_repeated(vote) {
            return Ok(());
        }
        self.write(alloc, vote, moves)
    }

    fn echoed(&self) -> Option<&[u8]> {
        vote_at(&self.values, &self.echoes, self.group.own)
    }

    fn readied(&self) -> Option<&[u8]> {
        vote_at(&self.values, &self.readys, self.group.own)
    }

    fn delivered(&self) -> Option<&[u8]> {
        value_at(&self.values, self.delivered)
    }
}

impl PlainInstance {
    // Returns whether a vote of that process and kind came before.
    fn is_repeated(&self, vote: VoteRef) -> bool
        requires { IsForeign self.now.group (vote_of_ref vote) }
        ensures voted { result ≡ is_some (vote_before self.now (vote_of_ref vote.entry)) }
        ensures placed { IsPlaced self.now }
    {
        match vote {
            VoteRef::Send(_) => self.echoed().is_some(),
            VoteRef::Echo(process, _) => vote_at(&self.values, &self.echoes, process).is_some(),
            VoteRef::Ready(process, _) => vote_at(&self.values, &self.readys, process).is_some(),
        }
    }

    // Returns the count of ECHOs for the value of `vote`, including this vote.
    fn echo_count(&self, vote: VoteRef) -> usize
        ensures count { result ≡ echo_count self.now (vote_of_ref vote.entry) }
        ensures few { result ≤ MOST_MEMBERS + 1 }
    {
        let before = count_for(&self.values, &self.echoes, vote.value());
        if vote.is_ready() { before } else { before + 1 }
    }

    // Returns the count of READYs for the value of `vote`, including this vote.
    fn ready_count(&self, vote: VoteRef) -> usize
        ensures count { result ≡ ready_count self.now (vote_of_ref vote.entry) }
        ensures few { result ≤ MOST_MEMBERS + 1 }
    {
        let before = count_for(&self.values, &self.readys, vote.value());
        if vote.is_ready() { before + 1 } else { before }
    }

    // Returns the count of ECHOs if it can lead to a READY. If a READY was sent it can't, and no
    // vote is looked at.
    fn echoes_asked_for(&self, vote: VoteRef) -> usize
        ensures count { is_none self.now.readied ≡ true
            → result ≡ echo_count self.now (vote_of_ref vote.entry) }
        ensures few { result ≤ MOST_MEMBERS + 1 }
    {
        if self.readied().is_none() {
            self.echo_count(vote)
        } else {
            0
        }
    }

    // Returns the count of READYs if it can lead to a READY or a delivery.
    fn readys_asked_for(&self, vote: VoteRef) -> usize
        ensures ready { is_none self.now.readied ≡ true
            → result ≡ ready_count self.now (vote_of_ref vote.entry) }
        ensures deliver { is_none self.now.delivered ≡ true
            → result ≡ ready_count self.now (vote_of_ref vote.entry) }
        ensures few { result ≤ MOST_MEMBERS + 1 }
    {
        if self.readied().is_none() || self.delivered().is_none() {
            self.ready_count(vote)
        } else {
            0
        }
    }

    // Returns what `vote` makes known if no vote of its process and kind came before.
    #[tactic(auto, unfolding(crate::specs::Step::moves_by))]
    fn moves_by(&self, vote: VoteRef) -> Moves
        ensures { result ≡ moves_by self.now (vote_of_ref vote.entry) }
    {
        let readys = self.readys_asked_for(vote);
        let ready = self.can_ready(self.echoes_asked_for(vote), readys);
        let deliver = self.can_deliver(readys + usize::from(ready));
        Moves {
            echo: vote.is_send(),
            ready,
            deliver,
        }
    }

    fn can_ready(&self, echoes: usize, readys: usize) -> bool
        requires { echoes ≤ MOST_MEMBERS + 1 }
        ensures { result ≡ can_ready self.now echoes readys }
    {
        let faults = usize::from(self.group.faults);
        let all = usize::from(self.group.members) + faults;
        self.readied().is_none() && (all < 2 * echoes || faults < readys)
    }

    fn can_deliver(&self, readys: usize) -> bool
        ensures { result ≡ can_deliver self.now readys }
    {
        self.delivered().is_none() && 2 * usize::from(self.group.faults) < readys
    }

    // Writes a vote in its place, and what the caller says that it makes known.
    fn write(&mut self, alloc: Global, vote: VoteRef, moves: Moves) -> Result<(), AllocError>
        requires foreign { IsForeign self.old.group (vote_of_ref vote) }
        ensures after { OnOk result
            (self.new ≡ with_moves self.old (vote_of_ref vote.entry) moves) }
        ensures group { self.new.group ≡ self.old.group }
        ensures err { OnErr result (self.new ≡ self.old) }
    {
        let group = self.group;
        let place = keep(&mut self.values, alloc, vote.value())?;
        put(&mut self.echoes, &mut self.readys, group, vote, place);
        put_if(moves.ready, &mut self.readys, group.own, place);
        self.delivered = moves.deliver.then_some(place).or(self.delivered);
        Ok(())
    }
}

// Returns the value at `place`.
fn value_at(values: &[Bytes], place: Option<usize>) -> Option<&[u8]>
    ensures { option_copied result ≡ value_at values.now place }
{
    match values.get(place?) {
        Some(value) => Some(value.as_slice()),
        None => None,
    }
}

// Returns the value that `process` voted for.
fn vote_at<'a>(values: &'a [Bytes], places: &[Option<usize>], process: u16) -> Option<&'a [u8]>
    requires { process < length places.now }
    ensures { option_copied result ≡ vote_at (votes_at_places values.now places.now) process }
{
    value_at(values, places[usize::from(process)])
}

// Returns the count of votes for `value`. All of them stand at its one place, so that no value is
// looked at for each vote.
fn count_for(values: &[Bytes], places: &[Option<usize>], value: &[u8]) -> usize
    requires { AreDistinct values.now }
    ensures count { result ≡ count_by (is_for value.now) (votes_at_places values.now places.now) }
    ensures few { result ≤ length places.now }
{
    match place_of(values, value) {
        Some(place) => count_at(places, place),
        None => 0,
    }
}

// Returns the count of votes at `place`.
fn count_at(votes: &[Option<usize>], place: usize) -> usize
    ensures count { result ≡ count_by (is_at place) votes.now }
    ensures few { result ≤ length votes.now }
{
    let mut count = 0;
    for vote in votes {
        if *vote == Some(place) {
            count += 1;
        }
    }
    count
}

// Returns the place of `value`, if it is there.
fn place_of(values: &[Bytes], value: &[u8]) -> Option<usize>
    ensures { IsPlaceOf value.now values.now result }
{
    for (place, kept) in values.iter().enumerate() {
        if kept.as_slice() == value {
            return Some(place);
        }
    }
    None
}

// Returns the place of `value`, and appends it first if it isn't there yet.
fn keep(values: &mut Vec<Bytes>, alloc: Global, value: &[u8]) -> Result<usize, AllocError>
    requires { AreDistinct values.old.items }
    ensures distinct { AreDistinct values.new.items }
    ensures place { IfOk result (λ place. slice_get values.new.items place ≡ Some value.now) }
    ensures grown { (more : List (List ℕ)) × (values.new.items ≡ values.old.items ++ more) }
    ensures err { OnErr result (values.new.items ≡ values.old.items) }
{
    if let Some(place) = place_of(values, value) {
        return Ok(place);
    }
    let kept = Bytes::from_slice(alloc, value)?;
    values.push(kept)?;
    Ok(values.len() - 1)
}

// Writes `place` as that of `vote`.
fn put(
    echoes: &mut Vec<Option<usize>>,
    readys: &mut Vec<Option<usize>>,
    group: Group,
    vote: VoteRef,
    place: usize,
)
    requires own { group.own < group.members }
    requires foreign { IsForeign group (vote_of_ref vote) }
    requires echoes { length echoes.old.items ≡ group.members }
    requires readys { length readys.old.items ≡ group.members }
    ensures echoes { echoes.new.items
        ≡ put_echo group.own (vote_of_ref vote.entry) place echoes.old.items }
    ensures readys { readys.new.items ≡ put_ready (vote_of_ref vote.entry) place readys.old.items }
{
    match vote {
        VoteRef::Send(_) => echoes[usize::from(group.own)] = Some(place),
        VoteRef::Echo(process, _) => echoes[usize::from(process)] = Some(place),
        VoteRef::Ready(process, _) => readys[usize::from(process)] = Some(place),
    }
}

// Writes `place` as that of the vote of `process`, if it is `due`.
fn put_if(due: bool, places: &mut Vec<Option<usize>>, process: u16, place: usize)
    requires { process < length places.old.items }
    ensures { places.new.items ≡ put_if due process place places.old.items }
{
    if due {
        places[usize::from(process)] = Some(place);
    }
}

// Returns the votes of all processes before any came.
fn no_votes(alloc: Global, members: u16) -> Result<Vec<Option<usize>>, AllocError>
    ensures { IfOk result (λ votes. votes.items ≡ replicate members None) }
{
    let mut votes = Vec::with_capacity(alloc, usize::from(members))?;
    for _ in 0..members {
        votes.push(None)?;
    }
    Ok(votes)
}
