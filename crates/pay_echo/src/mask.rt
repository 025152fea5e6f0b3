ghost use Rattle.std.specs.Prelude.{◌≡◌, ◌≤◌, ◌+◌, is_some, true, false, OnOk, OnErr};
ghost use Rattle.std.specs.List.{count_by};
ghost use Rattle.pay_echo.specs.Broadcast.{IsForeign, is_for};
ghost use Rattle.pay_echo.specs.Step.{vote_before, echo_count, ready_count, moves_by, can_ready};
ghost use Rattle.pay_echo.specs.Step.{can_deliver, with_moves, IsPlaced};
ghost use Rattle.pay_echo.specs.Votes.{vote_of_ref};

use crate::candidate::{Candidate, keep, place_of, vote_at};
use crate::instance::{Group, Instance, Moves, VoteKind, VoteRef};
use pay_frame::MOST_MEMBERS;
use std::alloc::{AllocError, Global};
use std::marker::Model;
use std::mem::size_of;

/// An instance kept as a short list of values. Each value has a mask of the processes that sent
/// ECHO for it, and a mask of those that sent READY. A count of votes is a count of bits.
///
/// A mask stands beside its value in one list. A new value makes only this list grow, so a lack of
/// memory can't leave a mask without its value.
#[derive(Drop)]
pub struct MaskInstance {
    group: Group,
    // the place of the delivered value; the invariant has at most two values for each member
    delivered: Option<u16>,
    // the values with their votes; this process's own votes are what it echoed and readied
    candidates: Vec<Candidate>,
}

const _: () = prove!(size_of::<MaskInstance>() == 40);

impl Model for MaskInstance {
    ghost use Rattle.pay_echo.specs.Meaning.{Meaning};
    ghost use Rattle.pay_echo.specs.Masks.{meaning_by_masks, IsTallied};

    ghost Value = { Meaning };

    ghost view = { λ i. meaning_by_masks i.group i.candidates.items i.delivered };

    ghost invariant = { λ i. IsTallied i.group i.candidates.items i.delivered };
}

impl Instance for MaskInstance {
    ghost meaning = { λ i. i };

    // It has room for one value, since most often all processes vote for one value.
    #[tactic(auto, using(crate::proofs::MaskLemmas::none_known))]
    fn fresh(alloc: Global, group: Group) -> Result<MaskInstance, AllocError> {
        Ok(MaskInstance {
            group,
            delivered: None,
            candidates: Vec::with_capacity(alloc, 1)?,
        })
    }

    fn has_voted(&self, vote: VoteRef) -> bool {
        self.is_repeated(vote)
    }

    fn moves(&self, vote: VoteRef) -> Moves {
        if self.is_repeated(vote) {
            return Moves::NONE;
        }
        self.moves_by(vote)
    }

    fn take(&mut self, alloc: Global, vote: VoteRef, moves: Moves) -> Result<(), AllocError> {
        if self.is_repeated(vote) {
            return Ok(());
        }
        let ready = moves.ready && !self.has_readied();
        self.write(alloc, vote, ready, moves.deliver)
    }

    fn echoed(&self) -> Option<&[u8]> {
        vote_at(&self.candidates, VoteKind::Echo, self.group.own)
    }

    fn readied(&self) -> Option<&[u8]> {
        vote_at(&self.candidates, VoteKind::Ready, self.group.own)
    }

    fn delivered(&self) -> Option<&[u8]> {
        let place = usize::from(self.delivered?);
        Some(self.candidates[place].value.as_slice())
    }
}

impl MaskInstance {
    // Returns whether a vote of that process and kind came before.
    fn is_repeated(&self, vote: VoteRef) -> bool
        requires { IsForeign self.now.group (vote_of_ref vote) }
        ensures voted { result ≡ is_some (vote_before self.now (vote_of_ref vote.entry)) }
        ensures placed { IsPlaced self.now }
    {
        match vote {
            VoteRef::Send(_) => self.echoed().is_some(),
            VoteRef::Echo(process, _) => {
                vote_at(&self.candidates, VoteKind::Echo, process).is_some()
            }
            VoteRef::Ready(process, _) => {
                vote_at(&self.candidates, VoteKind::Ready, process).is_some()
            }
        }
    }

    // Returns whether this process sent a READY.
    fn has_readied(&self) -> bool
        ensures { result ≡ is_some self.now.readied }
    {
        self.readied().is_some()
    }

    // Returns whether a value is delivered.
    fn has_delivered(&self) -> bool
        ensures { result ≡ is_some self.now.delivered }
    {
        self.delivered.is_some()
    }

    // Returns the counts of ECHOs and READYs for `value`.
    fn counts_for(&self, value: &[u8]) -> Counts
        ensures echoes { result.echoes ≡ count_by (is_for value.now) self.now.echoes }
        ensures readys { result.readys ≡ count_by (is_for value.now) self.now.readys }
        ensures few_echoes { result.echoes ≤ MOST_MEMBERS }
        ensures few_readys { result.readys ≤ MOST_MEMBERS }
    {
        match place_of(&self.candidates, value) {
            Some(place) => Counts {
                echoes: self.candidates[place].echoes.count_ones(),
                readys: self.candidates[place].readys.count_ones(),
            },
            None => Counts {
                echoes: 0,
                readys: 0,
            },
        }
    }

    // Returns the counts for the value of `vote`, including this vote.
    fn counts_with(&self, vote: VoteRef) -> Counts
        ensures echoes { result.echoes ≡ echo_count self.now (vote_of_ref vote.entry) }
        ensures readys { result.readys ≡ ready_count self.now (vote_of_ref vote.entry) }
        ensures few_echoes { result.echoes ≤ MOST_MEMBERS + 1 }
        ensures few_readys { result.readys ≤ MOST_MEMBERS + 1 }
    {
        let before = self.counts_for(vote.value());
        if vote.is_ready() {
            Counts {
                echoes: before.echoes,
                readys: before.readys + 1,
            }
        } else {
            Counts {
                echoes: before.echoes + 1,
                readys: before.readys,
            }
        }
    }

    // Returns what `vote` makes known if no vote of its process and kind came before. If READY was
    // sent and a value is delivered, it can't make more known than an ECHO, and no value is
    // compared.
    #[tactic(auto, unfolding(crate::specs::Step::moves_by))]
    fn moves_by(&self, vote: VoteRef) -> Moves
        ensures { result ≡ moves_by self.now (vote_of_ref vote.entry) }
    {
        if self.has_readied() && self.has_delivered() {
            return Moves {
                echo: vote.is_send(),
                ready: false,
                deliver: false,
            };
        }
        let counts = self.counts_with(vote);
        let ready = self.can_ready(counts.echoes, counts.readys);
        let deliver = self.can_deliver(counts.readys + u32::from(ready));
        Moves {
            echo: vote.is_send(),
            ready,
            deliver,
        }
    }

    fn can_ready(&self, echoes: u32, readys: u32) -> bool
        requires { echoes ≤ MOST_MEMBERS + 1 }
        ensures { result ≡ can_ready self.now echoes readys }
    {
        let faults = u32::from(self.group.faults);
        let all = u32::from(self.group.members) + faults;
        !self.has_readied() && (all < 2 * echoes || faults < readys)
    }

    fn can_deliver(&self, readys: u32) -> bool
        ensures { result ≡ can_deliver self.now readys }
    {
        !self.has_delivered() && 2 * u32::from(self.group.faults) < readys
    }

    // Writes a vote in its place, and what the caller says that it makes known.
    fn write(
        &mut self,
        alloc: Global,
        vote: VoteRef,
        ready: bool,
        deliver: bool,
    ) -> Result<(), AllocError>
        requires foreign { IsForeign self.old.group (vote_of_ref vote) }
        requires first { is_some (vote_before self.old (vote_of_ref vote)) ≡ false }
        requires ready { ready ≡ true → is_some self.old.readied ≡ false }
        ensures after { OnOk result (self.new ≡ with_moves self.old (vote_of_ref vote.entry)
            (record { echo = false; ready = ready; deliver = deliver })) }
        ensures group { self.new.group ≡ self.old.group }
        ensures err { OnErr result (self.new ≡ self.old) }
    {
        let place = keep(&mut self.candidates, alloc, vote.value())?;
        let candidate = &mut self.candidates[place];
        candidate.add(self.group, vote);
        candidate.add_ready_if(ready, self.group.own);
        self.delivered = deliver.then_some(place as u16).or(self.delivered);
        Ok(())
    }
}

// The counts of ECHOs and of READYs.
#[derive(Clone, Copy)]
struct Counts {
    echoes: u32,
    readys: u32,
}
