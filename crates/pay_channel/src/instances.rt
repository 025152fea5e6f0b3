ghost use Rattle.std.specs.Prelude.{◌≡◌, ◌≢◌, ◌≤◌, ◌<◌, ◌-◌, ℕ, false, List, length, [], None};
ghost use Rattle.std.specs.Prelude.{is_some, IfOk, OnOk, OnErr};
ghost use Rattle.std.specs.Bool.{then_some};
ghost use Rattle.std.specs.Option.{option_copied};
ghost use Rattle.pay_channel.specs.Hearing.{HearsVote, IsOutgoing};
ghost use Rattle.pay_channel.specs.History.{seqs, known_from, body_of};
ghost use Rattle.pay_channel.specs.State.{meaning_in};
ghost use Rattle.pay_echo.specs.Broadcast.{Group, Vote, IsForeign, value_of};
ghost use Rattle.pay_echo.specs.Meaning.{meaning_of, Sees};
ghost use Rattle.pay_echo.specs.Step.{vote_before};
ghost use Rattle.pay_echo.specs.Votes.{vote_of_ref};

use crate::channel::Outgoing;
use pay_echo::laws::{nothing_known_at_first, votes_came};
use pay_echo::{Group, Instance, VoteRef};
use pay_frame::{Body, Bytes, GREATEST_VALUE, Kind, MOST_MEMBERS, SEQS, SharedBody};
use std::alloc::{AllocError, Global};
use std::collections::BTreeMap;
use std::marker::Model;

/// The instances of the broadcasts about which something is known, by owner and number.
///
/// A tree has room only for what was said, whichever number a faulty member names. A hash map would
/// be constant in time only with a hash that a faulty member may know.
#[derive(Drop)]
pub struct Instances<I: Instance + Drop> {
    by_broadcast: BTreeMap<(u16, u32), I>,
}

impl<I: Instance + Drop> Model for Instances<I> {
    ghost use Rattle.std.specs.Prelude.{List, map};
    ghost use Rattle.pay_channel.specs.State.{Slot};

    ghost Value = { List Slot };

    ghost view = { λ c.
        map (λ e. record { owner = e.0.0; seq = e.0.1; meaning = I.meaning e.1 })
        c.by_broadcast.entries };
}

impl<I: Instance + Drop> Instances<I> {
    pub fn new(alloc: Global) -> Instances<I>
        ensures { result ≡ [] }
    {
        Instances {
            by_broadcast: BTreeMap::new(alloc),
        }
    }

    /// Returns the value delivered in the broadcast `seq` of `owner`.
    pub fn delivered(&self, owner: u16, seq: u32) -> Option<&[u8]>
        ensures { (g : Group) → option_copied result ≡ (meaning_in g self.now owner seq).delivered }
    {
        nothing_known_at_first();
        let key = (owner, seq);
        match self.by_broadcast.get(&key) {
            Some(instance) => instance.delivered(),
            None => None,
        }
    }

    /// Returns the value echoed in the broadcast `seq` of `owner`.
    pub fn echoed(&self, owner: u16, seq: u32) -> Option<&[u8]>
        ensures { (g : Group) → option_copied result ≡ (meaning_in g self.now owner seq).echoed }
    {
        nothing_known_at_first();
        let key = (owner, seq);
        match self.by_broadcast.get(&key) {
            Some(instance) => instance.echoed(),
            None => None,
        }
    }

    /// Returns whether a vote of this kind came before from the process of `vote`, in the broadcast
    /// `seq` of `owner`.
    pub fn has_voted(&self, group: Group, owner: u16, seq: u32, vote: VoteRef) -> bool
        requires foreign { IsForeign group (vote_of_ref vote) }
        requires reached { (votes : List Vote)
            × (meaning_in group self.now owner seq ≡ meaning_of group votes) }
        ensures { result ≡ is_some
            (vote_before (meaning_in group self.now owner seq) (vote_of_ref vote.entry)) }
    {
        votes_came();
        let key = (owner, seq);
        match self.by_broadcast.get(&key) {
            Some(instance) => instance.has_voted(vote),
            None => false,
        }
    }

    /// Returns how many numbers from `from` on have a delivered value, up to the first number that
    /// has none.
    pub fn count_following(&self, owner: u16, from: u32) -> u32
        requires { from ≤ seqs }
        ensures { (g : Group) → result ≡ length
            (known_from (λ s. (meaning_in g self.now owner s).delivered) from (seqs - from)) }
    {
        for seq in from..SEQS {
            if self.delivered(owner, seq).is_none() {
                return seq - from;
            }
        }
        SEQS - from
    }

    /// Returns what `count_following` returns after a vote in the broadcast `seq`. Before that vote
    /// the number `from` had no delivered value, and `delivers` says whether the vote delivered.
    /// Most votes don't, and nothing is looked up then.
    pub fn count_behind(&self, group: Group, owner: u16, from: u32, seq: u32, delivers: bool) -> u32
        requires from { from ≤ seqs }
        requires none { from < seqs → (seq ≡ from → delivers ≡ false)
            → (meaning_in group self.now owner from).delivered ≡ None }
        ensures { result ≡ length
            (known_from (λ s. (meaning_in group self.now owner s).delivered) from (seqs - from)) }
    {
        if delivers && seq == from {
            self.count_following(owner, from)
        } else {
            0
        }
    }

    /// Passes `vote` to the instance of the broadcast `seq` of `owner`, and creates the instance if
    /// there is none yet. The bodies to send are made before the instance changes.
    pub fn hear(
        &mut self,
        alloc: Global,
        group: Group,
        owner: u16,
        seq: u32,
        vote: VoteRef,
    ) -> Result<Outgoing, AllocError>
        requires few { group.members ≤ MOST_MEMBERS }
        requires own { group.own < group.members }
        requires foreign { IsForeign group (vote_of_ref vote) }
        requires reached { (votes : List Vote)
            × (meaning_in group self.old owner seq ≡ meaning_of group votes) }
        requires seq { seq < seqs }
        requires value { length (value_of (vote_of_ref vote)) ≤ GREATEST_VALUE }
        ensures hears { OnOk result
            (HearsVote group self.old self.new owner seq (vote_of_ref vote.entry)) }
        ensures out { IfOk result (IsOutgoing owner seq (vote_of_ref vote.entry)
            (meaning_in group self.old owner seq) (meaning_in group self.new owner seq)) }
        ensures err { OnErr result
            ((a s : ℕ) → meaning_in group self.new a s ≡ meaning_in group self.old a s) }
    {
        if let Some(instance) = self.by_broadcast.get_mut(&(owner, seq)) {
            return tell(instance, alloc, owner, seq, vote);
        }
        let mut instance = I::fresh(alloc, group)?;
        let outgoing = tell(&mut instance, alloc, owner, seq, vote)?;
        self.by_broadcast.insert((owner, seq), instance)?;
        Ok(outgoing)
    }
}

// Passes a vote to `instance`. It first asks the instance what the vote makes known, and makes the
// bodies to send.
fn tell<I: Instance>(
    instance: &mut I,
    alloc: Global,
    owner: u16,
    seq: u32,
    vote: VoteRef,
) -> Result<Outgoing, AllocError>
    requires foreign { IsForeign (I.meaning instance.old).group (vote_of_ref vote) }
    requires reached { (g : Group) × (votes : List Vote)
        × (I.meaning instance.old ≡ meaning_of g votes) }
    requires seq { seq < seqs }
    requires value { length (value_of (vote_of_ref vote)) ≤ GREATEST_VALUE }
    ensures seen { OnOk result
        (Sees (I.meaning instance.old) (I.meaning instance.new) (vote_of_ref vote.entry)) }
    ensures out { IfOk result (IsOutgoing owner seq (vote_of_ref vote.entry)
        (I.meaning instance.old) (I.meaning instance.new)) }
    ensures err { OnErr result (I.meaning instance.new ≡ I.meaning instance.old) }
{
    let moves = instance.moves(vote);
    let echo = body_if(moves.echo, alloc, Kind::Echo, owner, seq, vote.value())?;
    let ready = body_if(moves.ready, alloc, Kind::Ready, owner, seq, vote.value())?;
    instance.take(alloc, vote, moves)?;
    Ok(Outgoing { moves, echo, ready })
}

// Returns a body of this `kind` about a broadcast, if it is `due`.
fn body_if(
    due: bool,
    alloc: Global,
    kind: Kind,
    owner: u16,
    seq: u32,
    value: &[u8],
) -> Result<Option<SharedBody>, AllocError>
    requires kind { kind ≢ Kind.Want }
    requires seq { seq < seqs }
    requires value { length value.now ≤ GREATEST_VALUE }
    ensures { IfOk result (λ body. body ≡ then_some due (body_of kind owner seq value.now)) }
{
    if !due {
        return Ok(None);
    }
    Ok(Some(body_of(alloc, kind, owner, seq, value)?))
}

/// Returns a body of this `kind` about a broadcast.
pub fn body_of(
    alloc: Global,
    kind: Kind,
    owner: u16,
    seq: u32,
    value: &[u8],
) -> Result<SharedBody, AllocError>
    requires kind { kind ≢ Kind.Want }
    requires seq { seq < seqs }
    requires value { length value.now ≤ GREATEST_VALUE }
    ensures { IfOk result (λ body. body ≡ body_of kind owner seq value.now) }
{
    let value = Bytes::from_slice(alloc, value)?;
    SharedBody::new(alloc, Body::new(kind, owner, seq, value))
}
