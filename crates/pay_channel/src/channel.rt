//! A member's side of the broadcast channel: its instances, its sent list, and each owner's list.

ghost use Rattle.std.specs.Prelude.{◌≡◌, ◌<◌, ℕ, List, length, slice_get, true, ◌≤◌, ◌+◌};
ghost use Rattle.std.specs.Prelude.{◌++◌, Some, [], ◌∷◌, replicate, vec_len, vec_capacity, IfOk};
ghost use Rattle.std.specs.Prelude.{IfSome, OnOk, OnErr};
ghost use Rattle.std.specs.Option.{option_copied, option_map, option_to_list};
ghost use Rattle.pay_channel.specs.Applied.{TakesVote, IsToldOf, Takes, IsApplied, IsAsBefore};
ghost use Rattle.pay_channel.specs.Applied.{event_of_ref};
ghost use Rattle.pay_channel.specs.History.{Event, Ask, From, IsEvent, is_ask, owner_of};
ghost use Rattle.pay_channel.specs.History.{vote_of as event_vote, seqs};
ghost use Rattle.pay_channel.specs.Lies.{is_lie_to};
ghost use Rattle.pay_channel.specs.Source.{GrowsOnly};
ghost use Rattle.pay_channel.specs.State.{State, IsStateBy, meaning_at, delivered_value_at};
ghost use Rattle.pay_channel.specs.State.{channel_lists};
ghost use Rattle.pay_echo.specs.Broadcast.{IsForeign, value_of};
ghost use Rattle.pay_echo.specs.Votes.{vote_of_ref};

use crate::instances::{Instances, body_of};
use pay_echo::laws::{known_stays, nothing_known_at_first, one_vote_more};
use pay_echo::{Group, Instance, Moves, VoteRef};
use pay_frame::{Body, GREATEST_VALUE, Kind, MOST_MEMBERS, SharedBody};
use std::alloc::{AllocError, Global};
use std::marker::Model;

/// An event of a channel: a value that its member broadcasts, or a body that another member sent.
#[derive(Clone, Copy)]
pub enum EventRef<'a> {
    /// The member broadcasts this value.
    Ask(&'a [u8]),
    /// This body came from another member.
    From(u16, &'a Body),
}

/// What a vote made known in its broadcast, and the bodies to send after it.
#[derive(Drop)]
pub struct Outgoing {
    pub moves: Moves,
    pub echo: Option<SharedBody>,
    pub ready: Option<SharedBody>,
}

/// What an event made known: whether the member sends ECHO, sends READY and delivers, and by how
/// many places the list of the event's owner grew.
#[derive(Clone, Copy, Debug, PartialEq, Eq)]
pub struct Applied {
    pub echo: bool,
    pub ready: bool,
    pub deliver: bool,
    pub grown: u32,
}

impl Applied {
    /// Nothing became known.
    pub const NONE: Applied = Applied {
        echo: false,
        ready: false,
        deliver: false,
        grown: 0,
    };
}

/// A source of each owner's list of values, in the order of their broadcasts.
///
/// An owner that the source doesn't know has the empty list.
pub trait Source {
    // The values of each owner, by its number.
    ghost lists: { Self → ℕ → List (List ℕ) };

    /// Returns the number of values in the list of `owner`.
    // promise: one event
    fn length(&self, owner: u16) -> u32
        ensures { result ≡ length (lists self.now owner) };

    /// Returns the value at place `k` of the list of `owner`, counted from 0.
    // promise: one event
    fn at(&self, owner: u16, k: u32) -> &[u8]
        requires { k < length (lists self.now owner) }
        ensures { slice_get (lists self.now owner) k ≡ Some result.now };
}

/// A member's broadcasts. There is an instance for each owner and number about which something is
/// known. Beside them are the list of all that the member sent to all, and the length of each
/// owner's list.
#[derive(Drop)]
pub struct Channel<I: Instance + Drop> {
    group: Group,
    asks: u32,
    instances: Instances<I>,
    sent: Vec<SharedBody>,
    listed: Vec<u32>,
}

impl<I: Instance + Drop> Model for Channel<I> {
    ghost use Rattle.pay_channel.specs.State.{State, IsSound};

    ghost Value = { State };

    ghost view = { λ c.
        record { group = c.group; asks = c.asks; slots = c.instances; sent = c.sent.items } };

    ghost invariant = { λ c. IsSound
        (record { group = c.group; asks = c.asks; slots = c.instances; sent = c.sent.items })
        c.listed.items };
}

impl<I: Instance + Drop> Channel<I> {
    /// Creates a channel without events, for the member `own` of `members` members. At most
    /// `faults` of them are faulty.
    // promise: channel's history
    pub fn new(alloc: Global, members: u16, faults: u16, own: u16) -> Result<Channel<I>, AllocError>
        requires few { members ≤ MOST_MEMBERS }
        requires own { own < members }
        ensures follows { IfOk result (λ made. IsStateBy made []) }
        ensures group { IfOk result
            (λ made. made.group ≡ record { members = members; faults = faults; own = own }) }
    {
        nothing_known_at_first();
        let group = Group {
            members,
            faults,
            own,
        };
        let listed = zeros(alloc, members)?;
        Ok(Channel {
            group,
            asks: 0,
            instances: Instances::new(alloc),
            sent: Vec::new(alloc),
            listed,
        })
    }

    /// Applies `event`, and returns what became known by it.
    ///
    /// A value of the member's own has at most a frame's bytes, and fewer than 65,536 values came
    /// before it. A body comes from another member, is about a member, and is no WANT. It fails
    /// only if memory runs out. The channel is then unchanged, since all room is made before the
    /// first change.
    // promise: nothing changes (err); one event (takes, applied, grows)
    // promise: channel's history (follows)
    pub fn apply(&mut self, alloc: Global, event: EventRef) -> Result<Applied, AllocError>
        requires event { IsEvent self.old.group (event_of_ref event) }
        requires number { is_ask (event_of_ref event) ≡ true → self.old.asks < seqs }
        ensures takes { OnOk result (Takes self.old self.new (event_of_ref event.entry)) }
        ensures applied { IfOk result (IsApplied self.old self.new (event_of_ref event.entry)) }
        ensures grows { OnOk result (GrowsOnly (channel_lists self.old) (channel_lists self.new)
            (owner_of self.old.group.own (event_of_ref event.entry))) }
        ensures follows { OnOk result ((history : List Event) → IsStateBy self.old history
            → IsStateBy self.new (history ++ event_of_ref event.entry ∷ [])) }
        ensures err { OnErr result (IsAsBefore self.old self.new) }
    {
        match event {
            EventRef::Ask(value) => self.ask(alloc, value),
            EventRef::From(process, body) => match vote_in(process, body) {
                Some(vote) => self.vote(alloc, body.owner(), body.seq(), vote, None),
                None => Ok(Applied::NONE),
            },
        }
    }

    // Broadcasts a value of the member's own.
    fn ask(&mut self, alloc: Global, value: &[u8]) -> Result<Applied, AllocError>
        requires value { length value.now ≤ GREATEST_VALUE }
        requires number { self.old.asks < seqs }
        ensures takes { OnOk result (Takes self.old self.new (Ask value.now)) }
        ensures applied { IfOk result (IsApplied self.old self.new (Ask value.now)) }
        ensures grows { OnOk result
            (GrowsOnly (channel_lists self.old) (channel_lists self.new) self.old.group.own) }
        ensures err { OnErr result (IsAsBefore self.old self.new) }
    {
        let own = self.group.own;
        let seq = self.asks;
        let send = body_of(alloc, Kind::Send, own, seq, value)?;
        let applied = self.vote(alloc, own, seq, VoteRef::Send(value), Some(send))?;
        self.asks = seq + 1;
        Ok(applied)
    }

    // Applies a vote in a broadcast, with all that follows from it. Room is made first, then come
    // the changes.
    fn vote(
        &mut self,
        alloc: Global,
        owner: u16,
        seq: u32,
        vote: VoteRef,
        send: Option<SharedBody>,
    ) -> Result<Applied, AllocError>
        requires owner { owner < self.old.group.members }
        requires seq { seq < seqs }
        requires foreign { IsForeign self.old.group (vote_of_ref vote) }
        requires value { length (value_of (vote_of_ref vote)) ≤ GREATEST_VALUE }
        ensures takes { OnOk result (TakesVote self.old self.new owner seq
            (Some (vote_of_ref vote.entry)) (option_to_list send)) }
        ensures applied { IfOk result (IsToldOf self.old self.new owner seq) }
        ensures grows { OnOk result
            (GrowsOnly (channel_lists self.old) (channel_lists self.new) owner) }
        ensures err { OnErr result (IsAsBefore self.old self.new) }
    {
        // what was delivered stays, and what is sent has the vote's value
        known_stays();
        one_vote_more();
        self.sent.reserve(3)?;
        let outgoing = self.instances.hear(alloc, self.group, owner, seq, vote)?;
        let Outgoing { moves, echo, ready } = outgoing;
        say(&mut self.sent, send);
        say(&mut self.sent, echo);
        say(&mut self.sent, ready);
        let from = self.listed[usize::from(owner)];
        let grown = self
            .instances
            .count_behind(self.group, owner, from, seq, moves.deliver);
        self.listed[usize::from(owner)] = from + grown;
        Ok(Applied {
            echo: moves.echo,
            ready: moves.ready,
            deliver: moves.deliver,
            grown,
        })
    }

    /// Returns whether `body` is a protocol violation: a message that no correct member sends after
    /// what `process` has sent so far.
    // promise: lies
    pub fn is_lie(&self, process: u16, body: &Body) -> bool
        requires { IsEvent self.now.group (From process body.now) }
        ensures { result ≡ is_lie_to self.now process body.now }
    {
        match vote_in(process, body) {
            Some(vote) => {
                self.instances
                    .has_voted(self.group, body.owner(), body.seq(), vote)
            }
            None => true,
        }
    }

    /// Returns how many values of its own the member broadcast. This is the number of its next
    /// value.
    pub fn asks(&self) -> u32
        ensures { result ≡ self.now.asks }
    {
        self.asks
    }

    /// Returns how many bodies were sent to all.
    // promise: channel's history
    pub fn sent_len(&self) -> usize
        ensures { result ≡ length self.now.sent }
    {
        self.sent.len()
    }

    /// Returns the body at `place` in the sent list.
    // promise: channel's history
    pub fn sent(&self, place: usize) -> Option<&Body>
        ensures { option_copied result ≡ slice_get self.now.sent place }
    {
        Some(self.sent_shared(place)?.body())
    }

    /// Returns the body at `place` in the sent list, in a form that copies share.
    pub fn sent_shared(&self, place: usize) -> Option<&SharedBody>
        ensures { option_copied result ≡ slice_get self.now.sent place }
    {
        self.sent.get(place)
    }

    /// Returns the value delivered in the broadcast `seq` of `owner`, whether the values before it
    /// were delivered or not.
    #[tactic(auto, unfolding(crate::specs::State::delivered_value_at, crate::specs::State::meaning_at))]
    // promise: channel's history
    pub fn delivered(&self, owner: u16, seq: u32) -> Option<&[u8]>
        ensures { option_copied result ≡ delivered_value_at self.now owner seq }
    {
        self.instances.delivered(owner, seq)
    }

    /// Returns the value echoed in the broadcast `seq` of `owner`. In the member's own broadcasts
    /// it is the value that was submitted.
    #[tactic(auto, unfolding(crate::specs::State::meaning_at))]
    pub fn echoed(&self, owner: u16, seq: u32) -> Option<&[u8]>
        ensures { option_copied result ≡ (meaning_at self.now owner seq).echoed }
    {
        self.instances.echoed(owner, seq)
    }

    /// Returns the number of values in the list of `owner`.
    // promise: channel's history
    pub fn in_order(&self, owner: u16) -> u32
        ensures { result ≡ length (channel_lists self.now owner) }
    {
        if owner < self.group.members {
            self.listed[usize::from(owner)]
        } else {
            0
        }
    }
}

impl<I: Instance + Drop> Source for Channel<I> {
    ghost lists = { channel_lists };

    fn length(&self, owner: u16) -> u32 {
        self.in_order(owner)
    }

    fn at(&self, owner: u16, k: u32) -> &[u8] {
        self.delivered(owner, k).unwrap()
    }
}

// Returns a list of zeros, one for each member.
fn zeros(alloc: Global, members: u16) -> Result<Vec<u32>, AllocError>
    ensures { IfOk result (λ made. made.items ≡ replicate members 0) }
{
    let mut made = Vec::with_capacity(alloc, usize::from(members))?;
    for _ in 0..members {
        made.push(0)?;
    }
    Ok(made)
}

// Returns the vote that `body` is if it came from `process`. A SEND is a vote only if it came from
// its owner.
#[tactic(auto, unfolding(pay_echo::specs::Broadcast::value_of))]
fn vote_in<'a>(process: u16, body: &'a Body) -> Option<VoteRef<'a>>
    ensures vote { option_map vote_of_ref result ≡ event_vote (From process body.now) }
    ensures value { IfSome result (λ vote. length (value_of (vote_of_ref vote)) ≤ GREATEST_VALUE) }
{
    match body.kind() {
        Kind::Send => {
            if process == body.owner() {
                Some(VoteRef::Send(body.value()))
            } else {
                None
            }
        }
        Kind::Echo => Some(VoteRef::Echo(process, body.value())),
        Kind::Ready => Some(VoteRef::Ready(process, body.value())),
        Kind::Want => None,
    }
}

// Appends `body` to the sent list, if there is one. Room for it was made before.
fn say(sent: &mut Vec<SharedBody>, body: Option<SharedBody>)
    requires { vec_len sent.old + 1 ≤ vec_capacity sent.old }
    ensures items { sent.new.items ≡ sent.old.items ++ option_to_list body }
    ensures len { vec_len sent.new ≤ vec_len sent.old + 1 }
    ensures capacity { vec_capacity sent.old ≤ vec_capacity sent.new }
{
    if let Some(body) = body {
        sent.push_reserved(body);
    }
}
