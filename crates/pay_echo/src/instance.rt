//! An instance of authenticated double-echo broadcast, as a process of a group sees it: its votes,
//! what follows from a vote, and the trait of its forms.

ghost use Rattle.std.specs.Prelude.{◌≡◌, ◌≤◌, ◌<◌, [], is_some, IfOk, OnOk, OnErr};
ghost use Rattle.std.specs.Option.{option_copied};
ghost use Rattle.pay_echo.specs.Broadcast.{IsForeign};
ghost use Rattle.pay_echo.specs.Meaning.{Meaning, Sees, meaning_of};
ghost use Rattle.pay_echo.specs.Moves.{Foresees};
ghost use Rattle.pay_echo.specs.Step.{vote_before};
ghost use Rattle.pay_echo.specs.Votes.{vote_of_ref};

use pay_frame::MOST_MEMBERS;
use std::alloc::{AllocError, Global};

/// The processes of a broadcast, numbered from 0: their count, how many of them may be faulty, and
/// the number of the process that an instance belongs to.
#[derive(Clone, Copy, Debug, PartialEq, Eq)]
pub struct Group {
    pub members: u16,
    pub faults: u16,
    pub own: u16,
}

/// The votes that a process sends by itself: its ECHO and its READY.
#[derive(Clone, Copy)]
pub(crate) enum VoteKind {
    Echo,
    Ready,
}

/// A vote in a broadcast, as it is passed to an [`Instance`](crate::Instance). Its value is
/// borrowed.
#[derive(Clone, Copy)]
pub enum VoteRef<'a> {
    /// The sender's value arrives, or this process broadcasts it.
    Send(&'a [u8]),
    /// This other process's ECHO of a value arrives.
    Echo(u16, &'a [u8]),
    /// This other process's READY for a value arrives.
    Ready(u16, &'a [u8]),
}

impl<'a> VoteRef<'a> {
    ghost use Rattle.pay_echo.specs.Broadcast.{value_of};
    ghost use Rattle.pay_echo.specs.Votes.{vote_of_ref};
    ghost use Rattle.pay_echo.specs.Step.{is_send, is_ready};

    /// Returns the value of the vote.
    #[tactic(auto, unfolding(crate::specs::Broadcast::value_of))]
    pub fn value(self) -> &'a [u8]
        ensures value { result.now ≡ value_of (vote_of_ref self.entry) }
    {
        match self {
            VoteRef::Send(value) | VoteRef::Echo(_, value) | VoteRef::Ready(_, value) => value,
        }
    }

    pub(crate) fn is_send(self) -> bool
        ensures { result ≡ is_send (vote_of_ref self.entry) }
    {
        match self {
            VoteRef::Send(_) => true,
            VoteRef::Echo(_, _) | VoteRef::Ready(_, _) => false,
        }
    }

    pub(crate) fn is_ready(self) -> bool
        ensures { result ≡ is_ready (vote_of_ref self.entry) }
    {
        match self {
            VoteRef::Ready(_, _) => true,
            VoteRef::Send(_) | VoteRef::Echo(_, _) => false,
        }
    }
}

/// What a vote leads to: whether the process now sends ECHO, sends READY, and delivers.
#[derive(Clone, Copy, Debug, PartialEq, Eq)]
pub struct Moves {
    pub echo: bool,
    pub ready: bool,
    pub deliver: bool,
}

impl Moves {
    /// Nothing became known.
    pub const NONE: Moves = Moves {
        echo: false,
        ready: false,
        deliver: false,
    };
}

/// A process's side of a broadcast. It receives the votes one by one. What the process has echoed,
/// readied and delivered after them can be read.
///
/// A vote changes nothing if its process voted in this way before.
pub trait Instance: Sized {
    // What is known, according to the definitions of authenticated double-echo broadcast.
    ghost meaning: { Self → Meaning };

    /// Creates an instance without votes.
    // promise: votes
    fn fresh(alloc: Global, group: Group) -> Result<Self, AllocError>
        requires few { group.members ≤ MOST_MEMBERS }
        requires member { group.own < group.members }
        ensures none { IfOk result (λ made. meaning made ≡ meaning_of group []) }
        ensures group { IfOk result (λ made. (meaning made).group ≡ group) };

    /// Returns whether the process of `vote` sent a vote of this kind before.
    // promise: votes
    fn has_voted(&self, vote: VoteRef) -> bool
        requires foreign { IsForeign (meaning self.now).group (vote_of_ref vote) }
        ensures { result ≡ is_some (vote_before (meaning self.now) (vote_of_ref vote.entry)) };

    // `moves` foretells what a vote makes known, and `take` gets that answer. So the bodies to send
    // are made before anything changes, and after the vote nothing can be refused.
    /// Returns what `vote` would make known. Nothing changes.
    // promise: votes
    fn moves(&self, vote: VoteRef) -> Moves
        requires foreign { IsForeign (meaning self.now).group (vote_of_ref vote) }
        ensures { Foresees (meaning self.now) (vote_of_ref vote.entry) result };

    /// Adds `vote`. `moves` is the answer of [`moves`](Instance::moves) to it, so that no votes are
    /// counted again. A vote that is kept costs at most one copy of its value.
    // promise: nothing changes (err); votes
    fn take(&mut self, alloc: Global, vote: VoteRef, moves: Moves) -> Result<(), AllocError>
        requires foreign { IsForeign (meaning self.old).group (vote_of_ref vote) }
        requires told { Foresees (meaning self.old) (vote_of_ref vote) moves }
        ensures seen { OnOk result
            (Sees (meaning self.old) (meaning self.new) (vote_of_ref vote.entry)) }
        ensures group { (meaning self.new).group ≡ (meaning self.old).group }
        ensures err { OnErr result (meaning self.new ≡ meaning self.old) };

    /// Returns the value that this process sent in an ECHO.
    fn echoed(&self) -> Option<&[u8]>
        ensures { option_copied result ≡ (meaning self.now).echoed };

    /// Returns the value that this process sent in a READY.
    fn readied(&self) -> Option<&[u8]>
        ensures { option_copied result ≡ (meaning self.now).readied };

    /// Returns the delivered value.
    fn delivered(&self) -> Option<&[u8]>
        ensures { option_copied result ≡ (meaning self.now).delivered };
}
