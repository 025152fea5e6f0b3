//! The member under a node's lock. Its history continues from the node's beginning.

ghost use Rattle.std.specs.Prelude.{[], ◌≡◌, ◌≢◌, ◌+◌, ◌<◌, ◌^◌, Err, IfOk, length};
ghost use Rattle.pay_member.specs.Answer.{answer_of_ask, answer_of_take, answer_of_query};
ghost use Rattle.pay_member.specs.Legal.{Legal};
ghost use Rattle.pay_member.specs.Member.{MemberFields};
ghost use Rattle.pay_member.specs.declared.event.Event.TheVariants.{Query, Taken};
ghost use Rattle.pay_member.specs.declared.fault.AskFault.TheVariants.{Memory};
ghost use Rattle.pay_node.specs.Comparing.{IsAskedAs};
ghost use Rattle.pay_node.specs.Nodes.{WentOn};
ghost use Rattle.pay_node.specs.Seats.{IsHandedIn};

use crate::comparing::Standing;
use crate::node::HandInFault;
use crate::seat::{Seat, keep};
use pay_channel::laws::taken_in_order;
use pay_echo::MaskInstance;
use pay_frame::Bytes;
use pay_link::Checked;
use pay_member::question::OwnForgetting;
use pay_member::{
    AskFault, AskedValue, Event, Member, MemberFault, QueryFault, Replay, Reply, TakeFault, Told,
    Took,
};
use pay_pending::WaitingBook;
use std::alloc::Global;
use std::marker::{Brand, Model, PhantomData};

/// The member of a node, of the one kind that runs.
pub type OwnMember = Member<MaskInstance, WaitingBook>;

/// The replay of the history of a node's member.
pub(crate) type OwnReplay<'a> = Replay<'a, MaskInstance, WaitingBook>;

/// The member that a node begins with. The caller that starts a node picks it, so that types can
/// name it: the member under the node's lock continues from that member.
pub trait Beginning {
    ghost beginning: { MemberFields };
}

/// The member is picked when a node is started.
impl Beginning for Brand {
    ghost beginning = { record {
      genesis = record { members = 0; faults = 0; opening = [] };
      keys = record { own = 0; keys = [] };
      history = [];
    } };
}

/// The member under a node's lock, which continues from the member that the node began with.
#[derive(Drop)]
pub(crate) struct LockedMember<S: Beginning> {
    member: OwnMember,
    base: usize,
    of: PhantomData<S>,
}

impl<S: Beginning> Model for LockedMember<S> {
    ghost use Rattle.std.specs.Prelude.{◌≡◌, length};
    ghost use Rattle.pay_member.specs.Member.{MemberFields};
    ghost use Rattle.pay_node.specs.Nodes.{WentOn};

    ghost Value = { MemberFields };

    ghost view = { λ l. l.member };

    ghost invariant = { λ l. WentOn S.beginning l.member
        × (l.base ≡ length S.beginning.history) };
}

impl<S: Beginning> LockedMember<S> {
    /// Creates the member under the lock from `member`, which the node begins with.
    pub(crate) fn new(member: OwnMember) -> LockedMember<S>
        requires { member ≡ S.beginning }
        ensures { result ≡ member }
    {
        let base = member.history().len();
        LockedMember {
            member,
            base,
            of: PhantomData,
        }
    }

    pub(crate) fn member(&self) -> &OwnMember
        ensures member { result.now ≡ self.now }
        ensures own { WentOn S.beginning self.now }
    {
        &self.member
    }

    pub(crate) fn into_member(self) -> OwnMember
        ensures member { result ≡ self }
        ensures own { WentOn S.beginning self }
    {
        self.member
    }

    /// Returns how many entries the member began with.
    pub(crate) fn base(&self) -> usize
        ensures { result ≡ length S.beginning.history }
    {
        self.base
    }

    /// Hands the frame `checked` to the member from `seat`, which keeps the receipt of the answer
    /// with `copy`, a copy of the frame.
    // promise: receipts
    pub(crate) fn take(
        &mut self,
        alloc: Global,
        seat: &mut Seat,
        checked: Checked,
        copy: Checked,
    ) -> Result<Took, TakeFault>
        requires copy { copy ≡ checked }
        ensures own { WentOn S.beginning self.old }
        ensures handed_in { IsHandedIn self.old seat.old (Taken checked) (answer_of_take result)
            self.new seat.new }
        ensures next { IfOk result (λ _. checked.frame.number + 1 < 2 ^ 64) }
    {
        // for the proof, a law: the call does nothing
        taken_in_order();
        let seen = self.member.history().len();
        let room = seat.take_room(alloc)?;
        seat.receipts.reserve(1)?;
        let answer = self.member.take(alloc, seat.stamp(), checked);
        // there are at most as many frames from one member as entries, and entries can be counted
        let entries = self.member.history().len();
        prove!(entries < usize::MAX);
        let kept = answer_of_take(answer);
        seat.room = keep(&mut seat.receipts, room, seen, Event::Taken(copy), kept);
        answer
    }

    /// Queries the member for the state of `account` from `seat`, which keeps the receipt.
    // promise: receipts
    pub(crate) fn query(
        &mut self,
        alloc: Global,
        seat: &mut Seat,
        account: u16,
    ) -> Result<Told, QueryFault>
        ensures own { WentOn S.beginning self.old }
        ensures handed_in { IsHandedIn self.old seat.old (Query account) (answer_of_query result)
            self.new seat.new }
    {
        let seen = self.member.history().len();
        let room = seat.take_room(alloc)?;
        seat.receipts.reserve(1)?;
        let answer = self.member.query(alloc, seat.stamp(), account);
        let kept = answer_of_query(answer);
        seat.room = keep(&mut seat.receipts, room, seen, Event::Query(account), kept);
        answer
    }

    // Lost state is tested under the lock of the call, so no value is accepted after the member
    // noticed it. It is tested before `Spent`, since the member doesn't know how many numbers it
    // used. What peers claim has a lock of its own, and `Comparing` says what follows from it.
    /// Submits `value` to the member from `seat`, if the member has lost no state and `standing` is
    /// free. Otherwise the value is dropped, and the seat keeps the reading that says whether the
    /// member has lost state.
    // promise: receipts; comparing
    pub(crate) fn ask(
        &mut self,
        alloc: Global,
        seat: &mut Seat,
        standing: Standing,
        value: Bytes,
        copy: AskedValue,
    ) -> Result<u32, HandInFault>
        requires copy { copy ≡ value }
        ensures own { WentOn S.beginning self.old }
        ensures legal { Legal self.old.genesis self.old.keys self.old.history }
        ensures asked { result ≢ Err (HandInFault.Ask Memory)
            → IsAskedAs self.old standing seat.old seat.new self.new value result }
        ensures memory { result ≡ Err (HandInFault.Ask Memory) → seat.new ≡ seat.old }
    {
        let forgot = self.member.view().has_forgotten();
        if forgot || standing == Standing::Forgotten {
            seat.note(alloc, &self.member, OwnForgetting, &forgot)?;
            return Err(HandInFault::Forgotten);
        }
        if standing == Standing::Waiting {
            seat.note(alloc, &self.member, OwnForgetting, &forgot)?;
            return Err(HandInFault::TooEarly);
        }
        let seen = self.member.history().len();
        let room = seat.take_room(alloc)?;
        seat.receipts.reserve(1)?;
        let answer = self.member.ask(alloc, seat.stamp(), value);
        let kept = answer_of_ask(answer);
        seat.room = keep(&mut seat.receipts, room, seen, Event::Ask(copy), kept);
        Ok(answer?)
    }
}

// Returns what a receipt keeps of an answer.
fn answer_of_take(answer: Result<Took, TakeFault>) -> Result<Reply, MemberFault>
    ensures { result ≡ answer_of_take answer }
{
    Ok(Reply::Took(answer?))
}

fn answer_of_query(answer: Result<Told, QueryFault>) -> Result<Reply, MemberFault>
    ensures { result ≡ answer_of_query answer }
{
    Ok(Reply::Told(answer?))
}

fn answer_of_ask(answer: Result<u32, AskFault>) -> Result<Reply, MemberFault>
    ensures { result ≡ answer_of_ask answer }
{
    Ok(Reply::Asked(answer?))
}
