//! A running node: a member under a lock, called from seats.

ghost use Rattle.std.specs.Prelude.{◌≡◌, ◌≢◌, ◌+◌, ◌<◌, ◌≤◌, ◌^◌, Ok, Err, IfOk, IfErr};
ghost use Rattle.std.specs.Prelude.{IfSome, OnErr, Result, false, is_some, length, true, ⊤};
ghost use Rattle.std.specs.declared.alloc.AllocError.{AllocError};
ghost use Rattle.std.specs.Result.{result_ok};
ghost use Rattle.pay_frame.specs.Frame.{FrameFields};
ghost use Rattle.pay_frame.specs.Lent.{fields_of};
ghost use Rattle.pay_frame.specs.OneFrame.{IsOneFrame};
ghost use Rattle.pay_frame.specs.declared.limits.TheConstants.{MOST_MEMBERS};
ghost use Rattle.pay_link.specs.Keys.{IsPeer};
ghost use Rattle.pay_member.specs.Answer.{answer_of_query};
ghost use Rattle.pay_member.specs.Legal.{Legal};
ghost use Rattle.pay_member.specs.Member.{MemberFields};
ghost use Rattle.pay_member.specs.declared.event.Event.TheVariants.{Query};
ghost use Rattle.pay_member.specs.declared.fault.AskFault.TheVariants.{Memory};
ghost use Rattle.pay_node.specs.Closing.{AllReconciled, IsCloseFault};
ghost use Rattle.pay_node.specs.Comparing.{HasAsked, HasStanding, IsAnsweredOfOwn};
ghost use Rattle.pay_node.specs.Comparing.{IsComparingOf};
ghost use Rattle.pay_node.specs.Gathering.{IsGathered};
ghost use Rattle.pay_node.specs.Keeping.{HasFetched};
ghost use Rattle.pay_node.specs.Nodes.{AreFresh, FindsLie, HasEntries, HasNext, IsAccused};
ghost use Rattle.pay_node.specs.Nodes.{IsAnswered};
ghost use Rattle.pay_node.specs.Nodes.{IsBrought};
ghost use Rattle.pay_node.specs.Nodes.{IsMessage, IsOwn, node_as, IsReceived, IsShown};
ghost use Rattle.pay_node.specs.Nodes.{base_of, next_of, node_with, outcome_of_take};
ghost use Rattle.pay_node.specs.Sending.{HasSent};
ghost use Rattle.pay_member.specs.declared.reading.Reading.TheVariants as reading;

use crate::closing::{CloseFault, Stopped};
use crate::comparing::{Compared, Comparing, Standing};
use crate::locked_member::{Beginning, LockedMember, OwnMember};
use crate::seat::{FetchSeat, Seat};
use pay_book::Statement;
use pay_channel::laws::one_event_more;
use pay_frame::{Body, Bytes, FrameRef, SharedBody, read_one};
use pay_hmac::Tagger;
use pay_link::{Keys, LinkFault};
use pay_member::laws::events_in_order;
use pay_member::question::{AllFronts, LastLieOf, OwnForgetting, SentFrom, StateOf, StatementOf};
use pay_member::{
    AskFault, AskedValue, Brought, Incoming, Lie, Outcome, PaymentState, QueryFault, Question,
    Received, TakeFault, Told, Took, open_frame,
};
use std::alloc::{AllocError, Global};
use std::marker::Model;
use std::sync::atomic::{AtomicBool, AtomicU64, Ordering};
use std::sync::{Condvar, Mutex, Wait};
use thiserror::Error;

/// The calls of a node around its lock when it receives a frame. A test holds a worker there.
pub trait Gate {
    /// Runs in the seat `stamp` after a frame was authenticated and before the lock is taken.
    fn pass(&self, stamp: u16);

    /// Runs in the seat `stamp` after the lock was released.
    fn answered(&self, stamp: u16);
}

/// A gate that does nothing.
#[derive(Clone, Copy, Debug)]
pub struct OpenGate;

impl Gate for OpenGate {
    fn pass(&self, _stamp: u16) {}

    fn answered(&self, _stamp: u16) {}
}

/// A gatherer from a node's member while it is locked, such as a log that wants the newest entries.
pub trait Gatherer {
    // Relates the gatherer before, the member that it was lent, the answer, and the gatherer
    // afterwards.
    ghost gathers: { Self → MemberFields → Result ⊤ AllocError → Self → Type 0 };

    /// Gathers from `member`, while all callers of the node wait.
    fn gather(&mut self, member: &OwnMember) -> Result<(), AllocError>
        ensures { gathers self.old member.now result self.new };
}

/// The reason why a value isn't broadcast.
#[derive(Clone, Copy, Debug, PartialEq, Eq, Error)]
pub enum HandInFault {
    /// Too few peers have shown yet that they know no more than the member does.
    #[error("too early")]
    TooEarly,
    /// The member has lost state.
    #[error("forgotten")]
    Forgotten,
    /// The member refused the value.
    #[error("{0}")]
    Ask(AskFault),
}

impl From<AskFault> for HandInFault {
    ghost use Rattle.std.specs.Prelude.{◌≡◌};
    ghost use Rattle.pay_node.specs.declared.node.HandInFault.TheVariants.{Ask};

    ghost from_gives = { λ fault e. e ≡ Ask fault };

    fn from(fault: AskFault) -> HandInFault {
        HandInFault::Ask(fault)
    }
}

impl From<AllocError> for HandInFault {
    ghost use Rattle.std.specs.Prelude.{◌≡◌};
    ghost use Rattle.pay_member.specs.declared.fault.AskFault.TheVariants.{Memory};
    ghost use Rattle.pay_node.specs.declared.node.HandInFault.TheVariants.{Ask};

    ghost from_gives = { λ _ e. e ≡ Ask Memory };

    fn from(_error: AllocError) -> HandInFault {
        HandInFault::Ask(AskFault::Memory)
    }
}

/// The answer of a node to a question about its member's own account.
#[derive(Drop)]
pub enum OwnAnswer<A> {
    /// The answer of a member that has lost no state.
    Told(A),
    /// The answer that isn't reported, since the member has lost state.
    Withheld(A),
}

/// The greatest number of seats of a node.
pub const MOST_SEATS: u16 = 256;

/// A member that many threads call, each from a seat of its own.
///
/// A call locks the member for one event or one reading. Bytes are read, authenticated and answered
/// outside of the lock, with a copy of the member's keys. All answers come from the member that the
/// node began with, as it continued.
#[derive(Drop)]
pub struct Node<S: Beginning> {
    member: Mutex<LockedMember<S>>,
    changed: Condvar,
    // how many bodies the member sent, as the last holder of the lock left it
    sent: AtomicU64,
    // what peers claim about a member that continues from its log
    compared: Option<Mutex<Compared<S>>>,
    // whether it was found that the member has lost state
    forgets: AtomicBool,
    // a bit for all members of one number modulo 64: it is set if a protocol violation of one of
    // them was found
    liars: AtomicU64,
    keys: Keys,
    seats: u16,
}

impl<S: Beginning> Model for Node<S> {
    ghost use Rattle.std.specs.Prelude.{◌≡◌, is_some};
    ghost use Rattle.pay_node.specs.Nodes.{NodeFields, node_as};

    ghost Value = { NodeFields };

    ghost view = { λ n. node_as S.beginning n.seats (is_some n.compared) };

    ghost invariant = { λ n. n.keys ≡ S.beginning.keys };
}

impl<S: Beginning> Node<S> {
    /// Creates a node of `member`, which continues from the member's history, and the node's
    /// `seats` seats. If memory runs out, the member is returned.
    // promise: locked member
    pub fn new(
        alloc: Global,
        member: OwnMember,
        seats: u16,
    ) -> Result<(Node<S>, Vec<Seat>), (OwnMember, AllocError)>
        requires beginning { member ≡ S.beginning }
        requires few { seats ≤ MOST_SEATS }
        ensures node { IfOk result (λ made. made.0 ≡ node_with member seats) }
        ensures seats { IfOk result (λ made. AreFresh seats made.1.items) }
        ensures err { IfErr result (λ back. back.0 ≡ member) }
    {
        match parts(alloc, &member, seats) {
            Ok((keys, made)) => {
                let locked = LockedMember::new(member);
                Ok((Node::of_parts(locked, keys, seats, None), made))
            }
            Err(error) => Err((member, error)),
        }
    }

    /// Creates a node of `member`, and the node's `seats` seats. The node accepts no value before
    /// enough peers have claimed that they know no more about the member: see
    /// [`note_claim`](Node::note_claim). If memory runs out, the member is returned.
    pub fn comparing(
        alloc: Global,
        member: OwnMember,
        seats: u16,
    ) -> Result<(Node<S>, Vec<Seat>), (OwnMember, AllocError)>
        requires beginning { member ≡ S.beginning }
        requires few { seats ≤ MOST_SEATS }
        ensures node { IfOk result (λ made. made.0 ≡ node_as member seats true) }
        ensures seats { IfOk result (λ made. AreFresh seats made.1.items) }
        ensures err { IfErr result (λ back. back.0 ≡ member) }
    {
        let comparing = match comparing_of(alloc, &member) {
            Ok(comparing) => comparing,
            Err(error) => return Err((member, error)),
        };
        match parts(alloc, &member, seats) {
            Ok((keys, made)) => {
                let locked = LockedMember::new(member);
                let compared = Mutex::new(Compared::new(comparing));
                Ok((Node::of_parts(locked, keys, seats, Some(compared)), made))
            }
            Err(error) => Err((member, error)),
        }
    }

    /// Creates a node with the member `locked` under its lock, and with `keys`, a copy of the
    /// member's keys.
    pub(crate) fn of_parts(
        locked: LockedMember<S>,
        keys: Keys,
        seats: u16,
        compared: Option<Mutex<Compared<S>>>,
    ) -> Node<S>
        requires { keys ≡ S.beginning.keys }
        ensures { result ≡ node_as S.beginning seats (is_some compared) }
    {
        let sent = locked.member().sent_len();
        Node {
            member: Mutex::new(locked),
            changed: Condvar::new(),
            sent: AtomicU64::new(sent),
            compared,
            forgets: AtomicBool::new(false),
            liars: AtomicU64::new(0),
            keys,
            seats,
        }
    }

    /// Returns the keys that the node authenticates frames with.
    pub fn keys(&self) -> &Keys
        ensures { result.now ≡ self.now.keys }
    {
        &self.keys
    }

    /// Reads and authenticates `bytes`, and hands the frame that they are to the member. If the
    /// frame is authenticated and is no WANT, the answer has the WANT for what is next from its
    /// sender.
    ///
    /// Bytes that aren't authenticated, and a WANT, are answered at once, whatever memory there is.
    /// No lock is taken for them, and no receipt is left.
    #[tactic(auto, using(crate::proofs::Taking::brought_frame, crate::proofs::Taking::brought_fault))]
    // promise: node's bytes
    pub fn bring<R: Wait, T: Tagger, G: Gate>(
        &self,
        rt: &R,
        alloc: Global,
        seat: &mut Seat,
        tagger: &T,
        gate: &G,
        bytes: &[u8],
    ) -> Result<Brought, AllocError>
        ensures brought { IfOk result (λ brought.
            IsBrought self.now bytes.now seat.old seat.new brought) }
        ensures err { OnErr result (seat.new ≡ seat.old) }
        ensures memory { OnErr result
            ((f : FrameFields) × IsOneFrame bytes.now f × IsMessage self.now.keys f) }
    {
        let frame = match read_one(bytes) {
            Ok(frame) => frame,
            Err(fault) => return Ok(Brought::at_once(Outcome::Frame(fault))),
        };
        let from = frame.from();
        let received = self.bring_frame(rt, alloc, seat, tagger, gate, frame)?;
        Ok(received.with_want(tagger, self.keys(), from))
    }

    // `Node::bring_frame` answers which number is next and encodes no WANT. A reader with several
    // frames in flight encodes the WANTs that its window has room for. A tag that nobody sends
    // would cost a sixth of a frame.
    /// Does what `bring` does, for a `frame` that was read already, and without the WANT: the
    /// answer has the number that the WANT would request.
    #[tactic(auto, using(crate::proofs::Taking::taken_message, crate::proofs::Taking::is_want, crate::proofs::Taking::is_fault))]
    // promise: node's bytes
    pub fn bring_frame<R: Wait, T: Tagger, G: Gate>(
        &self,
        rt: &R,
        alloc: Global,
        seat: &mut Seat,
        tagger: &T,
        gate: &G,
        frame: FrameRef<'_>,
    ) -> Result<Received, AllocError>
        ensures received { IfOk result (λ received.
            IsReceived self.now seat.old seat.new (fields_of frame.entry) received) }
        ensures peer { IfOk result (λ received. IfSome received.next (λ _.
            IsPeer self.now.keys (fields_of frame.entry).from)) }
        ensures err { OnErr result (seat.new ≡ seat.old) }
        ensures memory { OnErr result (IsMessage self.now.keys (fields_of frame.entry)) }
    {
        let opened = match open_frame(tagger, self.keys(), frame) {
            Ok(Incoming::Message(opened)) => opened,
            Ok(Incoming::Want { from, number }) => {
                return Ok(Received::at_once(Outcome::Wanted { from, number }));
            }
            Err(fault) => return Ok(Received::at_once(Outcome::Link(fault))),
        };
        let checked = opened.own(alloc)?;
        let copy = checked.copy()?;
        seat.make_room(alloc)?;
        gate.pass(seat.stamp());
        let mut locked = self.member.lock(rt);
        let answer = locked.take(alloc, seat, checked, copy);
        self.count_sent(&locked);
        self.note_liar(&locked, opened.frame().from());
        drop(locked);
        gate.answered(seat.stamp());
        if has_sent(&answer) {
            self.changed.notify_all();
        }
        received_of(opened.frame().number(), answer)
    }

    /// Has the member broadcast `value`, a value of its own. The member must have kept its state.
    /// In a node with a rollback check, enough peers must know no more about it.
    // promise: node's answers; comparing (asked)
    pub fn ask<R: Wait>(
        &self,
        rt: &R,
        alloc: Global,
        seat: &mut Seat,
        value: Bytes,
    ) -> Result<u32, HandInFault>
        ensures asked { result ≢ Err (HandInFault.Ask Memory)
            → HasAsked self.now seat.old seat.new value result }
        ensures memory { result ≡ Err (HandInFault.Ask Memory) → seat.new ≡ seat.old }
    {
        let copy = AskedValue::new(alloc, value.copy(alloc)?)?;
        seat.make_room(alloc)?;
        let standing = self.standing(rt);
        let mut locked = self.member.lock(rt);
        let answer = locked.ask(alloc, seat, standing, value, copy);
        self.count_sent(&locked);
        drop(locked);
        // a submitted value is sent
        if answer.is_ok() {
            self.changed.notify_all();
        }
        answer
    }

    /// Returns the state of `account`, and has the member record the query.
    // promise: node's answers
    pub fn query<R: Wait>(
        &self,
        rt: &R,
        alloc: Global,
        seat: &mut Seat,
        account: u16,
    ) -> Result<Told, QueryFault>
        ensures answered { result ≢ Err QueryFault.Memory
            → IsAnswered self.now seat.old seat.new (Query account) (answer_of_query result) }
        ensures memory { result ≡ Err QueryFault.Memory → seat.new ≡ seat.old }
    {
        seat.make_room(alloc)?;
        self.member.lock(rt).query(alloc, seat, account)
    }

    /// Returns the member's answer to `question`. If the latest receipts of `seat` say just that,
    /// no receipt is left.
    // promise: node's answers
    pub fn read<R: Wait, Q: Question>(
        &self,
        rt: &R,
        alloc: Global,
        seat: &mut Seat,
        question: Q,
    ) -> Result<Q::Answer, AllocError>
        ensures shown { IfOk result (λ answer.
            IsShown self.now seat.old seat.new (Q.reading question answer)) }
        ensures err { OnErr result (seat.new ≡ seat.old) }
    {
        seat.make_room(alloc)?;
        let locked = self.member.lock(rt);
        let member = locked.member();
        let answer = question.ask(alloc, &member.view())?;
        seat.note(alloc, member, question, &answer)?;
        Ok(answer)
    }

    /// Asks the member `question` about its own account, and tells the answer if the member has
    /// lost no state, by its own history and by what its peers claim.
    // promise: node's answers; comparing
    pub fn read_own<R: Wait, Q: Question>(
        &self,
        rt: &R,
        alloc: Global,
        seat: &mut Seat,
        question: Q,
    ) -> Result<OwnAnswer<Q::Answer>, AllocError>
        ensures answered { IfOk result (IsAnsweredOfOwn self.now seat.old seat.new
            (Q.reading question)) }
        ensures err { OnErr result (seat.new ≡ seat.old) }
    {
        seat.make_room(alloc)?;
        let standing = self.standing(rt);
        let locked = self.member.lock(rt);
        let member = locked.member();
        let view = member.view();
        let answer = question.ask(alloc, &view)?;
        if view.has_forgotten() {
            seat.note(alloc, member, OwnForgetting, &true)?;
            return Ok(OwnAnswer::Withheld(answer));
        }
        seat.note(alloc, member, question, &answer)?;
        if standing == Standing::Forgotten {
            return Ok(OwnAnswer::Withheld(answer));
        }
        Ok(OwnAnswer::Told(answer))
    }

    /// Returns copies of the bodies that the member sent to all, from the place `from` on: at most
    /// `max`, and at most 16.
    // promise: node's answers
    pub fn fetch<R: Wait>(
        &self,
        rt: &R,
        alloc: Global,
        seat: &mut Seat,
        from: usize,
        max: usize,
    ) -> Result<Vec<Body>, AllocError>
        ensures shown { IfOk result (λ bodies.
            IsShown self.now seat.old seat.new (reading.Sent from max bodies.items)) }
        ensures err { OnErr result (seat.new ≡ seat.old) }
    {
        let bodies = self.read(rt, alloc, seat, SentFrom { from, max })?;
        Ok(bodies.into_vec())
    }

    /// Returns the body that the member sent at the place `number` of all, as soon as it is there.
    /// Returns `None` if `stop` is set before. However often the body is fetched from `seat`, one
    /// receipt of it is kept. The wait and the fetch are under one hold of the node's lock, and the
    /// seat is locked after the wait.
    ///
    /// No clause says how long the call waits, for none names the flag. It is tested.
    // promise: fetched bodies; answered WANTs
    pub fn fetch_when_sent<R: Wait>(
        &self,
        rt: &R,
        alloc: Global,
        seat: &Mutex<FetchSeat>,
        number: u64,
        stop: &AtomicBool,
    ) -> Result<Option<SharedBody>, AllocError>
        ensures { IfOk result (λ found. HasFetched self.now number found) }
    {
        seat.lock(rt).make_room(alloc)?;
        let locked = self.changed.wait_while(
            rt,
            self.member.lock(rt),
            |locked| self.has_to_wait(locked, number, stop),
        );
        let mut seat = seat.lock(rt);
        seat.note_once(alloc, locked.member(), number as usize)
    }

    /// Returns how far the payment of `owner` with the number `seq` has come.
    // promise: node's answers
    pub fn state<R: Wait>(
        &self,
        rt: &R,
        alloc: Global,
        seat: &mut Seat,
        owner: u16,
        seq: u32,
    ) -> Result<PaymentState, QueryFault>
        ensures shown { result ≢ Err QueryFault.Memory
            → IsShown self.now seat.old seat.new (reading.State owner seq (result_ok result)) }
        ensures memory { result ≡ Err QueryFault.Memory → seat.new ≡ seat.old }
    {
        self.read(rt, alloc, seat, StateOf { owner, seq })?
            .ok_or(QueryFault::NoAccount)
    }

    /// Returns the lines of the statement of `account`, and its balance.
    // promise: node's answers
    pub fn statement<R: Wait>(
        &self,
        rt: &R,
        alloc: Global,
        seat: &mut Seat,
        account: u16,
    ) -> Result<Statement, QueryFault>
        ensures shown { result ≢ Err QueryFault.Memory
            → IsShown self.now seat.old seat.new (reading.Statement account (result_ok result)) }
        ensures memory { result ≡ Err QueryFault.Memory → seat.new ≡ seat.old }
    {
        self.read(rt, alloc, seat, StatementOf(account))?
            .ok_or(QueryFault::NoAccount)
    }

    /// Returns how many entries of each account are settled, and keeps the receipt at `seat`.
    // promise: node's answers
    pub fn fronts<R: Wait>(
        &self,
        rt: &R,
        alloc: Global,
        seat: &mut Seat,
    ) -> Result<Vec<u32>, AllocError>
        ensures shown { IfOk result (λ fronts.
            IsShown self.now seat.old seat.new (reading.Fronts fronts.items)) }
        ensures few { IfOk result (λ fronts. length fronts.items ≤ MOST_MEMBERS) }
        ensures err { OnErr result (seat.new ≡ seat.old) }
    {
        Ok(self.read(rt, alloc, seat, AllFronts)?.into_vec())
    }

    /// Lends the member to `gatherer`, with all events up to now, and returns the gatherer's
    /// answer. No receipt is left.
    // promise: gatherers; log stays
    pub fn lend<R: Wait, G: Gatherer>(&self, rt: &R, gatherer: &mut G) -> Result<(), AllocError>
        ensures { IsGathered G.gathers self.now gatherer.old result gatherer.new }
    {
        let locked = self.member.lock(rt);
        let member = locked.member();
        // for its clause alone: the history is legal
        let _history = member.history();
        gatherer.gather(member)
    }

    /// Notes that `peer` claims to have accepted `claim` of all bodies that the member sent. No
    /// clause says what a lock protects. [`Comparing`] says what is noted.
    pub fn note_claim<R: Wait>(&self, rt: &R, peer: u16, claim: u64) {
        if let Some(compared) = &self.compared {
            let sent = self.member.lock(rt).member().sent_len();
            let mut compared = compared.lock(rt);
            compared.note(peer, claim, sent);
            if compared.standing() == Standing::Forgotten {
                self.forgets.store(true, Ordering::SeqCst);
            }
        }
    }

    /// Returns whether the member may submit values, and its peers be read, according to their
    /// claims.
    // promise: comparing
    pub fn standing<R: Wait>(&self, rt: &R) -> Standing
        ensures { HasStanding self.now result }
    {
        match &self.compared {
            None => Standing::Free,
            Some(compared) => compared.lock(rt).standing(),
        }
    }

    /// Returns how many entries the member's history has. The call leaves no receipt.
    pub fn history_len<R: Wait>(&self, rt: &R) -> usize
        ensures { HasEntries self.now result }
    {
        self.member.lock(rt).member().history().len()
    }

    /// Returns the number of the next frame from `peer`. The call leaves no receipt.
    pub fn next<R: Wait>(&self, rt: &R, peer: u16) -> u64
        requires { IsPeer self.now.keys peer }
        ensures { HasNext self.now peer result }
    {
        let locked = self.member.lock(rt);
        let member = locked.member();
        // for their clauses alone: the history is legal, and the keys are those of the group
        let (_history, _keys) = (member.history(), member.keys());
        member.next(peer)
    }

    /// Returns the last protocol violation that `peer` sent to the member, if there is one. The
    /// call leaves no receipt.
    // promise: lies
    pub fn lie<R: Wait>(&self, rt: &R, peer: u16) -> Option<Lie>
        requires { IsPeer self.now.keys peer }
        ensures { FindsLie self.now peer result }
    {
        let locked = self.member.lock(rt);
        let member = locked.member();
        // for their clauses alone: the history is legal, and the keys are those of the group
        let (_history, _keys) = (member.history(), member.keys());
        member.view().lie(peer)
    }

    /// Returns the last lie of `peer`, if the member knows of one, and leaves a receipt of that. If
    /// it knows of none, no receipt is left.
    // promise: node's answers; lies
    pub fn accuse<R: Wait>(
        &self,
        rt: &R,
        alloc: Global,
        seat: &mut Seat,
        peer: u16,
    ) -> Result<Option<Lie>, AllocError>
        requires { IsPeer self.now.keys peer }
        ensures accused { IfOk result (IsAccused self.now peer seat.old seat.new) }
        ensures err { OnErr result (seat.new ≡ seat.old) }
    {
        let locked = self.member.lock(rt);
        let member = locked.member();
        // for their clauses alone: the history is legal, and the keys are those of the group
        let (_history, _keys) = (member.history(), member.keys());
        match member.view().lie(peer) {
            None => Ok(None),
            Some(lie) => {
                seat.note(alloc, member, LastLieOf(peer), &Some(lie))?;
                Ok(Some(lie))
            }
        }
    }

    /// Returns whether `peer` may have sent a protocol violation up to now. The call takes no lock
    /// and leaves no receipt. No clause says so, for none names what an atomic holds. It is tested.
    pub fn may_have_lied(&self, peer: u16) -> bool {
        self.liars.load(Ordering::SeqCst) & hint_of(peer) != 0
    }

    // Notes a protocol violation of `peer`, if there is one, while the member is locked.
    fn note_liar(&self, locked: &LockedMember<S>, peer: u16)
        requires { IsPeer self.now.keys peer }
    {
        let liars = self.liars.load(Ordering::SeqCst);
        let member = locked.member();
        // for its clause alone: the keys are those of the group
        let _keys = member.keys();
        if member.view().lie(peer).is_some() {
            self.liars.store(liars | hint_of(peer), Ordering::SeqCst);
        }
    }

    /// Returns whether it was found that the member has lost state, by the member itself or from
    /// its peers' claims. The call takes no lock and leaves no receipt. No clause says so, for none
    /// names what an atomic holds. It is tested.
    pub fn forgets(&self) -> bool {
        self.forgets.load(Ordering::SeqCst)
    }

    // Only calls that sent something wake writers. Writers look at a length that no clause ties to
    // the outbound list (`Node::sent_len`), since no clause names what an atomic holds. A wrong
    // length delays frames.
    /// Returns how many bodies the member sent to all up to now. The call takes no lock and leaves
    /// no receipt. No clause says so, for none names what an atomic holds. It is tested.
    pub fn sent_len(&self) -> u64 {
        self.sent.load(Ordering::SeqCst)
    }

    // Notes how many bodies the member sent, and whether it has lost state, while it is locked.
    fn count_sent(&self, locked: &LockedMember<S>) {
        let member = locked.member();
        self.sent.store(member.sent_len(), Ordering::SeqCst);
        if member.view().has_forgotten() {
            self.forgets.store(true, Ordering::SeqCst);
        }
    }

    // Returns whether the body at `place` isn't sent yet and a writer has to wait for it.
    fn has_to_wait(&self, locked: &LockedMember<S>, place: u64, stop: &AtomicBool) -> bool {
        locked.member().sent(place).is_none() && !stop.load(Ordering::SeqCst)
    }

    /// Sets `stop` and wakes the writers that wait for what the member has still to send. The
    /// writers then have no answer. No clause says so, for none names a flag or what a lock
    /// protects. It is tested.
    pub fn stop_waiting<R: Wait>(&self, rt: &R, stop: &AtomicBool) {
        let locked = self.member.lock(rt);
        stop.store(true, Ordering::SeqCst);
        drop(locked);
        self.changed.notify_all();
    }

    /// Takes the member out of the lock, after the last call of the node.
    pub fn stop(self) -> Stopped<S>
        ensures node { result.node ≡ self }
        ensures legal { Legal result.member.genesis result.member.keys result.member.history }
    {
        let member = self.member.into_inner();
        // for its clause alone: the history is legal
        let _history = member.member().history();
        Stopped {
            member,
            keys: self.keys,
            seats: self.seats,
            compared: self.compared,
        }
    }

    /// Stops the node and makes the shutdown check with all `seats`: see [`Stopped::close`].
    // promise: closing (own, own_back, closed, fault)
    pub fn close(self, alloc: Global, seats: &[Seat]) -> Result<OwnMember, (CloseFault, Stopped<S>)>
        ensures own { IfOk result (IsOwn self) }
        ensures own_back { IfErr result (λ back. IsOwn self back.1.member) }
        ensures closed { IfOk result (λ member.
            AllReconciled member (base_of self) self.seats seats.now) }
        ensures fault { IfErr result (λ back. IsCloseFault self back.1.member seats.now back.0) }
        ensures back { IfErr result (λ back. back.1.node ≡ self) }
    {
        self.stop().close(alloc, seats)
    }
}

// Returns the bit of a member's number.
fn hint_of(member: u16) -> u64 {
    1 << (member % 64)
}

// Returns whether the member sent a body to all when it accepted a frame, so that waiting writers
// have to be woken.
#[tactic(auto, using(crate::proofs::Sent::tells))]
fn has_sent(answer: &Result<Took, TakeFault>) -> bool
    ensures { HasSent answer.now result }
{
    one_event_more();
    events_in_order();
    match answer {
        Ok(took) => took.echo || took.ready,
        Err(_) => false,
    }
}

// Returns a rollback check of the member as it is, without claims.
fn comparing_of(alloc: Global, member: &OwnMember) -> Result<Comparing, AllocError>
    ensures { IfOk result (λ comparing. IsComparingOf member.now comparing) }
{
    let genesis = member.genesis();
    Comparing::new(
        alloc,
        genesis.members(),
        genesis.faults(),
        member.sent_len(),
    )
}

// Returns a copy of the member's keys, and the seats.
#[tactic(auto, using(crate::proofs::Fresh::none_fresh, crate::proofs::Fresh::fresh_more))]
fn parts(alloc: Global, member: &OwnMember, seats: u16) -> Result<(Keys, Vec<Seat>), AllocError>
    ensures keys { IfOk result (λ parts. parts.0 ≡ member.now.keys) }
    ensures seats { IfOk result (λ parts. AreFresh seats parts.1.items) }
{
    let keys = member.keys().copy(alloc)?;
    let mut made = Vec::new(alloc);
    for stamp in 0..seats {
        made.push(Seat::new(alloc, stamp))?;
    }
    Ok((keys, made))
}

// Returns the answer to an authenticated frame with this `number`, made of the member's answer.
fn received_of(number: u64, answer: Result<Took, TakeFault>) -> Result<Received, AllocError>
    requires { IfOk answer (λ _. number + 1 < 2 ^ 64) }
    ensures memory { IfOk result (λ _. answer ≢ Err TakeFault.Memory) }
    ensures outcome { IfOk result (λ received. received.outcome ≡ outcome_of_take answer) }
    ensures next { IfOk result (λ received. received.next ≡ next_of number answer) }
    ensures err { OnErr result (answer ≡ Err TakeFault.Memory) }
{
    let (outcome, next) = match answer {
        Ok(took) => (Outcome::Took(took), number + 1),
        Err(TakeFault::Repeat(next)) => (Outcome::Link(LinkFault::Repeat(next)), next),
        Err(TakeFault::Gap(next)) => (Outcome::Link(LinkFault::Gap(next)), next),
        Err(TakeFault::WrongKey) => return Ok(Received::at_once(Outcome::WrongKey)),
        Err(TakeFault::Memory) => return Err(AllocError),
    };
    Ok(Received {
        outcome,
        next: Some(next),
    })
}
