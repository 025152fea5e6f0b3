ghost use Rattle.std.specs.Prelude.{◌≡◌, ℕ, slice_get, Some, false, IfOk, IfNone, IfSome};
ghost use Rattle.std.specs.Prelude.{IsOkUnless, MatchOption, OnOk, OnErr};
ghost use Rattle.std.specs.Option.{option_copied, option_map};
ghost use Rattle.pay_channel.specs.History.{out};
ghost use Rattle.pay_channel.specs.Prefix.{IsPrefix};
ghost use Rattle.pay_frame.specs.Frame.{FrameFields};
ghost use Rattle.pay_frame.specs.Lent.{fields_of};
ghost use Rattle.pay_frame.specs.OneFrame.{IsOneFrame};
ghost use Rattle.pay_link.specs.Checked.{IsFor, bytes_of};
ghost use Rattle.pay_link.specs.Fronts.{turn};
ghost use Rattle.pay_link.specs.Keys.{IsKeysOf};
ghost use Rattle.pay_member.specs.Events.{events};
ghost use Rattle.pay_member.specs.Group.{group_in};
ghost use Rattle.pay_member.specs.Member.{MemberFields};
ghost use Rattle.pay_world.specs.Answer.{AnswersEvent, IsGrownBy, IsReplyFrom, IsTakenBy, forgery};
ghost use Rattle.pay_world.specs.Answer.{is_forged_at, is_unsent, member_after, one_more, receiver};
ghost use Rattle.pay_world.specs.Genuine.{is_same_body};
ghost use Rattle.pay_world.specs.Liars.{AreLiarsOf};
ghost use Rattle.pay_world.specs.Passing.{MayPass, frame_of, passing};
ghost use Rattle.pay_world.specs.World.{AreKeysOf, IsWorld, fresh_place, fresh_world, history_in};
ghost use Rattle.pay_world.specs.World.{member_in};

use crate::event::{WorldEvent, WorldFault, WorldReply};
use crate::laws::{correct_members_stand, forged_is_told};
use crate::liars::Liars;
use pay_book::Settle;
use pay_channel::laws::what_is_sent;
use pay_echo::Instance;
use pay_echo::laws::sizes_of_sets;
use pay_frame::{Body, Bytes, FrameRef, one_answer, read_one};
use pay_hmac::Tagger;
use pay_hmac::laws::tag_length;
use pay_link::laws::sealed_opens;
use pay_link::{Checked, Genesis, Keys, seal_checked, turn};
use pay_member::laws::{events_in_order, what_is_brought, what_opens};
use pay_member::{AskFault, Member, Outcome};
use std::alloc::{AllocError, Global};
use std::marker::Model;

// `run_world` and `World::apply` get a tagger as an argument: a world keeps none.
/// The members of a group in one process: the correct ones, each at its place, and nothing at the
/// places of faulty members. What faulty members send reaches the others as bytes.
///
/// The type keeps two facts. What a correct member accepted from another is a prefix of all that
/// the other sent. For each READY of a correct member there is a quorum of ECHOs at some correct
/// member.
#[derive(Drop)]
pub struct World<I: Instance + Drop, B: Settle + Drop> {
    genesis: Genesis,
    liars: Liars,
    members: Vec<Option<Member<I, B>>>,
    answered: u64,
}

impl<I: Instance + Drop, B: Settle + Drop> Model for World<I, B> {
    ghost use Rattle.pay_world.specs.World.{WorldFields, IsWorld};

    ghost Value = { WorldFields };

    ghost view = { λ w. record {
      genesis = w.genesis;
      liars = w.liars;
      members = w.members.items;
      answered = w.answered;
    } };

    ghost invariant = { λ w. IsWorld (record {
      genesis = w.genesis;
      liars = w.liars;
      members = w.members.items;
      answered = w.answered;
    }) };
}

impl<I: Instance + Drop, B: Settle + Drop> World<I, B> {
    /// Creates a world with the faulty members `liars`, without events. There are `keys` for each
    /// member, at its place.
    // promise: world's step
    pub fn new(
        alloc: Global,
        genesis: &Genesis,
        keys: &[Keys],
        liars: &Liars,
    ) -> Result<World<I, B>, AllocError>
        requires keys { AreKeysOf genesis.now keys.now }
        requires liars { AreLiarsOf genesis.now liars.now }
        ensures value { IfOk result (λ world. world ≡ fresh_world genesis.now keys.now liars.now) }
        ensures limits { IfOk result IsWorld }
    {
        correct_members_stand();
        let mut members = Vec::with_capacity(alloc, usize::from(genesis.members()))?;
        for keys in keys {
            members.push(fresh_place(alloc, genesis, keys, liars)?)?;
        }
        Ok(World {
            genesis: genesis.copy(alloc)?,
            liars: liars.copy(alloc)?,
            members,
            answered: 0,
        })
    }

    /// Applies `event`, and returns what its member answered.
    ///
    /// Refuses a frame in the name of a correct member that didn't send it (`Forged`), with the
    /// count of the events answered before. The count saturates. A refused event changes nothing.
    /// Only an event that its member accepts can fail for lack of memory.
    // promise: order of refusals; nothing changes (err); world's step
    pub fn apply<T: Tagger>(
        &mut self,
        alloc: Global,
        tagger: &T,
        event: WorldEvent,
    ) -> Result<WorldReply, WorldFault>
        ensures refused { MatchOption (forgery self.old event)
            (IsOkUnless result WorldFault.Memory)
            (λ fault. result ≡ Err fault) }
        ensures memory { result ≡ Err WorldFault.Memory
            → IsTakenBy event (member_in self.old (receiver event)) }
        ensures answers { IfOk result (AnswersEvent self.old self.new event) }
        ensures count { OnOk result (self.new.answered ≡ one_more self.old.answered) }
        ensures prefix { (i : ℕ) → IsPrefix (history_in self.old i) (history_in self.new i) }
        ensures err { OnErr result (self.new ≡ self.old) }
    {
        let reply = self.happen(alloc, tagger, event)?;
        self.answered = self.answered.saturating_add(1);
        Ok(reply)
    }

    // Applies `event` without counting it.
    fn happen<T: Tagger>(
        &mut self,
        alloc: Global,
        tagger: &T,
        event: WorldEvent,
    ) -> Result<WorldReply, WorldFault>
        ensures refused { MatchOption (forgery self.old event)
            (IsOkUnless result WorldFault.Memory)
            (λ fault. result ≡ Err fault) }
        ensures memory { result ≡ Err WorldFault.Memory
            → IsTakenBy event (member_in self.old (receiver event)) }
        ensures answers { IfOk result (AnswersEvent self.old self.new event) }
        ensures count { self.new.answered ≡ self.old.answered }
        ensures err { OnErr result (self.new ≡ self.old) }
    {
        match event {
            WorldEvent::Ask(member, value) => self.ask(alloc, member, value),
            WorldEvent::Bring(member, bytes) => {
                self.bring(alloc, tagger, member, bytes.as_slice())
            }
        }
    }

    // Submits a value to a member for broadcast.
    fn ask(&mut self, alloc: Global, member: u16, value: Bytes) -> Result<WorldReply, WorldFault>
        ensures refused { MatchOption (forgery self.old (WorldEvent.Ask member value))
            (IsOkUnless result WorldFault.Memory)
            (λ fault. result ≡ Err fault) }
        ensures memory { result ≡ Err WorldFault.Memory
            → IsTakenBy (WorldEvent.Ask member value) (member_in self.old member) }
        ensures answers { IfOk result
            (AnswersEvent self.old self.new (WorldEvent.Ask member value)) }
        ensures count { self.new.answered ≡ self.old.answered }
        ensures err { OnErr result (self.new ≡ self.old) }
    {
        events_in_order();
        sizes_of_sets();
        correct_members_stand();
        let place = usize::from(member);
        if place >= self.members.len() {
            return Ok(WorldReply::Ignored);
        }
        ask_place(&mut self.members[place], alloc, value)
    }

    // Delivers bytes to a member, unless they are a forged frame.
    fn bring<T: Tagger>(
        &mut self,
        alloc: Global,
        tagger: &T,
        member: u16,
        bytes: &[u8],
    ) -> Result<WorldReply, WorldFault>
        ensures refused { MatchOption (forgery self.old (WorldEvent.Bring member bytes.now))
            (IsOkUnless result WorldFault.Memory)
            (λ fault. result ≡ Err fault) }
        ensures memory { result ≡ Err WorldFault.Memory
            → IsTakenBy (WorldEvent.Bring member bytes.now) (member_in self.old member) }
        ensures answers { IfOk result
            (AnswersEvent self.old self.new (WorldEvent.Bring member bytes.now)) }
        ensures count { self.new.answered ≡ self.old.answered }
        ensures err { OnErr result (self.new ≡ self.old) }
    {
        what_opens();
        sizes_of_sets();
        correct_members_stand();
        forged_is_told();
        if self.is_forged(tagger, member, bytes) {
            return Err(WorldFault::Forged(self.answered));
        }
        let place = usize::from(member);
        if place >= self.members.len() {
            return Ok(WorldReply::Ignored);
        }
        bring_place(&mut self.members[place], alloc, tagger, bytes)
    }

    // Returns whether `bytes` are a frame that a correct member authenticates, in the name of a
    // correct member that didn't send it under this number. The sent list is tested first, without
    // computing a tag.
    fn is_forged<T: Tagger>(&self, tagger: &T, member: u16, bytes: &[u8]) -> bool
        ensures { result ≡ is_forged_at self.now (WorldEvent.Bring member bytes.now) }
    {
        what_opens();
        let Some(receiver) = self.member(member) else {
            return false;
        };
        self.are_unsent(bytes) && receiver.opens(tagger, bytes).is_some()
    }

    // Returns whether `bytes`, if they are a frame, name a correct member that didn't send it under
    // this number, whatever the tag.
    fn are_unsent(&self, bytes: &[u8]) -> bool
        ensures { (f : FrameFields) → IsOneFrame bytes.now f → result ≡ is_unsent self.now f }
    {
        one_answer();
        match read_one(bytes) {
            Ok(frame) => self.is_unsent(&frame),
            Err(_) => false,
        }
    }

    // Returns whether `frame` names a correct member that didn't send it under this number,
    // whatever the tag.
    fn is_unsent(&self, frame: &FrameRef<'_>) -> bool
        ensures { result ≡ is_unsent self.now (fields_of frame.now) }
    {
        match self.member(frame.from()) {
            Some(sender) => !is_sent(sender, frame),
            None => false,
        }
    }

    /// Passes on what a correct member sent to another that has an equal key for it: the frame at
    /// place `number` of its list, encoded for the member `to`. The effect is that of delivering
    /// the frame's bytes. They aren't encoded, and the tag is computed once.
    ///
    /// A frame that was sent is never refused, and memory can run out only if the other member
    /// accepts it.
    // promise: passing on
    pub fn pass(
        &mut self,
        alloc: Global,
        from: u16,
        to: u16,
        number: u64,
    ) -> Result<WorldReply, WorldFault>
        requires { MayPass self.old from to number }
        ensures refused { MatchOption (forgery self.old (passing self.old from to number))
            (IsOkUnless result WorldFault.Memory)
            (λ fault. result ≡ Err fault) }
        ensures passed { IsOkUnless result WorldFault.Memory }
        ensures memory { result ≡ Err WorldFault.Memory
            → IsTakenBy (passing self.old from to number) (member_in self.old to) }
        ensures answers { IfOk result
            (AnswersEvent self.old self.new (passing self.old from to number)) }
        ensures count { OnOk result (self.new.answered ≡ one_more self.old.answered) }
        ensures prefix { (i : ℕ) → IsPrefix (history_in self.old i) (history_in self.new i) }
        ensures err { OnErr result (self.new ≡ self.old) }
    {
        let reply = self.hand_on(alloc, from, to, number)?;
        let answered = self.answered.saturating_add(1);
        self.answered = answered;
        Ok(reply)
    }

    // Passes a frame on without counting it.
    fn hand_on(
        &mut self,
        alloc: Global,
        from: u16,
        to: u16,
        number: u64,
    ) -> Result<WorldReply, WorldFault>
        requires { MayPass self.old from to number }
        ensures unforged { is_forged_at self.old (passing self.old from to number) ≡ false }
        ensures passed { IsOkUnless result WorldFault.Memory }
        ensures memory { result ≡ Err WorldFault.Memory
            → IsTakenBy (passing self.old from to number) (member_in self.old to) }
        ensures answers { IfOk result
            (AnswersEvent self.old self.new (passing self.old from to number)) }
        ensures count { self.new.answered ≡ self.old.answered }
        ensures err { OnErr result (self.new ≡ self.old) }
    {
        what_opens();
        sizes_of_sets();
        correct_members_stand();
        forged_is_told();
        if let Some(reply) = self.out_of_turn(from, to, number) {
            return Ok(reply);
        }
        let checked = self.seal_sent(alloc, from, to, number)?;
        pass_place(&mut self.members[usize::from(to)], alloc, checked)
    }

    // Returns what the member `to` answers if the frame isn't the next from its sender. It is a
    // repeat or a gap whatever its tag, so nothing is encoded.
    fn out_of_turn(&self, from: u16, to: u16, number: u64) -> Option<WorldReply>
        requires { MayPass self.now from to number }
        ensures unforged { is_forged_at self.now (passing self.now from to number) ≡ false }
        ensures answers { IfSome result
            (AnswersEvent self.now self.now (passing self.now from to number)) }
        ensures taken { IfNone result
            (IsTakenBy (passing self.now from to number) (member_in self.now to)) }
    {
        what_is_brought();
        what_is_sent();
        forged_is_told();
        sealed_opens();
        tag_length();
        let giver = self.member(from).unwrap();
        let body = giver.sent(number).unwrap();
        // for the proof, a body's limits: the call does nothing
        body.value();
        let taker = self.member(to).unwrap();
        match turn(taker.next(from), number) {
            Ok(()) => None,
            Err(fault) => Some(WorldReply::Brought(Outcome::Link(fault))),
        }
    }

    // Returns the frame at a place of all that a correct member sent, encoded for another member.
    fn seal_sent(
        &self,
        alloc: Global,
        from: u16,
        to: u16,
        number: u64,
    ) -> Result<Checked, AllocError>
        requires { MayPass self.now from to number }
        ensures bytes { IfOk result (λ checked.
            bytes_of checked ≡ frame_of self.now from to number) }
        ensures mine { IfOk result (λ checked. (taker : MemberFields)
            → member_in self.now to ≡ Some taker → IsFor taker.keys checked) }
    {
        what_is_sent();
        forged_is_told();
        let giver = self.member(from).unwrap();
        let body = giver.sent(number).unwrap();
        let checked = seal_checked(alloc, giver.keys(), to, number, body)?;
        Ok(checked)
    }

    // Returns how many members the group has, including the faulty ones.
    pub(crate) fn members(&self) -> u16
        ensures value { result ≡ self.now.genesis.members }
        ensures limits { IsWorld self.now }
    {
        self.genesis.members()
    }

    /// Returns the member with the number `member`, unless it is no member or faulty.
    // promise: world's step
    pub fn member(&self, member: u16) -> Option<&Member<I, B>>
        ensures value { option_copied result ≡ member_in self.now member }
        ensures limits { IsWorld self.now }
    {
        match self.members.get(usize::from(member)) {
            Some(Some(member)) => Some(member),
            _ => None,
        }
    }
}

// Submits a value to the member at a place, if there is one.
fn ask_place<I: Instance + Drop, B: Settle + Drop>(
    place: &mut Option<Member<I, B>>,
    alloc: Global,
    value: Bytes,
) -> Result<WorldReply, WorldFault>
    ensures reply { IfOk result (IsReplyFrom place.old (WorldEvent.Ask 0 value)) }
    ensures after { IfOk result (λ reply. place.new
        ≡ option_map (member_after (WorldEvent.Ask 0 value) reply) place.old) }
    ensures memory { IsOkUnless result WorldFault.Memory }
    ensures taken { OnErr result (IsTakenBy (WorldEvent.Ask 0 value) place.old) }
    ensures err { OnErr result (place.new ≡ place.old) }
{
    let Some(member) = place else {
        return Ok(WorldReply::Ignored);
    };
    match member.ask(alloc, 0, value) {
        Ok(number) => Ok(WorldReply::Asked(number)),
        Err(AskFault::Memory) => Err(WorldFault::Memory),
        Err(fault) => Ok(WorldReply::Refused(fault.into())),
    }
}

// Delivers bytes to the member at a place, if there is one.
fn bring_place<I: Instance + Drop, B: Settle + Drop, T: Tagger>(
    place: &mut Option<Member<I, B>>,
    alloc: Global,
    tagger: &T,
    bytes: &[u8],
) -> Result<WorldReply, WorldFault>
    ensures reply { IfOk result (IsReplyFrom place.old (WorldEvent.Bring 0 bytes.now)) }
    ensures after { IfOk result (λ reply. place.new
        ≡ option_map (member_after (WorldEvent.Bring 0 bytes.now) reply) place.old) }
    ensures grown { IfOk result (λ _. IsGrownBy place.old place.new bytes.now) }
    ensures memory { IsOkUnless result WorldFault.Memory }
    ensures taken { OnErr result (IsTakenBy (WorldEvent.Bring 0 bytes.now) place.old) }
    ensures err { OnErr result (place.new ≡ place.old) }
{
    let Some(member) = place else {
        return Ok(WorldReply::Ignored);
    };
    let outcome = member.bring_unanswered(alloc, 0, tagger, bytes)?;
    Ok(WorldReply::Brought(outcome))
}

// Delivers a frame to the member at a place, if there is one. The frame is for that member.
fn pass_place<I: Instance + Drop, B: Settle + Drop>(
    place: &mut Option<Member<I, B>>,
    alloc: Global,
    checked: Checked,
) -> Result<WorldReply, WorldFault>
    requires { MatchOption place.old (Unit {0}) (λ m. IsFor m.keys checked) }
    ensures reply { IfOk result (IsReplyFrom place.old (WorldEvent.Bring 0 (bytes_of checked))) }
    ensures after { IfOk result (λ reply. place.new
        ≡ option_map (member_after (WorldEvent.Bring 0 (bytes_of checked)) reply) place.old) }
    ensures grown { IfOk result (λ _. IsGrownBy place.old place.new (bytes_of checked)) }
    ensures memory { IsOkUnless result WorldFault.Memory }
    ensures err { OnErr result (place.new ≡ place.old) }
{
    let Some(member) = place else {
        return Ok(WorldReply::Ignored);
    };
    let outcome = member.bring_owned(alloc, 0, checked)?;
    Ok(WorldReply::Brought(outcome))
}

// Returns whether the member sent this body under this number.
fn is_sent<I: Instance + Drop, B: Settle + Drop>(
    sender: &Member<I, B>,
    frame: &FrameRef<'_>,
) -> bool
    ensures { result ≡ is_same_body (fields_of frame.now).body
        (slice_get
        (out (group_in sender.now.genesis sender.now.keys.own) (events sender.now.history))
        (fields_of frame.now).number) }
{
    match sender.sent(frame.number()) {
        Some(body) => is_body(body, frame),
        None => false,
    }
}

fn is_body(body: &Body, frame: &FrameRef<'_>) -> bool
    ensures { result ≡ is_same_body (fields_of frame.now).body (Some body.now) }
{
    body.kind() == frame.kind()
        && body.owner() == frame.owner()
        && body.seq() == frame.seq()
        && body.value() == frame.value()
}

// Returns what stands at the place of the member with `keys` in a new world.
fn fresh_place<I: Instance + Drop, B: Settle + Drop>(
    alloc: Global,
    genesis: &Genesis,
    keys: &Keys,
    liars: &Liars,
) -> Result<Option<Member<I, B>>, AllocError>
    requires { IsKeysOf genesis.now keys.now }
    ensures { IfOk result (λ place. place ≡ fresh_place genesis.now liars.now keys.now) }
{
    if liars.is_liar(keys.own()) {
        return Ok(None);
    }
    let member = Member::new(alloc, genesis.copy(alloc)?, keys.copy(alloc)?)?;
    Ok(Some(member))
}
