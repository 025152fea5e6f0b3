//! The world of a script, and what its commands do there.

ghost use Rattle.std.specs.Prelude.{◌≡◌, ◌+◌, ◌++◌, ◌<◌, ◌≤◌, ℕ, List, [], IfOk, IfSome, OnOk};
ghost use Rattle.std.specs.Prelude.{option_map};
ghost use Rattle.pay_sim.specs.All.{BringsAll, Draws, FeedsMember, MakesPass};
ghost use Rattle.pay_sim.specs.Made.{frame_for, next_number, sent_frame, next_untaken};
ghost use Rattle.pay_sim.specs.Playing.{IsAfter, HasBrought, IsDone, IsMade};
ghost use Rattle.pay_sim.specs.Script.{IsConverged, Obeys, Tells, TellsAll, TellsBring, lie_frame};
ghost use Rattle.pay_sim.specs.Script.{lie_number, show_text, shown_member};
ghost use Rattle.pay_sim.specs.declared.group.ScriptGroup.{ScriptGroup};
ghost use Rattle.pay_world.specs.Answer.{receiver};
ghost use Rattle.pay_world.specs.Liars.{AreLiarsOf};
ghost use Rattle.pay_world.specs.Passing.{MayPass, frame_of, passing};
ghost use Rattle.pay_world.specs.declared.event.WorldEvent.{WorldEvent};

use crate::command::ScriptCommand;
use crate::group::ScriptGroup;
use crate::run::{Halt, RunStop};
use crate::test_frames::{PairTagger, test_frame};
use crate::words::{push_book, push_reply};
use pay_book::Settle;
use pay_echo::Instance;
use pay_frame::{Body, Bytes};
use pay_link::laws::shared_test_keys;
use pay_text::{push_number, push_word};
use pay_world::{
    World, WorldEvent, WorldFault, WorldReply, all_taken, group_test_keys, what_is_forged,
    world_by_events,
};
use std::alloc::{AllocError, Global};
use std::marker::Model;

/// The most events that a script makes.
pub const MOST_EVENTS: u32 = 1_000_000;

/// The world of a script, and the count of events that were made in it.
#[derive(Drop)]
pub(crate) struct Game<I: Instance + Drop, B: Settle + Drop> {
    world: World<I, B>,
    tagger: PairTagger,
    members: u16,
    made: u32,
}

impl<I: Instance + Drop, B: Settle + Drop> Model for Game<I, B> {
    ghost use Rattle.std.specs.Prelude.{◌<◌, ◌≤◌};
    ghost use Rattle.pay_sim.specs.declared.game.TheConstants.{MOST_EVENTS};
    ghost use Rattle.pay_sim.specs.Playing.{GameFields, IsGame};

    ghost Value = { GameFields };

    ghost view = { λ g. record { world = g.world; members = g.members; made = g.made } };

    ghost invariant = { λ g. (g.made ≤ MOST_EVENTS) × (g.members < 256)
        × IsGame (record { world = g.world; members = g.members; made = g.made }) };
}

impl<I: Instance + Drop, B: Settle + Drop> Game<I, B> {
    /// Creates the world of `group` before any event.
    pub(crate) fn new(alloc: Global, group: &ScriptGroup) -> Result<Game<I, B>, AllocError>
        requires { AreLiarsOf group.now.genesis group.now.liars }
        ensures { IfOk result (λ game. IsAfter group.now [] game) }
    {
        world_by_events();
        let members = group.genesis.members();
        let keys = group_test_keys(alloc, &group.genesis)?;
        let world = World::new(alloc, &group.genesis, keys.as_slice(), &group.liars)?;
        Ok(Game {
            world,
            tagger: PairTagger::new(alloc, members)?,
            members,
            made: 0,
        })
    }

    /// Does what `command` says, and appends its lines to `out`.
    pub(crate) fn obey(
        &mut self,
        alloc: Global,
        command: ScriptCommand,
        out: &mut Vec<u8>,
    ) -> Result<(), Halt>
        ensures { (c : ScriptGroup) (es : List WorldEvent) → IsAfter c es self.old
            → IsDone (Obeys c es command) c out.old.items out.new.items self.new result }
    {
        match command {
            ScriptCommand::Ask { member, value } => {
                self.tell(alloc, WorldEvent::Ask(u16::from(member), value), out)
            }
            ScriptCommand::Bring { from, to, number } => {
                self.bring(alloc, u16::from(from), u16::from(to), number, out)
            }
            ScriptCommand::Lie {
                from,
                to,
                number,
                body,
            } => self.lie(alloc, u16::from(from), u16::from(to), number, &body, out),
            ScriptCommand::Raw { to, bytes } => {
                self.tell(alloc, WorldEvent::Bring(u16::from(to), bytes), out)
            }
            ScriptCommand::All => self.all(alloc, out),
            ScriptCommand::Show => {
                self.show(out)?;
                Ok(())
            }
        }
    }

    /// Returns how many events were made.
    fn made_count(&self) -> u32
        ensures value { result ≡ self.now.made }
        ensures limit { self.now.made ≤ MOST_EVENTS }
    {
        self.made
    }

    /// Makes `event`, unless the limit of events is reached.
    fn make(&mut self, alloc: Global, event: WorldEvent) -> Result<WorldReply, Halt>
        ensures made { (c : ScriptGroup) (es : List WorldEvent) → IsAfter c es self.old
            → IsMade c es event self.new result }
        ensures count { OnOk result ((self.old.made < MOST_EVENTS)
            × (self.new.made ≡ self.old.made + 1)) }
    {
        world_by_events();
        what_is_forged();
        if self.made >= MOST_EVENTS {
            return Err(Halt::Stop(RunStop::Limit));
        }
        match self.world.apply(alloc, &self.tagger, event) {
            Ok(reply) => {
                self.made += 1;
                Ok(reply)
            }
            Err(WorldFault::Memory) => Err(Halt::Memory),
            Err(WorldFault::Forged(place)) => Err(Halt::Stop(RunStop::Forged(place))),
        }
    }

    /// Makes `event`, and appends what its member replied to `out`.
    fn tell(&mut self, alloc: Global, event: WorldEvent, out: &mut Vec<u8>) -> Result<(), Halt>
        ensures { (c : ScriptGroup) (es : List WorldEvent) → IsAfter c es self.old
            → IsDone (Tells c es event) c out.old.items out.new.items self.new result }
    {
        let member = receiver(&event);
        let reply = self.make(alloc, event)?;
        push_reply(out, member, reply)?;
        Ok(())
    }

    fn bring(
        &mut self,
        alloc: Global,
        from: u16,
        to: u16,
        number: u64,
        out: &mut Vec<u8>,
    ) -> Result<(), Halt>
        requires from { from < 256 }
        requires to { to < 256 }
        ensures { (c : ScriptGroup) (es : List WorldEvent) → IsAfter c es self.old
            → IsDone (TellsBring c es from to number) c
            out.old.items out.new.items self.new result }
    {
        let frame = self.frame_for(alloc, from, to, number)?;
        match frame {
            Some(bytes) => self.tell(alloc, WorldEvent::Bring(to, bytes), out),
            None => {
                push_word(out, "absent\n")?;
                Ok(())
            }
        }
    }

    fn lie(
        &mut self,
        alloc: Global,
        from: u16,
        to: u16,
        number: Option<u64>,
        body: &Body,
        out: &mut Vec<u8>,
    ) -> Result<(), Halt>
        requires from { from < 256 }
        requires to { to < 256 }
        ensures { (c : ScriptGroup) (es : List WorldEvent) → IsAfter c es self.old
            → IsDone (Tells c es (WorldEvent.Bring to (lie_frame c es from to number body.now))) c
            out.old.items out.new.items self.new result }
    {
        let number = self.lie_number(from, to, number);
        let bytes = test_frame(alloc, &self.tagger, from, to, number, body)?;
        self.tell(alloc, WorldEvent::Bring(to, bytes), out)
    }

    fn lie_number(&self, from: u16, to: u16, number: Option<u64>) -> u64
        ensures { (c : ScriptGroup) (es : List WorldEvent) → IsAfter c es self.now
            → result ≡ lie_number c es from to number }
    {
        match number {
            Some(number) => number,
            None => self.next(from, to),
        }
    }

    /// Delivers all that correct members didn't accept yet of each other, and appends the count of
    /// these frames to `out`.
    fn all(&mut self, alloc: Global, out: &mut Vec<u8>) -> Result<(), Halt>
        ensures { (c : ScriptGroup) (es : List WorldEvent) → IsAfter c es self.old
            → IsDone (TellsAll c es) c out.old.items out.new.items self.new result }
    {
        let before = self.made_count();
        self.bring_all(alloc)?;
        let count = self.made_count() - before;
        push_word(out, "brought ")?;
        push_number(out, u64::from(count))?;
        push_word(out, "\n")?;
        self.push_converged(out)?;
        Ok(())
    }

    /// Appends whether each correct member accepted all that the others sent to `out`.
    fn push_converged(&self, out: &mut Vec<u8>) -> Result<(), AllocError>
        ensures { OnOk result ((c : ScriptGroup) (es : List WorldEvent) → IsAfter c es self.now
            → (words : List ℕ) × IsConverged c es words
            × (out.new.items ≡ out.old.items ++ words)) }
    {
        if all_taken(&self.world) {
            push_word(out, "converged\n")
        } else {
            Ok(())
        }
    }

    /// Delivers to each member what it didn't accept yet of the others, again and again, until
    /// nothing is left.
    fn bring_all(&mut self, alloc: Global) -> Result<(), Halt>
        ensures brought { (c : ScriptGroup) (es : List WorldEvent) → IsAfter c es self.old
            → HasBrought (BringsAll c es) c self.new result }
        ensures count { OnOk result (self.old.made ≤ self.new.made) }
    {
        'passes: loop {
            let before = self.made_count();
            self.pass(alloc)?;
            if self.made_count() == before {
                return Ok(());
            }
        }
    }

    /// Delivers to each member what it didn't accept yet of the others.
    fn pass(&mut self, alloc: Global) -> Result<(), Halt>
        ensures brought { (c : ScriptGroup) (es : List WorldEvent) → IsAfter c es self.old
            → HasBrought (MakesPass c es) c self.new result }
        ensures count { OnOk result (self.old.made ≤ self.new.made) }
    {
        for to in 0..self.members {
            self.feed(alloc, to)?;
        }
        Ok(())
    }

    /// Delivers to the member `to` what it didn't accept yet of the others.
    fn feed(&mut self, alloc: Global, to: u16) -> Result<(), Halt>
        requires { to < 256 }
        ensures brought { (c : ScriptGroup) (es : List WorldEvent) → IsAfter c es self.old
            → HasBrought (FeedsMember c to es) c self.new result }
        ensures count { OnOk result (self.old.made ≤ self.new.made) }
    {
        for from in 0..self.members {
            self.draw(alloc, from, to)?;
        }
        Ok(())
    }

    /// Delivers to the member `to` what it didn't accept yet of the member `from`.
    fn draw(&mut self, alloc: Global, from: u16, to: u16) -> Result<(), Halt>
        requires from { from < 256 }
        requires to { to < 256 }
        ensures brought { (c : ScriptGroup) (es : List WorldEvent) → IsAfter c es self.old
            → HasBrought (Draws c from to es) c self.new result }
        ensures count { OnOk result (self.old.made ≤ self.new.made) }
    {
        'frames: loop {
            let Some(number) = self.next_untaken(from, to) else {
                return Ok(());
            };
            self.pass_on(alloc, from, to, number)?;
        }
    }

    /// Passes the frame `number` of the correct member `from` on to the member `to`, unless the
    /// limit of events is reached.
    fn pass_on(
        &mut self,
        alloc: Global,
        from: u16,
        to: u16,
        number: u64,
    ) -> Result<WorldReply, Halt>
        requires { MayPass self.old.world from to number }
        ensures made { (c : ScriptGroup) (es : List WorldEvent) → IsAfter c es self.old
            → IsMade c es (passing self.old.world from to number) self.new result }
        ensures count { OnOk result ((self.old.made < MOST_EVENTS)
            × (self.new.made ≡ self.old.made + 1)) }
    {
        world_by_events();
        what_is_forged();
        if self.made < MOST_EVENTS {
            match self.world.pass(alloc, from, to, number) {
                Ok(reply) => {
                    self.made += 1;
                    Ok(reply)
                }
                Err(_) => Err(Halt::Memory),
            }
        } else {
            Err(Halt::Stop(RunStop::Limit))
        }
    }

    /// Returns the number of the frame that the member `to` expects next of the list of `from`, if
    /// the list has it.
    fn next_untaken(&self, from: u16, to: u16) -> Option<u64>
        ensures frame { (c : ScriptGroup) (es : List WorldEvent) → IsAfter c es self.now
            → option_map (frame_of self.now.world from to) result ≡ next_untaken c es from to }
        ensures there { IfSome result (MayPass self.now.world from to) }
    {
        shared_test_keys();
        if to == from {
            return None;
        }
        let Some(_) = self.world.member(to) else {
            return None;
        };
        let Some(sender) = self.world.member(from) else {
            return None;
        };
        let number = self.next(from, to);
        match sender.sent(number) {
            Some(_) => Some(number),
            None => None,
        }
    }

    /// Returns the frame at the place `number` of the list of the correct member `from`, encoded
    /// for the member `to`, if there is one. If `to` is no correct member, the frame is empty.
    fn frame_for(
        &self,
        alloc: Global,
        from: u16,
        to: u16,
        number: u64,
    ) -> Result<Option<Bytes>, AllocError>
        requires from { from < 256 }
        requires to { to < 256 }
        ensures { IfOk result (λ frame. (c : ScriptGroup) (es : List WorldEvent)
            → IsAfter c es self.now → frame ≡ frame_for c es from to number) }
    {
        match self.world.member(to) {
            Some(_) => self.frame_sent(alloc, from, to, number),
            None => Ok(Some(Bytes::empty())),
        }
    }

    /// Returns the frame at the place `number` of the list of the correct member `from`, encoded
    /// for the member `to`, if there is one.
    fn frame_sent(
        &self,
        alloc: Global,
        from: u16,
        to: u16,
        number: u64,
    ) -> Result<Option<Bytes>, AllocError>
        requires from { from < 256 }
        requires to { to < 256 }
        ensures { IfOk result (λ frame. (c : ScriptGroup) (es : List WorldEvent)
            → IsAfter c es self.now → frame ≡ sent_frame c es from to number) }
    {
        if from == to {
            return Ok(None);
        }
        let Some(sender) = self.world.member(from) else {
            return Ok(None);
        };
        match sender.sent(number) {
            Some(body) => Ok(Some(test_frame(alloc, &self.tagger, from, to, number, body)?)),
            None => Ok(None),
        }
    }

    /// Returns the number that the correct member `to` expects next from `from`, or 0 if there is
    /// no such link.
    fn next(&self, from: u16, to: u16) -> u64
        ensures { (c : ScriptGroup) (es : List WorldEvent) → IsAfter c es self.now
            → result ≡ next_number c es from to }
    {
        let Some(receiver) = self.world.member(to) else {
            return 0;
        };
        if from >= receiver.genesis().members() || from == to {
            return 0;
        }
        receiver.next(from)
    }

    /// Appends the ledger of each correct member to `out`.
    fn show(&self, out: &mut Vec<u8>) -> Result<(), AllocError>
        ensures { OnOk result ((c : ScriptGroup) (es : List WorldEvent) → IsAfter c es self.now
            → out.new.items ≡ out.old.items ++ show_text c es) }
    {
        for number in 0..self.members {
            self.push_shown(out, number)?;
        }
        Ok(())
    }

    /// Appends the ledger of a member to `out`, if it is correct.
    fn push_shown(&self, out: &mut Vec<u8>, number: u16) -> Result<(), AllocError>
        ensures { OnOk result ((c : ScriptGroup) (es : List WorldEvent) → IsAfter c es self.now
            → out.new.items ≡ out.old.items ++ shown_member c es number) }
    {
        let Some(member) = self.world.member(number) else {
            return Ok(());
        };
        push_book(out, number, member)?;
        push_word(out, "\n")
    }
}

fn receiver(event: &WorldEvent) -> u16
    ensures { result ≡ receiver event.now }
{
    match event {
        WorldEvent::Ask(member, _) => *member,
        WorldEvent::Bring(member, _) => *member,
    }
}
