ghost use Rattle.std.specs.Prelude.{◌≡◌, ◌+◌, ◌<◌, ◌≤◌, length, IfOk, OnErr, OnOk, Some};
ghost use Rattle.pay_member.specs.Events.{events};
ghost use Rattle.pay_member.specs.Refusal.{refusal};
ghost use Rattle.pay_member.specs.Replay.{next_event, member_replayed};

use crate::event::{AskedValue, Event, HistoryEntry};
use crate::fault::MemberFault;
use crate::ledger::{Ledger, Lie, note_lie};
use crate::member::Member;
use crate::view::MemberView;
use pay_book::Settle;
use pay_channel::EventRef;
use pay_channel::laws::{
    a_channel_follows, lists_grow, nothing_at_first, sends_are_asks, taken_in_order,
};
use pay_echo::Instance;
use pay_frame::{GREATEST_VALUE, SEQS};
use pay_link::{Checked, Fronts};
use std::alloc::{AllocError, Global};
use std::marker::Model;

/// A member's history replayed entry by entry, from its beginning, and what the member showed after
/// each entry. The entries stay where they are, so a replay needs the memory of a member without a
/// history.
#[derive(Drop)]
pub struct Replay<'a, I: Instance + Drop, B: Settle + Drop> {
    member: &'a Member<I, B>,
    taken: usize,
    fronts: Fronts,
    lies: Vec<Option<Lie>>,
    ledger: Ledger<I, B>,
}

impl<'a, I: Instance + Drop, B: Settle + Drop> Model for Replay<'a, I, B> {
    ghost use Rattle.pay_member.specs.Replay.{IsReplay, ReplayFields};

    ghost Value = { ReplayFields };

    ghost view = { λ r. record { member = r.member.now; taken = r.taken } };

    ghost invariant = { λ r. IsReplay
        (record { member = r.member.now; taken = r.taken }) r.ledger r.fronts r.lies.items };
}

impl<'a, I: Instance + Drop, B: Settle + Drop> Replay<'a, I, B> {
    /// Creates a replay of `member` before its first entry.
    pub fn new(alloc: Global, member: &'a Member<I, B>) -> Result<Replay<'a, I, B>, AllocError>
        ensures { IfOk result (λ replay. replay ≡ record { member = member.now; taken = 0 }) }
    {
        nothing_at_first();
        let genesis = member.genesis();
        let fronts = Fronts::new(alloc, genesis.members())?;
        let lies = vec![in alloc; None; usize::from(genesis.members())]?;
        let ledger = Ledger::new(alloc, genesis, member.keys().own())?;
        Ok(Replay {
            member,
            taken: 0,
            fronts,
            lies,
            ledger,
        })
    }

    /// Returns the history that is replayed.
    pub fn history(&self) -> &'a [HistoryEntry]
        ensures { result.now ≡ self.now.member.history }
    {
        self.member.history()
    }

    /// Returns how many entries were replayed.
    pub fn entries_taken(&self) -> usize
        ensures value { result ≡ self.now.taken }
        ensures within { result ≤ length self.now.member.history }
    {
        self.taken
    }

    /// Returns what could be read of the member after the replayed entries.
    pub fn view(&self) -> MemberView<'_, I, B>
        ensures { result ≡ member_replayed self.now }
    {
        let member = self.member;
        MemberView {
            genesis: member.genesis(),
            keys: member.keys(),
            fronts: &self.fronts,
            lies: &self.lies,
            ledger: &self.ledger,
            history: &member.history()[..self.taken],
        }
    }

    /// Replays the next entry. Only a lack of memory can refuse it.
    pub fn step(&mut self, alloc: Global) -> Result<(), AllocError>
        requires { self.old.taken < length self.old.member.history }
        ensures taken { OnOk result (self.new ≡ record self.old { taken = self.old.taken + 1 }) }
        ensures err { OnErr result (self.new ≡ self.old) }
    {
        let member = self.member;
        match &member.history()[self.taken].event {
            Event::Ask(value) => self.ask_again(alloc, value),
            Event::Taken(checked) => self.take_again(alloc, checked),
            Event::Query(account) => {
                self.query_again(*account);
                Ok(())
            }
        }
    }

    // Replays the next entry, which is that this value was submitted.
    fn ask_again(&mut self, alloc: Global, value: &AskedValue) -> Result<(), AllocError>
        requires { next_event self.old ≡ Some (Event.Ask value.now) }
        ensures taken { OnOk result (self.new ≡ record self.old { taken = self.old.taken + 1 }) }
        ensures err { OnErr result (self.new ≡ self.old) }
    {
        a_channel_follows();
        lists_grow();
        sends_are_asks();
        taken_in_order();
        let entries = self.member.history().len();
        prove!(self.taken < entries);
        let own = self.member.keys().own();
        self.ledger
            .apply(alloc, EventRef::Ask(value.as_slice()), own, own)?;
        self.taken += 1;
        Ok(())
    }

    // Replays the next entry, which is that this frame was accepted.
    fn take_again(&mut self, alloc: Global, checked: &Checked) -> Result<(), AllocError>
        requires { next_event self.old ≡ Some (Event.Taken checked.now) }
        ensures taken { OnOk result (self.new ≡ record self.old { taken = self.old.taken + 1 }) }
        ensures err { OnErr result (self.new ≡ self.old) }
    {
        a_channel_follows();
        lists_grow();
        sends_are_asks();
        taken_in_order();
        let entries = self.member.history().len();
        prove!(self.taken < entries);
        let own = self.member.keys().own();
        let from = checked.from();
        let body = checked.body();
        let lie = self.ledger.lie(from, body);
        self.ledger
            .apply(alloc, EventRef::From(from, body), body.owner(), own)?;
        self.fronts.advance(from);
        note_lie(&mut self.lies, from, lie);
        self.taken += 1;
        Ok(())
    }

    // Replays the next entry, which is a query of this account.
    fn query_again(&mut self, account: u16)
        requires { next_event self.old ≡ Some (Event.Query account) }
        ensures { self.new ≡ record self.old { taken = self.old.taken + 1 } }
    {
        let entries = self.member.history().len();
        prove!(self.taken < entries);
        self.taken += 1;
    }

    /// Returns why the member would have refused `event` after the replayed entries, if it would.
    pub fn refusal(&self, event: &Event) -> Option<MemberFault>
        ensures { result ≡ refusal self.now.member.genesis self.now.member.keys
            (events (member_replayed self.now).history) event.now }
    {
        match event {
            Event::Ask(value) => self.refusal_of_ask(value),
            Event::Taken(checked) => self.refusal_of_frame(checked),
            Event::Query(account) => {
                if *account < self.member.genesis().members() {
                    None
                } else {
                    Some(MemberFault::NoAccount)
                }
            }
        }
    }

    // Returns why the member would have refused this value of its own, if it would.
    fn refusal_of_ask(&self, value: &AskedValue) -> Option<MemberFault>
        ensures { result ≡ refusal self.now.member.genesis self.now.member.keys
            (events (member_replayed self.now).history) (Event.Ask value.now) }
    {
        if value.as_slice().len() > usize::from(GREATEST_VALUE) {
            Some(MemberFault::TooLong)
        } else if self.ledger.asks() >= SEQS {
            Some(MemberFault::Spent)
        } else {
            None
        }
    }

    // Returns why the member would have refused this frame, if it would.
    fn refusal_of_frame(&self, checked: &Checked) -> Option<MemberFault>
        ensures { result ≡ refusal self.now.member.genesis self.now.member.keys
            (events (member_replayed self.now).history) (Event.Taken checked.now) }
    {
        if !checked.is_for(self.member.keys()) {
            return Some(MemberFault::WrongKey);
        }
        let next = self.fronts.next(checked.from());
        if checked.number() < next {
            Some(MemberFault::Repeat(next))
        } else if checked.number() > next {
            Some(MemberFault::Gap(next))
        } else {
            None
        }
    }
}
