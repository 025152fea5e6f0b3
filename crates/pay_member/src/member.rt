ghost use Rattle.std.specs.Prelude.{◌≡◌, ◌≢◌, ◌<◌, ◌≤◌, ◌↔◌, ◌++◌, min, [], length};
ghost use Rattle.std.specs.Prelude.{slice_get, slice_index, Some, None, MatchOption, IfOk, IfSome};
ghost use Rattle.std.specs.Prelude.{OnOk, OnErr, IsOkUnless, IsTrue};
ghost use Rattle.std.specs.Option.{option_and_then, option_copied, option_map, option_to_list};
ghost use Rattle.pay_book.specs.Statement.{statement_of};
ghost use Rattle.pay_channel.specs.History.{From, asks, list_of, out};
ghost use Rattle.pay_channel.specs.Taken.{next};
ghost use Rattle.pay_frame.specs.Lent.{fields_of};
ghost use Rattle.pay_frame.specs.declared.limits.TheConstants.{MOST_MEMBERS};
ghost use Rattle.pay_link.specs.Checked.{IsFor, bytes_of, checked_fields};
ghost use Rattle.pay_link.specs.Fronts.{turn};
ghost use Rattle.pay_link.specs.Genesis.{IsGenesis};
ghost use Rattle.pay_link.specs.Keys.{IsKeysOf, IsPeer};
ghost use Rattle.pay_link.specs.Opening.{judgement};
ghost use Rattle.pay_member.specs.Answer.{IsAnswer, answer_of_ask, answer_of_take, answer_of_query};
ghost use Rattle.pay_member.specs.Book.{book_after};
ghost use Rattle.pay_member.specs.Bringing.{IsOutcome, answer_to, event_in, event_of_frame};
ghost use Rattle.pay_member.specs.Bringing.{incoming_at, opened_in, outcome_to, unless_want};
ghost use Rattle.pay_member.specs.Bringing.{want_after, with_brought, with_taken, with_want};
ghost use Rattle.pay_member.specs.Events.{events};
ghost use Rattle.pay_member.specs.Group.{group_in};
ghost use Rattle.pay_member.specs.Legal.{Legal};
ghost use Rattle.pay_member.specs.Member.{with_entry};
ghost use Rattle.pay_member.specs.Reading.{fetched_bodies, state_of};
ghost use Rattle.pay_member.specs.Refusal.{refusal};
ghost use Rattle.pay_member.specs.Reply.{took_by, told_of};
ghost use Rattle.pay_member.specs.Serving.{after_frame, want_of};

use crate::bringing::{Brought, Incoming, Outcome, open_frame};
use crate::event::{
    AskedValue, Event, HistoryEntry, Reply, Told, Took, asked_is_kept, taken_is_kept,
};
use crate::fault::{AskFault, MemberFault, QueryFault, TakeFault};
use crate::ledger::{Ledger, Lie, Received, note_lie};
use crate::question::PaymentState;
use crate::view::MemberView;
use pay_book::laws::settled_book_is_one;
use pay_book::{Line, Settle};
use pay_channel::EventRef;
use pay_channel::laws::{
    a_channel_follows, lists_grow, nothing_at_first, one_event_more, sends_are_asks, taken_in_order,
};
use pay_echo::Instance;
use pay_frame::{
    Body, Bytes, FrameRef, GREATEST_VALUE, Kind, SEQS, SharedBody, one_frame_is, read_one,
};
use pay_hmac::Tagger;
use pay_link::{Checked, Fronts, Genesis, Keys, LinkFault, Opened, laws};
use std::alloc::{AllocError, Global};
use std::marker::Model;

/// The most bodies that one `fetch` returns.
pub const MOST_FETCHED: usize = 16;

/// A member: its group, its keys, its events and replies, and the broadcasts and ledger that follow
/// from them.
///
/// Its type keeps that the history is one that a member can have, and that all that the member
/// shows follows from it.
#[derive(Drop)]
pub struct Member<I: Instance + Drop, B: Settle + Drop> {
    genesis: Genesis,
    keys: Keys,
    fronts: Fronts,
    // for each member its last protocol violation, if there is one
    lies: Vec<Option<Lie>>,
    pub(crate) ledger: Ledger<I, B>,
    history: Vec<HistoryEntry>,
}

impl<I: Instance + Drop, B: Settle + Drop> Model for Member<I, B> {
    ghost use Rattle.pay_member.specs.Member.{MemberFields, IsMember};

    ghost Value = { MemberFields };

    ghost view = { λ m. record { genesis = m.genesis; keys = m.keys; history = m.history.items } };

    ghost invariant = { λ m. IsMember
        (record { genesis = m.genesis; keys = m.keys; history = m.history.items })
        m.ledger m.fronts m.lies.items };
}

impl<I: Instance + Drop, B: Settle + Drop> Member<I, B> {
    /// Creates a member without events. The keys belong to a member of `genesis`.
    pub fn new(alloc: Global, genesis: Genesis, keys: Keys) -> Result<Member<I, B>, AllocError>
        requires { IsKeysOf genesis keys }
        ensures { IfOk result (λ member.
            member ≡ record { genesis = genesis; keys = keys; history = [] }) }
    {
        nothing_at_first();
        let fronts = Fronts::new(alloc, genesis.members())?;
        let lies = vec![in alloc; None; usize::from(genesis.members())]?;
        let ledger = Ledger::new(alloc, &genesis, keys.own())?;
        Ok(Member {
            genesis,
            keys,
            fronts,
            lies,
            ledger,
            history: Vec::new(alloc),
        })
    }

    /// Broadcasts `value`, a value of the member's own, and returns its number.
    ///
    /// Refuses a value of more than 1,024 bytes (`TooLong`) and a value after 65,536 others
    /// (`Spent`). A refused value is dropped, and the member is unchanged.
    // promise: nothing changes (err); member's refusals (refused, err)
    // promise: member's replies (asked, entry)
    pub fn ask(&mut self, alloc: Global, stamp: u16, value: Bytes) -> Result<u32, AskFault>
        ensures refused { MatchOption
            (refusal self.old.genesis self.old.keys (events self.old.history) (Event.Ask value))
            (IsOkUnless result AskFault.Memory)
            (λ fault. answer_of_ask result ≡ Err fault) }
        ensures asked { IfOk result (λ seq. seq ≡ asks (events self.old.history)) }
        ensures entry { IfOk result (λ seq. self.new ≡ with_entry self.old
            (record { stamp = stamp; event = Event.Ask value; reply = Reply.Asked seq })) }
        ensures err { OnErr result (self.new ≡ self.old) }
    {
        one_event_more();
        taken_in_order();
        lists_grow();
        sends_are_asks();
        a_channel_follows();
        settled_book_is_one();
        if value.len() > usize::from(GREATEST_VALUE) {
            return Err(AskFault::TooLong);
        }
        let seq = self.ledger.asks();
        if seq >= SEQS {
            return Err(AskFault::Spent);
        }
        self.history.reserve(1)?;
        let value = AskedValue::new(alloc, value)?;
        let own = self.keys.own();
        self.ledger
            .apply(alloc, EventRef::Ask(value.as_slice()), own, own)?;
        asked_is_kept(&value);
        self.history.push_reserved(HistoryEntry {
            stamp,
            event: Event::Ask(value),
            reply: Reply::Asked(seq),
        });
        Ok(seq)
    }

    /// Accepts `checked`, a frame of another member, and returns what followed from it.
    ///
    /// Refuses a frame that isn't for this member or was authenticated under another key
    /// (`WrongKey`). Then it refuses a frame that isn't the next one from its sender (`Repeat`,
    /// `Gap`). A refused frame is dropped, and the member is unchanged.
    // promise: nothing changes (err); member's refusals (refused, err)
    // promise: member's replies (took, entry)
    pub fn take(&mut self, alloc: Global, stamp: u16, checked: Checked) -> Result<Took, TakeFault>
        ensures refused { MatchOption
            (refusal self.old.genesis self.old.keys (events self.old.history) (Event.Taken checked))
            (IsOkUnless result TakeFault.Memory)
            (λ fault. answer_of_take result ≡ Err fault) }
        ensures took { IfOk result (λ took. took
            ≡ took_by self.old.genesis self.old.keys.own (events self.old.history)
            (From checked.frame.from checked.frame.body)) }
        ensures entry { IfOk result (λ took. self.new ≡ with_entry self.old
            (record { stamp = stamp; event = Event.Taken checked; reply = Reply.Took took })) }
        ensures err { OnErr result (self.new ≡ self.old) }
    {
        one_event_more();
        taken_in_order();
        lists_grow();
        sends_are_asks();
        a_channel_follows();
        settled_book_is_one();
        if !checked.is_for(&self.keys) {
            return Err(TakeFault::WrongKey);
        }
        let from = checked.from();
        let next = self.fronts.next(from);
        if checked.number() < next {
            return Err(TakeFault::Repeat(next));
        }
        if checked.number() > next {
            return Err(TakeFault::Gap(next));
        }
        self.history.reserve(1)?;
        taken_is_kept(&checked);
        let body = checked.body();
        let lie = self.ledger.lie(from, body);
        let took = self.ledger.apply(
            alloc,
            EventRef::From(from, body),
            body.owner(),
            self.keys.own(),
        )?;
        self.history.push_reserved(HistoryEntry {
            stamp,
            event: Event::Taken(checked),
            reply: Reply::Took(took),
        });
        // there are at most as many frames from one member as entries, and entries can be counted
        let entries = self.history.len();
        prove!(entries > 0);
        self.fronts.advance(from);
        note_lie(&mut self.lies, from, lie);
        Ok(took)
    }

    /// Reads and authenticates `bytes`, and accepts the frame that they are.
    ///
    /// If a frame was authenticated that is no WANT, the answer has the WANT to its sender for what
    /// is next after the call. Only a frame that is the next one can fail for lack of memory, and
    /// then the member is unchanged.
    // promise: nothing changes (err); brought bytes
    pub fn bring<T: Tagger>(
        &mut self,
        alloc: Global,
        stamp: u16,
        tagger: &T,
        bytes: &[u8],
    ) -> Result<Brought, AllocError>
        ensures outcome { IfOk result (λ brought. IsOutcome self.old.genesis self.old.keys
            (events self.old.history) bytes.now brought.outcome) }
        ensures own_key { IfOk result (λ brought. brought.outcome ≢ Outcome.WrongKey) }
        ensures want { IfOk result (λ brought. brought.want
            ≡ want_after self.old.keys (events self.new.history) bytes.now) }
        ensures entry { IfOk result (λ brought. self.new
            ≡ with_brought self.old stamp brought.outcome (opened_in self.old.keys bytes.now)) }
        ensures events { IfOk result (λ _. events self.new.history ≡ events self.old.history
            ++ option_to_list (event_in self.old.keys (events self.old.history) bytes.now)) }
        ensures memory { OnErr result
            (event_in self.old.keys (events self.old.history) bytes.now ≢ None) }
        ensures err { OnErr result (self.new ≡ self.old) }
    {
        one_frame_is();
        let frame = match read_one(bytes) {
            Ok(frame) => frame,
            Err(fault) => return Ok(Brought::at_once(Outcome::Frame(fault))),
        };
        let from = frame.from();
        let received = self.bring_frame(alloc, stamp, tagger, frame)?;
        Ok(received.with_want(tagger, self.keys(), from))
    }

    /// Does with `bytes` what `bring` does, but without the WANT, which saves its tag.
    // promise: brought bytes
    pub fn bring_unanswered<T: Tagger>(
        &mut self,
        alloc: Global,
        stamp: u16,
        tagger: &T,
        bytes: &[u8],
    ) -> Result<Outcome, AllocError>
        ensures outcome { IfOk result (IsOutcome self.old.genesis self.old.keys
            (events self.old.history) bytes.now) }
        ensures entry { IfOk result (λ outcome. self.new
            ≡ with_brought self.old stamp outcome (opened_in self.old.keys bytes.now)) }
        ensures events { IfOk result (λ _. events self.new.history ≡ events self.old.history
            ++ option_to_list (event_in self.old.keys (events self.old.history) bytes.now)) }
        ensures memory { OnErr result
            (event_in self.old.keys (events self.old.history) bytes.now ≢ None) }
        ensures err { OnErr result (self.new ≡ self.old) }
    {
        one_frame_is();
        match read_one(bytes) {
            Ok(frame) => Ok(self.bring_frame(alloc, stamp, tagger, frame)?.outcome),
            Err(fault) => Ok(Outcome::Frame(fault)),
        }
    }

    /// Accepts `owned`, a frame by itself that is for this member, as `bring_unanswered` does with
    /// its bytes. They would be authenticated, so no tag is computed.
    // promise: brought bytes
    pub fn bring_owned(
        &mut self,
        alloc: Global,
        stamp: u16,
        owned: Checked,
    ) -> Result<Outcome, AllocError>
        requires { IsFor self.old.keys owned }
        ensures outcome { IfOk result (IsOutcome self.old.genesis self.old.keys
            (events self.old.history) (bytes_of owned)) }
        ensures entry { IfOk result (λ outcome. self.new
            ≡ with_brought self.old stamp outcome (opened_in self.old.keys (bytes_of owned))) }
        ensures events { IfOk result (λ _. events self.new.history ≡ events self.old.history
            ++ option_to_list
            (event_in self.old.keys (events self.old.history) (bytes_of owned))) }
        ensures memory { OnErr result
            (event_in self.old.keys (events self.old.history) (bytes_of owned) ≢ None) }
        ensures err { OnErr result (self.new ≡ self.old) }
    {
        one_frame_is();
        laws::owned_opens_again();
        taken_is_kept(&owned);
        self.take_mine(alloc, stamp, owned)
    }

    // Returns `Ok` if `number` is the next one from the member `from`.
    fn judge(&self, from: u16, number: u64) -> Result<(), LinkFault>
        requires { from < length self.now.keys.keys }
        ensures { result ≡ turn (next from (events self.now.history)) number }
    {
        self.fronts.judge(from, number)
    }

    // Accepts a frame that was read already.
    pub(crate) fn bring_frame<T: Tagger>(
        &mut self,
        alloc: Global,
        stamp: u16,
        tagger: &T,
        frame: FrameRef<'_>,
    ) -> Result<Received, AllocError>
        ensures outcome { IfOk result (λ received. received.outcome
            ≡ outcome_to self.old.genesis self.old.keys.own (events self.old.history)
            (incoming_at self.old.keys (fields_of frame.entry))) }
        ensures want { IfOk result (λ received.
            (with_want self.old.keys (fields_of frame.entry).from received).want
            ≡ want_of stamp self.old (fields_of frame.entry)) }
        ensures peer { IfOk result (λ received. IfSome received.next (λ _.
            IsPeer self.old.keys (fields_of frame.entry).from)) }
        ensures after { OnOk result
            (self.new ≡ after_frame stamp self.old (fields_of frame.entry)) }
        ensures memory { OnErr result (option_and_then (event_of_frame (events self.old.history))
            (unless_want (judgement self.old.keys (fields_of frame.entry))) ≢ None) }
        ensures err { OnErr result (self.new ≡ self.old) }
    {
        laws::judgement_opens();
        laws::owned_opens_again();
        match open_frame(tagger, self.keys(), frame) {
            Ok(Incoming::Message(opened)) => {
                let from = opened.frame().from();
                let outcome = self.take_opened(alloc, stamp, &opened)?;
                Ok(Received {
                    outcome,
                    next: Some(self.next(from)),
                })
            }
            Ok(Incoming::Want { from, number }) => {
                Ok(Received::at_once(Outcome::Wanted { from, number }))
            }
            Err(fault) => Ok(Received::at_once(Outcome::Link(fault))),
        }
    }

    // Accepts a frame that was authenticated for this member and is no WANT. A frame that isn't the
    // next from its sender isn't owned first.
    fn take_opened(
        &mut self,
        alloc: Global,
        stamp: u16,
        opened: &Opened<'_>,
    ) -> Result<Outcome, AllocError>
        requires mine { IsFor self.old.keys (checked_fields opened.now) }
        requires kind { opened.now.frame.body.kind ≢ Kind.Want }
        ensures outcome { IfOk result (λ outcome. outcome
            ≡ answer_to self.old.genesis self.old.keys.own (events self.old.history)
            opened.now.frame) }
        ensures entry { IfOk result (λ outcome. self.new
            ≡ with_taken self.old stamp (checked_fields opened.now) outcome) }
        ensures memory { OnErr result
            (event_of_frame (events self.old.history) opened.now.frame ≢ None) }
        ensures err { OnErr result (self.new ≡ self.old) }
    {
        let frame = opened.frame();
        if let Err(fault) = self.judge(frame.from(), frame.number()) {
            return Ok(Outcome::Link(fault));
        }
        let checked = opened.own(alloc)?;
        self.take_mine(alloc, stamp, checked)
    }

    // Accepts a frame that is for this member, and returns what came of it.
    fn take_mine(
        &mut self,
        alloc: Global,
        stamp: u16,
        checked: Checked,
    ) -> Result<Outcome, AllocError>
        requires { IsFor self.old.keys checked }
        ensures outcome { IfOk result (λ outcome. outcome
            ≡ answer_to self.old.genesis self.old.keys.own (events self.old.history)
            checked.frame) }
        ensures entry { IfOk result (λ outcome.
            self.new ≡ with_taken self.old stamp checked outcome) }
        ensures memory { OnErr result
            (event_of_frame (events self.old.history) checked.frame ≢ None) }
        ensures err { OnErr result (self.new ≡ self.old) }
    {
        match self.take(alloc, stamp, checked) {
            Ok(took) => Ok(Outcome::Took(took)),
            Err(TakeFault::Repeat(next)) => Ok(Outcome::Link(LinkFault::Repeat(next))),
            Err(TakeFault::Gap(next)) => Ok(Outcome::Link(LinkFault::Gap(next))),
            Err(TakeFault::WrongKey) => Ok(Outcome::WrongKey),
            Err(TakeFault::Memory) => Err(AllocError),
        }
    }

    /// Returns the state of `account`, and records the query. Refuses an account that doesn't
    /// exist.
    // promise: nothing changes (err); member's refusals (refused, err)
    // promise: member's replies (told, entry)
    pub fn query(&mut self, _alloc: Global, stamp: u16, account: u16) -> Result<Told, QueryFault>
        ensures refused { MatchOption
            (refusal self.old.genesis self.old.keys (events self.old.history) (Event.Query account))
            (IsOkUnless result QueryFault.Memory)
            (λ fault. answer_of_query result ≡ Err fault) }
        ensures told { IfOk result (λ told. told
            ≡ told_of self.old.genesis self.old.keys.own (events self.old.history) account) }
        ensures entry { IfOk result (λ told. self.new ≡ with_entry self.old
            (record { stamp = stamp; event = Event.Query account; reply = Reply.Told told })) }
        ensures err { OnErr result (self.new ≡ self.old) }
    {
        a_channel_follows();
        settled_book_is_one();
        if account >= self.genesis.members() {
            return Err(QueryFault::NoAccount);
        }
        self.history.reserve(1)?;
        let told = Told {
            balance: self.ledger.balance(account),
            front: self.ledger.front(account),
            listed: self.ledger.list_len(account),
        };
        self.history.push_reserved(HistoryEntry {
            stamp,
            event: Event::Query(account),
            reply: Reply::Told(told),
        });
        Ok(told)
    }

    /// Hands `event` in: a submitted value, a frame or a query. A refused event is dropped, and the
    /// member is unchanged.
    // promise: order of refusals; member's replies
    pub fn hand_in(&mut self, alloc: Global, stamp: u16, event: Event) -> Result<Reply, MemberFault>
        ensures refused { MatchOption
            (refusal self.old.genesis self.old.keys (events self.old.history) event)
            (IsOkUnless result MemberFault.Memory)
            (λ fault. result ≡ Err fault) }
        ensures answer { IsAnswer self.old event result }
        ensures entry { IfOk result (λ reply. self.new ≡ with_entry self.old
            (record { stamp = stamp; event = event; reply = reply })) }
        ensures err { OnErr result (self.new ≡ self.old) }
    {
        match event {
            Event::Ask(value) => Ok(Reply::Asked(self.ask(alloc, stamp, value.into_bytes())?)),
            Event::Taken(checked) => Ok(Reply::Took(self.take(alloc, stamp, checked)?)),
            Event::Query(account) => Ok(Reply::Told(self.query(alloc, stamp, account)?)),
        }
    }

    /// Returns the genesis.
    // promise: readings
    pub fn genesis(&self) -> &Genesis
        ensures value { result.now ≡ self.now.genesis }
        ensures limits { IsGenesis self.now.genesis }
    {
        &self.genesis
    }

    /// Returns the member's own number, and the keys that it shares with its peers.
    // promise: readings
    pub fn keys(&self) -> &Keys
        ensures value { result.now ≡ self.now.keys }
        ensures limits { IsKeysOf self.now.genesis self.now.keys }
    {
        &self.keys
    }

    /// Returns the frame that `bytes` are, if this member authenticates it and it is no WANT.
    pub fn opens<'a, T: Tagger>(&self, tagger: &T, bytes: &'a [u8]) -> Option<Opened<'a>>
        ensures { option_map (λ opened. opened.frame) result ≡ opened_in self.now.keys bytes.now }
    {
        one_frame_is();
        match read_one(bytes) {
            Ok(frame) => match open_frame(tagger, self.keys(), frame) {
                Ok(Incoming::Message(opened)) => Some(opened),
                Ok(Incoming::Want { .. }) => None,
                Err(_) => None,
            },
            Err(_) => None,
        }
    }

    /// Returns all that the member accepted and replied, oldest first.
    // promise: legal history (legal); readings (value)
    pub fn history(&self) -> &[HistoryEntry]
        ensures value { result.now ≡ self.now.history }
        ensures legal { Legal self.now.genesis self.now.keys self.now.history }
    {
        self.history.as_slice()
    }

    /// Returns what can be read of the member.
    pub fn view(&self) -> MemberView<'_, I, B>
        ensures { result ≡ self.now }
    {
        MemberView {
            genesis: &self.genesis,
            keys: &self.keys,
            fronts: &self.fronts,
            lies: &self.lies,
            ledger: &self.ledger,
            history: self.history.as_slice(),
        }
    }

    /// Returns the body at `place` of all that the member sent to all.
    // promise: readings
    pub fn sent(&self, place: u64) -> Option<&Body>
        ensures { option_copied result
            ≡ slice_get (out (group_in self.now.genesis self.now.keys.own)
            (events self.now.history)) place }
    {
        self.ledger.sent(place as usize)
    }

    /// Returns the body at `place` of all that the member sent to all, in a form that copies share.
    pub fn sent_shared(&self, place: u64) -> Option<&SharedBody>
        ensures { option_copied result
            ≡ slice_get (out (group_in self.now.genesis self.now.keys.own)
            (events self.now.history)) place }
    {
        self.ledger.sent_shared(place as usize)
    }

    /// Returns how many bodies the member sent to all.
    // promise: readings
    pub fn sent_len(&self) -> u64
        ensures { result ≡ length (out (group_in self.now.genesis self.now.keys.own)
            (events self.now.history)) }
    {
        self.ledger.sent_len() as u64
    }

    /// Returns copies of the bodies that the member sent to all, from the place `from` on: at most
    /// `max`, and at most 16.
    // promise: readings
    pub fn fetch(&self, alloc: Global, from: usize, max: usize) -> Result<Vec<Body>, AllocError>
        ensures { IfOk result (λ bodies. bodies.items
            ≡ fetched_bodies self.now.genesis self.now.keys.own (events self.now.history)
            from (min max MOST_FETCHED)) }
    {
        self.view().fetch(alloc, from, max)
    }

    /// Returns the number of the next frame from `peer`.
    // promise: readings
    pub fn next(&self, peer: u16) -> u64
        requires { peer < self.now.genesis.members }
        ensures { result ≡ next peer (events self.now.history) }
    {
        self.view().next(peer)
    }

    /// Returns how many entries of `account` are settled.
    // promise: readings
    pub fn front(&self, account: u16) -> u32
        requires { account < self.now.genesis.members }
        ensures { result
            ≡ slice_index (book_after self.now.genesis self.now.keys.own
            (events self.now.history)).front account }
    {
        self.view().front(account)
    }

    /// Returns how many entries are settled of each account.
    // promise: readings
    pub fn fronts(&self, alloc: Global) -> Result<Vec<u32>, AllocError>
        ensures value { IfOk result (λ fronts. fronts.items
            ≡ (book_after self.now.genesis self.now.keys.own (events self.now.history)).front) }
        ensures few { IfOk result (λ fronts. length fronts.items ≤ MOST_MEMBERS) }
    {
        self.view().fronts(alloc)
    }

    /// Returns the balance of `account`, in the unit of the genesis's opening balances.
    // promise: readings
    pub fn balance(&self, account: u16) -> u64
        requires { account < self.now.genesis.members }
        ensures { result
            ≡ slice_index (book_after self.now.genesis self.now.keys.own
            (events self.now.history)).balances account }
    {
        self.view().balance(account)
    }

    /// Returns how far the value of `owner` with the number `seq` has come.
    // promise: readings
    pub fn state(&self, owner: u16, seq: u32) -> PaymentState
        requires { owner < self.now.genesis.members }
        ensures { result
            ≡ state_of self.now.genesis self.now.keys.own (events self.now.history) owner seq }
    {
        self.view().state(owner, seq)
    }

    /// Returns the lines of the statement of `account`.
    // promise: readings
    pub fn statement(&self, alloc: Global, account: u16) -> Result<Vec<Line>, AllocError>
        requires { account < self.now.genesis.members }
        ensures { IfOk result (λ lines. lines.items
            ≡ statement_of self.now.genesis.members
            (list_of (group_in self.now.genesis self.now.keys.own) (events self.now.history))
            (slice_index (book_after self.now.genesis self.now.keys.own
            (events self.now.history)).front) account) }
    {
        self.view().statement(alloc, account)
    }
}
