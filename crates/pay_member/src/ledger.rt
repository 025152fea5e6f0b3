//! A member's channel and ledger, which its events move, and the protocol violations that it
//! notices.

ghost use Rattle.std.specs.Prelude.{◌≡◌, ◌<◌, length, IfSome, true, false, ◌≤◌, ◌↔◌, [], drop};
ghost use Rattle.std.specs.Prelude.{take, slice_get, slice_index, IfOk, OnErr, IsTrue};
ghost use Rattle.std.specs.Bool.{then_some};
ghost use Rattle.std.specs.Option.{option_copied};
ghost use Rattle.pay_book.specs.Excerpt.{settled_excerpt, waiting_excerpt};
ghost use Rattle.pay_book.specs.Front.{AllGrow};
ghost use Rattle.pay_book.specs.Places.{place_of};
ghost use Rattle.pay_book.specs.Statement.{statement_of};
ghost use Rattle.pay_channel.specs.Applied.{event_of_ref};
ghost use Rattle.pay_channel.specs.History.{list_of, From, IsEvent, is_ask, owner_of, seqs};
ghost use Rattle.pay_channel.specs.Lies.{is_lie_to};
ghost use Rattle.pay_channel.specs.State.{channel_lists, meaning_at};
ghost use Rattle.pay_frame.specs.declared.limits.TheConstants.{MOST_MEMBERS};
ghost use Rattle.pay_link.specs.Keys.{IsPeer};
ghost use Rattle.pay_member.specs.Bringing.{answered_at_once, with_want};
ghost use Rattle.pay_member.specs.Events.{events};
ghost use Rattle.pay_member.specs.Group.{group_in};
ghost use Rattle.pay_member.specs.Ledger.{Tracks, IsSameLedger, Grows, IsListedAsEchoed, IsNoticed};
ghost use Rattle.pay_member.specs.Lies.{lie_of, with_lie};
ghost use Rattle.pay_member.specs.Reading.{values_known};

use crate::bringing::{Brought, Outcome};
use crate::event::Took;
use crate::member::Member;
use crate::view::MemberView;
use pay_book::laws::{
    book_stays, fresh_book_is_settled, group_lists_are_countable, grown_list_can_settle,
    same_lists_stay_settled,
};
use pay_book::{Excerpt, Line, Settle, settled_excerpt, statement, waiting_excerpt};
use pay_channel::laws::{a_channel_follows, lists_of_a_channel, nothing_at_first};
use pay_channel::{Channel, EventRef, Source};
use pay_echo::Instance;
use pay_frame::{Body, Kind, SharedBody};
use pay_hmac::Tagger;
use pay_link::{Genesis, Keys, want};
use std::alloc::{AllocError, Global};
use std::marker::Model;

/// The values that a member knows of each account: those of its list and, for its own account, the
/// submitted values that aren't listed yet.
#[derive(Drop)]
pub(crate) struct KnownValues<'v, 'a, I: Instance + Drop, B: Settle + Drop> {
    pub(crate) view: &'v MemberView<'a, I, B>,
}

impl<I: Instance + Drop, B: Settle + Drop> Source for KnownValues<'_, '_, I, B> {
    ghost lists = { λ known. values_known known.view.now.genesis known.view.now.keys.own
        (events known.view.now.history) };

    fn length(&self, owner: u16) -> u32 {
        self.view.known_count(owner)
    }

    fn at(&self, owner: u16, k: u32) -> &[u8] {
        self.view.known_value(owner, k)
    }
}

/// What a member sent that no correct member sends: a SEND about another's account, or a second
/// SEND, ECHO or READY about one broadcast.
#[derive(Clone, Copy, Debug, PartialEq, Eq)]
pub struct Lie {
    /// The kind of the message.
    pub kind: Kind,
    /// The account that the broadcast is about.
    pub owner: u16,
    /// The broadcast's number.
    pub seq: u32,
}

impl Lie {
    /// Returns the protocol violation that `body` is.
    pub(crate) fn of(body: &Body) -> Lie
        ensures { result ≡ lie_of body.now }
    {
        Lie {
            kind: body.kind(),
            owner: body.owner(),
            seq: body.seq(),
        }
    }
}

/// Notes a protocol violation of `member`, if there is one.
pub(crate) fn note_lie(lies: &mut Vec<Option<Lie>>, member: u16, lie: Option<Lie>)
    requires { member < length lies.old.items }
    ensures { lies.new.items ≡ with_lie member lie lies.old.items }
{
    if lie.is_some() {
        lies[usize::from(member)] = lie;
    }
}

impl<I: Instance + Drop, B: Settle + Drop> Source for Member<I, B> {
    ghost lists = { λ m. list_of (group_in m.genesis m.keys.own) (events m.history) };

    fn length(&self, owner: u16) -> u32 {
        a_channel_follows();
        self.ledger.list_len(owner)
    }

    fn at(&self, owner: u16, k: u32) -> &[u8] {
        a_channel_follows();
        self.ledger.value(owner, k)
    }
}

/// The answer to a frame that was received.
#[derive(Clone, Copy, Debug, PartialEq, Eq)]
pub struct Received {
    /// What came of the frame.
    pub outcome: Outcome,
    /// The number that is next from the sender after the call, if the frame was authenticated and
    /// is no WANT.
    pub next: Option<u64>,
}

impl Received {
    /// Returns the answer with this `outcome` if nothing was handed to the member.
    pub fn at_once(outcome: Outcome) -> Received
        ensures { result ≡ answered_at_once outcome }
    {
        Received {
            outcome,
            next: None,
        }
    }
    /// Returns the answer with the WANT to the sender `from` for the number that is next, if there
    /// is one.
    pub fn with_want<T: Tagger>(self, tagger: &T, keys: &Keys, from: u16) -> Brought
        requires { IfSome self.next (λ _. IsPeer keys.now from) }
        ensures { result ≡ with_want keys.now from self }
    {
        Brought {
            outcome: self.outcome,
            want: match self.next {
                Some(next) => Some(want(tagger, keys, from, next)),
                None => None,
            },
        }
    }
}

/// A member's channel, the ledger of its lists with all that they allow settled, and whether its
/// own list ever had a value that wasn't submitted. It stands apart so that the member's own proofs
/// never speak of settling.
#[derive(Drop)]
pub struct Ledger<I: Instance + Drop, B: Settle + Drop> {
    channel: Channel<I>,
    book: B,
    has_forgotten: bool,
}

impl<I: Instance + Drop, B: Settle + Drop> Model for Ledger<I, B> {
    ghost use Rattle.pay_member.specs.Ledger.{LedgerFields, IsLedger};

    ghost Value = { LedgerFields };

    ghost view = { λ l.
        record { channel = l.channel; book = B.shows l.book; has_forgotten = l.has_forgotten } };

    ghost invariant = { λ l. IsLedger (record {
      channel = l.channel;
      book = B.shows l.book;
      has_forgotten = l.has_forgotten;
    }) };
}

impl<I: Instance + Drop, B: Settle + Drop> Ledger<I, B> {
    /// Creates the ledger of the member `own` without events.
    pub fn new(alloc: Global, genesis: &Genesis, own: u16) -> Result<Ledger<I, B>, AllocError>
        requires own { own < genesis.now.members }
        ensures tracks { IfOk result (λ ledger. Tracks genesis.now own [] ledger) }
        ensures fresh { IfOk result (λ ledger. ledger.has_forgotten ≡ false) }
    {
        nothing_at_first();
        a_channel_follows();
        fresh_book_is_settled();
        let channel = Channel::new(alloc, genesis.members(), genesis.faults(), own)?;
        let book = B::new(alloc, genesis)?;
        Ok(Ledger {
            channel,
            book,
            has_forgotten: false,
        })
    }

    /// Returns how many values of its own the member broadcast.
    pub fn asks(&self) -> u32
        ensures { result ≡ self.now.channel.asks }
    {
        self.channel.asks()
    }

    /// Applies `event` of `owner`, settles what it lets settle, and looks at each value by which
    /// the list of the member `own` grew. A lack of memory is reported before the first change.
    pub fn apply(
        &mut self,
        alloc: Global,
        event: EventRef,
        owner: u16,
        own: u16,
    ) -> Result<Took, AllocError>
        requires event { IsEvent self.old.channel.group (event_of_ref event) }
        requires number { is_ask (event_of_ref event) ≡ true → self.old.channel.asks < seqs }
        requires owner { owner ≡ owner_of self.old.channel.group.own (event_of_ref event) }
        requires member { owner < self.old.channel.group.members }
        requires own { own ≡ self.old.channel.group.own }
        ensures grows { IfOk result (Grows self.old self.new (event_of_ref event.entry)) }
        ensures err { OnErr result (IsSameLedger self.old self.new) }
    {
        lists_of_a_channel();
        group_lists_are_countable();
        grown_list_can_settle();
        same_lists_stay_settled();
        let from = self.channel.in_order(own);
        let applied = self.channel.apply(alloc, event)?;
        let settled = self.book.settle(&self.channel, owner);
        self.has_forgotten = has_noticed(&self.channel, own, from, self.has_forgotten);
        Ok(Took {
            echo: applied.echo,
            ready: applied.ready,
            deliver: applied.deliver,
            settled,
        })
    }

    /// Returns whether the member's own list ever had a value that wasn't submitted.
    pub fn has_forgotten(&self) -> bool
        ensures { result ≡ self.now.has_forgotten }
    {
        self.has_forgotten
    }

    /// Returns the protocol violation that `body` of another member is, if it is one.
    pub fn lie(&self, process: u16, body: &Body) -> Option<Lie>
        requires { IsEvent self.now.channel.group (From process body.now) }
        ensures { result
            ≡ then_some (is_lie_to self.now.channel process body.now) (lie_of body.now) }
    {
        self.channel.is_lie(process, body).then_some(Lie::of(body))
    }

    /// Returns the body at `place` of all that the member sent to all.
    pub fn sent(&self, place: usize) -> Option<&Body>
        ensures { option_copied result ≡ slice_get self.now.channel.sent place }
    {
        self.channel.sent(place)
    }

    /// Returns the body at `place` of all that the member sent to all, in a form that copies share.
    pub fn sent_shared(&self, place: usize) -> Option<&SharedBody>
        ensures { option_copied result ≡ slice_get self.now.channel.sent place }
    {
        self.channel.sent_shared(place)
    }

    /// Returns how many bodies the member sent to all.
    pub fn sent_len(&self) -> usize
        ensures { result ≡ length self.now.channel.sent }
    {
        self.channel.sent_len()
    }

    /// Returns copies of up to `most` bodies that the member sent to all, from the place `from` on.
    pub fn fetch(&self, alloc: Global, from: usize, most: usize) -> Result<Vec<Body>, AllocError>
        ensures { IfOk result (λ bodies. bodies.items
            ≡ take most (drop from self.now.channel.sent)) }
    {
        let left = self.channel.sent_len().saturating_sub(from);
        let mut bodies = Vec::new(alloc);
        for k in 0..left.min(most) {
            if let Some(body) = self.channel.sent(from + k) {
                bodies.push(body.copy(alloc)?)?;
            }
        }
        Ok(bodies)
    }

    /// Returns how many values the list of `account` has.
    pub fn list_len(&self, account: u16) -> u32
        ensures { result ≡ length (channel_lists self.now.channel account) }
    {
        self.channel.in_order(account)
    }

    /// Returns the value at `place` of the list of `account`.
    pub fn value(&self, account: u16, place: u32) -> &[u8]
        requires { place < length (channel_lists self.now.channel account) }
        ensures { slice_get (channel_lists self.now.channel account) place ≡ Some result.now }
    {
        self.channel.at(account, place)
    }

    /// Returns how many entries of `account` are settled.
    pub fn front(&self, account: u16) -> u32
        requires { account < length self.now.book.opening }
        ensures { result ≡ slice_index self.now.book.front account }
    {
        self.book.front(account)
    }

    /// Returns how many values of `account` are wholly settled, and how many entries of its next
    /// value.
    pub fn place(&self, account: u16) -> (u32, u8)
        requires { account < length self.now.book.opening }
        ensures { result ≡ place_of self.now.book.places account }
    {
        self.book.place(account)
    }

    /// Returns how many entries of each of the `accounts` accounts are settled.
    pub fn fronts(&self, alloc: Global, accounts: u16) -> Result<Vec<u32>, AllocError>
        requires { accounts ≡ length self.now.book.opening }
        ensures value { IfOk result (λ fronts. fronts.items ≡ self.now.book.front) }
        ensures few { IfOk result (λ fronts. length fronts.items ≤ MOST_MEMBERS) }
    {
        let mut fronts = Vec::new(alloc);
        for account in 0..accounts {
            fronts.push(self.book.front(account))?;
        }
        Ok(fronts)
    }

    /// Returns the balance of `account`, in the unit of the genesis's opening balances.
    pub fn balance(&self, account: u16) -> u64
        requires { account < length self.now.book.opening }
        ensures { result ≡ slice_index self.now.book.balances account }
    {
        self.book.balance(account)
    }

    /// Returns the lines of the statement of `account`.
    pub fn statement(
        &self,
        alloc: Global,
        accounts: u16,
        account: u16,
    ) -> Result<Vec<Line>, AllocError>
        requires accounts { accounts ≡ length self.now.book.opening }
        requires account { account < accounts }
        ensures { IfOk result (λ lines. lines.items
            ≡ statement_of accounts (channel_lists self.now.channel)
            (slice_index self.now.book.front) account) }
    {
        statement(alloc, &self.channel, &self.book, accounts, account)
    }
    /// Returns what settled of `account` from the entry `from` on.
    pub fn entries(
        &self,
        alloc: Global,
        accounts: u16,
        account: u16,
        from: u64,
    ) -> Result<Excerpt, AllocError>
        requires accounts { accounts ≡ length self.now.book.opening }
        requires account { account < accounts }
        ensures { IfOk result (λ excerpt. excerpt
            ≡ settled_excerpt self.now.book (channel_lists self.now.channel) account from) }
    {
        settled_excerpt(alloc, &self.channel, &self.book, accounts, account, from)
    }

    /// Returns what isn't settled of `account`, according to lists that begin with those of the
    /// channel.
    pub fn waiting<S: Source>(
        &self,
        alloc: Global,
        source: &S,
        accounts: u16,
        account: u16,
    ) -> Result<Excerpt, AllocError>
        requires grown { AllGrow (length self.now.book.opening) (channel_lists self.now.channel)
            (S.lists source.now) }
        requires accounts { accounts ≡ length self.now.book.opening }
        requires account { account < accounts }
        ensures { IfOk result (λ excerpt. excerpt
            ≡ waiting_excerpt self.now.book (S.lists source.now) account) }
    {
        book_stays();
        waiting_excerpt(alloc, source, &self.book, accounts, account)
    }

    /// Returns the value echoed in the broadcast `seq` of `owner`. In the member's own broadcasts
    /// it is the submitted value.
    pub fn echoed(&self, owner: u16, seq: u32) -> Option<&[u8]>
        ensures { option_copied result ≡ (meaning_at self.now.channel owner seq).echoed }
    {
        self.channel.echoed(owner, seq)
    }
}

// Returns whether a value of an account's list isn't the one echoed. It was known `before`, or a
// value from the place `from` on isn't.
fn has_noticed<I: Instance + Drop>(
    channel: &Channel<I>,
    account: u16,
    from: u32,
    before: bool,
) -> bool
    ensures { IsNoticed channel.now account from before result }
{
    if before {
        return true;
    }
    for seq in from..channel.in_order(account) {
        if !is_listed_as_echoed(channel, account, seq) {
            return true;
        }
    }
    false
}

// Returns whether the value at a place of an account's list is the one echoed in that broadcast.
fn is_listed_as_echoed<I: Instance + Drop>(channel: &Channel<I>, account: u16, seq: u32) -> bool
    requires { seq < length (channel_lists channel.now account) }
    ensures { IsTrue result ↔ IsListedAsEchoed channel.now account seq }
{
    match channel.echoed(account, seq) {
        Some(value) => value == channel.at(account, seq),
        None => false,
    }
}
