ghost use Rattle.std.specs.Prelude.{◌≡◌, ◌↔◌, ◌<◌, ◌≤◌, ◌&&◌, nat_lt, min, length, slice_get};
ghost use Rattle.std.specs.Prelude.{slice_index, false, Some, IfOk, IsTrue};
ghost use Rattle.std.specs.Option.{option_copied};
ghost use Rattle.pay_book.specs.Statement.{statement_of};
ghost use Rattle.pay_channel.specs.History.{list_of, out};
ghost use Rattle.pay_channel.specs.Taken.{next};
ghost use Rattle.pay_frame.specs.declared.limits.TheConstants.{MOST_MEMBERS};
ghost use Rattle.pay_link.specs.Genesis.{IsGenesis};
ghost use Rattle.pay_member.specs.Book.{book_after};
ghost use Rattle.pay_member.specs.Events.{events};
ghost use Rattle.pay_member.specs.Group.{group_in};
ghost use Rattle.pay_member.specs.Lies.{IsFound};
ghost use Rattle.pay_member.specs.Reading.{entries_shown, fetched_bodies, state_of, values_known};
ghost use Rattle.pay_member.specs.Reading.{waiting_shown};
ghost use Rattle.pay_member.specs.Remembering.{HasForgotten, Remembers};

use crate::event::HistoryEntry;
use crate::ledger::{KnownValues, Ledger, Lie};
use crate::member::MOST_FETCHED;
use crate::question::PaymentState;
use pay_book::laws::settled_book_is_one;
use pay_book::{Excerpt, Line, Settle};
use pay_channel::laws::{a_channel_follows, sends_are_asks};
use pay_echo::Instance;
use pay_frame::Body;
use pay_link::{Fronts, Genesis, Keys};
use std::alloc::{AllocError, Global};
use std::marker::Model;

/// What can be read of a member without an entry in its history, now or after some of its entries.
/// Contracts see it as the member that it was then.
#[derive(Drop)]
pub struct MemberView<'a, I: Instance + Drop, B: Settle + Drop> {
    pub(crate) genesis: &'a Genesis,
    pub(crate) keys: &'a Keys,
    pub(crate) fronts: &'a Fronts,
    pub(crate) lies: &'a Vec<Option<Lie>>,
    pub(crate) ledger: &'a Ledger<I, B>,
    pub(crate) history: &'a [HistoryEntry],
}

impl<'a, I: Instance + Drop, B: Settle + Drop> Model for MemberView<'a, I, B> {
    ghost use Rattle.pay_member.specs.Member.{MemberFields, IsMember};

    ghost Value = { MemberFields };

    ghost view = { λ v.
        record { genesis = v.genesis.now; keys = v.keys.now; history = v.history.now } };

    ghost invariant = { λ v. IsMember
        (record { genesis = v.genesis.now; keys = v.keys.now; history = v.history.now })
        v.ledger.now v.fronts.now v.lies.now.items };
}

impl<'a, I: Instance + Drop, B: Settle + Drop> MemberView<'a, I, B> {
    /// Returns the genesis.
    pub fn genesis(&self) -> &'a Genesis
        ensures value { result.now ≡ self.now.genesis }
        ensures limits { IsGenesis self.now.genesis }
    {
        self.genesis
    }

    /// Returns the body at `place` of all that the member sent to all.
    pub fn sent(&self, place: u64) -> Option<&'a Body>
        ensures { option_copied result
            ≡ slice_get (out (group_in self.now.genesis self.now.keys.own)
            (events self.now.history)) place }
    {
        self.ledger.sent(place as usize)
    }

    /// Returns copies of the bodies that the member sent to all, from the place `from` on: at most
    /// `max`, and at most 16.
    pub fn fetch(&self, alloc: Global, from: usize, max: usize) -> Result<Vec<Body>, AllocError>
        ensures { IfOk result (λ bodies. bodies.items
            ≡ fetched_bodies self.now.genesis self.now.keys.own (events self.now.history)
            from (min max MOST_FETCHED)) }
    {
        self.ledger.fetch(alloc, from, max.min(MOST_FETCHED))
    }

    /// Returns whether the member has lost state: its own list had a value under a number under
    /// which this value wasn't submitted. Each value is tested once, when it is listed.
    // promise: readings (evidence, remembers); forgetting
    pub fn has_forgotten(&self) -> bool
        ensures evidence { IsTrue result
            ↔ HasForgotten (group_in self.now.genesis self.now.keys.own)
            (events self.now.history) }
        ensures remembers { (result ≡ false)
            ↔ Remembers (group_in self.now.genesis self.now.keys.own) (events self.now.history) }
    {
        self.ledger.has_forgotten()
    }

    /// Returns the number of the next frame from `peer`.
    pub fn next(&self, peer: u16) -> u64
        requires { peer < self.now.genesis.members }
        ensures { result ≡ next peer (events self.now.history) }
    {
        self.fronts.next(peer)
    }

    /// Returns the last protocol violation of `peer`, if there is one: what no correct member says.
    // promise: lies
    pub fn lie(&self, peer: u16) -> Option<Lie>
        requires { peer < self.now.genesis.members }
        ensures { IsFound (events self.now.history) peer result }
    {
        self.lies[usize::from(peer)]
    }

    /// Returns how many entries of `account` are settled.
    pub fn front(&self, account: u16) -> u32
        requires { account < self.now.genesis.members }
        ensures { result
            ≡ slice_index (book_after self.now.genesis self.now.keys.own
            (events self.now.history)).front account }
    {
        a_channel_follows();
        settled_book_is_one();
        self.ledger.front(account)
    }

    /// Returns how many entries are settled of each account.
    pub fn fronts(&self, alloc: Global) -> Result<Vec<u32>, AllocError>
        ensures value { IfOk result (λ fronts. fronts.items
            ≡ (book_after self.now.genesis self.now.keys.own (events self.now.history)).front) }
        ensures few { IfOk result (λ fronts. length fronts.items ≤ MOST_MEMBERS) }
    {
        a_channel_follows();
        settled_book_is_one();
        self.ledger.fronts(alloc, self.genesis.members())
    }

    /// Returns the balance of `account`, in the unit of the genesis's opening balances.
    pub fn balance(&self, account: u16) -> u64
        requires { account < self.now.genesis.members }
        ensures { result
            ≡ slice_index (book_after self.now.genesis self.now.keys.own
            (events self.now.history)).balances account }
    {
        a_channel_follows();
        settled_book_is_one();
        self.ledger.balance(account)
    }

    /// Returns how far the value of `owner` with the number `seq` has come.
    pub fn state(&self, owner: u16, seq: u32) -> PaymentState
        requires { owner < self.now.genesis.members }
        ensures { result
            ≡ state_of self.now.genesis self.now.keys.own (events self.now.history) owner seq }
    {
        a_channel_follows();
        settled_book_is_one();
        if seq < self.ledger.place(owner).0 {
            PaymentState::Settled
        } else if seq < self.ledger.list_len(owner) {
            PaymentState::Waiting
        } else if is_used(owner == self.keys.own(), seq, self.ledger.asks()) {
            PaymentState::Asked
        } else {
            PaymentState::Unknown
        }
    }

    /// Returns the lines of the statement of `account`.
    pub fn statement(&self, alloc: Global, account: u16) -> Result<Vec<Line>, AllocError>
        requires { account < self.now.genesis.members }
        ensures { IfOk result (λ lines. lines.items
            ≡ statement_of self.now.genesis.members
            (list_of (group_in self.now.genesis self.now.keys.own) (events self.now.history))
            (slice_index (book_after self.now.genesis self.now.keys.own
            (events self.now.history)).front) account) }
    {
        a_channel_follows();
        settled_book_is_one();
        self.ledger
            .statement(alloc, self.genesis.members(), account)
    }

    /// Returns what settled of `account` from the entry `from` on: at most 1,000 entries.
    pub fn entries(&self, alloc: Global, account: u16, from: u64) -> Result<Excerpt, AllocError>
        requires { account < self.now.genesis.members }
        ensures { IfOk result (λ excerpt. excerpt ≡ entries_shown self.now.genesis
            self.now.keys.own (events self.now.history) account from) }
    {
        a_channel_follows();
        settled_book_is_one();
        self.ledger
            .entries(alloc, self.genesis.members(), account, from)
    }

    /// Returns what is known of `account` and isn't settled: the first 1,000 entries.
    pub fn waiting(&self, alloc: Global, account: u16) -> Result<Excerpt, AllocError>
        requires { account < self.now.genesis.members }
        ensures { IfOk result (λ excerpt. excerpt ≡ waiting_shown self.now.genesis
            self.now.keys.own (events self.now.history) account) }
    {
        a_channel_follows();
        settled_book_is_one();
        let known = KnownValues { view: self };
        self.ledger
            .waiting(alloc, &known, self.genesis.members(), account)
    }

    // Returns how many values of `account` are known.
    pub(crate) fn known_count(&self, account: u16) -> u32
        ensures { result ≡ length (values_known self.now.genesis self.now.keys.own
            (events self.now.history) account) }
    {
        a_channel_follows();
        sends_are_asks();
        let listed = self.ledger.list_len(account);
        if account == self.keys.own() {
            listed.max(self.ledger.asks())
        } else {
            listed
        }
    }

    // Returns the known value of `account` with the number `seq`.
    pub(crate) fn known_value(&self, account: u16, seq: u32) -> &'a [u8]
        requires { seq < length (values_known self.now.genesis self.now.keys.own
            (events self.now.history) account) }
        ensures { slice_get (values_known self.now.genesis self.now.keys.own
            (events self.now.history) account) seq ≡ Some result.now }
    {
        a_channel_follows();
        sends_are_asks();
        if seq < self.ledger.list_len(account) {
            self.ledger.value(account, seq)
        } else {
            self.ledger.echoed(account, seq).unwrap()
        }
    }
}

// Returns whether a number of the member's own account was used.
fn is_used(is_own: bool, seq: u32, asks: u32) -> bool
    ensures { result ≡ (is_own && nat_lt seq asks) }
{
    is_own && seq < asks
}
