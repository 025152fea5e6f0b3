//! What a desk calls: any teller, or a member.

ghost use Rattle.std.specs.Prelude.{◌≡◌, ◌++◌, ◌≤◌, ℕ, List, length};
ghost use Rattle.pay_desk.specs.Calls.{Asks, Exchange, Queries, AsksQuestion, values_asked_by};
ghost use Rattle.pay_desk.specs.OneMember.{MemberSays, values_asked};
ghost use Rattle.pay_member.specs.declared.reading.Reading.TheVariants as reading;

use crate::fault::{ReadFault, TellerFault};
use pay_book::{Settle, Statement};
use pay_echo::Instance;
use pay_frame::{Bytes, GREATEST_VALUE};
use pay_member::question::{AllFronts, StateOf, StatementOf};
use pay_member::{AskFault, Member, PaymentState, QueryFault, Question, SettledCounts, Told};
use std::alloc::Global;

/// A teller, which a desk calls: a member, or a node that holds a member under its lock.
///
/// A call is described by its reply, and by the values that it broadcast. Nothing is said about the
/// teller's member between two calls.
pub trait Teller {
    // What a call does to a teller: the teller before, what was said, and the teller after.
    ghost says: { Self → Exchange → Self → Type 0 };

    // The values that were broadcast through it, oldest first.
    ghost asked: { Self → List (List ℕ) };

    /// Broadcasts `value`, a value of the account's own, of at most 1,024 bytes, and returns its
    /// number. The value was submitted under `id`, which the teller may note.
    // promise: tellers
    fn ask(&mut self, alloc: Global, id: u64, value: Bytes) -> Result<u32, TellerFault>
        requires { length value ≤ GREATEST_VALUE }
        ensures { Asks says self.old id value result self.new };

    /// Returns the state of `account`. The member records the query.
    // promise: tellers
    fn query(&mut self, alloc: Global, account: u16) -> Result<Told, QueryFault>
        ensures { Queries says self.old account result self.new };

    /// Returns the answer to `question`, which the member doesn't record.
    // promise: tellers
    fn read<Q: Question>(&mut self, alloc: Global, question: Q) -> Result<Q::Answer, ReadFault>
        ensures { AsksQuestion says self.old (Q.reading question) result self.new };

    /// Returns what became of the payment of `owner` with the number `seq`, if there is such an
    /// account.
    // promise: tellers
    fn state(
        &mut self,
        alloc: Global,
        owner: u16,
        seq: u32,
    ) -> Result<Option<PaymentState>, ReadFault>
        ensures { AsksQuestion says self.old (reading.State owner seq) result self.new }
    {
        self.read(alloc, StateOf { owner, seq })
    }

    /// Returns the lines of the statement of `account` and its balance, if there is such an
    /// account.
    // promise: tellers
    fn statement(&mut self, alloc: Global, account: u16) -> Result<Option<Statement>, ReadFault>
        ensures { AsksQuestion says self.old (reading.Statement account) result self.new }
    {
        self.read(alloc, StatementOf(account))
    }

    /// Returns how many entries of each account are settled.
    // promise: tellers
    fn fronts(&mut self, alloc: Global) -> Result<SettledCounts, ReadFault>
        ensures { AsksQuestion says self.old reading.Fronts result self.new }
    {
        self.read(alloc, AllFronts)
    }

    // Nothing is broadcast except what is submitted and gets a number.
    ghost only_asks: { (old new : Self) (said : Exchange)
        → says old said new → asked new ≡ asked old ++ values_asked_by said };
}

/// A member as a teller, which puts a stamp on what is submitted.
#[derive(Drop)]
pub struct OneMember<I: Instance + Drop, B: Settle + Drop> {
    pub member: Member<I, B>,
    pub stamp: u16,
}

impl<I: Instance + Drop, B: Settle + Drop> Teller for OneMember<I, B> {
    ghost says = { λ old said new.
        MemberSays old.stamp old.member said new.member × (new.stamp ≡ old.stamp) };

    ghost asked = { λ m. values_asked m.member.history };

    #[tactic(auto, unfolding(crate::specs::OneMember::number_of_next))]
    fn ask(&mut self, alloc: Global, _id: u64, value: Bytes) -> Result<u32, TellerFault> {
        match self.member.ask(alloc, self.stamp, value) {
            Ok(seq) => Ok(seq),
            Err(AskFault::Spent) => Err(TellerFault::Spent),
            Err(AskFault::Memory) => Err(TellerFault::Memory),
            // the call requires that the value is short enough
            Err(AskFault::TooLong) => unreachable!(),
        }
    }

    #[tactic(auto, unfolding(crate::specs::OneMember::state_told))]
    fn query(&mut self, alloc: Global, account: u16) -> Result<Told, QueryFault> {
        self.member.query(alloc, self.stamp, account)
    }

    fn read<Q: Question>(&mut self, alloc: Global, question: Q) -> Result<Q::Answer, ReadFault> {
        Ok(question.ask(alloc, &self.member.view())?)
    }

    ghost use Rattle.pay_desk.specs.MemberAsks.{member_asks};

    ghost only_asks = { λ old new said says.
        member_asks old.stamp old.member new.member said says.0 };
}
