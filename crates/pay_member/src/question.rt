//! What can be read of a member without an entry in its history.

ghost use Rattle.std.specs.Prelude.{◌≡◌, ◌↔◌, IfOk, IsTrue, Option, [], ◌∷◌};
ghost use Rattle.pay_member.specs.Member.{MemberFields};
ghost use Rattle.pay_member.specs.Questions.{Shows, account_told};
ghost use Rattle.pay_member.specs.declared.reading.Reading.{Reading};
ghost use Rattle.pay_member.specs.declared.reading.Reading.TheVariants.{Sent};
ghost use Rattle.pay_member.specs.declared.reading.Reading.TheVariants as reading;

use crate::ledger::Lie;
use crate::reading::{Bodies, Reading, SettledCounts};
use crate::same::{are_same_bodies, is_alone, is_same_excerpt, is_same_statement};
use crate::view::MemberView;
use pay_book::{Excerpt, Settle, Statement};
use pay_echo::Instance;
use pay_frame::Body;
use std::alloc::{AllocError, Global};

/// The progress of a payment at a member.
#[derive(Clone, Copy, Debug, PartialEq, Eq)]
pub enum PaymentState {
    /// Nothing is known of the payment.
    Unknown,
    /// The member itself submitted the payment, and has not delivered it in order yet.
    Asked,
    /// The payment is delivered in order, and waits for money or for the payments before it.
    Waiting,
    /// All entries of the payment's value are settled.
    Settled,
}

/// A question to a member. Each question has its own type of answers.
pub trait Question: Copy {
    type Answer: Drop;

    // The reading of the question with an answer.
    ghost reading: { Self → Self.Answer → Reading };

    /// Returns the member's answer. The member is unchanged.
    // promise: readings
    fn ask<I: Instance + Drop, B: Settle + Drop>(
        self,
        alloc: Global,
        view: &MemberView<'_, I, B>,
    ) -> Result<Self::Answer, AllocError>
        ensures { IfOk result (λ answer. Shows view.now (reading self answer)) };

    /// Returns the question with a copy of `answer`.
    fn to_reading(self, alloc: Global, answer: &Self::Answer) -> Result<Reading, AllocError>
        ensures { IfOk result (λ copy. copy ≡ reading self answer.now) };

    /// Returns whether `other` is this question with this `answer`.
    fn is_reading(self, answer: &Self::Answer, other: &Reading) -> bool
        ensures { IsTrue result ↔ (other.now ≡ reading self answer.now) };

    /// Returns whether this is the question for the body at `number`, and `body` alone is the
    /// answer.
    fn is_of_body(self, answer: &Self::Answer, number: usize, body: &Body) -> bool
        ensures { IsTrue result
            ↔ (reading self answer.now ≡ Sent number 1 (body.now ∷ [])) };

    /// Returns the account, if there is one, with payments that an answer reports one by one.
    fn account_told(self) -> Option<u16>
        ensures { (answer : Self.Answer) → account_told (reading self answer) ≡ result };

    // A member has one answer.
    ghost one_answer: { (question : Self) (m : MemberFields) (one other : Self.Answer)
        → Shows m (reading question one) → Shows m (reading question other) → one ≡ other };
}

/// A question for the bodies that the member sent to all, from a place on: at most `max`, and at
/// most 16.
#[derive(Clone, Copy, Debug, PartialEq, Eq)]
pub struct SentFrom {
    pub from: usize,
    pub max: usize,
}

impl Question for SentFrom {
    ghost use Rattle.std.proofs.Common.{sym, ◌∙◌};

    type Answer = Bodies;

    ghost reading = { λ q bodies. reading.Sent q.from q.max bodies };

    fn ask<I: Instance + Drop, B: Settle + Drop>(
        self,
        alloc: Global,
        view: &MemberView<'_, I, B>,
    ) -> Result<Bodies, AllocError> {
        Ok(Bodies::new(view.fetch(alloc, self.from, self.max)?))
    }

    fn to_reading(self, alloc: Global, bodies: &Bodies) -> Result<Reading, AllocError> {
        let SentFrom { from, max } = self;
        let bodies = bodies.copy(alloc)?;
        Ok(Reading::Sent { from, max, bodies })
    }

    fn is_reading(self, answer: &Bodies, other: &Reading) -> bool {
        match other {
            Reading::Sent { from, max, bodies } => {
                *from == self.from
                    && *max == self.max
                    && are_same_bodies(bodies.as_slice(), answer.as_slice())
            }
            _ => false,
        }
    }

    fn is_of_body(self, answer: &Bodies, number: usize, body: &Body) -> bool {
        self.from == number && self.max == 1 && is_alone(answer.as_slice(), body)
    }

    fn account_told(self) -> Option<u16> {
        None
    }

    ghost one_answer = { λ q m one other is also. is ∙ sym also };
}

/// A question for how far the payment under a number of an account has come.
#[derive(Clone, Copy, Debug, PartialEq, Eq)]
pub struct StateOf {
    pub owner: u16,
    pub seq: u32,
}

impl Question for StateOf {
    ghost use Rattle.std.proofs.Common.{sym, ◌∙◌};

    type Answer = Option<PaymentState>;

    ghost reading = { λ q state. reading.State q.owner q.seq state };

    fn ask<I: Instance + Drop, B: Settle + Drop>(
        self,
        _alloc: Global,
        view: &MemberView<'_, I, B>,
    ) -> Result<Option<PaymentState>, AllocError> {
        if self.owner >= view.genesis().members() {
            return Ok(None);
        }
        Ok(Some(view.state(self.owner, self.seq)))
    }

    fn to_reading(
        self,
        _alloc: Global,
        state: &Option<PaymentState>,
    ) -> Result<Reading, AllocError> {
        let StateOf { owner, seq } = self;
        let state = *state;
        Ok(Reading::State { owner, seq, state })
    }

    fn is_reading(self, answer: &Option<PaymentState>, other: &Reading) -> bool {
        match other {
            Reading::State { owner, seq, state } => {
                *owner == self.owner && *seq == self.seq && state == answer
            }
            _ => false,
        }
    }

    fn is_of_body(self, _answer: &Option<PaymentState>, _number: usize, _body: &Body) -> bool {
        false
    }

    fn account_told(self) -> Option<u16> {
        Some(self.owner)
    }

    ghost one_answer = { λ q m one other is also. is ∙ sym also };
}

/// A question for the lines of an account's statement, and its balance.
#[derive(Clone, Copy, Debug, PartialEq, Eq)]
pub struct StatementOf(pub u16);

impl Question for StatementOf {
    ghost use Rattle.std.proofs.Common.{sym, ◌∙◌};

    type Answer = Option<Statement>;

    ghost reading = { λ q statement. reading.Statement q.0 statement };

    fn ask<I: Instance + Drop, B: Settle + Drop>(
        self,
        alloc: Global,
        view: &MemberView<'_, I, B>,
    ) -> Result<Option<Statement>, AllocError> {
        if self.0 >= view.genesis().members() {
            return Ok(None);
        }
        let lines = view.statement(alloc, self.0)?;
        Ok(Some(Statement::new(lines, view.balance(self.0))))
    }

    fn to_reading(
        self,
        alloc: Global,
        statement: &Option<Statement>,
    ) -> Result<Reading, AllocError> {
        let statement = match statement {
            Some(statement) => Some(statement.copy(alloc)?),
            None => None,
        };
        Ok(Reading::Statement {
            account: self.0,
            statement,
        })
    }

    fn is_reading(self, answer: &Option<Statement>, other: &Reading) -> bool {
        match other {
            Reading::Statement { account, statement } => {
                *account == self.0 && is_same_statement(statement, answer)
            }
            _ => false,
        }
    }

    fn is_of_body(self, _answer: &Option<Statement>, _number: usize, _body: &Body) -> bool {
        false
    }

    fn account_told(self) -> Option<u16> {
        None
    }

    ghost one_answer = { λ q m one other is also. is ∙ sym also };
}

/// A question for what settled of an account from a number on: at most 1,000 entries.
#[derive(Clone, Copy, Debug, PartialEq, Eq)]
pub struct EntriesOf {
    pub account: u16,
    pub from: u64,
}

impl Question for EntriesOf {
    ghost use Rattle.std.proofs.Common.{sym, ◌∙◌};

    type Answer = Option<Excerpt>;

    ghost reading = { λ q excerpt. reading.Entries q.account q.from excerpt };

    fn ask<I: Instance + Drop, B: Settle + Drop>(
        self,
        alloc: Global,
        view: &MemberView<'_, I, B>,
    ) -> Result<Option<Excerpt>, AllocError> {
        if self.account >= view.genesis().members() {
            return Ok(None);
        }
        Ok(Some(view.entries(alloc, self.account, self.from)?))
    }

    fn to_reading(self, alloc: Global, excerpt: &Option<Excerpt>) -> Result<Reading, AllocError> {
        let EntriesOf { account, from } = self;
        let excerpt = copy_of(alloc, excerpt)?;
        Ok(Reading::Entries {
            account,
            from,
            excerpt,
        })
    }

    fn is_reading(self, answer: &Option<Excerpt>, other: &Reading) -> bool {
        match other {
            Reading::Entries {
                account,
                from,
                excerpt,
            } => {
                *account == self.account && *from == self.from && is_same_excerpt(excerpt, answer)
            }
            _ => false,
        }
    }

    fn is_of_body(self, _answer: &Option<Excerpt>, _number: usize, _body: &Body) -> bool {
        false
    }

    fn account_told(self) -> Option<u16> {
        Some(self.account)
    }

    ghost one_answer = { λ q m one other is also. is ∙ sym also };
}

/// A question for what is known of an account and isn't settled: the first 1,000 entries.
#[derive(Clone, Copy, Debug, PartialEq, Eq)]
pub struct WaitingOf(pub u16);

impl Question for WaitingOf {
    ghost use Rattle.std.proofs.Common.{sym, ◌∙◌};

    type Answer = Option<Excerpt>;

    ghost reading = { λ q excerpt. reading.Waiting q.0 excerpt };

    fn ask<I: Instance + Drop, B: Settle + Drop>(
        self,
        alloc: Global,
        view: &MemberView<'_, I, B>,
    ) -> Result<Option<Excerpt>, AllocError> {
        if self.0 >= view.genesis().members() {
            return Ok(None);
        }
        Ok(Some(view.waiting(alloc, self.0)?))
    }

    fn to_reading(self, alloc: Global, excerpt: &Option<Excerpt>) -> Result<Reading, AllocError> {
        let excerpt = copy_of(alloc, excerpt)?;
        Ok(Reading::Waiting {
            account: self.0,
            excerpt,
        })
    }

    fn is_reading(self, answer: &Option<Excerpt>, other: &Reading) -> bool {
        match other {
            Reading::Waiting { account, excerpt } => {
                *account == self.0 && is_same_excerpt(excerpt, answer)
            }
            _ => false,
        }
    }

    fn is_of_body(self, _answer: &Option<Excerpt>, _number: usize, _body: &Body) -> bool {
        false
    }

    fn account_told(self) -> Option<u16> {
        Some(self.0)
    }

    ghost one_answer = { λ q m one other is also. is ∙ sym also };
}

/// A question for how many entries of each account are settled.
#[derive(Clone, Copy, Debug, PartialEq, Eq)]
pub struct AllFronts;

impl Question for AllFronts {
    ghost use Rattle.std.proofs.Common.{sym, ◌∙◌};

    type Answer = SettledCounts;

    ghost reading = { λ q counts. reading.Fronts counts };

    fn ask<I: Instance + Drop, B: Settle + Drop>(
        self,
        alloc: Global,
        view: &MemberView<'_, I, B>,
    ) -> Result<SettledCounts, AllocError> {
        Ok(SettledCounts::new(view.fronts(alloc)?))
    }

    fn to_reading(self, alloc: Global, counts: &SettledCounts) -> Result<Reading, AllocError> {
        Ok(Reading::Fronts(counts.copy(alloc)?))
    }

    fn is_reading(self, answer: &SettledCounts, other: &Reading) -> bool {
        match other {
            Reading::Fronts(counts) => counts.as_slice() == answer.as_slice(),
            _ => false,
        }
    }

    fn is_of_body(self, _answer: &SettledCounts, _number: usize, _body: &Body) -> bool {
        false
    }

    fn account_told(self) -> Option<u16> {
        None
    }

    ghost one_answer = { λ q m one other is also. is ∙ sym also };
}

/// Asks whether the member has lost state, by its own history.
#[derive(Clone, Copy, Debug, PartialEq, Eq)]
pub struct OwnForgetting;

impl Question for OwnForgetting {
    ghost use Rattle.pay_member.specs.Group.{group_in};
    ghost use Rattle.pay_member.specs.Events.{events};
    ghost use Rattle.pay_member.specs.Remembering.{HasForgotten};
    ghost use Rattle.pay_member.specs.OneAnswer.{one_truth};

    type Answer = bool;

    ghost reading = { λ q says. reading.Forgetting says };

    fn ask<I: Instance + Drop, B: Settle + Drop>(
        self,
        _alloc: Global,
        view: &MemberView<'_, I, B>,
    ) -> Result<bool, AllocError> {
        Ok(view.has_forgotten())
    }

    fn to_reading(self, _alloc: Global, says: &bool) -> Result<Reading, AllocError> {
        Ok(Reading::Forgetting(*says))
    }

    fn is_reading(self, answer: &bool, other: &Reading) -> bool {
        match other {
            Reading::Forgetting(says) => says == answer,
            _ => false,
        }
    }

    fn is_of_body(self, _answer: &bool, _number: usize, _body: &Body) -> bool {
        false
    }

    fn account_told(self) -> Option<u16> {
        None
    }

    ghost one_answer = { λ q m one other is also. one_truth
        (HasForgotten (group_in m.genesis m.keys.own) (events m.history)) one other is also };
}

/// Asks for the last protocol violation of a peer.
#[derive(Clone, Copy, Debug, PartialEq, Eq)]
pub struct LastLieOf(pub u16);

impl Question for LastLieOf {
    ghost use Rattle.pay_member.specs.Events.{events};
    ghost use Rattle.pay_member.specs.OneAnswer.{one_lie};

    type Answer = Option<Lie>;

    ghost reading = { λ q lie. reading.LastLie q.0 lie };

    fn ask<I: Instance + Drop, B: Settle + Drop>(
        self,
        _alloc: Global,
        view: &MemberView<'_, I, B>,
    ) -> Result<Option<Lie>, AllocError> {
        if self.0 >= view.genesis().members() {
            return Ok(None);
        }
        Ok(view.lie(self.0))
    }

    fn to_reading(self, _alloc: Global, lie: &Option<Lie>) -> Result<Reading, AllocError> {
        Ok(Reading::LastLie {
            peer: self.0,
            lie: *lie,
        })
    }

    fn is_reading(self, answer: &Option<Lie>, other: &Reading) -> bool {
        match other {
            Reading::LastLie { peer, lie } => *peer == self.0 && lie == answer,
            _ => false,
        }
    }

    fn is_of_body(self, _answer: &Option<Lie>, _number: usize, _body: &Body) -> bool {
        false
    }

    fn account_told(self) -> Option<u16> {
        None
    }

    ghost one_answer = { λ q m one other is also. one_lie m q.0 one other is also };
}

// Returns a copy of entries, if there are any.
fn copy_of(alloc: Global, excerpt: &Option<Excerpt>) -> Result<Option<Excerpt>, AllocError>
    ensures { IfOk result (λ copy. copy ≡ excerpt.now) }
{
    match excerpt {
        Some(excerpt) => Ok(Some(excerpt.copy(alloc)?)),
        None => Ok(None),
    }
}
