ghost use Rattle.std.specs.Prelude.{◌≡◌, ◌≤◌, ◌↔◌, IfOk, IsTrue, length};
ghost use Rattle.pay_frame.specs.declared.limits.TheConstants.{MOST_MEMBERS};
ghost use Rattle.pay_member.specs.Questions.{Shows};

use crate::ledger::Lie;
use crate::question::{
    AllFronts, EntriesOf, LastLieOf, OwnForgetting, PaymentState, Question, SentFrom, StateOf,
    StatementOf, WaitingOf,
};
use crate::view::MemberView;
use pay_book::{Excerpt, Settle, Statement};
use pay_echo::Instance;
use pay_frame::Body;
use std::alloc::{AllocError, Global};
use std::marker::Model;

/// A question to a member with its answer. There is no answer about an account that doesn't exist.
#[derive(Drop)]
pub enum Reading {
    /// The bodies that the member sent to all, from a place on: at most `max`.
    Sent {
        from: usize,
        max: usize,
        bodies: Bodies,
    },
    /// The progress of a payment.
    State {
        owner: u16,
        seq: u32,
        state: Option<PaymentState>,
    },
    /// An account's lines, with its balance.
    Statement {
        account: u16,
        statement: Option<Statement>,
    },
    /// What settled of an account from a number on.
    Entries {
        account: u16,
        from: u64,
        excerpt: Option<Excerpt>,
    },
    /// What is known of an account and isn't settled.
    Waiting {
        account: u16,
        excerpt: Option<Excerpt>,
    },
    /// The counts of settled entries of all accounts.
    Fronts(SettledCounts),
    /// True if the member has lost state.
    Forgetting(bool),
    /// The last protocol violation of a peer, if there is one.
    LastLie {
        peer: u16,
        lie: Option<Lie>,
    },
}

impl Reading {
    /// Returns whether the member of `view` gives this answer to the question.
    // promise: readings
    pub fn is_shown<I: Instance + Drop, B: Settle + Drop>(
        &self,
        alloc: Global,
        view: &MemberView<'_, I, B>,
    ) -> Result<bool, AllocError>
        ensures { IfOk result (λ says. IsTrue says ↔ Shows view.now self.now) }
    {
        match self {
            Reading::Sent { from, max, .. } => {
                let (from, max) = (*from, *max);
                self.is_of(alloc, view, SentFrom { from, max })
            }
            Reading::State { owner, seq, .. } => {
                let (owner, seq) = (*owner, *seq);
                self.is_of(alloc, view, StateOf { owner, seq })
            }
            Reading::Statement { account, .. } => self.is_of(alloc, view, StatementOf(*account)),
            Reading::Entries { account, from, .. } => {
                let (account, from) = (*account, *from);
                self.is_of(alloc, view, EntriesOf { account, from })
            }
            Reading::Waiting { account, .. } => self.is_of(alloc, view, WaitingOf(*account)),
            Reading::Fronts(_) => self.is_of(alloc, view, AllFronts),
            Reading::Forgetting(_) => self.is_of(alloc, view, OwnForgetting),
            Reading::LastLie { peer, .. } => self.is_of(alloc, view, LastLieOf(*peer)),
        }
    }

    // Returns whether a member gives this answer to `question`.
    fn is_of<I: Instance + Drop, B: Settle + Drop, Q: Question>(
        &self,
        alloc: Global,
        view: &MemberView<'_, I, B>,
        question: Q,
    ) -> Result<bool, AllocError>
        requires { (answer : Q.Answer) × (self.now ≡ Q.reading question answer) }
        ensures { IfOk result (λ says. IsTrue says ↔ Shows view.now self.now) }
    {
        let answer = question.ask(alloc, view)?;
        Ok(question.is_reading(&answer, self))
    }
}

/// Bodies that a member sent to all. Contracts see them as a list.
#[derive(Drop)]
pub struct Bodies {
    bodies: Vec<Body>,
}

impl Model for Bodies {
    ghost use Rattle.std.specs.Prelude.{List};
    ghost use Rattle.pay_frame.specs.Frame.{BodyFields};

    ghost Value = { List BodyFields };

    ghost view = { λ b. b.bodies.items };
}

impl Bodies {
    /// Creates a list of `bodies`, in the order in which they were sent.
    pub fn new(bodies: Vec<Body>) -> Bodies
        ensures { result ≡ bodies.items }
    {
        Bodies { bodies }
    }

    /// Returns the bodies, in the order in which they were sent.
    pub fn as_slice(&self) -> &[Body]
        ensures { result.now ≡ self.now }
    {
        self.bodies.as_slice()
    }

    /// Returns the bodies as a vector.
    pub fn into_vec(self) -> Vec<Body>
        ensures { result.items ≡ self }
    {
        self.bodies
    }

    /// Returns a copy of the bodies.
    pub(crate) fn copy(&self, alloc: Global) -> Result<Bodies, AllocError>
        ensures { IfOk result (λ copy. copy ≡ self.now) }
    {
        let mut bodies = Vec::new(alloc);
        for body in self.as_slice() {
            bodies.push(body.copy(alloc)?)?;
        }
        Ok(Bodies::new(bodies))
    }
}

/// The counts of settled entries, one for each of at most 128 accounts. Contracts see them as a
/// list.
#[derive(Drop)]
pub struct SettledCounts {
    counts: Vec<u32>,
}

impl Model for SettledCounts {
    ghost use Rattle.std.specs.Prelude.{◌≤◌, ℕ, List, length};
    ghost use Rattle.pay_frame.specs.declared.limits.TheConstants.{MOST_MEMBERS};

    ghost Value = { List ℕ };

    ghost view = { λ c. c.counts.items };

    ghost invariant = { λ c. length c.counts.items ≤ MOST_MEMBERS };
}

impl SettledCounts {
    /// Creates a list of `counts`, one for each account, from account 0 on.
    pub fn new(counts: Vec<u32>) -> SettledCounts
        requires { length counts.items ≤ MOST_MEMBERS }
        ensures { result ≡ counts.items }
    {
        SettledCounts { counts }
    }

    /// Returns the counts, from account 0 on.
    pub fn as_slice(&self) -> &[u32]
        ensures value { result.now ≡ self.now }
        ensures few { length result.now ≤ MOST_MEMBERS }
    {
        self.counts.as_slice()
    }

    /// Returns the counts as a vector.
    pub fn into_vec(self) -> Vec<u32>
        ensures value { result.items ≡ self }
        ensures few { length result.items ≤ MOST_MEMBERS }
    {
        self.counts
    }

    /// Returns a copy of the counts.
    pub(crate) fn copy(&self, alloc: Global) -> Result<SettledCounts, AllocError>
        ensures { IfOk result (λ copy. copy ≡ self.now) }
    {
        let counts = Vec::from_slice(alloc, self.counts.as_slice())?;
        Ok(SettledCounts { counts })
    }
}
