//! A line of an account's statement, and a whole statement.

ghost use Rattle.std.specs.Prelude.{◌≡◌, IfOk};

use std::alloc::{AllocError, Global};
use std::marker::Model;

/// A settled entry, as the statement of an account shows it.
#[derive(Clone, Copy, Debug, PartialEq, Eq)]
pub enum Line {
    /// The account's own value at place `seq` paid to `payee`.
    Out { seq: u32, payee: u16, amount: u64 },
    /// The account's own value at place `seq` moved nothing.
    Void { seq: u32 },
    /// The value of `owner` at place `seq` paid to the account.
    In { owner: u16, seq: u32, amount: u64 },
}

/// The lines of an account, and its balance.
#[derive(Drop)]
pub struct Statement {
    lines: Vec<Line>,
    balance: u64,
}

impl Model for Statement {
    ghost use Rattle.pay_book.specs.Statement.{StatementFields};

    ghost Value = { StatementFields };

    ghost view = { λ s. record { lines = s.lines.items; balance = s.balance } };
}

impl Statement {
    /// Creates a statement of `lines`, in the order of [`crate::statement`], and the account's
    /// `balance`.
    pub fn new(lines: Vec<Line>, balance: u64) -> Statement
        ensures { result ≡ record { lines = lines.items; balance = balance } }
    {
        Statement { lines, balance }
    }

    /// Returns the account's own settled entries, then the payments to it, by owner.
    pub fn lines(&self) -> &[Line]
        ensures { result.now ≡ self.now.lines }
    {
        self.lines.as_slice()
    }

    /// Returns the account's balance, in the unit of the genesis's opening balances.
    pub fn balance(&self) -> u64
        ensures { result ≡ self.now.balance }
    {
        self.balance
    }

    /// Returns a copy of the statement.
    pub fn copy(&self, alloc: Global) -> Result<Statement, AllocError>
        ensures { IfOk result (λ copy. copy ≡ self.now) }
    {
        let lines = Vec::from_slice(alloc, self.lines.as_slice())?;
        Ok(Statement {
            lines,
            balance: self.balance,
        })
    }
}
