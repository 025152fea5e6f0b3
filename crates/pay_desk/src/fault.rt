//! How a desk refuses a line, and how its teller refuses a call.

ghost use Rattle.std.specs.Prelude.{◌≡◌};
ghost use Rattle.pay_desk.specs.Faults.{desk_fault_name, desk_fault_number, desk_fault_of};

use std::alloc::AllocError;
use std::fmt;
use thiserror::Error;

/// The reason why a teller broadcasts no value.
#[derive(Clone, Copy, Debug, PartialEq, Eq)]
pub enum TellerFault {
    /// Memory ran out. This is tested last.
    Memory,
    /// All numbers of the member's own account are used.
    Spent,
    /// The group may know more about the account than the member does, which isn't known yet.
    TooEarly,
    /// The member has lost state.
    Forgotten,
}

impl From<AllocError> for TellerFault {
    ghost use Rattle.std.specs.Prelude.{◌≡◌};
    ghost use Rattle.pay_desk.specs.declared.fault.TellerFault.TheVariants.{Memory};

    ghost from_gives = { λ _ e. e ≡ Memory };

    fn from(_error: AllocError) -> TellerFault {
        TellerFault::Memory
    }
}

/// The reason why a teller doesn't report what it read.
#[derive(Clone, Copy, Debug, PartialEq, Eq)]
pub enum ReadFault {
    /// Memory ran out.
    Memory,
    /// The member has lost state.
    Forgotten,
}

impl From<AllocError> for ReadFault {
    ghost use Rattle.std.specs.Prelude.{◌≡◌};
    ghost use Rattle.pay_desk.specs.declared.fault.ReadFault.TheVariants.{Memory};

    ghost from_gives = { λ _ e. e ≡ Memory };

    fn from(_error: AllocError) -> ReadFault {
        ReadFault::Memory
    }
}

/// The reason why a desk refuses a line.
#[derive(Clone, Copy, Debug, PartialEq, Eq, Error)]
pub enum DeskFault {
    /// There is no memory: repeat the line.
    Memory,
    /// The line is no command, or too long.
    BadLine,
    /// There is no account of this number. `PAYS` tests all payees before any amount.
    NoAccount,
    /// The line pays nothing, or pays the owner's own account.
    ZeroOrSelf,
    /// The id is kept with another value, of payments or a note. A payment has another value with
    /// `PAYS` than with `PAY`.
    IdUsed,
    /// All 65,536 numbers of the owner's own account are used.
    Spent,
    /// After a start from a log, too few peers have shown yet that they know no more about the
    /// owner's account: repeat the line (`node` alone).
    TooEarly,
    /// The group knows more about the owner's account than this node (`node` alone). No payment is
    /// made, and no `STATE`, `ENTRIES` or `WAITING` of that account is reported.
    Forgotten,
}

impl DeskFault {
    // promise: order of refusals (number, name)
    const fn entry(self) -> (u8, &'static str)
        ensures number { result.0 ≡ desk_fault_number self }
        ensures name { result.1.now ≡ desk_fault_name self }
    {
        match self {
            DeskFault::Memory => (0, "Memory"),
            DeskFault::BadLine => (1, "BadLine"),
            DeskFault::NoAccount => (2, "NoAccount"),
            DeskFault::ZeroOrSelf => (3, "ZeroOrSelf"),
            DeskFault::IdUsed => (4, "IdUsed"),
            DeskFault::Spent => (5, "Spent"),
            DeskFault::TooEarly => (6, "TooEarly"),
            DeskFault::Forgotten => (7, "Forgotten"),
        }
    }

    pub fn number(self) -> u8
        ensures value { result ≡ desk_fault_number self }
    {
        self.entry().0
    }

    pub fn name(self) -> &'static str
        ensures value { result.now ≡ desk_fault_name self }
    {
        self.entry().1
    }
}

impl fmt::Display for DeskFault {
    ghost use Rattle.std.specs.Prelude.{Some};
    ghost use Rattle.pay_desk.specs.Faults.{desk_fault_words};

    ghost output = { λ fault. Some (desk_fault_words fault) };

    fn fmt<W: fmt::Write>(&self, f: &mut fmt::Formatter<W>) -> fmt::Result {
        write!(f, "{} {}", self.number(), self.name())
    }
}

impl From<TellerFault> for DeskFault {
    ghost use Rattle.std.specs.Prelude.{◌≡◌};
    ghost use Rattle.pay_desk.specs.Faults.{desk_fault_of};

    ghost from_gives = { λ fault e. e ≡ desk_fault_of fault };

    fn from(fault: TellerFault) -> DeskFault {
        match fault {
            TellerFault::Memory => DeskFault::Memory,
            TellerFault::Spent => DeskFault::Spent,
            TellerFault::TooEarly => DeskFault::TooEarly,
            TellerFault::Forgotten => DeskFault::Forgotten,
        }
    }
}
