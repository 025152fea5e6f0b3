//! How a member refuses: a submitted value, a frame, a query, or any of these.

ghost use Rattle.std.specs.Prelude.{◌≡◌};
ghost use Rattle.pay_member.specs.Faults.{member_fault_name, member_fault_number};

use std::alloc::AllocError;
use std::fmt;
use thiserror::Error;

/// The reason why a member refuses a value of its own.
#[derive(Clone, Copy, Debug, PartialEq, Eq, Error)]
#[error("{}", MemberFault::from(*self))]
pub enum AskFault {
    /// Memory ran out. This is tested last.
    Memory,
    /// The value is longer than a frame's may be.
    TooLong,
    /// All 65,536 numbers of the member's own are used.
    Spent,
}

impl From<AllocError> for AskFault {
    ghost use Rattle.pay_member.specs.declared.fault.AskFault.TheVariants.{Memory};

    ghost from_gives = { λ _ e. e ≡ Memory };

    fn from(_error: AllocError) -> AskFault {
        AskFault::Memory
    }
}

impl From<AskFault> for MemberFault {
    ghost use Rattle.pay_member.specs.Faults.{fault_of_ask};

    ghost from_gives = { λ fault e. e ≡ fault_of_ask fault };

    fn from(fault: AskFault) -> MemberFault {
        match fault {
            AskFault::Memory => MemberFault::Memory,
            AskFault::TooLong => MemberFault::TooLong,
            AskFault::Spent => MemberFault::Spent,
        }
    }
}

/// The reason why a member refuses to report an account's state.
#[derive(Clone, Copy, Debug, PartialEq, Eq, Error)]
#[error("{}", MemberFault::from(*self))]
pub enum QueryFault {
    /// Memory ran out. This is tested last.
    Memory,
    /// There is no account of this number.
    NoAccount,
}

impl From<AllocError> for QueryFault {
    ghost use Rattle.pay_member.specs.declared.fault.QueryFault.TheVariants.{Memory};

    ghost from_gives = { λ _ e. e ≡ Memory };

    fn from(_error: AllocError) -> QueryFault {
        QueryFault::Memory
    }
}

impl From<QueryFault> for MemberFault {
    ghost use Rattle.pay_member.specs.Faults.{fault_of_query};

    ghost from_gives = { λ fault e. e ≡ fault_of_query fault };

    fn from(fault: QueryFault) -> MemberFault {
        match fault {
            QueryFault::Memory => MemberFault::Memory,
            QueryFault::NoAccount => MemberFault::NoAccount,
        }
    }
}

/// The reason why a member refuses a frame.
#[derive(Clone, Copy, Debug, PartialEq, Eq, Error)]
#[error("{}", MemberFault::from(*self))]
pub enum TakeFault {
    /// Memory ran out. This is tested last.
    Memory,
    /// The frame isn't for this member, or its key isn't the one shared with its sender.
    WrongKey,
    /// The frame's number was accepted before. The next number is given.
    Repeat(u64),
    /// The frame's number is beyond the next one, which is given.
    Gap(u64),
}

impl From<AllocError> for TakeFault {
    ghost use Rattle.pay_member.specs.declared.fault.TakeFault.TheVariants.{Memory};

    ghost from_gives = { λ _ e. e ≡ Memory };

    fn from(_error: AllocError) -> TakeFault {
        TakeFault::Memory
    }
}

impl From<TakeFault> for MemberFault {
    ghost use Rattle.pay_member.specs.Faults.{fault_of_take};

    ghost from_gives = { λ fault e. e ≡ fault_of_take fault };

    fn from(fault: TakeFault) -> MemberFault {
        match fault {
            TakeFault::Memory => MemberFault::Memory,
            TakeFault::WrongKey => MemberFault::WrongKey,
            TakeFault::Repeat(next) => MemberFault::Repeat(next),
            TakeFault::Gap(next) => MemberFault::Gap(next),
        }
    }
}

/// The reason why a member refuses an event of any kind.
#[derive(Clone, Copy, Debug, PartialEq, Eq, Error)]
pub enum MemberFault {
    /// Memory ran out. This is tested last.
    Memory,
    /// All 65,536 numbers of the member's own are used.
    Spent,
    /// The value is longer than a frame's may be.
    TooLong,
    /// The frame's number was accepted before. The next number is given.
    Repeat(u64),
    /// The frame's number is beyond the next one, which is given.
    Gap(u64),
    /// The frame isn't for this member, or its key isn't the one shared with its sender.
    WrongKey,
    /// There is no account of this number.
    NoAccount,
}

impl MemberFault {
    // promise: order of refusals (number, name)
    const fn entry(self) -> (u8, &'static str)
        ensures number { result.0 ≡ member_fault_number self }
        ensures name { result.1.now ≡ member_fault_name self }
    {
        match self {
            MemberFault::Memory => (0, "Memory"),
            MemberFault::Spent => (1, "Spent"),
            MemberFault::TooLong => (2, "TooLong"),
            MemberFault::Repeat(_) => (3, "Repeat"),
            MemberFault::Gap(_) => (4, "Gap"),
            MemberFault::WrongKey => (5, "WrongKey"),
            MemberFault::NoAccount => (6, "NoAccount"),
        }
    }

    /// Returns the fault's number among all refusals of a member, from 0 on.
    pub fn number(self) -> u8
        ensures value { result ≡ member_fault_number self }
    {
        self.entry().0
    }

    /// Returns the fault's name, without the number that the fault contains.
    pub fn name(self) -> &'static str
        ensures value { result.now ≡ member_fault_name self }
    {
        self.entry().1
    }
}

impl fmt::Display for MemberFault {
    ghost use Rattle.std.specs.Prelude.{Some};
    ghost use Rattle.pay_member.specs.Faults.{member_fault_words};

    ghost output = { λ fault. Some (member_fault_words fault) };

    fn fmt<W: fmt::Write>(&self, f: &mut fmt::Formatter<W>) -> fmt::Result {
        write!(f, "{} {}", self.number(), self.name())
    }
}

impl From<AllocError> for MemberFault {
    ghost use Rattle.pay_member.specs.declared.fault.MemberFault.TheVariants.{Memory};

    ghost from_gives = { λ _ e. e ≡ Memory };

    fn from(_error: AllocError) -> MemberFault {
        MemberFault::Memory
    }
}
