//! The events of a world, its replies, and its faults.

ghost use Rattle.std.specs.Prelude.{◌≡◌};
ghost use Rattle.pay_world.specs.Faults.{world_fault_name, world_fault_number};

use pay_frame::Bytes;
use pay_member::{MemberFault, Outcome};
use std::alloc::AllocError;
use std::fmt;
use thiserror::Error;

/// What happens to a member of a world. The first number is that member's.
#[derive(Drop)]
pub enum WorldEvent {
    /// The owner submits this value for broadcast.
    Ask(u16, Bytes),
    /// The member receives these bytes, from any sender.
    Bring(u16, Bytes),
}

/// What a world answers to an event.
#[derive(Clone, Copy, Debug, PartialEq, Eq)]
pub enum WorldReply {
    /// The member broadcasts the value under this number.
    Asked(u32),
    /// The member refused the value.
    Refused(MemberFault),
    /// What came of the bytes.
    Brought(Outcome),
    /// There is no member of this number, or it is faulty.
    Ignored,
}

/// The reason why a world doesn't answer an event.
#[derive(Clone, Copy, Debug, PartialEq, Eq, Error)]
pub enum WorldFault {
    /// Memory ran out. This is tested last.
    Memory,
    /// The event with this number, counted from 0, delivers a frame in the name of a correct member
    /// that didn't send it.
    Forged(u64),
}

impl WorldFault {
    // promise: order of refusals (number, name)
    const fn entry(self) -> (u8, &'static str)
        ensures number { result.0 ≡ world_fault_number self }
        ensures name { result.1.now ≡ world_fault_name self }
    {
        match self {
            WorldFault::Memory => (0, "Memory"),
            WorldFault::Forged(_) => (1, "Forged"),
        }
    }

    /// Returns the number that the fault is printed with.
    pub fn number(self) -> u8
        ensures value { result ≡ world_fault_number self }
    {
        self.entry().0
    }

    /// Returns the name that the fault is printed with.
    pub fn name(self) -> &'static str
        ensures value { result.now ≡ world_fault_name self }
    {
        self.entry().1
    }
}

impl fmt::Display for WorldFault {
    ghost use Rattle.std.specs.Prelude.{Some};
    ghost use Rattle.pay_world.specs.Faults.{world_fault_words};

    ghost output = { λ fault. Some (world_fault_words fault) };

    fn fmt<W: fmt::Write>(&self, f: &mut fmt::Formatter<W>) -> fmt::Result {
        write!(f, "{} {}", self.number(), self.name())
    }
}

impl From<AllocError> for WorldFault {
    ghost use Rattle.pay_world.specs.declared.event.WorldFault.TheVariants.{Memory};

    ghost from_gives = { λ _ e. e ≡ Memory };

    fn from(_error: AllocError) -> WorldFault {
        WorldFault::Memory
    }
}
