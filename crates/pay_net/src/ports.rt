//! The file of ports: the port that each member listens on.

ghost use Rattle.std.specs.Prelude.{◌≡◌, ◌<◌, IfErr, IfNone, IfOk, IfSome, length, slice_get};
ghost use Rattle.std.specs.List.{All};
ghost use Rattle.pay_net.specs.Faults.{ports_fault_name, ports_fault_number};
ghost use Rattle.pay_net.specs.Ports.{HasPorts, IsPort, IsPortsFault};

use pay_link::{Genesis, numbers_at, value_in};
use std::alloc::{AllocError, Global};
use std::fmt;
use std::marker::Model;
use thiserror::Error;

/// The reason why there are no ports, in the order of the tests. `Memory` is outside of this order.
#[derive(Clone, Copy, Debug, PartialEq, Eq, Error)]
pub enum PortsFault {
    /// There is no memory. The file may be right.
    Memory,
    /// The file isn't JSON.
    BadJson,
    /// The object has no list of N ports, or a number there is no port.
    BadShape,
}

impl PortsFault {
    // promise: order of refusals (number, name)
    const fn entry(self) -> (u8, &'static str)
        ensures number { result.0 ≡ ports_fault_number self }
        ensures name { result.1.now ≡ ports_fault_name self }
    {
        match self {
            PortsFault::Memory => (0, "Memory"),
            PortsFault::BadJson => (1, "BadJson"),
            PortsFault::BadShape => (2, "BadShape"),
        }
    }

    pub fn number(self) -> u8
        ensures value { result ≡ ports_fault_number self }
    {
        self.entry().0
    }

    pub fn name(self) -> &'static str
        ensures value { result.now ≡ ports_fault_name self }
    {
        self.entry().1
    }
}

impl fmt::Display for PortsFault {
    ghost use Rattle.std.specs.Prelude.{Some};
    ghost use Rattle.pay_net.specs.Faults.{ports_fault_words};

    ghost output = { λ fault. Some (ports_fault_words fault) };

    fn fmt<W: fmt::Write>(&self, f: &mut fmt::Formatter<W>) -> fmt::Result {
        write!(f, "{} {}", self.number(), self.name())
    }
}

impl From<AllocError> for PortsFault {
    ghost use Rattle.pay_net.specs.declared.ports.PortsFault.TheVariants.{Memory};

    ghost from_gives = { λ _ e. e ≡ Memory };

    fn from(_error: AllocError) -> PortsFault {
        PortsFault::Memory
    }
}

/// The port that each member of a group listens on.
#[derive(Drop)]
pub struct Ports {
    ports: Vec<u16>,
}

impl Model for Ports {
    ghost use Rattle.std.specs.Prelude.{ℕ, List};

    ghost Value = { List ℕ };

    ghost view = { λ p. p.ports.items };
}

impl Ports {
    /// Returns the ports that `bytes`, a file of JSON, contain for the members of `genesis`.
    // promise: files
    pub fn read(alloc: Global, genesis: &Genesis, bytes: &[u8]) -> Result<Ports, PortsFault>
        ensures value { IfOk result (HasPorts genesis.now.members bytes.now) }
        ensures fault { IfErr result (IsPortsFault genesis.now.members bytes.now) }
        ensures count { IfOk result (λ ports. length ports ≡ genesis.now.members) }
    {
        let value = value_in(alloc, bytes)?;
        let Some(value) = value else {
            return Err(PortsFault::BadJson);
        };
        let numbers = numbers_at(alloc, &value, "ports")?;
        let Some(numbers) = numbers else {
            return Err(PortsFault::BadShape);
        };
        if numbers.len() != usize::from(genesis.members()) {
            return Err(PortsFault::BadShape);
        }
        match ports_of(alloc, numbers.as_slice()) {
            Ok(Some(ports)) => Ok(Ports { ports }),
            Ok(None) => Err(PortsFault::BadShape),
            Err(_) => Err(PortsFault::Memory),
        }
    }

    /// Returns the port of `member`.
    pub fn port(&self, member: u16) -> u16
        requires { member < length self.now }
        ensures { slice_get self.now member ≡ Some result }
    {
        self.ports[usize::from(member)]
    }

    /// Returns the port of `member`, if there is such a member.
    pub fn of(&self, member: u16) -> Option<u16>
        ensures { result ≡ slice_get self.now member }
    {
        self.ports.get(usize::from(member)).copied()
    }
}

// Returns `numbers` as ports, if each is one.
fn ports_of(alloc: Global, numbers: &[u64]) -> Result<Option<Vec<u16>>, AllocError>
    ensures ports { IfOk result (λ found. IfSome found (λ ports.
        (ports.items ≡ numbers.now) × All IsPort numbers.now)) }
    ensures none { IfOk result (λ found. IfNone found (¬ (All IsPort numbers.now))) }
{
    let mut ports = Vec::new(alloc);
    for number in numbers {
        let Some(port) = port_of(*number) else {
            return Ok(None);
        };
        ports.push(port)?;
    }
    Ok(Some(ports))
}

// Returns `number` as a port, if it is one.
fn port_of(number: u64) -> Option<u16>
    ensures port { IfSome result (λ port. (port ≡ number) × IsPort number) }
    ensures none { IfNone result (¬ (IsPort number)) }
{
    match u16::try_from(number) {
        Ok(port) if port > 0 => Some(port),
        _ => None,
    }
}
