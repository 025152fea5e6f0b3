//! The events of a member's history, and its replies to them.

ghost use Rattle.std.specs.Prelude.{◌≡◌, IfOk};
ghost use Rattle.pay_frame.specs.Stream.{IsBytes};
ghost use Rattle.pay_member.specs.Legal.{IsStorable};

use pay_frame::Bytes;
use pay_link::Checked;
use std::alloc::{AllocError, Global};
use std::marker::Model;

/// A submitted value, in memory of its own. So an event is small, and nearly all events are frames.
/// Contracts see the value as a list of numbers.
#[derive(Drop)]
pub struct AskedValue {
    bytes: Box<Bytes>,
}

impl Model for AskedValue {
    ghost use Rattle.std.specs.Prelude.{ℕ, List};

    ghost Value = { List ℕ };

    ghost view = { λ a. a.bytes.value };
}

impl AskedValue {
    pub fn new(alloc: Global, bytes: Bytes) -> Result<AskedValue, AllocError>
        ensures { IfOk result (λ asked. asked ≡ bytes) }
    {
        let bytes = Box::new(alloc, bytes)?;
        Ok(AskedValue { bytes })
    }

    pub fn bytes(&self) -> &Bytes
        ensures { result.now ≡ self.now }
    {
        &self.bytes
    }

    /// Returns the value's bytes by themselves.
    pub fn into_bytes(self) -> Bytes
        ensures { result ≡ self }
    {
        Box::into_inner(self.bytes)
    }

    pub fn as_slice(&self) -> &[u8]
        ensures { result.now ≡ self.now }
    {
        self.bytes.as_slice()
    }

    /// Returns a clone of the value.
    pub fn copy(&self, alloc: Global) -> Result<AskedValue, AllocError>
        ensures { IfOk result (λ copy. copy ≡ self.now) }
    {
        let bytes = self.bytes.copy(alloc)?;
        AskedValue::new(alloc, bytes)
    }
}

/// What a member's history records.
#[derive(Drop)]
pub enum Event {
    /// The owner submits this value for broadcast.
    Ask(AskedValue),
    /// A frame of another member was accepted.
    Taken(Checked),
    /// Someone requests the state of this account.
    Query(u16),
}

impl Event {
    /// Returns a clone of the event. A history may hold either.
    pub fn copy(&self, alloc: Global) -> Result<Event, AllocError>
        ensures value { IfOk result (λ copy. copy ≡ self.now) }
        ensures kept { IsStorable self.now }
    {
        match self {
            Event::Ask(value) => {
                asked_is_kept(value);
                Ok(Event::Ask(value.copy(alloc)?))
            }
            Event::Taken(checked) => {
                taken_is_kept(checked);
                Ok(Event::Taken(checked.copy()?))
            }
            Event::Query(account) => Ok(Event::Query(*account)),
        }
    }
}

/// States that a submitted value is bytes.
pub(crate) fn asked_is_kept(value: &AskedValue)
    ensures { IsStorable (Event.Ask value.now) }
{
    slice_is_bytes(value.as_slice());
}

/// States that an authenticated frame is within its limits, and that its value is bytes.
pub(crate) fn taken_is_kept(checked: &Checked)
    ensures { IsStorable (Event.Taken checked.now) }
{
    slice_is_bytes(checked.body().value());
}

fn slice_is_bytes(slice: &[u8])
    ensures { IsBytes slice.now }
{
    let _first = slice.first();
}

/// What followed from an event: whether the member sent an ECHO and a READY and delivered a value,
/// and how many entries settled in all accounts.
#[derive(Clone, Copy, Debug, PartialEq, Eq)]
pub struct Took {
    pub echo: bool,
    pub ready: bool,
    pub deliver: bool,
    pub settled: u32,
}

/// The state of an account: its balance, how many of its entries are settled, and how many values
/// its list has.
#[derive(Clone, Copy, Debug, PartialEq, Eq)]
pub struct Told {
    pub balance: u64,
    pub front: u32,
    pub listed: u32,
}

/// What a member replies to an accepted event.
#[derive(Clone, Copy, Debug, PartialEq, Eq)]
pub enum Reply {
    /// The number of a value of its own.
    Asked(u32),
    /// What followed from a frame.
    Took(Took),
    /// The state of an account.
    Told(Told),
}

/// An event of a member's history and the reply to it.
#[derive(Drop)]
pub struct HistoryEntry {
    /// The number of the seat that handed the event in. It means nothing to the member.
    pub stamp: u16,
    /// The event that was handed in.
    pub event: Event,
    /// What the member replied. A refused event has no entry.
    pub reply: Reply,
}
