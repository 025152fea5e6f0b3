//! A history replayed entry by entry.

ghost use Rattle.std.specs.Prelude.{◌≡◌, ◌↔◌, [], IfErr, IfOk, IsTrue, OnOk};
ghost use Rattle.std.specs.Bool.{OnTrue};
ghost use Rattle.pay_audit.specs.Faults.{replay_fault_name, replay_fault_number};
ghost use Rattle.pay_audit.specs.Replay.{IsCause};
ghost use Rattle.pay_link.specs.Keys.{IsKeysOf};
ghost use Rattle.pay_member.specs.Events.{events};
ghost use Rattle.pay_member.specs.Legal.{IsOwed, Legal};
ghost use Rattle.pay_member.specs.Member.{with_entry};

use pay_book::Settle;
use pay_echo::Instance;
use pay_link::{Genesis, Keys};
use pay_member::laws::legal_histories;
use pay_member::{HistoryEntry, Member, MemberFault};
use std::alloc::{AllocError, Global};
use std::fmt;
use thiserror::Error;

/// The reason why a history wasn't replayed. `Memory` is outside of the order of the tests.
#[derive(Clone, Copy, Debug, PartialEq, Eq, Error)]
pub enum ReplayFault {
    Memory,
    /// The entry at this place is the first that a member can't have after those before it.
    Illegal(usize),
}

impl ReplayFault {
    // promise: order of refusals (number, name)
    const fn entry(self) -> (u8, &'static str)
        ensures number { result.0 ≡ replay_fault_number self }
        ensures name { result.1.now ≡ replay_fault_name self }
    {
        match self {
            ReplayFault::Memory => (0, "Memory"),
            ReplayFault::Illegal(_) => (1, "Illegal"),
        }
    }

    /// Returns the number that the fault is printed with.
    pub fn number(self) -> u8
        ensures value { result ≡ replay_fault_number self }
    {
        self.entry().0
    }

    /// Returns the name that the fault is printed with.
    pub fn name(self) -> &'static str
        ensures value { result.now ≡ replay_fault_name self }
    {
        self.entry().1
    }
}

impl fmt::Display for ReplayFault {
    ghost use Rattle.std.specs.Prelude.{Some};
    ghost use Rattle.pay_audit.specs.Faults.{replay_fault_words};

    ghost output = { λ fault. Some (replay_fault_words fault) };

    fn fmt<W: fmt::Write>(&self, f: &mut fmt::Formatter<W>) -> fmt::Result {
        write!(f, "{} {}", self.number(), self.name())
    }
}

impl From<AllocError> for ReplayFault {
    ghost use Rattle.pay_audit.specs.declared.replaying.ReplayFault.TheVariants.{Memory};

    ghost from_gives = { λ _ e. e ≡ Memory };

    fn from(_error: AllocError) -> ReplayFault {
        ReplayFault::Memory
    }
}

/// Returns the member that has this `history`, if a member can have it. The `keys` belong to a
/// member of `genesis`.
// promise: replay
pub fn replay<I: Instance + Drop, B: Settle + Drop>(
    alloc: Global,
    genesis: &Genesis,
    keys: &Keys,
    history: &[HistoryEntry],
) -> Result<Member<I, B>, ReplayFault>
    requires { IsKeysOf genesis.now keys.now }
    ensures member { IfOk result (λ member. member
        ≡ record { genesis = genesis.now; keys = keys.now; history = history.now }) }
    ensures legal { OnOk result (Legal genesis.now keys.now history.now) }
    ensures illegal { IfErr result (IsCause genesis.now keys.now history.now) }
{
    let mut member = fresh(alloc, genesis, keys)?;
    take_all_again(alloc, &mut member, history)?;
    Ok(member)
}

/// Returns a member of `genesis` with these `keys` that has no history yet.
fn fresh<I: Instance + Drop, B: Settle + Drop>(
    alloc: Global,
    genesis: &Genesis,
    keys: &Keys,
) -> Result<Member<I, B>, AllocError>
    requires { IsKeysOf genesis.now keys.now }
    ensures { IfOk result (λ member. member
        ≡ record { genesis = genesis.now; keys = keys.now; history = [] }) }
{
    let genesis = genesis.copy(alloc)?;
    Member::new(alloc, genesis, keys.copy(alloc)?)
}

/// Replays `entries` at `member`, up to the first that isn't the one owed. After that entry
/// `member` may not be used further.
fn take_all_again<I: Instance + Drop, B: Settle + Drop>(
    alloc: Global,
    member: &mut Member<I, B>,
    entries: &[HistoryEntry],
) -> Result<(), ReplayFault>
    requires { member.old.history ≡ [] }
    ensures taken { OnOk result (member.new ≡ record member.old { history = entries.now }) }
    ensures legal { OnOk result (Legal member.old.genesis member.old.keys entries.now) }
    ensures illegal { IfErr result (IsCause member.old.genesis member.old.keys entries.now) }
{
    legal_histories();
    for (place, entry) in entries.iter().enumerate() {
        if !take_again(alloc, member, entry)? {
            return Err(ReplayFault::Illegal(place));
        }
    }
    Ok(())
}

/// Replays `entry` at `member`, and returns whether it is the one owed. If it isn't, `member` may
/// not be used further.
fn take_again<I: Instance + Drop, B: Settle + Drop>(
    alloc: Global,
    member: &mut Member<I, B>,
    entry: &HistoryEntry,
) -> Result<bool, AllocError>
    ensures owed { IfOk result (λ owed. IsTrue owed
        ↔ IsOwed member.old.genesis member.old.keys (events member.old.history) entry.now) }
    ensures taken { IfOk result (λ owed. OnTrue owed
        (member.new ≡ with_entry member.old entry.now)) }
{
    let event = entry.event.copy(alloc)?;
    match member.hand_in(alloc, entry.stamp, event) {
        Ok(reply) => Ok(reply == entry.reply),
        Err(MemberFault::Memory) => Err(AllocError),
        Err(_) => Ok(false),
    }
}
