ghost use Rattle.std.specs.Prelude.{◌≡◌, None, Some, false};
ghost use Rattle.std.specs.Option.{option_map_or};
ghost use Rattle.pay_net.specs.Refusals.{is_starved, spell_behind};

/// The milliseconds after which a node without memory counts as out of memory.
pub(crate) const STARVED_MILLIS: u64 = 5_000;

/// The milliseconds without a failed allocation after which memory is available again.
pub(crate) const RELIEVED_MILLIS: u64 = 2_000;

/// The times of the first and the last of a row of failed allocations.
#[derive(Clone, Copy, Debug, PartialEq, Eq)]
pub(crate) struct Spell {
    pub first: u64,
    pub last: u64,
}

/// The times at which a node's workers ran out of memory, in milliseconds since its start.
#[derive(Drop)]
pub(crate) struct Refusals {
    spell: Option<Spell>,
}

impl Refusals {
    /// Creates a record without a failed allocation.
    pub(crate) fn new() -> Refusals
        ensures { result ≡ record { spell = None } }
    {
        Refusals { spell: None }
    }

    /// Notes that memory ran out at the time `now`.
    // promise: limits
    pub(crate) fn note(&mut self, now: u64)
        ensures { self.new ≡ record { spell = Some (spell_behind self.old.spell now) } }
    {
        let first = match self.spell {
            Some(spell) if now.saturating_sub(spell.last) <= RELIEVED_MILLIS => spell.first,
            _ => now,
        };
        self.spell = Some(Spell { first, last: now });
    }

    /// Returns whether the node counts as out of memory.
    // promise: limits
    pub(crate) fn are_lasting(&self) -> bool
        ensures { result ≡ option_map_or is_starved self.now.spell false }
    {
        match self.spell {
            Some(spell) => spell.last.saturating_sub(spell.first) >= STARVED_MILLIS,
            None => false,
        }
    }
}
