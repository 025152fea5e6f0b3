//! How long a worker continues to connect to a peer that it doesn't reach.

ghost use Rattle.std.specs.Prelude.{◌≡◌};
ghost use Rattle.pay_peers.specs.Dialing.{growing, idle_behind, is_quiet, is_spent, pause_behind};
ghost use Rattle.pay_peers.specs.Dialing.{stale_behind};

use crate::readers::Gain;

/// The most connections in a row without an authenticated frame that a worker makes with
/// [`Dials::Usual`].
pub const MOST_IDLE: u64 = 1_000;

/// The seconds for which a connection may deliver nothing until it ends and its peer is connected
/// again.
pub const QUIET_SECONDS: u64 = 60;

/// The pause after each connection in milliseconds, with [`Dials::Usual`].
const PAUSE_MILLIS: u64 = 10;

/// The first pauses that grow, in milliseconds: each is twice the one before.
const FIRST_MILLIS: [u64; 7] = [10, 20, 40, 80, 160, 320, 640];

/// The length of each later pause in milliseconds.
const LONGEST_MILLIS: u64 = 1_000;

/// How often in a row, without an authenticated frame, a worker connects to its peer, and how long
/// it pauses between.
#[derive(Clone, Copy, Debug, PartialEq, Eq)]
pub enum Dials {
    /// The worker connects [`MOST_IDLE`] times, 10 milliseconds apart.
    Usual,
    /// The worker connects this often, with pauses that grow from 10 milliseconds to a second.
    Counted(u64),
    /// The worker connects until it has to end, with pauses that grow likewise.
    Always,
}

// The pauses between connections begin again with an accepted frame, not with an authenticated one.
// A repeat leaves a receipt, and a faulty member that ends each connection after a repeat would
// leave a hundred receipts a second.
/// The results of a worker's connections.
#[derive(Drop)]
pub(crate) struct Backoff {
    dials: Dials,
    // how many connections in a row had no authenticated frame
    idle: u64,
    // how many connections in a row had no accepted frame
    stale: u64,
}

impl Backoff {
    /// Creates the results before the first connection.
    pub(crate) fn new(dials: Dials) -> Backoff
        ensures { result ≡ record { dials = dials; idle = 0; stale = 0 } }
    {
        Backoff {
            dials,
            idle: 0,
            stale: 0,
        }
    }

    /// Returns whether the worker has connected for the last time.
    // promise: dials
    pub(crate) fn is_over(&self) -> bool
        ensures { result ≡ is_spent self.now.dials self.now.idle }
    {
        match self.dials {
            Dials::Usual => self.idle >= MOST_IDLE,
            Dials::Counted(count) => self.idle >= count,
            Dials::Always => false,
        }
    }

    /// Counts a connection, and returns for how many milliseconds the worker pauses then. The count
    /// of idle connections begins again with an authenticated frame, and the pauses with an
    /// accepted one.
    // promise: dials
    pub(crate) fn note(&mut self, gain: Gain) -> u64
        ensures dials { self.new.dials ≡ self.old.dials }
        ensures idle { self.new.idle ≡ idle_behind self.old.idle gain }
        ensures stale { self.new.stale ≡ stale_behind self.old.stale gain }
        ensures pause { result ≡ pause_behind self.new.dials self.new.idle self.new.stale }
    {
        self.idle = match gain {
            Gain::Nothing => self.idle.saturating_add(1),
            Gain::Refused | Gain::Taken => 0,
        };
        self.stale = match gain {
            Gain::Nothing | Gain::Refused => self.stale.saturating_add(1),
            Gain::Taken => 0,
        };
        match self.dials {
            Dials::Usual if self.idle > 0 => PAUSE_MILLIS,
            _ => growing(self.stale),
        }
    }
}

/// Returns whether a connection that delivered nothing for `seconds` seconds was quiet and didn't
/// fail. The timer that ends a connection may be early.
// promise: dials
pub(crate) fn is_quiet(seconds: u64) -> bool
    ensures { result ≡ is_quiet seconds }
{
    seconds >= QUIET_SECONDS - 1
}

// Returns the pause after `stale` connections in a row that delivered nothing new.
fn growing(stale: u64) -> u64
    ensures { result ≡ growing stale }
{
    let place = stale.saturating_sub(1) as usize;
    FIRST_MILLIS.get(place).copied().unwrap_or(LONGEST_MILLIS)
}
