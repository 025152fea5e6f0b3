//! What workers report about their peers.

use pay_peers::{Observer, PeerEvent};
use std::sync::atomic::{AtomicU64, Ordering};

/// A counter of what workers report about their peers.
#[derive(Drop)]
pub(crate) struct Told {
    heard: AtomicU64,
    missed: AtomicU64,
    gave_up: AtomicU64,
    lied: AtomicU64,
    unopened: AtomicU64,
    starved: AtomicU64,
}

impl Told {
    pub(crate) fn new() -> Told {
        Told {
            heard: AtomicU64::new(0),
            missed: AtomicU64::new(0),
            gave_up: AtomicU64::new(0),
            lied: AtomicU64::new(0),
            unopened: AtomicU64::new(0),
            starved: AtomicU64::new(0),
        }
    }

    /// Returns how often a peer was heard, missed and given up, how often it lied, how often a
    /// frame of it failed authentication, and how often memory ran out.
    pub(crate) fn counts(&self) -> (u64, u64, u64, u64, u64, u64) {
        (
            self.heard.load(Ordering::SeqCst),
            self.missed.load(Ordering::SeqCst),
            self.gave_up.load(Ordering::SeqCst),
            self.lied.load(Ordering::SeqCst),
            self.unopened.load(Ordering::SeqCst),
            self.starved.load(Ordering::SeqCst),
        )
    }
}

impl Observer<PeerEvent> for Told {
    fn observe(&self, _peer: u16, event: PeerEvent) {
        let count = match event {
            PeerEvent::Heard => &self.heard,
            PeerEvent::Missed => &self.missed,
            PeerEvent::GaveUp => &self.gave_up,
            PeerEvent::Lied(_) => &self.lied,
            PeerEvent::Unopened => &self.unopened,
            PeerEvent::Starved => &self.starved,
        };
        count.fetch_add(1, Ordering::SeqCst);
    }
}
