ghost use Rattle.std.specs.Prelude.{◌≡◌, ◌+◌, ◌<◌, ◌≤◌, ◌^◌, IfNone, IfSome};
ghost use Rattle.pay_peers.specs.Window.{CanAskAhead, count_behind, first_count, first_window};
ghost use Rattle.pay_peers.specs.Window.{from_behind, moved_window, empty_window};

/// The greatest pipelining depth: the most frames of a peer that may be in flight.
///
/// That many WANTs, of 56 bytes each, may be under way while the peer waits, or writes to this
/// node. The WANTs of a window of 1,024 frames have 57,344 bytes. If the two sockets hold less
/// between them, the requesting side waits in a write, and so reads nothing. The answering side may
/// then wait to write. A writer of WANTs therefore has to abandon a write that takes too long, as a
/// node's writer does. The writer's next connection begins with a small window, and what came
/// before stays.
pub const MOST_AHEAD: u64 = 1_024;

/// The usual pipelining depth: 14,336 bytes of WANTs, which fit into the send buffer that Linux
/// gives a connection.
const USUAL_AHEAD: u64 = 256;

/// The count of frames that are requested when a connection begins: as many as a member sends about
/// one payment, and one more.
const FIRST_AHEAD: u64 = 4;

/// The most WANTs that an answer leads to, so that a window opens by one with each frame.
const MOST_WANTS: u64 = 2;

/// A pipelining depth: how many frames of a peer may be in flight, from 1 to [`MOST_AHEAD`].
#[derive(Clone, Copy, Debug, PartialEq, Eq)]
pub struct Ahead {
    pub count: u64,
    ghost within: { CanAskAhead count },
}

impl Ahead {
    /// Creates a pipelining depth of `count` frames, if that is allowed.
    pub fn new(count: u64) -> Option<Ahead>
        ensures some { IfSome result (λ ahead. (ahead.count ≡ count) × CanAskAhead count) }
        ensures none { IfNone result (¬ (CanAskAhead count)) }
    {
        if count > 0 && count <= MOST_AHEAD {
            Some(Ahead { count })
        } else {
            None
        }
    }

    /// Returns the usual pipelining depth.
    pub fn usual() -> Ahead
        ensures { result.count ≡ 256 }
    {
        Ahead { count: USUAL_AHEAD }
    }
}

// A connection begins with requests for four frames, and its window opens by one with each frame.
// If connections lasted for a few frames only, a whole window would be lost each time. Up to 1,024
// frames may be in flight, and their WANTs have 57,344 bytes. If the sockets hold less, both sides
// could wait to write, so a write of WANTs is abandoned after a second.
/// The frames of a peer that are in flight on a connection: those from the expected one on, before
/// the next one to request.
#[derive(Clone, Copy, Debug, PartialEq, Eq)]
pub struct Window {
    /// The number of the expected frame.
    pub due: u64,
    /// The least number that wasn't requested yet.
    pub asked: u64,
}

/// The numbers that are requested after an answer: `count` of them, from `from` on.
#[derive(Clone, Copy, Debug, PartialEq, Eq)]
pub(crate) struct Asks {
    pub(crate) from: u64,
    pub(crate) count: u64,
}

impl Window {
    /// Creates a window without requests.
    pub fn new() -> Window
        ensures { result ≡ empty_window }
    {
        Window { due: 0, asked: 0 }
    }

    /// Creates the window of a new connection: the frames from `from` on are requested, as many as
    /// a connection begins with. Returns `None` if there aren't that many numbers.
    pub fn first(ahead: Ahead, from: u64) -> Option<Window>
        ensures some { IfSome result (λ window. window ≡ first_window ahead.count from) }
        ensures none { IfNone result (2 ^ 64 ≤ from + first_count ahead.count) }
    {
        let asked = from.checked_add(ahead.count.min(FIRST_AHEAD))?;
        Some(Window { due: from, asked })
    }

    /// Advances past the expected frame, at a depth of `ahead` frames. `next` is the number that
    /// the member expects now. Returns the numbers to request then.
    pub(crate) fn move_to(&mut self, next: u64, ahead: Ahead) -> Asks
        ensures moved { self.new ≡ moved_window ahead.count self.old next }
        ensures from { result.from ≡ from_behind self.old next }
        ensures count { result.count ≡ count_behind ahead.count self.old next }
        ensures fits { result.from + result.count < 2 ^ 64 }
    {
        let due = if self.asked.saturating_sub(self.due) > 1 {
            self.due + 1
        } else {
            self.asked.max(next)
        };
        let from = self.asked.max(due);
        let count = if next <= from {
            ahead
                .count
                .saturating_sub(from - due)
                .min(MOST_WANTS)
                .min(u64::MAX - from)
        } else {
            0
        };
        self.due = due;
        self.asked = from + count;
        Asks { from, count }
    }
}
