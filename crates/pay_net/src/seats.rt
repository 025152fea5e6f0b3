ghost use Rattle.std.specs.Prelude.{◌≡◌, ◌≢◌, ◌+◌, ◌*◌, ◌<◌, ◌++◌, ◌∷◌, List, [], IfOk, OnOk};
ghost use Rattle.std.specs.Prelude.{length, map};
ghost use Rattle.std.specs.List.{All};
ghost use Rattle.pay_node.specs.Keeping.{HasFetchedAlone};
ghost use Rattle.pay_node.specs.Seats.{SeatFields};
ghost use Rattle.pay_net.specs.Running.{others_below};
ghost use Rattle.pay_net.specs.Seating.{BringsWriters, IsFresh, SeatsOne};

use pay_node::{FetchSeat, Seat};
use pay_peers::PeerReader;
use std::alloc::{AllocError, Global};
use std::sync::Mutex;

/// The seats of a node: each peer's reader has a seat of its own, the writers to each peer share a
/// seat, and the desk has one. The list that they came in is kept, empty, so they return to it
/// without an allocation.
#[derive(Drop)]
pub(crate) struct Seats {
    pub readers: Vec<(u16, PeerReader)>,
    pub writers: Vec<(u16, Mutex<FetchSeat>)>,
    pub desk: Seat,
    pub left: Vec<Seat>,
}

/// Gives the desk the last of `seats`, and each worker one of the others.
pub(crate) fn seat_threads(
    alloc: Global,
    own: u16,
    members: u16,
    seats: Vec<Seat>,
) -> Result<Seats, AllocError>
    requires own { own < members }
    requires count { length seats.items + 1 ≡ 2 * members }
    requires fresh { All IsFresh seats.items }
    ensures desk { IfOk result (λ seated. (others : List SeatFields)
        × (seats.items ≡ others ++ seated.desk ∷ [])) }
    ensures peers { IfOk result (λ seated.
        map (λ r. r.0) seated.readers.items ≡ others_below own members) }
    ensures fresh { IfOk result (λ seated. All (λ r. IsFresh r.1.seat) seated.readers.items) }
    ensures writers { IfOk result (λ seated.
        map (λ w. w.0) seated.writers.items ≡ others_below own members) }
    ensures left { IfOk result (λ seated. seated.left.items ≡ []) }
{
    let mut left = seats;
    let desk = last_of(&mut left);
    let mut readers = Vec::new(alloc);
    let mut writers = Vec::new(alloc);
    for peer in 0..members {
        seat_peer(own, peer, &mut readers, &mut writers, &mut left)?;
    }
    Ok(Seats {
        readers,
        writers,
        desk,
        left,
    })
}

// Gives the reader of `peer` and the writers to it a seat each, and none to the member itself.
// promise: node's end
fn seat_peer(
    own: u16,
    peer: u16,
    readers: &mut Vec<(u16, PeerReader)>,
    writers: &mut Vec<(u16, Mutex<FetchSeat>)>,
    left: &mut Vec<Seat>,
) -> Result<(), AllocError>
    requires fresh { All IsFresh left.old.items }
    requires two { peer ≢ own → 1 < length left.old.items }
    ensures own { peer ≡ own → readers.new.items ≡ readers.old.items }
    ensures none { peer ≡ own → left.new.items ≡ left.old.items }
    ensures own_writer { peer ≡ own → writers.new.items ≡ writers.old.items }
    ensures writer { OnOk result (peer ≢ own → map (λ w. w.0) writers.new.items
        ≡ map (λ w. w.0) writers.old.items ++ peer ∷ []) }
    ensures peer { OnOk result (peer ≢ own → SeatsOne peer readers.old.items
        readers.new.items left.old.items left.new.items) }
{
    if peer != own {
        readers.push((peer, PeerReader::new(last_of(left))))?;
        let fetches = FetchSeat::new(last_of(left));
        writers.push((peer, Mutex::new(fetches)))?;
    }
    Ok(())
}

// Removes and returns the last of the seats that are left.
fn last_of(left: &mut Vec<Seat>) -> Seat
    requires { 0 < length left.old.items }
    ensures { left.old.items ≡ left.new.items ++ result ∷ [] }
{
    left.remove(left.len() - 1)
}

/// Returns all `seats` in one list, the readers' first and the desk's at its end.
///
/// No clause says that a seat which was under a lock is still the one that was lent. The shutdown
/// check finds that out.
pub(crate) fn gather_seats(seats: Seats) -> Result<Vec<Seat>, AllocError>
    requires { seats.left.items ≡ [] }
    ensures { IfOk result (λ all. (writers : List SeatFields) × All HasFetchedAlone writers
        × (all.items ≡ (map (λ r. r.1.seat) seats.readers.items ++ writers) ++ seats.desk ∷ [])) }
{
    let Seats {
        readers,
        writers,
        desk,
        left,
    } = seats;
    let mut all = left;
    gather_readers(&mut all, readers)?;
    gather_writers(&mut all, writers)?;
    all.push(desk)?;
    Ok(all)
}

fn gather_readers(all: &mut Vec<Seat>, readers: Vec<(u16, PeerReader)>) -> Result<(), AllocError>
    ensures { OnOk result
        (all.new.items ≡ all.old.items ++ map (λ r. r.1.seat) readers.items) }
{
    for (_, asking) in readers {
        let PeerReader { seat, .. } = asking;
        all.push(seat)?;
    }
    Ok(())
}

// promise: node's end
fn gather_writers(
    all: &mut Vec<Seat>,
    writers: Vec<(u16, Mutex<FetchSeat>)>,
) -> Result<(), AllocError>
    ensures { OnOk result
        (BringsWriters (length writers.items) all.old.items all.new.items) }
{
    for (_, seat) in writers {
        all.push(seat.into_inner().into_seat())?;
    }
    Ok(())
}
