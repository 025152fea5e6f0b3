//! The shutdown check of a node: its seats are compared with its member's history, which is
//! replayed.

ghost use Rattle.std.specs.Prelude.{◌≡◌, ◌↔◌, ◌≢◌, ◌≤◌, None, IfOk, IsTrue, length, IfSome, OnOk};
ghost use Rattle.std.specs.Prelude.{IfErr};
ghost use Rattle.std.specs.List.{All, fold};
ghost use Rattle.pay_node.specs.Closing.{IsCount, IsCounted, HasConsistentSeat, IsVerdict, lesser};
ghost use Rattle.pay_node.specs.Closing.{AllReconciled, IsCloseFault};
ghost use Rattle.pay_node.specs.Faults.{close_fault_name, close_fault_number};
ghost use Rattle.pay_node.specs.Judging.{EachConsistent, AreAllCounted, CountedConsistent};
ghost use Rattle.pay_node.specs.Judging.{FirstConsistent};
ghost use Rattle.pay_node.specs.Nodes.{IsOwn, base_of};

use crate::comparing::Compared;
use crate::judging::{entries_since, has_its_entries, is_consistent_here, is_right};
use crate::locked_member::{Beginning, LockedMember, OwnMember, OwnReplay};
use crate::node::Node;
use crate::seat::Seat;
use pay_link::Keys;
use pay_member::{HistoryEntry, Replay};
use std::alloc::{AllocError, Global};
use std::fmt;
use std::marker::Model;
use std::sync::Mutex;
use thiserror::Error;

/// The reason why the shutdown check of a node fails.
#[derive(Clone, Copy, Debug, PartialEq, Eq, Error)]
pub enum CloseFault {
    /// Memory ran out, and the receipts weren't judged. The stamp is the least bad one that is
    /// found without memory, if there is one. Its seat is missing, doubled or not of this node, or
    /// the history has another number of entries of that stamp than the seat's receipts.
    Memory(Option<u16>),
    /// The seats with this stamp, the least such stamp, and the history don't agree.
    Mismatch(u16),
}

impl CloseFault {
    /// Returns the fault's number among those of the shutdown check, from 0 on.
    pub fn number(self) -> u8
        ensures value { result ≡ close_fault_number self }
    {
        match self {
            CloseFault::Memory(_) => 0,
            CloseFault::Mismatch(_) => 1,
        }
    }

    /// Returns the fault's name, without a stamp.
    pub fn name(self) -> &'static str
        ensures value { result.now ≡ close_fault_name self }
    {
        match self {
            CloseFault::Memory(_) => "Memory",
            CloseFault::Mismatch(_) => "Mismatch",
        }
    }
}

impl fmt::Display for CloseFault {
    ghost use Rattle.std.specs.Prelude.{Some};
    ghost use Rattle.pay_node.specs.Faults.{close_fault_words};

    ghost output = { λ fault. Some (close_fault_words fault) };

    fn fmt<W: fmt::Write>(&self, f: &mut fmt::Formatter<W>) -> fmt::Result {
        write!(f, "{} {}", self.number(), self.name())
    }
}

/// Returns the least stamp that isn't reconciled with the history from `base` on, if there is one.
pub(crate) fn least_wrong(
    alloc: Global,
    member: &OwnMember,
    base: usize,
    count: u16,
    seats: &[Seat],
) -> Result<Option<u16>, AllocError>
    requires { base ≤ length member.now.history }
    ensures { IfOk result (λ found. IsVerdict member.now base count seats.now found) }
{
    let is_each_known = bears_out_each(alloc, member, base, seats)?;
    for stamp in 0..count {
        if !is_kept(alloc, member, base, seats, stamp, is_each_known)? {
            return Ok(Some(stamp));
        }
    }
    let of_seats = least_of_seats(seats, count);
    let since = entries_since(member.history(), base);
    Ok(least_of_entries(of_seats, since, count))
}

/// Returns the least stamp, if there is one, that isn't counted from `base` on. A stamp is counted
/// if it belongs to one seat, with as many receipts of entries as the history has. The call
/// allocates nothing.
// promise: closing
pub(crate) fn least_uncounted(
    member: &OwnMember,
    base: usize,
    count: u16,
    seats: &[Seat],
) -> Option<u16>
    requires { base ≤ length member.now.history }
    ensures { IsCount member.now base count seats.now result }
{
    for stamp in 0..count {
        if !is_counted(member, base, seats, stamp) {
            return Some(stamp);
        }
    }
    let of_seats = least_of_seats(seats, count);
    let since = entries_since(member.history(), base);
    least_of_entries(of_seats, since, count)
}

// Returns whether one seat has `stamp`, and is right.
fn is_kept(
    alloc: Global,
    member: &OwnMember,
    base: usize,
    seats: &[Seat],
    stamp: u16,
    is_each_known: bool,
) -> Result<bool, AllocError>
    requires within { base ≤ length member.now.history }
    requires known { IsTrue is_each_known → All (λ s. EachConsistent member.now s) seats.now }
    ensures { IfOk result (λ says. IsTrue says
        ↔ HasConsistentSeat member.now base stamp seats.now) }
{
    let mut met = false;
    for seat in seats {
        if seat.stamp() == stamp {
            if met || !is_right(alloc, member, base, seat, is_each_known)? {
                return Ok(false);
            }
            met = true;
        }
    }
    Ok(met)
}

// Returns whether one seat has `stamp`, and its receipts tell as many entries as there are.
fn is_counted(member: &OwnMember, base: usize, seats: &[Seat], stamp: u16) -> bool
    requires { base ≤ length member.now.history }
    ensures { IsTrue result ↔ IsCounted member.now base stamp seats.now }
{
    let mut met = false;
    for seat in seats {
        if seat.stamp() == stamp {
            if met || !has_its_entries(member, base, seat) {
                return false;
            }
            met = true;
        }
    }
    met
}

// Returns the least stamp of `seats` that is at least `count`.
fn least_of_seats(seats: &[Seat], count: u16) -> Option<u16>
    ensures { result ≡ fold (λ least s. lesser count least s.stamp) None seats.now }
{
    let mut least = None;
    for seat in seats {
        least = lesser_of(count, least, seat.stamp());
    }
    least
}

// Returns the least stamp of an entry that is at least `count`, or `found`, if that is less.
fn least_of_entries(found: Option<u16>, history: &[HistoryEntry], count: u16) -> Option<u16>
    ensures { result ≡ fold (λ least e. lesser count least e.stamp) found history.now }
{
    let mut least = found;
    for entry in history {
        least = lesser_of(count, least, entry.stamp);
    }
    least
}

fn lesser_of(count: u16, least: Option<u16>, stamp: u16) -> Option<u16>
    ensures { result ≡ lesser count least stamp }
{
    match least {
        None => { if count <= stamp { Some(stamp) } else { None } }
        Some(least) => {
            if count <= stamp && stamp < least {
                Some(stamp)
            } else {
                Some(least)
            }
        }
    }
}

/// Returns `true` only if the history of `member` is consistent with each receipt of all `seats`.
/// If the answer is `false`, nothing is known: a receipt may be wrong, stand out of its seat's
/// order, or be from before `base`.
pub(crate) fn bears_out_each(
    alloc: Global,
    member: &OwnMember,
    base: usize,
    seats: &[Seat],
) -> Result<bool, AllocError>
    ensures { IfOk result (λ says. IsTrue says → All (λ s. EachConsistent member.now s) seats.now) }
{
    let mut replay = Replay::new(alloc, member)?;
    let mut counts = vec![in alloc; 0; seats.len()]?;
    count_all(alloc, &mut replay, base, seats, counts.as_mut_slice())
}

// Returns what `bears_out_each` returns, with a count for each seat. No entry of the history was
// replayed yet.
fn count_all(
    alloc: Global,
    replay: &mut OwnReplay<'_>,
    base: usize,
    seats: &[Seat],
    counts: &mut [usize],
) -> Result<bool, AllocError>
    requires fresh { replay.old.taken ≡ 0 }
    requires same { length counts.old ≡ length seats.now }
    requires counted { CountedConsistent replay.old.member seats.now counts.old }
    ensures { IfOk result (λ says. IsTrue says
        → All (λ s. EachConsistent replay.old.member s) seats.now) }
{
    for place in base..replay.history().len() + 1 {
        replay_to(alloc, replay, place)?;
        if !count_here(alloc, replay, seats, counts)? {
            return Ok(false);
        }
    }
    Ok(are_all_counted(seats, counts))
}

// Counts for each seat the receipts that saw as many entries as were replayed, if the history is
// consistent with them.
fn count_here(
    alloc: Global,
    replay: &OwnReplay<'_>,
    seats: &[Seat],
    counts: &mut [usize],
) -> Result<bool, AllocError>
    requires same { length counts.old ≡ length seats.now }
    requires counted { CountedConsistent replay.now.member seats.now counts.old }
    ensures counted { IfOk result (λ says. IsTrue says
        → CountedConsistent replay.now.member seats.now counts.new) }
    ensures same { length counts.new ≡ length seats.now }
{
    for k in 0..seats.len() {
        match count_from(alloc, replay, &seats[k], counts[k])? {
            Some(count) => counts[k] = count,
            None => return Ok(false),
        }
    }
    Ok(true)
}

// Returns how many receipts of `seat` from `first` on are consistent, up to the first that saw
// another number of entries than were replayed. Returns `None` if a receipt isn't consistent.
fn count_from(
    alloc: Global,
    replay: &OwnReplay<'_>,
    seat: &Seat,
    first: usize,
) -> Result<Option<usize>, AllocError>
    requires { FirstConsistent replay.now.member seat.now first }
    ensures { IfOk result (λ count. IfSome count (λ n.
        FirstConsistent replay.now.member seat.now n)) }
{
    let receipts = seat.receipts();
    for k in first..receipts.len() {
        let receipt = &receipts[k];
        if receipt.history_len() != replay.entries_taken() {
            return Ok(Some(k));
        }
        if !is_consistent_here(alloc, replay, seat.stamp(), receipt)? {
            return Ok(None);
        }
    }
    Ok(Some(receipts.len()))
}

// Returns whether `counts` are the counts of all receipts.
fn are_all_counted(seats: &[Seat], counts: &[usize]) -> bool
    requires { length counts.now ≡ length seats.now }
    ensures { IsTrue result → AreAllCounted seats.now counts.now }
{
    for k in 0..seats.len() {
        if counts[k] != seats[k].receipts().len() {
            return false;
        }
    }
    true
}

/// Replays the entries that are left before `place`.
pub(crate) fn replay_to(
    alloc: Global,
    replay: &mut OwnReplay<'_>,
    place: usize,
) -> Result<(), AllocError>
    requires ahead { replay.old.taken ≤ place }
    requires within { place ≤ length replay.old.member.history }
    ensures { OnOk result (replay.new ≡ record replay.old { taken = place }) }
{
    for _k in replay.entries_taken()..place {
        replay.step(alloc)?;
    }
    Ok(())
}

// The shutdown check takes the member out of the lock first (`Stopped`), so a clause can say when a
// mismatch is named. It replays the history (`Replay`), because a receipt tells what a shorter
// history showed. Without memory it still counts each seat's entries.
/// A node that no thread calls any more, with its member out of the lock. So what is said about its
/// member holds for the member that is returned or started again.
#[derive(Drop)]
pub struct Stopped<S: Beginning> {
    pub(crate) member: LockedMember<S>,
    pub(crate) keys: Keys,
    pub(crate) seats: u16,
    pub(crate) compared: Option<Mutex<Compared<S>>>,
}

impl<S: Beginning> Model for Stopped<S> {
    ghost use Rattle.std.specs.Prelude.{◌≡◌, is_some};
    ghost use Rattle.pay_node.specs.Nodes.{StoppedFields, node_as};

    ghost Value = { StoppedFields };

    ghost view = { λ s. record {
      member = s.member;
      node = node_as S.beginning s.seats (is_some s.compared);
    } };

    ghost invariant = { λ s. s.keys ≡ S.beginning.keys };
}

impl<S: Beginning> Stopped<S> {
    /// Returns the member as the last call left it.
    pub fn member(&self) -> &OwnMember
        ensures { result.now ≡ self.now.member }
    {
        self.member.member()
    }

    /// Returns the member, whatever the seats contain.
    pub fn into_member(self) -> OwnMember
        ensures { result ≡ self.member }
    {
        self.member.into_member()
    }

    /// Returns the node, with its member under the lock again.
    pub fn start(self) -> Node<S>
        ensures { result ≡ self.node }
    {
        Node::of_parts(self.member, self.keys, self.seats, self.compared)
    }

    /// Compares the receipts of all `seats` with the history, and returns the member if they agree.
    ///
    /// If they don't agree, it names the least stamp that is missing, doubled, not of this node or
    /// wrong, and returns the node unchanged. If memory runs out, each seat's entries are still
    /// counted.
    // promise: closing (own, closed, fault)
    pub fn close(self, alloc: Global, seats: &[Seat]) -> Result<OwnMember, (CloseFault, Stopped<S>)>
        ensures member { IfOk result (λ member. member ≡ self.member) }
        ensures own { IsOwn self.node self.member }
        ensures closed { IfOk result (λ _. AllReconciled self.member (base_of self.node)
            self.node.seats seats.now) }
        ensures fault { IfErr result (λ back. IsCloseFault self.node self.member seats.now back.0) }
        ensures back { IfErr result (λ back. back.1 ≡ self) }
    {
        let base = self.member.base();
        match least_wrong(alloc, self.member.member(), base, self.seats, seats) {
            Ok(None) => Ok(self.member.into_member()),
            Ok(Some(stamp)) => Err((CloseFault::Mismatch(stamp), self)),
            Err(_) => {
                let uncounted = least_uncounted(self.member.member(), base, self.seats, seats);
                Err((CloseFault::Memory(uncounted), self))
            }
        }
    }
}
