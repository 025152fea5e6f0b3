//! Tests of whether a history is consistent with a seat's receipts.

ghost use Rattle.std.specs.Prelude.{◌≡◌, ◌↔◌, IsTrue, ◌≤◌, ◌==◌, [], ◌∷◌, drop, length, slice_get};
ghost use Rattle.std.specs.Prelude.{IfOk, IfSome};
ghost use Rattle.std.specs.List.{All, AllPairs, count_by};
ghost use Rattle.pay_member.specs.Questions.{Shows};
ghost use Rattle.pay_member.specs.Replay.{member_replayed};
ghost use Rattle.pay_node.specs.Judging.{AreConsistent, EachConsistent, IsNextConsistent};
ghost use Rattle.pay_node.specs.Receipts.{IsConsistent, entries_after, has_entry};
ghost use Rattle.pay_node.specs.Seats.{HasItsEntries, Right};
ghost use Rattle.pay_member.specs.declared.reading.Reading.TheVariants as reading;

use crate::closing::replay_to;
use crate::locked_member::{OwnMember, OwnReplay};
use crate::receipt::{Call, Receipt, ReceiptForm, place_by_parts, took_in};
use crate::seat::Seat;
use pay_frame::Body;
use pay_link::Checked;
use pay_member::{Event, HistoryEntry, Replay, Reply, is_same_body};
use std::alloc::{AllocError, Global};

pub(crate) fn is_same_event(a: &Event, b: &Event) -> bool
    ensures { IsTrue result ↔ (a.now ≡ b.now) }
{
    match (a, b) {
        (Event::Ask(a), Event::Ask(b)) => a.as_slice() == b.as_slice(),
        (Event::Taken(a), Event::Taken(b)) => is_same_frame(a, b),
        (Event::Query(a), Event::Query(b)) => a == b,
        (Event::Ask(_), Event::Taken(_) | Event::Query(_))
        | (Event::Taken(_), Event::Ask(_) | Event::Query(_))
        | (Event::Query(_), Event::Ask(_) | Event::Taken(_)) => false,
    }
}

/// Returns whether `event` is that `frame` was accepted.
pub(crate) fn is_taken(event: &Event, frame: &Checked) -> bool
    ensures { IsTrue result ↔ (event.now ≡ Event.Taken frame.now) }
{
    match event {
        Event::Taken(taken) => is_same_frame(taken, frame),
        Event::Ask(_) | Event::Query(_) => false,
    }
}

fn is_same_frame(a: &Checked, b: &Checked) -> bool
    ensures { IsTrue result ↔ (a.now ≡ b.now) }
{
    a.from() == b.from()
        && a.to() == b.to()
        && a.number() == b.number()
        && is_same_body(a.body(), b.body())
        && a.key() == b.key()
}

/// Returns whether the history of `member` is consistent with all receipts of `seat`, from `base`
/// on. The history is replayed, unless `is_each_known` says that it is consistent with each receipt
/// and the receipts are in order.
pub(crate) fn is_right(
    alloc: Global,
    member: &OwnMember,
    base: usize,
    seat: &Seat,
    is_each_known: bool,
) -> Result<bool, AllocError>
    requires within { base ≤ length member.now.history }
    requires known { IsTrue is_each_known → EachConsistent member.now seat.now }
    ensures { IfOk result (λ says. IsTrue says ↔ Right member.now base seat.now) }
{
    if !has_its_entries(member, base, seat) {
        return Ok(false);
    }
    let receipts = seat.receipts();
    let stamp = seat.stamp();
    if is_each_known && are_in_order(base, receipts) {
        return Ok(true);
    }
    let mut replay = Replay::new(alloc, member)?;
    replay_to(alloc, &mut replay, base)?;
    are_consistent(alloc, &mut replay, stamp, receipts)
}

/// Returns whether the history of `member` has as many entries with the stamp of `seat`, from
/// `base` on, as the seat's receipts tell.
pub(crate) fn has_its_entries(member: &OwnMember, base: usize, seat: &Seat) -> bool
    requires { base ≤ length member.now.history }
    ensures { IsTrue result ↔ HasItsEntries member.now base seat.now }
{
    let since = entries_since(member.history(), base);
    entries_under(since, seat.stamp()) == entries_told(seat.receipts())
}

/// Returns the entries of `history` from `base` on.
pub(crate) fn entries_since(history: &[HistoryEntry], base: usize) -> &[HistoryEntry]
    requires { base ≤ length history.now }
    ensures { result.now ≡ drop base history.now }
{
    &history[base..]
}

/// Returns how many entries of `history` have `stamp`.
pub(crate) fn entries_under(history: &[HistoryEntry], stamp: u16) -> usize
    ensures { result ≡ count_by (λ e. e.stamp == stamp) history.now }
{
    let mut count = 0;
    for entry in history {
        if entry.stamp == stamp {
            count += 1;
        }
    }
    count
}

// Returns how many receipts are of calls with an entry.
fn entries_told(receipts: &[Receipt]) -> usize
    ensures { result ≡ count_by (λ r. has_entry r.call) receipts.now }
{
    let mut count = 0;
    for receipt in receipts {
        if receipt.has_entry() {
            count += 1;
        }
    }
    count
}

// Returns `true` only if `receipts` are in order: no receipt saw fewer entries than there were
// after the one before it, and the first saw no fewer than `base`. If it returns `false`, nothing
// is known.
fn are_in_order(base: usize, receipts: &[Receipt]) -> bool
    ensures since { IsTrue result → All (λ r. base ≤ r.seen) receipts.now }
    ensures ordered { IsTrue result
        → AllPairs (λ r later. entries_after r ≤ later.seen) receipts.now }
{
    let mut least = base;
    for receipt in receipts {
        let Some(after) = entries_after(receipt) else {
            return false;
        };
        if receipt.history_len() < least {
            return false;
        }
        least = after;
    }
    true
}

// Returns how many entries the history had after a call was answered, if a number can say it.
fn entries_after(receipt: &Receipt) -> Option<usize>
    ensures { IfSome result (λ count. count ≡ entries_after receipt.now) }
{
    if receipt.has_entry() {
        receipt.history_len().checked_add(1)
    } else {
        Some(receipt.history_len())
    }
}

// Returns whether a history is consistent with `receipts`, one after the other, and whether they
// are in order. In order, no receipt saw fewer entries than there were before it, and the first no
// fewer than were replayed. The history is replayed up to the end of each call.
fn are_consistent(
    alloc: Global,
    replay: &mut OwnReplay<'_>,
    stamp: u16,
    receipts: &[Receipt],
) -> Result<bool, AllocError>
    ensures { IfOk result (λ says. IsTrue says
        ↔ AreConsistent replay.old.member stamp replay.old.taken receipts.now) }
{
    for receipt in receipts {
        if !is_next_consistent(alloc, replay, stamp, receipt)? {
            return Ok(false);
        }
    }
    Ok(true)
}

// Returns whether a history is consistent with `receipt`, and the receipt saw no fewer entries than
// were replayed. If so, the history is replayed up to the call's end.
fn is_next_consistent(
    alloc: Global,
    replay: &mut OwnReplay<'_>,
    stamp: u16,
    receipt: &Receipt,
) -> Result<bool, AllocError>
    ensures says { IfOk result (λ says. IsTrue says
        ↔ IsNextConsistent replay.old.member stamp replay.old.taken receipt.now) }
    ensures taken { IfOk result (λ says. IsTrue says
        → replay.new ≡ record replay.old { taken = entries_after receipt.now }) }
{
    let seen = receipt.history_len();
    if seen < replay.entries_taken() || seen > replay.history().len() {
        return Ok(false);
    }
    replay_to(alloc, replay, seen)?;
    if !is_consistent_here(alloc, replay, stamp, receipt)? {
        return Ok(false);
    }
    if receipt.has_entry() {
        replay.step(alloc)?;
    }
    Ok(true)
}

/// Returns whether a history is consistent with `receipt`, which saw as many entries as were
/// replayed.
pub(crate) fn is_consistent_here(
    alloc: Global,
    replay: &OwnReplay<'_>,
    stamp: u16,
    receipt: &Receipt,
) -> Result<bool, AllocError>
    requires { receipt.now.seen ≡ replay.now.taken }
    ensures { IfOk result (λ says. IsTrue says
        ↔ IsConsistent replay.now.member stamp receipt.now.seen receipt.now.call) }
{
    let seen = replay.entries_taken();
    match receipt.form() {
        ReceiptForm::Taken {
            flags,
            settled,
            frame,
            ..
        } => {
            let reply = Reply::Took(took_in(*flags, *settled));
            Ok(has_taken_at(replay.history(), seen, stamp, frame, reply))
        }
        ReceiptForm::Sent {
            high,
            low,
            body,
            ..
        } => Ok(has_sent(replay, place_by_parts(*high, *low), body.body())),
        ReceiptForm::Other(other) => is_call_consistent(alloc, replay, stamp, &other.call),
    }
}

// Returns whether a history is consistent with `call`, which saw as many entries as were replayed.
fn is_call_consistent(
    alloc: Global,
    replay: &OwnReplay<'_>,
    stamp: u16,
    call: &Call,
) -> Result<bool, AllocError>
    ensures { IfOk result (λ says. IsTrue says
        ↔ IsConsistent replay.now.member stamp replay.now.taken call.now) }
{
    let seen = replay.entries_taken();
    match call {
        Call::Handed {
            event,
            answer: Ok(reply),
        } => Ok(has_entry_at(replay.history(), seen, stamp, event, *reply)),
        Call::Handed {
            event,
            answer: Err(fault),
        } => Ok(replay.refusal(event) == Some(*fault)),
        Call::Read(reading) => {
            let view = replay.view();
            reading.is_shown(alloc, &view)
        }
    }
}

// Returns whether the entry of an accepted frame stands at `place`.
fn has_taken_at(
    history: &[HistoryEntry],
    place: usize,
    stamp: u16,
    frame: &Checked,
    reply: Reply,
) -> bool
    ensures { IsTrue result ↔ (slice_get history.now place
        ≡ Some (record { stamp = stamp; event = Event.Taken frame.now; reply = reply })) }
{
    match history.get(place) {
        Some(entry) => {
            entry.stamp == stamp && is_taken(&entry.event, frame) && entry.reply == reply
        }
        None => false,
    }
}

// Returns whether a member had sent `body` at a place of all that it sent.
fn has_sent(replay: &OwnReplay<'_>, number: usize, body: &Body) -> bool
    ensures { IsTrue result
        ↔ Shows (member_replayed replay.now) (reading.Sent number 1 (body.now ∷ [])) }
{
    let view = replay.view();
    match view.sent(number as u64) {
        Some(sent) => is_same_body(sent, body),
        None => false,
    }
}

// Returns whether an entry stands at `place`.
fn has_entry_at(
    history: &[HistoryEntry],
    place: usize,
    stamp: u16,
    event: &Event,
    reply: Reply,
) -> bool
    ensures { IsTrue result ↔ (slice_get history.now place
        ≡ Some (record { stamp = stamp; event = event.now; reply = reply })) }
{
    match history.get(place) {
        Some(entry) => {
            entry.stamp == stamp && is_same_event(&entry.event, event) && entry.reply == reply
        }
        None => false,
    }
}
