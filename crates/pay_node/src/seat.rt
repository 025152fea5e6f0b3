//! A seat: one thread's access to a node's member, with its receipts and the marks of the bodies
//! that it fetched.

ghost use Rattle.std.specs.Prelude.{◌≡◌, ◌≢◌, ◌+◌, ℕ, Some, [], OnErr, OnOk, length, max};
ghost use Rattle.std.specs.Prelude.{slice_index_or, ◌↔◌, ◌<◌, Err, ◌∷◌, ◌++◌, IfOk, ◌-◌, IsTrue};
ghost use Rattle.std.specs.Prelude.{drop, vec_len, vec_capacity};
ghost use Rattle.pay_member.specs.Legal.{Legal};
ghost use Rattle.pay_member.specs.Questions.{Shows};
ghost use Rattle.pay_node.specs.Keeping.{mark_of, IsKeptFor, IsNoted, HasFetchedAlone};
ghost use Rattle.pay_node.specs.Receipts.{reading_at, reading_receipt, receipts_of};
ghost use Rattle.pay_node.specs.Seats.{IsOfNow, KeepsReceipt, SeatFields, StaysRight, latest};
ghost use Rattle.pay_member.specs.declared.reading.Reading.TheVariants as reading;

use crate::locked_member::OwnMember;
use crate::receipt::{Receipt, SeenCall};
use pay_frame::{Body, SharedBody};
use pay_member::question::SentFrom;
use pay_member::{Bodies, Event, MemberFault, Question, Reply};
use std::alloc::{AllocError, Global};
use std::marker::Model;

/// The value that stands for no place.
pub const NO_PLACE: u32 = u32::MAX;

/// Places among a seat's receipts, by number. Contracts see them as a list. Places from 2^32 - 1 on
/// can't be marked. That many receipts don't fit into memory.
#[derive(Drop)]
pub(crate) struct Marks {
    // 4 bytes each, while an `Option<u32>` has 8
    places: Vec<u32>,
}

impl Model for Marks {
    ghost use Rattle.std.specs.Prelude.{ℕ, List, Option, map};
    ghost use Rattle.pay_node.specs.Keeping.{marked_place};

    ghost Value = { List (Option ℕ) };

    ghost view = { λ m. map marked_place m.places.items };
}

impl Marks {
    /// Creates a list without marks.
    pub(crate) fn new(alloc: Global) -> Marks
        ensures { result ≡ [] }
    {
        Marks {
            places: Vec::new(alloc),
        }
    }

    /// Returns the place that is marked for `number`, if there is one.
    pub(crate) fn get(&self, number: usize) -> Option<usize>
        ensures { result ≡ mark_of self.now number }
    {
        match self.places.get(number) {
            Some(place) => if *place == NO_PLACE {
                None
            } else {
                Some(*place as usize)
            },
            None => None,
        }
    }

    /// Marks `place` for `number`. The list grows as far as necessary.
    pub(crate) fn set(&mut self, number: usize, place: usize) -> Result<(), AllocError>
        ensures set { OnOk result (mark_of self.new number ≡ Some place) }
        ensures others { OnOk result ((k : ℕ) → k ≢ number
            → mark_of self.new k ≡ mark_of self.old k) }
        ensures len { OnOk result (length self.new ≡ max (length self.old) (number + 1)) }
        ensures err { OnErr result (self.new ≡ self.old) }
    {
        let Ok(place) = u32::try_from(place) else {
            return Err(AllocError);
        };
        if place == NO_PLACE {
            return Err(AllocError);
        }
        put(&mut self.places, number, place)?;
        Ok(())
    }
}

// Writes `place` under `number`. The list grows as far as necessary.
fn put(places: &mut Vec<u32>, number: usize, place: u32) -> Result<(), AllocError>
    ensures set { OnOk result (slice_index_or places.new.items number NO_PLACE ≡ place) }
    ensures others { OnOk result ((k : ℕ) → k ≢ number
        → slice_index_or places.new.items k NO_PLACE ≡ slice_index_or places.old.items k NO_PLACE) }
    ensures len { OnOk result
        (length places.new.items ≡ max (length places.old.items) (number + 1)) }
    ensures err { OnErr result (places.new.items ≡ places.old.items) }
{
    if number >= places.len() {
        places.resize(number.saturating_add(1), NO_PLACE)?;
    }
    places[number] = place;
    Ok(())
}

/// The count of a seat's last receipts among which it looks for an equal one.
pub const LATEST: usize = 256;

/// A place from which calls are made, one at a time: a stamp, a receipt of each answered call, and
/// marks of the receipts of fetched bodies.
#[derive(Drop)]
pub struct Seat {
    stamp: u16,
    pub(crate) receipts: Vec<Receipt>,
    marks: Marks,
    // for the next call that a receipt can't keep by sharing
    pub(crate) room: Option<Box<SeenCall>>,
}

impl Model for Seat {
    ghost use Rattle.pay_node.specs.Seats.{SeatFields};

    ghost Value = { SeatFields };

    ghost view = { λ s. record {
      stamp = s.stamp;
      receipts = s.receipts.items;
      marks = s.marks;
    } };
}

impl Seat {
    /// Creates a seat of this `stamp`, without receipts.
    pub(crate) fn new(alloc: Global, stamp: u16) -> Seat
        ensures { result ≡ record { stamp = stamp; receipts = []; marks = [] } }
    {
        Seat {
            stamp,
            receipts: Vec::new(alloc),
            marks: Marks::new(alloc),
            room: None,
        }
    }

    /// Returns the seat's number among its node's. The history keeps what is handed in from this
    /// seat under that number.
    pub fn stamp(&self) -> u16
        ensures { result ≡ self.now.stamp }
    {
        self.stamp
    }

    /// Returns the receipts of all answers, oldest first.
    pub fn receipts(&self) -> &[Receipt]
        ensures { result.now ≡ self.now.receipts }
    {
        self.receipts.as_slice()
    }

    /// Makes room for one receipt, so that no room has to be made while others wait.
    pub(crate) fn make_room(&mut self, alloc: Global) -> Result<(), AllocError>
        ensures { self.new ≡ self.old }
    {
        let room = self.take_room(alloc)?;
        self.room = Some(room);
        self.receipts.reserve(1)
    }

    /// Returns the room for a call, and creates it if there is none.
    pub(crate) fn take_room(&mut self, alloc: Global) -> Result<Box<SeenCall>, AllocError>
        ensures { self.new ≡ self.old }
    {
        match self.room.take() {
            Some(room) => Ok(room),
            None => Ok(Box::new(alloc, SeenCall::none(alloc))?),
        }
    }

    /// Keeps the receipt of the `answer` that `member` shows to `question`. No second receipt is
    /// left if this one is among the latest and no later receipt saw more entries or has an entry.
    /// What was right stays right.
    // promise: receipts
    pub(crate) fn note<Q: Question>(
        &mut self,
        alloc: Global,
        member: &OwnMember,
        question: Q,
        answer: &Q::Answer,
    ) -> Result<(), AllocError>
        requires shown { Shows member.now (Q.reading question answer.now) }
        ensures receipt { OnOk result (KeepsReceipt self.old self.new
            (reading_at (length member.now.history) (Q.reading question answer.now))) }
        ensures err { OnErr result (self.new ≡ self.old) }
        ensures legal { OnOk result (Legal member.now.genesis member.now.keys
            member.now.history) }
        ensures own { StaysRight member.now self.old member.now self.new }
    {
        let seen = member.history().len();
        if is_read_now(self.latest(), seen, question, answer) {
            return Ok(());
        }
        let receipt = Receipt::of_reading(alloc, seen, question, answer)?;
        self.receipts.push(receipt)?;
        Ok(())
    }

    // Returns the receipts among which an equal one is looked for.
    fn latest(&self) -> &[Receipt]
        ensures are { result.now ≡ latest self.now }
        ensures count { result.now ≡ drop (length self.now.receipts - 256) self.now.receipts }
    {
        let first = self.receipts.len().saturating_sub(LATEST);
        &self.receipts[first..]
    }

    /// Returns the body that `member` sent at the place `number` of all, if it is there. If a
    /// receipt that shows this body is kept, no second one is left. What was right stays right.
    // promise: fetched bodies; answered WANTs
    pub(crate) fn note_once(
        &mut self,
        alloc: Global,
        member: &OwnMember,
        number: usize,
    ) -> Result<Option<SharedBody>, AllocError>
        ensures noted { IfOk result (λ found.
            IsNoted member.now self.old self.new number found) }
        ensures err { OnErr result (self.new ≡ self.old) }
        ensures legal { OnOk result (Legal member.now.genesis member.now.keys
            member.now.history) }
        ensures own { StaysRight member.now self.old member.now self.new }
    {
        let seen = member.history().len();
        match member.sent_shared(number as u64) {
            // no mark, for the body may still come
            None => {
                let question = SentFrom {
                    from: number,
                    max: 1,
                };
                let none = Bodies::new(Vec::new(alloc));
                self.note(alloc, member, question, &none)?;
                Ok(None)
            }
            Some(body) => {
                let found = body.copy()?;
                if self.keeps(number, body.body()) {
                    return Ok(Some(found));
                }
                self.keep_body(alloc, seen, number, body.copy()?)?;
                Ok(Some(found))
            }
        }
    }

    // Returns whether a receipt that shows this body is marked for `number`.
    fn keeps(&self, number: usize, body: &Body) -> bool
        ensures { IsTrue result ↔ IsKeptFor self.now number body.now }
    {
        match self.marks.get(number) {
            Some(place) => match self.receipts.get(place) {
                Some(receipt) => receipt.shows_alone(number, body),
                None => false,
            },
            None => false,
        }
    }

    // Keeps the receipt of the body of `number`, and marks it.
    fn keep_body(
        &mut self,
        alloc: Global,
        seen: usize,
        number: usize,
        body: SharedBody,
    ) -> Result<(), AllocError>
        ensures stamp { self.new.stamp ≡ self.old.stamp }
        ensures receipt { OnOk result (self.new.receipts ≡ self.old.receipts
            ++ reading_receipt seen (reading.Sent number 1 (body ∷ []))) }
        ensures mark { OnOk result
            (mark_of self.new.marks number ≡ Some (length self.old.receipts)) }
        ensures others { OnOk result ((k : ℕ) → k ≢ number
            → mark_of self.new.marks k ≡ mark_of self.old.marks k) }
        ensures room { OnOk result
            (length self.new.marks ≡ max (length self.old.marks) (number + 1)) }
        ensures err { OnErr result (self.new ≡ self.old) }
    {
        let receipt = Receipt::of_body(alloc, seen, number, body)?;
        self.receipts.reserve(1)?;
        self.marks.set(number, self.receipts.len())?;
        self.receipts.push_reserved(receipt);
        Ok(())
    }
}

// Returns whether one of these receipts is of `question` with this `answer`, at a history of `seen`
// entries, and no later one tells of more.
fn is_read_now<Q: Question>(
    receipts: &[Receipt],
    seen: usize,
    question: Q,
    answer: &Q::Answer,
) -> bool
    ensures { IsTrue result
        ↔ IsOfNow receipts.now (reading_at seen (Q.reading question answer.now)) }
{
    let mut is_found = false;
    for receipt in receipts {
        is_found = receipt.is_reading(seen, question, answer)
            || (is_found && receipt.tells_no_more(seen));
    }
    is_found
}

/// Keeps the receipt of `event`, which was handed in, and its `answer` among `receipts`, which have
/// space for it. A lack of memory has no receipt. The `room` for the call is returned if it wasn't
/// used.
pub(crate) fn keep(
    receipts: &mut Vec<Receipt>,
    room: Box<SeenCall>,
    seen: usize,
    event: Event,
    answer: Result<Reply, MemberFault>,
) -> Option<Box<SeenCall>>
    requires { vec_len receipts.old < vec_capacity receipts.old }
    ensures { receipts.new.items ≡ receipts.old.items ++ receipts_of seen event answer }
{
    if answer == Err(MemberFault::Memory) {
        return Some(room);
    }
    let (receipt, room) = Receipt::of_event(room, seen, event, answer);
    receipts.push_reserved(receipt);
    room
}

/// A seat from which only sent bodies are fetched. This holds even of a seat that comes out of a
/// lock.
#[derive(Drop)]
pub struct FetchSeat {
    seat: Seat,
}

impl Model for FetchSeat {
    ghost use Rattle.pay_node.specs.Keeping.{HasFetchedAlone};
    ghost use Rattle.pay_node.specs.Seats.{SeatFields};

    ghost Value = { SeatFields };

    ghost view = { λ s. s.seat };

    ghost invariant = { λ s. HasFetchedAlone s.seat };
}

impl FetchSeat {
    /// Creates a seat for fetches from `seat`, which has no receipt yet.
    pub fn new(seat: Seat) -> FetchSeat
        requires { seat.receipts ≡ [] }
        ensures { result ≡ seat }
    {
        FetchSeat { seat }
    }

    /// Returns the seat.
    // promise: node's end
    pub fn into_seat(self) -> Seat
        ensures seat { result ≡ self }
        ensures fetched { HasFetchedAlone result }
    {
        self.seat
    }

    /// Returns the receipts of all answers, oldest first.
    pub fn receipts(&self) -> &[Receipt]
        ensures { result.now ≡ self.now.receipts }
    {
        self.seat.receipts()
    }

    /// Makes room for one receipt, as [`Seat::make_room`].
    pub(crate) fn make_room(&mut self, alloc: Global) -> Result<(), AllocError>
        ensures { self.new ≡ self.old }
    {
        self.seat.make_room(alloc)
    }

    /// Returns the body that `member` sent at the place `number` of all, as [`Seat::note_once`].
    pub(crate) fn note_once(
        &mut self,
        alloc: Global,
        member: &OwnMember,
        number: usize,
    ) -> Result<Option<SharedBody>, AllocError>
        ensures noted { IfOk result (λ found.
            IsNoted member.now self.old self.new number found) }
        ensures err { OnErr result (self.new ≡ self.old) }
        ensures legal { OnOk result (Legal member.now.genesis member.now.keys
            member.now.history) }
    {
        self.seat.note_once(alloc, member, number)
    }
}
