//! Receipts: the calls of a node, and what a seat keeps of each.

ghost use Rattle.std.specs.Prelude.{◌≡◌, ◌↔◌, [], ◌∷◌, IsTrue, ◌≤◌, IfOk, IfSome, Ok};
ghost use Rattle.pay_node.specs.Receipts.{fault_of_call, flags_of, has_entry, place_by_parts};
ghost use Rattle.pay_node.specs.Receipts.{ShowsAlone, receipt_in, took_in};
ghost use Rattle.pay_node.specs.Receipts.{entries_after, reading_at};
ghost use Rattle.pay_member.specs.declared.reading.Reading.TheVariants as reading;

use pay_frame::{Body, SharedBody};
use pay_link::Checked;
use pay_member::{
    Bodies, Event, MemberFault, Question, Reading, Reply, Took, is_alone, is_same_body,
};
use std::alloc::{AllocError, Global};
use std::marker::Model;
use std::mem::size_of;

/// A call and its answer.
#[derive(Drop)]
pub enum Call {
    /// An event was handed in: the member's reply, or why the event was refused.
    Handed {
        event: Event,
        answer: Result<Reply, MemberFault>,
    },
    /// A question was answered.
    Read(Reading),
}

impl Call {
    /// Returns whether the call has an entry in the history.
    pub(crate) fn has_entry(&self) -> bool
        ensures { result ≡ has_entry self.now }
    {
        match self {
            Call::Handed { answer: Ok(_), .. } => true,
            Call::Handed { answer: Err(_), .. } | Call::Read(_) => false,
        }
    }

    /// Returns why the event that was handed in was refused, if it was.
    pub(crate) fn fault(&self) -> Option<MemberFault>
        ensures { result ≡ fault_of_call self.now }
    {
        match self {
            Call::Handed {
                answer: Err(fault),
                ..
            } => Some(*fault),
            Call::Handed { answer: Ok(_), .. } | Call::Read(_) => None,
        }
    }

    /// Returns whether the call is the reading of `body` at `number`, alone.
    pub(crate) fn is_of_body(&self, number: usize, body: &Body) -> bool
        ensures { IsTrue result ↔ (self.now ≡ Call.Read (reading.Sent number 1 (body.now ∷ []))) }
    {
        match self {
            Call::Read(Reading::Sent { from, max, bodies }) => {
                *from == number && *max == 1 && is_alone(bodies.as_slice(), body)
            }
            _ => false,
        }
    }

    /// Returns whether the call is `question` with this `answer`.
    pub(crate) fn is_of<Q: Question>(&self, question: Q, answer: &Q::Answer) -> bool
        ensures { IsTrue result ↔ (self.now ≡ Call.Read (Q.reading question answer.now)) }
    {
        match self {
            Call::Read(reading) => question.is_reading(answer, reading),
            Call::Handed { .. } => false,
        }
    }
}

/// The number that the low part of a stored place counts up to.
pub const LOW: usize = 1 << 16;

/// A call, and how many entries the history had before it.
#[derive(Drop)]
pub(crate) struct SeenCall {
    seen: usize,
    pub(crate) call: Call,
}

impl SeenCall {
    /// Returns what stands in the room for a call before there is one.
    pub(crate) fn none(alloc: Global) -> SeenCall {
        let bodies = Bodies::new(Vec::new(alloc));
        SeenCall {
            seen: 0,
            call: Call::Read(Reading::Sent {
                from: 0,
                max: 0,
                bodies,
            }),
        }
    }
}

/// A receipt as it is stored, in 16 bytes. Nearly all calls are an accepted frame or a fetched
/// body, which share what the member has. `seen` is how many entries the history had before the
/// call.
#[derive(Drop)]
pub(crate) enum ReceiptForm {
    /// The member accepted this frame. `flags` and `settled` say what followed from it.
    Taken {
        flags: u8,
        settled: u16,
        seen: u32,
        frame: Checked,
    },
    /// The member showed this body alone at the place `high` * 65,536 + `low` of all that it sent.
    Sent {
        high: u8,
        low: u16,
        seen: u32,
        body: SharedBody,
    },
    /// Any other call, and one with a number that has no room in the other forms.
    Other(Box<SeenCall>),
}

// A refused frame stays in its receipt with its value. A clause says of that very frame that the
// entries before the call require this refusal.
/// An answered call of a seat. Contracts see it as how many entries the history had before the
/// call, and the call with its answer.
#[derive(Drop)]
pub struct Receipt {
    form: ReceiptForm,
}

const _: () = prove!(size_of::<Receipt>() == 16);

impl Model for Receipt {
    ghost use Rattle.pay_node.specs.Receipts.{ReceiptFields, receipt_in};

    ghost Value = { ReceiptFields };

    ghost view = { λ r. receipt_in r.form };
}

impl Receipt {
    /// Creates the receipt of `event`, which was handed in at a history of `seen` entries, and of
    /// its `answer`. The event is put into `room` unless it is an accepted frame: then the room is
    /// returned.
    pub(crate) fn of_event(
        room: Box<SeenCall>,
        seen: usize,
        event: Event,
        answer: Result<Reply, MemberFault>,
    ) -> (Receipt, Option<Box<SeenCall>>)
        ensures { result.0 ≡ record { seen = seen; call = Call.Handed event answer } }
    {
        let packed = Packed::of(seen, &answer);
        match (event, packed) {
            (Event::Taken(frame), Some(packed)) => {
                let form = ReceiptForm::Taken {
                    flags: packed.flags,
                    settled: packed.settled,
                    seen: packed.seen,
                    frame,
                };
                (Receipt { form }, Some(room))
            }
            (event, _) => {
                let mut room = room;
                let call = Call::Handed { event, answer };
                *room = SeenCall { seen, call };
                let form = ReceiptForm::Other(room);
                (Receipt { form }, None)
            }
        }
    }

    /// Creates the receipt of `question` with a copy of its `answer`, at a history of `seen`
    /// entries.
    pub(crate) fn of_reading<Q: Question>(
        alloc: Global,
        seen: usize,
        question: Q,
        answer: &Q::Answer,
    ) -> Result<Receipt, AllocError>
        ensures { IfOk result (λ receipt.
            receipt ≡ reading_at seen (Q.reading question answer.now)) }
    {
        let reading = question.to_reading(alloc, answer)?;
        let call = Call::Read(reading);
        let form = ReceiptForm::Other(Box::new(alloc, SeenCall { seen, call })?);
        Ok(Receipt { form })
    }

    /// Creates the receipt of `body` at `number`, which was shown alone at a history of `seen`
    /// entries.
    pub(crate) fn of_body(
        alloc: Global,
        seen: usize,
        number: usize,
        body: SharedBody,
    ) -> Result<Receipt, AllocError>
        ensures { IfOk result (λ receipt.
            receipt ≡ reading_at seen (reading.Sent number 1 (body ∷ []))) }
    {
        let (high, low) = (u8::try_from(number / LOW), u16::try_from(number % LOW));
        if let (Ok(high), Ok(low), Ok(seen)) = (high, low, u32::try_from(seen)) {
            let form = ReceiptForm::Sent {
                high,
                low,
                seen,
                body,
            };
            return Ok(Receipt { form });
        }
        let mut bodies = Vec::new(alloc);
        bodies.push(body.body().copy(alloc)?)?;
        let call = Call::Read(Reading::Sent {
            from: number,
            max: 1,
            bodies: Bodies::new(bodies),
        });
        let form = ReceiptForm::Other(Box::new(alloc, SeenCall { seen, call })?);
        Ok(Receipt { form })
    }

    /// Returns how many entries the history had before the call. This is the place of the call's
    /// own entry, if it has one.
    pub fn history_len(&self) -> usize
        ensures { result ≡ self.now.seen }
    {
        match &self.form {
            ReceiptForm::Taken { seen, .. } | ReceiptForm::Sent { seen, .. } => *seen as usize,
            ReceiptForm::Other(other) => other.seen,
        }
    }

    /// Returns whether the call has an entry in the history.
    pub fn has_entry(&self) -> bool
        ensures { result ≡ has_entry self.now.call }
    {
        match &self.form {
            ReceiptForm::Taken { .. } => true,
            ReceiptForm::Sent { .. } => false,
            ReceiptForm::Other(other) => other.call.has_entry(),
        }
    }

    /// Returns whether the history had at most `entries` entries after the call was answered.
    pub(crate) fn tells_no_more(&self, entries: usize) -> bool
        ensures { IsTrue result ↔ (entries_after self.now ≤ entries) }
    {
        let seen = self.history_len();
        seen < entries || (seen == entries && !self.has_entry())
    }

    /// Returns why the event that was handed in was refused, if it was.
    pub fn fault(&self) -> Option<MemberFault>
        ensures { result ≡ fault_of_call self.now.call }
    {
        match &self.form {
            ReceiptForm::Other(other) => other.call.fault(),
            ReceiptForm::Taken { .. } | ReceiptForm::Sent { .. } => None,
        }
    }

    /// Returns the form in which the receipt is stored.
    pub(crate) fn form(&self) -> &ReceiptForm
        ensures { receipt_in result.now ≡ self.now }
    {
        &self.form
    }

    /// Returns whether the receipt shows `body` alone, as that of `number`.
    pub(crate) fn shows_alone(&self, number: usize, body: &Body) -> bool
        ensures { IsTrue result ↔ ShowsAlone self.now number body.now }
    {
        match &self.form {
            ReceiptForm::Sent {
                high,
                low,
                body: sent,
                ..
            } => place_by_parts(*high, *low) == number && is_same_body(sent.body(), body),
            ReceiptForm::Other(other) => other.call.is_of_body(number, body),
            ReceiptForm::Taken { .. } => false,
        }
    }

    /// Returns whether the receipt is of `question` with this `answer`, at a history of `seen`
    /// entries.
    pub(crate) fn is_reading<Q: Question>(
        &self,
        seen: usize,
        question: Q,
        answer: &Q::Answer,
    ) -> bool
        ensures { IsTrue result
            ↔ (self.now ≡ reading_at seen (Q.reading question answer.now)) }
    {
        self.history_len() == seen && self.is_of(question, answer)
    }

    // Returns whether the receipt is of `question` with this `answer`.
    fn is_of<Q: Question>(&self, question: Q, answer: &Q::Answer) -> bool
        ensures { IsTrue result ↔ (self.now.call ≡ Call.Read (Q.reading question answer.now)) }
    {
        match &self.form {
            ReceiptForm::Other(other) => other.call.is_of(question, answer),
            ReceiptForm::Sent {
                high,
                low,
                body,
                ..
            } => question.is_of_body(answer, place_by_parts(*high, *low), body.body()),
            ReceiptForm::Taken { .. } => false,
        }
    }
}

// The numbers in the receipt of an accepted frame.
#[derive(Clone, Copy)]
struct Packed {
    flags: u8,
    settled: u16,
    seen: u32,
}

impl Packed {
    // Packs `seen` and what followed from an accepted frame, if the numbers have room.
    #[tactic(auto, using(crate::proofs::Packing::took_back))]
    fn of(seen: usize, answer: &Result<Reply, MemberFault>) -> Option<Packed>
        ensures seen { IfSome result (λ packed. packed.seen ≡ seen) }
        ensures took { IfSome result (λ packed.
            answer.now ≡ Ok (Reply.Took (took_in packed.flags packed.settled))) }
    {
        let Ok(Reply::Took(took)) = answer else {
            return None;
        };
        Some(Packed {
            flags: flags_of(*took),
            settled: u16::try_from(took.settled).ok()?,
            seen: u32::try_from(seen).ok()?,
        })
    }
}

// Packs what followed from a frame, but for the count of settled entries.
fn flags_of(took: Took) -> u8
    ensures { result ≡ flags_of took }
{
    u8::from(took.echo) + 2 * u8::from(took.ready) + 4 * u8::from(took.deliver)
}

/// Returns what followed from a frame, as `flags` and `settled` in its receipt say.
pub(crate) fn took_in(flags: u8, settled: u16) -> Took
    ensures { result ≡ took_in flags settled }
{
    Took {
        echo: flags % 2 == 1,
        ready: flags / 2 % 2 == 1,
        deliver: flags / 4 % 2 == 1,
        settled: u32::from(settled),
    }
}

/// Returns the place that `high` and `low` in a receipt stand for.
pub(crate) fn place_by_parts(high: u8, low: u16) -> usize
    ensures { result ≡ place_by_parts high low }
{
    usize::from(high) * LOW + usize::from(low)
}
