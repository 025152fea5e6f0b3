//! The loop that answers each line of a text.

ghost use Rattle.std.specs.Prelude.{◌≡◌, ℕ, List, Bool, Option, IfOk, OnErr, ◌++◌, [], true, false};
ghost use Rattle.std.specs.Prelude.{IfErr, OnOk, ◌⊎◌, ◌+◌, ◌∷◌, Some, Ok, Err, IsErrOf};
ghost use Rattle.std.specs.Io.KnownBytes.{Appends};
ghost use Rattle.std.specs.Option.{option_copied};
ghost use Rattle.pay_frame.specs.Counts.{KeepsCounts, counts_of, no_other_faults};
ghost use Rattle.pay_frame.specs.Device.{WroteBeginning, next_count};
ghost use Rattle.pay_text.specs.Answers.{text_bytes};
ghost use Rattle.pay_text.specs.Cutting.{lines_after};
ghost use Rattle.pay_text.specs.Engine.{Dialogue, IsGoing, Reads, WritesByEnd};
ghost use Rattle.pay_text.specs.Outbox.{Puts, PutsSome, HasWritten};

use crate::cutter::LineCutter;
use pay_frame::{Input, MOST_READS, Output, StreamFault, write_text};
use std::alloc::{AllocError, Global};
use std::marker::Model;

/// A text that was made, or a fixed text, which needs no allocation.
#[derive(Drop)]
pub enum Text {
    Made(Vec<u8>),
    Fixed(&'static str),
}

impl Text {
    pub fn as_bytes(&self) -> &[u8]
        ensures { result.now ≡ text_bytes self.now }
    {
        match self {
            Text::Made(made) => made.as_slice(),
            Text::Fixed(words) => words.as_bytes(),
        }
    }
}

/// The answer to a line.
#[derive(Drop)]
pub struct Answer {
    pub text: Text,
    /// True if a line may follow.
    pub goes_on: bool,
}

/// An answerer of lines, one after the other.
pub trait Answerer {
    // What one line does: the answerer before it, the line (nothing if it is over the bound), the
    // answer's text, whether a line may follow, and the answerer after it.
    ghost says: { Self → Option (List ℕ) → List ℕ → Bool → Self → Type 0 };

    // What may become of the answerer if memory runs out: the answerer before and after.
    ghost gives_up: { Self → Self → Type 0 };

    /// Answers `line`, or `None` for a line that is over the bound.
    // promise: answers in order (err)
    fn answer(&mut self, alloc: Global, line: Option<&[u8]>) -> Result<Answer, AllocError>
        ensures ok { IfOk result (λ a.
            says self.old (option_copied line.entry) (text_bytes a.text) a.goes_on self.new) }
        ensures err { OnErr result (gives_up self.old self.new) };
}

/// The most bytes of answers that wait until they are written together.
const ROOM: usize = 65_536;

/// Text that isn't written yet. `new` allocates its buffer, and no later call allocates.
#[derive(Drop)]
pub(crate) struct Outbox {
    waiting: Vec<u8>,
}

impl Model for Outbox {
    ghost use Rattle.std.specs.Prelude.{ℕ, List, ◌≤◌, length, vec_capacity};
    ghost use Rattle.pay_text.specs.declared.engine.TheConstants.{ROOM};

    ghost Value = { List ℕ };

    ghost view = { λ o. o.waiting.items };

    ghost invariant = { λ o. (length o.waiting.items ≤ ROOM) × (ROOM ≤ vec_capacity o.waiting) };
}

impl Outbox {
    pub(crate) fn new(alloc: Global) -> Result<Outbox, AllocError>
        ensures { IfOk result (λ outbox. outbox ≡ []) }
    {
        let waiting = Vec::with_capacity(alloc, ROOM)?;
        Ok(Outbox { waiting })
    }

    /// Appends `text` to the texts that wait. If there is no room for it, the waiting texts are
    /// written first.
    pub(crate) fn put<W: Output>(&mut self, writer: &mut W, text: &[u8]) -> Result<(), StreamFault>
        ensures ok { OnOk result (Puts (W.contents writer.old) (W.contents writer.new)
            self.old self.new text.now) }
        ensures none_failed { OnOk result
            (W.failure_count writer.new ≡ W.failure_count writer.old) }
        ensures err { IfErr result (λ fault. fault ≡ StreamFault.Write) }
        ensures beginning { OnErr result (WroteBeginning
            (W.contents writer.old) (W.contents writer.new) (self.old ++ text.now)) }
        ensures failed { OnErr result
            (W.failure_count writer.new ≡ next_count (W.failure_count writer.old)) }
    {
        if self.hold(text) {
            return Ok(());
        }
        self.flush(writer)?;
        if self.hold(text) {
            return Ok(());
        }
        write_text(writer, text)?;
        Ok(())
    }

    /// Appends `text` to the texts that wait, if there is room for it. Returns whether there was.
    fn hold(&mut self, text: &[u8]) -> bool
        ensures held { result ≡ true → self.new ≡ self.old ++ text.now }
        ensures full { result ≡ false → self.new ≡ self.old }
    {
        if text.len() > ROOM - self.waiting.len() {
            return false;
        }
        let _ = self.waiting.extend_from_slice(text);
        true
    }

    /// Writes what waits.
    pub(crate) fn flush<W: Output>(&mut self, writer: &mut W) -> Result<(), StreamFault>
        ensures ok { OnOk result
            (Appends (W.contents writer.old) (W.contents writer.new) self.old) }
        ensures empty { OnOk result (self.new ≡ []) }
        ensures none_failed { OnOk result
            (W.failure_count writer.new ≡ W.failure_count writer.old) }
        ensures err { IfErr result (λ fault. fault ≡ StreamFault.Write) }
        ensures beginning { OnErr result (WroteBeginning
            (W.contents writer.old) (W.contents writer.new) self.old) }
        ensures failed { OnErr result
            (W.failure_count writer.new ≡ next_count (W.failure_count writer.old)) }
    {
        write_text(writer, self.waiting.as_slice())?;
        self.waiting.clear();
        Ok(())
    }
}

// The most bytes that one read requests.
const PIECE: usize = 4096;

/// Reads lines to the input's end and writes the answer to each line, however the lines come in
/// pieces. A last line without a line feed counts as a line. Of a line over `bound` the answerer
/// learns only that it was too long. The answers to the lines of one read are written together, as
/// far as a buffer of 65,536 bytes holds them.
///
/// Returns `true` at the input's end, and `false` after a line after which none may follow.
///
/// After a fault, a prefix of the answers has been written. The answerer is as the answered lines
/// left it, or it gave up at the next line.
// promise: early ends (counts, none_failed, all_written); answers in order (text)
pub fn run_lines<A: Answerer, R: Input, W: Output>(
    alloc: Global,
    bound: usize,
    answerer: &mut A,
    reader: &mut R,
    writer: &mut W,
) -> Result<bool, StreamFault>
    ensures text { WritesByEnd (record { says = A.says; gives_up = A.gives_up }) bound
        (record { answerer = answerer.old; written = W.contents writer.old })
        (record { answerer = answerer.new; written = W.contents writer.new })
        (R.remaining reader.old) (R.remaining reader.new) result }
    ensures counts { let counted =
        counts_of R.call_count R.failure_count R.remaining W.failure_count in
        KeepsCounts no_other_faults
        (counted reader.old writer.old) (counted reader.new writer.new) result }
    ensures none_failed { OnOk result (R.failure_count reader.new ≡ R.failure_count reader.old) }
    ensures all_written { OnOk result (W.failure_count writer.new ≡ W.failure_count writer.old) }
{
    let mut cutter = LineCutter::new(alloc, bound)?;
    let mut outbox = Outbox::new(alloc)?;
    for _ in 0..MOST_READS {
        if let Some(at_end) = read_once(
            alloc,
            answerer,
            &mut cutter,
            &mut outbox,
            reader,
            writer,
        )? {
            return Ok(at_end);
        }
    }
    Err(StreamFault::Bound)
}

/// Reads a piece and answers the lines that end in it. At the input's end it returns whether the
/// input came to its own end.
fn read_once<A: Answerer, R: Input, W: Output>(
    alloc: Global,
    answerer: &mut A,
    cutter: &mut LineCutter,
    outbox: &mut Outbox,
    reader: &mut R,
    writer: &mut W,
) -> Result<Option<bool>, StreamFault>
    requires { outbox.old ≡ [] }
    ensures reads { (old : Dialogue A) (input : Option (List ℕ)) (reads : ℕ)
        → IsGoing A.says cutter.old.bound cutter.old.line
        (record { input = input; left = R.remaining reader.old; reads = reads }) old
        (record { answerer = answerer.old; written = W.contents writer.old })
        → Reads (record { says = A.says; gives_up = A.gives_up })
        cutter.old.bound cutter.new.line
        (record { input = input; left = R.remaining reader.new; reads = reads + 1 }) old
        (record { answerer = answerer.new; written = W.contents writer.new }) result }
    ensures cutter { OnOk result (cutter.new.bound ≡ cutter.old.bound) }
    ensures empty { OnOk result (outbox.new ≡ []) }
    ensures bound { ¬ (IsErrOf result StreamFault.Bound) }
    ensures called { R.call_count reader.new ≡ next_count (R.call_count reader.old) }
    ensures read { IsErrOf result StreamFault.Read
        → R.failure_count reader.new ≡ next_count (R.failure_count reader.old) }
    ensures write { IsErrOf result StreamFault.Write
        → W.failure_count writer.new ≡ next_count (W.failure_count writer.old) }
    ensures memory { IsErrOf result StreamFault.Memory
        → (R.failure_count reader.new ≡ R.failure_count reader.old)
        × (W.failure_count writer.new ≡ W.failure_count writer.old) }
    ensures none_failed { OnOk result (R.failure_count reader.new ≡ R.failure_count reader.old) }
    ensures all_written { OnOk result (W.failure_count writer.new ≡ W.failure_count writer.old) }
{
    let mut buffer = [0u8; PIECE];
    let Ok(count) = reader.read(&mut buffer) else {
        return Err(StreamFault::Read);
    };
    if count == 0 {
        if cutter.is_empty() {
            return Ok(Some(true));
        }
        let answered = answer_line(alloc, answerer, cutter, outbox, writer);
        let may_follow = finish_writing(outbox, writer, answered)?;
        return Ok(Some(may_follow));
    }
    let answered = answer_lines(alloc, answerer, cutter, &buffer[..count], outbox, writer);
    if finish_writing(outbox, writer, answered)? {
        Ok(None)
    } else {
        Ok(Some(false))
    }
}

/// Writes the answers that wait, except after a failed write. Then returns `answered`, or the fault
/// of this write.
fn finish_writing<W: Output>(
    outbox: &mut Outbox,
    writer: &mut W,
    answered: Result<bool, StreamFault>,
) -> Result<bool, StreamFault>
    requires bound { ¬ (IsErrOf answered StreamFault.Bound) }
    requires read { ¬ (IsErrOf answered StreamFault.Read) }
    ensures written { HasWritten answered (W.contents writer.old) (W.contents writer.new)
        outbox.old result }
    ensures empty { OnOk result (outbox.new ≡ []) }
    ensures write { IsErrOf result StreamFault.Write
        → ((answered ≡ Err StreamFault.Write)
        × (W.failure_count writer.new ≡ W.failure_count writer.old))
        ⊎ ((answered ≡ Err StreamFault.Memory)
        × (W.failure_count writer.new ≡ next_count (W.failure_count writer.old)))
        ⊎ ((on : Bool) × (answered ≡ Ok on)
        × (W.failure_count writer.new ≡ next_count (W.failure_count writer.old))) }
    ensures memory { IsErrOf result StreamFault.Memory → (answered ≡ Err StreamFault.Memory)
        × (W.failure_count writer.new ≡ W.failure_count writer.old) }
    ensures all_written { OnOk result (W.failure_count writer.new ≡ W.failure_count writer.old) }
{
    match answered {
        Ok(may_follow) => {
            outbox.flush(writer)?;
            Ok(may_follow)
        }
        Err(StreamFault::Memory) => {
            outbox.flush(writer)?;
            answered
        }
        Err(_) => answered,
    }
}

/// Answers the lines that end in `piece`. Returns whether a line may follow.
fn answer_lines<A: Answerer, W: Output>(
    alloc: Global,
    answerer: &mut A,
    cutter: &mut LineCutter,
    piece: &[u8],
    outbox: &mut Outbox,
    writer: &mut W,
) -> Result<bool, StreamFault>
    ensures goes { (more : List ℕ) → PutsSome (record { says = A.says; gives_up = A.gives_up })
        (lines_after cutter.old.bound cutter.old.line (piece.now ++ more))
        (lines_after cutter.old.bound cutter.new.line more)
        (record {
          answerer = answerer.old;
          written = W.contents writer.old;
          waits = outbox.old;
        })
        (record {
          answerer = answerer.new;
          written = W.contents writer.new;
          waits = outbox.new;
        })
        result }
    ensures cutter { OnOk result (cutter.new.bound ≡ cutter.old.bound) }
    ensures read { ¬ (IsErrOf result StreamFault.Read) }
    ensures bound { ¬ (IsErrOf result StreamFault.Bound) }
    ensures write { IsErrOf result StreamFault.Write
        → W.failure_count writer.new ≡ next_count (W.failure_count writer.old) }
    ensures memory { IsErrOf result StreamFault.Memory
        → W.failure_count writer.new ≡ W.failure_count writer.old }
    ensures all_written { OnOk result (W.failure_count writer.new ≡ W.failure_count writer.old) }
{
    for byte in piece {
        if *byte != b'\n' {
            cutter.push(*byte);
        } else if !answer_line(alloc, answerer, cutter, outbox, writer)? {
            return Ok(false);
        }
    }
    Ok(true)
}

/// Answers the complete line, and begins the next one. Returns whether a line may follow.
fn answer_line<A: Answerer, W: Output>(
    alloc: Global,
    answerer: &mut A,
    cutter: &mut LineCutter,
    outbox: &mut Outbox,
    writer: &mut W,
) -> Result<bool, StreamFault>
    ensures goes { (left : List (Option (List ℕ)))
        → PutsSome (record { says = A.says; gives_up = A.gives_up })
        (cutter.old.line ∷ left) left
        (record {
          answerer = answerer.old;
          written = W.contents writer.old;
          waits = outbox.old;
        })
        (record {
          answerer = answerer.new;
          written = W.contents writer.new;
          waits = outbox.new;
        })
        result }
    ensures cutter { OnOk result (cutter.new ≡ record cutter.old { line = Some [] }) }
    ensures read { ¬ (IsErrOf result StreamFault.Read) }
    ensures bound { ¬ (IsErrOf result StreamFault.Bound) }
    ensures write { IsErrOf result StreamFault.Write
        → W.failure_count writer.new ≡ next_count (W.failure_count writer.old) }
    ensures memory { IsErrOf result StreamFault.Memory
        → W.failure_count writer.new ≡ W.failure_count writer.old }
    ensures all_written { OnOk result (W.failure_count writer.new ≡ W.failure_count writer.old) }
{
    let Answer { text, goes_on } = answerer.answer(alloc, cutter.line())?;
    outbox.put(writer, text.as_bytes())?;
    cutter.clear();
    Ok(goes_on)
}
