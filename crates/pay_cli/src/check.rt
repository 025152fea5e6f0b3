//! The loop of `check`: a line for each frame of a stream.

ghost use Rattle.std.specs.Prelude.{◌≡◌, ◌++◌, OnOk, codes, ◌⊎◌, ℕ, ◌+◌, ◌<◌, ◌^◌, IfOk, OnErr};
ghost use Rattle.std.specs.Prelude.{length, replicate, slice_index};
ghost use Rattle.std.proofs.Common.{subst, sym};
ghost use Rattle.std.proofs.Math.Numerals.{add-one};
ghost use Rattle.pay_cli.specs.CheckText.{frame_lines, checking};
ghost use Rattle.pay_cli.specs.Engine.{HasRoom, WritesCheckText};
ghost use Rattle.pay_cli.specs.Lines.{fault_line, kind_word, ok_words, link_refused_words};
ghost use Rattle.pay_cli.specs.Lines.{want_words, progress_after, check_outcome, check_words};
ghost use Rattle.pay_cli.specs.Lines.{opened_outcome, fronts_after};
ghost use Rattle.pay_cli.specs.Values.{checker_of};
ghost use Rattle.pay_frame.specs.Counts.{KeepsCounts, counts_of};
ghost use Rattle.pay_frame.specs.EngineFault.{engine_of};
ghost use Rattle.pay_frame.specs.Exact.{exactly};
ghost use Rattle.pay_frame.specs.Lent.{fields_of};
ghost use Rattle.pay_link.specs.Keys.{IsKeysOf};

use crate::laws::every_text;
use crate::values::push_told;
use pay_frame::{
    EngineFault, FrameFault, FrameHandler, FrameRef, Input, Kind, Output, exact_text, handle_stream,
};
use pay_hmac::Tagger;
use pay_link::{Fronts, Genesis, Keys, LinkFault, laws, open};
use pay_text::{push_number, push_word};
use std::alloc::{AllocError, Global};

/// The member that judges frames, and whether a line says what their values pay.
#[derive(Drop)]
pub struct Checker<'a> {
    pub keys: &'a Keys,
    pub tells_values: bool,
}

/// Appends the words of an accepted `frame` to `out`: its kind, sender, number, owner, sequence
/// number and value's length.
pub fn push_ok(out: &mut Vec<u8>, frame: &FrameRef) -> Result<(), AllocError>
    ensures { OnOk result (out.new.items ≡ out.old.items ++ ok_words (fields_of frame.now)) }
{
    push_word(out, ok_from(frame.kind()))?;
    push_number(out, u64::from(frame.from()))?;
    push_word(out, " number ")?;
    push_number(out, frame.number())?;
    push_word(out, " owner ")?;
    push_number(out, u64::from(frame.owner()))?;
    push_word(out, " seq ")?;
    push_number(out, u64::from(frame.seq()))?;
    push_word(out, " value ")?;
    push_number(out, frame.value().len() as u64)
}

/// Appends the words of a WANT, `frame`, to `out`: its sender, and the number from which it
/// requests frames.
pub fn push_want(out: &mut Vec<u8>, frame: &FrameRef) -> Result<(), AllocError>
    ensures { OnOk result (out.new.items ≡ out.old.items ++ want_words (fields_of frame.now)) }
{
    push_word(out, " want from ")?;
    push_number(out, u64::from(frame.from()))?;
    push_word(out, " number ")?;
    push_number(out, frame.number())
}

/// Appends the words of a frame that isn't accepted to `out`: the number and name of `fault`, and
/// for a repeat or a gap the next number from its sender.
pub fn push_refused(out: &mut Vec<u8>, fault: LinkFault) -> Result<(), AllocError>
    ensures { OnOk result (out.new.items ≡ out.old.items ++ link_refused_words fault) }
{
    push_word(out, " refused ")?;
    fault.push_words(out)
}

/// Appends the last line of a stream with bytes that are no frame to `out`: its number `line`, and
/// the number and name of `fault`.
pub fn push_fault(out: &mut Vec<u8>, line: u64, fault: FrameFault) -> Result<(), AllocError>
    ensures { OnOk result (out.new.items ≡ out.old.items ++ fault_line line fault) }
{
    push_number(out, line)?;
    push_word(out, " fault ")?;
    push_number(out, u64::from(fault.number()))?;
    push_word(out, " ")?;
    push_word(out, fault.name())?;
    push_word(out, "\n")
}

/// Returns the words of an `ok` line up to its sender.
fn ok_from(kind: Kind) -> &'static str
    ensures { result.now ≡ codes " ok " ++ kind_word kind ++ codes " from " }
{
    match kind {
        Kind::Send => " ok send from ",
        Kind::Echo => " ok echo from ",
        Kind::Ready => " ok ready from ",
        Kind::Want => " ok want from ",
    }
}

/// What `check` knows between two lines: the next number from each member, and the number of the
/// next line.
#[derive(Drop)]
pub struct Progress {
    pub fronts: Fronts,
    pub line: u64,
}

impl Progress {
    /// Creates the state for `members` members before the first line: number 0 is the next from
    /// each member.
    pub fn new(alloc: Global, members: u16) -> Result<Progress, AllocError>
        ensures start { IfOk result (λ p.
            p ≡ record { fronts = replicate members 0; line = 1 }) }
    {
        let fronts = Fronts::new(alloc, members)?;
        Ok(Progress { fronts, line: 1 })
    }
}

/// Appends the line of `frame` to `out`, and the line of its value. If memory runs out, the frame
/// was counted or nothing changed.
#[tactic(auto, unfolding(crate::specs::Lines::line_of, crate::specs::Lines::progress_after))]
// promise: check's text
pub fn push_line<T: Tagger>(
    out: &mut Vec<u8>,
    t: &T,
    checker: &Checker<'_>,
    progress: &mut Progress,
    frame: FrameRef,
) -> Result<(), AllocError>
    requires room { HasRoom checker.now.keys.now progress.old 1 }
    ensures text { OnOk result (out.new.items ≡ out.old.items
        ++ frame_lines (checker_of checker.now) progress.old (fields_of frame.entry)) }
    ensures moved { OnOk result (progress.new
        ≡ progress_after checker.now.keys.now progress.old (fields_of frame.entry)) }
    ensures err { let k = checker.now.keys.now in OnErr result ((progress.new ≡ progress.old)
        ⊎ (progress.new ≡ progress_after k progress.old (fields_of frame.entry))) }
{
    let (kind, owner, value) = (frame.kind(), frame.owner(), frame.value());
    push_number(out, progress.line)?;
    push_judged(out, t, checker.keys, &mut progress.fronts, frame)?;
    progress.line += 1;
    push_word(out, "\n")?;
    push_told(out, checker, kind, owner, value)
}

/// Appends what a member makes of `frame` to `out`.
fn push_judged<T: Tagger>(
    out: &mut Vec<u8>,
    t: &T,
    keys: &Keys,
    fronts: &mut Fronts,
    frame: FrameRef,
) -> Result<(), AllocError>
    requires members { length fronts.old ≡ length keys.now.keys }
    requires room { (member : ℕ) → slice_index fronts.old member + 1 < 2 ^ 64 }
    ensures words { let f = fields_of frame.entry in OnOk result (out.new.items
        ≡ out.old.items ++ check_words f (check_outcome keys.now fronts.old f)) }
    ensures fronts { let f = fields_of frame.entry in OnOk result (fronts.new
        ≡ fronts_after fronts.old f (check_outcome keys.now fronts.old f)) }
    ensures err { OnErr result (fronts.new ≡ fronts.old) }
{
    // for the proof, a law: the call does nothing
    laws::judgement_opens();
    match open(t, keys, frame) {
        Ok(opened) => push_opened(out, fronts, opened.frame()),
        Err(fault) => push_refused(out, fault),
    }
}

/// Appends what becomes of `frame`, which is authenticated, to `out`.
fn push_opened(out: &mut Vec<u8>, fronts: &mut Fronts, frame: &FrameRef) -> Result<(), AllocError>
    requires known { (fields_of frame.now).from < length fronts.old }
    requires room { slice_index fronts.old (fields_of frame.now).from + 1 < 2 ^ 64 }
    ensures words { let f = fields_of frame.now in
        OnOk result (out.new.items ≡ out.old.items ++ check_words f
        (opened_outcome (slice_index fronts.old f.from) f f.body.kind)) }
    ensures fronts { let f = fields_of frame.now in
        OnOk result (fronts.new ≡ fronts_after fronts.old f
        (opened_outcome (slice_index fronts.old f.from) f f.body.kind)) }
    ensures err { OnErr result (fronts.new ≡ fronts.old) }
{
    if frame.kind() == Kind::Want {
        return push_want(out, frame);
    }
    let from = frame.from();
    match fronts.judge(from, frame.number()) {
        Ok(()) => {
            push_ok(out, frame)?;
            fronts.advance(from);
            Ok(())
        }
        Err(fault) => push_refused(out, fault),
    }
}

/// A handler that writes a line for each frame, a line for its value, if that is requested, and a
/// line for a fault.
#[derive(Drop)]
pub(crate) struct Checking<'a, T> {
    pub(crate) tagger: &'a T,
    pub(crate) checker: &'a Checker<'a>,
}

impl<T: Tagger> FrameHandler<Progress> for Checking<'_, T> {
    ghost handling = { λ c. exactly (checking (checker_of c.checker.now)) };

    ghost has_room = { λ c. HasRoom c.checker.now.keys.now };

    ghost keeps_room = { λ c p q f text n step room.
        subst (λ s. HasRoom c.checker.now.keys.now s n) (sym step.0)
        ((subst (HasRoom c.checker.now.keys.now p) (add-one n) room).1 f) };

    fn handle(
        &self,
        _alloc: Global,
        progress: &mut Progress,
        frame: FrameRef<'_>,
        out: &mut Vec<u8>,
    ) -> Result<bool, AllocError> {
        push_line(out, self.tagger, self.checker, progress, frame)?;
        Ok(true)
    }

    fn end(
        &self,
        progress: &Progress,
        fault: FrameFault,
        out: &mut Vec<u8>,
    ) -> Result<(), AllocError> {
        push_fault(out, progress.line, fault)
    }
}

/// Reads frames to the input's end. The loop writes what the member of `checker` would make of each
/// frame and, if that is requested, what the frame's value pays. The text is that of all bytes that
/// were read, however they come in pieces.
///
/// A fault in the frames ends the text with its line, and is returned. After another fault, a
/// prefix of the text has been written.
// promise: early ends (counts, none_failed, all_written); check's text (text)
pub fn run_check<R: Input, W: Output, T: Tagger>(
    alloc: Global,
    t: &T,
    genesis: &Genesis,
    checker: &Checker<'_>,
    reader: &mut R,
    writer: &mut W,
) -> Result<(), EngineFault>
    requires keys { IsKeysOf genesis.now checker.now.keys.now }
    ensures text { WritesCheckText (checker_of checker.now) (R.remaining reader.old)
        (R.remaining reader.new) (W.contents writer.old) (W.contents writer.new) result }
    ensures counts { let counted =
        counts_of R.call_count R.failure_count R.remaining W.failure_count in
        KeepsCounts engine_of
        (counted reader.old writer.old) (counted reader.new writer.new) result }
    ensures none_failed { OnOk result (R.failure_count reader.new ≡ R.failure_count reader.old) }
    ensures all_written { OnOk result (W.failure_count writer.new ≡ W.failure_count writer.old) }
{
    // for the proof, laws: the calls do nothing
    every_text();
    exact_text::<Progress>();
    let mut progress = Progress::new(alloc, genesis.members())?;
    let checking = Checking { tagger: t, checker };
    handle_stream(alloc, &checking, &mut progress, &[], reader, writer)
}
