//! Laws of the definitions alone. Each body only names the laws that the proof needs: the contract
//! is the law.

ghost use Rattle.std.specs.Prelude.{◌≡◌, ◌<◌, ℕ, List, Option, length, slice_index, count_by};
ghost use Rattle.pay_cli.specs.CheckText.{IsCheckText, HasCheckText, at_start, known_after};
ghost use Rattle.pay_cli.specs.CheckText.{outcomes, is_ok_from};
ghost use Rattle.pay_cli.specs.Values.{CheckerFields};
ghost use Rattle.pay_frame.specs.Frame.{FrameFields};
ghost use Rattle.pay_frame.specs.Stream.{IsBytes};
ghost use Rattle.pay_frame.specs.declared.reading.FrameFault.{FrameFault as Fault};

/// States that any bytes have a text.
// promise: check's text
pub fn every_text()
    ensures law { (q : CheckerFields) (bytes : List ℕ) → IsBytes bytes → HasCheckText q bytes }
{
    pay_frame::every_stream();
}

/// States that bytes have one text, and one fault that it ends with. Both depend only on the
/// checker and the bytes, and not on how the bytes are cut.
// promise: check's text
pub fn one_text()
    ensures text { (q : CheckerFields) (bytes one two : List ℕ) (a b : Option Fault) →
        IsCheckText q bytes one a → IsCheckText q bytes two b → one ≡ two }
    ensures ending { (q : CheckerFields) (bytes one two : List ℕ) (a b : Option Fault) →
        IsCheckText q bytes one a → IsCheckText q bytes two b → a ≡ b }
{
    pay_frame::one_stream();
}

/// States that the next number of a member is the count of its `ok` lines before.
// promise: check's text
pub fn next_is_ok_lines_before()
    ensures law { (q : CheckerFields) (before : List FrameFields) (member : ℕ) →
        member < length q.keys.keys →
        slice_index (known_after q (at_start q.keys) before).fronts member
        ≡ count_by (is_ok_from member) (outcomes q.keys (at_start q.keys) before) }
{}
