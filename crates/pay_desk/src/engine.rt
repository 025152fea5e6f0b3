ghost use Rattle.std.specs.Prelude.{◌≡◌, MatchResult, OnOk};
ghost use Rattle.pay_desk.specs.Desk.{DeskSays, WritesAnswers};
ghost use Rattle.pay_desk.specs.Words.{refused_words};
ghost use Rattle.pay_frame.specs.Counts.{KeepsCounts, counts_of, no_other_faults};
ghost use Rattle.pay_text.specs.Answers.{text_bytes};

use crate::command::MOST_LINE;
use crate::desk::Desk;
use crate::fault::DeskFault;
use crate::teller::Teller;
use pay_frame::{Input, Output, StreamFault};
use pay_text::{Answer, Answerer, Text, run_lines};
use std::alloc::{AllocError, Global};

const BAD_LINE: &str = "refused 1 BadLine\n";

const MEMORY: &str = "refused 0 Memory\n";

impl<T: Teller> Answerer for Desk<T> {
    ghost says = { λ old line text on new. DeskSays T.says old line text on new };

    // A desk answers that memory ran out, and so doesn't give up: it would be unchanged.
    ghost gives_up = { λ old new. new ≡ old };

    fn answer(&mut self, alloc: Global, line: Option<&[u8]>) -> Result<Answer, AllocError> {
        let text = match line {
            Some(line) => text_of(self.line(alloc, line)),
            None => bad_line_text(),
        };
        Ok(Answer {
            text,
            goes_on: true,
        })
    }
}

fn text_of(answer: Result<Vec<u8>, AllocError>) -> Text
    ensures { MatchResult answer
        (λ text. text_bytes result ≡ text.items)
        (λ _. text_bytes result ≡ refused_words DeskFault.Memory) }
{
    match answer {
        Ok(text) => Text::Made(text),
        Err(_) => memory_text(),
    }
}

fn bad_line_text() -> Text
    ensures { text_bytes result ≡ refused_words DeskFault.BadLine }
{
    Text::Fixed(BAD_LINE)
}

fn memory_text() -> Text
    ensures { text_bytes result ≡ refused_words DeskFault.Memory }
{
    Text::Fixed(MEMORY)
}

/// Answers the lines that are read with `desk`, to the input's end. A line over the bound is
/// refused as a whole. If memory runs out the answer says so, and the loop continues.
///
/// After a fault, a prefix of the answers has been written, and the desk is as the answered lines
/// left it.
// promise: early ends (counts, none_failed, all_written); desk lines (text)
pub fn run_desk<T: Teller, R: Input, W: Output>(
    alloc: Global,
    desk: &mut Desk<T>,
    reader: &mut R,
    writer: &mut W,
) -> Result<(), StreamFault>
    ensures text { WritesAnswers T.says
        (record { answerer = desk.old; written = W.contents writer.old })
        (record { answerer = desk.new; written = W.contents writer.new })
        (R.remaining reader.old) (R.remaining reader.new) result }
    ensures counts { let counted =
        counts_of R.call_count R.failure_count R.remaining W.failure_count in
        KeepsCounts no_other_faults
        (counted reader.old writer.old) (counted reader.new writer.new) result }
    ensures none_failed { OnOk result (R.failure_count reader.new ≡ R.failure_count reader.old) }
    ensures all_written { OnOk result (W.failure_count writer.new ≡ W.failure_count writer.old) }
{
    run_lines(alloc, MOST_LINE, desk, reader, writer)?;
    Ok(())
}
