//! The run of a script. Its first line builds the game, each other line plays on, and the run ends
//! at the first line that can't be played.

ghost use Rattle.std.specs.Prelude.{◌≡◌, ◌↔◌, ◌++◌, true, ℕ, List, Option, None, IfOk, OnOk};
ghost use Rattle.std.specs.Prelude.{decimal, IfErr, OnErr};
ghost use Rattle.std.specs.Io.KnownBytes.{Appends};
ghost use Rattle.std.specs.Option.{option_copied};
ghost use Rattle.pay_frame.specs.Counts.{KeepsCounts, counts_of, no_other_faults};
ghost use Rattle.pay_frame.specs.Device.{WroteBeginning, next_count};
ghost use Rattle.pay_sim.specs.Playing.{IsAfter, IsDone, IsFounded, IsGameAt, IsRead};
ghost use Rattle.pay_sim.specs.Script.{LineTells, last_words, with_feed, WritesRun, end_of};
ghost use Rattle.pay_sim.specs.Script.{no_line};
ghost use Rattle.pay_sim.specs.declared.group.ScriptGroup.{ScriptGroup};
ghost use Rattle.pay_world.specs.declared.event.WorldEvent.{WorldEvent};

use crate::command::read_command;
use crate::game::Game;
use crate::group::read_group;
use pay_book::Settle;
use pay_echo::Instance;
use pay_frame::{Input, Output, StreamFault, write_text};
use pay_text::{Answer, Answerer, Text, push_number, push_word, run_lines};
use std::alloc::{AllocError, Global};
use std::marker::Model;

/// The end of a script's run.
#[derive(Clone, Copy, Debug, PartialEq, Eq)]
pub enum SimEnd {
    /// The input's end.
    Done,
    /// A frame in the name of a correct member that didn't send it.
    Forged,
    /// A line that is no command, or a first line without a group.
    BadLine,
    /// The limit of events.
    Limit,
}

/// The reason why a run stops before its input ends.
#[derive(Clone, Copy, Debug, PartialEq, Eq)]
pub(crate) enum RunStop {
    /// A line is no command, is over the bound, or is a first line without a group.
    BadLine,
    /// The event of this number delivers a forged frame.
    Forged(u64),
    /// The next event would exceed the limit.
    Limit,
}

/// The reason why a line isn't done.
#[derive(Clone, Copy, Debug, PartialEq, Eq)]
pub(crate) enum Halt {
    /// Memory ran out.
    Memory,
    Stop(RunStop),
}

impl From<AllocError> for Halt {
    ghost use Rattle.std.specs.Prelude.{◌≡◌};
    ghost use Rattle.pay_sim.specs.declared.run.Halt.TheVariants.{Memory};

    ghost from_gives = { λ _ e. e ≡ Memory };

    fn from(_error: AllocError) -> Halt {
        Halt::Memory
    }
}

/// A script as far as it was read: the count of lines, and the world of the first line.
#[derive(Drop)]
pub(crate) struct Play<I: Instance + Drop, B: Settle + Drop> {
    lines: u64,
    game: Option<Game<I, B>>,
    stop: Option<RunStop>,
}

impl<I: Instance + Drop, B: Settle + Drop> Model for Play<I, B> {
    ghost use Rattle.pay_sim.specs.Playing.{PlayFields};

    ghost Value = { PlayFields };

    ghost view = { λ p. record { lines = p.lines; game = p.game; stop = p.stop } };
}

impl<I: Instance + Drop, B: Settle + Drop> Play<I, B> {
    /// Creates a script before its first line is read.
    pub(crate) fn new() -> Play<I, B>
        ensures { result ≡ record { lines = 0; game = None; stop = None } }
    {
        Play {
            lines: 0,
            game: None,
            stop: None,
        }
    }

    /// Returns whether no line was read.
    pub(crate) fn is_empty(&self) -> bool
        ensures { (result ≡ true) ↔ (self.now.lines ≡ 0) }
    {
        self.lines == 0
    }

    /// Returns what stopped the run, if anything did.
    pub(crate) fn stop(&self) -> Option<RunStop>
        ensures { result ≡ self.now.stop }
    {
        self.stop
    }

    /// Does what `line` says, and appends what it prints to `out`.
    fn obey(&mut self, alloc: Global, line: Option<&[u8]>, out: &mut Vec<u8>) -> Result<(), Halt>
        ensures read { (group : Option ScriptGroup) (es : List WorldEvent)
            → IsGameAt self.old.game group es
            → IsRead group es (option_copied line.entry) out.old.items out.new.items self.new.game
            result }
        ensures lines { self.new.lines ≡ self.old.lines }
        ensures stop { self.new.stop ≡ self.old.stop }
    {
        let Some(line) = line else {
            return Err(Halt::Stop(RunStop::BadLine));
        };
        match &mut self.game {
            Some(game) => obey_line(alloc, game, line, out),
            None => {
                self.game = Some(build_game(alloc, line)?);
                Ok(())
            }
        }
    }
}

impl<I: Instance + Drop, B: Settle + Drop> Answerer for Play<I, B> {
    ghost use Rattle.pay_sim.specs.Playing.{IsPlayAnswer, MayBeAny};

    ghost says = { IsPlayAnswer };

    ghost gives_up = { MayBeAny };

    fn answer(&mut self, alloc: Global, line: Option<&[u8]>) -> Result<Answer, AllocError> {
        self.lines = self.lines.saturating_add(1);
        let mut out = Vec::new(alloc);
        match self.obey(alloc, line, &mut out) {
            Ok(()) => Ok(Answer {
                text: Text::Made(out),
                goes_on: true,
            }),
            Err(Halt::Memory) => Err(AllocError),
            Err(Halt::Stop(stop)) => {
                self.stop = Some(stop);
                Ok(Answer {
                    text: Text::Made(last_line(alloc, stop, self.lines)?),
                    goes_on: false,
                })
            }
        }
    }
}

/// Returns the world of the group in `line`, a script's first line.
fn build_game<I: Instance + Drop, B: Settle + Drop>(
    alloc: Global,
    line: &[u8],
) -> Result<Game<I, B>, Halt>
    ensures { IsFounded line.now result }
{
    match read_group(alloc, line)? {
        Some(group) => Ok(Game::new(alloc, &group)?),
        None => Err(Halt::Stop(RunStop::BadLine)),
    }
}

/// Does what `line`, which stands after the first, says in `game`. Appends what it prints to `out`.
fn obey_line<I: Instance + Drop, B: Settle + Drop>(
    alloc: Global,
    game: &mut Game<I, B>,
    line: &[u8],
    out: &mut Vec<u8>,
) -> Result<(), Halt>
    ensures { (c : ScriptGroup) (es : List WorldEvent) → IsAfter c es game.old
        → IsDone (LineTells c es line.now) c out.old.items out.new.items game.new result }
{
    if line.is_empty() {
        return Ok(());
    }
    match read_command(alloc, line)? {
        Some(command) => game.obey(alloc, command, out),
        None => Err(Halt::Stop(RunStop::BadLine)),
    }
}

/// Returns the last line of a run that `stop` stops at the line of the number `line`.
fn last_line(alloc: Global, stop: RunStop, line: u64) -> Result<Vec<u8>, AllocError>
    ensures { IfOk result (λ text. text.items ≡ with_feed (last_words stop line)) }
{
    let mut out = Vec::new(alloc);
    match stop {
        RunStop::BadLine => push_numbered(&mut out, "bad line ", line)?,
        RunStop::Forged(place) => push_numbered(&mut out, "forged ", place)?,
        RunStop::Limit => push_word(&mut out, "limit")?,
    }
    push_word(&mut out, "\n")?;
    Ok(out)
}

fn push_numbered(out: &mut Vec<u8>, words: &str, number: u64) -> Result<(), AllocError>
    ensures { OnOk result (out.new.items ≡ out.old.items ++ words.now ++ decimal number) }
{
    push_word(out, words)?;
    push_number(out, number)
}

/// The greatest size of a script's line in bytes, without its line feed.
pub const LONGEST_LINE: usize = 4096;

/// Plays the script that is read: a first line with a group, and commands after it. The loop writes
/// what the commands print, as a function of the script and of the histories that its events make.
///
/// A forged frame, a line that is none, and an event beyond the limit are reported in the last line
/// and in the result. After a fault of a device, a prefix of the text has been written.
// promise: early ends (counts, none_failed, all_written); scripts (text)
pub fn run_sim<I, B, R, W>(
    alloc: Global,
    reader: &mut R,
    writer: &mut W,
) -> Result<SimEnd, StreamFault>
where
    I: Instance + Drop,
    B: Settle + Drop,
    R: Input,
    W: Output,
    ensures text { WritesRun (R.remaining reader.old) (R.remaining reader.new)
        (W.contents writer.old) (W.contents writer.new) result }
    ensures counts { let counted =
        counts_of R.call_count R.failure_count R.remaining W.failure_count in
        KeepsCounts no_other_faults
        (counted reader.old writer.old) (counted reader.new writer.new) result }
    ensures none_failed { OnOk result (R.failure_count reader.new ≡ R.failure_count reader.old) }
    ensures all_written { OnOk result (W.failure_count writer.new ≡ W.failure_count writer.old) }
{
    let mut play: Play<I, B> = Play::new();
    run_play(alloc, &mut play, reader, writer)
}

// Plays a script before its first line was read.
fn run_play<I, B, R, W>(
    alloc: Global,
    play: &mut Play<I, B>,
    reader: &mut R,
    writer: &mut W,
) -> Result<SimEnd, StreamFault>
where
    I: Instance + Drop,
    B: Settle + Drop,
    R: Input,
    W: Output,
    requires { play.old ≡ record { lines = 0; game = None; stop = None } }
    ensures text { WritesRun (R.remaining reader.old) (R.remaining reader.new)
        (W.contents writer.old) (W.contents writer.new) result }
    ensures counts { let counted =
        counts_of R.call_count R.failure_count R.remaining W.failure_count in
        KeepsCounts no_other_faults
        (counted reader.old writer.old) (counted reader.new writer.new) result }
    ensures none_failed { OnOk result (R.failure_count reader.new ≡ R.failure_count reader.old) }
    ensures all_written { OnOk result (W.failure_count writer.new ≡ W.failure_count writer.old) }
{
    run_lines(alloc, LONGEST_LINE, play, reader, writer)?;
    if !play.is_empty() {
        return Ok(end_of(play.stop()));
    }
    write_no_line(writer)?;
    Ok(SimEnd::BadLine)
}

/// Writes what an empty script prints.
fn write_no_line<W: Output>(writer: &mut W) -> Result<(), StreamFault>
    ensures ok { OnOk result (Appends (W.contents writer.old) (W.contents writer.new) no_line) }
    ensures none_failed { OnOk result (W.failure_count writer.new ≡ W.failure_count writer.old) }
    ensures err { IfErr result (λ fault. fault ≡ StreamFault.Write) }
    ensures beginning { OnErr result
        (WroteBeginning (W.contents writer.old) (W.contents writer.new) no_line) }
    ensures failed { OnErr result
        (W.failure_count writer.new ≡ next_count (W.failure_count writer.old)) }
{
    write_text(writer, b"bad line 1\n")
}

fn end_of(stop: Option<RunStop>) -> SimEnd
    ensures { result ≡ end_of stop }
{
    match stop {
        None => SimEnd::Done,
        Some(RunStop::BadLine) => SimEnd::BadLine,
        Some(RunStop::Forged(_)) => SimEnd::Forged,
        Some(RunStop::Limit) => SimEnd::Limit,
    }
}
