//! Streams of frames, cut into pieces: steps of a cutter, and what each is to give.

ghost use Rattle.std.specs.Prelude.{◌≡◌, None, IfOk, IfNone, OnOk, OnErr};
ghost use Rattle.pay_frame.specs.Cutting.{IsDrained};

use pay_frame::{Cutter, FrameFault, FrameRef, beginning_is_drained};
use std::alloc::Global;
use std::process::Abort;
use std::test::Fail;

/// A head in hexadecimal digits, and how many bytes come after it.
type Piece = (&'static str, usize);

/// What is done to a cutter, and what it gives. The numbers are places of the whole stream.
enum Step {
    /// The bytes between two places are offered, and this many of them are taken.
    Feed(usize, usize, usize),
    /// The next frame is the bytes between two places.
    Frame(usize, usize),
    /// There is no further frame yet.
    Wait,
}

/// The steps of a new cutter, and how its stream ends.
struct Run {
    stream: &'static [Piece],
    steps: &'static [Step],
    end: Result<(), FrameFault>,
}

// Heads of frames, written by hand: each goes from 0x0102 to 0x0304 at number 0x05060708090a0b0c,
// and speaks of owner 0x0d0e and seq 0x1112, if of any. After its length field a SEND has 54 + 11 =
// 0x41 bytes, an ECHO 54 + 1,024 = 0x436.
const SEND_HEAD: &str = "004101010102030405060708090a0b0c0d0e00001112000b";

const READY_HEAD: &str = "003601030102030405060708090a0b0c0d0e000011120000";

const WANT_HEAD: &str = "003601040102030405060708090a0b0c0000000000000000";

const ECHO_HEAD: &str = "043601020102030405060708090a0b0c0d0e000011120400";

/// Frames of 56, 67, 56 and 1,080 bytes.
const FOUR: &[Piece] = &[
    (READY_HEAD, 32),
    (SEND_HEAD, 43),
    (WANT_HEAD, 32),
    (ECHO_HEAD, 1056),
];

const RUNS: &[Run] = &[
    Run {
        stream: FOUR,
        steps: &[
            Step::Feed(0, 1259, 1259),
            Step::Frame(0, 56),
            Step::Frame(56, 123),
            Step::Frame(123, 179),
            Step::Frame(179, 1259),
            Step::Wait,
        ],
        end: Ok(()),
    },
    Run {
        stream: FOUR,
        steps: &[
            Step::Wait,
            Step::Feed(0, 1, 1),
            Step::Wait,
            Step::Feed(1, 24, 23),
            Step::Wait,
            Step::Feed(24, 55, 31),
            Step::Wait,
            Step::Feed(55, 60, 5),
            Step::Frame(0, 56),
            Step::Wait,
            Step::Feed(60, 123, 63),
            Step::Feed(123, 300, 177),
            Step::Frame(56, 123),
            Step::Frame(123, 179),
            Step::Wait,
            Step::Feed(300, 1258, 958),
            Step::Wait,
            Step::Feed(1258, 1258, 0),
            Step::Wait,
            Step::Feed(1258, 1259, 1),
            Step::Frame(179, 1259),
        ],
        end: Ok(()),
    },
    Run {
        stream: FOUR,
        steps: &[Step::Feed(0, 57, 57), Step::Frame(0, 56)],
        end: Err(FrameFault::Truncated),
    },
    // Of frames of 1,080 bytes 4,096 bytes fit: three frames, and 4,096 - 3 * 1,080 = 856 bytes. So
    // 3,240 more fit, after which there are three frames and 856 bytes again.
    Run {
        stream: &[(ECHO_HEAD, 1056); 9],
        steps: &[
            Step::Feed(0, 9720, 4096),
            Step::Feed(4096, 9720, 0),
            Step::Frame(0, 1080),
            Step::Frame(1080, 2160),
            Step::Frame(2160, 3240),
            Step::Wait,
            Step::Feed(4096, 9096, 3240),
            Step::Frame(3240, 4320),
            Step::Frame(4320, 5400),
            Step::Frame(5400, 6480),
            Step::Wait,
            Step::Feed(7336, 9720, 2384),
            Step::Frame(6480, 7560),
            Step::Frame(7560, 8640),
            Step::Frame(8640, 9720),
        ],
        end: Ok(()),
    },
    Run {
        stream: &[(READY_HEAD, 32), ("05", 0)],
        steps: &[Step::Feed(0, 57, 57), Step::Frame(0, 56)],
        end: Err(FrameFault::BadLength),
    },
];

fn is_spelled(frame: &FrameRef<'_>, bytes: &[u8]) -> bool {
    let (head, rest) = bytes.split_at(frame.head().len().min(bytes.len()));
    let (value, tag) = rest.split_at(frame.value().len().min(rest.len()));
    frame.head() == head && frame.value() == value && frame.tag() == tag
}

/// Returns whether `bytes` are the next frame, or `None` if there is no whole frame yet.
fn is_next(cutter: &mut Cutter, bytes: &[u8]) -> Result<Option<bool>, FrameFault>
    requires { cutter.old.met ≡ None }
    ensures met { OnOk result (cutter.new.met ≡ None) }
    ensures drained { IfOk result (λ found. IfNone found (IsDrained cutter.new.bytes)) }
    ensures fault { OnErr result (IsDrained cutter.new.bytes) }
{
    match cutter.next() {
        Ok(Some(frame)) => Ok(Some(is_spelled(&frame, bytes))),
        Ok(None) => {
            beginning_is_drained();
            Ok(None)
        }
        Err(fault) => Err(fault),
    }
}

fn between(stream: &[u8], from: usize, to: usize) -> &[u8] {
    stream.get(from..to).unwrap_or_default()
}

impl Step {
    /// Takes the step, and says whether it gave what was expected.
    fn is_met(&self, cutter: &mut Cutter, stream: &[u8]) -> Result<bool, FrameFault>
        requires { cutter.old.met ≡ None }
        ensures { OnOk result (cutter.new.met ≡ None) }
    {
        match self {
            Step::Feed(from, to, taken) => Ok(cutter.feed(between(stream, *from, *to)) == *taken),
            Step::Frame(from, to) => Ok(
                is_next(cutter, between(stream, *from, *to))? == Some(true),
            ),
            Step::Wait => Ok(is_next(cutter, &[])?.is_none()),
        }
    }
}

/// Returns the result of `end`, or `None` if a whole frame stands in front.
fn end(cutter: &mut Cutter) -> Option<Result<(), FrameFault>>
    requires { cutter.old.met ≡ None }
{
    match is_next(cutter, &[]) {
        Ok(Some(_)) => None,
        Ok(None) => Some(cutter.end()),
        Err(_) => Some(cutter.end()),
    }
}

fn join_pieces(alloc: Global, pieces: &[Piece]) -> Result<Vec<u8>, Fail> {
    let mut stream = Vec::new(alloc);
    for (head, behind) in pieces {
        stream.append(&mut hex::decode(alloc, head)?)?;
        stream.append(&mut vec![in alloc; 0x5a; *behind]?)?;
    }
    Ok(stream)
}

/// Returns the index of the first step of `run` that isn't met. If only the end isn't met, it
/// returns the count of steps.
fn unmet_in(cutter: &mut Cutter, stream: &[u8], run: &Run) -> Result<Option<usize>, FrameFault>
    requires { cutter.old.met ≡ None }
{
    for (place, step) in run.steps.iter().enumerate() {
        if !step.is_met(cutter, stream)? {
            return Ok(Some(place));
        }
    }
    Ok((end(cutter) != Some(run.end)).then_some(run.steps.len()))
}

/// Returns the first step of `run` that isn't met with a new cutter, as `unmet_in` does.
fn unmet(alloc: Global, run: &Run) -> Result<Option<usize>, Fail> {
    let stream = join_pieces(alloc, run.stream)?;
    let mut cutter = Cutter::new(alloc)?;
    Ok(unmet_in(&mut cutter, stream.as_slice(), run)?)
}

#[test]
fn streams_are_cut_into_frames(rt: HostRuntime) -> Result<(), Fail> {
    for (number, run) in RUNS.iter().enumerate() {
        assert_eq!(rt; unmet(rt.alloc(), run)?, None, "run {number}");
    }
    Ok(())
}
