//! Laws of frames and of streams. The functions do nothing: their contracts are the laws.

ghost use Rattle.std.specs.Prelude.{◌≡◌, ℕ, ◌≤◌, List, [], ◌++◌, length, Option, Some, None};
ghost use Rattle.std.specs.Prelude.{Result, Ok, Err, ◌↔◌, ◌+◌, ◌*◌, ◌<◌, ◌∷◌, take, ⊤};
ghost use Rattle.std.specs.List.{flat_map};
ghost use Rattle.pay_frame.specs.Cutting.{Held, CutterCall, Runs, stream_of, frames_of};
ghost use Rattle.pay_frame.specs.Cutting.{nothing_held, IsDrained, Feeds, HandsOut, EndsWith};
ghost use Rattle.pay_frame.specs.Cutting.{frame_in};
ghost use Rattle.pay_frame.specs.EngineFault.{engine_entry, engine_of};
ghost use Rattle.pay_frame.specs.Exact.{Function, TakesFrames, Writes, exactly};
ghost use Rattle.pay_frame.specs.Fault.{fault_number};
ghost use Rattle.pay_frame.specs.Frame.{FrameFields, frame_bytes, IsFrame};
ghost use Rattle.pay_frame.specs.Handling.{HasHandled, Stage, Start};
ghost use Rattle.pay_frame.specs.OneFrame.{IsOneFrame, IsOneReading, one_frame};
ghost use Rattle.pay_frame.specs.Reading.{IsReading, IsProperBeginning, IsFault};
ghost use Rattle.pay_frame.specs.Stream.{IsBytes, IsFramesThen, IsStream, EveryStream, Joins};
ghost use Rattle.pay_frame.specs.Stream.{Parts, stream_end};
ghost use Rattle.pay_frame.specs.StreamFault.{stream_entry};
ghost use Rattle.pay_frame.specs.declared.device.StreamFault.{StreamFault};
ghost use Rattle.pay_frame.specs.declared.engine.EngineFault.{EngineFault};
ghost use Rattle.pay_frame.specs.declared.reading.FrameFault.{FrameFault as Fault};

use crate::limits::{GREATEST_FRAME, LEAST_LENGTH};

/// States that encoding is injective: equal bytes encode equal fields.
// promise: one reading
pub fn one_spelling()
    ensures law { (f g : FrameFields) → IsFrame f → IsFrame g →
        frame_bytes f ≡ frame_bytes g → f ≡ g }
{}

/// States that no frame is a proper prefix of another.
// promise: one reading
pub fn none_begins_another()
    ensures law { (f g : FrameFields) (rest : List ℕ) → IsFrame f → IsFrame g →
        frame_bytes g ≡ frame_bytes f ++ rest → rest ≡ [] }
{}

/// States that at most one frame is a prefix of any bytes, and that it determines the rest.
// promise: one reading
pub fn one_front()
    ensures law { (f g : FrameFields) (x y : List ℕ) → IsFrame f → IsFrame g →
        frame_bytes f ++ x ≡ frame_bytes g ++ y → (f ≡ g) × (x ≡ y) }
{}

/// States that bytes have at most one reading: a frame, a proper prefix and each fault exclude one
/// another.
// promise: one reading
pub fn one_reading()
    ensures law { (bytes : List ℕ) (one other : Result (Option (FrameFields × ℕ)) Fault) →
        IsReading bytes one → IsReading bytes other → one ≡ other }
{}

/// States that an encoded frame is read back, whatever follows it.
// promise: one reading
pub fn read_again()
    ensures law { (f : FrameFields) (rest : List ℕ)
        (answer : Result (Option (FrameFields × ℕ)) Fault) → IsFrame f →
        IsReading (frame_bytes f ++ rest) answer → answer ≡ Ok (Some (f, length (frame_bytes f))) }
{}

/// States that a cutter loses and invents nothing. The bytes that it accepted are the encodings of
/// the frames that it returned, followed by the bytes that it still holds.
pub fn stream_is_frames_and_rest()
    ensures law { (calls : List CutterCall) (held : Held) → Runs nothing_held calls held →
        stream_of calls ≡ flat_map frame_bytes (frames_of calls) ++ held.bytes }
{}

/// States that two cutters which accepted the same bytes return the same frames. They also hold the
/// same bytes, once neither has a complete frame. The pieces and the calls of `next` between them
/// make no difference.
// promise: one stream
pub fn cuts_do_not_matter()
    ensures law { (one two : List CutterCall) (a b : Held) →
        Runs nothing_held one a → Runs nothing_held two b →
        stream_of one ≡ stream_of two → IsDrained a.bytes → IsDrained b.bytes →
        (frames_of one ≡ frames_of two) × (a.bytes ≡ b.bytes) }
{}

/// States that the fault of bytes is one of the first six, so it is never `Truncated` or
/// `Trailing`.
// promise: one reading
pub fn faults_of_bytes()
    ensures law { (bytes : List ℕ) (fault : Fault) → IsFault bytes fault → fault_number fault ≤ 6 }
{}

/// States that the empty list is a proper prefix of a frame.
pub fn nothing_is_a_beginning()
    ensures law { IsProperBeginning [] }
{}

/// States that reading bytes as one frame has exactly one answer.
// promise: one reading
pub fn one_answer()
    ensures unique { (bytes : List ℕ) (one other : Result FrameFields Fault) →
        IsOneReading bytes one → IsOneReading bytes other → one ≡ other }
    ensures exists { (bytes : List ℕ) → IsBytes bytes →
        (answer : Result FrameFields Fault) × IsOneReading bytes answer }
{}

/// States that `one_frame` computes the frame that the bytes are, if they are one frame and nothing
/// else.
// promise: one reading
pub fn one_frame_is()
    ensures law { (bytes : List ℕ) (f : FrameFields) →
        (one_frame bytes ≡ Some f) ↔ IsOneFrame bytes f }
    ensures none { (bytes : List ℕ) (fault : Fault) →
        IsOneReading bytes (Err fault) → one_frame bytes ≡ None }
{}

/// States that a proper prefix of a frame has no complete frame in front.
pub fn beginning_is_drained()
    ensures law { (bytes : List ℕ) → IsProperBeginning bytes → IsDrained bytes }
{}

/// States that any bytes read in one of three ways: as a frame, as a proper prefix of a frame, or
/// as a fault.
// promise: one reading
pub fn every_reading()
    ensures law { (bytes : List ℕ) → IsBytes bytes
        → (answer : Result (Option (FrameFields × ℕ)) Fault) × IsReading bytes answer }
{}

/// States that any bytes are a stream: some frames, and an end.
// promise: one stream
pub fn every_stream()
    ensures law { EveryStream }
{}

/// States that bytes are one stream: its frames and its end depend on the bytes alone.
// promise: one stream
pub fn one_stream()
    ensures frames { (bytes : List ℕ) (one two : List FrameFields) (a b : Option Fault)
        → IsStream bytes one a → IsStream bytes two b → one ≡ two }
    ensures ending { (bytes : List ℕ) (one two : List FrameFields) (a b : Option Fault)
        → IsStream bytes one a → IsStream bytes two b → a ≡ b }
{}

/// States how a stream grows while it is read. New bytes come after what is left, and the next
/// frame is one frame more.
pub fn stream_grows()
    ensures nothing { (bytes : List ℕ) → IsFramesThen bytes [] bytes }
    ensures piece { (bytes rest more : List ℕ) (frames : List FrameFields)
        → IsFramesThen bytes frames rest → IsFramesThen (bytes ++ more) frames (rest ++ more) }
    ensures frame { (bytes held rest : List ℕ) (frames : List FrameFields) (f : FrameFields)
        → IsFramesThen bytes frames held → IsFrame f → held ≡ frame_bytes f ++ rest
        → IsFramesThen bytes (frames ++ f ∷ []) rest }
    ensures frames { (bytes held rest : List ℕ) (first more : List FrameFields)
        → IsFramesThen bytes first held → IsFramesThen held more rest
        → IsFramesThen bytes (first ++ more) rest }
{}

/// States that a stream continues after the frames that were handed out. Its frames are these
/// frames and those of the bytes left and still to come, with the same end.
pub fn stream_goes_on()
    ensures joined { Joins }
    ensures parted { Parts }
{}

/// States that a fault ends a stream, whatever comes after the fault.
// promise: one stream
pub fn fault_is_for_good()
    ensures fault { (bytes more : List ℕ) (fault : Fault)
        → IsFault bytes fault → IsFault (bytes ++ more) fault }
    ensures stream { (read held more : List ℕ) (frames : List FrameFields) (fault : Fault)
        → IsFramesThen read frames held → IsFault held fault
        → IsStream (read ++ more) frames (Some fault) }
{}

/// States that after each call of a cutter, the bytes fed are the frames handed out and then the
/// bytes held. The cutter's first fault is a fault of these bytes. What it answers at the end is
/// the stream's end.
// promise: one stream
pub fn cutter_follows_stream()
    ensures feed { (old new : Held) (piece read : List ℕ) (taken : ℕ) (frames : List FrameFields)
        → Feeds old new piece taken → IsFramesThen read frames old.bytes
        → IsFramesThen (read ++ take taken piece) frames new.bytes }
    ensures next { (old new : Held) (answer : Result (Option FrameFields) Fault)
        (read : List ℕ) (frames : List FrameFields)
        → HandsOut old answer new → IsFramesThen read frames old.bytes
        → IsFramesThen read (frames ++ frame_in answer) new.bytes }
    ensures fault { (old new : Held) (fault : Fault)
        → old.met ≡ None → HandsOut old (Err fault) new → IsFault new.bytes fault }
    ensures end { (held : Held) (answer : Result Unit Fault) (read : List ℕ)
        (frames : List FrameFields)
        → held.met ≡ None → EndsWith held answer → IsFramesThen read frames held.bytes
        → IsStream read frames (stream_end answer) }
{}

/// States the length of a frame, that a proper prefix is shorter than the longest frame, and how
/// many frames there can be.
pub fn frame_sizes()
    ensures frame { (f : FrameFields) → IsFrame f
        → length (frame_bytes f) ≡ 2 + LEAST_LENGTH + length f.body.value }
    ensures greatest { (f : FrameFields) → IsFrame f
        → length (frame_bytes f) ≤ GREATEST_FRAME }
    ensures beginning { (bytes : List ℕ) → IsProperBeginning bytes
        → length bytes < GREATEST_FRAME }
    ensures count { (bytes rest : List ℕ) (frames : List FrameFields)
        → IsFramesThen bytes frames rest
        → (2 + LEAST_LENGTH) * length frames + length rest ≤ length bytes }
{}

/// States that a stream has one text if a function of the state makes the texts. The text written
/// is that of the bytes read, and the state is the one after their frames.
// promise: handled once
pub fn exact_text<S>()
    ensures text { (h : Function S) (start : Start S) (stage : Stage S)
        (result : Result ⊤ EngineFault) → HasHandled (exactly h) start stage result
        → Writes h start stage result }
    ensures took { (h : Function S) (start : Start S) (stage : Stage S)
        (result : Result ⊤ EngineFault) → HasHandled (exactly h) start stage result
        → TakesFrames h start stage.state }
{
    every_stream();
    stream_goes_on();
    stream_grows();
}

/// States that the fault of a device keeps its number and its name when it becomes an
/// `EngineFault`.
pub fn faults_keep_their_names()
    ensures law { (fault : StreamFault) → engine_entry (engine_of fault) ≡ stream_entry fault }
{}
