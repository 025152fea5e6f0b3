//! Frames on the wire, the byte streams that carry them, and the loops that read these streams.
//!
//! A frame is one message from one member to another, with an authentication tag for its receiver.
//! It is defined by its encoding, a function from fields to bytes (`specs/Frame.antt`). [`read`]
//! and [`write`] are proved against it, and [`Cutter`] splits a stream into frames.
//!
//! ```
//! let mut cutter = Cutter::new(alloc)?;
//! cutter.feed(&bytes);
//! while let Some(frame) = cutter.next()? {
//!     println!(rt; "frame {} of member {}", frame.number(), frame.from())?;
//! }
//! ```
//!
//! [`Input`] and [`Output`] are devices that count their calls and failures; [`Reader`] and
//! [`Writer`] make them of `std`'s. [`SlidingBuffer`] holds what was read and not consumed.
//! [`handle_stream`] reads pieces from an input and cuts them into frames. A [`FrameHandler`] takes
//! each frame with a state of its own, and the texts that it makes are written to an output.
#![tactic(auto)]

mod body;
mod cutter;
mod device;
mod engine;
mod frame_ref;
mod laws;
mod limits;
mod reading;
mod sliding_buffer;
mod writing;

pub use body::{Body, Bytes, Kind, SharedBody};
pub use cutter::Cutter;
pub use device::{
    Counted, DeviceFailed, Input, Output, Reader, StreamFault, Writer, write_all, write_text,
};
pub use engine::{EngineFault, FrameHandler, handle_stream};
pub use frame_ref::FrameRef;
pub use laws::{
    beginning_is_drained, cuts_do_not_matter, cutter_follows_stream, every_reading, every_stream,
    exact_text, fault_is_for_good, faults_keep_their_names, faults_of_bytes, frame_sizes,
    none_begins_another, nothing_is_a_beginning, one_answer, one_frame_is, one_front, one_reading,
    one_spelling, one_stream, read_again, stream_goes_on, stream_grows, stream_is_frames_and_rest,
};
pub use limits::{
    CUTTER_ROOM, GREATEST_FRAME, GREATEST_VALUE, HEAD_LEN, LEAST_LENGTH, MOST_MEMBERS, MOST_READS,
    MOST_TRIES, SEQS, TAG_LEN,
};
pub use reading::{FrameFault, read, read_one};
pub use sliding_buffer::SlidingBuffer;
pub use writing::{head_into, write};
