//! The limits of frames, and of loops over streams.

/// The size in bytes of a frame's head, which is everything before its value.
pub const HEAD_LEN: usize = 24;

/// The size of an authentication tag in bytes.
pub const TAG_LEN: usize = 32;

/// The least value of a length field: the count of bytes that follow it in a frame with an empty
/// value.
pub const LEAST_LENGTH: u16 = 54;

/// The greatest length of a value in bytes.
pub const GREATEST_VALUE: u16 = 1024;

/// The size of the longest frame in bytes, its length field included.
pub const GREATEST_FRAME: usize = 1080;

/// The most bytes that a `Cutter` buffers, and the least size of a loop's read buffer.
pub const CUTTER_ROOM: usize = 4096;

/// The count of sequence numbers that an owner has. They are counted from 0.
pub const SEQS: u32 = 65_536;

/// The greatest number of members.
pub const MOST_MEMBERS: u16 = 128;

/// The read limit: the most reads that one loop makes.
pub const MOST_READS: u32 = 1_000_000;

/// The most times that a read is retried if the system interrupts it each time. A loop without a
/// bound would need a permission to wait.
pub const MOST_TRIES: u32 = 1_000;

/// The most bytes of a stream that are held at once. A read returns no more.
pub const READ_ROOM: usize = 1 << 15;
