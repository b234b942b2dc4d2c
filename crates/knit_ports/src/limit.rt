//! The limits of an input and of a call.

use line_cutter::LINE_LIMIT;

/// The greatest number of bytes of an input.
pub const INPUT_LIMIT: usize = 16_777_216;

/// A line of at most so many bytes, in a conversation, is heard whole: an entry of a saved text may be longer than the line whose names it
/// tells.
pub const HEARD_LIMIT: usize = 2 * LINE_LIMIT;

// A read is offered at most so many bytes.
pub(crate) const PIECE: usize = 65_536;

// How often a call is made that a signal interrupts each time.
pub(crate) const TRIES: u32 = 1_000;
