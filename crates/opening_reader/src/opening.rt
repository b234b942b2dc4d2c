//! What is told of an opening.

use knit_base::Lines;
use script_reader::Cause;

/// What stands behind the first line of a conversation.
#[derive(Clone, Copy, Debug, PartialEq, Eq)]
pub enum OpeningKind {
    /// Text lines, whose texts the document begins with.
    Text,
    /// The lines of a saved text, with whose document and journal the conversation goes on.
    Saved,
}

/// What an opening still asks for.
#[derive(Clone, Copy)]
pub struct Wanted {
    pub kind: OpeningKind,
    pub missing: u32,
}

/// The opening of a conversation, and how many lines were heard for it.
#[derive(Drop)]
pub struct OpeningText {
    pub kind: OpeningKind,
    /// The texts of its text lines, or the lines of its saved text.
    pub text: Lines,
    /// The first line and those that were passed over among them.
    pub lines: u32,
}

/// Why there is none.
#[derive(Clone, Copy, Debug, PartialEq, Eq)]
pub enum OpeningFault {
    /// The line with this number, from 1, can't stand there, for this cause, or the input ended before it.
    At { line: u32, cause: Cause },
    /// The lines up to this one have more than 16,777,216 bytes.
    TooManyBytes,
    /// A call of the port failed.
    Failed,
    NoMemory,
}
