//! What the words of a command line ask for.
use machine_profile::Options;

/// What the program is to do.
#[derive(Clone, Copy, Debug, PartialEq, Eq)]
pub enum Command {
    /// Checks a knitout file: with the loops made, and as JSON.
    Check { loops: bool, json: bool },
    /// Writes the canonical text of a knitout file.
    Text,
    /// Writes the passes of a knitout file.
    Passes,
    /// Runs a script of edits.
    Live,
    /// Runs a script of edits, and writes the document that it began with and the journal, to be kept.
    Save,
    /// Runs a script of edits, of groups of edits and of undos.
    Groups,
    /// Answers a conversation of sessions, each command before more is heard.
    Serve { json: bool },
    /// Follows a journal that was kept, and writes the verdict at its end.
    Replay,
    /// Follows a journal that was kept, and writes what its last blocks come to, from one place to another, the places from 0 and the
    /// other not counted.
    Tally { from: u32, to: u32 },
    /// Makes a program of 1 to 20,000 rows, from the start that its transfers are drawn from (0 to 2,147,483,647).
    Make { rows: u32, start: u32 },
}

/// A command and the values of its options, which are not yet tested against their bounds.
#[derive(Clone, Copy, Debug, PartialEq, Eq)]
pub struct Request {
    pub command: Command,
    pub options: Options,
}
