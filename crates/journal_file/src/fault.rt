//! Why bytes are no saved text.
ghost use Rattle.std.specs.Prelude.{◌≡◌};
ghost use Rattle.journal_file.specs.declared.fault.JournalFault.TheVariants as refused;

use knit_base::NoMemory;
use thiserror::Error;

/// What is wrong with the first bad line.
#[derive(Clone, Copy, Debug, PartialEq, Eq)]
pub enum JournalCause {
    /// The line is that of an entry that doesn't fit the document before it, or that passes a limit.
    NoFit,
    /// No saved text goes on with the line.
    BadLine,
}

/// Why bytes are no saved text.
#[derive(Clone, Copy, Debug, PartialEq, Eq, Error)]
pub enum JournalFault {
    /// This line, counted from 1, is the first bad one. A line that is missing stands behind the last.
    #[error("journal line {line} is outside the form")]
    At { line: u32, cause: JournalCause },

    /// Memory ran out.
    #[error("out of memory")]
    NoMemory,
}

impl From<NoMemory> for JournalFault {
    ghost from_gives = { λ _ e. e ≡ refused.NoMemory };

    fn from(_: NoMemory) -> Self {
        JournalFault::NoMemory
    }
}
