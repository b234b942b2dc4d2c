//! Why lines are no script.
ghost use Rattle.std.specs.Prelude.{◌≡◌};
ghost use Rattle.script_reader.specs.declared.fault.ScriptFault.TheVariants as refused;

use knit_base::NoMemory;
use thiserror::Error;

/// What is wrong with the first line outside the grammar.
#[derive(Clone, Copy, Debug, PartialEq, Eq)]
pub enum Cause {
    /// The first line isn't `live 1`, or there is none.
    NoLive,
    /// The line says nothing that may stand here.
    BadLine,
    /// The line would begin session 64.
    ManySessions,
    /// The line names the block of an add command that doesn't stand before it in its session.
    NoOwn,
    /// The first line isn't `groups 1`, or there is none. A `live` script is never refused so.
    NoGroups,
    /// The first line isn't `serve 1 lines N` or `serve 1 journal N`, or there is none. No script is refused so.
    NoServe,
    /// The line of a conversation has over 4,096 bytes. No script is refused so.
    LineLong,
    /// The line of a conversation isn't UTF-8. No script is refused so.
    NotUtf8,
}

/// Why lines are no script.
#[derive(Clone, Copy, Debug, PartialEq, Eq, Error)]
pub enum ScriptFault {
    /// This line, counted from 1, is the first outside the grammar.
    #[error("script line {line} is outside the grammar")]
    At { line: u32, cause: Cause },

    /// Memory ran out.
    #[error("out of memory")]
    NoMemory,
}

impl From<NoMemory> for ScriptFault {
    ghost from_gives = { λ _ e. e ≡ refused.NoMemory };

    fn from(_: NoMemory) -> Self {
        ScriptFault::NoMemory
    }
}
