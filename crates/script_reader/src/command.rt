//! What a script asks for.
use edit_journal::BlockName;
use knit_base::{Declared, Lines, ListOf};

/// Where a new block goes: first, or directly behind another.
#[derive(Clone, Copy, Debug, PartialEq, Eq)]
pub enum Place {
    Start,
    After(BlockName),
}

/// What a session asks of the book.
#[derive(Drop)]
pub enum Command {
    /// Show the block.
    Look(BlockName),
    /// Replace the block's lines by these.
    Put(BlockName, Lines),
    /// Put a new block with these lines there.
    Add(Place, Lines),
    /// Take the block out.
    Cut(BlockName),
    /// Show the loop that this line of the file makes.
    LoopAt(u32),
    /// Show the verdict.
    Verdict,
    /// Show the header.
    LookHead,
    /// Replace the names of the header by these.
    PutHead(Declared),
}

/// The commands of a session, in order.
pub type CommandList = ListOf<Command>;

/// The commands of each session, in the order of the sessions' numbers.
pub type SessionScripts = ListOf<CommandList>;

/// An opening text, and what each session does.
#[derive(Drop)]
pub struct Script {
    pub text: Lines,
    pub sessions: SessionScripts,
}
