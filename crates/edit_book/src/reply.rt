//! What is asked of a book, and what it answers.
use block_summary::Prepared;
use carriage_model::{Brief, LoopFact, Verdict};
use edit_journal::{Anchor, BlockName, TextList};
use knit_base::{Declared, Lines, ListOf, Text};

/// Which count would pass its limit.
#[derive(Clone, Copy, Debug, PartialEq, Eq)]
pub enum Which {
    Entries,
    Blocks,
    Lines,
}

/// A summary of a block's text under other names of the header: of the text that the block had with this stamp.
#[derive(Drop)]
pub struct Again {
    pub block: u32,
    pub stamp: u32,
    pub prepared: Prepared,
}

/// Summaries of several blocks.
pub type AgainList = ListOf<Again>;

/// What is asked of a book. `seen` is the stamp that the asker knows of the block, or of the header where its names are replaced;
/// `head` is the stamp of the header under whose names the text was prepared.
#[derive(Drop)]
pub enum BookCommand {
    Look(u32),
    Put {
        block: u32,
        seen: u32,
        head: u32,
        prepared: Prepared,
    },
    Add {
        anchor: Anchor,
        head: u32,
        prepared: Prepared,
    },
    Cut {
        block: u32,
        seen: u32,
    },
    LoopAt(u32),
    Verdict,
    LookHead,
    /// The texts of all blocks.
    Texts,
    PutHead {
        seen: u32,
        declared: Declared,
        again: AgainList,
    },
}

/// What is answered. The version is the number of entries in the journal, after the edit for `Accepted`. Where a block's id stands,
/// `HEAD` names the header.
#[derive(Drop)]
pub enum Reply {
    /// The edit was done. `brief` is the verdict after it.
    Accepted {
        version: u32,
        block: u32,
        brief: Brief,
    },
    /// A block as it stands: its stamp, the file line of its first line, or where that would be, and its lines.
    Shown {
        version: u32,
        block: u32,
        stamp: u32,
        first: u32,
        text: Lines,
    },
    Loop {
        version: u32,
        fact: Option<LoopFact>,
    },
    /// The verdict, and the line at which it is broken.
    Now {
        version: u32,
        verdict: Verdict,
        text: Text,
    },
    /// The blocks as they stand, in their order. No session's command is answered so.
    Texts {
        version: u32,
        blocks: TextList,
    },
    /// The block, or the header, has another stamp than the one that was seen.
    Stale {
        version: u32,
        block: u32,
        seen: u32,
        now: u32,
    },
    /// The block was cut by the entry with this number.
    Gone {
        version: u32,
        block: u32,
        at: u32,
    },
    /// No block has had this id. So many ids were drawn.
    NoBlock {
        version: u32,
        block: u32,
        ids: u32,
    },
    Full {
        version: u32,
        which: Which,
        limit: u32,
    },
    Unseen {
        name: BlockName,
    },
    BlockLong {
        lines: u32,
    },
    NoMemory,
}
