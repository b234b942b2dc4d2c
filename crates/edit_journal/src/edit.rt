//! Edits, and the entries that they leave.
ghost use Rattle.std.specs.Prelude.{◌≡◌, IfOk};
ghost use Rattle.std.specs.Option.{option_copied};
ghost use Rattle.edit_journal.specs.Entries.{names_for, text_for};

use knit_base::{BlockText, Declared, ListOf, NoMemory};

/// The id by which the `Carriers` header is named where a block's id stands. No block has it.
pub const HEAD: u32 = 4_294_967_295;

/// Where a new block stands: first, or directly after the block with this id.
#[derive(Clone, Copy, Debug, PartialEq, Eq)]
pub enum Anchor {
    Start,
    After(u32),
}

/// A block as a session names it: by its id, or as the one that the session's own add with this number made, from 1.
#[derive(Clone, Copy, Debug, PartialEq, Eq)]
pub enum BlockName {
    Id(u32),
    Own(u32),
}

/// A block as it stood at some version: its id, its stamp and its text, which has at most 4,096 lines.
#[derive(Drop)]
pub struct BlockAt {
    pub block: u32,
    pub stamp: u32,
    pub text: BlockText,
}

/// Blocks, in the order of a document.
pub type TextList = ListOf<BlockAt>;

/// What is done to a document: a block gets another text, a new block with the next id comes in, a block is taken out, or the
/// header gets other names. `seen` is the stamp that the block or the header had: the number of the entry that gave it its text or
/// its names, 0 for those of the opening.
#[derive(Drop)]
pub enum Edit {
    Put {
        block: u32,
        seen: u32,
        text: BlockText,
    },
    Add {
        anchor: Anchor,
        block: u32,
        text: BlockText,
    },
    Cut {
        block: u32,
        seen: u32,
    },
    Head {
        seen: u32,
        declared: Declared,
    },
}

impl Edit {
    /// An equal edit. Fails where memory runs out.
    pub fn try_clone(&self) -> Result<Edit, NoMemory>
        ensures { IfOk result (λ edit. edit ≡ self.now) }
    {
        Ok(match self {
            Edit::Put { block, seen, text } => Edit::Put {
                block: *block,
                seen: *seen,
                text: text.try_clone()?,
            },
            Edit::Add {
                anchor,
                block,
                text,
            } => Edit::Add {
                anchor: *anchor,
                block: *block,
                text: text.try_clone()?,
            },
            Edit::Cut { block, seen } => Edit::Cut {
                block: *block,
                seen: *seen,
            },
            Edit::Head { seen, declared } => Edit::Head {
                seen: *seen,
                declared: declared.try_clone()?,
            },
        })
    }
}

/// An edit that was accepted, and the number of the session that it came from.
#[derive(Drop)]
pub struct Entry {
    pub session: u32,
    pub edit: Edit,
}

impl Entry {
    /// An equal entry. Fails where memory runs out.
    pub fn try_clone(&self) -> Result<Entry, NoMemory>
        ensures { IfOk result (λ entry. entry ≡ self.now) }
    {
        Ok(Entry {
            session: self.session,
            edit: self.edit.try_clone()?,
        })
    }

    /// The text that the entry gives to a block, if it gives it one.
    pub fn text_for(&self, id: u32) -> Option<&BlockText>
        ensures { option_copied result ≡ text_for id self.now }
    {
        match &self.edit {
            Edit::Put { block, text, .. } if *block == id => Some(text),
            Edit::Add { block, text, .. } if *block == id => Some(text),
            Edit::Put { .. } | Edit::Add { .. } | Edit::Cut { .. } | Edit::Head { .. } => None,
        }
    }

    /// The names that the entry gives to the header, if it gives it some.
    pub fn names_for(&self) -> Option<&Declared>
        ensures { option_copied result ≡ names_for self.now }
    {
        match &self.edit {
            Edit::Head { declared, .. } => Some(declared),
            Edit::Put { .. } | Edit::Add { .. } | Edit::Cut { .. } => None,
        }
    }
}
