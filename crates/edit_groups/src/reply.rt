//! What is asked of a book of groups, and what it answers.
use carriage_model::Brief;
use edit_book::{BookCommand, Reply};
use knit_base::ListOf;

/// An edit of a group: what is asked of the book, or the session's own refusal, `Unseen` or `BlockLong`.
#[derive(Drop)]
pub enum GroupEdit {
    Ready(BookCommand),
    Refused(Reply),
}

/// The edits of a group, at most 64.
pub type GroupEdits = ListOf<GroupEdit>;

/// What is asked of a book of groups.
#[derive(Drop)]
pub enum GroupCommand {
    One(BookCommand),
    Group(GroupEdits),
    Undo,
}

/// What a step is answered. Versions and entries are those of the journal of edits.
#[derive(Drop)]
pub enum GroupReply {
    /// The reply to one command, or to the command that an undo comes to.
    One(Reply),
    /// All edits of the group were done: the last version, the number of the first entry, and the verdict after the last.
    Done {
        version: u32,
        from: u32,
        brief: Brief,
    },
    /// At this version the edit with this number, from 1, is refused so, and nothing was done.
    Refused {
        base: u32,
        at: u32,
        reply: Reply,
    },
    /// The session's last accepted step is no single put or add of a block, or there is none.
    NoUndo,
    NoMemory,
}

/// A reply, and at what it was given: how many steps were accepted before, and how many ids were drawn. By the ids a session knows which
/// blocks the adds of its group made.
#[derive(Drop)]
pub struct Told {
    pub reply: GroupReply,
    pub step: u32,
    pub ids: u32,
}
