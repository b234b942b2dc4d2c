//! What the lines of a conversation ask for.
use crate::command::Place;
use crate::fault::Cause;
use crate::step::Step;
use crate::talk_line::Question;
use edit_journal::BlockName;

/// An edit of a block that takes a text, without it.
#[derive(Clone, Copy, Debug, PartialEq, Eq)]
pub enum TextEdit {
    Put(BlockName),
    Add(Place),
}

/// What a line of a conversation asks for.
#[derive(Drop)]
pub enum Order {
    /// The line with this number is refused, for this cause.
    Refuse {
        line: u64,
        cause: Cause,
    },
    /// A step of this session.
    Ask {
        session: u32,
        step: Step,
    },
    /// An edit of this session that stands alone, with a text of so many lines: over 4,096, of which none is kept.
    TooLong {
        session: u32,
        edit: TextEdit,
        lines: u32,
    },
    /// A step of this session with so many adds, for which memory ran out.
    Lost {
        session: u32,
        adds: u32,
    },
    /// An answer to this session, which changes nothing.
    Tell {
        session: u32,
        question: Question,
    },
}

/// What one line asks for.
#[derive(Drop)]
pub struct Heard {
    /// The line broke off a text, which is refused at this line with `BadLine`; the order comes behind that.
    pub broken_off: bool,
    pub order: Option<Order>,
}
