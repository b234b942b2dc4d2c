//! What a script of groups asks for.
use crate::command::{Command, CommandList};
use knit_base::{Lines, ListOf};

/// A step of a session.
#[derive(Drop)]
pub enum Step {
    /// This command.
    One(Command),
    /// These edits of blocks, 1 to 64, all of them or none.
    Group(CommandList),
    /// Undo a step of the session's own.
    Undo,
}

/// The steps of a session, in order.
pub type StepList = ListOf<Step>;

/// The steps of each session, in the order of the sessions' numbers.
pub type StepScripts = ListOf<StepList>;

/// An opening text, and the steps of each session.
#[derive(Drop)]
pub struct GroupScript {
    pub text: Lines,
    pub sessions: StepScripts,
}
