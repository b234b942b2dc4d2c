//! What the lines of a script say: an opening text, and the commands of its sessions, or in a script of groups their steps; and what
//! the lines of a conversation ask for, one after the other.
//!
//! Promises that a script is read where its lines spell one, that it is then the only one that they spell, and that a refusal
//! names the first line with which no script goes on, and why. A group that isn't closed is refused behind the last line. Also
//! promises of one command that it is the one whose line stands at a place.
//!
//! Of a conversation it promises that a `Listener` answers each line with the orders that all lines heard so far make of it: at most the
//! refusal of a text that the line broke off, and one order. Want of memory changes no refusal and no count of adds; the step for which
//! it ran out is told as lost. A text of over 4,096 lines is only counted. No promise is made that memory suffices.
//!
//! Definitions: `specs/Words` (numbers and names of blocks), `specs/Statements` (what a line says by itself), `specs/Places`
//! (what lines say from one place to another), `specs/Grammar` (the first line outside, for both kinds of scripts),
//! `specs/Script` and `specs/Groups` (which script the lines spell) and `specs/Command` (one command). Of conversations: `specs/TalkLines`
//! (one line by itself), `specs/Hearing` (what lines ask for, one after the other), `specs/Orders` (what an order stands for),
//! `specs/Listener` (what a listener keeps) and `specs/Laws` (more lines, and a line that is cut). `specs/Reading` and
//! `specs/Listening` are for the proofs alone. Below it stand std, `thiserror`, `knit_base`, `knitout_reader` (the tokens of a line)
//! and `edit_journal` (names of blocks).
#![tactic(auto)]

mod command;
mod fault;
mod groups;
pub mod laws;
mod line;
mod listener;
mod one_command;
mod order;
mod reader;
mod step;
mod talk_line;
mod text;
mod words;

pub use command::{Command, CommandList, Place, Script, SessionScripts};
pub use fault::{Cause, ScriptFault};
pub use groups::read_groups;
pub use line::{is_skipped, is_text_line, text_of};
pub use listener::Listener;
pub use one_command::read_command;
pub use order::{Heard, Order, TextEdit};
pub use reader::read_script;
pub use step::{GroupScript, Step, StepList, StepScripts};
pub use talk_line::{Question, TalkOpening, talk_opening};
