//! Sessions that share one book, each in a thread of its own.
//!
//! Promises that each reply to a session's command is the answer at the journal that its turn found, with what the session
//! remembers, that the replies to all sessions and the journal are one legal history, and that each entry of such a history may come
//! behind those before it and does what a command of its session asks.
//! Definitions: `specs/Core` (the book of an opening, as histories of any book see it), `specs/Laws` (legal histories of a book, the
//! sessions' turns one after the other, how they agree, and which entries come) and `specs/Talks` (a session that hasn't begun). What a
//! session remembers, what its command asks and what the answer to it is stand in `edit_book`, and histories of any book in `turn_book`.
//! Below it stand std, `knit_base`, `knit_ports` (gates), `block_summary`, `edit_journal`, `edit_book`, `script_reader` and `turn_book`.
#![tactic(auto)]

mod head;
pub mod laws;
mod run;
mod take;
mod talk;

pub use edit_book::sessions::Session;
pub use run::run_all;
pub use take::do_command;
