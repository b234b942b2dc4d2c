//! A journal as text: the opening of a document and the edits that were accepted, written to be read again.
//!
//! Promises that what has a spelling has one, and that it is written; that bytes are read exactly where they are a spelling, as what
//! it spells; that a refusal names the first line with which no spelling goes on, or the first entry that may not come next, and that
//! what is refused is no spelling; and that a book of what was read has that opening and that journal.
//! Definitions: `specs/Spelling` (the bytes of a saved text), `specs/SavedParts` (what a head, limits, blocks and a journal must keep
//! that have a spelling), `specs/Heads` (one whole head), `specs/Lines` and `specs/Words` (lines, and numbers at the front of a text),
//! `specs/Grammars` (forms of lines, and the first line with which none goes on), `specs/Reading` (how far a form was read, and its
//! faults), `specs/SavedForms` (the form of a saved text, and what it says) over `specs/Fronts`, `specs/Profiles`, `specs/HeadForms`,
//! `specs/CountLines`, `specs/Texts`, `specs/BlockForms`, `specs/Entries`, `specs/Headers` and `specs/EntryForms` (the forms of its
//! parts), `specs/Openings` (what was read before the entries) and `specs/Faults` (the first bad line, and why). Which edit may come
//! next is defined in `edit_book`. Below it stand std, `memchr`, `thiserror`, `knit_base`, `knitout_reader`, `edit_journal`,
//! `check_workers` and `edit_book`.
#![tactic(auto)]

mod block;
mod blocks;
mod book;
mod counts;
mod entries;
mod entry;
mod entry_line;
mod entry_words;
mod fault;
mod first;
mod front;
mod head;
mod head_words;
mod names;
mod opening;
mod profile;
mod read;
mod saved;
mod scan;
mod text;
mod words;
mod write;

pub use book::{outline_of, reopen};
pub use fault::{JournalCause, JournalFault};
pub use first::first_blocks;
pub use read::read_journal;
pub use saved::Saved;
pub use write::{saved_text, write_journal};
