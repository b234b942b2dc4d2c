//! The opening of a conversation, heard line by line: an opening text, of whose lines the texts are told, or a saved text, whose lines
//! are told as they stand.
//!
//! Promises that what is told is the opening that the first lines which were heard spell, which is one at most (`laws`), of one kind and
//! with one text, or the first of them that can't stand there, and why; that nothing is said meanwhile; and that no byte is waited for
//! behind the last line. The bytes of a text (`bytes_of`) are its lines, each with a line feed behind it. No promise is made that memory
//! suffices.
//!
//! Definitions: `specs/Openings` (which lines are an opening, of which kind and with which text, and which line can't stand behind
//! others), `specs/HeardOpenings` (what was heard, up to where, and what is told of it) and `specs/Laws`. `specs/Fronts` is for the proofs
//! alone. Below it stand std, `knit_base`, `knit_ports` (conversations, and the ear that hears lines), `line_cutter` and `script_reader`
//! (the first line, text lines, and lines that are passed over).
#![tactic(auto)]

mod bytes;
mod front;
mod hearing;
pub mod laws;
mod line;
mod opening;

pub use bytes::bytes_of;
pub use front::OPENING_LIMIT;
pub use hearing::hear_opening;
pub use opening::{OpeningFault, OpeningKind, OpeningText};

#[cfg(test)]
mod tests;
