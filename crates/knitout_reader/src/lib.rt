//! What the lines of a knitout file say.
//!
//! Promises that a line's reading is the one that its tokens have by the grammar and by the rules that need no machine, and that
//! a body's readings are those of its lines. A head is read as far as it goes, or the first refusal that holds is told. Of a file whose
//! lines come some at a time the head is read line by line, and the lines of its body go to a work.
//! Definitions: `specs/Tokens` (tokens and comments), `specs/Head` (heads), `specs/HeadLines` and `specs/FileLines` (heads and files
//! whose lines come some at a time), `specs/Numbers` (needles and racks), `specs/Shapes` (what a line spells), `specs/Carriers`
//! (the rules of carriers), `specs/Reading` (the other rules, and the reading), `specs/Usual` and `specs/Shortest` (the spelling of
//! most lines, which are read at once, and which are canonical) and `specs/Loose` (other spellings of what most lines say). Lemmas that the crates above cite: `proofs/SomeReading` (each line has
//! a reading), `proofs/LawfulReadings` (which is lawful), `proofs/BodyReadings`.
//! Below it stand `thiserror`, `knit_base` and `line_cutter`.
#![tactic(auto)]

mod answers;
mod body;
mod byte_names;
mod carrier_line;
mod carriers;
mod file_reader;
mod file_work;
mod front;
mod head;
mod head_reader;
mod loop_line;
mod loose;
mod needle_line;
mod number;
mod operands;
mod rack;
mod rack_line;
mod read;
mod readings;
mod shortest;
mod tokens;
mod usual;
mod whole_line;
mod words;

pub use body::{nth_line, read_body};
pub use byte_names::ByteNames;
pub use file_reader::{FileReader, ReadFile};
pub use file_work::FileWork;
pub use head::{Head, HeadFault, declared_in, is_head_line, is_magic, read_head};
pub use head_reader::HeadReader;
pub use loose::loose_line;
pub use read::read_line;
pub use readings::usual_reading;
pub use shortest::is_shortest_spelling;
pub use tokens::{code_of, comment_at, is_blank_text, next_token};
pub use usual::usual_line;
pub use whole_line::{LastNamed, usual_whole_line};
