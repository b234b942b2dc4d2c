//! What the program reads from, writes to, converses with and waits at.
//!
//! Promises that a `Source` gives the bytes that are left to it and a `Sink` takes the bytes that it is handed, where they
//! tell their bytes, that a call fails only where the object's count of faults rose, and that no other call changes it.
//! `read_input` reads a whole input, and `write_report` writes a whole report over them; `read_lines` hands the lines of a file to a
//! `LineTaker` while they are read.
//!
//! A `Talk` is heard and says, and tells in one order what was heard and what was said, where it tells that. `say_whole` says a
//! whole text; an `Ear` hears the next line, and waits for more only where no whole line is pending. `Ends` is a conversation
//! over a source and a sink, of whose order nothing is known.
//! Definitions: `specs/Faults` (counts of faults), `specs/Whole` (a whole input and a whole report), `specs/FileReadings` (what the
//! reading of a file comes to), `specs/Memory` (what the sources and sinks in memory hold), `specs/Edge` (the adapters of std's readers
//! and writers), `specs/Pieces` (what was heard and said), `specs/Ears` (a line that was heard), `specs/MemoryTalks` (a conversation in
//! memory) and `specs/WholeLines` (the lines of bytes that come one after the other, with the laws in `proofs/WholeLines`, which the
//! crates above cite). Below it stand std, `memchr`, `knit_base` and `line_cutter`.
#![tactic(auto)]

mod calm;
mod count_gate;
mod ear;
mod ends;
mod file_reading;
mod gate;
mod limit;
mod memory_sink;
mod memory_source;
mod memory_talk;
mod port;
mod reader;
mod talk;
mod whole;
mod window;
mod writer;

pub use calm::CalmSource;
pub use count_gate::CountGate;
pub use ear::{Ear, LineEnd};
pub use ends::Ends;
pub use file_reading::{FileReading, read_lines};
pub use gate::{Gate, IdleGate};
pub use limit::{HEARD_LIMIT, INPUT_LIMIT};
pub use memory_sink::MemorySink;
pub use memory_source::MemorySource;
pub use memory_talk::{KeptPiece, MemoryTalk};
pub use port::{Failed, Sink, Source};
pub use reader::ReaderSource;
pub use talk::{Talk, say_whole};
pub use whole::{InputFault, read_input, write_report};
pub use writer::WriterSink;
