//! The canonical text of a knitout file.
//!
//! Promises that a line is written in its one spelling, that this spelling reads as the same instruction and is its own, and that
//! a file is written line by line, whole or while its lines come. Definitions: `specs/Canonical`; what was written of a file whose
//! lines come: `specs/WrittenFiles`. Below it stand `knitout_reader`, whose readings it writes, `line_cutter` and `knit_base`.
#![tactic(auto)]

mod copied_line;
mod line;
mod text;
mod text_writer;

pub use line::write_line;
pub use text::write_text;
pub use text_writer::TextWriter;
