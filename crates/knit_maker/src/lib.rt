//! Long programs of one shape, to try a checker on.
//!
//! Promises that `make` gives exactly the lines that `specs/Made` tells, and `make_text` the bytes of a file with these lines. Below it
//! stand std and `knit_base`.
#![tactic(auto)]

mod course;
mod program;
mod stitch;
mod text;

pub use program::make;
pub use stitch::Stitch;
pub use text::make_text;
