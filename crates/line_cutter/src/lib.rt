//! The lines of a file's bytes.
//!
//! Promises that what is cut is the list of lines of the bytes, each UTF-8 and of at most 4,096 bytes, and that a refusal
//! names the first line that isn't. Lines that are looked at once are found one by one, and counted without being kept.
//! Definitions: the lines of bytes are `lines_of` of `knit_base`'s `specs/Lines`; good lines and the first bad one stand in
//! `specs/Cut`. Below it stand std, `memchr`, `thiserror` and `knit_base`.
#![tactic(auto)]

mod counter;
mod cutter;
mod fault;
mod line;
mod places;
mod taker;

pub use counter::count_lines;
pub use cutter::{cut, cut_buffer};
pub use fault::CutFault;
pub use line::{LINE_LIMIT, without_return};
pub use places::line_at;
pub use taker::LineTaker;
