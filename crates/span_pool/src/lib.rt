//! Spans of memory in classes of rising size, which are reserved first and then handed out without any request for memory.
//!
//! Promises that a span holds what was put into it last, and no other span has its memory, which it owns; that `take` refuses
//! exactly where nothing of the class is spare, and a span that is given back is spare again; and that only `reserve` takes memory.
//! Definitions: `specs/Pool` (what a span holds, what is spare and what is out, and what one call changes) and `specs/Class` (the
//! class of a length). Below it stands `knit_base`, for the want of memory.
#![tactic(auto)]

mod class;
mod pool;
mod shelf;
mod span;

pub use class::class_of;
pub use pool::{NoSpare, Pool};
pub use span::Span;
