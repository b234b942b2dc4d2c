//! The book: a document in blocks with the journal of its edits, and the faces of its blocks in a tree.
//!
//! Promises that each call answers what the definition of replies says at the version before it, or want of memory, and then nothing
//! has changed; that the journal grows by the one entry exactly where an edit is accepted; that an edit tells the verdict on the
//! document after it, and `verdict` that on the document as it is, which `whole_verdict` tells whole; that a put of a block for which
//! `ready` holds isn't refused for want of memory; and how many steps a call takes at most: an edit by the needles that are named and
//! the height of the tree, whatever the number of lines, and the loop of a line 14. Sessions share a book by turns, each of which is
//! right (`specs/Turns`).
//!
//! Other names of the header are read into a new tree, which is made first. A copy has the same opening and journal, and so answers
//! the same.
//!
//! A book stands over an outline: the document with its journal, without the faces of its blocks. An outline tells which edit may come
//! next and follows entries by itself, so that a journal is gone through again without composing a face; a book is made of it with the
//! summaries of the blocks that are there then.
//!
//! Beside the book stands what a session remembers of its replies (`sessions`): what its command asks of the book, or the reply that it has
//! without it, and what it has learned afterwards. The crates above run sessions with it.
//!
//! Definitions: `specs/Replies` (what is asked, and the one reply), `specs/Verdicts` (the verdict in short, and the loop of a line; the
//! verdict itself is defined in `block_summary`, `specs/Verdicts`), `specs/Headers` (the names under which a text was prepared, and what
//! is kept of the header), `specs/Turns` and `specs/Fitting` (what a turn needs, and that it stays so), `specs/Work` (how many steps a
//! request may take), `specs/Orders` and `specs/Books` (what contracts see of a book, and what always holds of one), `specs/Outlines`
//! (what they see of an outline, and which edit may come next), `specs/Opened` (what is kept of the first blocks), `specs/HeaderTrees`
//! (what is taken of summaries that are handed over), `specs/Entered` (the state in which a block begins) and `specs/Listing` (the block at
//! a place, and the block of a line); `specs/Memory` (what a session remembers, and the answer to its command), `specs/Session` (what it
//! keeps of that) and `specs/Asking` (what it asks of the header, and is told of it). Below it stand std, `knit_base`, `carriage_model`,
//! `knitout_reader`, `face_data`, `loop_history`, `block_summary`, `check_workers` (texts that are read anew), `edit_journal`,
//! `script_reader` (a session's commands), `turn_book` and the tree of faces.
#![tactic(auto)]

mod add;
mod block_state;
mod book;
mod copy;
mod cut;
mod follow;
mod header;
mod listed;
mod look;
mod look_head;
mod loops;
mod may;
mod now;
mod open;
mod order;
mod outline;
mod put;
mod put_head;
mod refusal;
mod replies;
mod reply;
mod room;
pub mod sessions;
mod start;
mod texts;
mod turns;

pub use book::Book;
pub use edit_journal::HEAD;
pub use listed::{BlockPlace, LinePlace};
pub use open::block_texts;
pub use outline::Outline;
pub use replies::Replies;
pub use reply::{Again, AgainList, BookCommand, Reply, Which};
