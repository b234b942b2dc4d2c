//! Edits of a document in blocks, and the journal of those that were accepted.
//!
//! Promises that a `Journal` is seen as the list of its entries, and that a `push` whose room was made before takes no memory.
//! Definitions: `specs/Entries` (an entry by its number, the text that it gives a block or the names that it gives the header),
//! `specs/EntryLine` (the line that tells an entry, wherever one is written) and `specs/Documents` (the document that an opening and a
//! journal give, version by version). Below it stand std and `knit_base`.
#![tactic(auto)]

mod edit;
mod entry_line;
mod journal;
mod opening;

pub use edit::{Anchor, BlockAt, BlockName, Edit, Entry, HEAD, TextList};
pub use entry_line::append_entry_line;
pub use journal::Journal;
pub use opening::Opening;
