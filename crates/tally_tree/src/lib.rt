//! What the lines of a document's blocks come to, counted, and the sum over any range of blocks from few of these counts.
//!
//! Promises that a sum of two tallies is that of the first one's lines and then the other's; that a document of tallies follows each
//! entry of a journal; and that the tally of a range of blocks is what their lines come to, counted from scratch under the names
//! that the header then has, at the cost of a balanced tree's height and not of the lines.
//!
//! Definitions: `specs/Tallies` (what lines come to, and sums), `specs/Needles` (rising lists of needles, merged), `specs/Docs` (documents
//! and ranges), `specs/Trees` (the tree of a document), `specs/Leaves` and `specs/Rooms` (its values, and the memory for them) and
//! `specs/Counting` (lines counted one by one); `specs/Laws` has the laws of these values, over `specs/Merging`, `specs/Sums` and
//! `specs/NeedleLimit`. Below it stand std, `edit_book`, whose outline says what the blocks are, `value_tree`, `pass_grouping`, whose
//! classes of operations are counted, `knitout_reader` and `knit_base`.
#![tactic(auto)]

mod doc;
mod follow;
mod lines;
mod merge;
mod range;
mod rooms;
mod spares;
mod store;
mod tally;
mod trees;

pub use doc::TallyDoc;
pub use tally::Tally;
