//! The document as a balanced tree of its blocks' faces, each list of a face in a span of a pool.
//!
//! Promises that the root's face stands for the lines of all leaves, whatever lines these stand for, and does what they do, one
//! after the other; that a face that a change makes is composed of its two parts as they then are; that a change whose need is met
//! takes no memory and can't be refused, and takes steps by the height of the tree and the items of a summary alone; that the place
//! of a body line and the lines before a leaf are told exactly, and so are the loops that a needle holds where a leaf begins, from
//! as many faces as the tree has levels; that each list lies in a span of the least class that holds it, and the one before it is
//! given back (`lists`); and that the spans that are out are those of the faces (`Faces`).
//!
//! Definitions: `specs/Leaves` (the leaves, which of them may stand in one tree, and the face of all of them), `specs/Trees` (what
//! contracts see of a tree, and when a change can be made), `specs/Rooms` and `specs/Meeting` (rooms, and spans for them),
//! `specs/Faces`, `specs/Lists` and `specs/Store` (where faces lie, and what they take), `specs/Entries` (a needle's loops, read
//! back over the faces before). `specs/Laws` shows that faces obey what `value_tree` asks of values.
//! Below it stand `value_tree`, `tree_shape`, `span_pool`, `summary_compose`, `loop_history`, `face_data`, `carriage_model` and
//! `knit_base`.
#![tactic(auto)]

mod entry;
mod faces;
mod lists;
mod need;
mod rooms;
mod start;
mod store;
mod tree;

pub use need::Need;
pub use tree::Tree;
