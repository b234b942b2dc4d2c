//! A balanced tree of values that are composed of those of its leaves.
//!
//! Promises that after each change the value at every inner node is the one composed of its leaves' values in their order,
//! that a change whose room was made before takes no memory and can't be refused, and that it lists no more rows to compose than
//! the height of a balanced tree of so many leaves lets expect. A tree can begin with all its leaves at once. A leaf is found by
//! its position, or by an offset among what the leaves count, and what the leaves before a position count is told. These leaves
//! are also told as children that lie whole before it, no more than one a level, whose values stand for them; and those from one
//! position to another in the same way, by no more than two a level.
//!
//! Definitions: `specs/Kept` (what always holds of a tree with its values, and the rooms that a change needs), `specs/Need`
//! (how the rooms are found), `specs/Found` (the place of an offset), `specs/Walk` (the ways down to it and to a position),
//! `specs/Parts` (the children that lie whole before one) and `specs/Between` (those that lie whole from one to another).
//! What a value, a composition and a room are to obey is in `tree_shape`, `specs/Values` and `specs/Composing`. Below it
//! stand `tree_shape`, whose rows say what a change has to compose, and `knit_base`.
#![tactic(auto)]

mod before;
mod between;
mod find;
mod need;
mod parts;
mod refresh;
mod start;
mod tree;
mod values;

pub use find::Counts;
pub use tree::ValueTree;
pub use values::{Takes, Values};
