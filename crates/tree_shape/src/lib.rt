//! The shape of a height-balanced tree whose leaves are found by position.
//!
//! Promises, of each change, the list of leaf numbers and the tree afterwards, balanced as ever, and of the rows that it
//! lists: each inner node with other children or another tree below it is among them, once, with the two children that it
//! has afterwards, children before parents, and there are at most `3 * (high + 2)` of them for the greatest height that so
//! many leaves can have. `touch` lists exactly the inner nodes above a leaf. A plan lists and answers what its change would.
//! A number is that of the leaf or inner node taken out last, or else the count of numbers drawn so far. `position` finds a leaf
//! by its number, and `build` numbers the inner nodes from 0, each after those below it.
//!
//! Definitions: `specs/Tree` (the tree, its height and its balance), `specs/Changes` (what rows say of a tree), `specs/Plan`
//! and `specs/Removal` (what a change lists), `specs/Numbers` (free numbers), `specs/Parents` (the node above each), `specs/Building` (a tree built
//! from halves), `specs/View` (what contracts see of a shape).
//! Below it stands `knit_base`.
#![tactic(auto)]

mod arena;
mod building;
mod climbing;
mod dirty;
mod insertion;
mod node;
mod numbers;
mod parents;
mod removal;
mod shape;

pub use dirty::{Dirty, DirtyRow};
pub use node::Child;
pub use shape::Shape;
