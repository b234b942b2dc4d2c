//! Finding a leaf by what the leaves before it count.
ghost use Rattle.std.specs.Prelude.{◌≡◌, ℕ, ◌+◌, ◌<◌, ◌≤◌, List, Option, Some, None};
ghost use Rattle.tree_shape.specs.Values.{part};

use crate::values::Values;
use tree_shape::{Child, Shape};

/// Values that each count something, as lines.
pub trait Counts: Values {
    ghost count: { Self.Value → ℕ };

    /// What a child counts.
    fn count_of(&self, child: Child) -> u64
        requires { (v : Self.Value) × (part (Self.leaf_at self.now) (Self.node_at self.now) child ≡ Some v) }
        ensures { (v : Self.Value) → part (Self.leaf_at self.now) (Self.node_at self.now) child ≡ Some v → result ≡ count v };

    /// A composed value counts what both count.
    ghost count_law: { (a b : Self.Value) → Self.fits a b → count (Self.join a b) ≡ count a + count b };
}

/// How far a walk down the tree has come: a child, the leaves before it, and the offset from there.
#[derive(Clone, Copy)]
pub(crate) struct LeafWalk {
    pub child: Child,
    pub at: u32,
    pub left: u64,
}

mod step;

pub(crate) use step::step;
