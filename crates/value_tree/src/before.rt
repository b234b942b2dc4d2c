//! Counting what the leaves before a position count.
ghost use Rattle.std.specs.Prelude.{◌≡◌, ℕ, ◌+◌, ◌<◌, ◌^◌};
ghost use Rattle.value_tree.specs.Walk.{IsDescent};

use crate::find::Counts;
use tree_shape::{Child, Shape};

/// How far a walk to a position has come: a child, how many leaves of it stand before the position, and what all leaves before
/// the child count.
#[derive(Clone, Copy)]
pub(crate) struct Descent {
    pub child: Child,
    pub at: u32,
    pub before: u64,
}

/// Goes on to the child with the position, unless it has come to a leaf.
pub(crate) fn descend<S: Counts>(shape: &Shape, store: &S, descent: Descent) -> Descent
    requires { (whole : ℕ) × (done : ℕ) × (high : ℕ) × (done < high) × (whole < 2 ^ 64) × IsDescent S.join S.fits S.cost S.count (S.leaf_at store.now) (S.node_at store.now) shape.now.tree whole done high descent }
    ensures { (whole done high : ℕ) → done < high → IsDescent S.join S.fits S.cost S.count (S.leaf_at store.now) (S.node_at store.now) shape.now.tree whole done high descent → IsDescent S.join S.fits S.cost S.count (S.leaf_at store.now) (S.node_at store.now) shape.now.tree whole (done + 1) high result }
{
    match descent.child {
        Child::Leaf(_) => descent,
        Child::Inner(inner) => {
            let (near, far) = shape.children(inner);
            let leaves = shape.leaves_below(near);
            if descent.at < leaves {
                return Descent {
                    child: near,
                    at: descent.at,
                    before: descent.before,
                };
            }
            Descent {
                child: far,
                at: descent.at - leaves,
                before: descent.before + store.count_of(near),
            }
        }
    }
}
