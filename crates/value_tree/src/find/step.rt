//! One step down the tree.
ghost use Rattle.std.specs.Prelude.{◌≡◌, ℕ, ◌+◌, ◌<◌, ◌≤◌, List, Option, Some, None};
ghost use Rattle.value_tree.specs.Walk.{IsWalk};

use crate::find::{Counts, LeafWalk};
use tree_shape::{Child, Shape};

/// Goes on to the child that has the offset, unless it has come to a leaf.
pub(crate) fn step<S: Counts>(shape: &Shape, store: &S, walk: LeafWalk) -> LeafWalk
    requires { (whole : Option (ℕ × ℕ)) × (done : ℕ) × (high : ℕ) × (done < high) × IsWalk S.join S.fits S.cost S.count (S.leaf_at store.now) (S.node_at store.now) shape.now.tree whole done high walk }
    ensures { (whole : Option (ℕ × ℕ)) (done high : ℕ) → done < high → IsWalk S.join S.fits S.cost S.count (S.leaf_at store.now) (S.node_at store.now) shape.now.tree whole done high walk → IsWalk S.join S.fits S.cost S.count (S.leaf_at store.now) (S.node_at store.now) shape.now.tree whole (done + 1) high result }
{
    match walk.child {
        Child::Leaf(_) => walk,
        Child::Inner(inner) => {
            let (near, far) = shape.children(inner);
            let here = store.count_of(near);
            if walk.left < here {
                return LeafWalk {
                    child: near,
                    at: walk.at,
                    left: walk.left,
                };
            }
            LeafWalk {
                child: far,
                at: walk.at + shape.leaves_below(near),
                left: walk.left - here,
            }
        }
    }
}
