//! From a leaf up to the root.
ghost use Rattle.std.specs.Prelude.{◌≡◌, ◌≢◌, ℕ, ◌+◌, ◌<◌, true, false, Some};
ghost use Rattle.std.specs.List.{slice_get};
ghost use Rattle.tree_shape.specs.Tree.{Tree, height, leaves};
ghost use Rattle.tree_shape.specs.Parents.{parents_of, IsWholeTree, IsClimb};

use crate::node::{Child, Node, height_of, leaves_of, row};
use crate::parents::Parents;

/// How far a climb has come: a leaf or an inner node, and the position below it of the leaf at which the climb began.
#[derive(Clone, Copy)]
pub(crate) struct Climb {
    pub child: Child,
    pub at: u32,
}

fn is_same(a: Child, b: Child) -> bool
    ensures same { result ≡ true → a ≡ b }
    ensures other { result ≡ false → a ≢ b }
{
    match a {
        Child::Leaf(m) => match b {
            Child::Leaf(n) => m == n,
            Child::Inner(_) => false,
        },
        Child::Inner(m) => match b {
            Child::Leaf(_) => false,
            Child::Inner(n) => m == n,
        },
    }
}

/// One step up, unless the climb has come to the root.
fn step_up(nodes: &[Node], parents: &Parents, root: Child, climb: Climb) -> Climb
    requires { (whole : Tree) × (number : ℕ) × (done : ℕ) × IsWholeTree nodes.now (parents_of parents.now) root whole × IsClimb whole number done climb }
    ensures { (whole : Tree) (number done : ℕ) → IsWholeTree nodes.now (parents_of parents.now) root whole → IsClimb whole number done climb → IsClimb whole number (done + 1) result }
{
    if is_same(climb.child, root) {
        return climb;
    }
    let above = parents.of(climb.child);
    let node = row(nodes, above);
    if is_same(node.right, climb.child) {
        return Climb {
            child: Child::Inner(above),
            at: climb.at + leaves_of(nodes, node.left),
        };
    }
    Climb {
        child: Child::Inner(above),
        at: climb.at,
    }
}

/// The position of the leaf with a number below the root.
pub(crate) fn climbed(nodes: &[Node], parents: &Parents, root: Child, number: u32) -> u32
    requires { (whole : Tree) × (at : ℕ) × IsWholeTree nodes.now (parents_of parents.now) root whole × (slice_get (leaves whole) at ≡ Some number) }
    ensures { (whole : Tree) (at : ℕ) → IsWholeTree nodes.now (parents_of parents.now) root whole → slice_get (leaves whole) at ≡ Some number → slice_get (leaves whole) result ≡ Some number }
{
    let mut climb = Climb {
        child: Child::Leaf(number),
        at: 0,
    };
    for _i in 0..height_of(nodes, root) {
        climb = step_up(nodes, parents, root, climb);
    }
    climb.at
}
