//! A tree built from halves.
ghost use Rattle.std.specs.Prelude.{◌≡◌, ◌+◌, ◌≤◌, vec_len, vec_capacity};
ghost use Rattle.tree_shape.specs.Tree.{Tree};
ghost use Rattle.tree_shape.specs.Building.{IsBuiltFrom};

use crate::node::{Child, Node, above, height_of};

/// A tree over so many leaves whose numbers follow one another, behind the nodes that there are.
pub(crate) fn build_below(nodes: &mut Vec<Node>, first: u32, many: u32) -> Child
    requires some { 1 ≤ many }
    requires few { first + many ≤ 65536 }
    requires nodes { vec_len nodes.old + many ≤ 65536 }
    requires room { vec_len nodes.old + many ≤ vec_capacity nodes.old + 1 }
    ensures built { (t : Tree) × IsBuiltFrom nodes.old.items nodes.new.items first many result t }
    ensures len { vec_len nodes.new + 1 ≡ vec_len nodes.old + many }
    ensures room { vec_capacity nodes.new ≡ vec_capacity nodes.old }
{
    if many == 1 {
        return Child::Leaf(first);
    }
    let half = many / 2;
    let left = build_below(nodes, first, half);
    let right = build_below(nodes, first + half, many - half);
    let height = above(
        height_of(nodes.as_slice(), left),
        height_of(nodes.as_slice(), right),
    );
    let number = nodes.len() as u32;
    nodes.push_reserved(Node {
        left,
        right,
        height,
        leaves: many,
    });
    Child::Inner(number)
}
