//! Writing the rows of a change into the arena.
ghost use Rattle.std.specs.Prelude.{◌≡◌, ◌+◌, ◌<◌};
ghost use Rattle.tree_shape.specs.Tree.{stored_height};
ghost use Rattle.tree_shape.specs.Apply.{IsIn, stored_leaves, node_from, FitsRow, FitRows, nodes_with_rows};

use crate::dirty::{Dirty, DirtyRow};
use crate::node::{Child, Node};

fn kept_height(nodes: &[Node], child: Child) -> u8
    requires { IsIn nodes.now child }
    ensures { result ≡ stored_height nodes.now child }
{
    match child {
        Child::Leaf(_) => 0,
        Child::Inner(n) => nodes[n as usize].height,
    }
}

fn kept_leaves(nodes: &[Node], child: Child) -> u32
    requires { IsIn nodes.now child }
    ensures { result ≡ stored_leaves nodes.now child }
{
    match child {
        Child::Leaf(_) => 1,
        Child::Inner(n) => nodes[n as usize].leaves,
    }
}

fn node_of(nodes: &[Node], row: DirtyRow) -> Node
    requires { FitsRow nodes.now row }
    ensures { result ≡ node_from nodes.now row.left row.right }
{
    let left = kept_height(nodes, row.left);
    let right = kept_height(nodes, row.right);
    Node {
        left: row.left,
        right: row.right,
        height: if left < right { right + 1 } else { left + 1 },
        leaves: kept_leaves(nodes, row.left) + kept_leaves(nodes, row.right),
    }
}

/// Writes each row, children before parents.
pub fn apply(nodes: &mut [Node], dirty: &Dirty)
    requires { FitRows nodes.old dirty.now }
    ensures { nodes.new ≡ nodes_with_rows nodes.old dirty.now }
{
    for i in 0..dirty.len() {
        if let Some(row) = dirty.get(i) {
            let node = node_of(nodes, row);
            nodes[row.node as usize] = node;
        }
    }
}
