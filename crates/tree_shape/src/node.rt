//! Inner nodes and their parts, and reading a tree off them.
ghost use Rattle.std.specs.Prelude.{◌≡◌, ◌+◌, ◌<◌, max, Some, slice_index, slice_get};
ghost use Rattle.tree_shape.specs.declared.node.Child.TheVariants.{Inner};
ghost use Rattle.tree_shape.specs.Tree.{Tree, name, height, count, leaves, NodesStand, IsTreeAt, HasLeafAt};

/// A part of an inner node, by its number.
#[derive(Clone, Copy)]
pub enum Child {
    Leaf(u32),
    Inner(u32),
}

/// An inner node: its two parts, its height and the number of its leaves.
#[derive(Clone, Copy)]
pub(crate) struct Node {
    pub left: Child,
    pub right: Child,
    pub height: u8,
    pub leaves: u32,
}

/// A side of an inner node.
#[derive(Clone, Copy)]
pub(crate) enum Side {
    Left,
    Right,
}

pub(crate) fn above(a: u8, b: u8) -> u8
    requires first { a < 255 }
    requires second { b < 255 }
    ensures { result ≡ 1 + max a b }
{
    if a < b { b + 1 } else { a + 1 }
}

/// The row of an inner node.
pub(crate) fn row(nodes: &[Node], inner: u32) -> Node
    requires { IsTreeAt nodes.now (Inner inner) }
    ensures { slice_get nodes.now inner ≡ Some result }
{
    nodes[inner as usize]
}

pub(crate) fn height_of(nodes: &[Node], child: Child) -> u8
    requires { IsTreeAt nodes.now child }
    ensures { (t : Tree) → child ≡ name t → NodesStand nodes.now t → result ≡ height t }
{
    match child {
        Child::Leaf(_) => 0,
        Child::Inner(n) => nodes[n as usize].height,
    }
}

pub(crate) fn leaves_of(nodes: &[Node], child: Child) -> u32
    requires { IsTreeAt nodes.now child }
    ensures { (t : Tree) → child ≡ name t → NodesStand nodes.now t → result ≡ count t }
{
    match child {
        Child::Leaf(_) => 1,
        Child::Inner(n) => nodes[n as usize].leaves,
    }
}

/// The number of the leaf at a position below the node.
pub(crate) fn leaf_at(nodes: &[Node], child: Child, at: u32) -> u32
    requires { HasLeafAt nodes.now child at }
    ensures { (t : Tree) → child ≡ name t → NodesStand nodes.now t → result ≡ slice_index (leaves t) at }
{
    match child {
        Child::Leaf(n) => n,
        Child::Inner(n) => {
            let node = row(nodes, n);
            let before = leaves_of(nodes, node.left);
            if at < before {
                leaf_at(nodes, node.left, at)
            } else {
                leaf_at(nodes, node.right, at - before)
            }
        }
    }
}
