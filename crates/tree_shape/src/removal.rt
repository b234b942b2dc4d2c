//! Taking a leaf out, and the nodes above a leaf.
ghost use Rattle.std.specs.Prelude.{◌≡◌, ◌+◌, ◌-◌, ◌<◌, ◌≤◌, List, ◌++◌, length};
ghost use Rattle.tree_shape.specs.Tree.{Tree, name, height, NodesStand, IsTreeAt};
ghost use Rattle.tree_shape.specs.Plan.{Plan, rows, over};
ghost use Rattle.tree_shape.specs.Removal.{HasRows, HasRemoval, IsNodeAboveLeaf, node_removed, plan_touched, IsSinking, HasSinking, IsPartAfter, plan_raised, raised_once, raised_twice, IsRaising, HasRaising, plan_sunk, plan_shrunk, beside_child, outer_child};
ghost use Rattle.tree_shape.specs.declared.dirty.DirtyRow.{DirtyRow};
ghost use Rattle.tree_shape.specs.declared.node.Node.{Node};
ghost use Rattle.tree_shape.specs.declared.node.Child.TheVariants.{Leaf, Inner};

use crate::dirty::{Dirty, DirtyRow, row_on};
use crate::node::{Child, Node, Side, above, height_of, leaves_of, row};

/// Lists the inner nodes above a leaf.
pub(crate) fn touch_below(nodes: &[Node], child: Child, at: u32, dirty: &mut Dirty)
    requires { HasRows 1 nodes.now child at (length dirty.old) }
    ensures { (t : Tree) → child ≡ name t → NodesStand nodes.now t → dirty.new ≡ dirty.old ++ rows (plan_touched at t) }
{
    match child {
        Child::Leaf(_) => {}
        Child::Inner(inner) => {
            let node = row(nodes, inner);
            let before = leaves_of(nodes, node.left);
            if at < before {
                touch_below(nodes, node.left, at, dirty);
                dirty.push(row_on(Side::Left, inner, node.left, node.right));
            } else {
                touch_below(nodes, node.right, at - before, dirty);
                dirty.push(row_on(Side::Right, inner, node.right, node.left));
            }
        }
    }
}

/// A part after a removal, listed.
#[derive(Clone, Copy)]
pub(crate) struct RemovedPart {
    pub child: Child,
    pub height: u8,
}

/// A part that stayed.
fn part_of(nodes: &[Node], child: Child) -> RemovedPart
    requires { IsTreeAt nodes.now child }
    ensures child { result.child ≡ child }
    ensures high { (t : Tree) → child ≡ name t → NodesStand nodes.now t → result.height ≡ height t }
{
    RemovedPart {
        child,
        height: height_of(nodes, child),
    }
}

fn beside_of(side: Side, node: Node) -> Child
    ensures { result ≡ beside_child side node }
{
    match side {
        Side::Left => node.left,
        Side::Right => node.right,
    }
}

fn outer_of(side: Side, node: Node) -> Child
    ensures { result ≡ outer_child side node }
{
    match side {
        Side::Left => node.right,
        Side::Right => node.left,
    }
}

/// The near part of the other part goes below the node.
fn raise_once(
    side: Side,
    node: u32,
    part: RemovedPart,
    far: u32,
    beside: RemovedPart,
    outer: RemovedPart,
    dirty: &mut Dirty,
) -> RemovedPart
    requires room { length dirty.old + 3 ≤ 72 }
    requires low { (part.height < 250) × (beside.height < 250) × (outer.height < 250) }
    ensures { (nodes : List Node) (plan : Plan) (before : List DirtyRow) (near_tree far_tree : Tree) → IsRaising nodes part dirty.old beside.child outer.child outer.height plan before near_tree far_tree → beside.height ≡ height near_tree → IsPartAfter result (raised_once side node plan far near_tree far_tree) × (dirty.new ≡ before ++ rows (raised_once side node plan far near_tree far_tree)) }
{
    dirty.push(row_on(side, node, part.child, beside.child));
    dirty.push(row_on(side, far, Child::Inner(node), outer.child));
    RemovedPart {
        child: Child::Inner(far),
        height: above(above(part.height, beside.height), outer.height),
    }
}

/// The near part of the other part takes the place of both.
fn raise_twice(
    nodes: &[Node],
    side: Side,
    node: u32,
    part: RemovedPart,
    far: u32,
    lower: u32,
    outer: RemovedPart,
    dirty: &mut Dirty,
) -> RemovedPart
    requires { HasRaising nodes.now part dirty.old (Inner lower) outer.child outer.height }
    ensures { (plan : Plan) (before : List DirtyRow) (near_tree far_tree : Tree) → IsRaising nodes.now part dirty.old (Inner lower) outer.child outer.height plan before near_tree far_tree → IsPartAfter result (raised_twice side node plan far near_tree far_tree) × (dirty.new ≡ before ++ rows (raised_twice side node plan far near_tree far_tree)) }
{
    let split = row(nodes, lower);
    let first = part_of(nodes, beside_of(side, split));
    let second = part_of(nodes, outer_of(side, split));
    dirty.push(row_on(side, node, part.child, first.child));
    dirty.push(row_on(side, far, second.child, outer.child));
    dirty.push(row_on(side, lower, Child::Inner(node), Child::Inner(far)));
    RemovedPart {
        child: Child::Inner(lower),
        height: above(
            above(part.height, first.height),
            above(second.height, outer.height),
        ),
    }
}

/// The two ways to turn a node whose other part is too high.
fn raise(
    nodes: &[Node],
    side: Side,
    node: u32,
    part: RemovedPart,
    far: u32,
    dirty: &mut Dirty,
) -> RemovedPart
    requires { HasSinking nodes.now part dirty.old (Inner far) }
    ensures { (plan : Plan) (before : List DirtyRow) (far_tree : Tree) → IsSinking nodes.now part dirty.old (Inner far) plan before far_tree → IsPartAfter result (plan_raised side node plan far_tree) × (dirty.new ≡ before ++ rows (plan_raised side node plan far_tree)) }
{
    let high = row(nodes, far);
    let beside = part_of(nodes, beside_of(side, high));
    let outer = part_of(nodes, outer_of(side, high));
    if beside.height <= outer.height {
        return raise_once(side, node, part, far, beside, outer, dirty);
    }
    match beside.child {
        Child::Leaf(_) => raise_once(side, node, part, far, beside, outer, dirty),
        Child::Inner(lower) => raise_twice(nodes, side, node, part, far, lower, outer, dirty),
    }
}

/// A node above a part that a removal changed, turned where the other part is too high.
fn sink(
    nodes: &[Node],
    side: Side,
    node: u32,
    part: RemovedPart,
    far: Child,
    dirty: &mut Dirty,
) -> RemovedPart
    requires { HasSinking nodes.now part dirty.old far }
    ensures { (plan : Plan) (before : List DirtyRow) (far_tree : Tree) → IsSinking nodes.now part dirty.old far plan before far_tree → IsPartAfter result (plan_sunk side node plan far_tree) × (dirty.new ≡ before ++ rows (plan_sunk side node plan far_tree)) }
{
    let far_height = height_of(nodes, far);
    if let Child::Inner(inner) = far {
        if far_height > part.height + 1 {
            return raise(nodes, side, node, part, inner, dirty);
        }
    }
    set_above(side, node, part, far, far_height, dirty)
}

fn set_above(
    side: Side,
    node: u32,
    part: RemovedPart,
    far: Child,
    far_height: u8,
    dirty: &mut Dirty,
) -> RemovedPart
    requires room { length dirty.old < 72 }
    requires low { (part.height < 250) × (far_height < 250) }
    ensures { (nodes : List Node) (plan : Plan) (before : List DirtyRow) (far_tree : Tree) → IsSinking nodes part dirty.old far plan before far_tree → far_height ≡ height far_tree → IsPartAfter result (over side node plan far_tree) × (dirty.new ≡ before ++ rows (over side node plan far_tree)) }
{
    dirty.push(row_on(side, node, part.child, far));
    RemovedPart {
        child: Child::Inner(node),
        height: above(part.height, far_height),
    }
}

/// The tree below an inner node without the leaf at a position: lists all inner nodes written.
pub(crate) fn shrink(nodes: &[Node], child: Child, at: u32, dirty: &mut Dirty) -> RemovedPart
    requires { HasRemoval nodes.now child at (length dirty.old) }
    ensures { (t : Tree) → child ≡ name t → NodesStand nodes.now t → IsPartAfter result (plan_shrunk at t) × (dirty.new ≡ dirty.old ++ rows (plan_shrunk at t)) }
{
    match child {
        Child::Leaf(_) => RemovedPart { child, height: 0 },
        Child::Inner(inner) => {
            let node = row(nodes, inner);
            let before = leaves_of(nodes, node.left);
            if at < before {
                match node.left {
                    Child::Leaf(_) => RemovedPart {
                        child: node.right,
                        height: height_of(nodes, node.right),
                    },
                    Child::Inner(_) => {
                        let part = shrink(nodes, node.left, at, dirty);
                        sink(nodes, Side::Left, inner, part, node.right, dirty)
                    }
                }
            } else {
                match node.right {
                    Child::Leaf(_) => RemovedPart {
                        child: node.left,
                        height: height_of(nodes, node.left),
                    },
                    Child::Inner(_) => {
                        let part = shrink(nodes, node.right, at - before, dirty);
                        sink(nodes, Side::Right, inner, part, node.left, dirty)
                    }
                }
            }
        }
    }
}

/// The inner node right above the leaf at a position.
pub(crate) fn parent_of(nodes: &[Node], inner: u32, at: u32) -> u32
    requires { IsNodeAboveLeaf nodes.now inner at }
    ensures { (t : Tree) → Inner inner ≡ name t → NodesStand nodes.now t → result ≡ node_removed at t }
{
    let node = row(nodes, inner);
    let before = leaves_of(nodes, node.left);
    if at < before {
        match node.left {
            Child::Leaf(_) => inner,
            Child::Inner(below) => parent_of(nodes, below, at),
        }
    } else {
        match node.right {
            Child::Leaf(_) => inner,
            Child::Inner(below) => parent_of(nodes, below, at - before),
        }
    }
}
