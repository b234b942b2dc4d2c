//! Inserting a leaf: the inner nodes written above it, turned where a part is too high.
ghost use Rattle.std.specs.Prelude.{◌≡◌, ◌+◌, ◌<◌, ◌≤◌, max, false, nat_le, if◌then◌else◌, List, [], ◌∷◌, ◌++◌, length};
ghost use Rattle.tree_shape.specs.declared.dirty.DirtyRow.{DirtyRow};
ghost use Rattle.tree_shape.specs.declared.node.Side.TheVariants.{Left, Right};
ghost use Rattle.tree_shape.specs.declared.node.Child.TheVariants.{Inner};
ghost use Rattle.tree_shape.specs.declared.insertion.Way.TheVariants.{Turned};
ghost use Rattle.tree_shape.specs.Tree.{Tree, name, height, NodesStand, IsTreeAt};
ghost use Rattle.tree_shape.specs.Plan.{Plan, same_side, other, dirty_row, plan_leaned, plan_grown, turned_plan, rows_below_root, child_on, IsPending, IsLeaning, IsTwice, FitsLean, HasPlaceAt};

use crate::dirty::{Dirty, DirtyRow, row_on};
use crate::node::{Child, Node, Side, above, height_of, leaves_of, row};

/// What an insertion did below a node: turned it, went through it alone, or through it and its near part, whose
/// near side and whose parts' heights these are.
#[derive(Clone, Copy)]
pub(crate) enum Way {
    Turned,
    Once,
    Twice(Side, u8, u8),
}

/// An inner node that is not listed yet: its near part has the change.
#[derive(Clone, Copy)]
pub(crate) struct Grown {
    pub node: u32,
    pub side: Side,
    pub near: Child,
    pub far: Child,
    pub near_height: u8,
    pub far_height: u8,
    pub way: Way,
}

/// An inner node without the part that changed: its side, its number, and the part that stayed beside it.
#[derive(Clone, Copy)]
struct Half {
    side: Side,
    node: u32,
    part: Child,
    height: u8,
}

fn same(a: Side, b: Side) -> bool
    ensures { result ≡ same_side a b }
{
    match (a, b) {
        (Side::Left, Side::Left) | (Side::Right, Side::Right) => true,
        _ => false,
    }
}

fn opposite(side: Side) -> Side
    ensures { result ≡ other side }
{
    match side {
        Side::Left => Side::Right,
        Side::Right => Side::Left,
    }
}

fn part_on(side: Side, row: DirtyRow) -> Child
    ensures { result ≡ child_on side row }
{
    match side {
        Side::Left => row.left,
        Side::Right => row.right,
    }
}

/// The parts of the lower node go to the two nodes that it is set above.
fn share(
    lower: DirtyRow,
    lower_side: Side,
    lower_near: u8,
    lower_far: u8,
    first: Half,
    second: Half,
    dirty: &mut Dirty,
) -> Grown
    requires room { length dirty.old + 2 ≤ 72 }
    requires heights { (lower_near < 255) × (lower_far < 255) × (first.height < 255) × (second.height < 255) }
    ensures root { result ≡ record { node = lower.node; side = other first.side; near = Inner first.node; far = Inner second.node; near_height = 1 + max lower_near first.height; far_height = 1 + max lower_far second.height; way = Turned } }
    ensures listed { dirty.new ≡ (dirty.old ++ dirty_row first.side first.node (child_on lower_side lower) first.part ∷ []) ++ dirty_row second.side second.node (child_on (other lower_side) lower) second.part ∷ [] }
{
    let near = part_on(lower_side, lower);
    let far = part_on(opposite(lower_side), lower);
    dirty.push(row_on(first.side, first.node, near, first.part));
    dirty.push(row_on(second.side, second.node, far, second.part));
    Grown {
        node: lower.node,
        side: opposite(first.side),
        near: Child::Inner(first.node),
        far: Child::Inner(second.node),
        near_height: above(lower_near, first.height),
        far_height: above(lower_far, second.height),
        way: Way::Turned,
    }
}

/// The lower node, listed last, takes the place of both nodes above it.
fn turn_twice(
    upper: Half,
    part: Grown,
    lower_side: Side,
    lower_near: u8,
    lower_far: u8,
    dirty: &mut Dirty,
) -> Grown
    requires fits { FitsLean part upper.height dirty.old }
    requires heights { (lower_near < 254) × (lower_far < 254) }
    requires two { IsTwice part.way lower_side lower_near lower_far }
    requires across { same_side part.side upper.side ≡ false }
    requires part { (plan : Plan) × (before : List DirtyRow) × (beside : Tree) × IsLeaning part dirty.old upper.part upper.height plan before beside }
    ensures { (plan : Plan) (before : List DirtyRow) (beside : Tree) → IsLeaning part dirty.old upper.part upper.height plan before beside → IsPending result (turned_plan upper.side upper.node plan beside) × (dirty.new ≡ before ++ rows_below_root (turned_plan upper.side upper.node plan beside)) }
{
    let lower = dirty.pop();
    let middle = Half {
        side: opposite(upper.side),
        node: part.node,
        part: part.far,
        height: part.far_height,
    };
    if same(lower_side, upper.side) {
        share(
            lower, lower_side, lower_near, lower_far, middle, upper, dirty,
        )
    } else {
        share(
            lower, lower_side, lower_near, lower_far, upper, middle, dirty,
        )
    }
}

/// The two ways to turn a node above a part that is too high.
fn turn(
    upper: Half,
    part: Grown,
    lower_side: Side,
    lower_near: u8,
    lower_far: u8,
    dirty: &mut Dirty,
) -> Grown
    requires fits { FitsLean part upper.height dirty.old }
    requires heights { (lower_near < 254) × (lower_far < 254) }
    requires two { IsTwice part.way lower_side lower_near lower_far }
    requires part { (plan : Plan) × (before : List DirtyRow) × (beside : Tree) × IsLeaning part dirty.old upper.part upper.height plan before beside }
    ensures { (plan : Plan) (before : List DirtyRow) (beside : Tree) → IsLeaning part dirty.old upper.part upper.height plan before beside → IsPending result (turned_plan upper.side upper.node plan beside) × (dirty.new ≡ before ++ rows_below_root (turned_plan upper.side upper.node plan beside)) }
{
    if same(part.side, upper.side) {
        dirty.push(row_on(upper.side, upper.node, part.far, upper.part));
        return Grown {
            node: part.node,
            side: upper.side,
            near: part.near,
            far: Child::Inner(upper.node),
            near_height: part.near_height,
            far_height: above(part.far_height, upper.height),
            way: Way::Turned,
        };
    }
    turn_twice(upper, part, lower_side, lower_near, lower_far, dirty)
}

/// A node above a part that an insertion changed, turned where that part is too high.
fn lean(upper: Half, part: Grown, dirty: &mut Dirty) -> Grown
    requires fits { FitsLean part upper.height dirty.old }
    requires part { (plan : Plan) × (before : List DirtyRow) × (beside : Tree) × IsLeaning part dirty.old upper.part upper.height plan before beside }
    ensures { (plan : Plan) (before : List DirtyRow) (beside : Tree) → IsLeaning part dirty.old upper.part upper.height plan before beside → IsPending result (plan_leaned upper.side upper.node plan beside) × (dirty.new ≡ before ++ rows_below_root (plan_leaned upper.side upper.node plan beside)) }
{
    if let Way::Twice(lower_side, lower_near, lower_far) = part.way {
        if above(part.near_height, part.far_height) > upper.height + 1 {
            return turn(upper, part, lower_side, lower_near, lower_far, dirty);
        }
    }
    dirty.push(row_on(part.side, part.node, part.near, part.far));
    let way = match part.way {
        Way::Turned => Way::Once,
        _ => Way::Twice(part.side, part.near_height, part.far_height),
    };
    Grown {
        node: upper.node,
        side: upper.side,
        near: Child::Inner(part.node),
        far: upper.part,
        near_height: above(part.near_height, part.far_height),
        far_height: upper.height,
        way,
    }
}

fn half_of(nodes: &[Node], side: Side, node: u32, part: Child) -> Half
    requires { IsTreeAt nodes.now part }
    ensures side { result.side ≡ side }
    ensures node { result.node ≡ node }
    ensures part { result.part ≡ part }
    ensures high { (t : Tree) → part ≡ name t → NodesStand nodes.now t → result.height ≡ height t }
{
    Half {
        side,
        node,
        part,
        height: height_of(nodes, part),
    }
}

fn side_at(at: u32) -> Side
    ensures { result ≡ (if nat_le at 0 then Left else Right) }
{
    if at == 0 { Side::Left } else { Side::Right }
}

/// The tree below a node with a new leaf at a position: lists the inner nodes written, but for the root.
pub(crate) fn grow(
    nodes: &[Node],
    child: Child,
    at: u32,
    new: u32,
    number: u32,
    dirty: &mut Dirty,
) -> Grown
    requires { HasPlaceAt nodes.now child at (length dirty.old) }
    ensures { (t : Tree) → child ≡ name t → NodesStand nodes.now t → IsPending result (plan_grown at new number t) × (dirty.new ≡ dirty.old ++ rows_below_root (plan_grown at new number t)) }
{
    match child {
        Child::Leaf(_) => Grown {
            node: number,
            side: side_at(at),
            near: Child::Leaf(new),
            far: child,
            near_height: 0,
            far_height: 0,
            way: Way::Once,
        },
        Child::Inner(inner) => {
            let node = row(nodes, inner);
            let before = leaves_of(nodes, node.left);
            if at <= before {
                let part = grow(nodes, node.left, at, new, number, dirty);
                let upper = half_of(nodes, Side::Left, inner, node.right);
                lean(upper, part, dirty)
            } else {
                let part = grow(nodes, node.right, at - before, new, number, dirty);
                let upper = half_of(nodes, Side::Right, inner, node.left);
                lean(upper, part, dirty)
            }
        }
    }
}
