//! The parts of a tree that lie whole from one position to another.
ghost use Rattle.std.specs.Prelude.{◌≡◌, ◌+◌, ◌*◌, ◌≤◌, ◌++◌, length, slice_range, OnOk, IfOk};
ghost use Rattle.tree_shape.specs.Fewest.{highest};
ghost use Rattle.tree_shape.specs.Tree.{Tree};
ghost use Rattle.tree_shape.specs.View.{leaf_count_of, leaves_of_tree};
ghost use Rattle.value_tree.specs.Between.{tree_parts_between, IsStretch};
ghost use Rattle.value_tree.specs.Parts.{AreParts};

use knit_base::NoMemory;
use std::alloc::Global;
use tree_shape::{Child, Shape};

/// A child, and how many leaves are below it.
#[derive(Clone, Copy)]
pub(crate) struct Counted {
    pub child: Child,
    pub leaves: u32,
}

/// The children that lie whole from one position to another, which isn't counted, from the first on, no more than two a level.
pub(crate) fn parts_between(
    alloc: Global,
    shape: &Shape,
    from: u32,
    to: u32,
) -> Result<Vec<Child>, NoMemory>
    requires { to ≤ leaf_count_of shape.now.tree }
    ensures parts { IfOk result (λ parts. AreParts shape.now.tree parts.items (slice_range (leaves_of_tree shape.now.tree) from to)) }
    ensures few { IfOk result (λ parts. length parts.items ≤ 2 * highest (leaf_count_of shape.now.tree) + 1) }
{
    let mut parts = Vec::new(alloc);
    let leaves = shape.len();
    let Some(child) = shape.root() else {
        return Ok(parts);
    };
    add_between(shape, Counted { child, leaves }, from, to, &mut parts)?;
    Ok(parts)
}

/// Adds the parts of a child that lie whole from one of its leaves to another.
fn add_between(
    shape: &Shape,
    counted: Counted,
    from: u32,
    to: u32,
    parts: &mut Vec<Child>,
) -> Result<(), NoMemory>
    requires { (t : Tree) × IsStretch shape.now.tree counted to t }
    ensures { OnOk result ((t : Tree) → IsStretch shape.now.tree counted to t → parts.new.items ≡ parts.old.items ++ tree_parts_between from to t) }
{
    if to <= from {
        return Ok(());
    }
    if counted.leaves <= to - from {
        parts.push(counted.child)?;
        return Ok(());
    }
    let Child::Inner(inner) = counted.child else {
        unreachable!();
    };
    let (near, far) = shape.children(inner);
    let middle = shape.leaves_below(near);
    let left = Counted {
        child: near,
        leaves: middle,
    };
    add_between(shape, left, from, to.min(middle), parts)?;
    let right = Counted {
        child: far,
        leaves: counted.leaves - middle,
    };
    let rest = to.saturating_sub(middle);
    add_between(shape, right, from.saturating_sub(middle), rest, parts)?;
    Ok(())
}
