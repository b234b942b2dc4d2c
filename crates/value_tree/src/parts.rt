//! The parts of a tree that lie whole before a position.
ghost use Rattle.std.specs.Prelude.{ℕ, ◌+◌, ◌<◌, ◌≤◌, List, length, take, OnOk, IfOk};
ghost use Rattle.tree_shape.specs.Fewest.{highest};
ghost use Rattle.tree_shape.specs.View.{leaf_count_of, leaves_of_tree};
ghost use Rattle.value_tree.specs.Parts.{AreParts, IsParting};

use knit_base::NoMemory;
use std::alloc::Global;
use tree_shape::{Child, Shape};

/// How far a walk to a position has come: a child, and how many leaves of it stand before the position.
#[derive(Clone, Copy)]
pub(crate) struct Parting {
    pub child: Child,
    pub at: u32,
}

/// The children that lie whole before a position, from the first on, no more than one a level.
pub(crate) fn parts_before(alloc: Global, shape: &Shape, at: u32) -> Result<Vec<Child>, NoMemory>
    requires { at < leaf_count_of shape.now.tree }
    ensures parts { IfOk result (λ parts. AreParts shape.now.tree parts.items (take at (leaves_of_tree shape.now.tree))) }
    ensures few { IfOk result (λ parts. length parts.items ≤ highest (leaf_count_of shape.now.tree)) }
{
    let mut parts = Vec::new(alloc);
    let _len = shape.len();
    let Some(root) = shape.root() else {
        unreachable!();
    };
    let mut parting = Parting { child: root, at };
    for _i in 0..shape.height() {
        parting = go_on(shape, parting, &mut parts)?;
    }
    Ok(parts)
}

// Goes on to the child with the position, past the one before it, unless it has come to a leaf.
fn go_on(shape: &Shape, parting: Parting, parts: &mut Vec<Child>) -> Result<Parting, NoMemory>
    requires { (before : List ℕ) × (done : ℕ) × (high : ℕ) × (done < high) × IsParting shape.now.tree before done high parting parts.old.items }
    ensures { IfOk result (λ next. (before : List ℕ) (done high : ℕ) → done < high → IsParting shape.now.tree before done high parting parts.old.items → IsParting shape.now.tree before (done + 1) high next parts.new.items) }
{
    let Child::Inner(inner) = parting.child else {
        return Ok(parting);
    };
    let (near, far) = shape.children(inner);
    let leaves = shape.leaves_below(near);
    if parting.at < leaves {
        return Ok(Parting {
            child: near,
            at: parting.at,
        });
    }
    parts.push(near)?;
    Ok(Parting {
        child: far,
        at: parting.at - leaves,
    })
}
