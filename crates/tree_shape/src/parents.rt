//! The inner node above each leaf and each inner node.
ghost use Rattle.std.specs.Prelude.{◌≡◌, ◌<◌, ◌≤◌, ℕ, ◌&&◌, nat_lt, [], length, Some, OnOk};
ghost use Rattle.std.specs.List.{All, slice_get};
ghost use Rattle.tree_shape.specs.declared.dirty.DirtyRow.{DirtyRow};
ghost use Rattle.tree_shape.specs.Parents.{parents_of, parent_in, IsPlaced, RowIsPlaced, with_parent, with_parents, rows_in};

use crate::dirty::Dirty;
use crate::node::{Child, Node};
use knit_base::NoMemory;
use std::alloc::Global;

/// The numbers of the nodes above, by the numbers of leaves and of inner nodes. Those of the root and of what isn't in the tree
/// say nothing.
#[derive(Drop)]
pub(crate) struct Parents {
    pub(crate) leaves: Vec<u32>,
    pub(crate) inners: Vec<u32>,
}

impl Parents {
    pub(crate) fn new(alloc: Global) -> Parents
        ensures { parents_of result ≡ record { leaves = []; inners = [] } }
    {
        Parents {
            leaves: Vec::new(alloc),
            inners: Vec::new(alloc),
        }
    }

    /// Makes a place for so many leaves and inner nodes.
    pub(crate) fn reserve(&mut self, leaves: u32, inners: u32) -> Result<(), NoMemory>
        ensures leaves { OnOk result (leaves ≤ length self.new.leaves.items) }
        ensures inners { OnOk result (inners ≤ length self.new.inners.items) }
        ensures more_leaves { length self.old.leaves.items ≤ length self.new.leaves.items }
        ensures more_inners { length self.old.inners.items ≤ length self.new.inners.items }
        ensures same_leaves { (k n : ℕ) → slice_get self.old.leaves.items k ≡ Some n → slice_get self.new.leaves.items k ≡ Some n }
        ensures same_inners { (k n : ℕ) → slice_get self.old.inners.items k ≡ Some n → slice_get self.new.inners.items k ≡ Some n }
    {
        lengthen(&mut self.leaves, leaves)?;
        lengthen(&mut self.inners, inners)
    }

    /// Whether there is a place for one leaf more than so many, and one inner node.
    pub(crate) fn have_places(&self, leaves: u32, inners: u32) -> bool
        ensures { result ≡ (nat_lt leaves (length self.now.leaves.items) && nat_lt inners (length self.now.inners.items)) }
    {
        (leaves as usize) < self.leaves.len() && (inners as usize) < self.inners.len()
    }

    /// The number of the node above.
    pub(crate) fn of(&self, child: Child) -> u32
        requires { IsPlaced (length self.now.leaves.items) (length self.now.inners.items) child }
        ensures { parent_in (parents_of self.now) child ≡ Some result }
    {
        match child {
            Child::Leaf(n) => self.leaves[n as usize],
            Child::Inner(n) => self.inners[n as usize],
        }
    }

    fn set(&mut self, child: Child, node: u32)
        requires { IsPlaced (length self.old.leaves.items) (length self.old.inners.items) child }
        ensures set { parents_of self.new ≡ with_parent (parents_of self.old) child node }
        ensures leaves { length self.new.leaves.items ≡ length self.old.leaves.items }
        ensures inners { length self.new.inners.items ≡ length self.old.inners.items }
    {
        match child {
            Child::Leaf(n) => self.leaves[n as usize] = node,
            Child::Inner(n) => self.inners[n as usize] = node,
        }
    }

    /// Notes the node of each row for its two parts.
    pub(crate) fn note(&mut self, dirty: &Dirty)
        requires { All (RowIsPlaced (length self.old.leaves.items) (length self.old.inners.items)) dirty.now }
        ensures noted { parents_of self.new ≡ with_parents (parents_of self.old) dirty.now }
        ensures leaves { length self.new.leaves.items ≡ length self.old.leaves.items }
        ensures inners { length self.new.inners.items ≡ length self.old.inners.items }
    {
        for i in 0..dirty.len() {
            if let Some(row) = dirty.get(i) {
                self.set(row.left, row.node);
                self.set(row.right, row.node);
            }
        }
    }

    /// Notes each node for its two parts.
    pub(crate) fn note_nodes(&mut self, nodes: &[Node])
        requires few { length nodes.now ≤ 65536 }
        requires places { All (RowIsPlaced (length self.old.leaves.items) (length self.old.inners.items)) (rows_in 0 nodes.now) }
        ensures noted { parents_of self.new ≡ with_parents (parents_of self.old) (rows_in 0 nodes.now) }
        ensures leaves { length self.new.leaves.items ≡ length self.old.leaves.items }
        ensures inners { length self.new.inners.items ≡ length self.old.inners.items }
    {
        for number in 0..nodes.len() as u32 {
            let node = nodes[number as usize];
            self.set(node.left, number);
            self.set(node.right, number);
        }
    }
}

fn lengthen(list: &mut Vec<u32>, many: u32) -> Result<(), NoMemory>
    ensures ok { OnOk result (many ≤ length list.new.items) }
    ensures more { length list.old.items ≤ length list.new.items }
    ensures same { (k n : ℕ) → slice_get list.old.items k ≡ Some n → slice_get list.new.items k ≡ Some n }
{
    let start = list.len() as u64;
    for _i in start..u64::from(many) {
        list.push(0)?;
    }
    Ok(())
}
