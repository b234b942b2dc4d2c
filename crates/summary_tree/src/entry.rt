//! What a needle holds behind leaves, told from the faces of the parts that they make up.
ghost use Rattle.std.specs.Prelude.{◌≡◌, ◌+◌, ◌<◌, ◌^◌, List, IfOk};
ghost use Rattle.carriage_model.specs.State.{State, empty_state};
ghost use Rattle.face_data.specs.Summaries.Outcome.{went_on};
ghost use Rattle.tree_shape.specs.Values.{part};
ghost use Rattle.value_tree.specs.Parts.{StandFor};
ghost use Rattle.summary_tree.specs.Leaves.{Leaf, StandTogether, WholeLeaf, applied_each, leaf_line_count};
ghost use Rattle.summary_tree.specs.Store.{leaf_in, node_in};

use crate::store::FaceStore;
use carriage_model::LoopLines;
use face_data::{Seg, Segs, loops_of, segs_through};
use knit_base::{Needle, NoMemory};
use std::alloc::Global;
use tree_shape::Child;

/// The loops that the needle holds behind the leaves that these parts stand for, named by their lines, of which the first has the
/// number `first`: the needle's stack is read through the faces, from the last to the first, before which it held nothing.
pub(crate) fn loops_behind(
    alloc: Global,
    store: &FaceStore,
    mut parts: Vec<Child>,
    needle: Needle,
    first: u32,
) -> Result<LoopLines, NoMemory>
    requires { (all : List Leaf) × StandTogether all × StandFor WholeLeaf (part (leaf_in store.now.faces store.now.tables.items) (node_in store.now.faces)) parts.items all × (first + leaf_line_count all < 2 ^ 32) }
    ensures { IfOk result (λ loops. (all : List Leaf) → StandTogether all → StandFor WholeLeaf (part (leaf_in store.now.faces store.now.tables.items) (node_in store.now.faces)) parts.items all
        → (s : State) → applied_each all empty_state first ≡ went_on s → loops ≡ s.stacks needle) }
{
    let mut segs = Segs::one(alloc, Seg::Entry(needle));
    while let Some(part) = parts.pop() {
        let Some(face) = store.face(part) else {
            unreachable!();
        };
        segs = segs_through(alloc, &face, segs.as_slice())?;
    }
    loops_of(alloc, segs.as_slice(), first)
}
