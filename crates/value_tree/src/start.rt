//! Composing all inner nodes of a tree whose leaves have their values.
ghost use Rattle.std.specs.Prelude.{◌≡◌, ◌≢◌, ℕ, ◌+◌, ◌<◌, ◌≤◌, List, OnOk, OnErr, Some};
ghost use Rattle.tree_shape.specs.Building.{all_rows, inners_upward};
ghost use Rattle.tree_shape.specs.Changes.{numbers_below};
ghost use Rattle.tree_shape.specs.Composing.{FitSteps, steps_of_rows};
ghost use Rattle.tree_shape.specs.Values.{part, row_value, values_refreshed};

use crate::values::Values;
use knit_base::{NoMemory, Steps};
use std::sync::ledger::Ledger;
use tree_shape::{DirtyRow, Shape};

/// Makes the room for what a row composes, and composes it.
fn compose_row<S: Values, L: Ledger>(
    store: &mut S,
    row: DirtyRow,
    steps: &mut Steps<L>,
) -> Result<(), NoMemory>
    requires place { row.node < S.slots store.old }
    requires parts { (a : S.Value) × (b : S.Value) × (part (S.leaf_at store.old) (S.node_at store.old) row.left ≡ Some a) × (part (S.leaf_at store.old) (S.node_at store.old) row.right ≡ Some b) × S.fits a b }
    ensures node { OnOk result (S.node_at store.new row.node ≡ row_value S.join (S.leaf_at store.old) (S.node_at store.old) row) }
    ensures others { (k : ℕ) → k ≢ row.node → S.node_at store.new k ≡ S.node_at store.old k }
    ensures leaves { (k : ℕ) → S.leaf_at store.new k ≡ S.leaf_at store.old k }
    ensures slots { S.slots store.old ≤ S.slots store.new }
    ensures cost { OnOk result ((a b : S.Value) → part (S.leaf_at store.old) (S.node_at store.old) row.left ≡ Some a → part (S.leaf_at store.old) (S.node_at store.old) row.right ≡ Some b → steps.new ≡ steps.old + (S.cost a + (S.cost b + S.cost (S.join a b)))) }
    ensures none { OnErr result (steps.new ≡ steps.old) }
{
    let left = store.room_of(row.left);
    let right = store.room_of(row.right);
    let mut need = S::no_need();
    S::push(&mut need, S::both(left, right));
    store.reserve(&need)?;
    store.compose(row, steps);
    Ok(())
}

/// Composes the value of each inner node, children before parents. Fails where memory runs out, with the same leaves.
pub(crate) fn compose_all<S: Values, L: Ledger>(
    store: &mut S,
    shape: &Shape,
    steps: &mut Steps<L>,
) -> Result<(), NoMemory>
    requires ordered { inners_upward shape.now.tree ≡ numbers_below shape.now.inner_numbers.drawn }
    requires places { shape.now.inner_numbers.drawn ≤ S.slots store.old }
    requires fit { (rooms : List S.Room) × FitSteps S.join S.fits S.room S.after S.within (S.leaf_at store.old) (S.node_at store.old) (all_rows shape.now.tree) rooms }
    ensures nodes { OnOk result ((k : ℕ) → S.node_at store.new k ≡ values_refreshed S.join (S.leaf_at store.old) (S.node_at store.old) (all_rows shape.now.tree) k) }
    ensures leaves { (k : ℕ) → S.leaf_at store.new k ≡ S.leaf_at store.old k }
    ensures slots { S.slots store.old ≤ S.slots store.new }
    ensures steps { steps.new ≤ steps.old + steps_of_rows S.join S.cost (S.leaf_at store.old) (S.node_at store.old) (all_rows shape.now.tree) }
{
    for node in 0..shape.inner_numbers() {
        let (left, right) = shape.children(node);
        compose_row(store, DirtyRow { node, left, right }, steps)?;
    }
    Ok(())
}
