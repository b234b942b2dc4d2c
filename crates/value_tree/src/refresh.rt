//! Composing anew what a change lists.
ghost use Rattle.std.specs.Prelude.{◌≡◌, ℕ, ◌+◌, ◌<◌, List};
ghost use Rattle.std.specs.List.{All};
ghost use Rattle.tree_shape.specs.Values.{values_refreshed};
ghost use Rattle.tree_shape.specs.Composing.{FitSteps, steps_of_rows};

use crate::values::Values;
use knit_base::Steps;
use std::sync::ledger::Ledger;
use tree_shape::Dirty;

/// Composes the value of each row, children before parents.
pub(crate) fn refresh<S: Values, L: Ledger>(store: &mut S, dirty: &Dirty, steps: &mut Steps<L>)
    requires places { All (λ row. row.node < S.slots store.old) dirty.now }
    requires fit { (rooms : List S.Room) × FitSteps S.join S.fits S.room S.after S.within (S.leaf_at store.old) (S.node_at store.old) dirty.now rooms × S.meets store.old rooms }
    ensures nodes { (k : ℕ) → S.node_at store.new k ≡ values_refreshed S.join (S.leaf_at store.old) (S.node_at store.old) dirty.now k }
    ensures leaves { (k : ℕ) → S.leaf_at store.new k ≡ S.leaf_at store.old k }
    ensures slots { S.slots store.new ≡ S.slots store.old }
    ensures steps { steps.new ≡ steps.old + steps_of_rows S.join S.cost (S.leaf_at store.old) (S.node_at store.old) dirty.now }
{
    for i in 0..dirty.len() {
        if let Some(row) = dirty.get(i) {
            store.compose(row, steps);
        }
    }
}
