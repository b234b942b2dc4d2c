//! Steps for the items of faces.
ghost use Rattle.std.specs.Prelude.{◌≡◌, ◌+◌};
ghost use Rattle.face_data.specs.Items.{ending_items, items};
ghost use Rattle.face_data.specs.View.{IsPacked, summary_of};

use face_data::{Ending, FaceView};
use knit_base::Steps;
use std::sync::ledger::Ledger;

/// A step for each item of the face.
pub fn charge<L: Ledger>(face: &FaceView, steps: &mut Steps<L>)
    requires { IsPacked face.now }
    ensures { steps.new ≡ steps.old + items (summary_of face.now) }
{
    charge_each(face.checks.len() as u64, steps);
    charge_each(face.names.len() as u64, steps);
    charge_each(face.changes.len() as u64, steps);
    charge_each(face.segs.len() as u64, steps);
    charge_each(face.lasts.len() as u64, steps);
    charge_ending(&face.ending, steps);
}

// So many steps.
fn charge_each<L: Ledger>(items: u64, steps: &mut Steps<L>)
    ensures { steps.new ≡ steps.old + items }
{
    for _ in 0..items {
        steps.tick();
    }
}

// A step for each of the ending's items.
fn charge_ending<L: Ledger>(ending: &Ending, steps: &mut Steps<L>)
    ensures { steps.new ≡ steps.old + ending_items ending.now }
{
    match *ending {
        Ending::Broken(_) => steps.tick(),
        Ending::Through(effect) => {
            charge_each(u64::from(effect.came.count_ones()), steps);
            charge_each(u64::from(effect.went.count_ones()), steps);
            if effect.rack.is_some() {
                steps.tick();
            }
            if effect.hook.is_some() {
                steps.tick();
            }
        }
    }
}
