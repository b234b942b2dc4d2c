//! Putting all leaves of a new tree at their places.
ghost use Rattle.std.specs.Prelude.{◌≡◌, ◌≢◌, ℕ, ◌<◌, ◌≤◌, length, Some, OnOk};
ghost use Rattle.std.specs.List.{slice_get};
ghost use Rattle.face_data.specs.View.{IsPacked, summary_of};
ghost use Rattle.summary_tree.specs.Store.{leaf_in, faces_place_count};

use crate::faces::kept_room;
use crate::rooms::Rooms;
use crate::store::FaceStore;
use face_data::{Face, FaceView};
use knit_base::NoMemory;
use loop_history::LoopTable;
use value_tree::{Takes, Values};

// Makes the room for a leaf that has a place, and puts it there.
fn put_leaf(
    store: &mut FaceStore,
    need: &mut Rooms,
    number: u32,
    face: &FaceView,
    loops: LoopTable,
) -> Result<(), NoMemory>
    requires place { number < faces_place_count store.old.faces store.old.tables.items }
    requires packed { IsPacked face.now }
    ensures leaf { OnOk result (leaf_in store.new.faces store.new.tables.items number ≡ Some (summary_of face.now, loops)) }
    ensures others { (n : ℕ) → n ≢ number → leaf_in store.new.faces store.new.tables.items n ≡ leaf_in store.old.faces store.old.tables.items n }
    ensures places { faces_place_count store.old.faces store.old.tables.items ≤ faces_place_count store.new.faces store.new.tables.items }
{
    need.clear();
    need.push(kept_room(face));
    store.reserve(need)?;
    store.set_leaf(number, (*face, loops));
    Ok(())
}

/// Puts these leaves at the numbers from 0 on.
pub(crate) fn put_leaves(
    store: &mut FaceStore,
    leaves: Vec<(Face, LoopTable)>,
) -> Result<(), NoMemory>
    requires few { length leaves.items ≤ 65536 }
    ensures leaves { OnOk result ((n : ℕ) → n < length leaves.items → leaf_in store.new.faces store.new.tables.items n ≡ slice_get leaves.items n) }
    ensures places { OnOk result (length leaves.items ≤ faces_place_count store.new.faces store.new.tables.items) }
{
    store.reserve_slots(leaves.len() as u32)?;
    let mut need = Rooms::new();
    let mut number = 0;
    for (face, loops) in leaves {
        put_leaf(store, &mut need, number, &face.view(), loops)?;
        number += 1;
    }
    Ok(())
}
