//! Faces and loop tables at the leaves of a tree, and faces at its inner nodes.
ghost use Rattle.std.specs.Prelude.{◌≡◌, ◌≢◌, ℕ, ◌+◌, ◌*◌, ◌<◌, ◌≤◌, ◌↔◌, true, List, count_by, length, slice_index_or, slice_set, Option, Some, None, IfSome, IsNone, OnOk};
ghost use Rattle.face_data.specs.Composition.{composed};
ghost use Rattle.face_data.specs.Items.{items};
ghost use Rattle.face_data.specs.Summaries.{Summary};
ghost use Rattle.face_data.specs.View.{IsPacked, summary_of};
ghost use Rattle.loop_history.specs.declared.row.LoopRow.{LoopRow};
ghost use Rattle.summary_compose.specs.Composing.{IsNoGreater};
ghost use Rattle.summary_compose.specs.Rooms.{room_after};
ghost use Rattle.tree_shape.specs.declared.node.Child.TheVariants.{Leaf, Inner};
ghost use Rattle.summary_tree.specs.Faces.{face_in, spare_in, length_in, AreSpansReserved, KeepsSpares};
ghost use Rattle.summary_tree.specs.Laws.{stand_laws, room_laws, cost_law, lines_law, rooms_any_order};
ghost use Rattle.summary_tree.specs.Leaves.{StandTogether, WholeLeaf, joined_leaf, LeavesFit, leaf_items, leaf_room, leaf_lines};
ghost use Rattle.summary_tree.specs.Meeting.{IsMet, reaches};
ghost use Rattle.summary_tree.specs.Rooms.{kept_room};
ghost use Rattle.summary_tree.specs.Store.{child_slot, leaf_in, node_in, faces_place_count, HasRooms};

use crate::faces::{FaceList, Faces};
use crate::rooms::{Rooms, reaches};
use face_data::{Face, FaceView};
use knit_base::{NoMemory, Steps};
use loop_history::LoopTable;
use std::alloc::Global;
use std::sync::ledger::Ledger;
use summary_compose::{Room, Scratch, compose_into};
use tree_shape::{Child, DirtyRow};
use value_tree::{Counts, Takes, Values};

/// Faces and loop tables by the numbers of leaves and inner nodes, and the place in which faces are composed.
#[derive(Drop)]
pub(crate) struct FaceStore {
    pub(crate) faces: Faces,
    pub(crate) tables: Vec<Option<LoopTable>>,
    pub(crate) scratch: Scratch,
}

fn place_of(child: Child) -> usize
    ensures { result ≡ child_slot child }
{
    match child {
        Child::Leaf(n) => n as usize * 2,
        Child::Inner(n) => n as usize * 2 + 1,
    }
}

// Whether there are as many spare spans of a class for one of the lists as rooms that need one of it or of a higher one.
fn class_is_met(faces: &Faces, list: FaceList, class: u8, need: &Rooms) -> bool
    requires { class ≤ 62 }
    ensures { (result ≡ true) ↔ (count_by (λ r. reaches class (length_in list r)) need.now ≤ spare_in faces.now list class) }
{
    let spare = faces.spare(list, class);
    if need.len() <= spare {
        return true;
    }
    need.count(list, class) <= spare
}

// Whether there are spans for one of the lists of each room.
fn list_is_met(faces: &Faces, list: FaceList, need: &Rooms) -> bool
    ensures { (result ≡ true) ↔ IsMet (spare_in faces.now list) (length_in list) need.now }
{
    if !need.is_short(list) {
        return false;
    }
    let longest = need.longest(list);
    for class in 0..63 {
        if !reaches(class, longest) {
            return true;
        }
        if !class_is_met(faces, list, class, need) {
            return false;
        }
    }
    true
}

// Makes spans for one of the lists of each room.
fn reserve_list(faces: &mut Faces, list: FaceList, need: &Rooms) -> Result<(), NoMemory>
    ensures ok { OnOk result (IsMet (spare_in faces.new list) (length_in list) need.now) }
    ensures faces { faces.new.faces ≡ faces.old.faces }
    ensures spares { KeepsSpares faces.old faces.new }
{
    if !need.is_short(list) {
        return Err(NoMemory);
    }
    let most = need.longest(list);
    for class in 0..63 {
        if !reaches(class, most) {
            return Ok(());
        }
        faces.reserve(list, class, need.count(list, class))?;
    }
    Ok(())
}

// Makes spans for all lists of each room.
fn reserve_lists(faces: &mut Faces, need: &Rooms) -> Result<(), NoMemory>
    ensures ok { OnOk result (AreSpansReserved faces.new need.now) }
    ensures faces { faces.new.faces ≡ faces.old.faces }
    ensures spares { KeepsSpares faces.old faces.new }
{
    reserve_list(faces, FaceList::Checks, need)?;
    reserve_list(faces, FaceList::Names, need)?;
    reserve_list(faces, FaceList::Changes, need)?;
    reserve_list(faces, FaceList::Segs, need)?;
    reserve_list(faces, FaceList::Lasts, need)
}

// Composes the faces of two places in the scratch.
fn compose_both<L: Ledger>(
    faces: &Faces,
    left: usize,
    right: usize,
    scratch: &mut Scratch,
    steps: &mut Steps<L>,
)
    requires { (a : Summary × List LoopRow) × (b : Summary × List LoopRow) × (face_in faces.now left ≡ Some a.0) × (face_in faces.now right ≡ Some b.0) × LeavesFit a b × IsNoGreater (room_after (kept_room a.0) (kept_room b.0)) scratch.old.room }
    ensures composed { (a b : Summary) → face_in faces.now left ≡ Some a → face_in faces.now right ≡ Some b → scratch.new.summary ≡ composed a b }
    ensures room { scratch.new.room ≡ scratch.old.room }
    ensures steps { (a b : Summary) → face_in faces.now left ≡ Some a → face_in faces.now right ≡ Some b → steps.new ≡ steps.old + (items a + (items b + items (composed a b))) }
{
    if let Some(a) = faces.get(left) {
        if let Some(b) = faces.get(right) {
            compose_into(&a, &b, scratch, steps);
        }
    }
}

fn lengthen_tables(tables: &mut Vec<Option<LoopTable>>, many: u32) -> Result<(), NoMemory>
    ensures ok { OnOk result (many ≤ length tables.new.items) }
    ensures more { length tables.old.items ≤ length tables.new.items }
    ensures same { (n : ℕ) → slice_index_or tables.new.items n None ≡ slice_index_or tables.old.items n None }
{
    let start = tables.len() as u64;
    for _i in start..u64::from(many) {
        tables.push(None)?;
    }
    Ok(())
}

fn set_table(tables: &mut Vec<Option<LoopTable>>, number: u32, table: Option<LoopTable>)
    ensures { tables.new.items ≡ slice_set tables.old.items number table }
{
    if (number as usize) < tables.len() {
        tables[number as usize] = table;
    }
}

impl FaceStore {
    pub fn new(alloc: Global) -> FaceStore {
        FaceStore {
            faces: Faces::new(alloc),
            tables: Vec::new(alloc),
            scratch: Scratch::new(alloc),
        }
    }

    /// The face of a leaf or an inner node, if there is one.
    pub fn face(&self, child: Child) -> Option<FaceView<'_>>
        ensures some { IfSome result (λ view. face_in self.now.faces (child_slot child) ≡ Some (summary_of view)) }
        ensures packed { IfSome result (λ view. IsPacked view) }
        ensures none { IsNone result → face_in self.now.faces (child_slot child) ≡ None }
    {
        self.faces.get(place_of(child))
    }

    /// The face and the table of a leaf that is there.
    pub fn leaf(&self, number: u32) -> (FaceView<'_>, &LoopTable)
        requires { (leaf : Summary × List LoopRow) × (leaf_in self.now.faces self.now.tables.items number ≡ Some leaf) }
        ensures leaf { leaf_in self.now.faces self.now.tables.items number ≡ Some (summary_of result.0, result.1.now) }
        ensures packed { IsPacked result.0 }
    {
        let Some(face) = self.faces.get(place_of(Child::Leaf(number))) else {
            unreachable!();
        };
        let Some(slot) = self.tables.get(number as usize) else {
            unreachable!();
        };
        match slot {
            Some(table) => (face, table),
            None => unreachable!(),
        }
    }
}

impl Values for FaceStore {
    type Value = (Face, LoopTable);

    type Room = Room;

    type Need = Rooms;

    ghost leaf_at = { λ s. leaf_in s.faces s.tables.items };

    ghost node_at = { λ s. node_in s.faces };

    ghost slots = { λ s. faces_place_count s.faces s.tables.items };

    ghost join = { joined_leaf };

    ghost fits = { LeavesFit };

    ghost sound = { StandTogether };

    ghost stands = { WholeLeaf };

    ghost cost = { leaf_items };

    ghost room = { leaf_room };

    ghost after = { room_after };

    ghost within = { IsNoGreater };

    ghost meets = { λ s rooms. HasRooms s.faces s.scratch.room rooms };

    ghost rooms = { λ n. n };

    fn room_of(&self, child: Child) -> Room {
        self.faces.room(place_of(child))
    }

    fn both(left: Room, right: Room) -> Room {
        left.after(&right)
    }

    fn no_need() -> Rooms {
        Rooms::new()
    }

    fn clear(need: &mut Rooms) {
        need.clear();
    }

    fn push(need: &mut Rooms, size: Room) {
        need.push(size);
    }

    fn nth(need: &Rooms, i: u32) -> Room {
        need.nth(i)
    }

    fn reserve(&mut self, need: &Rooms) -> Result<(), NoMemory> {
        self.scratch.reserve(&need.greatest())?;
        reserve_lists(&mut self.faces, need)
    }

    fn meets(&self, need: &Rooms) -> bool {
        need.is_within(&self.scratch)
            && list_is_met(&self.faces, FaceList::Checks, need)
            && list_is_met(&self.faces, FaceList::Names, need)
            && list_is_met(&self.faces, FaceList::Changes, need)
            && list_is_met(&self.faces, FaceList::Segs, need)
            && list_is_met(&self.faces, FaceList::Lasts, need)
    }

    fn compose<L: Ledger>(&mut self, row: DirtyRow, steps: &mut Steps<L>) {
        compose_both(
            &self.faces,
            place_of(row.left),
            place_of(row.right),
            &mut self.scratch,
            steps,
        );
        self.faces
            .put(place_of(Child::Inner(row.node)), &self.scratch.view());
    }

    fn clear_leaf(&mut self, number: u32) {
        self.faces.clear(place_of(Child::Leaf(number)));
        set_table(&mut self.tables, number, None);
    }

    fn clear_node(&mut self, number: u32) {
        self.faces.clear(place_of(Child::Inner(number)));
    }

    fn places(&self) -> u64 {
        let faces = self.faces.len() / 2;
        let tables = self.tables.len() as u64;
        faces.min(tables)
    }

    fn reserve_slots(&mut self, many: u32) -> Result<(), NoMemory> {
        self.faces.lengthen(u64::from(many) * 2)?;
        lengthen_tables(&mut self.tables, many)
    }

    ghost stand_laws = { stand_laws };

    ghost room_laws = { room_laws };

    ghost meets_law = { λ s r needed m. rooms_any_order s.faces s.scratch.room r needed m };

    ghost cost_law = { cost_law };
}

impl Counts for FaceStore {
    ghost count = { leaf_lines };

    fn count_of(&self, child: Child) -> u64 {
        match self.faces.get(place_of(child)) {
            Some(face) => u64::from(face.lines),
            None => 0,
        }
    }

    ghost count_law = { lines_law };
}

impl<'a> Takes<(FaceView<'a>, LoopTable)> for FaceStore {
    ghost value_of = { λ leaf. (summary_of leaf.0, leaf.1) };

    ghost may_stand = { λ leaf. IsPacked leaf.0 };

    fn set_leaf(&mut self, number: u32, leaf: (FaceView<'a>, LoopTable)) {
        let (face, loops) = leaf;
        self.faces.put(place_of(Child::Leaf(number)), &face);
        set_table(&mut self.tables, number, Some(loops));
    }
}
