//! The document as a tree of its blocks' faces.
ghost use Rattle.std.specs.Prelude.{◌≡◌, ℕ, ◌+◌, ◌*◌, ◌<◌, ◌≤◌, ◌^◌, ◌↔◌, List, [], length, take, true, slice_set, Some, OnOk, IfOk, IsOk, IfSome};
ghost use Rattle.std.specs.List.{slice_get};
ghost use Rattle.carriage_model.specs.State.{State, empty_state};
ghost use Rattle.face_data.specs.Summaries.Outcome.{went_on};
ghost use Rattle.face_data.specs.Items.{most_items};
ghost use Rattle.face_data.specs.View.{IsPacked, summary_of};
ghost use Rattle.knit_base.specs.declared.needle.Needle.{Needle};
ghost use Rattle.tree_shape.specs.Fewest.{list_inserted, list_removed};
ghost use Rattle.summary_tree.specs.Leaves.{AreSound, AreGoodFor, IsRootOf, applied_each, leaf_line_count, place_of_line};
ghost use Rattle.summary_tree.specs.Trees.{NeedView, TreeView, IsSameTree, Meets, CanReplace, CanInsert, CanRemove, change_steps};

use crate::entry::loops_behind;
use crate::faces::kept_room;
use crate::need::Need;
use crate::rooms::Rooms;
use crate::start::put_leaves;
use crate::store::FaceStore;
use carriage_model::LoopLines;
use face_data::{Face, FaceView};
use knit_base::{Needle, NoMemory, Steps};
use loop_history::LoopTable;
use std::alloc::Global;
use std::marker::Model;
use std::sync::ledger::Ledger;
use value_tree::ValueTree;

/// The faces and loop tables of a document's blocks, and at each inner node the face of the blocks below it.
#[derive(Drop)]
pub struct Tree {
    whole: ValueTree<FaceStore>,
    // where the rooms of a change are listed, in the same place each time
    rooms: Option<Box<Rooms>>,
}

impl Model for Tree {
    ghost use Rattle.std.specs.Coded.{codes};
    ghost use Rattle.tree_shape.specs.View.{tree_code};
    ghost use Rattle.summary_tree.specs.Trees.{TreeView, laid_out, IsTree};

    ghost Value = { TreeView };

    ghost coded = { Prim.hlevel (codes, tree_code) };

    ghost view = { λ t. laid_out t.whole.shape t.whole.store.faces t.whole.store.tables.items t.whole.store.scratch.room };

    ghost invariant = { λ t. IsTree t.whole.shape t.whole.store.faces t.whole.store.tables.items };
}

// A place in which the rooms of changes are listed, if there is memory for one. A change can do without.
fn place_for_rooms(alloc: Global) -> Option<Box<Rooms>>
    ensures { IfSome result (λ rooms. rooms.value ≡ []) }
{
    match Box::new(alloc, Rooms::new()) {
        Ok(rooms) => Some(rooms),
        Err(_) => None,
    }
}

impl Tree {
    /// A tree without leaves, which takes no memory.
    pub fn new(alloc: Global) -> Tree
        ensures { result.leaves ≡ [] }
    {
        Tree {
            whole: ValueTree::new(alloc, FaceStore::new(alloc)),
            rooms: None,
        }
    }

    /// The tree of these leaves. Composes the face of each inner node once. Fails where memory runs out.
    pub fn start<L: Ledger>(
        alloc: Global,
        leaves: Vec<(Face, LoopTable)>,
        steps: &mut Steps<L>,
    ) -> Result<Tree, NoMemory>
        requires { AreSound leaves.items }
        ensures leaves { IfOk result (λ tree. tree.leaves ≡ leaves.items) }
        ensures steps { (carriers limit : ℕ) (known : List Needle) → AreGoodFor carriers limit known leaves.items → steps.new ≤ steps.old + 3 * most_items carriers limit (length known) * length leaves.items }
    {
        let many = leaves.len() as u32;
        let mut store = FaceStore::new(alloc);
        put_leaves(&mut store, leaves)?;
        let whole = ValueTree::build(alloc, store, many, steps)?;
        Ok(Tree {
            whole,
            rooms: place_for_rooms(alloc),
        })
    }

    /// How many leaves there are.
    pub fn len(&self) -> u32
        ensures len { result ≡ length self.now.leaves }
        ensures sound { AreSound self.now.leaves }
    {
        self.whole.len()
    }

    /// The face of all leaves, one after the other. Takes no memory.
    pub fn root(&self) -> FaceView<'_>
        ensures { IsRootOf self.now.leaves result }
    {
        let _len = self.whole.len();
        let Some(root) = self.whole.root() else {
            return FaceView::of_no_line();
        };
        match self.whole.store().face(root) {
            Some(face) => face,
            None => FaceView::of_no_line(),
        }
    }

    /// The room that another face at a position needs. It stays a need until the next change. Takes no memory.
    pub fn need_replace(&self, at: u32, face: &FaceView) -> Need
        requires place { at < length self.now.leaves }
        requires packed { IsPacked face.now }
        ensures { (tree : TreeView) → IsSameTree self.now tree → Meets tree result ↔ CanReplace tree at (summary_of face.now) }
    {
        let _len = self.whole.len();
        Need {
            rooms: self.whole.need_replace(at, kept_room(face)),
            leaf: false,
        }
    }

    /// The room that one more face before a position needs. It stays a need until the next change. Takes no memory.
    pub fn need_insert(&self, at: u32, face: &FaceView) -> Need
        requires place { at ≤ length self.now.leaves }
        requires few { length self.now.leaves < 65536 }
        requires packed { IsPacked face.now }
        ensures { (tree : TreeView) → IsSameTree self.now tree → Meets tree result ↔ CanInsert tree at (summary_of face.now) }
    {
        let _len = self.whole.len();
        Need {
            rooms: self.whole.need_insert(at, kept_room(face)),
            leaf: true,
        }
    }

    /// The room that taking out the face of a position needs. It stays a need until the next change. Takes no memory.
    pub fn need_remove(&self, at: u32) -> Need
        requires { at < length self.now.leaves }
        ensures { (tree : TreeView) → IsSameTree self.now tree → Meets tree result ↔ CanRemove tree at }
    {
        let _len = self.whole.len();
        Need {
            rooms: self.whole.need_remove(at),
            leaf: false,
        }
    }

    /// Whether that room is there. Takes no memory.
    pub fn meets(&self, need: &Need) -> bool
        ensures { (result ≡ true) ↔ Meets self.now need.now }
    {
        if !self.whole.meets(&need.rooms) {
            return false;
        }
        if need.leaf {
            return self.whole.has_place();
        }
        true
    }

    /// Makes that room, and keeps what is there for others. Where it is there already, it takes no memory. Fails where memory runs out.
    pub fn reserve(&mut self, need: &Need) -> Result<(), NoMemory>
        ensures ok { OnOk result (Meets self.new need.now) }
        ensures same { IsSameTree self.old self.new }
        ensures ready { Meets self.old need.now → IsOk result }
        ensures keeps { (other : NeedView) → Meets self.old other → Meets self.new other }
    {
        if self.meets(need) {
            return Ok(());
        }
        if need.leaf {
            self.whole.reserve_insert(&need.rooms)
        } else {
            self.whole.reserve(&need.rooms)
        }
    }

    /// Makes the room that another face at a position needs, and keeps what is there for others. Where it is there already, it takes no
    /// memory. Fails where memory runs out.
    pub fn reserve_replace(&mut self, at: u32, face: &FaceView) -> Result<(), NoMemory>
        requires place { at < length self.old.leaves }
        requires packed { IsPacked face.now }
        ensures ok { OnOk result (CanReplace self.new at (summary_of face.now)) }
        ensures same { IsSameTree self.old self.new }
        ensures ready { CanReplace self.old at (summary_of face.now) → IsOk result }
        ensures keeps { (need : NeedView) → Meets self.old need → Meets self.new need }
    {
        let _len = self.whole.len();
        match &mut self.rooms {
            Some(rooms) => {
                self.whole.fill_replace(at, kept_room(face), rooms);
                self.whole.reserve(rooms)
            }
            None => self.reserve_anew(at, face),
        }
    }

    // The same with a need of its own, which costs more.
    #[inline(never)]
    fn reserve_anew(&mut self, at: u32, face: &FaceView) -> Result<(), NoMemory>
        requires place { at < length self.old.leaves }
        requires packed { IsPacked face.now }
        ensures ok { OnOk result (CanReplace self.new at (summary_of face.now)) }
        ensures same { IsSameTree self.old self.new }
        ensures ready { CanReplace self.old at (summary_of face.now) → IsOk result }
        ensures keeps { (need : NeedView) → Meets self.old need → Meets self.new need }
    {
        let need = self.need_replace(at, face);
        self.reserve(&need)
    }

    /// Puts another face and table at a position. Takes no memory.
    pub fn replace<L: Ledger>(
        &mut self,
        at: u32,
        face: &FaceView,
        loops: LoopTable,
        steps: &mut Steps<L>,
    )
        requires place { at < length self.old.leaves }
        requires packed { IsPacked face.now }
        requires sound { AreSound (slice_set self.old.leaves at (summary_of face.now, loops)) }
        requires room { CanReplace self.old at (summary_of face.now) }
        ensures leaves { self.new.leaves ≡ slice_set self.old.leaves at (summary_of face.now, loops) }
        ensures steps { (carriers limit : ℕ) (known : List Needle) → AreGoodFor carriers limit known self.new.leaves → steps.new ≤ steps.old + change_steps (length self.old.leaves) (most_items carriers limit (length known)) }
    {
        let _len = self.whole.len();
        self.whole.replace(at, (*face, loops), steps);
    }

    /// Puts one more face and table before a position. Takes no memory.
    pub fn insert<L: Ledger>(
        &mut self,
        at: u32,
        face: &FaceView,
        loops: LoopTable,
        steps: &mut Steps<L>,
    )
        requires place { at ≤ length self.old.leaves }
        requires packed { IsPacked face.now }
        requires sound { AreSound (list_inserted at (summary_of face.now, loops) self.old.leaves) }
        requires room { CanInsert self.old at (summary_of face.now) }
        ensures leaves { self.new.leaves ≡ list_inserted at (summary_of face.now, loops) self.old.leaves }
        ensures steps { (carriers limit : ℕ) (known : List Needle) → AreGoodFor carriers limit known self.new.leaves → steps.new ≤ steps.old + change_steps (length self.new.leaves) (most_items carriers limit (length known)) }
    {
        let _len = self.whole.len();
        self.whole.insert(at, (*face, loops), steps);
    }

    /// Takes out the face and table of a position. Takes no memory.
    pub fn remove<L: Ledger>(&mut self, at: u32, steps: &mut Steps<L>)
        requires place { at < length self.old.leaves }
        requires room { CanRemove self.old at }
        ensures leaves { self.new.leaves ≡ list_removed at self.old.leaves }
        ensures steps { (carriers limit : ℕ) (known : List Needle) → AreGoodFor carriers limit known self.new.leaves → steps.new ≤ steps.old + change_steps (length self.old.leaves) (most_items carriers limit (length known)) }
    {
        let _len = self.whole.len();
        self.whole.remove(at, steps);
    }

    /// The position of the leaf with a body line, from 0, and the line's offset within it. Takes no memory.
    pub fn leaf_of_line(&self, offset: u32) -> Option<(u32, u32)>
        ensures { result ≡ place_of_line self.now.leaves offset }
    {
        match self.whole.find(u64::from(offset)) {
            Some((at, within)) => Some((at, within as u32)),
            None => None,
        }
    }

    /// The loops that the needle holds where the leaf of a position begins, if the leaves before it are run from empty beds without
    /// a fault. The first body line has the number `first`, by which loops are named. Fails where memory runs out, or for more loops
    /// than a `u32` counts.
    pub fn entry_contents(
        &self,
        alloc: Global,
        at: u32,
        needle: Needle,
        first: u32,
    ) -> Result<LoopLines, NoMemory>
        requires place { at < length self.now.leaves }
        requires lines { first + leaf_line_count self.now.leaves < 2 ^ 32 }
        ensures { IfOk result (λ loops. (s : State) → applied_each (take at self.now.leaves) empty_state first ≡ went_on s → loops ≡ s.stacks needle) }
    {
        let _len = self.whole.len();
        let parts = self.whole.parts_before(alloc, at)?;
        loops_behind(alloc, self.whole.store(), parts, needle, first)
    }

    /// The face and the table of a position. Takes no memory.
    pub fn leaf(&self, at: u32) -> (FaceView<'_>, &LoopTable)
        requires { at < length self.now.leaves }
        ensures leaf { slice_get self.now.leaves at ≡ Some (summary_of result.0, result.1.now) }
        ensures packed { IsPacked result.0 }
    {
        let _len = self.whole.len();
        let number = self.whole.leaf(at);
        self.whole.store().leaf(number)
    }

    /// How many lines stand before the leaf of a position, or in all leaves. Takes no memory.
    pub fn lines_before(&self, at: u32) -> u32
        requires { at ≤ length self.now.leaves }
        ensures { result ≡ leaf_line_count (take at self.now.leaves) }
    {
        let _len = self.whole.len();
        self.whole.count_before(at) as u32
    }
}
