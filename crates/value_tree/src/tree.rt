//! The tree: its shape, and the values at its leaves and inner nodes.
ghost use Rattle.std.specs.Prelude.{◌≡◌, ℕ, ◌+◌, ◌*◌, ◌<◌, ◌≤◌, List, [], ◌∷◌, length, take, slice_range, Option, Some, true, slice_index, slice_set, OnOk, IfOk, IsOk, IfSome, IsNone, ◌↔◌};
ghost use Rattle.std.specs.List.{slice_get};
ghost use Rattle.std.specs.Option.{option_map};
ghost use Rattle.tree_shape.specs.Fewest.{highest, list_inserted, list_removed};
ghost use Rattle.tree_shape.specs.Numbers.{next_number};
ghost use Rattle.tree_shape.specs.View.{ShapeView, IsSameShape, leaf_count_of, leaves_of_tree, rows_above, rows_with, rows_without};
ghost use Rattle.tree_shape.specs.Composing.{Costs};
ghost use Rattle.tree_shape.specs.Values.{AreThere, values_of_numbers, leaf_values, part, with_node};
ghost use Rattle.tree_shape.specs.Changes.{numbers_below};
ghost use Rattle.value_tree.specs.Found.{found_in, total_count};
ghost use Rattle.value_tree.specs.Kept.{HasLeafPlace, KeepsLeafValues, IsReplaceNeed, IsInsertNeed, IsRemoveNeed, KeepsNeeds};
ghost use Rattle.value_tree.specs.Parts.{StandFor};

use crate::before::{Descent, descend};
use crate::between::parts_between;
use crate::find::{Counts, LeafWalk, step};
use crate::need::{NewLeaf, fill_need, need_of};
use crate::parts::parts_before;
use crate::refresh::refresh;
use crate::start::compose_all;
use crate::values::{Takes, Values};
use knit_base::{NoMemory, Steps};
use std::alloc::Global;
use std::sync::ledger::Ledger;
use tree_shape::{Child, Dirty, Shape};

/// A balanced tree with a value at each leaf, and at each inner node the one composed of its leaves' values.
#[derive(Drop)]
pub struct ValueTree<S: Values> {
    pub(crate) shape: Shape,
    pub(crate) store: S,
}

impl<S: Values> ValueTree<S> {
    /// Puts another value at the leaf of a position, from 0. Takes no memory.
    pub fn replace<F, L: Ledger>(&mut self, at: u32, leaf: F, steps: &mut Steps<L>)
    where
        S: Takes<F>,
        requires kept { KeepsLeafValues S.join S.sound (S.leaf_at self.old.store) (S.node_at self.old.store) (S.slots self.old.store) self.old.shape }
        requires place { at < leaf_count_of self.old.shape.tree }
        requires lawful { S.may_stand leaf }
        requires sound { S.sound (slice_set (leaf_values (S.leaf_at self.old.store) self.old.shape.tree) at (S.value_of leaf)) }
        requires need { (needed : List S.Room) × S.meets self.old.store needed × IsReplaceNeed S.room S.after (S.leaf_at self.old.store) (S.node_at self.old.store) self.old.shape at (S.room (S.value_of leaf)) needed }
        ensures kept { KeepsLeafValues S.join S.sound (S.leaf_at self.new.store) (S.node_at self.new.store) (S.slots self.new.store) self.new.shape }
        ensures leaves { leaf_values (S.leaf_at self.new.store) self.new.shape.tree ≡ slice_set (leaf_values (S.leaf_at self.old.store) self.old.shape.tree) at (S.value_of leaf) }
        ensures shape { self.new.shape ≡ self.old.shape }
        ensures steps { (each : ℕ) → Costs S.stands S.cost each (slice_set (leaf_values (S.leaf_at self.old.store) self.old.shape.tree) at (S.value_of leaf)) → steps.new ≤ steps.old + 3 * each * length (rows_above at self.old.shape.tree) }
        ensures rows { length (rows_above at self.old.shape.tree) ≤ highest (leaf_count_of self.old.shape.tree) }
    {
        let mut dirty = Dirty::new();
        let _len = self.shape.len();
        let number = self.shape.leaf(at);
        self.shape.touch(at, &mut dirty);
        self.store.set_leaf(number, leaf);
        refresh(&mut self.store, &dirty, steps);
    }

    /// Puts a leaf at a position, before the leaf that was there, and answers its number. Takes no memory.
    pub fn insert<F, L: Ledger>(&mut self, at: u32, leaf: F, steps: &mut Steps<L>) -> u32
    where
        S: Takes<F>,
        requires kept { KeepsLeafValues S.join S.sound (S.leaf_at self.old.store) (S.node_at self.old.store) (S.slots self.old.store) self.old.shape }
        requires place { at ≤ leaf_count_of self.old.shape.tree }
        requires few { leaf_count_of self.old.shape.tree < 65536 }
        requires room { self.old.shape.room ≡ true }
        requires leaf_slot { self.old.shape.leaf_numbers.drawn < S.slots self.old.store }
        requires inner_slot { self.old.shape.inner_numbers.drawn < S.slots self.old.store }
        requires lawful { S.may_stand leaf }
        requires sound { S.sound (list_inserted at (S.value_of leaf) (leaf_values (S.leaf_at self.old.store) self.old.shape.tree)) }
        requires need { (needed : List S.Room) × S.meets self.old.store needed × IsInsertNeed S.room S.after (S.leaf_at self.old.store) (S.node_at self.old.store) self.old.shape at (S.room (S.value_of leaf)) needed }
        ensures kept { KeepsLeafValues S.join S.sound (S.leaf_at self.new.store) (S.node_at self.new.store) (S.slots self.new.store) self.new.shape }
        ensures leaves { leaf_values (S.leaf_at self.new.store) self.new.shape.tree ≡ list_inserted at (S.value_of leaf) (leaf_values (S.leaf_at self.old.store) self.old.shape.tree) }
        ensures number { result ≡ next_number self.old.shape.leaf_numbers }
        ensures numbers { leaves_of_tree self.new.shape.tree ≡ list_inserted at result (leaves_of_tree self.old.shape.tree) }
        ensures steps { (each : ℕ) → Costs S.stands S.cost each (list_inserted at (S.value_of leaf) (leaf_values (S.leaf_at self.old.store) self.old.shape.tree)) → steps.new ≤ steps.old + 3 * each * length (rows_with at (next_number self.old.shape.leaf_numbers) (next_number self.old.shape.inner_numbers) self.old.shape.tree) }
        ensures rows { length (rows_with at (next_number self.old.shape.leaf_numbers) (next_number self.old.shape.inner_numbers) self.old.shape.tree) ≤ 3 * (highest (leaf_count_of self.new.shape.tree) + 2) }
    {
        let mut dirty = Dirty::new();
        let _before = self.shape.len();
        let number = self.shape.insert(at, &mut dirty);
        let _after = self.shape.len();
        self.store.set_leaf(number, leaf);
        refresh(&mut self.store, &dirty, steps);
        number
    }

    /// Takes the leaf at a position out and answers its number. Takes no memory.
    pub fn remove<L: Ledger>(&mut self, at: u32, steps: &mut Steps<L>) -> u32
        requires kept { KeepsLeafValues S.join S.sound (S.leaf_at self.old.store) (S.node_at self.old.store) (S.slots self.old.store) self.old.shape }
        requires place { at < leaf_count_of self.old.shape.tree }
        requires sound { S.sound (list_removed at (leaf_values (S.leaf_at self.old.store) self.old.shape.tree)) }
        requires need { (needed : List S.Room) × S.meets self.old.store needed × IsRemoveNeed S.room S.after (S.leaf_at self.old.store) (S.node_at self.old.store) self.old.shape at needed }
        ensures kept { KeepsLeafValues S.join S.sound (S.leaf_at self.new.store) (S.node_at self.new.store) (S.slots self.new.store) self.new.shape }
        ensures leaves { leaf_values (S.leaf_at self.new.store) self.new.shape.tree ≡ list_removed at (leaf_values (S.leaf_at self.old.store) self.old.shape.tree) }
        ensures number { result ≡ slice_index (leaves_of_tree self.old.shape.tree) at }
        ensures numbers { leaves_of_tree self.new.shape.tree ≡ list_removed at (leaves_of_tree self.old.shape.tree) }
        ensures steps { (each : ℕ) → Costs S.stands S.cost each (list_removed at (leaf_values (S.leaf_at self.old.store) self.old.shape.tree)) → steps.new ≤ steps.old + 3 * each * length (rows_without at self.old.shape.tree) }
        ensures rows { length (rows_without at self.old.shape.tree) ≤ 3 * (highest (leaf_count_of self.old.shape.tree) + 2) }
    {
        let mut dirty = Dirty::new();
        let _before = self.shape.len();
        let number = self.shape.remove(at, &mut dirty);
        let _after = self.shape.len();
        refresh(&mut self.store, &dirty, steps);
        self.store.clear_leaf(number);
        let gone = self.shape.next_inner();
        self.store.clear_node(gone);
        number
    }

    /// What putting a value of this room at a position needs. It stays a need until the next change.
    pub fn need_replace(&self, at: u32, room: S::Room) -> S::Need
        requires kept { KeepsLeafValues S.join S.sound (S.leaf_at self.now.store) (S.node_at self.now.store) (S.slots self.now.store) self.now.shape }
        requires place { at < leaf_count_of self.now.shape.tree }
        ensures need { IsReplaceNeed S.room S.after (S.leaf_at self.now.store) (S.node_at self.now.store) self.now.shape at room (S.rooms result) }
    {
        let mut need = S::no_need();
        self.fill_replace(at, room, &mut need);
        need
    }

    /// The same, put into a need in place of what it had.
    pub fn fill_replace(&self, at: u32, room: S::Room, need: &mut S::Need)
        requires kept { KeepsLeafValues S.join S.sound (S.leaf_at self.now.store) (S.node_at self.now.store) (S.slots self.now.store) self.now.shape }
        requires place { at < leaf_count_of self.now.shape.tree }
        ensures need { IsReplaceNeed S.room S.after (S.leaf_at self.now.store) (S.node_at self.now.store) self.now.shape at room (S.rooms need.new) }
    {
        let mut dirty = Dirty::new();
        let _len = self.shape.len();
        let number = self.shape.leaf(at);
        self.shape.touch(at, &mut dirty);
        fill_need(&self.store, Some(NewLeaf { number, room }), &dirty, need);
    }

    /// What inserting a value of this room at a position needs.
    pub fn need_insert(&self, at: u32, room: S::Room) -> S::Need
        requires kept { KeepsLeafValues S.join S.sound (S.leaf_at self.now.store) (S.node_at self.now.store) (S.slots self.now.store) self.now.shape }
        requires place { at ≤ leaf_count_of self.now.shape.tree }
        requires few { leaf_count_of self.now.shape.tree < 65536 }
        ensures need { IsInsertNeed S.room S.after (S.leaf_at self.now.store) (S.node_at self.now.store) self.now.shape at room (S.rooms result) }
    {
        let mut dirty = Dirty::new();
        let _len = self.shape.len();
        let number = self.shape.plan_insert(at, &mut dirty);
        need_of(&self.store, Some(NewLeaf { number, room }), &dirty)
    }

    /// What taking out the leaf of a position needs.
    pub fn need_remove(&self, at: u32) -> S::Need
        requires kept { KeepsLeafValues S.join S.sound (S.leaf_at self.now.store) (S.node_at self.now.store) (S.slots self.now.store) self.now.shape }
        requires place { at < leaf_count_of self.now.shape.tree }
        ensures need { IsRemoveNeed S.room S.after (S.leaf_at self.now.store) (S.node_at self.now.store) self.now.shape at (S.rooms result) }
    {
        let mut dirty = Dirty::new();
        let _len = self.shape.len();
        self.shape.plan_remove(at, &mut dirty);
        need_of(&self.store, None, &dirty)
    }

    /// Makes the room that a need asks for. Where it is there already, it takes no memory and is `Ok`. Fails where memory runs
    /// out, with the same tree.
    pub fn reserve(&mut self, need: &S::Need) -> Result<(), NoMemory>
        requires kept { KeepsLeafValues S.join S.sound (S.leaf_at self.old.store) (S.node_at self.old.store) (S.slots self.old.store) self.old.shape }
        ensures kept { KeepsLeafValues S.join S.sound (S.leaf_at self.new.store) (S.node_at self.new.store) (S.slots self.new.store) self.new.shape }
        ensures leaves { (k : ℕ) → S.leaf_at self.new.store k ≡ S.leaf_at self.old.store k }
        ensures nodes { (k : ℕ) → S.node_at self.new.store k ≡ S.node_at self.old.store k }
        ensures shape { self.new.shape ≡ self.old.shape }
        ensures needs { KeepsNeeds S.room S.after (S.leaf_at self.old.store) (S.node_at self.old.store) self.old.shape (S.leaf_at self.new.store) (S.node_at self.new.store) self.new.shape }
        ensures met { OnOk result (S.meets self.new.store (S.rooms need.now)) }
        ensures ready { S.meets self.old.store (S.rooms need.now) → IsOk result }
        ensures memory { (needed : List S.Room) → S.meets self.old.store needed → S.meets self.new.store needed }
        ensures slots { S.slots self.old.store ≤ S.slots self.new.store }
    {
        if self.store.meets(need) {
            return Ok(());
        }
        self.store.reserve(need)
    }

    /// Makes the room that a need asks for, and a place for one more leaf and one more inner node. Fails where memory runs out,
    /// with the same tree.
    pub fn reserve_insert(&mut self, need: &S::Need) -> Result<(), NoMemory>
        requires kept { KeepsLeafValues S.join S.sound (S.leaf_at self.old.store) (S.node_at self.old.store) (S.slots self.old.store) self.old.shape }
        ensures kept { KeepsLeafValues S.join S.sound (S.leaf_at self.new.store) (S.node_at self.new.store) (S.slots self.new.store) self.new.shape }
        ensures leaves { (k : ℕ) → S.leaf_at self.new.store k ≡ S.leaf_at self.old.store k }
        ensures nodes { (k : ℕ) → S.node_at self.new.store k ≡ S.node_at self.old.store k }
        ensures shape { IsSameShape self.old.shape self.new.shape }
        ensures needs { KeepsNeeds S.room S.after (S.leaf_at self.old.store) (S.node_at self.old.store) self.old.shape (S.leaf_at self.new.store) (S.node_at self.new.store) self.new.shape }
        ensures met { OnOk result (S.meets self.new.store (S.rooms need.now)) }
        ensures memory { (needed : List S.Room) → S.meets self.old.store needed → S.meets self.new.store needed }
        ensures place { HasLeafPlace (S.slots self.old.store) self.old.shape → HasLeafPlace (S.slots self.new.store) self.new.shape }
        ensures room { OnOk result (self.new.shape.room ≡ true) }
        ensures leaf_slot { OnOk result (self.new.shape.leaf_numbers.drawn < S.slots self.new.store) }
        ensures inner_slot { OnOk result (self.new.shape.inner_numbers.drawn < S.slots self.new.store) }
    {
        self.shape.reserve_one()?;
        self.store.reserve(need)?;
        let _len = self.shape.len();
        let leaves = self.shape.leaf_numbers();
        let inners = self.shape.inner_numbers();
        self.store.reserve_slots(if leaves < inners {
            inners + 1
        } else {
            leaves + 1
        })
    }

    /// Whether the room that a need asks for is there.
    pub fn meets(&self, need: &S::Need) -> bool
        ensures { (result ≡ true) ↔ S.meets self.now.store (S.rooms need.now) }
    {
        self.store.meets(need)
    }

    /// A tree without leaves. Takes no memory.
    pub fn new(alloc: Global, store: S) -> ValueTree<S>
        requires none { S.sound [] }
        ensures kept { KeepsLeafValues S.join S.sound (S.leaf_at result.store) (S.node_at result.store) (S.slots result.store) result.shape }
        ensures empty { leaf_values (S.leaf_at result.store) result.shape.tree ≡ [] }
    {
        ValueTree {
            shape: Shape::new(alloc),
            store,
        }
    }

    /// A tree of leaves that have their values already, by their numbers, which are those below a count, in order. Composes the
    /// value of each inner node once. Fails where memory runs out.
    pub fn build<L: Ledger>(
        alloc: Global,
        mut store: S,
        leaves: u32,
        steps: &mut Steps<L>,
    ) -> Result<ValueTree<S>, NoMemory>
        requires few { leaves ≤ 65536 }
        requires places { leaves ≤ S.slots store }
        requires there { AreThere (S.leaf_at store) (numbers_below leaves) }
        requires sound { S.sound (values_of_numbers (S.leaf_at store) (numbers_below leaves)) }
        ensures kept { IfOk result (λ tree. KeepsLeafValues S.join S.sound (S.leaf_at tree.store) (S.node_at tree.store) (S.slots tree.store) tree.shape) }
        ensures leaves { IfOk result (λ tree. leaf_values (S.leaf_at tree.store) tree.shape.tree ≡ values_of_numbers (S.leaf_at store) (numbers_below leaves)) }
        ensures steps { (each : ℕ) → Costs S.stands S.cost each (values_of_numbers (S.leaf_at store) (numbers_below leaves)) → steps.new ≤ steps.old + 3 * each * leaves }
    {
        let shape = Shape::build(alloc, leaves)?;
        let _len = shape.len();
        compose_all(&mut store, &shape, steps)?;
        Ok(ValueTree { shape, store })
    }

    /// The number of leaves.
    pub fn len(&self) -> u32
        ensures len { result ≡ leaf_count_of self.now.shape.tree }
        ensures few { result ≤ 65536 }
    {
        self.shape.len()
    }

    /// Whether there is a place for one more leaf and one more inner node.
    pub fn has_place(&self) -> bool
        ensures { (result ≡ true) ↔ HasLeafPlace (S.slots self.now.store) self.now.shape }
    {
        let places = self.store.places();
        let leaves = u64::from(self.shape.leaf_numbers());
        let inners = u64::from(self.shape.inner_numbers());
        self.shape.has_room() && leaves < places && inners < places
    }

    /// The root, if there is a leaf: what it has stands for all leaves.
    pub fn root(&self) -> Option<Child>
        requires kept { KeepsLeafValues S.join S.sound (S.leaf_at self.now.store) (S.node_at self.now.store) (S.slots self.now.store) self.now.shape }
        ensures none { IsNone result → leaf_values (S.leaf_at self.now.store) self.now.shape.tree ≡ [] }
        ensures stands { IfSome result (λ child. (v : S.Value) × (part (S.leaf_at self.now.store) (S.node_at self.now.store) child ≡ Some v) × S.stands (leaf_values (S.leaf_at self.now.store) self.now.shape.tree) v) }
    {
        self.shape.root()
    }

    /// The position of the leaf that has the offset, where each leaf counts so many, and the offset within it.
    pub fn find(&self, offset: u64) -> Option<(u32, u64)>
    where
        S: Counts,
        requires kept { KeepsLeafValues S.join S.sound (S.leaf_at self.now.store) (S.node_at self.now.store) (S.slots self.now.store) self.now.shape }
        ensures { result ≡ found_in S.count (leaf_values (S.leaf_at self.now.store) self.now.shape.tree) offset }
    {
        let _len = self.shape.len();
        let Some(root) = self.shape.root() else {
            return None;
        };
        if self.store.count_of(root) <= offset {
            return None;
        }
        let mut walk = LeafWalk {
            child: root,
            at: 0,
            left: offset,
        };
        for _i in 0..self.shape.height() {
            walk = step(&self.shape, &self.store, walk);
        }
        Some((walk.at, walk.left))
    }

    /// What the leaves before a position count.
    pub fn count_before(&self, at: u32) -> u64
    where
        S: Counts,
        requires kept { KeepsLeafValues S.join S.sound (S.leaf_at self.now.store) (S.node_at self.now.store) (S.slots self.now.store) self.now.shape }
        requires place { at ≤ leaf_count_of self.now.shape.tree }
        ensures { result ≡ total_count S.count (take at (leaf_values (S.leaf_at self.now.store) self.now.shape.tree)) }
    {
        let leaves = self.shape.len();
        let Some(root) = self.shape.root() else {
            return 0;
        };
        let all = self.store.count_of(root);
        if leaves <= at {
            return all;
        }
        let mut descent = Descent {
            child: root,
            at,
            before: 0,
        };
        for _i in 0..self.shape.height() {
            descent = descend(&self.shape, &self.store, descent);
        }
        descent.before
    }

    /// The children that lie whole before a position, from the first on, no more than one a level: what they have stands for the
    /// leaves there, one child after the other. Fails where memory runs out.
    pub fn parts_before(&self, alloc: Global, at: u32) -> Result<Vec<Child>, NoMemory>
        requires kept { KeepsLeafValues S.join S.sound (S.leaf_at self.now.store) (S.node_at self.now.store) (S.slots self.now.store) self.now.shape }
        requires place { at < leaf_count_of self.now.shape.tree }
        ensures stand { IfOk result (λ parts. StandFor S.stands (part (S.leaf_at self.now.store) (S.node_at self.now.store)) parts.items (take at (leaf_values (S.leaf_at self.now.store) self.now.shape.tree))) }
        ensures few { IfOk result (λ parts. length parts.items ≤ highest (leaf_count_of self.now.shape.tree)) }
    {
        parts_before(alloc, &self.shape, at)
    }

    /// The children that lie whole from one position to another, which isn't counted, from the first on, no more than two a level:
    /// what they have stands for the leaves there, one child after the other. Fails where memory runs out.
    pub fn parts_between(&self, alloc: Global, from: u32, to: u32) -> Result<Vec<Child>, NoMemory>
        requires kept { KeepsLeafValues S.join S.sound (S.leaf_at self.now.store) (S.node_at self.now.store) (S.slots self.now.store) self.now.shape }
        requires place { to ≤ leaf_count_of self.now.shape.tree }
        ensures stand { IfOk result (λ parts. StandFor S.stands (part (S.leaf_at self.now.store) (S.node_at self.now.store)) parts.items (slice_range (leaf_values (S.leaf_at self.now.store) self.now.shape.tree) from to)) }
        ensures few { IfOk result (λ parts. length parts.items ≤ 2 * highest (leaf_count_of self.now.shape.tree) + 1) }
    {
        parts_between(alloc, &self.shape, from, to)
    }

    /// The number of the leaf at a position.
    pub fn leaf(&self, at: u32) -> u32
        requires kept { KeepsLeafValues S.join S.sound (S.leaf_at self.now.store) (S.node_at self.now.store) (S.slots self.now.store) self.now.shape }
        requires place { at < leaf_count_of self.now.shape.tree }
        ensures { (v : S.Value) × (S.leaf_at self.now.store result ≡ Some v) × (slice_get (leaf_values (S.leaf_at self.now.store) self.now.shape.tree) at ≡ Some v) }
    {
        self.shape.leaf(at)
    }

    /// The values, by the numbers of leaves and inner nodes.
    pub fn store(&self) -> &S
        ensures { result.now ≡ self.now.store }
    {
        &self.store
    }
}
