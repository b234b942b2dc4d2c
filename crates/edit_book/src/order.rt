//! The order of blocks.
ghost use Rattle.std.specs.Prelude.{◌≡◌, ◌≢◌, ℕ, ◌+◌, ◌<◌, ◌≤◌, true, length, position, slice_get, Some, None, IfOk, OnOk};
ghost use Rattle.std.specs.List.{insert, remove};
ghost use Rattle.tree_shape.specs.Changes.{numbers_below};
ghost use Rattle.edit_book.specs.Books.{Each};
ghost use Rattle.edit_book.specs.Orders.{is_id, number_at};

use knit_base::NoMemory;
use std::alloc::Global;
use std::marker::Model;
use tree_shape::{Dirty, Shape};

/// The ids of the blocks that are there, in their order, which is that of the leaves of a tree. Beside it stand the id of each leaf,
/// by its number, and the number of the leaf of each id that is there, so that an id is found, put in and taken out along one path.
#[derive(Drop)]
pub(crate) struct Order {
    shape: Shape,
    ids: Vec<Option<u32>>,
    leaves: Vec<Option<u32>>,
}

impl Model for Order {
    ghost use Rattle.tree_shape.specs.View.{leaves_of_tree};
    ghost use Rattle.edit_book.specs.Orders.{LeavesHaveIds, OrderView, number_at, order_view};

    ghost Value = { OrderView };

    ghost view = { λ o. order_view o.shape o.ids.items o.leaves.items };

    ghost invariant = { λ o. LeavesHaveIds (leaves_of_tree o.shape.tree) (number_at o.ids.items) (number_at o.leaves.items) };
}

impl Order {
    /// The ids of so many blocks, from 0 on.
    pub fn start(alloc: Global, count: u32) -> Result<Self, NoMemory>
        requires { count ≤ 65536 }
        ensures { IfOk result (λ order. order.ids ≡ numbers_below count) }
    {
        let shape = Shape::build(alloc, count)?;
        let ids = all_below(alloc, count)?;
        let leaves = all_below(alloc, count)?;
        Ok(Order { shape, ids, leaves })
    }

    pub fn len(&self) -> u32
        ensures { result ≡ length self.now.ids }
    {
        self.shape.len()
    }

    /// An order of the same ids. Fails where memory runs out.
    pub fn try_clone(&self) -> Result<Self, NoMemory>
        ensures { IfOk result (λ order. order.ids ≡ self.now.ids) }
    {
        let shape = Shape::build(*self.ids.allocator(), self.shape.len())?;
        let ids = self.ids_by_place()?;
        let leaves = self.places_by_id()?;
        Ok(Order { shape, ids, leaves })
    }

    // A table of the ids by their places.
    fn ids_by_place(&self) -> Result<Vec<Option<u32>>, NoMemory>
        ensures { IfOk result (λ table. (k : ℕ) → number_at table.items k ≡ slice_get self.now.ids k) }
    {
        let mut table = Vec::with_capacity(*self.ids.allocator(), self.len() as usize)?;
        for at in 0..self.len() {
            table.push(self.get(at))?;
        }
        Ok(table)
    }

    // A table of the places by the ids.
    fn places_by_id(&self) -> Result<Vec<Option<u32>>, NoMemory>
        ensures { IfOk result (λ table. (id : ℕ) → number_at table.items id ≡ position (is_id id) self.now.ids) }
    {
        let mut table = Vec::with_capacity(*self.leaves.allocator(), self.leaves.len())?;
        for id in 0..self.leaves.len() {
            table.push(self.place(id))?;
        }
        Ok(table)
    }

    /// The place of the block with this id.
    pub fn position(&self, id: u32) -> Option<usize>
        ensures { result ≡ position (is_id id) self.now.ids }
    {
        match self.place(id as usize) {
            Some(at) => Some(at as usize),
            None => None,
        }
    }

    // The same of any number.
    fn place(&self, id: usize) -> Option<u32>
        ensures { result ≡ position (is_id id) self.now.ids }
    {
        let _len = self.shape.len();
        match found(self.leaves.as_slice(), id) {
            Some(leaf) => Some(self.shape.position(leaf)),
            None => None,
        }
    }

    /// The id at a place.
    pub fn get(&self, at: u32) -> Option<u32>
        ensures { result ≡ slice_get self.now.ids at }
    {
        if at < self.shape.len() {
            return found(self.ids.as_slice(), self.shape.leaf(at) as usize);
        }
        None
    }

    /// Makes room for one more id, which is this one.
    pub fn reserve_one(&mut self, id: u32) -> Result<(), NoMemory>
        ensures ok { OnOk result (self.new.room ≡ true) }
        ensures place { OnOk result (id < self.new.places) }
        ensures ids { self.new.ids ≡ self.old.ids }
    {
        self.shape.reserve_one()?;
        lengthen(&mut self.ids, self.shape.leaf_numbers())?;
        lengthen(&mut self.leaves, id)
    }

    /// Puts an id at a place, before the one that was there. It is greater than each that is there. Takes no memory.
    pub fn insert(&mut self, at: usize, id: u32)
        requires room { self.old.room ≡ true }
        requires table { id < self.old.places }
        requires few { length self.old.ids < 65536 }
        requires place { at ≤ length self.old.ids }
        requires beyond { Each (λ other. other < id) self.old.ids }
        ensures { self.new.ids ≡ insert self.old.ids at id }
    {
        let _len = self.shape.len();
        let leaf = self.shape.insert(at as u32, &mut Dirty::new());
        set(&mut self.ids, leaf, Some(id));
        set(&mut self.leaves, id, Some(leaf));
    }

    /// Takes out the id at a place.
    pub fn remove(&mut self, at: usize)
        requires { at < length self.old.ids }
        ensures { self.new.ids ≡ remove self.old.ids at }
    {
        let _len = self.shape.len();
        let leaf = self.shape.remove(at as u32, &mut Dirty::new());
        if let Some(id) = found(self.ids.as_slice(), leaf as usize) {
            set(&mut self.leaves, id, None);
        }
    }
}

// A table that has each number at its own place.
fn all_below(alloc: Global, count: u32) -> Result<Vec<Option<u32>>, NoMemory>
    ensures within { IfOk result (λ table. (k : ℕ) → k < count → number_at table.items k ≡ Some k) }
    ensures past { IfOk result (λ table. (k : ℕ) → count ≤ k → number_at table.items k ≡ None) }
{
    let mut table = Vec::with_capacity(alloc, count as usize)?;
    for n in 0..count {
        table.push(Some(n))?;
    }
    Ok(table)
}

// What a table has for a number, if anything.
fn found(table: &[Option<u32>], at: usize) -> Option<u32>
    ensures { result ≡ number_at table.now at }
{
    match table.get(at) {
        Some(slot) => *slot,
        None => None,
    }
}

fn set(table: &mut Vec<Option<u32>>, at: u32, value: Option<u32>)
    requires { at < length table.old.items }
    ensures here { number_at table.new.items at ≡ value }
    ensures others { (k : ℕ) → k ≢ at → number_at table.new.items k ≡ number_at table.old.items k }
    ensures len { length table.new.items ≡ length table.old.items }
{
    table[at as usize] = value;
}

// Makes a place for a number.
fn lengthen(table: &mut Vec<Option<u32>>, number: u32) -> Result<(), NoMemory>
    ensures ok { OnOk result (number < length table.new.items) }
    ensures same { (k : ℕ) → number_at table.new.items k ≡ number_at table.old.items k }
{
    let many = number as usize + 1;
    if table.len() < many {
        table.resize(many, None)?;
    }
    Ok(())
}
