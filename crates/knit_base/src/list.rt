//! The list that the list types of the project are made of.
ghost use Rattle.std.specs.Prelude.{◌≡◌, ◌==◌, ◌+◌, ◌<◌, ◌^◌, ◌-◌, [], ◌∷◌, ◌++◌, length, OnOk, OnErr, IfOk, IsOk, IsSome, IfSome, IfNone, slice_get};
ghost use Rattle.std.specs.Option.{option_copied};

use crate::NoMemory;
use std::alloc::Global;
use std::marker::Model;

/// A list that grows at its end. It has fewer than 2 ^ 32 items, so that a `u32` counts them.
#[derive(Drop)]
pub struct ListOf<T> {
    items: Vec<T>,
}

impl<T> Model for ListOf<T> {
    ghost use Rattle.std.specs.Prelude.{List, ◌<◌, ◌^◌, length};

    ghost Value = { List T };

    ghost view = { λ l. l.items.items };

    ghost invariant = { λ l. length l.items.items < 2 ^ 32 };
}

impl<T: Drop> ListOf<T> {
    /// The empty list, which takes no memory.
    pub fn new(alloc: Global) -> Self
        ensures { result ≡ [] }
    {
        ListOf {
            items: Vec::new(alloc),
        }
    }

    /// The empty list. Memory for so many items is asked for at once, of which contracts don't speak.
    pub fn with_capacity(alloc: Global, room: u32) -> Result<Self, NoMemory>
        ensures { IfOk result (λ list. list ≡ []) }
    {
        let items = Vec::with_capacity(alloc, room as usize)?;
        Ok(ListOf { items })
    }

    /// Appends an item.
    pub fn push(&mut self, item: T) -> Result<(), NoMemory>
        requires { length self.old < 2 ^ 32 - 1 }
        ensures ok { OnOk result (self.new ≡ self.old ++ item ∷ []) }
        ensures err { OnErr result (self.new ≡ self.old) }
    {
        self.items.push(item)?;
        Ok(())
    }

    /// Holds this item alone. A list that has items has room for it; after `NoMemory` the list is as before.
    #[inline(always)]
    pub fn set_only(&mut self, item: T) -> Result<(), NoMemory>
        ensures ok { OnOk result (self.new ≡ item ∷ []) }
        ensures err { OnErr result (self.new ≡ self.old) }
        ensures in_place { 0 < length self.old → IsOk result }
    {
        if self.items.is_empty() {
            self.items.push(item)?;
            return Ok(());
        }
        self.items.truncate(1);
        self.items[0] = item;
        Ok(())
    }

    /// Takes the last item off, if there is one.
    pub fn pop(&mut self) -> Option<T>
        ensures last { IfSome result (λ item. self.old ≡ self.new ++ item ∷ []) }
        ensures none { IfNone result (self.new ≡ self.old) }
        ensures some { 0 < length self.old → IsSome result }
    {
        self.items.pop()
    }

    /// Drops all items, and keeps their room.
    pub fn clear(&mut self)
        ensures { self.new ≡ [] }
    {
        self.items.clear();
    }

    pub fn len(&self) -> u32
        ensures { result ≡ length self.now }
    {
        self.items.len() as u32
    }

    pub fn is_empty(&self) -> bool
        ensures { result ≡ (length self.now == 0) }
    {
        self.items.is_empty()
    }

    /// The item at this place, from 0.
    pub fn get(&self, i: u32) -> Option<&T>
        ensures { option_copied result ≡ slice_get self.now i }
    {
        self.items.get(i as usize)
    }

    /// The list of these items.
    pub fn of(items: Vec<T>) -> Self
        requires { length items.items < 2 ^ 32 }
        ensures { result ≡ items.items }
    {
        ListOf { items }
    }

    /// The items, in a vector.
    pub fn into_vec(self) -> Vec<T>
        ensures items { result.items ≡ self }
        ensures small { length self < 2 ^ 32 }
    {
        self.items
    }

    pub fn as_slice(&self) -> &[T]
        ensures items { result.now ≡ self.now }
        ensures small { length self.now < 2 ^ 32 }
    {
        &self.items
    }
}

impl<T: Copy + Drop> ListOf<T> {
    /// Appends a copy of each item.
    pub fn extend_from_slice(&mut self, more: &[T]) -> Result<(), NoMemory>
        requires { length self.old + length more.now < 2 ^ 32 }
        ensures ok { OnOk result (self.new ≡ self.old ++ more.now) }
        ensures err { OnErr result (self.new ≡ self.old) }
    {
        self.items.extend_from_slice(more)?;
        Ok(())
    }
}
