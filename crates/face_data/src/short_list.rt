//! Lists that are mostly short.
ghost use Rattle.std.specs.Prelude.{◌≡◌, ◌==◌, ◌+◌, ◌<◌, ◌≤◌, ◌^◌, ◌-◌, [], ◌∷◌, ◌++◌, length, OnOk, OnErr, IfOk, IsOk, slice_get};
ghost use Rattle.std.specs.Option.{option_copied};

use crate::storage::Storage;
use knit_base::NoMemory;
use std::alloc::Global;
use std::marker::Model;

/// A list that grows at its end, whose first two items lie in the value itself and take no other memory. It has fewer than
/// 2 ^ 32 items, so that a `u32` counts them.
#[derive(Drop)]
pub struct ShortList<T> {
    alloc: Global,
    storage: Storage<T>,
}

impl<T> Model for ShortList<T> {
    ghost use Rattle.std.specs.Prelude.{List, ◌<◌, ◌^◌, length};
    ghost use Rattle.face_data.specs.Storage.{items_in, IsCompactStorage};

    ghost Value = { List T };

    ghost view = { λ l. items_in l.storage };

    ghost invariant = { λ l. (length (items_in l.storage) < 2 ^ 32) × IsCompactStorage l.storage };
}

impl<T: Drop> ShortList<T> {
    /// The empty list, which takes no memory.
    pub fn new(alloc: Global) -> Self
        ensures { result ≡ [] }
    {
        ShortList {
            alloc,
            storage: Storage::Nothing,
        }
    }

    /// The list of this item alone, which takes no memory.
    pub fn one(alloc: Global, item: T) -> Self
        ensures { result ≡ item ∷ [] }
    {
        ShortList {
            alloc,
            storage: Storage::One([item]),
        }
    }

    /// The list of these two items, which takes no memory.
    pub fn two(alloc: Global, first: T, second: T) -> Self
        ensures { result ≡ first ∷ second ∷ [] }
    {
        ShortList {
            alloc,
            storage: Storage::Two([first, second]),
        }
    }

    /// Appends an item. The first two take no memory; after `NoMemory` the list is as before.
    pub fn push(&mut self, item: T) -> Result<(), NoMemory>
        requires { length self.old < 2 ^ 32 - 1 }
        ensures ok { OnOk result (self.new ≡ self.old ++ item ∷ []) }
        ensures err { OnErr result (self.new ≡ self.old) }
        ensures in_place { length self.old < 2 → IsOk result }
    {
        let alloc = self.alloc;
        self.storage.push(alloc, item)
    }

    /// How many items there are.
    pub fn len(&self) -> u32
        ensures { result ≡ length self.now }
    {
        self.as_slice().len() as u32
    }

    /// Whether there is none.
    pub fn is_empty(&self) -> bool
        ensures { result ≡ (length self.now == 0) }
    {
        self.as_slice().is_empty()
    }

    /// The item at this place, from 0.
    pub fn get(&self, i: u32) -> Option<&T>
        ensures { option_copied result ≡ slice_get self.now i }
    {
        self.as_slice().get(i as usize)
    }

    /// The items, of which there are fewer than 2 ^ 32.
    pub fn as_slice(&self) -> &[T]
        ensures items { result.now ≡ self.now }
        ensures small { length self.now < 2 ^ 32 }
    {
        self.storage.as_slice()
    }
}

impl<T: Copy + Drop> ShortList<T> {
    /// Appends a copy of each item. Up to two in all take no memory; after `NoMemory` the list is as before.
    pub fn extend_from_slice(&mut self, more: &[T]) -> Result<(), NoMemory>
        requires { length self.old + length more.now < 2 ^ 32 }
        ensures ok { OnOk result (self.new ≡ self.old ++ more.now) }
        ensures err { OnErr result (self.new ≡ self.old) }
        ensures in_place { length self.old + length more.now ≤ 2 → IsOk result }
    {
        let alloc = self.alloc;
        self.storage.extend_from_slice(alloc, more)
    }

    /// An equal list. Of up to two items it takes no memory, of more as much as they need.
    pub fn try_clone(&self) -> Result<Self, NoMemory>
        ensures ok { IfOk result (λ list. list ≡ self.now) }
        ensures in_place { length self.now ≤ 2 → IsOk result }
    {
        let mut list = ShortList::new(self.alloc);
        list.extend_from_slice(self.as_slice())?;
        Ok(list)
    }
}
