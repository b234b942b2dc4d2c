//! Where the items of a short list lie.
ghost use Rattle.std.specs.Prelude.{◌≡◌, ◌+◌, ◌<◌, ◌^◌, ◌≤◌, [], ◌∷◌, ◌++◌, length, vec_capacity, OnOk, OnErr, IfOk, IsOk};
ghost use Rattle.face_data.specs.Storage.{items_in, IsCompactStorage, IsFew};

use knit_base::NoMemory;
use std::alloc::Global;
use std::mem;

/// Up to two items lie in the value itself, more of them in a vector, to which it has a pointer: so lists of two segments are small, of which
/// each loop of a block has one.
#[derive(Drop)]
pub enum Storage<T> {
    Nothing,
    One([T; 1]),
    Two([T; 2]),
    Many(Box<Vec<T>>),
}

impl<T: Drop> Storage<T> {
    /// The items in their order.
    pub fn as_slice(&self) -> &[T]
        ensures { result.now ≡ items_in self.now }
    {
        match self {
            Storage::Nothing => &[],
            Storage::One(items) => items,
            Storage::Two(items) => items,
            Storage::Many(items) => items.as_slice(),
        }
    }

    /// Appends an item.
    pub fn push(&mut self, alloc: Global, item: T) -> Result<(), NoMemory>
        requires { IsCompactStorage self.old }
        ensures ok { OnOk result (items_in self.new ≡ items_in self.old ++ item ∷ []) }
        ensures near { IsCompactStorage self.new }
        ensures err { OnErr result (items_in self.new ≡ items_in self.old) }
        ensures in_place { length (items_in self.old) < 2 → IsOk result }
    {
        if let Storage::Many(items) = self {
            items.push(item)?;
            return Ok(());
        }
        if self.as_slice().len() < 2 {
            let few = mem::replace(self, Storage::Nothing);
            *self = few.joined(item);
            return Ok(());
        }
        let room = Box::new(alloc, Vec::with_capacity(alloc, 4)?)?;
        let few = mem::replace(self, Storage::Nothing);
        *self = few.moved(item, room);
        Ok(())
    }

    // The items, and this one behind them, in the value itself.
    fn joined(self, item: T) -> Self
        requires few { IsFew self }
        requires room { length (items_in self) < 2 }
        ensures items { items_in result ≡ items_in self ++ item ∷ [] }
        ensures few { IsFew result }
        ensures near { IsCompactStorage result }
    {
        match self {
            Storage::Nothing => Storage::One([item]),
            Storage::One([a]) => Storage::Two([a, item]),
            Storage::Two(two) => Storage::Two(two),
            Storage::Many(many) => Storage::Many(many),
        }
    }

    // The two items, and this one behind them, in this vector.
    fn moved(self, item: T, room: Box<Vec<T>>) -> Self
        requires few { IsFew self }
        requires two { length (items_in self) ≡ 2 }
        requires empty { room.value.items ≡ [] }
        requires room { 3 ≤ vec_capacity room.value }
        ensures items { items_in result ≡ items_in self ++ item ∷ [] }
        ensures near { IsCompactStorage result }
    {
        match self {
            Storage::Nothing => Storage::Nothing,
            Storage::One(one) => Storage::One(one),
            Storage::Two(two) => Storage::Many(all_of(two, item, room)),
            Storage::Many(many) => Storage::Many(many),
        }
    }
}

impl<T: Copy + Drop> Storage<T> {
    /// Appends a copy of each item.
    pub fn extend_from_slice(&mut self, alloc: Global, more: &[T]) -> Result<(), NoMemory>
        requires near { IsCompactStorage self.old }
        requires sizes { length (items_in self.old) + length more.now < 2 ^ 32 }
        ensures ok { OnOk result (items_in self.new ≡ items_in self.old ++ more.now) }
        ensures near { IsCompactStorage self.new }
        ensures err { OnErr result (items_in self.new ≡ items_in self.old) }
        ensures in_place { length (items_in self.old) + length more.now ≤ 2 → IsOk result }
    {
        if let Storage::Many(items) = self {
            items.extend_from_slice(more)?;
            return Ok(());
        }
        if self.as_slice().len() + more.len() <= 2 {
            let few = mem::replace(self, Storage::Nothing);
            *self = few.with_each(more);
            return Ok(());
        }
        let mut all = Vec::with_capacity(alloc, self.as_slice().len() + more.len())?;
        all.extend_from_slice(self.as_slice())?;
        all.extend_from_slice(more)?;
        *self = Storage::Many(Box::new(alloc, all)?);
        Ok(())
    }

    // The items, and a copy of each of these behind them, in the value itself.
    fn with_each(self, more: &[T]) -> Self
        requires few { IsFew self }
        requires room { length (items_in self) + length more.now ≤ 2 }
        ensures items { items_in result ≡ items_in self ++ more.now }
        ensures near { IsCompactStorage result }
    {
        let mut storage = self;
        for item in more {
            storage = storage.joined(*item);
        }
        storage
    }
}

// The two items and the third, in this vector.
fn all_of<T: Drop>(two: [T; 2], item: T, room: Box<Vec<T>>) -> Box<Vec<T>>
    requires empty { room.value.items ≡ [] }
    requires room { 3 ≤ vec_capacity room.value }
    ensures { result.value.items ≡ two ++ item ∷ [] }
{
    let [a, b] = two;
    let mut all = room;
    all.push_reserved(a);
    all.push_reserved(b);
    all.push_reserved(item);
    all
}
