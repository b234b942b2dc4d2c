//! The spans of one class.
ghost use Rattle.std.specs.Prelude.{◌≡◌, ◌+◌, ◌-◌, ◌<◌, ◌≤◌, [], OnOk, OnErr, IsOk, IfSome, IsNone, vec_len, vec_capacity, ◌↔◌};
ghost use Rattle.std.specs.List.{All};
ghost use Rattle.span_pool.specs.Shelf.{ShelfView};

use knit_base::NoMemory;
use std::alloc::Global;
use std::marker::Model;

/// The spans of one class: the spare ones, and how many are out. Each is a vector that has the room of the class, and there is
/// room to put back all that is out.
#[derive(Drop)]
pub(crate) struct Shelf<T> {
    spare: Vec<Vec<T>>,
    out: usize,
    room: usize,
}

impl<T> Model for Shelf<T> {
    ghost use Rattle.std.specs.Prelude.{vec_len};
    ghost use Rattle.span_pool.specs.Shelf.{ShelfView, IsShelf};

    ghost Value = { ShelfView };

    ghost view = { λ s. record { spare = vec_len s.spare; out = s.out; room = s.room } };

    ghost invariant = { λ s. IsShelf s.spare s.out s.room };
}

// Adds empty lists of this room until there are so many, or none where memory runs out.
fn add_lists<T: Copy>(
    alloc: Global,
    lists: &mut Vec<Vec<T>>,
    wanted: usize,
    room: usize,
) -> Result<(), NoMemory>
    requires more { vec_len lists.old ≤ wanted }
    requires places { wanted ≤ vec_capacity lists.old }
    requires roomy { All (λ v. room ≤ vec_capacity v) lists.old.items }
    ensures roomy { All (λ v. room ≤ vec_capacity v) lists.new.items }
    ensures places { vec_capacity lists.new ≡ vec_capacity lists.old }
    ensures ok { OnOk result (vec_len lists.new ≡ wanted) }
    ensures err { OnErr result (vec_len lists.new ≡ vec_len lists.old) }
{
    let before = lists.len();
    'adding: while lists.len() < wanted {
        match Vec::with_capacity(alloc, room) {
            Ok(list) => lists.push_reserved(list),
            Err(_) => {
                lists.truncate(before);
                return Err(NoMemory);
            }
        }
    }
    Ok(())
}

// The list without its items, and with its room.
fn emptied<T: Copy>(mut list: Vec<T>) -> Vec<T>
    ensures items { result.items ≡ [] }
    ensures room { vec_capacity result ≡ vec_capacity list }
{
    list.clear();
    list
}

impl<T: Copy> Shelf<T> {
    /// A shelf without spans, which takes no memory.
    pub fn new(alloc: Global, room: usize) -> Self
        ensures { result ≡ record { spare = 0; out = 0; room = room } }
    {
        Shelf {
            spare: Vec::new(alloc),
            out: 0,
            room,
        }
    }

    pub fn spare(&self) -> u32
        ensures { result ≡ self.now.spare }
    {
        self.spare.len() as u32
    }

    /// Makes at least so many spans spare. A shelf has fewer than 2 to the power 32 spans; more of them are want of memory.
    pub fn reserve(&mut self, alloc: Global, n: u32) -> Result<(), NoMemory>
        ensures ok { OnOk result (n ≤ self.new.spare) }
        ensures met { n ≤ self.old.spare → IsOk result }
        ensures kept { self.old.spare ≤ self.new.spare }
        ensures out { self.new.out ≡ self.old.out }
        ensures room { self.new.room ≡ self.old.room }
        ensures err { OnErr result (self.new ≡ self.old) }
    {
        let spare = self.spare.len();
        let wanted = n as usize;
        if wanted <= spare {
            return Ok(());
        }
        let all = self.out + wanted;
        if all > u32::MAX as usize {
            return Err(NoMemory);
        }
        self.spare.reserve(all - spare)?;
        add_lists(alloc, &mut self.spare, wanted, self.room)
    }

    /// An empty list with the room of the class, or none where nothing is spare.
    pub fn take(&mut self) -> Option<Vec<T>>
        ensures refused { IsNone result ↔ (self.old.spare ≡ 0) }
        ensures none { IsNone result → self.new ≡ self.old }
        ensures empty { IfSome result (λ list. list.items ≡ []) }
        ensures roomy { IfSome result (λ list. self.old.room ≤ vec_capacity list) }
        ensures spare { IfSome result (λ _. self.new.spare + 1 ≡ self.old.spare) }
        ensures out { IfSome result (λ _. self.new.out ≡ self.old.out + 1) }
        ensures room { self.new.room ≡ self.old.room }
    {
        match self.spare.pop() {
            None => None,
            Some(list) => {
                self.out += 1;
                Some(emptied(list))
            }
        }
    }

    /// Puts back a list that was out.
    pub fn give(&mut self, list: Vec<T>)
        requires out { 1 ≤ self.old.out }
        requires roomy { self.old.room ≤ vec_capacity list }
        ensures spare { self.new.spare ≡ self.old.spare + 1 }
        ensures out { self.new.out + 1 ≡ self.old.out }
        ensures room { self.new.room ≡ self.old.room }
    {
        self.spare.push_reserved(list);
        self.out -= 1;
    }
}
