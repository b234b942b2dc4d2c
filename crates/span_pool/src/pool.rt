//! The pool: one shelf for each class.
ghost use Rattle.std.specs.Prelude.{◌≡◌, ℕ, ◌<◌, ◌≤◌, ◌^◌, ◌↔◌, [], OnOk, OnErr, IfOk, IsOk, IsErr, vec_len};
ghost use Rattle.span_pool.specs.Class.{IsClassOf};
ghost use Rattle.span_pool.specs.Pool.{PoolView, spare_of, out_of, KeepsOthers, OneFewer, OneMore, AreBare};

use crate::class::{CLASSES, class_of, room_of};
use crate::shelf::Shelf;
use crate::span::Span;
use knit_base::NoMemory;
use std::alloc::Global;
use std::marker::Model;

/// Nothing of the class is spare.
#[derive(Clone, Copy, Debug, PartialEq, Eq)]
pub struct NoSpare;

/// Spare memory in classes of spans: a span of class `k` has room for 2 to the power `k` items, `k` from 0 to 62.
///
/// Only `reserve` takes memory. A span that is dropped in place of being given back stays out.
#[derive(Drop)]
pub struct Pool<T> {
    shelves: Vec<Shelf<T>>,
}

impl<T> Model for Pool<T> {
    ghost use Rattle.span_pool.specs.Pool.{PoolView, IsPool};

    ghost Value = { PoolView };

    ghost view = { λ p. p.shelves.items };

    ghost invariant = { λ p. IsPool p.shelves.items };
}

// A shelf for each class, without spans.
fn all_shelves<T: Copy>(alloc: Global) -> Result<Vec<Shelf<T>>, NoMemory>
    ensures classes { IfOk result (λ shelves. vec_len shelves ≡ 63) }
    ensures bare { IfOk result (λ shelves. AreBare shelves.items) }
{
    let mut shelves = Vec::with_capacity(alloc, CLASSES as usize)?;
    for class in 0..CLASSES {
        shelves.push_reserved(Shelf::new(alloc, room_of(class)));
    }
    Ok(shelves)
}

impl<T: Copy> Pool<T> {
    /// A pool without spans, which takes no memory.
    pub fn new(alloc: Global) -> Self
        ensures none_spare { (class : ℕ) → spare_of result class ≡ 0 }
        ensures none_out { (class : ℕ) → out_of result class ≡ 0 }
    {
        Pool {
            shelves: Vec::new(alloc),
        }
    }

    /// Makes at least `n` spans of the class spare. Where so many are spare already, it takes no memory and is `Ok`. A class has
    /// fewer than 2 to the power 32 spans; more of them are want of memory.
    pub fn reserve(&mut self, class: u8, n: u32) -> Result<(), NoMemory>
        requires { class ≤ 62 }
        ensures ok { OnOk result (n ≤ spare_of self.new class) }
        ensures met { n ≤ spare_of self.old class → IsOk result }
        ensures never_lower { spare_of self.old class ≤ spare_of self.new class }
        ensures other_classes { KeepsOthers (spare_of self.old) (spare_of self.new) class }
        ensures out { (class : ℕ) → out_of self.new class ≡ out_of self.old class }
        ensures err { OnErr result (self.new ≡ self.old) }
    {
        if n <= self.spare(class) {
            return Ok(());
        }
        self.add_spare(class, n)
    }

    // Reserves where fewer are spare. The first call makes a shelf for each class.
    fn add_spare(&mut self, class: u8, n: u32) -> Result<(), NoMemory>
        requires { class ≤ 62 }
        ensures ok { OnOk result (n ≤ spare_of self.new class) }
        ensures never_lower { spare_of self.old class ≤ spare_of self.new class }
        ensures other_classes { KeepsOthers (spare_of self.old) (spare_of self.new) class }
        ensures out { (class : ℕ) → out_of self.new class ≡ out_of self.old class }
        ensures err { OnErr result (self.new ≡ self.old) }
    {
        let alloc = *self.shelves.allocator();
        let class = class as usize;
        if self.shelves.is_empty() {
            let mut shelves = all_shelves(alloc)?;
            shelves[class].reserve(alloc, n)?;
            self.shelves = shelves;
            return Ok(());
        }
        self.shelves[class].reserve(alloc, n)
    }

    /// How many spans of the class are spare.
    pub fn spare(&self, class: u8) -> u32
        ensures { result ≡ spare_of self.now class }
    {
        if class as usize >= self.shelves.len() {
            return 0;
        }
        self.shelves[class as usize].spare()
    }

    /// An empty span with room for `len` items. It takes constant time and no memory.
    ///
    /// Answers `NoSpare` exactly where no span of the class of `len` is spare, even where a larger class has one.
    pub fn take(&mut self, len: u64) -> Result<Span<T>, NoSpare>
        requires { len ≤ 2 ^ 62 }
        ensures refused { (class : ℕ) → IsClassOf len class → (IsErr result ↔ (spare_of self.old class ≡ 0)) }
        ensures class { IfOk result (λ span. IsClassOf len span.class) }
        ensures empty { IfOk result (λ span. span.items ≡ []) }
        ensures spare { IfOk result (λ span. OneFewer (spare_of self.old) (spare_of self.new) span.class) }
        ensures out { IfOk result (λ span. OneMore (out_of self.old) (out_of self.new) span.class) }
        ensures err { OnErr result (self.new ≡ self.old) }
    {
        let class = class_of(len);
        if class as usize >= self.shelves.len() {
            return Err(NoSpare);
        }
        let Some(list) = self.shelves[class as usize].take() else {
            return Err(NoSpare);
        };
        Ok(Span { list, class })
    }

    /// Takes a span back, whose room is spare again. It takes constant time and no memory.
    pub fn give(&mut self, span: Span<T>)
        requires out { 1 ≤ out_of self.old span.class }
        ensures spare { OneMore (spare_of self.old) (spare_of self.new) span.class }
        ensures out { OneFewer (out_of self.old) (out_of self.new) span.class }
    {
        let Span { list, class } = span;
        self.shelves[class as usize].give(list);
    }
}
