//! What the needles hold after some lines of a block.
ghost use Rattle.std.specs.Prelude.{◌≡◌, ◌+◌, ◌≤◌, ◌<◌, [], ◌∷◌, ◌++◌, Some, None, IfOk, IfErr, OnOk, OnErr, length, take, drop, if◌then◌else◌};
ghost use Rattle.std.specs.Option.{option_copied};
ghost use Rattle.knit_base.specs.declared.needle.Needle.{Needle};
ghost use Rattle.knit_base.specs.Needle.{same_needle};
ghost use Rattle.face_data.specs.declared.face.Seg.TheVariants.{Entry};
ghost use Rattle.face_data.specs.Composition.{changes_merged};
ghost use Rattle.face_data.specs.Goodness.{IsInOrder};
ghost use Rattle.face_data.specs.Places.{ChangeStandsAt, GoesAt};
ghost use Rattle.face_data.specs.Segments.{change_at, segments_on};

use crate::{Seg, Segs, ShortList};
use knit_base::{Needle, NoMemory, needle_order};
use std::alloc::Global;
use std::cmp::Ordering;
use std::marker::Model;
use std::mem;

/// Needles, each with the segments that it holds.
pub type SymbolList = ShortList<(Needle, Segs)>;

/// The needles that were touched, in the order of needles, each with the segments that it holds. A needle that wasn't touched
/// holds its own entry.
///
/// A needle is looked for first where the last one of its slot was found. `places` has a guess for each slot; a wrong one costs
/// a search.
#[derive(Drop)]
pub struct Symbols {
    held: Vec<(Needle, Segs)>,
    places: [u16; 64],
}

impl Model for Symbols {
    ghost use Rattle.std.specs.Prelude.{List};
    ghost use Rattle.knit_base.specs.declared.needle.Needle.{Needle};
    ghost use Rattle.face_data.specs.declared.face.Seg.{Seg};
    ghost use Rattle.face_data.specs.Goodness.{IsInOrder};

    ghost Value = { List (Needle × List Seg) };

    ghost view = { λ s. s.held.items };

    ghost invariant = { λ s. IsInOrder s.held.items };
}

impl Symbols {
    /// No needle was touched. Takes no memory.
    pub fn new(alloc: Global) -> Self
        ensures { result ≡ [] }
    {
        Symbols {
            held: Vec::new(alloc),
            places: [0; 64],
        }
    }

    /// The segments of the needle, `None` exactly where it wasn't touched.
    pub fn of(&self, n: Needle) -> Option<&Segs>
        ensures { option_copied result ≡ change_at self.now n }
    {
        match find(&self.held, self.places[slot_of(n)], n) {
            Ok(i) => Some(&self.held[i].1),
            Err(_) => None,
        }
    }

    /// Appends the segments that the needle holds: its own entry where it wasn't touched. A list that would pass what a `u32`
    /// counts is refused as want of memory.
    pub fn append_segs(&self, n: Needle, segs: &mut Segs) -> Result<(), NoMemory>
        ensures ok { OnOk result (segs.new ≡ segs.old ++ segments_on self.now n) }
        ensures err { OnErr result (segs.new ≡ segs.old) }
    {
        append(self.on(n, &[Seg::Entry(n)]), segs)
    }

    /// The segments that two needles hold, the second one's behind the first one's. A list that would pass what a `u32` counts is refused as
    /// want of memory; one of each needs no memory.
    pub fn segs_on_both(&self, first: Needle, second: Needle) -> Result<Segs, NoMemory>
        ensures { IfOk result (λ segs. segs ≡ segments_on self.now first ++ segments_on self.now second) }
    {
        let own = [Seg::Entry(first)];
        let own_second = [Seg::Entry(second)];
        let front = self.on(first, &own);
        let behind = self.on(second, &own_second);
        joined(*self.held.allocator(), front, behind)
    }

    // The segments that the needle holds, of which this is the entry.
    fn on<'a>(&'a self, n: Needle, entry: &'a [Seg; 1]) -> &'a [Seg]
        requires { entry.now ≡ Entry n ∷ [] }
        ensures { result.now ≡ segments_on self.now n }
    {
        match self.of(n) {
            Some(held) => held.as_slice(),
            None => entry,
        }
    }

    /// Gives the needle these segments, and answers with those that it held, where it was touched. After `NoMemory` all is as
    /// before; a needle that was touched needs none.
    #[inline(always)]
    pub fn swap(&mut self, n: Needle, segs: Segs) -> Result<Option<Segs>, NoMemory>
        ensures ok { OnOk result (self.new ≡ changes_merged self.old ((n, segs) ∷ [])) }
        ensures was { IfOk result (λ was. was ≡ change_at self.old n) }
        ensures rising { IsInOrder self.new }
        ensures err { OnErr result (self.new ≡ self.old) }
    {
        match find(&self.held, self.places[slot_of(n)], n) {
            Ok(i) => {
                self.places[slot_of(n)] = (i % 65536) as u16;
                let place = &mut self.held[i];
                Ok(Some(mem::replace(&mut place.1, segs)))
            }
            Err(i) => {
                self.places[slot_of(n)] = (i % 65536) as u16;
                self.held.insert(i, (n, segs))?;
                Ok(None)
            }
        }
    }

    /// Gives the needle these segments, whether it was touched or not, and leaves all others. After `NoMemory` all is as before.
    pub fn set(&mut self, n: Needle, segs: Segs) -> Result<(), NoMemory>
        ensures ok { OnOk result ((m : Needle) → change_at self.new m ≡ (if same_needle n m then Some segs else change_at self.old m)) }
        ensures rising { IsInOrder self.new }
        ensures err { OnErr result (self.new ≡ self.old) }
    {
        self.swap(n, segs)?;
        Ok(())
    }

    /// The needles that were touched, each with what it holds.
    pub fn as_slice(&self) -> &[(Needle, Segs)]
        ensures items { result.now ≡ self.now }
        ensures rising { IsInOrder self.now }
    {
        &self.held
    }

    /// No needle was touched any more. The room is kept.
    pub fn clear(&mut self)
        ensures { self.new ≡ [] }
    {
        self.held.clear();
    }
}

/// Which of 64 slots is that of the needle: by its side, and by its number modulo 32. Other needles may have the same.
pub fn slot_of(n: Needle) -> usize
    ensures { result < 64 }
{
    let side = if n.bed.is_front() { 0 } else { 32 };
    (n.at.unsigned_abs() % 32) as usize + side
}

// The place of the needle, or else the place where it would stand.
fn find(held: &[(Needle, Segs)], guess: u16, n: Needle) -> Result<usize, usize>
    requires { IsInOrder held.now }
    ensures found { IfOk result (ChangeStandsAt held.now n) }
    ensures gap { IfErr result (GoesAt held.now n) }
{
    let i = guess as usize;
    if i < held.len() && held[i].0 == n {
        return Ok(i);
    }
    search(held, n)
}

fn search(held: &[(Needle, Segs)], n: Needle) -> Result<usize, usize>
    requires { IsInOrder held.now }
    ensures found { IfOk result (ChangeStandsAt held.now n) }
    ensures gap { IfErr result (GoesAt held.now n) }
{
    let mut low = 0;
    let mut high = held.len();
    while low < high {
        let middle = low + (high - low) / 2;
        match needle_order(&held[middle].0, &n) {
            Ordering::Less => low = middle + 1,
            Ordering::Equal => return Ok(middle),
            Ordering::Greater => high = middle,
        }
    }
    Err(low)
}

// The items of both, in most cases one of each.
fn joined(alloc: Global, front: &[Seg], behind: &[Seg]) -> Result<Segs, NoMemory>
    ensures { IfOk result (λ segs. segs ≡ front.now ++ behind.now) }
{
    if let [first] = front {
        if let [second] = behind {
            return Ok(Segs::two(alloc, *first, *second));
        }
    }
    let mut both = Segs::new(alloc);
    append(front, &mut both)?;
    append(behind, &mut both)?;
    Ok(both)
}

fn append(more: &[Seg], segs: &mut Segs) -> Result<(), NoMemory>
    ensures ok { OnOk result (segs.new ≡ segs.old ++ more.now) }
    ensures err { OnErr result (segs.new ≡ segs.old) }
{
    let room = u32::MAX - segs.len();
    if more.len() > room as usize {
        return Err(NoMemory);
    }
    segs.extend_from_slice(more)
}
