//! The needles in one row, those of small numbers first, and tables that are found by needle.
ghost use Rattle.std.specs.Prelude.{◌≡◌, ◌↔◌, ℕ, IsTrue, ◌<◌, ◌≤◌, ◌*◌, ◌+◌, ◌^◌, [], length, OnOk, slice_index_or, vec_capacity};
ghost use Rattle.face_data.specs.Spots.{spot_of};
ghost use Rattle.summary_compose.specs.Tables.{IsPlaceWritten};

use knit_base::{Needle, NoMemory};
use std::alloc::Global;

/// How many places there are in the row: numbers have 16 bits, and there are four beds.
const ALL_SPOTS: usize = 1 << 18;

/// How many entries a table gets at a time. The first are those of the needles from -256 to 255 on all beds.
const MORE_SPOTS: usize = 2_048;

/// The place of a needle in a row of all needles.
#[inline(always)]
#[tactic(auto, unfolding(face_data::specs::Spots::spot_of))]
pub fn spot_of(n: Needle) -> usize
    ensures spot { result ≡ spot_of n }
    ensures few { result < 2 ^ 18 }
{
    let at = i32::from(n.at);
    let number = if at < 0 { 2 * (-1 - at) + 1 } else { 2 * at };
    4 * number as usize + n.bed as usize
}

/// Whether the two are one needle.
#[inline(always)]
pub fn is_same(n: Needle, m: Needle) -> bool
    ensures { IsTrue result ↔ (n ≡ m) }
{
    n == m
}

/// Numbers by needle. One that was given none has 0.
///
/// There is room for all needles that a machine can have, and entries as far as numbers were given: to make all of them would take
/// longer than a small text takes.
#[derive(Drop)]
pub struct Table {
    pub entries: Vec<usize>,
}

impl Table {
    /// The empty table, which takes no memory and has no room.
    pub fn new(alloc: Global) -> Self
        ensures { result.entries.items ≡ [] }
    {
        Table {
            entries: Vec::new(alloc),
        }
    }

    /// Makes room for all needles.
    pub fn reserve(&mut self) -> Result<(), NoMemory>
        ensures room { OnOk result (2 ^ 18 ≤ vec_capacity self.new.entries) }
        ensures keeps { vec_capacity self.old.entries ≤ vec_capacity self.new.entries }
        ensures entries { self.new.entries.items ≡ self.old.entries.items }
    {
        let more = ALL_SPOTS.saturating_sub(self.entries.len());
        self.entries.reserve(more)?;
        Ok(())
    }

    /// The needle's number.
    #[inline(always)]
    pub fn get(&self, n: Needle) -> usize
        ensures { result ≡ slice_index_or self.now.entries.items (spot_of n) 0 }
    {
        match self.entries.get(spot_of(n)) {
            Some(number) => *number,
            None => 0,
        }
    }

    /// Gives the needle this number.
    #[inline(always)]
    pub fn set(&mut self, n: Needle, number: usize)
        requires { 2 ^ 18 ≤ vec_capacity self.old.entries }
        ensures written { IsPlaceWritten self.old.entries.items self.new.entries.items n number }
        ensures room { 2 ^ 18 ≤ vec_capacity self.new.entries }
    {
        let spot = spot_of(n);
        self.reach(spot);
        self.entries[spot] = number;
    }

    // Makes the entries up to this place.
    #[inline(always)]
    fn reach(&mut self, spot: usize)
        requires few { spot < 2 ^ 18 }
        requires room { 2 ^ 18 ≤ vec_capacity self.old.entries }
        ensures reached { spot < length self.new.entries.items }
        ensures same { (k : ℕ) → slice_index_or self.new.entries.items k 0 ≡ slice_index_or self.old.entries.items k 0 }
        ensures room { 2 ^ 18 ≤ vec_capacity self.new.entries }
    {
        if spot >= self.entries.len() {
            self.lengthen(spot);
        }
    }

    #[cold]
    fn lengthen(&mut self, spot: usize)
        requires few { spot < 2 ^ 18 }
        requires past { length self.old.entries.items ≤ spot }
        requires room { 2 ^ 18 ≤ vec_capacity self.old.entries }
        ensures reached { spot < length self.new.entries.items }
        ensures same { (k : ℕ) → slice_index_or self.new.entries.items k 0 ≡ slice_index_or self.old.entries.items k 0 }
        ensures room { 2 ^ 18 ≤ vec_capacity self.new.entries }
    {
        let spots = (spot / MORE_SPOTS + 1) * MORE_SPOTS;
        let _ = self.entries.resize(spots, 0);
    }
}
