//! The carriage operations of a text, reading by reading or of all of its readings.
ghost use Rattle.std.specs.Prelude.{◌≡◌, ◌+◌, ◌<◌, ◌^◌, ℕ, List, [], ◌∷◌, ◌++◌, length, All, IfOk, OnOk, OnErr};
ghost use Rattle.knit_base.specs.declared.instr.Read.{Read};
ghost use Rattle.pass_grouping.specs.Listings.{HasListed, IsOperationListing, next_listing_line};
ghost use Rattle.pass_grouping.specs.Operations.{operations_after, IsRackWithin};

use crate::PassOps;
use crate::operation::{append, operation_of, rack_behind, stretches_ended};
use knit_base::{NoMemory, Read, Reads};
use std::alloc::Global;

/// The operations of a text whose readings come one by one, so that no list of them is needed.
#[derive(Drop)]
pub struct Listing {
    ops: PassOps,
    line: u32,
    stretch: u32,
    rack: i32,
}

impl Listing {
    /// No operation, before the line with this number. Memory for so many operations is asked for at once.
    pub fn start(alloc: Global, first: u32, room: u32) -> Result<Listing, NoMemory>
        ensures { IfOk result (HasListed first []) }
    {
        let ops = PassOps::with_capacity(alloc, room)?;
        Ok(Listing {
            ops,
            line: first,
            stretch: 0,
            rack: 0,
        })
    }

    /// Takes the reading of the next line. A line that the reader found broken ends a stretch. The rack that it sets lies within the
    /// limits where the reading is lawful (`proofs/Racks`). After `NoMemory` nothing was taken.
    pub fn take(&mut self, alloc: Global, read: &Read) -> Result<(), NoMemory>
        requires listing { IsOperationListing self.old }
        requires lines { next_listing_line self.old + 1 < 2 ^ 32 }
        requires rack { IsRackWithin read.now }
        ensures ok { OnOk result ((first : ℕ) (reads : List Read) → HasListed first reads self.old → HasListed first (reads ++ read.now ∷ []) self.new) }
        ensures err { OnErr result (self.new ≡ self.old) }
    {
        let op = operation_of(alloc, self.line, self.stretch, self.rack, read)?;
        append(&mut self.ops, op)?;
        self.line += 1;
        self.stretch += stretches_ended(read);
        self.rack = rack_behind(self.rack, read);
        Ok(())
    }

    /// The operations of the readings that were taken.
    pub fn finish(self) -> PassOps
        ensures { (first : ℕ) (reads : List Read) → HasListed first reads self → result ≡ operations_after first [] reads }
    {
        self.ops
    }
}

/// The carriage operations of these readings, of which the first is that of the line `first`, as `Listing` takes them. Fails where
/// memory runs out.
pub fn operations(alloc: Global, reads: &Reads, first: u32) -> Result<PassOps, NoMemory>
    requires lines { first + length reads.now < 2 ^ 32 }
    requires racks { All IsRackWithin reads.now }
    ensures { IfOk result (λ ops. ops ≡ operations_after first [] reads.now) }
{
    let mut listing = Listing::start(alloc, first, reads.len())?;
    for read in reads.as_slice() {
        listing.take(alloc, read)?;
    }
    Ok(listing.finish())
}
