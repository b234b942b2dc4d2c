//! The passes of a text, grouped as its readings come, with no list of its operations.
ghost use Rattle.std.specs.Prelude.{◌≡◌, ◌+◌, ◌≤◌, ◌<◌, ◌^◌, ℕ, List, [], ◌∷◌, ◌++◌, IfOk, OnOk, OnErr};
ghost use Rattle.knit_base.specs.declared.instr.Read.{Read};
ghost use Rattle.knit_base.specs.declared.profile.Profile.{Profile};
ghost use Rattle.knit_base.specs.Lawful.{IsLawfulRead};
ghost use Rattle.knit_base.specs.Usual.{usual_read};
ghost use Rattle.pass_grouping.specs.Operations.{operations_after, IsRackWithin};
ghost use Rattle.pass_grouping.specs.Tallies.{HasTallied, IsTallying, next_tally_line};
ghost use Rattle.pass_grouping.specs.Told.{AreOperationCounts, AreTold};

use crate::growing::{Counts, Growing, ToldPasses};
use crate::operation::{operation_of, rack_behind, stretches_ended, usual_operation};
use knit_base::{NoMemory, Read, Usual};
use std::alloc::Global;

/// The passes of a text whose readings come one by one: each is as long as it can be behind the passes before it.
#[derive(Drop)]
pub struct Tally {
    line: u32,
    stretch: u32,
    rack: i32,
    passes: Growing,
}

impl Tally {
    /// No operation, before the line with this number.
    pub fn start(alloc: Global, first: u32) -> Tally
        ensures { HasTallied first [] result }
    {
        Tally {
            line: first,
            stretch: 0,
            rack: 0,
            passes: Growing::start(alloc),
        }
    }

    /// Takes the reading of the next line, as `Listing::take` does. After `NoMemory` nothing was taken.
    pub fn take(&mut self, alloc: Global, read: &Read) -> Result<(), NoMemory>
        requires tally { IsTallying self.old }
        requires lines { next_tally_line self.old + 1 < 2 ^ 32 }
        requires rack { IsRackWithin read.now }
        ensures ok { OnOk result ((first : ℕ) (reads : List Read) → HasTallied first reads self.old → HasTallied first (reads ++ read.now ∷ []) self.new) }
        ensures err { OnErr result (self.new ≡ self.old) }
    {
        let op = operation_of(alloc, self.line, self.stretch, self.rack, read)?;
        self.passes.add_any(alloc, op)?;
        self.line += 1;
        self.stretch += stretches_ended(read);
        self.rack = rack_behind(self.rack, read);
        Ok(())
    }

    /// Takes the next line where it is a usual one, without a reading of it. After `NoMemory` nothing was taken.
    #[inline(always)]
    pub fn take_usual(&mut self, alloc: Global, usual: Usual) -> Result<(), NoMemory>
        requires tally { IsTallying self.old }
        requires lines { next_tally_line self.old + 1 < 2 ^ 32 }
        requires lawful { (profile : Profile) × (carriers : ℕ) × (carriers ≤ 64) × IsLawfulRead profile carriers (usual_read usual) }
        ensures ok { OnOk result ((first : ℕ) (reads : List Read) → HasTallied first reads self.old → HasTallied first (reads ++ usual_read usual ∷ []) self.new) }
        ensures err { OnErr result (self.new ≡ self.old) }
    {
        let op = usual_operation(alloc, self.line, self.stretch, self.rack, usual);
        self.passes.add(alloc, op)?;
        self.line += 1;
        Ok(())
    }

    /// How many operations, passes and windows there are.
    pub fn counts(&self) -> Counts
        ensures { (first : ℕ) (reads : List Read) → HasTallied first reads self.now → AreOperationCounts (operations_after first [] reads) result }
    {
        self.passes.counts()
    }

    /// What is told of each pass, and how many operations there are. Fails where memory runs out.
    pub fn finish(self, alloc: Global) -> Result<ToldPasses, NoMemory>
        ensures { IfOk result (λ passes. (first : ℕ) (reads : List Read) → HasTallied first reads self → AreTold (operations_after first [] reads) passes) }
    {
        self.passes.finish(alloc)
    }
}
