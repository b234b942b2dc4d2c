//! What takes the readings of a file's lines one by one, beside the carriage that executes them.
ghost use Rattle.std.specs.Prelude.{◌≡◌, ◌≤◌, ◌<◌, ◌+◌, ◌^◌, ℕ, true, List, [], ◌∷◌, ◌++◌, length, IfOk, OnOk};
ghost use Rattle.std.proofs.Common.{arith};
ghost use Rattle.knit_base.specs.declared.instr.Read.{Read};
ghost use Rattle.knit_base.specs.declared.profile.Profile.{Profile};
ghost use Rattle.knit_base.specs.Lawful.{IsLawfulRead};
ghost use Rattle.knit_base.specs.Usual.{usual_read};
ghost use Rattle.pass_grouping.specs.Operations.{IsRackWithin};
ghost use Rattle.pass_grouping.specs.Tallies.{HasTallied, next_tally_line as next_counted};
ghost use Rattle.file_run.specs.Runs.{HasTakenAny};

use knit_base::{NoMemory, Read, Usual};
use pass_grouping::Tally;
use std::alloc::Global;

/// A value that takes readings one by one.
pub trait Taker: Drop {
    /// These readings were taken, of which the first is that of the line with this number.
    ghost has: { ℕ → List Read → Self → Type 0 };

    /// The number of the line whose reading comes next, or less.
    ghost next: { Self → ℕ };

    /// None is taken yet: the first will be that of the line with this number.
    fn start(alloc: Global, first: u32) -> Result<Self, NoMemory>
        ensures { IfOk result (has first []) };

    /// Takes the reading of the next line.
    fn take(&mut self, alloc: Global, read: &Read) -> Result<(), NoMemory>
        requires taking { (first : ℕ) × (reads : List Read) × has first reads self.old }
        requires lines { next self.old + 1 < 2 ^ 32 }
        requires rack { IsRackWithin read.now }
        ensures { OnOk result ((first : ℕ) (reads : List Read) → has first reads self.old → has first (reads ++ read.now ∷ []) self.new) };

    /// Takes the next line where it is a usual one, without a reading of it.
    fn take_usual(&mut self, alloc: Global, usual: Usual) -> Result<(), NoMemory>
        requires taking { (first : ℕ) × (reads : List Read) × has first reads self.old }
        requires lines { next self.old + 1 < 2 ^ 32 }
        requires lawful { (profile : Profile) × (carriers : ℕ) × (carriers ≤ 64) × IsLawfulRead profile carriers (usual_read usual) }
        ensures { OnOk result ((first : ℕ) (reads : List Read) → has first reads self.old
            → has first (reads ++ usual_read usual ∷ []) self.new) };

    /// Whether it has taken whatever comes, so that lines needn't be read for it.
    fn takes_nothing(&self) -> bool
        ensures { result ≡ true → (first : ℕ) (reads more : List Read) → has first reads self.now → has first (reads ++ more) self.now };

    /// The next line is at most the one behind those that were taken.
    ghost counted: { (first : ℕ) (reads : List Read) (taker : Self) → has first reads taker → next taker ≤ first + length reads };
}

/// Takes nothing: of `check` a verdict is wanted, and no more.
#[derive(Drop)]
pub struct Nothing;

impl Taker for Nothing {
    ghost has = { HasTakenAny };

    ghost next = { λ _. 0 };

    #[inline(always)]
    fn start(_: Global, _: u32) -> Result<Self, NoMemory> {
        Ok(Nothing)
    }

    #[inline(always)]
    fn take(&mut self, _: Global, _: &Read) -> Result<(), NoMemory> {
        Ok(())
    }

    #[inline(always)]
    fn take_usual(&mut self, _: Global, _: Usual) -> Result<(), NoMemory> {
        Ok(())
    }

    #[inline(always)]
    fn takes_nothing(&self) -> bool {
        true
    }

    ghost counted = { λ first reads taker has. omega arith };
}

impl Taker for Tally {
    ghost has = { HasTallied };

    ghost next = { next_counted };

    fn start(alloc: Global, first: u32) -> Result<Self, NoMemory> {
        Ok(Tally::start(alloc, first))
    }

    #[inline(always)]
    fn take(&mut self, alloc: Global, read: &Read) -> Result<(), NoMemory> {
        Tally::take(self, alloc, read)
    }

    #[inline(always)]
    fn take_usual(&mut self, alloc: Global, usual: Usual) -> Result<(), NoMemory> {
        Tally::take_usual(self, alloc, usual)
    }

    fn takes_nothing(&self) -> bool {
        false
    }

    ghost counted = { λ first reads taker has. omega (arith, has.listed.lines) };
}
