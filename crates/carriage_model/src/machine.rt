//! The state of the machine as the program keeps it.
ghost use Rattle.std.specs.Prelude.{◌≡◌, ◌≤◌, ◌≤ℤ◌, length, IfOk, List};
ghost use Rattle.carriage_model.specs.declared.verdict.LoopFact.{LoopFact};
ghost use Rattle.carriage_model.specs.State.{State, empty_state};
ghost use Rattle.carriage_model.specs.Verdict.{IsFinal};

use crate::Final;
use crate::beds::Beds;
use knit_base::{Needle, NoMemory, Profile, Quarter};
use std::alloc::Global;

/// The rack, the carriers in action, those in the hook, the loops on the needles, and, where there is a limit on floats, the number of
/// each carrier's last needle.
#[derive(Drop)]
pub(crate) struct Machine {
    pub(crate) rack: Quarter,
    pub(crate) ins: u64,
    pub(crate) hook: u64,
    pub(crate) beds: Beds,
    pub(crate) keeps_lasts: bool,
    pub(crate) lasts: [Option<i16>; 64],
}

impl Machine {
    ghost use Rattle.carriage_model.specs.Machine.{Represents, HasNeedlesOf};

    /// A machine that nothing was knitted on.
    pub fn new(alloc: Global, profile: &Profile) -> Result<Self, NoMemory>
        requires { profile.now.low ≤ℤ profile.now.high }
        ensures empty { IfOk result (λ machine. Represents machine empty_state) }
        ensures needles { IfOk result (HasNeedlesOf profile.now) }
    {
        Ok(Machine {
            rack: Quarter(0),
            ins: 0,
            hook: 0,
            beds: Beds::new(alloc, profile.low, profile.high)?,
            keeps_lasts: profile.float.is_some(),
            lasts: [None; 64],
        })
    }

    /// What a program of so many lines leaves that made so many loops.
    pub fn finish(self, lines: u32, made: u32) -> Result<Final, NoMemory>
        ensures is { IfOk result (λ final. (s : State) (loops : List LoopFact) → Represents self s → made ≡ length loops → IsFinal final lines s loops) }
        ensures few { IfOk result (λ final. length final.stacks ≤ 262144) }
    {
        Ok(Final {
            lines,
            made,
            rack: self.rack,
            ins: self.ins,
            hook: self.hook,
            stacks: self.beds.list()?,
        })
    }
}
