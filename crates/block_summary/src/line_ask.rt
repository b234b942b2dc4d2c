//! What one line asks and changes.
ghost use Rattle.std.specs.Prelude.{◌≡◌, ℕ, ◌+◌, IfOk};
ghost use Rattle.knit_base.specs.Limits.{IsLawfulProfile};
ghost use Rattle.carriage_model.specs.Loops.{fact_made};
ghost use Rattle.carriage_model.specs.Machine.{HasPlacesInLine};
ghost use Rattle.carriage_model.specs.Rules.{broken};
ghost use Rattle.carriage_model.specs.State.{State};
ghost use Rattle.carriage_model.specs.Steps.{step};
ghost use Rattle.face_data.specs.Segments.{AreRead};
ghost use Rattle.block_summary.specs.Asks.{fact_of_line, first_unmet_in_line, line_ask, state_after_line};

use crate::{InstrAsk, ask_instr};
use face_data::Symbols;
use knit_base::{NoMemory, Profile, Read, Reason};
use std::alloc::Global;

/// What a line asks and changes: nothing where it says nothing, and what its instruction does where it has one. A line that
/// breaks a rule by itself ends the block for this reason.
#[derive(Drop)]
pub enum LineAsk {
    Nothing,
    Ends(Reason),
    Asks(InstrAsk),
}

/// What the line asks and changes in a block after which, so far, the needles hold these segments.
///
/// In each clause the block was entered in state `s` at line `first`, and the line comes in state `t`.
pub fn ask_line(
    alloc: Global,
    read: &Read,
    profile: &Profile,
    segments: &Symbols,
) -> Result<LineAsk, NoMemory>
    requires profile { IsLawfulProfile profile.now }
    requires places { HasPlacesInLine read.now }
    ensures broken { IfOk result (λ ask. (s t : State) (first : ℕ) → AreRead segments.now s first t.stacks → broken profile.now read.now t ≡ first_unmet_in_line ask s t) }
    ensures step { IfOk result (λ ask. (s t : State) (first offset : ℕ) → AreRead segments.now s first t.stacks → step profile.now (first + offset) read.now t ≡ state_after_line ask segments.now s t first offset) }
    ensures formed { IfOk result (λ ask. (s t : State) (first offset : ℕ) → AreRead segments.now s first t.stacks → fact_made (first + offset) read.now t ≡ fact_of_line ask s first (first + offset)) }
    ensures is { IfOk result (λ ask. ask ≡ line_ask profile.now read.now segments.now) }
{
    match read {
        Read::Instr(instr) => Ok(LineAsk::Asks(ask_instr(alloc, instr, profile, segments)?)),
        Read::Broken(reason) => Ok(LineAsk::Ends(*reason)),
        Read::Blank | Read::Comment => Ok(LineAsk::Nothing),
    }
}
