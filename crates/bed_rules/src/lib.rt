//! What an instruction asks of the loops on needles, and what it makes of them.
//!
//! Promises, for every state of the machine, that the first size condition of `ask` that isn't met tells whether the
//! instruction puts too many loops on a needle, and that the needles hold the segments that `ask` gives them after it.
//! Definitions: `specs/Beds`, `specs/Rules` of `carriage_model`, and `specs/Segments` and `specs/Conditions` of `face_data`.
//! Below it stand std, `knit_base`, `carriage_model` and `face_data`.
#![tactic(auto)]

mod changes;
mod limits;

ghost use Rattle.std.specs.Prelude.{◌≡◌, ℕ, ◌+◌, IfOk};
ghost use Rattle.knit_base.specs.Limits.{IsLawfulProfile};
ghost use Rattle.carriage_model.specs.State.{State};
ghost use Rattle.carriage_model.specs.Steps.{step_instr};
ghost use Rattle.carriage_model.specs.Rules.{size_broken};
ghost use Rattle.knit_base.specs.Instr.{forming_needle};
ghost use Rattle.face_data.specs.Conditions.{first_unmet_size};
ghost use Rattle.face_data.specs.Segments.{AreRead};
ghost use Rattle.face_data.specs.Sizes.{size_asks};
ghost use Rattle.bed_rules.specs.Beds.{AreReadAfter, changes_of, size_rules};

use face_data::{SizeAsks, SymbolList, Symbols};
use knit_base::{Instr, Needle, NoMemory, Profile};
use std::alloc::Global;

/// What an instruction asks of sizes, and what it makes of needles. `makes` is the needle on which it forms a loop, and
/// `changed` gives the needles that change their segments without that loop: the caller puts its segment last there.
#[derive(Drop)]
pub struct BedAsk {
    pub sizes: SizeAsks,
    pub changed: SymbolList,
    pub makes: Option<Needle>,
}

/// What the instruction asks and changes in a block after which, so far, the needles hold these segments.
pub fn ask(
    alloc: Global,
    instr: &Instr,
    profile: &Profile,
    segments: &Symbols,
) -> Result<BedAsk, NoMemory>
    requires { IsLawfulProfile profile.now }
    ensures broken { IfOk result (λ ask. (s t : State) (first : ℕ) → AreRead segments.now s first t.stacks → size_broken profile.now instr.now t ≡ first_unmet_size ask.sizes s) }
    ensures sizes { IfOk result (λ ask. ask.sizes ≡ size_asks segments.now (size_rules profile.now.hold instr.now)) }
    ensures changes { IfOk result (λ ask. ask.changed ≡ changes_of instr.now segments.now) }
    ensures changed { IfOk result (λ ask. (s t : State) (first offset : ℕ) → AreRead segments.now s first t.stacks → AreReadAfter segments.now ask.changed ask.makes s first offset (step_instr (first + offset) instr.now t).stacks) }
    ensures makes { IfOk result (λ ask. ask.makes ≡ forming_needle instr.now) }
{
    Ok(BedAsk {
        sizes: limits::sizes_of(alloc, instr, profile, segments)?,
        changed: changes::changes_of(alloc, instr, segments)?,
        makes: instr.forming_needle(),
    })
}
