//! What one instruction asks and changes.
ghost use Rattle.std.specs.Prelude.{◌≡◌, ℕ, ◌+◌, IfOk};
ghost use Rattle.knit_base.specs.Limits.{IsLawfulProfile};
ghost use Rattle.carriage_model.specs.Loops.{loop_of_instr};
ghost use Rattle.carriage_model.specs.Machine.{HasCarrierPlaces};
ghost use Rattle.carriage_model.specs.Rules.{broken_instr};
ghost use Rattle.carriage_model.specs.State.{State};
ghost use Rattle.knit_base.specs.declared.instr.Read.TheVariants as read;
ghost use Rattle.carriage_model.specs.Steps.{step};
ghost use Rattle.face_data.specs.Segments.{AreRead};
ghost use Rattle.block_summary.specs.Asks.{fact_of_formed, first_unmet_of, instr_ask, state_after};

use crate::FormedLoop;
use crate::formed::formed_loop;
use face_data::{CondList, Effect, LastList, SizeAsk, SizeAsks, SymbolList, Symbols};
use knit_base::{Instr, NoMemory, Profile, Quarter, Reason};
use std::alloc::Global;

/// What an instruction asks and changes, in the order in which the rules are tried.
///
/// `carriers` and `rack` are asked of the machine as it stands when the instruction comes, `slider` and `sizes` of the loops at
/// the block's entry. Those of `carriers` that are on last needles are asked last of all. `changed` gives the needles that change
/// their segments without the loop that the instruction forms: that one, `formed`, comes last on its needle.
#[derive(Drop)]
pub struct InstrAsk {
    pub carriers: CondList,
    pub rack: Option<(Reason, Quarter)>,
    pub slider: Option<SizeAsk>,
    pub sizes: SizeAsks,
    pub effect: Effect,
    pub lasts: LastList,
    pub changed: SymbolList,
    pub formed: Option<FormedLoop>,
}

/// What the instruction asks and changes in a block after which, so far, the needles hold these segments.
///
/// In each clause the block was entered in state `s` at line `first`, and the instruction comes in state `t`.
pub fn ask_instr(
    alloc: Global,
    instr: &Instr,
    profile: &Profile,
    segments: &Symbols,
) -> Result<InstrAsk, NoMemory>
    requires profile { IsLawfulProfile profile.now }
    requires places { HasCarrierPlaces instr.now }
    ensures broken { IfOk result (λ ask. (s t : State) (first : ℕ) → AreRead segments.now s first t.stacks → broken_instr profile.now instr.now t ≡ first_unmet_of ask s t) }
    ensures step { IfOk result (λ ask. (s t : State) (first offset : ℕ) → AreRead segments.now s first t.stacks → step profile.now (first + offset) (read.Instr instr.now) t ≡ state_after ask segments.now s t first offset) }
    ensures formed { IfOk result (λ ask. (s t : State) (first offset : ℕ) → AreRead segments.now s first t.stacks → loop_of_instr (first + offset) instr.now t ≡ fact_of_formed ask.formed s first (first + offset)) }
    ensures is { IfOk result (λ ask. ask ≡ instr_ask profile.now instr.now segments.now) }
{
    let carriers = carrier_rules::ask(alloc, instr, profile)?;
    let rack = rack_align::ask(instr);
    let slider = slider_rules::ask(alloc, instr, segments)?;
    let beds = bed_rules::ask(alloc, instr, profile, segments)?;
    Ok(InstrAsk {
        carriers: carriers.conds,
        rack,
        slider,
        sizes: beds.sizes,
        effect: carriers.effect,
        lasts: carriers.lasts,
        changed: beds.changed,
        formed: formed_loop(alloc, instr, segments)?,
    })
}
