//! What an instruction asks of carriers, of the yarn hook and of floats, and what it changes there.
//!
//! Promises, for every state of the machine, that the first condition of `ask` that isn't met tells the first rule on carriers
//! and the hook that the instruction breaks, that the first of those on last needles, which come behind all others and are tried last of
//! all rules, tells the float that is too long, and that the effect and the last needles are what the instruction does to rack, carriers,
//! hook and last needles.
//! Definitions: `specs/Carriers`, `specs/Rules` of `carriage_model`, and `specs/Conditions` and `specs/Summaries` of
//! `face_data`. Below it stand std, `knit_base`, `carriage_model` and `face_data`.
#![tactic(auto)]

mod conds;
mod effect;
mod lasts;

ghost use Rattle.std.specs.Prelude.{◌≡◌, IfOk};
ghost use Rattle.carriage_model.specs.Machine.{HasCarrierPlaces};
ghost use Rattle.carriage_model.specs.State.{State};
ghost use Rattle.face_data.specs.Conditions.{first_unmet};
ghost use Rattle.carriage_model.specs.Rules.{carrier_broken, float_broken};
ghost use Rattle.carriage_model.specs.Steps.{kept_lasts};
ghost use Rattle.face_data.specs.Lasts.{lasts_after};
ghost use Rattle.face_data.specs.Summaries.{IsEffectOf};
ghost use Rattle.carrier_rules.specs.Carriers.{conds_of, early_in, effect_of, floats_in, lasts_of};

use face_data::{CondList, Effect, LastList};
use knit_base::{Instr, NoMemory, Profile};
use std::alloc::Global;

/// What an instruction asks of carriers, of the hook and, behind these, of last needles, in the order in which the rules are tried and
/// the carriers are written, and what it does to them and to the rack.
#[derive(Drop)]
pub struct CarrierAsk {
    pub conds: CondList,
    pub effect: Effect,
    pub lasts: LastList,
}

/// What the instruction asks of carriers and of the hook, and what it changes.
pub fn ask(alloc: Global, instr: &Instr, profile: &Profile) -> Result<CarrierAsk, NoMemory>
    requires { HasCarrierPlaces instr.now }
    ensures broken { IfOk result (λ ask. (s : State) → carrier_broken instr.now s ≡ first_unmet (early_in ask.conds) s) }
    ensures floats { IfOk result (λ ask. (s : State) → float_broken profile.now instr.now s ≡ first_unmet (floats_in ask.conds) s) }
    ensures conds { IfOk result (λ ask. ask.conds ≡ conds_of profile.now.float instr.now) }
    ensures effect { IfOk result (λ ask. ask.effect ≡ effect_of instr.now) }
    ensures lasts { IfOk result (λ ask. ask.lasts ≡ lasts_of profile.now.float instr.now) }
    ensures changes { IfOk result (λ ask. IsEffectOf instr.now ask.effect) }
    ensures lasts_after { IfOk result (λ ask. (s : State) → lasts_after ask.lasts s.lasts ≡ kept_lasts profile.now.float instr.now s.lasts) }
{
    Ok(CarrierAsk {
        conds: conds::conds_of(alloc, instr, profile)?,
        effect: effect::effect_of(instr),
        lasts: lasts::lasts_of(alloc, instr, profile)?,
    })
}
