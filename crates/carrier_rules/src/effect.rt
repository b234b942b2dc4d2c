//! What an instruction does to the rack, to carriers and to the hook.
ghost use Rattle.std.specs.Prelude.{◌≡◌};
ghost use Rattle.carrier_rules.specs.Carriers.{effect_of};

use face_data::Effect;
use knit_base::{Instr, Quarter};

/// What the instruction does to the rack, to carriers and to the hook.
pub fn effect_of(instr: &Instr) -> Effect
    ensures { result ≡ effect_of instr.now }
{
    match instr {
        Instr::CarryIn(yarns) => effect(None, yarns.mask(), 0, None),
        Instr::CarryOut(yarns) | Instr::HookOut(yarns) => effect(None, 0, yarns.mask(), None),
        Instr::HookIn(yarns) => effect(None, yarns.mask(), 0, Some(yarns.mask())),
        Instr::ReleaseHook(_) => effect(None, 0, 0, Some(0)),
        Instr::Rack(rack) => effect(Some(*rack), 0, 0, None),
        _ => effect(None, 0, 0, None),
    }
}

fn effect(rack: Option<Quarter>, came: u64, went: u64, hook: Option<u64>) -> Effect
    ensures { result ≡ record { rack = rack; came = came; went = went; hook = hook } }
{
    Effect {
        rack,
        came,
        went,
        hook,
    }
}
