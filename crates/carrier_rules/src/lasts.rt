//! What an instruction does to the last needles of carriers.
ghost use Rattle.std.specs.Prelude.{◌≡◌, IfOk, map};
ghost use Rattle.carrier_rules.specs.Carriers.{carrier_last, lasts_given, lasts_of};

use face_data::{Last, LastList};
use knit_base::{Instr, NoMemory, Profile, Yarns};
use std::alloc::Global;

/// The last needles that the instruction gives carriers. Where floats have no limit nobody asks for them, and none are given.
pub fn lasts_of(alloc: Global, instr: &Instr, profile: &Profile) -> Result<LastList, NoMemory>
    ensures { IfOk result (λ lasts. lasts ≡ lasts_of profile.now.float instr.now) }
{
    match profile.float {
        None => Ok(LastList::new(alloc)),
        Some(_) => lasts_given(alloc, instr),
    }
}

fn lasts_given(alloc: Global, instr: &Instr) -> Result<LastList, NoMemory>
    ensures { IfOk result (λ lasts. lasts ≡ lasts_given instr.now) }
{
    match instr {
        Instr::CarryIn(yarns) | Instr::HookIn(yarns) => of_each(alloc, yarns, None),
        Instr::CarryOut(yarns) | Instr::HookOut(yarns) => of_each(alloc, yarns, None),
        Instr::Knit(_, n, yarns) | Instr::Tuck(_, n, yarns) => of_each(alloc, yarns, Some(n.at)),
        Instr::Split(_, n, _, yarns) => of_each(alloc, yarns, Some(n.at)),
        _ => Ok(LastList::new(alloc)),
    }
}

// The same last needle for each carrier, or none.
fn of_each(alloc: Global, yarns: &Yarns, at: Option<i16>) -> Result<LastList, NoMemory>
    ensures { IfOk result (λ lasts. lasts ≡ map (carrier_last at) yarns.now) }
{
    let mut lasts = LastList::new(alloc);
    for c in yarns.as_slice() {
        if lasts.len() == u32::MAX {
            return Err(NoMemory);
        }
        lasts.push(Last { carrier: *c, at })?;
    }
    Ok(lasts)
}
