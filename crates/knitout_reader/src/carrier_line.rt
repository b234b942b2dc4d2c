//! The operations on carriers alone.
ghost use Rattle.std.specs.Prelude.{◌≡◌, ◌<◌, ◌≤◌, ◌+◌, ◌^◌, ◌∷◌, length, IfOk, IsOk};
ghost use Rattle.knit_base.specs.declared.profile.Profile.{Profile};
ghost use Rattle.knitout_reader.specs.Carriers.{carrier_rule, carriers_of};
ghost use Rattle.knitout_reader.specs.Operations.{carrier_instr, carrier_word};
ghost use Rattle.knitout_reader.specs.Reading.{TokensReadAs, reading_or};
ghost use Rattle.knitout_reader.specs.Shapes.{NameFewCarriers};
ghost use Rattle.knitout_reader.specs.Tokens.{tokens_of};

use crate::answers::no_shape;
use crate::carriers::read_carriers;
use crate::tokens::next_token;
use crate::words::CarrierOperation;
use knit_base::{Declared, Instr, NoMemory, Read, Yarns};
use std::alloc::Global;

/// What `in`, `out`, `inhook`, `outhook` or `releasehook` says with these operands.
pub(crate) fn read_carrier_operation(
    alloc: Global,
    which: CarrierOperation,
    code: &[u8],
    declared: &Declared,
) -> Result<Read, NoMemory>
    requires { 4 + length (tokens_of code.now) < 2 ^ 16 }
    ensures reads { IfOk result (λ r. (profile : Profile) → TokensReadAs profile declared.now (carrier_word which ∷ tokens_of code.now) r) }
    ensures in_place { NameFewCarriers (carrier_word which ∷ tokens_of code.now) → IsOk result }
{
    let Some(_) = next_token(code) else {
        return Ok(no_shape());
    };
    carry(alloc, which, code, declared)
}

// What an operation of this shape says.
fn carry(
    alloc: Global,
    which: CarrierOperation,
    carriers: &[u8],
    declared: &Declared,
) -> Result<Read, NoMemory>
    requires { 4 + length (tokens_of carriers.now) < 2 ^ 16 }
    ensures reads { IfOk result (λ r. r ≡ reading_or (carrier_rule declared.now 1 (tokens_of carriers.now)) (carrier_instr which (carriers_of declared.now (tokens_of carriers.now)))) }
    ensures in_place { length (tokens_of carriers.now) ≤ 4 → IsOk result }
{
    Ok(match read_carriers(alloc, declared, carriers, 1)? {
        Ok(yarns) => Read::Instr(carrier_instr(which, yarns)),
        Err(reason) => Read::Broken(reason),
    })
}

fn carrier_instr(which: CarrierOperation, yarns: Yarns) -> Instr
    ensures { result ≡ carrier_instr which yarns }
{
    match which {
        CarrierOperation::In => Instr::CarryIn(yarns),
        CarrierOperation::Out => Instr::CarryOut(yarns),
        CarrierOperation::HookIn => Instr::HookIn(yarns),
        CarrierOperation::HookOut => Instr::HookOut(yarns),
        CarrierOperation::ReleaseHook => Instr::ReleaseHook(yarns),
    }
}
