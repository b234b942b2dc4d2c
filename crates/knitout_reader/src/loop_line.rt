//! The operations that form loops on one needle, and `miss`, which is spelt as they are.
ghost use Rattle.std.specs.Prelude.{◌≡◌, ◌<◌, ◌≤◌, ◌+◌, ◌^◌, ◌∷◌, ℤ, length, IfOk, IsOk};
ghost use Rattle.knitout_reader.specs.Carriers.{carrier_rule, carriers_of};
ghost use Rattle.knitout_reader.specs.Numbers.{IsNear};
ghost use Rattle.knitout_reader.specs.Operations.{loop_instr, loop_slider, loop_word};
ghost use Rattle.knit_base.specs.Reasons.{or_else};
ghost use Rattle.knit_base.specs.Spelling.{dir_word};
ghost use Rattle.knitout_reader.specs.Reading.{TokensReadAs, needle_on, off_bed, reading_or, slider_form};
ghost use Rattle.knitout_reader.specs.Shapes.{NameFewCarriers};
ghost use Rattle.knitout_reader.specs.Tokens.{tokens_of};

use crate::answers::{broken, no_shape};
use crate::carriers::read_carriers;
use crate::number::{FAR, NeedleToken};
use crate::operands::{next_direction, next_needle, on_bed};
use crate::tokens::next_token;
use crate::words::LoopOperation;
use knit_base::{Bed, Declared, Dir, Instr, Needle, NoMemory, Profile, Read, Reason, Rule, Yarns};
use std::alloc::Global;

/// What `knit`, `tuck` or `miss` says with these operands.
pub(crate) fn read_loop_operation(
    alloc: Global,
    which: LoopOperation,
    code: &[u8],
    profile: &Profile,
    declared: &Declared,
) -> Result<Read, NoMemory>
    requires { 4 + length (tokens_of code.now) < 2 ^ 16 }
    ensures reads { IfOk result (λ r. TokensReadAs profile.now declared.now (loop_word which ∷ tokens_of code.now) r) }
    ensures in_place { NameFewCarriers (loop_word which ∷ tokens_of code.now) → IsOk result }
{
    let Some((dir, operands)) = next_direction(code) else {
        return Ok(no_shape());
    };
    read_loop_operands(alloc, which, dir, operands, profile, declared)
}

/// What `knit`, `tuck` or `miss` says with this direction and the operands behind it.
#[inline(always)]
pub(crate) fn read_loop_operands(
    alloc: Global,
    which: LoopOperation,
    dir: Dir,
    operands: &[u8],
    profile: &Profile,
    declared: &Declared,
) -> Result<Read, NoMemory>
    requires { 3 + length (tokens_of operands.now) < 2 ^ 16 }
    ensures reads { IfOk result (λ r. TokensReadAs profile.now declared.now (loop_word which ∷ dir_word dir ∷ tokens_of operands.now) r) }
    ensures in_place { NameFewCarriers (loop_word which ∷ dir_word dir ∷ tokens_of operands.now) → IsOk result }
{
    let Some((needle, carriers)) = next_needle(operands) else {
        return Ok(no_shape());
    };
    form(alloc, which, dir, needle, carriers, profile, declared)
}

// What an operation of this shape says.
fn form(
    alloc: Global,
    which: LoopOperation,
    dir: Dir,
    needle: NeedleToken,
    carriers: &[u8],
    profile: &Profile,
    declared: &Declared,
) -> Result<Read, NoMemory>
    requires { 3 + length (tokens_of carriers.now) < 2 ^ 16 }
    ensures reads { IfOk result (λ r. (z : ℤ) → IsNear FAR needle.at z → r ≡ reading_or
        (or_else (off_bed profile.now 2 z) (or_else (loop_slider which needle.bed (tokens_of carriers.now)) (carrier_rule declared.now 3 (tokens_of carriers.now))))
        (loop_instr which dir (needle_on needle.bed z) (carriers_of declared.now (tokens_of carriers.now)))) }
    ensures in_place { length (tokens_of carriers.now) ≤ 4 → IsOk result }
{
    let Some(needle) = on_bed(profile, needle) else {
        return Ok(broken(Rule::OffBed, 2));
    };
    if let Some(reason) = loop_slider(which, needle.bed, carriers) {
        return Ok(Read::Broken(reason));
    }
    Ok(match read_carriers(alloc, declared, carriers, 3)? {
        Ok(yarns) => Read::Instr(loop_instr(which, dir, needle, yarns)),
        Err(reason) => Read::Broken(reason),
    })
}

// Whether a loop is formed on a slider. Only `miss` forms none.
fn loop_slider(which: LoopOperation, bed: Bed, carriers: &[u8]) -> Option<Reason>
    ensures { result ≡ loop_slider which bed (tokens_of carriers.now) }
{
    match which {
        LoopOperation::Knit | LoopOperation::Tuck => slider_rule(bed, carriers),
        LoopOperation::Miss => None,
    }
}

/// Why no loop of these carriers is formed on this bed.
pub(crate) fn slider_rule(bed: Bed, carriers: &[u8]) -> Option<Reason>
    ensures { result ≡ slider_form bed (tokens_of carriers.now) }
{
    if !bed.is_slider() {
        return None;
    }
    let _carrier = next_token(carriers)?;
    Some(Reason {
        rule: Rule::SliderForm,
        at: 2,
    })
}

fn loop_instr(which: LoopOperation, dir: Dir, needle: Needle, yarns: Yarns) -> Instr
    ensures { result ≡ loop_instr which dir needle yarns }
{
    match which {
        LoopOperation::Knit => Instr::Knit(dir, needle, yarns),
        LoopOperation::Tuck => Instr::Tuck(dir, needle, yarns),
        LoopOperation::Miss => Instr::Miss(dir, needle, yarns),
    }
}
