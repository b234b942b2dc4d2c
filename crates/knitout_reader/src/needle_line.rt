//! The operations that move loops from needle to needle, and those that name one needle alone.
ghost use Rattle.std.specs.Prelude.{◌≡◌, ◌<◌, ◌≤◌, ◌+◌, ◌^◌, ◌∷◌, ℕ, ℤ, List, codes, length, IfOk, IsOk};
ghost use Rattle.knitout_reader.specs.Numbers.{IsNear};
ghost use Rattle.knitout_reader.specs.Operations.{needle_operation_instr, needle_operation_word};
ghost use Rattle.knitout_reader.specs.Reading.{TokensReadAs, needle_on, off_bed, reading_of, reading_or};
ghost use Rattle.knitout_reader.specs.Shapes.{NameFewCarriers, SplitShape, XferShape};
ghost use Rattle.knitout_reader.specs.Tokens.{tokens_of};

use crate::answers::{broken, no_shape};
use crate::carriers::read_carriers;
use crate::loop_line::slider_rule;
use crate::number::{FAR, NeedleToken};
use crate::operands::{next_direction, next_needle, on_bed, opposite_rule};
use crate::tokens::next_token;
use crate::words::NeedleOperation;
use knit_base::{Declared, Dir, Instr, Needle, NoMemory, Profile, Read, Rule};
use std::alloc::Global;

/// What `xfer` says with these operands.
pub(crate) fn read_xfer(code: &[u8], profile: &Profile) -> Read
    ensures { (names : List (List ℕ)) → TokensReadAs profile.now names (codes "xfer" ∷ tokens_of code.now) result }
{
    let Some((needle, others)) = next_needle(code) else {
        return no_shape();
    };
    let Some((needle2, end)) = next_needle(others) else {
        return no_shape();
    };
    if next_token(end).is_some() {
        return no_shape();
    }
    xfer(needle, needle2, profile)
}

// What an `xfer` of this shape says.
fn xfer(needle: NeedleToken, needle2: NeedleToken, profile: &Profile) -> Read
    ensures { (names : List (List ℕ)) (z z2 : ℤ) → IsNear FAR needle.at z → IsNear FAR needle2.at z2
        → result ≡ reading_of profile.now names (XferShape needle.bed z needle2.bed z2) }
{
    let Some(needle) = on_bed(profile, needle) else {
        return broken(Rule::OffBed, 1);
    };
    let Some(needle2) = on_bed(profile, needle2) else {
        return broken(Rule::OffBed, 2);
    };
    if let Some(reason) = opposite_rule(needle.bed, needle2.bed, 2) {
        return Read::Broken(reason);
    }
    Read::Instr(Instr::Xfer(needle, needle2))
}

/// What `split` says with these operands.
pub(crate) fn read_split(
    alloc: Global,
    code: &[u8],
    profile: &Profile,
    declared: &Declared,
) -> Result<Read, NoMemory>
    requires { 4 + length (tokens_of code.now) < 2 ^ 16 }
    ensures reads { IfOk result (λ r. TokensReadAs profile.now declared.now (codes "split" ∷ tokens_of code.now) r) }
    ensures in_place { NameFewCarriers (codes "split" ∷ tokens_of code.now) → IsOk result }
{
    let Some((dir, operands)) = next_direction(code) else {
        return Ok(no_shape());
    };
    let Some((needle, others)) = next_needle(operands) else {
        return Ok(no_shape());
    };
    let Some((needle2, carriers)) = next_needle(others) else {
        return Ok(no_shape());
    };
    split(alloc, dir, needle, needle2, carriers, profile, declared)
}

// What a `split` of this shape says.
fn split(
    alloc: Global,
    dir: Dir,
    needle: NeedleToken,
    needle2: NeedleToken,
    carriers: &[u8],
    profile: &Profile,
    declared: &Declared,
) -> Result<Read, NoMemory>
    requires { 4 + length (tokens_of carriers.now) < 2 ^ 16 }
    ensures reads { IfOk result (λ r. (z z2 : ℤ) → IsNear FAR needle.at z → IsNear FAR needle2.at z2
        → r ≡ reading_of profile.now declared.now (SplitShape dir needle.bed z needle2.bed z2 (tokens_of carriers.now))) }
    ensures in_place { length (tokens_of carriers.now) ≤ 4 → IsOk result }
{
    let Some(needle) = on_bed(profile, needle) else {
        return Ok(broken(Rule::OffBed, 2));
    };
    let Some(needle2) = on_bed(profile, needle2) else {
        return Ok(broken(Rule::OffBed, 3));
    };
    if let Some(reason) = slider_rule(needle.bed, carriers) {
        return Ok(Read::Broken(reason));
    }
    if let Some(reason) = opposite_rule(needle.bed, needle2.bed, 3) {
        return Ok(Read::Broken(reason));
    }
    Ok(match read_carriers(alloc, declared, carriers, 4)? {
        Ok(yarns) => Read::Instr(Instr::Split(dir, needle, needle2, yarns)),
        Err(reason) => Read::Broken(reason),
    })
}

/// What `drop` or `amiss` says with these operands.
pub(crate) fn read_needle_operation(which: NeedleOperation, code: &[u8], profile: &Profile) -> Read
    ensures { (names : List (List ℕ)) → TokensReadAs profile.now names (needle_operation_word which ∷ tokens_of code.now) result }
{
    let Some((needle, end)) = next_needle(code) else {
        return no_shape();
    };
    if next_token(end).is_some() {
        return no_shape();
    }
    name(which, needle, profile)
}

// What an operation of this shape says.
fn name(which: NeedleOperation, needle: NeedleToken, profile: &Profile) -> Read
    ensures { (z : ℤ) → IsNear FAR needle.at z → result ≡ reading_or (off_bed profile.now 1 z) (needle_operation_instr which (needle_on needle.bed z)) }
{
    match on_bed(profile, needle) {
        Some(needle) => Read::Instr(needle_operation_instr(which, needle)),
        None => broken(Rule::OffBed, 1),
    }
}

fn needle_operation_instr(which: NeedleOperation, needle: Needle) -> Instr
    ensures { result ≡ needle_operation_instr which needle }
{
    match which {
        NeedleOperation::Drop => Instr::Drop(needle),
        NeedleOperation::Amiss => Instr::Amiss(needle),
    }
}
