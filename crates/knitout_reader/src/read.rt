//! Lines, read.
ghost use Rattle.std.specs.Prelude.{◌≡◌, ◌<◌, ◌+◌, ◌^◌, ◌∷◌, ℕ, List, length, IfOk, IsOk};
ghost use Rattle.knit_base.specs.declared.instr.Read.{Read};
ghost use Rattle.knit_base.specs.declared.profile.Profile.{Profile};
ghost use Rattle.knit_base.specs.Lawful.{IsLawfulRead};
ghost use Rattle.knitout_reader.specs.Operations.{IsFreeWord};
ghost use Rattle.knitout_reader.specs.Reading.{ReadsAs, TokensReadAs};
ghost use Rattle.knitout_reader.specs.Shapes.{NameFewCarriers};
ghost use Rattle.knitout_reader.specs.Tokens.{before_comment, tokens_of};

use crate::answers::no_shape;
use crate::carrier_line::read_carrier_operation;
use crate::front::usual_front;
use crate::loop_line::{read_loop_operands, read_loop_operation};
use crate::needle_line::{read_needle_operation, read_split, read_xfer};
use crate::rack_line::read_rack;
use crate::tokens::{code_of, comment_at, next_token};
use crate::words::{FreeOperation, Operation, operation_of};
use knit_base::{Declared, Instr, NoMemory, Profile, Read};
use std::alloc::Global;

/// What a line says, where it stands alone: an instruction, no instruction, or the first rule that it breaks.
///
/// A blank is a space or a tab, and the comment begins at the first `;`. A line that breaks a rule is no error but a reading,
/// `Read::Broken`, with the rule and the place of the token that breaks it. Memory is asked for only where a line names more
/// than four carriers, and `NoMemory` is answered only where there is none for them. Which needles hold loops and which
/// carriers are in isn't looked at.
pub fn read_line(
    alloc: Global,
    line: &str,
    profile: &Profile,
    declared: &Declared,
) -> Result<Read, NoMemory>
    requires short { length line.now < 2 ^ 16 }
    ensures reads { IfOk result (λ r. ReadsAs profile.now declared.now line.now r) }
    ensures only { IfOk result (λ r. (other : Read) → ReadsAs profile.now declared.now line.now other → other ≡ r) }
    ensures lawful { IfOk result (λ r. IsLawfulRead profile.now (length declared.now) r) }

    // Of at most four carriers the line is read in place.
    ensures in_place { NameFewCarriers (tokens_of (before_comment line.now)) → IsOk result }
{
    let bytes = line.as_bytes();
    let code = code_of(bytes);
    if let Some((which, dir, operands)) = usual_front(code) {
        return read_loop_operands(alloc, which, dir, operands, profile, declared);
    }
    if let Some((word, operands)) = next_token(code) {
        return read_tokens(alloc, word, operands, profile, declared);
    }
    Ok(match comment_at(bytes) {
        Some(_) => Read::Comment,
        None => Read::Blank,
    })
}

// What a word and its operands say.
fn read_tokens(
    alloc: Global,
    word: &[u8],
    code: &[u8],
    profile: &Profile,
    declared: &Declared,
) -> Result<Read, NoMemory>
    requires { 4 + length (tokens_of code.now) < 2 ^ 16 }
    ensures reads { IfOk result (λ r. TokensReadAs profile.now declared.now (word.now ∷ tokens_of code.now) r) }
    ensures in_place { NameFewCarriers (word.now ∷ tokens_of code.now) → IsOk result }
{
    match operation_of(word) {
        Some(Operation::Loop(which)) => read_loop_operation(alloc, which, code, profile, declared),
        Some(Operation::Xfer) => Ok(read_xfer(code, profile)),
        Some(Operation::Split) => read_split(alloc, code, profile, declared),
        Some(Operation::Needle(which)) => Ok(read_needle_operation(which, code, profile)),
        Some(Operation::Rack) => Ok(read_rack(code, profile)),
        Some(Operation::Carrier(which)) => read_carrier_operation(alloc, which, code, declared),
        Some(Operation::Free(which)) => Ok(read_free_operation(which)),
        None => Ok(no_shape()),
    }
}

// What an operation without operands of its own says. Any tokens may follow its word.
fn read_free_operation(which: FreeOperation) -> Read
    ensures { (profile : Profile) (names : List (List ℕ)) (word : List ℕ) (free : List (List ℕ)) → IsFreeWord which word
        → TokensReadAs profile names (word ∷ free) result }
{
    match which {
        FreeOperation::Stitch => Read::Instr(Instr::Stitch),
        FreeOperation::Pause => Read::Instr(Instr::Pause),
        FreeOperation::Extension => Read::Instr(Instr::Extension),
    }
}
