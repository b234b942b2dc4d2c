//! Lines whose spelling is seen at once to be canonical, whatever they read as.
//!
//! A file that was written by a program is in this spelling for the most part, and its lines are then copied unread.
ghost use Rattle.std.specs.Prelude.{◌≡◌, ◌↔◌, ◌∷◌, true, IfSome, IsTrue};
ghost use Rattle.knitout_reader.specs.Numbers.{IsDigit};
ghost use Rattle.knitout_reader.specs.Shortest.{AreShortestNeedles, AreShortestOperands, BeginsWithShortestNeedle, BeginsWithShortestNumber, IsShortestSpelling, IsLastName};

use crate::usual::{behind_four, behind_space, hook_bed, spaced_direction};

/// Whether a line is spelt as its instruction is, where it is one: `knit` or `tuck` with one carrier whose name is one byte,
/// or `xfer`, with one space between two tokens and the shortest number of each needle. `false` says nothing.
#[inline(always)]
pub fn is_shortest_spelling(line: &[u8]) -> bool
    ensures { result ≡ true → IsShortestSpelling line.now }
{
    if let Some(operands) = behind_four(line, *b"knit") {
        return are_shortest_operands(operands);
    }
    if let Some(operands) = behind_four(line, *b"tuck") {
        return are_shortest_operands(operands);
    }
    match behind_four(line, *b"xfer") {
        Some(operands) => are_shortest_needles(operands),
        None => false,
    }
}

// A direction, a needle and a carrier.
#[inline(always)]
fn are_shortest_operands(text: &[u8]) -> bool
    ensures { result ≡ true → AreShortestOperands text.now }
{
    let Some((_, behind)) = spaced_direction(text) else {
        return false;
    };
    match behind_shortest_needle(behind) {
        Some(name) => is_last_name(name),
        None => false,
    }
}

// Two needles.
#[inline(always)]
fn are_shortest_needles(text: &[u8]) -> bool
    ensures { result ≡ true → AreShortestNeedles text.now }
{
    let Some(needles) = behind_space(text) else {
        return false;
    };
    let Some(behind) = behind_shortest_needle(needles) else {
        return false;
    };
    let Some(needle) = behind_space(behind) else {
        return false;
    };
    match behind_shortest_needle(needle) {
        Some([]) => true,
        _ => false,
    }
}

// A space, and a name of one byte.
#[inline(always)]
fn is_last_name(text: &[u8]) -> bool
    ensures { result ≡ true → IsLastName text.now }
{
    match text {
        [b' ', name] => *name != b' ' && *name != b'\t' && *name != b';',
        _ => false,
    }
}

#[inline(always)]
fn behind_shortest_needle<'a>(text: &'a [u8]) -> Option<&'a [u8]>
    ensures { IfSome result (λ rest. BeginsWithShortestNeedle text.now rest.now) }
{
    let (_bed, number) = hook_bed(text)?;
    behind_shortest_number(number)
}

// What stands behind a number of one to three digits.
#[inline(always)]
fn behind_shortest_number<'a>(text: &'a [u8]) -> Option<&'a [u8]>
    ensures { IfSome result (λ rest. BeginsWithShortestNumber text.now rest.now) }
{
    let (a, ones) = first_digit(text)?;
    if stands_alone(a) {
        return Some(ones);
    }
    let Some((_b, tens)) = first_digit(ones) else {
        return Some(ones);
    };
    let Some((_c, hundreds)) = first_digit(tens) else {
        return Some(tens);
    };
    Some(hundreds)
}

// A zero in front of other digits isn't the shortest spelling.
#[inline(always)]
fn stands_alone(digit: u8) -> bool
    ensures { IsTrue result ↔ digit ≡ 48 }
{
    digit == b'0'
}

#[inline(always)]
fn first_digit<'a>(text: &'a [u8]) -> Option<(u8, &'a [u8])>
    ensures { IfSome result (λ found. IsDigit found.0 × (text.now ≡ found.0 ∷ found.1.now)) }
{
    match text {
        [byte, rest @ ..] if byte.is_ascii_digit() => Some((*byte, rest)),
        _ => None,
    }
}
