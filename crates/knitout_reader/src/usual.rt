//! Lines in the spelling that most lines have, read at once.
//!
//! Nearly all lines of a program are such. The contract says that `read_line` reads them alike, so a caller that takes this way first
//! need not know which way a line went. All of it stands in the caller's loop, since calls would cost as much as their work.
ghost use Rattle.std.specs.Prelude.{◌≡◌, ◌∷◌, ◌++◌, ◌-◌, ◌≤◌, ℕ, List, length, pos, false, IfSome};
ghost use Rattle.knit_base.specs.Needle.{is_slider};
ghost use Rattle.knit_base.specs.Spelling.{bed_word, dir_word};
ghost use Rattle.knitout_reader.specs.Numbers.{IsDigit};
ghost use Rattle.knitout_reader.specs.Usual.{AreByteNames, BeginsWithUsual, BeginsWithUsualName, BeginsWithUsualNeedle, BeginsWithUsualNeedles, BeginsWithUsualNumber, BeginsWithUsualOperands};

use crate::ByteNames;
use knit_base::{Bed, CarrierNo, Dir, Needle, Profile, Usual};

/// What the first line of a text says, where it is spelt as most lines are, and how many bytes it takes with its line feed:
/// `knit` or `tuck` with one carrier whose name is one byte or two digits, or `xfer`, with one space between two tokens and
/// needles of one to three digits. `None` says nothing of the line.
#[inline(always)]
pub fn usual_line(text: &[u8], profile: &Profile, names: &ByteNames) -> Option<(Usual, usize)>
    ensures { IfSome result (λ found. (declared : List (List ℕ)) → AreByteNames declared names.now
        → BeginsWithUsual profile.now declared text.now found.0 found.1) }
{
    if let Some(operands) = behind_four(text, *b"knit") {
        let (dir, needle, c, behind) = usual_operands(operands, profile, names)?;
        return Some((Usual::Knit(dir, needle, c), text.len() - behind.len()));
    }
    if let Some(operands) = behind_four(text, *b"tuck") {
        let (dir, needle, c, behind) = usual_operands(operands, profile, names)?;
        return Some((Usual::Tuck(dir, needle, c), text.len() - behind.len()));
    }
    let operands = behind_four(text, *b"xfer")?;
    let (needle, needle2, behind) = usual_needles(operands, profile)?;
    Some((Usual::Xfer(needle, needle2), text.len() - behind.len()))
}

// What stands behind these four bytes, where a text begins with them. They are compared at once.
#[inline(always)]
pub(crate) fn behind_four<'a>(text: &'a [u8], front: [u8; 4]) -> Option<&'a [u8]>
    ensures { IfSome result (λ rest. text.now ≡ front ++ rest.now) }
{
    match text {
        [a, b, c, d, rest @ ..]
            if u32::from_le_bytes([*a, *b, *c, *d]) == u32::from_le_bytes(front) => { Some(rest) }
        _ => None,
    }
}

// A direction, a needle and a carrier, and what stands behind their line.
#[inline(always)]
fn usual_operands<'a>(
    text: &'a [u8],
    profile: &Profile,
    names: &ByteNames,
) -> Option<(Dir, Needle, CarrierNo, &'a [u8])>
    ensures operands { IfSome result (λ found. (declared : List (List ℕ)) → AreByteNames declared names.now
        → BeginsWithUsualOperands profile.now declared text.now found.0 found.1 found.2 found.3.now) }
    ensures behind { IfSome result (λ found. length found.3.now ≤ length text.now) }
{
    let (dir, bed, behind) = direction_and_bed(text)?;
    let (needle, behind) = needle_on(bed, behind, b' ', profile)?;
    let (c, behind) = usual_name(behind, names)?;
    Some((dir, needle, c, behind))
}

// A direction between two spaces, and a bed of hooks. The four bytes are compared at once.
#[inline(always)]
pub(crate) fn direction_and_bed<'a>(text: &'a [u8]) -> Option<(Dir, Bed, &'a [u8])>
    ensures spelt { IfSome result (λ found. text.now ≡ 32 ∷ (dir_word found.0 ++ 32 ∷ (bed_word found.1 ++ found.2.now))) }
    ensures hook { IfSome result (λ found. is_slider found.1 ≡ false) }
{
    if let Some(behind) = behind_four(text, *b" + f") {
        return Some((Dir::Right, Bed::Front, behind));
    }
    if let Some(behind) = behind_four(text, *b" - f") {
        return Some((Dir::Left, Bed::Front, behind));
    }
    if let Some(behind) = behind_four(text, *b" + b") {
        return Some((Dir::Right, Bed::Back, behind));
    }
    let behind = behind_four(text, *b" - b")?;
    Some((Dir::Left, Bed::Back, behind))
}

// The carrier whose name stands at the end of a line.
#[inline(always)]
fn usual_name<'a>(text: &'a [u8], names: &ByteNames) -> Option<(CarrierNo, &'a [u8])>
    ensures name { IfSome result (λ found. (declared : List (List ℕ)) → AreByteNames declared names.now
        → BeginsWithUsualName declared text.now found.0 found.1.now) }
    ensures behind { IfSome result (λ found. length found.1.now ≤ length text.now) }
{
    if let Some((name, behind)) = last_byte(text) {
        let c = names.find(name)?;
        return Some((c, behind));
    }
    let (tens, ones, behind) = two_digits(text, b'\n')?;
    let c = names.find_pair(tens, ones)?;
    Some((c, behind))
}

// Two needles on different sides, and what stands behind their line.
#[inline(always)]
fn usual_needles<'a>(text: &'a [u8], profile: &Profile) -> Option<(Needle, Needle, &'a [u8])>
    ensures { IfSome result (λ found. BeginsWithUsualNeedles profile.now text.now found.0 found.1 found.2.now) }
{
    let behind = behind_space(text)?;
    let (needle, behind) = usual_needle(behind, b' ', profile)?;
    let (needle2, behind) = usual_needle(behind, b'\n', profile)?;
    if needle.bed.is_front() == needle2.bed.is_front() {
        return None;
    }
    Some((needle, needle2, behind))
}

#[inline(always)]
pub(crate) fn behind_space<'a>(text: &'a [u8]) -> Option<&'a [u8]>
    ensures { IfSome result (λ rest. text.now ≡ 32 ∷ rest.now) }
{
    match text {
        [b' ', rest @ ..] => Some(rest),
        _ => None,
    }
}

// A direction between two spaces.
#[inline(always)]
pub(crate) fn spaced_direction<'a>(text: &'a [u8]) -> Option<(Dir, &'a [u8])>
    ensures { IfSome result (λ found. text.now ≡ 32 ∷ (dir_word found.0 ++ 32 ∷ found.1.now)) }
{
    match text {
        [b' ', b'+', b' ', rest @ ..] => Some((Dir::Right, rest)),
        [b' ', b'-', b' ', rest @ ..] => Some((Dir::Left, rest)),
        _ => None,
    }
}

// One byte at the end of a line.
#[inline(always)]
fn last_byte<'a>(text: &'a [u8]) -> Option<(u8, &'a [u8])>
    ensures { IfSome result (λ found. text.now ≡ found.0 ∷ 10 ∷ found.1.now) }
{
    match text {
        [byte, b'\n', rest @ ..] => Some((*byte, rest)),
        _ => None,
    }
}

// A needle on a hook of the bed, with this byte behind it.
#[inline(always)]
pub(crate) fn usual_needle<'a>(
    text: &'a [u8],
    end: u8,
    profile: &Profile,
) -> Option<(Needle, &'a [u8])>
    ensures { IfSome result (λ found. BeginsWithUsualNeedle profile.now text.now found.0 end found.1.now) }
{
    let (bed, behind) = hook_bed(text)?;
    needle_on(bed, behind, end, profile)
}

// The same behind its bed's letter.
#[inline(always)]
pub(crate) fn needle_on<'a>(
    bed: Bed,
    text: &'a [u8],
    end: u8,
    profile: &Profile,
) -> Option<(Needle, &'a [u8])>
    requires { is_slider bed ≡ false }
    ensures { IfSome result (λ found. BeginsWithUsualNeedle profile.now (bed_word bed ++ text.now) found.0 end found.1.now) }
{
    let (at, behind) = usual_number(text, end)?;
    if at < profile.low || profile.high < at {
        return None;
    }
    Some((Needle { bed, at }, behind))
}

#[inline(always)]
pub(crate) fn hook_bed<'a>(text: &'a [u8]) -> Option<(Bed, &'a [u8])>
    ensures bed { IfSome result (λ found. text.now ≡ bed_word found.0 ++ found.1.now) }
    ensures hook { IfSome result (λ found. is_slider found.0 ≡ false) }
{
    match text {
        [b'f', rest @ ..] => Some((Bed::Front, rest)),
        [b'b', rest @ ..] => Some((Bed::Back, rest)),
        _ => None,
    }
}

// A number of one to three digits, with this byte behind it.
#[inline(always)]
fn usual_number<'a>(text: &'a [u8], end: u8) -> Option<(i16, &'a [u8])>
    ensures { IfSome result (λ found. BeginsWithUsualNumber text.now found.0 end found.1.now) }
{
    if let Some((a, rest)) = one_digit(text, end) {
        return Some((digit(a), rest));
    }
    if let Some((a, b, rest)) = two_digits(text, end) {
        return Some((10 * digit(a) + digit(b), rest));
    }
    let (a, b, c, rest) = three_digits(text, end)?;
    Some((100 * digit(a) + 10 * digit(b) + digit(c), rest))
}

#[inline(always)]
fn one_digit<'a>(text: &'a [u8], end: u8) -> Option<(u8, &'a [u8])>
    ensures { IfSome result (λ found. IsDigit found.0 × (text.now ≡ found.0 ∷ end ∷ found.1.now)) }
{
    match text {
        [a, last, rest @ ..] if a.is_ascii_digit() && *last == end => Some((*a, rest)),
        _ => None,
    }
}

#[inline(always)]
fn two_digits<'a>(text: &'a [u8], end: u8) -> Option<(u8, u8, &'a [u8])>
    ensures { IfSome result (λ found. IsDigit found.0 × IsDigit found.1 × (text.now ≡ found.0 ∷ found.1 ∷ end ∷ found.2.now)) }
{
    match text {
        [a, b, last, rest @ ..] if a.is_ascii_digit() && b.is_ascii_digit() && *last == end => {
            Some((*a, *b, rest))
        }
        _ => None,
    }
}

#[inline(always)]
fn three_digits<'a>(text: &'a [u8], end: u8) -> Option<(u8, u8, u8, &'a [u8])>
    ensures { IfSome result (λ found. IsDigit found.0 × IsDigit found.1 × IsDigit found.2 × (text.now ≡ found.0 ∷ found.1 ∷ found.2 ∷ end ∷ found.3.now)) }
{
    match text {
        [a, b, c, last, rest @ ..]
            if a.is_ascii_digit() && b.is_ascii_digit() && c.is_ascii_digit() && *last == end => {
            Some((*a, *b, *c, rest))
        }
        _ => None,
    }
}

// The value of a digit.
#[inline(always)]
pub(crate) fn digit(byte: u8) -> i16
    requires { IsDigit byte }
    ensures { result ≡ pos (byte - 48) }
{
    i16::from(byte - b'0')
}
