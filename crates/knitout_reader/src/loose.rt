//! Lines that say what most lines say, in any spelling, read at once.
//!
//! Each token is told where it stands, before the end of its line is looked for. So a contract says which tokens a line has in front,
//! whatever the rest of it turns out to be.
ghost use Rattle.std.specs.Prelude.{◌≡◌, ◌∷◌, ◌++◌, ◌≤◌, ℕ, List, [], true, length, All, IfSome};
ghost use Rattle.knit_base.specs.Spelling.{bed_word, dir_word};
ghost use Rattle.knitout_reader.specs.Loose.{BeginsWithBytesOf, BeginsWithDigits, BeginsWithNameOf, BeginsWithNeedleToken, BeginsWithSigned, EndsLine, GoesOnTo, HasNeedles, HasOperands, LeadsTo, Says};
ghost use Rattle.knitout_reader.specs.Numbers.{IsDigit};
ghost use Rattle.knitout_reader.specs.Tokens.{is_blank};
ghost use Rattle.knitout_reader.specs.Usual.{AreByteNames, BeginsWithLine};

use crate::ByteNames;
use crate::number::{FAR, NeedleToken, after};
use crate::operands::{on_bed, opposite_rule};
use crate::tokens::count_blanks;
use crate::usual::behind_four;
use knit_base::{Bed, CarrierNo, Dir, Needle, Profile, Usual};
use line_cutter::LINE_LIMIT;

/// What the first line of a text says, and how many bytes it takes with its line feed, where it is ASCII and says `knit` or `tuck`
/// with one carrier whose name is one byte or two digits, or `xfer`. Any blanks stand around its tokens, numbers have any digits and
/// signs, and a comment may stand behind. `None` says nothing of the line.
#[inline(never)]
pub fn loose_line(text: &[u8], profile: &Profile, names: &ByteNames) -> Option<(Usual, usize)>
    ensures { IfSome result (λ found. (declared : List (List ℕ)) → AreByteNames declared names.now
        → BeginsWithLine 4096 profile.now declared text.now found.0 found.1) }
{
    let (usual, behind) = loose_usual(behind_blanks(text), profile, names)?;
    let len = text.len() - behind.len();
    if LINE_LIMIT < len {
        return None;
    }
    Some((usual, len))
}

// What a line says that begins here with its word, and what stands behind the line.
#[inline(always)]
fn loose_usual<'a>(
    text: &'a [u8],
    profile: &Profile,
    names: &ByteNames,
) -> Option<(Usual, &'a [u8])>
    ensures says { IfSome result (λ found. (declared : List (List ℕ)) → AreByteNames declared names.now
        → Says profile.now declared text.now found.0 found.1.now) }
    ensures behind { IfSome result (λ found. length found.1.now ≤ length text.now) }
{
    if let Some(operands) = behind_four(text, *b"knit") {
        let (dir, needle, c, behind) = loose_operands(operands, profile, names)?;
        return Some((Usual::Knit(dir, needle, c), behind));
    }
    if let Some(operands) = behind_four(text, *b"tuck") {
        let (dir, needle, c, behind) = loose_operands(operands, profile, names)?;
        return Some((Usual::Tuck(dir, needle, c), behind));
    }
    let operands = behind_four(text, *b"xfer")?;
    let (needle, needle2, behind) = loose_needles(operands, profile)?;
    Some((Usual::Xfer(needle, needle2), behind))
}

// A direction, a needle and a carrier, and what stands behind their line.
#[inline(always)]
fn loose_operands<'a>(
    text: &'a [u8],
    profile: &Profile,
    names: &ByteNames,
) -> Option<(Dir, Needle, CarrierNo, &'a [u8])>
    ensures operands { IfSome result (λ found. (declared : List (List ℕ)) → AreByteNames declared names.now
        → HasOperands profile.now declared text.now found.0 found.1 found.2 found.3.now) }
    ensures behind { IfSome result (λ found. length found.3.now ≤ length text.now) }
{
    let (dir, token) = loose_direction(text)?;
    let (needle, behind) = loose_needle(token, profile)?;
    if needle.bed.is_slider() {
        return None;
    }
    let name = behind_some_blanks(behind)?;
    let (c, last) = loose_name(name, names)?;
    let end = line_end(last)?;
    Some((dir, needle, c, end))
}

// Two needles between which loops are moved, and what stands behind their line.
#[inline(always)]
fn loose_needles<'a>(text: &'a [u8], profile: &Profile) -> Option<(Needle, Needle, &'a [u8])>
    ensures needles { IfSome result (λ found. HasNeedles profile.now text.now found.0 found.1 found.2.now) }
    ensures behind { IfSome result (λ found. length found.2.now ≤ length text.now) }
{
    let first = behind_some_blanks(text)?;
    let (needle, behind) = loose_needle(first, profile)?;
    let second = behind_some_blanks(behind)?;
    let (needle2, last) = loose_needle(second, profile)?;
    if opposite_rule(needle.bed, needle2.bed, 2).is_some() {
        return None;
    }
    let end = line_end(last)?;
    Some((needle, needle2, end))
}

// What stands behind the blanks in front.
#[inline(always)]
fn behind_blanks<'a>(text: &'a [u8]) -> &'a [u8]
    ensures blanks { (blanks : List ℕ) × All (λ byte. is_blank byte ≡ true) blanks × (text.now ≡ blanks ++ result.now) }
    ensures behind { length result.now ≤ length text.now }
{
    &text[count_blanks(text)..]
}

// The same, where a blank stands in front.
#[inline(always)]
fn behind_some_blanks<'a>(text: &'a [u8]) -> Option<&'a [u8]>
    ensures line { IfSome result (λ rest. LeadsTo text.now [] rest.now) }
    ensures behind { IfSome result (λ rest. length rest.now ≤ length text.now) }
{
    if let Some(rest) = after(text, b' ') {
        return Some(behind_blanks(rest));
    }
    let rest = after(text, b'\t')?;
    Some(behind_blanks(rest))
}

// A direction between blanks.
#[inline(always)]
fn loose_direction<'a>(text: &'a [u8]) -> Option<(Dir, &'a [u8])>
    ensures line { IfSome result (λ found. LeadsTo text.now (dir_word found.0 ∷ []) found.1.now) }
    ensures behind { IfSome result (λ found. length found.1.now ≤ length text.now) }
{
    let (dir, behind) = sign(behind_some_blanks(text)?)?;
    let token = behind_some_blanks(behind)?;
    Some((dir, token))
}

// The sign in front.
#[inline(always)]
fn sign<'a>(text: &'a [u8]) -> Option<(Dir, &'a [u8])>
    ensures { IfSome result (λ found. text.now ≡ dir_word found.0 ++ found.1.now) }
{
    match text {
        [b'+', rest @ ..] => Some((Dir::Right, rest)),
        [b'-', rest @ ..] => Some((Dir::Left, rest)),
        _ => None,
    }
}

// A needle on the bed.
#[inline(always)]
fn loose_needle<'a>(text: &'a [u8], profile: &Profile) -> Option<(Needle, &'a [u8])>
    ensures needle { IfSome result (λ found. BeginsWithBytesOf profile.now text.now found.0 found.1.now) }
    ensures behind { IfSome result (λ found. length found.1.now ≤ length text.now) }
{
    let (token, behind) = needle_in_front(text)?;
    let needle = on_bed(profile, token)?;
    Some((needle, behind))
}

// A needle as it is written.
#[inline(always)]
fn needle_in_front<'a>(text: &'a [u8]) -> Option<(NeedleToken, &'a [u8])>
    ensures needle { IfSome result (λ found. BeginsWithNeedleToken FAR text.now found.0.bed found.0.at found.1.now) }
    ensures behind { IfSome result (λ found. length found.1.now ≤ length text.now) }
{
    let (bed, number) = any_bed(text)?;
    let (at, behind) = loose_number(number)?;
    Some((NeedleToken { bed, at }, behind))
}

#[inline(always)]
fn any_bed<'a>(text: &'a [u8]) -> Option<(Bed, &'a [u8])>
    ensures { IfSome result (λ found. text.now ≡ bed_word found.0 ++ found.1.now) }
{
    match text {
        [b'f', b's', rest @ ..] => Some((Bed::FrontSlider, rest)),
        [b'b', b's', rest @ ..] => Some((Bed::BackSlider, rest)),
        [b'f', rest @ ..] => Some((Bed::Front, rest)),
        [b'b', rest @ ..] => Some((Bed::Back, rest)),
        _ => None,
    }
}

// A number in front, with a sign or without one, or one as far on its side.
#[inline(always)]
fn loose_number<'a>(text: &'a [u8]) -> Option<(i32, &'a [u8])>
    ensures number { IfSome result (λ found. BeginsWithSigned FAR text.now found.0 found.1.now) }
    ensures behind { IfSome result (λ found. length found.1.now ≤ length text.now) }
{
    if let Some(digits) = after(text, b'+') {
        let (number, behind) = digits_in_front(digits)?;
        return Some((number as i32, behind));
    }
    if let Some(digits) = after(text, b'-') {
        let (number, behind) = digits_in_front(digits)?;
        return Some((-(number as i32), behind));
    }
    let (number, behind) = digits_in_front(text)?;
    Some((number as i32, behind))
}

// The number of the digits in front, or `FAR` where it is greater.
#[inline(always)]
fn digits_in_front<'a>(text: &'a [u8]) -> Option<(u32, &'a [u8])>
    ensures digits { IfSome result (λ found. BeginsWithDigits FAR text.now found.0 found.1.now) }
    ensures behind { IfSome result (λ found. length found.1.now ≤ length text.now) }
{
    let mut value = 0;
    for (at, digit) in text.iter().enumerate() {
        if !digit.is_ascii_digit() {
            if at == 0 {
                return None;
            }
            return Some((value, &text[at..]));
        }
        value = (value * 10 + u32::from(*digit - b'0')).min(FAR);
    }
    None
}

// The carrier whose name stands in front: two digits, or one byte.
#[inline(always)]
fn loose_name<'a>(text: &'a [u8], names: &ByteNames) -> Option<(CarrierNo, &'a [u8])>
    ensures name { IfSome result (λ found. (declared : List (List ℕ)) → AreByteNames declared names.now
        → BeginsWithNameOf declared text.now found.0 found.1.now) }
    ensures behind { IfSome result (λ found. length found.1.now ≤ length text.now) }
{
    if let Some((tens, ones, behind)) = two_digits_in_front(text) {
        let c = names.find_pair(tens, ones)?;
        return Some((c, behind));
    }
    let (name, behind) = byte_in_front(text)?;
    let c = names.find(name)?;
    Some((c, behind))
}

#[inline(always)]
fn two_digits_in_front<'a>(text: &'a [u8]) -> Option<(u8, u8, &'a [u8])>
    ensures { IfSome result (λ found. IsDigit found.0 × IsDigit found.1 × (text.now ≡ found.0 ∷ found.1 ∷ found.2.now)) }
{
    match text {
        [tens, ones, rest @ ..] if tens.is_ascii_digit() && ones.is_ascii_digit() => {
            Some((*tens, *ones, rest))
        }
        _ => None,
    }
}

#[inline(always)]
fn byte_in_front<'a>(text: &'a [u8]) -> Option<(u8, &'a [u8])>
    ensures { IfSome result (λ found. text.now ≡ found.0 ∷ found.1.now) }
{
    match text {
        [byte, rest @ ..] => Some((*byte, rest)),
        _ => None,
    }
}

// What stands behind a line that has no token more.
#[inline(always)]
fn line_end<'a>(text: &'a [u8]) -> Option<&'a [u8]>
    ensures line { IfSome result (λ rest. EndsLine text.now rest.now) }
    ensures behind { IfSome result (λ rest. length rest.now ≤ length text.now) }
{
    let last = behind_blanks(text);
    if let Some(rest) = after(last, b'\n') {
        return Some(rest);
    }
    let comment = after(last, b';')?;
    let rest = behind_comment(comment)?;
    Some(rest)
}

// What stands behind the line feed at which a comment ends.
#[inline(always)]
fn behind_comment<'a>(text: &'a [u8]) -> Option<&'a [u8]>
    ensures line { IfSome result (λ rest. GoesOnTo text.now rest.now) }
    ensures behind { IfSome result (λ rest. length rest.now ≤ length text.now) }
{
    for (at, byte) in text.iter().enumerate() {
        if *byte == b'\n' {
            return Some(&text[at + 1..]);
        }
        if *byte >= 128 || *byte == b'\r' {
            return None;
        }
    }
    None
}
