//! A line alone in the spelling that most lines have, read at once.
//!
//! What `usual_line` is to the front of a text, this is to a line without its line feed. It looks the carrier's name up in the header's names, so it needs no
//! table of them; a name that the line before had isn't looked up again.
ghost use Rattle.std.specs.Prelude.{◌≡◌, ◌∷◌, ◌++◌, ℕ, List, [], true, length, IfSome};
ghost use Rattle.knit_base.specs.declared.instr.Read.{Read};
ghost use Rattle.knit_base.specs.Lawful.{IsLawfulRead};
ghost use Rattle.knit_base.specs.Usual.{usual_read};
ghost use Rattle.knitout_reader.specs.Numbers.{IsDigit};
ghost use Rattle.knitout_reader.specs.Reading.{ReadsAs};
ghost use Rattle.knitout_reader.specs.Usual.{BeginsWithUsualName, BeginsWithUsualNeedle, BeginsWithUsualNeedles, BeginsWithUsualNumber, BeginsWithUsualOperands, IsByteName, IsShortToken, IsTokenByte, KnowsLastCarrier};

use crate::usual::{
    behind_four, behind_space, digit, direction_and_bed, hook_bed, needle_on, usual_needle,
};
use knit_base::{CarrierNo, Declared, Dir, Needle, Profile, Usual};

/// The carrier that a line named last by one byte. Most lines name the carrier of the line before, which then needs no look-up.
#[derive(Clone, Copy, Debug, PartialEq, Eq)]
pub struct LastNamed {
    byte: u8,
    carrier: Option<CarrierNo>,
}

impl LastNamed {
    /// No line has named a carrier.
    pub fn none() -> Self
        ensures { (names : List (List ℕ)) → KnowsLastCarrier names result }
    {
        LastNamed {
            byte: 0,
            carrier: None,
        }
    }

    // The carrier that this byte names alone.
    #[inline(always)]
    fn find(&mut self, byte: u8, declared: &Declared) -> Option<CarrierNo>
        requires { KnowsLastCarrier declared.now self.old }
        ensures name { IfSome result (λ c. IsByteName declared.now byte c.0) }
        ensures last { KnowsLastCarrier declared.now self.new }
    {
        if byte == self.byte && self.carrier.is_some() {
            return self.carrier;
        }
        self.look_up(byte, declared)
    }

    // The same of a byte that wasn't the last one.
    #[inline(never)]
    fn look_up(&mut self, byte: u8, declared: &Declared) -> Option<CarrierNo>
        requires { KnowsLastCarrier declared.now self.old }
        ensures name { IfSome result (λ c. IsByteName declared.now byte c.0) }
        ensures last { KnowsLastCarrier declared.now self.new }
    {
        if !is_plain(byte) {
            return None;
        }
        let c = declared.find_bytes(&[byte])?;
        self.byte = byte;
        self.carrier = Some(c);
        Some(c)
    }
}

/// What the line says, where it is spelt as most lines are: `knit` or `tuck` with one carrier whose name has one or two bytes, or
/// `xfer`, with one space between two tokens and needles of one to three digits. `None` says nothing of the line. `last` is what the
/// lines before named with the same declared names.
pub fn usual_whole_line(
    line: &[u8],
    profile: &Profile,
    declared: &Declared,
    last: &mut LastNamed,
) -> Option<Usual>
    requires { KnowsLastCarrier declared.now last.old }
    ensures last { KnowsLastCarrier declared.now last.new }
    ensures reads { IfSome result (λ usual. ReadsAs profile.now declared.now line.now (usual_read usual)) }
    ensures only { IfSome result (λ usual. (other : Read) → ReadsAs profile.now declared.now line.now other → other ≡ usual_read usual) }
    ensures lawful { IfSome result (λ usual. IsLawfulRead profile.now (length declared.now) (usual_read usual)) }
{
    if let Some(operands) = behind_four(line, *b"knit") {
        let (dir, needle, c) = whole_operands(operands, profile, declared, last)?;
        return Some(Usual::Knit(dir, needle, c));
    }
    if let Some(operands) = behind_four(line, *b"tuck") {
        let (dir, needle, c) = whole_operands(operands, profile, declared, last)?;
        return Some(Usual::Tuck(dir, needle, c));
    }
    let operands = behind_four(line, *b"xfer")?;
    let (needle, needle2) = whole_needles(operands, profile)?;
    Some(Usual::Xfer(needle, needle2))
}

// A direction, a needle and a carrier, and nothing behind them.
#[inline(always)]
fn whole_operands(
    text: &[u8],
    profile: &Profile,
    declared: &Declared,
    last: &mut LastNamed,
) -> Option<(Dir, Needle, CarrierNo)>
    requires { KnowsLastCarrier declared.now last.old }
    ensures last { KnowsLastCarrier declared.now last.new }
    ensures operands { IfSome result (λ found. BeginsWithUsualOperands profile.now declared.now (text.now ++ 10 ∷ []) found.0 found.1 found.2 []) }
{
    let (dir, bed, behind) = direction_and_bed(text)?;
    let (needle, name) = needle_on(bed, behind, b' ', profile)?;
    let c = whole_name(name, declared, last)?;
    Some((dir, needle, c))
}

// The carrier of this name.
#[inline(always)]
fn whole_name(name: &[u8], declared: &Declared, last: &mut LastNamed) -> Option<CarrierNo>
    requires { KnowsLastCarrier declared.now last.old }
    ensures last { KnowsLastCarrier declared.now last.new }
    ensures name { IfSome result (λ c. BeginsWithUsualName declared.now (name.now ++ 10 ∷ []) c []) }
{
    if let Some(byte) = only_byte(name) {
        return last.find(byte, declared);
    }
    if is_short_token(name) {
        return declared.find_bytes(name);
    }
    None
}

// The one byte of a name that has no other.
#[inline(always)]
fn only_byte(name: &[u8]) -> Option<u8>
    ensures { IfSome result (λ byte. name.now ≡ byte ∷ []) }
{
    match name {
        [byte] => Some(*byte),
        _ => None,
    }
}

// Whether the bytes are a token of one or two bytes.
#[inline(always)]
fn is_short_token(bytes: &[u8]) -> bool
    ensures { result ≡ true → IsShortToken bytes.now }
{
    match bytes {
        [a] => is_plain(*a),
        [a, b] => is_plain(*a) && is_plain(*b),
        _ => false,
    }
}

// Whether the byte is part of a token, of no comment and of no line's end.
#[inline(always)]
fn is_plain(byte: u8) -> bool
    ensures { result ≡ true → IsTokenByte byte }
{
    byte > b' ' && byte < 128 && byte != b';'
}

// Two needles on different sides, and nothing behind them.
#[inline(always)]
fn whole_needles(text: &[u8], profile: &Profile) -> Option<(Needle, Needle)>
    ensures { IfSome result (λ found. BeginsWithUsualNeedles profile.now (text.now ++ 10 ∷ []) found.0 found.1 []) }
{
    let needles = behind_space(text)?;
    let (needle, behind) = usual_needle(needles, b' ', profile)?;
    let needle2 = whole_needle(behind, profile)?;
    if needle.bed.is_front() == needle2.bed.is_front() {
        return None;
    }
    Some((needle, needle2))
}

// A needle on a hook of the bed, and nothing behind it.
#[inline(always)]
fn whole_needle(text: &[u8], profile: &Profile) -> Option<Needle>
    ensures { IfSome result (λ n. BeginsWithUsualNeedle profile.now (text.now ++ 10 ∷ []) n 10 []) }
{
    let (bed, behind) = hook_bed(text)?;
    let at = whole_number(behind)?;
    if at < profile.low || profile.high < at {
        return None;
    }
    Some(Needle { bed, at })
}

// A number of one to three digits, and nothing behind it.
#[inline(always)]
fn whole_number(text: &[u8]) -> Option<i16>
    ensures { IfSome result (λ at. BeginsWithUsualNumber (text.now ++ 10 ∷ []) at 10 []) }
{
    if let Some(a) = whole_digit(text) {
        return Some(digit(a));
    }
    if let Some((a, b)) = whole_two_digits(text) {
        return Some(10 * digit(a) + digit(b));
    }
    let (a, b, c) = whole_three_digits(text)?;
    Some(100 * digit(a) + 10 * digit(b) + digit(c))
}

#[inline(always)]
fn whole_digit(text: &[u8]) -> Option<u8>
    ensures { IfSome result (λ a. IsDigit a × (text.now ≡ a ∷ [])) }
{
    match text {
        [a] if a.is_ascii_digit() => Some(*a),
        _ => None,
    }
}

#[inline(always)]
fn whole_two_digits(text: &[u8]) -> Option<(u8, u8)>
    ensures { IfSome result (λ found. IsDigit found.0 × IsDigit found.1 × (text.now ≡ found.0 ∷ found.1 ∷ [])) }
{
    match text {
        [a, b] if a.is_ascii_digit() && b.is_ascii_digit() => Some((*a, *b)),
        _ => None,
    }
}

#[inline(always)]
fn whole_three_digits(text: &[u8]) -> Option<(u8, u8, u8)>
    ensures { IfSome result (λ found. IsDigit found.0 × IsDigit found.1 × IsDigit found.2 × (text.now ≡ found.0 ∷ found.1 ∷ found.2 ∷ [])) }
{
    match text {
        [a, b, c] if a.is_ascii_digit() && b.is_ascii_digit() && c.is_ascii_digit() => {
            Some((*a, *b, *c))
        }
        _ => None,
    }
}
