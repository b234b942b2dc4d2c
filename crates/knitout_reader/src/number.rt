//! Numbers and needles, as tokens spell them.
ghost use Rattle.std.specs.Prelude.{◌≡◌, ◌+◌, ◌-◌, ◌*◌, ◌<◌, min, All, MatchOption, List, ℕ, ◌≢◌, ◌∷◌};
ghost use Rattle.std.specs.Prelude.{ℤ};
ghost use Rattle.knitout_reader.specs.Numbers.{AreDigits, IsDigit, IsNear, IsNeedle, IsSigned, value_of_digits};
ghost use Rattle.knit_base.specs.declared.needle.Bed.{Bed};

use knit_base::Bed;

/// A value from which on a number is outside every bed, and a rack beyond every limit.
pub(crate) const FAR: u32 = 100_000;

/// A needle as it is written. Its number may be outside every bed.
#[derive(Clone, Copy, Debug, PartialEq, Eq)]
pub(crate) struct NeedleToken {
    pub bed: Bed,
    /// The number itself, where that is nearer to 0 than `FAR`; else one as far on its side.
    pub at: i32,
}

/// The needle that a token names: `f`, `b`, `fs` or `bs`, an optional sign, and digits.
pub(crate) fn needle(token: &[u8]) -> Option<NeedleToken>
    ensures { MatchOption result ((bed : Bed) (z : ℤ) → IsNeedle token.now bed z → ⊥) (λ n. (z : ℤ) × IsNeedle token.now n.bed z × IsNear FAR n.at z) }
{
    if let Some(text) = after(token, b'f') {
        return match after(text, b's') {
            Some(number) => on_bed(Bed::FrontSlider, number),
            None => on_bed(Bed::Front, text),
        };
    }
    if let Some(text) = after(token, b'b') {
        return match after(text, b's') {
            Some(number) => on_bed(Bed::BackSlider, number),
            None => on_bed(Bed::Back, text),
        };
    }
    None
}

/// What follows a byte at the front of a text.
#[inline(always)]
pub(crate) fn after(text: &[u8], byte: u8) -> Option<&[u8]>
    ensures { MatchOption result ((rest : List ℕ) → text.now ≢ byte ∷ rest) (λ rest. text.now ≡ byte ∷ rest.now) }
{
    match text {
        [first, rest @ ..] if *first == byte => Some(rest),
        _ => None,
    }
}

// A needle of this bed, with this number.
fn on_bed(bed: Bed, number: &[u8]) -> Option<NeedleToken>
    ensures { MatchOption result ((z : ℤ) → IsSigned number.now z → ⊥) (λ n. (n.bed ≡ bed) × ((z : ℤ) × IsSigned number.now z × IsNear FAR n.at z)) }
{
    let at = signed(number)?;
    Some(NeedleToken { bed, at })
}

/// The number that an optional sign and digits spell, or one as far on its side.
pub(crate) fn signed(text: &[u8]) -> Option<i32>
    ensures { MatchOption result ((z : ℤ) → IsSigned text.now z → ⊥) (λ n. (z : ℤ) × IsSigned text.now z × IsNear FAR n z) }
{
    match text {
        [b'+', digits @ ..] => Some(number(digits)? as i32),
        [b'-', digits @ ..] => Some(-(number(digits)? as i32)),
        digits => Some(number(digits)? as i32),
    }
}

/// The number that the digits spell, or `FAR` where it is greater. `None` where the text is empty or has another byte.
pub(crate) fn number(digits: &[u8]) -> Option<u32>
    ensures { MatchOption result (¬ AreDigits digits.now) (λ n. AreDigits digits.now × (n ≡ min (value_of_digits digits.now) FAR)) }
{
    if digits.is_empty() {
        return None;
    }
    value_of(digits)
}

// The number of none or more digits, or `FAR` where it is greater.
pub(crate) fn value_of(digits: &[u8]) -> Option<u32>
    ensures { MatchOption result (¬ All IsDigit digits.now) (λ n. All IsDigit digits.now × (n ≡ min (value_of_digits digits.now) FAR)) }
{
    let mut value = 0;
    for digit in digits {
        if !digit.is_ascii_digit() {
            return None;
        }
        value = (value * 10 + u32::from(*digit - b'0')).min(FAR);
    }
    Some(value)
}
