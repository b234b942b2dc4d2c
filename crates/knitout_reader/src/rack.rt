//! Racks, as tokens spell them.
ghost use Rattle.std.specs.Prelude.{◌≡◌, ◌+◌, ◌-◌, ◌*◌, ◌<◌, ◌↔◌, min, List, ℕ, Bool, [], ◌∷◌, ◌++◌, All, MatchOption, IsTrue, nat_lt};
ghost use Rattle.knitout_reader.specs.Numbers.{IsDecimal, IsDigit, IsNoPoint, IsQuarter, IsRack, value_of_digits};

use crate::number::{FAR, after, number, value_of};

/// A rack as it is written: its sign, the needles before the point, and the quarters behind it.
#[derive(Clone, Copy, Debug, PartialEq, Eq)]
pub(crate) struct RackToken {
    /// Whether it is written with a `-`. `-0` is 0.
    pub negative: bool,
    /// The whole needles, or `FAR` where they are more.
    pub whole: u32,
    /// The quarters behind the point, 0 to 3. `None` where the rack isn't a multiple of a quarter.
    pub quarter: Option<u8>,
}

/// The rack that a token spells: an optional sign, then digits, or digits and a point and none or more digits, or a point
/// and one or more digits. There may be any number of digits.
pub(crate) fn rack(token: &[u8]) -> Option<RackToken>
    ensures { MatchOption result
        ((negative : Bool) (whole fraction : List ℕ) → IsRack token.now negative whole fraction → ⊥)
        (λ r. (whole : List ℕ) × (fraction : List ℕ) × IsRack token.now r.negative whole fraction × (r.whole ≡ min (value_of_digits whole) FAR)
        × MatchOption r.quarter ((q : ℕ) → IsQuarter fraction q → ⊥) (λ q. IsQuarter fraction q)) }
{
    if let Some(text) = after(token, b'-') {
        return unsigned(true, text);
    }
    if let Some(text) = after(token, b'+') {
        return unsigned(false, text);
    }
    unsigned(false, token)
}

// The rack with this sign and this text behind it.
fn unsigned(negative: bool, text: &[u8]) -> Option<RackToken>
    ensures { MatchOption result
        ((whole fraction : List ℕ) → IsDecimal text.now whole fraction → ⊥)
        (λ r. (r.negative ≡ negative) × ((whole : List ℕ) × (fraction : List ℕ) × IsDecimal text.now whole fraction × (r.whole ≡ min (value_of_digits whole) FAR)
        × MatchOption r.quarter ((q : ℕ) → IsQuarter fraction q → ⊥) (λ q. IsQuarter fraction q))) }
{
    let Some((front, fraction)) = split_at_point(text) else {
        let whole = number(text)?;
        return Some(RackToken {
            negative,
            whole,
            quarter: Some(0),
        });
    };
    if text.len() == 1 {
        return None;
    }
    if !are_digits(fraction) {
        return None;
    }
    let Some(whole) = value_of(front) else {
        return None;
    };
    let quarter = quarter(fraction);
    Some(RackToken {
        negative,
        whole,
        quarter,
    })
}

// What stands before the first point, and what behind it.
fn split_at_point<'a>(text: &'a [u8]) -> Option<(&'a [u8], &'a [u8])>
    ensures { MatchOption result (All IsNoPoint text.now) (λ parts. (text.now ≡ parts.0.now ++ 46 ∷ parts.1.now) × All IsNoPoint parts.0.now) }
{
    for (at, byte) in text.iter().enumerate() {
        if *byte == b'.' {
            return Some((&text[..at], &text[at + 1..]));
        }
    }
    None
}

fn are_digits(text: &[u8]) -> bool
    ensures { IsTrue result ↔ All IsDigit text.now }
{
    text.iter().all(|byte| byte.is_ascii_digit())
}

// How many quarters the digits behind a point are.
fn quarter(fraction: &[u8]) -> Option<u8>
    requires { All IsDigit fraction.now }
    ensures { MatchOption result ((q : ℕ) → IsQuarter fraction.now q → ⊥) (λ q. IsQuarter fraction.now q) }
{
    match fraction {
        [] => Some(0),
        [tenths] => quarter_of_hundredths(10 * (*tenths - b'0')),
        [tenths, hundredths, rest @ ..] => {
            if has_value(rest) {
                return None;
            }
            quarter_of_hundredths(10 * (*tenths - b'0') + (*hundredths - b'0'))
        }
    }
}

// Whether the digits are more than zeros.
fn has_value(digits: &[u8]) -> bool
    requires { All IsDigit digits.now }
    ensures { result ≡ nat_lt 0 (value_of_digits digits.now) }
{
    match value_of(digits) {
        Some(value) => value != 0,
        None => false,
    }
}

fn quarter_of_hundredths(hundredths: u8) -> Option<u8>
    ensures { MatchOption result ((q : ℕ) → hundredths ≡ 25 * q → ⊥) (λ q. hundredths ≡ 25 * q) }
{
    if hundredths % 25 == 0 {
        Some(hundredths / 25)
    } else {
        None
    }
}
