//! Numbers without idle zeros, and the labels before them.
ghost use Rattle.std.specs.Prelude.{◌≡◌, ◌≢◌, ℕ, ℤ, List, ◌<◌, ◌≤◌, ◌++◌, ◌⊎◌, true, false, min, length, take, slice_index, slice_index_or, All, MatchOption};
ghost use Rattle.knitout_reader.specs.Numbers.{IsDigit, value_of_digits};
ghost use Rattle.journal_file.specs.Words.{EndsNumber, BeginsWithNumber, IsLabelled, BeginsWithSignedNumber};

/// How many digits a number has at most.
const MAX_DIGITS: usize = 10;

/// A value from which on a number doesn't fit 32 bits.
const TOO_GREAT: u64 = 4_294_967_296;

/// The number that the text begins with, and what stands behind it. A number has no idle zeros, and fits 32 bits.
pub(crate) fn number(text: &[u8]) -> Option<(u32, &[u8])>
    ensures { MatchOption result ((n : ℕ) (rest : List ℕ) → BeginsWithNumber text.now n rest → ⊥) (λ found. BeginsWithNumber text.now found.0 found.1.now) }
{
    let (digits, rest) = split_digits(text);
    if !are_plain(digits) {
        return None;
    }
    let value = value_of(digits);
    if value == TOO_GREAT {
        return None;
    }
    Some((value as u32, rest))
}

// The digits that the text begins with, and what stands behind them.
fn split_digits(text: &[u8]) -> (&[u8], &[u8])
    ensures split { text.now ≡ result.0.now ++ result.1.now }
    ensures digits { All IsDigit result.0.now }
    ensures ends { EndsNumber result.1.now }
{
    let len = count_digits(text);
    (&text[..len], &text[len..])
}

// Whether there are digits, and no idle zeros among them.
fn are_plain(digits: &[u8]) -> bool
    ensures yes { result ≡ true → (0 < length digits.now) × (slice_index_or digits.now 0 0 ≡ 48 → length digits.now ≡ 1) }
    ensures no { result ≡ false → (length digits.now ≡ 0) ⊎ ((slice_index_or digits.now 0 0 ≡ 48) × (1 < length digits.now)) }
{
    if digits.is_empty() {
        return false;
    }
    if digits.len() == 1 {
        return true;
    }
    digits[0] != b'0'
}

// How many digits the text begins with.
fn count_digits(text: &[u8]) -> usize
    ensures within { result ≤ length text.now }
    ensures digits { All IsDigit (take result text.now) }
    ensures end { result < length text.now → ¬ IsDigit (slice_index text.now result) }
{
    for (at, byte) in text.iter().enumerate() {
        if !byte.is_ascii_digit() {
            return at;
        }
    }
    text.len()
}

// The number that the digits spell, or `TOO_GREAT` where it is greater.
fn value_of(digits: &[u8]) -> u64
    ensures { result ≡ min (value_of_digits digits.now) TOO_GREAT }
{
    let mut value = 0;
    for digit in digits {
        value = (value * 10 + u64::from(digit.saturating_sub(b'0'))).min(TOO_GREAT);
    }
    value
}

/// The number behind a label that the text begins with, and what stands behind it.
pub(crate) fn labelled<'a>(text: &'a [u8], label: &[u8]) -> Option<(u32, &'a [u8])>
    ensures { MatchOption result ((n : ℕ) (rest : List ℕ) → IsLabelled text.now label.now n rest → ⊥) (λ found. IsLabelled text.now label.now found.0 found.1.now) }
{
    match behind(text, label) {
        Some(rest) => number(rest),
        None => None,
    }
}

/// What stands behind a label that the text begins with.
pub(crate) fn behind<'a>(text: &'a [u8], label: &[u8]) -> Option<&'a [u8]>
    ensures { MatchOption result ((rest : List ℕ) → text.now ≢ label.now ++ rest) (λ rest. text.now ≡ label.now ++ rest.now) }
{
    text.strip_prefix(label)
}

/// The whole number that the text begins with, with a `-` where it is negative, and what stands behind it.
pub(crate) fn signed(text: &[u8]) -> Option<(i64, &[u8])>
    ensures { MatchOption result ((n : ℤ) (rest : List ℕ) → BeginsWithSignedNumber text.now n rest → ⊥) (λ found. BeginsWithSignedNumber text.now found.0 found.1.now) }
{
    match labelled(text, b"-") {
        Some((size, rest)) => {
            if size == 0 {
                return None;
            }
            Some((-i64::from(size), rest))
        }
        None => match number(text) {
            Some((size, rest)) => Some((i64::from(size), rest)),
            None => None,
        },
    }
}
