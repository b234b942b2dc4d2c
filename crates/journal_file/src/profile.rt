//! The line of the machine's limits.
ghost use Rattle.std.specs.Prelude.{◌≡◌, ◌≢◌, ◌≤◌, ℕ, ℤ, List, None, Some, MatchOption};
ghost use Rattle.knit_base.specs.declared.profile.Profile.{Profile as Limits};
ghost use Rattle.journal_file.specs.Profiles.{AreLimits, AreNeedles, IsLimit, BeginsWithNeedleNumber, IsProfile};

use crate::counts::count_of;
use crate::words::{behind, labelled, signed};
use knit_base::Profile;

/// The lowest number that a needle may have.
const LEAST_NEEDLE: i64 = -4096;

/// The highest.
const MOST_NEEDLE: i64 = 4096;

/// How many needles the beds rack at most, and how many loops a needle holds at most.
const MOST: u32 = 64;

/// The longest limit of floats, in needle numbers.
const MOST_FLOAT: u32 = 8192;

/// The limits that the line tells: the lowest and the highest needle, the rack, the loops on a needle, and the span of a float, 0 for
/// no limit.
pub(crate) fn profile_of(line: &[u8]) -> Option<Profile>
    ensures { MatchOption result ((p : Limits) → IsProfile p line.now → ⊥) (λ p. IsProfile p line.now) }
{
    match behind(line, b"profile ") {
        Some(text) => match needles_of(text) {
            Some((low, high, text)) => match limits_of(text) {
                Some((rack, hold, text)) => match count_of(text, b" ", 0, MOST_FLOAT) {
                    Some(float) => Some(Profile {
                        low,
                        high,
                        rack,
                        hold,
                        float: float_of(float),
                    }),
                    None => None,
                },
                None => None,
            },
            None => None,
        },
        None => None,
    }
}

// The limit of floats that the number stands for.
fn float_of(number: u32) -> Option<u16>
    requires { number ≤ 8192 }
    ensures none { number ≡ 0 → result ≡ None }
    ensures some { number ≢ 0 → result ≡ Some number }
{
    if number == 0 {
        return None;
    }
    Some(number as u16)
}

// The lowest and the highest needle, and what stands behind them.
fn needles_of(text: &[u8]) -> Option<(i16, i16, &[u8])>
    ensures { MatchOption result ((low high : ℤ) (rest : List ℕ) → AreNeedles text.now low high rest → ⊥) (λ found. AreNeedles text.now found.0 found.1 found.2.now) }
{
    match needle(text) {
        Some((low, rest)) => match behind(rest, b" ") {
            Some(other) => match needle(other) {
                Some((high, rest)) => {
                    if high < low {
                        return None;
                    }
                    Some((low, high, rest))
                }
                None => None,
            },
            None => None,
        },
        None => None,
    }
}

// The number of a needle that the text begins with, and what stands behind it.
fn needle(text: &[u8]) -> Option<(i16, &[u8])>
    ensures { MatchOption result ((number : ℤ) (rest : List ℕ) → BeginsWithNeedleNumber text.now number rest → ⊥) (λ found. BeginsWithNeedleNumber text.now found.0 found.1.now) }
{
    match signed(text) {
        Some((number, rest)) => {
            if number < LEAST_NEEDLE {
                return None;
            }
            if number > MOST_NEEDLE {
                return None;
            }
            Some((number as i16, rest))
        }
        None => None,
    }
}

// How far the beds rack and how many loops a needle may hold, and what stands behind them.
fn limits_of(text: &[u8]) -> Option<(u8, u8, &[u8])>
    ensures { MatchOption result ((rack hold : ℕ) (rest : List ℕ) → AreLimits text.now rack hold rest → ⊥) (λ found. AreLimits text.now found.0 found.1 found.2.now) }
{
    match limit(text) {
        Some((rack, other)) => match limit(other) {
            Some((hold, rest)) => {
                if hold == 0 {
                    return None;
                }
                Some((rack, hold, rest))
            }
            None => None,
        },
        None => None,
    }
}

// A space and a number that is at most `MOST`, and what stands behind it.
fn limit(text: &[u8]) -> Option<(u8, &[u8])>
    ensures { MatchOption result ((number : ℕ) (rest : List ℕ) → IsLimit text.now number rest → ⊥) (λ found. IsLimit text.now found.0 found.1.now) }
{
    match labelled(text, b" ") {
        Some((number, rest)) => {
            if number > MOST {
                return None;
            }
            Some((number as u8, rest))
        }
        None => None,
    }
}
