//! The operands of an operation, pulled one by one.
ghost use Rattle.std.specs.Prelude.{◌≡◌, ◌∷◌, ℕ, ℤ, List, None, MatchOption, IfSome, true, false};
ghost use Rattle.knit_base.specs.declared.needle.Bed.{Bed};
ghost use Rattle.knit_base.specs.declared.needle.Dir.{Dir};
ghost use Rattle.knit_base.specs.Spelling.{dir_word};
ghost use Rattle.knitout_reader.specs.Numbers.{IsNear};
ghost use Rattle.knitout_reader.specs.Reading.{is_off_bed, needle_on, not_opposite};
ghost use Rattle.knitout_reader.specs.Shapes.{BeginsWithNeedle};
ghost use Rattle.knitout_reader.specs.Tokens.{tokens_of};

use crate::number::{self, FAR, NeedleToken};
use crate::tokens::next_token;
use crate::words::direction;
use knit_base::{Bed, Dir, Needle, Profile, Reason, Rule};

/// The direction at the front, and what stands behind it.
pub(crate) fn next_direction<'a>(code: &'a [u8]) -> Option<(Dir, &'a [u8])>
    ensures { MatchOption result
        ((dir : Dir) (others : List (List ℕ)) → tokens_of code.now ≡ dir_word dir ∷ others → ⊥)
        (λ found. tokens_of code.now ≡ dir_word found.0 ∷ tokens_of found.1.now) }
{
    let (token, others) = next_token(code)?;
    let dir = direction(token)?;
    Some((dir, others))
}

/// The needle at the front, and what stands behind it.
pub(crate) fn next_needle<'a>(code: &'a [u8]) -> Option<(NeedleToken, &'a [u8])>
    ensures { MatchOption result
        ((bed : Bed) (z : ℤ) (others : List (List ℕ)) → BeginsWithNeedle (tokens_of code.now) bed z others → ⊥)
        (λ found. (z : ℤ) × BeginsWithNeedle (tokens_of code.now) found.0.bed z (tokens_of found.1.now) × IsNear FAR found.0.at z) }
{
    let (token, others) = next_token(code)?;
    let needle = number::needle(token)?;
    Some((needle, others))
}

/// The needle as it is written, if its number lies on the bed.
pub(crate) fn on_bed(profile: &Profile, needle: NeedleToken) -> Option<Needle>
    ensures off { result ≡ None → (z : ℤ) → IsNear FAR needle.at z → is_off_bed profile.now z ≡ true }
    ensures on { IfSome result (λ n. (z : ℤ) → IsNear FAR needle.at z → (is_off_bed profile.now z ≡ false) × (n ≡ needle_on needle.bed z)) }
{
    if needle.at < i32::from(profile.low) || i32::from(profile.high) < needle.at {
        return None;
    }
    let at = needle.at as i16;
    Some(Needle {
        bed: needle.bed,
        at,
    })
}

/// Why loops aren't moved from one of the beds to the other, whose needle is at this place.
pub(crate) fn opposite_rule(bed: Bed, bed2: Bed, at: u16) -> Option<Reason>
    ensures { result ≡ not_opposite bed bed2 at }
{
    if bed.is_front() == bed2.is_front() {
        return Some(Reason {
            rule: Rule::SameBed,
            at,
        });
    }
    if bed.is_slider() && bed2.is_slider() {
        return Some(Reason {
            rule: Rule::TwoSliders,
            at,
        });
    }
    None
}
