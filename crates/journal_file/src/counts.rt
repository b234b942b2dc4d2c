//! Lines of counts.
ghost use Rattle.std.specs.Prelude.{◌≡◌, ℕ, ◌+◌, ◌<◌, ◌≤◌, ◌^◌, length, MatchOption, IfSome};
ghost use Rattle.journal_file.specs.CountLines.{IsCount};
ghost use Rattle.journal_file.specs.Reading.{IsFirstLineTaken, NoneTaken, byte_limit};

use crate::scan::next_line;
use crate::text::Place;
use crate::words::labelled;

/// The number of the next line, if there is one and it is the label with a number within these bounds, and the place behind it.
pub(crate) fn take_count<'a>(
    at: Place<'a>,
    label: &[u8],
    least: u32,
    most: u32,
) -> Option<(u32, Place<'a>)>
    requires { at.taken + length at.rest.now ≤ byte_limit }
    ensures count { MatchOption result (NoneTaken (IsCount label.now least most) at.entry.rest.now) (λ found. IsFirstLineTaken (IsCount label.now least most) at.entry.rest.now found.0 found.1.rest.now) }
    ensures taken { IfSome result (λ found. found.1.taken ≡ at.entry.taken + 1) }
    ensures size { IfSome result (λ found. found.1.taken + length found.1.rest.now ≤ byte_limit) }
{
    match next_line(at.rest) {
        Some((line, rest)) => match count_of(line, label, least, most) {
            Some(count) => Some((
                count,
                Place {
                    rest,
                    taken: at.taken + 1,
                },
            )),
            None => None,
        },
        None => None,
    }
}

// The number of a line of this label, where it lies within these bounds.
pub(crate) fn count_of(line: &[u8], label: &[u8], least: u32, most: u32) -> Option<u32>
    ensures { MatchOption result ((n : ℕ) → IsCount label.now least most n line.now → ⊥) (λ n. IsCount label.now least most n line.now) }
{
    match labelled(line, label) {
        Some((number, rest)) => {
            if rest.len() > 0 {
                return None;
            }
            if number < least {
                return None;
            }
            if number > most {
                return None;
            }
            Some(number)
        }
        None => None,
    }
}
