//! The first two lines.
ghost use Rattle.std.specs.Prelude.{◌≡◌, ◌+◌, ◌≤◌, length, MatchOption, IfOk, IfErr, IfSome};
ghost use Rattle.journal_file.specs.Fronts.{AreFront, IsTitle};
ghost use Rattle.journal_file.specs.Profiles.{IsProfile};
ghost use Rattle.journal_file.specs.Reading.{FormHasRead, IsFault, IsFirstLineTaken, NoneTaken, byte_limit};

use crate::JournalFault;
use crate::profile::profile_of;
use crate::scan::next_line;
use crate::text::Place;
use knit_base::Profile;

/// The first line.
const TITLE: &[u8] = b"journal 1";

/// The machine's limits, and the place behind the first two lines.
pub(crate) fn read_front<'a>(start: Place<'a>) -> Result<(Profile, Place<'a>), JournalFault>
    requires size { start.taken + length start.rest.now ≤ byte_limit }
    ensures read { IfOk result (λ found. FormHasRead AreFront start.entry.rest.now start.entry.taken (tt, found.0) found.1.rest.now found.1.taken) }
    ensures size { IfOk result (λ found. found.1.taken + length found.1.rest.now ≤ byte_limit) }
    ensures fault { IfErr result (IsFault AreFront start.entry.rest.now start.entry.taken) }
{
    match take_title(start) {
        Some(at) => match take_profile(at) {
            Some((profile, behind)) => Ok((profile, behind)),
            None => Err(at.bad()),
        },
        None => Err(start.bad()),
    }
}

// The place behind the title, if it is the next line.
fn take_title<'a>(at: Place<'a>) -> Option<Place<'a>>
    requires { at.taken + length at.rest.now ≤ byte_limit }
    ensures title { MatchOption result (NoneTaken IsTitle at.entry.rest.now) (λ behind. IsFirstLineTaken IsTitle at.entry.rest.now tt behind.rest.now) }
    ensures count { IfSome result (λ behind. behind.taken ≡ at.entry.taken + 1) }
    ensures size { IfSome result (λ behind. behind.taken + length behind.rest.now ≤ byte_limit) }
{
    match next_line(at.rest) {
        Some((line, rest)) => {
            if line != TITLE {
                return None;
            }
            Some(Place {
                rest,
                taken: at.taken + 1,
            })
        }
        None => None,
    }
}

// The machine's limits, if the next line tells them, and the place behind it.
fn take_profile<'a>(at: Place<'a>) -> Option<(Profile, Place<'a>)>
    requires { at.taken + length at.rest.now ≤ byte_limit }
    ensures profile { MatchOption result (NoneTaken IsProfile at.entry.rest.now) (λ found. IsFirstLineTaken IsProfile at.entry.rest.now found.0 found.1.rest.now) }
    ensures count { IfSome result (λ found. found.1.taken ≡ at.entry.taken + 1) }
    ensures size { IfSome result (λ found. found.1.taken + length found.1.rest.now ≤ byte_limit) }
{
    match next_line(at.rest) {
        Some((line, rest)) => match profile_of(line) {
            Some(profile) => Some((
                profile,
                Place {
                    rest,
                    taken: at.taken + 1,
                },
            )),
            None => None,
        },
        None => None,
    }
}
