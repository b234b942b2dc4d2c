//! What stands before the entries.
ghost use Rattle.std.specs.Prelude.{◌≡◌, ◌+◌, ◌≤◌, length, IfOk, IfErr};
ghost use Rattle.journal_file.specs.Openings.{said_behind_head, said_of};
ghost use Rattle.journal_file.specs.Reading.{FormHasRead, IsFault, byte_limit};
ghost use Rattle.journal_file.specs.SavedForms.{IsBehindHead, OpeningForm};

use crate::JournalFault;
use crate::blocks::read_blocks;
use crate::counts::take_count;
use crate::front::read_front;
use crate::head::read_head;
use crate::text::Place;
use knit_base::{BlockText, Lines, ListOf, Profile};
use std::alloc::Global;

/// What stands before the entries: the machine's limits, the head, the texts of the first blocks, and how many entries there are.
#[derive(Drop)]
pub(crate) struct SavedOpening {
    pub profile: Profile,
    pub head: Lines,
    pub texts: ListOf<BlockText>,
    pub entries: u32,
}

/// What stands before the entries, and the place behind it.
pub(crate) fn read_opening<'a>(
    alloc: Global,
    start: Place<'a>,
) -> Result<(SavedOpening, Place<'a>), JournalFault>
    requires size { start.taken + length start.rest.now ≤ byte_limit }
    ensures read { IfOk result (λ found. FormHasRead OpeningForm start.entry.rest.now start.entry.taken (said_of found.0) found.1.rest.now found.1.taken) }
    ensures size { IfOk result (λ found. found.1.taken + length found.1.rest.now ≤ byte_limit) }
    ensures fault { IfErr result (IsFault OpeningForm start.entry.rest.now start.entry.taken) }
{
    match read_front(start) {
        Ok((profile, at)) => match read_head(alloc, at) {
            Ok((head, behind)) => read_behind_head(alloc, behind, profile, head),
            Err(fault) => Err(fault),
        },
        Err(fault) => Err(fault),
    }
}

// The same, of what stands behind the lines of the head.
fn read_behind_head<'a>(
    alloc: Global,
    start: Place<'a>,
    profile: Profile,
    head: Lines,
) -> Result<(SavedOpening, Place<'a>), JournalFault>
    requires size { start.taken + length start.rest.now ≤ byte_limit }
    ensures profile { IfOk result (λ found. found.0.profile ≡ profile) }
    ensures head { IfOk result (λ found. found.0.head ≡ head) }
    ensures read { IfOk result (λ found. FormHasRead IsBehindHead start.entry.rest.now start.entry.taken (said_behind_head found.0) found.1.rest.now found.1.taken) }
    ensures size { IfOk result (λ found. found.1.taken + length found.1.rest.now ≤ byte_limit) }
    ensures fault { IfErr result (IsFault IsBehindHead start.entry.rest.now start.entry.taken) }
{
    match read_blocks(alloc, start) {
        Ok((texts, at)) => match take_count(at, b"entries ", 0, u32::MAX) {
            Some((entries, behind)) => {
                let opening = SavedOpening {
                    profile,
                    head,
                    texts,
                    entries,
                };
                Ok((opening, behind))
            }
            None => Err(at.bad()),
        },
        Err(fault) => Err(fault),
    }
}
