//! One of the first blocks.
ghost use Rattle.std.specs.Prelude.{◌≡◌, ◌+◌, ◌≤◌, length, IfOk, IfErr};
ghost use Rattle.journal_file.specs.BlockForms.{IsBlock};
ghost use Rattle.journal_file.specs.Reading.{FormHasRead, IsFault, byte_limit};

use crate::JournalFault;
use crate::counts::take_count;
use crate::text::{Place, read_block_text};
use knit_base::BlockText;
use std::alloc::Global;

/// The text of a block, which has no more than so many lines, and the place behind it.
pub(crate) fn read_block<'a>(
    alloc: Global,
    start: Place<'a>,
    most: u32,
) -> Result<(BlockText, Place<'a>), JournalFault>
    requires size { start.taken + length start.rest.now ≤ byte_limit }
    requires some { 1 ≤ most }
    requires few { most ≤ 16777217 }
    ensures read { IfOk result (λ found. FormHasRead (IsBlock most) start.entry.rest.now start.entry.taken (length found.0, found.0) found.1.rest.now found.1.taken) }
    ensures count { IfOk result (λ found. length found.0 ≤ most) }
    ensures size { IfOk result (λ found. found.1.taken + length found.1.rest.now ≤ byte_limit) }
    ensures fault { IfErr result (IsFault (IsBlock most) start.entry.rest.now start.entry.taken) }
{
    match take_count(start, b"block ", 1, most) {
        Some((count, at)) => match read_block_text(alloc, at, count) {
            Ok((text, behind)) => Ok((text, behind)),
            Err(fault) => Err(fault),
        },
        None => Err(start.bad()),
    }
}
