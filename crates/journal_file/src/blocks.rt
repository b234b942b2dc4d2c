//! The first blocks.
ghost use Rattle.std.specs.Prelude.{◌≡◌, ◌+◌, ◌≤◌, length, map, IfOk, IfErr};
ghost use Rattle.journal_file.specs.BlockForms.{BlocksForm};
ghost use Rattle.journal_file.specs.Reading.{FormHasRead, IsFault, byte_limit};
ghost use Rattle.journal_file.specs.SavedForms.{AreFirst, block_words};

use crate::JournalFault;
use crate::block::read_block;
use crate::counts::take_count;
use crate::text::Place;
use knit_base::{BlockText, ListOf};
use std::alloc::Global;

const MOST_BLOCKS: u32 = 65_536;

const LINE_LIMIT: u32 = 1_048_576;

const MOST_LINES: u32 = 4096;

/// The texts of the first blocks, behind the line that tells how many there are, and the place behind them.
pub(crate) fn read_blocks<'a>(
    alloc: Global,
    start: Place<'a>,
) -> Result<(ListOf<BlockText>, Place<'a>), JournalFault>
    requires size { start.taken + length start.rest.now ≤ byte_limit }
    ensures read { IfOk result (λ found. FormHasRead AreFirst start.entry.rest.now start.entry.taken (length found.0, map block_words found.0) found.1.rest.now found.1.taken) }
    ensures size { IfOk result (λ found. found.1.taken + length found.1.rest.now ≤ byte_limit) }
    ensures fault { IfErr result (IsFault AreFirst start.entry.rest.now start.entry.taken) }
{
    match take_count(start, b"blocks ", 0, MOST_BLOCKS) {
        Some((many, at)) => match read_texts(alloc, at, many) {
            Ok((texts, behind)) => Ok((texts, behind)),
            Err(fault) => Err(fault),
        },
        None => Err(start.bad()),
    }
}

// The texts of so many blocks, and the place behind them.
fn read_texts<'a>(
    alloc: Global,
    start: Place<'a>,
    many: u32,
) -> Result<(ListOf<BlockText>, Place<'a>), JournalFault>
    requires size { start.taken + length start.rest.now ≤ byte_limit }
    requires few { many ≤ 65536 }
    ensures read { IfOk result (λ found. FormHasRead (BlocksForm many) start.entry.rest.now start.entry.taken (map block_words found.0) found.1.rest.now found.1.taken) }
    ensures size { IfOk result (λ found. found.1.taken + length found.1.rest.now ≤ byte_limit) }
    ensures len { IfOk result (λ found. length found.0 ≡ many) }
    ensures fault { IfErr result (IsFault (BlocksForm many) start.entry.rest.now start.entry.taken) }
{
    let mut texts = ListOf::new(alloc);
    let mut at = start;
    let mut lines = 0;
    for i in 0..many {
        let left = LINE_LIMIT - lines - (many - i - 1);
        match read_block(alloc, at, left.min(MOST_LINES)) {
            Ok((text, next)) => {
                lines += text.len();
                texts.push(text)?;
                at = next;
            }
            Err(fault) => return Err(fault),
        }
    }
    Ok((texts, at))
}
