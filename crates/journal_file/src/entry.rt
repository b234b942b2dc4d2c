//! The entries.
ghost use Rattle.std.specs.Prelude.{◌≡◌, ℕ, List, ◌+◌, ◌≤◌, length, MatchOption, IfOk, IfErr, IfSome};
ghost use Rattle.edit_book.specs.Outlines.{HasShortText, MayCome};
ghost use Rattle.journal_file.specs.EntryForms.{IsEntryLine, IsEntryText};
ghost use Rattle.journal_file.specs.Faults.{IsEntryFault};
ghost use Rattle.journal_file.specs.Reading.{FormHasRead, IsFirstLineTaken, NoneTaken, byte_limit};
ghost use Rattle.journal_file.specs.SavedForms.{EntrySaid, entry_said};

use crate::entry_line::{EntryLine, entry_line};
use crate::scan::next_line;
use crate::text::{Place, read_block_text};
use crate::{JournalCause, JournalFault};
use edit_book::Outline;
use edit_journal::Entry;
use knit_base::NoMemory;
use std::alloc::Global;

/// The next entry, which may come, and the place behind it.
pub(crate) fn read_entry<'a>(
    alloc: Global,
    start: Place<'a>,
    outline: &Outline,
) -> Result<(Entry, Place<'a>), JournalFault>
    requires size { start.taken + length start.rest.now ≤ byte_limit }
    ensures read { IfOk result (λ found. (said : EntrySaid) × (found.0 ≡ entry_said said) × FormHasRead IsEntryText start.entry.rest.now start.entry.taken said found.1.rest.now found.1.taken) }
    ensures comes { IfOk result (λ found. MayCome outline.now.opening outline.now.entries found.0.edit) }
    ensures short { IfOk result (λ found. HasShortText found.0.edit) }
    ensures size { IfOk result (λ found. found.1.taken + length found.1.rest.now ≤ byte_limit) }
    ensures fault { IfErr result (IsEntryFault outline.now.opening outline.now.entries start.entry.rest.now start.entry.taken) }
{
    match take_line(alloc, start)? {
        Some((line, at)) => {
            if !line.may_come(outline) {
                return Err(start.refused(JournalCause::NoFit));
            }
            match read_block_text(alloc, at, line.text_lines()) {
                Ok((text, behind)) => Ok((line.with_text(text), behind)),
                Err(fault) => Err(fault),
            }
        }
        None => Err(start.bad()),
    }
}

// What the next line says, if there is one and it is that of an entry, and the place behind it.
fn take_line<'a>(alloc: Global, at: Place<'a>) -> Result<Option<(EntryLine, Place<'a>)>, NoMemory>
    requires size { at.taken + length at.rest.now ≤ byte_limit }
    ensures line { IfOk result (λ found. MatchOption found (NoneTaken IsEntryLine at.entry.rest.now) (λ f. IsFirstLineTaken IsEntryLine at.entry.rest.now f.0 f.1.rest.now)) }
    ensures count { IfOk result (λ found. IfSome found (λ f. f.1.taken ≡ at.entry.taken + 1)) }
    ensures size { IfOk result (λ found. IfSome found (λ f. f.1.taken + length f.1.rest.now ≤ byte_limit)) }
{
    match next_line(at.rest) {
        Some((line, rest)) => match entry_line(alloc, line)? {
            Some(said) => {
                let behind = Place {
                    rest,
                    taken: at.taken + 1,
                };
                Ok(Some((said, behind)))
            }
            None => Ok(None),
        },
        None => Ok(None),
    }
}
