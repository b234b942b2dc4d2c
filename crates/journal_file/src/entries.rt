//! Entries, one after the other.
ghost use Rattle.std.specs.Prelude.{◌≡◌, ℕ, List, [], ◌+◌, ◌≤◌, length, map, IfOk, IfErr};
ghost use Rattle.journal_file.specs.EntryForms.{AreEntries};
ghost use Rattle.journal_file.specs.Faults.{AreEntriesFault};
ghost use Rattle.journal_file.specs.Reading.{FormHasRead, byte_limit};
ghost use Rattle.journal_file.specs.SavedForms.{EntrySaid, entry_said};
ghost use Rattle.journal_file.specs.SavedParts.{MayAllCome};

use crate::JournalFault;
use crate::entry::read_entry;
use crate::text::Place;
use edit_book::Outline;
use std::alloc::Global;

/// Follows so many entries, of which each may come behind those before it, and gives the place behind them.
pub(crate) fn read_entries<'a>(
    alloc: Global,
    start: Place<'a>,
    many: u32,
    outline: &mut Outline,
) -> Result<Place<'a>, JournalFault>
    requires size { start.taken + length start.rest.now ≤ byte_limit }
    requires none { outline.old.entries ≡ [] }
    ensures opening { IfOk result (λ at. outline.new.opening ≡ outline.old.opening) }
    ensures read { IfOk result (λ at. (said : List EntrySaid) × (outline.new.entries ≡ map entry_said said) × FormHasRead (AreEntries many) start.entry.rest.now start.entry.taken said at.rest.now at.taken) }
    ensures come { IfOk result (λ at. MayAllCome outline.old.opening [] outline.new.entries) }
    ensures size { IfOk result (λ at. at.taken + length at.rest.now ≤ byte_limit) }
    ensures fault { IfErr result (AreEntriesFault outline.old.opening many start.entry.rest.now start.entry.taken) }
{
    let mut at = start;
    for i in 0..many {
        match read_entry(alloc, at, outline) {
            Ok((entry, next)) => {
                outline.follow(entry)?;
                at = next;
            }
            Err(fault) => return Err(fault),
        }
    }
    Ok(at)
}
