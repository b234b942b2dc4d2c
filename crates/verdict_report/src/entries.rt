//! The lines of a journal.
ghost use Rattle.std.specs.Prelude.{◌≡◌, ◌+◌, ◌++◌, ◌<◌, length, drop, OnOk, OnErr};
ghost use Rattle.verdict_report.specs.LiveText.{entries_text, entry_text, journal_text};

use edit_journal::{Entry, Journal, append_entry_line};
use knit_base::{NoMemory, append_labelled, append_number};
use std::alloc::Global;

// Appends an entry with its number.
fn append_entry(number: u32, entry: &Entry, out: &mut Vec<u8>) -> Result<(), NoMemory>
    ensures { OnOk result (out.new.items ≡ out.old.items ++ entry_text number entry.now) }
{
    append_number(u64::from(number), out)?;
    out.extend_from_slice(b" ")?;
    append_entry_line(entry, out)?;
    out.extend_from_slice(b"\n")?;
    Ok(())
}

// Appends the entry behind so many others.
fn append_entry_behind(before: u32, journal: &Journal, out: &mut Vec<u8>) -> Result<(), NoMemory>
    requires { before < length journal.now.entries }
    ensures { OnOk result (out.new.items ++ entries_text (before + 1 + 1) (drop (before + 1) journal.now.entries) ≡ out.old.items ++ entries_text (before + 1) (drop before journal.now.entries)) }
{
    let _entries = journal.len();
    let Some(entry) = journal.get(before + 1) else {
        unreachable!();
    };
    append_entry(before + 1, entry, out)
}

// Appends a line for each entry.
fn append_entries(journal: &Journal, out: &mut Vec<u8>) -> Result<(), NoMemory>
    ensures { OnOk result (out.new.items ≡ out.old.items ++ entries_text 1 journal.now.entries) }
{
    'entries: for before in 0..journal.len() {
        append_entry_behind(before, journal, out)?;
    }
    Ok(())
}

/// Appends how many entries the journal has, and a line for each.
pub(crate) fn append_journal(journal: &Journal, out: &mut Vec<u8>) -> Result<(), NoMemory>
    ensures { OnOk result (out.new.items ≡ out.old.items ++ journal_text journal.now.entries) }
{
    append_labelled("journal ", u64::from(journal.len()), out)?;
    out.extend_from_slice(b"\n")?;
    append_entries(journal, out)
}

/// Appends how many entries the journal has, and a line for each, numbered from 1. After `NoMemory` the buffer is as before.
pub fn report_journal(alloc: Global, journal: &Journal, out: &mut Vec<u8>) -> Result<(), NoMemory>
    ensures ok { OnOk result (out.new.items ≡ out.old.items ++ journal_text journal.now.entries) }
    ensures err { OnErr result (out.new.items ≡ out.old.items) }
{
    let mut text = Vec::new(alloc);
    append_journal(journal, &mut text)?;
    out.extend_from_slice(&text)?;
    Ok(())
}
