//! A saved text, written.
ghost use Rattle.std.specs.Prelude.{◌≡◌, ◌+◌, ◌++◌, ◌<◌, ◌≤◌, length, codes, drop, flat_map, OnOk, OnErr, IfOk};
ghost use Rattle.std.specs.Fmt.{signed_decimal};
ghost use Rattle.journal_file.specs.Spelling.{block_lines, blocks_lines, count_spelling, entries_lines, entry_lines, head_lines, needle_limits, other_limits, profile_line, profile_text, saved_spelling, text_given, text_line, text_lines};

use crate::Saved;
use edit_journal::{BlockAt, Edit, Entry, Journal, TextList, append_entry_line};
use knit_base::{BlockText, Lines, NoMemory, Profile, Steps, append_labelled, append_number};
use std::alloc::Global;
use std::sync::ledger::Ledger;

/// Appends the saved text. It costs a step for each line of a block or of an entry's text. After `NoMemory` the buffer is as before.
pub fn write_journal<L: Ledger>(
    saved: &Saved,
    out: &mut Vec<u8>,
    steps: &mut Steps<L>,
) -> Result<(), NoMemory>
    ensures ok { OnOk result (out.new.items ≡ out.old.items ++ saved_spelling saved.now.head saved.now.profile saved.now.blocks saved.now.journal.entries) }
    ensures err { OnErr result (out.new.items ≡ out.old.items) }
{
    let text = saved_text(*out.allocator(), saved, steps)?;
    out.extend_from_slice(&text)?;
    Ok(())
}

/// The saved text, as `write_journal` appends it.
pub fn saved_text<L: Ledger>(
    alloc: Global,
    saved: &Saved,
    steps: &mut Steps<L>,
) -> Result<Vec<u8>, NoMemory>
    ensures { IfOk result (λ text. text.items ≡ saved_spelling saved.now.head saved.now.profile saved.now.blocks saved.now.journal.entries) }
{
    let mut text = Vec::new(alloc);
    text.extend_from_slice(b"journal 1\n")?;
    append_profile(&saved.profile, &mut text)?;
    append_head(&saved.head, &mut text)?;
    append_blocks(&saved.blocks, &mut text, steps)?;
    append_entries(&saved.journal, &mut text, steps)?;
    Ok(text)
}

// Appends a label, a number and a line feed.
fn append_count(label: &str, number: u32, out: &mut Vec<u8>) -> Result<(), NoMemory>
    ensures { OnOk result (out.new.items ≡ out.old.items ++ count_spelling label.now number) }
{
    append_labelled(label, u64::from(number), out)?;
    out.extend_from_slice(b"\n")?;
    Ok(())
}

// Appends a whole number.
fn append_signed(number: i16, out: &mut Vec<u8>) -> Result<(), NoMemory>
    ensures { OnOk result (out.new.items ≡ out.old.items ++ signed_decimal number) }
{
    if number < 0 {
        out.extend_from_slice(b"-")?;
    }
    append_number(u64::from(number.unsigned_abs()), out)
}

// Appends the lowest and the highest needle.
fn append_needle_limits(profile: &Profile, out: &mut Vec<u8>) -> Result<(), NoMemory>
    ensures { OnOk result (out.new.items ≡ out.old.items ++ needle_limits profile.now) }
{
    append_signed(profile.low, out)?;
    out.extend_from_slice(b" ")?;
    append_signed(profile.high, out)
}

// Appends the other limits.
fn append_other_limits(profile: &Profile, out: &mut Vec<u8>) -> Result<(), NoMemory>
    ensures { OnOk result (out.new.items ≡ out.old.items ++ other_limits profile.now) }
{
    append_labelled(" ", u64::from(profile.rack), out)?;
    append_labelled(" ", u64::from(profile.hold), out)?;
    append_labelled(" ", u64::from(profile.float.unwrap_or(0)), out)
}

// Appends the machine's limits.
fn append_limits(profile: &Profile, out: &mut Vec<u8>) -> Result<(), NoMemory>
    ensures { OnOk result (out.new.items ≡ out.old.items ++ profile_text profile.now) }
{
    out.extend_from_slice(b"profile ")?;
    append_needle_limits(profile, out)?;
    append_other_limits(profile, out)
}

// Appends the line of the machine's limits.
fn append_profile(profile: &Profile, out: &mut Vec<u8>) -> Result<(), NoMemory>
    ensures { OnOk result (out.new.items ≡ out.old.items ++ profile_line profile.now) }
{
    append_limits(profile, out)?;
    out.extend_from_slice(b"\n")?;
    Ok(())
}

// Appends a text line.
fn append_barred(line: &str, out: &mut Vec<u8>) -> Result<(), NoMemory>
    ensures { OnOk result (out.new.items ≡ out.old.items ++ text_line line.now) }
{
    out.extend_from_slice(b"|")?;
    out.extend_from_slice(line.as_bytes())?;
    out.extend_from_slice(b"\n")?;
    Ok(())
}

// Appends the head line at this place, if there is one.
fn append_head_line(at: u32, head: &Lines, out: &mut Vec<u8>) -> Result<(), NoMemory>
    ensures { OnOk result (out.new.items ++ text_lines (drop (at + 1) head.now) ≡ out.old.items ++ text_lines (drop at head.now)) }
{
    match head.get(at) {
        Some(line) => append_barred(line, out),
        None => Ok(()),
    }
}

fn append_head(head: &Lines, out: &mut Vec<u8>) -> Result<(), NoMemory>
    ensures { OnOk result (out.new.items ≡ out.old.items ++ head_lines head.now) }
{
    append_count("head ", head.len(), out)?;
    'lines: for at in 0..head.len() {
        append_head_line(at, head, out)?;
    }
    Ok(())
}

// Appends the lines of a text.
fn append_text<L: Ledger>(
    text: &BlockText,
    out: &mut Vec<u8>,
    steps: &mut Steps<L>,
) -> Result<(), NoMemory>
    ensures { OnOk result (out.new.items ≡ out.old.items ++ text_lines text.now) }
{
    'lines: for at in 0..text.len() {
        append_line(at, text, out, steps)?;
    }
    Ok(())
}

// Appends the line at this place.
fn append_line<L: Ledger>(
    at: u32,
    text: &BlockText,
    out: &mut Vec<u8>,
    steps: &mut Steps<L>,
) -> Result<(), NoMemory>
    requires { at < length text.now }
    ensures { OnOk result (out.new.items ++ text_lines (drop (at + 1) text.now) ≡ out.old.items ++ text_lines (drop at text.now)) }
{
    append_barred(text.line(at, steps), out)
}

// Appends one of the first blocks.
fn append_block<L: Ledger>(
    block: &BlockAt,
    out: &mut Vec<u8>,
    steps: &mut Steps<L>,
) -> Result<(), NoMemory>
    ensures { OnOk result (out.new.items ≡ out.old.items ++ block_lines block.now) }
{
    append_count("block ", block.text.len(), out)?;
    append_text(&block.text, out, steps)
}

fn append_blocks<L: Ledger>(
    blocks: &TextList,
    out: &mut Vec<u8>,
    steps: &mut Steps<L>,
) -> Result<(), NoMemory>
    ensures { OnOk result (out.new.items ≡ out.old.items ++ blocks_lines blocks.now) }
{
    append_count("blocks ", blocks.len(), out)?;
    append_each(blocks.as_slice(), out, steps)
}

// Appends blocks, one after the other.
fn append_each<L: Ledger>(
    blocks: &[BlockAt],
    out: &mut Vec<u8>,
    steps: &mut Steps<L>,
) -> Result<(), NoMemory>
    ensures { OnOk result (out.new.items ≡ out.old.items ++ flat_map block_lines blocks.now) }
{
    'each: for block in blocks {
        append_block(block, out, steps)?;
    }
    Ok(())
}

// Appends an entry's line, and its text.
fn append_entry<L: Ledger>(
    entry: &Entry,
    out: &mut Vec<u8>,
    steps: &mut Steps<L>,
) -> Result<(), NoMemory>
    ensures { OnOk result (out.new.items ≡ out.old.items ++ entry_lines entry.now) }
{
    append_entry_line(entry, out)?;
    out.extend_from_slice(b"\n")?;
    append_given(&entry.edit, out, steps)
}

// Appends the lines of the text that an edit gives to a block.
fn append_given<L: Ledger>(
    edit: &Edit,
    out: &mut Vec<u8>,
    steps: &mut Steps<L>,
) -> Result<(), NoMemory>
    ensures { OnOk result (out.new.items ≡ out.old.items ++ text_lines (text_given edit.now)) }
{
    match edit {
        Edit::Put { text, .. } => append_text(text, out, steps),
        Edit::Add { text, .. } => append_text(text, out, steps),
        Edit::Cut { .. } | Edit::Head { .. } => Ok(()),
    }
}

// Appends the entry behind so many others.
fn append_entry_behind<L: Ledger>(
    before: u32,
    journal: &Journal,
    out: &mut Vec<u8>,
    steps: &mut Steps<L>,
) -> Result<(), NoMemory>
    requires { before < length journal.now.entries }
    ensures { OnOk result (out.new.items ++ flat_map entry_lines (drop (before + 1) journal.now.entries) ≡ out.old.items ++ flat_map entry_lines (drop before journal.now.entries)) }
{
    let _entries = journal.len();
    match journal.get(before + 1) {
        Some(entry) => append_entry(entry, out, steps),
        None => Ok(()),
    }
}

fn append_entries<L: Ledger>(
    journal: &Journal,
    out: &mut Vec<u8>,
    steps: &mut Steps<L>,
) -> Result<(), NoMemory>
    ensures { OnOk result (out.new.items ≡ out.old.items ++ entries_lines journal.now.entries) }
{
    append_count("entries ", journal.len(), out)?;
    'entries: for before in 0..journal.len() {
        append_entry_behind(before, journal, out, steps)?;
    }
    Ok(())
}
