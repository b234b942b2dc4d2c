//! What is said of a document's blocks and of its journal.
ghost use Rattle.std.specs.Prelude.{◌≡◌, ◌+◌, ◌-◌, ◌++◌, ◌<◌, ◌≤◌, drop, flat_map, length, OnOk, OnErr};
ghost use Rattle.edit_book.specs.Books.{document};
ghost use Rattle.edit_book.specs.Listing.{block_places};
ghost use Rattle.verdict_report.specs.LiveText.{entries_text, entry_text};
ghost use Rattle.reply_report.specs.TalkText.{block_line, blocks_text, entries_behind_text, framed_reply, no_range_text, no_version_text, since_text};

use crate::Frame;
use crate::frame::{append_two_counts, begin, end};
use edit_book::{BlockPlace, Book};
use edit_journal::{Entry, Journal, append_entry_line};
use knit_base::{NoMemory, append_labelled, append_number};
use std::alloc::Global;

/// Appends the blocks as they stand, in their order. After `NoMemory` the buffer is as before.
pub fn say_blocks(
    alloc: Global,
    frame: Frame,
    book: &Book,
    out: &mut Vec<u8>,
) -> Result<(), NoMemory>
    ensures ok { OnOk result (out.new.items ≡ out.old.items ++ framed_reply frame (blocks_text book.now.opening book.now.entries)) }
    ensures err { OnErr result (out.new.items ≡ out.old.items) }
{
    let mut text = begin(alloc, frame)?;
    append_listing(book, &mut text)?;
    end(text, out)
}

// Appends the version, how many blocks there are, and the blocks.
fn append_listing(book: &Book, out: &mut Vec<u8>) -> Result<(), NoMemory>
    ensures { OnOk result (out.new.items ≡ out.old.items ++ blocks_text book.now.opening book.now.entries) }
{
    let (version, count) = (u64::from(book.version()), u64::from(book.block_count()));
    append_two_counts("blocks version ", version, " blocks ", count, out)?;
    append_blocks(book, out)
}

// Appends a line for each block.
fn append_blocks(book: &Book, out: &mut Vec<u8>) -> Result<(), NoMemory>
    ensures { OnOk result (out.new.items ≡ out.old.items ++ flat_map block_line (block_places book.now.opening (document book.now))) }
{
    'each: for at in 0..book.block_count() {
        append_block_at(at, book, out)?;
    }
    Ok(())
}

// Appends the line of the block at this place, if there is one.
fn append_block_at(at: u32, book: &Book, out: &mut Vec<u8>) -> Result<(), NoMemory>
    ensures { OnOk result (out.new.items ++ flat_map block_line (drop (at + 1) (block_places book.now.opening (document book.now))) ≡ out.old.items ++ flat_map block_line (drop at (block_places book.now.opening (document book.now)))) }
{
    match book.block_at(at) {
        Some(place) => append_block(place, out),
        None => Ok(()),
    }
}

// Appends the line of a block.
fn append_block(place: BlockPlace, out: &mut Vec<u8>) -> Result<(), NoMemory>
    ensures { OnOk result (out.new.items ≡ out.old.items ++ block_line place) }
{
    append_labelled("block ", u64::from(place.block), out)?;
    append_labelled(" stamp ", u64::from(place.stamp), out)?;
    append_labelled(" first ", u64::from(place.first), out)?;
    append_labelled(" lines ", u64::from(place.lines), out)?;
    out.extend_from_slice(b"\n")?;
    Ok(())
}

/// Appends the entries behind this version, or that there is no such version yet. After `NoMemory` the buffer is as before.
pub fn say_since(
    alloc: Global,
    frame: Frame,
    book: &Book,
    from: u32,
    out: &mut Vec<u8>,
) -> Result<(), NoMemory>
    ensures ok { OnOk result (out.new.items ≡ out.old.items ++ framed_reply frame (since_text book.now.entries from)) }
    ensures err { OnErr result (out.new.items ≡ out.old.items) }
{
    let mut text = begin(alloc, frame)?;
    append_since(book.journal(), from, &mut text)?;
    end(text, out)
}

fn append_since(journal: &Journal, from: u32, out: &mut Vec<u8>) -> Result<(), NoMemory>
    ensures { OnOk result (out.new.items ≡ out.old.items ++ since_text journal.now.entries from) }
{
    if from > journal.len() {
        return append_no_version(journal.len(), from, out);
    }
    append_behind(journal, from, out)
}

// Appends that there is no such version yet.
fn append_no_version(version: u32, at: u32, out: &mut Vec<u8>) -> Result<(), NoMemory>
    ensures { OnOk result (out.new.items ≡ out.old.items ++ no_version_text version at) }
{
    append_two_counts(
        "noversion version ",
        u64::from(version),
        " at ",
        u64::from(at),
        out,
    )
}

// Appends how many entries stand behind a version, and the entries.
fn append_behind(journal: &Journal, from: u32, out: &mut Vec<u8>) -> Result<(), NoMemory>
    requires { from ≤ length journal.now.entries }
    ensures { OnOk result (out.new.items ≡ out.old.items ++ entries_behind_text journal.now.entries from) }
{
    let count = u64::from(journal.len() - from);
    append_labelled("since version ", u64::from(journal.len()), out)?;
    append_two_counts(" from ", u64::from(from), " entries ", count, out)?;
    append_entries(journal, from, out)
}

// Appends the entries behind a version.
fn append_entries(journal: &Journal, from: u32, out: &mut Vec<u8>) -> Result<(), NoMemory>
    requires { from ≤ length journal.now.entries }
    ensures { OnOk result (out.new.items ≡ out.old.items ++ entries_text (from + 1) (drop from journal.now.entries)) }
{
    'entries: for before in from..journal.len() {
        append_entry_behind(before, journal, out)?;
    }
    Ok(())
}

// Appends the entry behind so many others.
fn append_entry_behind(before: u32, journal: &Journal, out: &mut Vec<u8>) -> Result<(), NoMemory>
    requires { before < length journal.now.entries }
    ensures { OnOk result (out.new.items ++ entries_text (before + 1 + 1) (drop (before + 1) journal.now.entries) ≡ out.old.items ++ entries_text (before + 1) (drop before journal.now.entries)) }
{
    let _entries = journal.len();
    let Some(entry) = journal.get(before + 1) else {
        unreachable!();
    };
    append_entry(before + 1, entry, out)
}

// Appends an entry with its number.
fn append_entry(number: u32, entry: &Entry, out: &mut Vec<u8>) -> Result<(), NoMemory>
    ensures { OnOk result (out.new.items ≡ out.old.items ++ entry_text number entry.now) }
{
    append_number(u64::from(number), out)?;
    out.extend_from_slice(b" ")?;
    append_entry_line(entry, out)?;
    out.extend_from_slice(b"\n")?;
    Ok(())
}

/// Appends that there are no such blocks to be tallied: the version, and how many blocks there are. After `NoMemory` the buffer is as
/// before.
pub fn say_no_range(
    alloc: Global,
    frame: Frame,
    book: &Book,
    out: &mut Vec<u8>,
) -> Result<(), NoMemory>
    ensures ok { OnOk result (out.new.items ≡ out.old.items ++ framed_reply frame (no_range_text book.now.opening book.now.entries)) }
    ensures err { OnErr result (out.new.items ≡ out.old.items) }
{
    let mut text = begin(alloc, frame)?;
    append_no_range(book, &mut text)?;
    end(text, out)
}

// Appends the version, and how many blocks there are.
fn append_no_range(book: &Book, out: &mut Vec<u8>) -> Result<(), NoMemory>
    ensures { OnOk result (out.new.items ≡ out.old.items ++ no_range_text book.now.opening book.now.entries) }
{
    let (version, count) = (u64::from(book.version()), u64::from(book.block_count()));
    append_two_counts("norange version ", version, " blocks ", count, out)
}
