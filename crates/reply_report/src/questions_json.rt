//! What questions are answered, as JSON.
ghost use Rattle.std.specs.Prelude.{◌≡◌, ◌∷◌, ◌+◌, ◌<◌, ◌++◌, [], codes, drop, None, false, length, map, true, IfOk, OnOk, OnErr, Some};
ghost use Rattle.std.specs.Option.{option_copied};
ghost use Rattle.serde_json.specs.Data.{Members, member, object};
ghost use Rattle.serde_json.specs.View.{items_of};
ghost use Rattle.serde_json.specs.Written.{compact_text, items_text, members_text};
ghost use Rattle.edit_book.specs.Books.{document};
ghost use Rattle.edit_book.specs.Listing.{block_places};
ghost use Rattle.verdict_report.specs.VerdictJson.{list_value};
ghost use Rattle.reply_report.specs.TalkJson.{blocks_members, value_json_line, listed_value, no_range_members, no_version_members, old_members, text_at_members};

use crate::Frame;
use crate::frame::end;
use crate::members::{
    append_comma, append_count, append_frame, append_key, append_version, close, object,
};
use crate::replies_json::append_no_block;
use crate::values::append_text;
use edit_book::{BlockPlace, Book};
use knit_base::{BlockText, NoMemory, Steps};
use std::alloc::Global;
use std::sync::ledger::Ledger;

/// Appends the blocks as they stand, in their order, as an object on one line. After `NoMemory` the buffer is as before.
pub fn json_blocks(
    alloc: Global,
    frame: Frame,
    book: &Book,
    out: &mut Vec<u8>,
) -> Result<(), NoMemory>
    ensures ok { OnOk result (out.new.items ≡ out.old.items ++ value_json_line (object (blocks_members book.now.opening book.now.entries frame))) }
    ensures err { OnErr result (out.new.items ≡ out.old.items) }
{
    let mut text = object(alloc)?;
    append_listing(frame, book, &mut text)?;
    end(text, out)
}

// Appends the members of the blocks as they stand.
fn append_listing(frame: Frame, book: &Book, out: &mut Vec<u8>) -> Result<(), NoMemory>
    ensures { OnOk result (out.new.items ≡ out.old.items ++ members_text false (blocks_members book.now.opening book.now.entries frame)) }
{
    append_blocks(book, out)?;
    append_frame(true, Some(frame), "blocks", out)?;
    append_version(book.version(), out)
}

// Appends the blocks, as a member.
fn append_blocks(book: &Book, out: &mut Vec<u8>) -> Result<(), NoMemory>
    ensures { OnOk result ((rest : Members) → out.new.items ++ members_text true rest ≡ out.old.items ++ members_text false (member (codes "blocks") (list_value listed_value (block_places book.now.opening (document book.now))) rest)) }
{
    append_key(false, "blocks", out)?;
    append_block_list(book, out)
}

fn append_block_list(book: &Book, out: &mut Vec<u8>) -> Result<(), NoMemory>
    ensures { OnOk result (out.new.items ≡ out.old.items ++ compact_text (list_value listed_value (block_places book.now.opening (document book.now)))) }
{
    out.extend_from_slice(b"[")?;
    append_block_items(book, out)?;
    out.extend_from_slice(b"]")?;
    Ok(())
}

// Appends the blocks, with commas between.
fn append_block_items(book: &Book, out: &mut Vec<u8>) -> Result<(), NoMemory>
    ensures { OnOk result (out.new.items ++ 93 ∷ [] ≡ out.old.items ++ items_text false (items_of (map listed_value (block_places book.now.opening (document book.now))))) }
{
    let mut later = false;
    'each: for at in 0..book.block_count() {
        append_block_at(later, at, book, out)?;
        later = true;
    }
    Ok(())
}

// Appends the block at this place, behind a comma where one stands before.
fn append_block_at(later: bool, at: u32, book: &Book, out: &mut Vec<u8>) -> Result<(), NoMemory>
    requires { at < length (block_places book.now.opening (document book.now)) }
    ensures { OnOk result (out.new.items ++ items_text true (items_of (map listed_value (drop (at + 1) (block_places book.now.opening (document book.now))))) ≡ out.old.items ++ items_text later (items_of (map listed_value (drop at (block_places book.now.opening (document book.now)))))) }
{
    let Some(place) = book.block_at(at) else {
        unreachable!();
    };
    append_comma(later, out)?;
    append_block(place, out)
}

// Appends a block as it stands.
fn append_block(place: BlockPlace, out: &mut Vec<u8>) -> Result<(), NoMemory>
    ensures { OnOk result (out.new.items ≡ out.old.items ++ compact_text (listed_value place)) }
{
    out.extend_from_slice(b"{")?;
    append_count(false, "block", place.block, out)?;
    append_count(true, "first", place.first, out)?;
    append_count(true, "lines", place.lines, out)?;
    append_count(true, "stamp", place.stamp, out)?;
    close(out)
}

/// Appends that there are no such blocks to be tallied, as an object on one line. After `NoMemory` the buffer is as before.
pub fn json_no_range(
    alloc: Global,
    frame: Frame,
    book: &Book,
    out: &mut Vec<u8>,
) -> Result<(), NoMemory>
    ensures ok { OnOk result (out.new.items ≡ out.old.items ++ value_json_line (object (no_range_members book.now.opening book.now.entries frame))) }
    ensures err { OnErr result (out.new.items ≡ out.old.items) }
{
    let mut text = object(alloc)?;
    append_no_range(frame, book, &mut text)?;
    end(text, out)
}

// Appends the members of what is said where there are no such blocks.
fn append_no_range(frame: Frame, book: &Book, out: &mut Vec<u8>) -> Result<(), NoMemory>
    ensures { OnOk result (out.new.items ≡ out.old.items ++ members_text false (no_range_members book.now.opening book.now.entries frame)) }
{
    append_count(false, "blocks", book.block_count(), out)?;
    append_frame(true, Some(frame), "norange", out)?;
    append_version(book.version(), out)
}

/// Appends that there is no such version yet, as an object on one line. After `NoMemory` the buffer is as before.
pub fn json_no_version(
    alloc: Global,
    frame: Frame,
    version: u32,
    at: u32,
    out: &mut Vec<u8>,
) -> Result<(), NoMemory>
    ensures ok { OnOk result (out.new.items ≡ out.old.items ++ value_json_line (object (no_version_members frame version at))) }
    ensures err { OnErr result (out.new.items ≡ out.old.items) }
{
    let mut text = object(alloc)?;
    append_no_version(frame, version, at, &mut text)?;
    end(text, out)
}

/// Appends the members of what is said where there is no such version yet.
pub(crate) fn append_no_version(
    frame: Frame,
    version: u32,
    at: u32,
    out: &mut Vec<u8>,
) -> Result<(), NoMemory>
    ensures { OnOk result (out.new.items ≡ out.old.items ++ members_text false (no_version_members frame version at)) }
{
    append_count(false, "at", at, out)?;
    append_frame(true, Some(frame), "noversion", out)?;
    append_version(version, out)
}

/// Appends the text that a block got from the entry with this number, or its opening text for 0; or that it got none; or that no block
/// has had this id; as an object on one line. It costs a step for each line. After `NoMemory` the buffer is as before.
pub fn json_text_at<L: Ledger>(
    alloc: Global,
    frame: Frame,
    book: &Book,
    block: u32,
    stamp: u32,
    out: &mut Vec<u8>,
    steps: &mut Steps<L>,
) -> Result<(), NoMemory>
    ensures ok { OnOk result (out.new.items ≡ out.old.items ++ value_json_line (object (text_at_members book.now.opening book.now.entries frame block stamp))) }
    ensures err { OnErr result (out.new.items ≡ out.old.items) }
{
    let mut text = object(alloc)?;
    append_text_at(frame, book, block, stamp, &mut text, steps)?;
    end(text, out)
}

fn append_text_at<L: Ledger>(
    frame: Frame,
    book: &Book,
    block: u32,
    stamp: u32,
    out: &mut Vec<u8>,
    steps: &mut Steps<L>,
) -> Result<(), NoMemory>
    ensures { OnOk result (out.new.items ≡ out.old.items ++ members_text false (text_at_members book.now.opening book.now.entries frame block stamp)) }
{
    if block < book.ids() {
        return append_old(
            frame,
            book.version(),
            block,
            stamp,
            book.text_at(block, stamp),
            out,
            steps,
        );
    }
    append_no_block(Some(frame), book.version(), block, book.ids(), out)
}

// Appends the text that a block got from an entry, or that it got none.
fn append_old<L: Ledger>(
    frame: Frame,
    version: u32,
    block: u32,
    stamp: u32,
    text: Option<&BlockText>,
    out: &mut Vec<u8>,
    steps: &mut Steps<L>,
) -> Result<(), NoMemory>
    ensures { OnOk result (out.new.items ≡ out.old.items ++ members_text false (old_members frame version block stamp (option_copied text.entry))) }
{
    match text {
        Some(text) => append_got(frame, version, block, stamp, text, out, steps),
        None => append_no_text(frame, version, block, stamp, out),
    }
}

// Appends the members of a text that a block got.
fn append_got<L: Ledger>(
    frame: Frame,
    version: u32,
    block: u32,
    stamp: u32,
    text: &BlockText,
    out: &mut Vec<u8>,
    steps: &mut Steps<L>,
) -> Result<(), NoMemory>
    ensures { OnOk result (out.new.items ≡ out.old.items ++ members_text false (old_members frame version block stamp (Some text.now))) }
{
    append_count(false, "block", block, out)?;
    append_text(text, out, steps)?;
    append_frame(true, Some(frame), "text", out)?;
    append_count(true, "stamp", stamp, out)?;
    append_version(version, out)
}

// Appends the members of what is said where a block got no text.
fn append_no_text(
    frame: Frame,
    version: u32,
    block: u32,
    stamp: u32,
    out: &mut Vec<u8>,
) -> Result<(), NoMemory>
    ensures { OnOk result (out.new.items ≡ out.old.items ++ members_text false (old_members frame version block stamp None)) }
{
    append_count(false, "block", block, out)?;
    append_frame(true, Some(frame), "notext", out)?;
    append_count(true, "stamp", stamp, out)?;
    append_version(version, out)
}
