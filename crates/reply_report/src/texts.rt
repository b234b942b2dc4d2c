//! What is said of texts: that which a block once got, a saved one, and what blocks come to.
ghost use Rattle.std.specs.Prelude.{◌≡◌, ◌+◌, ◌++◌, ◌<◌, codes, count_by, drop, flat_map, length, OnOk, OnErr};
ghost use Rattle.std.specs.Option.{option_copied};
ghost use Rattle.knit_base.specs.Lines.{is_line_feed};
ghost use Rattle.journal_file.specs.Spelling.{saved_spelling};
ghost use Rattle.tally_tree.specs.Tallies.{counts_of_tally};
ghost use Rattle.verdict_report.specs.LiveText.{barred_line};
ghost use Rattle.reply_report.specs.TalkText.{at_stamp, framed_reply, old_text, saved_said, text_at_text};
ghost use Rattle.reply_report.specs.TallyText.{tally_text};

use crate::Frame;
use crate::frame::{append_two_counts, begin, end};
use crate::tally::append_tally;
use edit_book::{Book, Reply};
use journal_file::{Saved, saved_text};
use knit_base::{BlockText, Declared, NoMemory, Steps, append_labelled};
use std::alloc::Global;
use std::sync::ledger::Ledger;
use tally_tree::Tally;
use verdict_report::report_told;

/// Appends the text that a block got from the entry with this number, or its opening text for 0; or that it got none; or that no block
/// has had this id. It costs a step for each line. After `NoMemory` the buffer is as before.
pub fn say_text_at<L: Ledger>(
    alloc: Global,
    frame: Frame,
    book: &Book,
    block: u32,
    stamp: u32,
    out: &mut Vec<u8>,
    steps: &mut Steps<L>,
) -> Result<(), NoMemory>
    ensures ok { OnOk result (out.new.items ≡ out.old.items ++ framed_reply frame (text_at_text book.now.opening book.now.entries block stamp)) }
    ensures err { OnErr result (out.new.items ≡ out.old.items) }
{
    let mut text = begin(alloc, frame)?;
    append_text_at(alloc, book, block, stamp, &mut text, steps)?;
    end(text, out)
}

fn append_text_at<L: Ledger>(
    alloc: Global,
    book: &Book,
    block: u32,
    stamp: u32,
    out: &mut Vec<u8>,
    steps: &mut Steps<L>,
) -> Result<(), NoMemory>
    ensures { OnOk result (out.new.items ≡ out.old.items ++ text_at_text book.now.opening book.now.entries block stamp) }
{
    if block < book.ids() {
        return append_old(
            book.version(),
            block,
            stamp,
            book.text_at(block, stamp),
            out,
            steps,
        );
    }
    let none = Reply::NoBlock {
        version: book.version(),
        block,
        ids: book.ids(),
    };
    report_told(alloc, &none, book, out)
}

// Appends the text that a block got from an entry, or that it got none.
fn append_old<L: Ledger>(
    version: u32,
    block: u32,
    stamp: u32,
    text: Option<&BlockText>,
    out: &mut Vec<u8>,
    steps: &mut Steps<L>,
) -> Result<(), NoMemory>
    ensures { OnOk result (out.new.items ≡ out.old.items ++ old_text version block stamp (option_copied text.entry)) }
{
    match text {
        Some(text) => append_got(version, block, stamp, text, out, steps),
        None => append_no_text(version, block, stamp, out),
    }
}

// Appends a version, a block and a stamp, behind a word.
fn append_at_stamp(
    word: &str,
    version: u32,
    block: u32,
    stamp: u32,
    out: &mut Vec<u8>,
) -> Result<(), NoMemory>
    ensures { OnOk result (out.new.items ≡ out.old.items ++ at_stamp word.now version block stamp) }
{
    append_labelled(word, u64::from(version), out)?;
    append_labelled(" block ", u64::from(block), out)?;
    append_labelled(" stamp ", u64::from(stamp), out)
}

// Appends that a block got no text from an entry.
fn append_no_text(version: u32, block: u32, stamp: u32, out: &mut Vec<u8>) -> Result<(), NoMemory>
    ensures { OnOk result (out.new.items ≡ out.old.items ++ (at_stamp (codes "notext version ") version block stamp ++ codes "\n")) }
{
    append_at_stamp("notext version ", version, block, stamp, out)?;
    out.extend_from_slice(b"\n")?;
    Ok(())
}

// Appends the text that a block got from an entry.
fn append_got<L: Ledger>(
    version: u32,
    block: u32,
    stamp: u32,
    text: &BlockText,
    out: &mut Vec<u8>,
    steps: &mut Steps<L>,
) -> Result<(), NoMemory>
    ensures { OnOk result (out.new.items ≡ out.old.items ++ old_text version block stamp (Some text.now)) }
{
    append_at_stamp("text version ", version, block, stamp, out)?;
    append_labelled(" lines ", u64::from(text.len()), out)?;
    out.extend_from_slice(b"\n")?;
    append_lines(text, out, steps)
}

// Appends the lines of a text, each behind a bar.
fn append_lines<L: Ledger>(
    text: &BlockText,
    out: &mut Vec<u8>,
    steps: &mut Steps<L>,
) -> Result<(), NoMemory>
    ensures { OnOk result (out.new.items ≡ out.old.items ++ flat_map barred_line text.now) }
{
    'lines: for at in 0..text.len() {
        append_line(at, text, out, steps)?;
    }
    Ok(())
}

// Appends the line at this place.
fn append_line<L: Ledger>(
    at: u32,
    text: &BlockText,
    out: &mut Vec<u8>,
    steps: &mut Steps<L>,
) -> Result<(), NoMemory>
    requires { at < length text.now }
    ensures { OnOk result (out.new.items ++ flat_map barred_line (drop (at + 1) text.now) ≡ out.old.items ++ flat_map barred_line (drop at text.now)) }
{
    append_barred(text.line(at, steps), out)
}

// Appends a line, behind a bar.
fn append_barred(line: &str, out: &mut Vec<u8>) -> Result<(), NoMemory>
    ensures { OnOk result (out.new.items ≡ out.old.items ++ barred_line line.now) }
{
    out.extend_from_slice(b"|")?;
    out.extend_from_slice(line.as_bytes())?;
    out.extend_from_slice(b"\n")?;
    Ok(())
}

/// Appends the saved text of a document at this version, behind the number of its lines. It costs a step for each line of a block or of
/// an entry's text. After `NoMemory` the buffer is as before.
pub fn say_saved<L: Ledger>(
    alloc: Global,
    frame: Frame,
    version: u32,
    saved: &Saved,
    out: &mut Vec<u8>,
    steps: &mut Steps<L>,
) -> Result<(), NoMemory>
    ensures ok { OnOk result (out.new.items ≡ out.old.items ++ framed_reply frame (saved_said version (saved_spelling saved.now.head saved.now.profile saved.now.blocks saved.now.journal.entries))) }
    ensures err { OnErr result (out.new.items ≡ out.old.items) }
{
    let mut text = begin(alloc, frame)?;
    let saved = saved_text(alloc, saved, steps)?;
    append_saved(version, &saved, &mut text)?;
    end(text, out)
}

// Appends a saved text, behind the version and the number of its lines.
fn append_saved(version: u32, saved: &[u8], out: &mut Vec<u8>) -> Result<(), NoMemory>
    ensures { OnOk result (out.new.items ≡ out.old.items ++ saved_said version saved.now) }
{
    append_two_counts(
        "saved version ",
        u64::from(version),
        " lines ",
        lines_in(saved),
        out,
    )?;
    out.extend_from_slice(saved)?;
    Ok(())
}

// How many lines the text has, each of which ends with a line feed.
fn lines_in(text: &[u8]) -> u64
    ensures { result ≡ count_by is_line_feed text.now }
{
    let mut lines = 0;
    'bytes: for byte in text {
        if *byte == b'\n' {
            lines += 1;
        }
    }
    lines
}

/// Appends what the blocks from one place to another come to, for carriers of these names. After `NoMemory` the buffer is as before.
pub fn say_tally(
    alloc: Global,
    frame: Frame,
    from: u32,
    to: u32,
    tally: &Tally,
    declared: &Declared,
    out: &mut Vec<u8>,
) -> Result<(), NoMemory>
    requires { length tally.now.with.items ≡ length declared.now }
    ensures ok { OnOk result (out.new.items ≡ out.old.items ++ framed_reply frame (tally_text from to declared.now (counts_of_tally tally.now))) }
    ensures err { OnErr result (out.new.items ≡ out.old.items) }
{
    let mut text = begin(alloc, frame)?;
    append_tally(from, to, tally, declared, &mut text)?;
    end(text, out)
}
