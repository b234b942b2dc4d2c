//! What is said without a frame, as JSON.
ghost use Rattle.std.specs.Prelude.{◌≡◌, ◌≤◌, ◌+◌, ◌++◌, false, IfOk, List, ℕ, length, OnOk, OnErr};
ghost use Rattle.serde_json.specs.Data.{object};
ghost use Rattle.serde_json.specs.Written.{compact_text, members_text};
ghost use Rattle.edit_journal.specs.Documents.{document_of};
ghost use Rattle.reply_report.specs.TalkText.{broken_place, line_of_verdict};
ghost use Rattle.reply_report.specs.TalkJson.{IsFinalJson, IsOpenedJson, bad_line_members, final_members, value_json_line, opened_members};

use crate::broken::{broken_place, line_of_brief, line_of_verdict};
use crate::frame::end;
use crate::members::{append_count, append_version, append_wide, append_word, close, object};
use crate::values::{
    append_brief_member, append_broken_first, append_broken_member, append_verdict_member,
};
use crate::whole::{DocumentVerdict, cause_name, ending_of};
use carriage_model::{Brief, Verdict};
use edit_book::{Book, LinePlace};
use knit_base::{Declared, NoMemory, Steps};
use script_reader::Cause;
use std::alloc::Global;
use std::sync::ledger::Ledger;

/// Appends that the document stands, as an object on one line. After `NoMemory` the buffer is as before.
pub fn json_opened(alloc: Global, book: &Book, out: &mut Vec<u8>) -> Result<(), NoMemory>
    ensures ok { OnOk result ((text : List ℕ) × (out.new.items ≡ out.old.items ++ text) × IsOpenedJson book.now.opening book.now.entries text) }
    ensures err { OnErr result (out.new.items ≡ out.old.items) }
{
    let brief = book.verdict();
    let broken = broken_place(line_of_brief(brief), book);
    let mut text = object(alloc)?;
    append_opened(
        alloc,
        book.version(),
        book.block_count(),
        broken,
        brief,
        &mut text,
    )?;
    end(text, out)
}

// Appends the members of what is said where a document stands.
fn append_opened(
    alloc: Global,
    version: u32,
    blocks: u32,
    broken: Option<LinePlace>,
    brief: Brief,
    out: &mut Vec<u8>,
) -> Result<(), NoMemory>
    ensures { OnOk result (out.new.items ≡ out.old.items ++ members_text false (opened_members version blocks broken brief)) }
{
    append_count(false, "blocks", blocks, out)?;
    append_brief_member(alloc, true, brief, out)?;
    append_broken_member(broken, out)?;
    append_word(true, "reply", "opened", out)?;
    append_version(version, out)
}

/// Appends that the line of the conversation with this number is refused, and why, as an object on one line. After `NoMemory` the
/// buffer is as before.
pub fn json_bad_line(
    alloc: Global,
    line: u64,
    cause: Cause,
    out: &mut Vec<u8>,
) -> Result<(), NoMemory>
    ensures ok { OnOk result (out.new.items ≡ out.old.items ++ value_json_line (object (bad_line_members line cause))) }
    ensures err { OnErr result (out.new.items ≡ out.old.items) }
{
    let mut text = object(alloc)?;
    append_bad_line(line, cause, &mut text)?;
    end(text, out)
}

fn append_bad_line(line: u64, cause: Cause, out: &mut Vec<u8>) -> Result<(), NoMemory>
    ensures { OnOk result (out.new.items ≡ out.old.items ++ members_text false (bad_line_members line cause)) }
{
    append_word(false, "cause", cause_name(cause), out)?;
    append_wide(true, "line", line, out)?;
    append_word(true, "reply", "badinput", out)?;
    close(out)
}

/// Appends the version of the document as it is, its verdict, and where it is broken, as an object on one line. It costs a step at
/// most. After `NoMemory` the buffer is as before.
pub fn json_final<L: Ledger>(
    alloc: Global,
    book: &Book,
    out: &mut Vec<u8>,
    steps: &mut Steps<L>,
) -> Result<(), NoMemory>
    ensures ok { OnOk result ((text : List ℕ) × (out.new.items ≡ out.old.items ++ text) × IsFinalJson book.now.opening book.now.entries text) }
    ensures err { OnErr result (out.new.items ≡ out.old.items) }
    ensures steps { steps.new ≤ steps.old + 1 }
{
    let ending = ending_of(book, steps)?;
    let text = final_of(alloc, book, &ending)?;
    end(text, out)
}

// What is said of the document at its end, without the end of the line.
fn final_of(alloc: Global, book: &Book, ending: &DocumentVerdict) -> Result<Vec<u8>, NoMemory>
    ensures { IfOk result (λ text. text.items ≡ compact_text (object (final_members (document_of book.now.opening book.now.entries).header.names (length book.now.entries) (broken_place book.now.opening book.now.entries (line_of_verdict ending.now.verdict)) ending.now.broken ending.now.verdict))) }
{
    let DocumentVerdict { verdict, broken } = ending;
    let place = broken_place(line_of_verdict(verdict), book);
    let (version, declared) = (book.version(), &book.setting().declared);
    let mut text = object(alloc)?;
    append_final(
        alloc,
        version,
        place,
        verdict,
        declared,
        broken.as_str(),
        &mut text,
    )?;
    Ok(text)
}

// Appends the members of a verdict that is the last.
fn append_final(
    alloc: Global,
    version: u32,
    broken: Option<LinePlace>,
    verdict: &Verdict,
    declared: &Declared,
    line: &str,
    out: &mut Vec<u8>,
) -> Result<(), NoMemory>
    ensures { OnOk result (out.new.items ≡ out.old.items ++ members_text false (final_members declared.now version broken line.now verdict.now)) }
{
    append_broken_first(broken, out)?;
    append_word(broken.is_some(), "reply", "final", out)?;
    append_verdict_member(alloc, verdict, declared, line, out)?;
    append_version(version, out)
}
