//! What is said without a frame: that the document stands, that a line is refused, and how it ends.
ghost use Rattle.std.specs.Prelude.{◌≡◌, ◌≤◌, ◌+◌, ◌++◌, IfOk, List, ℕ, length, OnOk, OnErr};
ghost use Rattle.block_summary.specs.Verdicts.{broken_line};
ghost use Rattle.edit_journal.specs.Documents.{body, document_of};
ghost use Rattle.edit_book.specs.Verdicts.{HasVerdict, setting_of};
ghost use Rattle.verdict_report.specs.LiveText.{final_text};
ghost use Rattle.reply_report.specs.TalkText.{IsFinalSaid, IsOpenedSaid, bad_line_said, document_broken_text, cause_name, line_of_brief, line_of_verdict, opened_text};

use crate::broken::{append_broken, line_of_brief, line_of_verdict};
use crate::frame::end;
use carriage_model::{Brief, Verdict};
use edit_book::{Book, Reply};
use knit_base::{NoMemory, Steps, Text, append_labelled};
use script_reader::Cause;
use std::alloc::Global;
use std::sync::ledger::Ledger;
use verdict_report::{report_brief, report_text};

/// Appends that the document stands: its version, how many blocks it has, the verdict in short, and where it is broken. After `NoMemory`
/// the buffer is as before.
pub fn say_opened(alloc: Global, book: &Book, out: &mut Vec<u8>) -> Result<(), NoMemory>
    ensures ok { OnOk result ((text : List ℕ) × (out.new.items ≡ out.old.items ++ text) × IsOpenedSaid book.now.opening book.now.entries text) }
    ensures err { OnErr result (out.new.items ≡ out.old.items) }
{
    let brief = book.verdict();
    let mut text = Vec::new(alloc);
    append_opened(brief, book, &mut text)?;
    out.extend_from_slice(&text)?;
    Ok(())
}

// Appends the version of the document, how many blocks it has, this verdict, and where it is broken.
fn append_opened(brief: Brief, book: &Book, out: &mut Vec<u8>) -> Result<(), NoMemory>
    ensures { OnOk result (out.new.items ≡ out.old.items ++ opened_text book.now.opening book.now.entries brief) }
{
    append_labelled("opened version ", u64::from(book.version()), out)?;
    append_labelled(" blocks ", u64::from(book.block_count()), out)?;
    out.extend_from_slice(b" ")?;
    report_brief(brief, out)?;
    out.extend_from_slice(b"\n")?;
    append_broken(line_of_brief(brief), book, out)?;
    out.extend_from_slice(b"\n")?;
    Ok(())
}

/// Appends that the line of the conversation with this number is refused, and why. After `NoMemory` the buffer is as before.
pub fn say_bad_line(
    alloc: Global,
    line: u64,
    cause: Cause,
    out: &mut Vec<u8>,
) -> Result<(), NoMemory>
    ensures ok { OnOk result (out.new.items ≡ out.old.items ++ bad_line_said line cause) }
    ensures err { OnErr result (out.new.items ≡ out.old.items) }
{
    let mut text = Vec::new(alloc);
    append_bad_line(line, cause, &mut text)?;
    out.extend_from_slice(&text)?;
    Ok(())
}

fn append_bad_line(line: u64, cause: Cause, out: &mut Vec<u8>) -> Result<(), NoMemory>
    ensures { OnOk result (out.new.items ≡ out.old.items ++ bad_line_said line cause) }
{
    append_labelled("badinput line ", line, out)?;
    out.extend_from_slice(b" ")?;
    out.extend_from_slice(cause_name(cause).as_bytes())?;
    out.extend_from_slice(b"\n\n")?;
    Ok(())
}

/// The name of what is wrong with a line.
pub(crate) fn cause_name(cause: Cause) -> &'static str
    ensures { result.now ≡ cause_name cause }
{
    match cause {
        Cause::NoLive => "NoLive",
        Cause::BadLine => "BadLine",
        Cause::ManySessions => "ManySessions",
        Cause::NoOwn => "NoOwn",
        Cause::NoGroups => "NoGroups",
        Cause::NoServe => "NoServe",
        Cause::LineLong => "LineLong",
        Cause::NotUtf8 => "NotUtf8",
    }
}

/// The verdict on the document as it is, and the line at which it is broken.
#[derive(Drop)]
pub(crate) struct DocumentVerdict {
    pub(crate) verdict: Verdict,
    pub(crate) broken: Text,
}

/// What the document comes to at its version.
pub(crate) fn ending_of<L: Ledger>(
    book: &Book,
    steps: &mut Steps<L>,
) -> Result<DocumentVerdict, NoMemory>
    ensures ending { IfOk result (λ ending. let d = document_of book.now.opening book.now.entries in HasVerdict (setting_of book.now.opening d) (body d) ending.verdict × (ending.broken ≡ broken_line (setting_of book.now.opening d).first (body d) ending.verdict)) }
    ensures steps { steps.new ≤ steps.old + 1 }
{
    match book.now(steps) {
        Reply::Now {
            version: _,
            verdict,
            text,
        } => Ok(DocumentVerdict {
            verdict,
            broken: text,
        }),
        _ => Err(NoMemory),
    }
}

/// Appends the version of the document as it is, its verdict, and where it is broken. It costs a step at most. After `NoMemory` the
/// buffer is as before.
pub fn say_final<L: Ledger>(
    alloc: Global,
    book: &Book,
    out: &mut Vec<u8>,
    steps: &mut Steps<L>,
) -> Result<(), NoMemory>
    ensures ok { OnOk result ((text : List ℕ) × (out.new.items ≡ out.old.items ++ text) × IsFinalSaid book.now.opening book.now.entries text) }
    ensures err { OnErr result (out.new.items ≡ out.old.items) }
    ensures steps { steps.new ≤ steps.old + 1 }
{
    let ending = ending_of(book, steps)?;
    let text = final_of(alloc, book, &ending)?;
    end(text, out)
}

// The version of the document, this verdict, and where it is broken.
fn final_of(alloc: Global, book: &Book, ending: &DocumentVerdict) -> Result<Vec<u8>, NoMemory>
    ensures { IfOk result (λ text. text.items ≡ final_text (document_of book.now.opening book.now.entries).header.names (length book.now.entries) ending.now.broken ending.now.verdict
        ++ document_broken_text book.now.opening book.now.entries (line_of_verdict ending.now.verdict)) }
{
    let DocumentVerdict { verdict, broken } = ending;
    let mut text = Vec::new(alloc);
    append_verdict(alloc, book, verdict, broken.as_str(), &mut text)?;
    append_broken(line_of_verdict(verdict), book, &mut text)?;
    Ok(text)
}

// Appends the version of the document, and this verdict.
fn append_verdict(
    alloc: Global,
    book: &Book,
    verdict: &Verdict,
    broken: &str,
    out: &mut Vec<u8>,
) -> Result<(), NoMemory>
    ensures { OnOk result (out.new.items ≡ out.old.items ++ final_text (document_of book.now.opening book.now.entries).header.names (length book.now.entries) broken.now verdict.now) }
{
    append_labelled("final version ", u64::from(book.version()), out)?;
    out.extend_from_slice(b"\n")?;
    report_text(alloc, verdict, None, &book.setting().declared, broken, out)
}
