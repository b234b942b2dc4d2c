//! The report on a document that sessions edited.
ghost use Rattle.std.specs.Prelude.{◌≡◌, ◌++◌, ◌+◌, ◌≤◌, length, IfOk, OnOk, OnErr, List, ℕ};
ghost use Rattle.edit_journal.specs.Documents.{body, document_of};
ghost use Rattle.block_summary.specs.Verdicts.{broken_line};
ghost use Rattle.edit_book.specs.Verdicts.{HasVerdict, setting_of};
ghost use Rattle.verdict_report.specs.LiveText.{IsEnd, IsFinalReport, IsLiveReport, final_text};

use crate::entries::append_journal;
use crate::replies::append_verdict;
use crate::sessions::append_sessions;
use carriage_model::Verdict;
use edit_book::{Book, Replies, Reply};
use knit_base::{NoMemory, Steps, Text};
use std::alloc::Global;
use std::sync::ledger::Ledger;

/// Appends what each session was answered, the entries of the journal, and the verdict on the document as it is. After `NoMemory`
/// the buffer is as before. It costs a step at most.
///
/// It is for a report that stands in one buffer with others; `live` writes that of `live_of` as it is. A carrier that isn't declared
/// has an empty name.
pub fn report_live<L: Ledger>(
    alloc: Global,
    book: &Book,
    replies: &Replies,
    out: &mut Vec<u8>,
    steps: &mut Steps<L>,
) -> Result<(), NoMemory>
    ensures ok { OnOk result ((text : List ℕ) × (out.new.items ≡ out.old.items ++ text) × IsLiveReport book.now.opening book.now.entries replies.now text) }
    ensures err { OnErr result (out.new.items ≡ out.old.items) }
    ensures steps { steps.new ≤ steps.old + 1 }
{
    let text = live_of(alloc, book, replies, steps)?;
    out.extend_from_slice(&text)?;
    Ok(())
}

/// The verdict on the document as it is, and the line at which it is broken.
#[derive(Drop)]
struct LiveVerdict {
    verdict: Verdict,
    broken: Text,
}

// What the document comes to at its version.
fn ending_of<L: Ledger>(book: &Book, steps: &mut Steps<L>) -> Result<LiveVerdict, NoMemory>
    ensures ending { IfOk result (λ ending. let d = document_of book.now.opening book.now.entries in HasVerdict (setting_of book.now.opening d) (body d) ending.verdict × (ending.broken ≡ broken_line (setting_of book.now.opening d).first (body d) ending.verdict)) }
    ensures steps { steps.new ≤ steps.old + 1 }
{
    match book.now(steps) {
        Reply::Now {
            version: _,
            verdict,
            text,
        } => Ok(LiveVerdict {
            verdict,
            broken: text,
        }),
        _ => Err(NoMemory),
    }
}

// Appends the version at the end, and its verdict.
fn append_final(
    alloc: Global,
    book: &Book,
    ending: &LiveVerdict,
    out: &mut Vec<u8>,
) -> Result<(), NoMemory>
    ensures { OnOk result (out.new.items ≡ out.old.items ++ final_text (document_of book.now.opening book.now.entries).header.names (length book.now.entries) ending.now.broken ending.now.verdict) }
{
    let LiveVerdict { verdict, broken } = ending;
    let declared = &book.setting().declared;
    append_verdict(
        alloc,
        "final version ",
        book.version(),
        verdict,
        declared,
        broken.as_str(),
        out,
    )
}

// Appends the journal, and what the document comes to.
fn append_ending<L: Ledger>(
    alloc: Global,
    book: &Book,
    out: &mut Vec<u8>,
    steps: &mut Steps<L>,
) -> Result<(), NoMemory>
    ensures ok { OnOk result ((text : List ℕ) × (out.new.items ≡ out.old.items ++ text) × IsEnd book.now.opening book.now.entries text) }
    ensures steps { steps.new ≤ steps.old + 1 }
{
    let ending = ending_of(book, steps)?;
    append_journal(book.journal(), out)?;
    append_final(alloc, book, &ending, out)
}

/// Appends the entries of the journal, and the verdict on the document as it is: the end of what `report_live` appends, from the
/// line that counts the entries on. After `NoMemory` the buffer is as before. It costs a step at most.
pub fn report_end<L: Ledger>(
    alloc: Global,
    book: &Book,
    out: &mut Vec<u8>,
    steps: &mut Steps<L>,
) -> Result<(), NoMemory>
    ensures ok { OnOk result ((text : List ℕ) × (out.new.items ≡ out.old.items ++ text) × IsEnd book.now.opening book.now.entries text) }
    ensures err { OnErr result (out.new.items ≡ out.old.items) }
    ensures steps { steps.new ≤ steps.old + 1 }
{
    let mut end = Vec::new(alloc);
    append_ending(alloc, book, &mut end, steps)?;
    out.extend_from_slice(&end)?;
    Ok(())
}

/// The version of the document as it is, and its verdict: the end of what `report_end` appends. It costs a step at most.
pub fn final_of<L: Ledger>(
    alloc: Global,
    book: &Book,
    steps: &mut Steps<L>,
) -> Result<Vec<u8>, NoMemory>
    ensures text { IfOk result (λ text. IsFinalReport book.now.opening book.now.entries text.items) }
    ensures steps { steps.new ≤ steps.old + 1 }
{
    let mut text = Vec::new(alloc);
    let ending = ending_of(book, steps)?;
    append_final(alloc, book, &ending, &mut text)?;
    Ok(text)
}

/// What each session was answered, the journal and the verdict, as `report_live` appends them.
pub fn live_of<L: Ledger>(
    alloc: Global,
    book: &Book,
    replies: &Replies,
    steps: &mut Steps<L>,
) -> Result<Vec<u8>, NoMemory>
    ensures text { IfOk result (λ text. IsLiveReport book.now.opening book.now.entries replies.now text.items) }
    ensures steps { steps.new ≤ steps.old + 1 }
{
    let mut text = Vec::new(alloc);
    append_sessions(alloc, replies.as_slice(), book, &mut text)?;
    append_ending(alloc, book, &mut text, steps)?;
    Ok(text)
}
