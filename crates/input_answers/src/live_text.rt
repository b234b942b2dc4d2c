//! What is written when the sessions of a script have ended: the report, or the document's beginning and its journal, to be kept.
ghost use Rattle.std.specs.Prelude.{◌≡◌, ◌+◌, ◌≤◌, ◌-◌, length, take, IfOk};
ghost use Rattle.journal_file.specs.Spelling.{saved_spelling};
ghost use Rattle.journal_file.specs.SavedParts.{first_blocks};
ghost use Rattle.input_answers.specs.LiveText.{IsLiveText, output_of};

use command_words::Command;
use edit_book::{Book, Replies};
use edit_journal::Journal;
use journal_file::{Saved, first_blocks, saved_text};
use knit_base::{Lines, NoMemory, Steps};
use std::alloc::Global;
use std::sync::ledger::Ledger;
use verdict_report::live_of;

/// What is written when the sessions of a script have ended.
#[derive(Clone, Copy, Debug, PartialEq, Eq)]
pub enum LiveOutput {
    /// The replies, the journal, and the verdict on the document at its end.
    Report,
    /// The document's beginning and the journal, as a text that can be read again.
    SavedText,
}

/// What is written for the command.
pub(crate) fn output_of(command: Command) -> LiveOutput
    ensures { result ≡ output_of command }
{
    match command {
        Command::Save => LiveOutput::SavedText,
        _ => LiveOutput::Report,
    }
}

/// The text that is written, where the document began with this text, and the journal.
pub(crate) fn told_of<L: Ledger>(
    alloc: Global,
    output: LiveOutput,
    text: &Lines,
    book: Book,
    replies: &Replies,
    steps: &mut Steps<L>,
) -> Result<(Vec<u8>, Journal), NoMemory>
    requires first { 1 ≤ book.opening.setting.first }
    requires head { book.opening.setting.first ≤ length text.now + 1 }
    ensures text { IfOk result (λ told. IsLiveText output (take (book.opening.setting.first - 1) text.now) book.opening book.entries replies.now told.0.items) }
    ensures entries { IfOk result (λ told. told.1.entries ≡ book.entries) }
{
    match output {
        LiveOutput::Report => {
            let told = live_of(alloc, &book, replies, steps)?;
            Ok((told, book.leave_journal()))
        }
        LiveOutput::SavedText => saved_of(alloc, text, book, steps),
    }
}

// The saved text of the book, which began with the body of this text, and the journal.
fn saved_of<L: Ledger>(
    alloc: Global,
    text: &Lines,
    book: Book,
    steps: &mut Steps<L>,
) -> Result<(Vec<u8>, Journal), NoMemory>
    requires first { 1 ≤ book.opening.setting.first }
    requires head { book.opening.setting.first ≤ length text.now + 1 }
    ensures text { IfOk result (λ told. told.0.items ≡ saved_spelling (take (book.opening.setting.first - 1) text.now) book.opening.setting.profile (first_blocks book.opening) book.entries) }
    ensures entries { IfOk result (λ told. told.1.entries ≡ book.entries) }
{
    let setting = book.setting();
    let saved = Saved {
        head: Lines::range(alloc, text, 0, setting.first - 1)?,
        profile: setting.profile,
        blocks: first_blocks(alloc, &book)?,
        journal: book.leave_journal(),
    };
    let told = saved_text(alloc, &saved, steps)?;
    let Saved { journal, .. } = saved;
    Ok((told, journal))
}
