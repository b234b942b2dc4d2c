//! The document that a conversation begins with.
ghost use Rattle.std.specs.Prelude.{◌≡◌, ◌<◌, ◌≤◌, ℕ, List, [], All, flat_map, length, IfErr, IfOk};
ghost use Rattle.knit_base.specs.Limits.{IsLawfulProfile};
ghost use Rattle.knit_ports.specs.WholeLines.{with_feed};
ghost use Rattle.edit_journal.specs.declared.opening.Opening.{Opening};
ghost use Rattle.input_answers.specs.Asked.{as_json};
ghost use Rattle.file_run.specs.Bodies.{body_of};
ghost use Rattle.input_answers.specs.Due.{BodyFits};
ghost use Rattle.input_answers.specs.DueLive.{IsScriptOpening};
ghost use Rattle.journal_file.specs.SavedParts.{IsLawfulSaved, opening_of_saved};
ghost use Rattle.knitout_reader.specs.Head.{IsHead, head_of};
ghost use Rattle.opening_reader.specs.Openings as openings;
ghost use Rattle.opening_reader.specs.declared.opening.OpeningKind.TheVariants as kind;
ghost use Rattle.opening_reader.specs.declared.opening.OpeningText as declared;
ghost use Rattle.live_talk.specs.Begins.{HasBegun, IsBeginning};

use command_words::Command;
use edit_book::Book;
use input_answers::{
    OpenedBook, Plan, Status, open, refusal_of_head, refusal_of_journal, refusal_of_size, saved_in,
};
use journal_file::{JournalFault, Saved, reopen};
use knit_base::{Lines, NoMemory, Steps};
use knitout_reader::{Head, read_head};
use opening_reader::{OpeningKind, OpeningText, bytes_of};
use std::alloc::Global;
use std::marker::Brand;
use std::sync::Wait;
use std::sync::ledger::{Blank, Ledger};
use std::thread::Threads;
use talk_desk::{Document, Host, Style, say_opened_in};
use verdict_report::Refusal;

// The buffer of replies has room for so many bytes from the start. What is told of an edit as text is shorter, so that memory which runs out
// behind an edit that was accepted doesn't cost its reply.
const REPLY_ROOM: usize = 4_096;

/// The sessions of a conversation, and what is said when their document stands.
#[derive(Drop)]
pub(crate) struct Begun {
    pub(crate) host: Host,
    pub(crate) text: Vec<u8>,
}

/// What an opening comes to.
#[derive(Drop)]
pub(crate) enum Beginning {
    /// A conversation begins.
    Begun(Begun),
    /// The opening is refused, and the program is to end with this status.
    Refused(Refusal, Status),
}

/// Begins a conversation with this opening, unless that is refused. The only error is want of memory.
pub(crate) fn begin<R: Threads + Wait + Sync>(
    rt: &R,
    alloc: Global,
    plan: &Plan,
    opening: OpeningText,
) -> Result<Beginning, NoMemory>
    requires opened { (lines : List (List ℕ)) × openings.AreOpeningLines lines opening.kind opening.text }
    requires short { All (λ line. length line < 65535) opening.text }
    ensures { IfOk result (IsBeginning plan.now opening) }
{
    let OpeningText { kind, text, .. } = opening;
    match kind {
        OpeningKind::Text => begin_anew(rt, alloc, plan, text),
        OpeningKind::Saved => begin_again(rt, alloc, plan, text),
    }
}

// Begins with a document that begins with this text, unless that is refused.
fn begin_anew<R: Threads + Wait + Sync>(
    rt: &R,
    alloc: Global,
    plan: &Plan,
    text: Lines,
) -> Result<Beginning, NoMemory>
    requires { All (λ line. length line < 65535) text }
    ensures { IfOk result (λ begins. (told : declared.OpeningText) → told.kind ≡ kind.Text → told.text ≡ text → IsBeginning plan.now told begins) }
{
    let text = text.into_shared()?;
    let head = match read_head(alloc, &text) {
        Ok(head) => head,
        Err(fault) => {
            let refusal = refusal_of_head(fault)?;
            return Ok(Beginning::Refused(refusal, Status::BadInput));
        }
    };
    match refusal_of_size(body_len(&text, &head), plan.chosen.block) {
        Some(refusal) => Ok(Beginning::Refused(refusal, Status::TooLarge)),
        None => {
            let begun = begin_with(rt, alloc, plan, &text, &head)?;
            Ok(Beginning::Begun(begun))
        }
    }
}

// How many lines stand behind the head.
fn body_len(text: &Lines, head: &Head) -> u32
    requires { IsHead text.now head.now }
    ensures { result ≡ length (body_of text.now) }
{
    text.len() - head.lines
}

// Begins with a document that begins with this text, which has this head.
fn begin_with<R: Threads + Wait + Sync>(
    rt: &R,
    alloc: Global,
    plan: &Plan,
    text: &Lines,
    head: &Head,
) -> Result<Begun, NoMemory>
    requires head { IsHead text.now head.now }
    requires fits { BodyFits plan.now.chosen.block (length (body_of text.now)) }
    ensures { IfOk result (λ begun. (opening : Opening) × IsScriptOpening plan.now.chosen head.now text.now opening × HasBegun (as_json plan.now.command) (head_of text.now) opening [] begun) }
{
    let book = book_of::<Brand, R>(rt, Blank::new(1), alloc, plan, text, head)?;
    let style = Style {
        json: as_json(plan.command),
        head: Lines::range(alloc, text, 0, head.lines)?,
    };
    begin_at(rt, alloc, style, book)
}

// Goes on with the document of the saved text that these lines are, unless they are none.
fn begin_again<R: Threads + Wait + Sync>(
    rt: &R,
    alloc: Global,
    plan: &Plan,
    lines: Lines,
) -> Result<Beginning, NoMemory>
    requires few { length (flat_map with_feed lines) ≤ 16777216 }
    ensures { IfOk result (λ begins. (told : declared.OpeningText) → told.kind ≡ kind.Saved → told.text ≡ lines → IsBeginning plan.now told begins) }
{
    let bytes = bytes_of(alloc, &lines)?;
    match saved_in(alloc, bytes) {
        Ok(saved) => {
            let begun = begin_saved(rt, alloc, plan, saved)?;
            Ok(Beginning::Begun(begun))
        }
        Err(JournalFault::At { line, cause }) => Ok(Beginning::Refused(
            refusal_of_journal(line, cause),
            Status::BadInput,
        )),
        Err(JournalFault::NoMemory) => Err(NoMemory),
    }
}

// Goes on with the document of a saved text.
fn begin_saved<R: Threads + Wait + Sync>(
    rt: &R,
    alloc: Global,
    plan: &Plan,
    saved: Saved,
) -> Result<Begun, NoMemory>
    requires { IsLawfulSaved saved.head saved.profile saved.blocks saved.journal.entries }
    ensures { IfOk result (HasBegun (as_json plan.now.command) saved.head (opening_of_saved saved.head saved.profile saved.blocks) saved.journal.entries) }
{
    let style = Style {
        json: as_json(plan.command),
        head: saved.head.try_clone()?,
    };
    let book = reopen(rt, alloc, saved)?;
    begin_at(rt, alloc, style, book)
}

// The sessions of a document, which are answered in this style.
fn begin_at<R: Threads + Wait + Sync>(
    rt: &R,
    alloc: Global,
    style: Style,
    book: Book,
) -> Result<Begun, NoMemory>
    requires profile { IsLawfulProfile book.opening.setting.profile }
    requires sessions { All (λ e. e.session < 64) book.entries }
    ensures { IfOk result (HasBegun style.json style.head book.opening book.entries) }
{
    let mut said = Vec::with_capacity(alloc, REPLY_ROOM)?;
    say_opened_in(alloc, style.json, &book, &mut said)?;
    let document = Document::start(rt, alloc, style, book)?;
    let host = Host::start(rt, document)?;
    Ok(Begun { host, text: said })
}

// Whether a conversation is answered as JSON.
fn as_json(command: Command) -> bool
    ensures { result ≡ as_json command }
{
    match command {
        Command::Serve { json } => json,
        _ => false,
    }
}

// The book that begins with the body of the text, with a counter of steps, which no contract here reads.
fn book_of<L: Ledger, R: Threads + Sync>(
    rt: &R,
    blank: Blank,
    alloc: Global,
    plan: &Plan,
    text: &Lines,
    head: &Head,
) -> Result<Book, NoMemory>
    requires name { blank.name ≡ L.name }
    requires parts { blank.parts ≡ L.parts }
    requires some { 0 < L.parts }
    requires head { IsHead text.now head.now }
    requires fits { BodyFits plan.now.chosen.block (length (body_of text.now)) }
    ensures opening { IfOk result (λ book. IsScriptOpening plan.now.chosen head.now text.now book.opening) }
    ensures profile { IfOk result (λ book. IsLawfulProfile book.opening.setting.profile) }
    ensures entries { IfOk result (λ book. book.entries ≡ []) }
{
    let mut steps = Steps::<L>::start(rt, blank);
    let OpenedBook { book, .. } = open(rt, alloc, plan, text, head, &mut steps)?;
    Ok(book)
}
