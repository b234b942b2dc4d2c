//! The questions of the sessions of a conversation, which change nothing.
ghost use Rattle.std.specs.Prelude.{◌≡◌, ◌↔◌, ◌<◌, ◌+◌, ◌-◌, ◌^◌, ◌++◌, ℕ, List, true, length, IfOk, OnOk, OnErr};
ghost use Rattle.journal_file.specs.Spelling.{saved_spelling};
ghost use Rattle.edit_book.specs.Memory.{Memory};
ghost use Rattle.edit_book.specs.Session.{HasLearned};
ghost use Rattle.edit_groups.specs.Alone.{IsSessionAt};
ghost use Rattle.edit_groups.specs.Chunks.{entries_of_chunks};
ghost use Rattle.reply_report.specs.TalkJson.{blocks_members, saved_members, since_members, text_at_members};
ghost use Rattle.reply_report.specs.TallyJson.{tally_members};
ghost use Rattle.reply_report.specs.TallyText.{tally_text};
ghost use Rattle.reply_report.specs.TalkText.{blocks_text, saved_said, since_text, text_at_text};
ghost use Rattle.talk_desk.specs.Conversation.{IsTallyTold, IsQuestionAnswered, doc_at, saved_at};
ghost use Rattle.talk_desk.specs.Hosts.{IsDocument, IsQuestionSaid, Names, known_in, opening_in};
ghost use Rattle.talk_desk.specs.Styles.{reply_in, step_in};
ghost use Rattle.tally_tree.specs.Docs.{HasBlocks, IsRange, setting_now};
ghost use Rattle.tally_tree.specs.Tallies.{TallyCounts, counts_of_tally};

use crate::document::{Document, Style};
use crate::steps::Talker;
use crate::styles::say_step_in;
use edit_book::{Book, Outline, Reply};
use edit_groups::GroupReply;
use journal_file::{Saved, first_blocks};
use knit_base::{Declared, NoMemory, Steps};
use reply_report::{
    Frame, json_blocks, json_no_range, json_saved, json_since, json_tally, json_text_at,
    say_blocks, say_no_range, say_saved, say_since, say_tally, say_text_at,
};
use script_reader::Question;
use std::alloc::Global;
use std::marker::Brand;
use std::sync::Wait;
use std::sync::ledger::{Blank, Ledger};
use std::thread::Threads;
use tally_tree::{Tally, TallyDoc};

// What a session asks: as which reply, and which block is meant where one is named.
#[derive(Clone, Copy)]
pub(crate) struct Inquiry {
    pub(crate) alloc: Global,
    pub(crate) frame: Frame,
    pub(crate) question: Question,
    pub(crate) block: Option<u32>,
}

/// Says what a question of a session is answered, or that there is no memory for the answer. It changes nothing but how many of the
/// session's orders were answered. The only error is want of memory for either.
pub fn take_question<R: Threads + Wait + Sync>(
    rt: &R,
    document: &mut Document,
    talker: &mut Talker,
    question: Question,
    out: &mut Vec<u8>,
) -> Result<(), NoMemory>
    requires document { IsDocument document.old }
    requires few { talker.old.answered < 2 ^ 64 - 1 }
    ensures document { IsDocument document.new }
    ensures opening { opening_in document.new ≡ opening_in document.old }
    ensures known { known_in document.new ≡ known_in document.old }
    ensures style { document.new.style ≡ document.old.style }
    ensures session { talker.new.session ≡ talker.old.session }
    ensures counted { talker.new.answered ≡ talker.old.answered + 1 }
    ensures said { OnOk result ((m : Memory) → IsSessionAt (opening_in document.old) (known_in document.old) m talker.old.session
        → IsQuestionSaid document.old.style (opening_in document.old) (entries_of_chunks (known_in document.old)) m
        (record { session = talker.old.session.session.number; number = talker.old.answered + 1 }) question out.old.items out.new.items) }
{
    let inquiry = Inquiry {
        alloc: document.alloc,
        frame: talker.next_frame(),
        question,
        block: block_meant(talker, question),
    };
    let held = document.lend(rt);
    let said = tell_or_lack(rt, &document.style, held.book().book(), inquiry, out);
    document.take_back(held);
    said
}

// The block that a question names, if the session knows it.
fn block_meant(talker: &Talker, question: Question) -> Option<u32>
    ensures { (m : Memory) → HasLearned talker.now.session.session.learned m → Names m question result }
{
    match question {
        Question::TextAt(name, _) => talker.session.session.learned.named(&name),
        Question::Blocks | Question::Since(_) | Question::Save | Question::Tally(_, _) => None,
    }
}

// Says what is answered, or that there is no memory for that.
fn tell_or_lack<R: Threads>(
    rt: &R,
    style: &Style,
    book: &Book,
    inquiry: Inquiry,
    out: &mut Vec<u8>,
) -> Result<(), NoMemory>
    ensures { OnOk result ((m : Memory) → Names m inquiry.question inquiry.block
        → IsQuestionSaid style.now book.now.opening book.now.entries m inquiry.frame inquiry.question out.old.items out.new.items) }
{
    match tell::<Brand, R>(rt, Blank::new(1), style, book, inquiry, out) {
        Ok(()) => Ok(()),
        Err(NoMemory) => {
            let Inquiry { alloc, frame, .. } = inquiry;
            say_step_in(alloc, style.json, frame, book, &GroupReply::NoMemory, out)
        }
    }
}

// Says what is answered, with a counter of steps, which no contract here reads. After `NoMemory` the buffer is as before.
fn tell<L: Ledger, R: Threads>(
    rt: &R,
    blank: Blank,
    style: &Style,
    book: &Book,
    inquiry: Inquiry,
    out: &mut Vec<u8>,
) -> Result<(), NoMemory>
    requires name { blank.name ≡ L.name }
    requires parts { blank.parts ≡ L.parts }
    requires some { 0 < L.parts }
    ensures ok { OnOk result ((m : Memory) → Names m inquiry.question inquiry.block → (text : List ℕ) × (out.new.items ≡ out.old.items ++ text)
        × IsQuestionAnswered style.now.json style.now.head book.now.opening book.now.entries m inquiry.frame inquiry.question text) }
    ensures err { OnErr result (out.new.items ≡ out.old.items) }
{
    let mut steps = Steps::<L>::start(rt, blank);
    match inquiry.question {
        Question::Blocks => tell_blocks(style, book, inquiry, out),
        Question::Since(from) => tell_since(style, book, inquiry, from, out),
        Question::TextAt(name, stamp) => match inquiry.block {
            Some(block) => tell_text(style, book, inquiry, At { block, stamp }, out, &mut steps),
            None => {
                let Inquiry { alloc, frame, .. } = inquiry;
                let unseen = GroupReply::One(Reply::Unseen { name });
                say_step_in(alloc, style.json, frame, book, &unseen, out)
            }
        },
        Question::Save => tell_saved(style, book, inquiry, out, &mut steps),
        Question::Tally(from, to) => tell_tally(
            style,
            book,
            inquiry,
            Range { from, to },
            out,
            &mut steps,
        ),
    }
}

// Says which blocks there are. After `NoMemory` the buffer is as before.
fn tell_blocks(
    style: &Style,
    book: &Book,
    inquiry: Inquiry,
    out: &mut Vec<u8>,
) -> Result<(), NoMemory>
    ensures ok { OnOk result (out.new.items ≡ out.old.items ++ reply_in style.now.json inquiry.frame (blocks_text book.now.opening book.now.entries) (blocks_members book.now.opening book.now.entries inquiry.frame)) }
    ensures err { OnErr result (out.new.items ≡ out.old.items) }
{
    let Inquiry { alloc, frame, .. } = inquiry;
    if style.json {
        json_blocks(alloc, frame, book, out)
    } else {
        say_blocks(alloc, frame, book, out)
    }
}

// Says which entries stand behind a version. After `NoMemory` the buffer is as before.
fn tell_since(
    style: &Style,
    book: &Book,
    inquiry: Inquiry,
    from: u32,
    out: &mut Vec<u8>,
) -> Result<(), NoMemory>
    ensures ok { OnOk result (out.new.items ≡ out.old.items ++ reply_in style.now.json inquiry.frame (since_text book.now.entries from) (since_members inquiry.frame book.now.entries from)) }
    ensures err { OnErr result (out.new.items ≡ out.old.items) }
{
    let Inquiry { alloc, frame, .. } = inquiry;
    if style.json {
        json_since(alloc, frame, book, from, out)
    } else {
        say_since(alloc, frame, book, from, out)
    }
}

// A block, and the entry from which it got a text.
#[derive(Clone, Copy)]
struct At {
    block: u32,
    stamp: u32,
}

// Says which text a block got. After `NoMemory` the buffer is as before.
fn tell_text<L: Ledger>(
    style: &Style,
    book: &Book,
    inquiry: Inquiry,
    at: At,
    out: &mut Vec<u8>,
    steps: &mut Steps<L>,
) -> Result<(), NoMemory>
    ensures ok { OnOk result (out.new.items ≡ out.old.items ++ reply_in style.now.json inquiry.frame (text_at_text book.now.opening book.now.entries at.block at.stamp)
        (text_at_members book.now.opening book.now.entries inquiry.frame at.block at.stamp)) }
    ensures err { OnErr result (out.new.items ≡ out.old.items) }
{
    let Inquiry { alloc, frame, .. } = inquiry;
    let At { block, stamp } = at;
    if style.json {
        json_text_at(alloc, frame, book, block, stamp, out, steps)
    } else {
        say_text_at(alloc, frame, book, block, stamp, out, steps)
    }
}

// Says the saved text of the document. After `NoMemory` the buffer is as before.
fn tell_saved<L: Ledger>(
    style: &Style,
    book: &Book,
    inquiry: Inquiry,
    out: &mut Vec<u8>,
    steps: &mut Steps<L>,
) -> Result<(), NoMemory>
    ensures ok { OnOk result (out.new.items ≡ out.old.items ++ reply_in style.now.json inquiry.frame
        (saved_said (length book.now.entries) (saved_at style.now.head book.now.opening book.now.entries))
        (saved_members inquiry.frame (length book.now.entries) (saved_at style.now.head book.now.opening book.now.entries))) }
    ensures err { OnErr result (out.new.items ≡ out.old.items) }
{
    let saved = saved_of(inquiry.alloc, style, book)?;
    say_saved_in(style.json, inquiry, book.version(), &saved, out, steps)
}

// Says a saved text. After `NoMemory` the buffer is as before.
fn say_saved_in<L: Ledger>(
    json: bool,
    inquiry: Inquiry,
    version: u32,
    saved: &Saved,
    out: &mut Vec<u8>,
    steps: &mut Steps<L>,
) -> Result<(), NoMemory>
    ensures ok { OnOk result (out.new.items ≡ out.old.items ++ reply_in json inquiry.frame
        (saved_said version (saved_spelling saved.now.head saved.now.profile saved.now.blocks saved.now.journal.entries))
        (saved_members inquiry.frame version (saved_spelling saved.now.head saved.now.profile saved.now.blocks saved.now.journal.entries))) }
    ensures err { OnErr result (out.new.items ≡ out.old.items) }
{
    let Inquiry { alloc, frame, .. } = inquiry;
    if json {
        json_saved(alloc, frame, version, saved, out, steps)
    } else {
        say_saved(alloc, frame, version, saved, out, steps)
    }
}

// What is saved of the document: the lines of its head, the machine's limits, its first blocks and its journal.
fn saved_of(alloc: Global, style: &Style, book: &Book) -> Result<Saved, NoMemory>
    ensures { IfOk result (λ saved. saved_spelling saved.head saved.profile saved.blocks saved.journal.entries ≡ saved_at style.now.head book.now.opening book.now.entries) }
{
    Ok(Saved {
        head: style.head.try_clone()?,
        profile: book.setting().profile,
        blocks: first_blocks(alloc, book)?,
        journal: book.journal().try_clone()?,
    })
}

// Blocks from one place to another, which isn't counted, the places from 0.
#[derive(Clone, Copy)]
struct Range {
    from: u32,
    to: u32,
}

// Says what blocks come to, if they are there. After `NoMemory` the buffer is as before.
fn tell_tally<L: Ledger>(
    style: &Style,
    book: &Book,
    inquiry: Inquiry,
    range: Range,
    out: &mut Vec<u8>,
    steps: &mut Steps<L>,
) -> Result<(), NoMemory>
    ensures ok { OnOk result ((text : List ℕ) × (out.new.items ≡ out.old.items ++ text)
        × IsTallyTold style.now.json inquiry.frame book.now.opening book.now.entries range.from range.to text) }
    ensures err { OnErr result (out.new.items ≡ out.old.items) }
{
    let outline = book.clone_outline()?;
    if has_blocks(&outline, range) {
        let doc = TallyDoc::of_outline(outline, steps)?;
        return tell_range(style.json, &doc, inquiry, range, out, steps);
    }
    let Inquiry { alloc, frame, .. } = inquiry;
    if style.json {
        json_no_range(alloc, frame, book, out)
    } else {
        say_no_range(alloc, frame, book, out)
    }
}

// Whether there are blocks at these places.
fn has_blocks(outline: &Outline, range: Range) -> bool
    ensures { (result ≡ true) ↔ HasBlocks (doc_at outline.now.opening outline.now.entries) range.from range.to }
{
    range.from <= range.to && range.to <= outline.len()
}

// Says what blocks come to that are there. After `NoMemory` the buffer is as before.
fn tell_range<L: Ledger>(
    json: bool,
    doc: &TallyDoc,
    inquiry: Inquiry,
    range: Range,
    out: &mut Vec<u8>,
    steps: &mut Steps<L>,
) -> Result<(), NoMemory>
    requires { HasBlocks doc.now range.from range.to }
    ensures ok { OnOk result ((v : TallyCounts) × IsRange doc.now range.from range.to v × (out.new.items ≡ out.old.items ++ reply_in json inquiry.frame
        (tally_text range.from range.to (setting_now doc.now).declared v) (tally_members inquiry.frame range.from range.to (setting_now doc.now).declared v))) }
    ensures err { OnErr result (out.new.items ≡ out.old.items) }
{
    let tally = doc.range(range.from, range.to, steps)?;
    let declared = &doc.setting().declared;
    say_tally_in(json, inquiry, range, &tally, declared, out)
}

// Says a tally. After `NoMemory` the buffer is as before.
fn say_tally_in(
    json: bool,
    inquiry: Inquiry,
    range: Range,
    tally: &Tally,
    declared: &Declared,
    out: &mut Vec<u8>,
) -> Result<(), NoMemory>
    requires { length tally.now.with.items ≡ length declared.now }
    ensures ok { OnOk result (out.new.items ≡ out.old.items ++ reply_in json inquiry.frame
        (tally_text range.from range.to declared.now (counts_of_tally tally.now)) (tally_members inquiry.frame range.from range.to declared.now (counts_of_tally tally.now))) }
    ensures err { OnErr result (out.new.items ≡ out.old.items) }
{
    let Inquiry { alloc, frame, .. } = inquiry;
    let Range { from, to } = range;
    if json {
        json_tally(alloc, frame, from, to, tally, declared, out)
    } else {
        say_tally(alloc, frame, from, to, tally, declared, out)
    }
}
