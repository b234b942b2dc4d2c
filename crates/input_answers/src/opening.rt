//! The document that the sessions of a script begin with: the body of the script's text, in blocks of so many lines as were chosen, the last one shorter. The
//! blocks are prepared by several threads at once, and so are the pieces of a single one.
ghost use Rattle.std.specs.Prelude.{◌≡◌, ◌+◌, ◌<◌, ◌≤◌, ◌^◌, ◌++◌, ◌∷◌, [], All, IfOk, OnOk, length, slice_range};
ghost use Rattle.knit_base.specs.Limits.{IsLawfulProfile};
ghost use Rattle.knitout_reader.specs.Head.{IsHead};
ghost use Rattle.machine_profile.specs.Bounds.{IsBlockSize};
ghost use Rattle.block_summary.specs.Prepared.{IsPreparedFor};
ghost use Rattle.file_run.specs.Bodies.{body_of};
ghost use Rattle.input_answers.specs.Due.{BodyFits};
ghost use Rattle.input_answers.specs.DueLive.{IsScriptOpening};
ghost use Rattle.input_answers.specs.Openings.{IsCut, texts_of};

use crate::plan::Plan;
use block_summary::Prepared;
use check_workers::{prepare_all, prepare_wide};
use edit_book::Book;
use knit_base::{BlockText, Lines, NoMemory, Setting, Steps};
use knitout_reader::Head;
use std::alloc::Global;
use std::sync::ledger::Ledger;
use std::thread::Threads;

/// How many pieces a body that is one block is prepared in.
const PIECES: u32 = 4;

/// A book that nobody has edited yet, and how many blocks it begins with.
#[derive(Drop)]
pub struct OpenedBook {
    pub book: Book,
    pub blocks: u32,
}

/// The book that begins with the body of this text, which has this head.
pub fn open<L: Ledger, R: Threads + Sync>(
    rt: &R,
    alloc: Global,
    plan: &Plan,
    text: &Lines,
    head: &Head,
    steps: &mut Steps<L>,
) -> Result<OpenedBook, NoMemory>
    requires head { IsHead text.now head.now }
    requires fits { BodyFits plan.now.chosen.block (length (body_of text.now)) }
    ensures opening { IfOk result (λ opened. IsScriptOpening plan.now.chosen head.now text.now opened.book.opening) }
    ensures profile { IsLawfulProfile plan.now.chosen.profile }
    ensures entries { IfOk result (λ opened. opened.book.entries ≡ []) }
    ensures blocks { IfOk result (λ opened. length opened.book.opening.texts ≡ opened.blocks) }
{
    let _lines = text.len();
    let setting = Setting {
        profile: plan.chosen.profile,
        declared: head.declared.try_clone()?,
        first: head.lines + 1,
    };
    let texts = cut(alloc, plan.chosen.block, text, head.lines)?;
    let blocks = prepared_blocks(rt, alloc, texts, &setting)?;
    let count = blocks.len() as u32;
    let book = Book::start(alloc, setting, blocks, steps)?;
    Ok(OpenedBook {
        book,
        blocks: count,
    })
}

// The lines from this place on, in texts of this size.
fn cut(alloc: Global, size: u32, text: &Lines, from: u32) -> Result<Vec<BlockText>, NoMemory>
    requires size { IsBlockSize size }
    requires inside { from ≤ length text.now }
    ensures { IfOk result (λ texts. IsCut size text.now from (length text.now) texts.items) }
{
    let count = text.len();
    let mut texts = Vec::new(alloc);
    let mut start = from;
    while start < count {
        let end = start + size.min(count - start);
        add_text(alloc, text, start, end, &mut texts)?;
        start = end;
    }
    Ok(texts)
}

// One text more: the lines from the one place to the other, which isn't counted.
fn add_text(
    alloc: Global,
    text: &Lines,
    start: u32,
    end: u32,
    texts: &mut Vec<BlockText>,
) -> Result<(), NoMemory>
    requires ordered { start ≤ end }
    requires inside { end ≤ length text.now }
    ensures { OnOk result (texts.new.items ≡ texts.old.items ++ slice_range text.now start end ∷ []) }
{
    let copy = BlockText::of(alloc, text, start, end)?;
    texts.push(copy)?;
    Ok(())
}

// The texts, each prepared for the setting: a single one in pieces, several beside each other.
fn prepared_blocks<R: Threads + Sync>(
    rt: &R,
    alloc: Global,
    texts: Vec<BlockText>,
    setting: &Setting,
) -> Result<Vec<Prepared>, NoMemory>
    requires { IsLawfulProfile setting.now.profile }
    ensures texts { IfOk result (λ blocks. texts_of blocks.items ≡ texts.items) }
    ensures prepared { IfOk result (λ blocks. All (IsPreparedFor setting.now.profile setting.now.declared) blocks.items) }
{
    if texts.len() == 1 {
        return prepared_alone(rt, alloc, texts, setting);
    }
    match prepare_all(rt, alloc, texts, setting) {
        Ok(blocks) => Ok(blocks),
        // No text is too long.
        Err(_) => Err(NoMemory),
    }
}

// The last of the texts alone, in pieces.
fn prepared_alone<R: Threads + Sync>(
    rt: &R,
    alloc: Global,
    mut texts: Vec<BlockText>,
    setting: &Setting,
) -> Result<Vec<Prepared>, NoMemory>
    requires profile { IsLawfulProfile setting.now.profile }
    requires one { length texts.items ≡ 1 }
    ensures texts { IfOk result (λ blocks. texts_of blocks.items ≡ texts.items) }
    ensures prepared { IfOk result (λ blocks. All (IsPreparedFor setting.now.profile setting.now.declared) blocks.items) }
{
    match texts.pop() {
        None => Ok(Vec::new(alloc)),
        Some(text) => match prepare_wide(rt, alloc, text, PIECES, setting) {
            Ok(block) => {
                let mut blocks = Vec::new(alloc);
                blocks.push(block)?;
                Ok(blocks)
            }
            // The text isn't too long.
            Err(_) => Err(NoMemory),
        },
    }
}
