//! The tests, the document that they begin with, and what is asked of its ranges.
ghost use Rattle.std.specs.Prelude.{◌≡◌, ℕ, ◌-◌, ◌≤◌, All, List, IfOk, flat_map, length};
ghost use Rattle.knit_base.specs.Limits.{IsLawfulProfile};
ghost use Rattle.edit_book.specs.Outlines.{block_texts_of};
ghost use Rattle.edit_book.specs.Replies.{block_limit, line_limit};

mod edits;
mod ranges;

use edit_journal::{BlockAt, TextList};
use knit_base::{Bed, BlockText, Declared, Lines, Needle, NoMemory, Profile, Setting, Steps};
use std::alloc::Global;
use std::sync::ledger::Ledger;
use tally_tree::{Tally, TallyDoc};

// The lines of which the examples are made: two blocks of three lines, one of two, and two of one.
fn lines(alloc: Global) -> Result<Lines, NoMemory>
    ensures { IfOk result (λ lines. length lines ≡ 10) }
{
    let mut lines = Lines::new(alloc);
    lines.push("knit + f1 1")?;
    lines.push("tuck - b2 2")?;
    lines.push("; a comment")?;
    lines.push("split + f1 b1 2")?;
    lines.push("xfer f2 b2")?;
    lines.push("miss + f3 1")?;
    lines.push("drop b1")?;
    lines.push("knit + f1 2")?;
    lines.push("knit - f4 1 2")?;
    lines.push("knit + f5")?;
    Ok(lines)
}

// Some of these lines.
fn text(alloc: Global, from: u32, to: u32) -> Result<BlockText, NoMemory>
    requires range { (from ≤ to) × (to ≤ 10) }
    ensures { IfOk result (λ text. length text ≡ to - from) }
{
    BlockText::of(alloc, &lines(alloc)?, from, to)
}

// Of a file whose head has two lines and declares two carriers.
fn setting(alloc: Global) -> Setting
    ensures profile { IsLawfulProfile result.profile }
    ensures first { result.first ≡ 3 }
{
    let mut declared = Declared::new(alloc);
    let _ = declared.add("1");
    let _ = declared.add("2");
    Setting {
        profile: Profile::USUAL,
        declared,
        first: 3,
    }
}

// The blocks 0 and 1, of three lines each.
fn two_blocks(alloc: Global) -> Result<TextList, NoMemory>
    ensures few { IfOk result (λ blocks. length blocks ≤ block_limit) }
    ensures lines { IfOk result (λ blocks. length (flat_map (λ (text : List (List ℕ)). text) (block_texts_of blocks)) ≤ line_limit) }
    ensures short { IfOk result (λ blocks. All (λ (text : List (List ℕ)). length text ≤ 4096) (block_texts_of blocks)) }
{
    let mut blocks = TextList::new(alloc);
    blocks.push(BlockAt {
        block: 0,
        stamp: 0,
        text: text(alloc, 0, 3)?,
    })?;
    blocks.push(BlockAt {
        block: 1,
        stamp: 0,
        text: text(alloc, 3, 6)?,
    })?;
    Ok(blocks)
}

// A document of these blocks.
fn started<L: Ledger>(alloc: Global, steps: &mut Steps<L>) -> Result<TallyDoc, NoMemory> {
    TallyDoc::start(alloc, setting(alloc), two_blocks(alloc)?, steps)
}

fn front(at: i16) -> Needle {
    Needle {
        bed: Bed::Front,
        at,
    }
}

fn back(at: i16) -> Needle {
    Needle { bed: Bed::Back, at }
}

// The numbers of a tally for two carriers.
#[derive(Clone, Copy)]
struct Numbers {
    lines: u32,
    with: [u32; 2],
    ops: [u32; 4],
}

fn is_tally(tally: &Tally, numbers: &Numbers, needles: &[Needle]) -> bool {
    tally.lines == numbers.lines
        && tally.with.as_slice() == numbers.with.as_slice()
        && tally.ops == numbers.ops
        && tally.needles.as_slice() == needles
}

// The tally of the blocks from one place to another, unless there are too few.
fn range<L: Ledger>(doc: &TallyDoc, from: u32, to: u32, steps: &mut Steps<L>) -> Option<Tally> {
    if from > to {
        return None;
    }
    if to > doc.blocks() {
        return None;
    }
    doc.range(from, to, steps).ok()
}

// Whether the blocks from one place to another come to these numbers and needles.
fn tells<L: Ledger>(
    doc: &TallyDoc,
    places: (u32, u32),
    numbers: Numbers,
    needles: &[Needle],
    steps: &mut Steps<L>,
) -> bool {
    let (from, to) = places;
    match range(doc, from, to, steps) {
        Some(tally) => is_tally(&tally, &numbers, needles),
        None => false,
    }
}
