//! What ranges come to after an edit of each kind.
ghost use Rattle.std.specs.Prelude.{◌≡◌, ◌<◌, ◌≤◌};
ghost use Rattle.edit_book.specs.Outlines.{HasShortText, MayCome};

use super::{Numbers, back, front, started, tells, text};
use edit_journal::{Anchor, Edit, Entry};
use knit_base::{Declared, NoMemory, Steps};
use std::alloc::Global;
use std::marker::Brand;
use std::sync::ledger::{Blank, Ledger};
use std::test::Fail;
use std::thread::Threads;
use tally_tree::TallyDoc;

// Whether the document follows the edit.
fn follows<L: Ledger>(doc: &mut TallyDoc, edit: Edit, steps: &mut Steps<L>) -> bool
    requires comes { MayCome doc.old.opening doc.old.entries edit }
    requires short { HasShortText edit }
{
    let number = doc.outline().version() + 1;
    doc.follow(number, &Entry { session: 0, edit }, steps)
        .is_ok()
}

// Whether some of the lines become the text of a block, which was that of the opening.
fn puts<L: Ledger>(
    alloc: Global,
    doc: &mut TallyDoc,
    block: u32,
    range: (u32, u32),
    steps: &mut Steps<L>,
) -> bool
    requires { (range.0 ≤ range.1) × (range.1 ≤ 10) }
{
    let (from, to) = range;
    let Ok(text) = text(alloc, from, to) else {
        return false;
    };
    if !doc.outline().may_put(block, 0, text.len()) {
        return false;
    }
    let seen = 0;
    follows(doc, Edit::Put { block, seen, text }, steps)
}

// Whether one of the lines becomes a new block with this id.
fn adds<L: Ledger>(
    alloc: Global,
    doc: &mut TallyDoc,
    anchor: Anchor,
    block: u32,
    line: u32,
    steps: &mut Steps<L>,
) -> bool
    requires { line < 10 }
{
    let Ok(text) = text(alloc, line, line + 1) else {
        return false;
    };
    if !doc.outline().may_add(anchor, block, text.len()) {
        return false;
    }
    let edit = Edit::Add {
        anchor,
        block,
        text,
    };
    follows(doc, edit, steps)
}

// Whether the block is cut, whose text is that of the opening.
fn cuts<L: Ledger>(doc: &mut TallyDoc, block: u32, steps: &mut Steps<L>) -> bool {
    if !doc.outline().may_cut(block, 0) {
        return false;
    }
    follows(doc, Edit::Cut { block, seen: 0 }, steps)
}

// Two carriers, of which the second is new and the first was the second before.
fn names(alloc: Global) -> Declared {
    let mut declared = Declared::new(alloc);
    let _ = declared.add("2");
    let _ = declared.add("3");
    declared
}

// Whether the header gets these names.
fn renames<L: Ledger>(alloc: Global, doc: &mut TallyDoc, steps: &mut Steps<L>) -> bool {
    if !doc.outline().may_change_head(0) {
        return false;
    }
    let edit = Edit::Head {
        seen: 0,
        declared: names(alloc),
    };
    follows(doc, edit, steps)
}

// Blocks 0 and 1. A miss forms no loop, and both needles of a split and of a transfer count.
fn at_first<L: Ledger>(doc: &TallyDoc, steps: &mut Steps<L>) -> [bool; 4] {
    let first = Numbers {
        lines: 3,
        with: [1, 1],
        ops: [2, 0, 0, 0],
    };
    let second = Numbers {
        lines: 3,
        with: [0, 1],
        ops: [1, 1, 1, 0],
    };
    let both = Numbers {
        lines: 6,
        with: [1, 2],
        ops: [3, 1, 1, 0],
    };
    let all = [front(1), front(2), front(3), back(1), back(2)];
    [
        doc.blocks() == 2,
        tells(doc, (0, 1), first, &[front(1), back(2)], steps),
        tells(doc, (1, 2), second, &all, steps),
        tells(doc, (0, 2), both, &all, steps),
    ]
}

// Block 1 gets two other lines.
fn after_put<L: Ledger>(alloc: Global, doc: &mut TallyDoc, steps: &mut Steps<L>) -> [bool; 4] {
    let second = Numbers {
        lines: 2,
        with: [0, 1],
        ops: [1, 0, 0, 1],
    };
    let both = Numbers {
        lines: 5,
        with: [1, 2],
        ops: [3, 0, 0, 1],
    };
    [
        puts(alloc, doc, 1, (6, 8), steps),
        doc.blocks() == 2,
        tells(doc, (1, 2), second, &[front(1), back(1)], steps),
        tells(doc, (0, 2), both, &[front(1), back(1), back(2)], steps),
    ]
}

// Block 2 comes behind block 0: a line with two carriers.
fn after_add<L: Ledger>(alloc: Global, doc: &mut TallyDoc, steps: &mut Steps<L>) -> [bool; 4] {
    let new = Numbers {
        lines: 1,
        with: [1, 1],
        ops: [1, 0, 0, 0],
    };
    let all = Numbers {
        lines: 6,
        with: [2, 3],
        ops: [4, 0, 0, 1],
    };
    let needles = [front(1), front(4), back(1), back(2)];
    [
        adds(alloc, doc, Anchor::After(0), 2, 8, steps),
        doc.blocks() == 3,
        tells(doc, (1, 2), new, &[front(4)], steps),
        tells(doc, (0, 3), all, &needles, steps),
    ]
}

// Block 3 comes first: a knit without carriers, which drops a loop.
fn after_add_first<L: Ledger>(
    alloc: Global,
    doc: &mut TallyDoc,
    steps: &mut Steps<L>,
) -> [bool; 4] {
    let new = Numbers {
        lines: 1,
        with: [0, 0],
        ops: [0, 0, 0, 1],
    };
    let two = Numbers {
        lines: 4,
        with: [1, 1],
        ops: [2, 0, 0, 1],
    };
    [
        adds(alloc, doc, Anchor::Start, 3, 9, steps),
        doc.blocks() == 4,
        tells(doc, (0, 1), new, &[front(5)], steps),
        tells(doc, (0, 2), two, &[front(1), front(5), back(2)], steps),
    ]
}

// The carrier 1 is gone: the lines that name it are broken, and count as lines alone.
fn after_rename<L: Ledger>(alloc: Global, doc: &mut TallyDoc, steps: &mut Steps<L>) -> [bool; 4] {
    let middle = Numbers {
        lines: 4,
        with: [1, 0],
        ops: [1, 0, 0, 0],
    };
    let all = Numbers {
        lines: 7,
        with: [2, 0],
        ops: [2, 0, 0, 2],
    };
    let needles = [front(1), front(5), back(1), back(2)];
    [
        renames(alloc, doc, steps),
        doc.blocks() == 4 && doc.setting().declared.find("1").is_none(),
        tells(doc, (1, 3), middle, &[back(2)], steps),
        tells(doc, (0, 4), all, &needles, steps),
    ]
}

// Block 0 is cut, so that a broken line stands alone between the others.
fn after_cut<L: Ledger>(doc: &mut TallyDoc, steps: &mut Steps<L>) -> [bool; 4] {
    let broken = Numbers {
        lines: 1,
        with: [0, 0],
        ops: [0, 0, 0, 0],
    };
    let all = Numbers {
        lines: 4,
        with: [1, 0],
        ops: [1, 0, 0, 2],
    };
    [
        cuts(doc, 0, steps),
        doc.blocks() == 3,
        tells(doc, (1, 2), broken, &[], steps),
        tells(doc, (0, 3), all, &[front(1), front(5), back(1)], steps),
    ]
}

// What is told of the document at first, and after each edit.
fn told<L: Ledger>(alloc: Global, mut doc: TallyDoc, steps: &mut Steps<L>) -> [[bool; 4]; 6] {
    [
        at_first(&doc, steps),
        after_put(alloc, &mut doc, steps),
        after_add(alloc, &mut doc, steps),
        after_add_first(alloc, &mut doc, steps),
        after_rename(alloc, &mut doc, steps),
        after_cut(&mut doc, steps),
    ]
}

fn edited<L: Ledger, R: Threads>(
    rt: &R,
    blank: Blank,
    alloc: Global,
) -> Result<[[bool; 4]; 6], NoMemory>
    requires name { (blank.name ≡ L.name) × (blank.parts ≡ L.parts) × (0 < L.parts) }
{
    let mut steps = Steps::<L>::start(rt, blank);
    let doc = started(alloc, &mut steps)?;
    Ok(told(alloc, doc, &mut steps))
}

#[test]
fn each_edit_is_followed(rt: HostRuntime) -> Result<(), Fail> {
    let told = edited::<Brand, _>(&rt, Blank::new(1), rt.alloc())?;
    assert_eq!(rt; told, [[true; 4]; 6]);
    Ok(())
}
