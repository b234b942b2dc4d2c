//! A book from its opening on, by worked examples.
ghost use Rattle.std.specs.Prelude.{◌≡◌, ◌+◌, ◌<◌, ◌≤◌, [], IfOk, length};
ghost use Rattle.knit_base.specs.Limits.{IsLawfulProfile};
ghost use Rattle.block_summary.specs.Prepared.{IsPreparedFor};

use block_summary::{PrepareFault, Prepared, prepare};
use carriage_model::{Brief, LoopFact};
use edit_book::{Book, Reply};
use edit_journal::Anchor;
use knit_base::{
    Bed, BlockText, CarrierNo, Declared, Dir, Lines, Needle, NoMemory, Profile, Quarter, Setting,
    Steps,
};
use std::alloc::Global;
use std::marker::Brand;
use std::sync::ledger::{Blank, Ledger};
use std::test::Fail;
use std::thread::Threads;

// The lines of which the examples are made.
fn lines(alloc: Global) -> Result<Lines, NoMemory>
    ensures { IfOk result (λ lines. length lines ≡ 6) }
{
    let mut lines = Lines::new(alloc);
    lines.push("in 1")?;
    lines.push("knit + f1 1")?;
    lines.push("knit + f2 1")?;
    lines.push("in 1")?;
    lines.push("knit + f")?;
    lines.push("tuck + f1 1")?;
    Ok(lines)
}

// Some of these lines, prepared for the setting.
fn prepared<L: Ledger>(
    alloc: Global,
    from: u32,
    to: u32,
    setting: &Setting,
    steps: &mut Steps<L>,
) -> Result<Prepared, NoMemory>
    requires profile { IsLawfulProfile setting.now.profile }
    requires range { (from ≤ to) × (to ≤ 6) }
    ensures prepared { IfOk result (IsPreparedFor setting.now.profile setting.now.declared) }
{
    let text = BlockText::of(alloc, &lines(alloc)?, from, to)?;
    match prepare(alloc, text, setting, steps) {
        Ok(block) => Ok(block),
        Err(PrepareFault::BlockLong { .. } | PrepareFault::NoMemory) => Err(NoMemory),
    }
}

// Some of these lines, prepared for the setting that the book began with.
fn prepared_at_first<L: Ledger>(
    alloc: Global,
    from: u32,
    to: u32,
    book: &Book,
    steps: &mut Steps<L>,
) -> Result<Prepared, NoMemory>
    requires profile { IsLawfulProfile book.now.opening.setting.profile }
    requires range { (from ≤ to) × (to ≤ 6) }
    ensures { IfOk result (IsPreparedFor book.now.opening.setting.profile book.now.opening.setting.declared) }
{
    let setting = Setting {
        profile: book.setting().profile,
        declared: book.names_at(0).try_clone()?,
        first: book.setting().first,
    };
    prepared(alloc, from, to, &setting, steps)
}

// Of a file whose head has two lines.
fn setting(alloc: Global) -> Setting
    ensures profile { IsLawfulProfile result.profile }
    ensures first { result.first ≡ 3 }
{
    let mut declared = Declared::new(alloc);
    let _ = declared.add("1");
    Setting {
        profile: Profile::USUAL,
        declared,
        first: 3,
    }
}

// A book that begins with the first of these lines as its one block.
pub(super) fn opened<L: Ledger>(
    alloc: Global,
    to: u32,
    steps: &mut Steps<L>,
) -> Result<Book, NoMemory>
    requires { to ≤ 6 }
    ensures profile { IfOk result (λ book. IsLawfulProfile book.opening.setting.profile) }
    ensures entries { IfOk result (λ book. book.entries ≡ []) }
{
    let setting = setting(alloc);
    let block = prepared(alloc, 0, to, &setting, steps)?;
    let mut blocks = Vec::new(alloc);
    blocks.push(block)?;
    Book::start(alloc, setting, blocks, steps)
}

pub(super) fn sound(lines: u32, made: u32, held: u32) -> Brief {
    Brief::Sound {
        lines,
        made,
        held,
        rack: Quarter(0),
    }
}

// Each reply is handed over, so that it is dropped where it is looked at.
pub(super) fn is_accepted(reply: Reply, at: u32, id: u32, verdict: Brief) -> bool {
    match reply {
        Reply::Accepted {
            version,
            block,
            brief,
        } => version == at && block == id && brief == verdict,
        _ => false,
    }
}

// Whether some of these lines are accepted as block 0, which makes this version, with this verdict.
pub(super) fn puts<L: Ledger>(
    alloc: Global,
    book: &mut Book,
    from: u32,
    to: u32,
    at: u32,
    verdict: Brief,
    steps: &mut Steps<L>,
) -> bool
    requires profile { IsLawfulProfile book.old.opening.setting.profile }
    requires range { (from ≤ to) × (to ≤ 6) }
    ensures { book.new.opening ≡ book.old.opening }
{
    match prepared_at_first(alloc, from, to, book, steps) {
        Ok(block) => {
            let seen = at.saturating_sub(1);
            is_accepted(book.put(0, 0, seen, 0, block, steps), at, 0, verdict)
        }
        Err(NoMemory) => false,
    }
}

// Whether one of these lines is accepted as a new block, with this version and id.
pub(super) fn adds<L: Ledger>(
    alloc: Global,
    book: &mut Book,
    anchor: Anchor,
    line: u32,
    named: (u32, u32),
    verdict: Brief,
    steps: &mut Steps<L>,
) -> bool
    requires profile { IsLawfulProfile book.old.opening.setting.profile }
    requires line { line < 6 }
    ensures { book.new.opening ≡ book.old.opening }
{
    let (at, id) = named;
    match prepared_at_first(alloc, line, line + 1, book, steps) {
        Ok(block) => is_accepted(book.add(0, anchor, 0, block, steps), at, id, verdict),
        Err(NoMemory) => false,
    }
}

// Whether a text for which room is made is ready.
fn warms<L: Ledger>(alloc: Global, book: &mut Book, steps: &mut Steps<L>) -> bool
    requires { IsLawfulProfile book.old.opening.setting.profile }
{
    match prepared_at_first(alloc, 0, 3, book, steps) {
        Ok(block) => book.warm(0, &block).is_ok() && book.ready(0, &block),
        Err(NoMemory) => false,
    }
}

fn a_warmed_book<L: Ledger, R: Threads>(
    rt: &R,
    blank: Blank,
    alloc: Global,
) -> Result<bool, NoMemory>
    requires name { (blank.name ≡ L.name) × (blank.parts ≡ L.parts) × (0 < L.parts) }
{
    let mut steps = Steps::<L>::start(rt, blank);
    let mut book = opened(alloc, 2, &mut steps)?;
    Ok(warms(alloc, &mut book, &mut steps))
}

// It asks for memory as often as the test below, which puts the text, too: so a put of a ready text asks for none (`tests/refused_memory.py` counts).
#[test]
fn a_block_is_made_ready(rt: HostRuntime) -> Result<(), Fail> {
    let told = a_warmed_book::<Brand, _>(&rt, Blank::new(1), rt.alloc())?;
    assert!(rt; told);
    Ok(())
}

// Whether a text whose room is made before is ready, and then accepted.
fn puts_warm<L: Ledger>(alloc: Global, book: &mut Book, steps: &mut Steps<L>) -> [bool; 2]
    requires { IsLawfulProfile book.old.opening.setting.profile }
{
    match prepared_at_first(alloc, 0, 3, book, steps) {
        Ok(block) => {
            let warm = book.warm(0, &block).is_ok();
            let ready = book.ready(0, &block);
            let put = is_accepted(book.put(0, 0, 0, 0, block, steps), 1, 0, sound(3, 2, 2));
            [warm && ready, put]
        }
        Err(NoMemory) => [false; 2],
    }
}

fn a_warm_put<L: Ledger, R: Threads>(
    rt: &R,
    blank: Blank,
    alloc: Global,
) -> Result<[bool; 2], NoMemory>
    requires name { (blank.name ≡ L.name) × (blank.parts ≡ L.parts) × (0 < L.parts) }
{
    let mut steps = Steps::<L>::start(rt, blank);
    let mut book = opened(alloc, 2, &mut steps)?;
    Ok(puts_warm(alloc, &mut book, &mut steps))
}

#[test]
fn a_warm_block_is_ready(rt: HostRuntime) -> Result<(), Fail> {
    let told = a_warm_put::<Brand, _>(&rt, Blank::new(1), rt.alloc())?;
    assert_eq!(rt; told, [true; 2]);
    Ok(())
}

const FRONT: Needle = Needle {
    bed: Bed::Front,
    at: 1,
};

// The fact is of a loop of the first carrier on the needle.
fn is_loop(fact: &LoopFact, line: u32, through: &[u32]) -> bool {
    fact.line == line
        && fact.needle == FRONT
        && fact.dir == Dir::Right
        && fact.yarns.as_slice() == [CarrierNo(0)].as_slice()
        && fact.through.as_slice() == through
}

fn is_made(reply: Reply, at: u32, line: u32, through: &[u32]) -> bool {
    match reply {
        Reply::Loop {
            version,
            fact: Some(fact),
        } => version == at && is_loop(&fact, line, through),
        _ => false,
    }
}

// Whether the line makes a loop of the first carrier on the needle, at this version, drawn through those of these lines.
pub(super) fn tells_loop<L: Ledger>(
    book: &Book,
    at: u32,
    line: u32,
    through: &[u32],
    steps: &mut Steps<L>,
) -> bool {
    is_made(book.loop_at(line, steps), at, line, through)
}
