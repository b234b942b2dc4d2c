//! Texts that are too long, of which the first is told.
ghost use Rattle.knit_base.specs.Limits.{IsLawfulProfile};

use block_summary::{PrepareFault, Prepared};
use check_workers::prepare_all;
use knit_base::{BlockText, Declared, Lines, NoMemory, Profile, Setting};
use std::alloc::Global;
use std::thread::Threads;

// The setting of a file whose head declares the carrier 1.
fn setting(alloc: Global) -> Setting
    ensures { IsLawfulProfile result.profile }
{
    let mut declared = Declared::new(alloc);
    let _ = declared.add("1");
    Setting {
        first: 2,
        profile: Profile::USUAL,
        declared,
    }
}

// A line that says nothing, and so many knits after it.
fn text(alloc: Global, knits: u16) -> Result<BlockText, NoMemory> {
    let mut lines = Lines::new(alloc);
    lines.push(";")?;
    for _ in 0..knits {
        if lines.len() > 5000 {
            break;
        }
        lines.push("knit + f1 1")?;
    }
    BlockText::of(alloc, &lines, 0, lines.len())
}

fn texts(alloc: Global, knits: &[u16]) -> Result<Vec<BlockText>, NoMemory> {
    let mut texts = Vec::new(alloc);
    for knits in knits {
        texts.push(text(alloc, *knits)?)?;
    }
    Ok(texts)
}

fn prepared<R: Threads + Sync>(
    rt: &R,
    alloc: Global,
    knits: &[u16],
) -> Result<Vec<Prepared>, PrepareFault> {
    let Ok(texts) = texts(alloc, knits) else {
        return Err(PrepareFault::NoMemory);
    };
    prepare_all(rt, alloc, texts, &setting(alloc))
}

fn is_long<R: Threads + Sync>(rt: &R, alloc: Global, knits: &[u16], wanted: u32) -> bool {
    match prepared(rt, alloc, knits) {
        Ok(_) => false,
        Err(PrepareFault::BlockLong { lines }) => lines == wanted,
        Err(PrepareFault::NoMemory) => false,
    }
}

#[test]
fn the_first_long_text_is_told(rt: HostRuntime) {
    let are = [
        is_long(&rt, rt.alloc(), &[4096], 4097),
        is_long(&rt, rt.alloc(), &[1, 4096, 4097], 4097),
        is_long(&rt, rt.alloc(), &[4095, 2, 4097, 4096], 4098),
    ];
    assert_eq!(rt; are, [true; 3]);
}
