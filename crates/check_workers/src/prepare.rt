//! Texts that are prepared beside each other.
ghost use Rattle.std.specs.Prelude.{◌≡◌, ◌<◌, IfErr, IfNone, IfOk, IfSome, All, length, map};
ghost use Rattle.std.specs.List.{find};
ghost use Rattle.std.specs.Option.{option_map};
ghost use Rattle.std.specs.Thread.{IsSync};
ghost use Rattle.knit_base.specs.Limits.{IsLawfulProfile};
ghost use Rattle.block_summary.specs.Prepared.{IsPreparedFor};
ghost use Rattle.block_summary.specs.declared.prepared.PrepareFault.{PrepareFault};
ghost use Rattle.check_workers.specs.Texts.{ArePrepared, is_too_long};

use crate::workers::lot_count;
use block_summary::{Draft, MOST_LINES, PrepareFault, Prepared, prepare_with};
use knit_base::{BlockText, NoMemory, Setting, Steps};
use std::alloc::Global;
use std::marker::Brand;
use std::sync::ledger::{Blank, Ledger};
use std::thread::{Threads, join};

// How many lines make a lot worth a thread. Memory that a thread asked for is likely to be kept for it by the C library, so that what an edit lets go of serves no later edit of
// another thread: an opening that one thread prepares soon enough leaves less memory behind.
const LOT_LINES: u32 = 131_072;

/// Prepares the texts in lots of nearly equal numbers, each lot in a thread of its own where one can be made, in no more lots than there are processors, and in one where the
/// texts have fewer than 131,072 lines. A text that is too long is told before any is prepared.
pub fn prepare_all<R: Threads + Sync>(
    rt: &R,
    alloc: Global,
    texts: Vec<BlockText>,
    setting: &Setting,
) -> Result<Vec<Prepared>, PrepareFault>
    requires { IsLawfulProfile setting.now.profile }
    ensures texts { IfOk result (λ blocks. map (λ block. block.text) blocks.items ≡ texts.items) }
    ensures prepared { IfOk result (λ blocks. All (IsPreparedFor setting.now.profile setting.now.declared) blocks.items) }
    ensures long { IfSome (find is_too_long texts.items) (λ text. result ≡ Err (PrepareFault.BlockLong (length text))) }
    ensures fault { IfNone (find is_too_long texts.items) (IfErr result (λ fault. fault ≡ PrepareFault.NoMemory)) }
{
    if let Some(lines) = first_too_long(texts.as_slice()) {
        return Err(PrepareFault::BlockLong { lines });
    }
    let lots = lot_count(rt, line_count(texts.as_slice()), LOT_LINES);
    match prepare_lots(rt, alloc, lots, texts, setting) {
        Ok(blocks) => Ok(blocks),
        Err(NoMemory) => Err(PrepareFault::NoMemory),
    }
}

// The number of lines of the first text that has too many.
fn first_too_long(texts: &[BlockText]) -> Option<u32>
    ensures { result ≡ option_map length (find is_too_long texts.now) }
{
    texts
        .iter()
        .find(|text| text.len() > MOST_LINES)
        .map(|text| text.len())
}

// How many lines the texts have together.
fn line_count(texts: &[BlockText]) -> usize {
    let mut count: usize = 0;
    for text in texts {
        count = count.saturating_add(text.len() as usize);
    }
    count
}

// So many lots at most, a half of them beside the other.
fn prepare_lots<R: Threads + Sync>(
    rt: &R,
    alloc: Global,
    lots: usize,
    mut texts: Vec<BlockText>,
    setting: &Setting,
) -> Result<Vec<Prepared>, NoMemory>
    requires { IsLawfulProfile setting.now.profile }
    ensures { IfOk result (λ blocks. ArePrepared setting.now texts.items blocks.items) }
{
    if lots.min(texts.len()) < 2 {
        return prepare_lot(rt, alloc, texts, setting);
    }
    let half = lots / 2;
    let rest = texts.split_off(texts.len() / 2)?;
    let (front, back) = join(
        rt,
        move || -> Result<Vec<Prepared>, NoMemory>
            requires { IsSync R.row × IsLawfulProfile setting.now.profile }
            ensures { IfOk result (λ blocks. ArePrepared setting.entry.now texts.items blocks.items) }
        { prepare_lots(rt, alloc, half, texts, setting) },
        move || -> Result<Vec<Prepared>, NoMemory>
            requires { IsSync R.row × IsLawfulProfile setting.now.profile }
            ensures { IfOk result (λ blocks. ArePrepared setting.entry.now rest.items blocks.items) }
        { prepare_lots(rt, alloc, half, rest, setting) },
    );
    let mut all = front?;
    all.append(&mut back?)?;
    Ok(all)
}

// One lot. The steps are counted by nobody.
fn prepare_lot<R: Threads>(
    rt: &R,
    alloc: Global,
    texts: Vec<BlockText>,
    setting: &Setting,
) -> Result<Vec<Prepared>, NoMemory>
    requires { IsLawfulProfile setting.now.profile }
    ensures { IfOk result (λ blocks. ArePrepared setting.now texts.items blocks.items) }
{
    prepare_in_turn::<Brand, R>(rt, Blank::new(1), alloc, texts, setting)
}

// One text after the other, in one draft.
fn prepare_in_turn<L: Ledger, R: Threads>(
    rt: &R,
    blank: Blank,
    alloc: Global,
    texts: Vec<BlockText>,
    setting: &Setting,
) -> Result<Vec<Prepared>, NoMemory>
    requires profile { IsLawfulProfile setting.now.profile }
    requires blank { (blank.name ≡ L.name) × (blank.parts ≡ L.parts) × (0 < L.parts) }
    ensures { IfOk result (λ blocks. ArePrepared setting.now texts.items blocks.items) }
{
    let mut steps = Steps::<L>::start(rt, blank);
    let mut draft = Draft::new(alloc);
    let mut blocks = Vec::with_capacity(alloc, texts.len())?;
    for text in texts {
        match prepare_with(&mut draft, text, setting, &mut steps) {
            Ok(block) => blocks.push(block)?,
            // No text is too long.
            Err(_) => return Err(NoMemory),
        }
    }
    Ok(blocks)
}
