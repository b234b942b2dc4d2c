//! One long text, in pieces that are prepared beside each other.
ghost use Rattle.std.specs.Prelude.{◌≡◌, ◌<◌, ◌≤◌, IfErr, IfOk, length, slice_range};
ghost use Rattle.std.specs.Thread.{IsSync};
ghost use Rattle.knit_base.specs.Limits.{IsLawfulProfile};
ghost use Rattle.block_summary.specs.Prepared.{IsPreparedFor};
ghost use Rattle.block_summary.specs.declared.prepared.PrepareFault.{PrepareFault};
ghost use Rattle.check_workers.specs.Pieces.{CanCut, CanJoin, IsOfBoth, IsPieceOf, lines_of_pieces, piece_start};

use crate::pairs::join_faces;
use block_summary::{MOST_LINES, PrepareFault, Prepared, prepare_part};
use face_data::Face;
use knit_base::{BlockText, NoMemory, Setting, Steps};
use loop_history::LoopTable;
use std::alloc::Global;
use std::marker::Brand;
use std::sync::ledger::{Blank, Ledger};
use std::thread::{Threads, join};
use summary_compose::Scratch;

// Of how many lines it is worth while to put pieces together, and to make threads.
const MANY_LINES: u32 = 2_048;

/// Prepares the text in so many pieces of nearly equal numbers of lines, each in a thread of its own where one can be made, and puts them together.
/// A text that isn't worth it is one piece. What comes of it is what `prepare` makes.
pub fn prepare_wide<R: Threads + Sync>(
    rt: &R,
    alloc: Global,
    text: BlockText,
    pieces: u32,
    setting: &Setting,
) -> Result<Prepared, PrepareFault>
    requires profile { IsLawfulProfile setting.now.profile }
    requires pieces { (1 ≤ pieces) × (pieces ≤ 64) }
    ensures text { IfOk result (λ prepared. prepared.text ≡ text) }
    ensures prepared { IfOk result (IsPreparedFor setting.now.profile setting.now.declared) }
    ensures long { 4096 < length text → result ≡ Err (PrepareFault.BlockLong (length text)) }
    ensures fault { IfErr result (λ fault. length text ≤ 4096 → fault ≡ PrepareFault.NoMemory) }
{
    let lines = text.len();
    if lines > MOST_LINES {
        return Err(PrepareFault::BlockLong { lines });
    }
    let count = piece_count(lines, pieces);
    match prepare_pieces(rt, alloc, &text, count, 0, count, setting) {
        Ok(made) => Ok(Prepared {
            text,
            face: made.face,
            loops: made.loops,
        }),
        Err(NoMemory) => Err(PrepareFault::NoMemory),
    }
}

fn piece_count(lines: u32, pieces: u32) -> u32
    requires { (1 ≤ pieces) × (pieces ≤ 64) }
    ensures { (1 ≤ result) × (result ≤ 64) }
{
    if lines < MANY_LINES { 1 } else { pieces }
}

// What is made of pieces that follow one another, and where they were put together: there is room there that can be used again.
#[derive(Drop)]
struct Made {
    face: Face,
    loops: LoopTable,
    scratch: Scratch,
}

// Where the piece with this number begins, of so many pieces.
fn place_of(text: &BlockText, pieces: u32, i: u32) -> u32
    requires few { length text.now ≤ 4096 }
    requires pieces { (1 ≤ pieces) × (pieces ≤ 64) }
    requires inside { i ≤ pieces }
    ensures { result ≡ piece_start (length text.now) pieces i }
{
    text.len() * i / pieces
}

// The pieces from the one number to the other, which isn't counted, a half of them beside the other.
fn prepare_pieces<R: Threads + Sync>(
    rt: &R,
    alloc: Global,
    text: &BlockText,
    pieces: u32,
    from: u32,
    to: u32,
    setting: &Setting,
) -> Result<Made, NoMemory>
    requires { CanCut setting.now text.now pieces from to }
    ensures { IfOk result (λ made. IsPieceOf setting.now (lines_of_pieces text.now pieces from to) (made.face, made.loops)) }
{
    let _carriers = setting.declared.len();
    if to - from < 2 {
        let start = place_of(text, pieces, from);
        let end = place_of(text, pieces, to);
        return prepare_piece(rt, alloc, text, start, end, setting);
    }
    let middle = from + (to - from) / 2;
    let (front, back) = join(
        rt,
        move || -> Result<Made, NoMemory>
            requires { IsSync R.row × CanCut setting.now text.now pieces from middle }
            ensures { IfOk result (λ made. IsPieceOf setting.entry.now (lines_of_pieces text.entry.now pieces from middle) (made.face, made.loops)) }
        { prepare_pieces(rt, alloc, text, pieces, from, middle, setting) },
        move || -> Result<Made, NoMemory>
            requires { IsSync R.row × CanCut setting.now text.now pieces middle to }
            ensures { IfOk result (λ made. IsPieceOf setting.entry.now (lines_of_pieces text.entry.now pieces middle to) (made.face, made.loops)) }
        { prepare_pieces(rt, alloc, text, pieces, middle, to, setting) },
    );
    both(rt, alloc, front?, back?)
}

// One piece. The steps are counted by nobody.
fn prepare_piece<R: Threads>(
    rt: &R,
    alloc: Global,
    text: &BlockText,
    start: u32,
    end: u32,
    setting: &Setting,
) -> Result<Made, NoMemory>
    requires profile { IsLawfulProfile setting.now.profile }
    requires ordered { start ≤ end }
    requires inside { end ≤ length text.now }
    requires few { length text.now ≤ 4096 }
    ensures { IfOk result (λ made. IsPieceOf setting.now (slice_range text.now start end) (made.face, made.loops)) }
{
    prepare_counted::<Brand, R>(rt, Blank::new(1), alloc, text, start, end, setting)
}

fn prepare_counted<L: Ledger, R: Threads>(
    rt: &R,
    blank: Blank,
    alloc: Global,
    text: &BlockText,
    start: u32,
    end: u32,
    setting: &Setting,
) -> Result<Made, NoMemory>
    requires profile { IsLawfulProfile setting.now.profile }
    requires ordered { start ≤ end }
    requires inside { end ≤ length text.now }
    requires few { length text.now ≤ 4096 }
    requires blank { (blank.name ≡ L.name) × (blank.parts ≡ L.parts) × (0 < L.parts) }
    ensures { IfOk result (λ made. IsPieceOf setting.now (slice_range text.now start end) (made.face, made.loops)) }
{
    let mut steps = Steps::<L>::start(rt, blank);
    let (face, loops) = prepare_part(alloc, text, start, end, setting, &mut steps)?;
    Ok(Made {
        face,
        loops,
        scratch: Scratch::new(alloc),
    })
}

// Two pieces that follow one another, as one. The steps are counted by nobody.
fn both<R: Threads>(rt: &R, alloc: Global, front: Made, back: Made) -> Result<Made, NoMemory>
    requires { CanJoin (front.face, front.loops) (back.face, back.loops) }
    ensures { IfOk result (λ made. IsOfBoth (front.face, front.loops) (back.face, back.loops) (made.face, made.loops)) }
{
    both_counted::<Brand, R>(rt, Blank::new(1), alloc, front, back)
}

fn both_counted<L: Ledger, R: Threads>(
    rt: &R,
    blank: Blank,
    alloc: Global,
    front: Made,
    back: Made,
) -> Result<Made, NoMemory>
    requires neighbours { CanJoin (front.face, front.loops) (back.face, back.loops) }
    requires blank { (blank.name ≡ L.name) × (blank.parts ≡ L.parts) × (0 < L.parts) }
    ensures { IfOk result (λ made. IsOfBoth (front.face, front.loops) (back.face, back.loops) (made.face, made.loops)) }
{
    let mut steps = Steps::<L>::start(rt, blank);
    let Made {
        face: first,
        mut loops,
        mut scratch,
    } = front;
    let face = join_faces(alloc, &first, &back.face, &mut scratch, &mut steps)?;
    loops.append_through(&first.view(), back.loops)?;
    Ok(Made {
        face,
        loops,
        scratch,
    })
}
