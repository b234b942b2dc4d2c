//! A block's text, with its summary and the loops that it makes.
ghost use Rattle.std.specs.Prelude.{◌≡◌, ℕ, ◌+◌, ◌-◌, ◌*◌, ◌<◌, ◌≤◌, ◌^◌, ◌++◌, false, List, Option, IfErr, IfOk, OnOk, None, length, slice_range};
ghost use Rattle.std.specs.Option.{option_map, option_to_list};
ghost use Rattle.knit_base.specs.declared.instr.Read.{Read};
ghost use Rattle.knit_base.specs.Lawful.{IsLawfulRead};
ghost use Rattle.knit_base.specs.Limits.{IsLawfulProfile};
ghost use Rattle.knit_base.specs.Needle.{is_slider};
ghost use Rattle.knit_base.specs.Usual.{usual_read};
ghost use Rattle.knitout_reader.specs.Reading.{ReadsAs};
ghost use Rattle.loop_history.specs.declared.row.LoopRow.{LoopRow};
ghost use Rattle.block_summary.specs.Prepared.{AddsLine, AreReadings, AreRowsOf, IsKnitIfKnown, IsMadeOf, IsPreparedFor, loop_row_of};
ghost use Rattle.block_summary.specs.declared.prepared.PrepareFault.{PrepareFault};

use crate::Draft;
use crate::adding::add_line;
use face_data::Face;
use knit_base::{BlockText, NoMemory, Setting, Steps};
use knitout_reader::LastNamed;
use loop_history::LoopTable;
use std::alloc::Global;
use std::sync::ledger::Ledger;
use thiserror::Error;

/// How many lines a block has at most.
pub const MOST_LINES: u32 = 4096;

/// A block's text, the face that stands for it from every state, and the loops that its lines make.
#[derive(Drop)]
pub struct Prepared {
    pub text: BlockText,
    pub face: Face,
    pub loops: LoopTable,
}

/// Why a text isn't prepared.
#[derive(Clone, Copy, Debug, PartialEq, Eq, Error)]
pub enum PrepareFault {
    /// The text has more lines than a block may have.
    #[error("a block of {lines} lines is too long")]
    BlockLong { lines: u32 },

    /// Memory ran out.
    #[error("out of memory")]
    NoMemory,
}

/// Reads the text once, line by line, for every state in which the block may be entered. Of the setting the profile and the declared
/// carriers matter, and the first line's number doesn't. Lines behind one at which the block is known to stop aren't read.
pub fn prepare<L: Ledger>(
    alloc: Global,
    text: BlockText,
    setting: &Setting,
    steps: &mut Steps<L>,
) -> Result<Prepared, PrepareFault>
    requires { IsLawfulProfile setting.now.profile }
    ensures text { IfOk result (λ prepared. prepared.text ≡ text) }
    ensures prepared { IfOk result (IsPreparedFor setting.now.profile setting.now.declared) }
    ensures long { 4096 < length text → result ≡ Err (PrepareFault.BlockLong (length text)) }
    ensures fault { IfErr result (λ fault. length text ≤ 4096 → fault ≡ PrepareFault.NoMemory) }
    ensures steps { steps.new ≤ steps.old + length text }
{
    let mut draft = Draft::new(alloc);
    prepare_with(&mut draft, text, setting, steps)
}

/// The same in a draft that may have been used before: its lines are forgotten, and the room that they took is used again. After an
/// error the draft serves as before.
pub fn prepare_with<L: Ledger>(
    draft: &mut Draft,
    text: BlockText,
    setting: &Setting,
    steps: &mut Steps<L>,
) -> Result<Prepared, PrepareFault>
    requires { IsLawfulProfile setting.now.profile }
    ensures text { IfOk result (λ prepared. prepared.text ≡ text) }
    ensures prepared { IfOk result (IsPreparedFor setting.now.profile setting.now.declared) }
    ensures long { 4096 < length text → result ≡ Err (PrepareFault.BlockLong (length text)) }
    ensures fault { IfErr result (λ fault. length text ≤ 4096 → fault ≡ PrepareFault.NoMemory) }
    ensures steps { steps.new ≤ steps.old + length text }
{
    let lines = text.len();
    if lines > MOST_LINES {
        return Err(PrepareFault::BlockLong { lines });
    }
    match read_block(draft, &text, 0, lines, setting, steps) {
        Ok(block) => Ok(Prepared {
            text,
            face: block.face,
            loops: block.loops,
        }),
        Err(NoMemory) => Err(PrepareFault::NoMemory),
    }
}

/// The face and the table of the lines from `start` to `end`, which isn't counted, as of a text of these lines alone: offsets are counted from the
/// first of them.
pub fn prepare_part<L: Ledger>(
    alloc: Global,
    text: &BlockText,
    start: u32,
    end: u32,
    setting: &Setting,
    steps: &mut Steps<L>,
) -> Result<(Face, LoopTable), NoMemory>
    requires profile { IsLawfulProfile setting.now.profile }
    requires ordered { start ≤ end }
    requires inside { end ≤ length text.now }
    requires few { end ≤ start + 4096 }
    ensures made { IfOk result (λ part. (lines : List Read) → AreReadings setting.now.profile setting.now.declared (slice_range text.now start end) lines → IsMadeOf setting.now.profile (length setting.now.declared) part.0 part.1 lines) }
    ensures steps { steps.new ≤ steps.old + (end - start) }
{
    let mut draft = Draft::new(alloc);
    let block = read_block(&mut draft, text, start, end, setting, steps)?;
    Ok((block.face, block.loops))
}

// What is made of lines.
#[derive(Drop)]
struct Block {
    face: Face,
    loops: LoopTable,
}

// Reads the lines from `start` to `end`, which isn't counted.
fn read_block<L: Ledger>(
    draft: &mut Draft,
    text: &BlockText,
    start: u32,
    end: u32,
    setting: &Setting,
    steps: &mut Steps<L>,
) -> Result<Block, NoMemory>
    requires profile { IsLawfulProfile setting.now.profile }
    requires ordered { start ≤ end }
    requires inside { end ≤ length text.now }
    requires few { end ≤ start + 4096 }
    ensures made { IfOk result (λ block. (lines : List Read) → AreReadings setting.now.profile setting.now.declared (slice_range text.now start end) lines → IsMadeOf setting.now.profile (length setting.now.declared) block.face block.loops lines) }
    ensures steps { steps.new ≤ steps.old + (end - start) }
{
    draft.clear();
    let lines = end - start;
    let mut last = LastNamed::none();
    let mut loops = LoopTable::with_capacity(draft.allocator(), lines)?;
    for i in start..end {
        let line = text.line(i, steps);
        match add_line(line, setting, &mut last, draft, &mut loops)? {
            None => {}
            Some(fault) => {
                loops.shrink_to_fit();
                return Ok(Block {
                    face: draft.broken_face(lines, fault)?,
                    loops,
                });
            }
        }
    }
    loops.shrink_to_fit();
    Ok(Block {
        face: draft.face()?,
        loops,
    })
}
