//! The loop of a row where it is known what the row's needles held when the block began.
ghost use Rattle.std.specs.Prelude.{◌≡◌, ◌+◌, ◌<◌, ◌^◌, ◌++◌, All, IfOk, OnOk};
ghost use Rattle.std.specs.Map.{lookup};
ghost use Rattle.std.specs.Option.{option_copied};
ghost use Rattle.knit_base.specs.Needle.{same_needle};
ghost use Rattle.carriage_model.specs.State.{State};
ghost use Rattle.face_data.specs.Segments.{OffsetFits, read_seg, read_segs};
ghost use Rattle.loop_history.specs.Entries.{AreEntriesOf, state_with_stacks};
ghost use Rattle.loop_history.specs.Rows.{fact_of_row};

use crate::LoopRow;
use carriage_model::{LoopFact, LoopLines};
use face_data::Seg;
use knit_base::{ListOf, Needle, NoMemory, needle_order};
use std::alloc::Global;

/// Needles, each with the lines of the loops that it held when a block began. Of a needle that stands twice the first counts,
/// and one that isn't there held nothing.
pub type Entries = ListOf<(Needle, LoopLines)>;

/// The loop of the row, in a block whose first line has the number `first` and at whose entry the row's needles held these loops.
/// `NoMemory` also comes where it would be drawn through more loops than a `u32` counts.
pub fn resolve(
    alloc: Global,
    row: &LoopRow,
    first: u32,
    entries: &Entries,
) -> Result<LoopFact, NoMemory>
    requires line { first + row.now.offset < 2 ^ 32 }
    requires lines { All (OffsetFits first) row.now.through }
    ensures { IfOk result (λ fact. (s : State) → AreEntriesOf s entries.now row.now.through → fact ≡ fact_of_row s first row.now) }
{
    let mut through = LoopLines::new(alloc);
    for seg in row.through.as_slice() {
        add_lines(*seg, first, entries, &mut through)?;
    }
    Ok(LoopFact {
        line: first + row.offset,
        needle: row.needle,
        dir: row.dir,
        yarns: row.yarns.try_clone()?,
        through,
    })
}

// Adds the lines of the loops that the segment stands for.
fn add_lines(seg: Seg, first: u32, entries: &Entries, lines: &mut LoopLines) -> Result<(), NoMemory>
    requires { OffsetFits first seg }
    ensures { OnOk result (lines.new ≡ lines.old ++ read_seg (state_with_stacks entries.now) first seg) }
{
    match seg {
        Seg::New(offset) => add_all(&[first + offset], lines),
        Seg::Entry(n) => match lines_on(entries, n) {
            Some(held) => add_all(held.as_slice(), lines),
            None => Ok(()),
        },
    }
}

fn add_all(more: &[u32], lines: &mut LoopLines) -> Result<(), NoMemory>
    ensures { OnOk result (lines.new ≡ lines.old ++ more.now) }
{
    let room = u32::MAX - lines.len();
    if more.len() > room as usize {
        return Err(NoMemory);
    }
    lines.extend_from_slice(more)
}

// The lines of the loops that the needle held.
fn lines_on(entries: &Entries, n: Needle) -> Option<&LoopLines>
    ensures { option_copied result ≡ lookup (same_needle n) entries.now }
{
    let pairs = entries.as_slice();
    for entry in pairs {
        if needle_order(&n, &entry.0).is_eq() {
            return Some(&entry.1);
        }
    }
    None
}
