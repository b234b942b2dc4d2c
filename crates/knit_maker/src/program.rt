//! The whole made program.
ghost use Rattle.std.specs.Prelude.{◌≡◌, ◌+◌, ◌*◌, ◌<◌, ◌≤◌, [], ◌∷◌, ◌++◌, length, map, slice_index_or, IfOk, OnOk};
ghost use Rattle.std.specs.List.{range_with_len};
ghost use Rattle.knit_base.specs.Lines.{IsLine};
ghost use Rattle.knit_maker.specs.Made.{course, drawn_after, made_lines, opening, hook_picked, rows_after, transfer_line, width_of};
ghost use Rattle.knit_maker.specs.declared.stitch.Stitch.TheVariants.{Knit, Tuck};

use crate::Stitch;
use crate::course::{course_of, transfers_of};
use knit_base::{Lines, NoMemory};
use std::alloc::Global;

/// A program of so many rows: a tube on both beds, knitted round by round with the first of three carriers, with one transfer
/// behind each round. Its width, 4 to 16 hooks, and which hooks are transferred follow from `start`.
///
/// It breaks no rule of a usual machine, and has `4 + 2 * width + rows * (2 * width + 1)` lines, two of them the head. Fails
/// where memory runs out.
pub fn make(alloc: Global, rows: u32, start: u32) -> Result<Lines, NoMemory>
    requires rows { rows ≤ 20000 }
    requires start { start < 2147483648 }
    ensures lines { IfOk result (λ lines. lines ≡ made_lines rows start) }
    ensures few { IfOk result (λ lines. length lines ≤ 36 + 33 * rows) }
{
    let width = 4 + start % 13;
    let mut lines = Lines::new(alloc);
    push_opening(&mut lines)?;
    append(&course_of(alloc, Stitch::Tuck, width)?, &mut lines)?;
    push_rows(alloc, width, start, rows, &mut lines)?;
    lines.push("out 1")?;
    Ok(lines)
}

// Appends the head, and the line that brings the carrier in.
pub(crate) fn push_opening(lines: &mut Lines) -> Result<(), NoMemory>
    requires { length lines.old < 100 }
    ensures { OnOk result (lines.new ≡ lines.old ++ opening) }
{
    lines.push(";!knitout-2")?;
    lines.push(";;Carriers: 1 2 3")?;
    lines.push("in 1")
}

// Appends so many rows, where `start` was the last number drawn before them.
fn push_rows(
    alloc: Global,
    width: u32,
    start: u32,
    rows: u32,
    lines: &mut Lines,
) -> Result<(), NoMemory>
    requires width { width ≤ 16 }
    requires some { 4 ≤ width }
    requires start { start < 2147483648 }
    requires rows { rows ≤ 20000 }
    requires few { length lines.old < 100 }
    ensures lines { OnOk result (lines.new ≡ lines.old ++ rows_after width start rows) }
    ensures few { OnOk result (length lines.new ≤ length lines.old + 33 * rows) }
{
    let round = course_of(alloc, Stitch::Knit, width)?;
    let transfers = transfers_of(alloc, width)?;
    let mut drawn = start;
    for row in 0..rows {
        drawn = drawn_after(drawn);
        append(&round, lines)?;
        lines.push(nth_line(&transfers, picked(width, drawn) - 1))?;
    }
    Ok(())
}

// The number that is drawn after this one.
pub(crate) fn drawn_after(drawn: u32) -> u32
    requires { drawn < 2147483648 }
    ensures value { result ≡ drawn_after drawn }
    ensures small { result < 2147483648 }
{
    ((u64::from(drawn) * 1_103_515_245 + 12_345) % 2_147_483_648) as u32
}

// The hook that a number picks, of so many.
pub(crate) fn picked(width: u32, drawn: u32) -> u32
    requires { 0 < width }
    ensures value { result ≡ hook_picked width drawn }
    ensures some { 1 ≤ result }
    ensures within { result ≤ width }
{
    1 + (drawn / 65_536) % width
}

// The line at this place, from 0.
pub(crate) fn nth_line(lines: &Lines, i: u32) -> &str
    requires { i < length lines.now }
    ensures text { result.now ≡ slice_index_or lines.now i [] }
    ensures line { IsLine result.now }
{
    lines.get(i).unwrap()
}

// Appends the lines of another text.
pub(crate) fn append(more: &Lines, lines: &mut Lines) -> Result<(), NoMemory>
    requires { length lines.old + length more.now ≤ 16777217 }
    ensures { OnOk result (lines.new ≡ lines.old ++ more.now) }
{
    for i in 0..more.len() {
        lines.push(nth_line(more, i))?;
    }
    Ok(())
}
