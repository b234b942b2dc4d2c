//! Courses of a made program, and the lines that its rows are made of.
ghost use Rattle.std.specs.Prelude.{◌≡◌, ◌+◌, ◌<◌, ◌≤◌, ◌++◌, length, map, IfOk, OnOk};
ghost use Rattle.std.specs.List.{range_with_len};
ghost use Rattle.knit_maker.specs.Made.{course, leftward, rightward, transfer_line};

use crate::Stitch;
use crate::stitch::{push_stitch, push_transfer};
use knit_base::{Bed, Dir, Lines, NoMemory};
use std::alloc::Global;

// Appends the stitches on the front bed, leftward.
fn push_leftward(
    alloc: Global,
    stitch: Stitch,
    width: u32,
    lines: &mut Lines,
) -> Result<(), NoMemory>
    requires width { width < 100 }
    requires few { length lines.old + width ≤ 16777217 }
    ensures { OnOk result (lines.new ≡ lines.old ++ leftward stitch width) }
{
    let mut at = width;
    while at > 0 {
        push_stitch(alloc, stitch, Dir::Left, Bed::Front, at, lines)?;
        at -= 1;
    }
    Ok(())
}

// Appends the stitches on the back bed, rightward.
fn push_rightward(
    alloc: Global,
    stitch: Stitch,
    width: u32,
    lines: &mut Lines,
) -> Result<(), NoMemory>
    requires width { width < 100 }
    requires few { length lines.old + width ≤ 16777217 }
    ensures { OnOk result (lines.new ≡ lines.old ++ rightward stitch width) }
{
    for i in 0..width {
        push_stitch(alloc, stitch, Dir::Right, Bed::Back, i + 1, lines)?;
    }
    Ok(())
}

/// Once round a tube that is so many hooks wide.
pub(crate) fn course_of(alloc: Global, stitch: Stitch, width: u32) -> Result<Lines, NoMemory>
    requires { width < 100 }
    ensures { IfOk result (λ lines. lines ≡ course stitch width) }
{
    let mut lines = Lines::new(alloc);
    push_leftward(alloc, stitch, width, &mut lines)?;
    push_rightward(alloc, stitch, width, &mut lines)?;
    Ok(lines)
}

/// The transfers of the hooks from 1 to this one.
pub(crate) fn transfers_of(alloc: Global, width: u32) -> Result<Lines, NoMemory>
    requires { width < 100 }
    ensures { IfOk result (λ lines. lines ≡ map transfer_line (range_with_len 1 width)) }
{
    let mut lines = Lines::new(alloc);
    for i in 0..width {
        push_transfer(alloc, i + 1, &mut lines)?;
    }
    Ok(lines)
}
