//! The text of a block of lines.
ghost use Rattle.std.specs.Prelude.{◌≡◌, ◌+◌, ◌<◌, ◌≤◌, IfOk, Some, length, slice_get, slice_range};
ghost use Rattle.knit_base.specs.Lines.{IsLine};

use crate::{Lines, NoMemory, Steps};
use std::alloc::Global;
use std::marker::Model;
use std::sync::ledger::Ledger;

/// The text of a block: a list of lines. Whoever reads one of them is charged a step for it.
#[derive(Drop)]
pub struct BlockText {
    lines: Lines,
}

impl Model for BlockText {
    ghost use Rattle.std.specs.Prelude.{List, ℕ};

    ghost Value = { List (List ℕ) };

    ghost view = { λ t. t.lines };
}

impl BlockText {
    /// The lines from `start` to `end`, which isn't counted: shared where `lines` are, and else a copy, in which bytes that stand between
    /// them in their buffer are copied, too.
    pub fn of(alloc: Global, lines: &Lines, start: u32, end: u32) -> Result<Self, NoMemory>
        requires ordered { start ≤ end }
        requires inside { end ≤ length lines.now }
        ensures { IfOk result (λ text. text ≡ slice_range lines.now start end) }
    {
        if start == 0 && end == lines.len() {
            return Ok(BlockText {
                lines: lines.try_clone()?,
            });
        }
        Ok(BlockText {
            lines: Lines::range(alloc, lines, start, end)?,
        })
    }

    pub fn len(&self) -> u32
        ensures len { result ≡ length self.now }
        ensures few { length self.now ≤ 16777217 }
    {
        self.lines.len()
    }

    /// The line at this place, from 0. It costs a step.
    pub fn line<L: Ledger>(&self, i: u32, steps: &mut Steps<L>) -> &str
        requires { i < length self.now }
        ensures line { slice_get self.now i ≡ Some result.now }
        ensures is_line { IsLine result.now }
        ensures steps { steps.new ≡ steps.old + 1 }
    {
        steps.tick();
        let Some(line) = self.lines.get(i) else {
            unreachable!();
        };
        line
    }

    /// An equal text: shared where this one is, and else a copy.
    pub fn try_clone(&self) -> Result<Self, NoMemory>
        ensures { IfOk result (λ text. text ≡ self.now) }
    {
        Ok(BlockText {
            lines: self.lines.try_clone()?,
        })
    }
}
