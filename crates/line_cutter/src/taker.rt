//! What takes the lines of a file as they come.
ghost use Rattle.std.specs.Prelude.{◌≡◌, ◌≤◌, ◌+◌, ◌++◌, ℕ, List, All, length, IfErr, OnOk};
ghost use Rattle.knit_base.specs.Lines.{lines_of};
ghost use Rattle.line_cutter.specs.Cut.{IsFirstBadBehind, IsGoodLine};

use crate::CutFault;
use std::alloc::Global;

/// A value that takes the lines of a file, some whole lines at a time.
pub trait LineTaker: Drop {
    /// What was the first value has taken these lines, and has become the second.
    ghost took: { List (List ℕ) → Self → Self → Type 0 };

    /// How many lines were taken.
    ghost count: { Self → ℕ };

    /// Takes the lines of these bytes, behind those that it took before. A refusal names the first line that isn't UTF-8 or has over 4,096
    /// bytes, counted from the first that was ever taken, and `NoMemory` may come with any bytes. After an error the value is of no use.
    fn take_lines(&mut self, alloc: Global, text: &[u8]) -> Result<(), CutFault>
        requires size { length text.now ≤ 16777216 }
        requires few { count self.old ≤ 16777216 }
        requires taking { (start : Self) × (lines : List (List ℕ)) × took lines start self.old }
        ensures ok { OnOk result ((start : Self) (lines : List (List ℕ)) → took lines start self.old → took (lines ++ lines_of text.now) start self.new) }
        ensures err { IfErr result (IsFirstBadBehind (count self.old) (lines_of text.now)) };

    /// Only good lines are taken, and they are counted.
    ghost counted: { (lines : List (List ℕ)) (start now : Self) → took lines start now → count now ≡ length lines };

    ghost good: { (lines : List (List ℕ)) (start now : Self) → took lines start now → All IsGoodLine lines };
}
