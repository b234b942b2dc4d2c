//! What is done with the lines of a file.
ghost use Rattle.std.specs.Prelude.{◌≡◌, ◌≤◌, ◌++◌, ◌∷◌, [], ℕ, List, length, IfErr, IfOk, OnOk};
ghost use Rattle.knit_base.specs.Lines.{lines_of};
ghost use Rattle.line_cutter.specs.Cut.{HasGoodLines, IsFirstBadBehind};
ghost use Rattle.knitout_reader.specs.declared.head.Head.{Head};

use crate::head::Head;
use knit_base::NoMemory;
use line_cutter::CutFault;
use std::alloc::Global;

/// What is done with the lines of a file: it sees those of the head one by one, and then takes those of the body, some whole lines at a time.
pub trait FileWork: Drop {
    /// What was the first value has seen these lines, which are of the head, and has become the second.
    ghost saw: { List (List ℕ) → Self → Self → Type 0 };

    /// What was the first value has taken these lines, those of a head and behind them some of the body, and has become the second.
    ghost took: { Head → List (List ℕ) → Self → Self → Type 0 };

    /// Sees the next line of the head.
    fn see(&mut self, line: &str) -> Result<(), NoMemory>
        ensures { OnOk result ((start : Self) (lines : List (List ℕ)) → saw lines start self.old → saw (lines ++ line.now ∷ []) start self.new) };

    /// Begins the body, behind all lines of this head.
    fn begin(&mut self, alloc: Global, head: &Head) -> Result<(), NoMemory>
        requires few { head.now.lines ≤ 33554432 }
        requires seen { (start : Self) × (lines : List (List ℕ)) × (length lines ≡ head.now.lines) × saw lines start self.old }
        ensures { OnOk result ((start : Self) (lines : List (List ℕ)) → length lines ≡ head.now.lines → saw lines start self.old
            → took head.now lines start self.new) };

    /// Takes the lines of these bytes, before which the file has so many, and says how many they are. A refusal names the first that isn't
    /// UTF-8 or has over 4,096 bytes by its number in the file, and `NoMemory` may come with any bytes. After an error the value is of no use.
    fn take_body(
        &mut self,
        alloc: Global,
        head: &Head,
        text: &[u8],
        before: u32,
    ) -> Result<u32, CutFault>
        requires size { length text.now ≤ 16777216 }
        requires few { before ≤ 33554432 }
        requires taking { (start : Self) × (lines : List (List ℕ)) × (length lines ≡ before) × took head.now lines start self.old }
        ensures good { IfOk result (HasGoodLines text.now) }
        ensures ok { OnOk result ((start : Self) (lines : List (List ℕ)) → length lines ≡ before → took head.now lines start self.old
            → took head.now (lines ++ lines_of text.now) start self.new) }
        ensures err { IfErr result (IsFirstBadBehind before (lines_of text.now)) };
}
