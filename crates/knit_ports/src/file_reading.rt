//! The lines of a file, which are taken while it is read.
ghost use Rattle.std.specs.Prelude.{◌≡◌, ◌≢◌, ◌≤◌, ◌+◌, ◌++◌, ◌^◌, [], List, ℕ, length, IfOk, IsErrOf, MatchOption, OnErr, OnOk};
ghost use Rattle.line_cutter.specs.declared.fault.CutFault.TheVariants as refused;
ghost use Rattle.line_cutter.specs.Cut.{IsFirstBadBehind};
ghost use Rattle.knit_base.specs.Lines.{lines_of};
ghost use Rattle.knit_ports.specs.Faults.{Rose};
ghost use Rattle.knit_ports.specs.FileReadings.{IsFileReading};
ghost use Rattle.knit_ports.specs.Whole.{GaveAtMost};

use crate::limit::INPUT_LIMIT;
use crate::window::{Window, whole_len};
use crate::{InputFault, Source};
use line_cutter::{CutFault, LineTaker};
use std::alloc::Global;

/// What the reading of a file comes to.
#[derive(Drop)]
pub enum FileReading<T> {
    /// The taker took all its lines.
    Whole(T),
    /// The first bad line, as it is named.
    Refused(CutFault),
    /// The source gave a byte more than the limit.
    TooLong,
}

/// Reads a file to its end, at most `INPUT_LIMIT` bytes, and hands its lines to the taker while they are read. No more of it
/// is kept than 131,072 bytes, or one line where that is longer.
///
/// A file with a bad line is read to its end all the same: that a read fails comes first, then that the file is too long, and
/// then its first bad line. Where memory runs out, nothing more is read.
pub fn read_lines<S: Source, T: LineTaker>(
    alloc: Global,
    source: &mut S,
    taker: T,
) -> Result<FileReading<T>, InputFault>
    requires none { T.took [] taker taker }
    ensures read { IfOk result (IsFileReading T T.took taker (S.left source.old) (S.left source.new)) }
    ensures calm { OnOk result (S.faults source.new ≡ S.faults source.old) }
    ensures failed { IsErrOf result InputFault.Failed → Rose (S.faults source.old) (S.faults source.new) }
    ensures gave { IsErrOf result InputFault.Failed → GaveAtMost INPUT_LIMIT (S.left source.old) (S.left source.new) }
    ensures lost { IsErrOf result InputFault.NoMemory → GaveAtMost (INPUT_LIMIT + 1) (S.left source.old) (S.left source.new) }
{
    let mut window = Window::new(alloc)?;
    read_on(alloc, source, &mut window, taker)
}

// Reads a file, of which nothing was read, through the window.
fn read_on<S: Source, T: LineTaker>(
    alloc: Global,
    source: &mut S,
    window: &mut Window,
    taker: T,
) -> Result<FileReading<T>, InputFault>
    requires none { T.took [] taker taker }
    requires held { window.old.held ≡ [] }
    requires count { window.old.count ≡ 0 }
    ensures read { IfOk result (IsFileReading T T.took taker (S.left source.old) (S.left source.new)) }
    ensures calm { OnOk result (S.faults source.new ≡ S.faults source.old) }
    ensures failed { IsErrOf result InputFault.Failed → Rose (S.faults source.old) (S.faults source.new) }
    ensures gave { OnErr result (GaveAtMost INPUT_LIMIT (S.left source.old) (S.left source.new)) }
{
    let mut taker = taker;
    'reading: loop {
        let given = window.read(source)?;
        if window.is_past_limit() {
            return Ok(FileReading::TooLong);
        }
        if given == 0 {
            return match take(alloc, &mut taker, window.held())? {
                None => Ok(FileReading::Whole(taker)),
                Some(fault) => Ok(FileReading::Refused(fault)),
            };
        }
        let len = whole_len(window.held(), given);
        match take(alloc, &mut taker, &window.held()[..len])? {
            None => window.pass(len),
            Some(fault) => {
                window.read_out(source)?;
                if window.is_past_limit() {
                    return Ok(FileReading::TooLong);
                }
                return Ok(FileReading::Refused(fault));
            }
        }
    }
}

// Hands the taker some lines more. What is told is the first bad one.
fn take<T: LineTaker>(
    alloc: Global,
    taker: &mut T,
    text: &[u8],
) -> Result<Option<CutFault>, InputFault>
    requires size { length text.now ≤ 16777216 }
    requires few { T.count taker.old ≤ 16777216 }
    requires taking { (start : T) × (lines : List (List ℕ)) × T.took lines start taker.old }
    ensures ok { IfOk result (λ bad. MatchOption bad ((start : T) (lines : List (List ℕ)) → T.took lines start taker.old
        → T.took (lines ++ lines_of text.now) start taker.new) (λ fault. IsFirstBadBehind (T.count taker.old) (lines_of text.now) fault)) }
    ensures named { IfOk result (λ bad. MatchOption bad (Unit {0}) (λ fault. fault ≢ refused.NoMemory)) }
    ensures err { OnErr result (result ≡ Err InputFault.NoMemory) }
{
    match taker.take_lines(alloc, text) {
        Ok(()) => Ok(None),
        Err(CutFault::NoMemory) => Err(InputFault::NoMemory),
        Err(fault) => Ok(Some(fault)),
    }
}
