//! A body of lines, read.
ghost use Rattle.std.specs.Prelude.{◌≡◌, ◌<◌, ◌≤◌, [], drop, length, slice_index_or, All, IfOk};
ghost use Rattle.std.specs.List.{AllZip};
ghost use Rattle.knit_base.specs.Lines.{IsLine};
ghost use Rattle.knit_base.specs.Lawful.{IsLawfulRead};
ghost use Rattle.knitout_reader.specs.Reading.{ReadsAs};

use crate::read_line;
use knit_base::{Declared, Lines, NoMemory, Profile, Reads};
use std::alloc::Global;

/// The line at this place. The first one has place 0.
pub fn nth_line(lines: &Lines, i: u32) -> &str
    requires { i < length lines.now }
    ensures text { result.now ≡ slice_index_or lines.now i [] }
    ensures line { IsLine result.now }
{
    lines.get(i).unwrap()
}

/// What the lines from this place on say, one by one. Where `from` is the number of lines there is nothing to read.
///
/// A line that breaks a rule is no error but a reading, as in `read_line`. Memory is asked for the list of the readings, and for
/// lines that name more than four carriers; `NoMemory` is the only error.
pub fn read_body(
    alloc: Global,
    lines: &Lines,
    from: u32,
    profile: &Profile,
    declared: &Declared,
) -> Result<Reads, NoMemory>
    requires within { from ≤ length lines.now }
    ensures reads { IfOk result (λ reads. AllZip (λ line r. ReadsAs profile.now declared.now line r) (drop from lines.now) reads) }
    ensures lawful { IfOk result (λ reads. All (IsLawfulRead profile.now (length declared.now)) reads) }
{
    let count = lines.len();
    let mut reads = Reads::with_capacity(alloc, count - from)?;
    for i in from..count {
        let Some(line) = lines.get(i) else {
            unreachable!();
        };
        reads.push(read_line(alloc, line, profile, declared)?)?;
    }
    Ok(reads)
}
