//! The lines of the head.
ghost use Rattle.std.specs.Prelude.{◌≡◌, ◌||◌, ℕ, ◌+◌, ◌≤◌, ◌<◌, true, false, length, MatchOption, IfOk, IfErr, IfSome};
ghost use Rattle.std.specs.List.{starts_with};
ghost use Rattle.knit_base.specs.Lines.{IsLine};
ghost use Rattle.knitout_reader.specs.Head.{is_carriers_line};
ghost use Rattle.journal_file.specs.HeadForms.{AreHeadLines, IsHeadLine, MayStandInHead, has_kind, head_with_line};
ghost use Rattle.journal_file.specs.Reading.{FormHasRead, IsFault, IsFirstLineTaken, NoneTaken, byte_limit};
ghost use Rattle.journal_file.specs.SavedForms.{HeadForm};

use crate::JournalFault;
use crate::counts::take_count;
use crate::text::{Place, take_text};
use knit_base::{Lines, NoMemory};
use knitout_reader::{declared_in, is_head_line, is_magic};
use std::alloc::Global;

/// What the header begins with that names the carriers.
const CARRIERS: &[u8] = b";;Carriers:";

/// How many lines a head has at most.
const MOST_LINES: u32 = 16_777_217;

/// Where the next line of a head stands: whether it is the first, how many are left with it, and whether a line before it has named the
/// carriers.
#[derive(Clone, Copy)]
pub(crate) struct HeadSoFar {
    pub first: bool,
    pub left: u32,
    pub named: bool,
}

/// The lines of the head, behind the line that tells how many there are, and the place behind them.
pub(crate) fn read_head<'a>(
    alloc: Global,
    start: Place<'a>,
) -> Result<(Lines, Place<'a>), JournalFault>
    requires size { start.taken + length start.rest.now ≤ byte_limit }
    ensures read { IfOk result (λ found. FormHasRead HeadForm start.entry.rest.now start.entry.taken (length found.0, found.0) found.1.rest.now found.1.taken) }
    ensures size { IfOk result (λ found. found.1.taken + length found.1.rest.now ≤ byte_limit) }
    ensures fault { IfErr result (IsFault HeadForm start.entry.rest.now start.entry.taken) }
{
    match take_count(start, b"head ", 2, MOST_LINES) {
        Some((many, at)) => match read_head_lines(alloc, at, many) {
            Ok((head, behind)) => Ok((head, behind)),
            Err(fault) => Err(fault),
        },
        None => Err(start.bad()),
    }
}

// The texts of so many head lines, which are one whole head, and the place behind them.
fn read_head_lines<'a>(
    alloc: Global,
    start: Place<'a>,
    many: u32,
) -> Result<(Lines, Place<'a>), JournalFault>
    requires size { start.taken + length start.rest.now ≤ byte_limit }
    requires some { 2 ≤ many }
    requires few { many ≤ 16777217 }
    ensures read { IfOk result (λ found. FormHasRead (AreHeadLines many) start.entry.rest.now start.entry.taken found.0 found.1.rest.now found.1.taken) }
    ensures size { IfOk result (λ found. found.1.taken + length found.1.rest.now ≤ byte_limit) }
    ensures len { IfOk result (λ found. length found.0 ≡ many) }
    ensures fault { IfErr result (IsFault (AreHeadLines many) start.entry.rest.now start.entry.taken) }
{
    let mut head = Lines::new(alloc);
    let mut at = start;
    let mut so_far = HeadSoFar {
        first: true,
        left: many,
        named: false,
    };
    for i in 0..many {
        match take_line(alloc, at, so_far)? {
            Some((text, next)) => {
                head.push(text)?;
                so_far = so_far.with(text);
                at = next;
            }
            None => return Err(at.bad()),
        }
    }
    Ok((head, at))
}

impl HeadSoFar {
    // Behind this line.
    fn with(self, text: &str) -> HeadSoFar
        requires { 1 ≤ self.left }
        ensures { result ≡ head_with_line self text.now }
    {
        HeadSoFar {
            first: false,
            left: self.left - 1,
            named: self.named || text.as_bytes().starts_with(CARRIERS),
        }
    }
}

// The text of the next line, if there is one and it may be the next line of the head, and the place behind it.
fn take_line<'a>(
    alloc: Global,
    at: Place<'a>,
    so_far: HeadSoFar,
) -> Result<Option<(&'a str, Place<'a>)>, NoMemory>
    requires size { at.taken + length at.rest.now ≤ byte_limit }
    requires left { 1 ≤ so_far.left }
    ensures text { IfOk result (λ found. MatchOption found (NoneTaken (IsHeadLine so_far) at.entry.rest.now) (λ f. IsFirstLineTaken (IsHeadLine so_far) at.entry.rest.now f.0.now f.1.rest.now)) }
    ensures count { IfOk result (λ found. IfSome found (λ f. f.1.taken ≡ at.entry.taken + 1)) }
    ensures size { IfOk result (λ found. IfSome found (λ f. f.1.taken + length f.1.rest.now ≤ byte_limit)) }
{
    match take_text(at) {
        Some((text, next)) => {
            if may_stand(alloc, so_far, text)? {
                return Ok(Some((text, next)));
            }
            Ok(None)
        }
        None => Ok(None),
    }
}

// Whether the text may be the next line of the head.
fn may_stand(alloc: Global, so_far: HeadSoFar, text: &str) -> Result<bool, NoMemory>
    requires line { IsLine text.now }
    requires short { length text.now < 65535 }
    requires left { 1 ≤ so_far.left }
    ensures yes { IfOk result (λ yes. yes ≡ true → MayStandInHead so_far text.now) }
    ensures no { IfOk result (λ yes. yes ≡ false → ¬ MayStandInHead so_far text.now) }
{
    if !has_kind(so_far.first, text.as_bytes()) {
        return Ok(false);
    }
    if !text.as_bytes().starts_with(CARRIERS) {
        return Ok(so_far.named || so_far.left > 1);
    }
    if so_far.named {
        return Ok(false);
    }
    match declared_in(alloc, text)? {
        Some(_) => Ok(true),
        None => Ok(false),
    }
}

// Whether the line is the first of a head, or may be one behind it.
fn has_kind(first: bool, line: &[u8]) -> bool
    ensures { result ≡ has_kind first line.now }
{
    if first {
        is_magic(line)
    } else {
        is_head_line(line)
    }
}
