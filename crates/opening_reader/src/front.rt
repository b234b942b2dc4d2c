//! The lines with which an opening begins, one more at a time.
ghost use Rattle.std.specs.Prelude.{◌≡◌, ◌≤◌, ◌<◌, ◌+◌, ◌∷◌, [], List, ℕ, MatchOption, None, Some, length};
ghost use Rattle.knit_base.specs.Lines.{HasNoLineEnd, IsLine, without_return};
ghost use Rattle.knit_ports.specs.Ears.{kept_front};
ghost use Rattle.knit_ports.specs.declared.limit.TheConstants.{HEARD_LIMIT};
ghost use Rattle.opening_reader.specs.Fronts.{HasLineRoom, HoldsFront, IsFrontCounted, IsOpeningUnfinished, IsOpeningLineTaken};
ghost use Rattle.opening_reader.specs.Openings.{CanBeRead, MayFollow, cause_at_end, limit_behind, told_in};
ghost use Rattle.opening_reader.specs.declared.opening.OpeningFault.TheVariants as fault;
ghost use Rattle.opening_reader.specs.declared.opening.OpeningKind.TheVariants as kind;

use crate::line::{limit_for, readable, wanted_in};
use crate::opening::{OpeningFault, OpeningKind, Wanted};
use knit_base::{Lines, NoMemory};
use line_cutter::without_return;
use script_reader::{Cause, is_skipped, is_text_line, text_of};

/// So many bytes the lines of an opening have at most, each with one line feed.
pub const OPENING_LIMIT: u32 = 16_777_216;

/// What was heard of an opening: how many lines and bytes, and what the first line still asks for. Before that line it isn't known.
#[derive(Clone, Copy)]
pub(crate) struct Front {
    pub(crate) lines: u32,
    pub(crate) bytes: u32,
    pub(crate) wanted: Option<Wanted>,
}

/// The kind of the opening, if it is whole.
pub(crate) fn whole_kind(front: Front) -> Option<OpeningKind>
    ensures { MatchOption result (IsOpeningUnfinished front.wanted) (λ kind. front.wanted ≡ Some (record { kind = kind; missing = 0 })) }
{
    match front.wanted {
        Some(wanted) if wanted.missing == 0 => Some(wanted.kind),
        _ => None,
    }
}

/// What is told where the input ends before the line with this number, behind these lines.
pub(crate) fn unfinished(number: u32, front: Front) -> OpeningFault
    ensures { (lines text : List (List ℕ)) → HoldsFront front lines text → number ≡ length lines + 1 → result ≡ fault.At (length lines + 1) (cause_at_end lines) }
{
    match front.wanted {
        None => OpeningFault::At {
            line: number,
            cause: Cause::NoServe,
        },
        Some(_) => OpeningFault::At {
            line: number,
            cause: Cause::BadLine,
        },
    }
}

/// Takes one more line, of which these bytes are kept.
pub(crate) fn take(text: &mut Lines, front: Front, kept: &[u8]) -> Result<Front, OpeningFault>
    requires one { HasNoLineEnd kept.now }
    requires room { HasLineRoom front text.old }
    requires wanted { IsOpeningUnfinished front.wanted }
    ensures { (lines : List (List ℕ)) (line : List ℕ) → HoldsFront front lines text.old → kept.now ≡ kept_front line → IsOpeningLineTaken result text.new lines (without_return line) }
{
    match readable(without_return(kept), limit_for(front.wanted)) {
        Ok(line) => take_readable(text, front, line),
        Err(cause) => Err(OpeningFault::At {
            line: front.lines + 1,
            cause,
        }),
    }
}

// Takes a line that can be read.
fn take_readable(text: &mut Lines, front: Front, line: &str) -> Result<Front, OpeningFault>
    requires line { IsLine line.now }
    requires short { length line.now ≤ HEARD_LIMIT }
    requires room { HasLineRoom front text.old }
    requires wanted { IsOpeningUnfinished front.wanted }
    ensures { (lines : List (List ℕ)) → HoldsFront front lines text.old → CanBeRead (limit_behind lines) line.now → IsOpeningLineTaken result text.new lines line.now }
{
    let bytes = front.bytes + line.len() as u32 + 1;
    if OPENING_LIMIT < bytes {
        return Err(OpeningFault::TooManyBytes);
    }
    let counted = Front {
        lines: front.lines + 1,
        bytes,
        wanted: front.wanted,
    };
    match front.wanted {
        None => take_first(counted, line),
        Some(wanted) => take_other(text, counted, wanted, line),
    }
}

// Takes the first line, which is counted already.
fn take_first(counted: Front, line: &str) -> Result<Front, OpeningFault>
    ensures { (front : Front) (lines text : List (List ℕ)) → HoldsFront front lines text → front.wanted ≡ None → IsFrontCounted counted lines line.now → IsOpeningLineTaken result text lines line.now }
{
    match wanted_in(line.as_bytes()) {
        Some(wanted) => Ok(Front {
            lines: counted.lines,
            bytes: counted.bytes,
            wanted: Some(wanted),
        }),
        None => Err(OpeningFault::At {
            line: counted.lines,
            cause: Cause::NoServe,
        }),
    }
}

// Takes a later line, which is counted already, where this is wanted.
fn take_other(
    text: &mut Lines,
    counted: Front,
    wanted: Wanted,
    line: &str,
) -> Result<Front, OpeningFault>
    requires line { IsLine line.now }
    requires short { length line.now ≤ HEARD_LIMIT }
    requires some { 0 < wanted.missing }
    requires few { length text.old < 16777217 }
    ensures { (front : Front) (lines : List (List ℕ)) → HoldsFront front lines text.old → front.wanted ≡ Some wanted → counted.wanted ≡ Some wanted → IsFrontCounted counted lines line.now → IsOpeningLineTaken result text.new lines line.now }
{
    match wanted.kind {
        OpeningKind::Text => take_text(text, counted, wanted, line),
        OpeningKind::Saved => take_piece(text, counted, wanted, line),
    }
}

// Takes a later line of an opening text.
fn take_text(
    text: &mut Lines,
    counted: Front,
    wanted: Wanted,
    line: &str,
) -> Result<Front, OpeningFault>
    requires line { IsLine line.now }
    requires short { length line.now ≤ HEARD_LIMIT }
    requires text { wanted.kind ≡ kind.Text }
    requires some { 0 < wanted.missing }
    requires few { length text.old < 16777217 }
    ensures { (front : Front) (lines : List (List ℕ)) → HoldsFront front lines text.old → front.wanted ≡ Some wanted → counted.wanted ≡ Some wanted → IsFrontCounted counted lines line.now → IsOpeningLineTaken result text.new lines line.now }
{
    if is_text_line(line.as_bytes()) {
        return take_piece(text, counted, wanted, text_of(line));
    }
    if is_skipped(line.as_bytes()) {
        return Ok(counted);
    }
    Err(OpeningFault::At {
        line: counted.lines,
        cause: Cause::BadLine,
    })
}

// Takes the piece of the text that a later line tells, which is counted already.
fn take_piece(
    text: &mut Lines,
    counted: Front,
    wanted: Wanted,
    piece: &str,
) -> Result<Front, OpeningFault>
    requires line { IsLine piece.now }
    requires short { length piece.now ≤ HEARD_LIMIT }
    requires some { 0 < wanted.missing }
    requires few { length text.old < 16777217 }
    ensures { (front : Front) (lines : List (List ℕ)) (line : List ℕ) → HoldsFront front lines text.old → front.wanted ≡ Some wanted → IsFrontCounted counted lines line
        → told_in wanted.kind (line ∷ []) ≡ piece.now ∷ [] → MayFollow wanted.kind line → IsOpeningLineTaken result text.new lines line }
{
    match text.push(piece) {
        Ok(()) => Ok(Front {
            lines: counted.lines,
            bytes: counted.bytes,
            wanted: Some(Wanted {
                kind: wanted.kind,
                missing: wanted.missing - 1,
            }),
        }),
        Err(NoMemory) => Err(OpeningFault::NoMemory),
    }
}
