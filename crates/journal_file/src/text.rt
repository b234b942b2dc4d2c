//! Text lines, one after the other.
ghost use Rattle.std.specs.Prelude.{◌≡◌, ℕ, List, ◌++◌, ◌+◌, ◌≤◌, length, MatchOption, IfOk, IfErr};
ghost use Rattle.journal_file.specs.Lines.{IsBarredLine};
ghost use Rattle.journal_file.specs.Reading.{FormHasRead, IsFault, IsFirstLineTaken, NoneTaken, byte_limit};
ghost use Rattle.journal_file.specs.Texts.{TextLinesForm};
ghost use Rattle.journal_file.specs.declared.fault.JournalCause.TheVariants as causes;
ghost use Rattle.journal_file.specs.declared.fault.JournalFault.TheVariants as refused;

use crate::scan::{next_line, text_of};
use crate::{JournalCause, JournalFault};
use knit_base::{BlockText, Lines};
use std::alloc::Global;

/// How far the reading has come: what is left of the bytes, and how many lines stand before it.
#[derive(Clone, Copy)]
pub(crate) struct Place<'a> {
    pub rest: &'a [u8],
    pub taken: u32,
}

impl<'a> Place<'a> {
    /// The refusal of the next line.
    pub fn bad(&self) -> JournalFault
        requires { self.now.taken + length self.now.rest.now ≤ byte_limit }
        ensures { result ≡ refused.At (self.now.taken + 1) causes.BadLine }
    {
        self.refused(JournalCause::BadLine)
    }

    /// The same for this cause.
    pub fn refused(&self, cause: JournalCause) -> JournalFault
        requires { self.now.taken + length self.now.rest.now ≤ byte_limit }
        ensures { result ≡ refused.At (self.now.taken + 1) cause }
    {
        JournalFault::At {
            line: self.taken + 1,
            cause,
        }
    }
}

/// The text of the next line, if there is one and it is a text line, and the place behind it.
pub(crate) fn take_text<'a>(at: Place<'a>) -> Option<(&'a str, Place<'a>)>
    requires { at.taken + length at.rest.now ≤ byte_limit }
    ensures text { MatchOption result (NoneTaken IsBarredLine at.entry.rest.now) (λ found. IsFirstLineTaken IsBarredLine at.entry.rest.now found.0.now found.1.rest.now) }
    ensures count { MatchOption result (Unit {0}) (λ found. found.1.taken ≡ at.entry.taken + 1) }
    ensures size { MatchOption result (Unit {0}) (λ found. found.1.taken + length found.1.rest.now ≤ byte_limit) }
{
    match next_line(at.rest) {
        Some((line, rest)) => match text_of(line) {
            Some(text) => Some((
                text,
                Place {
                    rest,
                    taken: at.taken + 1,
                },
            )),
            None => None,
        },
        None => None,
    }
}

/// Appends the texts of so many text lines, and gives the place behind them.
pub(crate) fn read_text<'a>(
    start: Place<'a>,
    many: u32,
    texts: &mut Lines,
) -> Result<Place<'a>, JournalFault>
    requires size { start.taken + length start.rest.now ≤ byte_limit }
    requires few { length texts.old + many ≤ 16777217 }
    ensures read { IfOk result (λ at. (said : List (List ℕ)) × (texts.new ≡ texts.old ++ said) × FormHasRead (TextLinesForm many) start.entry.rest.now start.entry.taken said at.rest.now at.taken) }
    ensures size { IfOk result (λ at. at.taken + length at.rest.now ≤ byte_limit) }
    ensures len { IfOk result (λ at. length texts.new ≡ length texts.old + many) }
    ensures fault { IfErr result (IsFault (TextLinesForm many) start.entry.rest.now start.entry.taken) }
{
    let mut at = start;
    for i in 0..many {
        match take_text(at) {
            Some((text, next)) => {
                texts.push(text)?;
                at = next;
            }
            None => {
                return Err(JournalFault::At {
                    line: at.taken + 1,
                    cause: JournalCause::BadLine,
                });
            }
        }
    }
    Ok(at)
}

/// The text of so many text lines, and the place behind them.
pub(crate) fn read_block_text<'a>(
    alloc: Global,
    start: Place<'a>,
    many: u32,
) -> Result<(BlockText, Place<'a>), JournalFault>
    requires size { start.taken + length start.rest.now ≤ byte_limit }
    requires few { many ≤ 16777217 }
    ensures read { IfOk result (λ found. FormHasRead (TextLinesForm many) start.entry.rest.now start.entry.taken found.0 found.1.rest.now found.1.taken) }
    ensures size { IfOk result (λ found. found.1.taken + length found.1.rest.now ≤ byte_limit) }
    ensures len { IfOk result (λ found. length found.0 ≡ many) }
    ensures fault { IfErr result (IsFault (TextLinesForm many) start.entry.rest.now start.entry.taken) }
{
    let mut lines = Lines::new(alloc);
    match read_text(start, many, &mut lines) {
        Ok(at) => {
            let lines = lines.into_shared()?;
            let count = lines.len();
            let text = BlockText::of(alloc, &lines, 0, count)?;
            Ok((text, at))
        }
        Err(fault) => Err(fault),
    }
}
