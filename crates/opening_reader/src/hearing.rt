//! The lines of an opening, as they are heard.
ghost use Rattle.std.specs.Prelude.{◌≡◌, ◌≤◌, [], All, IfOk, List, ℕ, length};
ghost use Rattle.knit_base.specs.Lines.{HasNoLineEnd, IsLine};
ghost use Rattle.knit_ports.specs.Ears.{kept_front};
ghost use Rattle.knit_ports.specs.Pieces.{PiecesGoOn, Piece};
ghost use Rattle.knit_ports.specs.declared.limit.TheConstants.{HEARD_LIMIT};
ghost use Rattle.opening_reader.specs.Fronts.{HasLineRoom, HoldsFront, IsFinished, IsOpeningUnfinished};
ghost use Rattle.opening_reader.specs.HeardOpenings.{EndsOpening, OpeningCause};

use crate::front::{Front, OPENING_LIMIT, take, unfinished, whole_kind};
use crate::opening::{OpeningFault, OpeningText};
use knit_base::Lines;
use knit_ports::{Ear, LineEnd, Talk};
use std::alloc::Global;

/// Hears the opening of a conversation. The ear keeps what was heard behind its last line. A last line that has no line feed counts as a
/// line, and nothing is heard behind it.
///
/// Where a call fails, what was heard of a line is let go.
pub fn hear_opening<T: Talk>(
    alloc: Global,
    talk: &mut T,
    ear: &mut Ear,
) -> Result<OpeningText, OpeningFault>
    requires fresh { ear.old.pending ≡ [] }
    ensures heard { (pieces : List Piece) × PiecesGoOn (T.told talk.old) (T.told talk.new) pieces × EndsOpening pieces ear.new.pending result }
    ensures texts { IfOk result (λ opening. All IsLine opening.text) }
    ensures short { IfOk result (λ opening. All (λ line. length line ≤ HEARD_LIMIT) opening.text) }
    ensures few { IfOk result (λ opening. length opening.text ≤ 16777216) }
    ensures cause { OpeningCause (T.faults talk.old) (T.faults talk.new) result }
{
    let mut text = Lines::new(alloc);
    let mut front = Front {
        lines: 0,
        bytes: 0,
        wanted: None,
    };
    // `i` lines were heard, each of which has a byte at least.
    'hearing: for i in 0..OPENING_LIMIT + 1 {
        let end = match ear.hear(talk) {
            Ok(end) => end,
            Err(_) => return Err(OpeningFault::Failed),
        };
        match end {
            LineEnd::LineFeed => {}
            _ => return finish(text, front, ear.line()),
        }
        front = match take(&mut text, front, ear.line()) {
            Ok(front) => front,
            Err(fault) => return Err(fault),
        };
        if let Some(kind) = whole_kind(front) {
            return Ok(OpeningText {
                kind,
                text,
                lines: front.lines,
            });
        }
    }
    unreachable!()
}

// What is told where the input ends behind this line, which has no line feed, or is empty.
fn finish(text: Lines, front: Front, line: &[u8]) -> Result<OpeningText, OpeningFault>
    requires one { HasNoLineEnd line.now }
    requires room { HasLineRoom front text }
    requires wanted { IsOpeningUnfinished front.wanted }
    ensures { (lines : List (List ℕ)) (last : List ℕ) → HoldsFront front lines text → line.now ≡ kept_front last → IsFinished result lines last }
{
    let number = front.lines + 1;
    if line.is_empty() {
        return Err(unfinished(number, front));
    }
    let mut text = text;
    let front = match take(&mut text, front, line) {
        Ok(front) => front,
        Err(fault) => return Err(fault),
    };
    if let Some(kind) = whole_kind(front) {
        return Ok(OpeningText {
            kind,
            text,
            lines: front.lines,
        });
    }
    Err(unfinished(number + 1, front))
}
