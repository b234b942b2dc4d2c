//! All lines of a text.
ghost use Rattle.std.specs.Prelude.{◌≡◌, ◌≤◌, length, All, IfOk, IfErr};
ghost use Rattle.knit_base.specs.Lines.{lines_of};
ghost use Rattle.line_cutter.specs.Cut.{AreCut, IsFirstBad, IsGoodLine};

use crate::CutFault;
use crate::counter::expected_lines;
use crate::line::next_line;
use knit_base::{Lines, Span};
use std::alloc::Global;

/// The lines of the bytes, which stay where they are, 16 MiB at most.
///
/// A line ends before a line feed, and one carriage return before it is dropped; an empty piece behind the last line feed is no line.
/// The refusal names the first line that isn't UTF-8 (`NotUtf8`) or else has over 4,096 bytes (`LineLong`). Memory is asked
/// for the places of the lines alone, and `NoMemory` may come with any bytes.
pub fn cut_buffer(alloc: Global, bytes: Vec<u8>) -> Result<Lines, CutFault>
    requires { length bytes.items ≤ 16777216 }
    ensures lines { IfOk result (λ lines. lines ≡ lines_of bytes.items) }
    ensures good { IfOk result (All IsGoodLine) }
    ensures fault { IfErr result (IsFirstBad (lines_of bytes.items)) }
{
    let spans = cut_spans(alloc, &bytes)?;
    Ok(Lines::in_buffer(bytes, spans))
}

// Where the lines of the text lie. Where all of it is ASCII, the bytes of the lines aren't looked at once more.
fn cut_spans(alloc: Global, text: &[u8]) -> Result<Vec<Span>, CutFault>
    requires { length text.now ≤ 16777216 }
    ensures ok { IfOk result (λ spans. AreCut text.now spans.items) }
    ensures err { IfErr result (IsFirstBad (lines_of text.now)) }
{
    let is_ascii = text.is_ascii();
    let mut spans = Vec::with_capacity(alloc, expected_lines(text))?;
    let mut next = 0;
    'cutting: while next < text.len() {
        let found = next_line(text, next, spans.len() as u32 + 1, is_ascii)?;
        spans.push(found.line)?;
        next = found.next;
    }
    Ok(spans)
}

/// The lines of a copy of the bytes, for callers that keep their own. Limits and refusals are those of `cut_buffer`; memory is
/// asked for the copy, too.
pub fn cut(alloc: Global, bytes: &[u8]) -> Result<Lines, CutFault>
    requires { length bytes.now ≤ 16777216 }
    ensures lines { IfOk result (λ lines. lines ≡ lines_of bytes.now) }
    ensures good { IfOk result (All IsGoodLine) }
    ensures fault { IfErr result (IsFirstBad (lines_of bytes.now)) }
{
    let mut copy = Vec::with_capacity(alloc, bytes.len())?;
    copy.extend_from_slice(bytes)?;
    cut_buffer(alloc, copy)
}
