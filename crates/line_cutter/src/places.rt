//! Lines of a text that are found one by one, and not kept: most callers look at a line once.
ghost use Rattle.std.specs.Prelude.{◌≤◌, ◌<◌, length, IfErr, IfOk};
ghost use Rattle.knit_base.specs.Lines.{HasNoLineEnd};
ghost use Rattle.line_cutter.specs.Cut.{IsNextRefused, GoodLineStandsAt};

use crate::CutFault;
use crate::line::next_line;

/// The line that begins at `start`, which is the one with this number, and where the next one begins, which is past the end of the text
/// behind the last one. A line that isn't UTF-8 or has over 4,096 bytes is refused by its number.
pub fn line_at<'a>(text: &'a [u8], start: usize, number: u32) -> Result<(&'a str, usize), CutFault>
    requires some { start < length text.now }
    requires size { length text.now ≤ 16777216 }
    ensures ok { IfOk result (λ found. GoodLineStandsAt text.now start found.0.now found.1) }
    ensures one { IfOk result (λ found. HasNoLineEnd found.0.now) }
    ensures err { IfErr result (IsNextRefused text.now start number) }
{
    let found = next_line(text, start, number, false)?;
    let line = &text[found.line.start as usize..found.line.end as usize];
    // SAFETY: the line is UTF-8, which the check proves here.
    Ok((unsafe { str::from_utf8_unchecked(line) }, found.next))
}
