//! How many lines a text has, where all of them are good. None of them is told, so many bytes are looked at at once.
ghost use Rattle.std.specs.Prelude.{◌≡◌, ◌+◌, ◌^◌, ◌≤◌, ◌<◌, length, IfErr, IfOk, IfSome};
ghost use Rattle.std.specs.List.{count_by};
ghost use Rattle.knit_base.specs.Lines.{is_line_feed, lines_of};
ghost use Rattle.line_cutter.specs.Cut.{HasGoodLines, IsFirstBadBehind, IsNextRefused, StandBetween};

use crate::CutFault;
use crate::line::LINE_LIMIT;
use crate::places::line_at;
use memchr::memrchr;

/// How many lines the text has, before which so many lines stand. The first that isn't UTF-8 or has over 4,096 bytes is refused by its
/// number.
pub fn count_lines(text: &[u8], before: u32) -> Result<u32, CutFault>
    requires size { length text.now ≤ 16777216 }
    requires few { before + length text.now < 2 ^ 32 }
    ensures ok { IfOk result (HasGoodLines text.now) }
    ensures err { IfErr result (IsFirstBadBehind before (lines_of text.now)) }
{
    let mut count = 0;
    let mut start = 0;
    'counting: while start < text.len() {
        let (more, next) = lines_at(text, start, before + count + 1)?;
        count += more;
        start = next;
    }
    Ok(count)
}

// How many lines stand between `start`, where the line with this number begins, and a place further on.
fn lines_at(text: &[u8], start: usize, number: u32) -> Result<(u32, usize), CutFault>
    requires some { start < length text.now }
    requires size { length text.now ≤ 16777216 }
    ensures ok { IfOk result (λ found. StandBetween text.now start found.0 found.1) }
    ensures err { IfErr result (IsNextRefused text.now start number) }
{
    if let Some(found) = ascii_lines_at(text, start) {
        return Ok(found);
    }
    let (_, next) = line_at(text, start, number)?;
    Ok((1, next))
}

// The same of the whole lines among the next bytes, which are too few for a line that is too long. `None` where they aren't
// ASCII, or no line ends among them.
fn ascii_lines_at(text: &[u8], start: usize) -> Option<(u32, usize)>
    requires some { start < length text.now }
    requires size { length text.now ≤ 16777216 }
    ensures { IfSome result (λ found. StandBetween text.now start found.0 found.1) }
{
    let rest = &text[start..];
    let near = &rest[..rest.len().min(LINE_LIMIT)];
    let end = memrchr(b'\n', near)?;
    let lines = &near[..end];
    if !lines.is_ascii() {
        return None;
    }
    Some((line_feeds(lines) as u32 + 1, start + end + 1))
}

// Of so many bytes the lines are counted.
const NEAR: usize = 65_536;

/// How many lines a text is likely to have: of a long one as many for each byte as among its first bytes, and a sixteenth more. Nothing depends on it but room.
pub(crate) fn expected_lines(text: &[u8]) -> usize {
    let near = &text[..text.len().min(NEAR)];
    let count = line_feeds(near);
    if near.len() == text.len() {
        return count + 1;
    }
    let expected = count.saturating_mul(text.len() / NEAR + 1);
    expected.saturating_add(expected / 16)
}

// How many line feeds there are. They are counted in bytes, which takes many at a time: 32 of them, so that chunks are whole.
fn line_feeds(text: &[u8]) -> usize
    ensures few { result ≤ length text.now }
    ensures counted { result ≡ count_by is_line_feed text.now }
{
    let mut count = 0;
    for chunk in text.chunks(224) {
        count += usize::from(line_feeds_of_few(chunk));
    }
    count
}

fn line_feeds_of_few(bytes: &[u8]) -> u8
    requires { length bytes.now < 256 }
    ensures few { result ≤ length bytes.now }
    ensures counted { result ≡ count_by is_line_feed bytes.now }
{
    let mut count = 0;
    for byte in bytes {
        count += u8::from(*byte == b'\n');
    }
    count
}
