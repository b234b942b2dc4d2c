//! One line of a text.
ghost use Rattle.std.specs.Prelude.{◌≡◌, ◌≤◌, ◌<◌, ◌^◌, IsTrue, length, take, IfOk, IfErr, OnOk};
ghost use Rattle.std.specs.List.{position_or_len};
ghost use Rattle.std.specs.Str.{IsAscii, is_utf8};
ghost use Rattle.knit_base.specs.Lines.{is_line_feed, without_return};
ghost use Rattle.line_cutter.specs.Cut.{IsGoodLine, IsNextLine, IsLineRefused, IsNextRefused};

use crate::CutFault;
use knit_base::Span;
use memchr::memchr_iter;

/// The greatest number of bytes of a line, without its end.
pub const LINE_LIMIT: usize = 4_096;

/// A line and where the next one begins.
#[derive(Clone, Copy, Debug, PartialEq, Eq)]
pub struct Found {
    pub line: Span,
    pub next: usize,
}

/// The line that begins at `start`, which is the one with this number. Where the whole text is known to be ASCII, the bytes of
/// the line aren't looked at once more.
#[inline(always)]
pub fn next_line(text: &[u8], start: usize, number: u32, is_ascii: bool) -> Result<Found, CutFault>
    requires some { start < length text.now }
    requires size { length text.now ≤ 16777216 }
    requires ascii { IsTrue is_ascii → IsAscii text.now }
    ensures ok { IfOk result (IsNextLine text.now start) }
    ensures err { IfErr result (IsNextRefused text.now start number) }
{
    let rest = &text[start..];
    let piece = &rest[..piece_len(rest)];
    let line = &piece[..line_len(piece)];
    check_line(line, number, is_ascii)?;
    Ok(Found {
        line: Span {
            start: start as u32,
            end: (start + line.len()) as u32,
        },
        next: start + piece.len() + 1,
    })
}

// How many bytes stand before the first line feed: all, where there is none. Most often it is near, which the iterator tries first.
#[inline(never)]
fn piece_len(rest: &[u8]) -> usize
    ensures within { result ≤ length rest.now }
    ensures first { result ≡ position_or_len is_line_feed rest.now }
{
    match memchr_iter(b'\n', rest).next() {
        Some(len) => len,
        None => rest.len(),
    }
}

/// A line without a carriage return at its end, if it has one.
pub fn without_return(line: &[u8]) -> &[u8]
    ensures { result.now ≡ without_return line.now }
{
    &line[..line_len(line)]
}

// How many bytes of the piece are the line: one carriage return at the end is no part of it.
#[inline(always)]
fn line_len(piece: &[u8]) -> usize
    ensures within { result ≤ length piece.now }
    ensures line { take result piece.now ≡ without_return piece.now }
{
    let len = piece.len();
    if len > 0 && piece[len - 1] == b'\r' {
        len - 1
    } else {
        len
    }
}

// A line is UTF-8 before it is too long.
#[inline(always)]
fn check_line(line: &[u8], number: u32, is_ascii: bool) -> Result<(), CutFault>
    requires { IsTrue is_ascii → IsAscii line.now }
    ensures ok { OnOk result (IsGoodLine line.now) }
    ensures err { IfErr result (IsLineRefused line.now number) }
{
    if !is_text(line, is_ascii) {
        return Err(CutFault::NotUtf8 { line: number });
    }
    if line.len() > LINE_LIMIT {
        return Err(CutFault::LineLong { line: number });
    }
    Ok(())
}

// Most lines are ASCII, which is known, or seen at once.
#[inline(always)]
fn is_text(line: &[u8], is_ascii: bool) -> bool
    requires { IsTrue is_ascii → IsAscii line.now }
    ensures { result ≡ is_utf8 line.now }
{
    if is_ascii {
        return true;
    }
    line.is_ascii() || str::from_utf8(line).is_ok()
}
