//! Lines that are copied: their spelling is seen to be canonical without reading them.
ghost use Rattle.std.specs.Prelude.{◌≡◌, ◌<◌, ◌≤◌, length, take, slice_index, All, IfSome, IsTrue};
ghost use Rattle.knitout_writer.specs.Written.{AreSpacedNames, BeginsWithCopy, IsCopiedLine, IsCopiedNameByte, IsPlainByte};

use knitout_reader::is_shortest_spelling;

// A line that is copied is at least so long, as `xfer f0 b0` is.
const SHORTEST: usize = 10;

// And at most so long, which leaves room for the names of a few carriers.
const LONGEST: usize = 32;

// The least and the greatest place of the space before the carriers, as in `knit + f0 1` and `knit + f100 1`.
const FIRST_SPACE: usize = 9;

const LAST_SPACE: usize = 11;

/// How many bytes the first line takes with its line feed, if it is one that is copied.
#[inline(always)]
pub(crate) fn copied_len(text: &[u8]) -> Option<usize>
    ensures { IfSome result (λ len. BeginsWithCopy text.now len) }
{
    let len = first_feed(text)?;
    let line = &text[..len];
    if is_copied(line) {
        return Some(len + 1);
    }
    None
}

// Where a line feed stands that may end a line that is copied.
#[inline(always)]
fn first_feed(text: &[u8]) -> Option<usize>
    ensures { IfSome result (λ at. (at < length text.now) × (10 ≤ at) × (at ≤ 32) × (slice_index text.now at ≡ 10)) }
{
    for at in SHORTEST..LONGEST + 1 {
        if at < text.len() && text[at] == b'\n' {
            return Some(at);
        }
    }
    None
}

// Most lines have one carrier whose name is one byte.
#[inline(always)]
fn is_copied(line: &[u8]) -> bool
    requires { 10 ≤ length line.now }
    ensures { IsTrue result → IsCopiedLine line.now }
{
    if is_plain(line[line.len() - 1]) && is_shortest_spelling(line) {
        return true;
    }
    has_names(line)
}

// Whether the byte is ASCII and ends no line. A carriage return before a line feed would be dropped.
#[inline(always)]
fn is_plain(byte: u8) -> bool
    ensures { IsTrue result → IsPlainByte byte }
{
    byte < 128 && byte != b'\n' && byte != b'\r'
}

// Whether the line is a `knit` or a `tuck` with several carriers, or with a longer name: what stands before the names and the
// first byte of them is spelt as a whole line is.
fn has_names(line: &[u8]) -> bool
    requires { 10 ≤ length line.now }
    ensures { IsTrue result → IsCopiedLine line.now }
{
    let Some(at) = first_name(line) else {
        return false;
    };
    if line[0] == b'x' || !is_shortest_spelling(&line[..at + 1]) {
        return false;
    }
    are_names(&line[at..])
}

// Where the names of the carriers begin.
#[inline(always)]
fn first_name(line: &[u8]) -> Option<usize>
    ensures { IfSome result (λ at. (10 ≤ at) × (at < length line.now)) }
{
    for space in FIRST_SPACE..LAST_SPACE + 1 {
        if space + 1 < line.len() && line[space] == b' ' {
            return Some(space + 1);
        }
    }
    None
}

// Whether these are names with one space between two.
fn are_names(text: &[u8]) -> bool
    ensures { IsTrue result → AreSpacedNames text.now }
{
    let mut rest = text;
    while let Some(others) = behind_name(rest) {
        rest = others;
    }
    is_name(rest)
}

// What stands behind a name and a space.
#[inline(always)]
fn behind_name<'a>(text: &'a [u8]) -> Option<&'a [u8]>
    ensures { IfSome result (λ rest. (length rest.now < length text.now) × (AreSpacedNames rest.now → AreSpacedNames text.now)) }
{
    let len = name_len(text);
    if len == 0 {
        return None;
    }
    if len < text.len() && text[len] == b' ' {
        return Some(&text[len + 1..]);
    }
    None
}

#[inline(always)]
fn is_name(text: &[u8]) -> bool
    ensures { IsTrue result → AreSpacedNames text.now }
{
    let len = name_len(text);
    if len == 0 {
        return false;
    }
    len == text.len()
}

// How many bytes of a name the text begins with.
#[inline(always)]
fn name_len(text: &[u8]) -> usize
    ensures within { result ≤ length text.now }
    ensures name { All IsCopiedNameByte (take result text.now) }
{
    let mut len = 0;
    while len < text.len() && is_name_byte(text[len]) {
        len += 1;
    }
    len
}

#[inline(always)]
fn is_name_byte(byte: u8) -> bool
    ensures { IsTrue result → IsCopiedNameByte byte }
{
    b' ' < byte && byte < 128 && byte != b';'
}
