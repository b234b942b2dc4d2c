//! The made program as the bytes of a file.
ghost use Rattle.std.specs.Prelude.{◌≡◌, ◌<◌, ◌≤◌, ◌++◌, length, IfOk, OnOk};
ghost use Rattle.knit_maker.specs.Made.{line_with_end, file_of, made_lines, rows_after};

use crate::Stitch;
use crate::course::{course_of, transfers_of};
use crate::program::{append, drawn_after, nth_line, picked, push_opening};
use knit_base::{Lines, NoMemory};
use std::alloc::Global;

// How many bytes the line of a transfer has at most, with its line feed.
const TRANSFER_LEN: usize = 13;

/// The bytes of a file with the lines that `make` gives, each with a line feed. A round is spelt once and then copied whole. Fails
/// where memory runs out.
pub fn make_text(alloc: Global, rows: u32, start: u32) -> Result<Vec<u8>, NoMemory>
    requires rows { rows ≤ 20000 }
    requires start { start < 2147483648 }
    ensures { IfOk result (λ text. text.items ≡ file_of (made_lines rows start)) }
{
    let width = 4 + start % 13;
    let mut lines = Lines::new(alloc);
    push_opening(&mut lines)?;
    append(&course_of(alloc, Stitch::Tuck, width)?, &mut lines)?;
    let mut text = text_of(alloc, &lines)?;
    append_rows(alloc, width, start, rows, &mut text)?;
    text.extend_from_slice(b"out 1\n")?;
    Ok(text)
}

// The bytes of a file with these lines.
fn text_of(alloc: Global, lines: &Lines) -> Result<Vec<u8>, NoMemory>
    ensures { IfOk result (λ text. text.items ≡ file_of lines.now) }
{
    let mut text = Vec::new(alloc);
    for i in 0..lines.len() {
        append_line(nth_line(lines, i), &mut text)?;
    }
    Ok(text)
}

// Appends a line and its line feed.
fn append_line(line: &str, text: &mut Vec<u8>) -> Result<(), NoMemory>
    ensures { OnOk result (text.new.items ≡ text.old.items ++ line_with_end line.now) }
{
    text.extend_from_slice(line.as_bytes())?;
    text.push(b'\n')?;
    Ok(())
}

// Appends the bytes of so many rows, where `start` was the last number drawn before them.
fn append_rows(
    alloc: Global,
    width: u32,
    start: u32,
    rows: u32,
    text: &mut Vec<u8>,
) -> Result<(), NoMemory>
    requires width { width ≤ 16 }
    requires some { 4 ≤ width }
    requires start { start < 2147483648 }
    ensures { OnOk result (text.new.items ≡ text.old.items ++ file_of (rows_after width start rows)) }
{
    let round = text_of(alloc, &course_of(alloc, Stitch::Knit, width)?)?;
    let transfers = transfers_of(alloc, width)?;
    text.reserve((rows as usize).saturating_mul(round.len().saturating_add(TRANSFER_LEN)))?;
    let mut drawn = start;
    for row in 0..rows {
        drawn = drawn_after(drawn);
        text.extend_from_slice(&round)?;
        append_line(nth_line(&transfers, picked(width, drawn) - 1), text)?;
    }
    Ok(())
}
