//! The text lines of a text.
ghost use Rattle.std.specs.Prelude.{◌≡◌, ◌≢◌, get_or, ◌<◌, ◌≤◌, [], All, length, map, slice_range, IfOk};
ghost use Rattle.script_reader.specs.Places.{IsAtSaid, Say};
ghost use Rattle.script_reader.specs.Reading.{IsAtHeading, IsPassed, IsTextLine};
ghost use Rattle.script_reader.specs.Statements.{Text};

use crate::line::{is_skipped, is_text_line, text_of};
use knit_base::{Lines, NoMemory};
use knitout_reader::nth_line;
use std::alloc::Global;

/// The texts of the text lines from here on, and the place of the first line behind them that isn't skipped.
pub(crate) fn read_text(alloc: Global, lines: &Lines, start: u32) -> Result<(Lines, u32), NoMemory>
    requires start { start ≤ length lines.now }
    ensures says { IfOk result (λ read. Say lines.now start read.1 (map Text read.0)) }
    ensures heading { IfOk result (λ read. IsAtHeading lines.now read.1) }
{
    // The first run of text lines is copied at once, and lines behind a skipped one are copied one by one.
    let end = run_end(lines, start);
    let mut text = Lines::range_without_first(alloc, lines, start, end)?;
    for i in end..lines.len() {
        let line = nth_line(lines, i);
        if is_text_line(line.as_bytes()) {
            text.push(text_of(line))?;
        } else if !is_skipped(line.as_bytes()) {
            return Ok((text, i));
        }
    }
    Ok((text, lines.len()))
}

// Where the run of text lines ends that begins here: most texts are one run.
fn run_end(lines: &Lines, start: u32) -> u32
    requires { start ≤ length lines.now }
    ensures within { (start ≤ result) × (result ≤ length lines.now) }
    ensures texts { All IsTextLine (slice_range lines.now start result) }
{
    for i in start..lines.len() {
        if !is_text_line(nth_line(lines, i).as_bytes()) {
            return i;
        }
    }
    lines.len()
}

/// The place of the first line from this place on that isn't skipped.
pub(crate) fn next_said(lines: &Lines, start: u32) -> u32
    requires { start ≤ length lines.now }
    ensures passed { IsPassed lines.now start result }
    ensures said { IsAtSaid lines.now result }
    ensures stays { IsAtSaid lines.now start → result ≡ start }
{
    for i in start..lines.len() {
        if !is_skipped(nth_line(lines, i).as_bytes()) {
            return i;
        }
    }
    lines.len()
}
