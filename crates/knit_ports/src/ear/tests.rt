//! Lines that are heard in pieces.
ghost use Rattle.std.specs.Prelude.{◌≤◌};

use super::{Ear, LineEnd};
use crate::{Failed, MemoryTalk};
use knit_base::NoMemory;
use std::alloc::Global;

// A conversation in which the text is heard in pieces of so many bytes, and the call with this number fails.
fn talk_of(alloc: Global, text: &[u8], gives: u32, fails: u32) -> Result<MemoryTalk, NoMemory>
    requires { 1 ≤ gives }
{
    let text = Vec::from_slice(alloc, text)?;
    let failing = vec![in alloc; fails]?;
    Ok(MemoryTalk::of(alloc, text, gives, 1, failing))
}

// Hears a line, and puts it behind the others: with a slash where it has its line feed, and with a dot where the input ends it.
// Whether it has its line feed.
fn add_line(ear: &mut Ear, talk: &mut MemoryTalk, lines: &mut Vec<u8>) -> Result<bool, NoMemory> {
    let end = ear.hear(talk);
    lines.extend_from_slice(ear.line())?;
    lines.push(mark(end))?;
    Ok(end == Ok(LineEnd::LineFeed))
}

fn mark(end: Result<LineEnd, Failed>) -> u8 {
    match end {
        Ok(LineEnd::LineFeed) => b'/',
        Ok(LineEnd::InputEnd) => b'.',
        Ok(LineEnd::Endless) => b'~',
        Err(Failed) => b'!',
    }
}

// Hears lines, eight at most.
fn add_lines(ear: &mut Ear, talk: &mut MemoryTalk, lines: &mut Vec<u8>) -> Result<(), NoMemory> {
    for _ in 0..8 {
        if !add_line(ear, talk, lines)? {
            break;
        }
    }
    Ok(())
}

// Whether the text has these lines where it is heard in pieces of so many bytes.
fn has_lines(alloc: Global, text: &str, gives: u32, lines: &str) -> Result<bool, NoMemory>
    requires { 1 ≤ gives }
{
    let mut talk = talk_of(alloc, text.as_bytes(), gives, 0)?;
    let mut ear = Ear::new(alloc)?;
    let mut all = Vec::new(alloc);
    add_lines(&mut ear, &mut talk, &mut all)?;
    Ok(is(&all, lines))
}

fn is(bytes: &[u8], text: &str) -> bool {
    bytes == text.as_bytes()
}

// So many bytes `k`, these, and a line feed.
fn line_of(alloc: Global, count: usize, last: &str) -> Result<Vec<u8>, NoMemory> {
    let mut text = vec![in alloc; b'k'; count]?;
    text.extend_from_slice(last.as_bytes())?;
    text.push(b'\n')?;
    Ok(text)
}

// Whether of such a line so many bytes are kept, the last of which is this one.
fn keeps(alloc: Global, count: usize, last: &str, len: usize, byte: u8) -> Result<bool, NoMemory> {
    let text = line_of(alloc, count, last)?;
    let mut talk = talk_of(alloc, &text, 1_000, 0)?;
    let mut ear = Ear::new(alloc)?;
    let is_whole = ear.hear(&mut talk) == Ok(LineEnd::LineFeed);
    Ok(is_whole && ear.line().len() == len && ear.line().last() == Some(&byte))
}

#[test]
fn a_text_has_its_lines_however_it_comes(rt: HostRuntime) -> Result<(), NoMemory> {
    for gives in [1, 2, 3, 7] {
        assert!(rt; has_lines(rt.alloc(), "ab\ncdef\r\n\ng", gives, "ab/cdef\r//g.")?);
    }
    Ok(())
}

#[test]
fn the_last_line_is_empty_behind_a_feed(rt: HostRuntime) -> Result<(), NoMemory> {
    assert!(rt; has_lines(rt.alloc(), "ab\n\n", 3, "ab//.")?);
    assert!(rt; has_lines(rt.alloc(), "", 3, ".")?);
    Ok(())
}

#[test]
fn a_long_line_is_told_from_a_good_one(rt: HostRuntime) -> Result<(), NoMemory> {
    assert!(rt; keeps(rt.alloc(), 8_192, "", 8_192, b'k')?);
    assert!(rt; keeps(rt.alloc(), 8_192, "\r", 8_193, b'\r')?);
    assert!(rt; keeps(rt.alloc(), 8_193, "", 8_193, b'k')?);
    assert!(rt; keeps(rt.alloc(), 8_192, "\rk and more of it", 8_194, b'k')?);
    Ok(())
}

// Whether the next line is this one, and so many pieces were heard with it.
fn hears(ear: &mut Ear, talk: &mut MemoryTalk, line: &str, pieces: usize) -> bool {
    let is_heard = ear.hear(talk).is_ok();
    is_heard && is(ear.line(), line) && talk.pieces().len() == pieces
}

#[test]
fn no_more_is_heard_while_a_line_is_pending(rt: HostRuntime) -> Result<(), NoMemory> {
    let mut talk = talk_of(rt.alloc(), b"ab\ncd\ne", 6, 0)?;
    let mut ear = Ear::new(rt.alloc())?;
    assert!(rt; hears(&mut ear, &mut talk, "ab", 1));
    assert!(rt; hears(&mut ear, &mut talk, "cd", 1));
    assert!(rt; hears(&mut ear, &mut talk, "e", 3));
    Ok(())
}

#[test]
fn a_line_begins_behind_a_call_that_failed(rt: HostRuntime) -> Result<(), NoMemory> {
    let mut talk = talk_of(rt.alloc(), b"abc\n", 2, 2)?;
    let mut ear = Ear::new(rt.alloc())?;
    assert!(rt; ear.hear(&mut talk) == Err(Failed));
    assert!(rt; hears(&mut ear, &mut talk, "c", 2));
    Ok(())
}
