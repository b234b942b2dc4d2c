//! Openings that are heard in pieces.
ghost use Rattle.std.specs.Prelude.{◌≤◌};

use crate::{OpeningFault, OpeningKind, OpeningText, bytes_of, hear_opening};
use knit_base::NoMemory;
use knit_ports::{Ear, MemoryTalk};
use script_reader::Cause;
use std::alloc::Global;

// A conversation in which the text is heard in pieces of so many bytes, and the call with this number fails.
fn talk_of(alloc: Global, text: &[u8], gives: u32, fails: u32) -> Result<MemoryTalk, NoMemory>
    requires { 1 ≤ gives }
{
    let text = Vec::from_slice(alloc, text)?;
    let failing = vec![in alloc; fails]?;
    Ok(MemoryTalk::of(alloc, text, gives, 1, failing))
}

// Whether the opening that is told has this kind, so many lines, and this text.
fn has(
    alloc: Global,
    opening: &OpeningText,
    kind: OpeningKind,
    lines: u32,
    text: &[u8],
) -> Result<bool, NoMemory> {
    let told = bytes_of(alloc, &opening.text)?;
    Ok(opening.kind == kind && opening.lines == lines && told.as_slice() == text)
}

// Whether an opening of this kind is told for the input, with so many lines and this text, and the ear then tells this line.
fn is_opened(
    alloc: Global,
    input: &[u8],
    gives: u32,
    kind: OpeningKind,
    lines: u32,
    text: &[u8],
    next: &[u8],
) -> Result<bool, NoMemory>
    requires { 1 ≤ gives }
{
    let mut talk = talk_of(alloc, input, gives, 0)?;
    let mut ear = Ear::new(alloc)?;
    let Ok(opening) = hear_opening(alloc, &mut talk, &mut ear) else {
        return Ok(false);
    };
    let is_next = ear.hear(&mut talk).is_ok() && ear.line() == next;
    let is_told = has(alloc, &opening, kind, lines, text)?;
    Ok(is_next && is_told)
}

// Whether this is told for the text, where the call with this number fails.
fn tells(alloc: Global, text: &[u8], fails: u32, told: OpeningFault) -> Result<bool, NoMemory> {
    let mut talk = talk_of(alloc, text, 65_536, fails)?;
    let mut ear = Ear::new(alloc)?;
    match hear_opening(alloc, &mut talk, &mut ear) {
        Ok(_) => Ok(false),
        Err(fault) => Ok(fault == told),
    }
}

// Whether a line is refused that has this number, for this cause.
fn is_refused(alloc: Global, text: &[u8], line: u32, cause: Cause) -> Result<bool, NoMemory> {
    tells(alloc, text, 0, OpeningFault::At { line, cause })
}

// A first line that asks for a text line, and behind it so many lines that are passed over, of so many bytes with their feeds.
fn skipped(alloc: Global, lines: u32, bytes: usize) -> Result<Vec<u8>, NoMemory> {
    let mut text = Vec::from_slice(alloc, b"serve 1 lines 1")?;
    let mut line = Vec::from_slice(alloc, b"\n")?;
    line.resize(bytes, b'#')?;
    for _ in 0..lines {
        text.extend_from_slice(&line)?;
    }
    text.push(b'\n')?;
    Ok(text)
}

// A line of so many bytes, with its feed.
fn line_of(alloc: Global, bytes: usize) -> Result<Vec<u8>, NoMemory> {
    let mut line = Vec::new(alloc);
    line.resize(bytes, b'a')?;
    line.push(b'\n')?;
    Ok(line)
}

// A first line that asks for a saved text of one line, and this line.
fn saved_of(alloc: Global, line: &[u8]) -> Result<Vec<u8>, NoMemory> {
    let mut input = Vec::from_slice(alloc, b"serve 1 journal 1\n")?;
    input.extend_from_slice(line)?;
    Ok(input)
}

#[test]
fn an_opening_is_told_however_it_comes(rt: HostRuntime) -> Result<(), NoMemory> {
    for gives in [1, 7, 1_000] {
        assert!(rt;
            is_opened(
                rt.alloc(),
                b"serve 1 lines 2\n#\n|a\r\n \n|\nverdict\n",
                gives,
                OpeningKind::Text,
                5,
                b"a\n\n",
                b"verdict"
            )?
        );
    }
    Ok(())
}

#[test]
fn a_saved_text_is_told_as_it_stands(rt: HostRuntime) -> Result<(), NoMemory> {
    for gives in [1, 7, 1_000] {
        assert!(rt;
            is_opened(
                rt.alloc(),
                b"serve 1 journal 4\nhead 1\n|a\r\n\n# b\nverdict\n",
                gives,
                OpeningKind::Saved,
                5,
                b"head 1\n|a\n\n# b\n",
                b"verdict"
            )?
        );
    }
    Ok(())
}

#[test]
fn a_saved_text_of_no_lines_is_whole_at_once(rt: HostRuntime) -> Result<(), NoMemory> {
    assert!(rt;
        is_opened(
            rt.alloc(),
            b"serve 1 journal 0\n|a\n",
            3,
            OpeningKind::Saved,
            1,
            b"",
            b"|a"
        )?
    );
    Ok(())
}

#[test]
fn a_line_of_a_saved_text_may_be_longer(rt: HostRuntime) -> Result<(), NoMemory> {
    for bytes in [4_097, 8_192] {
        let line = line_of(rt.alloc(), bytes)?;
        let input = saved_of(rt.alloc(), &line)?;
        assert!(rt; is_opened(rt.alloc(), &input, 1_000, OpeningKind::Saved, 2, &line, b"")?);
    }
    Ok(())
}

#[test]
fn a_last_line_needs_no_feed(rt: HostRuntime) -> Result<(), NoMemory> {
    assert!(rt;
        is_opened(
            rt.alloc(),
            b"serve 1 lines 2\n|a\n|",
            3,
            OpeningKind::Text,
            3,
            b"a\n\n",
            b""
        )?
    );
    Ok(())
}

#[test]
fn a_line_that_cannot_stand_there_is_told(rt: HostRuntime) -> Result<(), NoMemory> {
    assert!(rt; is_refused(rt.alloc(), b"serve 1 blocks 2\n", 1, Cause::NoServe)?);
    assert!(rt;
        is_refused(
            rt.alloc(),
            b"serve 1 lines 2\n#\nverdict\n",
            3,
            Cause::BadLine
        )?
    );
    assert!(rt; is_refused(rt.alloc(), b"serve 1 lines 2\n|\xff\n", 2, Cause::NotUtf8)?);
    assert!(rt; is_refused(rt.alloc(), b"serve 1 journal 1\n\xff\n", 2, Cause::NotUtf8)?);
    Ok(())
}

#[test]
fn an_end_before_the_last_line_is_told(rt: HostRuntime) -> Result<(), NoMemory> {
    assert!(rt; is_refused(rt.alloc(), b"", 1, Cause::NoServe)?);
    assert!(rt; is_refused(rt.alloc(), b"serve 1 lines 2\n|a\n", 3, Cause::BadLine)?);
    assert!(rt; is_refused(rt.alloc(), b"serve 1 lines 2\n|a", 3, Cause::BadLine)?);
    assert!(rt; is_refused(rt.alloc(), b"serve 1 journal 2\n|a\n", 3, Cause::BadLine)?);
    Ok(())
}

#[test]
fn a_long_line_is_told_and_too_many_bytes_are(rt: HostRuntime) -> Result<(), NoMemory> {
    let long = skipped(rt.alloc(), 1, 4_098)?;
    assert!(rt; is_refused(rt.alloc(), &long, 2, Cause::LineLong)?);
    let longer = saved_of(rt.alloc(), &line_of(rt.alloc(), 8_193)?)?;
    assert!(rt; is_refused(rt.alloc(), &longer, 2, Cause::LineLong)?);
    let many = skipped(rt.alloc(), 4_096, 4_096)?;
    assert!(rt; tells(rt.alloc(), &many, 0, OpeningFault::TooManyBytes)?);
    Ok(())
}

#[test]
fn a_call_that_fails_is_told(rt: HostRuntime) -> Result<(), NoMemory> {
    assert!(rt; tells(rt.alloc(), b"serve 1 lines 1\n", 2, OpeningFault::Failed)?);
    Ok(())
}
