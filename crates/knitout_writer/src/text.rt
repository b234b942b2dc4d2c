//! Whole files in their canonical spelling.
ghost use Rattle.std.specs.Prelude.{◌≡◌, ◌<◌, ◌≤◌, ◌^◌, ◌++◌, length, take, drop, IfOk, OnOk, OnErr, List, ℕ};
ghost use Rattle.std.specs.List.{AllZip};
ghost use Rattle.knitout_reader.specs.Head.{IsHead};
ghost use Rattle.knitout_writer.specs.Canonical.{IsCanonicalText, IsCanonicalLine, with_line_feeds};

use crate::line::append_line;
use knit_base::{Declared, Lines, NoMemory, Profile};
use knitout_reader::{Head, is_shortest_spelling, nth_line, read_line};
use std::alloc::Global;

// The canonical text of the file with these lines.
fn canonical_text(
    alloc: Global,
    lines: &Lines,
    head: &Head,
    profile: &Profile,
) -> Result<Vec<u8>, NoMemory>
    requires { IsHead lines.now head.now }
    ensures { IfOk result (λ text. IsCanonicalText profile.now head.now lines.now text.items) }
{
    let mut text = Vec::with_capacity(alloc, len_with_line_feeds(lines))?;
    append_head(lines, head.lines, &mut text)?;
    append_body(alloc, lines, head, profile, &mut text)?;
    Ok(text)
}

/// Appends the canonical text of the file with these lines: the lines of its head as they are, and each line of its body in its canonical
/// spelling, each with a line feed.
///
/// The head of what is written may be longer than `head`: a body line that is blanks and a comment is written from its `;` on.
pub fn write_text(
    alloc: Global,
    lines: &Lines,
    head: &Head,
    profile: &Profile,
    out: &mut Vec<u8>,
) -> Result<(), NoMemory>
    requires { IsHead lines.now head.now }
    ensures ok { OnOk result ((text : List ℕ) × IsCanonicalText profile.now head.now lines.now text × (out.new.items ≡ out.old.items ++ text)) }
    ensures err { OnErr result (out.new.items ≡ out.old.items) }
{
    let text = canonical_text(alloc, lines, head, profile)?;
    out.extend_from_slice(&text)?;
    Ok(())
}

// The bytes of the lines, with a line feed for each. Their canonical text has about as many.
fn len_with_line_feeds(lines: &Lines) -> usize
    ensures { result ≡ length (with_line_feeds lines.now) }
{
    let mut len = 0;
    for i in 0..lines.len() {
        len += nth_line(lines, i).len() + 1;
    }
    len
}

// Appends this many lines as they are, each with a line feed.
fn append_head(lines: &Lines, count: u32, out: &mut Vec<u8>) -> Result<(), NoMemory>
    requires { count ≤ length lines.now }
    ensures { OnOk result (out.new.items ≡ out.old.items ++ with_line_feeds (take count lines.now)) }
{
    for i in 0..count {
        out.extend_from_slice(nth_line(lines, i).as_bytes())?;
        out.push(b'\n')?;
    }
    Ok(())
}

// Appends the lines behind the head, each in its canonical spelling and with a line feed.
fn append_body(
    alloc: Global,
    lines: &Lines,
    head: &Head,
    profile: &Profile,
    out: &mut Vec<u8>,
) -> Result<(), NoMemory>
    requires { head.now.lines ≤ length lines.now }
    ensures { OnOk result ((texts : List (List ℕ)) × AllZip (IsCanonicalLine profile.now head.now.declared) (drop head.now.lines lines.now) texts × (out.new.items ≡ out.old.items ++ with_line_feeds texts)) }
{
    for i in head.lines..lines.len() {
        append_body_line(alloc, nth_line(lines, i), profile, &head.declared, out)?;
        out.push(b'\n')?;
    }
    Ok(())
}

// Appends the canonical spelling of a line.
#[inline(always)]
pub(crate) fn append_body_line(
    alloc: Global,
    line: &str,
    profile: &Profile,
    declared: &Declared,
    out: &mut Vec<u8>,
) -> Result<(), NoMemory>
    requires { length line.now < 2 ^ 16 }
    ensures { OnOk result ((text : List ℕ) × IsCanonicalLine profile.now declared.now line.now text × (out.new.items ≡ out.old.items ++ text)) }
{
    let bytes = line.as_bytes();
    if is_shortest_spelling(bytes) {
        out.extend_from_slice(bytes)?;
        return Ok(());
    }
    append_read_line(alloc, line, profile, declared, out)
}

// Reads a line, and appends its canonical spelling.
#[inline(never)]
fn append_read_line(
    alloc: Global,
    line: &str,
    profile: &Profile,
    declared: &Declared,
    out: &mut Vec<u8>,
) -> Result<(), NoMemory>
    requires { length line.now < 2 ^ 16 }
    ensures { OnOk result ((text : List ℕ) × IsCanonicalLine profile.now declared.now line.now text × (out.new.items ≡ out.old.items ++ text)) }
{
    let read = read_line(alloc, line, profile, declared)?;
    append_line(&read, line.as_bytes(), declared, out)
}
