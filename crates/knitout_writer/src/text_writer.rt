//! The canonical text of a file, which is written while the file's lines come.
//!
//! Most lines of a file that a program wrote are their own canonical spelling. Runs of these are copied at once, with their
//! line feeds, and every other line is read and written.
ghost use Rattle.std.specs.Prelude.{◌≡◌, ◌≤◌, ◌+◌, ◌-◌, [], ℕ, List, length, take, drop, IfErr, IfOk, OnOk};
ghost use Rattle.knit_base.specs.declared.profile.Profile.{Profile};
ghost use Rattle.knit_base.specs.Lines.{lines_of};
ghost use Rattle.line_cutter.specs.Cut.{HasGoodLines, IsFirstBadBehind};
ghost use Rattle.knitout_reader.specs.declared.head.Head.{Head};
ghost use Rattle.knitout_writer.specs.Canonical.{IsCanonicalText};
ghost use Rattle.knitout_writer.specs.Written.{IsWrittenCanonically, WroteAll};
ghost use Rattle.knitout_writer.specs.WrittenFiles.{HasSeen, HasWritten};

use crate::copied_line::copied_len;
use crate::text::append_body_line;
use knit_base::{Declared, NoMemory, Profile};
use knitout_reader::{FileWork, Head};
use line_cutter::{CutFault, line_at};
use std::alloc::Global;

/// The canonical text of a file, written while its lines come.
#[derive(Drop)]
pub struct TextWriter {
    profile: Profile,
    out: Vec<u8>,
}

impl TextWriter {
    /// Nothing is written yet. There is room for so many bytes, if there is memory for them, so that none is copied when more come.
    pub fn new(alloc: Global, profile: &Profile, room: usize) -> TextWriter
        ensures profile { result.profile ≡ profile.now }
        ensures none { HasSeen [] result result }
    {
        TextWriter {
            profile: *profile,
            out: with_room(alloc, room),
        }
    }

    /// What was written.
    pub fn into_text(self) -> Vec<u8>
        ensures { (start : TextWriter) (head : Head) (lines : List (List ℕ)) → HasWritten head lines start self
            → IsCanonicalText start.profile head lines result.items }
    {
        self.out
    }
}

impl FileWork for TextWriter {
    ghost saw = { HasSeen };

    ghost took = { HasWritten };

    fn see(&mut self, line: &str) -> Result<(), NoMemory> {
        self.out.extend_from_slice(line.as_bytes())?;
        self.out.push(b'\n')?;
        Ok(())
    }

    fn begin(&mut self, _: Global, _: &Head) -> Result<(), NoMemory> {
        Ok(())
    }

    fn take_body(
        &mut self,
        alloc: Global,
        head: &Head,
        text: &[u8],
        before: u32,
    ) -> Result<u32, CutFault> {
        append_lines(
            alloc,
            text,
            before,
            &self.profile,
            &head.declared,
            &mut self.out,
        )
    }
}

// The system gives a page of room only when it is written to.
fn with_room(alloc: Global, room: usize) -> Vec<u8>
    ensures { result.items ≡ [] }
{
    match Vec::with_capacity(alloc, room) {
        Ok(out) => out,
        Err(_) => Vec::new(alloc),
    }
}

// Appends the canonical text of the lines, before which the file has so many, and says how many they are.
fn append_lines(
    alloc: Global,
    text: &[u8],
    before: u32,
    profile: &Profile,
    declared: &Declared,
    out: &mut Vec<u8>,
) -> Result<u32, CutFault>
    requires size { length text.now ≤ 16777216 }
    requires few { before ≤ 33554432 }
    ensures good { IfOk result (HasGoodLines text.now) }
    ensures text { OnOk result (WroteAll profile.now declared.now (lines_of text.now) out.old.items out.new.items) }
    ensures err { IfErr result (IsFirstBadBehind before (lines_of text.now)) }
{
    let mut count = 0;
    let mut start = 0;
    'writing: while start < text.len() {
        let (more, end) = copied_lines(text, start);
        out.extend_from_slice(&text[start..end])?;
        count += more;
        if end >= text.len() {
            return Ok(count);
        }
        let (line, next) = line_at(text, end, before + count + 1)?;
        append_body_line(alloc, line, profile, declared, out)?;
        out.push(b'\n')?;
        count += 1;
        start = next;
    }
    Ok(count)
}

// How many lines stand from `start` on that are copied, and where they end.
fn copied_lines(text: &[u8], start: usize) -> (u32, usize)
    requires size { length text.now ≤ 16777216 }
    requires within { start ≤ length text.now }
    ensures within { result.1 ≤ length text.now }
    ensures few { start + result.0 ≤ result.1 }
    ensures copied { (profile : Profile) → (names : List (List ℕ))
        → IsWrittenCanonically profile names text.now start result.1 result.0 (take (result.1 - start) (drop start text.now)) }
{
    let mut count = 0;
    let mut end = start;
    while let Some(len) = copied_len(&text[end..]) {
        count += 1;
        end += len;
    }
    (count, end)
}
