//! Lines of text, kept in one buffer, which several lists of lines can share.
ghost use Rattle.std.specs.Prelude.{◌≡◌, ◌<◌, ◌≤◌, ◌^◌, [], ◌∷◌, ◌++◌, All, length, drop, map, OnOk, OnErr, IfOk, IfSome, slice_get, slice_range};
ghost use Rattle.std.specs.Option.{option_copied};
ghost use Rattle.knit_base.specs.Held.{bytes_in, spans_in};
ghost use Rattle.knit_base.specs.Lines.{HasNoLineEnd, IsLine, IsSpanWithin, MayLoseFirst, span_bytes};

use crate::NoMemory;
use crate::cut::Cut;
use crate::held::Held;
use std::alloc::Global;
use std::marker::Model;

/// A piece of a buffer: the bytes from `start` to `end`, which isn't counted.
#[derive(Clone, Copy, Debug, PartialEq, Eq)]
pub struct Span {
    pub start: u32,
    pub end: u32,
}

/// A list of texts without a line feed, of at most 65,535 bytes each, whose bytes lie in one buffer. There are at most
/// 16,777,217 of them.
#[derive(Drop)]
pub struct Lines {
    held: Held,
}

impl Model for Lines {
    ghost use Rattle.std.specs.Prelude.{List, ℕ, map};

    ghost Value = { List (List ℕ) };

    ghost use Rattle.knit_base.specs.Held.{bytes_in, spans_in};
    ghost use Rattle.knit_base.specs.Lines.{AreLineSpans, span_bytes};

    ghost view = { λ l. map (span_bytes (bytes_in l.held)) (spans_in l.held) };

    ghost invariant = { λ l. AreLineSpans (bytes_in l.held) (spans_in l.held) };
}

impl Lines {
    pub fn new(alloc: Global) -> Self
        ensures { result ≡ [] }
    {
        Lines::in_buffer(Vec::new(alloc), Vec::new(alloc))
    }

    /// The lines that lie in the buffer at these places. Nothing is copied.
    pub fn in_buffer(bytes: Vec<u8>, spans: Vec<Span>) -> Self
        requires few { length spans.items ≤ 16777217 }
        requires within { All (IsSpanWithin bytes.items) spans.items }
        requires lines { All IsLine (map (span_bytes bytes.items) spans.items) }
        ensures { result ≡ map (span_bytes bytes.items) spans.items }
    {
        Lines::lying_in(Held::Own(Cut { bytes, spans }))
    }

    fn lying_in(held: Held) -> Self
        requires few { length (spans_in held) ≤ 16777217 }
        requires within { All (IsSpanWithin (bytes_in held)) (spans_in held) }
        requires lines { All IsLine (map (span_bytes (bytes_in held)) (spans_in held)) }
        ensures { result ≡ map (span_bytes (bytes_in held)) (spans_in held) }
    {
        Lines { held }
    }

    /// The lines from `start` to `end`, which isn't counted: shared where `lines` are, and else a copy, in which bytes that stand between
    /// them in their buffer are copied, too.
    pub fn range(alloc: Global, lines: &Lines, start: u32, end: u32) -> Result<Self, NoMemory>
        requires ordered { start ≤ end }
        requires inside { end ≤ length lines.now }
        ensures { IfOk result (λ copy. copy ≡ slice_range lines.now start end) }
    {
        let held = lines.held.range(alloc, start, end, 0)?;
        Ok(Lines::lying_in(held))
    }

    /// The same, each line without its first byte.
    pub fn range_without_first(
        alloc: Global,
        lines: &Lines,
        start: u32,
        end: u32,
    ) -> Result<Self, NoMemory>
        requires ordered { start ≤ end }
        requires inside { end ≤ length lines.now }
        requires first { All MayLoseFirst (slice_range lines.now start end) }
        ensures { IfOk result (λ copy. copy ≡ map (drop 1) (slice_range lines.now start end)) }
    {
        let held = lines.held.range(alloc, start, end, 1)?;
        Ok(Lines::lying_in(held))
    }

    /// The same lines, which copies and ranges that are made of them from now on share: these copy nothing then.
    pub fn into_shared(self) -> Result<Self, NoMemory>
        ensures { IfOk result (λ lines. lines ≡ self) }
    {
        Ok(Lines {
            held: self.held.into_shared()?,
        })
    }

    pub fn len(&self) -> u32
        ensures len { result ≡ length self.now }
        ensures few { length self.now ≤ 16777217 }
    {
        self.held.len() as u32
    }

    /// The line at this place, from 0.
    pub fn get(&self, i: u32) -> Option<&str>
        ensures found { option_copied result ≡ slice_get self.now i }
        ensures line { IfSome result (λ line. IsLine line.now) }
    {
        let span = self.held.span(i)?;
        let line = &self.held.bytes()[span.start as usize..span.end as usize];
        // SAFETY: each line is UTF-8, which the check proves here.
        Some(unsafe { str::from_utf8_unchecked(line) })
    }

    /// Appends a copy of the line; lines that are shared are copied before. A buffer of 4 GiB takes no more: that is answered as want of
    /// memory.
    pub fn push(&mut self, s: &str) -> Result<(), NoMemory>
        requires one { HasNoLineEnd s.now }
        requires short { length s.now < 2 ^ 16 }
        requires few { length self.old < 16777217 }
        ensures ok { OnOk result (self.new ≡ self.old ++ s.now ∷ []) }
        ensures err { OnErr result (self.new ≡ self.old) }
    {
        self.held.push(s.as_bytes())?;
        Ok(())
    }

    /// Equal lines: shared where these are, and else a copy.
    pub fn try_clone(&self) -> Result<Self, NoMemory>
        ensures { IfOk result (λ lines. lines ≡ self.now) }
    {
        Ok(Lines {
            held: self.held.try_clone()?,
        })
    }
}
