//! Where lines lie: in a buffer of their own, or in one that several lists of lines share.
ghost use Rattle.std.specs.Prelude.{◌≡◌, ◌≤◌, ◌<◌, ◌^◌, ◌++◌, [], ◌∷◌, All, length, map, IfOk, OnErr, OnOk, slice_get, slice_range};
ghost use Rattle.knit_base.specs.Held.{bytes_in, bytes_of_part, spans_in, spans_of_part};
ghost use Rattle.knit_base.specs.Lines.{AreCopied, HasBytes, IsSpanWithin, behind_first, last_span};

use crate::NoMemory;
use crate::copies::{append_piece, behind_each_first, behind_first, copy_pieces};
use crate::cut::{Cut, CutPart};
use crate::lines::Span;
use std::alloc::Global;
use std::sync::Arc;

/// Where the lines of a list lie.
pub(crate) enum Held {
    Own(Cut),
    Shared(CutPart),
}

// A call, so that a proof about who drops lines needn't ask how they are held.
impl Drop for Held {
    fn drop(self) {
        match self {
            Held::Own(cut) => drop(cut),
            Held::Shared(part) => drop(part),
        }
    }
}

impl Cut {
    // Puts a line behind the others.
    fn push(&mut self, line: &[u8]) -> Result<(), NoMemory>
        ensures bytes { OnOk result (self.new.bytes.items ≡ self.old.bytes.items ++ line.now) }
        ensures spans { OnOk result (self.new.spans.items ≡ self.old.spans.items ++ last_span self.old.bytes.items line.now ∷ []) }
        ensures same_bytes { OnErr result (self.new.bytes.items ≡ self.old.bytes.items) }
        ensures same_spans { OnErr result (self.new.spans.items ≡ self.old.spans.items) }
    {
        self.spans.reserve(1)?;
        let place = append_piece(&mut self.bytes, line)?;
        self.spans.push_reserved(place);
        Ok(())
    }
}

impl CutPart {
    #[inline(always)]
    fn len(&self) -> u32
        ensures { result ≡ length (spans_of_part self.now) }
    {
        self.end - self.start
    }

    // Where the line at this place lies.
    #[inline(always)]
    fn span(&self, i: u32) -> Option<Span>
        ensures { result ≡ slice_get (spans_of_part self.now) i }
    {
        if i >= self.len() {
            return None;
        }
        let span = self.cut.spans[(self.start + i) as usize];
        Some(behind_first(span, self.skipped))
    }

    // Some of the part's lines, each without so many bytes more.
    fn range(&self, start: u32, end: u32, skipped: u32) -> Result<CutPart, NoMemory>
        requires ordered { start ≤ end }
        requires inside { end ≤ length (spans_of_part self.now) }
        requires long { All (HasBytes skipped) (slice_range (spans_of_part self.now) start end) }
        ensures bytes { IfOk result (λ part. bytes_of_part part ≡ bytes_of_part self.now) }
        ensures spans { IfOk result (λ part. spans_of_part part ≡ map (behind_first skipped) (slice_range (spans_of_part self.now) start end)) }
    {
        let Some(all_skipped) = self.skipped.checked_add(skipped) else {
            return Err(NoMemory);
        };
        Ok(CutPart {
            cut: Arc::try_clone(&self.cut)?,
            start: self.start + start,
            end: self.start + end,
            skipped: all_skipped,
        })
    }

    // The bytes and the lines of the part in memory of their own.
    fn copy(&self) -> Result<Cut, NoMemory>
        ensures bytes { IfOk result (λ cut. cut.bytes.items ≡ bytes_of_part self.now) }
        ensures spans { IfOk result (λ cut. cut.spans.items ≡ spans_of_part self.now) }
    {
        let alloc = *self.cut.bytes.allocator();
        let spans = &self.cut.spans[self.start as usize..self.end as usize];
        Ok(Cut {
            bytes: self.cut.bytes.clone()?,
            spans: behind_each_first(alloc, spans, self.skipped)?,
        })
    }
}

impl Held {
    #[inline(always)]
    pub fn bytes(&self) -> &[u8]
        ensures { result.now ≡ bytes_in self.now }
    {
        match self {
            Held::Own(cut) => cut.bytes.as_slice(),
            Held::Shared(part) => part.cut.bytes.as_slice(),
        }
    }

    pub fn len(&self) -> usize
        ensures { result ≡ length (spans_in self.now) }
    {
        match self {
            Held::Own(cut) => cut.spans.len(),
            Held::Shared(part) => part.len() as usize,
        }
    }

    /// Where the line at this place lies.
    #[inline(always)]
    pub fn span(&self, i: u32) -> Option<Span>
        ensures { result ≡ slice_get (spans_in self.now) i }
    {
        match self {
            Held::Own(cut) => cut.spans.get(i as usize).copied(),
            Held::Shared(part) => part.span(i),
        }
    }

    /// The same lines, which several lists can share from now on.
    pub fn into_shared(self) -> Result<Self, NoMemory>
        requires few { length (spans_in self) < 2 ^ 32 }
        requires within { All (IsSpanWithin (bytes_in self)) (spans_in self) }
        ensures bytes { IfOk result (λ held. bytes_in held ≡ bytes_in self) }
        ensures spans { IfOk result (λ held. spans_in held ≡ spans_in self) }
    {
        match self {
            Held::Own(cut) => {
                let end = cut.spans.len() as u32;
                Ok(Held::Shared(CutPart {
                    cut: Arc::new(*cut.bytes.allocator(), cut)?,
                    start: 0,
                    end,
                    skipped: 0,
                }))
            }
            Held::Shared(part) => Ok(Held::Shared(part)),
        }
    }

    /// Some of the lines, each without its first `skipped` bytes: in a copy, or of the same bytes where they are shared.
    pub fn range(&self, alloc: Global, start: u32, end: u32, skipped: u32) -> Result<Self, NoMemory>
        requires ordered { start ≤ end }
        requires inside { end ≤ length (spans_in self.now) }
        requires within { All (IsSpanWithin (bytes_in self.now)) (spans_in self.now) }
        requires long { All (HasBytes skipped) (slice_range (spans_in self.now) start end) }
        ensures { IfOk result (λ held. AreCopied (bytes_in self.now) skipped (slice_range (spans_in self.now) start end) (bytes_in held) (spans_in held)) }
    {
        match self {
            Held::Own(cut) => {
                let spans = &cut.spans[start as usize..end as usize];
                let (bytes, spans) = copy_pieces(alloc, &cut.bytes, spans, skipped)?;
                Ok(Held::Own(Cut { bytes, spans }))
            }
            Held::Shared(part) => Ok(Held::Shared(part.range(start, end, skipped)?)),
        }
    }

    /// Puts a line behind the others. Lines that are shared are copied before.
    pub fn push(&mut self, line: &[u8]) -> Result<(), NoMemory>
        ensures bytes { OnOk result (bytes_in self.new ≡ bytes_in self.old ++ line.now) }
        ensures spans { OnOk result (spans_in self.new ≡ spans_in self.old ++ last_span (bytes_in self.old) line.now ∷ []) }
        ensures same_bytes { OnErr result (bytes_in self.new ≡ bytes_in self.old) }
        ensures same_spans { OnErr result (spans_in self.new ≡ spans_in self.old) }
    {
        match self {
            Held::Own(cut) => cut.push(line),
            Held::Shared(part) => {
                let mut cut = part.copy()?;
                cut.push(line)?;
                *self = Held::Own(cut);
                Ok(())
            }
        }
    }

    /// The same lines once more: shared with these, or in a copy.
    pub fn try_clone(&self) -> Result<Self, NoMemory>
        ensures bytes { IfOk result (λ held. bytes_in held ≡ bytes_in self.now) }
        ensures spans { IfOk result (λ held. spans_in held ≡ spans_in self.now) }
    {
        match self {
            Held::Own(cut) => Ok(Held::Own(Cut {
                bytes: cut.bytes.clone()?,
                spans: cut.spans.clone()?,
            })),
            Held::Shared(part) => Ok(Held::Shared(CutPart {
                cut: Arc::try_clone(&part.cut)?,
                start: part.start,
                end: part.end,
                skipped: part.skipped,
            })),
        }
    }
}
