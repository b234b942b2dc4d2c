//! Copies of pieces of a buffer.
ghost use Rattle.std.specs.Prelude.{◌≡◌, ◌++◌, ℕ, List, All, length, map, OnOk, OnErr, IfOk};
ghost use Rattle.knit_base.specs.Lines.{AreCopied, BeginWith, HasBytes, IsSpanWithin, behind_first, span_bytes};

use crate::NoMemory;
use crate::lines::Span;
use std::alloc::Global;

// A buffer has at most so many bytes, so that 32 bits count them.
const MOST_BYTES: usize = 4_294_967_295;

/// A copy of the pieces, each without so many bytes in front, and where they lie in it.
///
/// What stands from the first one's start to the last one's end is copied at once, which for lines that follow one another is all
/// of them. A piece that doesn't lie there is put behind it.
pub(crate) fn copy_pieces(
    alloc: Global,
    bytes: &[u8],
    spans: &[Span],
    skipped: u32,
) -> Result<(Vec<u8>, Vec<Span>), NoMemory>
    requires within { All (IsSpanWithin bytes.now) spans.now }
    requires long { All (HasBytes skipped) spans.now }
    ensures { IfOk result (λ copy. AreCopied bytes.now skipped spans.now copy.0.items copy.1.items) }
{
    let reach = reach_of(spans);
    let mut copy = Vec::new(alloc);
    copy.extend_from_slice(&bytes[reach.start as usize..reach.end as usize])?;
    let mut places = Vec::with_capacity(alloc, spans.len())?;
    for span in spans {
        let wanted = behind_first(*span, skipped);
        let place = place_of(&mut copy, bytes, reach, wanted)?;
        places.push_reserved(place);
    }
    Ok((copy, places))
}

/// The spans, each without so many bytes in front.
pub(crate) fn behind_each_first(
    alloc: Global,
    spans: &[Span],
    count: u32,
) -> Result<Vec<Span>, NoMemory>
    requires { All (HasBytes count) spans.now }
    ensures { IfOk result (λ places. places.items ≡ map (behind_first count) spans.now) }
{
    let mut places = Vec::with_capacity(alloc, spans.len())?;
    for span in spans {
        places.push_reserved(behind_first(*span, count));
    }
    Ok(places)
}

/// The span without so many bytes in front.
#[inline(always)]
pub(crate) fn behind_first(span: Span, count: u32) -> Span
    requires { HasBytes count span }
    ensures { result ≡ behind_first count span }
{
    Span {
        start: span.start + count,
        end: span.end,
    }
}

// From the first one's start to the last one's end, or to the start where the last one ends before it.
fn reach_of(spans: &[Span]) -> Span
    ensures { (bytes : List ℕ) → All (IsSpanWithin bytes) spans.now → IsSpanWithin bytes result }
{
    match spans {
        [first, .., last] => Span {
            start: first.start,
            end: last.end.max(first.start),
        },
        [only] => *only,
        [] => Span { start: 0, end: 0 },
    }
}

// Where the piece lies in the copy, which begins with those bytes that `reach` spans.
#[inline(always)]
fn place_of(copy: &mut Vec<u8>, bytes: &[u8], reach: Span, wanted: Span) -> Result<Span, NoMemory>
    requires reach { IsSpanWithin bytes.now reach }
    requires wanted { IsSpanWithin bytes.now wanted }
    requires front { BeginWith (span_bytes bytes.now reach) copy.old.items }
    ensures grown { OnOk result (BeginWith copy.old.items copy.new.items) }
    ensures within { IfOk result (IsSpanWithin copy.new.items) }
    ensures same { IfOk result (λ place. span_bytes copy.new.items place ≡ span_bytes bytes.now wanted) }
{
    if reach.start <= wanted.start && wanted.end <= reach.end {
        return Ok(Span {
            start: wanted.start - reach.start,
            end: wanted.end - reach.start,
        });
    }
    let place = append_piece(copy, &bytes[wanted.start as usize..wanted.end as usize])?;
    Ok(place)
}

/// Puts the bytes at the end of a buffer, and tells where they lie in it. A buffer of 4 GiB takes no more: that is answered as
/// want of memory.
#[inline(never)]
pub(crate) fn append_piece(buffer: &mut Vec<u8>, bytes: &[u8]) -> Result<Span, NoMemory>
    ensures ok { OnOk result (buffer.new.items ≡ buffer.old.items ++ bytes.now) }
    ensures start { IfOk result (λ place. place.start ≡ length buffer.old.items) }
    ensures end { IfOk result (λ place. place.end ≡ length buffer.new.items) }
    ensures err { OnErr result (buffer.new.items ≡ buffer.old.items) }
{
    let start = buffer.len();
    if start.saturating_add(bytes.len()) > MOST_BYTES {
        return Err(NoMemory);
    }
    buffer.extend_from_slice(bytes)?;
    Ok(Span {
        start: start as u32,
        end: buffer.len() as u32,
    })
}
