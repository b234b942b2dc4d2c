//! Needles that hold none but loops of the lines read so far.
ghost use Rattle.std.specs.Prelude.{◌≡◌, ◌+◌, ◌≤◌, [], IfSome};
ghost use Rattle.face_data.specs.Segments.{entry_needles_of, new_of, segments_on};

use face_data::{Seg, Symbols};
use knit_base::Needle;

/// How many loops the needle holds, where the lines made all of them. `None` says nothing.
pub fn new_loops_on(contents: &Symbols, n: Needle) -> Option<u32>
    ensures entries { IfSome result (λ count. entry_needles_of (segments_on contents.now n) ≡ []) }
    ensures count { IfSome result (λ count. new_of (segments_on contents.now n) ≡ count) }
{
    match contents.of(n) {
        None => None,
        Some(segs) => new_loops(segs.as_slice()),
    }
}

// The same of segments.
fn new_loops(segs: &[Seg]) -> Option<u32>
    ensures entries { IfSome result (λ count. entry_needles_of segs.now ≡ []) }
    ensures count { IfSome result (λ count. new_of segs.now ≡ count) }
{
    let mut count = 0u32;
    for seg in segs {
        if let Seg::Entry(_) = *seg {
            return None;
        }
        count = count.checked_add(1)?;
    }
    Some(count)
}
