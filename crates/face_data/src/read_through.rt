//! Segments of later lines, told from the entry of earlier ones.
ghost use Rattle.std.specs.Prelude.{◌≡◌, ◌+◌, ◌<◌, ◌≤◌, ◌^◌, ◌++◌, [], ◌∷◌, All, IfNone, IfOk, IfSome, OnOk, map};
ghost use Rattle.face_data.specs.declared.face.Seg.TheVariants.{Entry};
ghost use Rattle.face_data.specs.Goodness.{IsInOrder};
ghost use Rattle.face_data.specs.Segments.{OffsetFits, segments_on};
ghost use Rattle.face_data.specs.Through.{seg_through, through};
ghost use Rattle.face_data.specs.View.{PartsFit, changed_of};

use crate::verdicts::segs_at;
use crate::{FaceView, Seg, Segs};
use knit_base::{Needle, NoMemory, needle_order};
use std::alloc::Global;
use std::cmp::Ordering;

/// The segments of the lines that follow those of the face, as they are at the face's entry. The face's changes are in the order of
/// their needles, by which they are found by halves. `NoMemory` also comes where there would be more segments than a `u32` counts.
pub fn segs_through(alloc: Global, face: &FaceView, segs: &[Seg]) -> Result<Segs, NoMemory>
    requires order { IsInOrder (map (changed_of face.now.segs.now) face.now.changes.now) }
    requires parts { PartsFit face.now.segs.now face.now.changes.now }
    requires fit { All (OffsetFits face.now.lines) segs.now }
    ensures { IfOk result (λ before. before ≡ through (map (changed_of face.now.segs.now) face.now.changes.now) face.now.lines segs.now) }
{
    let mut before = Segs::new(alloc);
    for seg in segs {
        add_piece(face, *seg, &mut before)?;
    }
    Ok(before)
}

// Adds what the segment is at the face's entry.
fn add_piece(face: &FaceView, seg: Seg, before: &mut Segs) -> Result<(), NoMemory>
    requires order { IsInOrder (map (changed_of face.now.segs.now) face.now.changes.now) }
    requires parts { PartsFit face.now.segs.now face.now.changes.now }
    requires fits { OffsetFits face.now.lines seg }
    ensures { OnOk result (before.new ≡ before.old ++ seg_through (map (changed_of face.now.segs.now) face.now.changes.now) face.now.lines seg) }
{
    match seg {
        Seg::New(offset) => add_all(&[Seg::New(face.lines + offset)], before),
        Seg::Entry(n) => match segs_on(face, n) {
            Some(held) => add_all(held, before),
            None => add_all(&[seg], before),
        },
    }
}

fn add_all(more: &[Seg], segs: &mut Segs) -> Result<(), NoMemory>
    ensures { OnOk result (segs.new ≡ segs.old ++ more.now) }
{
    let room = u32::MAX - segs.len();
    if more.len() > room as usize {
        return Err(NoMemory);
    }
    segs.extend_from_slice(more)
}

// What the needle holds behind the face's lines, where these change it.
fn segs_on<'a>(face: &FaceView<'a>, n: Needle) -> Option<&'a [Seg]>
    requires order { IsInOrder (map (changed_of face.now.segs.now) face.now.changes.now) }
    requires parts { PartsFit face.now.segs.now face.now.changes.now }
    ensures own { IfNone result (segments_on (map (changed_of face.now.segs.now) face.now.changes.now) n ≡ Entry n ∷ []) }
    ensures held { IfSome result (λ held. held.now ≡ segments_on (map (changed_of face.now.segs.now) face.now.changes.now) n) }
{
    let changes = face.changes;
    let mut low = 0;
    let mut high = changes.len();
    while low < high {
        let middle = low + (high - low) / 2;
        match needle_order(&changes[middle].needle, &n) {
            Ordering::Less => low = middle + 1,
            Ordering::Equal => return Some(segs_at(face.segs, changes[middle].part)),
            Ordering::Greater => high = middle,
        }
    }
    None
}
