//! The loops that one needle holds behind a whole program whose face is known.
ghost use Rattle.std.specs.Prelude.{◌≡◌, ◌+◌, ◌<◌, ◌^◌, IfOk, map};
ghost use Rattle.carriage_model.specs.State.{empty_state};
ghost use Rattle.face_data.specs.Goodness.{IsGoodFace};
ghost use Rattle.face_data.specs.Segments.{read_segs, segments_on};
ghost use Rattle.face_data.specs.View.{IsPacked, changed_of, summary_of};

use crate::FaceView;
use crate::verdicts::{loops_of, segs_at};
use carriage_model::LoopLines;
use knit_base::{Needle, NoMemory, needle_order};
use std::alloc::Global;

/// The loops that the needle holds after the lines that the face stands for, run from empty beds, where these carry them out. The first line
/// has the number `first`, by which loops are named.
pub fn loops_on(
    alloc: Global,
    face: &FaceView,
    n: Needle,
    first: u32,
) -> Result<LoopLines, NoMemory>
    requires good { IsGoodFace (summary_of face.now) }
    requires packed { IsPacked face.now }
    requires lines { first + face.now.lines < 2 ^ 32 }
    ensures { IfOk result (λ loops. loops ≡ read_segs empty_state first (segments_on (map (changed_of face.now.segs.now) face.now.changes.now) n)) }
{
    for change in face.changes {
        if needle_order(&n, &change.needle).is_eq() {
            return loops_of(alloc, segs_at(face.segs, change.part), first);
        }
    }
    Ok(LoopLines::new(alloc))
}
