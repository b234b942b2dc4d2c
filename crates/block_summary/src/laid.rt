//! Changes as a face keeps them, with their segments in one list.
ghost use Rattle.std.specs.Prelude.{◌≡◌, ◌<◌, ◌^◌, [], ◌∷◌, ◌++◌, IfOk, OnErr, OnOk, length, map};
ghost use Rattle.face_data.specs.View.{ArePacked, changed_of};

use crate::kept::KeptLineConditions;
use face_data::{Change, Ending, Face, FaceView, Last, Part, Seg, Symbols};
use knit_base::{Needle, NoMemory};
use std::alloc::Global;
use std::marker::Model;

/// Changes, whose segments stand one after the other in one list.
#[derive(Drop)]
pub struct DraftChanges {
    changes: Vec<Change>,
    segs: Vec<Seg>,
}

impl Model for DraftChanges {
    ghost use Rattle.std.specs.Prelude.{List, map};
    ghost use Rattle.face_data.specs.Segments.{Changed};
    ghost use Rattle.face_data.specs.View.{ArePacked, changed_of};

    ghost Value = { List Changed };

    ghost view = { λ l. map (changed_of l.segs.items) l.changes.items };

    ghost invariant = { λ l. ArePacked l.segs.items l.changes.items };
}

impl DraftChanges {
    /// No changes. Takes no memory.
    pub fn new(alloc: Global) -> Self
        ensures { result ≡ [] }
    {
        DraftChanges {
            changes: Vec::new(alloc),
            segs: Vec::new(alloc),
        }
    }

    /// Lays down the needles that were touched, each with what it holds, in place of what was laid before. The room is used again;
    /// after an error it holds some of them.
    pub fn lay(&mut self, symbols: &Symbols) -> Result<(), NoMemory>
        ensures { OnOk result (self.new ≡ symbols.now) }
    {
        self.clear();
        for held in symbols.as_slice() {
            self.push(held.0, held.1.as_slice())?;
        }
        Ok(())
    }

    fn clear(&mut self)
        ensures { self.new ≡ [] }
    {
        self.changes.clear();
        self.segs.clear();
    }

    fn push(&mut self, needle: Needle, segs: &[Seg]) -> Result<(), NoMemory>
        requires { length segs.now < 2 ^ 32 }
        ensures ok { OnOk result (self.new ≡ self.old ++ (needle, segs.now) ∷ []) }
        ensures err { OnErr result (self.new ≡ self.old) }
    {
        let part = Part {
            start: self.segs.len() as u64,
            len: segs.len() as u32,
        };
        self.changes.reserve(1)?;
        self.segs.extend_from_slice(segs)?;
        self.changes.push_reserved(Change { needle, part });
        Ok(())
    }

    /// The changes, and the list in which their segments stand.
    pub fn lists(&self) -> (&[Change], &[Seg])
        ensures changes { map (changed_of result.1.now) result.0.now ≡ self.now }
        ensures packed { ArePacked result.1.now result.0.now }
    {
        (&self.changes, &self.segs)
    }
}

/// The face of these conditions, changes and last needles.
pub fn face_of(
    alloc: Global,
    lines: u32,
    made: u32,
    kept: &KeptLineConditions,
    laid: &DraftChanges,
    lasts: &[Last],
    ending: Ending,
) -> Result<Face, NoMemory>
    ensures { IfOk result (λ face. face ≡ record { lines = lines; made = made; checks = kept.now; changes = laid.now; lasts = lasts.now; ending = ending }) }
{
    let (checks, names) = kept.lists();
    let (changes, segs) = laid.lists();
    Face::of(
        alloc,
        &FaceView {
            lines,
            made,
            checks,
            names,
            changes,
            segs,
            lasts,
            ending,
        },
    )
}
