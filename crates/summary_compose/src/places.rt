//! What needles hold after a face.
ghost use Rattle.std.specs.Prelude.{◌≡◌, true, [], ◌∷◌, length, map, OnOk, IfNone, IfSome};
ghost use Rattle.face_data.specs.declared.face.Change.{Change};
ghost use Rattle.face_data.specs.declared.face.Seg.TheVariants.{Entry};
ghost use Rattle.face_data.specs.Goodness.{IsInOrder};
ghost use Rattle.face_data.specs.Segments.{segments_on};
ghost use Rattle.face_data.specs.View.{changed_of, PartsFit};
ghost use Rattle.summary_compose.specs.Changes.{changed_needles};
ghost use Rattle.summary_compose.specs.Tables.{HasNeedlePlaces, IsTableOf};

use crate::spots::{Table, is_same};
use face_data::{Change, FaceView, Seg};
use knit_base::{Needle, NoMemory};
use std::alloc::Global;

/// The places of a face's changes by needle. Nothing is taken out of the table again.
#[derive(Drop)]
pub struct Places {
    pub table: Table,
}

impl Places {
    /// Without a table, which takes no memory.
    pub fn new(alloc: Global) -> Self {
        Places {
            table: Table::new(alloc),
        }
    }

    /// Makes room for all needles.
    pub fn reserve(&mut self) -> Result<(), NoMemory>
        ensures room { OnOk result (HasNeedlePlaces self.new) }
        ensures keeps { HasNeedlePlaces self.old → HasNeedlePlaces self.new }
    {
        self.table.reserve()
    }

    /// Notes the places of all changes.
    pub fn note(&mut self, changes: &[Change])
        requires { HasNeedlePlaces self.old }
        ensures table { IsTableOf self.new.table.entries.items (changed_needles changes.now) }
        ensures room { HasNeedlePlaces self.new }
    {
        for (place, change) in changes.iter().enumerate() {
            self.table.set(change.needle, place);
        }
    }

    /// Notes the places of all changes, unless they are noted already.
    pub fn note_once(&mut self, changes: &[Change], noted: bool)
        requires noted { noted ≡ true → IsTableOf self.old.table.entries.items (changed_needles changes.now) }
        requires room { HasNeedlePlaces self.old }
        ensures table { IsTableOf self.new.table.entries.items (changed_needles changes.now) }
        ensures room { HasNeedlePlaces self.new }
    {
        if !noted {
            self.note(changes);
        }
    }

    /// What the needle holds after the face whose changes were noted, where that isn't its own entry alone.
    #[inline(always)]
    pub fn segments_on<'a>(&self, face: &FaceView<'a>, n: Needle) -> Option<&'a [Seg]>
        requires noted { IsTableOf self.now.table.entries.items (changed_needles face.now.changes.now) }
        requires fit { PartsFit face.now.segs.now face.now.changes.now }
        requires order { IsInOrder (map (changed_of face.now.segs.now) face.now.changes.now) }
        ensures own { IfNone result (segments_on (map (changed_of face.now.segs.now) face.now.changes.now) n ≡ Entry n ∷ []) }
        ensures some { IfSome result (λ held. held.now ≡ segments_on (map (changed_of face.now.segs.now) face.now.changes.now) n) }
    {
        let changes = face.changes;
        let place = self.table.get(n);
        if place >= changes.len() {
            return None;
        }
        let change = changes[place];
        if !is_same(change.needle, n) {
            return None;
        }
        let start = change.part.start as usize;
        let end = start + change.part.len as usize;
        Some(&face.segs[start..end])
    }
}
