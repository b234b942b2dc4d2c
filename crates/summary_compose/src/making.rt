//! A face in the making.
ghost use Rattle.std.specs.Prelude.{◌≡◌, ◌≤◌, OnOk, OnErr};
ghost use Rattle.face_data.specs.View.{IsPacked, summary_of};
ghost use Rattle.summary_compose.specs.Composing.{made_in, MakingHasRoom, IsNoGreater};
ghost use Rattle.summary_compose.specs.declared.room.Room.{Room};

use crate::index::Index;
use crate::kept::KeptFaceConditions;
use crate::laid::ComposedChanges;
use crate::places::Places;
use crate::room::Room;
use face_data::{Effect, Ending, FaceView, Lasts};
use knit_base::NoMemory;
use std::alloc::Global;

/// A face in the making, with the tables that its making needs.
#[derive(Drop)]
pub struct Making {
    pub lines: u32,
    pub made: u32,
    pub ending: Ending,
    pub kept: KeptFaceConditions,
    pub laid: ComposedChanges,
    pub lasts: Lasts,
    pub index: Index,
    pub places: Places,
}

impl Making {
    /// The face of no line, without room, which takes no memory.
    pub fn new(alloc: Global) -> Self {
        Making {
            lines: 0,
            made: 0,
            ending: Ending::Through(Effect {
                rack: None,
                came: 0,
                went: 0,
                hook: None,
            }),
            kept: KeptFaceConditions::new(alloc),
            laid: ComposedChanges::new(alloc),
            lasts: Lasts::new(alloc),
            index: Index::new(alloc),
            places: Places::new(alloc),
        }
    }

    /// Makes so much room, beside what there is. The face that was made last stays.
    pub fn reserve(&mut self, room: &Room) -> Result<(), NoMemory>
        ensures has { OnOk result (MakingHasRoom self.new room.now) }
        ensures keeps { (had : Room) → IsNoGreater had room.now → MakingHasRoom self.old had → MakingHasRoom self.new had }
        ensures face { made_in self.new ≡ made_in self.old }
    {
        let alloc = self.kept.allocator();
        self.kept.reserve(room.checks, room.names)?;
        self.laid.reserve(room.changes, room.segs)?;
        lengthen_lasts(alloc, &mut self.lasts, room.lasts)?;
        self.index.reserve(room.names)?;
        self.places.reserve()
    }

    /// The face that was made last.
    pub fn view(&self) -> FaceView<'_>
        ensures summary { summary_of result ≡ made_in self.now }
        ensures packed { IsPacked result }
    {
        let (checks, names) = self.kept.lists();
        let (changes, segs) = self.laid.lists();
        FaceView {
            lines: self.lines,
            made: self.made,
            checks,
            names,
            changes,
            segs,
            lasts: self.lasts.as_slice(),
            ending: self.ending,
        }
    }
}

// Makes room for so many last needles, and keeps those that there are.
fn lengthen_lasts(alloc: Global, lasts: &mut Lasts, room: u64) -> Result<(), NoMemory>
    ensures lasts { lasts.new.lasts ≡ lasts.old.lasts }
    ensures room { OnOk result (room ≤ lasts.new.room) }
    ensures refused { OnErr result (lasts.old.room ≤ lasts.new.room) }
{
    if lasts.as_slice().is_empty() {
        return lasts.reserve(room);
    }
    let mut more = Lasts::new(alloc);
    more.reserve(room.max(lasts.as_slice().len() as u64))?;
    more.begin(lasts.as_slice());
    *lasts = more;
    Ok(())
}
