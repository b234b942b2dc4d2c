//! Changes of two faces, laid into one list.
ghost use Rattle.std.specs.Prelude.{◌≡◌, ◌<◌, ◌≤◌, ◌+◌, ◌^◌, [], ◌∷◌, ◌++◌, All, drop, length, map, vec_len, vec_capacity, IfSome, OnOk};
ghost use Rattle.face_data.specs.declared.face.Seg.TheVariants.{New};
ghost use Rattle.face_data.specs.Conditions.{part_of};
ghost use Rattle.face_data.specs.Goodness.{IsInOrder};
ghost use Rattle.face_data.specs.Segments.{OffsetFits, entry_needles_of, new_of};
ghost use Rattle.face_data.specs.Through.{seg_through, through, change_through, changes_through};
ghost use Rattle.face_data.specs.Composition.{changes_merged};
ghost use Rattle.face_data.specs.View.{changed_of, ArePacked, PartsFit};
ghost use Rattle.summary_compose.specs.Changes.{changed_needles, raised_seg, segs_in};
ghost use Rattle.summary_compose.specs.Tables.{IsTableOf};

use crate::kept::append;
use crate::places::Places;
use face_data::{Change, FaceView, Part, Seg};
use knit_base::{Needle, NoMemory};
use std::alloc::Global;
use std::marker::Model;

/// Changes in the making, with their segments.
#[derive(Drop)]
pub struct ComposedChanges {
    changes: Vec<Change>,
    segs: Vec<Seg>,
}

impl Model for ComposedChanges {
    ghost use Rattle.std.specs.Prelude.{map, vec_capacity};
    ghost use Rattle.face_data.specs.View.{changed_of, ArePacked};
    ghost use Rattle.summary_compose.specs.Changes.{LaidView};

    ghost Value = { LaidView };

    ghost view = { λ l. record { changes = map (changed_of l.segs.items) l.changes.items; change_room = vec_capacity l.changes; seg_room = vec_capacity l.segs } };

    ghost invariant = { λ l. ArePacked l.segs.items l.changes.items };
}

impl ComposedChanges {
    /// No changes, and no room, which takes no memory.
    pub fn new(alloc: Global) -> Self
        ensures { result.changes ≡ [] }
    {
        ComposedChanges {
            changes: Vec::new(alloc),
            segs: Vec::new(alloc),
        }
    }

    /// Takes all changes out.
    pub fn clear(&mut self)
        ensures changes { self.new.changes ≡ [] }
        ensures change_room { self.new.change_room ≡ self.old.change_room }
        ensures seg_room { self.new.seg_room ≡ self.old.seg_room }
    {
        self.changes.clear();
        self.segs.clear();
    }

    /// Makes room. The changes stay.
    pub fn reserve(&mut self, changes: u64, segs: u64) -> Result<(), NoMemory>
        ensures changes { self.new.changes ≡ self.old.changes }
        ensures change_room { OnOk result (changes ≤ self.new.change_room) }
        ensures seg_room { OnOk result (segs ≤ self.new.seg_room) }
        ensures keeps { (self.old.change_room ≤ self.new.change_room) × (self.old.seg_room ≤ self.new.seg_room) }
    {
        let more_changes = (changes as usize).saturating_sub(self.changes.len());
        self.changes.reserve(more_changes)?;
        let more_segs = (segs as usize).saturating_sub(self.segs.len());
        self.segs.reserve(more_segs)?;
        Ok(())
    }

    /// The changes, and the list in which their segments stand.
    pub fn lists(&self) -> (&[Change], &[Seg])
        ensures changes { map (changed_of result.1.now) result.0.now ≡ self.now.changes }
        ensures packed { ArePacked result.1.now result.0.now }
    {
        (&self.changes, &self.segs)
    }

    /// Lays the changes of a second face, and no others, where they leave new loops alone.
    #[inline(always)]
    pub fn lay_raised(&mut self, changes: &[Change], segs: &[Seg], lines: u32)
        requires packed { ArePacked segs.now changes.now }
        requires room { length changes.now ≤ self.old.change_room }
        requires seg_room { length segs.now ≤ self.old.seg_room }
        requires offsets { All (OffsetFits lines) segs.now }
        ensures changes { self.new.changes ≡ map (changed_of (map (raised_seg lines) segs.now)) changes.now }
        ensures change_room { self.old.change_room ≤ self.new.change_room }
        ensures seg_room { self.old.seg_room ≤ self.new.seg_room }
    {
        self.changes.clear();
        append(changes, &mut self.changes);
        put_raised(segs, lines, &mut self.segs);
    }

    /// Appends a change as it is.
    #[inline(always)]
    pub fn lay_old(&mut self, needle: Needle, segs: &[Seg])
        requires room { length self.old.changes < self.old.change_room }
        requires seg_room { segs_in self.old.changes + length segs.now ≤ self.old.seg_room }
        requires few { length segs.now < 2 ^ 32 }
        ensures changes { self.new.changes ≡ self.old.changes ++ (needle, segs.now) ∷ [] }
        ensures change_room { self.new.change_room ≡ self.old.change_room }
        ensures seg_room { self.new.seg_room ≡ self.old.seg_room }
    {
        let start = self.segs.len();
        push_all(segs, &mut self.segs);
        let len = (self.segs.len() - start) as u32;
        let part = Part {
            start: start as u64,
            len,
        };
        self.changes.push_reserved(Change { needle, part });
    }

    /// Appends a change to the new loop of this line.
    #[inline(always)]
    pub fn lay_new(&mut self, needle: Needle, line: u32)
        requires room { length self.old.changes < self.old.change_room }
        requires seg_room { segs_in self.old.changes < self.old.seg_room }
        ensures changes { self.new.changes ≡ self.old.changes ++ (needle, New line ∷ []) ∷ [] }
        ensures change_room { self.new.change_room ≡ self.old.change_room }
        ensures seg_room { self.new.seg_room ≡ self.old.seg_room }
    {
        let start = self.segs.len() as u64;
        self.segs.push_reserved(Seg::New(line));
        let part = Part { start, len: 1 };
        self.changes.push_reserved(Change { needle, part });
    }

    /// Appends a change of a second face, its segments read through the first.
    #[inline(always)]
    pub fn lay_read(&mut self, needle: Needle, segs: &[Seg], a: &FaceView, places: &Places)
        requires room { length self.old.changes < self.old.change_room }
        requires seg_room { segs_in self.old.changes + length (through (map (changed_of a.now.segs.now) a.now.changes.now) a.now.lines segs.now) ≤ self.old.seg_room }
        requires few { length (through (map (changed_of a.now.segs.now) a.now.changes.now) a.now.lines segs.now) < 2 ^ 32 }
        requires offsets { All (OffsetFits a.now.lines) segs.now }
        requires noted { IsTableOf places.now.table.entries.items (changed_needles a.now.changes.now) }
        requires fit { PartsFit a.now.segs.now a.now.changes.now }
        requires order { IsInOrder (map (changed_of a.now.segs.now) a.now.changes.now) }
        ensures changes { self.new.changes ≡ self.old.changes ++ (needle, through (map (changed_of a.now.segs.now) a.now.changes.now) a.now.lines segs.now) ∷ [] }
        ensures change_room { self.new.change_room ≡ self.old.change_room }
        ensures seg_room { self.new.seg_room ≡ self.old.seg_room }
    {
        if let Some(offset) = new_alone(segs) {
            self.lay_new(needle, a.lines + offset);
            return;
        }
        let start = self.segs.len();
        read_segs(segs, a, places, &mut self.segs);
        let len = (self.segs.len() - start) as u32;
        let part = Part {
            start: start as u64,
            len,
        };
        self.changes.push_reserved(Change { needle, part });
    }
}

/// How many new loops these segments are, unless the loops of an entry are among them.
#[inline(always)]
pub fn count_new(segs: &[Seg]) -> Option<u64>
    ensures entries { IfSome result (λ count. entry_needles_of segs.now ≡ []) }
    ensures count { IfSome result (λ count. count ≡ new_of segs.now) }
{
    let mut count = 0;
    for seg in segs {
        match *seg {
            Seg::Entry(_) => return None,
            Seg::New(_) => count += 1,
        }
    }
    Some(count)
}

/// The offset of a new loop that is the only segment.
#[inline(always)]
pub fn new_alone(segs: &[Seg]) -> Option<u32>
    ensures { IfSome result (λ offset. segs.now ≡ New offset ∷ []) }
{
    match segs {
        [Seg::New(offset)] => Some(*offset),
        _ => None,
    }
}

/// The offset of a new loop that is the only segment of a part.
#[inline(always)]
pub fn new_in(segs: &[Seg], part: Part) -> Option<u32>
    requires { part.start + part.len ≤ length segs.now }
    ensures { IfSome result (λ offset. part_of segs.now part ≡ New offset ∷ []) }
{
    if part.len != 1 {
        return None;
    }
    match segs[part.start as usize] {
        Seg::New(offset) => Some(offset),
        Seg::Entry(_) => None,
    }
}

// Puts segments of a second face, where there is room, in the place of what was there.
#[inline(always)]
fn put_raised(more: &[Seg], lines: u32, segs: &mut Vec<Seg>)
    requires room { length more.now ≤ vec_capacity segs.old }
    requires offsets { All (OffsetFits lines) more.now }
    ensures items { segs.new.items ≡ map (raised_seg lines) more.now }
    ensures capacity { vec_capacity segs.old ≤ vec_capacity segs.new }
{
    segs.clear();
    append(more, segs);
    let mut i = 0;
    while i < more.len() {
        let Seg::New(offset) = more[i] else {
            i += 1;
            continue;
        };
        segs[i] = Seg::New(lines + offset);
        i += 1;
    }
}

// Appends segments where there is room.
#[inline(always)]
fn push_all(more: &[Seg], segs: &mut Vec<Seg>)
    requires { vec_len segs.old + length more.now ≤ vec_capacity segs.old }
    ensures items { segs.new.items ≡ segs.old.items ++ more.now }
    ensures capacity { vec_capacity segs.new ≡ vec_capacity segs.old }
{
    for seg in more {
        segs.push_reserved(*seg);
    }
}

// Appends what a second face's segments are in terms of the first face's entry.
#[inline(always)]
fn read_segs(more: &[Seg], a: &FaceView, places: &Places, segs: &mut Vec<Seg>)
    requires room { vec_len segs.old + length (through (map (changed_of a.now.segs.now) a.now.changes.now) a.now.lines more.now) ≤ vec_capacity segs.old }
    requires offsets { All (OffsetFits a.now.lines) more.now }
    requires noted { IsTableOf places.now.table.entries.items (changed_needles a.now.changes.now) }
    requires fit { PartsFit a.now.segs.now a.now.changes.now }
    requires order { IsInOrder (map (changed_of a.now.segs.now) a.now.changes.now) }
    ensures items { segs.new.items ≡ segs.old.items ++ through (map (changed_of a.now.segs.now) a.now.changes.now) a.now.lines more.now }
    ensures capacity { vec_capacity segs.new ≡ vec_capacity segs.old }
{
    for seg in more {
        read_seg(*seg, a, places, segs);
    }
}

#[inline(always)]
fn read_seg(seg: Seg, a: &FaceView, places: &Places, segs: &mut Vec<Seg>)
    requires room { vec_len segs.old + length (seg_through (map (changed_of a.now.segs.now) a.now.changes.now) a.now.lines seg) ≤ vec_capacity segs.old }
    requires offset { OffsetFits a.now.lines seg }
    requires noted { IsTableOf places.now.table.entries.items (changed_needles a.now.changes.now) }
    requires fit { PartsFit a.now.segs.now a.now.changes.now }
    requires order { IsInOrder (map (changed_of a.now.segs.now) a.now.changes.now) }
    ensures items { segs.new.items ≡ segs.old.items ++ seg_through (map (changed_of a.now.segs.now) a.now.changes.now) a.now.lines seg }
    ensures capacity { vec_capacity segs.new ≡ vec_capacity segs.old }
{
    match seg {
        Seg::New(offset) => segs.push_reserved(Seg::New(a.lines + offset)),
        Seg::Entry(n) => match places.segments_on(a, n) {
            Some(held) => push_all(held, segs),
            None => segs.push_reserved(seg),
        },
    }
}
