//! A table of faces whose lists lie in spans.
ghost use Rattle.std.specs.Prelude.{◌≡◌, ◌≢◌, ℕ, ◌+◌, ◌<◌, ◌≤◌, ◌^◌, [], length, slice_index_or, slice_set, Some, None, IfSome, IsNone, OnOk};
ghost use Rattle.std.specs.List.{sum_by};
ghost use Rattle.face_data.specs.Summaries.{Summary};
ghost use Rattle.face_data.specs.View.{IsPacked, summary_of};
ghost use Rattle.span_pool.specs.Class.{IsClassOf};
ghost use Rattle.span_pool.specs.Pool.{OneFewer, OneMore, out_of, spare_of};
ghost use Rattle.summary_compose.specs.Rooms.{no_room, room_of_face};
ghost use Rattle.summary_tree.specs.Lists.{Exchanged, TookSpan};
ghost use Rattle.summary_tree.specs.Faces.{IsPackedEntry, summary_in, class_in, pool_in, spans_at, face_in, spare_in, length_in, TookSpans, KeepsSpares};
ghost use Rattle.summary_tree.specs.Rooms.{kept_room};

use crate::lists::{put_anew, refill};
use face_data::{Change, Check, Ending, FaceView, Last, Seg};
use knit_base::{Needle, NoMemory};
use span_pool::{Pool, Span};
use std::alloc::Global;
use std::marker::Model;
use summary_compose::Room;

/// What a face has beside its lists, and the room that it takes, which is told without reading them.
#[derive(Clone, Copy)]
pub(crate) struct Head {
    pub lines: u32,
    pub made: u32,
    pub room: Room,
    pub ending: Ending,
}

/// One of a face's lists.
#[derive(Clone, Copy)]
pub(crate) enum FaceList {
    Checks,
    Names,
    Changes,
    Segs,
    Lasts,
}

/// A face that is kept: each list in a span of its own, side by side, so that few places of memory are read for it.
#[derive(Drop)]
pub(crate) struct Entry {
    checks: Span<Check>,
    names: Span<Needle>,
    changes: Span<Change>,
    segs: Span<Seg>,
    lasts: Span<Last>,
    head: Head,
}

impl Entry {
    fn view(&self) -> FaceView<'_>
        requires { IsPackedEntry self.now }
        ensures summary { summary_of result ≡ summary_in self.now }
        ensures packed { IsPacked result }
    {
        FaceView {
            lines: self.head.lines,
            made: self.head.made,
            checks: self.checks.get(),
            names: self.names.get(),
            changes: self.changes.get(),
            segs: self.segs.get(),
            lasts: self.lasts.get(),
            ending: self.head.ending,
        }
    }

    fn room(&self) -> Room
        requires { IsPackedEntry self.now }
        ensures { result ≡ kept_room (summary_in self.now) }
    {
        self.head.room
    }
}

/// Spare spans for each of the lists.
#[derive(Drop)]
pub(crate) struct Pools {
    checks: Pool<Check>,
    names: Pool<Needle>,
    changes: Pool<Change>,
    segs: Pool<Seg>,
    lasts: Pool<Last>,
}

impl Pools {
    fn new(alloc: Global) -> Pools
        ensures { (list : FaceList) (class : ℕ) → out_of (pool_in list result) class ≡ 0 }
    {
        Pools {
            checks: Pool::new(alloc),
            names: Pool::new(alloc),
            changes: Pool::new(alloc),
            segs: Pool::new(alloc),
            lasts: Pool::new(alloc),
        }
    }

    fn spare(&self, list: FaceList, class: u8) -> u32
        ensures { result ≡ spare_of (pool_in list self.now) class }
    {
        match list {
            FaceList::Checks => self.checks.spare(class),
            FaceList::Names => self.names.spare(class),
            FaceList::Changes => self.changes.spare(class),
            FaceList::Segs => self.segs.spare(class),
            FaceList::Lasts => self.lasts.spare(class),
        }
    }

    fn reserve(&mut self, list: FaceList, class: u8, n: u32) -> Result<(), NoMemory>
        requires { class ≤ 62 }
        ensures ok { OnOk result (n ≤ spare_of (pool_in list self.new) class) }
        ensures never_lower { (list : FaceList) (class : ℕ) → spare_of (pool_in list self.old) class ≤ spare_of (pool_in list self.new) class }
        ensures out { (list : FaceList) (class : ℕ) → out_of (pool_in list self.new) class ≡ out_of (pool_in list self.old) class }
    {
        match list {
            FaceList::Checks => self.checks.reserve(class, n),
            FaceList::Names => self.names.reserve(class, n),
            FaceList::Changes => self.changes.reserve(class, n),
            FaceList::Segs => self.segs.reserve(class, n),
            FaceList::Lasts => self.lasts.reserve(class, n),
        }
    }

    // The face in spans of its own.
    fn entry_of(&mut self, face: &FaceView) -> Entry
        requires packed { IsPacked face.now }
        requires few { (list : FaceList) → length_in list (room_of_face face.now) ≤ 2 ^ 62 }
        requires spare { (list : FaceList) (class : ℕ) → IsClassOf (length_in list (room_of_face face.now)) class → 1 ≤ spare_of (pool_in list self.old) class }
        ensures summary { summary_in result ≡ summary_of face.now }
        ensures packed { IsPackedEntry result }
        ensures least { (list : FaceList) → IsClassOf (length_in list (room_of_face face.now)) (class_in list result) }
        ensures taken { (list : FaceList) → OneFewer (spare_of (pool_in list self.old)) (spare_of (pool_in list self.new)) (class_in list result) }
        ensures out { (list : FaceList) → OneMore (out_of (pool_in list self.old)) (out_of (pool_in list self.new)) (class_in list result) }
        ensures took { (list : FaceList) → TookSpan (spare_of (pool_in list self.old)) (spare_of (pool_in list self.new)) (length_in list (room_of_face face.now)) }
    {
        Entry {
            checks: put_anew(&mut self.checks, face.checks),
            names: put_anew(&mut self.names, face.names),
            changes: put_anew(&mut self.changes, face.changes),
            segs: put_anew(&mut self.segs, face.segs),
            lasts: put_anew(&mut self.lasts, face.lasts),
            head: head_of(face),
        }
    }

    // Puts the face into the spans of another, or into others where these are of other classes.
    fn refill(&mut self, entry: &mut Entry, face: &FaceView)
        requires packed { IsPacked face.now }
        requires few { (list : FaceList) → length_in list (room_of_face face.now) ≤ 2 ^ 62 }
        requires spare { (list : FaceList) (class : ℕ) → IsClassOf (length_in list (room_of_face face.now)) class → 1 ≤ spare_of (pool_in list self.old) class }
        requires of_pools { (list : FaceList) → 1 ≤ out_of (pool_in list self.old) (class_in list entry.old) }
        ensures summary { summary_in entry.new ≡ summary_of face.now }
        ensures packed { IsPackedEntry entry.new }
        ensures least { (list : FaceList) → IsClassOf (length_in list (room_of_face face.now)) (class_in list entry.new) }
        ensures back { (list : FaceList) → Exchanged (spare_of (pool_in list self.old)) (spare_of (pool_in list self.new)) (class_in list entry.old) (class_in list entry.new) }
        ensures out { (list : FaceList) → Exchanged (out_of (pool_in list self.old)) (out_of (pool_in list self.new)) (class_in list entry.new) (class_in list entry.old) }
        ensures took { (list : FaceList) → TookSpan (spare_of (pool_in list self.old)) (spare_of (pool_in list self.new)) (length_in list (room_of_face face.now)) }
    {
        refill(&mut self.checks, &mut entry.checks, face.checks);
        refill(&mut self.names, &mut entry.names, face.names);
        refill(&mut self.changes, &mut entry.changes, face.changes);
        refill(&mut self.segs, &mut entry.segs, face.segs);
        refill(&mut self.lasts, &mut entry.lasts, face.lasts);
        entry.head = head_of(face);
    }

    // Takes the spans of a face back.
    fn give(&mut self, entry: Entry)
        requires of_pools { (list : FaceList) → 1 ≤ out_of (pool_in list self.old) (class_in list entry) }
        ensures spare { (list : FaceList) → OneMore (spare_of (pool_in list self.old)) (spare_of (pool_in list self.new)) (class_in list entry) }
        ensures out { (list : FaceList) → OneFewer (out_of (pool_in list self.old)) (out_of (pool_in list self.new)) (class_in list entry) }
    {
        self.checks.give(entry.checks);
        self.names.give(entry.names);
        self.changes.give(entry.changes);
        self.segs.give(entry.segs);
        self.lasts.give(entry.lasts);
    }
}

/// The room that a face takes.
pub(crate) fn kept_room(face: &FaceView) -> Room
    requires { IsPacked face.now }
    ensures { result ≡ kept_room (summary_of face.now) }
{
    Room::of(face).kept()
}

fn head_of(face: &FaceView) -> Head
    requires { IsPacked face.now }
    ensures { result ≡ record { lines = face.now.lines; made = face.now.made; room = kept_room (summary_of face.now); ending = face.now.ending } }
{
    Head {
        lines: face.lines,
        made: face.made,
        room: kept_room(face),
        ending: face.ending,
    }
}

/// Faces by place. Only `lengthen` and `reserve` take memory.
#[derive(Drop)]
pub(crate) struct Faces {
    entries: Vec<Option<Entry>>,
    pools: Pools,
}

impl Model for Faces {
    ghost use Rattle.summary_tree.specs.Faces.{FacesView, IsEntryTable, table_view};

    ghost Value = { FacesView };

    ghost view = { λ f. table_view f.entries.items f.pools };

    ghost invariant = { λ f. IsEntryTable f.entries.items f.pools };
}

impl Faces {
    pub fn new(alloc: Global) -> Self
        ensures { result.faces ≡ [] }
    {
        Faces {
            entries: Vec::new(alloc),
            pools: Pools::new(alloc),
        }
    }

    /// How many places there are.
    pub fn len(&self) -> u64
        ensures { result ≡ length self.now.faces }
    {
        self.entries.len() as u64
    }

    /// The face at a place, if there is one.
    pub fn get(&self, at: usize) -> Option<FaceView<'_>>
        ensures some { IfSome result (λ view. face_in self.now at ≡ Some (summary_of view)) }
        ensures packed { IfSome result (λ view. IsPacked view) }
        ensures none { IsNone result → face_in self.now at ≡ None }
    {
        match self.entries.get(at) {
            Some(slot) => match slot {
                Some(entry) => Some(entry.view()),
                None => None,
            },
            None => None,
        }
    }

    /// The room that the face at a place takes, or no room where there is none.
    pub fn room(&self, at: usize) -> Room
        ensures some { (s : Summary) → face_in self.now at ≡ Some s → result ≡ kept_room s }
        ensures none { face_in self.now at ≡ None → result ≡ no_room }
    {
        match self.entries.get(at) {
            Some(slot) => match slot {
                Some(entry) => entry.room(),
                None => Room::NONE,
            },
            None => Room::NONE,
        }
    }

    /// Gives the spans of a place back.
    pub fn clear(&mut self, at: usize)
        ensures faces { self.new.faces ≡ slice_set self.old.faces at None }
        ensures spares { KeepsSpares self.old self.new }
    {
        if at < self.entries.len() {
            if let Some(entry) = self.entries[at].take() {
                self.pools.give(entry);
            }
        }
    }

    /// Puts a face at a place, each list in a span of its own, in place of what was there.
    pub fn put(&mut self, at: usize, face: &FaceView)
        requires place { at < length self.old.faces }
        requires packed { IsPacked face.now }
        requires few { (list : FaceList) → length_in list (room_of_face face.now) ≤ 2 ^ 62 }
        requires spare { (list : FaceList) (class : ℕ) → IsClassOf (length_in list (room_of_face face.now)) class → 1 ≤ spare_in self.old list class }
        ensures faces { self.new.faces ≡ slice_set self.old.faces at (Some (summary_of face.now)) }
        ensures spares { TookSpans self.old self.new (room_of_face face.now) }
    {
        match &mut self.entries[at] {
            Some(entry) => self.pools.refill(entry, face),
            None => self.entries[at] = Some(self.pools.entry_of(face)),
        }
    }

    /// How many spans of the class are spare for one of the lists.
    pub fn spare(&self, list: FaceList, class: u8) -> u32
        ensures { result ≡ spare_in self.now list class }
    {
        self.pools.spare(list, class)
    }

    /// Makes at least `n` spans of the class spare for one of the lists.
    pub fn reserve(&mut self, list: FaceList, class: u8, n: u32) -> Result<(), NoMemory>
        requires { class ≤ 62 }
        ensures ok { OnOk result (n ≤ spare_in self.new list class) }
        ensures faces { self.new.faces ≡ self.old.faces }
        ensures spares { KeepsSpares self.old self.new }
    {
        self.pools.reserve(list, class, n)
    }

    /// Makes so many places.
    pub fn lengthen(&mut self, many: u64) -> Result<(), NoMemory>
        ensures ok { OnOk result (many ≤ length self.new.faces) }
        ensures more { length self.old.faces ≤ length self.new.faces }
        ensures same { (at : ℕ) → face_in self.new at ≡ face_in self.old at }
        ensures spares { KeepsSpares self.old self.new }
    {
        lengthen_entries(&mut self.entries, many)
    }
}

fn lengthen_entries(entries: &mut Vec<Option<Entry>>, many: u64) -> Result<(), NoMemory>
    ensures ok { OnOk result (many ≤ length entries.new.items) }
    ensures more { length entries.old.items ≤ length entries.new.items }
    ensures same { (at : ℕ) → slice_index_or entries.new.items at None ≡ slice_index_or entries.old.items at None }
    ensures spans { (list : FaceList) (class : ℕ) → sum_by (spans_at list class) entries.new.items ≡ sum_by (spans_at list class) entries.old.items }
{
    let start = entries.len() as u64;
    for _i in start..many {
        entries.push(None)?;
    }
    Ok(())
}
