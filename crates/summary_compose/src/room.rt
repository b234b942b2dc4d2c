//! Room for faces, as numbers of items.
ghost use Rattle.std.specs.Prelude.{◌≡◌, ◌↔◌, ◌+◌, ◌*◌, IsTrue, length, map, false};
ghost use Rattle.face_data.specs.Conditions.{part_of};
ghost use Rattle.face_data.specs.Segments.{entry_needles_of};
ghost use Rattle.face_data.specs.View.{changed_of};
ghost use Rattle.summary_compose.specs.Composing.{IsNoGreater};
ghost use Rattle.summary_compose.specs.Rooms.{CanBeMade, capped_room, greater_room, kept_of, room_after, room_of_face, room_of_both_faces, widest_of};

use face_data::{Change, FaceView, Part, Seg};

/// How many items the lists of a face may have, and how many of its segments may be entries, in all and on one needle. A number that would
/// pass 2 ^ 62 stands as 2 ^ 62 + 1, for which no scratch has room.
#[derive(Clone, Copy, Debug, PartialEq, Eq)]
pub struct Room {
    pub checks: u64,
    pub names: u64,
    pub changes: u64,
    pub segs: u64,
    pub entries: u64,
    pub widest: u64,
    pub lasts: u64,
}

/// The greatest room that can be made.
const GREATEST: u64 = 1 << 62;

#[inline(always)]
fn kept(n: u64) -> u64
    ensures { result ≡ capped_room n }
{
    if n > GREATEST { GREATEST + 1 } else { n }
}

fn sum(a: u64, b: u64) -> u64
    ensures { result ≡ capped_room (a + b) }
{
    kept(a.saturating_add(b))
}

fn product(a: u64, b: u64) -> u64
    ensures { result ≡ capped_room (a * b) }
{
    kept(a.saturating_mul(b))
}

impl Room {
    /// No room, not even for the face of no line.
    pub const NONE: Room = Room {
        checks: 0,
        names: 0,
        changes: 0,
        segs: 0,
        entries: 0,
        widest: 0,
        lasts: 0,
    };

    /// Whether this room is in each field no greater than the other.
    pub fn is_within(&self, other: &Room) -> bool
        ensures { IsTrue result ↔ IsNoGreater self.now other.now }
    {
        self.checks <= other.checks
            && self.names <= other.names
            && self.changes <= other.changes
            && self.segs <= other.segs
            && self.entries <= other.entries
            && self.widest <= other.widest
            && self.lasts <= other.lasts
    }

    /// The greater of both in each field.
    pub fn max(&self, other: &Room) -> Room
        ensures exact { result ≡ greater_room self.now other.now }
        ensures first { IsNoGreater self.now result }
        ensures second { IsNoGreater other.now result }
    {
        Room {
            checks: self.checks.max(other.checks),
            names: self.names.max(other.names),
            changes: self.changes.max(other.changes),
            segs: self.segs.max(other.segs),
            entries: self.entries.max(other.entries),
            widest: self.widest.max(other.widest),
            lasts: self.lasts.max(other.lasts),
        }
    }

    /// Whether a field is past what can be made.
    pub fn is_past_all(&self) -> bool
        ensures { result ≡ false → CanBeMade self.now }
    {
        self.checks > GREATEST
            || self.names > GREATEST
            || self.changes > GREATEST
            || self.segs > GREATEST
            || self.lasts > GREATEST
    }

    /// The same where no number passes 2 ^ 62 + 1.
    pub fn kept(&self) -> Room
        ensures { result ≡ kept_of self.now }
    {
        Room {
            checks: kept(self.checks),
            names: kept(self.names),
            changes: kept(self.changes),
            segs: kept(self.segs),
            entries: kept(self.entries),
            widest: kept(self.widest),
            lasts: kept(self.lasts),
        }
    }

    /// The room that the face takes.
    pub fn of(face: &FaceView) -> Room
        ensures { result ≡ room_of_face face.now }
    {
        let entries = entries_in(face.segs);
        Room {
            checks: face.checks.len() as u64,
            names: face.names.len() as u64,
            changes: face.changes.len() as u64,
            segs: face.segs.len() as u64,
            entries,
            widest: widest_in(face.segs, face.changes),
            lasts: face.lasts.len() as u64,
        }
    }

    /// Room for the composition of a face with this room and one with the next. A needle that a check of the second names may hold as many
    /// entries as any after the first, and a check may name each of the first one's entries.
    pub fn after(&self, next: &Room) -> Room
        ensures { result ≡ room_after self.now next.now }
    {
        let each = product(next.names, self.widest);
        let all = sum(next.names, product(next.checks, self.entries));
        let entries = sum(self.entries, next.entries);
        Room {
            checks: sum(self.checks, next.checks),
            names: sum(self.names, each.min(all)),
            changes: sum(self.changes, next.changes),
            segs: sum(self.segs, next.segs),
            entries,
            widest: product(self.widest, next.widest).min(entries.max(1)),
            lasts: sum(self.lasts, next.lasts),
        }
    }
}

fn entries_in(segs: &[Seg]) -> u64
    ensures { result ≡ length (entry_needles_of segs.now) }
{
    let mut entries = 0u64;
    for seg in segs {
        if let Seg::Entry(_) = *seg {
            entries += 1;
        }
    }
    entries
}

// The segments of a part, as far as they are there.
#[inline(always)]
fn part_in(segs: &[Seg], part: Part) -> &[Seg]
    ensures { result.now ≡ part_of segs.now part }
{
    let start = (part.start as usize).min(segs.len());
    let end = start + (part.len as usize).min(segs.len() - start);
    &segs[start..end]
}

// The most entries that a needle holds. A change of fewer segments than that isn't read.
fn widest_in(segs: &[Seg], changes: &[Change]) -> u64
    ensures { result ≡ widest_of (map (changed_of segs.now) changes.now) }
{
    let mut widest = 1u64;
    for change in changes {
        if u64::from(change.part.len) > widest {
            widest = widest.max(entries_in(part_in(segs, change.part)));
        }
    }
    widest
}

/// Room for the composition of the two faces. Takes no memory.
pub fn room_for(a: &FaceView, b: &FaceView) -> Room
    ensures { result ≡ room_of_both_faces a.now b.now }
{
    Room::of(a).after(&Room::of(b))
}
