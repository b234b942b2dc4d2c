//! Needles read through a face.
ghost use Rattle.std.specs.Prelude.{◌≡◌, ◌<◌, ◌≤◌, ◌+◌, ◌^◌, [], ◌∷◌, ◌++◌, length, map, vec_len, vec_capacity, IfSome};
ghost use Rattle.face_data.specs.Conditions.{part_of};
ghost use Rattle.face_data.specs.Goodness.{IsInOrder};
ghost use Rattle.face_data.specs.Segments.{segments_on, entry_needles_of, names_through, new_of, new_through};
ghost use Rattle.summary_compose.specs.Changes.{changed_needles, changes_in};
ghost use Rattle.face_data.specs.View.{PartsFit};
ghost use Rattle.summary_compose.specs.Tables.{IsTableOf};

use crate::places::Places;
use face_data::{FaceView, Part, Seg};
use knit_base::Needle;

/// The needles of a part.
#[inline(always)]
pub fn names_at(names: &[Needle], part: Part) -> &[Needle]
    requires { part.start + part.len ≤ length names.now }
    ensures { result.now ≡ part_of names.now part }
{
    let start = part.start as usize;
    let end = start + part.len as usize;
    &names[start..end]
}

/// The needle of a part that has one alone.
#[inline(always)]
pub fn one_name(names: &[Needle], part: Part) -> Option<Needle>
    requires { part.start + part.len ≤ length names.now }
    ensures { IfSome result (λ n. part_of names.now part ≡ n ∷ []) }
{
    if part.len != 1 {
        return None;
    }
    Some(names[part.start as usize])
}

/// Appends the needles whose entries these needles hold after the face, and tells how many new loops they hold.
#[inline(always)]
pub fn read_names(more: &[Needle], a: &FaceView, places: &Places, names: &mut Vec<Needle>) -> u64
    requires room { vec_len names.old + length (names_through (changes_in a.now) more.now) ≤ vec_capacity names.old }
    requires few { new_through (changes_in a.now) more.now < 2 ^ 64 }
    requires noted { IsTableOf places.now.table.entries.items (changed_needles a.now.changes.now) }
    requires fit { PartsFit a.now.segs.now a.now.changes.now }
    requires order { IsInOrder (changes_in a.now) }
    ensures items { names.new.items ≡ names.old.items ++ names_through (changes_in a.now) more.now }
    ensures capacity { vec_capacity names.new ≡ vec_capacity names.old }
    ensures count { result ≡ new_through (changes_in a.now) more.now }
{
    let mut count = 0;
    for n in more {
        count += read_needle(*n, a, places, names);
    }
    count
}

// The same of one needle.
#[inline(always)]
fn read_needle(n: Needle, a: &FaceView, places: &Places, names: &mut Vec<Needle>) -> u64
    requires room { vec_len names.old + length (entry_needles_of (segments_on (changes_in a.now) n)) ≤ vec_capacity names.old }
    requires noted { IsTableOf places.now.table.entries.items (changed_needles a.now.changes.now) }
    requires fit { PartsFit a.now.segs.now a.now.changes.now }
    requires order { IsInOrder (changes_in a.now) }
    ensures items { names.new.items ≡ names.old.items ++ entry_needles_of (segments_on (changes_in a.now) n) }
    ensures capacity { vec_capacity names.new ≡ vec_capacity names.old }
    ensures count { result ≡ new_of (segments_on (changes_in a.now) n) }
{
    match places.segments_on(a, n) {
        Some(held) => read_entries(held, names),
        None => {
            names.push_reserved(n);
            0
        }
    }
}

// The same of segments.
#[inline(always)]
fn read_entries(segs: &[Seg], names: &mut Vec<Needle>) -> u64
    requires room { vec_len names.old + length (entry_needles_of segs.now) ≤ vec_capacity names.old }
    ensures items { names.new.items ≡ names.old.items ++ entry_needles_of segs.now }
    ensures capacity { vec_capacity names.new ≡ vec_capacity names.old }
    ensures count { result ≡ new_of segs.now }
{
    let mut count = 0;
    for seg in segs {
        match *seg {
            Seg::Entry(n) => names.push_reserved(n),
            Seg::New(_) => count += 1,
        }
    }
    count
}
