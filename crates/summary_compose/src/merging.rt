//! The changes of two faces in the order of needles.
ghost use Rattle.std.specs.Prelude.{◌≡◌, ◌<◌, ◌≤◌, ◌+◌, ◌^◌, ◌⊎◌, true, [], ◌++◌, All, drop, length, map, slice_index_or};
ghost use Rattle.face_data.specs.Composition.{changes_merged};
ghost use Rattle.face_data.specs.Through.{changes_through};
ghost use Rattle.knit_base.specs.Needle.{needle_cmp};
ghost use Rattle.face_data.specs.declared.face.Change.{Change};
ghost use Rattle.face_data.specs.Conditions.{part_of};
ghost use Rattle.face_data.specs.Goodness.{IsInOrder};
ghost use Rattle.face_data.specs.Segments.{entry_needles_of};
ghost use Rattle.face_data.specs.View.{changed_of, ArePacked, PartsFit};
ghost use Rattle.summary_compose.specs.Changes.{changed_needles, HaveOffsets, segs_in, changes_in, merged_of};
ghost use Rattle.summary_compose.specs.Tables.{HasNeedlePlaces, IsTableOf};

use crate::laid::{ComposedChanges, count_new, new_in};
use crate::places::Places;
use crate::spots::is_same;
use face_data::{Change, FaceView, Seg};
use knit_base::needle_order;
use std::cmp::Ordering;

/// Whose change comes next: that of the first face, that of the second, or the second's in the place of the first's.
#[derive(Clone, Copy, Debug, PartialEq, Eq)]
pub enum Turn {
    First,
    Second,
    Both,
}

// Whose change comes next, where `i` and `j` are the places up to which the changes are laid.
#[inline(always)]
fn whose_turn(a: &[Change], b: &[Change], i: usize, j: usize) -> Turn
    requires { (i < length a.now) ⊎ (j < length b.now) }
    ensures first { result ≡ Turn.First → (i < length a.now) }
    ensures less { result ≡ Turn.First → (d : Change) → j < length b.now → needle_cmp (slice_index_or a.now i d).needle (slice_index_or b.now j d).needle ≡ Ordering.Less }
    ensures second { result ≡ Turn.Second → (j < length b.now) }
    ensures greater { result ≡ Turn.Second → (d : Change) → i < length a.now → needle_cmp (slice_index_or a.now i d).needle (slice_index_or b.now j d).needle ≡ Ordering.Greater }
    ensures both_first { result ≡ Turn.Both → (i < length a.now) }
    ensures both_second { result ≡ Turn.Both → (j < length b.now) }
    ensures equal { result ≡ Turn.Both → (d : Change) → needle_cmp (slice_index_or a.now i d).needle (slice_index_or b.now j d).needle ≡ Ordering.Equal }
{
    if j >= b.len() {
        return Turn::First;
    }
    if i >= a.len() {
        return Turn::Second;
    }
    let first = a[i].needle;
    let second = b[j].needle;
    if is_same(first, second) {
        return Turn::Both;
    }
    match needle_order(&first, &second) {
        Ordering::Less => Turn::First,
        Ordering::Equal => Turn::Both,
        Ordering::Greater => Turn::Second,
    }
}

// The segments of a change.
#[inline(always)]
fn segs_of<'a>(segs: &'a [Seg], change: Change) -> &'a [Seg]
    requires { change.part.start + change.part.len ≤ length segs.now }
    ensures segs { result.now ≡ part_of segs.now change.part }
    ensures few { length result.now < 2 ^ 32 }
{
    let start = change.part.start as usize;
    let end = start + change.part.len as usize;
    &segs[start..end]
}

// Lays the changes at the same places of both faces, as long as both are of one needle and the second leaves one new loop on it.
// Answers how many they are.
fn lay_alike(laid: &mut ComposedChanges, a: &FaceView, b: &FaceView) -> usize
    requires none { laid.old.changes ≡ [] }
    requires room { length (merged_of a.now b.now) ≤ laid.old.change_room }
    requires seg_room { segs_in (merged_of a.now b.now) ≤ laid.old.seg_room }
    requires second_fit { PartsFit b.now.segs.now b.now.changes.now }
    requires offsets { HaveOffsets a.now.lines b.now.segs.now b.now.changes.now }
    ensures rest { laid.new.changes ++ changes_merged (drop result (changes_in a.now)) (drop result (changes_through (changes_in a.now) a.now.lines (changes_in b.now))) ≡ merged_of a.now b.now }
    ensures change_room { laid.new.change_room ≡ laid.old.change_room }
    ensures seg_room { laid.new.seg_room ≡ laid.old.seg_room }
{
    let lines = a.lines;
    let first = a.changes;
    let second = b.changes;
    let segs = b.segs;
    let count = first.len().min(second.len());
    let mut i = 0;
    while i < count {
        let change = second[i];
        if !is_same(first[i].needle, change.needle) {
            return i;
        }
        let Some(offset) = new_in(segs, change.part) else {
            return i;
        };
        laid.lay_new(change.needle, lines + offset);
        i += 1;
    }
    i
}

// Whether both faces change the same needles. Faces that lie apart differ in the last ones.
#[inline(always)]
fn change_same(a: &FaceView, b: &FaceView) -> bool
    ensures { result ≡ true → merged_of a.now b.now ≡ changes_through (changes_in a.now) a.now.lines (changes_in b.now) }
{
    if a.changes.len() != b.changes.len() {
        return false;
    }
    let mut i = a.changes.len();
    while i > 0 {
        i -= 1;
        if !is_same(a.changes[i].needle, b.changes[i].needle) {
            return false;
        }
    }
    true
}

// Whether all segments are new loops.
#[inline(always)]
fn are_new(segs: &[Seg]) -> bool
    ensures { result ≡ true → entry_needles_of segs.now ≡ [] }
{
    match count_new(segs) {
        Some(_) => true,
        None => false,
    }
}

/// Lays the changes of both faces in the order of needles, those of the second read through the first. Notes the first face's changes
/// only where that is needed.
pub fn merge(
    laid: &mut ComposedChanges,
    a: &FaceView,
    b: &FaceView,
    places: &mut Places,
    noted: bool,
)
    requires none { laid.old.changes ≡ [] }
    requires room { length (merged_of a.now b.now) ≤ laid.old.change_room }
    requires seg_room { segs_in (merged_of a.now b.now) ≤ laid.old.seg_room }
    requires few { segs_in (merged_of a.now b.now) < 2 ^ 32 }
    requires noted { noted ≡ true → IsTableOf places.old.table.entries.items (changed_needles a.now.changes.now) }
    requires places { HasNeedlePlaces places.old }
    requires fit { PartsFit a.now.segs.now a.now.changes.now }
    requires order { IsInOrder (map (changed_of a.now.segs.now) a.now.changes.now) }
    requires second_packed { ArePacked b.now.segs.now b.now.changes.now }
    requires offsets { HaveOffsets a.now.lines b.now.segs.now b.now.changes.now }
    ensures changes { laid.new.changes ≡ merged_of a.now b.now }
    ensures change_room { laid.old.change_room ≤ laid.new.change_room }
    ensures seg_room { laid.old.seg_room ≤ laid.new.seg_room }
    ensures places { HasNeedlePlaces places.new }
{
    if change_same(a, b) {
        if are_new(b.segs) {
            laid.lay_raised(b.changes, b.segs, a.lines);
            return;
        }
    }
    let alike = lay_alike(laid, a, b);
    if alike >= a.changes.len().max(b.changes.len()) {
        return;
    }
    places.note_once(a.changes, noted);
    lay_others(laid, a, b, places, alike);
}

// Lays the changes from this place of both faces on.
#[inline(never)]
fn lay_others(laid: &mut ComposedChanges, a: &FaceView, b: &FaceView, places: &Places, alike: usize)
    requires begun { laid.old.changes ++ changes_merged (drop alike (changes_in a.now)) (drop alike (changes_through (changes_in a.now) a.now.lines (changes_in b.now))) ≡ merged_of a.now b.now }
    requires room { length (merged_of a.now b.now) ≤ laid.old.change_room }
    requires seg_room { segs_in (merged_of a.now b.now) ≤ laid.old.seg_room }
    requires few { segs_in (merged_of a.now b.now) < 2 ^ 32 }
    requires noted { IsTableOf places.now.table.entries.items (changed_needles a.now.changes.now) }
    requires fit { PartsFit a.now.segs.now a.now.changes.now }
    requires order { IsInOrder (map (changed_of a.now.segs.now) a.now.changes.now) }
    requires second_fit { PartsFit b.now.segs.now b.now.changes.now }
    requires offsets { HaveOffsets a.now.lines b.now.segs.now b.now.changes.now }
    ensures changes { laid.new.changes ≡ merged_of a.now b.now }
    ensures change_room { laid.new.change_room ≡ laid.old.change_room }
    ensures seg_room { laid.new.seg_room ≡ laid.old.seg_room }
{
    let mut i = alike;
    let mut j = alike;
    while i < a.changes.len() || j < b.changes.len() {
        match whose_turn(a.changes, b.changes, i, j) {
            Turn::First => {
                let change = a.changes[i];
                laid.lay_old(change.needle, segs_of(a.segs, change));
                i += 1;
            }
            Turn::Second => {
                let change = b.changes[j];
                laid.lay_read(change.needle, segs_of(b.segs, change), a, places);
                j += 1;
            }
            Turn::Both => {
                let change = b.changes[j];
                laid.lay_read(change.needle, segs_of(b.segs, change), a, places);
                i += 1;
                j += 1;
            }
        }
    }
}
