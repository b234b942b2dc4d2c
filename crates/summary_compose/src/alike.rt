//! Conditions of a second face that hold for what the first one asks, found without an index. Two faces of one fabric ask nearly the same
//! in the same order, though they may begin at other places of it: so each condition is looked for from where the last one was found.
ghost use Rattle.std.specs.Prelude.{◌≡◌, ◌↔◌, ◌<◌, ◌≤◌, ◌+◌, ◌^◌, List, true, false, IsTrue, IfSome, [], All, length};
ghost use Rattle.std.specs.List.{list_any};
ghost use Rattle.face_data.specs.declared.face.Check.{Check};
ghost use Rattle.face_data.specs.declared.bearing.Bearing.TheVariants.{Implied};
ghost use Rattle.face_data.specs.Lasts.{last_bearing};
ghost use Rattle.face_data.specs.Answers.ConditionAnswer.{yes_it_does, asks};
ghost use Rattle.face_data.specs.Composition.{from_bearing};
ghost use Rattle.face_data.specs.Conditions.{ask_of, part_of};
ghost use Rattle.face_data.specs.Digests.{CarrierFits, digest_bearing, digest_of, effect_bearing};
ghost use Rattle.face_data.specs.Goodness.{IsInOrder, IsIrredundant};
ghost use Rattle.face_data.specs.Segments.{names_through, new_through};
ghost use Rattle.face_data.specs.View.{CondFits, PartsFit};
ghost use Rattle.summary_compose.specs.Changes.{SpareSliders, changed_needles, changes_in};
ghost use Rattle.summary_compose.specs.Known.{AreImpliedChecks, AreGoodFaces, IsPlainCond, IsReadable, checks_in, noted_answer, notes_of};
ghost use Rattle.summary_compose.specs.Tables.{HasNeedlePlaces, IsTableOf, Note, note_suits};

use crate::laid::count_new;
use crate::names::{names_at, one_name};
use crate::places::Places;
use crate::spots::is_same;
use face_data::{Bearing, Change, Cond, Effect, Ending, FaceView, Part, last_bearing};
use knit_base::{CarrierNo, Needle};

// Whether two conditions are the same.
fn is_same_cond(first: Cond, second: Cond) -> bool
    ensures { IsTrue result ↔ (first ≡ second) }
{
    first == second
}

// Whether the first condition is the second, which isn't on sizes.
fn is_same_plain(first: Cond, second: Cond) -> bool
    ensures same { result ≡ true → first ≡ second }
    ensures plain { result ≡ true → IsPlainCond second }
{
    if !is_same_cond(first, second) {
        return false;
    }
    match second {
        Cond::SizeAtMost(_, _) | Cond::LastNear(_, _, _) => false,
        Cond::RackIs(_) => true,
        Cond::CarrierIn(_) => true,
        Cond::CarrierOut(_) => true,
        Cond::HookFree => true,
        Cond::HookIs(_) => true,
        Cond::HookLacks(_) => true,
    }
}

// How many conditions a small face has at most.
const FEW: usize = 64;

// How many conditions a walk passes over at most, so that little is lost where two faces ask nothing alike: fewer in a face that isn't
// small, since two such faces ask either the same in the same order or something else.
const SPARE: usize = 32;

const SPARE_OF_MANY: usize = 8;

// A walk through a face's conditions, round and round: at which place it is, and how many places it may yet pass over.
#[derive(Clone, Copy, Debug, PartialEq, Eq)]
struct ConditionWalk {
    place: usize,
    spare: usize,
}

impl ConditionWalk {
    // From the first condition on.
    #[inline(always)]
    fn through(face: &FaceView) -> ConditionWalk {
        let is_small = face.checks.len() <= FEW;
        ConditionWalk {
            place: 0,
            spare: if is_small { SPARE } else { SPARE_OF_MANY },
        }
    }
}

// Whether a condition that isn't on sizes is implied: by the effect, or by the same condition of the first face, which a walk finds.
#[inline(never)]
fn plain_implied(a: &FaceView, effect: &Effect, cond: &Cond, walk: ConditionWalk) -> bool
    requires irredundant { IsIrredundant (checks_in a.now) }
    requires carrier { CarrierFits cond.now }
    ensures { result ≡ true → from_bearing (effect_bearing effect.now (ask_of [] cond.now)) (from_bearing (digest_bearing (digest_of (checks_in a.now)) (ask_of [] cond.now)) (asks (ask_of [] cond.now))) ≡ yes_it_does }
{
    match effect.bearing_on(*cond) {
        Bearing::Implied => true,
        Bearing::Refuted => false,
        Bearing::Silent => find_same(a, *cond, walk),
    }
}

// Whether a walk from here finds the same condition.
fn find_same(a: &FaceView, cond: Cond, from: ConditionWalk) -> bool
    requires irredundant { IsIrredundant (checks_in a.now) }
    ensures { result ≡ true → from_bearing (digest_bearing (digest_of (checks_in a.now)) (ask_of [] cond)) (asks (ask_of [] cond)) ≡ yes_it_does }
{
    let mut walk = from;
    while walk.spare > 0 {
        walk.spare -= 1;
        if walk.place >= a.checks.len() {
            walk.place = 0;
            continue;
        }
        if is_same_plain(a.checks[walk.place].cond, cond) {
            return true;
        }
        walk.place += 1;
    }
    false
}

// Whether the first face's condition at a place is that this needle alone holds at most so many loops, or fewer.
#[inline(always)]
fn allows(a: &FaceView, at: usize, needle: Needle, most: u8) -> bool
    requires there { at < length a.now.checks.now }
    requires fits { All (λ (c : Check). CondFits a.now.names.now c.cond) a.now.checks.now }
    ensures { result ≡ true → list_any (note_suits needle 1 most) (notes_of (checks_in a.now)) ≡ true }
{
    let Cond::SizeAtMost(part, least) = a.checks[at].cond else {
        return false;
    };
    if least > most {
        return false;
    }
    match one_name(a.names, part) {
        Some(same) => is_same(needle, same),
        None => false,
    }
}

// Whether a walk finds such a condition. It goes on behind it.
#[inline(always)]
fn find_size(a: &FaceView, needle: Needle, most: u8, walk: &mut ConditionWalk) -> bool
    requires fits { All (λ (c : Check). CondFits a.now.names.now c.cond) a.now.checks.now }
    ensures { result ≡ true → list_any (note_suits needle 1 most) (notes_of (checks_in a.now)) ≡ true }
{
    while walk.spare > 0 {
        let at = walk.place;
        if at >= a.checks.len() {
            walk.place = 0;
            walk.spare -= 1;
            continue;
        }
        walk.place = at + 1;
        if allows(a, at, needle, most) {
            return true;
        }
        walk.spare -= 1;
    }
    false
}

// How many new loops these needles hold after the first face, unless they hold what stood on a needle before.
#[inline(always)]
fn count_held(a: &FaceView, places: &Places, needles: &[Needle]) -> Option<u64>
    requires few { new_through (changes_in a.now) needles.now < 2 ^ 64 }
    requires noted { IsTableOf places.now.table.entries.items (changed_needles a.now.changes.now) }
    requires fit { PartsFit a.now.segs.now a.now.changes.now }
    requires order { IsInOrder (changes_in a.now) }
    ensures entries { IfSome result (λ count. names_through (changes_in a.now) needles.now ≡ []) }
    ensures count { IfSome result (λ count. count ≡ new_through (changes_in a.now) needles.now) }
{
    let mut count = 0;
    for n in needles {
        let Some(segs) = places.segments_on(a, *n) else {
            return None;
        };
        let Some(more) = count_new(segs) else {
            return None;
        };
        count += more;
    }
    Some(count)
}

// Whether these needles hold new loops alone after the first face, and at most so many.
#[inline(always)]
fn hold_new(a: &FaceView, places: &Places, needles: &[Needle], most: u8) -> bool
    requires few { new_through (changes_in a.now) needles.now < 2 ^ 64 }
    requires noted { IsTableOf places.now.table.entries.items (changed_needles a.now.changes.now) }
    requires fit { PartsFit a.now.segs.now a.now.changes.now }
    requires order { IsInOrder (changes_in a.now) }
    ensures { result ≡ true → (notes : List Note) → noted_answer notes (names_through (changes_in a.now) needles.now) (new_through (changes_in a.now) needles.now) most ≡ yes_it_does }
{
    match count_held(a, places, needles) {
        Some(count) => count <= u64::from(most),
        None => false,
    }
}

// Whether it is implied that a slider holds at most so many loops, where the first face changes none.
#[inline(always)]
fn slider_implied(
    a: &FaceView,
    names: &[Needle],
    part: Part,
    most: u8,
    walk: &mut ConditionWalk,
) -> bool
    requires spared { SpareSliders a.now.changes.now }
    requires fits { All (λ (c : Check). CondFits a.now.names.now c.cond) a.now.checks.now }
    requires part { part.start + part.len ≤ length names.now }
    ensures { result ≡ true → noted_answer (notes_of (checks_in a.now)) (names_through (changes_in a.now) (part_of names.now part)) (new_through (changes_in a.now) (part_of names.now part)) most ≡ yes_it_does }
{
    let Some(needle) = one_name(names, part) else {
        return false;
    };
    if !needle.bed.is_slider() {
        return false;
    }
    find_size(a, needle, most, walk)
}

// Whether it is implied that the needles of this part hold at most so many loops: they hold few new ones, or it is one needle that the
// first face leaves as it was, of which it asks as much.
#[inline(always)]
fn size_implied(
    places: &Places,
    a: &FaceView,
    names: &[Needle],
    part: Part,
    most: u8,
    walk: &mut ConditionWalk,
) -> bool
    requires fits { All (λ (c : Check). CondFits a.now.names.now c.cond) a.now.checks.now }
    requires part { part.start + part.len ≤ length names.now }
    requires few { new_through (changes_in a.now) (part_of names.now part) < 2 ^ 64 }
    requires noted { IsTableOf places.now.table.entries.items (changed_needles a.now.changes.now) }
    requires fit { PartsFit a.now.segs.now a.now.changes.now }
    requires order { IsInOrder (changes_in a.now) }
    ensures { result ≡ true → noted_answer (notes_of (checks_in a.now)) (names_through (changes_in a.now) (part_of names.now part)) (new_through (changes_in a.now) (part_of names.now part)) most ≡ yes_it_does }
{
    if let Some(needle) = one_name(names, part) {
        if places.segments_on(a, needle).is_none() {
            return find_size(a, needle, most, walk);
        }
    }
    hold_new(a, places, names_at(names, part), most)
}

// The same, where the first face's changes are noted only if that is needed.
#[inline(always)]
fn size_holds(
    spared: bool,
    noted: &mut bool,
    places: &mut Places,
    a: &FaceView,
    names: &[Needle],
    part: Part,
    most: u8,
    walk: &mut ConditionWalk,
) -> bool
    requires spared { spared ≡ true → SpareSliders a.now.changes.now }
    requires noted { noted.old ≡ true → IsTableOf places.old.table.entries.items (changed_needles a.now.changes.now) }
    requires places { HasNeedlePlaces places.old }
    requires fits { All (λ (c : Check). CondFits a.now.names.now c.cond) a.now.checks.now }
    requires part { part.start + part.len ≤ length names.now }
    requires few { new_through (changes_in a.now) (part_of names.now part) < 2 ^ 64 }
    requires fit { PartsFit a.now.segs.now a.now.changes.now }
    requires order { IsInOrder (changes_in a.now) }
    ensures holds { result ≡ true → noted_answer (notes_of (checks_in a.now)) (names_through (changes_in a.now) (part_of names.now part)) (new_through (changes_in a.now) (part_of names.now part)) most ≡ yes_it_does }
    ensures noted { noted.new ≡ true → IsTableOf places.new.table.entries.items (changed_needles a.now.changes.now) }
    ensures places { HasNeedlePlaces places.new }
{
    if spared {
        if slider_implied(a, names, part, most, walk) {
            return true;
        }
    }
    places.note_once(a.changes, *noted);
    *noted = true;
    size_implied(places, a, names, part, most, walk)
}

// Whether the second face's condition at a place, as those before it, holds for what the first face asks.
#[inline(always)]
fn implied(
    spared: bool,
    noted: &mut bool,
    places: &mut Places,
    a: &FaceView,
    effect: &Effect,
    b: &FaceView,
    at: usize,
    walk: &mut ConditionWalk,
) -> bool
    requires good { AreGoodFaces a.now b.now }
    requires through { a.now.ending ≡ Ending.Through effect.now }
    requires alike { AreImpliedChecks a.now b.now effect.now at }
    requires there { at < length b.now.checks.now }
    requires spared { spared ≡ true → SpareSliders a.now.changes.now }
    requires noted { noted.old ≡ true → IsTableOf places.old.table.entries.items (changed_needles a.now.changes.now) }
    requires places { HasNeedlePlaces places.old }
    requires fits { All (λ (c : Check). CondFits a.now.names.now c.cond) a.now.checks.now }
    requires readable { All (λ (c : Check). IsReadable a.now b.now.names.now c.cond) b.now.checks.now }
    requires fit { PartsFit a.now.segs.now a.now.changes.now }
    requires order { IsInOrder (changes_in a.now) }
    ensures alike { result ≡ true → AreImpliedChecks a.now b.now effect.now (at + 1) }
    ensures noted { noted.new ≡ true → IsTableOf places.new.table.entries.items (changed_needles a.now.changes.now) }
    ensures places { HasNeedlePlaces places.new }
{
    if let Cond::SizeAtMost(part, most) = b.checks[at].cond {
        return size_holds(spared, noted, places, a, b.names, part, most, walk);
    }
    if let Cond::LastNear(c, number, float) = b.checks[at].cond {
        return near_implied(a, c, number, float);
    }
    plain_implied(a, effect, &b.checks[at].cond, *walk)
}

// Whether it is implied that a carrier's last needle is near: the first face changes it.
#[inline(never)]
fn near_implied(a: &FaceView, c: CarrierNo, at: i16, float: u16) -> bool
    ensures { result ≡ true → last_bearing a.now.lasts.now c at float ≡ Implied }
{
    last_bearing(a.lasts, c, at, float) == Bearing::Implied
}

/// How many of the second face's first conditions hold for what the first one asks, as far as that is seen at little cost: each by the
/// effect, by new loops, or by a condition of the first face. Also answers whether the first face's changes were noted.
#[inline(never)]
pub fn count_alike(
    places: &mut Places,
    a: &FaceView,
    effect: &Effect,
    b: &FaceView,
) -> (usize, bool)
    requires good { AreGoodFaces a.now b.now }
    requires through { a.now.ending ≡ Ending.Through effect.now }
    requires fits { All (λ (c : Check). CondFits a.now.names.now c.cond) a.now.checks.now }
    requires readable { All (λ (c : Check). IsReadable a.now b.now.names.now c.cond) b.now.checks.now }
    requires fit { PartsFit a.now.segs.now a.now.changes.now }
    requires order { IsInOrder (changes_in a.now) }
    requires places { HasNeedlePlaces places.old }
    ensures alike { AreImpliedChecks a.now b.now effect.now result.0 }
    ensures noted { result.1 ≡ true → IsTableOf places.new.table.entries.items (changed_needles a.now.changes.now) }
    ensures places { HasNeedlePlaces places.new }
{
    let spared = are_spared(a, b);
    let mut noted = false;
    let mut walk = ConditionWalk::through(a);
    let mut i = 0;
    while i < b.checks.len() {
        if !implied(spared, &mut noted, places, a, effect, b, i, &mut walk) {
            return (i, noted);
        }
        i += 1;
    }
    (i, noted)
}

// Whether the two faces may ask alike, so that looking for that may take time: small ones, or those that end alike.
#[inline(always)]
fn may_be_alike(a: &FaceView, b: &FaceView) -> bool {
    let count = a.checks.len();
    if count <= FEW {
        return true;
    }
    if count != b.checks.len() {
        return false;
    }
    is_same_cond(a.checks[count - 1].cond, b.checks[count - 1].cond)
}

// Whether no change is of a slider, where it is worth while to see that.
#[inline(always)]
fn are_spared(a: &FaceView, b: &FaceView) -> bool
    ensures { result ≡ true → SpareSliders a.now.changes.now }
{
    if !may_be_alike(a, b) {
        return false;
    }
    spare_sliders(a.changes)
}

// Whether no change is of a slider.
fn spare_sliders(changes: &[Change]) -> bool
    ensures { result ≡ true → SpareSliders changes.now }
{
    let mut i = 0;
    while i < changes.len() {
        if changes[i].needle.bed.is_slider() {
            return false;
        }
        i += 1;
    }
    true
}
