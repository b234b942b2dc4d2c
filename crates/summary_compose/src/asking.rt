//! One condition of a second face, read through the first and held against the kept ones.
ghost use Rattle.std.specs.Prelude.{◌≡◌, ℕ, ◌<◌, ◌≤◌, ◌+◌, ◌^◌, List, [], true, length, map};
ghost use Rattle.knit_base.specs.declared.needle.Needle.{Needle};
ghost use Rattle.face_data.specs.declared.digest.Digest.{Digest};
ghost use Rattle.face_data.specs.Answers.{read_answer};
ghost use Rattle.face_data.specs.Answers.ConditionAnswer.{asks};
ghost use Rattle.face_data.specs.Chains.{answer_known, chain_at};
ghost use Rattle.face_data.specs.Composition.{from_bearing, answer_of_kept};
ghost use Rattle.face_data.specs.Conditions.Ask.{last_near};
ghost use Rattle.face_data.specs.Lasts.{last_bearing};
ghost use Rattle.face_data.specs.Conditions.{ask_of, part_of};
ghost use Rattle.face_data.specs.Digests.{CarrierFits, digest_bearing, effect_bearing};
ghost use Rattle.face_data.specs.Goodness.{IsInOrder};
ghost use Rattle.face_data.specs.Segments.{names_through, new_through};
ghost use Rattle.face_data.specs.View.{size_needles_of, PartsFit};
ghost use Rattle.summary_compose.specs.Changes.{changed_needles, changes_in};
ghost use Rattle.summary_compose.specs.Known.{IsPlainCond, IsReadable, Knows, StepIs, names_count, noted_answer};
ghost use Rattle.summary_compose.specs.Tables.{Note, IsTableOf};

use crate::index::Index;
use crate::kept::KeptFaceConditions;
use crate::names::names_at;
use crate::places::Places;
use crate::sizes::SizeWord;
use face_data::{Bearing, Check, Cond, Digest, Effect, FaceView, Part, last_bearing};
use knit_base::{CarrierNo, Fault, Needle};

/// Asks a condition that isn't on sizes. False where it can't hold.
#[inline(always)]
pub fn ask_plain(
    kept: &mut KeptFaceConditions,
    digest: &mut Digest,
    effect: &Effect,
    cond: Cond,
    fault: Fault,
) -> bool
    requires plain { IsPlainCond cond }
    requires carrier { CarrierFits cond }
    requires room { length kept.old.checks < kept.old.check_room }
    ensures step { StepIs (from_bearing (effect_bearing effect.now (ask_of [] cond)) (from_bearing (digest_bearing digest.old (ask_of [] cond)) (asks (ask_of [] cond)))) kept.old.checks fault result kept.new.checks }
    ensures knows { (notes : List Note) → Knows digest.old notes kept.old.checks → result ≡ true → Knows digest.new notes kept.new.checks }
    ensures check_room { kept.new.check_room ≡ kept.old.check_room }
    ensures name_room { kept.new.name_room ≡ kept.old.name_room }
{
    match effect.bearing_on(cond) {
        Bearing::Implied => true,
        Bearing::Refuted => false,
        Bearing::Silent => match digest.bearing_on(cond) {
            Bearing::Implied => true,
            Bearing::Refuted => false,
            Bearing::Silent => {
                digest.note(cond);
                kept.keep_plain(fault, cond);
                true
            }
        },
    }
}

/// Asks a condition on the sizes of these needles. False where it can't hold.
#[inline(always)]
pub fn ask_sized(
    kept: &mut KeptFaceConditions,
    index: &mut Index,
    a: &FaceView,
    places: &Places,
    needles: &[Needle],
    most: u8,
    fault: Fault,
) -> bool
    requires check_room { length kept.old.checks < kept.old.check_room }
    requires name_room { names_count kept.old.checks + length (names_through (changes_in a.now) needles.now) ≤ kept.old.name_room }
    requires index_room { length index.old.notes + length (names_through (changes_in a.now) needles.now) ≤ index.old.room }
    requires few { length (names_through (changes_in a.now) needles.now) < 2 ^ 32 }
    requires new_few { new_through (changes_in a.now) needles.now < 2 ^ 64 }
    requires noted { IsTableOf places.now.table.entries.items (changed_needles a.now.changes.now) }
    requires fit { PartsFit a.now.segs.now a.now.changes.now }
    requires order { IsInOrder (changes_in a.now) }
    ensures step { StepIs (noted_answer index.old.notes (names_through (changes_in a.now) needles.now) (new_through (changes_in a.now) needles.now) most) kept.old.checks fault result kept.new.checks }
    ensures knows { (digest : Digest) → Knows digest index.old.notes kept.old.checks → result ≡ true → Knows digest index.new.notes kept.new.checks }
    ensures check_room { kept.new.check_room ≡ kept.old.check_room }
    ensures name_room { kept.new.name_room ≡ kept.old.name_room }
    ensures index_room { index.new.room ≡ index.old.room }
{
    if let [needle] = needles {
        if places.segments_on(a, *needle).is_none() {
            kept.ask_own(index, *needle, most, fault);
            return true;
        }
    }
    match kept.ask_size(index, a, places, needles, most, fault) {
        SizeWord::Holds => true,
        SizeWord::Fails => false,
        SizeWord::Asks(_) => true,
    }
}

/// Asks that a carrier's last needle is near. False where it can't be.
#[inline(never)]
pub fn ask_near(
    kept: &mut KeptFaceConditions,
    a: &FaceView,
    c: CarrierNo,
    at: i16,
    float: u16,
    fault: Fault,
) -> bool
    requires room { length kept.old.checks < kept.old.check_room }
    ensures step { StepIs (from_bearing (last_bearing a.now.lasts.now c at float) (answer_of_kept kept.old.checks (last_near c at float))) kept.old.checks fault result kept.new.checks }
    ensures knows { (digest : Digest) (notes : List Note) → Knows digest notes kept.old.checks → result ≡ true → Knows digest notes kept.new.checks }
    ensures check_room { kept.new.check_room ≡ kept.old.check_room }
    ensures name_room { kept.new.name_room ≡ kept.old.name_room }
{
    match last_bearing(a.lasts, c, at, float) {
        Bearing::Implied => true,
        Bearing::Refuted => false,
        Bearing::Silent => {
            if !kept.has(c, at, float) {
                kept.keep_plain(fault, Cond::LastNear(c, at, float));
            }
            true
        }
    }
}

/// Asks a condition of the second face. False where it can't hold.
#[inline(always)]
pub fn ask(
    kept: &mut KeptFaceConditions,
    index: &mut Index,
    digest: &mut Digest,
    places: &Places,
    a: &FaceView,
    effect: &Effect,
    names: &[Needle],
    cond: Cond,
    fault: Fault,
) -> bool
    requires readable { IsReadable a.now names.now cond }
    requires knows { Knows digest.old index.old.notes kept.old.checks }
    requires check_room { length kept.old.checks < kept.old.check_room }
    requires name_room { names_count kept.old.checks + length (names_through (changes_in a.now) (size_needles_of names.now cond)) ≤ kept.old.name_room }
    requires index_room { names_count kept.old.checks + length (names_through (changes_in a.now) (size_needles_of names.now cond)) ≤ index.old.room }
    requires noted { IsTableOf places.now.table.entries.items (changed_needles a.now.changes.now) }
    requires fit { PartsFit a.now.segs.now a.now.changes.now }
    requires order { IsInOrder (changes_in a.now) }
    ensures step { StepIs (answer_known digest.old (chain_at kept.old.checks) kept.old.checks (read_answer effect.now a.now.lasts.now (changes_in a.now) (ask_of names.now cond))) kept.old.checks fault result kept.new.checks }
    ensures knows { result ≡ true → Knows digest.new index.new.notes kept.new.checks }
    ensures check_room { kept.new.check_room ≡ kept.old.check_room }
    ensures name_room { kept.new.name_room ≡ kept.old.name_room }
    ensures index_room { index.new.room ≡ index.old.room }
{
    match cond {
        Cond::SizeAtMost(part, most) => {
            ask_sized(kept, index, a, places, names_at(names, part), most, fault)
        }
        Cond::RackIs(_) => ask_plain(kept, digest, effect, cond, fault),
        Cond::CarrierIn(_) => ask_plain(kept, digest, effect, cond, fault),
        Cond::CarrierOut(_) => ask_plain(kept, digest, effect, cond, fault),
        Cond::HookFree => ask_plain(kept, digest, effect, cond, fault),
        Cond::HookIs(_) => ask_plain(kept, digest, effect, cond, fault),
        Cond::HookLacks(_) => ask_plain(kept, digest, effect, cond, fault),
        Cond::LastNear(c, at, float) => ask_near(kept, a, c, at, float, fault),
    }
}
