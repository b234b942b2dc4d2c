//! Composition.
ghost use Rattle.std.specs.Prelude.{◌≡◌, ◌<◌, ◌≤◌, ◌+◌, ◌^◌, true, [], length};
ghost use Rattle.face_data.specs.Composition.{composed, composed_at, reads, gathering_closed};
ghost use Rattle.face_data.specs.Lasts.{AreInOrder, lasts_of_both};
ghost use Rattle.face_data.specs.View.{summary_of};
ghost use Rattle.summary_compose.specs.Changes.{changed_needles, changes_in, merged_of, segs_in};
ghost use Rattle.summary_compose.specs.Composing.{Composes, FindsRoom, MakingHasRoom, KeepsRooms, made_in};
ghost use Rattle.summary_compose.specs.Known.{AreImpliedChecks, checks_in, names_count, names_read_count};
ghost use Rattle.summary_compose.specs.Tables.{HasNeedlePlaces, IsTableOf};
ghost use Rattle.summary_compose.specs.declared.room.Room.{Room};

use crate::alike::count_alike;
use crate::index::Index;
use crate::kept::KeptFaceConditions;
use crate::making::Making;
use crate::merging::merge;
use crate::noting::note_plain;
use crate::places::Places;
use crate::reading::read_checks;
use face_data::{Digest, Effect, Ending, FaceView, Lasts};
use knit_base::Fault;

// Gathers the conditions of both faces. Answers the fault of one that can't hold, and whether the first face's changes were noted.
fn gather(
    kept: &mut KeptFaceConditions,
    index: &mut Index,
    places: &mut Places,
    a: &FaceView,
    effect: &Effect,
    b: &FaceView,
) -> (Option<Fault>, bool)
    requires composes { Composes a.now b.now }
    requires through { a.now.ending ≡ Ending.Through effect.now }
    requires begun { kept.old.checks ≡ checks_in a.now }
    requires check_room { length a.now.checks.now + length b.now.checks.now ≤ kept.old.check_room }
    requires name_room { names_count (checks_in a.now) + names_read_count (changes_in a.now) (checks_in b.now) ≤ kept.old.name_room }
    requires index_room { names_count (checks_in a.now) + names_read_count (changes_in a.now) (checks_in b.now) ≤ index.old.room }
    requires places { HasNeedlePlaces places.old }
    ensures read { reads effect.now a.now.lasts.now (changes_in a.now) a.now.lines (checks_in a.now) (checks_in b.now) ≡ record { checks = kept.new.checks; stop = result.0 } }
    ensures noted { result.1 ≡ true → IsTableOf places.new.table.entries.items (changed_needles a.now.changes.now) }
    ensures places { HasNeedlePlaces places.new }
    ensures check_room { kept.new.check_room ≡ kept.old.check_room }
    ensures name_room { kept.new.name_room ≡ kept.old.name_room }
    ensures index_room { index.new.room ≡ index.old.room }
{
    let (alike, noted) = count_alike(places, a, effect, b);
    if alike >= b.checks.len() {
        return (None, noted);
    }
    places.note_once(a.changes, noted);
    (read_rest(kept, index, places, a, effect, b, alike), true)
}

// Reads the conditions of the second face from a place on, those before which hold.
#[inline(never)]
fn read_rest(
    kept: &mut KeptFaceConditions,
    index: &mut Index,
    places: &Places,
    a: &FaceView,
    effect: &Effect,
    b: &FaceView,
    alike: usize,
) -> Option<Fault>
    requires composes { Composes a.now b.now }
    requires through { a.now.ending ≡ Ending.Through effect.now }
    requires begun { kept.old.checks ≡ checks_in a.now }
    requires alike { AreImpliedChecks a.now b.now effect.now alike }
    requires noted { IsTableOf places.now.table.entries.items (changed_needles a.now.changes.now) }
    requires check_room { length a.now.checks.now + length b.now.checks.now ≤ kept.old.check_room }
    requires name_room { names_count (checks_in a.now) + names_read_count (changes_in a.now) (checks_in b.now) ≤ kept.old.name_room }
    requires index_room { names_count (checks_in a.now) + names_read_count (changes_in a.now) (checks_in b.now) ≤ index.old.room }
    ensures read { reads effect.now a.now.lasts.now (changes_in a.now) a.now.lines (checks_in a.now) (checks_in b.now) ≡ record { checks = kept.new.checks; stop = result } }
    ensures check_room { kept.new.check_room ≡ kept.old.check_room }
    ensures name_room { kept.new.name_room ≡ kept.old.name_room }
    ensures index_room { index.new.room ≡ index.old.room }
{
    let mut digest = Digest::blank();
    note_plain(a, &mut digest);
    read_checks(kept, index, &mut digest, places, a, effect, b, alike)
}

// The last needles of both faces, where both change one that of the second. Without a limit on floats there are none.
#[inline(always)]
fn merge_lasts(lasts: &mut Lasts, a: &FaceView, b: &FaceView)
    requires none { lasts.old.lasts ≡ [] }
    requires order { AreInOrder a.now.lasts.now }
    requires room { length a.now.lasts.now + length b.now.lasts.now ≤ lasts.old.room }
    ensures lasts { lasts.new.lasts ≡ lasts_of_both a.now.lasts.now b.now.lasts.now }
    ensures room { lasts.old.room ≤ lasts.new.room }
{
    if a.lasts.is_empty() && b.lasts.is_empty() {
        return;
    }
    put_lasts(lasts, a, b);
}

#[inline(never)]
fn put_lasts(lasts: &mut Lasts, a: &FaceView, b: &FaceView)
    requires order { AreInOrder a.now.lasts.now }
    requires room { length a.now.lasts.now + length b.now.lasts.now ≤ lasts.old.room }
    ensures lasts { lasts.new.lasts ≡ lasts_of_both a.now.lasts.now b.now.lasts.now }
    ensures room { lasts.old.room ≤ lasts.new.room }
{
    lasts.begin(a.lasts);
    for last in b.lasts {
        let _ = lasts.put(*last);
    }
}

/// Makes the face of the first face's text followed by the second's.
#[inline(never)]
pub fn put_together(a: &FaceView, b: &FaceView, making: &mut Making)
    requires composes { Composes a.now b.now }
    requires room { (room : Room) × FindsRoom a.now b.now room × MakingHasRoom making.old room }
    ensures made { made_in making.new ≡ composed (summary_of a.now) (summary_of b.now) }
    ensures keeps { KeepsRooms making.old making.new }
{
    making.laid.clear();
    making.lasts.clear();
    making.kept.begin(a);
    making.lines = a.lines + b.lines;
    making.made = 0;
    making.ending = a.ending;
    if let Ending::Through(effect) = a.ending {
        go_on(a, &effect, b, making);
    }
}

// The same after a face that ends with this effect.
fn go_on(a: &FaceView, effect: &Effect, b: &FaceView, making: &mut Making)
    requires composes { Composes a.now b.now }
    requires through { a.now.ending ≡ Ending.Through effect.now }
    requires room { (room : Room) × FindsRoom a.now b.now room × MakingHasRoom making.old room }
    requires begun { making.old.kept.checks ≡ checks_in a.now }
    requires none { making.old.laid.changes ≡ [] }
    requires no_lasts { making.old.lasts.lasts ≡ [] }
    requires lines { making.old.lines ≡ a.now.lines + b.now.lines }
    requires made { making.old.made ≡ 0 }
    ensures made { made_in making.new ≡ gathering_closed (reads effect.now a.now.lasts.now (changes_in a.now) a.now.lines (checks_in a.now) (checks_in b.now)) effect.now (summary_of a.now) (summary_of b.now) }
    ensures keeps { KeepsRooms making.old making.new }
{
    let (stop, noted) = gather(
        &mut making.kept,
        &mut making.index,
        &mut making.places,
        a,
        effect,
        b,
    );
    if let Some(fault) = stop {
        making.ending = Ending::Broken(fault);
        return;
    }
    match b.ending {
        Ending::Broken(fault) => {
            making.ending = Ending::Broken(Fault {
                line: a.lines + fault.line,
                reason: fault.reason,
            });
        }
        Ending::Through(more) => {
            making.made = a.made + b.made;
            making.ending = Ending::Through(effect.then(&more));
            merge(&mut making.laid, a, b, &mut making.places, noted);
            merge_lasts(&mut making.lasts, a, b);
        }
    }
}
