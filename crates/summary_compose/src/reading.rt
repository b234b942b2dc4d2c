//! The conditions of a second face, read through the first.
ghost use Rattle.std.specs.Prelude.{◌≡◌, ◌<◌, ◌≤◌, ◌+◌, ◌^◌, true, All, length, map};
ghost use Rattle.face_data.specs.declared.face.Check.{Check};
ghost use Rattle.face_data.specs.Composition.{reads};
ghost use Rattle.face_data.specs.Digests.{digest_of};
ghost use Rattle.face_data.specs.Goodness.{IsInOrder};
ghost use Rattle.face_data.specs.Summaries.{fault_raised};
ghost use Rattle.face_data.specs.View.{asked_of_check, size_needles_of, CondFits, PartsFit};
ghost use Rattle.summary_compose.specs.Changes.{changed_needles, changes_in};
ghost use Rattle.summary_compose.specs.Known.{AreImpliedChecks, AreGoodFaces, IsPlainCond, IsReadable, checks_in, names_count, names_read_count};
ghost use Rattle.summary_compose.specs.Tables.{IsTableOf};

use crate::asking::{ask, ask_plain};
use crate::index::Index;
use crate::kept::KeptFaceConditions;
use crate::noting::note_sizes;
use crate::places::Places;
use face_data::{Cond, Digest, Effect, Ending, FaceView};
use knit_base::Fault;

// The fault of a second face's condition, its line counted from the first one's.
#[inline(always)]
fn raised(a: &FaceView, fault: Fault) -> Fault
    requires { a.now.lines + fault.line < 2 ^ 32 }
    ensures { result ≡ fault_raised a.now.lines fault }
{
    Fault {
        line: a.lines + fault.line,
        reason: fault.reason,
    }
}

// Whether a condition isn't on sizes or on a last needle.
#[inline(always)]
fn is_plain(cond: &Cond) -> bool
    ensures { result ≡ true → IsPlainCond cond.now }
{
    match cond {
        Cond::SizeAtMost(_, _) | Cond::LastNear(_, _, _) => false,
        Cond::RackIs(_) => true,
        Cond::CarrierIn(_) => true,
        Cond::CarrierOut(_) => true,
        Cond::HookFree => true,
        Cond::HookIs(_) => true,
        Cond::HookLacks(_) => true,
    }
}

/// Reads the conditions of the second face from a place on through the first, whose conditions are kept already and those that aren't on
/// sizes noted. Those before it hold for these. The others are noted where the first condition on sizes is read. Answers the fault of the
/// first one that can't hold.
pub fn read_checks(
    kept: &mut KeptFaceConditions,
    index: &mut Index,
    digest: &mut Digest,
    places: &Places,
    a: &FaceView,
    effect: &Effect,
    b: &FaceView,
    start: usize,
) -> Option<Fault>
    requires good { AreGoodFaces a.now b.now }
    requires through { a.now.ending ≡ Ending.Through effect.now }
    requires begun { kept.old.checks ≡ checks_in a.now }
    requires alike { AreImpliedChecks a.now b.now effect.now start }
    requires digest { digest.old ≡ digest_of (checks_in a.now) }
    requires fits { All (λ (c : Check). CondFits a.now.names.now c.cond) a.now.checks.now }
    requires few { All (λ (c : Check). length (size_needles_of a.now.names.now c.cond) < 2 ^ 32) a.now.checks.now }
    requires readable { All (λ (c : Check). IsReadable a.now b.now.names.now c.cond) b.now.checks.now }
    requires raised { All (λ (c : Check). a.now.lines + c.fault.line < 2 ^ 32) b.now.checks.now }
    requires check_room { length a.now.checks.now + length b.now.checks.now ≤ kept.old.check_room }
    requires name_room { names_count (checks_in a.now) + names_read_count (changes_in a.now) (checks_in b.now) ≤ kept.old.name_room }
    requires index_room { names_count (checks_in a.now) + names_read_count (changes_in a.now) (checks_in b.now) ≤ index.old.room }
    requires noted { IsTableOf places.now.table.entries.items (changed_needles a.now.changes.now) }
    requires fit { PartsFit a.now.segs.now a.now.changes.now }
    requires order { IsInOrder (changes_in a.now) }
    ensures read { reads effect.now a.now.lasts.now (changes_in a.now) a.now.lines (checks_in a.now) (checks_in b.now) ≡ record { checks = kept.new.checks; stop = result } }
    ensures check_room { kept.new.check_room ≡ kept.old.check_room }
    ensures name_room { kept.new.name_room ≡ kept.old.name_room }
    ensures index_room { index.new.room ≡ index.old.room }
{
    let mut i = start;
    while i < b.checks.len() && is_plain(&b.checks[i].cond) {
        let check = b.checks[i];
        let fault = raised(a, check.fault);
        if !ask_plain(kept, digest, effect, check.cond, fault) {
            return Some(fault);
        }
        i += 1;
    }
    if i >= b.checks.len() {
        return None;
    }
    index.clear();
    note_sizes(a, index);
    while i < b.checks.len() {
        let check = b.checks[i];
        let fault = raised(a, check.fault);
        if !ask(
            kept, index, digest, places, a, effect, b.names, check.cond, fault,
        ) {
            return Some(fault);
        }
        i += 1;
    }
    None
}
