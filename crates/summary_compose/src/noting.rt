//! The conditions of a first face noted.
ghost use Rattle.std.specs.Prelude.{◌≡◌, ◌<◌, ◌≤◌, ◌+◌, ◌^◌, List, [], ◌++◌, All, length};
ghost use Rattle.face_data.specs.declared.face.Check.{Check};
ghost use Rattle.face_data.specs.Conditions.{ask_of};
ghost use Rattle.face_data.specs.Digests.{blank_digest, digest_of, digest_with, CarrierFits};
ghost use Rattle.face_data.specs.View.{CondFits, size_needles_of};
ghost use Rattle.summary_compose.specs.Known.{checks_in, names_count, notes_in, notes_of};

use crate::index::Index;
use crate::sizes::note_each;
use face_data::{Check, Cond, Digest, FaceView};
use knit_base::Needle;

// Notes a condition, if it isn't on sizes or on a last needle. Most are on sizes, so what is done for the others stays out of the loop.
#[inline(always)]
#[tactic(auto, unfolding(face_data::specs::Digests::digest_with))]
fn note_if_plain(names: &[Needle], check: &Check, digest: &mut Digest)
    requires { CarrierFits check.now.cond }
    ensures { digest.new ≡ digest_with digest.old (ask_of names.now check.now.cond) }
{
    match check.cond {
        Cond::SizeAtMost(_, _) | Cond::LastNear(_, _, _) => return,
        _ => {}
    }
    note_cond(check.cond, digest);
}

#[inline(never)]
fn note_cond(cond: Cond, digest: &mut Digest)
    requires { CarrierFits cond }
    ensures { (names : List Needle) → digest.new ≡ digest_with digest.old (ask_of names cond) }
{
    digest.note(cond);
}

/// Notes all conditions of the face that aren't on sizes.
pub fn note_plain(face: &FaceView, digest: &mut Digest)
    requires blank { digest.old ≡ blank_digest }
    requires carriers { All (λ (c : Check). CarrierFits c.cond) face.now.checks.now }
    ensures { digest.new ≡ digest_of (checks_in face.now) }
{
    let mut i = 0;
    while i < face.checks.len() {
        note_if_plain(face.names, &face.checks[i], digest);
        i += 1;
    }
}

// Notes a condition, if it is on sizes.
#[inline(always)]
fn note_if_sized(names: &[Needle], cond: Cond, index: &mut Index)
    requires fit { CondFits names.now cond }
    requires room { length index.old.notes + length (size_needles_of names.now cond) ≤ index.old.room }
    requires few { length (size_needles_of names.now cond) < 2 ^ 32 }
    ensures notes { index.new.notes ≡ index.old.notes ++ notes_in (ask_of names.now cond) }
    ensures room { index.new.room ≡ index.old.room }
{
    if let Cond::SizeAtMost(part, most) = cond {
        let start = part.start as usize;
        let end = start + part.len as usize;
        note_each(&names[start..end], most, index);
    }
}

/// Notes all conditions of the face on sizes.
pub fn note_sizes(face: &FaceView, index: &mut Index)
    requires none { index.old.notes ≡ [] }
    requires fit { All (λ (c : Check). CondFits face.now.names.now c.cond) face.now.checks.now }
    requires few { All (λ (c : Check). length (size_needles_of face.now.names.now c.cond) < 2 ^ 32) face.now.checks.now }
    requires room { names_count (checks_in face.now) ≤ index.old.room }
    ensures notes { index.new.notes ≡ notes_of (checks_in face.now) }
    ensures room { index.new.room ≡ index.old.room }
{
    let mut i = 0;
    while i < face.checks.len() {
        note_if_sized(face.names, face.checks[i].cond, index);
        i += 1;
    }
}
