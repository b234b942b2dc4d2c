//! Conditions that are kept, with the needles that they name.
ghost use Rattle.std.specs.Prelude.{◌≡◌, ℕ, ◌<◌, ◌≤◌, ◌+◌, ◌^◌, [], ◌∷◌, ◌++◌, true, length, map, OnOk, vec_len, vec_capacity};
ghost use Rattle.std.specs.List.{list_any};
ghost use Rattle.knit_base.specs.declared.needle.Needle.{Needle};
ghost use Rattle.face_data.specs.Conditions.{ask_of};
ghost use Rattle.face_data.specs.Conditions.Ask.{last_near, size_at_most};
ghost use Rattle.face_data.specs.Goodness.{IsInOrder};
ghost use Rattle.face_data.specs.Segments.{names_through, new_through};
ghost use Rattle.face_data.specs.declared.bearing.Bearing.TheVariants.{Implied};
ghost use Rattle.face_data.specs.Answers.ConditionAnswer.{asks};
ghost use Rattle.face_data.specs.Bearings.{if_so};
ghost use Rattle.face_data.specs.Composition.{from_bearing, answer_of_kept};
ghost use Rattle.face_data.specs.Digests.{IsUnsized};
ghost use Rattle.face_data.specs.View.{asked_of_check, AreNamed, PartsFit};
ghost use Rattle.summary_compose.specs.Changes.{changed_needles, changes_in};
ghost use Rattle.face_data.specs.declared.digest.Digest.{Digest};
ghost use Rattle.summary_compose.specs.Known.{Knows, StepIs, answer_in, asks_near, checks_in, names_count, noted_answer, notes_in};
ghost use Rattle.summary_compose.specs.Tables.{IsTableOf};

use crate::index::Index;
use crate::names::read_names;
use crate::places::Places;
use crate::sizes::{SizeWord, note_each, word_on};
use face_data::{Check, Cond, FaceView, Part};
use knit_base::{CarrierNo, Fault, Needle, NoMemory};
use std::alloc::Global;
use std::marker::Model;

/// Conditions that are kept. The needles of those on sizes stand in one list.
#[derive(Drop)]
pub struct KeptFaceConditions {
    checks: Vec<Check>,
    names: Vec<Needle>,
}

impl Model for KeptFaceConditions {
    ghost use Rattle.std.specs.Prelude.{map, vec_capacity};
    ghost use Rattle.face_data.specs.View.{asked_of_check, AreNamed};
    ghost use Rattle.summary_compose.specs.Known.{KeptView};

    ghost Value = { KeptView };

    ghost view = { λ k. record { checks = map (asked_of_check k.names.items) k.checks.items; check_room = vec_capacity k.checks; name_room = vec_capacity k.names } };

    ghost invariant = { λ k. AreNamed k.names.items k.checks.items };
}

/// Appends items where there is room.
pub fn append<T: Copy>(items: &[T], list: &mut Vec<T>)
    requires { vec_len list.old + length items.now ≤ vec_capacity list.old }
    ensures items { list.new.items ≡ list.old.items ++ items.now }
    ensures capacity { vec_capacity list.old ≤ vec_capacity list.new }
{
    let _ = list.extend_from_slice(items);
}

impl KeptFaceConditions {
    /// No conditions, and no room, which takes no memory.
    pub fn new(alloc: Global) -> Self
        ensures { result.checks ≡ [] }
    {
        KeptFaceConditions {
            checks: Vec::new(alloc),
            names: Vec::new(alloc),
        }
    }

    /// Makes room. The conditions stay.
    pub fn reserve(&mut self, checks: u64, names: u64) -> Result<(), NoMemory>
        ensures checks { self.new.checks ≡ self.old.checks }
        ensures check_room { OnOk result (checks ≤ self.new.check_room) }
        ensures name_room { OnOk result (names ≤ self.new.name_room) }
        ensures keeps { (self.old.check_room ≤ self.new.check_room) × (self.old.name_room ≤ self.new.name_room) }
    {
        let more_checks = (checks as usize).saturating_sub(self.checks.len());
        self.checks.reserve(more_checks)?;
        let more_names = (names as usize).saturating_sub(self.names.len());
        self.names.reserve(more_names)?;
        Ok(())
    }

    /// Where its memory comes from.
    pub fn allocator(&self) -> Global {
        *self.checks.allocator()
    }

    /// Keeps the conditions of this face, and no others.
    pub fn begin(&mut self, face: &FaceView)
        requires named { AreNamed face.now.names.now face.now.checks.now }
        requires check_room { length face.now.checks.now ≤ self.old.check_room }
        requires name_room { length face.now.names.now ≤ self.old.name_room }
        ensures checks { self.new.checks ≡ checks_in face.now }
        ensures check_room { self.old.check_room ≤ self.new.check_room }
        ensures name_room { self.old.name_room ≤ self.new.name_room }
    {
        self.checks.clear();
        self.names.clear();
        append(face.checks, &mut self.checks);
        append(face.names, &mut self.names);
    }

    /// The conditions, and the names in which their needles stand.
    pub fn lists(&self) -> (&[Check], &[Needle])
        ensures checks { map (asked_of_check result.1.now) result.0.now ≡ self.now.checks }
        ensures named { AreNamed result.1.now result.0.now }
    {
        (&self.checks, &self.names)
    }

    /// Keeps a condition that isn't on sizes.
    #[inline(always)]
    pub fn keep_plain(&mut self, fault: Fault, cond: Cond)
        requires room { length self.old.checks < self.old.check_room }
        requires nameless { IsUnsized (ask_of [] cond) }
        ensures checks { self.new.checks ≡ self.old.checks ++ record { fault = fault; ask = ask_of [] cond } ∷ [] }
        ensures check_room { self.new.check_room ≡ self.old.check_room }
        ensures name_room { self.new.name_room ≡ self.old.name_room }
    {
        self.checks.push_reserved(Check { fault, cond });
    }

    /// Whether it is kept that the carrier's last needle is near this number.
    pub fn has(&self, c: CarrierNo, at: i16, float: u16) -> bool
        ensures { answer_of_kept self.now.checks (last_near c at float) ≡ from_bearing (if_so result Implied) (asks (last_near c at float)) }
    {
        has_near(&self.checks, c, at, float)
    }

    /// Asks that a needle, which no face changed yet, holds at most so many loops: keeps that where the kept conditions don't imply it.
    #[inline(always)]
    #[tactic(auto, unfolding(crate::specs::Known::noted_answer))]
    pub fn ask_own(&mut self, index: &mut Index, needle: Needle, most: u8, fault: Fault)
        requires check_room { length self.old.checks < self.old.check_room }
        requires name_room { names_count self.old.checks < self.old.name_room }
        requires index_room { length index.old.notes < index.old.room }
        ensures step { StepIs (noted_answer index.old.notes (needle ∷ []) 0 most) self.old.checks fault true self.new.checks }
        ensures knows { (digest : Digest) → Knows digest index.old.notes self.old.checks → Knows digest index.new.notes self.new.checks }
        ensures rooms { (self.new.check_room ≡ self.old.check_room) × (self.new.name_room ≡ self.old.name_room) × (index.new.room ≡ index.old.room) }
    {
        if index.covers(needle, 1, most) {
            return;
        }
        index.note(needle, 1, most);
        let start = self.names.len() as u64;
        self.names.push_reserved(needle);
        let part = Part { start, len: 1 };
        let cond = Cond::SizeAtMost(part, most);
        self.checks.push_reserved(Check { fault, cond });
    }

    /// Asks that these needles hold at most so many loops after the face: keeps what that comes to at its entry where the kept
    /// conditions don't settle it. Answers what is known.
    #[inline(always)]
    pub fn ask_size(
        &mut self,
        index: &mut Index,
        a: &FaceView,
        places: &Places,
        needles: &[Needle],
        most: u8,
        fault: Fault,
    ) -> SizeWord
        requires check_room { length self.old.checks < self.old.check_room }
        requires name_room { names_count self.old.checks + length (names_through (changes_in a.now) needles.now) ≤ self.old.name_room }
        requires index_room { length index.old.notes + length (names_through (changes_in a.now) needles.now) ≤ index.old.room }
        requires few { length (names_through (changes_in a.now) needles.now) < 2 ^ 32 }
        requires new_few { new_through (changes_in a.now) needles.now < 2 ^ 64 }
        requires noted { IsTableOf places.now.table.entries.items (changed_needles a.now.changes.now) }
        requires fit { PartsFit a.now.segs.now a.now.changes.now }
        requires order { IsInOrder (changes_in a.now) }
        ensures word { noted_answer index.old.notes (names_through (changes_in a.now) needles.now) (new_through (changes_in a.now) needles.now) most ≡ answer_in (names_through (changes_in a.now) needles.now) result }
        ensures asks { (left : ℕ) → result ≡ SizeWord.Asks left → self.new.checks ≡ self.old.checks ++ record { fault = fault; ask = size_at_most (names_through (changes_in a.now) needles.now) left } ∷ [] }
        ensures notes { (left : ℕ) → result ≡ SizeWord.Asks left → index.new.notes ≡ index.old.notes ++ notes_in (size_at_most (names_through (changes_in a.now) needles.now) left) }
        ensures holds { result ≡ SizeWord.Holds → (self.new.checks ≡ self.old.checks) × (index.new.notes ≡ index.old.notes) }
        ensures fails { result ≡ SizeWord.Fails → self.new.checks ≡ self.old.checks }
        ensures rooms { (self.new.check_room ≡ self.old.check_room) × (self.new.name_room ≡ self.old.name_room) × (index.new.room ≡ index.old.room) }
    {
        let start = self.names.len();
        let new = read_names(needles, a, places, &mut self.names);
        let word = word_on(index, &self.names[start..], new, most);
        match word {
            SizeWord::Holds => self.names.truncate(start),
            SizeWord::Fails => self.names.truncate(start),
            SizeWord::Asks(left) => {
                note_each(&self.names[start..], left, index);
                let part = Part {
                    start: start as u64,
                    len: (self.names.len() - start) as u32,
                };
                let cond = Cond::SizeAtMost(part, left);
                self.checks.push_reserved(Check { fault, cond });
            }
        }
        word
    }
}

fn has_near(checks: &[Check], c: CarrierNo, at: i16, float: u16) -> bool
    ensures { result ≡ list_any (λ check. asks_near check.cond c at float) checks.now }
{
    checks
        .iter()
        .any(|check| asks_near(check.cond, c, at, float))
}

// Whether the condition is this one on a last needle.
fn asks_near(cond: Cond, c: CarrierNo, at: i16, float: u16) -> bool
    ensures { result ≡ asks_near cond c at float }
{
    match cond {
        Cond::LastNear(d, n, f) => d == c && n == at && f == float,
        _ => false,
    }
}
