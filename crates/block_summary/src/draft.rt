//! The summary of the lines read so far.
ghost use Rattle.std.specs.Prelude.{◌≡◌, ℕ, pos, ◌+◌, ◌-◌, ◌<◌, ◌≤◌, ◌^◌, ◌<ℤ◌, List, [], ◌∷◌, ◌++◌, false, true, All, Option, IsTrue, IfOk, OnOk, MatchOption, None, Some, fold, length, map};
ghost use Rattle.std.specs.List.{Contains};
ghost use Rattle.knit_base.specs.declared.instr.Instr.TheVariants.{Knit};
ghost use Rattle.knit_base.specs.declared.instr.Read.TheVariants as read;
ghost use Rattle.knit_base.specs.declared.needle.Dir.{Dir};
ghost use Rattle.knit_base.specs.declared.yarns.CarrierNo.{CarrierNo};
ghost use Rattle.knit_base.specs.declared.needle.Needle.{Needle};
ghost use Rattle.knit_base.specs.Needle.{is_slider, own_slider};
ghost use Rattle.knit_base.specs.Yarns.{contains_carrier};
ghost use Rattle.face_data.specs.declared.face.Ending.TheVariants.{Through};
ghost use Rattle.face_data.specs.Answers.{read_answer, size_left};
ghost use Rattle.face_data.specs.Answers.ConditionAnswer.{asks};
ghost use Rattle.face_data.specs.Composition.{composed, against_kept, effect_of_both, from_bearing, changes_merged};
ghost use Rattle.face_data.specs.Conditions.{ask_of};
ghost use Rattle.face_data.specs.Digests.{CarrierFits, IsPlainCondition, IsUnsized};
ghost use Rattle.face_data.specs.Goodness.{IsInOrder};
ghost use Rattle.face_data.specs.Conditions.Ask.{carrier_in, last_near, size_at_most};
ghost use Rattle.face_data.specs.Segments.{change_at, segments_on};
ghost use Rattle.face_data.specs.Sizes.{SizeRule, size_ask};
ghost use Rattle.face_data.specs.Drafts.{no_effect, no_lines};
ghost use Rattle.face_data.specs.Lasts.{put_last};
ghost use Rattle.knit_base.specs.declared.profile.Profile.{Profile};
ghost use Rattle.carrier_rules.specs.Carriers.{carrier_last};
ghost use Rattle.block_summary.specs.DraftKnowledge.{AreNearIn, HoldsAfter, HasAsked, IsSmall, Took, effect_in, stopped_at};
ghost use Rattle.block_summary.specs.LineSummaries.{line_summary};

mod near;

use crate::kept::KeptLineConditions;
use crate::laid::{DraftChanges, face_of};
use crate::room::new_loops_on;
use face_data::{
    Bearing, Cond, Effect, Ending, Face, Last, Lasts, Seg, Segs, SizeAsk, Symbols, last_bearing,
    slot_of,
};
use knit_base::{CarrierNo, Fault, Needle, NoMemory, Reason, Yarns, is_in_set};
use std::alloc::Global;
use std::marker::Model;

/// What lines do that were read one after the other, none of which ended the block.
///
/// `bare` has hooks whose own sliders are known to hold nothing, each in its slot, where a later one may take its place. A hook
/// that isn't there is asked about anew. `laid` is room in which changes are laid down for a face.
#[derive(Drop)]
pub struct Draft {
    alloc: Global,
    lines: u32,
    made: u32,
    kept: KeptLineConditions,
    symbols: Symbols,
    effect: Effect,
    lasts: Lasts,
    bare: [Option<Needle>; 64],
    laid: DraftChanges,
}

impl Model for Draft {
    ghost use Rattle.face_data.specs.declared.face.Ending.TheVariants.{Through};
    ghost use Rattle.face_data.specs.Summaries.{Summary};
    ghost use Rattle.block_summary.specs.DraftKnowledge.{IsDraft};

    ghost Value = { Summary };

    ghost view = { λ d. record { lines = d.lines; made = d.made; checks = d.kept; changes = d.symbols; lasts = d.lasts.lasts; ending = Through d.effect } };

    ghost invariant = { λ d. IsDraft d.lines d.made d.kept d.effect d.lasts.lasts d.symbols d.bare };
}

impl Draft {
    /// No line was read. Takes no memory.
    pub fn new(alloc: Global) -> Self
        ensures { result ≡ no_lines }
    {
        Draft {
            alloc,
            lines: 0,
            made: 0,
            kept: KeptLineConditions::new(alloc),
            symbols: Symbols::new(alloc),
            effect: no_effect(),
            lasts: Lasts::new(alloc),
            bare: none_bare(),
            laid: DraftChanges::new(alloc),
        }
    }

    /// Forgets the lines that were read, and keeps the room that they took.
    pub fn clear(&mut self)
        ensures { self.new ≡ no_lines }
    {
        self.lines = 0;
        self.made = 0;
        self.kept.clear();
        self.symbols.clear();
        self.effect = no_effect();
        self.lasts.clear();
        self.bare = none_bare();
    }

    /// What the needles hold after the lines.
    pub fn contents(&self) -> &Symbols
        ensures contents { result.now ≡ self.now.changes }
        ensures rising { IsInOrder self.now.changes }
        ensures through { self.now.ending ≡ Through (effect_in self.now.ending) }
    {
        &self.symbols
    }

    /// How many lines were read.
    pub fn lines(&self) -> u32
        ensures { result ≡ self.now.lines }
    {
        self.lines
    }

    pub(crate) fn allocator(&self) -> Global {
        self.alloc
    }

    /// Keeps in mind that the own slider of the needle is known to hold nothing.
    pub fn note_bare(&mut self, n: Needle)
        requires { HoldsAfter self.old (size_at_most (own_slider n ∷ []) 0) }
        ensures same { self.new ≡ self.old }
        ensures through { self.old.ending ≡ Through (effect_in self.old.ending) }
    {
        self.bare[slot_of(n)] = Some(n);
    }

    /// Whether the carriers are known to be in action. False says nothing.
    #[inline(always)]
    pub fn knows_in(&self, yarns: &Yarns) -> bool
        ensures { IsTrue result → (c : CarrierNo) → Contains yarns.now c → HoldsAfter self.now (carrier_in c) }
    {
        let known = self.known_in();
        let mask = yarns.mask();
        (mask & known) == mask
    }

    /// Whether the carrier is known to be in action. False says nothing.
    #[inline(always)]
    pub fn knows_carrier(&self, c: CarrierNo) -> bool
        requires { c.0 < 64 }
        ensures { IsTrue result → HoldsAfter self.now (carrier_in c) }
    {
        is_in_set(self.known_in(), c)
    }

    // The carriers that are known to be in action, as a set.
    #[inline(always)]
    fn known_in(&self) -> u64
        ensures { (c : CarrierNo) → contains_carrier result c ≡ true → HoldsAfter self.now (carrier_in c) }
    {
        let came = self.effect.came;
        let went = self.effect.went;
        let asked = self.kept.digest().ins;
        came | (asked ^ (asked & went))
    }

    /// Whether the own slider of the needle is known to hold nothing. False says nothing.
    #[inline(always)]
    pub fn is_bare(&self, n: Needle) -> bool
        ensures { IsTrue result → HoldsAfter self.now (size_at_most (own_slider n ∷ []) 0) }
    {
        match self.bare[slot_of(n)] {
            Some(m) => m == n,
            None => false,
        }
    }

    /// A condition on the rack, on a carrier or on the hook is asked of the line that comes next: it is kept where it isn't known.
    /// Answers whether the line can be carried out as far as this condition goes; where it can't, nothing is kept.
    pub fn ask(&mut self, reason: Reason, cond: Cond) -> Result<bool, NoMemory>
        requires fits { CarrierFits cond }
        requires plain { IsPlainCondition (ask_of [] cond) }
        ensures { IfOk result (HasAsked self.old self.new (record { line = self.old.lines; reason = reason }) (ask_of [] cond)) }
    {
        let bearing = self.bearing_on(cond);
        self.keep_if_silent(bearing, reason, cond)
    }

    // A condition of which so much is known: it is kept where that is nothing.
    #[inline(always)]
    fn keep_if_silent(
        &mut self,
        bearing: Bearing,
        reason: Reason,
        cond: Cond,
    ) -> Result<bool, NoMemory>
        requires fits { CarrierFits cond }
        requires nameless { IsUnsized (ask_of [] cond) }
        requires known { against_kept self.old.checks (read_answer (effect_in self.old.ending) self.old.lasts self.old.changes (ask_of [] cond)) ≡ from_bearing bearing (asks (ask_of [] cond)) }
        ensures { IfOk result (HasAsked self.old self.new (record { line = self.old.lines; reason = reason }) (ask_of [] cond)) }
    {
        match bearing {
            Bearing::Implied => Ok(true),
            Bearing::Refuted => Ok(false),
            Bearing::Silent => {
                let fault = Fault {
                    line: self.lines,
                    reason,
                };
                self.kept.keep(fault, cond)?;
                Ok(true)
            }
        }
    }

    // What is known of the condition.
    fn bearing_on(&self, cond: Cond) -> Bearing
        requires fits { CarrierFits cond }
        requires plain { IsPlainCondition (ask_of [] cond) }
        ensures { against_kept self.now.checks (read_answer (effect_in self.now.ending) self.now.lasts self.now.changes (ask_of [] cond)) ≡ from_bearing result (asks (ask_of [] cond)) }
    {
        match self.effect.bearing_on(cond) {
            Bearing::Implied => Bearing::Implied,
            Bearing::Refuted => Bearing::Refuted,
            Bearing::Silent => self.kept.digest().bearing_on(cond),
        }
    }

    /// A condition on sizes, read through the contents so far, is asked of the line that comes next: it is kept where it isn't
    /// known. Answers as `ask` does.
    pub fn ask_size(&mut self, ask: &SizeAsk) -> Result<bool, NoMemory>
        requires { IsSmall ask.now }
        ensures rest_stays { OnOk result (self.new ≡ record self.old { checks = self.new.checks }) }
        ensures asked { IfOk result (λ goes. (rule : SizeRule) → ask.now ≡ size_ask self.old.changes rule → HasAsked self.old self.new (record { line = self.old.lines; reason = rule.reason }) (size_at_most rule.needles rule.most) goes) }
    {
        match most_of(ask.max) {
            None => Ok(false),
            Some(most) => self.ask_entries(ask.entries.as_slice(), most, ask.reason),
        }
    }

    /// Whether no line has changed what the needle holds.
    pub(crate) fn is_untouched(&self, n: Needle) -> bool
        ensures { IsTrue result → change_at self.now.changes n ≡ None }
    {
        self.symbols.of(n).is_none()
    }

    /// Whether both needles are known to hold at most so many loops together, since the lines made them all. False says nothing.
    pub(crate) fn has_room(&self, n: Needle, n2: Needle, hold: u8) -> bool
        ensures { IsTrue result → HoldsAfter self.now (size_at_most (n ∷ n2 ∷ []) hold) }
    {
        let Some(first) = new_loops_on(&self.symbols, n) else {
            return false;
        };
        let Some(second) = new_loops_on(&self.symbols, n2) else {
            return false;
        };
        u64::from(first) + u64::from(second) <= u64::from(hold)
    }

    /// These needles are to hold at most so many loops at the block's entry.
    pub(crate) fn ask_entries(
        &mut self,
        entries: &[Needle],
        most: u8,
        reason: Reason,
    ) -> Result<bool, NoMemory>
        requires { length entries.now < 2 ^ 32 }
        ensures { IfOk result (Took (against_kept self.old.checks (size_left entries.now most)) self.old self.new (record { line = self.old.lines; reason = reason })) }
    {
        if entries.is_empty() {
            return Ok(true);
        }
        if self.kept.implies(entries, most) {
            return Ok(true);
        }
        let fault = Fault {
            line: self.lines,
            reason,
        };
        self.kept.keep_size(fault, entries, most)?;
        Ok(true)
    }

    /// The needle holds these segments from now on.
    pub(crate) fn put(&mut self, n: Needle, segs: Segs) -> Result<(), NoMemory>
        ensures { OnOk result (self.new ≡ record self.old { changes = changes_merged self.old.changes ((n, segs) ∷ []) }) }
    {
        if n.bed.is_slider() {
            return self.put_on_slider(n, segs);
        }
        self.symbols.swap(n, segs)?;
        Ok(())
    }

    // The same of a slider, or of any needle: no hook is known to be bare any more.
    fn put_on_slider(&mut self, n: Needle, segs: Segs) -> Result<(), NoMemory>
        ensures { OnOk result (self.new ≡ record self.old { changes = changes_merged self.old.changes ((n, segs) ∷ []) }) }
    {
        self.bare = none_bare();
        self.symbols.swap(n, segs)?;
        Ok(())
    }

    /// One line more was carried out, which does this to rack, carriers and hook and forms so many loops.
    pub(crate) fn move_on(&mut self, effect: &Effect, loops: u32)
        requires few { self.old.lines < 2 ^ 32 - 1 }
        requires one { loops ≤ 1 }
        ensures { self.new ≡ record self.old { lines = self.old.lines + 1; made = self.old.made + loops; ending = Through (effect_of_both (effect_in self.old.ending) effect.now) } }
    {
        self.lines += 1;
        self.made += loops;
        self.effect = self.effect.then(effect);
    }

    /// One line more was read, which asks and changes nothing.
    pub(crate) fn pass(&mut self)
        requires { self.old.lines < 2 ^ 32 - 1 }
        ensures line { self.new ≡ record self.old { lines = self.old.lines + 1 } }
        ensures through { self.old.ending ≡ Through (effect_in self.old.ending) }
    {
        self.lines += 1;
    }

    /// One line more was read, which can't be carried out for this reason. Answers with its fault.
    pub(crate) fn stop(&mut self, reason: Reason) -> Fault
        requires { self.old.lines < 2 ^ 32 - 1 }
        ensures fault { result ≡ record { line = self.old.lines; reason = reason } }
        ensures line { self.new ≡ record self.old { lines = self.old.lines + 1 } }
        ensures through { self.old.ending ≡ Through (effect_in self.old.ending) }
    {
        let fault = Fault {
            line: self.lines,
            reason,
        };
        self.lines += 1;
        fault
    }

    /// The face of the lines.
    pub(crate) fn face(&mut self) -> Result<Face, NoMemory>
        ensures { IfOk result (λ face. face ≡ self.old) }
    {
        self.laid.lay(&self.symbols)?;
        let ending = Ending::Through(self.effect);
        face_of(
            self.alloc,
            self.lines,
            self.made,
            &self.kept,
            &self.laid,
            self.lasts.as_slice(),
            ending,
        )
    }

    /// The face of so many lines, of which those that were read are known to stop at this fault.
    pub(crate) fn broken_face(&self, lines: u32, fault: Fault) -> Result<Face, NoMemory>
        ensures { IfOk result (λ face. face ≡ stopped_at fault (record self.now { lines = lines })) }
    {
        let ending = Ending::Broken(fault);
        face_of(
            self.alloc,
            lines,
            0,
            &self.kept,
            &DraftChanges::new(self.alloc),
            &[],
            ending,
        )
    }

    /// One line more, where floats have no limit: a knit with carriers that are known to be in action, on a hook whose own slider is known
    /// to hold nothing. Answers what the loop is drawn through.
    #[inline(always)]
    pub fn knit(&mut self, n: Needle) -> Result<Segs, NoMemory>
        requires hook { is_slider n.bed ≡ false }
        requires few { self.old.lines < 2 ^ 32 - 1 }
        requires slider { HoldsAfter self.old (size_at_most (own_slider n ∷ []) 0) }
        ensures summary { OnOk result ((profile : Profile) (dir : Dir) (c : CarrierNo) (cs : List CarrierNo) → profile.float ≡ None → ((x : CarrierNo) → Contains (c ∷ cs) x → HoldsAfter self.old (carrier_in x)) → self.new ≡ composed self.old (line_summary profile (read.Instr (Knit dir n (c ∷ cs))))) }
        ensures through { IfOk result (λ through. through ≡ segments_on self.old.changes n) }
    {
        let segs = Segs::one(self.alloc, Seg::New(self.lines));
        let was = self.symbols.swap(n, segs)?;
        self.lines += 1;
        self.made += 1;
        match was {
            Some(was) => Ok(was),
            None => Ok(Segs::one(self.alloc, Seg::Entry(n))),
        }
    }
}

// Rack, carriers and hook stay.
pub(crate) fn no_effect() -> Effect
    ensures { result ≡ no_effect }
{
    Effect {
        rack: None,
        came: 0,
        went: 0,
        hook: None,
    }
}

// No hook is known.
fn none_bare() -> [Option<Needle>; 64]
    ensures { All (λ (o : Option Needle). o ≡ None) result }
{
    [None; 64]
}

// How many loops there may be, and `None` where it can't be so few.
fn most_of(max: i16) -> Option<u8>
    requires { max <ℤ pos 256 }
    ensures { MatchOption result (max <ℤ pos 0) (λ most. max ≡ pos most) }
{
    if max < 0 {
        return None;
    }
    Some(max.unsigned_abs() as u8)
}
