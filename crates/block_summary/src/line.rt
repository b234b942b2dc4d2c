//! One line more of a block that is drafted.
ghost use Rattle.std.specs.Prelude.{◌≡◌, ℕ, ◌+◌, ◌-◌, ◌<◌, ◌≤◌, ◌^◌, ◌++◌, List, [], ◌∷◌, All, Option, MatchOption, not, false, length, IfOk, IfSome, OnOk, map};
ghost use Rattle.std.specs.Option.{option_copied, option_map, option_to_list};
ghost use Rattle.knit_base.specs.Lawful.{IsLawfulInstr, IsLawfulRead};
ghost use Rattle.knit_base.specs.Limits.{IsLawfulProfile};
ghost use Rattle.knit_base.specs.declared.instr.Read.TheVariants as read;
ghost use Rattle.knit_base.specs.declared.instr.Instr.{Instr};
ghost use Rattle.knit_base.specs.declared.instr.Instr.TheVariants.{Knit, Xfer};
ghost use Rattle.knit_base.specs.Instr.{forming_needle};
ghost use Rattle.knit_base.specs.Needle.{is_slider, own_slider};
ghost use Rattle.face_data.specs.declared.face.Seg.TheVariants.{New};
ghost use Rattle.face_data.specs.declared.face.Ending.TheVariants.{Through};
ghost use Rattle.face_data.specs.Composition.{changes_merged};
ghost use Rattle.face_data.specs.Conditions.{ask_of, broken_unless};
ghost use Rattle.face_data.specs.Conditions.Ask.{carrier_in, size_at_most};
ghost use Rattle.face_data.specs.Goodness.{IsInOrder};
ghost use Rattle.face_data.specs.Segments.{change_at, segments_on};
ghost use Rattle.face_data.specs.Sizes.{SizeRule, size_ask, size_asks};
ghost use Rattle.carriage_model.specs.Machine.{HasCarrierPlaces};
ghost use Rattle.bed_rules.specs.Beds.{changes_with_move};
ghost use Rattle.carrier_rules.specs.declared.conds.OfEach.TheVariants.{InAction};
ghost use Rattle.knit_base.specs.declared.profile.Profile.{Profile};
ghost use Rattle.carrier_rules.specs.Carriers.{conds_of_each, early_in, early_of, floats_in, is_on_last};
ghost use Rattle.slider_rules.specs.Sliders.{bare_slider};
ghost use Rattle.block_summary.specs.Asks.{instr_ask};
ghost use Rattle.block_summary.specs.DraftKnowledge.{AreNearIn, CanBeAsked, HasAsked, HasAskedAll, HasAskedIf, HoldsAfter, IsSmall, effect_in, changes_written};
ghost use Rattle.block_summary.specs.LineEnds.{EndsAs, summary_with_line};
ghost use Rattle.block_summary.specs.LineSummaries.{conditions_of_instr, asked_of_rack, asked_of_sizes, plainly_asked};

use crate::draft::no_effect;
use crate::{Draft, FormedLoop, InstrAsk, ask_instr};
use face_data::{Cond, Seg, Segs, SizeAsk, ask_size};
use knit_base::{
    CarrierNo, Dir, Fault, Instr, Needle, NoMemory, Profile, Quarter, Read, Reason, Rule, Yarns,
};

/// How a line ends that is read after others: the lines go on, with the loop that it forms, if it forms one, or they are known to
/// stop at it.
#[derive(Drop)]
pub enum DraftedLineEnd {
    GoesOn(Option<FormedLoop>),
    Stops(Fault),
}

impl Draft {
    /// One line more. Where the lines are known to stop at it, the conditions before that are kept, and the fault's line is counted
    /// from 0, the first line that was read.
    pub fn line(&mut self, read: &Read, profile: &Profile) -> Result<DraftedLineEnd, NoMemory>
        requires profile { IsLawfulProfile profile.now }
        requires lawful { (carriers : ℕ) × (carriers ≤ 64) × IsLawfulRead profile.now carriers read.now }
        requires few { self.old.lines < 2 ^ 32 - 1 }
        ensures { IfOk result (EndsAs profile.now read.now self.old self.new) }
    {
        match read {
            Read::Instr(instr) => self.instr(instr, profile),
            Read::Broken(reason) => Ok(DraftedLineEnd::Stops(self.stop(*reason))),
            Read::Blank | Read::Comment => {
                self.pass();
                Ok(DraftedLineEnd::GoesOn(None))
            }
        }
    }

    // A knit asks only what isn't known of its carriers and its slider, a transfer its rack and room alone, and a pause nothing.
    fn instr(&mut self, instr: &Instr, profile: &Profile) -> Result<DraftedLineEnd, NoMemory>
        requires profile { IsLawfulProfile profile.now }
        requires lawful { (carriers : ℕ) × (carriers ≤ 64) × IsLawfulInstr profile.now carriers instr.now }
        requires few { self.old.lines < 2 ^ 32 - 1 }
        ensures { IfOk result (EndsAs profile.now (read.Instr instr.now) self.old self.new) }
    {
        match instr {
            Instr::Knit(dir, n, yarns) => self.any_knit(instr, *dir, *n, yarns, profile),
            Instr::Xfer(n, n2) => self.transfer(instr, *n, *n2, profile),
            Instr::Pause => {
                self.pass();
                Ok(DraftedLineEnd::GoesOn(None))
            }
            _ => self.any_instr(instr, profile),
        }
    }

    // A knit whose floats aren't known to be short goes the way of all instructions.
    fn any_knit(
        &mut self,
        instr: &Instr,
        dir: Dir,
        n: Needle,
        yarns: &Yarns,
        profile: &Profile,
    ) -> Result<DraftedLineEnd, NoMemory>
        requires profile { IsLawfulProfile profile.now }
        requires lawful { (carriers : ℕ) × (carriers ≤ 64) × IsLawfulInstr profile.now carriers instr.now }
        requires knit { instr.now ≡ Knit dir n yarns.now }
        requires few { self.old.lines < 2 ^ 32 - 1 }
        ensures { IfOk result (EndsAs profile.now (read.Instr instr.now) self.old self.new) }
    {
        if !self.knows_each_near(yarns, n.at, profile.float) {
            return self.any_instr(instr, profile);
        }
        match self.usual_knit(dir, n, yarns, profile.float)? {
            Some(formed) => Ok(DraftedLineEnd::GoesOn(Some(formed))),
            None => self.first_knit(instr, dir, n, yarns, profile),
        }
    }

    // A knit of which not all is known: the rest is asked, and then it is one of which all is known.
    fn first_knit(
        &mut self,
        instr: &Instr,
        dir: Dir,
        n: Needle,
        yarns: &Yarns,
        profile: &Profile,
    ) -> Result<DraftedLineEnd, NoMemory>
        requires profile { IsLawfulProfile profile.now }
        requires lawful { (carriers : ℕ) × (carriers ≤ 64) × IsLawfulInstr profile.now carriers instr.now }
        requires knit { instr.now ≡ Knit dir n yarns.now }
        requires near { AreNearIn self.old profile.now.float n yarns.now }
        requires few { self.old.lines < 2 ^ 32 - 1 }
        ensures { IfOk result (EndsAs profile.now (read.Instr instr.now) self.old self.new) }
    {
        if yarns.len() == 0 {
            return self.any_instr(instr, profile);
        }
        if let Some(reason) = self.ask_knit(instr, n, yarns, profile)? {
            return Ok(DraftedLineEnd::Stops(self.stop(reason)));
        }
        self.note_bare(n);
        match self.usual_knit(dir, n, yarns, profile.float)? {
            Some(formed) => Ok(DraftedLineEnd::GoesOn(Some(formed))),
            None => self.any_instr(instr, profile),
        }
    }

    // Asks the conditions of a knit. Answers with the reason of one that can't hold.
    fn ask_knit(
        &mut self,
        instr: &Instr,
        n: Needle,
        yarns: &Yarns,
        profile: &Profile,
    ) -> Result<Option<Reason>, NoMemory>
        requires places { HasCarrierPlaces instr.now }
        requires knit { (dir : Dir) × (instr.now ≡ Knit dir n yarns.now) }
        requires some { 1 ≤ length yarns.now }
        requires can { All CanBeAsked (early_of instr.now) }
        requires near { AreNearIn self.old profile.now.float n yarns.now }
        ensures { IfOk result (HasAskedAll self.old self.new (conditions_of_instr profile.now instr.now)) }
    {
        if let Some(reason) = self.ask_carriers(instr, yarns, profile)? {
            return Ok(Some(reason));
        }
        self.ask_bare(instr, n)
    }

    // Asks that the carriers of a knit are in action.
    fn ask_carriers(
        &mut self,
        instr: &Instr,
        yarns: &Yarns,
        profile: &Profile,
    ) -> Result<Option<Reason>, NoMemory>
        requires places { HasCarrierPlaces instr.now }
        requires conds { early_of instr.now ≡ conds_of_each InAction 3 yarns.now }
        requires can { All CanBeAsked (early_of instr.now) }
        ensures { IfOk result (HasAskedAll self.old self.new (map plainly_asked (early_of instr.now))) }
    {
        if self.knows_in(yarns) {
            return Ok(None);
        }
        let carriers = carrier_rules::ask(self.allocator(), instr, profile)?;
        self.ask_early(carriers.conds.as_slice())
    }

    // Asks that the own slider of the needle on which an instruction forms a loop holds nothing.
    fn ask_bare(&mut self, instr: &Instr, n: Needle) -> Result<Option<Reason>, NoMemory>
        requires { forming_needle instr.now ≡ Some n }
        ensures { IfOk result (HasAskedAll self.old self.new (asked_of_sizes (bare_slider n) ∷ [])) }
    {
        if self.is_untouched(n.own_slider()) {
            return self.ask_untouched(n);
        }
        let ask = slider_rules::ask(self.allocator(), instr, self.contents())?;
        self.ask_slider(ask.as_ref())
    }

    // The same of a slider that no line has changed.
    fn ask_untouched(&mut self, n: Needle) -> Result<Option<Reason>, NoMemory>
        requires { change_at self.old.changes (own_slider n) ≡ None }
        ensures { IfOk result (HasAskedAll self.old self.new (asked_of_sizes (bare_slider n) ∷ [])) }
    {
        let reason = Reason {
            rule: Rule::SliderHolds,
            at: 2,
        };
        let goes = self.ask_entries(&[n.own_slider()], 0, reason)?;
        Ok(reason_unless(goes, reason))
    }

    /// Asks the conditions of a knit of one carrier beside a slider that no line has changed. Answers with the reason of one that
    /// can't hold.
    pub(crate) fn ask_usual_knit(
        &mut self,
        n: Needle,
        c: CarrierNo,
    ) -> Result<Option<Reason>, NoMemory>
        requires carrier { c.0 < 64 }
        requires untouched { change_at self.old.changes (own_slider n) ≡ None }
        ensures { IfOk result (λ stop. (profile : Profile) (dir : Dir) → profile.float ≡ None → HasAskedAll self.old self.new (conditions_of_instr profile (Knit dir n (c ∷ []))) stop) }
    {
        let is_out = Reason {
            rule: Rule::CarrierIsOut,
            at: 3,
        };
        if !self.ask_carrier(is_out, c)? {
            return Ok(Some(is_out));
        }
        self.ask_untouched(n)
    }

    // Asks that a carrier is in action. Answers whether it may be.
    fn ask_carrier(&mut self, reason: Reason, c: CarrierNo) -> Result<bool, NoMemory>
        requires { c.0 < 64 }
        ensures { IfOk result (HasAsked self.old self.new (record { line = self.old.lines; reason = reason }) (carrier_in c)) }
    {
        if self.knows_carrier(c) {
            return Ok(true);
        }
        self.ask(reason, Cond::CarrierIn(c))
    }

    // A knit that asks nothing new. `None` where it isn't known that it does, and then nothing was done.
    fn usual_knit(
        &mut self,
        dir: Dir,
        n: Needle,
        yarns: &Yarns,
        limit: Option<u16>,
    ) -> Result<Option<FormedLoop>, NoMemory>
        requires hook { 1 ≤ length yarns.now → is_slider n.bed ≡ false }
        requires few { self.old.lines < 2 ^ 32 - 1 }
        ensures { IfOk result (λ formed. MatchOption formed (self.new ≡ self.old) (λ l. (profile : Profile) → profile.float ≡ limit → AreNearIn self.old limit n yarns.now → EndsAs profile (read.Instr (Knit dir n yarns.now)) self.old self.new (DraftedLineEnd.GoesOn (Some l)))) }
    {
        if yarns.len() == 0 {
            return Ok(None);
        }
        if !self.is_bare(n) {
            return Ok(None);
        }
        if !self.knows_in(yarns) {
            return Ok(None);
        }
        let yarns = yarns.try_clone()?;
        let through = match limit {
            None => self.knit(n)?,
            Some(_) => self.knit_near(n, yarns.as_slice())?,
        };
        Ok(Some(FormedLoop {
            needle: n,
            dir,
            yarns,
            through,
        }))
    }

    /// A transfer: the needles have to face each other, and the second has to have room for the loops of both.
    pub(crate) fn transfer(
        &mut self,
        instr: &Instr,
        n: Needle,
        n2: Needle,
        profile: &Profile,
    ) -> Result<DraftedLineEnd, NoMemory>
        requires profile { IsLawfulProfile profile.now }
        requires lawful { (carriers : ℕ) × (carriers ≤ 64) × IsLawfulInstr profile.now carriers instr.now }
        requires transfer { instr.now ≡ Xfer n n2 }
        requires few { self.old.lines < 2 ^ 32 - 1 }
        ensures { IfOk result (EndsAs profile.now (read.Instr instr.now) self.old self.new) }
    {
        if let Some(reason) = self.ask_transfer(instr, n, n2, profile.hold)? {
            return Ok(DraftedLineEnd::Stops(self.stop(reason)));
        }
        self.move_loops(n, n2)?;
        self.move_on(&no_effect(), 0);
        Ok(DraftedLineEnd::GoesOn(None))
    }

    // Asks the conditions of a transfer. Answers with the reason of one that can't hold.
    fn ask_transfer(
        &mut self,
        instr: &Instr,
        n: Needle,
        n2: Needle,
        hold: u8,
    ) -> Result<Option<Reason>, NoMemory>
        requires transfer { instr.now ≡ Xfer n n2 }
        requires hold { hold ≤ 64 }
        ensures { IfOk result (λ stop. (profile : Profile) → profile.hold ≡ hold → HasAskedAll self.old self.new (conditions_of_instr profile instr.now) stop) }
    {
        if let Some(reason) = self.ask_rack(rack_align::ask(instr))? {
            return Ok(Some(reason));
        }
        if self.has_room(n2, n, hold) {
            return Ok(None);
        }
        let reason = Reason {
            rule: Rule::TooManyLoops,
            at: 2,
        };
        let ask = ask_size(self.allocator(), reason, hold, &[n2, n], self.contents())?;
        let goes = self.ask_size(&ask)?;
        Ok(reason_unless(goes, reason))
    }

    // All loops of the first needle go over behind those of the second.
    fn move_loops(&mut self, n: Needle, n2: Needle) -> Result<(), NoMemory>
        ensures changes { OnOk result (self.new ≡ record self.old { changes = changes_written self.old.changes (changes_with_move self.old.changes n n2) }) }
        ensures rising { IsInOrder self.old.changes }
        ensures through { self.old.ending ≡ Through (effect_in self.old.ending) }
    {
        let both = self.contents().segs_on_both(n2, n)?;
        self.put(n, Segs::new(self.allocator()))?;
        self.put(n2, both)
    }

    fn any_instr(&mut self, instr: &Instr, profile: &Profile) -> Result<DraftedLineEnd, NoMemory>
        requires profile { IsLawfulProfile profile.now }
        requires lawful { (carriers : ℕ) × (carriers ≤ 64) × IsLawfulInstr profile.now carriers instr.now }
        requires few { self.old.lines < 2 ^ 32 - 1 }
        ensures { IfOk result (EndsAs profile.now (read.Instr instr.now) self.old self.new) }
    {
        let ask = ask_instr(self.allocator(), instr, profile, self.contents())?;
        match self.ask_all(&ask)? {
            Some(reason) => Ok(DraftedLineEnd::Stops(self.stop(reason))),
            None => {
                self.note_slider(instr.forming_needle());
                self.carry_out(&ask)?;
                Ok(DraftedLineEnd::GoesOn(ask.formed))
            }
        }
    }

    // Keeps in mind that the own slider of the needle on which a loop is formed is known to hold nothing.
    fn note_slider(&mut self, on: Option<Needle>)
        requires { IfSome on (λ n. HoldsAfter self.old (size_at_most (own_slider n ∷ []) 0)) }
        ensures { self.new ≡ self.old }
    {
        if let Some(n) = on {
            self.note_bare(n);
        }
    }

    // What the instruction does, where all its conditions may hold.
    fn carry_out(&mut self, ask: &InstrAsk) -> Result<(), NoMemory>
        requires { self.old.lines < 2 ^ 32 - 1 }
        ensures { OnOk result (self.new ≡ summary_with_line self.old ask.now) }
    {
        self.write(ask.changed.as_slice())?;
        self.put_lasts(ask.lasts.as_slice())?;
        match &ask.formed {
            None => {
                self.move_on(&ask.effect, 0);
                Ok(())
            }
            Some(formed) => {
                self.add_loop(formed.needle)?;
                self.move_on(&ask.effect, 1);
                Ok(())
            }
        }
    }

    // These needles hold these segments from now on.
    fn write(&mut self, changed: &[(Needle, Segs)]) -> Result<(), NoMemory>
        ensures { OnOk result (self.new ≡ record self.old { changes = changes_written self.old.changes changed.now }) }
    {
        for change in changed {
            let mut segs = Segs::new(self.allocator());
            segs.extend_from_slice(change.1.as_slice())?;
            self.put(change.0, segs)?;
        }
        Ok(())
    }

    // The needle holds one more loop, that of the line.
    fn add_loop(&mut self, n: Needle) -> Result<(), NoMemory>
        ensures { OnOk result (self.new ≡ record self.old { changes = changes_merged self.old.changes ((n, segments_on self.old.changes n ++ New self.old.lines ∷ []) ∷ []) }) }
    {
        let mut segs = Segs::new(self.allocator());
        self.contents().append_segs(n, &mut segs)?;
        if segs.len() == u32::MAX {
            return Err(NoMemory);
        }
        segs.push(Seg::New(self.lines()))?;
        self.put(n, segs)
    }
}

// The reason, where a condition can't hold.
pub(crate) fn reason_unless(goes: bool, reason: Reason) -> Option<Reason>
    ensures { result ≡ broken_unless goes reason }
{
    if goes { None } else { Some(reason) }
}
