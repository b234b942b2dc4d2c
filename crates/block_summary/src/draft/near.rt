//! The last needles of carriers in a draft, where floats have a limit.
ghost use Rattle.std.specs.Prelude.{◌≡◌, ℕ, ◌-◌, ◌<◌, ◌^◌, List, [], ◌∷◌, false, IsTrue, IfOk, OnOk, None, Some, fold, map};
ghost use Rattle.std.specs.List.{Contains};
ghost use Rattle.knit_base.specs.declared.instr.Instr.TheVariants.{Knit};
ghost use Rattle.knit_base.specs.declared.instr.Read.TheVariants as read;
ghost use Rattle.knit_base.specs.declared.needle.Dir.{Dir};
ghost use Rattle.knit_base.specs.declared.profile.Profile.{Profile};
ghost use Rattle.knit_base.specs.declared.yarns.CarrierNo.{CarrierNo};
ghost use Rattle.knit_base.specs.Needle.{is_slider, own_slider};
ghost use Rattle.face_data.specs.declared.face.Ending.TheVariants.{Through};
ghost use Rattle.face_data.specs.Composition.{composed};
ghost use Rattle.face_data.specs.Conditions.Ask.{carrier_in, last_near, size_at_most};
ghost use Rattle.face_data.specs.Lasts.{put_last};
ghost use Rattle.face_data.specs.Segments.{segments_on};
ghost use Rattle.carrier_rules.specs.Carriers.{carrier_last};
ghost use Rattle.block_summary.specs.DraftKnowledge.{AreNearIn, HoldsAfter, HasAsked, effect_in};
ghost use Rattle.block_summary.specs.LineSummaries.{line_summary};

use super::Draft;
use face_data::{Bearing, Cond, Last, Segs, last_bearing};
use knit_base::{CarrierNo, Needle, NoMemory, Reason, Yarns};

impl Draft {
    /// A condition that a carrier's last needle is near is asked of the line that comes next. Answers as `ask` does.
    pub(crate) fn ask_near(
        &mut self,
        reason: Reason,
        c: CarrierNo,
        at: i16,
        float: u16,
    ) -> Result<bool, NoMemory>
        ensures { IfOk result (HasAsked self.old self.new (record { line = self.old.lines; reason = reason }) (last_near c at float)) }
    {
        let cond = Cond::LastNear(c, at, float);
        let bearing = match last_bearing(self.lasts.as_slice(), c, at, float) {
            Bearing::Implied => Bearing::Implied,
            Bearing::Refuted => Bearing::Refuted,
            Bearing::Silent => self.kept.bearing_on_near(cond),
        };
        self.keep_if_silent(bearing, reason, cond)
    }

    // Whether the carrier's last needle is known to be near. False says nothing.
    #[inline(never)]
    fn is_near(&self, c: CarrierNo, at: i16, float: u16) -> bool
        ensures { IsTrue result → HoldsAfter self.now (last_near c at float) }
    {
        last_bearing(self.lasts.as_slice(), c, at, float) == Bearing::Implied
    }

    /// Whether the last needle of each of the carriers is known to be near, or floats have no limit. False says nothing.
    pub(crate) fn knows_each_near(&self, yarns: &Yarns, at: i16, limit: Option<u16>) -> bool
        ensures { IsTrue result → (float : ℕ) (c : CarrierNo) → limit ≡ Some float → Contains yarns.now c → HoldsAfter self.now (last_near c at float) }
    {
        let Some(float) = limit else {
            return true;
        };
        yarns.as_slice().iter().all(|c| self.is_near(*c, at, float))
    }

    /// The last needle of each of these carriers has this number from now on.
    #[inline(never)]
    pub(crate) fn put_last_of_each(
        &mut self,
        carriers: &[CarrierNo],
        at: Option<i16>,
    ) -> Result<(), NoMemory>
        ensures lasts { OnOk result (self.new ≡ record self.old { lasts = fold put_last self.old.lasts (map (carrier_last at) carriers.now) }) }
        ensures through { self.old.ending ≡ Through (effect_in self.old.ending) }
    {
        for c in carriers {
            self.lasts.put(Last { carrier: *c, at })?;
        }
        Ok(())
    }

    /// The carriers have these last needles from now on.
    pub(crate) fn put_lasts(&mut self, lasts: &[Last]) -> Result<(), NoMemory>
        ensures { OnOk result (self.new ≡ record self.old { lasts = fold put_last self.old.lasts lasts.now }) }
    {
        for last in lasts {
            self.lasts.put(*last)?;
        }
        Ok(())
    }

    /// A knit of which all is known, as `knit`, where floats have a limit and those of the carriers are known to be short enough.
    pub(crate) fn knit_near(&mut self, n: Needle, carriers: &[CarrierNo]) -> Result<Segs, NoMemory>
        requires hook { is_slider n.bed ≡ false }
        requires few { self.old.lines < 2 ^ 32 - 1 }
        requires slider { HoldsAfter self.old (size_at_most (own_slider n ∷ []) 0) }
        requires known { (c : CarrierNo) → Contains carriers.now c → HoldsAfter self.old (carrier_in c) }
        ensures summary { OnOk result ((profile : Profile) (float : ℕ) (dir : Dir) (c : CarrierNo) (cs : List CarrierNo) → carriers.now ≡ c ∷ cs → profile.float ≡ Some float → AreNearIn self.old (Some float) n carriers.now → self.new ≡ composed self.old (line_summary profile (read.Instr (Knit dir n (c ∷ cs))))) }
        ensures through { IfOk result (λ through. through ≡ segments_on self.old.changes n) }
    {
        self.put_last_of_each(carriers, Some(n.at))?;
        self.knit(n)
    }
}
