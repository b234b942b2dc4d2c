//! All that a line asks, in the order of the rules.
ghost use Rattle.std.specs.Prelude.{◌≡◌, List, [], All, Option, not, IfOk, IfSome, OnOk, map};
ghost use Rattle.std.specs.Option.{option_copied, option_map, option_to_list};
ghost use Rattle.knit_base.specs.declared.instr.Instr.{Instr};
ghost use Rattle.knit_base.specs.declared.profile.Profile.{Profile};
ghost use Rattle.carrier_rules.specs.Carriers.{early_in, floats_in, is_on_last};
ghost use Rattle.face_data.specs.Conditions.{ask_of};
ghost use Rattle.face_data.specs.Sizes.{SizeRule, size_ask, size_asks};
ghost use Rattle.block_summary.specs.Asks.{instr_ask};
ghost use Rattle.block_summary.specs.DraftKnowledge.{CanBeAsked, HasAskedAll, HasAskedIf, IsSmall};
ghost use Rattle.block_summary.specs.LineSummaries.{conditions_of_instr, asked_of_rack, asked_of_sizes, plainly_asked};

use crate::line::reason_unless;
use crate::{Draft, InstrAsk};
use face_data::{Cond, SizeAsk};
use knit_base::{NoMemory, Quarter, Reason};

impl Draft {
    // Asks all conditions of an instruction, in the order of the rules. Answers with the reason of one that can't hold.
    pub(crate) fn ask_all(&mut self, ask: &InstrAsk) -> Result<Option<Reason>, NoMemory>
        requires carriers { All CanBeAsked ask.now.carriers }
        requires slider { IfSome ask.now.slider IsSmall }
        requires sizes { All IsSmall ask.now.sizes }
        ensures { IfOk result (λ stop. (profile : Profile) (instr : Instr) → ask.now ≡ instr_ask profile instr self.old.changes → HasAskedAll self.old self.new (conditions_of_instr profile instr) stop) }
    {
        if let Some(reason) = self.ask_early(ask.carriers.as_slice())? {
            return Ok(Some(reason));
        }
        if let Some(reason) = self.ask_rack(ask.rack)? {
            return Ok(Some(reason));
        }
        if let Some(reason) = self.ask_slider(ask.slider.as_ref())? {
            return Ok(Some(reason));
        }
        if let Some(reason) = self.ask_sizes(ask.sizes.as_slice())? {
            return Ok(Some(reason));
        }
        self.ask_floats(ask.carriers.as_slice())
    }

    // The same of conditions on carriers and the hook. Those on last needles are passed over.
    pub(crate) fn ask_early(&mut self, conds: &[(Reason, Cond)]) -> Result<Option<Reason>, NoMemory>
        requires { All CanBeAsked conds.now }
        ensures { IfOk result (HasAskedAll self.old self.new (map plainly_asked (early_in conds.now))) }
    {
        for cond in conds {
            if !self.ask_if_early(cond.0, cond.1)? {
                return Ok(Some(cond.0));
            }
        }
        Ok(None)
    }

    // Asks a condition, unless it is on a last needle.
    fn ask_if_early(&mut self, reason: Reason, cond: Cond) -> Result<bool, NoMemory>
        requires { CanBeAsked (reason, cond) }
        ensures { IfOk result (HasAskedIf (not (is_on_last cond)) self.old self.new (record { line = self.old.lines; reason = reason }) (ask_of [] cond)) }
    {
        match cond {
            Cond::LastNear(_, _, _) => Ok(true),
            _ => self.ask(reason, cond),
        }
    }

    // The same of the conditions on last needles alone.
    fn ask_floats(&mut self, conds: &[(Reason, Cond)]) -> Result<Option<Reason>, NoMemory>
        requires { All CanBeAsked conds.now }
        ensures { IfOk result (HasAskedAll self.old self.new (map plainly_asked (floats_in conds.now))) }
    {
        for cond in conds {
            if !self.ask_if_float(cond.0, cond.1)? {
                return Ok(Some(cond.0));
            }
        }
        Ok(None)
    }

    // Asks a condition that is on a last needle, and no other.
    fn ask_if_float(&mut self, reason: Reason, cond: Cond) -> Result<bool, NoMemory>
        requires { CanBeAsked (reason, cond) }
        ensures { IfOk result (HasAskedIf (is_on_last cond) self.old self.new (record { line = self.old.lines; reason = reason }) (ask_of [] cond)) }
    {
        match cond {
            Cond::LastNear(c, at, float) => self.ask_near(reason, c, at, float),
            _ => Ok(true),
        }
    }

    pub(crate) fn ask_rack(
        &mut self,
        rack: Option<(Reason, Quarter)>,
    ) -> Result<Option<Reason>, NoMemory>
        ensures { IfOk result (HasAskedAll self.old self.new (map asked_of_rack (option_to_list rack))) }
    {
        match rack {
            None => Ok(None),
            Some((reason, quarter)) => {
                let goes = self.ask(reason, Cond::RackIs(quarter))?;
                Ok(reason_unless(goes, reason))
            }
        }
    }

    pub(crate) fn ask_slider(
        &mut self,
        slider: Option<&SizeAsk>,
    ) -> Result<Option<Reason>, NoMemory>
        requires { IfSome (option_copied slider) IsSmall }
        ensures rest_stays { OnOk result (self.new ≡ record self.old { checks = self.new.checks }) }
        ensures asked { IfOk result (λ stop. (rule : Option SizeRule) → option_copied slider.entry ≡ option_map (size_ask self.old.changes) rule → HasAskedAll self.old self.new (map asked_of_sizes (option_to_list rule)) stop) }
    {
        match slider {
            None => Ok(None),
            Some(ask) => {
                let goes = self.ask_size(ask)?;
                Ok(reason_unless(goes, ask.reason))
            }
        }
    }

    fn ask_sizes(&mut self, asks: &[SizeAsk]) -> Result<Option<Reason>, NoMemory>
        requires { All IsSmall asks.now }
        ensures { IfOk result (λ stop. (rules : List SizeRule) → asks.now ≡ size_asks self.old.changes rules → HasAskedAll self.old self.new (map asked_of_sizes rules) stop) }
    {
        for ask in asks {
            if !self.ask_size(ask)? {
                return Ok(Some(ask.reason));
            }
        }
        Ok(None)
    }
}
