//! What is asked of the slider beside a hook on which a loop is formed.
//!
//! Promises that `ask` answers with the condition on the block's entry under which the instruction breaks no rule on sliders,
//! for every state of the machine. Definitions: `specs/Sliders`, `specs/Rules` of `carriage_model`, and `specs/Segments` and
//! `specs/Conditions` of `face_data`. Below it stand std, `knit_base`, `carriage_model` and `face_data`.
#![tactic(auto)]

ghost use Rattle.std.specs.Prelude.{◌≡◌, ℕ, IfOk};
ghost use Rattle.std.specs.Option.{is_none, option_map};
ghost use Rattle.carriage_model.specs.State.{State};
ghost use Rattle.face_data.specs.Conditions.{unmet_size_if_any};
ghost use Rattle.carriage_model.specs.Rules.{slider_broken};
ghost use Rattle.knit_base.specs.Instr.{forming_needle};
ghost use Rattle.face_data.specs.Segments.{AreRead};
ghost use Rattle.face_data.specs.Sizes.{size_ask};
ghost use Rattle.slider_rules.specs.Sliders.{slider_rule};

use face_data::{SizeAsk, Symbols, ask_size};
use knit_base::{Instr, NoMemory, Reason, Rule};
use std::alloc::Global;

/// The slider with the number and the side of a hook on which a loop is formed holds nothing: that, as a condition on the
/// entry of a block after which the needles hold these segments. `None` exactly where the instruction forms no loop.
pub fn ask(alloc: Global, instr: &Instr, segments: &Symbols) -> Result<Option<SizeAsk>, NoMemory>
    ensures broken { IfOk result (λ ask. (s t : State) (first : ℕ) → AreRead segments.now s first t.stacks → slider_broken instr.now t ≡ unmet_size_if_any ask s) }
    ensures is { IfOk result (λ ask. ask ≡ option_map (size_ask segments.now) (slider_rule instr.now)) }
    ensures none { IfOk result (λ ask. is_none ask ≡ is_none (forming_needle instr.now)) }
{
    let Some(n) = instr.forming_needle() else {
        return Ok(None);
    };
    let reason = Reason {
        rule: Rule::SliderHolds,
        at: 2,
    };
    let ask = ask_size(alloc, reason, 0, &[n.own_slider()], segments)?;
    Ok(Some(ask))
}
