//! The rack at which loops go over from one needle to another.
//!
//! Promises that `ask` answers with the one rack at which the instruction breaks no rule on alignment, for every state of the
//! machine. Definitions: `specs/Moves`, `specs/Rules` of `carriage_model`, and `specs/Conditions` of `face_data`. Below it stand
//! std, `knit_base`, `carriage_model` and `face_data`.
#![tactic(auto)]

ghost use Rattle.std.specs.Prelude.{◌≡◌, Some};
ghost use Rattle.std.specs.Option.{is_none};
ghost use Rattle.knit_base.specs.Instr.{move_of};
ghost use Rattle.carriage_model.specs.Rules.{not_aligned, rack_broken};
ghost use Rattle.carriage_model.specs.State.{State};
ghost use Rattle.face_data.specs.Conditions.{unmet_rack};
ghost use Rattle.rack_align.specs.Moves.{facing, rack_ask};

use knit_base::{Instr, Needle, Quarter, Reason, Rule};

/// The rack that a transfer or a split needs, in quarters of a needle, and the reason that is given where the rack is
/// another. `None` exactly where the instruction is neither.
pub fn ask(instr: &Instr) -> Option<(Reason, Quarter)>
    ensures broken { (s : State) → rack_broken instr.now s ≡ unmet_rack result s }
    ensures is { result ≡ rack_ask instr.now }
    ensures none { is_none result ≡ is_none (move_of instr.now) }
{
    match instr {
        Instr::Split(_, n, n2, _) => Some(facing(*n, *n2, 3)),
        Instr::Xfer(n, n2) => Some(facing(*n, *n2, 2)),
        _ => None,
    }
}

// The rack at which the needles face each other. The second is named at this token.
fn facing(n: Needle, n2: Needle, at: u16) -> (Reason, Quarter)
    ensures is { result ≡ facing n n2 at }
    ensures broken { (s : State) → not_aligned s n n2 at ≡ unmet_rack (Some result) s }
{
    let reason = Reason {
        rule: Rule::NotAligned,
        at,
    };
    (reason, Quarter(n.rack_facing(n2)))
}
