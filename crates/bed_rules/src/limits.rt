//! What an instruction asks of the sizes of needles.
ghost use Rattle.std.specs.Prelude.{◌≡◌, ◌+◌, ◌≤◌, ℕ, [], ◌∷◌, length, IfOk};
ghost use Rattle.knit_base.specs.declared.rule.Rule.TheVariants.{TooManyLoops};
ghost use Rattle.knit_base.specs.Limits.{IsLawfulProfile};
ghost use Rattle.carriage_model.specs.Rules.{too_many, size_broken, tuck_too_many};
ghost use Rattle.carriage_model.specs.State.{State};
ghost use Rattle.face_data.specs.Conditions.{first_unmet_size};
ghost use Rattle.face_data.specs.Segments.{AreRead};
ghost use Rattle.face_data.specs.Sizes.{size_asks};
ghost use Rattle.bed_rules.specs.Beds.{size_rules, tuck_rules, crowded_needles};

use face_data::{SizeAsks, Symbols, ask_size};
use knit_base::{Instr, Needle, NoMemory, Profile, Reason, Rule, Yarns};
use std::alloc::Global;

/// The conditions on sizes.
pub fn sizes_of(
    alloc: Global,
    instr: &Instr,
    profile: &Profile,
    segments: &Symbols,
) -> Result<SizeAsks, NoMemory>
    requires { IsLawfulProfile profile.now }
    ensures rules { IfOk result (λ asks. asks ≡ size_asks segments.now (size_rules profile.now.hold instr.now)) }
    ensures broken { IfOk result (λ asks. (s t : State) (first : ℕ) → AreRead segments.now s first t.stacks → size_broken profile.now instr.now t ≡ first_unmet_size asks s) }
{
    match instr {
        Instr::Tuck(_, n, yarns) => room_for_one(alloc, profile, *n, yarns, segments),
        Instr::Split(_, n, n2, _) => room_for_both(alloc, profile, *n, *n2, 3, segments),
        Instr::Xfer(n, n2) => room_for_both(alloc, profile, *n, *n2, 2, segments),
        _ => Ok(SizeAsks::new(alloc)),
    }
}

// A tuck with carriers puts one more loop on the needle.
fn room_for_one(
    alloc: Global,
    profile: &Profile,
    n: Needle,
    yarns: &Yarns,
    segments: &Symbols,
) -> Result<SizeAsks, NoMemory>
    requires { 1 ≤ profile.now.hold }
    ensures rules { IfOk result (λ asks. asks ≡ size_asks segments.now (tuck_rules profile.now.hold n yarns.now)) }
    ensures broken { IfOk result (λ asks. (s t : State) (first : ℕ) → AreRead segments.now s first t.stacks → tuck_too_many profile.now n yarns.now t ≡ first_unmet_size asks s) }
{
    let mut asks = SizeAsks::new(alloc);
    if yarns.len() == 0 {
        return Ok(asks);
    }
    asks.push(ask_size(alloc, too_many_at(2), profile.hold - 1, &[n], segments)?)?;
    Ok(asks)
}

// The loops of both needles come together on the second, which is named at this token.
fn room_for_both(
    alloc: Global,
    profile: &Profile,
    n: Needle,
    n2: Needle,
    at: u16,
    segments: &Symbols,
) -> Result<SizeAsks, NoMemory>
    ensures rules { IfOk result (λ asks. asks ≡ size_asks segments.now (crowded_needles at (n2 ∷ n ∷ []) profile.now.hold ∷ [])) }
    ensures broken { IfOk result (λ asks. (s t : State) (first : ℕ) → AreRead segments.now s first t.stacks → too_many profile.now (length (t.stacks n2) + length (t.stacks n)) at ≡ first_unmet_size asks s) }
{
    let mut asks = SizeAsks::new(alloc);
    asks.push(ask_size(alloc, too_many_at(at), profile.hold, &[n2, n], segments)?)?;
    Ok(asks)
}

fn too_many_at(at: u16) -> Reason
    ensures { result ≡ record { rule = TooManyLoops; at = at } }
{
    Reason {
        rule: Rule::TooManyLoops,
        at,
    }
}
