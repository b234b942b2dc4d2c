//! The operation that racks the beds.
ghost use Rattle.std.specs.Prelude.{◌≡◌, ◌∷◌, ◌≤◌, ℕ, List, codes, min};
ghost use Rattle.knit_base.specs.declared.instr.Instr.TheVariants as instr;
ghost use Rattle.knitout_reader.specs.Numbers.{value_of_digits};
ghost use Rattle.knitout_reader.specs.Reading.{TokensReadAs, rack_rule, reading_or, quarters_of};
ghost use Rattle.knitout_reader.specs.Tokens.{tokens_of};

use crate::answers::{broken, no_shape};
use crate::number::FAR;
use crate::rack::{self, RackToken};
use crate::tokens::next_token;
use knit_base::{Instr, Profile, Quarter, Read, Rule};

/// What `rack` says with these operands.
pub(crate) fn read_rack(code: &[u8], profile: &Profile) -> Read
    ensures { (names : List (List ℕ)) → TokensReadAs profile.now names (codes "rack" ∷ tokens_of code.now) result }
{
    let Some((token, end)) = next_token(code) else {
        return no_shape();
    };
    if next_token(end).is_some() {
        return no_shape();
    }
    let Some(rack) = rack::rack(token) else {
        return no_shape();
    };
    rack_reading(rack, profile)
}

// What a `rack` of this shape says.
fn rack_reading(rack: RackToken, profile: &Profile) -> Read
    requires { rack.whole ≤ FAR }
    ensures { (whole : List ℕ) → rack.whole ≡ min (value_of_digits whole) FAR → result ≡ reading_or (rack_rule profile.now whole rack.quarter) (instr.Rack (quarters_of rack.negative whole rack.quarter)) }
{
    let Some(quarter) = rack.quarter else {
        return broken(Rule::RackStep, 1);
    };
    let limit = 4 * u32::from(profile.rack);
    let quarters = 4 * rack.whole + u32::from(quarter);
    if limit < quarters {
        return broken(Rule::RackLimit, 1);
    }
    if rack.negative {
        return Read::Instr(Instr::Rack(Quarter(-(quarters as i32))));
    }
    Read::Instr(Instr::Rack(Quarter(quarters as i32)))
}
