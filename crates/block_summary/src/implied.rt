//! What a kept condition on sizes says of another one.
ghost use Rattle.std.specs.Prelude.{◌≡◌, ◌≤◌, ◌+◌, length};
ghost use Rattle.std.specs.List.{list_any};
ghost use Rattle.knit_base.specs.Needle.{same_needle};
ghost use Rattle.face_data.specs.declared.bearing.Bearing.TheVariants.{Implied};
ghost use Rattle.face_data.specs.Bearings.{all_in, bearing, if_so};
ghost use Rattle.face_data.specs.Conditions.{ask_of, part_of};
ghost use Rattle.face_data.specs.Conditions.Ask.{size_at_most};
ghost use Rattle.face_data.specs.View.{CondFits};

use face_data::{Cond, Part};
use knit_base::Needle;

/// Whether this condition says that these needles hold at most so many loops together.
#[tactic(auto, unfolding(face_data::specs::Bearings::bearing))]
pub fn implies_size(names: &[Needle], cond: Cond, needles: &[Needle], most: u8) -> bool
    requires { CondFits names.now cond }
    ensures { bearing (ask_of names.now cond) (size_at_most needles.now most) ≡ if_so result Implied }
{
    match cond {
        Cond::SizeAtMost(part, least) => least <= most && are_within(needles, named(names, part)),
        _ => false,
    }
}

// The needles of a part.
fn named(names: &[Needle], part: Part) -> &[Needle]
    requires { part.start + part.len ≤ length names.now }
    ensures { result.now ≡ part_of names.now part }
{
    let start = part.start as usize;
    let end = start + part.len as usize;
    &names[start..end]
}

// Whether each of the needles is one of these names.
fn are_within(needles: &[Needle], names: &[Needle]) -> bool
    ensures { result ≡ all_in needles.now names.now }
{
    needles.iter().all(|n| is_named(*n, names))
}

fn is_named(n: Needle, names: &[Needle]) -> bool
    ensures { result ≡ list_any (same_needle n) names.now }
{
    names.iter().any(|m| is_same(n, *m))
}

fn is_same(n: Needle, m: Needle) -> bool
    ensures { result ≡ same_needle n m }
{
    n == m
}
