//! What a condition says of another.
ghost use Rattle.std.specs.Prelude.{◌≡◌, ◌<◌, nat_eq, if◌then◌else◌};
ghost use Rattle.knit_base.specs.Yarns.{contains_carrier};
ghost use Rattle.face_data.specs.declared.bearing.Bearing.TheVariants.{Implied};
ghost use Rattle.face_data.specs.Bearings.{if_so, same_or_not};
ghost use Rattle.face_data.specs.Digests.{bearing_by};

use knit_base::{CarrierNo, is_in_set};

/// What conditions that hold say of another condition: it holds too, it can't hold, or nothing is known of it.
#[derive(Clone, Copy, Debug, PartialEq, Eq)]
pub enum Bearing {
    Implied,
    Refuted,
    Silent,
}

// What a value that is known says of a condition that asks for one.
#[inline(always)]
pub(crate) fn implied_or_refuted(same: bool) -> Bearing
    ensures { result ≡ same_or_not same }
{
    if same {
        Bearing::Implied
    } else {
        Bearing::Refuted
    }
}

pub(crate) fn implied_if(so: bool) -> Bearing
    ensures { result ≡ if_so so Implied }
{
    if so {
        Bearing::Implied
    } else {
        Bearing::Silent
    }
}

// What the hook, where it is known, says of a condition that it holds this set.
#[inline(always)]
pub(crate) fn hook_bearing(hook: Option<u64>, set: u64) -> Bearing
    ensures { result ≡ bearing_by hook (λ held. same_or_not (nat_eq held set)) }
{
    match hook {
        None => Bearing::Silent,
        Some(held) => implied_or_refuted(held == set),
    }
}

// The one word of a carrier of the first set, and the other of one of the second.
#[inline(always)]
pub(crate) fn carrier_bearing(
    c: CarrierNo,
    first: u64,
    one: Bearing,
    second: u64,
    other: Bearing,
) -> Bearing
    requires { c.0 < 64 }
    ensures { result ≡ (if contains_carrier first c then one else if_so (contains_carrier second c) other) }
{
    if is_in_set(first, c) {
        one
    } else if is_in_set(second, c) {
        other
    } else {
        Bearing::Silent
    }
}
