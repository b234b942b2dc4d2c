//! What two blocks change together, and what a block that changes so much says of a condition that is asked after it.
ghost use Rattle.std.specs.Prelude.{◌≡◌, List};
ghost use Rattle.knit_base.specs.declared.needle.Needle.{Needle};
ghost use Rattle.knit_base.specs.Yarns.{without_set};
ghost use Rattle.face_data.specs.Conditions.{ask_of};
ghost use Rattle.face_data.specs.Digests.{CarrierFits, effect_bearing};
ghost use Rattle.face_data.specs.Composition.{effect_of_both, or_old};

use crate::bearing::{carrier_bearing, hook_bearing, implied_or_refuted};
use crate::{Bearing, Cond, Effect};
use knit_base::is_in_set;

impl Effect {
    /// Both effects, this one first.
    pub fn then(&self, second: &Effect) -> Effect
        ensures { result ≡ effect_of_both self.now second.now }
    {
        Effect {
            rack: newer(second.rack, self.rack),
            came: without(self.came, second.went) | second.came,
            went: without(self.went, second.came) | second.went,
            hook: newer(second.hook, self.hook),
        }
    }

    /// What is known after the block of a condition that isn't on sizes or on a last needle. Where it is silent the condition is left to
    /// ask as it is.
    #[inline(always)]
    #[tactic(auto, unfolding(crate::specs::Digests::effect_bearing))]
    pub fn bearing_on(&self, cond: Cond) -> Bearing
        requires { CarrierFits cond }
        ensures { (names : List Needle) → result ≡ effect_bearing self.now (ask_of names cond) }
    {
        match cond {
            Cond::RackIs(q) => match self.rack {
                None => Bearing::Silent,
                Some(set) => implied_or_refuted(set.0 == q.0),
            },
            Cond::CarrierIn(c) => {
                carrier_bearing(c, self.came, Bearing::Implied, self.went, Bearing::Refuted)
            }
            Cond::CarrierOut(c) => {
                carrier_bearing(c, self.came, Bearing::Refuted, self.went, Bearing::Implied)
            }
            Cond::HookFree => hook_bearing(self.hook, 0),
            Cond::HookIs(set) => hook_bearing(self.hook, set),
            Cond::HookLacks(c) => match self.hook {
                None => Bearing::Silent,
                Some(held) => implied_or_refuted(!is_in_set(held, c)),
            },
            Cond::SizeAtMost(_, _) | Cond::LastNear(_, _, _) => Bearing::Silent,
        }
    }
}

// The carriers of the first set that aren't in the second.
fn without(set: u64, other: u64) -> u64
    ensures { result ≡ without_set set other }
{
    set ^ (set & other)
}

// The new value, where there is one.
fn newer<T: Copy>(new: Option<T>, old: Option<T>) -> Option<T>
    ensures { result ≡ or_old new old }
{
    match new {
        None => old,
        Some(value) => Some(value),
    }
}
