//! What conditions that are kept ask, at a glance.
ghost use Rattle.std.specs.Prelude.{◌≡◌, ◌<◌, List, if◌then◌else◌};
ghost use Rattle.knit_base.specs.declared.needle.Needle.{Needle};
ghost use Rattle.face_data.specs.Conditions.{ask_of};
ghost use Rattle.knit_base.specs.Yarns.{contains_carrier, lacks_carrier};
ghost use Rattle.face_data.specs.declared.bearing.Bearing.TheVariants.{Implied};
ghost use Rattle.face_data.specs.Bearings.{if_so};
ghost use Rattle.face_data.specs.Digests.{blank_digest, digest_with, digest_bearing, bearing_by, CarrierFits};

use crate::bearing::{carrier_bearing, hook_bearing, implied_if, implied_or_refuted};
use crate::{Bearing, Cond};
use knit_base::{CarrierNo, Quarter, is_in_set};

/// What kept conditions ask of the rack, of the carriers that are to be in action and of those that aren't, and of the hook:
/// which set it is to hold, and which carriers it is to lack. Each set has a bit for each carrier.
#[derive(Clone, Copy, Debug, PartialEq, Eq)]
pub struct Digest {
    pub rack: Option<Quarter>,
    pub ins: u64,
    pub outs: u64,
    pub hook: Option<u64>,
    pub lacks: u64,
}

impl Digest {
    /// No condition is kept yet.
    pub fn blank() -> Digest
        ensures { result ≡ blank_digest }
    {
        Digest {
            rack: None,
            ins: 0,
            outs: 0,
            hook: None,
            lacks: 0,
        }
    }

    /// One more condition, of which the digest says nothing.
    #[tactic(auto, unfolding(crate::specs::Digests::digest_with))]
    pub fn note(&mut self, cond: Cond)
        requires { CarrierFits cond }
        ensures { (names : List Needle) → self.new ≡ digest_with self.old (ask_of names cond) }
    {
        match cond {
            Cond::RackIs(q) => self.rack = Some(q),
            Cond::CarrierIn(c) => self.ins |= 1 << c.0,
            Cond::CarrierOut(c) => self.outs |= 1 << c.0,
            Cond::HookFree => self.hook = Some(0),
            Cond::HookIs(set) => self.hook = Some(set),
            Cond::HookLacks(c) => self.lacks |= 1 << c.0,
            Cond::SizeAtMost(_, _) | Cond::LastNear(_, _, _) => {}
        }
    }

    /// What the conditions say of another one that isn't on sizes or on a last needle.
    #[tactic(auto, unfolding(crate::specs::Digests::digest_bearing))]
    pub fn bearing_on(&self, cond: Cond) -> Bearing
        requires { CarrierFits cond }
        ensures { (names : List Needle) → result ≡ digest_bearing self.now (ask_of names cond) }
    {
        match cond {
            Cond::RackIs(q) => match self.rack {
                None => Bearing::Silent,
                Some(p) => implied_or_refuted(p.0 == q.0),
            },
            Cond::CarrierIn(c) => {
                carrier_bearing(c, self.ins, Bearing::Implied, self.outs, Bearing::Refuted)
            }
            Cond::CarrierOut(c) => {
                carrier_bearing(c, self.outs, Bearing::Implied, self.ins, Bearing::Refuted)
            }
            Cond::HookFree => hook_bearing(self.hook, 0),
            Cond::HookIs(set) => hook_bearing(self.hook, set),
            Cond::HookLacks(c) => self.bearing_on_lack(c),
            Cond::SizeAtMost(_, _) | Cond::LastNear(_, _, _) => Bearing::Silent,
        }
    }

    // What the conditions say of one that the hook lacks this carrier.
    fn bearing_on_lack(&self, c: CarrierNo) -> Bearing
        requires { c.0 < 64 }
        ensures { result ≡ (if contains_carrier self.now.lacks c then Implied else bearing_by self.now.hook (λ held. if_so (lacks_carrier held c) Implied)) }
    {
        if is_in_set(self.lacks, c) {
            return Bearing::Implied;
        }
        match self.hook {
            None => Bearing::Silent,
            Some(held) => implied_if(!is_in_set(held, c)),
        }
    }
}
