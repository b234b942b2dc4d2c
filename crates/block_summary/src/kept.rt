//! Conditions that are kept, with the needles that they name.
ghost use Rattle.std.specs.Prelude.{◌≡◌, ◌≢◌, ◌<◌, ◌^◌, [], ◌∷◌, ◌++◌, false, length, map, IsTrue, OnOk, OnErr};
ghost use Rattle.std.specs.List.{Contains, flat_map};
ghost use Rattle.face_data.specs.declared.bearing.Bearing.TheVariants.{Implied};
ghost use Rattle.face_data.specs.declared.face.Check.{Check};
ghost use Rattle.face_data.specs.Answers.ConditionAnswer.{asks};
ghost use Rattle.face_data.specs.Bearings.{if_so};
ghost use Rattle.face_data.specs.Composition.{from_bearing, answer_of_kept};
ghost use Rattle.face_data.specs.Conditions.{ask_of};
ghost use Rattle.face_data.specs.Conditions.Ask.{size_at_most};
ghost use Rattle.face_data.specs.Digests.{CarrierFits, IsNearCond, IsUnsized, digest_of};
ghost use Rattle.face_data.specs.Goodness.{IsIrredundant};
ghost use Rattle.face_data.specs.View.{asked_of_check, size_needles_of, ChecksFit};

use crate::chains::{Chains, chain_of};
use crate::implied::implies_size;
use face_data::{Bearing, Check, Cond, Digest, Part};
use knit_base::{Fault, Needle, NoMemory};
use std::alloc::Global;
use std::marker::Model;

/// Conditions that are kept, in the order in which they were asked. The needles of those on sizes stand in one list, and
/// each has a link to its condition.
#[derive(Drop)]
pub struct KeptLineConditions {
    checks: Vec<Check>,
    names: Vec<Needle>,
    digest: Digest,
    chains: Chains,
}

impl Model for KeptLineConditions {
    ghost use Rattle.std.specs.Prelude.{List, map};
    ghost use Rattle.face_data.specs.Summaries.{AskedCondition};
    ghost use Rattle.face_data.specs.View.{asked_of_check};
    ghost use Rattle.block_summary.specs.DraftKnowledge.{KeepsConditions};
    ghost use Rattle.block_summary.specs.NeedleChains.{AreFound};

    ghost Value = { List AskedCondition };

    ghost view = { λ k. map (asked_of_check k.names.items) k.checks.items };

    ghost invariant = { λ k. KeepsConditions k.names.items k.checks.items k.digest × AreFound k.names.items k.checks.items k.chains.links };
}

impl KeptLineConditions {
    /// Nothing is kept. Takes no memory.
    pub fn new(alloc: Global) -> Self
        ensures { result ≡ [] }
    {
        KeptLineConditions {
            checks: Vec::new(alloc),
            names: Vec::new(alloc),
            digest: Digest::blank(),
            chains: Chains::new(alloc),
        }
    }

    /// Keeps nothing any more. The room is kept.
    pub fn clear(&mut self)
        ensures { self.new ≡ [] }
    {
        self.checks.clear();
        self.names.clear();
        self.digest = Digest::blank();
        self.chains.clear();
    }

    /// What the conditions ask of rack, carriers and hook.
    pub fn digest(&self) -> Digest
        ensures digest { result ≡ digest_of self.now }
        ensures irredundant { IsIrredundant self.now }
    {
        self.digest
    }

    /// The conditions, and the names in which their needles stand.
    pub fn lists(&self) -> (&[Check], &[Needle])
        ensures checks { map (asked_of_check result.1.now) result.0.now ≡ self.now }
        ensures fit { ChecksFit result.1.now result.0.now }
        ensures whole { flat_map (λ (c : Check). size_needles_of result.1.now c.cond) result.0.now ≡ result.1.now }
    {
        (&self.checks, &self.names)
    }

    /// Keeps a condition that isn't on sizes.
    pub fn keep(&mut self, fault: Fault, cond: Cond) -> Result<(), NoMemory>
        requires fits { CarrierFits cond }
        requires nameless { IsUnsized (ask_of [] cond) }
        requires silent { answer_of_kept self.old (ask_of [] cond) ≡ asks (ask_of [] cond) }
        ensures ok { OnOk result (self.new ≡ self.old ++ record { fault = fault; ask = ask_of [] cond } ∷ []) }
        ensures err { OnErr result (self.new ≡ self.old) }
    {
        self.checks.push(Check { fault, cond })?;
        self.digest.note(cond);
        Ok(())
    }

    /// What the conditions say of one that a carrier's last needle is near: only the same one says that it holds.
    pub fn bearing_on_near(&self, cond: Cond) -> Bearing
        requires { IsNearCond cond }
        ensures { answer_of_kept self.now (ask_of [] cond) ≡ from_bearing result (asks (ask_of [] cond)) }
    {
        if is_among(cond, &self.checks) {
            Bearing::Implied
        } else {
            Bearing::Silent
        }
    }

    /// Whether a kept condition says that these needles hold at most so many loops together.
    pub fn implies(&self, needles: &[Needle], most: u8) -> bool
        ensures { answer_of_kept self.now (size_at_most needles.now most) ≡ from_bearing (if_so result Implied) (asks (size_at_most needles.now most)) }
    {
        match needles {
            [] => self.any_implies(needles, most),
            [first, ..] => self
                .chains
                .finds(chain_of(*first), &self.names, needles, most),
        }
    }

    // The same of any needles, also of none: all conditions are tried.
    fn any_implies(&self, needles: &[Needle], most: u8) -> bool
        ensures { answer_of_kept self.now (size_at_most needles.now most) ≡ from_bearing (if_so result Implied) (asks (size_at_most needles.now most)) }
    {
        for check in &self.checks {
            if implies_size(&self.names, check.cond, needles, most) {
                return true;
            }
        }
        false
    }

    /// Keeps the condition that these needles hold at most so many loops together.
    pub fn keep_size(&mut self, fault: Fault, needles: &[Needle], most: u8) -> Result<(), NoMemory>
        requires few { length needles.now < 2 ^ 32 }
        requires silent { answer_of_kept self.old (size_at_most needles.now most) ≡ asks (size_at_most needles.now most) }
        ensures ok { OnOk result (self.new ≡ self.old ++ record { fault = fault; ask = size_at_most needles.now most } ∷ []) }
        ensures err { OnErr result (self.new ≡ self.old) }
    {
        let part = Part {
            start: self.names.len() as u64,
            len: needles.len() as u32,
        };
        self.checks.reserve(1)?;
        self.chains.reserve(needles.len())?;
        self.names.extend_from_slice(needles)?;
        let cond = Cond::SizeAtMost(part, most);
        self.checks.push_reserved(Check { fault, cond });
        self.chains.add(needles, cond);
        Ok(())
    }
}

// Whether it is one of the conditions.
fn is_among(cond: Cond, checks: &[Check]) -> bool
    ensures yes { IsTrue result → (c : Check) × Contains checks.now c × (c.cond ≡ cond) }
    ensures none { result ≡ false → (c : Check) → Contains checks.now c → c.cond ≢ cond }
{
    checks.iter().any(|check| check.cond == cond)
}
