//! Kept conditions on sizes, found by needle.
ghost use Rattle.std.specs.Prelude.{◌≡◌, ◌≢◌, ℕ, ◌≤◌, ◌<◌, ◌+◌, ◌%◌, [], ◌∷◌, ◌++◌, false, length, OnOk, IsTrue, slice_index_or, unsigned_abs};
ghost use Rattle.std.specs.List.{Contains};
ghost use Rattle.face_data.specs.declared.bearing.Bearing.TheVariants.{Implied, Silent};
ghost use Rattle.face_data.specs.Bearings.{bearing};
ghost use Rattle.face_data.specs.Conditions.{ask_of};
ghost use Rattle.face_data.specs.Conditions.Ask.{size_at_most};
ghost use Rattle.face_data.specs.View.{CondFits};
ghost use Rattle.block_summary.specs.NeedleChains.{AreAdded, chain_of};

use crate::implied::implies_size;
use face_data::Cond;
use knit_base::{Needle, NoMemory};
use std::alloc::Global;
use std::marker::Model;

/// One needle of a kept condition: in which chain it is, the condition, and where the one before it in the chain may stand.
#[derive(Clone, Copy, Debug, PartialEq, Eq)]
pub struct ConditionLink {
    pub chain: usize,
    pub cond: Cond,
    pub next: usize,
}

/// Where the last link of each chain may stand. A chain without links may have any place.
#[derive(Drop)]
pub struct ChainEnds {
    pub places: [usize; 256],
}

impl ChainEnds {
    fn new() -> Self {
        ChainEnds { places: [0; 256] }
    }

    fn get(&self, chain: usize) -> usize
        requires { chain < 256 }
        ensures { result ≡ slice_index_or self.now.places chain 0 }
    {
        self.places[chain]
    }

    fn set(&mut self, chain: usize, place: usize)
        requires { chain < 256 }
        ensures here { slice_index_or self.new.places chain 0 ≡ place }
        ensures elsewhere { (other : ℕ) → other ≢ chain → slice_index_or self.new.places other 0 ≡ slice_index_or self.old.places other 0 }
    {
        self.places[chain] = place;
    }
}

/// For each chain of needles the kept conditions that name one of them, the newest first: the place of the last link of each
/// chain, and from each link on to the one before it.
#[derive(Drop)]
pub struct Chains {
    lasts: ChainEnds,
    links: Vec<ConditionLink>,
}

impl Model for Chains {
    ghost use Rattle.std.specs.Prelude.{vec_capacity};
    ghost use Rattle.block_summary.specs.NeedleChains.{AreLasts, NeedleChainsLeadBack, ChainsView};

    ghost Value = { ChainsView };

    ghost view = { λ c. record { links = c.links.items; room = vec_capacity c.links } };

    ghost invariant = { λ c. AreLasts c.lasts.places c.links.items × NeedleChainsLeadBack c.links.items };
}

impl Chains {
    /// No links. Takes no memory.
    pub fn new(alloc: Global) -> Self
        ensures { result.links ≡ [] }
    {
        Chains {
            lasts: ChainEnds::new(),
            links: Vec::new(alloc),
        }
    }

    /// No links any more. The room is kept; the places of the last links may stay, since any will do.
    pub fn clear(&mut self)
        ensures { self.new.links ≡ [] }
    {
        self.links.clear();
    }

    /// Makes room for so many links more.
    pub fn reserve(&mut self, more: usize) -> Result<(), NoMemory>
        ensures links { self.new.links ≡ self.old.links }
        ensures room { OnOk result (length self.old.links + more ≤ self.new.room) }
    {
        self.links.reserve(more)?;
        Ok(())
    }

    /// Adds a link of each of the needles to the condition.
    pub fn add(&mut self, needles: &[Needle], cond: Cond)
        requires { length self.old.links + length needles.now ≤ self.old.room }
        ensures { AreAdded needles.now cond self.old.links self.new.links }
    {
        for n in needles {
            self.note(*n, cond);
        }
    }

    // One link more.
    fn note(&mut self, n: Needle, cond: Cond)
        requires { length self.old.links < self.old.room }
        ensures links { (next : ℕ) × (self.new.links ≡ self.old.links ++ record { chain = chain_of n; cond = cond; next = next } ∷ []) }
        ensures room { self.new.room ≡ self.old.room }
    {
        let chain = chain_of(n);
        let next = self.lasts.get(chain);
        let place = self.links.len();
        self.lasts.set(chain, place);
        self.links
            .push_reserved(ConditionLink { chain, cond, next });
    }

    /// Whether a condition to which a link of this chain leads says that these needles hold at most so many loops together.
    pub fn finds(&self, chain: usize, names: &[Needle], needles: &[Needle], most: u8) -> bool
        requires chain { chain < 256 }
        requires fit { (l : ConditionLink) → Contains self.now.links l → CondFits names.now l.cond }
        ensures yes { IsTrue result → (l : ConditionLink) × Contains self.now.links l × (bearing (ask_of names.now l.cond) (size_at_most needles.now most) ≡ Implied) }
        ensures none { result ≡ false → (l : ConditionLink) → Contains self.now.links l → l.chain ≡ chain → bearing (ask_of names.now l.cond) (size_at_most needles.now most) ≡ Silent }
    {
        let mut limit = self.links.len();
        let mut place = self.lasts.get(chain);
        while place < limit {
            let link = self.links[place];
            if link.chain != chain {
                return false;
            }
            if implies_size(names, link.cond, needles, most) {
                return true;
            }
            limit = place;
            place = link.next;
        }
        false
    }
}

/// Which of 256 chains is that of the needle.
pub fn chain_of(n: Needle) -> usize
    ensures chain { result ≡ chain_of n }
    ensures within { result < 256 }
{
    (n.at.unsigned_abs() % 256) as usize
}
