//! The last needles that lines change.
ghost use Rattle.std.specs.Prelude.{◌≡◌, ◌≤◌, ◌<◌, ◌+◌, List, [], IfOk, OnOk, OnErr, IsOk, length, vec_capacity, if◌then◌else◌};
ghost use Rattle.knit_base.specs.declared.needle.Needle.{Needle};
ghost use Rattle.face_data.specs.declared.bearing.Bearing.TheVariants.{Implied};
ghost use Rattle.face_data.specs.declared.face.Cond.TheVariants.{LastNear};
ghost use Rattle.face_data.specs.Bearings.{if_so};
ghost use Rattle.face_data.specs.Conditions.{ask_of};
ghost use Rattle.face_data.specs.Lasts.{AreInOrder, last_bearing, put_last};

use crate::bearing::implied_or_refuted;
use crate::{Bearing, Last};
use carriage_model::is_near;
use knit_base::{CarrierNo, NoMemory};
use std::alloc::Global;
use std::marker::Model;

/// Carriers in their order, each with its last needle. A carrier is looked for first where the one before it was found.
#[derive(Drop)]
pub struct Lasts {
    held: Vec<Last>,
    spot: usize,
}

impl Model for Lasts {
    ghost use Rattle.std.specs.Prelude.{vec_capacity};
    ghost use Rattle.face_data.specs.Lasts.{AreInOrder, LastsView};

    ghost Value = { LastsView };

    ghost view = { λ l. record { lasts = l.held.items; room = vec_capacity l.held } };

    ghost invariant = { λ l. AreInOrder l.held.items };
}

impl Lasts {
    /// No carrier. Takes no memory.
    pub fn new(alloc: Global) -> Self
        ensures { result.lasts ≡ [] }
    {
        Lasts {
            held: Vec::new(alloc),
            spot: 0,
        }
    }

    /// Takes all carriers out.
    pub fn clear(&mut self)
        ensures lasts { self.new.lasts ≡ [] }
        ensures room { self.new.room ≡ self.old.room }
    {
        self.held.clear();
    }

    /// Makes room, and takes all carriers out.
    pub fn reserve(&mut self, lasts: u64) -> Result<(), NoMemory>
        ensures lasts { self.new.lasts ≡ [] }
        ensures room { OnOk result (lasts ≤ self.new.room) }
        ensures keeps { self.old.room ≤ self.new.room }
    {
        self.held.clear();
        self.held.reserve(lasts as usize)?;
        Ok(())
    }

    /// These carriers and no others, where there is room.
    pub fn begin(&mut self, lasts: &[Last])
        requires order { AreInOrder lasts.now }
        requires room { length lasts.now ≤ self.old.room }
        ensures lasts { self.new.lasts ≡ lasts.now }
        ensures room { self.old.room ≤ self.new.room }
    {
        self.held.clear();
        if !lasts.is_empty() {
            let _ = self.held.extend_from_slice(lasts);
        }
    }

    /// The carrier's last needle is this one from now on. One that is there, or for which there is room, takes no memory.
    #[inline(always)]
    pub fn put(&mut self, last: Last) -> Result<(), NoMemory>
        ensures ok { OnOk result (self.new.lasts ≡ put_last self.old.lasts last) }
        ensures err { OnErr result (self.new.lasts ≡ self.old.lasts) }
        ensures finds_room { length self.old.lasts < self.old.room → IsOk result }
        ensures room { self.old.room ≤ self.new.room }
    {
        if self.spot < self.held.len() && self.held[self.spot].carrier == last.carrier {
            self.held[self.spot].at = last.at;
            return Ok(());
        }
        self.put_anywhere(last)
    }

    #[inline(never)]
    fn put_anywhere(&mut self, last: Last) -> Result<(), NoMemory>
        ensures ok { OnOk result (self.new.lasts ≡ put_last self.old.lasts last) }
        ensures err { OnErr result (self.new.lasts ≡ self.old.lasts) }
        ensures finds_room { length self.old.lasts < self.old.room → IsOk result }
        ensures room { self.old.room ≤ self.new.room }
    {
        let mut i = 0;
        while i < self.held.len() && self.held[i].carrier.0 < last.carrier.0 {
            i += 1;
        }
        self.spot = i;
        if i < self.held.len() && self.held[i].carrier == last.carrier {
            self.held[i].at = last.at;
            return Ok(());
        }
        self.held.insert(i, last)?;
        Ok(())
    }

    /// The carriers, each with its last needle.
    pub fn as_slice(&self) -> &[Last]
        ensures items { result.now ≡ self.now.lasts }
        ensures order { AreInOrder self.now.lasts }
    {
        &self.held
    }
}

/// What is known, after lines that change these last needles, of the condition that a carrier's is near.
#[inline(always)]
pub fn last_bearing(lasts: &[Last], c: CarrierNo, at: i16, float: u16) -> Bearing
    ensures { result ≡ last_bearing lasts.now c at float }
{
    for last in lasts {
        if last.carrier == c {
            return implied_or_refuted(is_near(float, last.at, at));
        }
    }
    Bearing::Silent
}
