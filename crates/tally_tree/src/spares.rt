//! Empty tallies, in which those to come are joined.
ghost use Rattle.std.specs.Prelude.{◌≡◌, ℕ, ◌≤◌, ◌<◌, ◌+◌, ◌↔◌, All, List, true, length, IfOk, OnOk};
ghost use Rattle.tally_tree.specs.Rooms.{AreTalliesReserved, IsSpare};

use crate::rooms::Rooms;
use crate::tally::Tally;
use knit_base::NoMemory;
use std::alloc::Global;
use std::marker::Model;

/// Empty tallies, each with room for so many needles.
#[derive(Drop)]
pub(crate) struct Spares {
    tallies: Vec<Tally>,
    room: usize,
    alloc: Global,
}

impl Model for Spares {
    ghost use Rattle.std.specs.Prelude.{All, length};
    ghost use Rattle.tally_tree.specs.Rooms.{IsSpare, SparesView};

    ghost Value = { SparesView };

    ghost view = { λ s. record { many = length s.tallies.items; room = s.room } };

    ghost invariant = { λ s. All (IsSpare s.room) s.tallies.items };
}

impl Spares {
    pub fn new(alloc: Global) -> Spares
        ensures { result ≡ record { many = 0; room = 0 } }
    {
        Spares {
            tallies: Vec::new(alloc),
            room: 0,
            alloc,
        }
    }

    /// Makes an empty tally for each room, where there are fewer or smaller ones. Fails where memory runs out, with those that there were.
    pub fn reserve(&mut self, need: &Rooms) -> Result<(), NoMemory>
        ensures ok { OnOk result (AreTalliesReserved self.new need.now) }
        ensures keeps { (needed : List ℕ) → AreTalliesReserved self.old needed → AreTalliesReserved self.new needed }
    {
        if self.meets(need) {
            return Ok(());
        }
        let many = self.tallies.len().max(need.len());
        let room = self.room.max(need.most());
        self.tallies = made(self.alloc, many, room)?;
        self.room = room;
        Ok(())
    }

    /// Whether there is an empty tally for each room.
    pub fn meets(&self, need: &Rooms) -> bool
        ensures { (result ≡ true) ↔ AreTalliesReserved self.now need.now }
    {
        need.len() <= self.tallies.len() && need.most() <= self.room
    }

    /// Takes one of them.
    pub fn take(&mut self) -> Tally
        requires { 1 ≤ self.old.many }
        ensures spare { IsSpare self.old.room result }
        ensures many { self.new.many + 1 ≡ self.old.many }
        ensures room { self.new.room ≡ self.old.room }
    {
        let Some(spare) = self.tallies.pop() else {
            unreachable!();
        };
        spare
    }
}

// So many empty tallies, each with room for so many needles.
fn made(alloc: Global, many: usize, room: usize) -> Result<Vec<Tally>, NoMemory>
    ensures spare { IfOk result (λ tallies. All (IsSpare room) tallies.items) }
    ensures many { IfOk result (λ tallies. length tallies.items ≡ many) }
{
    let mut tallies = Vec::with_capacity(alloc, many)?;
    for _i in 0..many {
        tallies.push(Tally::with_room(alloc, room)?)?;
    }
    Ok(tallies)
}
