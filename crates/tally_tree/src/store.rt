//! Tallies at the leaves and inner nodes of a tree.
ghost use Rattle.std.specs.Prelude.{◌≡◌, ◌≢◌, ℕ, ◌+◌, ◌<◌, ◌≤◌, ◌++◌, ◌∷◌, [], length, option_map, ⊤, Option, Some, None, OnOk};
ghost use Rattle.tree_shape.specs.Values.{part};
ghost use Rattle.tally_tree.specs.Leaves.{AreLeaves, MayJoin, TallyStandsFor, tallies_place_count, room_of_tally, room_of_both_tallies, tally_at};
ghost use Rattle.tally_tree.specs.Rooms.{AreTalliesReserved};
ghost use Rattle.tally_tree.specs.Laws.{stand_laws, room_laws, meets_law, cost_law};
ghost use Rattle.tally_tree.specs.Tallies.{cost, counts_of_tally, joined_counts};

use crate::rooms::Rooms;
use crate::spares::Spares;
use crate::tally::{Tally, charge};
use knit_base::{NoMemory, Steps};
use std::alloc::Global;
use std::marker::Model;
use std::sync::ledger::Ledger;
use tree_shape::{Child, DirtyRow};
use value_tree::{Takes, Values};

/// No more needles than this can differ: four beds of 8,193 each.
const MOST_NEEDLES: usize = 32_772;

/// The tallies by the numbers of leaves and of inner nodes, and empty ones in which those to come are joined.
#[derive(Drop)]
pub(crate) struct TallyStore {
    leaves: Vec<Option<Tally>>,
    nodes: Vec<Option<Tally>>,
    spares: Spares,
}

/// A tally as contracts see it, whatever room it has.
#[derive(Drop)]
pub(crate) struct CountedTally {
    tally: Tally,
}

impl Model for CountedTally {
    ghost use Rattle.tally_tree.specs.Tallies.{TallyCounts, counts_of_tally};

    ghost Value = { TallyCounts };

    ghost view = { λ c. counts_of_tally c.tally };
}

impl TallyStore {
    /// A store without a tally. Takes no memory.
    pub fn new(alloc: Global) -> TallyStore
        ensures { (result.leaves.items ≡ []) × (result.nodes.items ≡ []) }
    {
        TallyStore {
            leaves: Vec::new(alloc),
            nodes: Vec::new(alloc),
            spares: Spares::new(alloc),
        }
    }

    /// The tally of a child, if there is one.
    pub fn tally(&self, child: Child) -> Option<&Tally>
        ensures { option_map (λ tally. counts_of_tally tally.now) result ≡ part (tally_at self.now.leaves.items) (tally_at self.now.nodes.items) child }
    {
        match child {
            Child::Leaf(number) => found(&self.leaves, number),
            Child::Inner(number) => found(&self.nodes, number),
        }
    }

    /// Appends a leaf with the next number, and a place for an inner node. Fails where memory runs out.
    pub fn push_leaf(&mut self, tally: Tally) -> Result<(), NoMemory>
        ensures leaves { OnOk result (self.new.leaves.items ≡ self.old.leaves.items ++ Some tally ∷ []) }
        ensures nodes { OnOk result (length self.new.nodes.items ≡ length self.old.nodes.items + 1) }
    {
        self.leaves.push(Some(tally))?;
        self.nodes.push(None)?;
        Ok(())
    }
}

fn found(tallies: &[Option<Tally>], number: u32) -> Option<&Tally>
    ensures { option_map (λ tally. counts_of_tally tally.now) result ≡ tally_at tallies.now number }
{
    match tallies.get(number as usize) {
        Some(slot) => slot.as_ref(),
        None => None,
    }
}

fn set(tallies: &mut Vec<Option<Tally>>, at: u32, tally: Tally)
    requires { at < length tallies.old.items }
    ensures here { tally_at tallies.new.items at ≡ Some (counts_of_tally tally) }
    ensures others { (k : ℕ) → k ≢ at → tally_at tallies.new.items k ≡ tally_at tallies.old.items k }
    ensures len { length tallies.new.items ≡ length tallies.old.items }
{
    tallies[at as usize] = Some(tally);
}

fn clear(tallies: &mut Vec<Option<Tally>>, at: u32)
    ensures others { (k : ℕ) → k ≢ at → tally_at tallies.new.items k ≡ tally_at tallies.old.items k }
    ensures len { length tallies.new.items ≡ length tallies.old.items }
{
    if let Some(slot) = tallies.get_mut(at as usize) {
        *slot = None;
    }
}

fn lengthen(tallies: &mut Vec<Option<Tally>>, many: u32) -> Result<(), NoMemory>
    ensures ok { OnOk result (many ≤ length tallies.new.items) }
    ensures more { length tallies.old.items ≤ length tallies.new.items }
    ensures same { (k : ℕ) → tally_at tallies.new.items k ≡ tally_at tallies.old.items k }
{
    for _i in tallies.len()..many as usize {
        tallies.push(None)?;
    }
    Ok(())
}

impl Values for TallyStore {
    type Value = CountedTally;

    type Room = usize;

    type Need = Rooms;

    ghost leaf_at = { λ s. tally_at s.leaves.items };

    ghost node_at = { λ s. tally_at s.nodes.items };

    ghost slots = { λ s. tallies_place_count s.leaves.items s.nodes.items };

    ghost join = { joined_counts };

    ghost fits = { MayJoin };

    ghost sound = { AreLeaves };

    ghost stands = { TallyStandsFor };

    ghost cost = { cost };

    ghost room = { room_of_tally };

    ghost after = { room_of_both_tallies };

    ghost within = { ◌≤◌ };

    ghost meets = { λ s rooms. AreTalliesReserved s.spares rooms };

    ghost rooms = { λ need. need };

    ghost stand_laws = { stand_laws };

    ghost room_laws = { room_laws };

    ghost meets_law = { λ s. meets_law s.spares };

    ghost cost_law = { cost_law };

    fn room_of(&self, child: Child) -> usize {
        match self.tally(child) {
            Some(tally) => tally.needles.len(),
            None => 0,
        }
    }

    fn both(left: usize, right: usize) -> usize {
        left.saturating_add(right).min(MOST_NEEDLES)
    }

    fn no_need() -> Rooms {
        Rooms::new()
    }

    fn clear(need: &mut Rooms) {
        need.clear();
    }

    fn push(need: &mut Rooms, size: usize) {
        need.push(size);
    }

    fn nth(need: &Rooms, i: u32) -> usize {
        need.nth(i)
    }

    fn reserve(&mut self, need: &Rooms) -> Result<(), NoMemory> {
        self.spares.reserve(need)
    }

    fn meets(&self, need: &Rooms) -> bool {
        self.spares.meets(need)
    }

    fn compose<L: Ledger>(&mut self, row: DirtyRow, steps: &mut Steps<L>) {
        let mut sum = self.spares.take();
        let (Some(a), Some(b)) = (self.tally(row.left), self.tally(row.right)) else {
            unreachable!();
        };
        sum.join(a, b, steps);
        charge(&sum, steps);
        set(&mut self.nodes, row.node, sum);
    }

    fn clear_leaf(&mut self, number: u32) {
        clear(&mut self.leaves, number);
    }

    fn clear_node(&mut self, number: u32) {
        clear(&mut self.nodes, number);
    }

    fn places(&self) -> u64 {
        let leaves = self.leaves.len() as u64;
        let nodes = self.nodes.len() as u64;
        leaves.min(nodes)
    }

    fn reserve_slots(&mut self, many: u32) -> Result<(), NoMemory> {
        lengthen(&mut self.leaves, many)?;
        lengthen(&mut self.nodes, many)
    }
}

impl Takes<Tally> for TallyStore {
    ghost value_of = { counts_of_tally };

    ghost may_stand = { λ tally. ⊤ };

    fn set_leaf(&mut self, number: u32, leaf: Tally) {
        set(&mut self.leaves, number, leaf);
    }
}
