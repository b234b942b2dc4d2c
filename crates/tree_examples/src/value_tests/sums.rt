//! A store of counts: a leaf has a count, and an inner node the sum of those below it.
ghost use Rattle.std.specs.Prelude.{◌≡◌, ◌≢◌, ℕ, ◌+◌, ◌<◌, ◌≤◌, [], ⊤, length, Some, OnOk, refl};
ghost use Rattle.tree_shape.specs.Values.{part};
ghost use Rattle.tree_examples.specs.Sums.{sum_at, places, AreFew, AreFewTogether, IsSum, capped_sum, one_step, stand_laws, room_laws, cost_law};

use super::rooms::Rooms;
use knit_base::{NoMemory, Steps};
use std::alloc::Global;
use std::sync::ledger::Ledger;
use tree_shape::{Child, DirtyRow};
use value_tree::{Counts, Takes, Values};

#[derive(Drop)]
pub(crate) struct Sums {
    pub leaves: Vec<Option<u64>>,
    pub nodes: Vec<Option<u64>>,
}

fn set(values: &mut Vec<Option<u64>>, at: u32, value: u64)
    requires { at < length values.old.items }
    ensures here { sum_at values.new.items at ≡ Some value }
    ensures others { (k : ℕ) → k ≢ at → sum_at values.new.items k ≡ sum_at values.old.items k }
    ensures len { length values.new.items ≡ length values.old.items }
{
    values[at as usize] = Some(value);
}

fn lengthen(values: &mut Vec<Option<u64>>, many: u32) -> Result<(), NoMemory>
    ensures ok { OnOk result (many ≤ length values.new.items) }
    ensures more { length values.old.items ≤ length values.new.items }
    ensures same { (k : ℕ) → sum_at values.new.items k ≡ sum_at values.old.items k }
{
    for _i in values.len()..many as usize {
        values.push(None)?;
    }
    Ok(())
}

impl Sums {
    pub fn new(alloc: Global) -> Sums
        ensures { (result.leaves.items ≡ []) × (result.nodes.items ≡ []) }
    {
        Sums {
            leaves: Vec::new(alloc),
            nodes: Vec::new(alloc),
        }
    }

    /// The sum at a child, 0 where there is none.
    pub fn sum(&self, child: Child) -> u64
        ensures { (v : ℕ) → part (sum_at self.now.leaves.items) (sum_at self.now.nodes.items) child ≡ Some v → result ≡ v }
    {
        let slot = match child {
            Child::Leaf(n) => self.leaves.get(n as usize),
            Child::Inner(n) => self.nodes.get(n as usize),
        };
        match slot {
            Some(sum) => match sum {
                Some(sum) => *sum,
                None => 0,
            },
            None => 0,
        }
    }
}

impl Values for Sums {
    type Value = u64;

    type Room = u64;

    type Need = Rooms;

    ghost leaf_at = { λ s. sum_at s.leaves.items };

    ghost node_at = { λ s. sum_at s.nodes.items };

    ghost slots = { λ s. places s.leaves.items s.nodes.items };

    ghost join = { ◌+◌ };

    ghost fits = { AreFewTogether };

    ghost sound = { AreFew };

    ghost stands = { IsSum };

    ghost cost = { one_step };

    ghost room = { λ v. v };

    ghost after = { capped_sum };

    ghost within = { ◌≤◌ };

    ghost meets = { λ s rooms. ⊤ };

    ghost rooms = { λ n. n };

    fn room_of(&self, child: Child) -> u64 {
        self.sum(child)
    }

    fn both(left: u64, right: u64) -> u64 {
        left.saturating_add(right)
    }

    fn no_need() -> Rooms {
        Rooms::new()
    }

    fn clear(need: &mut Rooms) {
        need.clear();
    }

    fn push(need: &mut Rooms, size: u64) {
        need.push(size);
    }

    fn nth(need: &Rooms, i: u32) -> u64 {
        need.nth(i)
    }

    fn reserve(&mut self, _need: &Rooms) -> Result<(), NoMemory> {
        Ok(())
    }

    fn meets(&self, _need: &Rooms) -> bool {
        true
    }

    fn compose<L: Ledger>(&mut self, row: DirtyRow, steps: &mut Steps<L>) {
        let left = self.sum(row.left);
        let right = self.sum(row.right);
        steps.tick();
        steps.tick();
        steps.tick();
        set(&mut self.nodes, row.node, left + right);
    }

    fn clear_leaf(&mut self, _number: u32) {}

    fn clear_node(&mut self, _number: u32) {}

    fn places(&self) -> u64 {
        let leaves = self.leaves.len() as u64;
        let nodes = self.nodes.len() as u64;
        leaves.min(nodes)
    }

    fn reserve_slots(&mut self, many: u32) -> Result<(), NoMemory> {
        lengthen(&mut self.leaves, many)?;
        lengthen(&mut self.nodes, many)
    }

    ghost stand_laws = { stand_laws };

    ghost room_laws = { room_laws };

    ghost meets_law = { λ s r needed m. m };

    ghost cost_law = { cost_law };
}

impl Counts for Sums {
    ghost count = { λ v. v };

    fn count_of(&self, child: Child) -> u64 {
        self.sum(child)
    }

    ghost count_law = { λ a b f. refl };
}

impl Takes<u64> for Sums {
    ghost value_of = { λ v. v };

    ghost may_stand = { λ v. ⊤ };

    fn set_leaf(&mut self, number: u32, leaf: u64) {
        set(&mut self.leaves, number, leaf);
    }
}
