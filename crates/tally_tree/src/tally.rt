//! A tally: what some lines come to.
ghost use Rattle.std.specs.Prelude.{◌≡◌, ℕ, ◌+◌, ◌≤◌, ◌++◌, ◌∷◌, [], length, replicate, vec_capacity, IfOk};
ghost use Rattle.tally_tree.specs.Needles.{merged_needles};
ghost use Rattle.tally_tree.specs.Rooms.{IsSpare};
ghost use Rattle.tally_tree.specs.Tallies.{AddUp, CountsFit, numbers_added, cost, counts_of_tally, joined_counts};

use crate::merge::merge_needles;
use knit_base::{Needle, NoMemory, Steps};
use std::alloc::Global;
use std::sync::ledger::Ledger;

/// How many numbers a tally has beside those of carriers: of lines, and of the operations of four classes.
const OTHER_NUMBERS: usize = 5;

/// For how many carriers an empty tally has room: as many as a header names at most.
const MOST_CARRIERS: usize = 64;

/// What some lines come to: their number; for each carrier, in the order of the header, how many lines form loops of it; how many
/// operations of each class there are, in the order form, split, move, drop; and the needles of these operations, rising, each once.
#[derive(Drop)]
pub struct Tally {
    pub lines: u32,
    pub with: Vec<u32>,
    pub ops: [u32; 4],
    pub needles: Vec<Needle>,
}

impl Tally {
    /// The tally of no line, for so many carriers.
    pub(crate) fn of_no_line(alloc: Global, carriers: usize) -> Result<Tally, NoMemory>
        requires { carriers ≤ 64 }
        ensures { IfOk result (λ tally. counts_of_tally tally ≡ record { lines = 0; with_each = replicate carriers 0; ops = 0 ∷ 0 ∷ 0 ∷ 0 ∷ []; needles = [] }) }
    {
        let mut tally = Tally::with_room(alloc, 0)?;
        for _c in 0..carriers {
            tally.with.push_reserved(0);
        }
        Ok(tally)
    }

    /// An empty tally, with room for as many carriers as there can be and for so many needles.
    pub(crate) fn with_room(alloc: Global, needles: usize) -> Result<Tally, NoMemory>
        ensures spare { IfOk result (IsSpare needles) }
        ensures numbers { IfOk result (λ tally. (tally.lines ≡ 0) × (tally.ops ≡ 0 ∷ 0 ∷ 0 ∷ 0 ∷ [])) }
    {
        let with = Vec::with_capacity(alloc, MOST_CARRIERS)?;
        let needles = Vec::with_capacity(alloc, needles)?;
        Ok(Tally {
            lines: 0,
            with,
            ops: [0; 4],
            needles,
        })
    }

    /// The tally of the first one's lines and then the other's. It costs a step for each number and needle of each.
    pub fn merge<L: Ledger>(
        &self,
        alloc: Global,
        other: &Tally,
        steps: &mut Steps<L>,
    ) -> Result<Tally, NoMemory>
        requires fit { CountsFit (counts_of_tally self.now) (counts_of_tally other.now) }
        requires few { length self.now.with.items ≤ 64 }
        ensures sum { IfOk result (λ sum. counts_of_tally sum ≡ joined_counts (counts_of_tally self.now) (counts_of_tally other.now)) }
        ensures steps { steps.new ≤ steps.old + (cost (counts_of_tally self.now) + cost (counts_of_tally other.now)) }
    {
        let needles = self.needles.len() + other.needles.len();
        let mut sum = Tally::with_room(alloc, needles)?;
        sum.join(self, other, steps);
        Ok(sum)
    }

    /// Becomes the sum of two tallies. It is empty before, with room for their numbers and needles. Takes no memory.
    pub(crate) fn join<L: Ledger>(&mut self, a: &Tally, b: &Tally, steps: &mut Steps<L>)
        requires fit { CountsFit (counts_of_tally a.now) (counts_of_tally b.now) }
        requires few { length a.now.with.items ≤ 64 }
        requires spare { (room : ℕ) × IsSpare room self.old × (length (merged_needles a.now.needles.items b.now.needles.items) ≤ room) }
        ensures sum { counts_of_tally self.new ≡ joined_counts (counts_of_tally a.now) (counts_of_tally b.now) }
        ensures steps { steps.new ≡ steps.old + (cost (counts_of_tally a.now) + cost (counts_of_tally b.now)) }
    {
        charge(a, steps);
        charge(b, steps);
        self.lines = a.lines + b.lines;
        self.ops = added_ops(&a.ops, &b.ops);
        add_each(&a.with, &b.with, &mut self.with);
        merge_needles(&a.needles, &b.needles, &mut self.needles);
    }
}

// The numbers of operations, added.
fn added_ops(a: &[u32; 4], b: &[u32; 4]) -> [u32; 4]
    requires { AddUp a.now b.now }
    ensures { result ≡ numbers_added a.now b.now }
{
    let [a0, a1, a2, a3] = *a;
    let [b0, b1, b2, b3] = *b;
    [a0 + b0, a1 + b1, a2 + b2, a3 + b3]
}

// Appends numbers, added one by one.
fn add_each(a: &[u32], b: &[u32], out: &mut Vec<u32>)
    requires same { length a.now ≡ length b.now }
    requires few { AddUp a.now b.now }
    requires room { length out.old.items + length a.now ≤ vec_capacity out.old }
    ensures { out.new.items ≡ out.old.items ++ numbers_added a.now b.now }
{
    let mut a = a;
    let mut b = b;
    while !a.is_empty() && !b.is_empty() {
        out.push_reserved(a[0] + b[0]);
        a = &a[1..];
        b = &b[1..];
    }
}

/// A step for each number and needle.
pub(crate) fn charge<L: Ledger>(tally: &Tally, steps: &mut Steps<L>)
    ensures { steps.new ≡ steps.old + cost (counts_of_tally tally.now) }
{
    for _i in 0..tally.with.len() {
        steps.tick();
    }
    for _j in 0..tally.needles.len() {
        steps.tick();
    }
    for _k in 0..OTHER_NUMBERS {
        steps.tick();
    }
}
