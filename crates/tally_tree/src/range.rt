//! What a range of blocks comes to.
ghost use Rattle.std.specs.Prelude.{◌≡◌, ℕ, ◌+◌, ◌*◌, ◌≤◌, List, IfOk, length};
ghost use Rattle.knit_base.specs.declared.instr.Read.{Read};
ghost use Rattle.edit_book.specs.Replies.{line_limit};
ghost use Rattle.tree_shape.specs.Values.{part};
ghost use Rattle.value_tree.specs.Parts.{StandFor};
ghost use Rattle.tally_tree.specs.Docs.{HasBlocks, IsRange, range_limit};
ghost use Rattle.tally_tree.specs.Leaves.{AreTallies, TallyStandsFor, all_of, tally_at};
ghost use Rattle.tally_tree.specs.Tallies.{TallyCounts, IsTallyOf, cost, counts_of_tally};

use crate::store::TallyStore;
use crate::{Tally, TallyDoc};
use knit_base::{NoMemory, Steps};
use std::alloc::Global;
use std::sync::ledger::Ledger;
use tree_shape::Child;

impl TallyDoc {
    /// What the blocks from one place to another come to, the places from 0 and the other not counted. It merges the tallies of the parts
    /// of the tree that lie whole between them, no more than two a level. The only error is want of memory.
    pub fn range<L: Ledger>(
        &self,
        from: u32,
        to: u32,
        steps: &mut Steps<L>,
    ) -> Result<Tally, NoMemory>
        requires { HasBlocks self.now from to }
        ensures tally { IfOk result (λ tally. IsRange self.now from to (counts_of_tally tally)) }
        ensures steps { (v : TallyCounts) × IsRange self.now from to v × (steps.new ≤ steps.old + range_limit self.now v) }
    {
        let alloc = self.outline.alloc();
        let carriers = usize::from(self.setting().declared.len());
        let parts = self.tree.parts_between(alloc, from, to)?;
        sum_of(alloc, self.tree.store(), &parts, carriers, steps)
    }
}

// The sum of the tallies of some parts, one after the other.
fn sum_of<L: Ledger>(
    alloc: Global,
    store: &TallyStore,
    parts: &[Child],
    carriers: usize,
    steps: &mut Steps<L>,
) -> Result<Tally, NoMemory>
    requires few { carriers ≤ 64 }
    requires stand { (leaves : List TallyCounts) × (texts : List (List Read)) × StandFor TallyStandsFor (part (tally_at store.now.leaves.items) (tally_at store.now.nodes.items)) parts.now leaves × AreTallies carriers texts leaves × (length (all_of texts) ≤ line_limit) }
    ensures tally { IfOk result (λ tally. (leaves : List TallyCounts) (texts : List (List Read)) → StandFor TallyStandsFor (part (tally_at store.now.leaves.items) (tally_at store.now.nodes.items)) parts.now leaves → AreTallies carriers texts leaves → IsTallyOf carriers (all_of texts) (counts_of_tally tally)) }
    ensures steps { (leaves : List TallyCounts) (texts : List (List Read)) (v : TallyCounts) → StandFor TallyStandsFor (part (tally_at store.now.leaves.items) (tally_at store.now.nodes.items)) parts.now leaves → AreTallies carriers texts leaves → IsTallyOf carriers (all_of texts) v → steps.new ≤ steps.old + length parts.now * (2 * cost v) }
{
    let mut sum = Tally::of_no_line(alloc, carriers)?;
    for part in parts {
        let Some(tally) = store.tally(*part) else {
            unreachable!();
        };
        sum = sum.merge(alloc, tally, steps)?;
    }
    Ok(sum)
}
