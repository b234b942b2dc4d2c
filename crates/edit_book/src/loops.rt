//! The loop that one line makes.
ghost use Rattle.std.specs.Prelude.{◌≡◌, ◌+◌, ◌<◌, ◌≤◌, ◌^◌, ◌∷◌, [], ◌++◌, true, IfOk, OnOk, length, take};
ghost use Rattle.carriage_model.specs.State.{State, empty_state};
ghost use Rattle.summary_tree.specs.Leaves.{applied_each};
ghost use Rattle.edit_journal.specs.Documents.{body};
ghost use Rattle.face_data.specs.Segments.{entry_needles_of};
ghost use Rattle.edit_book.specs.Books.{document};
ghost use Rattle.edit_book.specs.Entered.{IsStateBehind, entries_held, stops_by};
ghost use Rattle.edit_book.specs.Replies as request;
ghost use Rattle.edit_book.specs.Replies.{IsAnswer};
ghost use Rattle.edit_book.specs.Verdicts.{IsLoopOn, setting_of};

use crate::{Book, Reply};
use carriage_model::{Brief, LoopFact};
use face_data::{Seg, brief_of};
use knit_base::{NoMemory, Steps};
use loop_history::{Entries, resolve};
use std::sync::ledger::Ledger;

impl Book {
    /// The loop that the line with this number in the file makes before the first fault, at 14 steps. Blocks before the line's own
    /// tell what its needles hold where the block begins.
    pub fn loop_at<L: Ledger>(&self, line: u32, steps: &mut Steps<L>) -> Reply
        ensures reply { IsAnswer self.now.opening self.now.entries (request.LoopAt line) result }
        ensures steps { steps.new ≤ steps.old + 14 }
    {
        match self.fact_at(line, steps) {
            Ok(fact) => Reply::Loop {
                version: self.version(),
                fact,
            },
            Err(NoMemory) => Reply::NoMemory,
        }
    }

    /// The same without the version, or want of memory.
    pub fn fact_at<L: Ledger>(
        &self,
        line: u32,
        steps: &mut Steps<L>,
    ) -> Result<Option<LoopFact>, NoMemory>
        ensures fact { IfOk result (IsLoopOn (setting_of self.now.opening (document self.now)) (body (document self.now)) line) }
        ensures steps { steps.new ≤ steps.old + 14 }
    {
        let first = self.outline.first();
        if line < first {
            return Ok(None);
        }
        if self.stops_before(line) {
            return Ok(None);
        }
        let Some((at, within)) = self.tree.leaf_of_line(line - first) else {
            return Ok(None);
        };
        let (_, table) = self.tree.leaf(at);
        let Some(place) = table.find(within, steps) else {
            return Ok(None);
        };
        let row = table.row(place, steps);
        let entries = self.entries_at(at, row.through.as_slice())?;
        Ok(Some(resolve(self.outline.alloc(), row, line - within, &entries)?))
    }

    // Whether the document stops at a fault of this line or of one before it.
    fn stops_before(&self, line: u32) -> bool
        ensures { result ≡ stops_by line (applied_each self.now.tree.leaves empty_state self.now.opening.setting.first) }
    {
        match brief_of(&self.tree.root(), self.outline.first()) {
            Brief::Sound { .. } => false,
            Brief::Broken(fault) => fault.line <= line,
        }
    }

    // The needles whose stacks the segments stand for, with the loops that they hold where the leaf at a position begins.
    fn entries_at(&self, at: u32, through: &[Seg]) -> Result<Entries, NoMemory>
        requires { at < length self.now.tree.leaves }
        ensures { IfOk result (λ entries. (s : State) → IsStateBehind self.now at s → entries ≡ entries_held s (entry_needles_of through.now)) }
    {
        let mut entries = Entries::new(self.outline.alloc());
        for seg in through {
            self.add_entry(at, *seg, &mut entries)?;
        }
        Ok(entries)
    }

    fn add_entry(&self, at: u32, seg: Seg, entries: &mut Entries) -> Result<(), NoMemory>
        requires { at < length self.now.tree.leaves }
        ensures { OnOk result ((s : State) → IsStateBehind self.now at s → entries.new ≡ entries.old ++ entries_held s (entry_needles_of (seg ∷ []))) }
    {
        let Seg::Entry(n) = seg else {
            return Ok(());
        };
        if entries.len() == u32::MAX {
            return Err(NoMemory);
        }
        let held = self
            .tree
            .entry_contents(self.outline.alloc(), at, n, self.outline.first())?;
        entries.push((n, held))
    }
}
