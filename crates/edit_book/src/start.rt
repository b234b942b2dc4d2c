//! The book of an opening, and that of an outline.
ghost use Rattle.std.specs.Prelude.{◌≡◌, ◌+◌, ◌<◌, ◌≤◌, ◌^◌, [], All, IfOk, OnOk, flat_map, length, map};
ghost use Rattle.knit_base.specs.Limits.{IsLawfulProfile};
ghost use Rattle.block_summary.specs.Prepared.{IsPreparedFor};
ghost use Rattle.block_summary.specs.declared.prepared.Prepared.{Prepared};
ghost use Rattle.edit_journal.specs.Documents.{Block, body};
ghost use Rattle.edit_book.specs.HeaderTrees.{AreLeavesOf};
ghost use Rattle.edit_book.specs.Opened.{HasKept, IsBlockAdded};
ghost use Rattle.edit_book.specs.Outlines.{outline_document};
ghost use Rattle.edit_book.specs.Replies.{block_limit, line_limit};
ghost use Rattle.edit_book.specs.Verdicts.{setting_of};
ghost use Rattle.edit_book.specs.Work.{start_limit};

use crate::{Book, Outline};
use block_summary::Prepared;
use face_data::Face;
use knit_base::{BlockText, ListOf, NoMemory, Setting, Steps};
use loop_history::LoopTable;
use std::alloc::Global;
use std::sync::ledger::Ledger;
use summary_tree::Tree;

/// What is kept of the first blocks.
#[derive(Drop)]
pub(crate) struct StartedBlocks {
    texts: ListOf<BlockText>,
    leaves: Vec<(Face, LoopTable)>,
}

impl StartedBlocks {
    fn new(alloc: Global) -> StartedBlocks
        ensures { HasKept [] result }
    {
        StartedBlocks {
            texts: ListOf::new(alloc),
            leaves: Vec::new(alloc),
        }
    }

    // One block more.
    fn add(&mut self, block: Prepared) -> Result<(), NoMemory>
        requires { length self.old.texts < block_limit }
        ensures { OnOk result (IsBlockAdded self.old self.new block) }
    {
        let Prepared { text, face, loops } = block;
        self.texts.push(text)?;
        self.leaves.push((face, loops))?;
        Ok(())
    }

    fn of(alloc: Global, blocks: Vec<Prepared>) -> Result<StartedBlocks, NoMemory>
        requires { length blocks.items ≤ block_limit }
        ensures { IfOk result (HasKept blocks.items) }
    {
        let mut kept = StartedBlocks::new(alloc);
        for block in blocks {
            kept.add(block)?;
        }
        Ok(kept)
    }
}

impl Book {
    /// The book at version 0: what it is read by, and its first blocks, each of which was prepared for that. It composes their faces
    /// once. The only error is want of memory.
    pub fn start<L: Ledger>(
        alloc: Global,
        setting: Setting,
        blocks: Vec<Prepared>,
        steps: &mut Steps<L>,
    ) -> Result<Book, NoMemory>
        requires profile { IsLawfulProfile setting.profile }
        requires first { setting.first + line_limit < 2 ^ 32 }
        requires prepared { All (IsPreparedFor setting.profile setting.declared) blocks.items }
        requires few { length blocks.items ≤ block_limit }
        requires lines { length (flat_map (λ (block : Prepared). block.text) blocks.items) ≤ line_limit }
        ensures setting { IfOk result (λ book. book.opening.setting ≡ setting) }
        ensures texts { IfOk result (λ book. book.opening.texts ≡ map (λ (block : Prepared). block.text) blocks.items) }
        ensures entries { IfOk result (λ book. book.entries ≡ []) }
        ensures steps { steps.new ≤ steps.old + start_limit setting (length blocks.items) (flat_map (λ (block : Prepared). block.text) blocks.items) }
    {
        let StartedBlocks { texts, leaves } = StartedBlocks::of(alloc, blocks)?;
        let outline = Outline::start(alloc, setting, texts)?;
        Book::of_leaves(outline, leaves, steps)
    }

    /// The book of an outline, with the blocks that are there: of their texts, each prepared for the names that the header now has. It
    /// composes their faces once. The only error is want of memory.
    pub fn of_outline<L: Ledger>(
        outline: Outline,
        blocks: Vec<Prepared>,
        steps: &mut Steps<L>,
    ) -> Result<Book, NoMemory>
        requires texts { map (λ (block : Prepared). block.text) blocks.items ≡ map (λ (b : Block). b.lines) (outline_document outline).blocks }
        requires prepared { All (IsPreparedFor outline.opening.setting.profile (outline_document outline).header.names) blocks.items }
        ensures opening { IfOk result (λ book. book.opening ≡ outline.opening) }
        ensures entries { IfOk result (λ book. book.entries ≡ outline.entries) }
        ensures steps { steps.new ≤ steps.old + start_limit (setting_of outline.opening (outline_document outline)) (length blocks.items) (flat_map (λ (block : Prepared). block.text) blocks.items) }
    {
        let _ids = outline.ids();
        let StartedBlocks { texts: _, leaves } = StartedBlocks::of(outline.alloc(), blocks)?;
        Book::of_leaves(outline, leaves, steps)
    }

    // The book of an outline with the leaves of its blocks.
    fn of_leaves<L: Ledger>(
        outline: Outline,
        leaves: Vec<(Face, LoopTable)>,
        steps: &mut Steps<L>,
    ) -> Result<Book, NoMemory>
        requires { AreLeavesOf (setting_of outline.opening (outline_document outline)) leaves.items (outline_document outline).blocks }
        ensures opening { IfOk result (λ book. book.opening ≡ outline.opening) }
        ensures entries { IfOk result (λ book. book.entries ≡ outline.entries) }
        ensures steps { steps.new ≤ steps.old + start_limit (setting_of outline.opening (outline_document outline)) (length (outline_document outline).blocks) (body (outline_document outline)) }
    {
        let _ids = outline.ids();
        let tree = Tree::start(outline.alloc(), leaves, steps)?;
        let tree = Box::new(outline.alloc(), tree)?;
        Ok(Book { outline, tree })
    }
}
