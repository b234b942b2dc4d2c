//! The blocks of a document, with the tallies of all and of runs of them.
ghost use Rattle.std.specs.Prelude.{◌≡◌, ℕ, List, ◌+◌, ◌<◌, ◌≤◌, ◌^◌, ◌++◌, ◌∷◌, [], All, IfOk, OnErr, OnOk, flat_map, length};
ghost use Rattle.knit_base.specs.Limits.{IsLawfulProfile};
ghost use Rattle.edit_book.specs.Outlines.{HasShortText, MayCome, block_texts_of};
ghost use Rattle.edit_book.specs.Replies.{block_limit, line_limit};
ghost use Rattle.tally_tree.specs.Docs.{document, setting_now};

use crate::store::TallyStore;
use crate::trees::tree_of;
use edit_book::{Outline, block_texts};
use edit_journal::{Edit, Entry, TextList};
use knit_base::{NoMemory, Setting, Steps};
use std::alloc::Global;
use std::marker::Model;
use std::sync::ledger::Ledger;
use value_tree::ValueTree;

/// A document's blocks as tallies, in a balanced tree. The outline says what the blocks are, and has their texts: under other names of
/// the header these are counted again.
#[derive(Drop)]
pub struct TallyDoc {
    pub(crate) outline: Outline,
    pub(crate) tree: ValueTree<TallyStore>,
}

impl Model for TallyDoc {
    ghost use Rattle.tally_tree.specs.Docs.{DocView, doc_view};
    ghost use Rattle.tally_tree.specs.Trees.{IsTreeOf};

    ghost Value = { DocView };

    ghost view = { λ d. doc_view d.outline };

    ghost invariant = { λ d. IsTreeOf (doc_view d.outline) d.tree.shape d.tree.store.leaves.items d.tree.store.nodes.items };
}

impl TallyDoc {
    /// The document at version 0 with these blocks, whose ids are 0, 1, 2 and so on, and what its lines are read by. It costs a step for
    /// each line, and joins the tally of each inner node once. The only error is want of memory.
    pub fn start<L: Ledger>(
        alloc: Global,
        setting: Setting,
        blocks: TextList,
        steps: &mut Steps<L>,
    ) -> Result<TallyDoc, NoMemory>
        requires profile { IsLawfulProfile setting.profile }
        requires first { setting.first + line_limit < 2 ^ 32 }
        requires few { length blocks ≤ block_limit }
        requires lines { length (flat_map (λ (text : List (List ℕ)). text) (block_texts_of blocks)) ≤ line_limit }
        requires short { All (λ (text : List (List ℕ)). length text ≤ 4096) (block_texts_of blocks) }
        ensures setting { IfOk result (λ doc. doc.opening.setting ≡ setting) }
        ensures texts { IfOk result (λ doc. doc.opening.texts ≡ block_texts_of blocks) }
        ensures entries { IfOk result (λ doc. doc.entries ≡ []) }
    {
        let texts = block_texts(alloc, &blocks)?;
        let outline = Outline::start(alloc, setting, texts)?;
        TallyDoc::of_outline(outline, steps)
    }

    /// The document of an outline, with the blocks that are there: it reads their texts alone, whatever texts there were before. It
    /// costs a step for each of their lines. The only error is want of memory.
    pub fn of_outline<L: Ledger>(
        outline: Outline,
        steps: &mut Steps<L>,
    ) -> Result<TallyDoc, NoMemory>
        ensures opening { IfOk result (λ doc. doc.opening ≡ outline.opening) }
        ensures entries { IfOk result (λ doc. doc.entries ≡ outline.entries) }
    {
        let tree = tree_of(&outline, outline.setting(), steps)?;
        Ok(TallyDoc { outline, tree })
    }

    /// How many blocks there are.
    pub fn blocks(&self) -> u32
        ensures { result ≡ length (document self.now).blocks }
    {
        self.outline.len()
    }

    /// What the lines are read by: the names are those that the header now has.
    pub fn setting(&self) -> &Setting
        ensures { result.now ≡ setting_now self.now }
    {
        self.outline.setting()
    }

    /// What the blocks are, and which entry may come next.
    pub fn outline(&self) -> &Outline
        ensures opening { result.now.opening ≡ self.now.opening }
        ensures entries { result.now.entries ≡ self.now.entries }
    {
        &self.outline
    }

    /// Follows the entry that has the next number and may come next, as its outline tells. Other names of the header have all texts counted
    /// again. Where memory runs out all is as before.
    pub fn follow<L: Ledger>(
        &mut self,
        _number: u32,
        entry: &Entry,
        steps: &mut Steps<L>,
    ) -> Result<(), NoMemory>
        requires number { _number ≡ length self.old.entries + 1 }
        requires comes { MayCome self.old.opening self.old.entries entry.now.edit }
        requires short { HasShortText entry.now.edit }
        ensures opening { self.new.opening ≡ self.old.opening }
        ensures ok { OnOk result (self.new.entries ≡ self.old.entries ++ entry.now ∷ []) }
        ensures err { OnErr result (self.new.entries ≡ self.old.entries) }
    {
        match &entry.edit {
            Edit::Put { block, text, .. } => self.put(*block, text, entry, steps),
            Edit::Add { anchor, text, .. } => self.add(*anchor, text, entry, steps),
            Edit::Cut { block, .. } => self.cut(*block, entry, steps),
            Edit::Head { declared, .. } => self.put_head(declared, entry, steps),
        }
    }
}
