//! A document of tallies follows an entry. All that may want memory comes before anything is changed.
ghost use Rattle.std.specs.Prelude.{◌≡◌, ℕ, ◌≤◌, ◌++◌, ◌∷◌, [], OnErr, OnOk, length};
ghost use Rattle.edit_journal.specs.declared.edit.Edit.TheVariants as edit;
ghost use Rattle.edit_book.specs.Outlines.{MayCome};

use crate::TallyDoc;
use crate::lines::tally_of;
use crate::trees::tree_of;
use edit_journal::{Anchor, Entry};
use knit_base::{BlockText, Declared, NoMemory, Steps};
use std::sync::ledger::Ledger;

impl TallyDoc {
    /// A block gets another text.
    pub(crate) fn put<L: Ledger>(
        &mut self,
        block: u32,
        text: &BlockText,
        entry: &Entry,
        steps: &mut Steps<L>,
    ) -> Result<(), NoMemory>
        requires put { (seen : ℕ) × (entry.now.edit ≡ edit.Put block seen text.now) }
        requires comes { MayCome self.old.opening self.old.entries entry.now.edit }
        requires short { length text.now ≤ 4096 }
        ensures opening { self.new.opening ≡ self.old.opening }
        ensures ok { OnOk result (self.new.entries ≡ self.old.entries ++ entry.now ∷ []) }
        ensures err { OnErr result (self.new.entries ≡ self.old.entries) }
    {
        let tally = tally_of(self.outline.alloc(), text, self.outline.setting(), steps)?;
        let Some(at) = self.outline.place(block) else {
            unreachable!();
        };
        let need = self.tree.need_replace(at as u32, tally.needles.len());
        self.tree.reserve(&need)?;
        self.outline.follow(entry.try_clone()?)?;
        self.tree.replace(at as u32, tally, steps);
        Ok(())
    }

    /// A new block comes in.
    pub(crate) fn add<L: Ledger>(
        &mut self,
        anchor: Anchor,
        text: &BlockText,
        entry: &Entry,
        steps: &mut Steps<L>,
    ) -> Result<(), NoMemory>
        requires add { (block : ℕ) × (entry.now.edit ≡ edit.Add anchor block text.now) }
        requires comes { MayCome self.old.opening self.old.entries entry.now.edit }
        requires short { length text.now ≤ 4096 }
        ensures opening { self.new.opening ≡ self.old.opening }
        ensures ok { OnOk result (self.new.entries ≡ self.old.entries ++ entry.now ∷ []) }
        ensures err { OnErr result (self.new.entries ≡ self.old.entries) }
    {
        let tally = tally_of(self.outline.alloc(), text, self.outline.setting(), steps)?;
        let at = self.outline.place_after(anchor) as u32;
        let need = self.tree.need_insert(at, tally.needles.len());
        self.tree.reserve_insert(&need)?;
        self.outline.follow(entry.try_clone()?)?;
        self.tree.insert(at, tally, steps);
        Ok(())
    }

    /// A block is taken out.
    pub(crate) fn cut<L: Ledger>(
        &mut self,
        block: u32,
        entry: &Entry,
        steps: &mut Steps<L>,
    ) -> Result<(), NoMemory>
        requires cut { (seen : ℕ) × (entry.now.edit ≡ edit.Cut block seen) }
        requires comes { MayCome self.old.opening self.old.entries entry.now.edit }
        ensures opening { self.new.opening ≡ self.old.opening }
        ensures ok { OnOk result (self.new.entries ≡ self.old.entries ++ entry.now ∷ []) }
        ensures err { OnErr result (self.new.entries ≡ self.old.entries) }
    {
        let Some(at) = self.outline.place(block) else {
            unreachable!();
        };
        let need = self.tree.need_remove(at as u32);
        self.tree.reserve(&need)?;
        self.outline.follow(entry.try_clone()?)?;
        self.tree.remove(at as u32, steps);
        Ok(())
    }

    /// The header gets other names, under which all texts are counted again.
    pub(crate) fn put_head<L: Ledger>(
        &mut self,
        declared: &Declared,
        entry: &Entry,
        steps: &mut Steps<L>,
    ) -> Result<(), NoMemory>
        requires head { (seen : ℕ) × (entry.now.edit ≡ edit.Head seen declared.now) }
        requires comes { MayCome self.old.opening self.old.entries entry.now.edit }
        ensures opening { self.new.opening ≡ self.old.opening }
        ensures ok { OnOk result (self.new.entries ≡ self.old.entries ++ entry.now ∷ []) }
        ensures err { OnErr result (self.new.entries ≡ self.old.entries) }
    {
        let setting = self.outline.setting_under(declared)?;
        let tree = tree_of(&self.outline, &setting, steps)?;
        self.outline.follow(entry.try_clone()?)?;
        self.tree = tree;
        Ok(())
    }
}
