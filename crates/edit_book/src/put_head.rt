//! The header gets other names.
ghost use Rattle.std.specs.Prelude.{◌≡◌, ◌+◌, ◌<◌, ◌≤◌, ◌++◌, ◌∷◌, [], true, List, Some, None, IfOk, OnErr, OnOk, length, replicate, slice_get};
ghost use Rattle.knit_base.specs.Limits.{IsLawfulProfile};
ghost use Rattle.edit_journal.specs.Documents.{Block};
ghost use Rattle.edit_book.specs.declared.reply.Again.{Again};
ghost use Rattle.edit_journal.specs.declared.edit.Edit.TheVariants as edit;
ghost use Rattle.edit_book.specs.Books.{IsLawfulOutline, IsLeafOf, KeepsBookRoom, document};
ghost use Rattle.edit_book.specs.Outlines.{MayCome};
ghost use Rattle.edit_book.specs.Headers.{ArePreparedAgain};
ghost use Rattle.edit_book.specs.HeaderTrees.{AreLeavesOf, AreLeavesTaken, FitBlocks, FitsBlock, lines_for, lines_left};
ghost use Rattle.edit_book.specs.Replies as request;
ghost use Rattle.edit_book.specs.Replies.{refusal_of, IsTurn};
ghost use Rattle.edit_book.specs.Verdicts.{setting_of};
ghost use Rattle.edit_book.specs.Work.{header_limit, with_names};

use crate::reply::{Again, AgainList};
use crate::{Book, Outline, Reply};
use block_summary::{Draft, Prepared, prepare_with};
use edit_journal::{Edit, Entry, HEAD};
use face_data::{Face, brief_of};
use knit_base::{Declared, NoMemory, Setting, Steps};
use loop_history::LoopTable;
use std::alloc::Global;
use std::sync::ledger::Ledger;
use summary_tree::Tree;

impl Book {
    /// Gives the header other names, and the stamp of the new version. A block whose id and stamp stand in `again` takes the summary
    /// that stands there; any other is summarised here. The new tree is made first.
    #[inline(never)]
    #[tactic(auto, using(crate::proofs::Rooms::kept_all))]
    pub fn put_head<L: Ledger>(
        &mut self,
        session: u32,
        seen: u32,
        declared: Declared,
        again: AgainList,
        steps: &mut Steps<L>,
    ) -> Reply
        requires session { session < 64 }
        requires again { ArePreparedAgain self.old.opening self.old.entries declared again }
        ensures opening { self.new.opening ≡ self.old.opening }
        ensures turned { IsTurn self.old.opening self.old.entries session (request.PutHead seen declared) result self.new.entries }
        ensures kept { KeepsBookRoom self.old self.new }
        ensures steps { steps.new ≤ steps.old + header_limit (with_names declared (setting_of self.old.opening (document self.old))) (document self.old) again }
    {
        if let Some(refusal) = self.outline.refused_head(seen) {
            return refusal;
        }
        if let Some(refusal) = self.outline.refused_entries() {
            return refusal;
        }
        let Ok(tree) = self.tree_under(&declared, again, steps) else {
            return Reply::NoMemory;
        };
        self.put_head_fitting(session, seen, declared, tree)
    }

    // Other names that nothing refuses, with the tree of the blocks under them.
    #[inline(never)]
    fn put_head_fitting(&mut self, session: u32, seen: u32, declared: Declared, tree: Tree) -> Reply
        requires free { refusal_of (document self.old) self.old.entries (request.PutHead seen declared) ≡ None }
        requires leaves { AreLeavesOf (with_names declared (setting_of self.old.opening (document self.old))) tree.leaves (document self.old).blocks }
        ensures opening { self.new.opening ≡ self.old.opening }
        ensures turned { IsTurn self.old.opening self.old.entries session (request.PutHead seen declared) result self.new.entries }
        ensures kept { KeepsBookRoom self.old self.new }
    {
        let version = self.version() + 1;
        if self.outline.enter_head(session, seen, declared).is_err() {
            return Reply::NoMemory;
        }
        *self.tree = tree;
        let brief = brief_of(&self.tree.root(), self.outline.first());
        Reply::Accepted {
            version,
            block: HEAD,
            brief,
        }
    }

    // The tree of the blocks as they are read under these names.
    fn tree_under<L: Ledger>(
        &self,
        declared: &Declared,
        again: AgainList,
        steps: &mut Steps<L>,
    ) -> Result<Tree, NoMemory>
        requires { ArePreparedAgain self.now.opening self.now.entries declared.now again }
        ensures leaves { IfOk result (λ tree. AreLeavesOf (with_names declared.now (setting_of self.now.opening (document self.now))) tree.leaves (document self.now).blocks) }
        ensures steps { steps.new ≤ steps.old + header_limit (with_names declared.now (setting_of self.now.opening (document self.now))) (document self.now) again }
    {
        let _carriers = declared.len();
        let setting = self.outline.setting_under(declared)?;
        let taken = self.taken_leaves(again)?;
        let mut draft = Draft::new(self.outline.alloc());
        let leaves = self.leaves_under(taken, &setting, &mut draft, steps)?;
        Tree::start(self.outline.alloc(), leaves, steps)
    }

    // What is handed over of each block, by its place.
    fn taken_leaves(&self, again: AgainList) -> Result<Vec<Option<(Face, LoopTable)>>, NoMemory>
        ensures { IfOk result (λ taken. AreLeavesTaken again taken.items (document self.now).blocks) }
    {
        let mut taken = no_leaves(self.outline.alloc(), self.outline.len())?;
        for item in again.into_vec() {
            self.take_leaf(item, &mut taken);
        }
        Ok(taken)
    }

    // Takes a summary for its block, if it is of the text that the block has.
    fn take_leaf(&self, item: Again, taken: &mut Vec<Option<(Face, LoopTable)>>)
        requires { length taken.old.items ≡ length (document self.now).blocks }
        ensures { (again : List Again) → AreLeavesTaken again taken.old.items (document self.now).blocks → AreLeavesTaken (again ++ item ∷ []) taken.new.items (document self.now).blocks }
    {
        let Again {
            block,
            stamp,
            prepared,
        } = item;
        let _ids = self.ids();
        if self.stamp(block) != Some(stamp) {
            return;
        }
        let Some(at) = self.outline.place(block) else {
            unreachable!();
        };
        let Prepared {
            text: _,
            face,
            loops,
        } = prepared;
        taken[at] = Some((face, loops));
    }

    // The leaf of each block under a setting: the one that was taken for it, or else one that is made here.
    fn leaves_under<L: Ledger>(
        &self,
        taken: Vec<Option<(Face, LoopTable)>>,
        setting: &Setting,
        draft: &mut Draft,
        steps: &mut Steps<L>,
    ) -> Result<Vec<(Face, LoopTable)>, NoMemory>
        requires profile { IsLawfulProfile setting.now.profile }
        requires taken { FitBlocks setting.now taken.items (document self.now).blocks }
        ensures leaves { IfOk result (λ leaves. AreLeavesOf setting.now leaves.items (document self.now).blocks) }
        ensures steps { steps.new ≤ steps.old + lines_left taken.items (document self.now).blocks }
    {
        let mut leaves = Vec::with_capacity(self.outline.alloc(), taken.len())?;
        let mut at = 0;
        for leaf in taken {
            leaves.push(self.leaf_at(at, leaf, setting, draft, steps)?)?;
            at += 1;
        }
        Ok(leaves)
    }

    // The leaf of the block at a place.
    fn leaf_at<L: Ledger>(
        &self,
        at: u32,
        taken: Option<(Face, LoopTable)>,
        setting: &Setting,
        draft: &mut Draft,
        steps: &mut Steps<L>,
    ) -> Result<(Face, LoopTable), NoMemory>
        requires there { at < length (document self.now).blocks }
        requires profile { IsLawfulProfile setting.now.profile }
        requires taken { (b : Block) → slice_get (document self.now).blocks at ≡ Some b → FitsBlock setting.now taken b }
        ensures leaf { IfOk result (λ leaf. (b : Block) → slice_get (document self.now).blocks at ≡ Some b → IsLeafOf setting.now leaf b.lines) }
        ensures steps { (b : Block) → slice_get (document self.now).blocks at ≡ Some b → steps.new ≤ steps.old + lines_for taken b }
    {
        match taken {
            Some(leaf) => Ok(leaf),
            None => self.summarised(at, setting, draft, steps),
        }
    }

    // The block at a place, summarised for this setting.
    fn summarised<L: Ledger>(
        &self,
        at: u32,
        setting: &Setting,
        draft: &mut Draft,
        steps: &mut Steps<L>,
    ) -> Result<(Face, LoopTable), NoMemory>
        requires there { at < length (document self.now).blocks }
        requires profile { IsLawfulProfile setting.now.profile }
        ensures leaf { IfOk result (λ leaf. (b : Block) → slice_get (document self.now).blocks at ≡ Some b → IsLeafOf setting.now leaf b.lines) }
        ensures steps { (b : Block) → slice_get (document self.now).blocks at ≡ Some b → steps.new ≤ steps.old + length b.lines }
    {
        let Some(id) = self.outline.id_at(at) else {
            unreachable!();
        };
        let Some(text) = self.text_of(id) else {
            unreachable!();
        };
        match prepare_with(draft, text.try_clone()?, setting, steps) {
            Ok(
                Prepared {
                    text: _,
                    face,
                    loops,
                },
            ) => Ok((face, loops)),
            // No text is too long.
            Err(_) => Err(NoMemory),
        }
    }
}

impl Outline {
    /// Enters other names of the header. Where memory runs out all is as before.
    pub(crate) fn enter_head(
        &mut self,
        session: u32,
        seen: u32,
        declared: Declared,
    ) -> Result<(), NoMemory>
        requires { MayCome self.old.opening self.old.entries (edit.Head seen declared) }
        ensures opening { self.new.opening ≡ self.old.opening }
        ensures ok { OnOk result (self.new.entries ≡ self.old.entries ++ (record { session = session; edit = edit.Head seen declared }) ∷ []) }
        ensures err { OnErr result (self.new.entries ≡ self.old.entries) }
        ensures room { OnErr result (self.old.journal_room ≡ true → self.new.journal_room ≡ true) }
        ensures lawful { IsLawfulOutline self.new.opening self.new.entries }
    {
        let _carriers = declared.len();
        let version = self.version() + 1;
        let setting = self.setting_under(&declared)?;
        self.journal.reserve_one()?;
        self.header.entries.reserve(1)?;
        self.journal.push(Entry {
            session,
            edit: Edit::Head { seen, declared },
        });
        self.head = version;
        self.header.entries.push_reserved(version);
        self.header.setting = setting;
        Ok(())
    }
}

// A place for the leaf of each of so many blocks, with none in it.
fn no_leaves(alloc: Global, count: u32) -> Result<Vec<Option<(Face, LoopTable)>>, NoMemory>
    ensures { IfOk result (λ taken. taken.items ≡ replicate count None) }
{
    let mut taken = Vec::with_capacity(alloc, count as usize)?;
    for _ in 0..count {
        taken.push(None)?;
    }
    Ok(taken)
}
