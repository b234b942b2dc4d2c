//! A copy of a book.
ghost use Rattle.std.specs.Prelude.{◌≡◌, ◌+◌, ◌<◌, ◌≤◌, IfOk, Some, length, slice_get};
ghost use Rattle.edit_book.specs.Books.{document};
ghost use Rattle.edit_book.specs.Headers.{header_entries};
ghost use Rattle.edit_book.specs.Outlines.{outline_document};
ghost use Rattle.edit_book.specs.Verdicts.{setting_of};
ghost use Rattle.edit_book.specs.Work.{copy_limit};

use crate::header::Header;
use crate::{Book, Outline};
use edit_journal::Opening;
use face_data::Face;
use knit_base::{BlockText, ListOf, NoMemory, Steps};
use loop_history::LoopTable;
use std::sync::ledger::Ledger;
use summary_tree::Tree;

impl Book {
    /// A book with the same opening and journal. The faces of its inner nodes are composed anew. Fails where memory runs out.
    #[inline(never)]
    pub fn try_clone<L: Ledger>(&self, steps: &mut Steps<L>) -> Result<Book, NoMemory>
        ensures opening { IfOk result (λ book. book.opening ≡ self.now.opening) }
        ensures entries { IfOk result (λ book. book.entries ≡ self.now.entries) }
        ensures steps { steps.new ≤ steps.old + copy_limit (setting_of self.now.opening (document self.now)) (document self.now) }
    {
        let outline = self.outline.try_clone()?;
        let tree = self.copied_tree(steps)?;
        Ok(Book { outline, tree })
    }

    /// A copy of the outline alone. The only error is want of memory.
    pub fn clone_outline(&self) -> Result<Outline, NoMemory>
        ensures opening { IfOk result (λ outline. outline.opening ≡ self.now.opening) }
        ensures entries { IfOk result (λ outline. outline.entries ≡ self.now.entries) }
    {
        self.outline.try_clone()
    }

    // A tree of the same leaves, in a box.
    fn copied_tree<L: Ledger>(&self, steps: &mut Steps<L>) -> Result<Box<Tree>, NoMemory>
        ensures leaves { IfOk result (λ tree. tree.value.leaves ≡ self.now.tree.leaves) }
        ensures steps { steps.new ≤ steps.old + copy_limit (setting_of self.now.opening (document self.now)) (document self.now) }
    {
        let leaves = self.copied_leaves()?;
        let tree = Tree::start(self.outline.alloc(), leaves, steps)?;
        let tree = Box::new(self.outline.alloc(), tree)?;
        Ok(tree)
    }

    #[tactic(auto, using(crate::proofs::Looks::take_next))]
    fn copied_leaves(&self) -> Result<Vec<(Face, LoopTable)>, NoMemory>
        ensures { IfOk result (λ leaves. leaves.items ≡ self.now.tree.leaves) }
    {
        let mut leaves = Vec::with_capacity(self.outline.alloc(), self.tree.len() as usize)?;
        for at in 0..self.tree.len() {
            leaves.push(self.copied_leaf(at)?)?;
        }
        Ok(leaves)
    }

    // The leaf at a place.
    fn copied_leaf(&self, at: u32) -> Result<(Face, LoopTable), NoMemory>
        requires { at < length self.now.tree.leaves }
        ensures { IfOk result (λ leaf. slice_get self.now.tree.leaves at ≡ Some leaf) }
    {
        let (face, loops) = self.tree.leaf(at);
        Ok((Face::of(self.outline.alloc(), &face)?, loops.try_clone()?))
    }
}

impl Outline {
    /// An outline with the same opening and journal. Fails where memory runs out.
    pub(crate) fn try_clone(&self) -> Result<Outline, NoMemory>
        ensures opening { IfOk result (λ outline. outline.opening ≡ self.now.opening) }
        ensures entries { IfOk result (λ outline. outline.entries ≡ self.now.entries) }
    {
        let opening = self.copied_opening()?;
        let journal = self.journal.try_clone()?;
        let header = self.copied_header()?;
        let states = Vec::from_slice(self.alloc, self.states.as_slice())?;
        let order = self.order.try_clone()?;
        Ok(Outline {
            opening,
            journal,
            head: self.head,
            header,
            states,
            order,
            lines: self.lines,
            alloc: self.alloc,
        })
    }

    fn copied_opening(&self) -> Result<Opening, NoMemory>
        ensures { IfOk result (λ opening. opening ≡ self.now.opening) }
    {
        Ok(Opening {
            setting: self.opening.setting.try_clone()?,
            texts: self.copied_texts()?,
        })
    }

    // The texts of the opening.
    fn copied_texts(&self) -> Result<ListOf<BlockText>, NoMemory>
        ensures { IfOk result (λ texts. texts ≡ self.now.opening.texts) }
    {
        let mut texts = ListOf::with_capacity(self.alloc, self.opening.texts.len())?;
        for text in self.opening.texts.as_slice() {
            texts.push(text.try_clone()?)?;
        }
        Ok(texts)
    }

    fn copied_header(&self) -> Result<Box<Header>, NoMemory>
        ensures setting { IfOk result (λ header. header.value.setting ≡ setting_of self.now.opening (outline_document self.now)) }
        ensures entries { IfOk result (λ header. header.value.entries.items ≡ header_entries 1 self.now.entries) }
    {
        let header = Header {
            setting: self.header.setting.try_clone()?,
            entries: Vec::from_slice(self.alloc, self.header.entries.as_slice())?,
        };
        let header = Box::new(self.alloc, header)?;
        Ok(header)
    }
}
