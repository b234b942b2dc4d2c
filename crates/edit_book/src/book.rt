//! The book: the outline of a document, and the faces of its blocks in a tree.
ghost use Rattle.std.specs.Prelude.{◌≡◌, ℕ, ◌<◌, ◌≤◌, List, IfSome, length, option_map};
ghost use Rattle.std.specs.Option.{option_copied};
ghost use Rattle.knit_base.specs.declared.instr.Read.{Read};
ghost use Rattle.knit_base.specs.Limits.{IsLawfulProfile};
ghost use Rattle.block_summary.specs.NamedNeedles.{needles_named};
ghost use Rattle.block_summary.specs.Prepared.{AreReadings};
ghost use Rattle.edit_journal.specs.Documents.{block_of, body, stamp_at, names_at as names_given_at, text_at as text_given};
ghost use Rattle.edit_book.specs.Books.{document, IsLawfulBook};
ghost use Rattle.edit_journal.specs.Entries.{entry_limit, head_id};
ghost use Rattle.edit_book.specs.Verdicts.{IsBriefOn, setting_of};
ghost use Rattle.edit_book.specs.Work.{needles_in, needles_once};

use crate::Outline;
use carriage_model::Brief;
use edit_journal::Journal;
use face_data::brief_of;
use knit_base::{BlockText, Declared, Setting};
use std::marker::Model;
use std::mem;
use summary_tree::Tree;

/// A document in blocks with the journal of its edits. It keeps the summary of each block, and that of all of them.
#[derive(Drop)]
pub struct Book {
    pub(crate) outline: Outline,
    // in a box, since a book is moved at each turn, and the tree's fields are most of it
    pub(crate) tree: Box<Tree>,
}

impl Model for Book {
    ghost use Rattle.std.specs.Coded.{codes};
    ghost use Rattle.tree_shape.specs.View.{tree_code};
    ghost use Rattle.edit_book.specs.Books.{BookView, AreLawfulLeaves, book_view};

    ghost Value = { BookView };

    ghost coded = { Prim.hlevel (codes, tree_code) };

    ghost view = { λ b. book_view b.outline b.tree.value };

    ghost invariant = { λ b. AreLawfulLeaves b.outline.opening b.outline.entries b.tree.value.leaves };
}

impl Book {
    /// The number of entries in the journal.
    pub fn version(&self) -> u32
        ensures version { result ≡ length self.now.entries }
        ensures few { length self.now.entries ≤ entry_limit }
    {
        self.outline.version()
    }

    /// The entries of all accepted edits.
    pub fn journal(&self) -> &Journal
        ensures { result.now.entries ≡ self.now.entries }
    {
        self.outline.journal()
    }

    /// What the document is read by at its version: the opening's setting, with the names that the header now has. The needles that lines
    /// name, by which the limits on steps count, are those of any readings of these lines.
    #[tactic(auto, using(crate::proofs::Work::needles_are))]
    pub fn setting(&self) -> &Setting
        ensures setting { result.now ≡ setting_of self.now.opening (document self.now) }
        ensures lawful { IsLawfulProfile result.now.profile }
        ensures needles { (lines : List (List ℕ)) (readings : List Read) → AreReadings result.now.profile result.now.declared lines readings → needles_in result.now lines ≡ needles_once (needles_named readings) }
    {
        self.outline.setting()
    }

    /// The header's stamp: the number of the entry that changed it last, or 0.
    pub fn header_stamp(&self) -> u32
        ensures { result ≡ (document self.now).header.stamp }
    {
        self.outline.header_stamp()
    }

    /// The header's names at a version; those of now for one that is still to come. Takes no memory.
    pub fn names_at(&self, version: u32) -> &Declared
        ensures { result.now ≡ names_given_at self.now.opening self.now.entries version }
    {
        self.outline.names_at(version)
    }

    /// The journal alone.
    pub fn into_journal(self) -> Journal
        ensures { result.entries ≡ self.entries }
    {
        let (_, journal) = self.outline.into_parts();
        journal
    }

    /// The journal, for a program that is about to end. The rest isn't given back piece by piece, which for a long document takes a
    /// good part of the time that opening it took, but left to the system, which takes back all of it at once.
    pub fn leave_journal(self) -> Journal
        ensures { result.entries ≡ self.entries }
    {
        let Book { outline, tree } = self;
        mem::forget(tree);
        outline.leave_journal()
    }

    /// The verdict on the document, in short.
    pub fn verdict(&self) -> Brief
        ensures { IsBriefOn (setting_of self.now.opening (document self.now)) (body (document self.now)) result }
    {
        brief_of(&self.tree.root(), self.outline.first())
    }

    /// The text that a block got from the entry with this number, or its opening text for 0.
    pub fn text_at(&self, block: u32, stamp: u32) -> Option<&BlockText>
        ensures text { option_copied result ≡ text_given self.now.opening self.now.entries block stamp }
        ensures short { IfSome result (λ text. length text.now ≤ 4096) }
    {
        self.outline.text_at(block, stamp)
    }

    /// The stamp of a block, if it is there.
    pub(crate) fn stamp(&self, id: u32) -> Option<u32>
        ensures { result ≡ stamp_at (document self.now).blocks id }
    {
        self.outline.stamp(id)
    }

    /// The text of a block, if it is there.
    pub(crate) fn text_of(&self, id: u32) -> Option<&BlockText>
        ensures text { option_copied result ≡ option_map (λ b. b.lines) (block_of (document self.now).blocks id) }
        ensures short { IfSome result (λ text. length text.now ≤ 4096) }
    {
        self.outline.text_of(id)
    }

    /// How many ids were drawn: each block's id is below it.
    #[tactic(auto, using(crate::proofs::Blocks::lawful))]
    pub fn ids(&self) -> u32
        ensures ids { result ≡ (document self.now).drawn }
        ensures lawful { IsLawfulBook self.now }
        ensures below_head { (document self.now).drawn < head_id }
    {
        self.outline.ids()
    }
}
