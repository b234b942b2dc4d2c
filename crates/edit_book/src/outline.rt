//! The outline of a book: what it began with, the journal of what was done to it, and what is kept of the document that follows.
ghost use Rattle.std.specs.Prelude.{◌≡◌, ◌<◌, ◌≤◌, Some, None, IfOk, IfSome, IsOk, OnOk, length, option_map, position, slice_get, nat_lt, true, if◌then◌else◌};
ghost use Rattle.std.specs.Option.{option_copied};
ghost use Rattle.knit_base.specs.Limits.{IsLawfulProfile};
ghost use Rattle.edit_journal.specs.Documents.{block_of, stamp_at, names_at as names_given_at, text_at as text_given};
ghost use Rattle.edit_journal.specs.Entries.{entry_limit, head_id};
ghost use Rattle.edit_book.specs.Books.{IsLawfulOutline, ids_of, block_state_of};
ghost use Rattle.edit_book.specs.Orders.{is_id};
ghost use Rattle.edit_book.specs.Outlines.{outline_document};
ghost use Rattle.edit_book.specs.Verdicts.{setting_of};
ghost use Rattle.edit_book.specs.Work.{with_names};

use crate::block_state::BlockState;
use crate::header::Header;
use crate::order::Order;
use edit_journal::{Journal, Opening};
use knit_base::{BlockText, Declared, NoMemory, Setting};
use std::alloc::Global;
use std::marker::Model;
use std::mem;

/// A document in blocks with the journal of its edits, without the faces of its blocks.
#[derive(Drop)]
pub struct Outline {
    pub(crate) opening: Opening,
    pub(crate) journal: Journal,
    // the header's stamp, beside the rest of what is kept of the header, which few calls ask for
    pub(crate) head: u32,
    pub(crate) header: Box<Header>,
    pub(crate) states: Vec<BlockState>,
    pub(crate) order: Order,
    pub(crate) lines: u32,
    pub(crate) alloc: Global,
}

impl Model for Outline {
    ghost use Rattle.edit_book.specs.Books.{OutlineStands};
    ghost use Rattle.edit_book.specs.Headers.{HasHeader};
    ghost use Rattle.edit_book.specs.Outlines.{OutlineView, outline_view};

    ghost Value = { OutlineView };

    ghost view = { λ b. outline_view b.opening b.journal };

    ghost invariant = { λ b. OutlineStands b.opening b.journal.entries b.states.items b.order.ids b.lines × HasHeader b.opening b.journal.entries b.head b.header.value };
}

impl Outline {
    /// The number of entries in the journal.
    pub fn version(&self) -> u32
        ensures version { result ≡ length self.now.entries }
        ensures few { length self.now.entries ≤ entry_limit }
    {
        self.journal.len()
    }

    /// How many blocks are there.
    pub fn len(&self) -> u32
        ensures { result ≡ length (outline_document self.now).blocks }
    {
        self.order.len()
    }

    /// What the document is read by at its version: the opening's setting, with the names that the header now has.
    pub fn setting(&self) -> &Setting
        ensures setting { result.now ≡ setting_of self.now.opening (outline_document self.now) }
        ensures lawful { IsLawfulProfile result.now.profile }
    {
        &self.header.setting
    }

    /// The opening and the journal alone.
    pub fn into_parts(self) -> (Opening, Journal)
        ensures opening { result.0 ≡ self.opening }
        ensures entries { result.1.entries ≡ self.entries }
    {
        (self.opening, self.journal)
    }

    /// The journal, for a program that is about to end: the rest isn't given back piece by piece.
    pub(crate) fn leave_journal(self) -> Journal
        ensures { result.entries ≡ self.entries }
    {
        let Outline {
            opening,
            journal,
            header,
            states,
            order,
            ..
        } = self;
        mem::forget(opening);
        mem::forget(header);
        mem::forget(states);
        mem::forget(order);
        journal
    }

    /// The entries of all accepted edits.
    pub(crate) fn journal(&self) -> &Journal
        ensures { result.now.entries ≡ self.now.entries }
    {
        &self.journal
    }

    /// The number of the body's first line in the file.
    pub(crate) fn first(&self) -> u32
        ensures { result ≡ self.now.opening.setting.first }
    {
        self.opening.setting.first
    }

    /// Where memory is asked for.
    pub fn alloc(&self) -> Global {
        self.alloc
    }

    /// The header's stamp: the number of the entry that changed it last, or 0.
    pub(crate) fn header_stamp(&self) -> u32
        ensures { result ≡ (outline_document self.now).header.stamp }
    {
        self.head
    }

    /// The header's names at a version; those of now for one that is still to come. Takes no memory.
    pub(crate) fn names_at(&self, version: u32) -> &Declared
        ensures { result.now ≡ names_given_at self.now.opening self.now.entries version }
    {
        match self.journal.get(self.header.stamp_at(version)) {
            Some(entry) => match entry.names_for() {
                Some(names) => names,
                None => unreachable!(),
            },
            None => &self.opening.setting.declared,
        }
    }

    /// What the document is read by under these names.
    pub fn setting_under(&self, declared: &Declared) -> Result<Setting, NoMemory>
        ensures { IfOk result (λ setting. setting ≡ with_names declared.now (setting_of self.now.opening (outline_document self.now))) }
    {
        Ok(Setting {
            profile: self.opening.setting.profile,
            declared: declared.try_clone()?,
            first: self.opening.setting.first,
        })
    }

    /// The text that a block got from the entry with this number, or its opening text for 0.
    pub(crate) fn text_at(&self, block: u32, stamp: u32) -> Option<&BlockText>
        ensures text { option_copied result ≡ text_given self.now.opening self.now.entries block stamp }
        ensures short { IfSome result (λ text. length text.now ≤ 4096) }
    {
        if stamp == 0 {
            return self.opening.texts.get(block);
        }
        self.journal.get(stamp)?.text_for(block)
    }

    /// How many ids were drawn: each block's id is below it.
    #[tactic(auto, using(crate::proofs::Blocks::lawful))]
    pub(crate) fn ids(&self) -> u32
        ensures ids { result ≡ (outline_document self.now).drawn }
        ensures lawful { IsLawfulOutline self.now.opening self.now.entries }
        ensures below_head { (outline_document self.now).drawn < head_id }
    {
        self.states.len() as u32
    }

    // Where a block is, if its id was drawn.
    pub(crate) fn state(&self, id: u32) -> Option<BlockState>
        ensures { result ≡ (if nat_lt id (outline_document self.now).drawn then Some (block_state_of (outline_document self.now) self.now.entries id) else None) }
    {
        self.states.get(id as usize).copied()
    }

    /// The stamp of a block, if it is there.
    #[tactic(auto, using(crate::proofs::Blocks::stamp_states))]
    pub(crate) fn stamp(&self, id: u32) -> Option<u32>
        ensures { result ≡ stamp_at (outline_document self.now).blocks id }
    {
        let _ids = self.ids();
        match self.state(id) {
            Some(BlockState::There(stamp)) => Some(stamp),
            Some(BlockState::CutBy(_)) => None,
            None => None,
        }
    }

    /// The text of a block, if it is there.
    #[tactic(auto, using(crate::proofs::Blocks::block_texts))]
    pub(crate) fn text_of(&self, id: u32) -> Option<&BlockText>
        ensures text { option_copied result ≡ option_map (λ b. b.lines) (block_of (outline_document self.now).blocks id) }
        ensures short { IfSome result (λ text. length text.now ≤ 4096) }
    {
        let _ids = self.ids();
        match self.stamp(id) {
            Some(stamp) => self.text_at(id, stamp),
            None => None,
        }
    }

    /// The place of the block with this id.
    pub fn place(&self, id: u32) -> Option<usize>
        ensures { result ≡ position (is_id id) (ids_of (outline_document self.now).blocks) }
    {
        self.order.position(id)
    }

    /// The id of the block at a place.
    pub(crate) fn id_at(&self, at: u32) -> Option<u32>
        ensures { result ≡ slice_get (ids_of (outline_document self.now).blocks) at }
    {
        self.order.get(at)
    }

    /// Whether one more entry takes no memory in the journal.
    pub(crate) fn has_room(&self) -> bool
        ensures { result ≡ self.now.journal_room }
    {
        self.journal.has_room()
    }

    /// Makes room for one more entry, where it isn't there.
    pub(crate) fn reserve_entry(&mut self) -> Result<(), NoMemory>
        ensures ok { OnOk result (self.new.journal_room ≡ true) }
        ensures opening { self.new.opening ≡ self.old.opening }
        ensures entries { self.new.entries ≡ self.old.entries }
        ensures ready { self.old.journal_room ≡ true → IsOk result }
        ensures keeps { self.old.journal_room ≡ true → self.new.journal_room ≡ true }
    {
        self.journal.reserve_one()
    }
}
