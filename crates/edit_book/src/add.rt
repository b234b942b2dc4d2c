//! A new block comes in.
ghost use Rattle.std.specs.Prelude.{◌≡◌, ◌+◌, ◌<◌, ◌≤◌, ◌++◌, ◌∷◌, [], true, None, OnErr, OnOk, length};
ghost use Rattle.edit_book.specs.Headers.{IsPreparedUnder};
ghost use Rattle.edit_journal.specs.Documents.{HasAnchor, after, body};
ghost use Rattle.edit_journal.specs.declared.edit.Edit.TheVariants as edit;
ghost use Rattle.edit_book.specs.Books.{IsLawfulOutline, KeepsBookRoom, document, ids_of};
ghost use Rattle.edit_book.specs.Orders.{anchor_position};
ghost use Rattle.edit_book.specs.Outlines.{MayCome, outline_document};
ghost use Rattle.edit_book.specs.Replies as request;
ghost use Rattle.edit_book.specs.Replies.{refused_anchor, refusal_of, IsTurn};
ghost use Rattle.edit_book.specs.Work.{work_limit};

use crate::block_state::BlockState;
use crate::{Book, Outline, Reply};
use block_summary::Prepared;
use edit_journal::{Anchor, Edit, Entry};
use face_data::brief_of;
use knit_base::{BlockText, NoMemory, Steps};
use std::sync::ledger::Ledger;

impl Book {
    /// Puts a new block first, or directly after another. Its id is the count of ids drawn, its stamp the new version. The text was
    /// prepared under the names that the header got from entry `head`; where the header has changed since, the add is stale.
    #[tactic(auto, using(crate::proofs::Rooms::kept_all))]
    pub fn add<L: Ledger>(
        &mut self,
        session: u32,
        anchor: Anchor,
        head: u32,
        prepared: Prepared,
        steps: &mut Steps<L>,
    ) -> Reply
        requires session { session < 64 }
        requires prepared { IsPreparedUnder self.old.opening self.old.entries head prepared }
        ensures opening { self.new.opening ≡ self.old.opening }
        ensures turned { IsTurn self.old.opening self.old.entries session (request.Add anchor head prepared.text) result self.new.entries }
        ensures kept { KeepsBookRoom self.old self.new }
        ensures steps { steps.new ≤ steps.old + work_limit self.old.opening self.old.entries (request.Add anchor head prepared.text) }
    {
        if let Some(refusal) = self.outline.refused_add(anchor, head, &prepared) {
            return refusal;
        }
        self.add_fitting(session, anchor, self.ids(), head, prepared, steps)
    }

    // An add that nothing refuses, apart from the others, since a call pays for all values that it may have.
    #[inline(never)]
    fn add_fitting<L: Ledger>(
        &mut self,
        session: u32,
        anchor: Anchor,
        id: u32,
        head: u32,
        prepared: Prepared,
        steps: &mut Steps<L>,
    ) -> Reply
        requires prepared { IsPreparedUnder self.old.opening self.old.entries head prepared }
        requires id { id ≡ (document self.old).drawn }
        requires free { refusal_of (document self.old) self.old.entries (request.Add anchor head prepared.text) ≡ None }
        ensures opening { self.new.opening ≡ self.old.opening }
        ensures turned { IsTurn self.old.opening self.old.entries session (request.Add anchor head prepared.text) result self.new.entries }
        ensures kept { KeepsBookRoom self.old self.new }
        ensures steps { steps.new ≤ steps.old + work_limit self.old.opening self.old.entries (request.Add anchor head prepared.text) }
    {
        let version = self.version() + 1;
        let at = self.outline.place_after(anchor);
        let Prepared { text, face, loops } = prepared;
        let need = self.tree.need_insert(at as u32, &face.view());
        if self.tree.reserve(&need).is_err() {
            return Reply::NoMemory;
        }
        if self.outline.enter_add(session, anchor, id, text).is_err() {
            return Reply::NoMemory;
        }
        self.tree.insert(at as u32, &face.view(), loops, steps);
        let brief = brief_of(&self.tree.root(), self.outline.first());
        Reply::Accepted {
            version,
            block: id,
            brief,
        }
    }
}

impl Outline {
    /// The refusal of an add, if it is refused.
    pub(crate) fn refused_add(
        &self,
        anchor: Anchor,
        head: u32,
        prepared: &Prepared,
    ) -> Option<Reply>
        requires { IsPreparedUnder self.now.opening self.now.entries head prepared.now }
        ensures { result ≡ refusal_of (outline_document self.now) self.now.entries (request.Add anchor head prepared.now.text) }
    {
        if let Some(refusal) = self.refused_anchor(anchor) {
            return Some(refusal);
        }
        if let Some(refusal) = self.refused_head(head) {
            return Some(refusal);
        }
        if let Some(refusal) = self.refused_entries() {
            return Some(refusal);
        }
        if let Some(refusal) = self.refused_blocks() {
            return Some(refusal);
        }
        self.refused_count(self.lines_after_add(anchor, self.ids(), &prepared.text))
    }

    /// Enters an add that may come. Where memory runs out all is as before.
    pub(crate) fn enter_add(
        &mut self,
        session: u32,
        anchor: Anchor,
        id: u32,
        text: BlockText,
    ) -> Result<(), NoMemory>
        requires short { length text ≤ 4096 }
        requires comes { MayCome self.old.opening self.old.entries (edit.Add anchor id text) }
        ensures opening { self.new.opening ≡ self.old.opening }
        ensures ok { OnOk result (self.new.entries ≡ self.old.entries ++ (record { session = session; edit = edit.Add anchor id text }) ∷ []) }
        ensures err { OnErr result (self.new.entries ≡ self.old.entries) }
        ensures room { OnErr result (self.old.journal_room ≡ true → self.new.journal_room ≡ true) }
        ensures lawful { IsLawfulOutline self.new.opening self.new.entries }
    {
        let lines = self.lines + text.len();
        let version = self.version() + 1;
        let _ids = self.ids();
        let at = self.place_after(anchor);
        self.journal.reserve_one()?;
        self.order.reserve_one(id)?;
        self.states.reserve(1)?;
        self.journal.push(Entry {
            session,
            edit: Edit::Add {
                anchor,
                block: id,
                text,
            },
        });
        self.states.push_reserved(BlockState::There(version));
        self.order.insert(at, id);
        self.lines = lines;
        Ok(())
    }

    // The lines of the body after an add.
    #[tactic(auto, using(crate::proofs::Adds::added))]
    fn lines_after_add(&self, anchor: Anchor, id: u32, text: &BlockText) -> u32
        requires short { length text.now ≤ 4096 }
        requires anchor { refused_anchor (outline_document self.now) self.now.entries anchor ≡ None }
        requires id { id ≡ (outline_document self.now).drawn }
        ensures { result ≡ length (body (after (outline_document self.now) (length self.now.entries + 1) (edit.Add anchor id text.now))) }
    {
        self.lines + text.len()
    }

    /// The place of a new block.
    pub fn place_after(&self, anchor: Anchor) -> usize
        requires { HasAnchor (outline_document self.now) anchor }
        ensures place { result ≡ anchor_position anchor (ids_of (outline_document self.now).blocks) }
        ensures few { result ≤ 65536 }
    {
        let _lines = self.lines;
        match anchor {
            Anchor::Start => 0,
            Anchor::After(id) => match self.order.position(id) {
                Some(at) => at + 1,
                None => unreachable!(),
            },
        }
    }
}
