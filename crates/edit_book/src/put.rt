//! A block gets another text.
ghost use Rattle.std.specs.Prelude.{◌≡◌, ◌≢◌, ℕ, List, ◌+◌, ◌<◌, ◌≤◌, ◌++◌, ◌∷◌, [], true, None, IsOk, OnErr, OnOk, length, option_map};
ghost use Rattle.edit_journal.specs.Documents.{after, block_of, body};
ghost use Rattle.edit_journal.specs.declared.edit.Edit.TheVariants as edit;
ghost use Rattle.edit_book.specs.Headers.{IsPreparedUnder};
ghost use Rattle.edit_book.specs.Books.{IsLawfulOutline, IsReadyToPut, KeepsBookRoom, document};
ghost use Rattle.edit_book.specs.Outlines.{MayCome, outline_document};
ghost use Rattle.edit_book.specs.Replies as request;
ghost use Rattle.edit_book.specs.Replies.{refusal_of, IsTurn};
ghost use Rattle.edit_book.specs.Work.{work_limit};
ghost use Rattle.edit_book.specs.declared.reply.Reply.TheVariants as Reply;

use crate::block_state::BlockState;
use crate::{Book, Outline, Reply};
use block_summary::Prepared;
use edit_journal::{Edit, Entry};
use face_data::brief_of;
use knit_base::{BlockText, NoMemory, Steps};
use std::sync::ledger::Ledger;

impl Book {
    /// Gives a block another text, and the stamp of the new version. The text was prepared under the names that the header got from
    /// entry `head`; where the header has changed since, the put is stale.
    #[tactic(auto, using(crate::proofs::Rooms::kept_all))]
    pub fn put<L: Ledger>(
        &mut self,
        session: u32,
        block: u32,
        seen: u32,
        head: u32,
        prepared: Prepared,
        steps: &mut Steps<L>,
    ) -> Reply
        requires session { session < 64 }
        requires prepared { IsPreparedUnder self.old.opening self.old.entries head prepared }
        ensures opening { self.new.opening ≡ self.old.opening }
        ensures turned { IsTurn self.old.opening self.old.entries session (request.Put block seen head prepared.text) result self.new.entries }
        ensures kept { KeepsBookRoom self.old self.new }
        ensures steps { steps.new ≤ steps.old + work_limit self.old.opening self.old.entries (request.Put block seen head prepared.text) }
        ensures ready { IsReadyToPut self.old block prepared.face → result ≢ Reply.NoMemory }
    {
        if let Some(refusal) = self.outline.refused_put(block, seen, head, &prepared) {
            return refusal;
        }
        self.put_fitting(session, block, seen, head, prepared, steps)
    }

    // A put that nothing refuses, apart from the others, since a call pays for all values that it may have.
    #[inline(never)]
    fn put_fitting<L: Ledger>(
        &mut self,
        session: u32,
        id: u32,
        seen: u32,
        head: u32,
        prepared: Prepared,
        steps: &mut Steps<L>,
    ) -> Reply
        requires prepared { IsPreparedUnder self.old.opening self.old.entries head prepared }
        requires free { refusal_of (document self.old) self.old.entries (request.Put id seen head prepared.text) ≡ None }
        ensures opening { self.new.opening ≡ self.old.opening }
        ensures turned { IsTurn self.old.opening self.old.entries session (request.Put id seen head prepared.text) result self.new.entries }
        ensures kept { KeepsBookRoom self.old self.new }
        ensures steps { steps.new ≤ steps.old + work_limit self.old.opening self.old.entries (request.Put id seen head prepared.text) }
        ensures ready { IsReadyToPut self.old id prepared.face → result ≢ Reply.NoMemory }
    {
        let version = self.version() + 1;
        let Prepared { text, face, loops } = prepared;
        let Some(at) = self.outline.place(id) else {
            unreachable!();
        };
        if self.tree.reserve_replace(at as u32, &face.view()).is_err() {
            return Reply::NoMemory;
        }
        if self.outline.enter_put(session, id, seen, text).is_err() {
            return Reply::NoMemory;
        }
        self.tree.replace(at as u32, &face.view(), loops, steps);
        let brief = brief_of(&self.tree.root(), self.outline.first());
        Reply::Accepted {
            version,
            block: id,
            brief,
        }
    }
}

impl Outline {
    /// The refusal of a put, if it is refused.
    pub(crate) fn refused_put(
        &self,
        block: u32,
        seen: u32,
        head: u32,
        prepared: &Prepared,
    ) -> Option<Reply>
        requires { IsPreparedUnder self.now.opening self.now.entries head prepared.now }
        ensures { result ≡ refusal_of (outline_document self.now) self.now.entries (request.Put block seen head prepared.now.text) }
    {
        if let Some(refusal) = self.refused_name(block) {
            return Some(refusal);
        }
        if let Some(refusal) = self.refused_stamp(block, seen) {
            return Some(refusal);
        }
        if let Some(refusal) = self.refused_head(head) {
            return Some(refusal);
        }
        if let Some(refusal) = self.refused_entries() {
            return Some(refusal);
        }
        self.refused_count(self.lines_after_put(block, seen, &prepared.text))
    }

    /// Enters a put that may come. Where memory runs out all is as before.
    pub(crate) fn enter_put(
        &mut self,
        session: u32,
        id: u32,
        seen: u32,
        text: BlockText,
    ) -> Result<(), NoMemory>
        requires short { length text ≤ 4096 }
        requires comes { MayCome self.old.opening self.old.entries (edit.Put id seen text) }
        ensures opening { self.new.opening ≡ self.old.opening }
        ensures ok { OnOk result (self.new.entries ≡ self.old.entries ++ (record { session = session; edit = edit.Put id seen text }) ∷ []) }
        ensures err { OnErr result (self.new.entries ≡ self.old.entries) }
        ensures room { OnErr result (self.old.journal_room ≡ true → self.new.journal_room ≡ true) }
        ensures lawful { IsLawfulOutline self.new.opening self.new.entries }
        ensures ready { self.old.journal_room ≡ true → IsOk result }
    {
        let lines = self.lines_after_put(id, seen, &text);
        let version = self.version() + 1;
        let _ids = self.ids();
        self.journal.reserve_one()?;
        self.journal.push(Entry {
            session,
            edit: Edit::Put {
                block: id,
                seen,
                text,
            },
        });
        self.states[id as usize] = BlockState::There(version);
        self.lines = lines;
        Ok(())
    }

    // The lines of the body after a put.
    fn lines_after_put(&self, id: u32, seen: u32, text: &BlockText) -> u32
        requires { length text.now ≤ 4096 }
        ensures { result ≡ length (body (after (outline_document self.now) (length self.now.entries + 1) (edit.Put id seen text.now))) }
    {
        self.lines_with(id, text.len())
    }

    /// The lines of the body after a put of a text with so many lines.
    #[tactic(auto, using(crate::proofs::Counts::put_counted))]
    pub(crate) fn lines_with(&self, id: u32, lines: u32) -> u32
        requires { lines ≤ 4096 }
        ensures { (seen : ℕ) → (text : List (List ℕ)) → length text ≡ lines → result ≡ length (body (after (outline_document self.now) (length self.now.entries + 1) (edit.Put id seen text))) }
    {
        match self.lines_of(id) {
            Some(had) => self.lines - had + lines,
            None => self.lines,
        }
    }

    /// How many lines a block has, if it is there.
    pub(crate) fn lines_of(&self, id: u32) -> Option<u32>
        ensures { result ≡ option_map (λ b. length b.lines) (block_of (outline_document self.now).blocks id) }
    {
        match self.text_of(id) {
            Some(text) => Some(text.len()),
            None => None,
        }
    }
}
