//! A block is taken out.
ghost use Rattle.std.specs.Prelude.{◌≡◌, ◌+◌, ◌<◌, ◌≤◌, ◌++◌, ◌∷◌, [], true, None, OnErr, OnOk, length};
ghost use Rattle.edit_journal.specs.Documents.{after, body};
ghost use Rattle.edit_journal.specs.declared.edit.Edit.TheVariants as edit;
ghost use Rattle.edit_book.specs.Books.{IsLawfulOutline, KeepsBookRoom, document};
ghost use Rattle.edit_book.specs.Outlines.{MayCome, outline_document};
ghost use Rattle.edit_book.specs.Replies as request;
ghost use Rattle.edit_book.specs.Replies.{refusal_of, IsTurn};
ghost use Rattle.edit_book.specs.Work.{work_limit};

use crate::block_state::BlockState;
use crate::{Book, Outline, Reply};
use edit_journal::{Edit, Entry};
use face_data::brief_of;
use knit_base::{NoMemory, Steps};
use std::sync::ledger::Ledger;

impl Book {
    /// Takes a block out.
    #[tactic(auto, using(crate::proofs::Rooms::kept_all))]
    pub fn cut<L: Ledger>(
        &mut self,
        session: u32,
        block: u32,
        seen: u32,
        steps: &mut Steps<L>,
    ) -> Reply
        requires { session < 64 }
        ensures opening { self.new.opening ≡ self.old.opening }
        ensures turned { IsTurn self.old.opening self.old.entries session (request.Cut block seen) result self.new.entries }
        ensures kept { KeepsBookRoom self.old self.new }
        ensures steps { steps.new ≤ steps.old + work_limit self.old.opening self.old.entries (request.Cut block seen) }
    {
        if let Some(refusal) = self.outline.refused_cut(block, seen) {
            return refusal;
        }
        self.cut_fitting(session, block, seen, steps)
    }

    // A cut that nothing refuses, apart from the others, since a call pays for all values that it may have.
    #[inline(never)]
    fn cut_fitting<L: Ledger>(
        &mut self,
        session: u32,
        id: u32,
        seen: u32,
        steps: &mut Steps<L>,
    ) -> Reply
        requires { refusal_of (document self.old) self.old.entries (request.Cut id seen) ≡ None }
        ensures opening { self.new.opening ≡ self.old.opening }
        ensures turned { IsTurn self.old.opening self.old.entries session (request.Cut id seen) result self.new.entries }
        ensures kept { KeepsBookRoom self.old self.new }
        ensures steps { steps.new ≤ steps.old + work_limit self.old.opening self.old.entries (request.Cut id seen) }
    {
        let version = self.version() + 1;
        let Some(at) = self.outline.place(id) else {
            unreachable!();
        };
        let need = self.tree.need_remove(at as u32);
        if self.tree.reserve(&need).is_err() {
            return Reply::NoMemory;
        }
        if self.outline.enter_cut(session, id, seen).is_err() {
            return Reply::NoMemory;
        }
        self.tree.remove(at as u32, steps);
        let brief = brief_of(&self.tree.root(), self.outline.first());
        Reply::Accepted {
            version,
            block: id,
            brief,
        }
    }
}

impl Outline {
    /// The refusal of a cut, if it is refused.
    pub(crate) fn refused_cut(&self, block: u32, seen: u32) -> Option<Reply>
        ensures { result ≡ refusal_of (outline_document self.now) self.now.entries (request.Cut block seen) }
    {
        if let Some(refusal) = self.refused_name(block) {
            return Some(refusal);
        }
        if let Some(refusal) = self.refused_stamp(block, seen) {
            return Some(refusal);
        }
        self.refused_entries()
    }

    /// Enters a cut that may come. Where memory runs out all is as before.
    pub(crate) fn enter_cut(&mut self, session: u32, id: u32, seen: u32) -> Result<(), NoMemory>
        requires { MayCome self.old.opening self.old.entries (edit.Cut id seen) }
        ensures opening { self.new.opening ≡ self.old.opening }
        ensures ok { OnOk result (self.new.entries ≡ self.old.entries ++ (record { session = session; edit = edit.Cut id seen }) ∷ []) }
        ensures err { OnErr result (self.new.entries ≡ self.old.entries) }
        ensures room { OnErr result (self.old.journal_room ≡ true → self.new.journal_room ≡ true) }
        ensures lawful { IsLawfulOutline self.new.opening self.new.entries }
    {
        let lines = self.lines_after_cut(id, seen);
        let version = self.version() + 1;
        let _ids = self.ids();
        let Some(at) = self.order.position(id) else {
            unreachable!();
        };
        self.journal.reserve_one()?;
        self.journal.push(Entry {
            session,
            edit: Edit::Cut { block: id, seen },
        });
        self.states[id as usize] = BlockState::CutBy(version);
        self.order.remove(at);
        self.lines = lines;
        Ok(())
    }

    // The lines of the body after a cut.
    #[tactic(auto, using(crate::proofs::Counts::cut_counted))]
    fn lines_after_cut(&self, id: u32, seen: u32) -> u32
        ensures fewer { result ≤ length (body (outline_document self.now)) }
        ensures lines { result ≡ length (body (after (outline_document self.now) (length self.now.entries + 1) (edit.Cut id seen))) }
    {
        match self.lines_of(id) {
            Some(had) => self.lines - had,
            None => self.lines,
        }
    }
}
