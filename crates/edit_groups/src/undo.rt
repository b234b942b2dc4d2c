//! What undoes a session's last step.
ghost use Rattle.std.specs.Prelude.{◌≡◌, ◌<◌, ◌≤◌, ◌+◌, IfOk, IfSome};
ghost use Rattle.edit_book.specs.Memory.{text_limit};
ghost use Rattle.edit_book.specs.Work.{command_limit};
ghost use Rattle.edit_groups.specs.Answers as asked;
ghost use Rattle.edit_groups.specs.Chunks.{entries_of_chunks, undoable_of_session};
ghost use Rattle.edit_groups.specs.Groups.{IsStepTaken, IsUndoing, undo_limit};

use crate::book::GroupBook;
use crate::reply::GroupReply;
use block_summary::prepare;
use edit_book::BookCommand;
use edit_journal::Edit;
use knit_base::{NoMemory, Steps};
use std::sync::ledger::Ledger;

impl GroupBook {
    /// Undoes the session's last accepted step, where that was a single put or add of a block. The text that is put back is summarised
    /// here, under the names that the header now has.
    pub(crate) fn undo<L: Ledger>(&mut self, number: u32, steps: &mut Steps<L>) -> GroupReply
        requires number { number < 64 }
        ensures opening { self.new.opening ≡ self.old.opening }
        ensures taken { IsStepTaken self.old.opening self.old.chunks number asked.Undo result self.new.chunks }
        ensures steps { steps.new ≤ steps.old + (text_limit + undo_limit self.old.opening (entries_of_chunks self.old.chunks) 1 (entries_of_chunks self.old.chunks)) }
    {
        match self.undoing(number, steps) {
            Ok(Some(command)) => self.one(number, command, steps),
            Ok(None) => GroupReply::NoUndo,
            Err(NoMemory) => GroupReply::NoMemory,
        }
    }

    // What undoes the last step of the session with this number, if anything does.
    fn undoing<L: Ledger>(
        &self,
        number: u32,
        steps: &mut Steps<L>,
    ) -> Result<Option<BookCommand>, NoMemory>
        requires number { number < 64 }
        ensures undoes { IfOk result (IsUndoing self.now.opening (entries_of_chunks self.now.chunks) (undoable_of_session number self.now.chunks)) }
        ensures within { IfOk result (λ found. IfSome found (λ command. command_limit self.now.opening (entries_of_chunks self.now.chunks) command ≤ undo_limit self.now.opening (entries_of_chunks self.now.chunks) 1 (entries_of_chunks self.now.chunks))) }
        ensures steps { steps.new ≤ steps.old + text_limit }
    {
        let seen = self.undoable[number as usize];
        let Some(entry) = self.book.journal().get(seen) else {
            return Ok(None);
        };
        match &entry.edit {
            Edit::Put {
                block,
                seen: old,
                ..
            } => {
                let Some(text) = self.book.text_at(*block, *old) else {
                    return Ok(None);
                };
                let text = text.try_clone()?;
                match prepare(self.alloc, text, self.book.setting(), steps) {
                    Ok(prepared) => Ok(Some(BookCommand::Put {
                        block: *block,
                        seen,
                        head: self.book.header_stamp(),
                        prepared,
                    })),
                    // No text is too long.
                    Err(_) => Err(NoMemory),
                }
            }
            Edit::Add { block, .. } => Ok(Some(BookCommand::Cut {
                block: *block,
                seen,
            })),
            Edit::Cut { .. } => Ok(None),
            Edit::Head { .. } => Ok(None),
        }
    }
}
