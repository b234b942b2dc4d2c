//! A book at the turns of sessions that share it.
ghost use Rattle.std.specs.Prelude.{◌≡◌, ◌+◌, ◌≤◌};

use crate::{Book, BookCommand, Reply};
use edit_journal::{Entry, Opening};
use knit_base::Steps;
use std::sync::ledger::Ledger;
use turn_book::Booked;

impl Booked for Book {
    ghost use Rattle.edit_book.specs.Turns.{IsRightReply, IsFitBookCommand};
    ghost use Rattle.edit_book.specs.Work.{command_limit};
    ghost use Rattle.edit_book.specs.Fitting.{fits_longer};

    type Command = BookCommand;

    type Reply = Reply;

    type Entry = Entry;

    type Opening = Opening;

    ghost opening = { λ book. book.opening };

    ghost journal = { λ book. book.entries };

    ghost number_of = { λ entry. entry.session };

    ghost right = { IsRightReply };

    ghost fits = { IsFitBookCommand };

    ghost bound = { command_limit };

    fn count(&self) -> u32 {
        self.version()
    }

    #[tactic(auto, using(crate::proofs::Appended::turns))]
    fn act<L: Ledger>(&mut self, number: u32, command: BookCommand, steps: &mut Steps<L>) -> Reply {
        // No block has the header's id.
        let _ = self.ids();
        match command {
            BookCommand::Look(block) => self.look(block, steps),
            BookCommand::Put {
                block,
                seen,
                head,
                prepared,
            } => self.put(number, block, seen, head, prepared, steps),
            BookCommand::Add {
                anchor,
                head,
                prepared,
            } => self.add(number, anchor, head, prepared, steps),
            BookCommand::Cut { block, seen } => self.cut(number, block, seen, steps),
            BookCommand::LoopAt(line) => self.loop_at(line, steps),
            BookCommand::Verdict => self.now(steps),
            BookCommand::LookHead => self.look_head(),
            BookCommand::Texts => self.texts(),
            BookCommand::PutHead {
                seen,
                declared,
                again,
            } => self.put_head(number, seen, declared, again, steps),
        }
    }

    ghost fits_longer = { fits_longer };
}
