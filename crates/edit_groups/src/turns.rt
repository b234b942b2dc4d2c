//! A book of groups at the turns of sessions that share it.
ghost use Rattle.std.specs.Prelude.{◌≡◌, ◌+◌, ◌<◌, ◌≤◌};
ghost use Rattle.edit_groups.specs.Groups.{IsFitGroupCommand, IsStepTaken, asked_of_group_command, limit};

use crate::book::GroupBook;
use crate::chunk::Chunk;
use crate::reply::{GroupCommand, GroupReply, Told};
use edit_journal::Opening;
use knit_base::Steps;
use std::sync::ledger::Ledger;
use turn_book::Booked;

impl GroupBook {
    // What a command is answered, whatever it asks.
    fn carry_out<L: Ledger>(
        &mut self,
        number: u32,
        command: GroupCommand,
        steps: &mut Steps<L>,
    ) -> GroupReply
        requires number { number < 64 }
        requires fits { IsFitGroupCommand self.old.opening self.old.chunks command }
        ensures opening { self.new.opening ≡ self.old.opening }
        ensures taken { IsStepTaken self.old.opening self.old.chunks number (asked_of_group_command command) result self.new.chunks }
        ensures steps { steps.new ≤ steps.old + limit self.old.opening self.old.chunks command }
    {
        match command {
            GroupCommand::One(command) => self.one(number, command, steps),
            GroupCommand::Group(edits) => self.group(number, edits, steps),
            GroupCommand::Undo => self.undo(number, steps),
        }
    }
}

impl Booked for GroupBook {
    ghost use Rattle.edit_groups.specs.Groups.{IsRightGroupReply, IsFitGroupCommand, limit};
    ghost use Rattle.edit_groups.specs.Fitting.{fits_longer};

    type Command = GroupCommand;

    type Reply = Told;

    type Entry = Chunk;

    type Opening = Opening;

    ghost opening = { λ book. book.opening };

    ghost journal = { λ book. book.chunks };

    ghost number_of = { λ chunk. chunk.session };

    ghost right = { IsRightGroupReply };

    ghost fits = { IsFitGroupCommand };

    ghost bound = { limit };

    fn count(&self) -> u32 {
        // The version, which is a u32, bounds the number of steps.
        let _version = self.book.version();
        self.chunks.len() as u32
    }

    fn act<L: Ledger>(&mut self, number: u32, command: GroupCommand, steps: &mut Steps<L>) -> Told {
        let step = self.count();
        let ids = self.book.ids();
        let reply = self.carry_out(number, command, steps);
        Told { reply, step, ids }
    }

    ghost fits_longer = { fits_longer };
}
