//! An undo as a step of a session.
ghost use Rattle.std.specs.Prelude.{◌≡◌, ◌<◌, ◌≤◌};
ghost use Rattle.script_reader.specs.declared.step.Step.TheVariants as step;
ghost use Rattle.edit_book.specs.Memory.{Memory};
ghost use Rattle.edit_book.specs.Session.{HasNames, Remembers};
ghost use Rattle.edit_groups.specs.Chunks.{entries_of_chunks};
ghost use Rattle.edit_groups.specs.Shared.{group_book_opening};
ghost use Rattle.edit_groups.specs.Turns.{IsStepDone};
ghost use Rattle.turn_book.specs.Passes.{IsPassOf, view_of};

use crate::book::GroupBook;
use crate::reply::{GroupCommand, GroupReply};
use crate::session::GroupSession;
use crate::session::learn::learn_undo;
use knit_base::Steps;
use std::sync::Wait;
use std::sync::ledger::Ledger;
use turn_book::{Pass, Shared};

/// An undo. Where it put a text back, the session knows the block's stamp.
pub(crate) fn do_undo<L: Ledger, R: Wait>(
    rt: &R,
    shared: &Shared<GroupBook>,
    pass: &mut Pass<GroupBook>,
    session: &mut GroupSession,
    steps: &mut Steps<L>,
) -> GroupReply
    requires of_this { IsPassOf shared.now pass.old }
    requires number { ((view_of pass.old).first ≤ session.old.session.number) × (session.old.session.number < (view_of pass.old).past) }
    requires names { HasNames (group_book_opening shared.now) (entries_of_chunks (view_of pass.old).seen) session.old.session }
    ensures of_this { IsPassOf shared.now pass.new }
    ensures range { ((view_of pass.new).first ≡ (view_of pass.old).first) × ((view_of pass.new).past ≡ (view_of pass.old).past) }
    ensures number { session.new.session.number ≡ session.old.session.number }
    ensures done { (m : Memory) → Remembers session.old.session m → IsStepDone (group_book_opening shared.now) m step.Undo result (view_of pass.old) (view_of pass.new) session.old session.new }
{
    let GroupSession { session, last_put } = session;
    if !session.learned.make_room(1) {
        return GroupReply::NoMemory;
    }
    let told = shared.turn(rt, pass, session.number, GroupCommand::Undo, steps);
    learn_undo(&mut session.learned, *last_put, &told.reply);
    told.reply
}
