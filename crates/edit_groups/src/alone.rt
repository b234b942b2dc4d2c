//! Steps of a session that has the book for itself: one pass has all numbers, and no other thread acts.
ghost use Rattle.std.specs.Prelude.{◌≡◌, ℕ, ◌<◌, ◌≤◌, List, true, length};
ghost use Rattle.knit_base.specs.Limits.{IsLawfulProfile};
ghost use Rattle.edit_journal.specs.declared.opening.Opening.{Opening};
ghost use Rattle.script_reader.specs.Groups.{commands_of_step, is_lawful_step};
ghost use Rattle.script_reader.specs.Orders.{edit_with};
ghost use Rattle.script_reader.specs.Script.{adds_in};
ghost use Rattle.script_reader.specs.declared.step.Step as steps;
ghost use Rattle.script_reader.specs.declared.step.Step.TheVariants as step;
ghost use Rattle.edit_book.specs.Memory.{Memory, text_limit};
ghost use Rattle.edit_book.specs.Session.{HasNames};
ghost use Rattle.edit_groups.specs.Alone.{IsAnsweredAt, IsSessionAt};
ghost use Rattle.edit_groups.specs.Chunks.{entries_of_chunks};
ghost use Rattle.edit_groups.specs.Shared.{group_book_opening};
ghost use Rattle.edit_groups.specs.declared.chunk.Chunk as chunks;
ghost use Rattle.edit_groups.specs.declared.reply.GroupReply.TheVariants as reply;
ghost use Rattle.turn_book.specs.Passes.{IsPassOf, view_of};

use crate::book::GroupBook;
use crate::reply::GroupReply;
use crate::session::{GroupSession, do_step};
use edit_book::sessions::{add_too_long, put_too_long};
use knit_base::Setting;
use script_reader::{Step, TextEdit};
use std::alloc::Global;
use std::sync::Wait;
use std::thread::Threads;
use turn_book::{Pass, Shared};

/// Carries out one step of a session by a pass that has all numbers: it is answered at the steps that the pass had seen, and behind them
/// comes this one alone, if it leaves edits.
pub fn do_alone<R: Threads + Wait + Sync>(
    rt: &R,
    alloc: Global,
    shared: &Shared<GroupBook>,
    pass: &mut Pass<GroupBook>,
    setting: &Setting,
    session: &mut GroupSession,
    step: &Step,
) -> GroupReply
    requires of_this { IsPassOf shared.now pass.old }
    requires whole { ((view_of pass.old).first ≡ 0) × ((view_of pass.old).past ≡ (view_of pass.old).count) }
    requires number { session.old.session.number < (view_of pass.old).past }
    requires setting { (group_book_opening shared.now).setting ≡ setting.now }
    requires profile { IsLawfulProfile setting.now.profile }
    requires step { is_lawful_step step.now ≡ true }
    requires names { HasNames (group_book_opening shared.now) (entries_of_chunks (view_of pass.old).seen) session.old.session }
    ensures of_this { IsPassOf shared.now pass.new }
    ensures whole { ((view_of pass.new).first ≡ 0) × ((view_of pass.new).past ≡ (view_of pass.new).count) }
    ensures number { session.new.session.number ≡ session.old.session.number }
    ensures answered { (m : Memory) → IsSessionAt (group_book_opening shared.now) (view_of pass.old).seen m session.old
        → IsAnsweredAt (group_book_opening shared.now) session.old.session.number m step.now result (view_of pass.old).seen (view_of pass.new).seen session.new }
{
    let reply = do_step(rt, alloc, shared, pass, setting, session, step);
    // What the pass has then seen has entries of its numbers alone.
    shared.newest(pass);
    reply
}

/// An edit that stands alone, with a text of so many lines, more than a block may have, which was counted and not kept: the reply is the
/// session's own, and no turn is taken.
pub fn refuse_long(session: &mut GroupSession, edit: &TextEdit, lines: u32) -> GroupReply
    requires long { text_limit < lines }
    ensures number { session.new.session.number ≡ session.old.session.number }
    ensures answered { (opening : Opening) (known : List chunks.Chunk) (m : Memory) (text : List (List ℕ)) → IsSessionAt opening known m session.old → length text ≡ lines
        → IsAnsweredAt opening session.old.session.number m (step.One (edit_with edit.now text)) result known known session.new }
{
    let learned = &mut session.session.learned;
    match edit {
        TextEdit::Put(name) => GroupReply::One(put_too_long(learned, *name, lines)),
        TextEdit::Add(place) => {
            let reply = add_too_long(learned, *place, lines);
            learned.learn_missed(1);
            GroupReply::One(reply)
        }
    }
}

/// A step with so many adds, of which there was no memory for the texts: none of these adds makes a block.
pub fn lose_step(session: &mut GroupSession, adds: u32) -> GroupReply
    ensures reply { result ≡ reply.NoMemory }
    ensures number { session.new.session.number ≡ session.old.session.number }
    ensures answered { (opening : Opening) (known : List chunks.Chunk) (m : Memory) (c : steps.Step) → IsSessionAt opening known m session.old → adds ≡ adds_in (commands_of_step c)
        → IsAnsweredAt opening session.old.session.number m c result known known session.new }
{
    session.session.learned.learn_missed(adds);
    GroupReply::NoMemory
}
