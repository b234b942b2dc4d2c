//! A group as a step of a session.
ghost use Rattle.std.specs.Prelude.{◌≡◌, ◌<◌, ◌≤◌, ℕ, true, List, length, map, Some, IfOk};
ghost use Rattle.std.specs.List.{list_all};
ghost use Rattle.knit_base.specs.Limits.{IsLawfulProfile};
ghost use Rattle.carriage_model.specs.declared.verdict.Brief.{Brief};
ghost use Rattle.script_reader.specs.Groups.{is_edit, is_lawful_step};
ghost use Rattle.script_reader.specs.declared.step.Step.TheVariants as step;
ghost use Rattle.edit_journal.specs.Documents.{names_given};
ghost use Rattle.edit_journal.specs.declared.edit.Entry.{Entry};
ghost use Rattle.edit_journal.specs.declared.opening.Opening.{Opening};
ghost use Rattle.edit_book.specs.Memory.{Memory, asked_of_book};
ghost use Rattle.edit_book.specs.Session.{HasLearned, HasNames, HasStampRoom, Remembers};
ghost use Rattle.edit_groups.specs.Chunks.{entries_of_chunks};
ghost use Rattle.edit_groups.specs.Groups.{AreFitEdits, IsFitEdit, edit_asked};
ghost use Rattle.edit_groups.specs.Shared.{group_book_opening};
ghost use Rattle.edit_groups.specs.Turns.{IsStepDone, IsGroupHeard, is_one_put};
ghost use Rattle.edit_groups.specs.declared.reply.GroupReply.TheVariants as reply;
ghost use Rattle.turn_book.specs.Passes.{IsPassOf, view_of};

use crate::book::GroupBook;
use crate::reply::{GroupCommand, GroupEdit, GroupEdits, GroupReply, Told};
use crate::session::GroupSession;
use crate::session::learn::{learn_done, learn_missed};
use block_summary::Draft;
use edit_book::Reply;
use edit_book::sessions::{Learned, Session, ask};
use knit_base::{ListOf, NoMemory, Setting, Steps};
use script_reader::Command;
use std::alloc::Global;
use std::sync::Wait;
use std::sync::ledger::Ledger;
use turn_book::{Pass, Shared};

/// A group.
pub(crate) fn do_group<L: Ledger, R: Wait>(
    rt: &R,
    alloc: Global,
    shared: &Shared<GroupBook>,
    pass: &mut Pass<GroupBook>,
    session: &mut GroupSession,
    commands: &[Command],
    steps: &mut Steps<L>,
) -> GroupReply
    requires of_this { IsPassOf shared.now pass.old }
    requires number { ((view_of pass.old).first ≤ session.old.session.number) × (session.old.session.number < (view_of pass.old).past) }
    requires setting { (group_book_opening shared.now).setting.profile ≡ session.old.session.header.profile }
    requires profile { IsLawfulProfile session.old.session.header.profile }
    requires step { is_lawful_step (step.Group commands.now) ≡ true }
    requires names { HasNames (group_book_opening shared.now) (entries_of_chunks (view_of pass.old).seen) session.old.session }
    ensures of_this { IsPassOf shared.now pass.new }
    ensures range { ((view_of pass.new).first ≡ (view_of pass.old).first) × ((view_of pass.new).past ≡ (view_of pass.old).past) }
    ensures number { session.new.session.number ≡ session.old.session.number }
    ensures done { (m : Memory) → Remembers session.old.session m → IsStepDone (group_book_opening shared.now) m (step.Group commands.now) result (view_of pass.old) (view_of pass.new) session.old session.new }
{
    let GroupSession { session, last_put } = session;
    let Session {
        number,
        learned,
        header,
        draft,
    } = session;
    let told = take_group(
        rt, alloc, shared, pass, header, *number, learned, draft, commands, steps,
    );
    match told.reply {
        GroupReply::Done {
            version,
            from,
            brief,
        } => {
            learn_done(learned, commands, from, told.ids, brief);
            *last_put = is_one_put(commands);
            GroupReply::Done {
                version,
                from,
                brief,
            }
        }
        reply => {
            learn_missed(learned, commands);
            reply
        }
    }
}

fn is_one_put(commands: &[Command]) -> bool
    ensures { result ≡ is_one_put commands.now }
{
    matches!(commands, [Command::Put(_, _)])
}

// A group at a turn: each edit is asked with what the session remembers before it. Where there is no room, or no memory for the texts,
// no turn is taken.
fn take_group<L: Ledger, R: Wait>(
    rt: &R,
    alloc: Global,
    shared: &Shared<GroupBook>,
    pass: &mut Pass<GroupBook>,
    header: &Setting,
    number: u32,
    learned: &mut Learned,
    draft: &mut Draft,
    commands: &[Command],
    steps: &mut Steps<L>,
) -> Told
    requires of_this { IsPassOf shared.now pass.old }
    requires number { ((view_of pass.old).first ≤ number) × (number < (view_of pass.old).past) }
    requires setting { (group_book_opening shared.now).setting.profile ≡ header.now.profile }
    requires profile { IsLawfulProfile header.now.profile }
    requires step { is_lawful_step (step.Group commands.now) ≡ true }
    requires names { names_given (group_book_opening shared.now) (entries_of_chunks (view_of pass.old).seen) learned.old.head ≡ Some header.now.declared }
    ensures of_this { IsPassOf shared.now pass.new }
    ensures range { ((view_of pass.new).first ≡ (view_of pass.old).first) × ((view_of pass.new).past ≡ (view_of pass.old).past) }
    ensures head { learned.new.head ≡ learned.old.head }
    ensures kept { (m : Memory) → HasLearned learned.old m → HasLearned learned.new m }
    ensures room { (version from : ℕ) (brief : Brief) → result.reply ≡ reply.Done version from brief → HasStampRoom (length commands.now) learned.new }
    ensures heard { (m : Memory) → HasLearned learned.old m → IsGroupHeard (group_book_opening shared.now) number m commands.now result (view_of pass.old) (view_of pass.new) }
{
    if !learned.make_room(commands.len() as u32) {
        return no_memory();
    }
    match asked_edits(alloc, header, learned, draft, commands, steps) {
        Ok(edits) => shared.turn(rt, pass, number, GroupCommand::Group(edits), steps),
        Err(NoMemory) => no_memory(),
    }
}

// Want of memory, without a turn.
fn no_memory() -> Told
    ensures { result.reply ≡ reply.NoMemory }
{
    Told {
        reply: GroupReply::NoMemory,
        step: 0,
        ids: 0,
    }
}

// What each edit of a group asks, or the session's own refusal of it.
fn asked_edits<L: Ledger>(
    alloc: Global,
    header: &Setting,
    learned: &Learned,
    draft: &mut Draft,
    commands: &[Command],
    steps: &mut Steps<L>,
) -> Result<GroupEdits, NoMemory>
    requires profile { IsLawfulProfile header.now.profile }
    requires edits { list_all is_edit commands.now ≡ true }
    requires few { length commands.now ≤ 64 }
    ensures count { IfOk result (λ edits. length edits ≡ length commands.now) }
    ensures fit { IfOk result (λ edits. (opening : Opening) (journal : List Entry) → opening.setting.profile ≡ header.now.profile → names_given opening journal learned.now.head ≡ Some header.now.declared → AreFitEdits opening journal edits) }
    ensures asked { IfOk result (λ edits. (m : Memory) → HasLearned learned.now m → map edit_asked edits ≡ map (asked_of_book m) commands.now) }
{
    let mut edits = ListOf::new(alloc);
    for command in commands {
        edits.push(asked_edit(alloc, header, learned, draft, command, steps)?)?;
    }
    Ok(edits)
}

fn asked_edit<L: Ledger>(
    alloc: Global,
    header: &Setting,
    learned: &Learned,
    draft: &mut Draft,
    command: &Command,
    steps: &mut Steps<L>,
) -> Result<GroupEdit, NoMemory>
    requires profile { IsLawfulProfile header.now.profile }
    requires edit { is_edit command.now ≡ true }
    ensures fits { IfOk result (λ edit. (opening : Opening) (journal : List Entry) → opening.setting.profile ≡ header.now.profile → names_given opening journal learned.now.head ≡ Some header.now.declared → IsFitEdit opening journal edit) }
    ensures asked { IfOk result (λ edit. (m : Memory) → HasLearned learned.now m → edit_asked edit ≡ asked_of_book m command.now) }
{
    match ask(alloc, header, learned, draft, command, steps) {
        Ok(asked) => Ok(GroupEdit::Ready(asked)),
        Err(Reply::NoMemory) => Err(NoMemory),
        Err(reply) => Ok(GroupEdit::Refused(reply)),
    }
}
