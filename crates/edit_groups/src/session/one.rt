//! One command as a step of a session.
ghost use Rattle.std.specs.Prelude.{◌≡◌, ◌<◌, ◌≤◌, Some};
ghost use Rattle.knit_base.specs.Limits.{IsLawfulProfile};
ghost use Rattle.script_reader.specs.declared.step.Step.TheVariants as step;
ghost use Rattle.edit_journal.specs.Documents.{names_given};
ghost use Rattle.edit_book.specs.Memory.{Memory, head_told, stamp_told_by};
ghost use Rattle.edit_book.specs.Session.{HasLearned, HasNames, HasStampRoom, Remembers, Teaches};
ghost use Rattle.edit_book.specs.Turns.{IsFitBookCommand};
ghost use Rattle.edit_groups.specs.Chunks.{entries_of_chunks};
ghost use Rattle.edit_groups.specs.Shared.{group_book_opening};
ghost use Rattle.edit_groups.specs.Turns.{IsStepDone, IsOneHeard, IsOneTurn, one_reply, put_after};
ghost use Rattle.edit_groups.specs.declared.reply.GroupReply.TheVariants as group;
ghost use Rattle.edit_book.specs.declared.reply.Reply.{Reply};
ghost use Rattle.edit_book.specs.declared.reply.Reply.TheVariants as book_reply;
ghost use Rattle.turn_book.specs.Passes.{IsPassOf, view_of};

use crate::book::GroupBook;
use crate::reply::{GroupCommand, GroupReply};
use crate::session::GroupSession;
use crate::session::header::{look_head, put_head};
use block_summary::Draft;
use edit_book::sessions::{Learned, Session, ask};
use edit_book::{BookCommand, Reply};
use knit_base::{Setting, Steps};
use script_reader::Command;
use std::alloc::Global;
use std::sync::Wait;
use std::sync::ledger::Ledger;
use std::thread::Threads;
use turn_book::{Pass, Shared};

/// One command.
pub(crate) fn do_one<L: Ledger, R: Threads + Wait + Sync>(
    rt: &R,
    alloc: Global,
    shared: &Shared<GroupBook>,
    pass: &mut Pass<GroupBook>,
    session: &mut GroupSession,
    command: &Command,
    steps: &mut Steps<L>,
) -> GroupReply
    requires of_this { IsPassOf shared.now pass.old }
    requires number { ((view_of pass.old).first ≤ session.old.session.number) × (session.old.session.number < (view_of pass.old).past) }
    requires setting { (group_book_opening shared.now).setting.profile ≡ session.old.session.header.profile }
    requires profile { IsLawfulProfile session.old.session.header.profile }
    requires names { HasNames (group_book_opening shared.now) (entries_of_chunks (view_of pass.old).seen) session.old.session }
    ensures of_this { IsPassOf shared.now pass.new }
    ensures range { ((view_of pass.new).first ≡ (view_of pass.old).first) × ((view_of pass.new).past ≡ (view_of pass.old).past) }
    ensures number { session.new.session.number ≡ session.old.session.number }
    ensures done { (m : Memory) → Remembers session.old.session m → IsStepDone (group_book_opening shared.now) m (step.One command.now) result (view_of pass.old) (view_of pass.new) session.old session.new }
{
    let GroupSession { session, last_put } = session;
    let Session {
        number,
        learned,
        header,
        draft,
    } = session;
    let reply = take_one(
        rt, alloc, shared, pass, header, *number, learned, draft, command, steps,
    );
    learned.learn(command, &reply);
    *last_put = last_put_after(*last_put, command, &reply);
    as_step(reply)
}

// Whether the session's last accepted step is a put, after this reply to a command.
fn last_put_after(last_put: bool, command: &Command, reply: &Reply) -> bool
    ensures { result ≡ put_after command.now reply.now last_put }
{
    match reply {
        Reply::Accepted { .. } => matches!(command, Command::Put(_, _)),
        _ => last_put,
    }
}

// What a step of one command is answered.
fn as_step(reply: Reply) -> GroupReply
    ensures { result ≡ one_reply reply }
{
    match reply {
        Reply::NoMemory => GroupReply::NoMemory,
        reply => GroupReply::One(reply),
    }
}

// One command of a session, at one turn; one that gives the header other names takes two. Without a turn the reply is the session's own
// refusal, or want of memory, as where there is no room for what the reply can tell.
fn take_one<L: Ledger, R: Threads + Wait + Sync>(
    rt: &R,
    alloc: Global,
    shared: &Shared<GroupBook>,
    pass: &mut Pass<GroupBook>,
    header: &mut Setting,
    number: u32,
    learned: &mut Learned,
    draft: &mut Draft,
    command: &Command,
    steps: &mut Steps<L>,
) -> Reply
    requires of_this { IsPassOf shared.now pass.old }
    requires number { ((view_of pass.old).first ≤ number) × (number < (view_of pass.old).past) }
    requires setting { (group_book_opening shared.now).setting.profile ≡ header.old.profile }
    requires profile { IsLawfulProfile header.old.profile }
    requires names { names_given (group_book_opening shared.now) (entries_of_chunks (view_of pass.old).seen) learned.old.head ≡ Some header.old.declared }
    ensures of_this { IsPassOf shared.now pass.new }
    ensures range { ((view_of pass.new).first ≡ (view_of pass.old).first) × ((view_of pass.new).past ≡ (view_of pass.old).past) }
    ensures profile { header.new.profile ≡ header.old.profile }
    ensures head { learned.new.head ≡ learned.old.head }
    ensures kept { (m : Memory) → HasLearned learned.old m → HasLearned learned.new m }
    ensures room { Teaches result → HasStampRoom 1 learned.new }
    ensures names { names_given (group_book_opening shared.now) (entries_of_chunks (view_of pass.new).seen) (head_told (stamp_told_by command.now result) learned.old.head) ≡ Some header.new.declared }
    ensures heard { (m : Memory) → HasLearned learned.old m → IsOneHeard (group_book_opening shared.now) number m command.now result (view_of pass.old) (view_of pass.new) }
{
    if !learned.make_room(1) {
        return Reply::NoMemory;
    }
    match command {
        Command::LookHead => look_head(rt, alloc, shared, pass, header, number, steps),
        Command::PutHead(declared) => put_head(
            rt,
            alloc,
            shared,
            pass,
            header,
            number,
            learned.head,
            declared,
            steps,
        ),
        _ => match ask(alloc, header, learned, draft, command, steps) {
            Ok(asked) => turn_one(rt, shared, pass, number, asked, steps),
            Err(reply) => reply,
        },
    }
}

/// One command at a turn of the book of groups.
pub(crate) fn turn_one<L: Ledger, R: Wait>(
    rt: &R,
    shared: &Shared<GroupBook>,
    pass: &mut Pass<GroupBook>,
    number: u32,
    command: BookCommand,
    steps: &mut Steps<L>,
) -> Reply
    requires of_this { IsPassOf shared.now pass.old }
    requires number { ((view_of pass.old).first ≤ number) × (number < (view_of pass.old).past) }
    requires fits { IsFitBookCommand (group_book_opening shared.now) (entries_of_chunks (view_of pass.old).seen) command }
    ensures of_this { IsPassOf shared.now pass.new }
    ensures turned { IsOneTurn (group_book_opening shared.now) number command result (view_of pass.old) (view_of pass.new) }
{
    let told = shared.turn(rt, pass, number, GroupCommand::One(command), steps);
    one_in(told.reply)
}

// The reply to one command.
fn one_in(reply: GroupReply) -> Reply
    ensures one { (r : Reply) → reply ≡ group.One r → result ≡ r }
    ensures other { ((r : Reply) → reply ≡ group.One r → ⊥) → result ≡ book_reply.NoMemory }
{
    match reply {
        GroupReply::One(reply) => reply,
        _ => Reply::NoMemory,
    }
}
