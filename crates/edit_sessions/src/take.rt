//! One command of a session, carried out on the shared book.
ghost use Rattle.std.specs.Prelude.{◌≡◌, ◌<◌, ◌≤◌, IfErr, Some};
ghost use Rattle.knit_base.specs.Limits.{IsLawfulProfile};
ghost use Rattle.edit_journal.specs.Documents.{names_given};
ghost use Rattle.edit_book.specs.Memory.{Memory, asked_of_book, head_told, memory_after, stamp_told_by};
ghost use Rattle.edit_book.specs.Session.{HasLearned, HasNames, Remembers};
ghost use Rattle.edit_book.specs.Turns.{IsRightReply};
ghost use Rattle.edit_sessions.specs.Core.{document_core};
ghost use Rattle.edit_sessions.specs.Shared.{shared_opening};
ghost use Rattle.turn_book.specs.Passes.{IsPassOf, view_of};
ghost use Rattle.turn_book.specs.Taken.{IsCommandTaken};

use crate::head::{look_head, put_head};
use block_summary::Draft;
use edit_book::sessions::{Learned, Session, ask};
use edit_book::{Book, Reply};
use knit_base::{Setting, Steps};
use script_reader::Command;
use std::alloc::Global;
use std::marker::Brand;
use std::sync::Wait;
use std::sync::ledger::{Blank, Ledger};
use std::thread::Threads;
use turn_book::{Pass, Shared};

/// Carries out one command of a session on a shared book, at one turn, and remembers what the reply tells. Other names of the header
/// take two turns: at the first the texts of all blocks are asked for, and then they are summarised under these names.
///
/// Where what the command asks is answered without the book, by `Unseen` or `BlockLong`, no turn is taken. The text of a put or an add is
/// prepared before the turn is taken, and room for what the reply can tell is made before that: where there is none, the reply is want
/// of memory, and no turn is taken. It may wait for as long as other threads hold the turn.
pub fn do_command<R: Threads + Wait + Sync>(
    rt: &R,
    alloc: Global,
    shared: &Shared<Book>,
    pass: &mut Pass<Book>,
    setting: &Setting,
    session: &mut Session,
    command: &Command,
) -> Reply
    requires of_this { IsPassOf shared.now pass.old }
    requires number { ((view_of pass.old).first ≤ session.old.number) × (session.old.number < (view_of pass.old).past) }
    requires setting { (shared_opening shared.now).setting ≡ setting.now }
    requires profile { IsLawfulProfile setting.now.profile }
    requires names { HasNames (shared_opening shared.now) (view_of pass.old).seen session.old }
    ensures of_this { IsPassOf shared.now pass.new }
    ensures number { session.new.number ≡ session.old.number }
    ensures names { HasNames (shared_opening shared.now) (view_of pass.new).seen session.new }
    ensures taken { (m : Memory) → Remembers session.old m → IsCommandTaken (document_core (shared_opening shared.now)) session.old.number m command.now result (view_of pass.old) (view_of pass.new) }
    ensures untaken { (m : Memory) → Remembers session.old m → IfErr (asked_of_book m command.now) (λ reply. view_of pass.new ≡ view_of pass.old) }
    ensures learned { (m : Memory) → Remembers session.old m → Remembers session.new (memory_after m command.now result) }
{
    let Session {
        number,
        learned,
        header,
        draft,
    } = session;
    header.profile = setting.profile;
    let reply = if learned.make_room(1) {
        take::<Brand, R>(
            rt,
            alloc,
            Blank::new(1),
            shared,
            pass,
            header,
            *number,
            learned,
            draft,
            command,
        )
    } else {
        Reply::NoMemory
    };
    learned.learn(command, &reply);
    reply
}

// The steps are counted by nobody.
#[tactic(auto, using(crate::proofs::Takes::takes))]
fn take<L: Ledger, R: Threads + Wait + Sync>(
    rt: &R,
    alloc: Global,
    blank: Blank,
    shared: &Shared<Book>,
    pass: &mut Pass<Book>,
    header: &mut Setting,
    number: u32,
    learned: &Learned,
    draft: &mut Draft,
    command: &Command,
) -> Reply
    requires blank { (blank.name ≡ L.name) × (blank.parts ≡ L.parts) × (0 < L.parts) }
    requires of_this { IsPassOf shared.now pass.old }
    requires number { ((view_of pass.old).first ≤ number) × (number < (view_of pass.old).past) }
    requires setting { (shared_opening shared.now).setting.profile ≡ header.old.profile }
    requires profile { IsLawfulProfile header.old.profile }
    requires names { names_given (shared_opening shared.now) (view_of pass.old).seen learned.now.head ≡ Some header.old.declared }
    ensures of_this { IsPassOf shared.now pass.new }
    ensures profile { header.new.profile ≡ header.old.profile }
    ensures names { names_given (shared_opening shared.now) (view_of pass.new).seen (head_told (stamp_told_by command.now result) learned.now.head) ≡ Some header.new.declared }
    ensures taken { (m : Memory) → HasLearned learned.now m → IsCommandTaken (document_core (shared_opening shared.now)) number m command.now result (view_of pass.old) (view_of pass.new) }
    ensures untaken { (m : Memory) → HasLearned learned.now m → IfErr (asked_of_book m command.now) (λ reply. view_of pass.new ≡ view_of pass.old) }
{
    let mut steps = Steps::<L>::start(rt, blank);
    match command {
        Command::LookHead => look_head(rt, alloc, shared, pass, header, number, &mut steps),
        Command::PutHead(declared) => put_head(
            rt,
            alloc,
            shared,
            pass,
            header,
            number,
            learned.head,
            declared,
            &mut steps,
        ),
        _ => match ask(alloc, header, learned, draft, command, &mut steps) {
            Ok(asked) => shared.turn(rt, pass, number, asked, &mut steps),
            Err(reply) => reply,
        },
    }
}
