//! A session of steps, and one step of it on the shared book.
ghost use Rattle.std.specs.Prelude.{◌≡◌, ◌<◌, ◌≤◌, List, None, true, IfOk, length};
ghost use Rattle.knit_base.specs.Limits.{IsLawfulProfile};
ghost use Rattle.script_reader.specs.Groups.{is_lawful_step};
ghost use Rattle.edit_journal.specs.declared.opening.Opening.{Opening};
ghost use Rattle.edit_book.specs.Memory.{Memory, first_memory};
ghost use Rattle.edit_book.specs.Session.{HasNames, Remembers};
ghost use Rattle.edit_groups.specs.Alone.{IsSessionAt};
ghost use Rattle.edit_groups.specs.Chunks.{entries_of_chunks, undoable_of_session};
ghost use Rattle.edit_groups.specs.Shared.{group_book_opening};
ghost use Rattle.edit_groups.specs.Turns.{IsStepDone};
ghost use Rattle.edit_groups.specs.declared.chunk.Chunk.{Chunk};
ghost use Rattle.turn_book.specs.Passes.{IsPassOf, view_of};

mod group;
mod header;
mod learn;
mod one;
mod undo;

use crate::book::GroupBook;
use crate::reply::GroupReply;
use crate::session::group::do_group;
use crate::session::one::do_one;
use crate::session::undo::do_undo;
use edit_book::sessions::Session;
use knit_base::{Declared, NoMemory, Setting, Steps};
use script_reader::Step;
use std::alloc::Global;
use std::marker::Brand;
use std::sync::Wait;
use std::sync::ledger::{Blank, Ledger};
use std::thread::Threads;
use turn_book::{Pass, Shared};

/// A session, and whether its last accepted step put a text into a block: then an undo of it puts the older text back.
#[derive(Drop)]
pub struct GroupSession {
    pub session: Session,
    pub last_put: bool,
}

impl GroupSession {
    /// The session with this number, which knows stamp 0 of each opening block, and stamp 0 of the header, with these names, whatever was
    /// done before it begins; but it undoes none of that.
    pub fn start(
        alloc: Global,
        number: u32,
        blocks: u32,
        declared: &Declared,
    ) -> Result<GroupSession, NoMemory>
        ensures number { IfOk result (λ s. s.session.number ≡ number) }
        ensures stands { IfOk result (λ s. (opening : Opening) (earlier : List Chunk) → length opening.texts ≡ blocks → opening.setting.declared ≡ declared.now → undoable_of_session number earlier ≡ None
            → IsSessionAt opening earlier (first_memory opening) s) }
    {
        let session = Session::start(alloc, number, blocks, declared)?;
        Ok(GroupSession {
            session,
            last_put: false,
        })
    }
}

/// Carries out one step of a session on a shared book, and remembers what the reply tells.
///
/// The texts of a step are prepared before the turn is taken, and room for what its reply can tell is made before that: where there is
/// none, the reply is want of memory, and no turn is taken. It may wait for as long as other threads hold the turn.
pub(crate) fn do_step<R: Threads + Wait + Sync>(
    rt: &R,
    alloc: Global,
    shared: &Shared<GroupBook>,
    pass: &mut Pass<GroupBook>,
    setting: &Setting,
    session: &mut GroupSession,
    step: &Step,
) -> GroupReply
    requires of_this { IsPassOf shared.now pass.old }
    requires number { ((view_of pass.old).first ≤ session.old.session.number) × (session.old.session.number < (view_of pass.old).past) }
    requires setting { (group_book_opening shared.now).setting ≡ setting.now }
    requires profile { IsLawfulProfile setting.now.profile }
    requires step { is_lawful_step step.now ≡ true }
    requires names { HasNames (group_book_opening shared.now) (entries_of_chunks (view_of pass.old).seen) session.old.session }
    ensures of_this { IsPassOf shared.now pass.new }
    ensures range { ((view_of pass.new).first ≡ (view_of pass.old).first) × ((view_of pass.new).past ≡ (view_of pass.old).past) }
    ensures number { session.new.session.number ≡ session.old.session.number }
    ensures done { (m : Memory) → Remembers session.old.session m → IsStepDone (group_book_opening shared.now) m step.now result (view_of pass.old) (view_of pass.new) session.old session.new }
{
    session.session.header.profile = setting.profile;
    carry_out::<Brand, R>(rt, alloc, Blank::new(1), shared, pass, session, step)
}

// The steps are counted by nobody.
fn carry_out<L: Ledger, R: Threads + Wait + Sync>(
    rt: &R,
    alloc: Global,
    blank: Blank,
    shared: &Shared<GroupBook>,
    pass: &mut Pass<GroupBook>,
    session: &mut GroupSession,
    step: &Step,
) -> GroupReply
    requires blank { (blank.name ≡ L.name) × (blank.parts ≡ L.parts) × (0 < L.parts) }
    requires of_this { IsPassOf shared.now pass.old }
    requires number { ((view_of pass.old).first ≤ session.old.session.number) × (session.old.session.number < (view_of pass.old).past) }
    requires setting { (group_book_opening shared.now).setting.profile ≡ session.old.session.header.profile }
    requires profile { IsLawfulProfile session.old.session.header.profile }
    requires step { is_lawful_step step.now ≡ true }
    requires names { HasNames (group_book_opening shared.now) (entries_of_chunks (view_of pass.old).seen) session.old.session }
    ensures of_this { IsPassOf shared.now pass.new }
    ensures range { ((view_of pass.new).first ≡ (view_of pass.old).first) × ((view_of pass.new).past ≡ (view_of pass.old).past) }
    ensures number { session.new.session.number ≡ session.old.session.number }
    ensures done { (m : Memory) → Remembers session.old.session m → IsStepDone (group_book_opening shared.now) m step.now result (view_of pass.old) (view_of pass.new) session.old session.new }
{
    let mut steps = Steps::<L>::start(rt, blank);
    match step {
        Step::One(command) => do_one(rt, alloc, shared, pass, session, command, &mut steps),
        Step::Group(commands) => do_group(
            rt,
            alloc,
            shared,
            pass,
            session,
            commands.as_slice(),
            &mut steps,
        ),
        Step::Undo => do_undo(rt, shared, pass, session, &mut steps),
    }
}
