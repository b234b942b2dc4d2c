//! The header, as a session's commands read it and give it other names.
ghost use Rattle.std.specs.Prelude.{◌≡◌, ◌<◌, ◌≤◌, ℕ, Some, IfSome};
ghost use Rattle.knit_base.specs.Limits.{IsLawfulProfile};
ghost use Rattle.edit_journal.specs.Documents.{names_given};
ghost use Rattle.edit_book.specs.Memory.{Memory, known_header_stamp, head_told, stamp_told_by};
ghost use Rattle.edit_book.specs.Turns.{AreTextsGiven, IsRightReply};
ghost use Rattle.edit_sessions.specs.Core.{document_core};
ghost use Rattle.edit_sessions.specs.Shared.{shared_opening, entry_session};
ghost use Rattle.turn_book.specs.Passes.{IsPassOf, view_of};
ghost use Rattle.turn_book.specs.Taken.{IsCommandTaken, SeesMore};

use edit_book::sessions::{names_shown, summarised};
use edit_book::{Book, BookCommand, Reply};
use edit_journal::TextList;
use knit_base::{Declared, Setting, Steps};
use script_reader::Command;
use std::alloc::Global;
use std::sync::Wait;
use std::sync::ledger::Ledger;
use std::thread::Threads;
use turn_book::{Pass, Shared};

/// The header as it stands, whose names the session then keeps. Where there is no memory for them, the reply is want of memory.
#[inline(never)]
pub(crate) fn look_head<L: Ledger, R: Threads + Wait>(
    rt: &R,
    alloc: Global,
    shared: &Shared<Book>,
    pass: &mut Pass<Book>,
    header: &mut Setting,
    number: u32,
    steps: &mut Steps<L>,
) -> Reply
    requires of_this { IsPassOf shared.now pass.old }
    requires number { ((view_of pass.old).first ≤ number) × (number < (view_of pass.old).past) }
    ensures of_this { IsPassOf shared.now pass.new }
    ensures profile { header.new.profile ≡ header.old.profile }
    ensures names { (head : ℕ) → names_given (shared_opening shared.now) (view_of pass.old).seen head ≡ Some header.old.declared
        → names_given (shared_opening shared.now) (view_of pass.new).seen (head_told (stamp_told_by Command.LookHead result) head) ≡ Some header.new.declared }
    ensures taken { (m : Memory) → IsCommandTaken (document_core (shared_opening shared.now)) number m Command.LookHead result (view_of pass.old) (view_of pass.new) }
{
    let reply = shared.turn(rt, pass, number, BookCommand::LookHead, steps);
    match names_shown(alloc, &reply) {
        Some(names) => {
            header.declared = names;
            reply
        }
        None => Reply::NoMemory,
    }
}

/// Other names of the header. Two turns are taken: at the first, which is no event, the texts of all blocks are asked for. They are
/// summarised under the names while no turn is held.
#[inline(never)]
pub(crate) fn put_head<L: Ledger, R: Threads + Wait + Sync>(
    rt: &R,
    alloc: Global,
    shared: &Shared<Book>,
    pass: &mut Pass<Book>,
    header: &mut Setting,
    number: u32,
    seen: u32,
    declared: &Declared,
    steps: &mut Steps<L>,
) -> Reply
    requires of_this { IsPassOf shared.now pass.old }
    requires number { ((view_of pass.old).first ≤ number) × (number < (view_of pass.old).past) }
    requires setting { (shared_opening shared.now).setting.profile ≡ header.old.profile }
    requires profile { IsLawfulProfile header.old.profile }
    ensures of_this { IsPassOf shared.now pass.new }
    ensures profile { header.new.profile ≡ header.old.profile }
    ensures names { names_given (shared_opening shared.now) (view_of pass.old).seen seen ≡ Some header.old.declared
        → names_given (shared_opening shared.now) (view_of pass.new).seen (head_told (stamp_told_by (Command.PutHead declared.now) result) seen) ≡ Some header.new.declared }
    ensures taken { (m : Memory) → known_header_stamp m ≡ seen → IsCommandTaken (document_core (shared_opening shared.now)) number m (Command.PutHead declared.now) result (view_of pass.old) (view_of pass.new) }
{
    let Ok(names) = declared.try_clone() else {
        return Reply::NoMemory;
    };
    let Ok(declared) = declared.try_clone() else {
        return Reply::NoMemory;
    };
    let under = Setting {
        profile: header.profile,
        declared: names,
        first: header.first,
    };
    let Some(blocks) = all_texts(rt, shared, pass, number, steps) else {
        return Reply::NoMemory;
    };
    let Ok(again) = summarised(rt, alloc, &blocks, &under) else {
        return Reply::NoMemory;
    };
    let asked = BookCommand::PutHead {
        seen,
        declared,
        again,
    };
    let reply = shared.turn(rt, pass, number, asked, steps);
    if let Reply::Accepted { .. } = &reply {
        *header = under;
    }
    reply
}

// The texts of all blocks at a turn, if there is memory for them. It enters nothing.
fn all_texts<L: Ledger, R: Wait>(
    rt: &R,
    shared: &Shared<Book>,
    pass: &mut Pass<Book>,
    number: u32,
    steps: &mut Steps<L>,
) -> Option<TextList>
    requires of_this { IsPassOf shared.now pass.old }
    requires number { ((view_of pass.old).first ≤ number) × (number < (view_of pass.old).past) }
    ensures of_this { IsPassOf shared.now pass.new }
    ensures more { SeesMore entry_session (view_of pass.old) (view_of pass.new) }
    ensures given { IfSome result (λ blocks. AreTextsGiven (shared_opening shared.now) (view_of pass.new).seen blocks) }
{
    match shared.turn(rt, pass, number, BookCommand::Texts, steps) {
        Reply::Texts { version: _, blocks } => Some(blocks),
        _ => None,
    }
}
