//! The header, as a step of a session reads it and gives it other names.
ghost use Rattle.std.specs.Prelude.{◌≡◌, ◌<◌, ◌≤◌, ℕ, Some, IfSome};
ghost use Rattle.knit_base.specs.Limits.{IsLawfulProfile};
ghost use Rattle.edit_journal.specs.Documents.{names_given};
ghost use Rattle.edit_book.specs.Memory.{Memory, known_header_stamp, head_told, stamp_told_by};
ghost use Rattle.edit_book.specs.Turns.{AreTextsGiven};
ghost use Rattle.edit_groups.specs.Chunks.{entries_of_chunks};
ghost use Rattle.edit_groups.specs.Shared.{group_book_opening, session_of_chunk};
ghost use Rattle.edit_groups.specs.Turns.{IsOneHeard};
ghost use Rattle.turn_book.specs.Passes.{IsPassOf, view_of};
ghost use Rattle.turn_book.specs.Taken.{SeesMore};

use crate::book::GroupBook;
use crate::session::one::turn_one;
use edit_book::sessions::{names_shown, summarised};
use edit_book::{BookCommand, Reply};
use edit_journal::TextList;
use knit_base::{Declared, Setting, Steps};
use script_reader::Command;
use std::alloc::Global;
use std::sync::Wait;
use std::sync::ledger::Ledger;
use std::thread::Threads;
use turn_book::{Pass, Shared};

/// The header as it stands, whose names the session then keeps. Where there is no memory for them, the reply is want of memory.
#[inline(never)]
pub(crate) fn look_head<L: Ledger, R: Threads + Wait>(
    rt: &R,
    alloc: Global,
    shared: &Shared<GroupBook>,
    pass: &mut Pass<GroupBook>,
    header: &mut Setting,
    number: u32,
    steps: &mut Steps<L>,
) -> Reply
    requires of_this { IsPassOf shared.now pass.old }
    requires number { ((view_of pass.old).first ≤ number) × (number < (view_of pass.old).past) }
    ensures of_this { IsPassOf shared.now pass.new }
    ensures range { ((view_of pass.new).first ≡ (view_of pass.old).first) × ((view_of pass.new).past ≡ (view_of pass.old).past) }
    ensures profile { header.new.profile ≡ header.old.profile }
    ensures names { (head : ℕ) → names_given (group_book_opening shared.now) (entries_of_chunks (view_of pass.old).seen) head ≡ Some header.old.declared
        → names_given (group_book_opening shared.now) (entries_of_chunks (view_of pass.new).seen) (head_told (stamp_told_by Command.LookHead result) head) ≡ Some header.new.declared }
    ensures heard { (m : Memory) → IsOneHeard (group_book_opening shared.now) number m Command.LookHead result (view_of pass.old) (view_of pass.new) }
{
    let reply = turn_one(rt, shared, pass, number, BookCommand::LookHead, steps);
    match names_shown(alloc, &reply) {
        Some(names) => {
            header.declared = names;
            reply
        }
        None => Reply::NoMemory,
    }
}

/// Other names of the header. Two turns are taken: at the first, which is no event, the texts of all blocks are asked for. They are
/// summarised under the names while no turn is held.
#[inline(never)]
pub(crate) fn put_head<L: Ledger, R: Threads + Wait + Sync>(
    rt: &R,
    alloc: Global,
    shared: &Shared<GroupBook>,
    pass: &mut Pass<GroupBook>,
    header: &mut Setting,
    number: u32,
    seen: u32,
    declared: &Declared,
    steps: &mut Steps<L>,
) -> Reply
    requires of_this { IsPassOf shared.now pass.old }
    requires number { ((view_of pass.old).first ≤ number) × (number < (view_of pass.old).past) }
    requires setting { (group_book_opening shared.now).setting.profile ≡ header.old.profile }
    requires profile { IsLawfulProfile header.old.profile }
    ensures of_this { IsPassOf shared.now pass.new }
    ensures range { ((view_of pass.new).first ≡ (view_of pass.old).first) × ((view_of pass.new).past ≡ (view_of pass.old).past) }
    ensures profile { header.new.profile ≡ header.old.profile }
    ensures names { names_given (group_book_opening shared.now) (entries_of_chunks (view_of pass.old).seen) seen ≡ Some header.old.declared
        → names_given (group_book_opening shared.now) (entries_of_chunks (view_of pass.new).seen) (head_told (stamp_told_by (Command.PutHead declared.now) result) seen) ≡ Some header.new.declared }
    ensures heard { (m : Memory) → known_header_stamp m ≡ seen → IsOneHeard (group_book_opening shared.now) number m (Command.PutHead declared.now) result (view_of pass.old) (view_of pass.new) }
{
    let Ok(names) = declared.try_clone() else {
        return Reply::NoMemory;
    };
    let Ok(declared) = declared.try_clone() else {
        return Reply::NoMemory;
    };
    let under = Setting {
        profile: header.profile,
        declared: names,
        first: header.first,
    };
    let Some(blocks) = all_texts(rt, shared, pass, number, steps) else {
        return Reply::NoMemory;
    };
    let Ok(again) = summarised(rt, alloc, &blocks, &under) else {
        return Reply::NoMemory;
    };
    let asked = BookCommand::PutHead {
        seen,
        declared,
        again,
    };
    let reply = turn_one(rt, shared, pass, number, asked, steps);
    if let Reply::Accepted { .. } = &reply {
        *header = under;
    }
    reply
}

// The texts of all blocks at a turn, if there is memory for them. It enters nothing.
fn all_texts<L: Ledger, R: Wait>(
    rt: &R,
    shared: &Shared<GroupBook>,
    pass: &mut Pass<GroupBook>,
    number: u32,
    steps: &mut Steps<L>,
) -> Option<TextList>
    requires of_this { IsPassOf shared.now pass.old }
    requires number { ((view_of pass.old).first ≤ number) × (number < (view_of pass.old).past) }
    ensures of_this { IsPassOf shared.now pass.new }
    ensures more { SeesMore session_of_chunk (view_of pass.old) (view_of pass.new) }
    ensures given { IfSome result (λ blocks. AreTextsGiven (group_book_opening shared.now) (entries_of_chunks (view_of pass.new).seen) blocks) }
{
    match turn_one(rt, shared, pass, number, BookCommand::Texts, steps) {
        Reply::Texts { version: _, blocks } => Some(blocks),
        _ => None,
    }
}
