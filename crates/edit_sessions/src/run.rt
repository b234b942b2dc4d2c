//! The sessions of a script, each in a thread of its own.
ghost use Rattle.std.specs.Prelude.{◌≡◌, ◌+◌, ◌<◌, ◌≤◌, ◌^◌, [], IfErr, IfOk, length, map, take, vec_capacity, vec_len};
ghost use Rattle.std.specs.Thread.{IsSync};
ghost use Rattle.knit_base.specs.Limits.{IsLawfulProfile};
ghost use Rattle.edit_journal.specs.declared.opening.Opening.{Opening};
ghost use Rattle.edit_book.specs.Memory.{first_memory};
ghost use Rattle.edit_sessions.specs.Core.{document_core};
ghost use Rattle.edit_sessions.specs.Laws.{IsLegal};
ghost use Rattle.edit_sessions.specs.Shared.{shared_opening, entry_session};
ghost use Rattle.edit_sessions.specs.Talks.{IsTalkReady, talk_replies};
ghost use Rattle.turn_book.specs.Histories.{AreHistories, IsHistory};
ghost use Rattle.turn_book.specs.Journal.{Each, Foreign};
ghost use Rattle.turn_book.specs.Passes.{IsPassOf, view_of};
ghost use Rattle.turn_book.specs.Ready.{AreReady};

use crate::take::do_command;
use crate::talk::Talk;
use edit_book::sessions::Session;
use edit_book::{Book, Replies, Reply};
use knit_base::{Declared, NoMemory, Setting};
use knit_ports::Gate;
use script_reader::{Command, CommandList};
use std::alloc::Global;
use std::sync::Wait;
use std::thread::{Threads, join_mut};
use turn_book::{Pass, Shared};

/// Runs the sessions of a pass's numbers beside each other, one script each, and gives the replies to each.
///
/// All sessions are started, and room for each reply is made, before the first command. Where memory runs out there, the pass is given
/// back as it was: nothing was asked of the book. It may wait for as long as the gate, or other threads that hold the turn.
pub fn run_all<G: Gate + Sync, R: Threads + Wait + Sync>(
    rt: &R,
    alloc: Global,
    gate: &G,
    shared: &Shared<Book>,
    setting: &Setting,
    blocks: u32,
    scripts: &[CommandList],
    mut pass: Pass<Book>,
) -> Result<(Pass<Book>, Replies), Pass<Book>>
    requires of_this { IsPassOf shared.now pass }
    requires range { (view_of pass).first + length scripts.now ≡ (view_of pass).past }
    requires setting { (shared_opening shared.now).setting ≡ setting.now }
    requires profile { IsLawfulProfile setting.now.profile }
    requires blocks { length (shared_opening shared.now).texts ≡ blocks }
    ensures unstarted { IfErr result (λ rest. rest ≡ pass) }
    ensures of_this { IfOk result (λ r. IsPassOf shared.now r.0) }
    ensures range { IfOk result (λ r. ((view_of r.0).first ≡ (view_of pass).first) × ((view_of r.0).past ≡ (view_of pass).past)) }
    ensures histories { Foreign entry_session (view_of pass).first (view_of pass).past (view_of pass).seen → IfOk result (λ r. AreHistories (document_core (shared_opening shared.now)) (view_of pass).first (view_of r.0).seen (first_memory (shared_opening shared.now)) scripts.now r.1) }
    ensures legal { (view_of pass).first ≡ 0 → (view_of pass).past ≡ (view_of pass).count → (view_of pass).seen ≡ [] → IfOk result (λ r. IsLegal (shared_opening shared.now) scripts.now (view_of r.0).seen r.1) }
{
    let Ok(mut talks) = begin(alloc, pass.first(), blocks, &setting.declared, scripts) else {
        return Err(pass);
    };
    let Ok(lists) = Vec::with_capacity(alloc, scripts.len()) else {
        return Err(pass);
    };
    if scripts.is_empty() {
        return Ok((pass, Replies::of(lists)));
    }
    run(
        rt,
        alloc,
        gate,
        shared,
        setting,
        scripts,
        &mut pass,
        talks.as_mut_slice(),
    );
    shared.newest(&mut pass);
    Ok((pass, Replies::of(into_replies(talks, lists))))
}

// The replies of each session, in lists for which there is room.
fn into_replies(talks: Vec<Talk>, mut lists: Vec<Vec<Reply>>) -> Vec<Vec<Reply>>
    requires empty { lists.items ≡ [] }
    requires room { length talks.items ≤ vec_capacity lists }
    ensures { map (λ list. list.items) result.items ≡ map talk_replies talks.items }
{
    for talk in talks {
        let Talk {
            session: _,
            replies,
        } = talk;
        lists.push_reserved(replies);
    }
    lists
}

// The sessions at their start, with room for their replies.
fn begin(
    alloc: Global,
    first: u32,
    blocks: u32,
    declared: &Declared,
    scripts: &[CommandList],
) -> Result<Vec<Talk>, NoMemory>
    requires few { first + length scripts.now ≤ 64 }
    ensures ready { IfOk result (λ talks. (opening : Opening) → length opening.texts ≡ blocks → opening.setting.declared ≡ declared.now → AreReady (IsTalkReady opening) first scripts.now talks.items) }
    ensures count { IfOk result (λ talks. length talks.items ≡ length scripts.now) }
{
    let mut talks = Vec::with_capacity(alloc, scripts.len())?;
    for i in 0..scripts.len() {
        let session = Session::start(alloc, first + i as u32, blocks, declared)?;
        let replies = Vec::with_capacity(alloc, scripts[i].len() as usize)?;
        talks.push(Talk { session, replies })?;
    }
    Ok(talks)
}

// One session, command by command.
fn talk<G: Gate, R: Threads + Wait + Sync>(
    rt: &R,
    alloc: Global,
    gate: &G,
    shared: &Shared<Book>,
    setting: &Setting,
    script: &[Command],
    pass: &mut Pass<Book>,
    talk: &mut Talk,
)
    requires of_this { IsPassOf shared.now pass.old }
    requires range { (view_of pass.old).past ≡ (view_of pass.old).first + 1 }
    requires setting { (shared_opening shared.now).setting ≡ setting.now }
    requires profile { IsLawfulProfile setting.now.profile }
    requires short { length script.now < 2 ^ 32 }
    requires ready { IsTalkReady (shared_opening shared.now) (view_of pass.old).first script.now talk.old }
    ensures of_this { IsPassOf shared.now pass.new }
    ensures range { ((view_of pass.new).first ≡ (view_of pass.old).first) × ((view_of pass.new).past ≡ (view_of pass.old).past) }
    ensures history { Foreign entry_session (view_of pass.old).first (view_of pass.old).past (view_of pass.old).seen → IsHistory (document_core (shared_opening shared.now)) (view_of pass.old).first (view_of pass.new).seen (first_memory (shared_opening shared.now)) script.now (talk_replies talk.new) }
{
    let Talk { session, replies } = talk;
    let number = pass.first();
    for i in 0..script.len() {
        gate.before(rt, number, i as u32);
        let reply = do_command(rt, alloc, shared, pass, setting, session, &script[i]);
        gate.after(rt, number, i as u32);
        replies.push_reserved(reply);
    }
    shared.rest();
}

// Each session in a thread of its own: the sessions are halved, and one half is run by another thread. Where none can be made, this one
// runs both, one behind the other: so calls nest at most six deep, whatever threads can be had.
pub(crate) fn run<G: Gate + Sync, R: Threads + Wait + Sync>(
    rt: &R,
    alloc: Global,
    gate: &G,
    shared: &Shared<Book>,
    setting: &Setting,
    scripts: &[CommandList],
    pass: &mut Pass<Book>,
    talks: &mut [Talk],
)
    requires of_this { IsPassOf shared.now pass.old }
    requires range { (view_of pass.old).first + length scripts.now ≡ (view_of pass.old).past }
    requires some { 0 < length scripts.now }
    requires setting { (shared_opening shared.now).setting ≡ setting.now }
    requires profile { IsLawfulProfile setting.now.profile }
    requires same { length talks.old ≡ length scripts.now }
    requires ready { AreReady (IsTalkReady (shared_opening shared.now)) (view_of pass.old).first scripts.now talks.old }
    ensures of_this { IsPassOf shared.now pass.new }
    ensures range { ((view_of pass.new).first ≡ (view_of pass.old).first) × ((view_of pass.new).past ≡ (view_of pass.old).past) }
    ensures histories { Foreign entry_session (view_of pass.old).first (view_of pass.old).past (view_of pass.old).seen → AreHistories (document_core (shared_opening shared.now)) (view_of pass.old).first (view_of pass.new).seen (first_memory (shared_opening shared.now)) scripts.now (map talk_replies talks.new) }
{
    if scripts.len() < 2 {
        talk(
            rt,
            alloc,
            gate,
            shared,
            setting,
            scripts[0].as_slice(),
            pass,
            &mut talks[0],
        );
        return;
    }
    let half = scripts.len() / 2;
    let at = pass.first() + half as u32;
    let mut right = shared.split(pass, at);
    let (own, others) = scripts.split_at(half);
    let (front, back) = talks.split_at_mut(half);
    join_mut(
        rt,
        &mut ||
            requires { IsSync R.row × IsSync G.row × ((shared_opening shared.now).setting ≡ setting.now) × IsLawfulProfile setting.now.profile × IsPassOf shared.now right × ((view_of right).first + length others.now ≡ (view_of right).past) × (0 < length others.now) × (length back.now ≡ length others.now) × AreReady (IsTalkReady (shared_opening shared.now)) (view_of right).first others.now back.now }
            ensures { IsPassOf shared.entry.now right.exit × ((view_of right.exit).first ≡ (view_of right.entry).first) × ((view_of right.exit).past ≡ (view_of right.entry).past) × (Foreign entry_session (view_of right.entry).first (view_of right.entry).past (view_of right.entry).seen → AreHistories (document_core (shared_opening shared.entry.now)) (view_of right.entry).first (view_of right.exit).seen (first_memory (shared_opening shared.entry.now)) others.entry.now (map talk_replies back.exit.now)) }
        { run(rt, alloc, gate, shared, setting, others, &mut right, back) },
        &mut ||
            requires { IsSync R.row × IsSync G.row × ((shared_opening shared.now).setting ≡ setting.now) × IsLawfulProfile setting.now.profile × IsPassOf shared.now pass.now × ((view_of pass.now).first + length own.now ≡ (view_of pass.now).past) × (0 < length own.now) × (length front.now ≡ length own.now) × AreReady (IsTalkReady (shared_opening shared.now)) (view_of pass.now).first own.now front.now }
            ensures { IsPassOf shared.entry.now pass.exit.now × ((view_of pass.exit.now).first ≡ (view_of pass.entry.now).first) × ((view_of pass.exit.now).past ≡ (view_of pass.entry.now).past) × (Foreign entry_session (view_of pass.entry.now).first (view_of pass.entry.now).past (view_of pass.entry.now).seen → AreHistories (document_core (shared_opening shared.entry.now)) (view_of pass.entry.now).first (view_of pass.exit.now).seen (first_memory (shared_opening shared.entry.now)) own.entry.now (map talk_replies front.exit.now)) }
        { run(rt, alloc, gate, shared, setting, own, pass, front) },
    );
    shared.join(pass, right);
    shared.newest(pass);
}
