//! The sessions of a script of groups, each in a thread of its own.
ghost use Rattle.std.specs.Prelude.{◌≡◌, ◌+◌, ◌<◌, ◌≤◌, ◌^◌, [], true, IfErr, IfOk, length, map, vec_capacity};
ghost use Rattle.std.specs.List.{list_all};
ghost use Rattle.std.specs.Thread.{IsSync};
ghost use Rattle.knit_base.specs.Limits.{IsLawfulProfile};
ghost use Rattle.edit_journal.specs.declared.opening.Opening.{Opening};
ghost use Rattle.script_reader.specs.Groups.{is_lawful_step};
ghost use Rattle.edit_groups.specs.Sessions.{IsLegalRun};
ghost use Rattle.edit_groups.specs.Shared.{group_book_opening, session_of_chunk};
ghost use Rattle.edit_groups.specs.Talks.{AreSessionsHeard, IsHeardAlong, IsGroupTalkReady, group_talk_replies};
ghost use Rattle.turn_book.specs.Journal.{Foreign};
ghost use Rattle.turn_book.specs.Passes.{IsPassOf, view_of};
ghost use Rattle.turn_book.specs.Ready.{AreReady};

use crate::book::GroupBook;
use crate::replies::GroupReplies;
use crate::reply::GroupReply;
use crate::session::{GroupSession, do_step};
use crate::talk::Talk;
use knit_base::{Declared, NoMemory, Setting};
use knit_ports::Gate;
use script_reader::{Step, StepList};
use std::alloc::Global;
use std::sync::Wait;
use std::thread::{Threads, join_mut};
use turn_book::{Pass, Shared};

/// Runs the sessions of a pass's numbers beside each other, one list of steps each, and gives the replies to each.
///
/// All sessions are started, and room for each reply is made, before the first step. Where memory runs out there, the pass is given back
/// as it was: nothing was asked of the book. It may wait for as long as the gate, or other threads that hold the turn.
pub fn run_groups<G: Gate + Sync, R: Threads + Wait + Sync>(
    rt: &R,
    alloc: Global,
    gate: &G,
    shared: &Shared<GroupBook>,
    setting: &Setting,
    blocks: u32,
    scripts: &[StepList],
    mut pass: Pass<GroupBook>,
) -> Result<(Pass<GroupBook>, GroupReplies), Pass<GroupBook>>
    requires of_this { IsPassOf shared.now pass }
    requires range { (view_of pass).first + length scripts.now ≡ (view_of pass).past }
    requires setting { (group_book_opening shared.now).setting ≡ setting.now }
    requires profile { IsLawfulProfile setting.now.profile }
    requires blocks { length (group_book_opening shared.now).texts ≡ blocks }
    requires steps { list_all (list_all is_lawful_step) scripts.now ≡ true }
    ensures unstarted { IfErr result (λ rest. rest ≡ pass) }
    ensures of_this { IfOk result (λ r. IsPassOf shared.now r.0) }
    ensures range { IfOk result (λ r. ((view_of r.0).first ≡ (view_of pass).first) × ((view_of r.0).past ≡ (view_of pass).past)) }
    ensures heard { Foreign session_of_chunk (view_of pass).first (view_of pass).past (view_of pass).seen → IfOk result (λ r. AreSessionsHeard (group_book_opening shared.now) (view_of pass).first (view_of r.0).seen scripts.now r.1) }
    ensures legal { (view_of pass).first ≡ 0 → (view_of pass).past ≡ (view_of pass).count → (view_of pass).seen ≡ [] → IfOk result (λ r. IsLegalRun (group_book_opening shared.now) scripts.now (view_of r.0).seen r.1) }
{
    let Ok(mut talks) = begin(alloc, pass.first(), blocks, &setting.declared, scripts) else {
        return Err(pass);
    };
    let Ok(lists) = Vec::with_capacity(alloc, scripts.len()) else {
        return Err(pass);
    };
    if scripts.is_empty() {
        return Ok((pass, GroupReplies::of(lists)));
    }
    run(
        rt,
        alloc,
        gate,
        shared,
        setting,
        scripts,
        &mut pass,
        talks.as_mut_slice(),
    );
    shared.newest(&mut pass);
    Ok((pass, GroupReplies::of(into_replies(talks, lists))))
}

// The replies of each session, in lists for which there is room.
fn into_replies(talks: Vec<Talk>, mut lists: Vec<Vec<GroupReply>>) -> Vec<Vec<GroupReply>>
    requires empty { lists.items ≡ [] }
    requires room { length talks.items ≤ vec_capacity lists }
    ensures { map (λ list. list.items) result.items ≡ map group_talk_replies talks.items }
{
    for talk in talks {
        let Talk {
            session: _,
            replies,
        } = talk;
        lists.push_reserved(replies);
    }
    lists
}

// The sessions at their start, with room for their replies.
fn begin(
    alloc: Global,
    first: u32,
    blocks: u32,
    declared: &Declared,
    scripts: &[StepList],
) -> Result<Vec<Talk>, NoMemory>
    requires few { first + length scripts.now ≤ 64 }
    requires steps { list_all (list_all is_lawful_step) scripts.now ≡ true }
    ensures ready { IfOk result (λ talks. (opening : Opening) → length opening.texts ≡ blocks → opening.setting.declared ≡ declared.now → AreReady (IsGroupTalkReady opening) first scripts.now talks.items) }
    ensures count { IfOk result (λ talks. length talks.items ≡ length scripts.now) }
{
    let mut talks = Vec::with_capacity(alloc, scripts.len())?;
    for i in 0..scripts.len() {
        let session = GroupSession::start(alloc, first + i as u32, blocks, declared)?;
        let replies = Vec::with_capacity(alloc, scripts[i].len() as usize)?;
        talks.push(Talk { session, replies })?;
    }
    Ok(talks)
}

// One session, step by step.
fn talk<G: Gate, R: Threads + Wait + Sync>(
    rt: &R,
    alloc: Global,
    gate: &G,
    shared: &Shared<GroupBook>,
    setting: &Setting,
    script: &[Step],
    pass: &mut Pass<GroupBook>,
    talk: &mut Talk,
)
    requires of_this { IsPassOf shared.now pass.old }
    requires range { (view_of pass.old).past ≡ (view_of pass.old).first + 1 }
    requires setting { (group_book_opening shared.now).setting ≡ setting.now }
    requires profile { IsLawfulProfile setting.now.profile }
    requires short { length script.now < 2 ^ 32 }
    requires ready { IsGroupTalkReady (group_book_opening shared.now) (view_of pass.old).first script.now talk.old }
    ensures of_this { IsPassOf shared.now pass.new }
    ensures range { ((view_of pass.new).first ≡ (view_of pass.old).first) × ((view_of pass.new).past ≡ (view_of pass.old).past) }
    ensures heard { Foreign session_of_chunk (view_of pass.old).first (view_of pass.old).past (view_of pass.old).seen → IsHeardAlong (group_book_opening shared.now) (view_of pass.old).first (view_of pass.new).seen script.now (group_talk_replies talk.new) }
{
    let Talk { session, replies } = talk;
    let number = pass.first();
    for i in 0..script.len() {
        gate.before(rt, number, i as u32);
        let reply = do_step(rt, alloc, shared, pass, setting, session, &script[i]);
        gate.after(rt, number, i as u32);
        replies.push_reserved(reply);
    }
    shared.rest();
}

// Each session in a thread of its own: the sessions are halved, and one half is run by another thread. Where none can be made, this one
// runs both, one behind the other: so calls nest at most six deep, whatever threads can be had.
pub(crate) fn run<G: Gate + Sync, R: Threads + Wait + Sync>(
    rt: &R,
    alloc: Global,
    gate: &G,
    shared: &Shared<GroupBook>,
    setting: &Setting,
    scripts: &[StepList],
    pass: &mut Pass<GroupBook>,
    talks: &mut [Talk],
)
    requires of_this { IsPassOf shared.now pass.old }
    requires range { (view_of pass.old).first + length scripts.now ≡ (view_of pass.old).past }
    requires some { 0 < length scripts.now }
    requires setting { (group_book_opening shared.now).setting ≡ setting.now }
    requires profile { IsLawfulProfile setting.now.profile }
    requires same { length talks.old ≡ length scripts.now }
    requires ready { AreReady (IsGroupTalkReady (group_book_opening shared.now)) (view_of pass.old).first scripts.now talks.old }
    ensures of_this { IsPassOf shared.now pass.new }
    ensures range { ((view_of pass.new).first ≡ (view_of pass.old).first) × ((view_of pass.new).past ≡ (view_of pass.old).past) }
    ensures heard { Foreign session_of_chunk (view_of pass.old).first (view_of pass.old).past (view_of pass.old).seen → AreSessionsHeard (group_book_opening shared.now) (view_of pass.old).first (view_of pass.new).seen scripts.now (map group_talk_replies talks.new) }
{
    if scripts.len() < 2 {
        talk(
            rt,
            alloc,
            gate,
            shared,
            setting,
            scripts[0].as_slice(),
            pass,
            &mut talks[0],
        );
        return;
    }
    let half = scripts.len() / 2;
    let at = pass.first() + half as u32;
    let mut right = shared.split(pass, at);
    let (own, others) = scripts.split_at(half);
    let (front, back) = talks.split_at_mut(half);
    join_mut(
        rt,
        &mut ||
            requires { IsSync R.row × IsSync G.row × ((group_book_opening shared.now).setting ≡ setting.now) × IsLawfulProfile setting.now.profile × IsPassOf shared.now right × ((view_of right).first + length others.now ≡ (view_of right).past) × (0 < length others.now) × (length back.now ≡ length others.now) × AreReady (IsGroupTalkReady (group_book_opening shared.now)) (view_of right).first others.now back.now }
            ensures { IsPassOf shared.entry.now right.exit × ((view_of right.exit).first ≡ (view_of right.entry).first) × ((view_of right.exit).past ≡ (view_of right.entry).past) × (Foreign session_of_chunk (view_of right.entry).first (view_of right.entry).past (view_of right.entry).seen → AreSessionsHeard (group_book_opening shared.entry.now) (view_of right.entry).first (view_of right.exit).seen others.entry.now (map group_talk_replies back.exit.now)) }
        { run(rt, alloc, gate, shared, setting, others, &mut right, back) },
        &mut ||
            requires { IsSync R.row × IsSync G.row × ((group_book_opening shared.now).setting ≡ setting.now) × IsLawfulProfile setting.now.profile × IsPassOf shared.now pass.now × ((view_of pass.now).first + length own.now ≡ (view_of pass.now).past) × (0 < length own.now) × (length front.now ≡ length own.now) × AreReady (IsGroupTalkReady (group_book_opening shared.now)) (view_of pass.now).first own.now front.now }
            ensures { IsPassOf shared.entry.now pass.exit.now × ((view_of pass.exit.now).first ≡ (view_of pass.entry.now).first) × ((view_of pass.exit.now).past ≡ (view_of pass.entry.now).past) × (Foreign session_of_chunk (view_of pass.entry.now).first (view_of pass.entry.now).past (view_of pass.entry.now).seen → AreSessionsHeard (group_book_opening shared.entry.now) (view_of pass.entry.now).first (view_of pass.exit.now).seen own.entry.now (map group_talk_replies front.exit.now)) }
        { run(rt, alloc, gate, shared, setting, own, pass, front) },
    );
    shared.join(pass, right);
    shared.newest(pass);
}
