//! What is due for a script of groups that was read whole: its sessions edit one document, each in a thread of its own, by single commands,
//! groups of edits and undos, and the report tells the replies, the journal, and the verdict on the document at its end.
ghost use Rattle.std.specs.Prelude.{◌≡◌, ◌<◌, ◌≤◌, [], true, All, ℕ, List, length, IfErr, IfOk};
ghost use Rattle.std.specs.List.{list_all};
ghost use Rattle.knit_base.specs.Limits.{IsLawfulProfile};
ghost use Rattle.knit_base.specs.Lines.{lines_of};
ghost use Rattle.line_cutter.specs.Cut.{IsGoodLine};
ghost use Rattle.knitout_reader.specs.Head.{IsHead};
ghost use Rattle.script_reader.specs.Groups.{IsGroupRefusal, IsGroupScript, is_lawful_step};
ghost use Rattle.edit_groups.specs.Chunks.{entries_of_chunks};
ghost use Rattle.edit_groups.specs.Sessions.{IsLegalRun};
ghost use Rattle.input_answers.specs.Answers.{IsDueGroups};
ghost use Rattle.file_run.specs.Bodies.{body_of};
ghost use Rattle.input_answers.specs.Due.{BodyFits};
ghost use Rattle.input_answers.specs.DueGroups.{HasGroupScript};

use crate::answers::{refusal_of_head, refusal_of_lines, refusal_of_size};
use crate::ending::Answer;
use crate::live::body_len;
use crate::opening::{OpenedBook, open};
use crate::outcome::{GroupOutcome, Outcome, Status};
use crate::plan::Plan;
use edit_book::Book;
use edit_groups::{ChunkList, GroupBook, GroupReplies, run_groups};
use knit_base::{Lines, ListOf, NoMemory, Steps};
use knit_ports::Gate;
use knitout_reader::{Head, read_head};
use line_cutter::cut_buffer;
use reply_report::groups_of;
use script_reader::{GroupScript, ScriptFault, StepScripts, read_groups};
use std::alloc::Global;
use std::marker::Brand;
use std::sync::Wait;
use std::sync::ledger::{Blank, Ledger};
use std::thread::Threads;
use turn_book::Shared;
use verdict_report::Refusal;

/// What is due for a script that was read whole. It may wait for other threads, and for the gate.
pub fn answer_groups<R: Threads + Wait + Sync, G: Gate + Sync>(
    rt: &R,
    alloc: Global,
    plan: &Plan,
    input: Vec<u8>,
    gate: &G,
) -> Result<Answer, NoMemory>
    requires { length input.items ≤ 16777216 }
    ensures { IfOk result (IsDueGroups plan.now.chosen input.items) }
{
    match cut_buffer(alloc, input) {
        Ok(lines) => answer_lines(rt, alloc, plan, lines, gate),
        Err(fault) => Answer::refusal(alloc, refusal_of_lines(fault)?, Status::BadInput),
    }
}

// What is due for an input with these lines.
fn answer_lines<R: Threads + Wait + Sync, G: Gate + Sync>(
    rt: &R,
    alloc: Global,
    plan: &Plan,
    lines: Lines,
    gate: &G,
) -> Result<Answer, NoMemory>
    requires { All IsGoodLine lines }
    ensures { IfOk result (λ answer. (input : List ℕ) → lines ≡ lines_of input → IsDueGroups plan.now.chosen input answer) }
{
    match script_of(alloc, lines) {
        Ok(script) => answer_script(rt, alloc, plan, script, gate),
        Err(ScriptFault::At { line, cause }) => {
            Answer::refusal(alloc, Refusal::BadScript(line, cause), Status::BadInput)
        }
        Err(ScriptFault::NoMemory) => Err(NoMemory),
    }
}

// The script that the lines spell, whose texts share the input's bytes. The places of the lines are let go before a session begins.
fn script_of(alloc: Global, lines: Lines) -> Result<GroupScript, ScriptFault>
    ensures script { IfOk result (IsGroupScript lines) }
    ensures fault { IfErr result (IsGroupRefusal lines) }
{
    let lines = lines.into_shared()?;
    read_groups(alloc, &lines)
}

// What is due for an input that spells this script.
fn answer_script<R: Threads + Wait + Sync, G: Gate + Sync>(
    rt: &R,
    alloc: Global,
    plan: &Plan,
    script: GroupScript,
    gate: &G,
) -> Result<Answer, NoMemory>
    requires short { All (λ line. length line < 65535) script.text }
    requires few { length script.sessions ≤ 64 }
    requires steps { list_all (list_all is_lawful_step) script.sessions ≡ true }
    ensures { IfOk result (λ answer. (input : List ℕ) → All IsGoodLine (lines_of input) → IsGroupScript (lines_of input) script → IsDueGroups plan.now.chosen input answer) }
{
    match read_head(alloc, &script.text) {
        Ok(head) => answer_headed(rt, alloc, plan, script, &head, gate),
        Err(fault) => Answer::refusal(alloc, refusal_of_head(fault)?, Status::BadInput),
    }
}

// What is due for an input that spells this script, whose text has this head.
fn answer_headed<R: Threads + Wait + Sync, G: Gate + Sync>(
    rt: &R,
    alloc: Global,
    plan: &Plan,
    script: GroupScript,
    head: &Head,
    gate: &G,
) -> Result<Answer, NoMemory>
    requires head { IsHead script.text head.now }
    requires few { length script.sessions ≤ 64 }
    requires steps { list_all (list_all is_lawful_step) script.sessions ≡ true }
    ensures { IfOk result (λ answer. (input : List ℕ) → HasGroupScript input script head.now → IsDueGroups plan.now.chosen input answer) }
{
    let lines = body_len(&script.text, head);
    match refusal_of_size(lines, plan.chosen.block) {
        Some(refusal) => Answer::refusal(alloc, refusal, Status::TooLarge),
        None => carry_out::<Brand, R, G>(rt, Blank::new(1), alloc, plan, script, head, gate),
    }
}

// The sessions are carried out, with a counter of steps, which no contract here reads.
fn carry_out<L: Ledger, R: Threads + Wait + Sync, G: Gate + Sync>(
    rt: &R,
    blank: Blank,
    alloc: Global,
    plan: &Plan,
    script: GroupScript,
    head: &Head,
    gate: &G,
) -> Result<Answer, NoMemory>
    requires name { blank.name ≡ L.name }
    requires parts { blank.parts ≡ L.parts }
    requires some { 0 < L.parts }
    requires head { IsHead script.text head.now }
    requires fits { BodyFits plan.now.chosen.block (length (body_of script.text)) }
    requires few { length script.sessions ≤ 64 }
    requires steps { list_all (list_all is_lawful_step) script.sessions ≡ true }
    ensures { IfOk result (λ answer. (input : List ℕ) → HasGroupScript input script head.now → IsDueGroups plan.now.chosen input answer) }
{
    let mut steps = Steps::<L>::start(rt, blank);
    let opened = open(rt, alloc, plan, &script.text, head, &mut steps)?;
    let (book, chunks, replies) = play(rt, alloc, &script.sessions, opened, gate)?;
    let text = groups_of(alloc, &book, &replies, &mut steps)?;
    let mut outcome = Outcome::without_sessions(alloc, Status::Done);
    outcome.groups = Some(GroupOutcome {
        script,
        chunks,
        replies,
    });
    Ok(Answer { text, outcome })
}

// The book as the sessions leave it, the steps that were accepted, and the replies to each session.
fn play<R: Threads + Wait + Sync, G: Gate + Sync>(
    rt: &R,
    alloc: Global,
    sessions: &StepScripts,
    opened: OpenedBook,
    gate: &G,
) -> Result<(Book, ChunkList, GroupReplies), NoMemory>
    requires profile { IsLawfulProfile opened.book.opening.setting.profile }
    requires unedited { opened.book.entries ≡ [] }
    requires blocks { length opened.book.opening.texts ≡ opened.blocks }
    requires few { length sessions.now ≤ 64 }
    requires steps { list_all (list_all is_lawful_step) sessions.now ≡ true }
    ensures opening { IfOk result (λ played. played.0.opening ≡ opened.book.opening) }
    ensures entries { IfOk result (λ played. played.0.entries ≡ entries_of_chunks played.1) }
    ensures legal { IfOk result (λ played. IsLegalRun opened.book.opening sessions.now played.1 played.2) }
{
    let OpenedBook { book, blocks } = opened;
    let numbers = sessions.len();
    if numbers == 0 {
        return Ok((book, ListOf::new(alloc), GroupReplies::of(Vec::new(alloc))));
    }
    let setting = book.setting().try_clone()?;
    let (shared, pass) = Shared::start(rt, alloc, GroupBook::of(alloc, book), numbers)?;
    let Ok((pass, replies)) = run_groups(
        rt,
        alloc,
        gate,
        &shared,
        &setting,
        blocks,
        sessions.as_slice(),
        pass,
    ) else {
        return Err(NoMemory);
    };
    let (book, chunks) = shared.finish(rt, pass).into_parts();
    Ok((book, chunks, replies))
}
