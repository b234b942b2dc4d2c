//! What is due for a script that was read whole: its sessions edit one document, each in a thread of its own. What is then written tells
//! what they did, or keeps the document.
ghost use Rattle.std.specs.Prelude.{◌≡◌, ◌<◌, ◌≤◌, ◌^◌, [], All, ℕ, List, length, IfErr, IfOk};
ghost use Rattle.knit_base.specs.Limits.{IsLawfulProfile};
ghost use Rattle.knit_base.specs.Lines.{lines_of};
ghost use Rattle.line_cutter.specs.Cut.{IsGoodLine};
ghost use Rattle.knitout_reader.specs.Head.{IsHead};
ghost use Rattle.script_reader.specs.Script.{IsScriptRefusal, IsScript};
ghost use Rattle.edit_sessions.specs.Laws.{IsLegal};
ghost use Rattle.input_answers.specs.Answers.{IsDueLive};
ghost use Rattle.file_run.specs.Bodies.{body_of};
ghost use Rattle.input_answers.specs.Due.{BodyFits};
ghost use Rattle.input_answers.specs.DueLive.{HasScript};
ghost use Rattle.input_answers.specs.LiveText.{output_of};

use crate::answers::{refusal_of_head, refusal_of_lines, refusal_of_size};
use crate::ending::Answer;
use crate::live_text::{output_of, told_of};
use crate::opening::{OpenedBook, open};
use crate::outcome::{Outcome, Status};
use crate::plan::Plan;
use edit_book::{Book, Replies};
use edit_sessions::run_all;
use knit_base::{Lines, NoMemory, Steps};
use knit_ports::Gate;
use knitout_reader::{Head, read_head};
use line_cutter::cut_buffer;
use script_reader::{Script, ScriptFault, SessionScripts, read_script};
use std::alloc::Global;
use std::marker::Brand;
use std::sync::Wait;
use std::sync::ledger::{Blank, Ledger};
use std::thread::Threads;
use turn_book::Shared;
use verdict_report::Refusal;

/// What is due for a script that was read whole. It may wait for other threads, and for the gate.
pub fn answer_live<R: Threads + Wait + Sync, G: Gate + Sync>(
    rt: &R,
    alloc: Global,
    plan: &Plan,
    input: Vec<u8>,
    gate: &G,
) -> Result<Answer, NoMemory>
    requires { length input.items ≤ 16777216 }
    ensures { IfOk result (IsDueLive (output_of plan.now.command) plan.now.chosen input.items) }
{
    match cut_buffer(alloc, input) {
        Ok(lines) => answer_lines(rt, alloc, plan, lines, gate),
        Err(fault) => Answer::refusal(alloc, refusal_of_lines(fault)?, Status::BadInput),
    }
}

// What is due for an input with these lines.
fn answer_lines<R: Threads + Wait + Sync, G: Gate + Sync>(
    rt: &R,
    alloc: Global,
    plan: &Plan,
    lines: Lines,
    gate: &G,
) -> Result<Answer, NoMemory>
    requires { All IsGoodLine lines }
    ensures { IfOk result (λ answer. (input : List ℕ) → lines ≡ lines_of input → IsDueLive (output_of plan.now.command) plan.now.chosen input answer) }
{
    match script_of(alloc, lines) {
        Ok(script) => answer_script(rt, alloc, plan, script, gate),
        Err(ScriptFault::At { line, cause }) => {
            Answer::refusal(alloc, Refusal::BadScript(line, cause), Status::BadInput)
        }
        Err(ScriptFault::NoMemory) => Err(NoMemory),
    }
}

// The script that the lines spell, whose texts share the input's bytes. The places of the lines are let go before a session begins.
fn script_of(alloc: Global, lines: Lines) -> Result<Script, ScriptFault>
    ensures script { IfOk result (IsScript lines) }
    ensures fault { IfErr result (IsScriptRefusal lines) }
{
    let lines = lines.into_shared()?;
    read_script(alloc, &lines)
}

// What is due for an input that spells this script.
fn answer_script<R: Threads + Wait + Sync, G: Gate + Sync>(
    rt: &R,
    alloc: Global,
    plan: &Plan,
    script: Script,
    gate: &G,
) -> Result<Answer, NoMemory>
    requires short { All (λ line. length line < 65535) script.text }
    requires few { length script.sessions ≤ 64 }
    ensures { IfOk result (λ answer. (input : List ℕ) → All IsGoodLine (lines_of input) → IsScript (lines_of input) script → IsDueLive (output_of plan.now.command) plan.now.chosen input answer) }
{
    match read_head(alloc, &script.text) {
        Ok(head) => answer_headed(rt, alloc, plan, script, &head, gate),
        Err(fault) => Answer::refusal(alloc, refusal_of_head(fault)?, Status::BadInput),
    }
}

// What is due for an input that spells this script, whose text has this head.
fn answer_headed<R: Threads + Wait + Sync, G: Gate + Sync>(
    rt: &R,
    alloc: Global,
    plan: &Plan,
    script: Script,
    head: &Head,
    gate: &G,
) -> Result<Answer, NoMemory>
    requires head { IsHead script.text head.now }
    requires few { length script.sessions ≤ 64 }
    ensures { IfOk result (λ answer. (input : List ℕ) → HasScript input script head.now → IsDueLive (output_of plan.now.command) plan.now.chosen input answer) }
{
    let lines = body_len(&script.text, head);
    match refusal_of_size(lines, plan.chosen.block) {
        Some(refusal) => Answer::refusal(alloc, refusal, Status::TooLarge),
        None => carry_out::<Brand, R, G>(rt, Blank::new(1), alloc, plan, script, head, gate),
    }
}

/// How many lines stand behind the head.
pub(crate) fn body_len(text: &Lines, head: &Head) -> u32
    requires { IsHead text.now head.now }
    ensures { result ≡ length (body_of text.now) }
{
    text.len() - head.lines
}

// The sessions are carried out, with a counter of steps, which no contract here reads.
fn carry_out<L: Ledger, R: Threads + Wait + Sync, G: Gate + Sync>(
    rt: &R,
    blank: Blank,
    alloc: Global,
    plan: &Plan,
    script: Script,
    head: &Head,
    gate: &G,
) -> Result<Answer, NoMemory>
    requires name { blank.name ≡ L.name }
    requires parts { blank.parts ≡ L.parts }
    requires some { 0 < L.parts }
    requires head { IsHead script.text head.now }
    requires fits { BodyFits plan.now.chosen.block (length (body_of script.text)) }
    requires few { length script.sessions ≤ 64 }
    ensures { IfOk result (λ answer. (input : List ℕ) → HasScript input script head.now → IsDueLive (output_of plan.now.command) plan.now.chosen input answer) }
{
    let mut steps = Steps::<L>::start(rt, blank);
    let opened = open(rt, alloc, plan, &script.text, head, &mut steps)?;
    let (book, replies) = play(rt, alloc, &script.sessions, opened, gate)?;
    let (text, journal) = told_of(
        alloc,
        output_of(plan.command),
        &script.text,
        book,
        &replies,
        &mut steps,
    )?;
    let outcome = Outcome {
        status: Status::Done,
        script,
        journal,
        replies,
        groups: None,
    };
    Ok(Answer { text, outcome })
}

// The book as the sessions leave it, and the replies to each.
fn play<R: Threads + Wait + Sync, G: Gate + Sync>(
    rt: &R,
    alloc: Global,
    sessions: &SessionScripts,
    opened: OpenedBook,
    gate: &G,
) -> Result<(Book, Replies), NoMemory>
    requires profile { IsLawfulProfile opened.book.opening.setting.profile }
    requires unedited { opened.book.entries ≡ [] }
    requires blocks { length opened.book.opening.texts ≡ opened.blocks }
    requires few { length sessions.now ≤ 64 }
    ensures opening { IfOk result (λ played. played.0.opening ≡ opened.book.opening) }
    ensures legal { IfOk result (λ played. IsLegal opened.book.opening sessions.now played.0.entries played.1) }
{
    let OpenedBook { book, blocks } = opened;
    let numbers = sessions.len();
    if numbers == 0 {
        return Ok((book, Replies::of(Vec::new(alloc))));
    }
    let setting = book.setting().try_clone()?;
    let (shared, pass) = Shared::start(rt, alloc, book, numbers)?;
    let Ok((pass, replies)) = run_all(
        rt,
        alloc,
        gate,
        &shared,
        &setting,
        blocks,
        sessions.as_slice(),
        pass,
    ) else {
        return Err(NoMemory);
    };
    Ok((shared.finish(rt, pass), replies))
}
