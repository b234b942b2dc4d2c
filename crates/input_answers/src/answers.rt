//! What is due for a file whose body opens a book, and what is refused.
ghost use Rattle.std.specs.Prelude.{◌≡◌, ◌≤◌, true, All, List, ℕ, length, IfOk, MatchOption, Some};
ghost use Rattle.knit_base.specs.Lines.{lines_of};
ghost use Rattle.line_cutter.specs.Cut.{IsGoodLine};
ghost use Rattle.machine_profile.specs.Bounds.{IsBlockSize};
ghost use Rattle.input_answers.specs.Asked.{reads_file};
ghost use Rattle.input_answers.specs.Due.{Due, BodyFits, IsSizeRefusal, checks_body, cut_refusal, head_refusal};

use crate::body::Body;
use crate::ending::Ending;
use crate::judge::{Style, judge};
use crate::outcome::Status;
use crate::passes::passes_by_blocks;
use crate::plan::Plan;
use command_words::Command;
use knit_base::{Lines, NoMemory};
use knitout_reader::HeadFault;
use line_cutter::{CutFault, cut_buffer};
use std::alloc::Global;
use std::thread::Threads;
use verdict_report::Refusal;

// A body that is checked has at most so many lines, in at most so many blocks.
const BODY_LIMIT: u32 = 1_048_576;

const BLOCK_LIMIT: u32 = 65_536;

/// What is due for a file that was read whole, whose verdict or passes are asked for by blocks: its body opens a book.
pub fn answer_by_blocks<R: Threads + Sync>(
    rt: &R,
    alloc: Global,
    plan: &Plan,
    input: Vec<u8>,
) -> Result<Ending, NoMemory>
    requires size { length input.items ≤ 16777216 }
    requires checks { checks_body plan.now.command ≡ true }
    requires reads { reads_file plan.now.command ≡ true }
    ensures { IfOk result (λ ending. Due plan.now.command plan.now.chosen input.items ending.text.items ending.status) }
{
    match cut_buffer(alloc, input) {
        Ok(lines) => answer_lines(rt, alloc, plan, lines),
        Err(fault) => Ending::refusal(alloc, refusal_of_lines(fault)?, Status::BadInput),
    }
}

// What is due for an input with these lines.
fn answer_lines<R: Threads + Sync>(
    rt: &R,
    alloc: Global,
    plan: &Plan,
    lines: Lines,
) -> Result<Ending, NoMemory>
    requires good { All IsGoodLine lines }
    requires checks { checks_body plan.now.command ≡ true }
    requires reads { reads_file plan.now.command ≡ true }
    ensures { IfOk result (λ ending. (input : List ℕ) → lines ≡ lines_of input
        → Due plan.now.command plan.now.chosen input ending.text.items ending.status) }
{
    let lines = lines.into_shared()?;
    match Body::of(alloc, lines) {
        Ok(body) => answer_body(rt, alloc, plan, &body),
        Err(fault) => Ending::refusal(alloc, refusal_of_head(fault)?, Status::BadInput),
    }
}

// What is due for an input with this body.
fn answer_body<R: Threads + Sync>(
    rt: &R,
    alloc: Global,
    plan: &Plan,
    body: &Body,
) -> Result<Ending, NoMemory>
    requires checks { checks_body plan.now.command ≡ true }
    requires reads { reads_file plan.now.command ≡ true }
    ensures { IfOk result (λ ending. (input : List ℕ) → body.now.lines ≡ lines_of input
        → Due plan.now.command plan.now.chosen input ending.text.items ending.status) }
{
    match plan.command {
        Command::Check { loops, json } => check(rt, alloc, Style { loops, json }, plan, body),
        Command::Passes => passes(rt, alloc, plan, body),
        Command::Text
        | Command::Live
        | Command::Save
        | Command::Groups
        | Command::Serve { .. }
        | Command::Replay
        | Command::Tally { .. }
        | Command::Make { .. } => unreachable!(),
    }
}

// The verdict on a file with this body, unless that is too large.
fn check<R: Threads + Sync>(
    rt: &R,
    alloc: Global,
    style: Style,
    plan: &Plan,
    body: &Body,
) -> Result<Ending, NoMemory>
    ensures { IfOk result (λ ending. (input : List ℕ) → body.now.lines ≡ lines_of input
        → Due (Command.Check style.loops style.json) plan.now.chosen input ending.text.items ending.status) }
{
    match refusal_of_size(body.len(), plan.chosen.block) {
        Some(refusal) => Ending::refusal(alloc, refusal, Status::TooLarge),
        None => judge(rt, alloc, style, plan, body),
    }
}

// The passes of a file with this body, unless that is too large.
fn passes<R: Threads + Sync>(
    rt: &R,
    alloc: Global,
    plan: &Plan,
    body: &Body,
) -> Result<Ending, NoMemory>
    ensures { IfOk result (λ ending. (input : List ℕ) → body.now.lines ≡ lines_of input
        → Due Command.Passes plan.now.chosen input ending.text.items ending.status) }
{
    match refusal_of_size(body.len(), plan.chosen.block) {
        Some(refusal) => Ending::refusal(alloc, refusal, Status::TooLarge),
        None => passes_by_blocks(rt, alloc, plan, body),
    }
}

/// What is said of a body with so many lines, where these are too many, or too many blocks of this size.
pub fn refusal_of_size(lines: u32, block: u32) -> Option<Refusal>
    requires { IsBlockSize block }
    ensures { MatchOption result (BodyFits block lines) (λ refusal. IsSizeRefusal block lines refusal) }
{
    if lines > BODY_LIMIT {
        return Some(Refusal::TooManyLines);
    }
    if lines.div_ceil(block) > BLOCK_LIMIT {
        return Some(Refusal::TooManyBlocks);
    }
    None
}

/// What is said of bytes that aren't lines.
pub fn refusal_of_lines(fault: CutFault) -> Result<Refusal, NoMemory>
    ensures { IfOk result (λ refusal. cut_refusal fault ≡ Some refusal) }
{
    match fault {
        CutFault::NotUtf8 { line } => Ok(Refusal::NotUtf8(line)),
        CutFault::LineLong { line } => Ok(Refusal::LineLong(line)),
        CutFault::NoMemory => Err(NoMemory),
    }
}

/// What is said of a head that is none.
pub fn refusal_of_head(fault: HeadFault) -> Result<Refusal, NoMemory>
    ensures { IfOk result (λ refusal. head_refusal fault ≡ Some refusal) }
{
    match fault {
        HeadFault::BadMagic => Ok(Refusal::BadMagic),
        HeadFault::NoCarriers => Ok(Refusal::NoCarriers),
        HeadFault::TwoCarriers { line } => Ok(Refusal::TwoCarriers(line)),
        HeadFault::CarrierNameTwice { line } => Ok(Refusal::CarrierNameTwice(line)),
        HeadFault::ManyCarriers { line } => Ok(Refusal::ManyCarriers(line)),
        HeadFault::NoMemory => Err(NoMemory),
    }
}
