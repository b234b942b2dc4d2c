//! What is due for a program that is made.
ghost use Rattle.std.specs.Prelude.{◌≡◌, ℕ, List, false, length, IfOk};
ghost use Rattle.knit_base.specs.Lines.{lines_of};
ghost use Rattle.knitout_reader.specs.declared.file_reader.FileReader.{FileReader};
ghost use Rattle.carriage_model.specs.declared.verdict.LoopFact.{LoopFact};
ghost use Rattle.command_words.specs.Request.{IsMake};
ghost use Rattle.knit_maker.specs.Made.{made_lines};
ghost use Rattle.file_run.specs.Bodies.{IsJudged, body_of};
ghost use Rattle.input_answers.specs.Due.{BodyFits};
ghost use Rattle.input_answers.specs.DueMade.{DueMade, IsMadeReport};
ghost use Rattle.pass_grouping.specs.declared.tally.Tally.{Tally};
ghost use Rattle.pass_grouping.specs.Tallies.{HasTallied};
ghost use Rattle.file_run.specs.declared.runner.Runner.{Runner};
ghost use Rattle.input_answers.specs.FileRuns.{HasRunInput, HasRunLines, IsRunnerFor};
ghost use Rattle.input_answers.specs.ListingRun.{AreCountedIn};
ghost use Rattle.input_answers.specs.declared.outcome.Status.TheVariants.{Done};

use crate::answers::refusal_of_size;
use crate::body::Body;
use crate::by_book::judge_by_book;
use crate::ending::Ending;
use crate::file_outcome::runner;
use crate::operation_list::operations_of_body;
use crate::outcome::Status;
use crate::passes::grouping_of;
use crate::plan::Plan;
use carriage_model::Verdict;
use file_run::Runner;
use knit_base::{Lines, NoMemory};
use knit_maker::{make, make_text};
use knitout_reader::{FileReader, HeadFault};
use line_cutter::{CutFault, LineTaker};
use pass_grouping::{Counts, Tally};
use std::alloc::Global;
use std::thread::Threads;
use verdict_report::made_of;

/// What is due for a made program of so many rows, whose width and transfers follow from `start`: its file is made, checked as a file would be, and grouped
/// into passes.
pub fn answer_made<R: Threads + Sync>(
    rt: &R,
    alloc: Global,
    plan: &Plan,
    rows: u32,
    start: u32,
) -> Result<Ending, NoMemory>
    requires { IsMake rows start }
    ensures { IfOk result (λ ending. DueMade plan.now.chosen rows start ending.text.items ending.status) }
{
    if plan.by_blocks {
        return made_by_blocks(rt, alloc, plan, rows, start);
    }
    let text = make_text(alloc, rows, start)?;
    let mut reader = runner::<Tally>(plan, false);
    match reader.take_lines(alloc, &text) {
        Ok(()) => made_of_reader(alloc, plan, reader),
        Err(CutFault::NoMemory) => Err(NoMemory),
        Err(_) => unreachable!(),
    }
}

// What is due for a made program whose lines the reader has taken.
fn made_of_reader(
    alloc: Global,
    plan: &Plan,
    reader: FileReader<Runner<Tally>>,
) -> Result<Ending, NoMemory>
    requires taken { HasRunInput Tally HasTallied reader }
    requires made { (start : FileReader (Runner Tally)) × (input : List ℕ) × (rows : ℕ) × (first : ℕ)
        × (lines_of input ≡ made_lines rows first) × HasRunLines Tally HasTallied (lines_of input) start reader }
    ensures { IfOk result (λ ending. (begun : FileReader (Runner Tally)) (input : List ℕ) (rows start : ℕ)
        → lines_of input ≡ made_lines rows start
        → IsRunnerFor Tally false plan.now.chosen begun → HasRunLines Tally HasTallied (lines_of input) begun reader
        → DueMade plan.now.chosen rows start ending.text.items ending.status) }
{
    let file = match reader.finish(alloc) {
        Ok(file) => file,
        Err(HeadFault::NoMemory) => return Err(NoMemory),
        Err(_) => unreachable!(),
    };
    let body = file.lines - file.head.lines;
    if let Some(refusal) = refusal_of_size(body, plan.chosen.block) {
        let ending = Ending::refusal(alloc, refusal, Status::TooLarge)?;
        return Ok(ending);
    }
    let run = file.work.finish()?;
    let counts = run.taker.counts();
    let ending = summarise(
        alloc,
        plan,
        file.lines,
        body,
        &run.judgement.verdict,
        counts,
    )?;
    Ok(ending)
}

// What is due for a made program whose body opens a book.
fn made_by_blocks<R: Threads + Sync>(
    rt: &R,
    alloc: Global,
    plan: &Plan,
    rows: u32,
    start: u32,
) -> Result<Ending, NoMemory>
    requires { IsMake rows start }
    ensures { IfOk result (λ ending. DueMade plan.now.chosen rows start ending.text.items ending.status) }
{
    let lines = make(alloc, rows, start)?;
    let body = body_of(alloc, rows, start, lines)?;
    match refusal_of_size(body.len(), plan.chosen.block) {
        Some(refusal) => Ending::refusal(alloc, refusal, Status::TooLarge),
        None => {
            let ending = made_of_body(rt, alloc, plan, &body)?;
            Ok(ending)
        }
    }
}

// The head and the body of the made program, whose head is never refused.
fn body_of(alloc: Global, rows: u32, start: u32, lines: Lines) -> Result<Body, NoMemory>
    requires { lines ≡ made_lines rows start }
    ensures { IfOk result (λ body. body.lines ≡ made_lines rows start) }
{
    match Body::of(alloc, lines) {
        Ok(body) => Ok(body),
        Err(HeadFault::NoMemory) => Err(NoMemory),
        Err(_) => unreachable!(),
    }
}

// What is made of a program with this body.
fn made_of_body<R: Threads + Sync>(
    rt: &R,
    alloc: Global,
    plan: &Plan,
    body: &Body,
) -> Result<Ending, NoMemory>
    requires { BodyFits plan.now.chosen.block (length (body_of body.now.lines)) }
    ensures report { IfOk result (λ ending. IsMadeReport plan.now.chosen.profile plan.now.chosen.block body.now.head.declared body.now.lines ending.text.items) }
    ensures status { IfOk result (λ ending. ending.status ≡ Done) }
{
    let judgement = judge_by_book(rt, alloc, false, plan, body)?;
    let ops = operations_of_body(alloc, plan, body)?;
    let grouping = grouping_of(alloc, &ops)?;
    let counts = Counts {
        passes: grouping.starts.len(),
        operations: ops.len(),
        windows: grouping.windows.len(),
    };
    let count = body.lines.len();
    let ending = summarise(alloc, plan, count, body.len(), &judgement.verdict, counts)?;
    Ok(ending)
}

// What is made of a program with so many lines, so many of them behind the head, of which this is the verdict, and these are the counts of the operations
// and the passes.
fn summarise(
    alloc: Global,
    plan: &Plan,
    count: u32,
    behind: u32,
    verdict: &Verdict,
    counts: Counts,
) -> Result<Ending, NoMemory>
    ensures report { IfOk result (λ ending. (names lines : List (List ℕ)) (loops : List LoopFact) → count ≡ length lines
        → behind ≡ length (body_of lines)
        → IsJudged plan.now.chosen.profile names lines verdict.now loops → AreCountedIn plan.now.chosen.profile names lines counts
        → IsMadeReport plan.now.chosen.profile plan.now.chosen.block names lines ending.text.items) }
    ensures status { IfOk result (λ ending. ending.status ≡ Done) }
{
    let blocks = behind.div_ceil(plan.chosen.block);
    let text = made_of(alloc, count, blocks, verdict, counts)?;
    Ok(Ending {
        status: Status::Done,
        text,
    })
}
