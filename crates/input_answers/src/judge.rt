//! The verdict on a file, and its report.
ghost use Rattle.std.specs.Prelude.{◌≡◌, length, IfOk};
ghost use Rattle.block_summary.specs.Verdicts.{broken_line, numbered_line};
ghost use Rattle.file_run.specs.Bodies.{body_of};
ghost use Rattle.input_answers.specs.CheckReport.{IsCheckReport, report_of, status_of};
ghost use Rattle.input_answers.specs.Due.{BodyFits};

use crate::body::Body;
use crate::by_book::judge_by_book;
use crate::ending::Ending;
use crate::outcome::Status;
use crate::plan::Plan;
use carriage_model::Verdict;
use file_run::Judgement;
use knit_base::{Declared, Lines, NoMemory};
use std::alloc::Global;
use std::thread::Threads;
use verdict_report::{json_of, text_of};

/// Which report of a verdict is asked for: with the loops made, and as JSON.
#[derive(Clone, Copy, Debug, PartialEq, Eq)]
pub struct Style {
    pub loops: bool,
    pub json: bool,
}

/// The report of the verdict on a file, by blocks.
pub fn judge<R: Threads + Sync>(
    rt: &R,
    alloc: Global,
    style: Style,
    plan: &Plan,
    body: &Body,
) -> Result<Ending, NoMemory>
    requires { BodyFits plan.now.chosen.block (length (body_of body.now.lines)) }
    ensures { IfOk result (λ ending. IsCheckReport plan.now.chosen.profile style.loops style.json body.now.head.declared body.now.lines
        ending.text.items ending.status) }
{
    let judgement = judge_by_book(rt, alloc, style.loops, plan, body)?;
    let broken = line_of(&body.lines, &judgement.verdict);
    report(alloc, style.json, &judgement, &body.head.declared, broken)
}

/// The line at which the verdict is broken, or no text.
pub(crate) fn line_of<'a>(lines: &'a Lines, verdict: &Verdict) -> &'a str
    ensures { result.now ≡ broken_line 1 lines.now verdict.now }
{
    match verdict {
        Verdict::Sound(_) => "",
        Verdict::Broken(fault) => numbered_line(lines, fault.line),
    }
}

// The line with this number, from 1, or no text where there is none.
fn numbered_line(lines: &Lines, number: u32) -> &str
    ensures { result.now ≡ numbered_line 1 lines.now number }
{
    match lines.get(number.saturating_sub(1)) {
        Some(line) => line,
        None => "",
    }
}

/// The report, as text or as JSON, and the status that says whether the program is sound.
pub(crate) fn report(
    alloc: Global,
    json: bool,
    judgement: &Judgement,
    names: &Declared,
    broken: &str,
) -> Result<Ending, NoMemory>
    ensures text { IfOk result (λ ending. ending.text.items ≡ report_of json names.now broken.now judgement.now.verdict judgement.now.loops) }
    ensures status { IfOk result (λ ending. ending.status ≡ status_of judgement.now.verdict) }
{
    let Judgement { verdict, loops } = judgement;
    let status = status_of(verdict);
    let text = if json {
        json_of(alloc, verdict, loops.as_ref(), names, broken)?
    } else {
        text_of(alloc, verdict, loops.as_ref(), names, broken)?
    };
    Ok(Ending { status, text })
}

// Whether the program is sound.
fn status_of(verdict: &Verdict) -> Status
    ensures { result ≡ status_of verdict.now }
{
    match verdict {
        Verdict::Sound(_) => Status::Done,
        Verdict::Broken(_) => Status::Broken,
    }
}
