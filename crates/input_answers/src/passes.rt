//! The passes of a file.
ghost use Rattle.std.specs.Prelude.{◌≡◌, ℕ, List, false, length, IfOk};
ghost use Rattle.knit_base.specs.Lines.{lines_of};
ghost use Rattle.pass_grouping.specs.declared.tally.Tally.{Tally};
ghost use Rattle.pass_grouping.specs.Tallies.{HasTallied};
ghost use Rattle.machine_profile.specs.declared.Chosen.{Chosen};
ghost use Rattle.command_words.specs.declared.command.Command.{Command};
ghost use Rattle.file_run.specs.Bodies.{body_of};
ghost use Rattle.input_answers.specs.Due.{Due, BodyFits};
ghost use Rattle.input_answers.specs.FileRuns.{IsFileRun};
ghost use Rattle.input_answers.specs.ListingRun.{ReportsPasses};
ghost use Rattle.input_answers.specs.PassesReport.{AreFewest};
ghost use Rattle.input_answers.specs.declared.outcome.Status.TheVariants.{Done};

use crate::body::Body;
use crate::by_book::judge_by_book;
use crate::ending::Ending;
use crate::file_answers::text_of;
use crate::file_outcome::FileRun;
use crate::judge::{line_of, report};
use crate::operation_list::operations_of_body;
use crate::outcome::Status;
use crate::plan::Plan;
use carriage_model::Verdict;
use file_run::Run;
use knit_base::{Declared, NoMemory};
use pass_grouping::{Grouping, PassOps, Tally, check_certificate, group};
use std::alloc::Global;
use std::thread::Threads;
use verdict_report::{passes_of, passes_told};

/// What is due for the passes of a file that was carried out.
pub(crate) fn passes_of_run(alloc: Global, file: FileRun<Tally>) -> Result<Ending, NoMemory>
    ensures { IfOk result (λ ending. (chosen : Chosen) (input : List ℕ) → IsFileRun Tally HasTallied false chosen input file
        → Due Command.Passes chosen input ending.text.items ending.status) }
{
    let Run {
        judgement,
        broken,
        taker,
    } = file.run;
    let names = &file.head.declared;
    match &judgement.verdict {
        Verdict::Broken(_) => {
            let told = report(alloc, false, &judgement, names, text_of(&broken))?;
            Ok(told)
        }
        Verdict::Sound(_) => {
            let passes = taker.finish(alloc)?;
            let text = passes_told(alloc, &passes, names)?;
            Ok(Ending {
                status: Status::Done,
                text,
            })
        }
    }
}

/// What is due for the passes of a file with this body, whose verdict is that of a book.
pub fn passes_by_blocks<R: Threads + Sync>(
    rt: &R,
    alloc: Global,
    plan: &Plan,
    body: &Body,
) -> Result<Ending, NoMemory>
    requires { BodyFits plan.now.chosen.block (length (body_of body.now.lines)) }
    ensures { IfOk result (λ ending. (input : List ℕ) → body.now.lines ≡ lines_of input
        → Due Command.Passes plan.now.chosen input ending.text.items ending.status) }
{
    let names = &body.head.declared;
    let judgement = judge_by_book(rt, alloc, false, plan, body)?;
    match &judgement.verdict {
        Verdict::Broken(_) => {
            let broken = line_of(&body.lines, &judgement.verdict);
            let told = report(alloc, false, &judgement, names, broken)?;
            Ok(told)
        }
        Verdict::Sound(_) => {
            let ops = operations_of_body(alloc, plan, body)?;
            let grouped = report_passes_of(alloc, &ops, names)?;
            Ok(grouped)
        }
    }
}

// The report of the fewest passes of these operations.
fn report_passes_of(alloc: Global, ops: &PassOps, names: &Declared) -> Result<Ending, NoMemory>
    ensures report { IfOk result (λ ending. ReportsPasses names.now ops.now ending.text.items) }
    ensures status { IfOk result (λ ending. ending.status ≡ Done) }
{
    let grouping = grouping_of(alloc, ops)?;
    let text = passes_of(alloc, ops, &grouping, names)?;
    Ok(Ending {
        status: Status::Done,
        text,
    })
}

/// The fewest passes of these operations. Their certificate is checked before anything is said of it.
pub(crate) fn grouping_of(alloc: Global, ops: &PassOps) -> Result<Grouping, NoMemory>
    ensures { IfOk result (λ grouping. AreFewest ops.now grouping.starts grouping.windows) }
{
    let grouping = group(alloc, ops)?;
    let starts = grouping.starts.as_slice();
    if !check_certificate(ops, starts, grouping.windows.as_slice()) {
        unreachable!();
    }
    Ok(grouping)
}
