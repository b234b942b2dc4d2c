//! What is due for a file whose lines were taken while it was read.
ghost use Rattle.std.specs.Prelude.{◌≡◌, ◌≤◌, [], List, ℕ, false, length, unwrap_or, IfOk};
ghost use Rattle.knit_base.specs.Lines.{lines_of};
ghost use Rattle.knitout_reader.specs.declared.file_reader.FileReader.{FileReader};
ghost use Rattle.knitout_writer.specs.declared.text_writer.TextWriter.{TextWriter};
ghost use Rattle.file_run.specs.declared.runner.Runner.{Runner};
ghost use Rattle.file_run.specs.declared.taker.Nothing.{Nothing};
ghost use Rattle.file_run.specs.Runs.{HasTakenAny};
ghost use Rattle.pass_grouping.specs.declared.tally.Tally.{Tally};
ghost use Rattle.pass_grouping.specs.Tallies.{HasTallied};
ghost use Rattle.command_words.specs.declared.command.Command.{Command};
ghost use Rattle.input_answers.specs.Due.{Due};
ghost use Rattle.input_answers.specs.FileRuns.{HasRunInput, HasRunLines, HasWrittenInput, HasWrittenLines, IsRunnerFor, IsWriterFor};

use crate::answers::refusal_of_head;
use crate::ending::Ending;
use crate::file_outcome::{RunOutcome, run_outcome};
use crate::judge::{Style, report};
use crate::outcome::Status;
use crate::passes::passes_of_run;
use crate::plan::Plan;
use command_words::Command;
use file_run::{Nothing, Runner};
use knit_base::{NoMemory, Text};
use knitout_reader::FileReader;
use knitout_writer::TextWriter;
use pass_grouping::Tally;
use std::alloc::Global;

/// What is due for a file whose verdict is asked for, and whose lines the reader has taken.
pub fn answer_check(
    alloc: Global,
    style: Style,
    plan: &Plan,
    reader: FileReader<Runner<Nothing>>,
) -> Result<Ending, NoMemory>
    requires { HasRunInput Nothing HasTakenAny reader }
    ensures { IfOk result (λ ending. (start : FileReader (Runner Nothing)) (input : List ℕ)
        → IsRunnerFor Nothing style.loops plan.now.chosen start
        → HasRunLines Nothing HasTakenAny (lines_of input) start reader
        → Due (Command.Check style.loops style.json) plan.now.chosen input ending.text.items ending.status) }
{
    let outcome = run_outcome(alloc, plan, reader)?;
    match outcome {
        RunOutcome::Ran(file) => {
            let broken = text_of(&file.run.broken);
            let told = report(
                alloc,
                style.json,
                &file.run.judgement,
                &file.head.declared,
                broken,
            )?;
            Ok(told)
        }
        RunOutcome::Refused(ending) => Ok(ending),
    }
}

/// What is due for a file whose passes are asked for, and whose lines the reader has taken.
pub fn answer_passes(
    alloc: Global,
    plan: &Plan,
    reader: FileReader<Runner<Tally>>,
) -> Result<Ending, NoMemory>
    requires { HasRunInput Tally HasTallied reader }
    ensures { IfOk result (λ ending. (start : FileReader (Runner Tally)) (input : List ℕ)
        → IsRunnerFor Tally false plan.now.chosen start
        → HasRunLines Tally HasTallied (lines_of input) start reader
        → Due Command.Passes plan.now.chosen input ending.text.items ending.status) }
{
    let outcome = run_outcome(alloc, plan, reader)?;
    match outcome {
        RunOutcome::Ran(file) => {
            let told = passes_of_run(alloc, file)?;
            Ok(told)
        }
        RunOutcome::Refused(ending) => Ok(ending),
    }
}

/// Before the first line of a file whose canonical text is asked for. There is room for so many bytes of it, where there is memory for them.
pub fn writer(alloc: Global, plan: &Plan, room: usize) -> FileReader<TextWriter>
    ensures none { HasWrittenLines [] result result }
    ensures begins { IsWriterFor plan.now.chosen result }
{
    FileReader::new(TextWriter::new(alloc, &plan.chosen.profile, room))
}

/// What is due for a file whose canonical text is asked for, and whose lines the reader has taken.
pub fn answer_text(
    alloc: Global,
    plan: &Plan,
    reader: FileReader<TextWriter>,
) -> Result<Ending, NoMemory>
    requires { HasWrittenInput reader }
    ensures { IfOk result (λ ending. (start : FileReader TextWriter) (input : List ℕ) → IsWriterFor plan.now.chosen start
        → HasWrittenLines (lines_of input) start reader → Due Command.Text plan.now.chosen input ending.text.items ending.status) }
{
    match reader.finish(alloc) {
        Ok(file) => {
            let text = file.work.into_text();
            Ok(Ending {
                status: Status::Done,
                text,
            })
        }
        Err(fault) => {
            let refusal = refusal_of_head(fault)?;
            let ending = Ending::refusal(alloc, refusal, Status::BadInput)?;
            Ok(ending)
        }
    }
}

// The text, or none where there is no line.
pub(crate) fn text_of(line: &Option<Text>) -> &str
    ensures { result.now ≡ unwrap_or line.now [] }
{
    match line {
        Some(text) => text.as_str(),
        None => "",
    }
}
