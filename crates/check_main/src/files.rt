//! Files that are answered while they are read.
ghost use Rattle.std.specs.Prelude.{◌≡◌, ◌+◌, [], List, ℕ, true, IfOk, OnErr};
ghost use Rattle.knit_base.specs.Lines.{lines_of};
ghost use Rattle.knit_ports.specs.Whole.{GaveAtMost};
ghost use Rattle.command_words.specs.declared.command.Command.{Command};
ghost use Rattle.check_main.specs.Calls.{IsDueFor, IsFileOutcome};
ghost use Rattle.check_main.specs.Top.{source_use};

use command_words::Command;
use file_run::Nothing;
use input_answers::{
    Answer, Plan, Status, Style, answer_check, answer_passes, answer_text, refusal_of_lines,
    runner, writer,
};
use knit_base::NoMemory;
use knit_ports::{FileReading, INPUT_LIMIT, InputFault, Source, read_lines};
use line_cutter::LineTaker;
use pass_grouping::Tally;
use std::alloc::Global;
use verdict_report::Refusal;

// What the reading of a file comes to.
#[derive(Drop)]
enum FileOutcome<T> {
    // All its lines were taken.
    Whole(T),
    // The answer that is due because a read failed, a line is bad or the input is too large.
    Refused(Answer),
}

/// The verdict on the file that the source gives.
pub(crate) fn check_source<S: Source>(
    alloc: Global,
    style: Style,
    plan: &Plan,
    source: &mut S,
) -> Result<Answer, NoMemory>
    ensures ok { IfOk result (IsDueFor (Command.Check style.loops style.json) plan.now.chosen (source_use S.left S.faults source.old source.new)) }
    ensures err { OnErr result (GaveAtMost (INPUT_LIMIT + 1) (S.left source.old) (S.left source.new)) }
{
    let reader = runner::<Nothing>(plan, style.loops);
    let outcome = read_file(alloc, source, reader)?;
    match outcome {
        FileOutcome::Whole(reader) => {
            let ending = answer_check(alloc, style, plan, reader)?;
            Ok(Answer::without_sessions(alloc, ending))
        }
        FileOutcome::Refused(answer) => Ok(answer),
    }
}

/// The passes of the file that the source gives.
pub(crate) fn passes_source<S: Source>(
    alloc: Global,
    plan: &Plan,
    source: &mut S,
) -> Result<Answer, NoMemory>
    ensures ok { IfOk result (IsDueFor Command.Passes plan.now.chosen (source_use S.left S.faults source.old source.new)) }
    ensures err { OnErr result (GaveAtMost (INPUT_LIMIT + 1) (S.left source.old) (S.left source.new)) }
{
    let reader = runner::<Tally>(plan, false);
    let outcome = read_file(alloc, source, reader)?;
    match outcome {
        FileOutcome::Whole(reader) => {
            let ending = answer_passes(alloc, plan, reader)?;
            Ok(Answer::without_sessions(alloc, ending))
        }
        FileOutcome::Refused(answer) => Ok(answer),
    }
}

/// The canonical text of the file that the source gives.
pub(crate) fn text_source<S: Source>(
    alloc: Global,
    plan: &Plan,
    source: &mut S,
) -> Result<Answer, NoMemory>
    ensures ok { IfOk result (IsDueFor Command.Text plan.now.chosen (source_use S.left S.faults source.old source.new)) }
    ensures err { OnErr result (GaveAtMost (INPUT_LIMIT + 1) (S.left source.old) (S.left source.new)) }
{
    // (the text of a file has about as many bytes as the file)
    let reader = writer(alloc, plan, INPUT_LIMIT + 1);
    let outcome = read_file(alloc, source, reader)?;
    match outcome {
        FileOutcome::Whole(reader) => {
            let ending = answer_text(alloc, plan, reader)?;
            Ok(Answer::without_sessions(alloc, ending))
        }
        FileOutcome::Refused(answer) => Ok(answer),
    }
}

// Reads a file to its end, and hands its lines to the taker while they come.
fn read_file<S: Source, T: LineTaker>(
    alloc: Global,
    source: &mut S,
    taker: T,
) -> Result<FileOutcome<T>, NoMemory>
    requires none { T.took [] taker taker }
    ensures ok { IfOk result (IsFileOutcome T T.took taker (source_use S.left S.faults source.old source.new)) }
    ensures err { OnErr result (GaveAtMost (INPUT_LIMIT + 1) (S.left source.old) (S.left source.new)) }
{
    match read_lines(alloc, source, taker) {
        Ok(FileReading::Whole(taker)) => Ok(FileOutcome::Whole(taker)),
        Ok(FileReading::Refused(fault)) => {
            let answer = Answer::refusal(alloc, refusal_of_lines(fault)?, Status::BadInput)?;
            Ok(FileOutcome::Refused(answer))
        }
        Ok(FileReading::TooLong) => {
            let answer = Answer::refusal(alloc, Refusal::TooManyBytes, Status::TooLarge)?;
            Ok(FileOutcome::Refused(answer))
        }
        Err(InputFault::Failed) => {
            let answer = Answer::refusal(alloc, Refusal::ReadFault, Status::ReadFault)?;
            Ok(FileOutcome::Refused(answer))
        }
        Err(InputFault::NoMemory) => Err(NoMemory),
    }
}
