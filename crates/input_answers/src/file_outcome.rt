//! A file whose body was carried out while it was read.
ghost use Rattle.std.specs.Prelude.{◌≡◌, ◌≤◌, ◌-◌, Bool, [], List, ℕ, length, IfOk, MatchOption};
ghost use Rattle.knit_base.specs.Lines.{lines_of};
ghost use Rattle.knitout_reader.specs.declared.file_reader.FileReader.{FileReader};
ghost use Rattle.file_run.specs.declared.runner.Runner.{Runner};
ghost use Rattle.input_answers.specs.FileRuns.{HasRunInput, HasRunLines, IsRunOutcome, IsRunnerFor};

use crate::answers::{refusal_of_head, refusal_of_size};
use crate::ending::Ending;
use crate::outcome::Status;
use crate::plan::Plan;
use file_run::{Run, Runner, Taker};
use knit_base::NoMemory;
use knitout_reader::{FileReader, Head};
use std::alloc::Global;

/// What one carriage makes of a file with this head, and how many lines the file has.
#[derive(Drop)]
pub struct FileRun<T> {
    pub head: Head,
    pub lines: u32,
    pub run: Run<T>,
}

/// What becomes of a file whose body is to be checked.
#[derive(Drop)]
pub enum RunOutcome<T> {
    /// Its body was carried out.
    Ran(FileRun<T>),

    /// Its head is refused, or its body is too large: this is due.
    Refused(Ending),
}

/// Before the first line of a file, whose body is to be carried out on the machine that was chosen.
pub fn runner<T: Taker>(plan: &Plan, with_loops: bool) -> FileReader<Runner<T>>
    ensures none { HasRunLines T T.has [] result result }
    ensures begins { IsRunnerFor T with_loops plan.now.chosen result }
{
    FileReader::new(Runner::new(&plan.chosen.profile, with_loops))
}

/// What became of the file whose lines the reader has taken.
pub fn run_outcome<T: Taker>(
    alloc: Global,
    plan: &Plan,
    reader: FileReader<Runner<T>>,
) -> Result<RunOutcome<T>, NoMemory>
    requires { HasRunInput T T.has reader }
    ensures { IfOk result (λ outcome. (loops : Bool) (start : FileReader (Runner T)) (input : List ℕ)
        → IsRunnerFor T loops plan.now.chosen start
        → HasRunLines T T.has (lines_of input) start reader → IsRunOutcome T T.has loops plan.now.chosen input outcome) }
{
    let file = match reader.finish(alloc) {
        Ok(file) => file,
        Err(fault) => {
            let refusal = refusal_of_head(fault)?;
            let ending = Ending::refusal(alloc, refusal, Status::BadInput)?;
            return Ok(RunOutcome::Refused(ending));
        }
    };
    if let Some(refusal) = refusal_of_size(file.lines - file.head.lines, plan.chosen.block) {
        let ending = Ending::refusal(alloc, refusal, Status::TooLarge)?;
        return Ok(RunOutcome::Refused(ending));
    }
    let run = file.work.finish()?;
    Ok(RunOutcome::Ran(FileRun {
        head: file.head,
        lines: file.lines,
        run,
    }))
}
