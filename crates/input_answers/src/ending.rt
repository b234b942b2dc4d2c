//! What the program is to write, and how it then ends.
ghost use Rattle.std.specs.Prelude.{◌≡◌, IfOk};
ghost use Rattle.verdict_report.specs.Refusals.{refusal_text};
ghost use Rattle.input_answers.specs.Answers.{Refuses};
ghost use Rattle.input_answers.specs.Played.{nothing_played, played_by};

use crate::outcome::{Outcome, Status};
use knit_base::NoMemory;
use std::alloc::Global;
use verdict_report::{Refusal, report_refusal};

/// A text to be written, and the status with which the program then ends.
#[derive(Drop)]
pub struct Ending {
    pub status: Status,
    pub text: Vec<u8>,
}

impl Ending {
    /// The line that says why the program refuses, and this status.
    pub fn refusal(alloc: Global, refusal: Refusal, status: Status) -> Result<Ending, NoMemory>
        ensures { IfOk result (λ ending. (ending.text.items ≡ refusal_text refusal) × (ending.status ≡ status)) }
    {
        let mut text = Vec::new(alloc);
        report_refusal(alloc, refusal, &mut text)?;
        Ok(Ending { status, text })
    }
}

/// A text to be written, and what a run of the program then gives where the text is written.
#[derive(Drop)]
pub struct Answer {
    pub text: Vec<u8>,
    pub outcome: Outcome,
}

impl Answer {
    /// The same text and status, where no script was carried out.
    pub fn without_sessions(alloc: Global, ending: Ending) -> Answer
        ensures text { result.text.items ≡ ending.text.items }
        ensures status { result.outcome.status ≡ ending.status }
        ensures played { played_by result.outcome ≡ nothing_played }
    {
        let Ending { status, text } = ending;
        Answer {
            text,
            outcome: Outcome::without_sessions(alloc, status),
        }
    }

    /// The line that says why the program refuses, and this status.
    pub fn refusal(alloc: Global, refusal: Refusal, status: Status) -> Result<Answer, NoMemory>
        ensures { IfOk result (Refuses refusal status) }
    {
        let ending = Ending::refusal(alloc, refusal, status)?;
        Ok(Answer::without_sessions(alloc, ending))
    }
}
