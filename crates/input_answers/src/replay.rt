//! What is due for a saved text that was read whole: the version at its end and the verdict on its document, or the first bad line.
ghost use Rattle.std.specs.Prelude.{◌≡◌, ◌<◌, ◌≤◌, IfErr, IfOk, length};
ghost use Rattle.journal_file.specs.Faults.{IsBadJournal, IsSavedTextRefused};
ghost use Rattle.journal_file.specs.SavedParts.{IsLawfulSaved, opening_of_saved};
ghost use Rattle.journal_file.specs.Spelling.{saved_spelling};
ghost use Rattle.verdict_report.specs.LiveText.{IsFinalReport};
ghost use Rattle.input_answers.specs.DueReplay.{DueReplay, journal_refusal};

use crate::ending::Ending;
use crate::outcome::Status;
use journal_file::{JournalCause, JournalFault, Saved, read_journal, reopen};
use knit_base::{NoMemory, Steps};
use std::alloc::Global;
use std::marker::Brand;
use std::mem;
use std::sync::ledger::{Blank, Ledger};
use std::thread::Threads;
use verdict_report::{Refusal, final_of};

/// What is due for a saved text that was read whole.
pub fn answer_replay<R: Threads + Sync>(
    rt: &R,
    alloc: Global,
    input: Vec<u8>,
) -> Result<Ending, NoMemory>
    requires { length input.items ≤ 16777216 }
    ensures { IfOk result (λ ending. DueReplay input.items ending.text.items ending.status) }
{
    match saved_in(alloc, input) {
        Ok(saved) => {
            let text = final_report::<Brand, R>(rt, Blank::new(1), alloc, saved)?;
            Ok(Ending {
                status: Status::Done,
                text,
            })
        }
        Err(JournalFault::At { line, cause }) => {
            Ending::refusal(alloc, refusal_of_journal(line, cause), Status::BadInput)
        }
        Err(JournalFault::NoMemory) => Err(NoMemory),
    }
}

/// The saved text that the bytes are, which are then let go.
pub fn saved_in(alloc: Global, input: Vec<u8>) -> Result<Saved, JournalFault>
    requires { length input.items ≤ 16777216 }
    ensures spelt { IfOk result (λ saved. input.items ≡ saved_spelling saved.head saved.profile saved.blocks saved.journal.entries) }
    ensures lawful { IfOk result (λ saved. IsLawfulSaved saved.head saved.profile saved.blocks saved.journal.entries) }
    ensures bad { IfErr result (IsBadJournal input.items) }
    ensures refused { IfErr result (IsSavedTextRefused input.items) }
{
    read_journal(alloc, &input)
}

/// What is said of a bad line.
pub fn refusal_of_journal(line: u32, cause: JournalCause) -> Refusal
    ensures { result ≡ journal_refusal line cause }
{
    match cause {
        JournalCause::BadLine => Refusal::BadJournal(line),
        JournalCause::NoFit => Refusal::NoFit(line),
    }
}

// The version at the end, and the verdict on its document, with a counter of steps, which no contract here reads.
fn final_report<L: Ledger, R: Threads + Sync>(
    rt: &R,
    blank: Blank,
    alloc: Global,
    saved: Saved,
) -> Result<Vec<u8>, NoMemory>
    requires name { blank.name ≡ L.name }
    requires parts { blank.parts ≡ L.parts }
    requires some { 0 < L.parts }
    requires lawful { IsLawfulSaved saved.head saved.profile saved.blocks saved.journal.entries }
    ensures { IfOk result (λ text. IsFinalReport (opening_of_saved saved.head saved.profile saved.blocks) saved.journal.entries text.items) }
{
    let mut steps = Steps::<L>::start(rt, blank);
    let book = reopen(rt, alloc, saved)?;
    let text = final_of(alloc, &book, &mut steps)?;
    // As `leave_journal` does: the program is about to end.
    mem::forget(book);
    Ok(text)
}
