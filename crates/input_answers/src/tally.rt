//! What is due for a saved text of which a tally is asked: what some blocks of its last version come to, or the first bad line.
ghost use Rattle.std.specs.Prelude.{◌≡◌, ◌↔◌, ◌<◌, ◌≤◌, true, IfOk, length};
ghost use Rattle.tally_tree.specs.Docs.{HasBlocks, IsRange, doc_view, setting_now};
ghost use Rattle.tally_tree.specs.Tallies.{TallyCounts};
ghost use Rattle.input_answers.specs.DueTally.{DueTally, IsDueRange};
ghost use Rattle.reply_report.specs.TallyText.{tally_text};

use crate::ending::Ending;
use crate::outcome::Status;
use crate::replay::{refusal_of_journal, saved_in};
use edit_book::Outline;
use journal_file::{JournalFault, outline_of};
use knit_base::{NoMemory, Steps};
use reply_report::tally_of;
use std::alloc::Global;
use std::marker::Brand;
use std::sync::ledger::{Blank, Ledger};
use std::thread::Threads;
use tally_tree::TallyDoc;
use verdict_report::Refusal;

/// What is due for a saved text that was read whole, of whose last version the blocks from one place to another are asked for.
pub fn answer_tally<R: Threads>(
    rt: &R,
    alloc: Global,
    from: u32,
    to: u32,
    input: Vec<u8>,
) -> Result<Ending, NoMemory>
    requires { length input.items ≤ 16777216 }
    ensures { IfOk result (λ ending. DueTally from to input.items ending.text.items ending.status) }
{
    match saved_in(alloc, input) {
        Ok(saved) => {
            let outline = outline_of(alloc, saved)?;
            tally_at_end::<Brand, R>(rt, Blank::new(1), from, to, outline)
        }
        Err(JournalFault::At { line, cause }) => {
            Ending::refusal(alloc, refusal_of_journal(line, cause), Status::BadInput)
        }
        Err(JournalFault::NoMemory) => Err(NoMemory),
    }
}

// The tally of the blocks, if they are there, with a counter of steps, which no contract here reads. The texts of the last version alone are counted.
fn tally_at_end<L: Ledger, R: Threads>(
    rt: &R,
    blank: Blank,
    from: u32,
    to: u32,
    outline: Outline,
) -> Result<Ending, NoMemory>
    requires name { blank.name ≡ L.name }
    requires parts { blank.parts ≡ L.parts }
    requires some { 0 < L.parts }
    ensures { IfOk result (λ ending. IsDueRange (doc_view outline) from to ending.text.items ending.status) }
{
    let mut steps = Steps::<L>::start(rt, blank);
    let alloc = outline.alloc();
    if !has_blocks(&outline, from, to) {
        return Ending::refusal(alloc, Refusal::BadRange, Status::BadInput);
    }
    let doc = TallyDoc::of_outline(outline, &mut steps)?;
    let text = report_of_range(alloc, &doc, from, to, &mut steps)?;
    Ok(Ending {
        status: Status::Done,
        text,
    })
}

// Whether there are blocks at these places.
fn has_blocks(outline: &Outline, from: u32, to: u32) -> bool
    ensures { (result ≡ true) ↔ HasBlocks (doc_view outline.now) from to }
{
    from <= to && to <= outline.len()
}

// The report of blocks that are there.
fn report_of_range<L: Ledger>(
    alloc: Global,
    doc: &TallyDoc,
    from: u32,
    to: u32,
    steps: &mut Steps<L>,
) -> Result<Vec<u8>, NoMemory>
    requires { HasBlocks doc.now from to }
    ensures { IfOk result (λ text. (v : TallyCounts) × IsRange doc.now from to v × (text.items ≡ tally_text from to (setting_now doc.now).declared v)) }
{
    let tally = doc.range(from, to, steps)?;
    tally_of(alloc, from, to, &tally, &doc.setting().declared)
}
