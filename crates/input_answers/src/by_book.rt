//! The verdict on a file by blocks: the lines behind its head are the opening of a document, as those of a script are, and the
//! verdict is that of the book. The loops are asked for line by line.
ghost use Rattle.std.specs.Prelude.{◌≡◌, ◌+◌, ◌<◌, ◌^◌, ◌∷◌, [], ◌++◌, ℕ, List, IfOk, OnOk, length};
ghost use Rattle.std.specs.Option.{option_to_list};
ghost use Rattle.carriage_model.specs.declared.verdict.LoopFact.{LoopFact};
ghost use Rattle.carriage_model.specs.Loops.{fact_of};
ghost use Rattle.edit_journal.specs.Documents.{body as document_lines};
ghost use Rattle.edit_book.specs.Books.{document};
ghost use Rattle.edit_book.specs.Verdicts.{setting_of};
ghost use Rattle.file_run.specs.Judgements.{IsJudgement, IsJudgementOn};
ghost use Rattle.input_answers.specs.BookLoops.{AreLoopsOn};
ghost use Rattle.file_run.specs.Bodies.{body_of};
ghost use Rattle.input_answers.specs.Due.{BodyFits};

use crate::body::Body;
use crate::opening::open;
use crate::plan::Plan;
use carriage_model::{Facts, LoopFact};
use edit_book::Book;
use file_run::Judgement;
use knit_base::{NoMemory, Steps};
use std::alloc::Global;
use std::marker::Brand;
use std::sync::ledger::{Blank, Ledger};
use std::thread::Threads;

/// What the lines behind the head make, by blocks of so many lines as the plan says.
pub fn judge_by_book<R: Threads + Sync>(
    rt: &R,
    alloc: Global,
    with_loops: bool,
    plan: &Plan,
    body: &Body,
) -> Result<Judgement, NoMemory>
    requires { BodyFits plan.now.chosen.block (length (body_of body.now.lines)) }
    ensures { IfOk result (IsJudgement with_loops plan.now.chosen.profile body.now.head.declared body.now.lines) }
{
    judge_counted::<Brand, R>(rt, Blank::new(1), alloc, with_loops, plan, body)
}

// The same with a counter of steps, which no contract here reads.
fn judge_counted<L: Ledger, R: Threads + Sync>(
    rt: &R,
    blank: Blank,
    alloc: Global,
    with_loops: bool,
    plan: &Plan,
    body: &Body,
) -> Result<Judgement, NoMemory>
    requires name { blank.name ≡ L.name }
    requires parts { blank.parts ≡ L.parts }
    requires some { 0 < L.parts }
    requires fits { BodyFits plan.now.chosen.block (length (body_of body.now.lines)) }
    ensures { IfOk result (IsJudgement with_loops plan.now.chosen.profile body.now.head.declared body.now.lines) }
{
    let mut steps = Steps::<L>::start(rt, blank);
    // (that the lines can be counted, the prover has from this call)
    let _lines = body.lines.len();
    let opened = open(rt, alloc, plan, &body.lines, &body.head, &mut steps)?;
    judge_document(alloc, with_loops, &opened.book, body.len(), &mut steps)
}

// What the lines of the book's document make, of which there are so many.
fn judge_document<L: Ledger>(
    alloc: Global,
    with_loops: bool,
    book: &Book,
    count: u32,
    steps: &mut Steps<L>,
) -> Result<Judgement, NoMemory>
    requires count { count ≡ length (document_lines (document book.now)) }
    requires few { book.now.opening.setting.first + count < 2 ^ 32 }
    ensures { IfOk result (IsJudgementOn with_loops (setting_of book.now.opening (document book.now)) (document_lines (document book.now))) }
{
    let verdict = book.whole_verdict()?;
    if !with_loops {
        return Ok(Judgement {
            verdict,
            loops: None,
        });
    }
    let loops = loops_of(alloc, book, count, steps)?;
    Ok(Judgement {
        verdict,
        loops: Some(loops),
    })
}

// The loops that the lines make, of which there are so many.
fn loops_of<L: Ledger>(
    alloc: Global,
    book: &Book,
    count: u32,
    steps: &mut Steps<L>,
) -> Result<Facts, NoMemory>
    requires count { count ≡ length (document_lines (document book.now)) }
    requires few { book.now.opening.setting.first + count < 2 ^ 32 }
    ensures { IfOk result (λ loops. (made : List LoopFact)
        → AreLoopsOn (setting_of book.now.opening (document book.now)) (document_lines (document book.now)) made → loops ≡ made) }
{
    let first = book.setting().first;
    let mut loops = Facts::new(alloc);
    for i in 0..count {
        add_loop(book, first + i, &mut loops, steps)?;
    }
    Ok(loops)
}

// Appends the loop of the line with this number in the file, if it makes one.
fn add_loop<L: Ledger>(
    book: &Book,
    line: u32,
    loops: &mut Facts,
    steps: &mut Steps<L>,
) -> Result<(), NoMemory>
    ensures { OnOk result ((made : List LoopFact) → AreLoopsOn (setting_of book.now.opening (document book.now)) (document_lines (document book.now)) made
        → loops.new ≡ loops.old ++ option_to_list (fact_of line made)) }
{
    match book.fact_at(line, steps)? {
        None => Ok(()),
        Some(fact) => push_fact(&fact, loops),
    }
}

// Appends a copy of the loop.
fn push_fact(fact: &LoopFact, loops: &mut Facts) -> Result<(), NoMemory>
    ensures { OnOk result (loops.new ≡ loops.old ++ fact.now ∷ []) }
{
    if loops.len() == u32::MAX {
        return Err(NoMemory);
    }
    let yarns = fact.yarns.as_slice();
    let through = fact.through.as_slice();
    loops.push(fact.line, fact.needle, fact.dir, yarns, through)
}
