//! A conversation whole.
ghost use Rattle.std.specs.Prelude.{◌≡◌, ◌<◌, ◌++◌, ℕ, All, List, [], length, Ok};
ghost use Rattle.knit_ports.specs.Pieces.{PiecesGoOn, Piece};
ghost use Rattle.input_answers.specs.Asked.{as_json};
ghost use Rattle.opening_reader.specs.HeardOpenings.{EndsOpening};
ghost use Rattle.opening_reader.specs.Openings.{AreOpeningLines};
ghost use Rattle.live_talk.specs.Served.{HasServeCause, IsTalked, Served};

use crate::begin::{Beginning, Begun, begin};
use crate::refusals::{line_refusal, refuse};
use input_answers::{Plan, Status};
use knit_base::NoMemory;
use knit_ports::{Ear, Talk, say_whole};
use opening_reader::{OpeningFault, OpeningText, hear_opening};
use std::alloc::Global;
use std::sync::Wait;
use std::thread::Threads;
use talk_desk::TalkDesk;
use talk_loop::{Desk, TalkFault, converse};
use verdict_report::Refusal;

/// Hears a conversation and answers it, until it is over: its opening is answered as soon as it is whole, and each line behind it before
/// more is heard. The result is the status with which the program is then to end:
/// - `BadInput` or `TooLarge`: the opening is refused, which was said.
/// - `ReadFault`: hearing failed, which was said behind all that was due.
/// - `WriteFault`: saying failed. A front of what was due was said, and nothing was heard after it.
/// - `NoMemory`: memory ran out for the opening or for what was to be said.
/// - `Done` otherwise: the input has ended, and the verdict was said.
pub fn serve<R: Threads + Wait + Sync, T: Talk>(
    rt: &R,
    alloc: Global,
    plan: &Plan,
    talk: &mut T,
) -> Status
    ensures served { (pieces : List Piece) × PiecesGoOn (T.told talk.old) (T.told talk.new) pieces × Served (as_json plan.now.command) plan.now.chosen pieces result }
    ensures cause { HasServeCause (T.faults talk.old) (T.faults talk.new) result }
{
    let Ok(mut ear) = Ear::new(alloc) else {
        return Status::NoMemory;
    };
    match hear_opening(alloc, talk, &mut ear) {
        Ok(opening) => answer_opening(rt, alloc, plan, opening, &mut ear, talk),
        Err(OpeningFault::At { line, cause }) => {
            refuse(alloc, line_refusal(line, cause), Status::BadInput, talk)
        }
        Err(OpeningFault::TooManyBytes) => {
            refuse(alloc, Refusal::TooManyBytes, Status::TooLarge, talk)
        }
        Err(OpeningFault::Failed) => refuse(alloc, Refusal::ReadFault, Status::ReadFault, talk),
        Err(OpeningFault::NoMemory) => Status::NoMemory,
    }
}

// Answers a conversation behind its opening text.
fn answer_opening<R: Threads + Wait + Sync, T: Talk>(
    rt: &R,
    alloc: Global,
    plan: &Plan,
    opening: OpeningText,
    ear: &mut Ear,
    talk: &mut T,
) -> Status
    requires opened { (lines : List (List ℕ)) × AreOpeningLines lines opening.kind opening.text }
    requires short { All (λ line. length line < 65535) opening.text }
    ensures served { (heard : List Piece) → EndsOpening heard ear.old.pending (Ok opening) → (more : List Piece) × PiecesGoOn (T.told talk.old) (T.told talk.new) more
        × Served (as_json plan.now.command) plan.now.chosen (heard ++ more) result }
    ensures cause { HasServeCause (T.faults talk.old) (T.faults talk.new) result }
{
    let first = u64::from(opening.lines) + 1;
    match begin(rt, alloc, plan, opening) {
        Ok(Beginning::Begun(begun)) => {
            let Begun { host, text } = begun;
            let mut desk = TalkDesk::new(rt, alloc, host, first);
            talk_on(rt, &mut desk, first, text, ear, talk)
        }
        Ok(Beginning::Refused(refusal, status)) => refuse(alloc, refusal, status, talk),
        Err(NoMemory) => Status::NoMemory,
    }
}

// Says this text, and answers what is then heard.
fn talk_on<R: Threads + Wait + Sync, T: Talk, D: Desk>(
    rt: &R,
    desk: &mut D,
    first: u64,
    mut text: Vec<u8>,
    ear: &mut Ear,
    talk: &mut T,
) -> Status
    requires first { first ≡ (D.asking (D.opening desk.old)).first }
    requires nothing { (D.asking (D.opening desk.old)).orders [] ≡ [] }
    requires begun { D.behind desk.old [] [] }
    ensures talked { (pieces : List Piece) × PiecesGoOn (T.told talk.old) (T.told talk.new) pieces × IsTalked (D.asking (D.opening desk.old)) (D.ends (D.opening desk.old)) text.items ear.old.pending pieces result }
    ensures cause { HasServeCause (T.faults talk.old) (T.faults talk.new) result }
{
    let alloc = *text.allocator();
    match say_whole(talk, &text) {
        Ok(()) => {}
        Err(_) => return Status::WriteFault,
    }
    match converse(rt, talk, ear, desk, first, &mut text) {
        Ok(()) => Status::Done,
        Err(TalkFault::Hearing) => refuse(alloc, Refusal::ReadFault, Status::ReadFault, talk),
        Err(TalkFault::Saying) => Status::WriteFault,
        Err(TalkFault::NoMemory) => Status::NoMemory,
    }
}
