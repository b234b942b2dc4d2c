//! What is said where there is nothing to go on with.
ghost use Rattle.std.specs.Prelude.{◌≡◌, List};
ghost use Rattle.knit_ports.specs.Pieces.{PiecesGoOn, Piece};
ghost use Rattle.live_talk.specs.Begins.{HasEndCause};
ghost use Rattle.live_talk.specs.Served.{IsEnded, line_refusal};
ghost use Rattle.verdict_report.specs.Refusals.{refusal_text};

use input_answers::Status;
use knit_base::NoMemory;
use knit_ports::{Talk, say_whole};
use script_reader::Cause;
use std::alloc::Global;
use verdict_report::{Refusal, report_refusal};

/// What is said of a line that can't stand where it does.
pub(crate) fn line_refusal(line: u32, cause: Cause) -> Refusal
    ensures { result ≡ line_refusal line cause }
{
    match cause {
        Cause::LineLong => Refusal::LineLong(line),
        Cause::NotUtf8 => Refusal::NotUtf8(line),
        _ => Refusal::BadScript(line, cause),
    }
}

/// Says why there is nothing to go on with, and tells how the program then ends: by this status, or because saying failed, or for want of
/// memory, and then nothing was said.
pub(crate) fn refuse<T: Talk>(
    alloc: Global,
    refusal: Refusal,
    status: Status,
    talk: &mut T,
) -> Status
    ensures said { (pieces : List Piece) × PiecesGoOn (T.told talk.old) (T.told talk.new) pieces × IsEnded (refusal_text refusal) status pieces result }
    ensures cause { HasEndCause status (T.faults talk.old) (T.faults talk.new) result }
{
    let mut out = Vec::new(alloc);
    let Ok(()) = report_refusal(alloc, refusal, &mut out) else {
        return Status::NoMemory;
    };
    match say_whole(talk, &out) {
        Ok(()) => status,
        Err(_) => Status::WriteFault,
    }
}
