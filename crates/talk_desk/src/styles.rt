//! What is said, as text or as JSON.
ghost use Rattle.std.specs.Prelude.{◌≡◌, ◌++◌, ℕ, List, OnOk, OnErr};
ghost use Rattle.talk_desk.specs.Styles.{IsFinalIn, IsOpenedIn, bad_line_in, step_in};

use edit_book::Book;
use edit_groups::GroupReply;
use knit_base::{NoMemory, Steps};
use reply_report::{
    Frame, json_bad_line, json_final, json_opened, json_step, say_bad_line, say_final, say_opened,
    say_step,
};
use script_reader::Cause;
use std::alloc::Global;
use std::sync::ledger::Ledger;

// Says what a step is answered. After `NoMemory` the buffer is as before.
pub(crate) fn say_step_in(
    alloc: Global,
    json: bool,
    frame: Frame,
    book: &Book,
    reply: &GroupReply,
    out: &mut Vec<u8>,
) -> Result<(), NoMemory>
    ensures ok { OnOk result (out.new.items ≡ out.old.items ++ step_in json book.now.opening book.now.entries frame reply.now) }
    ensures err { OnErr result (out.new.items ≡ out.old.items) }
{
    if json {
        json_step(alloc, frame, book, reply, out)
    } else {
        say_step(alloc, frame, book, reply, out)
    }
}

// Says that the line with this number is refused. After `NoMemory` the buffer is as before.
pub(crate) fn say_bad_line_in(
    alloc: Global,
    json: bool,
    line: u64,
    cause: Cause,
    out: &mut Vec<u8>,
) -> Result<(), NoMemory>
    ensures ok { OnOk result (out.new.items ≡ out.old.items ++ bad_line_in json line cause) }
{
    if json {
        json_bad_line(alloc, line, cause, out)
    } else {
        say_bad_line(alloc, line, cause, out)
    }
}

/// Says that the document stands. After `NoMemory` the buffer is as before.
pub fn say_opened_in(
    alloc: Global,
    json: bool,
    book: &Book,
    out: &mut Vec<u8>,
) -> Result<(), NoMemory>
    ensures ok { OnOk result ((text : List ℕ) × (out.new.items ≡ out.old.items ++ text) × IsOpenedIn json book.now.opening book.now.entries text) }
{
    if json {
        json_opened(alloc, book, out)
    } else {
        say_opened(alloc, book, out)
    }
}

// Says the version at the end, and the verdict there. After `NoMemory` the buffer is as before.
pub(crate) fn say_final_in<L: Ledger>(
    alloc: Global,
    json: bool,
    book: &Book,
    out: &mut Vec<u8>,
    steps: &mut Steps<L>,
) -> Result<(), NoMemory>
    ensures ok { OnOk result ((text : List ℕ) × (out.new.items ≡ out.old.items ++ text) × IsFinalIn json book.now.opening book.now.entries text) }
{
    if json {
        json_final(alloc, book, out, steps)
    } else {
        say_final(alloc, book, out, steps)
    }
}
