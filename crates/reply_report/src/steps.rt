//! What is said to a step of a session.
ghost use Rattle.std.specs.Prelude.{◌≡◌, ◌++◌, OnOk, OnErr};
ghost use Rattle.reply_report.specs.TalkText.{step_said};

use crate::Frame;
use crate::broken::{append_broken, line_of_step};
use crate::frame::{begin, end};
use crate::groups::append_step;
use edit_book::Book;
use edit_groups::GroupReply;
use knit_base::NoMemory;
use std::alloc::Global;

/// Appends what a step is answered, and where the book's document is broken, if the reply tells so. After `NoMemory` the buffer is as
/// before. What a question is answered in the words of a reply is said so, too.
pub fn say_step(
    alloc: Global,
    frame: Frame,
    book: &Book,
    reply: &GroupReply,
    out: &mut Vec<u8>,
) -> Result<(), NoMemory>
    ensures ok { OnOk result (out.new.items ≡ out.old.items ++ step_said book.now.opening book.now.entries frame reply.now) }
    ensures err { OnErr result (out.new.items ≡ out.old.items) }
{
    let mut text = begin(alloc, frame)?;
    append_step(alloc, reply, book, &mut text)?;
    append_broken(line_of_step(reply), book, &mut text)?;
    end(text, out)
}
