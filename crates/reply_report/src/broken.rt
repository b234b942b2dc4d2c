//! Where a reply tells that the document is broken.
ghost use Rattle.std.specs.Prelude.{◌≡◌, ◌++◌, OnOk};
ghost use Rattle.reply_report.specs.TalkText.{broken_place, document_broken_text, line_of_brief, line_of_reply, line_of_step, line_of_verdict, line_place_text};

use crate::frame::append_two_counts;
use carriage_model::{Brief, Verdict};
use edit_book::{Book, LinePlace, Reply};
use edit_groups::GroupReply;
use knit_base::NoMemory;

/// The line of the file that a verdict in short tells to be broken.
pub(crate) fn line_of_brief(brief: Brief) -> Option<u32>
    ensures { result ≡ line_of_brief brief }
{
    match brief {
        Brief::Sound { .. } => None,
        Brief::Broken(fault) => Some(fault.line),
    }
}

/// The same of a whole verdict.
pub(crate) fn line_of_verdict(verdict: &Verdict) -> Option<u32>
    ensures { result ≡ line_of_verdict verdict.now }
{
    match verdict {
        Verdict::Sound(_) => None,
        Verdict::Broken(fault) => Some(fault.line),
    }
}

/// The same of a reply.
pub(crate) fn line_of_reply(reply: &Reply) -> Option<u32>
    ensures { result ≡ line_of_reply reply.now }
{
    match reply {
        Reply::Accepted { brief, .. } => line_of_brief(*brief),
        Reply::Now { verdict, .. } => line_of_verdict(verdict),
        _ => None,
    }
}

/// The same of what a step is answered.
pub(crate) fn line_of_step(reply: &GroupReply) -> Option<u32>
    ensures { result ≡ line_of_step reply.now }
{
    match reply {
        GroupReply::One(reply) => line_of_reply(reply),
        GroupReply::Done { brief, .. } => line_of_brief(*brief),
        GroupReply::Refused { reply, .. } => line_of_reply(reply),
        GroupReply::NoUndo | GroupReply::NoMemory => None,
    }
}

/// Where this line of the file stands, if the document is broken there.
pub(crate) fn broken_place(line: Option<u32>, book: &Book) -> Option<LinePlace>
    ensures { result ≡ broken_place book.now.opening book.now.entries line }
{
    match line {
        Some(line) => book.place_of(line),
        None => None,
    }
}

// Appends where a document is broken, if it is.
fn append_place(place: Option<LinePlace>, out: &mut Vec<u8>) -> Result<(), NoMemory>
    ensures { OnOk result (out.new.items ≡ out.old.items ++ line_place_text place) }
{
    match place {
        Some(place) => append_two_counts(
            "broken block ",
            u64::from(place.block),
            " line ",
            u64::from(place.line),
            out,
        ),
        None => Ok(()),
    }
}

/// Appends where the document is broken, if it is broken at a line.
pub(crate) fn append_broken(
    line: Option<u32>,
    book: &Book,
    out: &mut Vec<u8>,
) -> Result<(), NoMemory>
    ensures { OnOk result (out.new.items ≡ out.old.items ++ document_broken_text book.now.opening book.now.entries line) }
{
    append_place(broken_place(line, book), out)
}
