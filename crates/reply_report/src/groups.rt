//! The report of a script of groups.
ghost use Rattle.std.specs.Prelude.{◌≡◌, ◌≤◌, ◌+◌, ◌++◌, map, IfOk, OnOk};
ghost use Rattle.edit_journal.specs.Documents.{names_at};
ghost use Rattle.reply_report.specs.GroupsText.{IsGroupsReport, done_text, numbered_step, refused_text, step_text, steps_session, steps_sessions, steps_text};

use carriage_model::Brief;
use edit_book::{Book, Reply};
use edit_groups::{GroupReplies, GroupReply};
use knit_base::{NoMemory, Steps, append_labelled, append_number};
use std::alloc::Global;
use std::sync::ledger::Ledger;
use verdict_report::{report_brief, report_end, report_told};

/// What each session was answered, the journal and the verdict on the document as it is. It costs a step at most.
pub fn groups_of<L: Ledger>(
    alloc: Global,
    book: &Book,
    replies: &GroupReplies,
    steps: &mut Steps<L>,
) -> Result<Vec<u8>, NoMemory>
    ensures text { IfOk result (λ text. IsGroupsReport book.now.opening book.now.entries replies.now text.items) }
    ensures steps { steps.new ≤ steps.old + 1 }
{
    let mut text = Vec::new(alloc);
    append_sessions(alloc, replies.as_slice(), book, &mut text)?;
    report_end(alloc, book, &mut text, steps)?;
    Ok(text)
}

// Appends what each session was answered. The sessions are numbered from 0, the replies to each from 1.
fn append_sessions(
    alloc: Global,
    sessions: &[Vec<GroupReply>],
    book: &Book,
    out: &mut Vec<u8>,
) -> Result<(), NoMemory>
    ensures { OnOk result (out.new.items ≡ out.old.items ++ steps_sessions (names_at book.now.opening book.now.entries) 0 (map (λ list. list.items) sessions.now)) }
{
    for (session, replies) in sessions.iter().enumerate() {
        append_session(alloc, session as u64, replies, book, out)?;
    }
    Ok(())
}

// Appends a session's number and its replies.
fn append_session(
    alloc: Global,
    session: u64,
    replies: &[GroupReply],
    book: &Book,
    out: &mut Vec<u8>,
) -> Result<(), NoMemory>
    ensures { OnOk result (out.new.items ≡ out.old.items ++ steps_session (names_at book.now.opening book.now.entries) session replies.now) }
{
    append_labelled("session ", session, out)?;
    out.extend_from_slice(b"\n")?;
    append_replies(alloc, replies, book, out)
}

// Appends the replies to a session.
fn append_replies(
    alloc: Global,
    replies: &[GroupReply],
    book: &Book,
    out: &mut Vec<u8>,
) -> Result<(), NoMemory>
    ensures { OnOk result (out.new.items ≡ out.old.items ++ steps_text (names_at book.now.opening book.now.entries) 1 replies.now) }
{
    for (i, reply) in replies.iter().enumerate() {
        append_numbered(alloc, i as u64 + 1, reply, book, out)?;
    }
    Ok(())
}

// Appends a reply with its number.
fn append_numbered(
    alloc: Global,
    number: u64,
    reply: &GroupReply,
    book: &Book,
    out: &mut Vec<u8>,
) -> Result<(), NoMemory>
    ensures { OnOk result (out.new.items ≡ out.old.items ++ numbered_step (names_at book.now.opening book.now.entries) number reply.now) }
{
    append_number(number, out)?;
    out.extend_from_slice(b" ")?;
    append_step(alloc, reply, book, out)
}

/// Appends what a step is answered.
pub(crate) fn append_step(
    alloc: Global,
    reply: &GroupReply,
    book: &Book,
    out: &mut Vec<u8>,
) -> Result<(), NoMemory>
    ensures { OnOk result (out.new.items ≡ out.old.items ++ step_text (names_at book.now.opening book.now.entries) reply.now) }
{
    match reply {
        GroupReply::One(reply) => report_told(alloc, reply, book, out),
        GroupReply::Done {
            version,
            from,
            brief,
        } => append_done(*version, *from, *brief, out),
        GroupReply::Refused { base, at, reply } => {
            append_refused(alloc, *base, *at, reply, book, out)
        }
        GroupReply::NoUndo => {
            out.extend_from_slice(b"noundo\n")?;
            Ok(())
        }
        GroupReply::NoMemory => {
            out.extend_from_slice(b"nomemory\n")?;
            Ok(())
        }
    }
}

// Appends the line of a group that was done.
fn append_done(version: u32, from: u32, brief: Brief, out: &mut Vec<u8>) -> Result<(), NoMemory>
    ensures { OnOk result (out.new.items ≡ out.old.items ++ done_text version from brief) }
{
    append_labelled("group version ", u64::from(version), out)?;
    append_labelled(" from ", u64::from(from), out)?;
    out.extend_from_slice(b" ")?;
    report_brief(brief, out)?;
    out.extend_from_slice(b"\n")?;
    Ok(())
}

// Appends the lines of a group that was refused.
fn append_refused(
    alloc: Global,
    base: u32,
    at: u32,
    reply: &Reply,
    book: &Book,
    out: &mut Vec<u8>,
) -> Result<(), NoMemory>
    ensures { OnOk result (out.new.items ≡ out.old.items ++ refused_text (names_at book.now.opening book.now.entries) base at reply.now) }
{
    append_labelled("refused version ", u64::from(base), out)?;
    append_labelled(" at ", u64::from(at), out)?;
    out.extend_from_slice(b" ")?;
    report_told(alloc, reply, book, out)
}
