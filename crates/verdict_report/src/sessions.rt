//! What sessions were answered.
ghost use Rattle.std.specs.Prelude.{◌≡◌, ◌++◌, map, OnOk, OnErr};
ghost use Rattle.edit_journal.specs.Documents.{names_at};
ghost use Rattle.verdict_report.specs.LiveText.{numbered_reply, replies_text, session_text, sessions_text, told_reply, version_named};

use crate::replies::append_reply;
use edit_book::{Book, Reply};
use knit_base::{NoMemory, append_labelled, append_number};
use std::alloc::Global;

// The version whose names a reply is told with. One that names no carrier is told with any.
fn version_named(reply: &Reply) -> u32
    ensures { result ≡ version_named reply.now }
{
    match reply {
        Reply::Loop { version, .. } | Reply::Now { version, .. } => *version,
        _ => 0,
    }
}

// Appends a reply of the book. Its carriers have the names that the header had at its version.
fn append_told(alloc: Global, reply: &Reply, book: &Book, out: &mut Vec<u8>) -> Result<(), NoMemory>
    ensures { OnOk result (out.new.items ≡ out.old.items ++ told_reply (names_at book.now.opening book.now.entries) reply.now) }
{
    append_reply(alloc, reply, book.names_at(version_named(reply)), out)
}

/// Appends a reply of the book, with the lines that belong to it and without its number. Its carriers have the names that the header
/// had at its version. After `NoMemory` the buffer is as before.
pub fn report_told(
    alloc: Global,
    reply: &Reply,
    book: &Book,
    out: &mut Vec<u8>,
) -> Result<(), NoMemory>
    ensures ok { OnOk result (out.new.items ≡ out.old.items ++ told_reply (names_at book.now.opening book.now.entries) reply.now) }
    ensures err { OnErr result (out.new.items ≡ out.old.items) }
{
    let mut text = Vec::new(alloc);
    append_told(alloc, reply, book, &mut text)?;
    out.extend_from_slice(&text)?;
    Ok(())
}

// Appends a reply with its number.
fn append_numbered(
    alloc: Global,
    number: u64,
    reply: &Reply,
    book: &Book,
    out: &mut Vec<u8>,
) -> Result<(), NoMemory>
    ensures { OnOk result (out.new.items ≡ out.old.items ++ numbered_reply (names_at book.now.opening book.now.entries) number reply.now) }
{
    append_number(number, out)?;
    out.extend_from_slice(b" ")?;
    append_told(alloc, reply, book, out)
}

// Appends the replies to a session.
fn append_replies(
    alloc: Global,
    replies: &[Reply],
    book: &Book,
    out: &mut Vec<u8>,
) -> Result<(), NoMemory>
    ensures { OnOk result (out.new.items ≡ out.old.items ++ replies_text (names_at book.now.opening book.now.entries) 1 replies.now) }
{
    for (i, reply) in replies.iter().enumerate() {
        append_numbered(alloc, i as u64 + 1, reply, book, out)?;
    }
    Ok(())
}

// Appends a session's number and its replies.
fn append_session(
    alloc: Global,
    session: u64,
    replies: &[Reply],
    book: &Book,
    out: &mut Vec<u8>,
) -> Result<(), NoMemory>
    ensures { OnOk result (out.new.items ≡ out.old.items ++ session_text (names_at book.now.opening book.now.entries) session replies.now) }
{
    append_labelled("session ", session, out)?;
    out.extend_from_slice(b"\n")?;
    append_replies(alloc, replies, book, out)
}

/// Appends what each session was answered. The sessions are numbered from 0, the replies to each from 1.
pub(crate) fn append_sessions(
    alloc: Global,
    sessions: &[Vec<Reply>],
    book: &Book,
    out: &mut Vec<u8>,
) -> Result<(), NoMemory>
    ensures { OnOk result (out.new.items ≡ out.old.items ++ sessions_text (names_at book.now.opening book.now.entries) 0 (map (λ list. list.items) sessions.now)) }
{
    for (session, replies) in sessions.iter().enumerate() {
        append_session(alloc, session as u64, replies, book, out)?;
    }
    Ok(())
}
