//! The members of a reply, as JSON, up to the end of the object.
ghost use Rattle.std.specs.Prelude.{◌≡◌, ◌++◌, [], None, false, OnOk};
ghost use Rattle.edit_book.specs.declared.reply.Reply.TheVariants as reply;
ghost use Rattle.edit_journal.specs.Documents.{names_at};
ghost use Rattle.serde_json.specs.Written.{members_text};
ghost use Rattle.verdict_report.specs.LiveText.{which_word};
ghost use Rattle.reply_report.specs.TalkJson.{reply_members, told_members};

use crate::Frame;
use crate::loops::append_fact;
use crate::members::{
    append_bare, append_block, append_count, append_frame, append_name, append_number_of,
    append_session_of, append_version, append_word, close,
};
use crate::values::{
    append_brief_member, append_broken_first, append_broken_member, append_lines,
    append_verdict_member,
};
use carriage_model::{Brief, LoopFact, Verdict};
use edit_book::{Book, LinePlace, Reply, Which};
use edit_journal::BlockName;
use knit_base::{Declared, Lines, NoMemory};
use std::alloc::Global;

/// Appends the members of a reply of the book. Its carriers have the names that the header had at its version. `broken` is where the
/// document is broken, and a reply that a refused group tells has no frame.
pub(crate) fn append_told(
    alloc: Global,
    broken: Option<LinePlace>,
    frame: Option<Frame>,
    reply: &Reply,
    book: &Book,
    out: &mut Vec<u8>,
) -> Result<(), NoMemory>
    ensures { OnOk result (out.new.items ≡ out.old.items ++ members_text false (told_members (names_at book.now.opening book.now.entries) broken frame reply.now)) }
{
    match reply {
        Reply::Accepted {
            version,
            block,
            brief,
        } => append_accepted(alloc, broken, frame, *version, *block, *brief, out),
        Reply::Shown {
            version,
            block,
            stamp,
            first,
            text,
        } => append_shown(frame, *version, *block, *stamp, *first, text, out),
        Reply::Loop { version, fact } => {
            append_loop(alloc, frame, *version, fact, book.names_at(*version), out)
        }
        Reply::Now {
            version,
            verdict,
            text,
        } => append_now(
            alloc,
            broken,
            frame,
            *version,
            verdict,
            book.names_at(*version),
            text.as_str(),
            out,
        ),
        Reply::Texts { .. } => close(out),
        Reply::Stale {
            version,
            block,
            seen,
            now,
        } => append_stale(frame, *version, *block, *seen, *now, out),
        Reply::Gone { version, block, at } => append_gone(frame, *version, *block, *at, out),
        Reply::NoBlock {
            version,
            block,
            ids,
        } => append_no_block(frame, *version, *block, *ids, out),
        Reply::Full {
            version,
            which,
            limit,
        } => append_full(frame, *version, *which, *limit, out),
        Reply::Unseen { name } => append_unseen(alloc, frame, *name, out),
        Reply::BlockLong { lines } => append_block_long(frame, *lines, out),
        Reply::NoMemory => append_bare(frame, "nomemory", out),
    }
}

fn append_accepted(
    alloc: Global,
    broken: Option<LinePlace>,
    frame: Option<Frame>,
    version: u32,
    block: u32,
    brief: Brief,
    out: &mut Vec<u8>,
) -> Result<(), NoMemory>
    ensures { OnOk result (out.new.items ≡ out.old.items ++ members_text false (reply_members [] broken frame (reply.Accepted version block brief))) }
{
    append_block(false, block, out)?;
    append_brief_member(alloc, true, brief, out)?;
    append_broken_member(broken, out)?;
    append_frame(true, frame, "accepted", out)?;
    append_version(version, out)
}

fn append_shown(
    frame: Option<Frame>,
    version: u32,
    block: u32,
    stamp: u32,
    first: u32,
    lines: &Lines,
    out: &mut Vec<u8>,
) -> Result<(), NoMemory>
    ensures { OnOk result (out.new.items ≡ out.old.items ++ members_text false (reply_members [] None frame (reply.Shown version block stamp first lines.now))) }
{
    append_block(false, block, out)?;
    append_count(true, "first", first, out)?;
    append_lines(lines, out)?;
    append_frame(true, frame, "shown", out)?;
    append_count(true, "stamp", stamp, out)?;
    append_version(version, out)
}

fn append_loop(
    alloc: Global,
    frame: Option<Frame>,
    version: u32,
    fact: &Option<LoopFact>,
    declared: &Declared,
    out: &mut Vec<u8>,
) -> Result<(), NoMemory>
    ensures { OnOk result (out.new.items ≡ out.old.items ++ members_text false (reply_members declared.now None frame (reply.Loop version fact.now))) }
{
    append_fact(alloc, fact, declared, out)?;
    append_frame(true, frame, "loop", out)?;
    append_version(version, out)
}

fn append_now(
    alloc: Global,
    broken: Option<LinePlace>,
    frame: Option<Frame>,
    version: u32,
    verdict: &Verdict,
    declared: &Declared,
    line: &str,
    out: &mut Vec<u8>,
) -> Result<(), NoMemory>
    ensures { OnOk result (out.new.items ≡ out.old.items ++ members_text false (reply_members declared.now broken frame (reply.Now version verdict.now line.now))) }
{
    append_broken_first(broken, out)?;
    append_frame(broken.is_some(), frame, "verdict", out)?;
    append_verdict_member(alloc, verdict, declared, line, out)?;
    append_version(version, out)
}

fn append_stale(
    frame: Option<Frame>,
    version: u32,
    block: u32,
    seen: u32,
    now: u32,
    out: &mut Vec<u8>,
) -> Result<(), NoMemory>
    ensures { OnOk result (out.new.items ≡ out.old.items ++ members_text false (reply_members [] None frame (reply.Stale version block seen now))) }
{
    append_block(false, block, out)?;
    append_count(true, "now", now, out)?;
    append_number_of(frame, out)?;
    append_word(true, "reply", "stale", out)?;
    append_count(true, "seen", seen, out)?;
    append_session_of(frame, out)?;
    append_version(version, out)
}

fn append_gone(
    frame: Option<Frame>,
    version: u32,
    block: u32,
    at: u32,
    out: &mut Vec<u8>,
) -> Result<(), NoMemory>
    ensures { OnOk result (out.new.items ≡ out.old.items ++ members_text false (reply_members [] None frame (reply.Gone version block at))) }
{
    append_count(false, "at", at, out)?;
    append_block(true, block, out)?;
    append_frame(true, frame, "gone", out)?;
    append_version(version, out)
}

/// Appends the members of what is said where no block has had an id.
pub(crate) fn append_no_block(
    frame: Option<Frame>,
    version: u32,
    block: u32,
    ids: u32,
    out: &mut Vec<u8>,
) -> Result<(), NoMemory>
    ensures { OnOk result (out.new.items ≡ out.old.items ++ members_text false (reply_members [] None frame (reply.NoBlock version block ids))) }
{
    append_block(false, block, out)?;
    append_count(true, "ids", ids, out)?;
    append_frame(true, frame, "noblock", out)?;
    append_version(version, out)
}

// The name of a count that has a limit.
fn which_word(which: Which) -> &'static str
    ensures { result.now ≡ which_word which }
{
    match which {
        Which::Entries => "entries",
        Which::Blocks => "blocks",
        Which::Lines => "lines",
    }
}

fn append_full(
    frame: Option<Frame>,
    version: u32,
    which: Which,
    limit: u32,
    out: &mut Vec<u8>,
) -> Result<(), NoMemory>
    ensures { OnOk result (out.new.items ≡ out.old.items ++ members_text false (reply_members [] None frame (reply.Full version which limit))) }
{
    append_count(false, "limit", limit, out)?;
    append_frame(true, frame, "full", out)?;
    append_count(true, "version", version, out)?;
    append_word(true, "which", which_word(which), out)?;
    close(out)
}

fn append_unseen(
    alloc: Global,
    frame: Option<Frame>,
    name: BlockName,
    out: &mut Vec<u8>,
) -> Result<(), NoMemory>
    ensures { OnOk result (out.new.items ≡ out.old.items ++ members_text false (reply_members [] None frame (reply.Unseen name))) }
{
    append_name(alloc, name, out)?;
    append_frame(true, frame, "unseen", out)?;
    close(out)
}

fn append_block_long(frame: Option<Frame>, lines: u32, out: &mut Vec<u8>) -> Result<(), NoMemory>
    ensures { OnOk result (out.new.items ≡ out.old.items ++ members_text false (reply_members [] None frame (reply.BlockLong lines))) }
{
    append_count(false, "lines", lines, out)?;
    append_frame(true, frame, "blocklong", out)?;
    close(out)
}
