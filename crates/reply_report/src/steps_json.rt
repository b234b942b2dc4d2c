//! What is said to a step of a session, as JSON.
ghost use Rattle.std.specs.Prelude.{◌≡◌, ◌++◌, [], codes, false, true, None, OnOk, OnErr};
ghost use Rattle.edit_groups.specs.declared.reply.GroupReply.TheVariants as group;
ghost use Rattle.edit_journal.specs.Documents.{names_at};
ghost use Rattle.serde_json.specs.Data.{Members, member, object};
ghost use Rattle.serde_json.specs.Written.{members_text};
ghost use Rattle.reply_report.specs.TalkJson.{step_json, step_members, told_members};

use crate::Frame;
use crate::broken::{broken_place, line_of_step};
use crate::frame::end;
use crate::members::{append_bare, append_count, append_frame, append_key, append_version, object};
use crate::replies_json::append_told;
use crate::values::{append_brief_member, append_broken_member};
use carriage_model::Brief;
use edit_book::{Book, LinePlace, Reply};
use edit_groups::GroupReply;
use knit_base::NoMemory;
use std::alloc::Global;

/// Appends what a step is answered, as an object on one line. After `NoMemory` the buffer is as before.
pub fn json_step(
    alloc: Global,
    frame: Frame,
    book: &Book,
    reply: &GroupReply,
    out: &mut Vec<u8>,
) -> Result<(), NoMemory>
    ensures ok { OnOk result (out.new.items ≡ out.old.items ++ step_json book.now.opening book.now.entries frame reply.now) }
    ensures err { OnErr result (out.new.items ≡ out.old.items) }
{
    let mut text = object(alloc)?;
    let broken = broken_place(line_of_step(reply), book);
    append_step(alloc, broken, frame, reply, book, &mut text)?;
    end(text, out)
}

// Appends the members of what a step is answered.
fn append_step(
    alloc: Global,
    broken: Option<LinePlace>,
    frame: Frame,
    reply: &GroupReply,
    book: &Book,
    out: &mut Vec<u8>,
) -> Result<(), NoMemory>
    ensures { OnOk result (out.new.items ≡ out.old.items ++ members_text false (step_members (names_at book.now.opening book.now.entries) broken frame reply.now)) }
{
    match reply {
        GroupReply::One(reply) => append_told(alloc, broken, Some(frame), reply, book, out),
        GroupReply::Done {
            version,
            from,
            brief,
        } => append_done(alloc, broken, frame, *version, *from, *brief, out),
        GroupReply::Refused { base, at, reply } => {
            append_refused(alloc, broken, frame, *base, *at, reply, book, out)
        }
        GroupReply::NoUndo => append_bare(Some(frame), "noundo", out),
        GroupReply::NoMemory => append_bare(Some(frame), "nomemory", out),
    }
}

// Appends the members of a group that was done.
fn append_done(
    alloc: Global,
    broken: Option<LinePlace>,
    frame: Frame,
    version: u32,
    from: u32,
    brief: Brief,
    out: &mut Vec<u8>,
) -> Result<(), NoMemory>
    ensures { OnOk result (out.new.items ≡ out.old.items ++ members_text false (step_members (λ v. []) broken frame (group.Done version from brief))) }
{
    append_brief_member(alloc, false, brief, out)?;
    append_broken_member(broken, out)?;
    append_count(true, "from", from, out)?;
    append_frame(true, Some(frame), "group", out)?;
    append_version(version, out)
}

// Appends the members of a group that was refused.
fn append_refused(
    alloc: Global,
    broken: Option<LinePlace>,
    frame: Frame,
    base: u32,
    at: u32,
    reply: &Reply,
    book: &Book,
    out: &mut Vec<u8>,
) -> Result<(), NoMemory>
    ensures { OnOk result (out.new.items ≡ out.old.items ++ members_text false (step_members (names_at book.now.opening book.now.entries) broken frame (group.Refused base at reply.now))) }
{
    append_count(false, "at", at, out)?;
    append_frame(true, Some(frame), "refused", out)?;
    append_inner(alloc, broken, reply, book, out)?;
    append_version(base, out)
}

// Appends the reply that a refused group tells.
fn append_inner(
    alloc: Global,
    broken: Option<LinePlace>,
    reply: &Reply,
    book: &Book,
    out: &mut Vec<u8>,
) -> Result<(), NoMemory>
    ensures { OnOk result ((rest : Members) → out.new.items ++ members_text true rest ≡ out.old.items ++ members_text true (member (codes "told") (object (told_members (names_at book.now.opening book.now.entries) broken None reply.now)) rest)) }
{
    append_key(true, "told", out)?;
    out.extend_from_slice(b"{")?;
    append_told(alloc, broken, None, reply, book, out)
}
