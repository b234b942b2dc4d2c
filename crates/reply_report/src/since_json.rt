//! The entries behind a version, as JSON.
ghost use Rattle.std.specs.Prelude.{◌≡◌, ◌∷◌, ◌+◌, ◌<◌, ◌≤◌, ◌++◌, [], codes, drop, false, length, map, true, OnOk, OnErr};
ghost use Rattle.serde_json.specs.Data.{Members, array, member, object, string};
ghost use Rattle.serde_json.specs.View.{items_of};
ghost use Rattle.serde_json.specs.Written.{compact_text, items_text, members_text};
ghost use Rattle.verdict_report.specs.VerdictJson.{list_value};
ghost use Rattle.reply_report.specs.TalkJson.{add_members, anchor_value, behind_members, cut_members, edit_members, entry_value, head_members, value_json_line, numbered_values, put_members, seen_members, since_members};

use crate::Frame;
use crate::frame::end;
use crate::members::{
    append_comma, append_count, append_frame, append_key, append_version, append_word, close,
    object,
};
use crate::questions_json::append_no_version;
use crate::strings::append_string;
use edit_book::Book;
use edit_journal::{Anchor, Edit, Entry, Journal};
use knit_base::{CarrierNo, Declared, NoMemory, append_number};
use std::alloc::Global;

/// Appends the entries behind this version, or that there is no such version yet, as an object on one line. After `NoMemory` the
/// buffer is as before.
pub fn json_since(
    alloc: Global,
    frame: Frame,
    book: &Book,
    from: u32,
    out: &mut Vec<u8>,
) -> Result<(), NoMemory>
    ensures ok { OnOk result (out.new.items ≡ out.old.items ++ value_json_line (object (since_members frame book.now.entries from))) }
    ensures err { OnErr result (out.new.items ≡ out.old.items) }
{
    let mut text = object(alloc)?;
    append_since(frame, book.journal(), from, &mut text)?;
    end(text, out)
}

fn append_since(
    frame: Frame,
    journal: &Journal,
    from: u32,
    out: &mut Vec<u8>,
) -> Result<(), NoMemory>
    ensures { OnOk result (out.new.items ≡ out.old.items ++ members_text false (since_members frame journal.now.entries from)) }
{
    if from > journal.len() {
        return append_no_version(frame, journal.len(), from, out);
    }
    append_behind(frame, journal, from, out)
}

// Appends the members of the entries behind a version.
fn append_behind(
    frame: Frame,
    journal: &Journal,
    from: u32,
    out: &mut Vec<u8>,
) -> Result<(), NoMemory>
    requires { from ≤ length journal.now.entries }
    ensures { OnOk result (out.new.items ≡ out.old.items ++ members_text false (behind_members frame journal.now.entries from)) }
{
    append_entries(journal, from, out)?;
    append_count(true, "from", from, out)?;
    append_frame(true, Some(frame), "since", out)?;
    append_version(journal.len(), out)
}

// Appends the entries behind a version, as a member.
fn append_entries(journal: &Journal, from: u32, out: &mut Vec<u8>) -> Result<(), NoMemory>
    requires { from ≤ length journal.now.entries }
    ensures { OnOk result ((rest : Members) → out.new.items ++ members_text true rest ≡ out.old.items ++ members_text false (member (codes "entries") (array (items_of (numbered_values (from + 1) (drop from journal.now.entries)))) rest)) }
{
    append_key(false, "entries", out)?;
    append_entry_list(journal, from, out)
}

fn append_entry_list(journal: &Journal, from: u32, out: &mut Vec<u8>) -> Result<(), NoMemory>
    requires { from ≤ length journal.now.entries }
    ensures { OnOk result (out.new.items ≡ out.old.items ++ compact_text (array (items_of (numbered_values (from + 1) (drop from journal.now.entries))))) }
{
    out.extend_from_slice(b"[")?;
    append_entry_items(journal, from, out)?;
    out.extend_from_slice(b"]")?;
    Ok(())
}

// Appends the entries behind a version, with commas between.
fn append_entry_items(journal: &Journal, from: u32, out: &mut Vec<u8>) -> Result<(), NoMemory>
    requires { from ≤ length journal.now.entries }
    ensures { OnOk result (out.new.items ++ 93 ∷ [] ≡ out.old.items ++ items_text false (items_of (numbered_values (from + 1) (drop from journal.now.entries)))) }
{
    let mut later = false;
    'each: for at in from..journal.len() {
        append_entry_behind(later, at, journal, out)?;
        later = true;
    }
    Ok(())
}

// Appends the entry behind so many others, behind a comma where one stands before.
fn append_entry_behind(
    later: bool,
    at: u32,
    journal: &Journal,
    out: &mut Vec<u8>,
) -> Result<(), NoMemory>
    requires { at < length journal.now.entries }
    ensures { OnOk result (out.new.items ++ items_text true (items_of (numbered_values (at + 1 + 1) (drop (at + 1) journal.now.entries))) ≡ out.old.items ++ items_text later (items_of (numbered_values (at + 1) (drop at journal.now.entries)))) }
{
    let _entries = journal.len();
    let Some(entry) = journal.get(at + 1) else {
        unreachable!();
    };
    append_comma(later, out)?;
    append_entry(at + 1, entry, out)
}

// Appends an entry with its number.
fn append_entry(number: u32, entry: &Entry, out: &mut Vec<u8>) -> Result<(), NoMemory>
    ensures { OnOk result (out.new.items ≡ out.old.items ++ compact_text (entry_value number entry.now)) }
{
    out.extend_from_slice(b"{")?;
    append_edit(number, entry.session, &entry.edit, out)
}

// Appends the members of an edit.
fn append_edit(number: u32, session: u32, edit: &Edit, out: &mut Vec<u8>) -> Result<(), NoMemory>
    ensures { OnOk result (out.new.items ≡ out.old.items ++ members_text false (edit_members number session edit.now)) }
{
    match edit {
        Edit::Put { block, seen, text } => {
            append_put(number, session, *block, *seen, text.len(), out)
        }
        Edit::Add {
            anchor,
            block,
            text,
        } => append_add(number, session, *anchor, *block, text.len(), out),
        Edit::Cut { block, seen } => append_cut(number, session, *block, *seen, out),
        Edit::Head { seen, declared } => append_head(number, session, *seen, declared, out),
    }
}

fn append_put(
    number: u32,
    session: u32,
    block: u32,
    seen: u32,
    lines: u32,
    out: &mut Vec<u8>,
) -> Result<(), NoMemory>
    ensures { OnOk result (out.new.items ≡ out.old.items ++ members_text false (put_members number session block seen lines)) }
{
    append_count(false, "block", block, out)?;
    append_word(true, "edit", "put", out)?;
    append_count(true, "lines", lines, out)?;
    append_seen(number, seen, session, out)
}

fn append_add(
    number: u32,
    session: u32,
    anchor: Anchor,
    block: u32,
    lines: u32,
    out: &mut Vec<u8>,
) -> Result<(), NoMemory>
    ensures { OnOk result (out.new.items ≡ out.old.items ++ members_text false (add_members number session anchor block lines)) }
{
    append_anchor(anchor, out)?;
    append_count(true, "block", block, out)?;
    append_word(true, "edit", "add", out)?;
    append_count(true, "lines", lines, out)?;
    append_count(true, "number", number, out)?;
    append_count(true, "session", session, out)?;
    close(out)
}

fn append_cut(
    number: u32,
    session: u32,
    block: u32,
    seen: u32,
    out: &mut Vec<u8>,
) -> Result<(), NoMemory>
    ensures { OnOk result (out.new.items ≡ out.old.items ++ members_text false (cut_members number session block seen)) }
{
    append_count(false, "block", block, out)?;
    append_word(true, "edit", "cut", out)?;
    append_seen(number, seen, session, out)
}

fn append_head(
    number: u32,
    session: u32,
    seen: u32,
    declared: &Declared,
    out: &mut Vec<u8>,
) -> Result<(), NoMemory>
    ensures { OnOk result (out.new.items ≡ out.old.items ++ members_text false (head_members number session seen declared.now)) }
{
    append_word(false, "edit", "head", out)?;
    append_names(declared, out)?;
    append_seen(number, seen, session, out)
}

// Appends the number of an entry, the stamp that it has seen, and its session.
fn append_seen(number: u32, seen: u32, session: u32, out: &mut Vec<u8>) -> Result<(), NoMemory>
    ensures { OnOk result (out.new.items ≡ out.old.items ++ members_text true (seen_members number seen session)) }
{
    append_count(true, "number", number, out)?;
    append_count(true, "seen", seen, out)?;
    append_count(true, "session", session, out)?;
    close(out)
}

// Appends where a new block stands, as a member.
fn append_anchor(anchor: Anchor, out: &mut Vec<u8>) -> Result<(), NoMemory>
    ensures { OnOk result ((rest : Members) → out.new.items ++ members_text true rest ≡ out.old.items ++ members_text false (member (codes "anchor") (anchor_value anchor) rest)) }
{
    append_key(false, "anchor", out)?;
    append_anchor_value(anchor, out)
}

fn append_anchor_value(anchor: Anchor, out: &mut Vec<u8>) -> Result<(), NoMemory>
    ensures { OnOk result (out.new.items ≡ out.old.items ++ compact_text (anchor_value anchor)) }
{
    match anchor {
        Anchor::Start => {
            out.extend_from_slice(b"null")?;
            Ok(())
        }
        Anchor::After(id) => append_number(u64::from(id), out),
    }
}

// Appends the names of carriers, as a member.
fn append_names(declared: &Declared, out: &mut Vec<u8>) -> Result<(), NoMemory>
    ensures { OnOk result ((rest : Members) → out.new.items ++ members_text true rest ≡ out.old.items ++ members_text true (member (codes "names") (list_value string declared.now) rest)) }
{
    append_key(true, "names", out)?;
    append_name_list(declared, out)
}

fn append_name_list(declared: &Declared, out: &mut Vec<u8>) -> Result<(), NoMemory>
    ensures { OnOk result (out.new.items ≡ out.old.items ++ compact_text (list_value string declared.now)) }
{
    out.extend_from_slice(b"[")?;
    append_name_items(declared, out)?;
    out.extend_from_slice(b"]")?;
    Ok(())
}

// Appends names, with commas between.
fn append_name_items(declared: &Declared, out: &mut Vec<u8>) -> Result<(), NoMemory>
    ensures { OnOk result (out.new.items ++ 93 ∷ [] ≡ out.old.items ++ items_text false (items_of (map string declared.now))) }
{
    let mut later = false;
    'each: for at in 0..declared.len() {
        append_name_at(later, at, declared, out)?;
        later = true;
    }
    Ok(())
}

// Appends the name at this place, behind a comma where one stands before.
fn append_name_at(
    later: bool,
    at: u8,
    declared: &Declared,
    out: &mut Vec<u8>,
) -> Result<(), NoMemory>
    requires { at < length declared.now }
    ensures { OnOk result (out.new.items ++ items_text true (items_of (map string (drop (at + 1) declared.now))) ≡ out.old.items ++ items_text later (items_of (map string (drop at declared.now)))) }
{
    let Some(name) = declared.name(CarrierNo(at)) else {
        unreachable!();
    };
    append_comma(later, out)?;
    append_string(name, out)
}
