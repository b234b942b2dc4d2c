//! A saved text, as JSON.
ghost use Rattle.std.specs.Prelude.{◌≡◌, ◌∷◌, ◌<◌, ◌++◌, [], ℕ, List, false, length, map, position, true, OnOk, OnErr};
ghost use Rattle.serde_json.specs.Data.{Members, object, string};
ghost use Rattle.serde_json.specs.View.{items_of};
ghost use Rattle.serde_json.specs.Written.{compact_text, items_text, members_text};
ghost use Rattle.knit_base.specs.Lines.{is_line_feed};
ghost use Rattle.journal_file.specs.Spelling.{saved_spelling};
ghost use Rattle.verdict_report.specs.VerdictJson.{list_value};
ghost use Rattle.reply_report.specs.TalkJson.{value_json_line, saved_lines, saved_members, texts_member};

use crate::Frame;
use crate::frame::end;
use crate::members::{append_comma, append_frame, append_key, append_version, object};
use crate::strings::append_bytes;
use journal_file::{Saved, saved_text};
use knit_base::{NoMemory, Steps};
use std::alloc::Global;
use std::sync::ledger::Ledger;

/// Appends the saved text of a document at this version, line by line, as an object on one line. It costs a step for each line of a
/// block or of an entry's text. After `NoMemory` the buffer is as before.
pub fn json_saved<L: Ledger>(
    alloc: Global,
    frame: Frame,
    version: u32,
    saved: &Saved,
    out: &mut Vec<u8>,
    steps: &mut Steps<L>,
) -> Result<(), NoMemory>
    ensures ok { OnOk result (out.new.items ≡ out.old.items ++ value_json_line (object (saved_members frame version (saved_spelling saved.now.head saved.now.profile saved.now.blocks saved.now.journal.entries)))) }
    ensures err { OnErr result (out.new.items ≡ out.old.items) }
{
    let mut text = object(alloc)?;
    let saved = saved_text(alloc, saved, steps)?;
    append_saved(frame, version, &saved, &mut text)?;
    end(text, out)
}

// Appends the members of a saved text.
fn append_saved(frame: Frame, version: u32, saved: &[u8], out: &mut Vec<u8>) -> Result<(), NoMemory>
    ensures { OnOk result (out.new.items ≡ out.old.items ++ members_text false (saved_members frame version saved.now)) }
{
    append_lines(saved, out)?;
    append_frame(true, Some(frame), "saved", out)?;
    append_version(version, out)
}

// Appends the lines of a text, as a member.
fn append_lines(text: &[u8], out: &mut Vec<u8>) -> Result<(), NoMemory>
    ensures { OnOk result ((rest : Members) → out.new.items ++ members_text true rest ≡ out.old.items ++ members_text false (texts_member (saved_lines text.now) rest)) }
{
    append_key(false, "lines", out)?;
    append_line_list(text, out)
}

fn append_line_list(text: &[u8], out: &mut Vec<u8>) -> Result<(), NoMemory>
    ensures { OnOk result (out.new.items ≡ out.old.items ++ compact_text (list_value string (saved_lines text.now))) }
{
    out.extend_from_slice(b"[")?;
    append_line_items(text, out)?;
    out.extend_from_slice(b"]")?;
    Ok(())
}

// Appends the lines, with commas between.
fn append_line_items(text: &[u8], out: &mut Vec<u8>) -> Result<(), NoMemory>
    ensures { OnOk result (out.new.items ++ 93 ∷ [] ≡ out.old.items ++ items_text false (items_of (map string (saved_lines text.now)))) }
{
    let mut later = false;
    let mut rest = text;
    'lines: while !rest.is_empty() {
        let (line, behind) = first_line(rest);
        append_item(later, line, out)?;
        later = true;
        rest = behind;
    }
    Ok(())
}

// Appends a line as a string, behind a comma where one stands before.
fn append_item(later: bool, line: &[u8], out: &mut Vec<u8>) -> Result<(), NoMemory>
    ensures { OnOk result ((lines : List (List ℕ)) → out.new.items ++ items_text true (items_of (map string lines)) ≡ out.old.items ++ items_text later (items_of (map string (line.now ∷ lines)))) }
{
    append_comma(later, out)?;
    append_bytes(line, out)
}

// The first line, and what stands behind its line feed.
fn first_line(text: &[u8]) -> (&[u8], &[u8])
    requires { 0 < length text.now }
    ensures first { saved_lines text.now ≡ result.0.now ∷ saved_lines result.1.now }
    ensures shorter { length result.1.now < length text.now }
{
    match line_end(text) {
        Some(end) => (&text[..end], &text[end + 1..]),
        None => (text, &[]),
    }
}

// Where the first line ends, if a line feed does.
fn line_end(text: &[u8]) -> Option<usize>
    ensures { result ≡ position is_line_feed text.now }
{
    text.iter().position(|byte| *byte == b'\n')
}
