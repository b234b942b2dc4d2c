//! Members of JSON objects, one by one. `later` says whether a member stands before.
ghost use Rattle.std.specs.Prelude.{◌≡◌, ◌∷◌, ◌++◌, [], codes, false, true, IfOk, OnOk, Some};
ghost use Rattle.serde_json.specs.Data.{Members, member, no_members, string};
ghost use Rattle.serde_json.specs.Written.{comma_if, members_text};
ghost use Rattle.json.specs.Print.{quoted};
ghost use Rattle.verdict_report.specs.LiveText.{block_name_text};
ghost use Rattle.reply_report.specs.TalkJson.{block_member, count_member, frame_members, number_member, session_member, version_member};

use crate::Frame;
use crate::strings::{append_bytes, append_string};
use edit_book::HEAD;
use edit_journal::BlockName;
use knit_base::{NoMemory, append_labelled, append_number};
use std::alloc::Global;

/// A text in which an object begins.
pub(crate) fn object(alloc: Global) -> Result<Vec<u8>, NoMemory>
    ensures { IfOk result (λ text. text.items ≡ 123 ∷ []) }
{
    let mut text = Vec::new(alloc);
    text.extend_from_slice(b"{")?;
    Ok(text)
}

/// Appends a comma, where something stands before.
pub(crate) fn append_comma(later: bool, out: &mut Vec<u8>) -> Result<(), NoMemory>
    ensures { OnOk result (out.new.items ≡ out.old.items ++ comma_if later) }
{
    if later {
        out.extend_from_slice(b",")?;
        return Ok(());
    }
    Ok(())
}

/// Appends a key and its colon.
pub(crate) fn append_key(later: bool, key: &str, out: &mut Vec<u8>) -> Result<(), NoMemory>
    ensures { OnOk result (out.new.items ≡ out.old.items ++ (comma_if later ++ (quoted key.now ++ 58 ∷ []))) }
{
    append_comma(later, out)?;
    append_string(key, out)?;
    out.extend_from_slice(b":")?;
    Ok(())
}

/// Appends a member with a number.
pub(crate) fn append_wide(
    later: bool,
    key: &str,
    number: u64,
    out: &mut Vec<u8>,
) -> Result<(), NoMemory>
    ensures { OnOk result ((rest : Members) → out.new.items ++ members_text true rest ≡ out.old.items ++ members_text later (count_member key.now number rest)) }
{
    append_key(later, key, out)?;
    append_number(number, out)
}

/// The same of a number of 32 bits.
pub(crate) fn append_count(
    later: bool,
    key: &str,
    number: u32,
    out: &mut Vec<u8>,
) -> Result<(), NoMemory>
    ensures { OnOk result ((rest : Members) → out.new.items ++ members_text true rest ≡ out.old.items ++ members_text later (count_member key.now number rest)) }
{
    append_wide(later, key, u64::from(number), out)
}

/// Appends a member with a text.
pub(crate) fn append_word(
    later: bool,
    key: &str,
    word: &str,
    out: &mut Vec<u8>,
) -> Result<(), NoMemory>
    ensures { OnOk result ((rest : Members) → out.new.items ++ members_text true rest ≡ out.old.items ++ members_text later (member key.now (string word.now) rest)) }
{
    append_key(later, key, out)?;
    append_string(word, out)
}

/// Appends a block by its id, or the header.
pub(crate) fn append_block(later: bool, block: u32, out: &mut Vec<u8>) -> Result<(), NoMemory>
    ensures { OnOk result ((rest : Members) → out.new.items ++ members_text true rest ≡ out.old.items ++ members_text later (block_member block rest)) }
{
    if block == HEAD {
        return append_word(later, "block", "head", out);
    }
    append_count(later, "block", block, out)
}

/// Appends the version, with which the object ends.
pub(crate) fn append_version(version: u32, out: &mut Vec<u8>) -> Result<(), NoMemory>
    ensures { OnOk result (out.new.items ≡ out.old.items ++ members_text true (version_member version)) }
{
    append_count(true, "version", version, out)?;
    close(out)
}

/// Appends the end of an object.
pub(crate) fn close(out: &mut Vec<u8>) -> Result<(), NoMemory>
    ensures { OnOk result (out.new.items ≡ out.old.items ++ members_text true no_members) }
{
    out.extend_from_slice(b"}")?;
    Ok(())
}

/// Appends the number of the command, the word of the reply and the session.
pub(crate) fn append_frame(
    later: bool,
    frame: Option<Frame>,
    word: &str,
    out: &mut Vec<u8>,
) -> Result<(), NoMemory>
    ensures { OnOk result ((rest : Members) → out.new.items ++ members_text true rest ≡ out.old.items ++ members_text later (frame_members frame word.now rest)) }
{
    match frame {
        Some(frame) => append_whole_frame(later, frame, word, out),
        None => append_word(later, "reply", word, out),
    }
}

fn append_whole_frame(
    later: bool,
    frame: Frame,
    word: &str,
    out: &mut Vec<u8>,
) -> Result<(), NoMemory>
    ensures { OnOk result ((rest : Members) → out.new.items ++ members_text true rest ≡ out.old.items ++ members_text later (frame_members (Some frame) word.now rest)) }
{
    append_wide(later, "number", frame.number, out)?;
    append_word(true, "reply", word, out)?;
    append_count(true, "session", frame.session, out)
}

/// Appends the number of the command, where the reply is framed.
pub(crate) fn append_number_of(frame: Option<Frame>, out: &mut Vec<u8>) -> Result<(), NoMemory>
    ensures { OnOk result ((rest : Members) → out.new.items ++ members_text true rest ≡ out.old.items ++ members_text true (number_member frame rest)) }
{
    match frame {
        Some(frame) => append_wide(true, "number", frame.number, out),
        None => Ok(()),
    }
}

/// Appends the session, where the reply is framed.
pub(crate) fn append_session_of(frame: Option<Frame>, out: &mut Vec<u8>) -> Result<(), NoMemory>
    ensures { OnOk result ((rest : Members) → out.new.items ++ members_text true rest ≡ out.old.items ++ members_text true (session_member frame rest)) }
{
    match frame {
        Some(frame) => append_count(true, "session", frame.session, out),
        None => Ok(()),
    }
}

/// Appends a block as a session names it.
pub(crate) fn append_name(alloc: Global, name: BlockName, out: &mut Vec<u8>) -> Result<(), NoMemory>
    ensures { OnOk result ((rest : Members) → out.new.items ++ members_text true rest ≡ out.old.items ++ members_text false (member (codes "name") (string (block_name_text name)) rest)) }
{
    let mut spelt = Vec::new(alloc);
    spell_name(name, &mut spelt)?;
    append_key(false, "name", out)?;
    append_bytes(&spelt, out)
}

// Appends the spelling of a block as a session names it.
fn spell_name(name: BlockName, out: &mut Vec<u8>) -> Result<(), NoMemory>
    ensures { OnOk result (out.new.items ≡ out.old.items ++ block_name_text name) }
{
    match name {
        BlockName::Id(id) => append_number(u64::from(id), out),
        BlockName::Own(number) => append_labelled("@", u64::from(number), out),
    }
}

/// Appends the members of a reply that says nothing but its word.
pub(crate) fn append_bare(
    frame: Option<Frame>,
    word: &str,
    out: &mut Vec<u8>,
) -> Result<(), NoMemory>
    ensures { OnOk result (out.new.items ≡ out.old.items ++ members_text false (frame_members frame word.now no_members)) }
{
    append_frame(false, frame, word, out)?;
    close(out)
}
