//! Values of JSON members: a verdict in short and whole, a place, and lists of texts.
ghost use Rattle.std.specs.Prelude.{◌≡◌, ◌∷◌, ◌+◌, ◌<◌, ◌++◌, [], codes, Some, None, drop, length, map, true, false, IfOk, OnOk};
ghost use Rattle.std.specs.Option.{is_some};
ghost use Rattle.serde_json.specs.Data.{Members, member, string};
ghost use Rattle.serde_json.specs.View.{items_of};
ghost use Rattle.serde_json.specs.Written.{compact_text, items_text, members_text};
ghost use Rattle.carriage_model.specs.declared.verdict.Brief.TheVariants as brief;
ghost use Rattle.knit_base.specs.Spelling.{rack_text};
ghost use Rattle.verdict_report.specs.VerdictJson.{list_value, verdict_value};
ghost use Rattle.reply_report.specs.TalkJson.{brief_value, broken_member, place_value, texts_member};

use crate::members::{append_comma, append_count, append_key, append_word, close};
use crate::strings::{append_bytes, append_string};
use carriage_model::{Brief, Verdict};
use edit_book::LinePlace;
use knit_base::{BlockText, Declared, Fault, Lines, NoMemory, Quarter, Steps, append_rack};
use std::alloc::Global;
use std::sync::ledger::Ledger;
use verdict_report::json_of;

/// Appends a verdict in short.
pub(crate) fn append_brief(alloc: Global, brief: Brief, out: &mut Vec<u8>) -> Result<(), NoMemory>
    ensures { OnOk result (out.new.items ≡ out.old.items ++ compact_text (brief_value brief)) }
{
    match brief {
        Brief::Sound {
            lines,
            made,
            held,
            rack,
        } => append_sound(alloc, lines, made, held, rack, out),
        Brief::Broken(fault) => append_fault(fault, out),
    }
}

// Appends what a sound program leaves.
fn append_sound(
    alloc: Global,
    lines: u32,
    made: u32,
    held: u32,
    rack: Quarter,
    out: &mut Vec<u8>,
) -> Result<(), NoMemory>
    ensures { OnOk result (out.new.items ≡ out.old.items ++ compact_text (brief_value (brief.Sound lines made held rack))) }
{
    out.extend_from_slice(b"{")?;
    append_count(false, "held", held, out)?;
    append_count(true, "lines", lines, out)?;
    append_count(true, "made", made, out)?;
    append_rack_member(alloc, rack, out)?;
    append_word(true, "verdict", "sound", out)?;
    close(out)
}

// Appends the rack.
fn append_rack_member(alloc: Global, rack: Quarter, out: &mut Vec<u8>) -> Result<(), NoMemory>
    ensures { OnOk result ((rest : Members) → out.new.items ++ members_text true rest ≡ out.old.items ++ members_text true (member (codes "rack") (string (rack_text rack.0)) rest)) }
{
    let mut spelt = Vec::new(alloc);
    append_rack(rack, &mut spelt)?;
    append_key(true, "rack", out)?;
    append_bytes(&spelt, out)
}

// Appends which line breaks which rule, and where.
fn append_fault(fault: Fault, out: &mut Vec<u8>) -> Result<(), NoMemory>
    ensures { OnOk result (out.new.items ≡ out.old.items ++ compact_text (brief_value (brief.Broken fault))) }
{
    out.extend_from_slice(b"{")?;
    append_count(false, "at", u32::from(fault.reason.at), out)?;
    append_count(true, "line", fault.line, out)?;
    append_word(true, "rule", fault.reason.rule.name(), out)?;
    append_word(true, "verdict", "broken", out)?;
    close(out)
}

/// Appends a verdict in short, as a member.
pub(crate) fn append_brief_member(
    alloc: Global,
    later: bool,
    brief: Brief,
    out: &mut Vec<u8>,
) -> Result<(), NoMemory>
    ensures { OnOk result ((rest : Members) → out.new.items ++ members_text true rest ≡ out.old.items ++ members_text later (member (codes "brief") (brief_value brief) rest)) }
{
    append_key(later, "brief", out)?;
    append_brief(alloc, brief, out)
}

// Appends the block in which a line stands, and which of its lines it is.
fn append_place(place: LinePlace, out: &mut Vec<u8>) -> Result<(), NoMemory>
    ensures { OnOk result (out.new.items ≡ out.old.items ++ compact_text (place_value place)) }
{
    out.extend_from_slice(b"{")?;
    append_count(false, "block", place.block, out)?;
    append_count(true, "line", place.line, out)?;
    close(out)
}

// Appends where the document is broken.
fn append_broken_at(later: bool, place: LinePlace, out: &mut Vec<u8>) -> Result<(), NoMemory>
    ensures { OnOk result ((rest : Members) → out.new.items ++ members_text true rest ≡ out.old.items ++ members_text later (broken_member (Some place) rest)) }
{
    append_key(later, "broken", out)?;
    append_place(place, out)
}

/// Appends where the document is broken, if it is, behind another member.
pub(crate) fn append_broken_member(
    place: Option<LinePlace>,
    out: &mut Vec<u8>,
) -> Result<(), NoMemory>
    ensures { OnOk result ((rest : Members) → out.new.items ++ members_text true rest ≡ out.old.items ++ members_text true (broken_member place rest)) }
{
    match place {
        Some(place) => append_broken_at(true, place, out),
        None => Ok(()),
    }
}

/// The same, as the first member, if it is one.
pub(crate) fn append_broken_first(
    place: Option<LinePlace>,
    out: &mut Vec<u8>,
) -> Result<(), NoMemory>
    ensures { OnOk result ((rest : Members) → out.new.items ++ members_text (is_some place) rest ≡ out.old.items ++ members_text false (broken_member place rest)) }
{
    match place {
        Some(place) => append_broken_at(false, place, out),
        None => Ok(()),
    }
}

/// Appends a whole verdict, as a member.
pub(crate) fn append_verdict_member(
    alloc: Global,
    verdict: &Verdict,
    declared: &Declared,
    broken: &str,
    out: &mut Vec<u8>,
) -> Result<(), NoMemory>
    ensures { OnOk result ((rest : Members) → out.new.items ++ members_text true rest ≡ out.old.items ++ members_text true (member (codes "verdict") (verdict_value declared.now broken.now verdict.now None) rest)) }
{
    let text = verdict_value_of(alloc, verdict, declared, broken)?;
    append_key(true, "verdict", out)?;
    out.extend_from_slice(&text)?;
    Ok(())
}

// A whole verdict, without the end of its line.
fn verdict_value_of(
    alloc: Global,
    verdict: &Verdict,
    declared: &Declared,
    broken: &str,
) -> Result<Vec<u8>, NoMemory>
    ensures { IfOk result (λ text. text.items ≡ compact_text (verdict_value declared.now broken.now verdict.now None)) }
{
    let mut text = json_of(alloc, verdict, None, declared, broken)?;
    text.pop();
    Ok(text)
}

/// Appends lines as texts, as a member.
pub(crate) fn append_lines(lines: &Lines, out: &mut Vec<u8>) -> Result<(), NoMemory>
    ensures { OnOk result ((rest : Members) → out.new.items ++ members_text true rest ≡ out.old.items ++ members_text true (texts_member lines.now rest)) }
{
    append_key(true, "lines", out)?;
    append_line_list(lines, out)
}

fn append_line_list(lines: &Lines, out: &mut Vec<u8>) -> Result<(), NoMemory>
    ensures { OnOk result (out.new.items ≡ out.old.items ++ compact_text (list_value string lines.now)) }
{
    out.extend_from_slice(b"[")?;
    append_line_items(lines, out)?;
    out.extend_from_slice(b"]")?;
    Ok(())
}

// Appends the lines, with commas between.
fn append_line_items(lines: &Lines, out: &mut Vec<u8>) -> Result<(), NoMemory>
    ensures { OnOk result (out.new.items ++ 93 ∷ [] ≡ out.old.items ++ items_text false (items_of (map string lines.now))) }
{
    let mut later = false;
    'lines: for at in 0..lines.len() {
        append_line_item(later, at, lines, out)?;
        later = true;
    }
    Ok(())
}

// Appends the line at this place, behind a comma where one stands before.
fn append_line_item(later: bool, at: u32, lines: &Lines, out: &mut Vec<u8>) -> Result<(), NoMemory>
    requires { at < length lines.now }
    ensures { OnOk result (out.new.items ++ items_text true (items_of (map string (drop (at + 1) lines.now))) ≡ out.old.items ++ items_text later (items_of (map string (drop at lines.now)))) }
{
    let Some(line) = lines.get(at) else {
        unreachable!();
    };
    append_comma(later, out)?;
    append_string(line, out)
}

/// The same of a block's text. It costs a step for each line.
pub(crate) fn append_text<L: Ledger>(
    text: &BlockText,
    out: &mut Vec<u8>,
    steps: &mut Steps<L>,
) -> Result<(), NoMemory>
    ensures { OnOk result ((rest : Members) → out.new.items ++ members_text true rest ≡ out.old.items ++ members_text true (texts_member text.now rest)) }
{
    append_key(true, "lines", out)?;
    append_text_list(text, out, steps)
}

fn append_text_list<L: Ledger>(
    text: &BlockText,
    out: &mut Vec<u8>,
    steps: &mut Steps<L>,
) -> Result<(), NoMemory>
    ensures { OnOk result (out.new.items ≡ out.old.items ++ compact_text (list_value string text.now)) }
{
    out.extend_from_slice(b"[")?;
    append_text_items(text, out, steps)?;
    out.extend_from_slice(b"]")?;
    Ok(())
}

// Appends the lines of a text, with commas between.
fn append_text_items<L: Ledger>(
    text: &BlockText,
    out: &mut Vec<u8>,
    steps: &mut Steps<L>,
) -> Result<(), NoMemory>
    ensures { OnOk result (out.new.items ++ 93 ∷ [] ≡ out.old.items ++ items_text false (items_of (map string text.now))) }
{
    let mut later = false;
    'lines: for at in 0..text.len() {
        append_text_item(later, at, text, out, steps)?;
        later = true;
    }
    Ok(())
}

// Appends the line at this place, behind a comma where one stands before.
fn append_text_item<L: Ledger>(
    later: bool,
    at: u32,
    text: &BlockText,
    out: &mut Vec<u8>,
    steps: &mut Steps<L>,
) -> Result<(), NoMemory>
    requires { at < length text.now }
    ensures { OnOk result (out.new.items ++ items_text true (items_of (map string (drop (at + 1) text.now))) ≡ out.old.items ++ items_text later (items_of (map string (drop at text.now)))) }
{
    append_comma(later, out)?;
    append_string(text.line(at, steps), out)
}
