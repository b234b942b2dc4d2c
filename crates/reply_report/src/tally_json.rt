//! What blocks come to, as JSON.
ghost use Rattle.std.specs.Prelude.{◌≡◌, ◌∷◌, ◌+◌, ◌<◌, ◌++◌, [], codes, drop, false, length, true, OnOk, OnErr};
ghost use Rattle.serde_json.specs.Data.{Members, array, member, object};
ghost use Rattle.serde_json.specs.View.{items_of};
ghost use Rattle.serde_json.specs.Written.{compact_text, items_text, members_text};
ghost use Rattle.tally_tree.specs.Tallies.{counts_of_tally};
ghost use Rattle.verdict_report.specs.JsonText.{list_text, more_text, next_text};
ghost use Rattle.verdict_report.specs.VerdictJson.{list_value};
ghost use Rattle.reply_report.specs.TalkJson.{value_json_line};
ghost use Rattle.reply_report.specs.TallyJson.{carrier_value, carrier_values, needle_string, needle_value, tally_members};

use crate::Frame;
use crate::frame::end;
use crate::members::{
    append_comma, append_count, append_frame, append_key, append_word, close, object,
};
use knit_base::{CarrierNo, Declared, Needle, NoMemory, append_needle};
use std::alloc::Global;
use tally_tree::Tally;

/// Appends what the blocks from one place to another come to, for carriers of these names, as an object on one line. After `NoMemory`
/// the buffer is as before.
pub fn json_tally(
    alloc: Global,
    frame: Frame,
    from: u32,
    to: u32,
    tally: &Tally,
    declared: &Declared,
    out: &mut Vec<u8>,
) -> Result<(), NoMemory>
    requires { length tally.now.with.items ≡ length declared.now }
    ensures ok { OnOk result (out.new.items ≡ out.old.items ++ value_json_line (object (tally_members frame from to declared.now (counts_of_tally tally.now)))) }
    ensures err { OnErr result (out.new.items ≡ out.old.items) }
{
    let mut text = object(alloc)?;
    append_tally(frame, from, to, tally, declared, &mut text)?;
    end(text, out)
}

// Appends the members of a tally.
fn append_tally(
    frame: Frame,
    from: u32,
    to: u32,
    tally: &Tally,
    declared: &Declared,
    out: &mut Vec<u8>,
) -> Result<(), NoMemory>
    requires { length tally.now.with.items ≡ length declared.now }
    ensures { OnOk result (out.new.items ≡ out.old.items ++ members_text false (tally_members frame from to declared.now (counts_of_tally tally.now))) }
{
    let [form, split, moves, drop] = tally.ops;
    append_count(false, "drop", drop, out)?;
    append_count(true, "form", form, out)?;
    append_count(true, "from", from, out)?;
    append_count(true, "lines", tally.lines, out)?;
    append_count(true, "move", moves, out)?;
    append_needles(&tally.needles, out)?;
    append_frame(true, Some(frame), "tally", out)?;
    append_count(true, "split", split, out)?;
    append_count(true, "to", to, out)?;
    append_with(declared, &tally.with, out)?;
    close(out)
}

// Appends the needles, as a member.
fn append_needles(needles: &[Needle], out: &mut Vec<u8>) -> Result<(), NoMemory>
    ensures { OnOk result ((rest : Members) → out.new.items ++ members_text true rest ≡ out.old.items ++ members_text true (member (codes "needles") (list_value needle_value needles.now) rest)) }
{
    append_key(true, "needles", out)?;
    append_needle_list(needles, out)
}

fn append_needle_list(needles: &[Needle], out: &mut Vec<u8>) -> Result<(), NoMemory>
    ensures { OnOk result (out.new.items ≡ out.old.items ++ list_text needle_string needles.now) }
{
    match needles {
        [] => out.extend_from_slice(b"[]")?,
        [first, rest @ ..] => {
            out.extend_from_slice(b"[")?;
            append_quoted(*first, out)?;
            append_more_needles(rest, out)?;
            out.extend_from_slice(b"]")?;
        }
    }
    Ok(())
}

// Appends needles, each behind a comma.
fn append_more_needles(needles: &[Needle], out: &mut Vec<u8>) -> Result<(), NoMemory>
    ensures { OnOk result (out.new.items ≡ out.old.items ++ more_text needle_string needles.now) }
{
    'needles: for needle in needles {
        append_next_needle(*needle, out)?;
    }
    Ok(())
}

// Appends a comma and a needle.
fn append_next_needle(needle: Needle, out: &mut Vec<u8>) -> Result<(), NoMemory>
    ensures { OnOk result (out.new.items ≡ out.old.items ++ next_text needle_string needle) }
{
    out.extend_from_slice(b",")?;
    append_quoted(needle, out)
}

// Appends a needle as a string: nothing in its spelling is escaped.
fn append_quoted(needle: Needle, out: &mut Vec<u8>) -> Result<(), NoMemory>
    ensures { OnOk result (out.new.items ≡ out.old.items ++ needle_string needle) }
{
    out.extend_from_slice(b"\"")?;
    append_needle(needle, out)?;
    out.extend_from_slice(b"\"")?;
    Ok(())
}

// Appends how many lines form loops with each carrier, as a member.
fn append_with(declared: &Declared, numbers: &[u32], out: &mut Vec<u8>) -> Result<(), NoMemory>
    requires { length numbers.now ≡ length declared.now }
    ensures { OnOk result ((rest : Members) → out.new.items ++ members_text true rest ≡ out.old.items ++ members_text true (member (codes "with") (array (items_of (carrier_values declared.now numbers.now))) rest)) }
{
    append_key(true, "with", out)?;
    append_carrier_list(declared, numbers, out)
}

fn append_carrier_list(
    declared: &Declared,
    numbers: &[u32],
    out: &mut Vec<u8>,
) -> Result<(), NoMemory>
    requires { length numbers.now ≡ length declared.now }
    ensures { OnOk result (out.new.items ≡ out.old.items ++ compact_text (array (items_of (carrier_values declared.now numbers.now)))) }
{
    out.extend_from_slice(b"[")?;
    append_carrier_items(declared, numbers, out)?;
    out.extend_from_slice(b"]")?;
    Ok(())
}

// Appends the carriers, with commas between.
fn append_carrier_items(
    declared: &Declared,
    numbers: &[u32],
    out: &mut Vec<u8>,
) -> Result<(), NoMemory>
    requires { length numbers.now ≡ length declared.now }
    ensures { OnOk result (out.new.items ++ 93 ∷ [] ≡ out.old.items ++ items_text false (items_of (carrier_values declared.now numbers.now))) }
{
    let mut later = false;
    'each: for at in 0..declared.len() {
        append_carrier_at(later, at, declared, numbers, out)?;
        later = true;
    }
    Ok(())
}

// Appends the carrier at this place, behind a comma where one stands before.
fn append_carrier_at(
    later: bool,
    at: u8,
    declared: &Declared,
    numbers: &[u32],
    out: &mut Vec<u8>,
) -> Result<(), NoMemory>
    requires there { at < length declared.now }
    requires same { length numbers.now ≡ length declared.now }
    ensures { OnOk result (out.new.items ++ items_text true (items_of (carrier_values (drop (at + 1) declared.now) (drop (at + 1) numbers.now))) ≡ out.old.items ++ items_text later (items_of (carrier_values (drop at declared.now) (drop at numbers.now)))) }
{
    let Some(name) = declared.name(CarrierNo(at)) else {
        unreachable!();
    };
    append_comma(later, out)?;
    append_carrier(name, numbers[usize::from(at)], out)
}

// Appends a carrier by its name, and how many lines form loops with it.
fn append_carrier(name: &str, lines: u32, out: &mut Vec<u8>) -> Result<(), NoMemory>
    ensures { OnOk result (out.new.items ≡ out.old.items ++ compact_text (carrier_value name.now lines)) }
{
    out.extend_from_slice(b"{")?;
    append_word(false, "carrier", name, out)?;
    append_count(true, "lines", lines, out)?;
    close(out)
}
