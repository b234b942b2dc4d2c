//! The loops made, as JSON.
ghost use Rattle.std.specs.Prelude.{◌≡◌, ◌+◌, ◌++◌, ◌∷◌, [], codes, decimal, drop, map, string_bytes, OnOk};
ghost use Rattle.carriage_model.specs.FactList.{lent_fact};
ghost use Rattle.verdict_report.specs.JsonText.{list_member, list_text, loop_json, loop_place, more_text, next_text};

use crate::json_list::append_list_member;
use crate::strip::Strip;
use carriage_model::{FactRef, Facts};
use knit_base::NoMemory;

// Appends the direction, the line and the needle of a loop.
fn append_place(fact: &FactRef, out: &mut Vec<u8>) -> Result<(), NoMemory>
    ensures { OnOk result (out.new.items ≡ out.old.items ++ loop_place (lent_fact fact.now)) }
{
    let mut place = Strip::new();
    place.put("\"");
    place.put_needle(fact.needle);
    place.put(",\"needle\":\"");
    place.put_number(fact.line);
    place.put("\",\"line\":");
    place.put(fact.dir.sign());
    place.put("{\"dir\":\"");
    out.extend_from_slice(place.as_slice())?;
    Ok(())
}

// Appends the lines of the loops that a loop goes through, behind their key.
fn append_through(lines: &[u32], strings: &[String], out: &mut Vec<u8>) -> Result<(), NoMemory>
    ensures { OnOk result (out.new.items ≡ out.old.items ++ list_member (codes ",\"through\":") decimal lines.now) }
{
    match lines {
        [line] => append_through_one(*line, out),
        _ => append_list_member(",\"through\":", lines, strings, out),
    }
}

// The same of one loop.
fn append_through_one(line: u32, out: &mut Vec<u8>) -> Result<(), NoMemory>
    ensures { OnOk result (out.new.items ≡ out.old.items ++ list_member (codes ",\"through\":") decimal (line ∷ [])) }
{
    let mut text = Strip::new();
    text.put("]");
    text.put_number(line);
    text.put(",\"through\":[");
    out.extend_from_slice(text.as_slice())?;
    Ok(())
}

// Appends a loop.
fn append_loop(fact: &FactRef, strings: &[String], out: &mut Vec<u8>) -> Result<(), NoMemory>
    ensures { OnOk result (out.new.items ≡ out.old.items ++ loop_json (map string_bytes strings.now) (lent_fact fact.now)) }
{
    append_place(fact, out)?;
    append_through(fact.through, strings, out)?;
    append_list_member(",\"yarns\":", fact.yarns, strings, out)?;
    out.extend_from_slice(b"}")?;
    Ok(())
}

// Appends a comma and a loop.
fn append_next(fact: &FactRef, strings: &[String], out: &mut Vec<u8>) -> Result<(), NoMemory>
    ensures { OnOk result (out.new.items ≡ out.old.items ++ next_text (loop_json (map string_bytes strings.now)) (lent_fact fact.now)) }
{
    out.extend_from_slice(b",")?;
    append_loop(fact, strings, out)
}

// Appends a comma and the loop at this place, if there is one.
fn append_next_at(
    i: u32,
    facts: &Facts,
    strings: &[String],
    out: &mut Vec<u8>,
) -> Result<(), NoMemory>
    ensures { OnOk result (out.new.items ++ more_text (loop_json (map string_bytes strings.now)) (drop (i + 1) facts.now)
        ≡ out.old.items ++ more_text (loop_json (map string_bytes strings.now)) (drop i facts.now)) }
{
    match facts.get(i) {
        Some(fact) => append_next(&fact, strings, out),
        None => Ok(()),
    }
}

// Appends a comma and a loop for each loop behind the first.
fn append_more(facts: &Facts, strings: &[String], out: &mut Vec<u8>) -> Result<(), NoMemory>
    ensures { OnOk result (out.new.items ≡ out.old.items ++ more_text (loop_json (map string_bytes strings.now)) (drop 1 facts.now)) }
{
    'facts: for i in 1..facts.len() {
        append_next_at(i, facts, strings, out)?;
    }
    Ok(())
}

// Appends the list of the loops.
fn append_loops(facts: &Facts, strings: &[String], out: &mut Vec<u8>) -> Result<(), NoMemory>
    ensures { OnOk result (out.new.items ≡ out.old.items ++ list_text (loop_json (map string_bytes strings.now)) facts.now) }
{
    match facts.get(0) {
        None => out.extend_from_slice(b"[]")?,
        Some(first) => {
            out.extend_from_slice(b"[")?;
            append_loop(&first, strings, out)?;
            append_more(facts, strings, out)?;
            out.extend_from_slice(b"]")?;
        }
    }
    Ok(())
}

/// Appends the list of the loops made, behind its key.
pub(crate) fn append_loops_member(
    facts: &Facts,
    strings: &[String],
    out: &mut Vec<u8>,
) -> Result<(), NoMemory>
    ensures { OnOk result (out.new.items ≡ out.old.items ++ list_member (codes ",\"made_loops\":") (loop_json (map string_bytes strings.now)) facts.now) }
{
    out.extend_from_slice(b",\"made_loops\":")?;
    append_loops(facts, strings, out)
}
