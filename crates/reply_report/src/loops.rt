//! The loop that was asked for, as JSON.
ghost use Rattle.std.specs.Prelude.{◌≡◌, ◌++◌, codes, decimal, false, true, OnOk};
ghost use Rattle.serde_json.specs.Data.{Members, member, string};
ghost use Rattle.serde_json.specs.Written.{compact_text, members_text};
ghost use Rattle.knit_base.specs.Spelling.{needle_text};
ghost use Rattle.verdict_report.specs.JsonText.{list_text, more_text, next_text};
ghost use Rattle.verdict_report.specs.VerdictJson.{count_value, list_value, loop_value, name_value};
ghost use Rattle.reply_report.specs.TalkJson.{carrier_string, fact_value};

use crate::members::{append_count, append_key, append_word, close};
use crate::strings::{append_bytes, append_string};
use carriage_model::LoopFact;
use knit_base::{
    CarrierNo, Declared, Needle, NoMemory, append_labelled, append_needle, append_number,
};
use std::alloc::Global;

/// Appends the loop of a line, or that the line makes none.
pub(crate) fn append_fact(
    alloc: Global,
    fact: &Option<LoopFact>,
    declared: &Declared,
    out: &mut Vec<u8>,
) -> Result<(), NoMemory>
    ensures { OnOk result ((rest : Members) → out.new.items ++ members_text true rest ≡ out.old.items ++ members_text false (member (codes "loop") (fact_value declared.now fact.now) rest)) }
{
    append_key(false, "loop", out)?;
    append_fact_value(alloc, fact, declared, out)
}

fn append_fact_value(
    alloc: Global,
    fact: &Option<LoopFact>,
    declared: &Declared,
    out: &mut Vec<u8>,
) -> Result<(), NoMemory>
    ensures { OnOk result (out.new.items ≡ out.old.items ++ compact_text (fact_value declared.now fact.now)) }
{
    match fact {
        Some(fact) => append_loop(alloc, fact, declared, out),
        None => {
            out.extend_from_slice(b"null")?;
            Ok(())
        }
    }
}

fn append_loop(
    alloc: Global,
    fact: &LoopFact,
    declared: &Declared,
    out: &mut Vec<u8>,
) -> Result<(), NoMemory>
    ensures { OnOk result (out.new.items ≡ out.old.items ++ compact_text (loop_value declared.now fact.now)) }
{
    out.extend_from_slice(b"{")?;
    append_word(false, "dir", fact.dir.sign(), out)?;
    append_count(true, "line", fact.line, out)?;
    append_needle_member(alloc, fact.needle, out)?;
    append_through(fact.through.as_slice(), out)?;
    append_yarns(fact.yarns.as_slice(), declared, out)?;
    close(out)
}

fn append_needle_member(alloc: Global, needle: Needle, out: &mut Vec<u8>) -> Result<(), NoMemory>
    ensures { OnOk result ((rest : Members) → out.new.items ++ members_text true rest ≡ out.old.items ++ members_text true (member (codes "needle") (string (needle_text needle)) rest)) }
{
    let mut spelt = Vec::new(alloc);
    append_needle(needle, &mut spelt)?;
    append_key(true, "needle", out)?;
    append_bytes(&spelt, out)
}

// Appends the lines of the loops that it goes through.
fn append_through(lines: &[u32], out: &mut Vec<u8>) -> Result<(), NoMemory>
    ensures { OnOk result ((rest : Members) → out.new.items ++ members_text true rest ≡ out.old.items ++ members_text true (member (codes "through") (list_value count_value lines.now) rest)) }
{
    append_key(true, "through", out)?;
    append_numbers(lines, out)
}

fn append_numbers(lines: &[u32], out: &mut Vec<u8>) -> Result<(), NoMemory>
    ensures { OnOk result (out.new.items ≡ out.old.items ++ list_text decimal lines.now) }
{
    match lines {
        [] => out.extend_from_slice(b"[]")?,
        [first, rest @ ..] => {
            out.extend_from_slice(b"[")?;
            append_number(u64::from(*first), out)?;
            append_more_numbers(rest, out)?;
            out.extend_from_slice(b"]")?;
        }
    }
    Ok(())
}

// Appends numbers, each behind a comma.
fn append_more_numbers(lines: &[u32], out: &mut Vec<u8>) -> Result<(), NoMemory>
    ensures { OnOk result (out.new.items ≡ out.old.items ++ more_text decimal lines.now) }
{
    'lines: for line in lines {
        append_labelled(",", u64::from(*line), out)?;
    }
    Ok(())
}

// Appends the names of its carriers.
fn append_yarns(yarns: &[CarrierNo], declared: &Declared, out: &mut Vec<u8>) -> Result<(), NoMemory>
    ensures { OnOk result ((rest : Members) → out.new.items ++ members_text true rest ≡ out.old.items ++ members_text true (member (codes "yarns") (list_value (name_value declared.now) yarns.now) rest)) }
{
    append_key(true, "yarns", out)?;
    append_names(yarns, declared, out)
}

fn append_names(yarns: &[CarrierNo], declared: &Declared, out: &mut Vec<u8>) -> Result<(), NoMemory>
    ensures { OnOk result (out.new.items ≡ out.old.items ++ list_text (carrier_string declared.now) yarns.now) }
{
    match yarns {
        [] => out.extend_from_slice(b"[]")?,
        [first, rest @ ..] => {
            out.extend_from_slice(b"[")?;
            append_carrier(*first, declared, out)?;
            append_more_names(rest, declared, out)?;
            out.extend_from_slice(b"]")?;
        }
    }
    Ok(())
}

// Appends the names of carriers, each behind a comma.
fn append_more_names(
    yarns: &[CarrierNo],
    declared: &Declared,
    out: &mut Vec<u8>,
) -> Result<(), NoMemory>
    ensures { OnOk result (out.new.items ≡ out.old.items ++ more_text (carrier_string declared.now) yarns.now) }
{
    'yarns: for c in yarns {
        append_next_name(*c, declared, out)?;
    }
    Ok(())
}

// Appends a comma and the name of a carrier.
fn append_next_name(c: CarrierNo, declared: &Declared, out: &mut Vec<u8>) -> Result<(), NoMemory>
    ensures { OnOk result (out.new.items ≡ out.old.items ++ next_text (carrier_string declared.now) c) }
{
    out.extend_from_slice(b",")?;
    append_carrier(c, declared, out)
}

// Appends the name of a carrier.
fn append_carrier(c: CarrierNo, declared: &Declared, out: &mut Vec<u8>) -> Result<(), NoMemory>
    ensures { OnOk result (out.new.items ≡ out.old.items ++ carrier_string declared.now c) }
{
    append_string(declared.name(c).unwrap_or(""), out)
}
