//! A verdict as JSON, written piece by piece: the value of a long program would take much more memory than its text, and one
//! of each loop much more time.
ghost use Rattle.std.specs.Prelude.{◌≡◌, ◌≤◌, ◌++◌, ◌∷◌, [], length, map, string_bytes, IfOk, OnOk, OnErr};
ghost use Rattle.std.specs.Option.{option_copied};
ghost use Rattle.json.specs.Print.{quoted};
ghost use Rattle.verdict_report.specs.Carriers.{carrier, carrier_name_of};
ghost use Rattle.verdict_report.specs.JsonText.{back_text, broken_back, broken_front, front_text, verdict_json_line, loops_member, sound_back, sound_front};
ghost use Rattle.verdict_report.specs.VerdictJson.{verdict_json};

use crate::json_items::append_set;
use crate::json_list::append_list_member;
use crate::json_loops::append_loops_member;
use crate::text::held;
use carriage_model::{Facts, Final, Verdict};
use knit_base::{CarrierNo, Declared, Fault, NoMemory, Rule, append_labelled, append_rack};
use serde_json::Value;
use std::alloc::Global;

// The text as a JSON string.
fn quoted_text(alloc: Global, text: &str) -> Result<String, NoMemory>
    ensures { IfOk result (λ string. string_bytes string ≡ quoted text.now) }
{
    let value = Value::String(String::from_str(alloc, text)?);
    Ok(value.to_string(alloc)?)
}

// Appends the name of a carrier to the list, as a JSON string.
fn push_quoted(
    alloc: Global,
    number: u8,
    declared: &Declared,
    strings: &mut Vec<String>,
) -> Result<(), NoMemory>
    ensures { OnOk result (map string_bytes strings.new.items ≡ map string_bytes strings.old.items ++ quoted (carrier_name_of declared.now (carrier number)) ∷ []) }
{
    let string = quoted_text(alloc, declared.name(CarrierNo(number)).unwrap_or(""))?;
    strings.push(string)?;
    Ok(())
}

// The names of the carriers as JSON strings.
fn quoted_names(alloc: Global, declared: &Declared) -> Result<Vec<String>, NoMemory>
    ensures strings { IfOk result (λ strings. map string_bytes strings.items ≡ map quoted declared.now) }
    ensures few { IfOk result (λ strings. length strings.items ≤ 64) }
{
    let mut strings = Vec::new(alloc);
    'names: for number in 0..declared.len() {
        push_quoted(alloc, number, declared, &mut strings)?;
    }
    Ok(strings)
}

// Appends the loops made, where they are asked for.
fn append_made(facts: Option<&Facts>, strings: &[String], out: &mut Vec<u8>) -> Result<(), NoMemory>
    ensures { OnOk result (out.new.items ≡ out.old.items ++ loops_member (map string_bytes strings.now) (option_copied facts.entry)) }
{
    match facts {
        Some(facts) => append_loops_member(facts, strings, out),
        None => Ok(()),
    }
}

// Appends the members of a sound verdict that stand before the loops made.
fn append_sound_front(
    alloc: Global,
    sound: &Final,
    strings: &[String],
    out: &mut Vec<u8>,
) -> Result<(), NoMemory>
    requires { length strings.now ≤ 64 }
    ensures { OnOk result (out.new.items ≡ out.old.items ++ sound_front (map string_bytes strings.now) sound.now) }
{
    append_labelled("{\"held\":", held(sound.stacks.as_slice()), out)?;
    append_set(alloc, ",\"hook\":", sound.hook, strings, out)?;
    append_set(alloc, ",\"in\":", sound.ins, strings, out)?;
    append_labelled(",\"lines\":", u64::from(sound.lines), out)?;
    append_labelled(",\"made\":", u64::from(sound.made), out)
}

// Appends the members of a sound verdict that stand behind the loops made.
fn append_sound_back(sound: &Final, strings: &[String], out: &mut Vec<u8>) -> Result<(), NoMemory>
    ensures { OnOk result (out.new.items ≡ out.old.items ++ sound_back sound.now) }
{
    append_list_member(",\"needles\":", sound.stacks.as_slice(), strings, out)?;
    out.extend_from_slice(b",\"rack\":\"")?;
    append_rack(sound.rack, out)?;
    out.extend_from_slice(b"\",\"verdict\":\"sound\"}")?;
    Ok(())
}

// Appends the members of a broken verdict that stand before the loops made.
fn append_broken_front(fault: Fault, out: &mut Vec<u8>) -> Result<(), NoMemory>
    ensures { OnOk result (out.new.items ≡ out.old.items ++ broken_front fault) }
{
    append_labelled("{\"at\":", u64::from(fault.reason.at), out)?;
    append_labelled(",\"line\":", u64::from(fault.line), out)
}

// Appends the members of a broken verdict that stand behind the loops made.
fn append_broken_back(
    alloc: Global,
    rule: Rule,
    broken: &str,
    out: &mut Vec<u8>,
) -> Result<(), NoMemory>
    ensures { OnOk result (out.new.items ≡ out.old.items ++ broken_back broken.now rule) }
{
    let text = quoted_text(alloc, broken)?;
    out.extend_from_slice(b",\"rule\":\"")?;
    out.extend_from_slice(rule.name().as_bytes())?;
    out.extend_from_slice(b"\",\"text\":")?;
    out.extend_from_slice(text.as_bytes())?;
    out.extend_from_slice(b",\"verdict\":\"broken\"}")?;
    Ok(())
}

fn append_front(
    alloc: Global,
    verdict: &Verdict,
    strings: &[String],
    out: &mut Vec<u8>,
) -> Result<(), NoMemory>
    requires { length strings.now ≤ 64 }
    ensures { OnOk result (out.new.items ≡ out.old.items ++ front_text (map string_bytes strings.now) verdict.now) }
{
    match verdict {
        Verdict::Sound(sound) => append_sound_front(alloc, sound, strings, out),
        Verdict::Broken(fault) => append_broken_front(*fault, out),
    }
}

fn append_back(
    alloc: Global,
    verdict: &Verdict,
    strings: &[String],
    broken: &str,
    out: &mut Vec<u8>,
) -> Result<(), NoMemory>
    ensures { OnOk result (out.new.items ≡ out.old.items ++ back_text broken.now verdict.now) }
{
    match verdict {
        Verdict::Sound(sound) => append_sound_back(sound, strings, out),
        Verdict::Broken(fault) => append_broken_back(alloc, fault.reason.rule, broken, out),
    }
}

// Appends the whole line.
fn append_json(
    alloc: Global,
    verdict: &Verdict,
    facts: Option<&Facts>,
    strings: &[String],
    broken: &str,
    out: &mut Vec<u8>,
) -> Result<(), NoMemory>
    requires { length strings.now ≤ 64 }
    ensures { OnOk result (out.new.items ≡ out.old.items ++ verdict_json_line (map string_bytes strings.now) broken.now verdict.now (option_copied facts.entry)) }
{
    append_front(alloc, verdict, strings, out)?;
    append_made(facts, strings, out)?;
    append_back(alloc, verdict, strings, broken, out)?;
    out.extend_from_slice(b"\n")?;
    Ok(())
}

/// Appends a verdict as one compact JSON object and a line feed, with the loops made, where `facts` gives them. `broken` is
/// the line of a broken verdict, as it stands in the file. After `NoMemory` the buffer is as before.
///
/// It is for a report that stands in one buffer with others; `check` writes that of `json_of` as it is.
///
/// Sound: `held`, `hook`, `in`, `lines`, `made`, `needles`, `rack` and `verdict`. Broken: `at`, `line`, `rule`, `text` and
/// `verdict`. Where the loops are given both have `made_loops`. Keys stand in the order of their bytes. Carriers are as
/// for `report_text`.
pub fn report_json(
    alloc: Global,
    verdict: &Verdict,
    facts: Option<&Facts>,
    declared: &Declared,
    broken: &str,
    out: &mut Vec<u8>,
) -> Result<(), NoMemory>
    ensures ok { OnOk result (out.new.items ≡ out.old.items ++ verdict_json declared.now broken.now verdict.now (option_copied facts.entry)) }
    ensures err { OnErr result (out.new.items ≡ out.old.items) }
{
    let text = json_of(alloc, verdict, facts, declared, broken)?;
    out.extend_from_slice(&text)?;
    Ok(())
}

/// A verdict as JSON, as `report_json` appends it.
pub fn json_of(
    alloc: Global,
    verdict: &Verdict,
    facts: Option<&Facts>,
    declared: &Declared,
    broken: &str,
) -> Result<Vec<u8>, NoMemory>
    ensures { IfOk result (λ text. text.items ≡ verdict_json declared.now broken.now verdict.now (option_copied facts.entry)) }
{
    let strings = quoted_names(alloc, declared)?;
    let mut text = Vec::new(alloc);
    append_json(alloc, verdict, facts, &strings, broken, &mut text)?;
    Ok(text)
}
