//! A verdict as text.
ghost use Rattle.std.specs.Prelude.{◌≡◌, ◌+◌, ◌++◌, ◌<◌, ◌^◌, [], length, drop, codes, decimal, flat_map, IfOk, OnOk, OnErr};
ghost use Rattle.std.specs.Option.{option_copied};
ghost use Rattle.carriage_model.specs.FactList.{lent_fact};
ghost use Rattle.carriage_model.specs.Verdict.{held_on};
ghost use Rattle.verdict_report.specs.VerdictText.{broken_brief, broken_text, end_text, line_word, lines_text, loop_text, loops_text, name_word, names_text, loop_place_text, rule_word, set_text, sound_brief, sound_text, stack_text, verdict_text};

use crate::carriers::carriers_of;
use crate::strip::Strip;
use carriage_model::{FactRef, Facts, Final, Stack, Verdict};
use knit_base::{
    CarrierNo, Declared, Fault, NoMemory, Quarter, Rule, append_labelled, append_needle,
    append_number, append_rack,
};
use std::alloc::Global;

// Appends a space and the name of a carrier.
fn append_name(c: CarrierNo, declared: &Declared, out: &mut Vec<u8>) -> Result<(), NoMemory>
    ensures { OnOk result (out.new.items ≡ out.old.items ++ name_word declared.now c) }
{
    let name = declared.name(c).unwrap_or("");
    out.extend_from_slice(b" ")?;
    out.extend_from_slice(name.as_bytes())?;
    Ok(())
}

/// Appends a space and the name of each carrier.
pub(crate) fn append_names(
    carriers: &[CarrierNo],
    declared: &Declared,
    out: &mut Vec<u8>,
) -> Result<(), NoMemory>
    ensures { OnOk result (out.new.items ≡ out.old.items ++ names_text declared.now carriers.now) }
{
    'carriers: for c in carriers {
        append_name(*c, declared, out)?;
    }
    Ok(())
}

// Appends a space and the number of a line.
fn append_line(line: u32, out: &mut Vec<u8>) -> Result<(), NoMemory>
    ensures { OnOk result (out.new.items ≡ out.old.items ++ line_word line) }
{
    out.extend_from_slice(b" ")?;
    append_number(u64::from(line), out)
}

// Appends a space and the number of each line.
fn append_lines(lines: &[u32], out: &mut Vec<u8>) -> Result<(), NoMemory>
    ensures { OnOk result (out.new.items ≡ out.old.items ++ lines_text lines.now) }
{
    'lines: for line in lines {
        append_line(*line, out)?;
    }
    Ok(())
}

/// How many loops the needles hold.
pub(crate) fn held(stacks: &[Stack]) -> u64
    requires { length stacks.now < 2 ^ 32 }
    ensures { result ≡ held_on stacks.now }
{
    let mut held = 0;
    'stacks: for stack in stacks {
        held += u64::from(stack.loops.len());
    }
    held
}

/// Appends in short what a sound program leaves.
pub(crate) fn append_sound_brief(
    lines: u32,
    made: u32,
    held: u64,
    rack: Quarter,
    out: &mut Vec<u8>,
) -> Result<(), NoMemory>
    ensures { OnOk result (out.new.items ≡ out.old.items ++ sound_brief lines made held rack.0) }
{
    append_labelled("sound lines ", u64::from(lines), out)?;
    append_labelled(" made ", u64::from(made), out)?;
    append_labelled(" held ", held, out)?;
    out.extend_from_slice(b" rack ")?;
    append_rack(rack, out)
}

// Appends the name of a rule.
fn append_rule(rule: Rule, out: &mut Vec<u8>) -> Result<(), NoMemory>
    ensures { OnOk result (out.new.items ≡ out.old.items ++ rule_word rule) }
{
    out.extend_from_slice(b" rule ")?;
    out.extend_from_slice(rule.name().as_bytes())?;
    Ok(())
}

/// Appends in short which line breaks which rule, and where.
pub(crate) fn append_broken_brief(fault: Fault, out: &mut Vec<u8>) -> Result<(), NoMemory>
    ensures { OnOk result (out.new.items ≡ out.old.items ++ broken_brief fault) }
{
    append_labelled("broken line ", u64::from(fault.line), out)?;
    append_rule(fault.reason.rule, out)?;
    append_labelled(" at ", u64::from(fault.reason.at), out)
}

// Appends the line of a set of carriers, which begins with this label.
fn append_set(
    alloc: Global,
    label: &str,
    set: u64,
    declared: &Declared,
    out: &mut Vec<u8>,
) -> Result<(), NoMemory>
    ensures { OnOk result (out.new.items ≡ out.old.items ++ set_text label.now declared.now set) }
{
    let carriers = carriers_of(alloc, declared.len(), set)?;
    out.extend_from_slice(label.as_bytes())?;
    append_names(carriers.as_slice(), declared, out)?;
    out.extend_from_slice(b"\n")?;
    Ok(())
}

// Appends the line of a needle.
fn append_stack(stack: &Stack, out: &mut Vec<u8>) -> Result<(), NoMemory>
    ensures { OnOk result (out.new.items ≡ out.old.items ++ stack_text stack.now) }
{
    append_needle(stack.needle, out)?;
    out.extend_from_slice(b":")?;
    append_lines(stack.loops.as_slice(), out)?;
    out.extend_from_slice(b"\n")?;
    Ok(())
}

// Appends a line for each needle.
fn append_stacks(stacks: &[Stack], out: &mut Vec<u8>) -> Result<(), NoMemory>
    ensures { OnOk result (out.new.items ≡ out.old.items ++ flat_map stack_text stacks.now) }
{
    'stacks: for stack in stacks {
        append_stack(stack, out)?;
    }
    Ok(())
}

// Appends the lines of a sound verdict.
fn append_sound(
    alloc: Global,
    sound: &Final,
    declared: &Declared,
    out: &mut Vec<u8>,
) -> Result<(), NoMemory>
    ensures { OnOk result (out.new.items ≡ out.old.items ++ sound_text declared.now sound.now) }
{
    let stacks = sound.stacks.as_slice();
    append_sound_brief(sound.lines, sound.made, held(stacks), sound.rack, out)?;
    out.extend_from_slice(b"\n")?;
    append_set(alloc, "in:", sound.ins, declared, out)?;
    append_set(alloc, "hook:", sound.hook, declared, out)?;
    append_stacks(stacks, out)
}

// Appends the lines of a broken verdict.
fn append_broken(fault: Fault, broken: &str, out: &mut Vec<u8>) -> Result<(), NoMemory>
    ensures { OnOk result (out.new.items ≡ out.old.items ++ broken_text broken.now fault) }
{
    append_broken_brief(fault, out)?;
    out.extend_from_slice(b"\n> ")?;
    out.extend_from_slice(broken.as_bytes())?;
    out.extend_from_slice(b"\n")?;
    Ok(())
}

/// Appends the end of the program, or its fault.
pub(crate) fn append_end(
    alloc: Global,
    verdict: &Verdict,
    declared: &Declared,
    broken: &str,
    out: &mut Vec<u8>,
) -> Result<(), NoMemory>
    ensures { OnOk result (out.new.items ≡ out.old.items ++ end_text declared.now broken.now verdict.now) }
{
    match verdict {
        Verdict::Sound(sound) => append_sound(alloc, sound, declared, out),
        Verdict::Broken(fault) => append_broken(*fault, broken, out),
    }
}

// Appends the line that made a loop, its needle and its direction.
fn append_place(fact: &FactRef, out: &mut Vec<u8>) -> Result<(), NoMemory>
    ensures { OnOk result (out.new.items ≡ out.old.items ++ loop_place_text (lent_fact fact.now)) }
{
    let mut place = Strip::new();
    place.put(fact.dir.sign());
    place.put(" ");
    place.put_needle(fact.needle);
    place.put(" on ");
    place.put_number(fact.line);
    place.put("loop ");
    out.extend_from_slice(place.as_slice())?;
    Ok(())
}

// Appends the lines of the loops that a loop goes through, and ends its line.
fn append_through(lines: &[u32], out: &mut Vec<u8>) -> Result<(), NoMemory>
    ensures { OnOk result (out.new.items ≡ out.old.items ++ (codes " through" ++ (lines_text lines.now ++ codes "\n"))) }
{
    match lines {
        [line] => append_through_one(*line, out),
        _ => {
            out.extend_from_slice(b" through")?;
            append_lines(lines, out)?;
            out.extend_from_slice(b"\n")?;
            Ok(())
        }
    }
}

// The same of one loop.
fn append_through_one(line: u32, out: &mut Vec<u8>) -> Result<(), NoMemory>
    ensures { OnOk result (out.new.items ≡ out.old.items ++ (codes " through" ++ (line_word line ++ codes "\n"))) }
{
    let mut text = Strip::new();
    text.put("\n");
    text.put_number(line);
    text.put(" through ");
    out.extend_from_slice(text.as_slice())?;
    Ok(())
}

/// Appends the line of a loop.
pub(crate) fn append_loop(
    fact: &FactRef,
    declared: &Declared,
    out: &mut Vec<u8>,
) -> Result<(), NoMemory>
    ensures { OnOk result (out.new.items ≡ out.old.items ++ loop_text declared.now (lent_fact fact.now)) }
{
    append_place(fact, out)?;
    out.extend_from_slice(b" with")?;
    append_names(fact.yarns, declared, out)?;
    append_through(fact.through, out)
}

// Appends the line of the loop at this place, if there is one.
fn append_loop_at(
    i: u32,
    facts: &Facts,
    declared: &Declared,
    out: &mut Vec<u8>,
) -> Result<(), NoMemory>
    ensures { OnOk result (out.new.items ++ flat_map (loop_text declared.now) (drop (i + 1) facts.now) ≡ out.old.items ++ flat_map (loop_text declared.now) (drop i facts.now)) }
{
    match facts.get(i) {
        Some(fact) => append_loop(&fact, declared, out),
        None => Ok(()),
    }
}

// Appends a line for each loop.
fn append_loops(facts: &Facts, declared: &Declared, out: &mut Vec<u8>) -> Result<(), NoMemory>
    ensures { OnOk result (out.new.items ≡ out.old.items ++ flat_map (loop_text declared.now) facts.now) }
{
    'facts: for i in 0..facts.len() {
        append_loop_at(i, facts, declared, out)?;
    }
    Ok(())
}

// Appends the loops made, where they are asked for.
fn append_made(
    facts: Option<&Facts>,
    declared: &Declared,
    out: &mut Vec<u8>,
) -> Result<(), NoMemory>
    ensures { OnOk result (out.new.items ≡ out.old.items ++ loops_text declared.now (option_copied facts.entry)) }
{
    match facts {
        Some(facts) => append_loops(facts, declared, out),
        None => Ok(()),
    }
}

/// Appends a verdict as text, a line for each needle that holds loops, and behind it a line for each loop made, where `facts`
/// gives them. `broken` is the line of a broken verdict, as it stands in the file. After `NoMemory` the buffer is as before.
///
/// It is for a report that stands in one buffer with others; `check` writes that of `text_of` as it is.
///
/// The sets of carriers and the loops are those of declared carriers: of others a set says nothing, and a loop has an empty
/// name.
pub fn report_text(
    alloc: Global,
    verdict: &Verdict,
    facts: Option<&Facts>,
    declared: &Declared,
    broken: &str,
    out: &mut Vec<u8>,
) -> Result<(), NoMemory>
    ensures ok { OnOk result (out.new.items ≡ out.old.items ++ verdict_text declared.now broken.now verdict.now (option_copied facts.entry)) }
    ensures err { OnErr result (out.new.items ≡ out.old.items) }
{
    let text = text_of(alloc, verdict, facts, declared, broken)?;
    out.extend_from_slice(&text)?;
    Ok(())
}

/// A verdict as text, as `report_text` appends it.
pub fn text_of(
    alloc: Global,
    verdict: &Verdict,
    facts: Option<&Facts>,
    declared: &Declared,
    broken: &str,
) -> Result<Vec<u8>, NoMemory>
    ensures { IfOk result (λ text. text.items ≡ verdict_text declared.now broken.now verdict.now (option_copied facts.entry)) }
{
    let mut text = Vec::new(alloc);
    append_end(alloc, verdict, declared, broken, &mut text)?;
    append_made(facts, declared, &mut text)?;
    Ok(text)
}
