//! The passes of a program.
ghost use Rattle.std.specs.Prelude.{◌≡◌, ◌≤◌, ◌++◌, ◌∷◌, [], List, length, flat_map, codes, IfOk, OnOk, OnErr};
ghost use Rattle.pass_grouping.specs.declared.operation.PassOp.{PassOp};
ghost use Rattle.pass_grouping.specs.Facts.{last_of, way_of};
ghost use Rattle.pass_grouping.specs.Groupings.{IsCertificate, IsGrouping, passes_from};
ghost use Rattle.pass_grouping.specs.Told.{AreTold};
ghost use Rattle.verdict_report.specs.PassesText.{carriers_text, counts_text, ends_text, fact_text, kind_text, kind_words, line_at, pass_text, passes_text, range_text, told_text, window_before, window_text, windows_told};

use crate::strip::Strip;
use crate::text::append_names;
use knit_base::{CarrierNo, Declared, Dir, NoMemory, append_labelled};
use pass_grouping::{Class, Grouping, PassFact, PassOp, PassOps, ToldPasses, Window, pass_at};
use std::alloc::Global;

// The class and the direction of a pass.
fn kind_words(class: Class, way: Dir) -> &'static str
    ensures words { result.now ≡ kind_words class way }
    ensures short { length result.now ≤ 8 }
{
    match (class, way) {
        (Class::Form, Dir::Right) => " form +",
        (Class::Form, Dir::Left) => " form -",
        (Class::Split, Dir::Right) => " split +",
        (Class::Split, Dir::Left) => " split -",
        (Class::Move, Dir::Right) => " move +",
        (Class::Move, Dir::Left) => " move -",
        (Class::Drop, Dir::Right) => " drop +",
        (Class::Drop, Dir::Left) => " drop -",
    }
}

// The direction that is written, or else leftward where the last place lies left of the first.
fn way_of(written: Option<Dir>, first: i32, last: i32) -> Dir
    ensures { result ≡ way_of written first last }
{
    match written {
        Some(dir) => dir,
        None => { if last < first { Dir::Left } else { Dir::Right } }
    }
}

// The last of some operations, of which this is the first.
fn last_of<'a>(first: &'a PassOp, more: &'a [PassOp]) -> &'a PassOp
    ensures { result.now ≡ last_of first.now more.now }
{
    match more {
        [] => first,
        [.., last] => last,
    }
}

// Appends the carriers of a pass that uses some.
fn append_carriers(
    class: Class,
    carriers: &[CarrierNo],
    declared: &Declared,
    out: &mut Vec<u8>,
) -> Result<(), NoMemory>
    ensures { OnOk result (out.new.items ≡ out.old.items ++ carriers_text declared.now class carriers.now) }
{
    match class {
        Class::Form | Class::Split => {
            out.extend_from_slice(b" with")?;
            append_names(carriers, declared, out)
        }
        Class::Move | Class::Drop => Ok(()),
    }
}

// Appends two lines, the first and the last of something.
fn append_range(label: &str, first: u32, last: u32, out: &mut Vec<u8>) -> Result<(), NoMemory>
    ensures { OnOk result (out.new.items ≡ out.old.items ++ range_text label.now first last) }
{
    append_labelled(label, u64::from(first), out)?;
    append_labelled("-", u64::from(last), out)
}

// Appends the class and the direction of a pass with these ends.
fn append_kind(first: &PassOp, last: &PassOp, out: &mut Vec<u8>) -> Result<(), NoMemory>
    ensures { OnOk result (out.new.items ≡ out.old.items ++ kind_text first.now last.now) }
{
    let way = way_of(first.dir, first.place, last.place);
    out.extend_from_slice(kind_words(first.class, way).as_bytes())?;
    Ok(())
}

// Appends the line of a pass with these ends and so many operations.
fn append_ends(
    first: &PassOp,
    last: &PassOp,
    count: usize,
    declared: &Declared,
    out: &mut Vec<u8>,
) -> Result<(), NoMemory>
    ensures { OnOk result (out.new.items ≡ out.old.items ++ ends_text declared.now first.now last.now count) }
{
    append_range("pass ", first.line, last.line, out)?;
    append_kind(first, last, out)?;
    append_labelled(" ops ", count as u64, out)?;
    append_carriers(first.class, first.yarns.as_slice(), declared, out)?;
    out.extend_from_slice(b"\n")?;
    Ok(())
}

// Appends the line of a pass with these operations.
fn append_pass(ops: &[PassOp], declared: &Declared, out: &mut Vec<u8>) -> Result<(), NoMemory>
    ensures { OnOk result (out.new.items ≡ out.old.items ++ pass_text declared.now ops.now) }
{
    match ops {
        [] => Ok(()),
        [first, more @ ..] => append_ends(first, last_of(first, more), ops.len(), declared, out),
    }
}

// Appends a line for each pass.
fn append_passes(
    ops: &PassOps,
    starts: &[u32],
    declared: &Declared,
    out: &mut Vec<u8>,
) -> Result<(), NoMemory>
    requires { IsGrouping ops.now starts.now }
    ensures { OnOk result (out.new.items ≡ out.old.items ++ flat_map (pass_text declared.now) (passes_from ops.now starts.now)) }
{
    for k in 0..starts.len() {
        append_pass(pass_at(ops, starts, k), declared, out)?;
    }
    Ok(())
}

// The line of the operation at this place.
fn line_at(ops: &PassOps, i: u32) -> u32
    ensures { result ≡ line_at ops.now i }
{
    match ops.get(i) {
        Some(op) => op.line,
        None => 0,
    }
}

// Appends the line of a window.
fn append_window(ops: &PassOps, window: Window, out: &mut Vec<u8>) -> Result<(), NoMemory>
    ensures { OnOk result (out.new.items ≡ out.old.items ++ window_text ops.now window) }
{
    append_range(
        "window ",
        line_at(ops, window.from),
        line_at(ops, window.to),
        out,
    )?;
    out.extend_from_slice(b"\n")?;
    Ok(())
}

// Appends a line for each window.
fn append_windows(ops: &PassOps, windows: &[Window], out: &mut Vec<u8>) -> Result<(), NoMemory>
    ensures { OnOk result (out.new.items ≡ out.old.items ++ flat_map (window_text ops.now) windows.now) }
{
    'windows: for window in windows {
        append_window(ops, *window, out)?;
    }
    Ok(())
}

/// Appends how many passes, operations and windows there are.
pub(crate) fn append_counts(
    passes: u32,
    operations: u32,
    windows: u32,
    out: &mut Vec<u8>,
) -> Result<(), NoMemory>
    ensures { OnOk result (out.new.items ≡ out.old.items ++ counts_text passes operations windows) }
{
    append_labelled("passes ", u64::from(passes), out)?;
    append_labelled(" operations ", u64::from(operations), out)?;
    append_labelled(" windows ", u64::from(windows), out)?;
    out.extend_from_slice(b" checked\n")?;
    Ok(())
}

/// Appends the passes of a program, a line each, and the windows that show that there are no fewer. Lines are those of the file.
/// After `NoMemory` the buffer is as before.
///
/// It is for a report that stands in one buffer with others; `passes` writes that of `passes_of` as it is. A carrier that isn't
/// declared has an empty name.
pub fn report_passes(
    alloc: Global,
    ops: &PassOps,
    grouping: &Grouping,
    declared: &Declared,
    out: &mut Vec<u8>,
) -> Result<(), NoMemory>
    requires certificate { IsCertificate ops.now grouping.now.starts grouping.now.windows }
    ensures ok { OnOk result (out.new.items ≡ out.old.items ++ passes_text declared.now ops.now grouping.now.starts grouping.now.windows) }
    ensures err { OnErr result (out.new.items ≡ out.old.items) }
{
    let text = passes_of(alloc, ops, grouping, declared)?;
    out.extend_from_slice(&text)?;
    Ok(())
}

/// The passes of a program, as `report_passes` appends them.
pub fn passes_of(
    alloc: Global,
    ops: &PassOps,
    grouping: &Grouping,
    declared: &Declared,
) -> Result<Vec<u8>, NoMemory>
    requires certificate { IsCertificate ops.now grouping.now.starts grouping.now.windows }
    ensures { IfOk result (λ text. text.items ≡ passes_text declared.now ops.now grouping.now.starts grouping.now.windows) }
{
    let mut text = Vec::new(alloc);
    let Grouping { starts, windows } = grouping;
    append_counts(starts.len(), ops.len(), windows.len(), &mut text)?;
    append_passes(ops, starts.as_slice(), declared, &mut text)?;
    append_windows(ops, windows.as_slice(), &mut text)?;
    Ok(text)
}

// Appends the line of a pass of which this is told.
fn append_fact(fact: &PassFact, declared: &Declared, out: &mut Vec<u8>) -> Result<(), NoMemory>
    ensures { OnOk result (out.new.items ≡ out.old.items ++ fact_text declared.now fact.now) }
{
    let mut line = Strip::new();
    line.put_number(fact.count);
    line.put(" ops ");
    line.put(kind_words(fact.class, fact.way));
    line.put_number(fact.last_line);
    line.put("-");
    line.put_number(fact.first_line);
    line.put("pass ");
    out.extend_from_slice(line.as_slice())?;
    append_carriers(fact.class, fact.yarns.as_slice(), declared, out)?;
    out.extend_from_slice(b"\n")?;
    Ok(())
}

// Appends a line for each pass of which this is told.
fn append_facts(facts: &[PassFact], declared: &Declared, out: &mut Vec<u8>) -> Result<(), NoMemory>
    ensures { OnOk result (out.new.items ≡ out.old.items ++ flat_map (fact_text declared.now) facts.now) }
{
    'facts: for fact in facts {
        append_fact(fact, declared, out)?;
    }
    Ok(())
}

// Appends a line for the window from each pass to the next.
fn append_told_windows(facts: &[PassFact], out: &mut Vec<u8>) -> Result<(), NoMemory>
    ensures { OnOk result (out.new.items ≡ out.old.items ++ windows_told facts.now) }
{
    let mut before = None;
    'facts: for fact in facts {
        append_window_before(before, fact.first_line, out)?;
        before = Some(fact.first_line);
    }
    Ok(())
}

// Appends the line of the window from the pass before, if there is one, to the pass that begins at this line.
fn append_window_before(before: Option<u32>, line: u32, out: &mut Vec<u8>) -> Result<(), NoMemory>
    ensures { OnOk result (out.new.items ≡ out.old.items ++ window_before before line) }
{
    let Some(first) = before else {
        return Ok(());
    };
    let mut text = Strip::new();
    text.put("\n");
    text.put_number(line);
    text.put("-");
    text.put_number(first);
    text.put("window ");
    out.extend_from_slice(text.as_slice())?;
    Ok(())
}

// Appends the counts, a line for each pass of which this is told, and one for each window.
fn append_told(passes: &ToldPasses, declared: &Declared, out: &mut Vec<u8>) -> Result<(), NoMemory>
    ensures { OnOk result (out.new.items ≡ out.old.items ++ told_text declared.now passes.now.operations passes.now.facts) }
{
    let facts = passes.facts.as_slice();
    let count = passes.facts.len();
    append_counts(count, passes.operations, count.saturating_sub(1), out)?;
    append_facts(facts, declared, out)?;
    append_told_windows(facts, out)?;
    Ok(())
}

/// The passes of a program that are told, as `report_passes` appends them. Fails where memory runs out.
pub fn passes_told(
    alloc: Global,
    passes: &ToldPasses,
    declared: &Declared,
) -> Result<Vec<u8>, NoMemory>
    ensures { IfOk result (λ text. (ops : List PassOp) (told : AreTold ops passes.now)
        → text.items ≡ passes_text declared.now ops told.starts told.windows) }
{
    // (a pass takes two lines, of some 60 bytes)
    let room = 64 * (passes.facts.as_slice().len() + 1);
    let mut text = Vec::with_capacity(alloc, room)?;
    append_told(passes, declared, &mut text)?;
    Ok(text)
}
