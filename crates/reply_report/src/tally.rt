//! The report of a tally.
ghost use Rattle.std.specs.Prelude.{◌≡◌, ◌++◌, length, IfOk, OnOk};
ghost use Rattle.tally_tree.specs.Tallies.{counts_of_tally};
ghost use Rattle.reply_report.specs.TallyText.{class_labels, labelled_each, spaced_needles, tally_line, tally_text, carrier_line_text, with_lines};

use knit_base::{CarrierNo, Declared, Needle, NoMemory, append_labelled, append_needle};
use std::alloc::Global;
use tally_tree::Tally;

/// What the blocks from one place to another come to, for carriers of these names: the lines and the operations of each class, the lines
/// that form loops with each carrier, and the needles.
pub fn tally_of(
    alloc: Global,
    from: u32,
    to: u32,
    tally: &Tally,
    declared: &Declared,
) -> Result<Vec<u8>, NoMemory>
    requires { length tally.now.with.items ≡ length declared.now }
    ensures { IfOk result (λ text. text.items ≡ tally_text from to declared.now (counts_of_tally tally.now)) }
{
    let mut text = Vec::new(alloc);
    append_tally(from, to, tally, declared, &mut text)?;
    Ok(text)
}

/// Appends what `tally_of` makes.
pub(crate) fn append_tally(
    from: u32,
    to: u32,
    tally: &Tally,
    declared: &Declared,
    out: &mut Vec<u8>,
) -> Result<(), NoMemory>
    requires { length tally.now.with.items ≡ length declared.now }
    ensures { OnOk result (out.new.items ≡ out.old.items ++ tally_text from to declared.now (counts_of_tally tally.now)) }
{
    append_first_line(from, to, tally, out)?;
    append_with(declared, &tally.with, out)?;
    out.extend_from_slice(b"needles")?;
    append_needles(&tally.needles, out)?;
    out.extend_from_slice(b"\n")?;
    Ok(())
}

// Appends the places, the number of lines, and that of the operations of each class.
fn append_first_line(from: u32, to: u32, tally: &Tally, out: &mut Vec<u8>) -> Result<(), NoMemory>
    ensures { OnOk result (out.new.items ≡ out.old.items ++ tally_line from to (counts_of_tally tally.now)) }
{
    append_labelled("tally ", u64::from(from), out)?;
    append_labelled("-", u64::from(to), out)?;
    append_labelled(" lines ", u64::from(tally.lines), out)?;
    append_classes(&tally.ops, out)?;
    out.extend_from_slice(b"\n")?;
    Ok(())
}

// Appends the number of operations of each class.
fn append_classes(ops: &[u32; 4], out: &mut Vec<u8>) -> Result<(), NoMemory>
    ensures { OnOk result (out.new.items ≡ out.old.items ++ labelled_each class_labels ops.now) }
{
    let [form, split, moves, drop] = *ops;
    append_labelled(" form ", u64::from(form), out)?;
    append_labelled(" split ", u64::from(split), out)?;
    append_labelled(" move ", u64::from(moves), out)?;
    append_labelled(" drop ", u64::from(drop), out)?;
    Ok(())
}

// Appends a line for each carrier.
fn append_with(declared: &Declared, numbers: &[u32], out: &mut Vec<u8>) -> Result<(), NoMemory>
    requires { length numbers.now ≡ length declared.now }
    ensures { OnOk result (out.new.items ≡ out.old.items ++ with_lines declared.now numbers.now) }
{
    for c in 0..declared.len() {
        let Some(name) = declared.name(CarrierNo(c)) else {
            unreachable!();
        };
        append_with_line(name, numbers[usize::from(c)], out)?;
    }
    Ok(())
}

// Appends the line of a carrier.
fn append_with_line(name: &str, number: u32, out: &mut Vec<u8>) -> Result<(), NoMemory>
    ensures { OnOk result (out.new.items ≡ out.old.items ++ carrier_line_text name.now number) }
{
    out.extend_from_slice(b"with ")?;
    out.extend_from_slice(name.as_bytes())?;
    append_labelled(": ", u64::from(number), out)?;
    out.extend_from_slice(b"\n")?;
    Ok(())
}

// Appends needles, each behind a space.
fn append_needles(needles: &[Needle], out: &mut Vec<u8>) -> Result<(), NoMemory>
    ensures { OnOk result (out.new.items ≡ out.old.items ++ spaced_needles needles.now) }
{
    for needle in needles {
        out.extend_from_slice(b" ")?;
        append_needle(*needle, out)?;
    }
    Ok(())
}
