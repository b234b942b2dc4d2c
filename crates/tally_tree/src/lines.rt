//! What the lines of a text come to.
ghost use Rattle.std.specs.Prelude.{◌≡◌, ◌+◌, ◌-◌, ◌<◌, ◌≤◌, ◌^◌, ◌++◌, ◌==◌, ◌↔◌, All, length, slice_index, IfOk, OnOk};
ghost use Rattle.std.specs.List.{Contains, list_any};
ghost use Rattle.knit_base.specs.declared.instr.Read.TheVariants as read;
ghost use Rattle.knit_base.specs.declared.needle.Needle.{Needle};
ghost use Rattle.knit_base.specs.declared.yarns.CarrierNo.{CarrierNo};
ghost use Rattle.knit_base.specs.Instr.{needles_of};
ghost use Rattle.knit_base.specs.Limits.{IsLawfulProfile};
ghost use Rattle.pass_grouping.specs.declared.operation.Class.{Class};
ghost use Rattle.tally_tree.specs.Counting.{AreLinesCounted, Counts, CountsLine, HasCountRoom, IsMoreWhere, one_if};
ghost use Rattle.tally_tree.specs.Leaves.{IsOnBeds};
ghost use Rattle.tally_tree.specs.Needles.{AreNeedlesRising};
ghost use Rattle.tally_tree.specs.Tallies.{IsLineTally, class_of, class_place, counts_of_tally, forms_with};

use crate::tally::Tally;
use knit_base::{
    BlockText, CarrierNo, Instr, Needle, NoMemory, Read, Setting, Steps, Yarns, is_in_set,
};
use knitout_reader::read_line;
use pass_grouping::Class;
use std::alloc::Global;
use std::sync::ledger::Ledger;

/// The tally of a text, read by a setting. It costs a step for each line.
pub(crate) fn tally_of<L: Ledger>(
    alloc: Global,
    text: &BlockText,
    setting: &Setting,
    steps: &mut Steps<L>,
) -> Result<Tally, NoMemory>
    requires profile { IsLawfulProfile setting.now.profile }
    requires few { length text.now ≤ 4096 }
    ensures tally { IfOk result (λ tally. IsLineTally setting.now.profile setting.now.declared text.now (counts_of_tally tally)) }
    ensures on_beds { IfOk result (λ tally. IsOnBeds (counts_of_tally tally)) }
    ensures steps { steps.new ≤ steps.old + length text.now }
{
    let mut tally = count_lines(alloc, text, setting, steps)?;
    sort_needles(&mut tally.needles);
    Ok(tally)
}

// The lines, counted. Their needles stand in the order of the lines.
fn count_lines<L: Ledger>(
    alloc: Global,
    text: &BlockText,
    setting: &Setting,
    steps: &mut Steps<L>,
) -> Result<Tally, NoMemory>
    requires profile { IsLawfulProfile setting.now.profile }
    requires few { length text.now ≤ 4096 }
    ensures lines { IfOk result (λ tally. AreLinesCounted setting.now.profile setting.now.declared text.now (counts_of_tally tally)) }
    ensures steps { steps.new ≤ steps.old + length text.now }
{
    let mut tally = Tally::of_no_line(alloc, usize::from(setting.declared.len()))?;
    for at in 0..text.len() {
        let line = text.line(at, steps);
        count_line(alloc, line, setting, &mut tally)?;
    }
    Ok(tally)
}

// Reads one line more and counts it.
fn count_line(
    alloc: Global,
    line: &str,
    setting: &Setting,
    tally: &mut Tally,
) -> Result<(), NoMemory>
    requires short { length line.now < 2 ^ 16 }
    requires few { tally.old.lines < 2 ^ 32 - 1 }
    requires room { HasCountRoom (counts_of_tally tally.old) }
    ensures { OnOk result (CountsLine setting.now.profile setting.now.declared line.now (counts_of_tally tally.old) (counts_of_tally tally.new)) }
{
    let read = read_line(alloc, line, &setting.profile, &setting.declared)?;
    tally.lines += 1;
    count(tally, &read)
}

// Counts what a line is to the carriage and its carriers.
fn count(tally: &mut Tally, read: &Read) -> Result<(), NoMemory>
    requires { HasCountRoom (counts_of_tally tally.old) }
    ensures lines { OnOk result (tally.new.lines ≡ tally.old.lines) }
    ensures counts { OnOk result (Counts read.now (counts_of_tally tally.old) (counts_of_tally tally.new)) }
{
    match read {
        Read::Instr(instr) => count_instr(tally, instr),
        Read::Blank | Read::Comment | Read::Broken(_) => Ok(()),
    }
}

fn count_instr(tally: &mut Tally, instr: &Instr) -> Result<(), NoMemory>
    requires { HasCountRoom (counts_of_tally tally.old) }
    ensures lines { OnOk result (tally.new.lines ≡ tally.old.lines) }
    ensures counts { OnOk result (Counts (read.Instr instr.now) (counts_of_tally tally.old) (counts_of_tally tally.new)) }
{
    count_loops(&mut tally.with, instr);
    let Some(class) = class_of(instr) else {
        return Ok(());
    };
    count_operation(&mut tally.ops, class);
    append_needles(&mut tally.needles, instr)
}

// One more for each carrier that the instruction forms a loop with.
fn count_loops(with: &mut [u32], instr: &Instr)
    requires carriers { length with.old ≤ 64 }
    requires room { All (λ n. n < 2 ^ 32 - 1) with.old }
    ensures { IsMoreWhere (λ c. forms_with c (read.Instr instr.now)) with.old with.new }
{
    match instr {
        Instr::Knit(_, _, yarns) | Instr::Tuck(_, _, yarns) => count_yarns(with, yarns),
        Instr::Split(_, _, _, yarns) => count_yarns(with, yarns),
        _ => {}
    }
}

// One more for each of these carriers, of which one may stand twice.
fn count_yarns(with: &mut [u32], yarns: &Yarns)
    requires carriers { length with.old ≤ 64 }
    requires room { All (λ n. n < 2 ^ 32 - 1) with.old }
    ensures { IsMoreWhere (λ c. list_any (λ (carrier : CarrierNo). carrier.0 == c) yarns.now) with.old with.new }
{
    let set = yarns.mask();
    for c in 0..with.len() {
        if is_in_set(set, CarrierNo(c as u8)) {
            with[c] += 1;
        }
    }
}

// The class of the operation that an instruction is to the carriage, if it is one.
fn class_of(instr: &Instr) -> Option<Class>
    ensures { result ≡ class_of (read.Instr instr.now) }
{
    match instr {
        Instr::Knit(_, _, yarns) | Instr::Tuck(_, _, yarns) => {
            if yarns.len() == 0 {
                return Some(Class::Drop);
            }
            Some(Class::Form)
        }
        Instr::Miss(_, _, yarns) => {
            if yarns.len() == 0 {
                return None;
            }
            Some(Class::Form)
        }
        Instr::Split(_, _, _, yarns) => {
            if yarns.len() == 0 {
                return Some(Class::Move);
            }
            Some(Class::Split)
        }
        Instr::Xfer(_, _) => Some(Class::Move),
        Instr::Drop(_) | Instr::Amiss(_) => Some(Class::Drop),
        _ => None,
    }
}

// One operation more of this class.
fn count_operation(ops: &mut [u32; 4], class: Class)
    requires { All (λ n. n < 2 ^ 32 - 1) ops.old }
    ensures { (other : Class) → slice_index ops.new (class_place other)
        ≡ slice_index ops.old (class_place other) + one_if (class_place class == class_place other) }
{
    let [form, split, moved, dropped] = *ops;
    *ops = match class {
        Class::Form => [form + 1, split, moved, dropped],
        Class::Split => [form, split + 1, moved, dropped],
        Class::Move => [form, split, moved + 1, dropped],
        Class::Drop => [form, split, moved, dropped + 1],
    };
}

// The needles of an instruction, as written, behind the others.
fn append_needles(needles: &mut Vec<Needle>, instr: &Instr) -> Result<(), NoMemory>
    ensures { OnOk result (needles.new.items ≡ needles.old.items ++ needles_of instr.now) }
{
    match instr {
        Instr::Knit(_, n, _) | Instr::Tuck(_, n, _) | Instr::Miss(_, n, _) => needles.push(*n)?,
        Instr::Drop(n) | Instr::Amiss(n) => needles.push(*n)?,
        Instr::Split(_, n, m, _) | Instr::Xfer(n, m) => {
            needles.push(*n)?;
            needles.push(*m)?;
        }
        _ => {}
    }
    Ok(())
}

// The needles in their order, each once.
fn sort_needles(needles: &mut Vec<Needle>)
    ensures rising { AreNeedlesRising needles.new.items }
    ensures same { (n : Needle) → Contains needles.new.items n ↔ Contains needles.old.items n }
{
    needles.sort_unstable();
    needles.dedup();
}
