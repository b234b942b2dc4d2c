//! The lines of a reply.
ghost use Rattle.std.specs.Prelude.{◌≡◌, ◌+◌, ◌++◌, codes, drop, flat_map, length, OnOk, OnErr};
ghost use Rattle.carriage_model.specs.FactList.{lent_fact};
ghost use Rattle.edit_book.specs.declared.reply.Reply.TheVariants as reply;
ghost use Rattle.knit_base.specs.Spelling.{labelled_number};
ghost use Rattle.verdict_report.specs.VerdictText.{end_text};
ghost use Rattle.verdict_report.specs.LiveText.{accepted_text, at_block, barred_line, block_name_text, block_text, fact_text, full_text, reply_text, shown_text, stale_text, which_word};

use crate::brief::append_brief;
use crate::text::{append_end, append_loop};
use carriage_model::{Brief, FactRef, LoopFact, Verdict};
use edit_book::{Reply, Which};
use edit_journal::{BlockName, HEAD};
use knit_base::{Declared, Lines, NoMemory, append_labelled, append_number};
use std::alloc::Global;

// Appends a block as a session names it.
fn append_block_name(name: BlockName, out: &mut Vec<u8>) -> Result<(), NoMemory>
    ensures { OnOk result (out.new.items ≡ out.old.items ++ block_name_text name) }
{
    match name {
        BlockName::Id(id) => append_number(u64::from(id), out),
        BlockName::Own(number) => append_labelled("@", u64::from(number), out),
    }
}

// The name of a count that has a limit.
fn which_word(which: Which) -> &'static str
    ensures { result.now ≡ which_word which }
{
    match which {
        Which::Entries => "entries",
        Which::Blocks => "blocks",
        Which::Lines => "lines",
    }
}

// Appends a block's id, or that it is the header.
fn append_block(block: u32, out: &mut Vec<u8>) -> Result<(), NoMemory>
    ensures { OnOk result (out.new.items ≡ out.old.items ++ block_text block) }
{
    if block == HEAD {
        out.extend_from_slice(b" block head")?;
        return Ok(());
    }
    append_labelled(" block ", u64::from(block), out)
}

// Appends a label, a version and a block.
fn append_at_block(label: &str, version: u32, block: u32, out: &mut Vec<u8>) -> Result<(), NoMemory>
    ensures { OnOk result (out.new.items ≡ out.old.items ++ at_block label.now version block) }
{
    append_labelled(label, u64::from(version), out)?;
    append_block(block, out)
}

// Appends that an edit of the block was done, and the verdict after it.
fn append_accepted(version: u32, block: u32, told: Brief, out: &mut Vec<u8>) -> Result<(), NoMemory>
    ensures { OnOk result (out.new.items ≡ out.old.items ++ accepted_text version block told) }
{
    append_at_block("accepted version ", version, block, out)?;
    out.extend_from_slice(b" ")?;
    append_brief(told, out)?;
    out.extend_from_slice(b"\n")?;
    Ok(())
}

// Appends a line of a block, behind a bar.
fn append_barred(line: &str, out: &mut Vec<u8>) -> Result<(), NoMemory>
    ensures { OnOk result (out.new.items ≡ out.old.items ++ barred_line line.now) }
{
    out.extend_from_slice(b"|")?;
    out.extend_from_slice(line.as_bytes())?;
    out.extend_from_slice(b"\n")?;
    Ok(())
}

// Appends the line at this place, if there is one.
fn append_line_at(i: u32, lines: &Lines, out: &mut Vec<u8>) -> Result<(), NoMemory>
    ensures { OnOk result (out.new.items ++ flat_map barred_line (drop (i + 1) lines.now) ≡ out.old.items ++ flat_map barred_line (drop i lines.now)) }
{
    match lines.get(i) {
        Some(line) => append_barred(line, out),
        None => Ok(()),
    }
}

// Appends the lines of a block.
fn append_text(lines: &Lines, out: &mut Vec<u8>) -> Result<(), NoMemory>
    ensures { OnOk result (out.new.items ≡ out.old.items ++ flat_map barred_line lines.now) }
{
    'lines: for i in 0..lines.len() {
        append_line_at(i, lines, out)?;
    }
    Ok(())
}

// Appends the number of a block's first line, and its lines.
fn append_lines(first: u32, lines: &Lines, out: &mut Vec<u8>) -> Result<(), NoMemory>
    ensures { OnOk result (out.new.items ≡ out.old.items ++ (labelled_number (codes " first ") first ++ (labelled_number (codes " lines ") (length lines.now) ++ (codes "\n" ++ flat_map barred_line lines.now)))) }
{
    append_labelled(" first ", u64::from(first), out)?;
    append_labelled(" lines ", u64::from(lines.len()), out)?;
    out.extend_from_slice(b"\n")?;
    append_text(lines, out)
}

// Appends a block as it stands.
fn append_shown(
    version: u32,
    block: u32,
    stamp: u32,
    first: u32,
    lines: &Lines,
    out: &mut Vec<u8>,
) -> Result<(), NoMemory>
    ensures { OnOk result (out.new.items ≡ out.old.items ++ shown_text version block stamp first lines.now) }
{
    append_at_block("shown version ", version, block, out)?;
    append_labelled(" stamp ", u64::from(stamp), out)?;
    append_lines(first, lines, out)
}

// The loop, lent.
fn lent(fact: &LoopFact) -> FactRef<'_>
    ensures { lent_fact result ≡ fact.now }
{
    FactRef {
        line: fact.line,
        needle: fact.needle,
        dir: fact.dir,
        yarns: fact.yarns.as_slice(),
        through: fact.through.as_slice(),
    }
}

// Appends the loop of a line, or that the line makes none.
fn append_fact(
    fact: &Option<LoopFact>,
    declared: &Declared,
    out: &mut Vec<u8>,
) -> Result<(), NoMemory>
    ensures { OnOk result (out.new.items ≡ out.old.items ++ fact_text declared.now fact.now) }
{
    match fact {
        Some(fact) => append_loop(&lent(fact), declared, out),
        None => {
            out.extend_from_slice(b"none\n")?;
            Ok(())
        }
    }
}

// Appends the answer to a question for a loop.
fn append_loop_reply(
    version: u32,
    fact: &Option<LoopFact>,
    declared: &Declared,
    out: &mut Vec<u8>,
) -> Result<(), NoMemory>
    ensures { OnOk result (out.new.items ≡ out.old.items ++ reply_text declared.now (reply.Loop version fact.now)) }
{
    append_labelled("loop version ", u64::from(version), out)?;
    out.extend_from_slice(b" ")?;
    append_fact(fact, declared, out)
}

/// Appends a label, a version, and the verdict, which is broken at this line.
pub(crate) fn append_verdict(
    alloc: Global,
    label: &str,
    version: u32,
    verdict: &Verdict,
    declared: &Declared,
    broken: &str,
    out: &mut Vec<u8>,
) -> Result<(), NoMemory>
    ensures { OnOk result (out.new.items ≡ out.old.items ++ labelled_number label.now version ++ (codes "\n" ++ end_text declared.now broken.now verdict.now)) }
{
    append_labelled(label, u64::from(version), out)?;
    out.extend_from_slice(b"\n")?;
    append_end(alloc, verdict, declared, broken, out)
}

// Appends the stamp that was seen, and the one that there is.
fn append_stamps(seen: u32, now: u32, out: &mut Vec<u8>) -> Result<(), NoMemory>
    ensures { OnOk result (out.new.items ≡ out.old.items ++ (labelled_number (codes " seen ") seen ++ (labelled_number (codes " now ") now ++ codes "\n"))) }
{
    append_labelled(" seen ", u64::from(seen), out)?;
    append_labelled(" now ", u64::from(now), out)?;
    out.extend_from_slice(b"\n")?;
    Ok(())
}

// Appends that a block has another stamp than the one that was seen.
fn append_stale(
    version: u32,
    block: u32,
    seen: u32,
    now: u32,
    out: &mut Vec<u8>,
) -> Result<(), NoMemory>
    ensures { OnOk result (out.new.items ≡ out.old.items ++ stale_text version block seen now) }
{
    append_at_block("stale version ", version, block, out)?;
    append_stamps(seen, now, out)
}

// Appends a label, a version, a block, and a number behind its own label.
fn append_numbered_block(
    label: &str,
    version: u32,
    block: u32,
    number_label: &str,
    number: u32,
    out: &mut Vec<u8>,
) -> Result<(), NoMemory>
    ensures { OnOk result (out.new.items ≡ out.old.items ++ (at_block label.now version block ++ (labelled_number number_label.now number ++ codes "\n"))) }
{
    append_at_block(label, version, block, out)?;
    append_labelled(number_label, u64::from(number), out)?;
    out.extend_from_slice(b"\n")?;
    Ok(())
}

// Appends a count and its limit.
fn append_limit(which: Which, limit: u32, out: &mut Vec<u8>) -> Result<(), NoMemory>
    ensures { OnOk result (out.new.items ≡ out.old.items ++ (codes " " ++ (which_word which ++ (labelled_number (codes " limit ") limit ++ codes "\n")))) }
{
    out.extend_from_slice(b" ")?;
    out.extend_from_slice(which_word(which).as_bytes())?;
    append_labelled(" limit ", u64::from(limit), out)?;
    out.extend_from_slice(b"\n")?;
    Ok(())
}

// Appends which limit would be passed.
fn append_full(version: u32, which: Which, limit: u32, out: &mut Vec<u8>) -> Result<(), NoMemory>
    ensures { OnOk result (out.new.items ≡ out.old.items ++ full_text version which limit) }
{
    append_labelled("full version ", u64::from(version), out)?;
    append_limit(which, limit, out)
}

// Appends that the session hasn't seen the block.
fn append_unseen(name: BlockName, out: &mut Vec<u8>) -> Result<(), NoMemory>
    ensures { OnOk result (out.new.items ≡ out.old.items ++ (codes "unseen " ++ (block_name_text name ++ codes "\n"))) }
{
    out.extend_from_slice(b"unseen ")?;
    append_block_name(name, out)?;
    out.extend_from_slice(b"\n")?;
    Ok(())
}

// Appends that a block can't have so many lines.
fn append_block_long(lines: u32, out: &mut Vec<u8>) -> Result<(), NoMemory>
    ensures { OnOk result (out.new.items ≡ out.old.items ++ (labelled_number (codes "blocklong lines ") lines ++ codes "\n")) }
{
    append_labelled("blocklong lines ", u64::from(lines), out)?;
    out.extend_from_slice(b"\n")?;
    Ok(())
}

// Appends that memory ran out.
fn append_no_memory(out: &mut Vec<u8>) -> Result<(), NoMemory>
    ensures { OnOk result (out.new.items ≡ out.old.items ++ codes "nomemory\n") }
{
    out.extend_from_slice(b"nomemory\n")?;
    Ok(())
}

/// Appends a reply, with these names of carriers. A list of texts is no session's reply, and nothing is appended for it.
pub(crate) fn append_reply(
    alloc: Global,
    reply: &Reply,
    declared: &Declared,
    out: &mut Vec<u8>,
) -> Result<(), NoMemory>
    ensures { OnOk result (out.new.items ≡ out.old.items ++ reply_text declared.now reply.now) }
{
    match reply {
        Reply::Accepted {
            version,
            block,
            brief,
        } => append_accepted(*version, *block, *brief, out),
        Reply::Shown {
            version,
            block,
            stamp,
            first,
            text,
        } => append_shown(*version, *block, *stamp, *first, text, out),
        Reply::Loop { version, fact } => append_loop_reply(*version, fact, declared, out),
        Reply::Now {
            version,
            verdict,
            text,
        } => append_verdict(
            alloc,
            "verdict version ",
            *version,
            verdict,
            declared,
            text.as_str(),
            out,
        ),
        Reply::Texts { .. } => Ok(()),
        Reply::Stale {
            version,
            block,
            seen,
            now,
        } => append_stale(*version, *block, *seen, *now, out),
        Reply::Gone { version, block, at } => {
            append_numbered_block("gone version ", *version, *block, " at ", *at, out)
        }
        Reply::NoBlock {
            version,
            block,
            ids,
        } => append_numbered_block("noblock version ", *version, *block, " ids ", *ids, out),
        Reply::Full {
            version,
            which,
            limit,
        } => append_full(*version, *which, *limit, out),
        Reply::Unseen { name } => append_unseen(*name, out),
        Reply::BlockLong { lines } => append_block_long(*lines, out),
        Reply::NoMemory => append_no_memory(out),
    }
}

/// Appends a reply, with the lines that belong to it and without its number. After `NoMemory` the buffer is as before.
///
/// A carrier that isn't declared has an empty name.
pub fn report_reply(
    alloc: Global,
    reply: &Reply,
    declared: &Declared,
    out: &mut Vec<u8>,
) -> Result<(), NoMemory>
    ensures ok { OnOk result (out.new.items ≡ out.old.items ++ reply_text declared.now reply.now) }
    ensures err { OnErr result (out.new.items ≡ out.old.items) }
{
    let mut text = Vec::new(alloc);
    append_reply(alloc, reply, declared, &mut text)?;
    out.extend_from_slice(&text)?;
    Ok(())
}
