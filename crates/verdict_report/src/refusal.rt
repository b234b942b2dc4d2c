//! What the program says where it refuses its words or its input.
ghost use Rattle.std.specs.Prelude.{◌≡◌, ◌++◌, decimal, OnOk, OnErr};
ghost use Rattle.verdict_report.specs.Refusals.{bad_head_line, bad_journal_line, bad_line, bad_script_line, cause_word, refusal_text};

use knit_base::{NoMemory, append_number};
use script_reader::Cause;
use std::alloc::Global;

/// Why the program refuses its words or its input. A number is that of a line of the input, from 1.
#[derive(Clone, Copy, Debug, PartialEq, Eq)]
pub enum Refusal {
    /// The words of the command line aren't in the grammar, or an option is beyond its bounds.
    Usage,
    /// The input couldn't be read.
    ReadFault,
    /// The input has more than 16,777,216 bytes.
    TooManyBytes,
    /// The body has more than 1,048,576 lines.
    TooManyLines,
    /// The body has more than 65,536 blocks.
    TooManyBlocks,
    /// The first line that can't be read isn't UTF-8.
    NotUtf8(u32),
    /// The first line that can't be read has more than 4,096 bytes.
    LineLong(u32),
    /// The first line isn't that of a knitout file.
    BadMagic,
    /// The head doesn't declare the carriers.
    NoCarriers,
    /// The second line of the head that declares carriers.
    TwoCarriers(u32),
    /// The line of the head that declares a name twice.
    CarrierNameTwice(u32),
    /// The line of the head that declares more than 64 names.
    ManyCarriers(u32),
    /// The first line of the script that is outside its grammar, and why.
    BadScript(u32, Cause),
    /// The first line with which no saved text goes on.
    BadJournal(u32),
    /// The first line of a saved text whose entry doesn't fit the document before it, or passes a limit.
    NoFit(u32),
    /// The places that a tally is asked for aren't those of blocks, or stand in the wrong order.
    BadRange,
}

// Appends a label, the number of a line, and what is wrong with it.
fn append_at_line(label: &str, line: u32, cause: &str, out: &mut Vec<u8>) -> Result<(), NoMemory>
    ensures { OnOk result (out.new.items ≡ out.old.items ++ (label.now ++ (decimal line ++ cause.now))) }
{
    out.extend_from_slice(label.as_bytes())?;
    append_number(u64::from(line), out)?;
    out.extend_from_slice(cause.as_bytes())?;
    Ok(())
}

// Appends the line that names a bad line of the file.
fn append_bad_line(line: u32, cause: &str, out: &mut Vec<u8>) -> Result<(), NoMemory>
    ensures { OnOk result (out.new.items ≡ out.old.items ++ bad_line line cause.now) }
{
    append_at_line("bad input: line ", line, cause, out)
}

// Appends the line that names a bad line of the head.
fn append_bad_head_line(line: u32, cause: &str, out: &mut Vec<u8>) -> Result<(), NoMemory>
    ensures { OnOk result (out.new.items ≡ out.old.items ++ bad_head_line line cause.now) }
{
    append_at_line("bad input: head line ", line, cause, out)
}

// Appends the line that names a bad line of a script.
fn append_bad_script_line(line: u32, cause: &str, out: &mut Vec<u8>) -> Result<(), NoMemory>
    ensures { OnOk result (out.new.items ≡ out.old.items ++ bad_script_line line cause.now) }
{
    append_at_line("bad input: script line ", line, cause, out)
}

// Appends the line that names a bad line of a saved text.
fn append_bad_journal_line(line: u32, cause: &str, out: &mut Vec<u8>) -> Result<(), NoMemory>
    ensures { OnOk result (out.new.items ≡ out.old.items ++ bad_journal_line line cause.now) }
{
    append_at_line("bad input: journal line ", line, cause, out)
}

// What is wrong with a line of a script.
fn cause_word(cause: Cause) -> &'static str
    ensures { result.now ≡ cause_word cause }
{
    match cause {
        Cause::NoLive => " NoLive\n",
        Cause::BadLine => " BadLine\n",
        Cause::ManySessions => " ManySessions\n",
        Cause::NoOwn => " NoOwn\n",
        Cause::NoGroups => " NoGroups\n",
        Cause::NoServe => " NoServe\n",
        Cause::LineLong => " LineLong\n",
        Cause::NotUtf8 => " NotUtf8\n",
    }
}

// Appends a text.
fn append(text: &str, out: &mut Vec<u8>) -> Result<(), NoMemory>
    ensures { OnOk result (out.new.items ≡ out.old.items ++ text.now) }
{
    out.extend_from_slice(text.as_bytes())?;
    Ok(())
}

fn append_refusal(refusal: Refusal, out: &mut Vec<u8>) -> Result<(), NoMemory>
    ensures { OnOk result (out.new.items ≡ out.old.items ++ refusal_text refusal) }
{
    match refusal {
        Refusal::Usage => append(
            "usage: check_main check|text|passes|live|make N START [options]\n",
            out,
        ),
        Refusal::ReadFault => append("read fault\n", out),
        Refusal::TooManyBytes => append("too large: bytes\n", out),
        Refusal::TooManyLines => append("too large: lines\n", out),
        Refusal::TooManyBlocks => append("too large: blocks\n", out),
        Refusal::NotUtf8(line) => append_bad_line(line, " NotUtf8\n", out),
        Refusal::LineLong(line) => append_bad_line(line, " LineLong\n", out),
        Refusal::BadMagic => append("bad input: head BadMagic\n", out),
        Refusal::NoCarriers => append("bad input: head NoCarriers\n", out),
        Refusal::TwoCarriers(line) => append_bad_head_line(line, " TwoCarriers\n", out),
        Refusal::CarrierNameTwice(line) => append_bad_head_line(line, " CarrierNameTwice\n", out),
        Refusal::ManyCarriers(line) => append_bad_head_line(line, " ManyCarriers\n", out),
        Refusal::BadScript(line, cause) => append_bad_script_line(line, cause_word(cause), out),
        Refusal::BadJournal(line) => append_bad_journal_line(line, " BadLine\n", out),
        Refusal::NoFit(line) => append_bad_journal_line(line, " NoFit\n", out),
        Refusal::BadRange => append("bad input: range\n", out),
    }
}

/// Appends the line that says why the program refuses. After `NoMemory` the buffer is as before.
pub fn report_refusal(alloc: Global, refusal: Refusal, out: &mut Vec<u8>) -> Result<(), NoMemory>
    ensures ok { OnOk result (out.new.items ≡ out.old.items ++ refusal_text refusal) }
    ensures err { OnErr result (out.new.items ≡ out.old.items) }
{
    let mut text = Vec::new(alloc);
    append_refusal(refusal, &mut text)?;
    out.extend_from_slice(&text)?;
    Ok(())
}
