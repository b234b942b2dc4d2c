//! Lines as the bytes of a file.
ghost use Rattle.std.specs.Prelude.{◌≡◌, ◌+◌, ◌++◌, ◌≤◌, IfOk, OnOk, drop, flat_map};
ghost use Rattle.knit_ports.specs.WholeLines.{with_feed};
ghost use Rattle.opening_reader.specs.Openings.{bytes_of};

use knit_base::{Lines, NoMemory};
use std::alloc::Global;

/// The lines, each with a line feed behind it.
pub fn bytes_of(alloc: Global, text: &Lines) -> Result<Vec<u8>, NoMemory>
    ensures { IfOk result (λ bytes. bytes.items ≡ flat_map with_feed text.now) }
{
    let mut bytes = Vec::with_capacity(alloc, byte_count(text))?;
    'lines: for at in 0..text.len() {
        append_line(at, text, &mut bytes)?;
    }
    Ok(bytes)
}

// How many bytes that is.
fn byte_count(text: &Lines) -> usize
    ensures { result ≡ bytes_of text.now }
{
    let mut count = 0;
    'lines: for at in 0..text.len() {
        count += line_bytes(at, text);
    }
    count
}

// How many bytes the line at this place has, with its line feed.
fn line_bytes(at: u32, text: &Lines) -> usize
    ensures count { result + bytes_of (drop (at + 1) text.now) ≡ bytes_of (drop at text.now) }
    ensures few { result ≤ 65536 }
{
    match text.get(at) {
        Some(line) => line.len() + 1,
        None => 0,
    }
}

// Appends the line at this place.
fn append_line(at: u32, text: &Lines, bytes: &mut Vec<u8>) -> Result<(), NoMemory>
    ensures { OnOk result (bytes.new.items ++ flat_map with_feed (drop (at + 1) text.now) ≡ bytes.old.items ++ flat_map with_feed (drop at text.now)) }
{
    match text.get(at) {
        Some(line) => append_fed(line, bytes),
        None => Ok(()),
    }
}

// Appends the line and a line feed.
fn append_fed(line: &str, bytes: &mut Vec<u8>) -> Result<(), NoMemory>
    ensures { OnOk result (bytes.new.items ≡ bytes.old.items ++ with_feed line.now) }
{
    bytes.extend_from_slice(line.as_bytes())?;
    bytes.push(b'\n')?;
    Ok(())
}
