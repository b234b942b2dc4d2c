//! The tests, and the lines of scripts, which those of sessions spell.
ghost use Rattle.std.specs.Prelude.{IsTrue};
ghost use Rattle.knit_base.specs.Lines.{IsLine};

mod book;
mod copy;
mod limit;
mod listing;
mod opening;
mod session;
mod turn;

use knit_base::{Lines, NoMemory};
use std::alloc::Global;

// A short text of one line.
fn is_short_line(text: &str) -> bool
    ensures { IsTrue result → IsLine text.now }
{
    text.len() < 65535 && !text.as_bytes().contains(&b'\n')
}

// The lines of a script, of which each is short.
fn script_lines(alloc: Global, texts: &[&str]) -> Result<Lines, NoMemory> {
    let mut lines = Lines::new(alloc);
    for text in texts {
        if lines.len() >= 100 || !is_short_line(text) {
            break;
        }
        lines.push(text)?;
    }
    Ok(lines)
}
