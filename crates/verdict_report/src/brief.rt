//! A verdict in short.
ghost use Rattle.std.specs.Prelude.{◌≡◌, ◌++◌, OnOk, OnErr};
ghost use Rattle.verdict_report.specs.VerdictText.{brief_text};

use crate::text::{append_broken_brief, append_sound_brief};
use carriage_model::Brief;
use knit_base::NoMemory;

/// Appends a verdict in short.
pub(crate) fn append_brief(brief: Brief, out: &mut Vec<u8>) -> Result<(), NoMemory>
    ensures { OnOk result (out.new.items ≡ out.old.items ++ brief_text brief) }
{
    match brief {
        Brief::Sound {
            lines,
            made,
            held,
            rack,
        } => append_sound_brief(lines, made, u64::from(held), rack, out),
        Brief::Broken(fault) => append_broken_brief(fault, out),
    }
}

/// Appends a verdict in short, with no end of a line. After `NoMemory` the buffer is as before.
pub fn report_brief(brief: Brief, out: &mut Vec<u8>) -> Result<(), NoMemory>
    ensures ok { OnOk result (out.new.items ≡ out.old.items ++ brief_text brief) }
    ensures err { OnErr result (out.new.items ≡ out.old.items) }
{
    let mut text = Vec::new(*out.allocator());
    append_brief(brief, &mut text)?;
    out.extend_from_slice(&text)?;
    Ok(())
}
