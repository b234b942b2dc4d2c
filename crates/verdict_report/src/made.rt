//! What is made of a made program, in three lines.
ghost use Rattle.std.specs.Prelude.{◌≡◌, ◌++◌, IfOk, OnOk};
ghost use Rattle.carriage_model.specs.Verdict.{brief_of};
ghost use Rattle.verdict_report.specs.MadeText.{made_text, sizes_text};
ghost use Rattle.verdict_report.specs.VerdictText.{brief_text};

use crate::passes::append_counts;
use crate::text::{append_broken_brief, append_sound_brief, held};
use carriage_model::Verdict;
use knit_base::{NoMemory, append_labelled};
use pass_grouping::Counts;
use std::alloc::Global;

// Appends how many lines and blocks were made.
fn append_sizes(lines: u32, blocks: u32, out: &mut Vec<u8>) -> Result<(), NoMemory>
    ensures { OnOk result (out.new.items ≡ out.old.items ++ sizes_text lines blocks) }
{
    append_labelled("maker lines ", u64::from(lines), out)?;
    append_labelled(" blocks ", u64::from(blocks), out)?;
    out.extend_from_slice(b"\n")?;
    Ok(())
}

// Appends a verdict in short.
fn append_brief(verdict: &Verdict, out: &mut Vec<u8>) -> Result<(), NoMemory>
    ensures { OnOk result (out.new.items ≡ out.old.items ++ brief_text (brief_of verdict.now)) }
{
    match verdict {
        Verdict::Sound(sound) => append_sound_brief(
            sound.lines,
            sound.made,
            held(sound.stacks.as_slice()),
            sound.rack,
            out,
        ),
        Verdict::Broken(fault) => append_broken_brief(*fault, out),
    }
}

/// What is made of a made program of so many lines in so many blocks: their numbers, the verdict in short, and the numbers of its
/// passes, operations and windows, a line each. Fails where memory runs out.
pub fn made_of(
    alloc: Global,
    lines: u32,
    blocks: u32,
    verdict: &Verdict,
    counts: Counts,
) -> Result<Vec<u8>, NoMemory>
    ensures { IfOk result (λ text. text.items ≡ made_text lines blocks verdict.now counts.passes counts.operations counts.windows) }
{
    let mut text = Vec::new(alloc);
    append_sizes(lines, blocks, &mut text)?;
    append_brief(verdict, &mut text)?;
    text.extend_from_slice(b"\n")?;
    append_counts(counts.passes, counts.operations, counts.windows, &mut text)?;
    Ok(text)
}
