//! The stitches of a made program, and their lines.
ghost use Rattle.std.specs.Prelude.{◌≡◌, ◌<◌, ◌≤◌, ◌^◌, ◌∷◌, [], ◌++◌, length, IfOk, OnOk};
ghost use Rattle.knit_maker.specs.Made.{hook, stitch_line, stitch_word, transfer_line};
ghost use Rattle.knit_maker.specs.Plain.{IsPlain};

use knit_base::{Bed, Dir, Lines, Needle, NoMemory, append_needle};
use std::alloc::Global;

/// How a loop is formed.
#[derive(Clone, Copy, Debug, PartialEq, Eq)]
pub enum Stitch {
    Knit,
    Tuck,
}

impl Stitch {
    // The word of the operation.
    fn word(self) -> &'static str
        ensures { result.now ≡ stitch_word self }
    {
        match self {
            Stitch::Knit => "knit",
            Stitch::Tuck => "tuck",
        }
    }
}

// The hook with this number.
fn hook(bed: Bed, at: u32) -> Needle
    requires { at < 100 }
    ensures { result ≡ hook bed at }
{
    Needle { bed, at: at as i16 }
}

/// Appends the line that forms a loop of the one carrier on a hook.
pub(crate) fn push_stitch(
    alloc: Global,
    stitch: Stitch,
    dir: Dir,
    bed: Bed,
    at: u32,
    lines: &mut Lines,
) -> Result<(), NoMemory>
    requires hook { at < 100 }
    requires few { length lines.old < 16777217 }
    ensures { OnOk result (lines.new ≡ lines.old ++ stitch_line stitch dir bed at ∷ []) }
{
    let text = stitch_text(alloc, stitch, dir, bed, at)?;
    push_text(&text, lines)
}

// The line of a stitch.
fn stitch_text(
    alloc: Global,
    stitch: Stitch,
    dir: Dir,
    bed: Bed,
    at: u32,
) -> Result<Vec<u8>, NoMemory>
    requires hook { at < 100 }
    ensures { IfOk result (λ text. text.items ≡ stitch_line stitch dir bed at) }
{
    let mut text = Vec::new(alloc);
    text.extend_from_slice(stitch.word().as_bytes())?;
    text.extend_from_slice(b" ")?;
    text.extend_from_slice(dir.sign().as_bytes())?;
    text.extend_from_slice(b" ")?;
    append_needle(hook(bed, at), &mut text)?;
    text.extend_from_slice(b" 1")?;
    Ok(text)
}

/// Appends the line that moves the loops of a hook of the front bed to the hook that faces it.
pub(crate) fn push_transfer(alloc: Global, at: u32, lines: &mut Lines) -> Result<(), NoMemory>
    requires hook { at < 100 }
    requires few { length lines.old < 16777217 }
    ensures { OnOk result (lines.new ≡ lines.old ++ transfer_line at ∷ []) }
{
    let text = transfer_text(alloc, at)?;
    push_text(&text, lines)
}

// The line of a transfer.
fn transfer_text(alloc: Global, at: u32) -> Result<Vec<u8>, NoMemory>
    requires hook { at < 100 }
    ensures { IfOk result (λ text. text.items ≡ transfer_line at) }
{
    let mut text = Vec::new(alloc);
    text.extend_from_slice(b"xfer ")?;
    append_needle(hook(Bed::Front, at), &mut text)?;
    text.extend_from_slice(b" ")?;
    append_needle(hook(Bed::Back, at), &mut text)?;
    Ok(text)
}

// Appends a line of printed ASCII characters.
fn push_text(text: &[u8], lines: &mut Lines) -> Result<(), NoMemory>
    requires plain { IsPlain 14 text.now }
    requires few { length lines.old < 16777217 }
    ensures { OnOk result (lines.new ≡ lines.old ++ text.now ∷ []) }
{
    // SAFETY: all bytes are ASCII, so the text is UTF-8, which the check proves here.
    lines.push(unsafe { str::from_utf8_unchecked(text) })
}
