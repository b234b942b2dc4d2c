//! What stands in front of a reply, and behind it.
ghost use Rattle.std.specs.Prelude.{◌≡◌, ◌++◌, codes, IfOk, OnOk, OnErr};
ghost use Rattle.reply_report.specs.TalkText.{frame_text, two_counts};

use knit_base::{NoMemory, append_labelled};
use std::alloc::Global;

/// Whose reply it is: the session, and the number of its command, from 1.
#[derive(Clone, Copy, Debug, PartialEq, Eq)]
pub struct Frame {
    pub session: u32,
    pub number: u64,
}

/// A text that begins with the frame.
pub(crate) fn begin(alloc: Global, frame: Frame) -> Result<Vec<u8>, NoMemory>
    ensures { IfOk result (λ text. text.items ≡ frame_text frame) }
{
    let mut text = Vec::new(alloc);
    append_labelled("session ", u64::from(frame.session), &mut text)?;
    append_labelled(" ", frame.number, &mut text)?;
    text.extend_from_slice(b" ")?;
    Ok(text)
}

/// Appends the text and an empty line. After `NoMemory` the buffer is as before.
pub(crate) fn end(mut text: Vec<u8>, out: &mut Vec<u8>) -> Result<(), NoMemory>
    ensures ok { OnOk result (out.new.items ≡ out.old.items ++ (text.items ++ codes "\n")) }
    ensures err { OnErr result (out.new.items ≡ out.old.items) }
{
    text.extend_from_slice(b"\n")?;
    out.extend_from_slice(&text)?;
    Ok(())
}

/// Appends a line with two numbers, each behind its label.
pub(crate) fn append_two_counts(
    first: &str,
    a: u64,
    second: &str,
    b: u64,
    out: &mut Vec<u8>,
) -> Result<(), NoMemory>
    ensures { OnOk result (out.new.items ≡ out.old.items ++ two_counts first.now a second.now b) }
{
    append_labelled(first, a, out)?;
    append_labelled(second, b, out)?;
    out.extend_from_slice(b"\n")?;
    Ok(())
}
