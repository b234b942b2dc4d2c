//! How numbers, needles and racks are written.
ghost use Rattle.std.specs.Prelude.{◌≡◌, ◌<◌, ◌++◌, decimal, OnOk, OnErr};
ghost use Rattle.knit_base.specs.Spelling.{labelled_number, needle_text, quarters_word, rack_text};

use crate::{Needle, NoMemory, Quarter};
use itoa::Buffer;

/// Appends a number, in decimal. After `NoMemory` the buffer is as before.
pub fn append_number(number: u64, out: &mut Vec<u8>) -> Result<(), NoMemory>
    ensures ok { OnOk result (out.new.items ≡ out.old.items ++ decimal number) }
    ensures err { OnErr result (out.new.items ≡ out.old.items) }
{
    let mut digits = Buffer::new();
    out.extend_from_slice(digits.format(number).as_bytes())?;
    Ok(())
}

/// Appends a label, and a number in decimal. After `NoMemory` the buffer is as before.
pub fn append_labelled(label: &str, number: u64, out: &mut Vec<u8>) -> Result<(), NoMemory>
    ensures ok { OnOk result (out.new.items ≡ out.old.items ++ labelled_number label.now number) }
    ensures err { OnErr result (out.new.items ≡ out.old.items) }
{
    let mut digits = Buffer::new();
    let number = digits.format(number).as_bytes();
    out.reserve(label.len() + number.len())?;
    out.extend_from_slice(label.as_bytes())?;
    out.extend_from_slice(number)?;
    Ok(())
}

/// Appends the spelling of a needle: its bed and its number. After `NoMemory` the buffer is as before.
pub fn append_needle(needle: Needle, out: &mut Vec<u8>) -> Result<(), NoMemory>
    ensures ok { OnOk result (out.new.items ≡ out.old.items ++ needle_text needle) }
    ensures err { OnErr result (out.new.items ≡ out.old.items) }
{
    let mut digits = Buffer::new();
    let number = digits.format(needle.at).as_bytes();
    let letters = needle.bed.letters().as_bytes();
    out.reserve(letters.len() + number.len())?;
    out.extend_from_slice(letters)?;
    out.extend_from_slice(number)?;
    Ok(())
}

/// Appends the spelling of a rack, in needles. After `NoMemory` the buffer is as before.
pub fn append_rack(rack: Quarter, out: &mut Vec<u8>) -> Result<(), NoMemory>
    ensures ok { OnOk result (out.new.items ≡ out.old.items ++ rack_text rack.0) }
    ensures err { OnErr result (out.new.items ≡ out.old.items) }
{
    let mut digits = Buffer::new();
    let size = rack.0.unsigned_abs();
    let whole = digits.format(size / 4).as_bytes();
    let sign = if rack.0 < 0 { "-" } else { "" };
    let quarters = after_point(size % 4);
    out.reserve(sign.len() + whole.len() + quarters.len())?;
    out.extend_from_slice(sign.as_bytes())?;
    out.extend_from_slice(whole)?;
    out.extend_from_slice(quarters.as_bytes())?;
    Ok(())
}

// What follows the whole needles, where so many quarters are left.
fn after_point(quarters: u32) -> &'static str
    requires { quarters < 4 }
    ensures { result.now ≡ quarters_word quarters }
{
    match quarters {
        0 => "",
        1 => ".25",
        2 => ".5",
        _ => ".75",
    }
}
