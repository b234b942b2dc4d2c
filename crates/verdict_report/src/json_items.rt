//! What stands in the lists of a report as JSON: lines, carriers and needles.
ghost use Rattle.std.specs.Prelude.{◌≡◌, ◌++◌, ◌≤◌, decimal, length, map, string_bytes, OnOk};
ghost use Rattle.verdict_report.specs.JsonText.{needle_member, set_member, stack_json, string_of};

use crate::carriers::carriers_of;
use crate::json_list::{ListItem, append_list_member};
use carriage_model::Stack;
use knit_base::{CarrierNo, Needle, NoMemory, append_needle, append_number};
use std::alloc::Global;

// A line, by its number.
impl ListItem for u32 {
    ghost text = { λ strings line. decimal line };

    fn append(&self, _strings: &[String], out: &mut Vec<u8>) -> Result<(), NoMemory> {
        append_number(u64::from(*self), out)
    }
}

// A carrier, by its name.
impl ListItem for CarrierNo {
    ghost text = { string_of };

    fn append(&self, strings: &[String], out: &mut Vec<u8>) -> Result<(), NoMemory> {
        match strings.get(self.0 as usize) {
            Some(string) => out.extend_from_slice(string.as_bytes())?,
            None => out.extend_from_slice(b"\"\"")?,
        }
        Ok(())
    }
}

// A needle and its loops.
impl ListItem for Stack {
    ghost text = { λ strings stack. stack_json stack };

    fn append(&self, strings: &[String], out: &mut Vec<u8>) -> Result<(), NoMemory> {
        append_list_member("{\"loops\":", self.loops.as_slice(), strings, out)?;
        append_needle_member(self.needle, out)?;
        out.extend_from_slice(b"}")?;
        Ok(())
    }
}

/// Appends a needle, behind its key.
pub(crate) fn append_needle_member(needle: Needle, out: &mut Vec<u8>) -> Result<(), NoMemory>
    ensures { OnOk result (out.new.items ≡ out.old.items ++ needle_member needle) }
{
    out.extend_from_slice(b",\"needle\":\"")?;
    append_needle(needle, out)?;
    out.extend_from_slice(b"\"")?;
    Ok(())
}

/// Appends the names of a set of carriers, behind their key.
pub(crate) fn append_set(
    alloc: Global,
    key: &str,
    set: u64,
    strings: &[String],
    out: &mut Vec<u8>,
) -> Result<(), NoMemory>
    requires { length strings.now ≤ 64 }
    ensures { OnOk result (out.new.items ≡ out.old.items ++ set_member key.now (map string_bytes strings.now) set) }
{
    let carriers = carriers_of(alloc, strings.len() as u8, set)?;
    append_list_member(key, carriers.as_slice(), strings, out)
}
