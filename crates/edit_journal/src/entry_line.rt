//! The line that tells an entry.
ghost use Rattle.std.specs.Prelude.{◌≡◌, ◌+◌, ◌++◌, drop, OnOk};
ghost use Rattle.knit_base.specs.Names.{name_behind_space, spaced_names};
ghost use Rattle.edit_journal.specs.EntryLine.{add_text, anchor_text, cut_text, edit_text, entry_line, head_text, put_text};

use crate::{Anchor, Edit, Entry};
use knit_base::{CarrierNo, Declared, NoMemory, append_labelled, append_number};

// Appends where a new block stands.
fn append_anchor(anchor: Anchor, out: &mut Vec<u8>) -> Result<(), NoMemory>
    ensures { OnOk result (out.new.items ≡ out.old.items ++ anchor_text anchor) }
{
    match anchor {
        Anchor::Start => {
            out.extend_from_slice(b"start")?;
            Ok(())
        }
        Anchor::After(id) => append_number(u64::from(id), out),
    }
}

// Appends that a block got so many lines.
fn append_put(block: u32, seen: u32, lines: u32, out: &mut Vec<u8>) -> Result<(), NoMemory>
    ensures { OnOk result (out.new.items ≡ out.old.items ++ put_text block seen lines) }
{
    append_labelled(" put ", u64::from(block), out)?;
    append_labelled(" seen ", u64::from(seen), out)?;
    append_labelled(" lines ", u64::from(lines), out)
}

// Appends that a block of so many lines came in.
fn append_add(anchor: Anchor, block: u32, lines: u32, out: &mut Vec<u8>) -> Result<(), NoMemory>
    ensures { OnOk result (out.new.items ≡ out.old.items ++ add_text anchor block lines) }
{
    out.extend_from_slice(b" add ")?;
    append_anchor(anchor, out)?;
    append_labelled(" block ", u64::from(block), out)?;
    append_labelled(" lines ", u64::from(lines), out)
}

// Appends that a block was taken out.
fn append_cut(block: u32, seen: u32, out: &mut Vec<u8>) -> Result<(), NoMemory>
    ensures { OnOk result (out.new.items ≡ out.old.items ++ cut_text block seen) }
{
    append_labelled(" cut ", u64::from(block), out)?;
    append_labelled(" seen ", u64::from(seen), out)
}

// Appends a name behind a space.
fn append_spaced(name: &str, out: &mut Vec<u8>) -> Result<(), NoMemory>
    ensures { OnOk result (out.new.items ≡ out.old.items ++ name_behind_space name.now) }
{
    out.extend_from_slice(b" ")?;
    out.extend_from_slice(name.as_bytes())?;
    Ok(())
}

// Appends the name at this place, if there is one.
fn append_name_at(c: u8, declared: &Declared, out: &mut Vec<u8>) -> Result<(), NoMemory>
    ensures { OnOk result (out.new.items ++ spaced_names (drop (c + 1) declared.now) ≡ out.old.items ++ spaced_names (drop c declared.now)) }
{
    match declared.name(CarrierNo(c)) {
        Some(name) => append_spaced(name, out),
        None => Ok(()),
    }
}

// Appends a space and each name.
fn append_names(declared: &Declared, out: &mut Vec<u8>) -> Result<(), NoMemory>
    ensures { OnOk result (out.new.items ≡ out.old.items ++ spaced_names declared.now) }
{
    'names: for c in 0..declared.len() {
        append_name_at(c, declared, out)?;
    }
    Ok(())
}

// Appends that the header got other names.
fn append_head(seen: u32, declared: &Declared, out: &mut Vec<u8>) -> Result<(), NoMemory>
    ensures { OnOk result (out.new.items ≡ out.old.items ++ head_text seen declared.now) }
{
    append_labelled(" put head seen ", u64::from(seen), out)?;
    out.extend_from_slice(b" carriers")?;
    append_names(declared, out)?;
    Ok(())
}

// Appends an edit. Of a text the number of lines is told, of a header the names.
fn append_edit(edit: &Edit, out: &mut Vec<u8>) -> Result<(), NoMemory>
    ensures { OnOk result (out.new.items ≡ out.old.items ++ edit_text edit.now) }
{
    match edit {
        Edit::Put { block, seen, text } => append_put(*block, *seen, text.len(), out),
        Edit::Add {
            anchor,
            block,
            text,
        } => append_add(*anchor, *block, text.len(), out),
        Edit::Cut { block, seen } => append_cut(*block, *seen, out),
        Edit::Head { seen, declared } => append_head(*seen, declared, out),
    }
}

/// Appends the line that tells an entry, without its number and without an end of line. After `NoMemory` some of it may stand.
pub fn append_entry_line(entry: &Entry, out: &mut Vec<u8>) -> Result<(), NoMemory>
    ensures { OnOk result (out.new.items ≡ out.old.items ++ entry_line entry.now) }
{
    append_labelled("session ", u64::from(entry.session), out)?;
    append_edit(&entry.edit, out)
}
