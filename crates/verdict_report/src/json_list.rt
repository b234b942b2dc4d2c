//! A list as JSON.
ghost use Rattle.std.specs.Prelude.{◌≡◌, ◌++◌, ℕ, List, map, string_bytes, OnOk};
ghost use Rattle.verdict_report.specs.JsonText.{list_member, list_text, more_text, next_text};

use knit_base::NoMemory;

/// What may stand in a list. `strings` are the names of the carriers as JSON strings.
pub(crate) trait ListItem {
    // the item as JSON, where these are the names
    ghost text: { List (List ℕ) → Self → List ℕ };

    /// Appends the item as JSON.
    fn append(&self, strings: &[String], out: &mut Vec<u8>) -> Result<(), NoMemory>
        ensures { OnOk result (out.new.items ≡ out.old.items ++ text (map string_bytes strings.now) self.now) };
}

// Appends a comma and an item.
fn append_next<T: ListItem>(item: &T, strings: &[String], out: &mut Vec<u8>) -> Result<(), NoMemory>
    ensures { OnOk result (out.new.items ≡ out.old.items ++ next_text (T.text (map string_bytes strings.now)) item.now) }
{
    out.extend_from_slice(b",")?;
    item.append(strings, out)
}

// Appends a comma and an item for each of these items.
fn append_more<T: ListItem>(
    items: &[T],
    strings: &[String],
    out: &mut Vec<u8>,
) -> Result<(), NoMemory>
    ensures { OnOk result (out.new.items ≡ out.old.items ++ more_text (T.text (map string_bytes strings.now)) items.now) }
{
    'items: for item in items {
        append_next(item, strings, out)?;
    }
    Ok(())
}

/// Appends the list of these items.
pub(crate) fn append_list<T: ListItem>(
    items: &[T],
    strings: &[String],
    out: &mut Vec<u8>,
) -> Result<(), NoMemory>
    ensures { OnOk result (out.new.items ≡ out.old.items ++ list_text (T.text (map string_bytes strings.now)) items.now) }
{
    match items {
        [] => out.extend_from_slice(b"[]")?,
        [first, rest @ ..] => {
            out.extend_from_slice(b"[")?;
            first.append(strings, out)?;
            append_more(rest, strings, out)?;
            out.extend_from_slice(b"]")?;
        }
    }
    Ok(())
}

/// Appends the list of these items, behind its key.
pub(crate) fn append_list_member<T: ListItem>(
    key: &str,
    items: &[T],
    strings: &[String],
    out: &mut Vec<u8>,
) -> Result<(), NoMemory>
    ensures { OnOk result (out.new.items ≡ out.old.items ++ list_member key.now (T.text (map string_bytes strings.now)) items.now) }
{
    out.extend_from_slice(key.as_bytes())?;
    append_list(items, strings, out)
}
