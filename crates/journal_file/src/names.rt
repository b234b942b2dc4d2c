//! The names of a header, as an entry's line tells them.
ghost use Rattle.std.specs.Prelude.{◌≡◌, ◌≢◌, ℕ, List, ◌++◌, ◌≤◌, true, false, length, codes, IfOk, MatchOption};
ghost use Rattle.std.specs.Str.{is_utf8};
ghost use Rattle.knit_base.specs.Lines.{HasNoLineEnd};
ghost use Rattle.knit_base.specs.Names.{AreNames, spaced_names};
ghost use Rattle.journal_file.specs.Headers.{IsNames};

use crate::words::behind;
use knit_base::{Declared, NoMemory};
use knitout_reader::declared_in;
use std::alloc::Global;

/// How many bytes names have at most that stand behind a space, with a space before each of the others.
const MOST_BYTES: usize = 65_523;

/// The names that the text tells, with a space before each: different ones, 64 at most.
pub(crate) fn names_of(alloc: Global, text: &[u8]) -> Result<Option<Declared>, NoMemory>
    requires { HasNoLineEnd text.now }
    ensures { IfOk result (λ found. MatchOption found ((names : List (List ℕ)) → IsNames names text.now → ⊥) (λ names. IsNames names text.now)) }
{
    if text.is_empty() {
        return Ok(Some(Declared::new(alloc)));
    }
    match behind(text, b" ") {
        Some(rest) => match short_text(rest) {
            Some(names) => names_behind(alloc, text, names),
            None => Ok(None),
        },
        None => Ok(None),
    }
}

// The text, if it is UTF-8 and not too long.
fn short_text(text: &[u8]) -> Option<&str>
    ensures { MatchOption result (is_utf8 text.now ≡ true → length text.now ≤ 65523 → ⊥) (λ found. (found.now ≡ text.now) × (is_utf8 text.now ≡ true) × (length text.now ≤ 65523)) }
{
    if text.len() > MOST_BYTES {
        return None;
    }
    match str::from_utf8(text) {
        Ok(text) => Some(text),
        Err(_) => None,
    }
}

// The names behind a space, which are the text.
fn names_behind(alloc: Global, text: &[u8], names: &str) -> Result<Option<Declared>, NoMemory>
    requires behind { text.now ≡ codes " " ++ names.now }
    requires one { HasNoLineEnd names.now }
    requires utf8 { is_utf8 names.now ≡ true }
    requires short { length names.now ≤ 65523 }
    ensures { IfOk result (λ found. MatchOption found ((names : List (List ℕ)) → IsNames names text.now → ⊥) (λ names. IsNames names text.now)) }
{
    let mut line = String::from_str(alloc, ";;Carriers:")?;
    line.push_str(names)?;
    match declared_in(alloc, line.as_str())? {
        Some(declared) => {
            if is_spelt(alloc, &declared, text)? {
                return Ok(Some(declared));
            }
            Ok(None)
        }
        None => Ok(None),
    }
}

// Whether the names, each behind a space, are the text.
fn is_spelt(alloc: Global, declared: &Declared, text: &[u8]) -> Result<bool, NoMemory>
    ensures yes { IfOk result (λ yes. yes ≡ true → (text.now ≡ spaced_names declared.now) × AreNames declared.now) }
    ensures no { IfOk result (λ yes. yes ≡ false → text.now ≢ spaced_names declared.now) }
{
    let line = declared.header_line(alloc)?;
    match behind(line.as_str().as_bytes(), b";;Carriers:") {
        Some(names) => Ok(names == text),
        None => Ok(false),
    }
}
