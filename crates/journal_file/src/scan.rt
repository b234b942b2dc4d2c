//! The lines of bytes, one after the other.
ghost use Rattle.std.specs.Prelude.{◌≡◌, ℕ, List, ◌∷◌, ◌++◌, ◌≤◌, length, MatchOption, codes};
ghost use Rattle.knit_base.specs.Lines.{HasNoLineEnd};
ghost use Rattle.journal_file.specs.Lines.{IsShort, IsBarredLine};

use memchr::memchr;

/// How many bytes a text line has at most behind its bar.
const TEXT_LIMIT: usize = 4096;

/// The first line of a text, without its line feed, and what stands behind that. A line has a line feed.
pub(crate) fn next_line(text: &[u8]) -> Option<(&[u8], &[u8])>
    ensures { MatchOption result (HasNoLineEnd text.now) (λ found. HasNoLineEnd found.0.now × (text.now ≡ found.0.now ++ 10 ∷ found.1.now)) }
{
    match memchr(b'\n', text) {
        Some(end) => Some((&text[..end], &text[end + 1..])),
        None => None,
    }
}

/// What a text line tells: what stands behind its bar, at most 4,096 bytes of UTF-8.
pub(crate) fn text_of(line: &[u8]) -> Option<&str>
    requires { HasNoLineEnd line.now }
    ensures { MatchOption result ((text : List ℕ) → IsBarredLine text line.now → ⊥) (λ text. IsBarredLine text.now line.now) }
{
    match line {
        [b'|', text @ ..] => short_text(text),
        _ => None,
    }
}

// The text, if it is UTF-8 and not too long.
fn short_text(text: &[u8]) -> Option<&str>
    requires { HasNoLineEnd text.now }
    ensures { MatchOption result (¬ IsShort text.now) (λ found. (found.now ≡ text.now) × IsShort text.now) }
{
    if text.len() > TEXT_LIMIT {
        return None;
    }
    match str::from_utf8(text) {
        Ok(text) => Some(text),
        Err(_) => None,
    }
}
