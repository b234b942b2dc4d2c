//! The tokens of a line, pulled one by one.
ghost use Rattle.std.specs.Prelude.{◌≡◌, ◌+◌, ◌<◌, ◌≤◌, ◌*◌, [], ◌∷◌, length, ◌-◌, position, take, drop, slice_index, true, false, All, MatchOption, IfSome};
ghost use Rattle.std.specs.List.{list_all};
ghost use Rattle.knitout_reader.specs.Tokens.{tokens_of, before_comment, is_blank, is_semicolon, IsToken};

/// Where the comment of a line begins: at its first `;`, even inside what would else be a token.
pub fn comment_at(line: &[u8]) -> Option<usize>
    ensures { result ≡ position is_semicolon line.now }
{
    // Most lines have none, which `contains` tells in fewer steps than `memchr` does: lines are short.
    if !line.contains(&b';') {
        return None;
    }
    line.iter().position(|byte| *byte == b';')
}

/// What stands before the comment.
pub fn code_of(line: &[u8]) -> &[u8]
    ensures code { result.now ≡ before_comment line.now }
    ensures short { length result.now ≤ length line.now }
{
    match comment_at(line) {
        Some(at) => &line[..at],
        None => line,
    }
}

/// The first token, and what stands behind it. `None` where no token is left.
///
/// A line's tokens are pulled out of its code one after another, so reading a line takes no memory.
pub fn next_token<'a>(code: &'a [u8]) -> Option<(&'a [u8], &'a [u8])>
    ensures split { MatchOption result (tokens_of code.now ≡ []) (λ found. tokens_of code.now ≡ found.0.now ∷ tokens_of found.1.now) }
    ensures shorter { IfSome result (λ found. length found.0.now + length found.1.now ≤ length code.now) }
    ensures token { IfSome result (λ found. IsToken found.0.now) }
    ensures suffix { IfSome result (λ found. found.1.now ≡ drop (length code.now - length found.1.now) code.now) }
{
    let start = count_blanks(code);
    if start == code.len() {
        return None;
    }
    let rest = &code[start..];
    let end = count_token_bytes(rest);
    Some((&rest[..end], &rest[end..]))
}

// A space or a tab.
fn is_blank(byte: u8) -> bool
    ensures { result ≡ is_blank byte }
{
    byte == b' ' || byte == b'\t'
}

/// Whether each byte is a space or a tab.
pub fn is_blank_text(text: &[u8]) -> bool
    ensures { result ≡ list_all is_blank text.now }
{
    text.iter().all(|byte| is_blank(*byte))
}

/// The blanks in front.
#[inline(always)]
pub(crate) fn count_blanks(text: &[u8]) -> usize
    ensures within { result ≤ length text.now }
    ensures blanks { All (λ byte. is_blank byte ≡ true) (take result text.now) }
    ensures end { result < length text.now → is_blank (slice_index text.now result) ≡ false }
{
    for (at, byte) in text.iter().enumerate() {
        if !is_blank(*byte) {
            return at;
        }
    }
    text.len()
}

// The bytes in front that are no blanks.
fn count_token_bytes(text: &[u8]) -> usize
    ensures within { result ≤ length text.now }
    ensures token { All (λ byte. is_blank byte ≡ false) (take result text.now) }
    ensures end { result < length text.now → is_blank (slice_index text.now result) ≡ true }
{
    for (at, byte) in text.iter().enumerate() {
        if is_blank(*byte) {
            return at;
        }
    }
    text.len()
}
