//! The numbers of a command line.
ghost use Rattle.std.specs.Prelude.{◌≡◌, ◌≤◌, IfSome};
ghost use Rattle.std.specs.Char.{is_ascii_digit};
ghost use Rattle.std.specs.List.{list_all};
ghost use Rattle.command_words.specs.Numbers.{count_in_text, digits_of, is_number, number_in_text};

/// How many digits a number has at most.
const MAX_DIGITS: usize = 10;

/// The text without a first hyphen.
fn digits(text: &[u8]) -> &[u8]
    ensures { result.now ≡ digits_of text.now }
{
    if !text.is_empty() && text[0] == b'-' {
        return &text[1..];
    }
    text
}

fn are_digits(text: &[u8]) -> bool
    ensures { result ≡ list_all is_ascii_digit text.now }
{
    text.iter().all(|byte| byte.is_ascii_digit())
}

/// Whether the text is an optional `-` and 1 to 10 digits.
pub fn is_numeral(text: &str) -> bool
    ensures { result ≡ is_number text.now }
{
    let digits = digits(text.as_bytes());
    1 <= digits.len() && digits.len() <= MAX_DIGITS && are_digits(digits)
}

/// The number that a text writes, if it writes one. A `+` is no part of a number.
pub fn number(text: &str) -> Option<i64>
    ensures { result ≡ number_in_text text.now }
{
    if !is_numeral(text) {
        return None;
    }
    match text.parse::<i64>() {
        Ok(number) => Some(number),
        Err(_) => None,
    }
}

/// The count that a text writes, where it lies within its bounds.
pub fn count(text: &str, least: u32, greatest: u32) -> Option<u32>
    ensures value { result ≡ count_in_text least greatest text.now }
    ensures bounds { IfSome result (λ n. (least ≤ n) × (n ≤ greatest)) }
{
    let value = number(text)?;
    if value < least as i64 || value > greatest as i64 {
        return None;
    }
    Some(value as u32)
}
