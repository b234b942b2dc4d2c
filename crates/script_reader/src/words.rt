//! Numbers and names of blocks, as words spell them.
ghost use Rattle.std.specs.Prelude.{◌≡◌, min, length};
ghost use Rattle.std.specs.List.{list_all};
ghost use Rattle.knitout_reader.specs.Numbers.{value_of_digits};
ghost use Rattle.script_reader.specs.Words.{id_in, is_digit, name_in, number_in, anchor_in_word};

use crate::command::Place;
use edit_journal::{BlockName, HEAD};

/// How many digits a number has at most.
const MAX_DIGITS: usize = 10;

/// A value from which on a number doesn't fit 32 bits.
const TOO_GREAT: u64 = 4_294_967_296;

const START: &[u8] = b"start";

/// The place that a word names: `start`, or behind a block.
pub(crate) fn place(word: &[u8]) -> Option<Place>
    ensures { result ≡ anchor_in_word word.now }
{
    if word == START {
        return Some(Place::Start);
    }
    Some(Place::After(name(word)?))
}

/// The block that a word names: an id, or `@` and the number of an add command.
pub(crate) fn name(word: &[u8]) -> Option<BlockName>
    ensures { result ≡ name_in word.now }
{
    match word {
        [b'@', own @ ..] => Some(BlockName::Own(number(own)?)),
        _ => Some(BlockName::Id(block_id(word)?)),
    }
}

// The id that a word spells: a number that isn't the header's.
fn block_id(word: &[u8]) -> Option<u32>
    ensures { result ≡ id_in word.now }
{
    let id = number(word)?;
    if id == HEAD {
        return None;
    }
    Some(id)
}

/// The number that a word spells: 1 to 10 digits, of a value that fits 32 bits.
pub(crate) fn number(word: &[u8]) -> Option<u32>
    ensures { result ≡ number_in word.now }
{
    if word.is_empty() || word.len() > MAX_DIGITS || !are_digits(word) {
        return None;
    }
    let value = value_of(word);
    if value == TOO_GREAT {
        return None;
    }
    Some(value as u32)
}

fn are_digits(word: &[u8]) -> bool
    ensures { result ≡ list_all is_digit word.now }
{
    word.iter().all(|byte| b'0' <= *byte && *byte <= b'9')
}

// The number that the digits spell, or `TOO_GREAT` where it is greater.
fn value_of(digits: &[u8]) -> u64
    ensures { result ≡ min (value_of_digits digits.now) TOO_GREAT }
{
    let mut value = 0;
    for digit in digits {
        value = (value * 10 + u64::from(digit.saturating_sub(b'0'))).min(TOO_GREAT);
    }
    value
}
