//! The texts that clap finds, and the test of what clap leaves open.
ghost use Rattle.std.specs.Prelude.{◌≡◌, ◌≤◌, IfOk, IsErrOf, List, Some, length, map, string_bytes, true};
ghost use Rattle.clap.specs.Matches.{first_value, found_of};
ghost use Rattle.command_words.specs.Grammar.{Item, are_distinct, items_of, option_names_in, positional_words};
ghost use Rattle.command_words.specs.Given.{ItemsFit, IsGivenByItems, AreLawfulItems, are_lawful, is_on, now_of, plain_or_none};
ghost use Rattle.command_words.specs.Numbers.{number_or_none};
ghost use Rattle.command_words.specs.Taken.{taken_of};

use crate::WordFault;
use crate::arguments::reader;
use crate::numbers::is_numeral;
use clap::ArgMatches;
use std::alloc::Global;

/// The texts of a command line: the value of each option, the flags, and up to three positional words.
#[derive(Drop)]
pub struct Given<'a> {
    pub low: Option<&'a str>,
    pub high: Option<&'a str>,
    pub rack: Option<&'a str>,
    pub hold: Option<&'a str>,
    pub block: Option<&'a str>,
    pub float: Option<&'a str>,
    pub loops: bool,
    pub json: bool,
    pub first: Option<&'a str>,
    pub second: Option<&'a str>,
    pub third: Option<&'a str>,
}

/// Whether a flag stands. One that does has the value `true`.
fn is_set(matches: &ArgMatches<'_>, name: &str) -> bool
    ensures { result ≡ is_on (first_value (found_of matches.now) name.now) }
{
    match matches.get_str(name) {
        Some(text) => text == "true",
        None => false,
    }
}

/// What clap finds. It takes a lone `-` as a value and, after `--`, positional words that begin with `-`.
fn parsed<'a>(alloc: Global, words: &'a [String]) -> Result<Given<'a>, WordFault>
    ensures ok { IfOk result (λ given. (items : List Item) × (taken_of None (map string_bytes words.now) ≡ Some items)
        × (are_distinct (option_names_in items) ≡ true) × (length (positional_words items) ≤ 3) × IsGivenByItems items given) }
    ensures usage { IsErrOf result WordFault.Usage → (items : List Item) → taken_of None (map string_bytes words.now) ≡ Some items
        → ItemsFit items → ⊥ }
{
    let reader = reader(alloc)?;
    let matches = reader.try_get_matches_from(words)?;
    Ok(Given {
        low: matches.get_str("low"),
        high: matches.get_str("high"),
        rack: matches.get_str("rack"),
        hold: matches.get_str("hold"),
        block: matches.get_str("block"),
        float: matches.get_str("float"),
        loops: is_set(&matches, "loops"),
        json: is_set(&matches, "json"),
        first: matches.get_str("command"),
        second: matches.get_str("rows"),
        third: matches.get_str("start"),
    })
}

/// Whether the value, if there is one, is a number.
fn is_numeral_or_none(value: Option<&str>) -> bool
    ensures { result ≡ number_or_none (now_of value.entry) }
{
    match value {
        Some(text) => is_numeral(text),
        None => true,
    }
}

/// Whether the word, if there is one, doesn't begin with `-`.
fn is_plain_or_none(word: Option<&str>) -> bool
    ensures { result ≡ plain_or_none (now_of word.entry) }
{
    match word {
        Some(text) => text.is_empty() || text.as_bytes()[0] != b'-',
        None => true,
    }
}

/// Whether the grammar takes what clap took: each value is a number, and no positional word begins with `-`.
fn is_lawful(given: &Given<'_>) -> bool
    ensures { result ≡ are_lawful given.now }
{
    is_numeral_or_none(given.low)
        && is_numeral_or_none(given.high)
        && is_numeral_or_none(given.rack)
        && is_numeral_or_none(given.hold)
        && is_numeral_or_none(given.block)
        && is_numeral_or_none(given.float)
        && is_plain_or_none(given.first)
        && is_plain_or_none(given.second)
        && is_plain_or_none(given.third)
}

/// The texts of a command line. `Usage`: its words spell nothing that the grammar takes.
pub fn read_words<'a>(alloc: Global, words: &'a [String]) -> Result<Given<'a>, WordFault>
    ensures ok { IfOk result (λ given. (items : List Item) × (items_of None (map string_bytes words.now) ≡ Some items)
        × AreLawfulItems items × IsGivenByItems items given) }
    ensures usage { IsErrOf result WordFault.Usage → (items : List Item) → items_of None (map string_bytes words.now) ≡ Some items
        → AreLawfulItems items → ⊥ }
{
    let given = match parsed(alloc, words) {
        Ok(given) => given,
        Err(fault) => return Err(fault),
    };
    if !is_lawful(&given) {
        return Err(WordFault::Usage);
    }
    Ok(given)
}
