//! From the texts to the request: the two tables and the numbers.
ghost use Rattle.std.specs.Prelude.{◌≡◌, IfOk, IfSome, IsErrOf, None, Some, map, option_and_then, string_bytes};
ghost use Rattle.command_words.specs.Given.{has_limits, now_of, parts_given};
ghost use Rattle.command_words.specs.Numbers.{number_in_text};
ghost use Rattle.command_words.specs.Request.{IsLawfulCommand, command_of, command_of_numbers, command_of_word, goes_with, make_of, options_of, request_from_parts, words_request, tally_of};

use crate::given::{Given, read_words};
use crate::numbers::{count, number};
use crate::{Command, Request, WordFault};
use machine_profile::Options;
use std::alloc::Global;

const MIN_ROWS: u32 = 1;

const MAX_ROWS: u32 = 20_000;

const MIN_START: u32 = 0;

const MAX_START: u32 = 2_147_483_647;

const FIRST_PLACE: u32 = 0;

const LAST_PLACE: u32 = 4_294_967_295;

/// The command of one word.
fn plain_command(word: &str, loops: bool, json: bool) -> Option<Command>
    ensures value { result ≡ command_of_word loops json word.now }
    ensures lawful { IfSome result IsLawfulCommand }
{
    if word == "check" {
        Some(Command::Check { loops, json })
    } else if word == "text" {
        Some(Command::Text)
    } else if word == "passes" {
        Some(Command::Passes)
    } else if word == "live" {
        Some(Command::Live)
    } else if word == "save" {
        Some(Command::Save)
    } else if word == "groups" {
        Some(Command::Groups)
    } else if word == "serve" {
        Some(Command::Serve { json })
    } else if word == "replay" {
        Some(Command::Replay)
    } else {
        None
    }
}

/// The command of three words.
fn numbered_command(word: &str, first: &str, second: &str) -> Option<Command>
    ensures value { result ≡ command_of_numbers word.now first.now second.now }
    ensures lawful { IfSome result IsLawfulCommand }
{
    if word == "make" {
        return make_command(first, second);
    }
    if word == "tally" {
        return tally_command(first, second);
    }
    None
}

fn make_command(rows: &str, start: &str) -> Option<Command>
    ensures value { result ≡ make_of rows.now start.now }
    ensures lawful { IfSome result IsLawfulCommand }
{
    let rows = count(rows, MIN_ROWS, MAX_ROWS)?;
    let start = count(start, MIN_START, MAX_START)?;
    Some(Command::Make { rows, start })
}

fn tally_command(from: &str, to: &str) -> Option<Command>
    ensures value { result ≡ tally_of from.now to.now }
    ensures lawful { IfSome result IsLawfulCommand }
{
    let from = count(from, FIRST_PLACE, LAST_PLACE)?;
    let to = count(to, FIRST_PLACE, LAST_PLACE)?;
    Some(Command::Tally { from, to })
}

/// The command that the positional words name.
fn command_in(given: &Given<'_>) -> Option<Command>
    ensures value { result ≡ command_of (parts_given given.now) }
    ensures lawful { IfSome result IsLawfulCommand }
{
    let word = given.first?;
    match (given.second, given.third) {
        (None, None) => plain_command(word, given.loops, given.json),
        (Some(first), Some(second)) => numbered_command(word, first, second),
        _ => None,
    }
}

/// The number of an option that stands.
fn number_in(value: Option<&str>) -> Option<i64>
    ensures { result ≡ option_and_then number_in_text (now_of value.entry) }
{
    match value {
        Some(text) => number(text),
        None => None,
    }
}

/// The values that the options give.
fn options_in(given: &Given<'_>) -> Options
    ensures { result ≡ options_of (parts_given given.now) }
{
    Options {
        low: number_in(given.low),
        high: number_in(given.high),
        rack: number_in(given.rack),
        hold: number_in(given.hold),
        block: number_in(given.block),
        float: number_in(given.float),
    }
}

/// Whether an option for a limit of the machine stands.
fn has_limit(given: &Given<'_>) -> bool
    ensures { result ≡ has_limits (parts_given given.now) }
{
    given.low.is_some()
        || given.high.is_some()
        || given.rack.is_some()
        || given.hold.is_some()
        || given.float.is_some()
}

/// Whether each option that stands goes with the command.
fn is_allowed(command: Command, given: &Given<'_>) -> bool
    ensures { result ≡ goes_with command (parts_given given.now) }
{
    let has_flag = given.loops || given.json;
    match command {
        Command::Check { .. } => true,
        Command::Text => given.block.is_none() && !has_flag,
        Command::Passes | Command::Live | Command::Save | Command::Groups => !has_flag,
        Command::Serve { .. } => !given.loops,
        Command::Replay | Command::Tally { .. } => {
            !has_limit(given) && given.block.is_none() && !has_flag
        }
        Command::Make { .. } => !has_limit(given) && !has_flag,
    }
}

/// What the texts ask for.
fn requested(given: &Given<'_>) -> Option<Request>
    ensures value { result ≡ request_from_parts (parts_given given.now) }
    ensures lawful { IfSome result (λ request. IsLawfulCommand request.command) }
{
    let command = command_in(given)?;
    if !is_allowed(command, given) {
        return None;
    }
    Some(Request {
        command,
        options: options_in(given),
    })
}

/// Reads the words after the program's name, from left to right. `Usage`: they are outside the grammar of the command line.
/// `NoMemory`: memory ran out. Whether the options lie within their bounds is for `machine_profile` to say.
pub fn request(alloc: Global, words: &[String]) -> Result<Request, WordFault>
    ensures ok { IfOk result (λ request. words_request (map string_bytes words.now) ≡ Some request) }
    ensures lawful { IfOk result (λ request. IsLawfulCommand request.command) }
    ensures usage { IsErrOf result WordFault.Usage → words_request (map string_bytes words.now) ≡ None }
{
    let given = match read_words(alloc, words) {
        Ok(given) => given,
        Err(fault) => return Err(fault),
    };
    match requested(&given) {
        Some(request) => Ok(request),
        None => Err(WordFault::Usage),
    }
}
