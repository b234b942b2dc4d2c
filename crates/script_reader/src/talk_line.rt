//! What a line of a conversation says by itself.
ghost use Rattle.std.specs.Prelude.{◌≡◌, IfSome};
ghost use Rattle.knitout_reader.specs.Tokens.{tokens_of};
ghost use Rattle.script_reader.specs.Listening.{IsFairAsked, IsFairLine};
ghost use Rattle.script_reader.specs.Script.{takes_text};
ghost use Rattle.script_reader.specs.TalkLines.{asked_by_words, asked_by_four, asked_by_one, asked_by_three, asked_by_two, talk_line_asking, edit, edit_by, look_by, opening_by, asked_without_text, talk_line_of, talk_opening};

use crate::fault::Cause;
use crate::line::{CommandLine, Mark, command_line_of, is_skipped, is_text_line, mark_of};
use crate::words::{name, number};
use edit_journal::BlockName;
use knitout_reader::next_token;

const SERVE: &[u8] = b"serve";

const FORM: &[u8] = b"1";

const LINES: &[u8] = b"lines";

const JOURNAL: &[u8] = b"journal";

const SESSION: &[u8] = b"session";

const LOOK: &[u8] = b"look";

const AT: &[u8] = b"at";

const PUT: &[u8] = b"put";

const HEADER: &[u8] = b"head";

const VERDICT: &[u8] = b"verdict";

const BLOCKS: &[u8] = b"blocks";

const SINCE: &[u8] = b"since";

const SAVE: &[u8] = b"save";

const TALLY: &[u8] = b"tally";

/// How many sessions a conversation has.
const SESSION_COUNT: u32 = 64;

/// What is asked that changes nothing, neither the journal nor what the session remembers.
#[derive(Clone, Copy, Debug, PartialEq, Eq)]
pub enum Question {
    /// The blocks as they stand.
    Blocks,
    /// The entries behind this version.
    Since(u32),
    /// The text that the block got from the entry with this number, or its opening text for 0.
    TextAt(BlockName, u32),
    /// The saved text of the opening and the journal.
    Save,
    /// What the blocks at the places from the first to the second come to, from 0.
    Tally(u32, u32),
}

/// What follows the first line of a conversation.
#[derive(Clone, Copy, Debug, PartialEq, Eq)]
pub enum TalkOpening {
    /// So many text lines of an opening text.
    Lines(u32),
    /// So many lines of a saved text, as they stand.
    Journal(u32),
}

/// What a command line asks.
#[derive(Clone, Copy)]
pub(crate) enum Asked {
    /// A command that takes no text.
    Plain(CommandLine),
    /// A put or an add, with so many text lines behind it.
    Edit(CommandLine, u32),
    /// New names of the header, which the text line behind it gives.
    Header,
    /// An answer that changes nothing.
    Tell(Question),
    /// `group`, `end` or `undo`.
    Mark(Mark),
}

/// What a line behind the opening is.
#[derive(Clone, Copy)]
pub(crate) enum TalkLine {
    /// It is blank, or begins with `#`.
    Skipped,
    /// It is `|` and a text.
    Text,
    /// The session with this number asks this.
    Command(u32, Asked),
    /// It is none of these, for this cause.
    Bad(Cause),
}

/// What the first line of a conversation says, if it is one: `serve 1`, what follows, and how many lines of it.
pub fn talk_opening(line: &[u8]) -> Option<TalkOpening>
    ensures { result ≡ talk_opening line.now }
{
    let (word, rest) = next_token(line)?;
    let (form, rest) = next_token(rest)?;
    let (key, rest) = next_token(rest)?;
    let (value, rest) = next_token(rest)?;
    if next_token(rest).is_some() {
        return None;
    }
    if word == SERVE && form == FORM {
        return opening_by(key, value);
    }
    None
}

fn opening_by(key: &[u8], value: &[u8]) -> Option<TalkOpening>
    ensures { result ≡ opening_by key.now value.now }
{
    if key == LINES {
        return Some(TalkOpening::Lines(number(value)?));
    }
    if key == JOURNAL {
        return Some(TalkOpening::Journal(number(value)?));
    }
    None
}

/// What a line behind the opening says by itself.
pub(crate) fn talk_line(line: &[u8]) -> TalkLine
    ensures is { result ≡ talk_line_of line.now }
    ensures fair { IsFairLine result }
{
    if is_text_line(line) {
        return TalkLine::Text;
    }
    if is_skipped(line) {
        return TalkLine::Skipped;
    }
    let Some((word, rest)) = next_token(line) else {
        return TalkLine::Bad(Cause::BadLine);
    };
    let Some((token, rest)) = next_token(rest) else {
        return asked_of(0, asked_by(line));
    };
    if word == SESSION {
        return match number(token) {
            Some(session) => asked_of(session, asked_by(rest)),
            None => TalkLine::Bad(Cause::BadLine),
        };
    }
    asked_of(0, asked_by(line))
}

fn asked_of(session: u32, asked: Option<Asked>) -> TalkLine
    requires fair { IfSome asked IsFairAsked }
    ensures is { result ≡ talk_line_asking session asked }
    ensures fair { IsFairLine result }
{
    match asked {
        None => TalkLine::Bad(Cause::BadLine),
        Some(asked) => {
            if session < SESSION_COUNT {
                return TalkLine::Command(session, asked);
            }
            TalkLine::Bad(Cause::ManySessions)
        }
    }
}

// What the words ask, if they ask anything.
fn asked_by(words: &[u8]) -> Option<Asked>
    ensures is { result ≡ asked_by_words (tokens_of words.now) }
    ensures fair { IfSome result IsFairAsked }
{
    let Some((word, rest)) = next_token(words) else {
        return None;
    };
    let Some((operand, rest)) = next_token(rest) else {
        return asked_by_one(word);
    };
    let Some((third, rest)) = next_token(rest) else {
        return asked_by_two(word, operand);
    };
    let Some((value, rest)) = next_token(rest) else {
        return asked_by_three(word, operand, third);
    };
    if next_token(rest).is_some() {
        return None;
    }
    asked_by_four(word, operand, third, value)
}

fn asked_by_one(word: &[u8]) -> Option<Asked>
    ensures is { result ≡ asked_by_one word.now }
    ensures fair { IfSome result IsFairAsked }
{
    if word == VERDICT {
        return Some(Asked::Plain(CommandLine::Verdict));
    }
    if word == BLOCKS {
        return Some(Asked::Tell(Question::Blocks));
    }
    if word == SAVE {
        return Some(Asked::Tell(Question::Save));
    }
    Some(Asked::Mark(mark_of(word)?))
}

fn asked_by_two(word: &[u8], operand: &[u8]) -> Option<Asked>
    ensures is { result ≡ asked_by_two word.now operand.now }
    ensures fair { IfSome result IsFairAsked }
{
    if word == SINCE {
        return Some(Asked::Tell(Question::Since(number(operand)?)));
    }
    plain(command_line_of(word, operand)?)
}

// The command, if it takes no text.
fn plain(command_line: CommandLine) -> Option<Asked>
    ensures is { result ≡ asked_without_text command_line }
    ensures fair { IfSome result IsFairAsked }
{
    if takes_text(command_line) {
        return None;
    }
    Some(Asked::Plain(command_line))
}

fn takes_text(command_line: CommandLine) -> bool
    ensures { result ≡ takes_text command_line }
{
    match command_line {
        CommandLine::Put(_) | CommandLine::Add(_) => true,
        _ => false,
    }
}

fn asked_by_three(word: &[u8], from: &[u8], to: &[u8]) -> Option<Asked>
    ensures is { result ≡ asked_by_three word.now from.now to.now }
    ensures fair { IfSome result IsFairAsked }
{
    if word == TALLY {
        let first = number(from)?;
        let last = number(to)?;
        return Some(Asked::Tell(Question::Tally(first, last)));
    }
    None
}

fn asked_by_four(word: &[u8], operand: &[u8], key: &[u8], value: &[u8]) -> Option<Asked>
    ensures is { result ≡ asked_by_four word.now operand.now key.now value.now }
    ensures fair { IfSome result IsFairAsked }
{
    if key == LINES {
        return edit_by(word, operand, number(value)?);
    }
    if key == AT {
        return look_by(word, operand, number(value)?);
    }
    None
}

// A put or an add with so many text lines, or new names of the header with one.
fn edit_by(word: &[u8], operand: &[u8], count: u32) -> Option<Asked>
    ensures is { result ≡ edit_by word.now operand.now count }
    ensures fair { IfSome result IsFairAsked }
{
    if word == PUT && operand == HEADER {
        if count == 1 {
            return Some(Asked::Header);
        }
        return None;
    }
    edit(count, command_line_of(word, operand)?)
}

// The edit, if it takes a text.
fn edit(count: u32, command_line: CommandLine) -> Option<Asked>
    ensures is { result ≡ edit count command_line }
    ensures fair { IfSome result IsFairAsked }
{
    if takes_text(command_line) {
        return Some(Asked::Edit(command_line, count));
    }
    None
}

// The text that a block got from an entry.
fn look_by(word: &[u8], operand: &[u8], stamp: u32) -> Option<Asked>
    ensures is { result ≡ look_by word.now operand.now stamp }
    ensures fair { IfSome result IsFairAsked }
{
    if word == LOOK {
        return Some(Asked::Tell(Question::TextAt(name(operand)?, stamp)));
    }
    None
}
