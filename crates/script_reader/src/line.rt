//! What a line of a script says by itself.
ghost use Rattle.std.specs.Prelude.{◌≡◌, codes, true, drop};
ghost use Rattle.knit_base.specs.Lines.{IsLine};
ghost use Rattle.knitout_reader.specs.Tokens.{tokens_of};
ghost use Rattle.script_reader.specs.Statements.{are_form_words, is_groups, is_live, is_skipped, is_text_line, kind_of, kind_of_one, kind_of_two, command_line_of, mark_of};

use crate::command::Place;
use crate::words::{name, number, place};
use edit_journal::BlockName;
use knitout_reader::{is_blank_text, next_token};

const LIVE: &[u8] = b"live";

const GROUPS: &[u8] = b"groups";

const FORM: &[u8] = b"1";

const SESSION: &[u8] = b"session";

const LOOK: &[u8] = b"look";

const PUT: &[u8] = b"put";

const ADD: &[u8] = b"add";

const CUT: &[u8] = b"cut";

const LOOP: &[u8] = b"loop";

const VERDICT: &[u8] = b"verdict";

const HEADER: &[u8] = b"head";

const GROUP: &[u8] = b"group";

const END: &[u8] = b"end";

const UNDO: &[u8] = b"undo";

/// A command without its text.
#[derive(Clone, Copy, Debug, PartialEq, Eq)]
pub(crate) enum CommandLine {
    Look(BlockName),
    Put(BlockName),
    Add(Place),
    Cut(BlockName),
    LoopAt(u32),
    Verdict,
    LookHead,
    PutHead,
}

/// A word that stands alone in its line, in scripts of groups.
#[derive(Clone, Copy, Debug, PartialEq, Eq)]
pub(crate) enum Mark {
    Group,
    End,
    Undo,
}

/// What a line is.
#[derive(Clone, Copy, Debug, PartialEq, Eq)]
pub(crate) enum Kind {
    /// It is blank, or begins with `#`.
    Skipped,
    /// It is `|` and a text.
    Text,
    /// It begins a session.
    Session,
    /// It is a command line.
    Command(CommandLine),
    /// It is `put head`, which reads the text behind it.
    Header,
    /// It is `group`, `end` or `undo`.
    Mark(Mark),
    /// It is none of these.
    Other,
}

/// Whether a first line is `live 1`.
pub(crate) fn is_live(line: &[u8]) -> bool
    ensures { result ≡ is_live line.now }
{
    names_form(line, LIVE)
}

/// Whether a first line is `groups 1`.
pub(crate) fn is_groups(line: &[u8]) -> bool
    ensures { result ≡ is_groups line.now }
{
    names_form(line, GROUPS)
}

// Whether the line is this word and `1`.
fn names_form(line: &[u8], name: &[u8]) -> bool
    ensures { result ≡ are_form_words name.now (tokens_of line.now) }
{
    let Some((word, rest)) = next_token(line) else {
        return false;
    };
    let Some((form, rest)) = next_token(rest) else {
        return false;
    };
    word == name && form == FORM && next_token(rest).is_none()
}

/// What a line behind the first one is.
pub(crate) fn kind_of(line: &[u8]) -> Kind
    ensures { result ≡ kind_of line.now }
{
    if is_text_line(line) {
        return Kind::Text;
    }
    if is_skipped(line) {
        return Kind::Skipped;
    }
    let Some((word, rest)) = next_token(line) else {
        return Kind::Other;
    };
    let Some((operand, rest)) = next_token(rest) else {
        return one_word(word);
    };
    if next_token(rest).is_some() {
        return Kind::Other;
    }
    two_words(word, operand)
}

/// Whether the line is `|` and a text.
pub fn is_text_line(line: &[u8]) -> bool
    ensures { result ≡ is_text_line line.now }
{
    line.starts_with(b"|")
}

/// The text of a text line.
pub fn text_of(line: &str) -> &str
    requires line { IsLine line.now }
    requires text { is_text_line line.now ≡ true }
    ensures text { result.now ≡ drop 1 line.now }
    ensures line { IsLine result.now }
{
    &line[1..]
}

/// Whether the line is as if it weren't there.
pub fn is_skipped(line: &[u8]) -> bool
    ensures { result ≡ is_skipped line.now }
{
    line.starts_with(b"#") || is_blank_text(line)
}

fn one_word(word: &[u8]) -> Kind
    ensures { result ≡ kind_of_one word.now }
{
    if word == SESSION {
        return Kind::Session;
    }
    if word == VERDICT {
        return Kind::Command(CommandLine::Verdict);
    }
    match mark_of(word) {
        Some(mark) => Kind::Mark(mark),
        None => Kind::Other,
    }
}

/// The mark that the word is.
pub(crate) fn mark_of(word: &[u8]) -> Option<Mark>
    ensures { result ≡ mark_of word.now }
{
    if word == GROUP {
        return Some(Mark::Group);
    }
    if word == END {
        return Some(Mark::End);
    }
    if word == UNDO {
        return Some(Mark::Undo);
    }
    None
}

fn two_words(word: &[u8], operand: &[u8]) -> Kind
    ensures { result ≡ kind_of_two word.now operand.now }
{
    if word == PUT && operand == HEADER {
        return Kind::Header;
    }
    match command_line_of(word, operand) {
        Some(command_line) => Kind::Command(command_line),
        None => Kind::Other,
    }
}

/// The command of a line of two words, without its text.
pub(crate) fn command_line_of(word: &[u8], operand: &[u8]) -> Option<CommandLine>
    ensures { result ≡ command_line_of word.now operand.now }
{
    if word == LOOK {
        if operand == HEADER {
            return Some(CommandLine::LookHead);
        }
        return Some(CommandLine::Look(name(operand)?));
    }
    if word == PUT {
        return Some(CommandLine::Put(name(operand)?));
    }
    if word == ADD {
        return Some(CommandLine::Add(place(operand)?));
    }
    if word == CUT {
        return Some(CommandLine::Cut(name(operand)?));
    }
    if word == LOOP {
        return Some(CommandLine::LoopAt(number(operand)?));
    }
    None
}
