//! The head of a file.
ghost use Rattle.std.specs.Prelude.{◌≡◌, ◌<◌, All, IfOk, IfErr, IfSome, MatchOption, MatchResult, true, false, length, drop};
ghost use Rattle.std.specs.List.{list_any};
ghost use Rattle.std.specs.Str.{bytes_eq};
ghost use Rattle.knit_base.specs.Lines.{IsLine};
ghost use Rattle.knitout_reader.specs.Tokens.{tokens_of};
ghost use Rattle.knitout_reader.specs.declared.head.HeadFault.TheVariants as refused;
ghost use Rattle.knitout_reader.specs.Head.{is_magic, is_head_line, is_carriers_line, carriers_word, has_name_twice, names_declared, names_in_line, IsHead, IsHeadFault, IsHeadRefusal, IsNamesText};

use crate::body::nth_line;
use crate::head_reader::HeadReader;
use crate::tokens::{is_blank_text, next_token};
use knit_base::{AddName, Declared, Lines, NoMemory};
use std::alloc::Global;
use thiserror::Error;

// What a file begins with.
const MAGIC: &[u8] = b";!knitout-2";

// What the header that names the carriers begins with.
const CARRIERS: &[u8] = b";;Carriers:";

/// The head of a file.
#[derive(Drop)]
pub struct Head {
    /// How many lines it has.
    pub lines: u32,
    /// The carriers that its header declares.
    pub declared: Declared,
}

/// Why a head is refused. Where several reasons hold over the whole head, the first of them is told. Lines count from 1.
#[derive(Clone, Copy, Debug, PartialEq, Eq, Error)]
pub enum HeadFault {
    /// There is no first line, or it isn't `;!knitout-2` and blanks.
    #[error("the first line isn't ;!knitout-2")]
    BadMagic,

    /// No line of the head begins with `;;Carriers:`.
    #[error("no header names the carriers")]
    NoCarriers,

    /// This line is the second of the head that begins with `;;Carriers:`.
    #[error("line {line} names the carriers again")]
    TwoCarriers { line: u32 },

    /// The header at this line gives a name twice.
    #[error("line {line} names a carrier twice")]
    CarrierNameTwice { line: u32 },

    /// The header at this line gives more than 64 names.
    #[error("line {line} names more than 64 carriers")]
    ManyCarriers { line: u32 },

    /// Memory ran out.
    #[error("out of memory")]
    NoMemory,
}

impl From<NoMemory> for HeadFault {
    ghost from_gives = { λ _ e. e ≡ refused.NoMemory };

    fn from(_: NoMemory) -> Self {
        HeadFault::NoMemory
    }
}

/// Reads the head of a file: its first line, and the lines behind it that are blank or have a `;` as their first byte, up
/// to the first other line. The names are the runs without blanks behind the colon of `;;Carriers:`, 64 at most; there may be
/// none.
///
/// Of the refusals that hold, the first in the order of `HeadFault` is told, and `NoMemory` may come with any head.
pub fn read_head(alloc: Global, lines: &Lines) -> Result<Head, HeadFault>
    requires short { All (λ line. length line < 65535) lines.now }
    ensures head { IfOk result (λ head. IsHead lines.now head) }
    ensures fault { IfErr result (λ fault. IsHeadFault lines.now fault) }
{
    let mut reader = HeadReader::new();
    for i in 0..lines.len() {
        if !reader.take(alloc, nth_line(lines, i))? {
            return reader.finish();
        }
    }
    reader.finish()
}

/// Whether the line is `;!knitout-2` with blanks behind it, with which a file begins.
pub fn is_magic(line: &[u8]) -> bool
    ensures { result ≡ is_magic line.now }
{
    line.starts_with(MAGIC) && is_blank_text(&line[MAGIC.len()..])
}

/// Whether the line goes on with a head: it is blank, or its first byte is a `;`.
pub fn is_head_line(line: &[u8]) -> bool
    ensures { result ≡ is_head_line line.now }
{
    line.starts_with(b";") || is_blank_text(line)
}

// What stands behind the colon of a header that names the carriers.
pub(crate) fn names_text(line: &str) -> Option<&[u8]>
    requires line { IsLine line.now }
    requires short { length line.now < 65535 }
    ensures header { MatchOption result (is_carriers_line line.now ≡ false) (λ text. (is_carriers_line line.now ≡ true) × (text.now ≡ drop (length carriers_word) line.now)) }
    ensures text { IfSome result (λ text. IsNamesText text.now) }
{
    line.as_bytes().strip_prefix(CARRIERS)
}

/// The names that a header line gives: those behind `;;Carriers:`, where they are different and at most 64. None where the line
/// doesn't begin so, or gives a name twice or more names.
pub fn declared_in(alloc: Global, line: &str) -> Result<Option<Declared>, NoMemory>
    requires line { IsLine line.now }
    requires short { length line.now < 65535 }
    ensures { IfOk result (λ found. found ≡ names_in_line line.now) }
{
    let Some(text) = names_text(line) else {
        return Ok(None);
    };
    match read_names(alloc, text, 1) {
        Ok(declared) => Ok(Some(declared)),
        Err(HeadFault::NoMemory) => Err(NoMemory),
        Err(_) => Ok(None),
    }
}

// The carriers that the header at this line declares.
pub(crate) fn read_names(alloc: Global, text: &[u8], line: u32) -> Result<Declared, HeadFault>
    requires { IsNamesText text.now }
    ensures names { let answer = names_declared (record { line = line; names = tokens_of text.now }) in MatchResult result (λ declared. answer ≡ Ok declared) (λ fault. IsHeadRefusal answer fault) }
{
    if has_name_twice(text) {
        return Err(HeadFault::CarrierNameTwice { line });
    }
    let mut declared = Declared::new(alloc);
    let mut rest = text;
    while let Some((name, after)) = next_token(rest) {
        let name = str::from_utf8(name).unwrap();
        match declared.add(name) {
            Ok(()) => rest = after,
            Err(AddName::Twice) => return Err(HeadFault::CarrierNameTwice { line }),
            Err(AddName::Many) => return Err(HeadFault::ManyCarriers { line }),
            Err(AddName::NoMemory) => return Err(HeadFault::NoMemory),
        }
    }
    Ok(declared)
}

// Whether some name stands twice. Each name is compared with those behind it, which takes no memory.
fn has_name_twice(text: &[u8]) -> bool
    ensures { result ≡ has_name_twice (tokens_of text.now) }
{
    let mut rest = text;
    while let Some((name, after)) = next_token(rest) {
        if has_name(after, name) {
            return true;
        }
        rest = after;
    }
    false
}

// Whether this name is among those of the text.
fn has_name(text: &[u8], name: &[u8]) -> bool
    ensures { result ≡ list_any (bytes_eq name.now) (tokens_of text.now) }
{
    let mut rest = text;
    while let Some((other, after)) = next_token(rest) {
        if name == other {
            return true;
        }
        rest = after;
    }
    false
}
