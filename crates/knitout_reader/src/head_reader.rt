//! A head whose lines come one by one.
ghost use Rattle.std.specs.Prelude.{◌≡◌, ◌≢◌, ◌+◌, ◌<◌, ◌^◌, ◌++◌, ◌∷◌, [], ℕ, List, true, false, length, IfErr, IfOk, OnOk};
ghost use Rattle.knit_base.specs.Lines.{IsLine};
ghost use Rattle.knitout_reader.specs.Tokens.{tokens_of};
ghost use Rattle.knitout_reader.specs.Head.{CarriersHeader, carriers_headers, is_head_line, one_declared};
ghost use Rattle.knitout_reader.specs.Head.{IsHead, IsHeadFault, IsNamesText, IsHeadRefusal};
ghost use Rattle.knitout_reader.specs.HeadLines.{AreBehindHead, AreHeaders, HasHeadLines};

use crate::head::{Head, HeadFault, is_head_line, is_magic, names_text, read_names};
use knit_base::{Declared, NoMemory};
use std::alloc::Global;

/// A head whose lines come one by one, up to the first that isn't of it. Of them all the names of the carriers are kept alone.
#[derive(Drop)]
pub struct HeadReader {
    pub(crate) lines: u32,
    has_magic: bool,
    headers: Headers,
}

/// What is kept of the headers that name the carriers.
#[derive(Drop)]
enum Headers {
    /// There is none.
    Missing,

    /// There is one, which declares these.
    Declared(Declared),

    /// There is one, whose names are refused.
    Refused(HeadFault),

    /// There are several, and the second of them is this line.
    Several { line: u32 },
}

impl HeadReader {
    /// Before the first line.
    pub fn new() -> HeadReader
        ensures { HasHeadLines [] result }
    {
        HeadReader {
            lines: 0,
            has_magic: false,
            headers: Headers::Missing,
        }
    }

    /// Takes the next line, which has at most 65,534 bytes, if the head goes on with it: `false` says that it doesn't, and that the head
    /// has ended before it. The first line is always taken. After want of memory the reader is of no use.
    pub fn take(&mut self, alloc: Global, line: &str) -> Result<bool, NoMemory>
        requires line { IsLine line.now }
        requires short { length line.now < 65535 }
        requires few { self.old.lines + 1 < 2 ^ 32 }
        ensures taken { IfOk result (λ is. is ≡ true → (lines : List (List ℕ)) → HasHeadLines lines self.old
            → HasHeadLines (lines ++ line.now ∷ []) self.new) }
        ensures ended { IfOk result (λ is. is ≡ false → (self.new ≡ self.old) × (0 < self.old.lines) × (is_head_line line.now ≡ false)) }
    {
        if self.lines == 0 {
            self.has_magic = is_magic(line.as_bytes());
        } else if !is_head_line(line.as_bytes()) {
            return Ok(false);
        }
        self.lines += 1;
        self.headers.take_line(alloc, line, self.lines)?;
        Ok(true)
    }

    /// The head of these lines, or the first refusal of it, whatever stands behind it. `NoMemory` is none of them.
    pub fn finish(self) -> Result<Head, HeadFault>
        ensures head { IfOk result (λ head. (lines more : List (List ℕ)) → HasHeadLines lines self → AreBehindHead more
            → IsHead (lines ++ more) head) }
        ensures fault { IfErr result (λ fault. (lines more : List (List ℕ)) → HasHeadLines lines self → AreBehindHead more
            → IsHeadFault (lines ++ more) fault) }
        ensures named { IfErr result (λ fault. (lines : List (List ℕ)) → HasHeadLines lines self → fault ≢ HeadFault.NoMemory) }
    {
        if !self.has_magic {
            return Err(HeadFault::BadMagic);
        }
        self.headers.declared(self.lines)
    }
}

impl Headers {
    // Takes the line of the head with this number.
    fn take_line(&mut self, alloc: Global, line: &str, number: u32) -> Result<(), NoMemory>
        requires line { IsLine line.now }
        requires short { length line.now < 65535 }
        ensures { OnOk result ((lines : List (List ℕ)) → number ≡ length lines + 1 → AreHeaders (carriers_headers 1 lines) self.old
            → AreHeaders (carriers_headers 1 (lines ++ line.now ∷ [])) self.new) }
    {
        let Some(names) = names_text(line) else {
            return Ok(());
        };
        self.add(alloc, names, number)
    }

    // One header more. Its names are read where it is the first.
    fn add(&mut self, alloc: Global, names: &[u8], line: u32) -> Result<(), NoMemory>
        requires { IsNamesText names.now }
        ensures { OnOk result ((headers : List CarriersHeader) → AreHeaders headers self.old
            → AreHeaders (headers ++ record { line = line; names = tokens_of names.now } ∷ []) self.new) }
    {
        match self {
            Headers::Missing => *self = first_header(alloc, names, line)?,
            Headers::Declared(_) | Headers::Refused(_) => *self = Headers::Several { line },
            Headers::Several { .. } => {}
        }
        Ok(())
    }

    // The head of so many lines with these headers.
    fn declared(self, lines: u32) -> Result<Head, HeadFault>
        ensures head { IfOk result (λ head. (headers : List CarriersHeader) → AreHeaders headers self
            → one_declared headers ≡ Ok head.declared) }
        ensures len { IfOk result (λ head. head.lines ≡ lines) }
        ensures fault { IfErr result (λ fault. (headers : List CarriersHeader) → AreHeaders headers self
            → IsHeadRefusal (one_declared headers) fault) }
        ensures named { IfErr result (λ fault. (headers : List CarriersHeader) → AreHeaders headers self → fault ≢ HeadFault.NoMemory) }
    {
        match self {
            Headers::Missing => Err(HeadFault::NoCarriers),
            Headers::Declared(declared) => Ok(Head { lines, declared }),
            Headers::Refused(fault) => Err(fault),
            Headers::Several { line } => Err(HeadFault::TwoCarriers { line }),
        }
    }
}

// What is kept of the first header.
fn first_header(alloc: Global, names: &[u8], line: u32) -> Result<Headers, NoMemory>
    requires { IsNamesText names.now }
    ensures { IfOk result (AreHeaders (record { line = line; names = tokens_of names.now } ∷ [])) }
{
    match read_names(alloc, names, line) {
        Ok(declared) => Ok(Headers::Declared(declared)),
        Err(HeadFault::NoMemory) => Err(NoMemory),
        Err(fault) => Ok(Headers::Refused(fault)),
    }
}
