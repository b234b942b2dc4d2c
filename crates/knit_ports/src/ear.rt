//! The lines that are heard, each as soon as it is there.
ghost use Rattle.std.specs.Prelude.{◌≡◌, ◌<◌, ◌≤◌, ◌++◌, ◌∷◌, [], List, ℕ, true, false, length, vec_capacity, IfOk, MatchOption, OnErr, OnOk};
ghost use Rattle.knit_base.specs.Lines.{HasNoLineEnd};
ghost use Rattle.knit_ports.specs.Ears.{IsFirstFeed, IsFrontHeard, IsLineHeard, kept_front, kept_limit};
ghost use Rattle.knit_ports.specs.Faults.{HasCause, Rose};
ghost use Rattle.knit_ports.specs.Pieces.{Heard, PiecesGoOn};

use crate::limit::{HEARD_LIMIT, PIECE};
use crate::whole::zeros;
use crate::{Failed, Talk};
use knit_base::NoMemory;
use memchr::memchr;
use std::alloc::Global;
use std::marker::Model;

// So many bytes of a line are kept.
const KEPT: usize = HEARD_LIMIT + 2;

/// What ends a line that was heard.
#[derive(Clone, Copy, Debug, PartialEq, Eq)]
pub enum LineEnd {
    /// Its line feed.
    LineFeed,
    /// The end of the input. The line is empty where the input ends behind a line feed, or has no bytes.
    InputEnd,
    /// Nothing yet: 18,446,744,073,709,551,615 pieces were heard, none of which but the last has a line feed.
    Endless,
}

/// Hears lines. It keeps the bytes that were heard and belong to no line yet, and the line that was heard last, of which the
/// first 8,194 bytes: so a line of 8,192 bytes and a carriage return is told from one that is longer.
#[derive(Drop)]
pub struct Ear {
    piece: Vec<u8>,
    at: usize,
    end: usize,
    line: Vec<u8>,
}

impl Model for Ear {
    ghost use Rattle.std.specs.Prelude.{◌<◌, ◌≤◌, ◌-◌, length, take, drop, vec_capacity};
    ghost use Rattle.knit_ports.specs.Ears.{EarView, kept_limit};

    ghost Value = { EarView };

    ghost view = { λ e. record { pending = take (e.end - e.at) (drop e.at e.piece.items); line = e.line.items } };

    ghost invariant = { λ e. (e.at ≤ e.end) × (e.end ≤ length e.piece.items) × (0 < length e.piece.items) × (kept_limit ≤ vec_capacity e.line) };
}

impl Ear {
    /// An ear that has heard nothing. It takes all the memory that it will need: a piece of 65,536 bytes and a line.
    pub fn new(alloc: Global) -> Result<Self, NoMemory>
        ensures { IfOk result (λ ear. ear ≡ record { pending = []; line = [] }) }
    {
        let piece = zeros(alloc, PIECE)?;
        let line = Vec::with_capacity(alloc, KEPT)?;
        Ok(Ear {
            piece,
            at: 0,
            end: 0,
            line,
        })
    }

    /// What is kept of the line that was heard last, without its line feed: its first 8,194 bytes, a carriage return at the
    /// end among them.
    pub fn line(&self) -> &[u8]
        ensures { result.now ≡ self.now.line }
    {
        &self.line
    }

    /// Hears the next line, and tells what ends it. It waits for no byte behind the line's end. Each time that it waits it
    /// offers 65,536 bytes.
    ///
    /// Where a call fails, what was heard of the line is let go, and what is heard next begins a line.
    pub fn hear<T: Talk>(&mut self, talk: &mut T) -> Result<LineEnd, Failed>
        ensures heard { IfOk result (IsLineHeard (T.told talk.old) (T.told talk.new) self.old self.new) }
        ensures calm { OnOk result (T.faults talk.new ≡ T.faults talk.old) }
        ensures front { OnErr result (IsFrontHeard (T.told talk.old) (T.told talk.new) self.old self.new) }
        ensures cause { OnErr result (Rose (T.faults talk.old) (T.faults talk.new)) }
    {
        self.line.clear();
        // `i` pieces with bytes were heard.
        'hearing: for i in 0..u64::MAX {
            if self.take_line() {
                return Ok(LineEnd::LineFeed);
            }
            if !self.refill(talk)? {
                return Ok(LineEnd::InputEnd);
            }
        }
        Ok(LineEnd::Endless)
    }

    // Takes the pending bytes up to the first line feed, and that with them. Whether there was one.
    fn take_line(&mut self) -> bool
        requires { length self.old.line ≤ kept_limit }
        ensures found { result ≡ true → (front : List ℕ) × HasNoLineEnd front × (self.old.pending ≡ front ++ 10 ∷ self.new.pending)
            × (self.new.line ≡ kept_front (self.old.line ++ front)) }
        ensures none { result ≡ false → HasNoLineEnd self.old.pending × (self.new.pending ≡ [])
            × (self.new.line ≡ kept_front (self.old.line ++ self.old.pending)) }
    {
        let rest = &self.piece[self.at..self.end];
        match feed_at(rest) {
            Some(n) => {
                keep(&mut self.line, &rest[..n]);
                self.at += n + 1;
                true
            }
            None => {
                keep(&mut self.line, rest);
                self.at = self.end;
                false
            }
        }
    }

    // Waits for more bytes. Whether there were any.
    fn refill<T: Talk>(&mut self, talk: &mut T) -> Result<bool, Failed>
        requires { self.old.pending ≡ [] }
        ensures told { IfOk result (λ more. PiecesGoOn (T.told talk.old) (T.told talk.new) (Heard self.new.pending ∷ [])) }
        ensures some { IfOk result (λ more. more ≡ true → 0 < length self.new.pending) }
        ensures end { IfOk result (λ more. more ≡ false → self.new.pending ≡ []) }
        ensures line { self.new.line ≡ self.old.line }
        ensures failed { OnErr result (PiecesGoOn (T.told talk.old) (T.told talk.new) []) }
        ensures lost { OnErr result (self.new.pending ≡ []) }
        ensures cause { HasCause (T.faults talk.old) (T.faults talk.new) result }
        ensures calm { OnOk result (T.faults talk.new ≡ T.faults talk.old) }
    {
        let given = talk.hear(&mut self.piece)?;
        self.at = 0;
        self.end = given;
        Ok(given > 0)
    }
}

// Where the first line feed is.
fn feed_at(rest: &[u8]) -> Option<usize>
    ensures { MatchOption result (HasNoLineEnd rest.now) (IsFirstFeed rest.now) }
{
    memchr(b'\n', rest)
}

// Keeps bytes of a line, as far as there is room.
fn keep(line: &mut Vec<u8>, bytes: &[u8])
    requires room { kept_limit ≤ vec_capacity line.old }
    requires short { length line.old.items ≤ kept_limit }
    ensures room { kept_limit ≤ vec_capacity line.new }
    ensures kept { line.new.items ≡ kept_front (line.old.items ++ bytes.now) }
{
    let room = KEPT - line.len();
    line.extend_from_slice(&bytes[..room.min(bytes.len())])
        .unwrap();
}

#[cfg(test)]
mod tests;
