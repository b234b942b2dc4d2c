//! A conversation in memory, which keeps what was heard and said and fails at stated calls.
ghost use Rattle.std.specs.Prelude.{◌≡◌, ◌++◌, ◌∷◌, [], ◌<◌, ◌≤◌, length, map, min, Contains, IfOk, IsErr, OnErr, OnOk, Some};
ghost use Rattle.std.specs.Io.{ReadsAtMost, WritesAtMost};
ghost use Rattle.std.specs.Io.KnownBytes.{ReadConsumes};
ghost use Rattle.knit_ports.specs.declared.memory_talk.KeptPiece.TheVariants as kept;
ghost use Rattle.knit_ports.specs.Faults.{HasCause};
ghost use Rattle.knit_ports.specs.Memory.{calls_after};
ghost use Rattle.knit_ports.specs.MemoryTalks.{KeepsTerms, piece_of};
ghost use Rattle.knit_ports.specs.Pieces.{Said, Heard, TellsHeard, TellsSaid};

use crate::{Failed, Talk};
use knit_base::NoMemory;
use std::alloc::Global;
use std::marker::Model;

/// Bytes that were heard or said at once.
#[derive(Drop)]
pub enum KeptPiece {
    /// Where there are none, the input was at its end.
    Heard(Vec<u8>),
    Said(Vec<u8>),
}

/// An input in memory, of which so many bytes at most are heard at once, and of what is said so many at most are taken at once.
/// The calls with the listed numbers fail, counted from 1 over both. So does one that finds no memory to keep its piece.
#[derive(Drop)]
pub struct MemoryTalk {
    alloc: Global,
    input: Vec<u8>,
    at: usize,
    gives: u32,
    takes: u32,
    failing: Vec<u32>,
    pieces: Vec<KeptPiece>,
    calls: u32,
    faults: u64,
}

impl Model for MemoryTalk {
    ghost use Rattle.std.specs.Prelude.{◌≤◌, length, drop, map};
    ghost use Rattle.knit_ports.specs.MemoryTalks.{TalkView, piece_of};

    ghost Value = { TalkView };

    ghost view = { λ t. record { told = map piece_of t.pieces.items; left = drop t.at t.input.items; gives = t.gives; takes = t.takes; failing = t.failing.items; calls = t.calls; faults = t.faults } };

    ghost invariant = { λ t. (t.at ≤ length t.input.items) × (1 ≤ t.gives) × (1 ≤ t.takes) };
}

impl MemoryTalk {
    /// `gives` and `takes` are in bytes.
    pub fn of(alloc: Global, input: Vec<u8>, gives: u32, takes: u32, failing: Vec<u32>) -> Self
        requires gives { 1 ≤ gives }
        requires takes { 1 ≤ takes }
        ensures { result ≡ record { told = []; left = input.items; gives = gives; takes = takes; failing = failing.items; calls = 0; faults = 0 } }
    {
        MemoryTalk {
            alloc,
            input,
            at: 0,
            gives,
            takes,
            failing,
            pieces: Vec::new(alloc),
            calls: 0,
            faults: 0,
        }
    }

    /// What was heard and said so far, in order.
    pub fn pieces(&self) -> &[KeptPiece]
        ensures { map piece_of result.now ≡ self.now.told }
    {
        &self.pieces
    }
}

impl Talk for MemoryTalk {
    ghost told = { λ t. Some t.told };

    ghost faults = { λ t. t.faults };

    fn hear(&mut self, piece: &mut [u8]) -> Result<usize, Failed>
        ensures bound { ReadsAtMost result piece.new }
        ensures told { TellsHeard (Some self.old.told) (Some self.new.told) result piece.new }
        ensures bytes { ReadConsumes (Some self.old.left) (Some self.new.left) result piece.new }
        ensures cause { HasCause self.old.faults self.new.faults result }
        ensures calm { OnOk result (self.new.faults ≡ self.old.faults) }
        ensures listed { Contains self.old.failing self.new.calls → IsErr result }
        ensures given { IfOk result (λ n. n ≡ min (min (length self.old.left) (length piece.new)) self.old.gives) }
        ensures calls { self.new.calls ≡ calls_after self.old.calls }
        ensures kept { KeepsTerms self.old self.new }
    {
        self.calls = self.calls.saturating_add(1);
        if self.failing.contains(&self.calls) {
            self.faults = self.faults.saturating_add(1);
            return Err(Failed);
        }
        let left = &self.input[self.at..];
        let count = left.len().min(piece.len()).min(self.gives as usize);
        match keep_heard(self.alloc, &mut self.pieces, &left[..count]) {
            Ok(()) => {
                piece[..count].copy_from_slice(&left[..count]);
                self.at += count;
                Ok(count)
            }
            Err(NoMemory) => {
                self.faults = self.faults.saturating_add(1);
                Err(Failed)
            }
        }
    }

    fn say(&mut self, piece: &[u8]) -> Result<usize, Failed>
        ensures bound { WritesAtMost result piece.now }
        ensures progress { IfOk result (λ n. 0 < length piece.now → 0 < n) }
        ensures told { TellsSaid (Some self.old.told) (Some self.new.told) result piece.now }
        ensures left { self.new.left ≡ self.old.left }
        ensures cause { HasCause self.old.faults self.new.faults result }
        ensures calm { OnOk result (self.new.faults ≡ self.old.faults) }
        ensures listed { Contains self.old.failing self.new.calls → IsErr result }
        ensures given { IfOk result (λ n. n ≡ min (length piece.now) self.old.takes) }
        ensures calls { self.new.calls ≡ calls_after self.old.calls }
        ensures kept { KeepsTerms self.old self.new }
    {
        self.calls = self.calls.saturating_add(1);
        if self.failing.contains(&self.calls) {
            self.faults = self.faults.saturating_add(1);
            return Err(Failed);
        }
        let count = piece.len().min(self.takes as usize);
        match keep_said(self.alloc, &mut self.pieces, &piece[..count]) {
            Ok(()) => Ok(count),
            Err(NoMemory) => {
                self.faults = self.faults.saturating_add(1);
                Err(Failed)
            }
        }
    }
}

// Keeps a copy of bytes that were heard, behind the pieces.
fn keep_heard(alloc: Global, pieces: &mut Vec<KeptPiece>, bytes: &[u8]) -> Result<(), NoMemory>
    ensures ok { OnOk result (map piece_of pieces.new.items ≡ map piece_of pieces.old.items ++ Heard bytes.now ∷ []) }
    ensures err { OnErr result (pieces.new.items ≡ pieces.old.items) }
{
    let copy = Vec::from_slice(alloc, bytes)?;
    pieces.push(KeptPiece::Heard(copy))?;
    Ok(())
}

// The same of bytes that were said.
fn keep_said(alloc: Global, pieces: &mut Vec<KeptPiece>, bytes: &[u8]) -> Result<(), NoMemory>
    ensures ok { OnOk result (map piece_of pieces.new.items ≡ map piece_of pieces.old.items ++ Said bytes.now ∷ []) }
    ensures err { OnErr result (pieces.new.items ≡ pieces.old.items) }
{
    let copy = Vec::from_slice(alloc, bytes)?;
    pieces.push(KeptPiece::Said(copy))?;
    Ok(())
}
