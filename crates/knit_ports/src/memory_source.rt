//! A source in memory that gives pieces of a stated size and fails at stated calls.
ghost use Rattle.std.specs.Prelude.{◌≡◌, ◌≤◌, ◌↔◌, length, min, Contains, IfOk, IsErr, OnOk, Some};
ghost use Rattle.std.specs.Io.{ReadsAtMost};
ghost use Rattle.std.specs.Io.KnownBytes.{ReadConsumes};
ghost use Rattle.knit_ports.specs.Faults.{HasCause};
ghost use Rattle.knit_ports.specs.Memory.{calls_after, KeepsPieces};

use crate::{Failed, Source};
use std::marker::Model;

/// Bytes in memory. Each call gives at most a piece of them, and the calls with the listed numbers, from 1, fail.
#[derive(Drop)]
pub struct MemorySource {
    bytes: Vec<u8>,
    at: usize,
    piece: u32,
    failing: Vec<u32>,
    calls: u32,
    faults: u64,
}

impl Model for MemorySource {
    ghost use Rattle.std.specs.Prelude.{◌≤◌, length, drop};
    ghost use Rattle.knit_ports.specs.Memory.{SourceView};

    ghost Value = { SourceView };

    ghost view = { λ s. record { left = drop s.at s.bytes.items; piece = s.piece; failing = s.failing.items; calls = s.calls; faults = s.faults } };

    ghost invariant = { λ s. (s.at ≤ length s.bytes.items) × (1 ≤ s.piece) };
}

impl MemorySource {
    /// `piece` is in bytes.
    pub fn of(bytes: Vec<u8>, piece: u32, failing: Vec<u32>) -> Self
        requires { 1 ≤ piece }
        ensures { result ≡ record { left = bytes.items; piece = piece; failing = failing.items; calls = 0; faults = 0 } }
    {
        MemorySource {
            bytes,
            at: 0,
            piece,
            failing,
            calls: 0,
            faults: 0,
        }
    }
}

impl Source for MemorySource {
    ghost left = { λ s. Some s.left };

    ghost faults = { λ s. s.faults };

    fn read(&mut self, piece: &mut [u8]) -> Result<usize, Failed>
        ensures bound { ReadsAtMost result piece.new }
        ensures bytes { ReadConsumes (Some self.old.left) (Some self.new.left) result piece.new }
        ensures cause { HasCause self.old.faults self.new.faults result }
        ensures listed { IsErr result ↔ Contains self.old.failing self.new.calls }
        ensures given { IfOk result (λ n. n ≡ min (min (length self.old.left) (length piece.new)) self.old.piece) }
        ensures calm { OnOk result (self.new.faults ≡ self.old.faults) }
        ensures calls { self.new.calls ≡ calls_after self.old.calls }
        ensures kept { KeepsPieces self.old self.new }
    {
        self.calls = self.calls.saturating_add(1);
        if self.failing.contains(&self.calls) {
            self.faults = self.faults.saturating_add(1);
            return Err(Failed);
        }
        let left = &self.bytes[self.at..];
        let count = left.len().min(piece.len()).min(self.piece as usize);
        piece[..count].copy_from_slice(&left[..count]);
        self.at += count;
        Ok(count)
    }
}
