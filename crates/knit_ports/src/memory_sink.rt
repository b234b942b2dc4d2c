//! A sink in memory that takes pieces of a stated size up to its room and fails at stated calls.
ghost use Rattle.std.specs.Prelude.{◌≡◌, ◌-◌, ◌<◌, ◌≤◌, [], length, min, Contains, IfOk, IsErr, OnOk, Some};
ghost use Rattle.std.specs.Io.{WritesAtMost};
ghost use Rattle.std.specs.Io.KnownBytes.{WriteAppends};
ghost use Rattle.knit_ports.specs.Faults.{HasCause};
ghost use Rattle.knit_ports.specs.Memory.{calls_after, RefusesWrite, KeepsSinkRoom};

use crate::{Failed, Sink};
use knit_base::NoMemory;
use std::alloc::Global;
use std::marker::Model;

/// Takes bytes up to a room, at most a piece at each call. The calls with the listed numbers, from 1, fail, and so does one
/// that has bytes and finds the room full.
#[derive(Drop)]
pub struct MemorySink {
    bytes: Vec<u8>,
    piece: u32,
    room: u32,
    failing: Vec<u32>,
    calls: u32,
    faults: u64,
}

impl Model for MemorySink {
    ghost use Rattle.std.specs.Prelude.{◌≤◌, length, vec_capacity};
    ghost use Rattle.knit_ports.specs.Memory.{SinkView};

    ghost Value = { SinkView };

    ghost view = { λ s. record { taken = s.bytes.items; piece = s.piece; room = s.room; failing = s.failing.items; calls = s.calls; faults = s.faults } };

    ghost invariant = { λ s. (length s.bytes.items ≤ s.room) × (1 ≤ s.piece) × (s.room ≤ vec_capacity s.bytes) };
}

impl MemorySink {
    /// `piece` and `room` are in bytes. The memory for the room is taken first, so that `write` takes none.
    pub fn of(alloc: Global, piece: u32, room: u32, failing: Vec<u32>) -> Result<Self, NoMemory>
        requires { 1 ≤ piece }
        ensures { IfOk result (λ sink. sink ≡ record { taken = []; piece = piece; room = room; failing = failing.items; calls = 0; faults = 0 }) }
    {
        let bytes = Vec::with_capacity(alloc, room as usize)?;
        Ok(MemorySink {
            bytes,
            piece,
            room,
            failing,
            calls: 0,
            faults: 0,
        })
    }

    /// The bytes that it has taken.
    pub fn as_slice(&self) -> &[u8]
        ensures { result.now ≡ self.now.taken }
    {
        &self.bytes
    }
}

impl Sink for MemorySink {
    ghost taken = { λ s. Some s.taken };

    ghost faults = { λ s. s.faults };

    fn write(&mut self, piece: &[u8]) -> Result<usize, Failed>
        ensures bound { WritesAtMost result piece.now }
        ensures progress { IfOk result (λ n. 0 < length piece.now → 0 < n) }
        ensures bytes { WriteAppends (Some self.old.taken) (Some self.new.taken) result piece.now }
        ensures cause { HasCause self.old.faults self.new.faults result }
        ensures failed { IsErr result → RefusesWrite self.old self.new.calls piece.now }
        ensures listed { RefusesWrite self.old self.new.calls piece.now → IsErr result }
        ensures given { IfOk result (λ n. n ≡ min (min (length piece.now) (self.old.room - length self.old.taken)) self.old.piece) }
        ensures calm { OnOk result (self.new.faults ≡ self.old.faults) }
        ensures calls { self.new.calls ≡ calls_after self.old.calls }
        ensures kept { KeepsSinkRoom self.old self.new }
    {
        self.calls = self.calls.saturating_add(1);
        let room = self.room as usize - self.bytes.len();
        let full = room == 0 && !piece.is_empty();
        if full || self.failing.contains(&self.calls) {
            self.faults = self.faults.saturating_add(1);
            return Err(Failed);
        }
        let count = piece.len().min(room).min(self.piece as usize);
        self.bytes.extend_from_slice(&piece[..count]).unwrap();
        Ok(count)
    }
}
