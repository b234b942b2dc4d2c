//! The adapter of std's writers. It passes on what the writer tells of its bytes, which is nothing for standard output: here
//! the program trusts the system.
ghost use Rattle.std.specs.Prelude.{◌≡◌, ◌<◌, length, IfOk};
ghost use Rattle.std.specs.Io.{WritesAtMost};
ghost use Rattle.std.specs.Io.KnownBytes.{WriteAppends};

use crate::limit::TRIES;
use crate::{Failed, Sink};
use std::io::{ErrorKind, Write};
use std::marker::Model;

/// A sink over a writer of std. Its count of faults rises at each write that fails or takes nothing of a piece that isn't
/// empty. A write that a signal interrupts is made again, and fails if 1,000 in a row are interrupted.
#[derive(Drop)]
pub struct WriterSink<W> {
    writer: W,
    faults: u64,
}

impl<W> Model for WriterSink<W> {
    ghost use Rattle.knit_ports.specs.Edge.{CountedDevice};

    ghost Value = { CountedDevice W };

    ghost view = { λ s. record { inner = s.writer; faults = s.faults } };
}

impl<W: Write> WriterSink<W> {
    pub fn of(writer: W) -> Self
        ensures { result ≡ record { inner = writer; faults = 0 } }
    {
        WriterSink { writer, faults: 0 }
    }
}

impl<W: Write> Sink for WriterSink<W> {
    ghost taken = { λ s. W.contents s.inner };

    ghost faults = { λ s. s.faults };

    fn write(&mut self, piece: &[u8]) -> Result<usize, Failed> {
        match write_once(&mut self.writer, piece) {
            Ok(taken) => Ok(taken),
            Err(Failed) => {
                self.faults = self.faults.saturating_add(1);
                Err(Failed)
            }
        }
    }
}

// A write, which is made again where it is interrupted. It takes a byte at least, where there is one.
fn write_once<W: Write>(writer: &mut W, piece: &[u8]) -> Result<usize, Failed>
    ensures bound { WritesAtMost result piece.now }
    ensures progress { IfOk result (λ n. 0 < length piece.now → 0 < n) }
    ensures bytes { WriteAppends (W.contents writer.old) (W.contents writer.new) result piece.now }
{
    'trying: for _ in 0..TRIES {
        match writer.write(piece) {
            Ok(taken) => {
                if taken == 0 && !piece.is_empty() {
                    return Err(Failed);
                }
                return Ok(taken);
            }
            Err(error) => {
                if error.kind() != ErrorKind::Interrupted {
                    return Err(Failed);
                }
            }
        }
    }
    Err(Failed)
}

#[cfg(test)]
mod tests;
