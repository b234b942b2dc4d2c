//! The adapter of std's readers. It passes on what the reader tells of its bytes, which is nothing for standard input: here
//! the program trusts the system.
ghost use Rattle.std.specs.Prelude.{◌≡◌};
ghost use Rattle.std.specs.Io.{ReadsAtMost};
ghost use Rattle.std.specs.Io.KnownBytes.{ReadConsumes};

use crate::limit::TRIES;
use crate::{Failed, Source};
use std::io::{ErrorKind, Read};
use std::marker::Model;

/// A source over a reader of std. Its count of faults rises at each read that fails. A read that a signal interrupts is made
/// again, and fails if 1,000 in a row are interrupted.
#[derive(Drop)]
pub struct ReaderSource<R> {
    reader: R,
    faults: u64,
}

impl<R> Model for ReaderSource<R> {
    ghost use Rattle.knit_ports.specs.Edge.{CountedDevice};

    ghost Value = { CountedDevice R };

    ghost view = { λ s. record { inner = s.reader; faults = s.faults } };
}

impl<R: Read> ReaderSource<R> {
    pub fn of(reader: R) -> Self
        ensures { result ≡ record { inner = reader; faults = 0 } }
    {
        ReaderSource { reader, faults: 0 }
    }
}

impl<R: Read> Source for ReaderSource<R> {
    ghost left = { λ s. R.remaining s.inner };

    ghost faults = { λ s. s.faults };

    fn read(&mut self, piece: &mut [u8]) -> Result<usize, Failed> {
        match read_once(&mut self.reader, piece) {
            Ok(given) => Ok(given),
            Err(Failed) => {
                self.faults = self.faults.saturating_add(1);
                Err(Failed)
            }
        }
    }
}

// A read, which is made again where it is interrupted.
fn read_once<R: Read>(reader: &mut R, piece: &mut [u8]) -> Result<usize, Failed>
    ensures bound { ReadsAtMost result piece.new }
    ensures bytes { ReadConsumes (R.remaining reader.old) (R.remaining reader.new) result piece.new }
{
    'trying: for _ in 0..TRIES {
        match reader.read(piece) {
            Ok(given) => return Ok(given),
            Err(error) => {
                if error.kind() != ErrorKind::Interrupted {
                    return Err(Failed);
                }
            }
        }
    }
    Err(Failed)
}

#[cfg(test)]
mod tests;
