//! Readers that fail.
use super::ReaderSource;
use crate::{Failed, Source};
use std::io::{self, Error, ErrorKind, Read};

// Fails so many times, always alike, and then gives a byte at each call.
#[derive(Drop)]
struct FailingReader {
    kind: ErrorKind,
    failures: u32,
    calls: u32,
}

impl Read for FailingReader {
    fn read(&mut self, piece: &mut [u8]) -> io::Result<usize> {
        self.calls = self.calls.saturating_add(1);
        if self.calls <= self.failures {
            return Err(Error::from(self.kind));
        }
        if piece.is_empty() {
            return Ok(0);
        }
        piece[0] = 7;
        Ok(1)
    }
}

fn source_that_fails(kind: ErrorKind, failures: u32) -> ReaderSource<FailingReader> {
    ReaderSource::of(FailingReader {
        kind,
        failures,
        calls: 0,
    })
}

#[test]
fn an_interrupted_read_is_made_again(rt: HostRuntime) {
    let mut source = source_that_fails(ErrorKind::Interrupted, 1);
    let mut piece = [0; 2];
    assert_eq!(rt; source.read(&mut piece), Ok(1));
    assert_eq!(rt; piece, [7, 0]);
    assert_eq!(rt; source.reader.calls, 2);
    assert_eq!(rt; source.faults, 0);
}

#[test]
fn a_thousand_interrupted_reads_are_a_fault(rt: HostRuntime) {
    let mut source = source_that_fails(ErrorKind::Interrupted, 1_000);
    let mut piece = [0; 2];
    assert_eq!(rt; source.read(&mut piece), Err(Failed));
    assert_eq!(rt; source.reader.calls, 1_000);
    assert_eq!(rt; source.faults, 1);
}

#[test]
fn a_failed_read_is_made_once(rt: HostRuntime) {
    let mut source = source_that_fails(ErrorKind::BrokenPipe, 1);
    let mut piece = [0; 2];
    assert_eq!(rt; source.read(&mut piece), Err(Failed));
    assert_eq!(rt; piece, [0, 0]);
    assert_eq!(rt; source.reader.calls, 1);
    assert_eq!(rt; source.faults, 1);
    assert_eq!(rt; source.read(&mut piece), Ok(1));
    assert_eq!(rt; source.faults, 1);
}
