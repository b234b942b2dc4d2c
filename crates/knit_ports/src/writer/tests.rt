//! Writers that fail, and one that takes nothing.
use super::WriterSink;
use crate::{Failed, Sink};
use std::io::{self, Error, ErrorKind, Write};

// Fails so many times, always alike, and then takes so many bytes at each call.
#[derive(Drop)]
struct FailingWriter {
    kind: ErrorKind,
    failures: u32,
    takes: usize,
    calls: u32,
}

impl Write for FailingWriter {
    fn write(&mut self, piece: &[u8]) -> io::Result<usize> {
        self.calls = self.calls.saturating_add(1);
        if self.calls <= self.failures {
            return Err(Error::from(self.kind));
        }
        Ok(piece.len().min(self.takes))
    }

    fn flush(&mut self) -> io::Result<()> {
        Ok(())
    }
}

fn sink_that_fails(kind: ErrorKind, failures: u32, takes: usize) -> WriterSink<FailingWriter> {
    WriterSink::of(FailingWriter {
        kind,
        failures,
        takes,
        calls: 0,
    })
}

#[test]
fn an_interrupted_write_is_made_again(rt: HostRuntime) {
    let mut sink = sink_that_fails(ErrorKind::Interrupted, 1, 2);
    assert_eq!(rt; sink.write(&[1, 2, 3]), Ok(2));
    assert_eq!(rt; sink.writer.calls, 2);
    assert_eq!(rt; sink.faults, 0);
}

#[test]
fn a_thousand_interrupted_writes_are_a_fault(rt: HostRuntime) {
    let mut sink = sink_that_fails(ErrorKind::Interrupted, 1_000, 2);
    assert_eq!(rt; sink.write(&[1, 2, 3]), Err(Failed));
    assert_eq!(rt; sink.writer.calls, 1_000);
    assert_eq!(rt; sink.faults, 1);
}

#[test]
fn a_failed_write_is_made_once(rt: HostRuntime) {
    let mut sink = sink_that_fails(ErrorKind::BrokenPipe, 1, 2);
    assert_eq!(rt; sink.write(&[1, 2, 3]), Err(Failed));
    assert_eq!(rt; sink.writer.calls, 1);
    assert_eq!(rt; sink.faults, 1);
    assert_eq!(rt; sink.write(&[1, 2, 3]), Ok(2));
    assert_eq!(rt; sink.faults, 1);
}

#[test]
fn a_writer_that_takes_nothing_fails(rt: HostRuntime) {
    let mut sink = sink_that_fails(ErrorKind::BrokenPipe, 0, 0);
    assert_eq!(rt; sink.write(&[1]), Err(Failed));
    assert_eq!(rt; sink.faults, 1);
    assert_eq!(rt; sink.write(&[]), Ok(0));
    assert_eq!(rt; sink.faults, 1);
}
