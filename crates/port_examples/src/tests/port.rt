//! Each call once, with ample memory: which bytes come and go, and which calls fail.
ghost use Rattle.std.specs.Prelude.{◌<◌, None};

use knit_ports::{
    CalmSource, CountGate, Failed, Gate, IdleGate, InputFault, MemorySink, MemorySource,
    ReaderSource, Sink, Source, WriterSink, read_input, write_report,
};
use std::test::Fail;

// A limit, passed on, since a number that is written out computes for long in a proof.
fn within(limit: usize) -> usize
    requires { limit < 100_000 }
    ensures { result < 100_000 }
{
    limit
}

#[test]
fn a_source_in_memory_gives_pieces(rt: HostRuntime) -> Result<(), Fail> {
    let bytes = vec![in rt.alloc(); 1, 2, 3, 4, 5]?;
    let mut source = MemorySource::of(bytes, 2, vec![in rt.alloc(); 2]?);
    let mut piece = [0; 4];
    assert_eq!(rt; source.read(&mut piece), Ok(2));
    assert_eq!(rt; piece, [1, 2, 0, 0]);
    assert_eq!(rt; source.read(&mut piece), Err(Failed));
    assert_eq!(rt; source.read(&mut piece[..1]), Ok(1));
    assert_eq!(rt; piece, [3, 2, 0, 0]);
    assert_eq!(rt; source.read(&mut piece), Ok(2));
    assert_eq!(rt; source.read(&mut piece), Ok(0));
    Ok(())
}

#[test]
fn a_sink_in_memory_takes_pieces_up_to_its_room(rt: HostRuntime) -> Result<(), Fail> {
    let mut sink = MemorySink::of(rt.alloc(), 2, 3, vec![in rt.alloc(); 2]?)?;
    assert_eq!(rt; sink.write(&[1, 2, 3]), Ok(2));
    assert_eq!(rt; sink.write(&[3]), Err(Failed));
    assert_eq!(rt; sink.write(&[3, 4]), Ok(1));
    assert_eq!(rt; sink.write(&[4]), Err(Failed));
    assert_eq!(rt; sink.write(&[]), Ok(0));
    assert_eq!(rt; sink.as_slice(), [1, 2, 3].as_slice());
    Ok(())
}

#[test]
fn an_input_is_read_whole(rt: HostRuntime) -> Result<(), Fail> {
    let mut calm = CalmSource::of(vec![in rt.alloc(); 1, 2, 3]?);
    let input = read_input(rt.alloc(), &mut calm, within(7))?;
    assert_eq!(rt; input.as_slice(), [1, 2, 3].as_slice());

    let nine = vec![in rt.alloc(); 1, 2, 3, 4, 5, 6, 7, 8, 9]?;
    let mut large = MemorySource::of(nine, 3, Vec::new(rt.alloc()));
    let input = read_input(rt.alloc(), &mut large, within(7))?;
    assert_eq!(rt; input.as_slice(), [1, 2, 3, 4, 5, 6, 7, 8].as_slice());

    let failing = vec![in rt.alloc(); 2]?;
    let mut broken = MemorySource::of(vec![in rt.alloc(); 1, 2, 3]?, 2, failing);
    match read_input(rt.alloc(), &mut broken, within(7)) {
        Ok(_) => assert!(rt; false),
        Err(fault) => assert_eq!(rt; fault, InputFault::Failed),
    }
    Ok(())
}

#[test]
fn a_report_is_written_whole(rt: HostRuntime) -> Result<(), Fail> {
    let mut sink = MemorySink::of(rt.alloc(), 2, 3, Vec::new(rt.alloc()))?;
    assert_eq!(rt; write_report(&mut sink, &[1, 2, 3]), Ok(()));
    assert_eq!(rt; write_report(&mut sink, &[4]), Err(Failed));
    assert_eq!(rt; sink.as_slice(), [1, 2, 3].as_slice());
    Ok(())
}

// Gives a stated number of zeros at each read, or as many as it is offered, and records what it is offered.
#[derive(Drop)]
struct RecordingSource {
    gives: usize,
    offered: [usize; 3],
    calls: usize,
}

impl Source for RecordingSource {
    ghost left = { λ _. None };

    ghost faults = { λ _. 0 };

    fn read(&mut self, piece: &mut [u8]) -> Result<usize, Failed> {
        if self.calls < 3 {
            self.offered[self.calls] = piece.len();
        }
        self.calls = self.calls.saturating_add(1);
        Ok(piece.len().min(self.gives))
    }
}

#[test]
fn a_read_is_offered_a_large_piece_or_what_is_missing(rt: HostRuntime) -> Result<(), Fail> {
    let mut source = RecordingSource {
        gives: 65_500,
        offered: [0; 3],
        calls: 0,
    };
    let input = read_input(rt.alloc(), &mut source, within(65_540))?;
    assert_eq!(rt; input.len(), 65_541);
    assert_eq!(rt; source.offered, [65_536, 41, 0]);
    assert_eq!(rt; source.calls, 2);
    Ok(())
}

// Takes two bytes at each write, or as many as it is handed, and records how many it is handed.
#[derive(Drop)]
struct RecordingSink {
    handed: [usize; 4],
    calls: usize,
}

impl Sink for RecordingSink {
    ghost taken = { λ _. None };

    ghost faults = { λ _. 0 };

    fn write(&mut self, piece: &[u8]) -> Result<usize, Failed> {
        if self.calls < 4 {
            self.handed[self.calls] = piece.len();
        }
        self.calls = self.calls.saturating_add(1);
        Ok(piece.len().min(2))
    }
}

#[test]
fn a_write_is_handed_all_that_is_left(rt: HostRuntime) {
    let mut sink = RecordingSink {
        handed: [0; 4],
        calls: 0,
    };
    assert_eq!(rt; write_report(&mut sink, &[1, 2, 3, 4, 5]), Ok(()));
    assert_eq!(rt; sink.handed, [5, 3, 1, 0]);
    assert_eq!(rt; sink.calls, 3);
}

#[test]
fn the_edge_passes_bytes_on(rt: HostRuntime) -> Result<(), Fail> {
    let text = [1, 2, 3];
    let mut source = ReaderSource::of(text.as_slice());
    let mut piece = [0; 2];
    assert_eq!(rt; source.read(&mut piece), Ok(2));
    assert_eq!(rt; piece, [1, 2]);
    assert_eq!(rt; source.read(&mut piece), Ok(1));
    assert_eq!(rt; source.read(&mut piece), Ok(0));

    let mut written: Vec<u8> = Vec::new(rt.alloc());
    let mut sink = WriterSink::of(&mut written);
    assert_eq!(rt; write_report(&mut sink, &[1, 2, 3]), Ok(()));
    assert_eq!(rt; written.as_slice(), [1, 2, 3].as_slice());
    Ok(())
}

#[test]
fn an_idle_gate_holds_nobody(rt: HostRuntime) {
    let gate = IdleGate;
    gate.before(&rt, 0, 1);
    gate.after(&rt, 0, 1);
}

#[test]
fn a_command_is_held_until_a_reply_is_in(rt: HostRuntime) {
    let gate = CountGate::of((0, 1), (1, 0), 3);
    gate.before(&rt, 0, 0);
    gate.before(&rt, 1, 1);
    assert!(rt; !gate.gave_up());
    gate.after(&rt, 1, 0);
    gate.before(&rt, 0, 1);
    assert!(rt; !gate.gave_up());
}

#[test]
fn a_gate_gives_up(rt: HostRuntime) {
    let gate = CountGate::of((0, 1), (1, 0), 3);
    gate.after(&rt, 0, 1);
    gate.after(&rt, 1, 1);
    gate.before(&rt, 0, 1);
    assert!(rt; gate.gave_up());
}
