//! Reads and writes that fail, at each call.
use crate::tests::texts;
use crate::top::top;
use input_answers::Status;
use knit_ports::{CalmSource, IdleGate, MemorySink, MemorySource};
use std::alloc::Global;
use std::sync::Wait;
use std::test::Fail;
use std::thread::Threads;

// What the program wrote, and how it ended.
#[derive(Drop)]
struct Written {
    status: Status,
    text: Vec<u8>,
}

fn is(said: &Written, status: Status, text: &str) -> bool {
    said.status == status && said.text.as_slice() == text.as_bytes()
}

const SCARF: &[u8] =
    b";!knitout-2\n;;Carriers: 1 2 3\nin 1\ntuck - f2 1\ntuck - f1 1\nknit + f1 1\nknit + f2 1\nout 1\n";

const SCARF_TEXT: &str = "sound lines 6 made 4 held 2 rack 0\nin:\nhook:\nf1: 6\nf2: 7\n";

// What `check` says of a file that comes in pieces of 16 bytes, to a sink that takes pieces of 10, where these reads and these
// writes fail.
fn said_over<R: Threads + Wait + Sync>(
    rt: &R,
    alloc: Global,
    reads: &[u32],
    writes: &[u32],
) -> Result<Written, Fail> {
    let words = texts(alloc, &["check"])?;
    let bytes = Vec::from_slice(alloc, SCARF)?;
    let mut source = MemorySource::of(bytes, 16, Vec::from_slice(alloc, reads)?);
    let mut sink = MemorySink::of(alloc, 10, 65_536, Vec::from_slice(alloc, writes)?)?;
    let outcome = top(rt, alloc, &words, &mut source, &mut sink, &IdleGate);
    let text = Vec::from_slice(alloc, sink.as_slice())?;
    Ok(Written {
        status: outcome.status,
        text,
    })
}

#[test]
fn each_read_fails_once(rt: HostRuntime) -> Result<(), Fail> {
    let alloc = rt.alloc();
    // Six reads bring bytes, and the seventh tells the end.
    for read in 1..8 {
        let said = said_over(&rt, alloc, &[read], &[])?;
        assert!(rt; is(&said, Status::ReadFault, "read fault\n"));
    }
    let said = said_over(&rt, alloc, &[8], &[])?;
    assert!(rt; is(&said, Status::Done, SCARF_TEXT));
    Ok(())
}

#[test]
fn each_write_fails_once(rt: HostRuntime) -> Result<(), Fail> {
    let alloc = rt.alloc();
    for write in 1..7 {
        let said = said_over(&rt, alloc, &[], &[write])?;
        let taken = 10 * (write as usize - 1);
        let front = SCARF_TEXT.as_bytes().get(..taken).unwrap_or(b"");
        assert!(rt; said.status == Status::WriteFault && said.text.as_slice() == front);
    }
    let said = said_over(&rt, alloc, &[], &[7])?;
    assert!(rt; is(&said, Status::Done, SCARF_TEXT));
    Ok(())
}

#[test]
fn a_read_and_a_write_fail(rt: HostRuntime) -> Result<(), Fail> {
    let alloc = rt.alloc();
    let said = said_over(&rt, alloc, &[2], &[1])?;
    assert!(rt; is(&said, Status::WriteFault, ""));
    let said = said_over(&rt, alloc, &[2], &[2])?;
    assert!(rt; is(&said, Status::WriteFault, "read fault"));
    Ok(())
}

const TWO_PUTS: &str =
    "live 1\n|;!knitout-2\n|;;Carriers: 1\n|in 1\n|knit + f1 1\nsession\nput 0\n|in 1\n|knit + f1 1\n|knit + f2 1\nput 0\n|in 1\nverdict\n";

#[test]
fn a_write_that_fails(rt: HostRuntime) -> Result<(), Fail> {
    let alloc = rt.alloc();
    let words = texts(alloc, &["live"])?;
    let mut source = CalmSource::of(Vec::from_slice(alloc, TWO_PUTS.as_bytes())?);
    // The second write of ten bytes fails.
    let mut sink = MemorySink::of(alloc, 10, 65_536, Vec::from_slice(alloc, &[2])?)?;
    let outcome = top(&rt, alloc, &words, &mut source, &mut sink, &IdleGate);
    assert!(rt; outcome.status == Status::WriteFault);
    assert!(rt; sink.as_slice() == b"session 0\n".as_slice());
    assert!(rt; outcome.journal.len() == 2);
    Ok(())
}
