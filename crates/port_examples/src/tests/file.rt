//! Files whose lines are taken while they are read.
ghost use Rattle.std.specs.Prelude.{◌≡◌, ◌≤◌, length, All};
ghost use Rattle.line_cutter.specs.Cut.{IsGoodLine};

use knit_ports::{FileReading, InputFault, MemorySource, read_lines};
use line_cutter::{CutFault, LineTaker, count_lines};
use std::alloc::Global;
use std::test::Fail;

// Counts the lines that it takes.
#[derive(Drop)]
struct Count {
    lines: u32,
}

impl LineTaker for Count {
    ghost took = { λ lines _ now. (now.lines ≡ length lines) × All IsGoodLine lines };

    ghost count = { λ now. now.lines };

    fn take_lines(&mut self, _alloc: Global, text: &[u8]) -> Result<(), CutFault> {
        self.lines += count_lines(text, self.lines)?;
        Ok(())
    }

    ghost counted = { λ lines start now took. took.0 };

    ghost good = { λ lines start now took. took.1 };
}

// What the reading of a file comes to, as it is compared.
#[derive(Clone, Copy, Debug, PartialEq, Eq)]
enum Told {
    Lines(u32),
    Refused(CutFault),
    TooLong,
    Fault(InputFault),
}

// Reads a file that comes in pieces of so many bytes, and whose reads with these numbers fail.
fn comes_to(alloc: Global, text: Vec<u8>, piece: u32, failing: Vec<u32>) -> Told
    requires { 1 ≤ piece }
{
    let mut source = MemorySource::of(text, piece, failing);
    match read_lines(alloc, &mut source, Count { lines: 0 }) {
        Ok(FileReading::Whole(taker)) => Told::Lines(taker.lines),
        Ok(FileReading::Refused(fault)) => Told::Refused(fault),
        Ok(FileReading::TooLong) => Told::TooLong,
        Err(fault) => Told::Fault(fault),
    }
}

// A text, so many times.
fn times(alloc: Global, text: &[u8], count: u32) -> Result<Vec<u8>, Fail> {
    let mut bytes = Vec::new(alloc);
    for _ in 0..count {
        bytes.extend_from_slice(text)?;
    }
    Ok(bytes)
}

#[test]
fn lines_come_in_pieces(rt: HostRuntime) -> Result<(), Fail> {
    let alloc = rt.alloc();
    let text = times(alloc, b"knit + f1 1\n", 3)?;
    assert_eq!(rt; comes_to(alloc, text, 5, Vec::new(alloc)), Told::Lines(3));
    let text = times(alloc, b"\nout", 2)?;
    assert_eq!(rt; comes_to(alloc, text, 3, Vec::new(alloc)), Told::Lines(3));
    assert_eq!(rt;
        comes_to(alloc, Vec::new(alloc), 3, Vec::new(alloc)),
        Told::Lines(0)
    );
    Ok(())
}

#[test]
fn windows_are_straddled(rt: HostRuntime) -> Result<(), Fail> {
    let alloc = rt.alloc();
    let text = times(alloc, b"knit + f1 1\n", 40_000)?;
    assert_eq!(rt;
        comes_to(alloc, text, 70_000, Vec::new(alloc)),
        Told::Lines(40_000)
    );
    let mut text = times(alloc, b"in 1\n", 6)?;
    text.extend_from_slice(&times(alloc, b"long", 50_000)?)?;
    text.extend_from_slice(b"\nout 1\n")?;
    let long = Told::Refused(CutFault::LineLong { line: 7 });
    assert_eq!(rt; comes_to(alloc, text, 70_000, Vec::new(alloc)), long);
    Ok(())
}

#[test]
fn a_bad_line_is_told_last(rt: HostRuntime) -> Result<(), Fail> {
    let alloc = rt.alloc();
    let bad = Told::Refused(CutFault::NotUtf8 { line: 2 });
    let text = times(alloc, b"in 1\n\xff\n", 2)?;
    assert_eq!(rt; comes_to(alloc, text, 7, Vec::new(alloc)), bad);
    let text = times(alloc, b"in 1\n\xff\n", 2)?;
    let failed = Told::Fault(InputFault::Failed);
    assert_eq!(rt; comes_to(alloc, text, 7, vec![in alloc; 3]?), failed);
    let text = times(alloc, b"in 1\n\xff\n", 2_400_000)?;
    assert_eq!(rt;
        comes_to(alloc, text, 1_000_000, Vec::new(alloc)),
        Told::TooLong
    );
    Ok(())
}
