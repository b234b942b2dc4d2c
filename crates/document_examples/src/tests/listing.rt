//! The blocks in their order, and where lines of the file stand in them.
ghost use Rattle.std.specs.Prelude.{◌≡◌, ◌<◌};

use super::book::{adds, opened, sound};
use edit_book::{BlockPlace, Book, LinePlace};
use edit_journal::Anchor;
use knit_base::{NoMemory, Steps};
use std::alloc::Global;
use std::marker::Brand;
use std::sync::ledger::{Blank, Ledger};
use std::test::Fail;
use std::thread::Threads;

// Block 0 with two lines from line 3 on; behind it block 2, which was added last, and behind that block 1.
fn three_blocks<L: Ledger>(alloc: Global, steps: &mut Steps<L>) -> Result<Book, NoMemory> {
    let mut book = opened(alloc, 2, steps)?;
    let behind = Anchor::After(0);
    let first = adds(alloc, &mut book, behind, 2, (1, 1), sound(3, 2, 2), steps);
    let second = adds(alloc, &mut book, behind, 5, (2, 2), sound(4, 3, 3), steps);
    if first && second {
        return Ok(book);
    }
    Err(NoMemory)
}

fn is_at(book: &Book, at: u32, block: u32, stamp: u32, first: u32, lines: u32) -> bool {
    let place = BlockPlace {
        block,
        stamp,
        first,
        lines,
    };
    book.block_at(at) == Some(place)
}

fn stands_in(book: &Book, line: u32, block: u32, inner: u32) -> bool {
    book.place_of(line) == Some(LinePlace { block, line: inner })
}

// Whether there are these blocks, and each line stands where it should.
fn is_listed(book: &Book) -> [bool; 3] {
    let blocks = is_at(book, 0, 0, 0, 3, 2)
        && is_at(book, 1, 2, 2, 5, 1)
        && is_at(book, 2, 1, 1, 6, 1);
    let lines = stands_in(book, 3, 0, 1)
        && stands_in(book, 4, 0, 2)
        && stands_in(book, 5, 2, 1)
        && stands_in(book, 6, 1, 1);
    let none = book.block_count() == 3
        && book.block_at(3).is_none()
        && book.place_of(2).is_none()
        && book.place_of(7).is_none();
    [blocks, lines, none]
}

fn listed<L: Ledger, R: Threads>(rt: &R, blank: Blank, alloc: Global) -> Result<[bool; 3], NoMemory>
    requires name { (blank.name ≡ L.name) × (blank.parts ≡ L.parts) × (0 < L.parts) }
{
    let mut steps = Steps::<L>::start(rt, blank);
    Ok(is_listed(&three_blocks(alloc, &mut steps)?))
}

#[test]
fn blocks_and_lines_have_places(rt: HostRuntime) -> Result<(), Fail> {
    let told = listed::<Brand, _>(&rt, Blank::new(1), rt.alloc())?;
    assert_eq!(rt; told, [true; 3]);
    Ok(())
}
