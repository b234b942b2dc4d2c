//! A small table, whose rows are found and resolved as worked by hand.
ghost use Rattle.std.specs.Prelude.{◌≡◌, ◌<◌, ◌≤◌, All, IfOk, length};
ghost use Rattle.face_data.specs.Segments.{OffsetFits};
ghost use Rattle.loop_history.specs.Rows.{RowFits};
ghost use Rattle.loop_history.specs.declared.row.LoopRow.{LoopRow};

use carriage_model::{LoopFact, LoopLines};
use face_data::{Effect, Ending, FaceView, Seg, Segs};
use knit_base::{Bed, CarrierNo, Dir, Needle, NoMemory, Steps, Yarns};
use loop_history::{Entries, LoopRow, LoopTable, resolve};
use std::alloc::Global;
use std::marker::Brand;
use std::sync::ledger::{Blank, Ledger};
use std::test::Fail;
use std::thread::Threads;

const FRONT: Needle = Needle {
    bed: Bed::Front,
    at: 1,
};

const BACK: Needle = Needle {
    bed: Bed::Back,
    at: 1,
};

// A loop of carrier 2 on the front needle that is drawn through these.
fn row_at(alloc: Global, offset: u32, through: Segs) -> Result<LoopRow, NoMemory>
    ensures offset { IfOk result (λ row. row.offset ≡ offset) }
    ensures through { IfOk result (λ row. row.through ≡ through) }
{
    let mut yarns = Yarns::new(alloc);
    yarns.push(CarrierNo(2))?;
    Ok(LoopRow {
        offset,
        needle: FRONT,
        dir: Dir::Left,
        yarns,
        through,
    })
}

// Where the rows of three lines stand.
fn places_of<L: Ledger, R: Threads>(
    rt: &R,
    blank: Blank,
    table: &LoopTable,
    offsets: [u32; 3],
) -> [Option<u32>; 3]
    requires name { (blank.name ≡ L.name) × (blank.parts ≡ L.parts) × (0 < L.parts) }
{
    let mut steps = Steps::<L>::start(rt, blank);
    let [a, b, c] = offsets;
    [
        table.find(a, &mut steps),
        table.find(b, &mut steps),
        table.find(c, &mut steps),
    ]
}

#[test]
fn rows_are_found_by_offset(rt: HostRuntime) -> Result<(), Fail> {
    let mut table = LoopTable::new(rt.alloc());
    table.push(row_at(rt.alloc(), 1, Segs::new(rt.alloc()))?)?;
    table.push(row_at(rt.alloc(), 4, Segs::new(rt.alloc()))?)?;
    let copy = table.try_clone()?;
    assert_eq!(rt; copy.len(), 2);
    let places = places_of::<Brand, _>(&rt, Blank::new(1), &copy, [1, 4, 2]);
    assert_eq!(rt; places, [Some(0), Some(1), None]);
    Ok(())
}

// A face of three lines that change nothing.
const THREE_LINES: FaceView = FaceView {
    lines: 3,
    made: 0,
    checks: &[],
    names: &[],
    changes: &[],
    segs: &[],
    lasts: &[],
    ending: Ending::Through(Effect {
        rack: None,
        came: 0,
        went: 0,
        hook: None,
    }),
};

// A loop of so many carriers that is drawn through these.
fn row_of(alloc: Global, offset: u32, carriers: u8, segs: &[Seg]) -> Result<LoopRow, NoMemory>
    requires early { offset < 3 }
    requires few { carriers < 64 }
    requires short { length segs.now < 8 }
    requires fit { All (OffsetFits 3) segs.now }
    ensures offset { IfOk result (λ row. row.offset ≡ offset) }
    ensures fits { IfOk result (λ row. RowFits 3 row) }
{
    let mut yarns = Yarns::new(alloc);
    for number in 0..carriers {
        yarns.push(CarrierNo(number))?;
    }
    let mut through = Segs::new(alloc);
    through.extend_from_slice(segs)?;
    Ok(LoopRow {
        offset,
        needle: FRONT,
        dir: Dir::Right,
        yarns,
        through,
    })
}

// A row of one carrier and one segment, and one of six and six.
fn short_and_long(alloc: Global) -> Result<LoopTable, NoMemory>
    ensures few { IfOk result (λ table. length table ≤ 2) }
    ensures before { IfOk result (λ table. All (λ (row : LoopRow). row.offset < 3) table) }
    ensures fit { IfOk result (λ table. All (RowFits 3) table) }
{
    let mut table = LoopTable::new(alloc);
    table.push(row_of(alloc, 1, 1, &[Seg::New(0)])?)?;
    let segs = [
        Seg::Entry(BACK),
        Seg::New(0),
        Seg::Entry(FRONT),
        Seg::New(1),
        Seg::New(0),
        Seg::New(1),
    ];
    table.push(row_of(alloc, 2, 6, &segs)?)?;
    Ok(table)
}

fn is_row(row: &LoopRow, offset: u32, carriers: &[CarrierNo], through: &[Seg]) -> bool {
    row.offset == offset
        && row.dir == Dir::Right
        && row.yarns.as_slice() == carriers
        && row.through.as_slice() == through
}

// Whether the table has both rows, and both again behind three lines.
fn has_both_twice<L: Ledger, R: Threads>(rt: &R, blank: Blank, table: &LoopTable) -> bool
    requires name { (blank.name ≡ L.name) × (blank.parts ≡ L.parts) × (0 < L.parts) }
{
    if table.len() != 4 {
        return false;
    }
    let mut steps = Steps::<L>::start(rt, blank);
    let carriers = [
        CarrierNo(0),
        CarrierNo(1),
        CarrierNo(2),
        CarrierNo(3),
        CarrierNo(4),
        CarrierNo(5),
    ];
    let segs = [
        Seg::Entry(BACK),
        Seg::New(0),
        Seg::Entry(FRONT),
        Seg::New(1),
        Seg::New(0),
        Seg::New(1),
    ];
    let later = [
        Seg::Entry(BACK),
        Seg::New(3),
        Seg::Entry(FRONT),
        Seg::New(4),
        Seg::New(3),
        Seg::New(4),
    ];
    is_row(table.row(0, &mut steps), 1, &[CarrierNo(0)], &[Seg::New(0)])
        && is_row(table.row(1, &mut steps), 2, &carriers, &segs)
        && is_row(table.row(2, &mut steps), 4, &[CarrierNo(0)], &[Seg::New(3)])
        && is_row(table.row(3, &mut steps), 5, &carriers, &later)
}

#[test]
fn long_lists_are_copied_and_read_through(rt: HostRuntime) -> Result<(), Fail> {
    let mut table = short_and_long(rt.alloc())?;
    let copy = table.try_clone()?;
    table.append_through(&THREE_LINES, copy)?;
    table.shrink_to_fit();
    let is_kept = has_both_twice::<Brand, _>(&rt, Blank::new(1), &table);
    assert!(rt; is_kept);
    Ok(())
}

// The loop of line 11, through two that were there and one of line 10.
fn is_drawn_through_three(fact: &LoopFact) -> bool {
    fact.line == 11
        && fact.needle == FRONT
        && fact.dir == Dir::Left
        && fact.yarns.as_slice() == [CarrierNo(2)].as_slice()
        && fact.through.as_slice() == [7, 5, 10].as_slice()
}

#[test]
fn a_loop_is_drawn_through_what_was_there(rt: HostRuntime) -> Result<(), Fail> {
    let mut through = Segs::new(rt.alloc());
    through.push(Seg::Entry(FRONT))?;
    through.push(Seg::New(0))?;
    let row = row_at(rt.alloc(), 1, through)?;
    let mut held = LoopLines::new(rt.alloc());
    held.push(7)?;
    held.push(5)?;
    let mut entries = Entries::new(rt.alloc());
    entries.push((BACK, LoopLines::new(rt.alloc())))?;
    entries.push((FRONT, held))?;
    let fact = resolve(rt.alloc(), &row, 10, &entries)?;
    assert!(rt; is_drawn_through_three(&fact));
    Ok(())
}
