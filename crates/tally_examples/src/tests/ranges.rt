//! Empty ranges, and sums of two.
ghost use Rattle.std.specs.Prelude.{◌≡◌, ◌<◌, All, IsTrue, length};

use super::{Numbers, range, started, tells};
use knit_base::{NoMemory, Steps};
use std::alloc::Global;
use std::marker::Brand;
use std::sync::ledger::{Blank, Ledger};
use std::test::Fail;
use std::thread::Threads;
use tally_tree::{Tally, TallyDoc};

// Whether the range at a place, of no block, comes to nothing.
fn is_empty_at<L: Ledger>(doc: &TallyDoc, at: u32, steps: &mut Steps<L>) -> bool {
    let none = Numbers {
        lines: 0,
        with: [0, 0],
        ops: [0, 0, 0, 0],
    };
    tells(doc, (at, at), none, &[], steps)
}

fn at_ends<L: Ledger, R: Threads>(
    rt: &R,
    blank: Blank,
    alloc: Global,
) -> Result<[bool; 3], NoMemory>
    requires name { (blank.name ≡ L.name) × (blank.parts ≡ L.parts) × (0 < L.parts) }
{
    let mut steps = Steps::<L>::start(rt, blank);
    let doc = started(alloc, &mut steps)?;
    Ok([
        is_empty_at(&doc, 0, &mut steps),
        is_empty_at(&doc, 1, &mut steps),
        is_empty_at(&doc, 2, &mut steps),
    ])
}

#[test]
fn a_range_of_no_block_is_empty(rt: HostRuntime) -> Result<(), Fail> {
    let told = at_ends::<Brand, _>(&rt, Blank::new(1), rt.alloc())?;
    assert_eq!(rt; told, [true; 3]);
    Ok(())
}

// Each number is below a thousand.
fn are_small(numbers: &[u32]) -> bool
    ensures { IsTrue result → All (λ n. n < 1000) numbers.now }
{
    numbers.iter().all(|n| *n < 1000)
}

// It is for two carriers, and small.
fn is_small(tally: &Tally) -> bool
    ensures carriers { IsTrue result → length tally.now.with.items ≡ 2 }
    ensures lines { IsTrue result → tally.now.lines < 1000 }
    ensures with_each { IsTrue result → All (λ n. n < 1000) tally.now.with.items }
    ensures ops { IsTrue result → All (λ n. n < 1000) tally.now.ops }
{
    let few = tally.with.len() == 2 && tally.lines < 1000;
    few && are_small(&tally.with) && are_small(&tally.ops)
}

// The sum of two such tallies.
fn sum_of<L: Ledger>(alloc: Global, a: &Tally, b: &Tally, steps: &mut Steps<L>) -> Option<Tally> {
    if !is_small(a) {
        return None;
    }
    if !is_small(b) {
        return None;
    }
    a.merge(alloc, b, steps).ok()
}

fn same(a: &Tally, b: &Tally) -> bool {
    a.lines == b.lines
        && a.with.as_slice() == b.with.as_slice()
        && a.ops == b.ops
        && a.needles.as_slice() == b.needles.as_slice()
}

// Whether the sum of the tallies of blocks 0 and 1 is that of both.
fn adds_up<L: Ledger>(alloc: Global, doc: &TallyDoc, steps: &mut Steps<L>) -> Option<bool> {
    let first = range(doc, 0, 1, steps)?;
    let second = range(doc, 1, 2, steps)?;
    let sum = sum_of(alloc, &first, &second, steps)?;
    let both = range(doc, 0, 2, steps)?;
    Some(same(&sum, &both))
}

fn merged<L: Ledger, R: Threads>(
    rt: &R,
    blank: Blank,
    alloc: Global,
) -> Result<Option<bool>, NoMemory>
    requires name { (blank.name ≡ L.name) × (blank.parts ≡ L.parts) × (0 < L.parts) }
{
    let mut steps = Steps::<L>::start(rt, blank);
    let doc = started(alloc, &mut steps)?;
    Ok(adds_up(alloc, &doc, &mut steps))
}

#[test]
fn the_sum_of_two_ranges_is_the_range_of_both(rt: HostRuntime) -> Result<(), Fail> {
    let told = merged::<Brand, _>(&rt, Blank::new(1), rt.alloc())?;
    assert_eq!(rt; told, Some(true));
    Ok(())
}
