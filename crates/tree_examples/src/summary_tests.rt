//! Small faces that only set the rack: a walk of changes against the leaves one after the other.
ghost use Rattle.std.specs.Prelude.{◌≡◌, ◌+◌, ◌<◌, ◌≤◌, OnOk, IfOk};
ghost use Rattle.face_data.specs.View.{IsPacked, summary_of};
ghost use Rattle.summary_tree.specs.Leaves.{leaf_line_count};
ghost use Rattle.tree_examples.specs.Plain.{plain};

use face_data::{Effect, Ending, FaceView};
use knit_base::{NoMemory, Quarter, Steps};
use loop_history::LoopTable;
use std::alloc::Global;
use std::marker::Brand;
use std::sync::ledger::{Blank, Ledger};
use std::test::Fail;
use std::thread::Threads;
use summary_tree::Tree;

// So many lines that set the rack.
fn plain(lines: u32, rack: i32) -> FaceView<'static>
    ensures summary { summary_of result ≡ plain lines rack }
    ensures packed { IsPacked result }
{
    FaceView {
        lines,
        made: 0,
        checks: &[],
        names: &[],
        changes: &[],
        segs: &[],
        lasts: &[],
        ending: Ending::Through(Effect {
            rack: Some(Quarter(rack)),
            came: 0,
            went: 0,
            hook: None,
        }),
    }
}

// One more leaf at a position, unless it can't stand there.
fn add<L: Ledger>(
    alloc: Global,
    tree: &mut Tree,
    at: u32,
    lines: u32,
    rack: i32,
    steps: &mut Steps<L>,
) -> Result<(), NoMemory>
    requires { leaf_line_count tree.old.leaves + lines ≤ 1048576 }
    ensures { leaf_line_count tree.new.leaves ≤ leaf_line_count tree.old.leaves + lines }
{
    let len = tree.len();
    if at > len || len >= 65536 {
        return Ok(());
    }
    let face = plain(lines, rack);
    let need = tree.need_insert(at, &face);
    tree.reserve(&need)?;
    tree.insert(at, &face, LoopTable::new(alloc), steps);
    Ok(())
}

// Another leaf at a position, if there is one.
fn put<L: Ledger>(
    alloc: Global,
    tree: &mut Tree,
    at: u32,
    lines: u32,
    rack: i32,
    steps: &mut Steps<L>,
) -> Result<(), NoMemory>
    requires { leaf_line_count tree.old.leaves + lines ≤ 1048576 }
    ensures { leaf_line_count tree.new.leaves ≤ leaf_line_count tree.old.leaves + lines }
{
    if at >= tree.len() {
        return Ok(());
    }
    let face = plain(lines, rack);
    let need = tree.need_replace(at, &face);
    tree.reserve(&need)?;
    tree.replace(at, &face, LoopTable::new(alloc), steps);
    Ok(())
}

// No leaf at a position, if its need is met.
fn cut<L: Ledger>(tree: &mut Tree, at: u32, steps: &mut Steps<L>) -> Result<(), NoMemory>
    ensures { leaf_line_count tree.new.leaves ≤ leaf_line_count tree.old.leaves }
{
    if at >= tree.len() {
        return Ok(());
    }
    let need = tree.need_remove(at);
    tree.reserve(&need)?;
    if tree.meets(&need) {
        tree.remove(at, steps);
    }
    Ok(())
}

fn rack_of(face: &FaceView) -> Option<Quarter> {
    match face.ending {
        Ending::Through(effect) => effect.rack,
        Ending::Broken(_) => None,
    }
}

// The lines of all leaves, and the rack that the last of them sets, leaf by leaf.
fn one_by_one(tree: &Tree) -> (u32, Option<Quarter>) {
    let mut lines: u32 = 0;
    let mut rack = None;
    for at in 0..tree.len() {
        let (face, _loops) = tree.leaf(at);
        lines = lines.wrapping_add(face.lines);
        rack = rack_of(&face);
    }
    (lines, rack)
}

fn at_the_root(tree: &Tree) -> (u32, Option<Quarter>) {
    let root = tree.root();
    (root.lines, rack_of(&root))
}

// One change, chosen by a number that was drawn.
fn step<L: Ledger>(
    alloc: Global,
    tree: &mut Tree,
    draw: u32,
    steps: &mut Steps<L>,
) -> Result<(), NoMemory>
    requires { leaf_line_count tree.old.leaves + 5 ≤ 1048576 }
    ensures { leaf_line_count tree.new.leaves ≤ leaf_line_count tree.old.leaves + 5 }
{
    let at = draw % 16;
    let lines = draw % 5;
    let rack = (draw % 7) as i32;
    match draw / 16 % 4 {
        0 => cut(tree, at, steps),
        1 => put(alloc, tree, at, lines, rack, steps),
        _ => add(alloc, tree, at % 4, lines, rack, steps),
    }
}

// After each of 60 changes: whether the root tells what the leaves tell one by one.
fn walked<L: Ledger, R: Threads>(rt: &R, blank: Blank, alloc: Global) -> Result<bool, NoMemory>
    requires name { (blank.name ≡ L.name) × (blank.parts ≡ L.parts) × (0 < L.parts) }
{
    let mut steps = Steps::<L>::start(rt, blank);
    let mut tree = Tree::new(alloc);
    let mut draw: u32 = 7;
    let mut same = true;
    for _i in 0..60u32 {
        draw = draw.wrapping_mul(1_103_515_245).wrapping_add(12_345);
        step(alloc, &mut tree, draw >> 16, &mut steps)?;
        if at_the_root(&tree) != one_by_one(&tree) {
            same = false;
        }
    }
    Ok(same)
}

#[test]
fn a_walk_of_changes_keeps_the_root(rt: HostRuntime) -> Result<(), Fail> {
    let same = walked::<Brand, _>(&rt, Blank::new(1), rt.alloc())?;
    assert!(rt; same);
    Ok(())
}
