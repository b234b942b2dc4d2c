//! A small store of counts: each call once at it, and that inner nodes have the sums.
ghost use Rattle.std.specs.Prelude.{◌≡◌, ◌+◌, ◌<◌, ◌≤◌, ◌^◌, OnOk, IfOk};
ghost use Rattle.tree_examples.specs.Sums.{IsKeptSums, sum_in};

mod rooms;
mod sums;

use knit_base::{NoMemory, Steps};
use std::alloc::Global;
use std::marker::Brand;
use std::sync::ledger::{Blank, Ledger};
use std::test::Fail;
use std::thread::Threads;
use sums::Sums;
use value_tree::ValueTree;

// A leaf with this count at a position, unless it can't stand there.
fn add<L: Ledger>(
    tree: &mut ValueTree<Sums>,
    at: u32,
    count: u64,
    steps: &mut Steps<L>,
) -> Result<(), NoMemory>
    requires kept { IsKeptSums tree.old.store.leaves.items tree.old.store.nodes.items tree.old.shape }
    requires few { sum_in tree.old.store.leaves.items tree.old.shape + count < 2 ^ 32 }
    ensures kept { IsKeptSums tree.new.store.leaves.items tree.new.store.nodes.items tree.new.shape }
    ensures sum { sum_in tree.new.store.leaves.items tree.new.shape ≤ sum_in tree.old.store.leaves.items tree.old.shape + count }
{
    if at > tree.len() || tree.len() >= 65536 {
        return Ok(());
    }
    let need = tree.need_insert(at, count);
    tree.reserve_insert(&need)?;
    tree.insert(at, count, steps);
    Ok(())
}

// Another count for the leaf at a position, if there is one.
fn put<L: Ledger>(
    tree: &mut ValueTree<Sums>,
    at: u32,
    count: u64,
    steps: &mut Steps<L>,
) -> Result<(), NoMemory>
    requires kept { IsKeptSums tree.old.store.leaves.items tree.old.store.nodes.items tree.old.shape }
    requires few { sum_in tree.old.store.leaves.items tree.old.shape + count < 2 ^ 32 }
    ensures kept { IsKeptSums tree.new.store.leaves.items tree.new.store.nodes.items tree.new.shape }
    ensures sum { sum_in tree.new.store.leaves.items tree.new.shape ≤ sum_in tree.old.store.leaves.items tree.old.shape + count }
{
    if at < tree.len() {
        let need = tree.need_replace(at, count);
        tree.reserve(&need)?;
        tree.replace(at, count, steps);
    }
    Ok(())
}

// No leaf at a position.
fn cut<L: Ledger>(tree: &mut ValueTree<Sums>, at: u32, steps: &mut Steps<L>)
    requires kept { IsKeptSums tree.old.store.leaves.items tree.old.store.nodes.items tree.old.shape }
    ensures kept { IsKeptSums tree.new.store.leaves.items tree.new.store.nodes.items tree.new.shape }
    ensures sum { sum_in tree.new.store.leaves.items tree.new.shape ≤ sum_in tree.old.store.leaves.items tree.old.shape }
{
    if at < tree.len() {
        let need = tree.need_remove(at);
        if tree.meets(&need) {
            tree.remove(at, steps);
        }
    }
}

// The leaves 5, 7 and 9.
fn three<L: Ledger>(alloc: Global, steps: &mut Steps<L>) -> Result<ValueTree<Sums>, NoMemory>
    ensures kept { IfOk result (λ tree. IsKeptSums tree.store.leaves.items tree.store.nodes.items tree.shape) }
    ensures sum { IfOk result (λ tree. sum_in tree.store.leaves.items tree.shape ≤ 21) }
{
    let mut tree = ValueTree::new(alloc, Sums::new(alloc));
    add(&mut tree, 0, 9, steps)?;
    add(&mut tree, 0, 5, steps)?;
    add(&mut tree, 1, 7, steps)?;
    Ok(tree)
}

// The sum of all leaves, and where three offsets lie.
fn found(tree: &ValueTree<Sums>) -> (u64, [Option<(u32, u64)>; 3])
    requires { IsKeptSums tree.now.store.leaves.items tree.now.store.nodes.items tree.now.shape }
{
    let sum = match tree.root() {
        Some(root) => tree.store().sum(root),
        None => 0,
    };
    (sum, [tree.find(0), tree.find(12), tree.find(21)])
}

// What is found in the tree of the leaves 5, 7 and 9, after another first leaf, and without the second one.
fn counted<L: Ledger, R: Threads>(
    rt: &R,
    blank: Blank,
    alloc: Global,
) -> Result<[(u64, [Option<(u32, u64)>; 3]); 3], NoMemory>
    requires name { (blank.name ≡ L.name) × (blank.parts ≡ L.parts) × (0 < L.parts) }
{
    let mut steps = Steps::<L>::start(rt, blank);
    let mut tree = three(alloc, &mut steps)?;
    let first = found(&tree);
    put(&mut tree, 0, 2, &mut steps)?;
    let second = found(&tree);
    cut(&mut tree, 1, &mut steps);
    Ok([first, second, found(&tree)])
}

#[test]
fn offsets_are_found_by_sums(rt: HostRuntime) -> Result<(), Fail> {
    let [first, second, third] = counted::<Brand, _>(&rt, Blank::new(1), rt.alloc())?;
    assert_eq!(rt; first, (21, [Some((0, 0)), Some((2, 0)), None]));
    assert_eq!(rt; second, (18, [Some((0, 0)), Some((2, 3)), None]));
    assert_eq!(rt; third, (11, [Some((0, 0)), None, None]));
    Ok(())
}
