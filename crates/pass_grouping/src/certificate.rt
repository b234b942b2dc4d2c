//! Certificates of groupings with the fewest passes.
ghost use Rattle.std.specs.Prelude.{◌≡◌, ◌+◌, ◌-◌, ◌<◌, ◌≤◌, ◌↔◌, [], length, drop, All, IsTrue};
ghost use Rattle.std.proofs.Common.{get_or};
ghost use Rattle.pass_grouping.specs.Groupings.{first_or, operations_in, passes_from, IsPass, IsGrouping, IsFewest, IsWindow, AreApart, IsCertificate};

use crate::pass::is_one_pass;
use crate::{PassOp, PassOps};
use knit_base::ListOf;

/// A range of operations, both ends counted, by their places in the list of operations.
#[derive(Clone, Copy, Debug, PartialEq, Eq)]
pub struct Window {
    pub from: u32,
    pub to: u32,
}

/// The places of the operations with which the passes begin.
pub type Starts = ListOf<u32>;

/// Windows, in the order of the operations.
pub type Windows = ListOf<Window>;

/// A grouping into passes, and the windows that show that no grouping has fewer.
#[derive(Drop)]
pub struct Grouping {
    pub starts: Starts,
    pub windows: Windows,
}

/// Whether these are the starts of a grouping, with windows that show that no grouping of the operations has fewer passes. Each
/// window must hold two operations that can't be in one pass, so that every grouping has a start among its cut places.
pub fn check_certificate(ops: &PassOps, starts: &[u32], windows: &[Window]) -> bool
    ensures certificate { IsTrue result ↔ IsCertificate ops.now starts.now windows.now }
    ensures no_operation { length ops.now ≡ 0 → (IsTrue result ↔ ((starts.now ≡ []) × (windows.now ≡ []))) }
    ensures fewest { IsTrue result → IsFewest ops.now starts.now }
{
    let ops = ops.as_slice();
    if !is_grouping(ops, starts) {
        return false;
    }
    if !are_windows(ops, windows) {
        return false;
    }
    if ops.is_empty() {
        return true;
    }
    starts.len() - 1 == windows.len()
}

fn is_grouping(ops: &[PassOp], starts: &[u32]) -> bool
    ensures { IsTrue result ↔ IsGrouping ops.now starts.now }
{
    if first_or(starts, 0, ops.len()) != 0 {
        return false;
    }
    for k in 0..starts.len() {
        let start = starts[k] as usize;
        let behind = first_or(starts, k + 1, ops.len());
        if !is_pass(ops, start, behind) {
            return false;
        }
    }
    true
}

/// The operations of the pass at this place, where the passes begin with these operations.
pub fn pass_at<'a>(ops: &'a PassOps, starts: &[u32], k: usize) -> &'a [PassOp]
    requires grouping { IsGrouping ops.now starts.now }
    requires within { k < length starts.now }
    ensures { result.now ≡ get_or (passes_from ops.now starts.now) k [] }
{
    let items = ops.as_slice();
    let start = starts[k] as usize;
    let behind = first_or(starts, k + 1, items.len());
    between(items, start, behind)
}

// The operations from this one up to another, which isn't counted.
fn between(ops: &[PassOp], start: usize, behind: usize) -> &[PassOp]
    requires ordered { start ≤ behind }
    requires within { behind ≤ length ops.now }
    ensures { result.now ≡ operations_in ops.now (record { start = start; behind = behind }) }
{
    &ops[start..behind]
}

// The start at this place of the list, or the number behind them where there is none.
fn first_or(starts: &[u32], k: usize, behind: usize) -> usize
    ensures { result ≡ first_or (drop k starts.now) behind }
{
    if k < starts.len() {
        starts[k] as usize
    } else {
        behind
    }
}

fn is_pass(ops: &[PassOp], start: usize, behind: usize) -> bool
    ensures { IsTrue result ↔ IsPass ops.now (record { start = start; behind = behind }) }
{
    if behind <= start {
        return false;
    }
    if ops.len() < behind {
        return false;
    }
    is_one_pass(ops, start, behind - 1)
}

// Neighbours are compared before a window is walked over, so the walks share no cut place.
fn are_windows(ops: &[PassOp], windows: &[Window]) -> bool
    ensures { IsTrue result ↔ (All (IsWindow ops.now) windows.now × AreApart windows.now) }
{
    let mut last = 0;
    for window in windows {
        if window.from < last {
            return false;
        }
        if !is_window(ops, *window) {
            return false;
        }
        last = window.to;
    }
    true
}

fn is_window(ops: &[PassOp], window: Window) -> bool
    ensures { IsTrue result ↔ IsWindow ops.now window }
{
    let from = window.from as usize;
    let to = window.to as usize;
    if to < from {
        return false;
    }
    if ops.len() <= to {
        return false;
    }
    !is_one_pass(ops, from, to)
}
