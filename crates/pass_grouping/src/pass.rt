//! One pass of the carriage over a range of operations.
ghost use Rattle.std.specs.Prelude.{◌≡◌, ◌+◌, ◌-◌, ◌<◌, ◌≤◌, ◌↔◌, ℕ, length, IsTrue};
ghost use Rattle.knit_base.specs.declared.needle.Dir.{Dir};
ghost use Rattle.pass_grouping.specs.Passes.{AreOneKindOfOperation, way_asked, IsFree, IsBeyond, Follows, GoesOneWay, IsOnePass};

use crate::{Class, PassOp};
use knit_base::{CarrierNo, Dir};

/// Whether the range, both ends counted, is one pass. Its first two operations tell which way it would go.
pub(crate) fn is_one_pass(ops: &[PassOp], from: usize, to: usize) -> bool
    requires within { to < length ops.now }
    ensures { IsTrue result ↔ IsOnePass ops.now from to }
{
    if to <= from {
        return true;
    }
    let way = way_between(&ops[from], &ops[from + 1]);
    goes_one_way(way, ops, from, to)
}

/// The operation behind the longest pass that begins with this one.
pub(crate) fn pass_end(ops: &[PassOp], from: usize) -> usize
    requires { from < length ops.now }
    ensures some { from < result }
    ensures within { result ≤ length ops.now }
    ensures pass { IsOnePass ops.now from (result - 1) }
    ensures longest { result < length ops.now → ¬ IsOnePass ops.now from result }
{
    if ops.len() <= from + 1 {
        return from + 1;
    }
    let way = way_between(&ops[from], &ops[from + 1]);
    run_end(way, ops, from)
}

/// The one way in which b may lie of a. Where they have one place there is none, and it is either.
pub(crate) fn way_between(a: &PassOp, b: &PassOp) -> Dir
    ensures { (way : Dir) → IsBeyond way a.now.place b.now.place → way ≡ result }
{
    if a.place < b.place {
        return Dir::Right;
    }
    Dir::Left
}

// The operation behind the longest pass that begins with this one and goes this way.
fn run_end(way: Dir, ops: &[PassOp], from: usize) -> usize
    requires { from < length ops.now }
    ensures some { from < result }
    ensures within { result ≤ length ops.now }
    ensures pass { GoesOneWay way ops.now from (result - 1) }
    ensures longest { (to : ℕ) → result ≤ to → to < length ops.now → ¬ GoesOneWay way ops.now from to }
{
    for last in from..ops.len() - 1 {
        if !follows(way, &ops[last], &ops[last + 1]) {
            return last + 1;
        }
    }
    ops.len()
}

// Whether the range is one pass that goes this way. Each operation is compared with the one behind it, the last two first: a window
// ends with two that can't be in one pass.
fn goes_one_way(way: Dir, ops: &[PassOp], from: usize, to: usize) -> bool
    requires some { from < to }
    requires within { to < length ops.now }
    ensures { IsTrue result ↔ GoesOneWay way ops.now from to }
{
    if !follows(way, &ops[to - 1], &ops[to]) {
        return false;
    }
    for i in from..to - 1 {
        if !follows(way, &ops[i], &ops[i + 1]) {
            return false;
        }
    }
    true
}

/// Whether b may come behind a in one pass that goes this way. The places are compared first: most neighbours that don't go this way
/// differ there.
#[inline(always)]
pub(crate) fn follows(way: Dir, a: &PassOp, b: &PassOp) -> bool
    ensures { IsTrue result ↔ Follows way a.now b.now }
{
    if !is_beyond(way, a.place, b.place) {
        return false;
    }
    if !is_free(a.class, a.dir, way) {
        return false;
    }
    are_alike(a, b)
}

#[inline(always)]
fn are_alike(a: &PassOp, b: &PassOp) -> bool
    ensures { IsTrue result ↔ AreOneKindOfOperation a.now b.now }
{
    if a.stretch != b.stretch {
        return false;
    }
    if !is_same_class(a.class, b.class) {
        return false;
    }
    if !is_same_dir(a.dir, b.dir) {
        return false;
    }
    are_same_yarns(a.yarns.as_slice(), b.yarns.as_slice())
}

fn is_same_class(a: Class, b: Class) -> bool
    ensures { IsTrue result ↔ (a ≡ b) }
{
    a == b
}

fn is_same_dir(a: Option<Dir>, b: Option<Dir>) -> bool
    ensures { IsTrue result ↔ (a ≡ b) }
{
    match (a, b) {
        (Some(a), Some(b)) => a == b,
        (None, None) => true,
        (Some(_), None) | (None, Some(_)) => false,
    }
}

// Whether these are the same carriers in the same order. Most lists have one, which is compared at once.
#[inline(always)]
fn are_same_yarns(a: &[CarrierNo], b: &[CarrierNo]) -> bool
    ensures { IsTrue result ↔ (a.now ≡ b.now) }
{
    match (a, b) {
        ([x], [y]) => x == y,
        _ => a == b,
    }
}

// Whether an operation of this class and direction may be in a pass that goes this way.
fn is_free(class: Class, dir: Option<Dir>, way: Dir) -> bool
    ensures { IsTrue result ↔ IsFree (way_asked class dir) way }
{
    match class {
        Class::Form | Class::Split => match dir {
            Some(asked) => asked == way,
            None => true,
        },
        Class::Move | Class::Drop => true,
    }
}

fn is_beyond(way: Dir, a: i32, b: i32) -> bool
    ensures { IsTrue result ↔ IsBeyond way a b }
{
    match way {
        Dir::Right => a < b,
        Dir::Left => b < a,
    }
}
