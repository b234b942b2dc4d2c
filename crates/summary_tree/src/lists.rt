//! Lists in spans of a pool.
ghost use Rattle.std.specs.Prelude.{◌≡◌, ℕ, ◌≤◌, ◌^◌, length};
ghost use Rattle.span_pool.specs.Class.{IsClassOf};
ghost use Rattle.span_pool.specs.Pool.{OneFewer, OneMore, out_of, spare_of};
ghost use Rattle.summary_tree.specs.Lists.{Exchanged, TookSpan};

use span_pool::{Pool, Span, class_of};
use std::mem;

/// A list in a span of the least class that holds it.
pub(crate) fn put_anew<T: Copy>(pool: &mut Pool<T>, items: &[T]) -> Span<T>
    requires few { length items.now ≤ 2 ^ 62 }
    requires spare { (class : ℕ) → IsClassOf (length items.now) class → 1 ≤ spare_of pool.old class }
    ensures here { result.items ≡ items.now }
    ensures least { IsClassOf (length items.now) result.class }
    ensures taken { OneFewer (spare_of pool.old) (spare_of pool.new) result.class }
    ensures out { OneMore (out_of pool.old) (out_of pool.new) result.class }
    ensures took { TookSpan (spare_of pool.old) (spare_of pool.new) (length items.now) }
{
    let len = items.len() as u64;
    let _class = class_of(len);
    let Ok(mut span) = pool.take(len) else {
        unreachable!();
    };
    span.fill(items);
    span
}

/// Puts a list into a span of its class, in place of what that holds. A span of another class is given back, and another one
/// stands in its place.
pub(crate) fn refill<T: Copy>(pool: &mut Pool<T>, span: &mut Span<T>, items: &[T])
    requires few { length items.now ≤ 2 ^ 62 }
    requires spare { (class : ℕ) → IsClassOf (length items.now) class → 1 ≤ spare_of pool.old class }
    requires of_pool { 1 ≤ out_of pool.old span.old.class }
    ensures here { span.new.items ≡ items.now }
    ensures least { IsClassOf (length items.now) span.new.class }
    ensures back { Exchanged (spare_of pool.old) (spare_of pool.new) span.old.class span.new.class }
    ensures out { Exchanged (out_of pool.old) (out_of pool.new) span.new.class span.old.class }
    ensures took { TookSpan (spare_of pool.old) (spare_of pool.new) (length items.now) }
{
    let class = class_of(items.len() as u64);
    if span.class() == class {
        span.fill(items);
        return;
    }
    let old = mem::replace(span, put_anew(pool, items));
    pool.give(old);
}
