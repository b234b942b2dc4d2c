//! Two rising lists of needles, merged.
ghost use Rattle.std.specs.Prelude.{◌≡◌, ◌+◌, ◌++◌, ◌≤◌, length, vec_capacity};
ghost use Rattle.tally_tree.specs.Needles.{merged_needles};

use knit_base::{Needle, needle_order};
use std::cmp::Ordering;

/// Appends the needles of two rising lists, rising, each once. Takes no memory.
pub(crate) fn merge_needles(a: &[Needle], b: &[Needle], out: &mut Vec<Needle>)
    requires { length out.old.items + length (merged_needles a.now b.now) ≤ vec_capacity out.old }
    ensures { out.new.items ≡ out.old.items ++ merged_needles a.now b.now }
{
    let mut a = a;
    let mut b = b;
    while !a.is_empty() && !b.is_empty() {
        let n = a[0];
        let m = b[0];
        match needle_order(&n, &m) {
            Ordering::Less => {
                out.push_reserved(n);
                a = &a[1..];
                continue;
            }
            Ordering::Equal => {
                out.push_reserved(n);
                a = &a[1..];
                b = &b[1..];
                continue;
            }
            Ordering::Greater => {
                out.push_reserved(m);
                b = &b[1..];
                continue;
            }
        }
    }
    append_all(a, out);
    append_all(b, out);
}

// Appends needles.
fn append_all(needles: &[Needle], out: &mut Vec<Needle>)
    requires { length out.old.items + length needles.now ≤ vec_capacity out.old }
    ensures items { out.new.items ≡ out.old.items ++ needles.now }
    ensures room { vec_capacity out.new ≡ vec_capacity out.old }
{
    for n in needles {
        out.push_reserved(*n);
    }
}
