//! The rows that a change lists.
ghost use Rattle.std.specs.Prelude.{◌≡◌, ◌+◌, ◌<◌, ◌≤◌, List, [], ◌∷◌, ◌++◌, length, take};
ghost use Rattle.std.specs.List.{slice_get};
ghost use Rattle.tree_shape.specs.Plan.{dirty_row};

use crate::node::{Child, Side};
use std::marker::Model;

/// An inner node that a change wrote, with the parts that it has afterwards.
#[derive(Clone, Copy)]
pub struct DirtyRow {
    pub node: u32,
    pub left: Child,
    pub right: Child,
}

pub(crate) fn row_on(side: Side, node: u32, near: Child, far: Child) -> DirtyRow
    ensures { result ≡ dirty_row side node near far }
{
    match side {
        Side::Left => DirtyRow {
            node,
            left: near,
            right: far,
        },
        Side::Right => DirtyRow {
            node,
            left: far,
            right: near,
        },
    }
}

/// At most 72 rows, kept in place.
#[derive(Drop)]
pub struct Dirty {
    rows: [DirtyRow; 72],
    len: usize,
}

impl Model for Dirty {
    ghost use Rattle.std.specs.Prelude.{◌≡◌, List, ◌≤◌, take, length};
    ghost use Rattle.tree_shape.specs.declared.dirty.DirtyRow.{DirtyRow};

    ghost Value = { List DirtyRow };

    ghost view = { λ d. take d.len d.rows };

    ghost invariant = { λ d. (d.len ≤ 72) × (length d.rows ≡ 72) };
}

impl Dirty {
    pub fn new() -> Dirty
        ensures { result ≡ [] }
    {
        let row = DirtyRow {
            node: 0,
            left: Child::Leaf(0),
            right: Child::Leaf(0),
        };
        Dirty {
            rows: [row; 72],
            len: 0,
        }
    }

    /// How many rows there are, 72 at most.
    pub fn len(&self) -> u32
        ensures len { result ≡ length self.now }
        ensures few { result ≤ 72 }
    {
        self.len as u32
    }

    pub fn get(&self, i: u32) -> Option<DirtyRow>
        ensures { result ≡ slice_get self.now i }
    {
        if (i as usize) < self.len {
            Some(self.rows[i as usize])
        } else {
            None
        }
    }

    pub(crate) fn clear(&mut self)
        ensures { self.new ≡ [] }
    {
        self.len = 0;
    }

    pub(crate) fn push(&mut self, row: DirtyRow)
        requires { length self.old < 72 }
        ensures { self.new ≡ self.old ++ row ∷ [] }
    {
        self.rows[self.len] = row;
        self.len += 1;
    }

    pub(crate) fn pop(&mut self) -> DirtyRow
        requires { 0 < length self.old }
        ensures { self.old ≡ self.new ++ result ∷ [] }
    {
        self.len -= 1;
        self.rows[self.len]
    }
}
