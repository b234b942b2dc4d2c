//! The loops of a block.
ghost use Rattle.std.specs.Prelude.{◌≡◌, ◌==◌, ◌+◌, ◌<◌, ◌≤◌, [], ◌∷◌, ◌++◌, All, IfOk, OnErr, OnOk, Some, length, map, position, slice_get};
ghost use Rattle.face_data.specs.Goodness.{IsGoodFace};
ghost use Rattle.face_data.specs.View.{IsPacked, changed_of, summary_of};
ghost use Rattle.loop_history.specs.Rows.{OffsetsRise, RowFits, row_through};
ghost use Rattle.loop_history.specs.declared.row.LoopRow.{LoopRow};

use crate::LoopRow;
use crate::joining::rows_through;
use crate::row_list::RowList;
use face_data::FaceView;
use knit_base::{NoMemory, Steps};
use std::alloc::Global;
use std::marker::Model;
use std::sync::ledger::Ledger;

/// The loops that a block makes, in the order of their lines. There are at most 4,096 of them.
#[derive(Drop)]
pub struct LoopTable {
    rows: RowList,
}

impl Model for LoopTable {
    ghost use Rattle.std.specs.Prelude.{List};
    ghost use Rattle.loop_history.specs.declared.row.LoopRow.{LoopRow};
    ghost use Rattle.loop_history.specs.Rows.{IsLoopTable};

    ghost Value = { List LoopRow };

    ghost view = { λ t. t.rows };

    ghost invariant = { λ t. IsLoopTable t.rows };
}

impl LoopTable {
    /// The table of no loop, which takes no memory.
    pub fn new(alloc: Global) -> Self
        ensures { result ≡ [] }
    {
        LoopTable {
            rows: RowList::new(alloc),
        }
    }

    /// The table of no loop. Memory for so many rows is asked for at once, of which contracts don't speak.
    pub fn with_capacity(alloc: Global, room: u32) -> Result<Self, NoMemory>
        ensures { IfOk result (λ table. table ≡ []) }
    {
        Ok(LoopTable {
            rows: RowList::with_capacity(alloc, room as usize)?,
        })
    }

    /// Appends the loop of a line behind those of all rows. After `NoMemory` the table is as before.
    #[inline(always)]
    pub fn push(&mut self, row: LoopRow) -> Result<(), NoMemory>
        requires last { All (λ (earlier : LoopRow). earlier.offset < row.offset) self.old }
        requires few { length self.old < 4096 }
        ensures ok { OnOk result (self.new ≡ self.old ++ row ∷ []) }
        ensures err { OnErr result (self.new ≡ self.old) }
    {
        self.rows.push(row)
    }

    /// Appends the rows of a second text's table, told from the entry of a first one, to which this table belongs and which has this face: the
    /// second one's lines are counted from the first one's, and what its loops are drawn through is read through the first one's changes.
    /// After `NoMemory`, which also comes where a loop would be drawn through more segments than a `u32` counts, the table is as before.
    pub fn append_through(&mut self, first: &FaceView, later: LoopTable) -> Result<(), NoMemory>
        requires good { IsGoodFace (summary_of first.now) }
        requires packed { IsPacked first.now }
        requires before { All (λ (row : LoopRow). row.offset < first.now.lines) self.old }
        requires few { length self.old + length later ≤ 4096 }
        requires fit { All (RowFits first.now.lines) later }
        ensures ok { OnOk result (self.new ≡ self.old ++ map (row_through (map (changed_of first.now.segs.now) first.now.changes.now) first.now.lines) later) }
        ensures err { OnErr result (self.new ≡ self.old) }
    {
        let mut more = rows_through(self.rows.allocator(), first, &later.rows)?;
        self.rows.append(&mut more)?;
        Ok(())
    }

    /// Lets go of room that no row takes, where there is memory for few rows alone.
    pub fn shrink_to_fit(&mut self)
        ensures { self.new ≡ self.old }
    {
        self.rows.shrink_to_fit();
    }

    /// How many loops there are.
    pub fn len(&self) -> u32
        ensures len { result ≡ length self.now }
        ensures few { length self.now ≤ 4096 }
        ensures rising { OffsetsRise self.now }
    {
        self.rows.len() as u32
    }

    /// Whether there is none.
    pub fn is_empty(&self) -> bool
        ensures { result ≡ (length self.now == 0) }
    {
        self.rows.is_empty()
    }

    /// The row at this place, from 0. It costs a step.
    pub fn row<L: Ledger>(&self, i: u32, steps: &mut Steps<L>) -> &LoopRow
        requires { i < length self.now }
        ensures row { slice_get self.now i ≡ Some result.now }
        ensures steps { steps.new ≡ steps.old + 1 }
    {
        steps.tick();
        self.rows.get(i as usize)
    }

    /// The place of the row of the line with this offset. It costs a step for each row that it looks at.
    pub fn find<L: Ledger>(&self, offset: u32, steps: &mut Steps<L>) -> Option<u32>
        ensures place { result ≡ position (λ (row : LoopRow). row.offset == offset) self.now }
        ensures steps { steps.new ≤ steps.old + 13 }
    {
        let mut low = 0;
        let mut high = self.len();
        for _probe in 0..13u32 {
            if low >= high {
                return None;
            }
            let middle = low + (high - low) / 2;
            let found = self.row(middle, steps).offset;
            if found == offset {
                return Some(middle);
            }
            if found < offset {
                low = middle + 1;
            } else {
                high = middle;
            }
        }
        None
    }

    /// An equal table, without room beyond its rows.
    pub fn try_clone(&self) -> Result<Self, NoMemory>
        ensures { IfOk result (λ table. table ≡ self.now) }
    {
        let rows = self.rows.try_clone()?;
        Ok(LoopTable { rows })
    }
}
