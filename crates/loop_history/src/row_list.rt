//! Rows that are let go of unread, where none of them has memory of its own.
ghost use Rattle.std.specs.Prelude.{◌≡◌, ◌==◌, ◌<◌, [], ◌∷◌, ◌++◌, IfOk, OnErr, OnOk, Some, length, slice_get};

use crate::LoopRow;
use knit_base::NoMemory;
use std::alloc::Global;
use std::marker::Model;
use std::mem::ManuallyDrop;

// So many rows are moved in less time than their memory is cut.
const FEW_ROWS: usize = 128;

/// Rows in their order. They are let go of one by one only where one of them may have memory of its own; else they aren't read again.
// Nothing is proved of `has_own`: were it wrong, memory would be leaked or rows read for nothing, and no contract speaks of either.
pub(crate) struct RowList {
    rows: Vec<ManuallyDrop<LoopRow>>,
    has_own: bool,
}

impl Model for RowList {
    ghost use Rattle.std.specs.Prelude.{List, map};
    ghost use Rattle.std.specs.Mem.{manually_drop_value};
    ghost use Rattle.loop_history.specs.declared.row.LoopRow.{LoopRow};

    ghost Value = { List LoopRow };

    ghost view = { λ l. map manually_drop_value l.rows.items };
}

impl Drop for RowList {
    fn drop(self) {
        let RowList { rows, has_own } = self;
        if has_own {
            for row in rows {
                drop(ManuallyDrop::into_inner(row));
            }
        }
    }
}

impl RowList {
    /// No rows, which take no memory.
    pub(crate) fn new(alloc: Global) -> Self
        ensures { result ≡ [] }
    {
        RowList {
            rows: Vec::new(alloc),
            has_own: false,
        }
    }

    /// No rows, and room for so many.
    pub(crate) fn with_capacity(alloc: Global, room: usize) -> Result<Self, NoMemory>
        ensures { IfOk result (λ rows. rows ≡ []) }
    {
        let rows = Vec::with_capacity(alloc, room)?;
        Ok(RowList {
            rows,
            has_own: false,
        })
    }

    /// Appends a row. After `NoMemory` the rows are as before.
    #[inline(always)]
    pub(crate) fn push(&mut self, row: LoopRow) -> Result<(), NoMemory>
        ensures ok { OnOk result (self.new ≡ self.old ++ row ∷ []) }
        ensures err { OnErr result (self.new ≡ self.old) }
    {
        self.rows.reserve(1)?;
        self.has_own = self.has_own || has_own_memory(&row);
        self.rows.push_reserved(ManuallyDrop::new(row));
        Ok(())
    }

    /// Appends the rows of the other list, which then has none. After `NoMemory` both are as before.
    pub(crate) fn append(&mut self, more: &mut RowList) -> Result<(), NoMemory>
        ensures ok { OnOk result (self.new ≡ self.old ++ more.old) }
        ensures emptied { OnOk result (more.new ≡ []) }
        ensures err { OnErr result (self.new ≡ self.old) }
        ensures kept { OnErr result (more.new ≡ more.old) }
    {
        self.rows.append(&mut more.rows)?;
        self.has_own = self.has_own || more.has_own;
        Ok(())
    }

    /// How many rows there are.
    pub(crate) fn len(&self) -> usize
        ensures { result ≡ length self.now }
    {
        self.rows.len()
    }

    /// Whether there is none.
    pub(crate) fn is_empty(&self) -> bool
        ensures { result ≡ (length self.now == 0) }
    {
        self.rows.is_empty()
    }

    pub(crate) fn allocator(&self) -> Global {
        *self.rows.allocator()
    }

    /// The row at this place, from 0.
    pub(crate) fn get(&self, i: usize) -> &LoopRow
        requires { i < length self.now }
        ensures { slice_get self.now i ≡ Some result.now }
    {
        &self.rows[i]
    }

    /// Equal rows, without room beyond them.
    pub(crate) fn try_clone(&self) -> Result<Self, NoMemory>
        ensures { IfOk result (λ rows. rows ≡ self.now) }
    {
        let mut copy = RowList::with_capacity(self.allocator(), self.len())?;
        for i in 0..self.len() {
            copy.push(self.get(i).try_clone()?)?;
        }
        Ok(copy)
    }

    /// Lets go of room that no row takes, where there is memory for few rows alone.
    pub(crate) fn shrink_to_fit(&mut self)
        ensures { self.new ≡ self.old }
    {
        let used = self.rows.len();
        if used == self.rows.capacity() {
            return;
        }
        if used <= FEW_ROWS {
            self.move_rows();
        } else {
            self.rows.shrink_to_fit();
        }
    }

    // Moves the rows to memory of their size, where there is some. The room that they had is then given back whole, and the next table can
    // have it: cutting off its end would leave a piece that no table fits in.
    fn move_rows(&mut self)
        ensures { self.new ≡ self.old }
    {
        let Ok(mut fitting) = Vec::with_capacity(self.allocator(), self.rows.len()) else {
            return;
        };
        if fitting.append(&mut self.rows).is_ok() {
            self.rows = fitting;
        }
    }
}

// Whether a list of the row may lie outside of it: up to four yarns and up to two segments lie in place, and lists only grow.
#[inline(always)]
fn has_own_memory(row: &LoopRow) -> bool {
    row.yarns.len() > 4 || row.through.len() > 2
}
