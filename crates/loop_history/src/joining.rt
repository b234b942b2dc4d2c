//! Rows of a second text, told from the entry of a first one.
ghost use Rattle.std.specs.Prelude.{◌≡◌, All, IfOk, map};
ghost use Rattle.face_data.specs.Goodness.{IsInOrder};
ghost use Rattle.face_data.specs.View.{PartsFit, changed_of};
ghost use Rattle.loop_history.specs.Rows.{RowFits, row_through};

use crate::LoopRow;
use crate::row_list::RowList;
use face_data::{FaceView, segs_through};
use knit_base::NoMemory;
use std::alloc::Global;

/// The rows, read through the first text's face.
pub(crate) fn rows_through(
    alloc: Global,
    first: &FaceView,
    rows: &RowList,
) -> Result<RowList, NoMemory>
    requires order { IsInOrder (map (changed_of first.now.segs.now) first.now.changes.now) }
    requires parts { PartsFit first.now.segs.now first.now.changes.now }
    requires fit { All (RowFits first.now.lines) rows.now }
    ensures { IfOk result (λ more. more ≡ map (row_through (map (changed_of first.now.segs.now) first.now.changes.now) first.now.lines) rows.now) }
{
    let mut more = RowList::with_capacity(alloc, rows.len())?;
    for i in 0..rows.len() {
        more.push(one_through(alloc, first, rows.get(i))?)?;
    }
    Ok(more)
}

fn one_through(alloc: Global, first: &FaceView, row: &LoopRow) -> Result<LoopRow, NoMemory>
    requires order { IsInOrder (map (changed_of first.now.segs.now) first.now.changes.now) }
    requires parts { PartsFit first.now.segs.now first.now.changes.now }
    requires fits { RowFits first.now.lines row.now }
    ensures { IfOk result (λ more. more ≡ row_through (map (changed_of first.now.segs.now) first.now.changes.now) first.now.lines row.now) }
{
    let through = segs_through(alloc, first, row.through.as_slice())?;
    Ok(LoopRow {
        offset: first.lines + row.offset,
        needle: row.needle,
        dir: row.dir,
        yarns: row.yarns.try_clone()?,
        through,
    })
}
