//! The fewest passes, each as long as it can be, from the left.
ghost use Rattle.std.specs.Prelude.{◌≡◌, IfOk};
ghost use Rattle.pass_grouping.specs.Groupings.{IsCertificate, IsFewest, between_starts};

use crate::pass::pass_end;
use crate::{Grouping, PassOps, Starts, Window, Windows};
use knit_base::NoMemory;
use std::alloc::Global;

/// The fewest passes that carry out the operations in their order, and the windows that show it: for each start but the first,
/// the window from the start before it to this one. Each pass is as long as it can be behind the passes before it.
pub fn group(alloc: Global, ops: &PassOps) -> Result<Grouping, NoMemory>
    ensures fewest { IfOk result (λ grouping. IsFewest ops.now grouping.starts) }
    ensures certificate { IfOk result (λ grouping. IsCertificate ops.now grouping.starts grouping.windows) }
    ensures windows { IfOk result (λ grouping. grouping.windows ≡ between_starts grouping.starts) }
{
    let items = ops.as_slice();
    let mut starts = Starts::new(alloc);
    let mut windows = Windows::new(alloc);
    if items.is_empty() {
        return Ok(Grouping { starts, windows });
    }
    let mut start = 0;
    let mut behind = pass_end(items, start);
    starts.push(0)?;
    while behind < items.len() {
        let window = Window {
            from: start as u32,
            to: behind as u32,
        };
        windows.push(window)?;
        starts.push(behind as u32)?;
        start = behind;
        behind = pass_end(items, start);
    }
    Ok(Grouping { starts, windows })
}
