//! How many threads are worth it.
ghost use Rattle.std.specs.Prelude.{◌≤◌};

use std::thread::{Threads, available_parallelism};

// How many lots lines are given out in at most.
const MOST_LOTS: usize = 16;

/// One for each processor, where there are lines enough: so many of them are worth a thread.
pub(crate) fn lot_count<R: Threads>(rt: &R, lines: usize, worth: u32) -> usize
    requires { 1 ≤ worth }
    ensures { result ≤ 16 }
{
    let most = MOST_LOTS.min((lines / worth as usize).saturating_add(1));
    if most < 2 {
        return 1;
    }
    most.min(worker_count(rt))
}

// How many threads lines are given out to at most: one for each processor.
fn worker_count<R: Threads>(rt: &R) -> usize
    ensures { result ≤ 16 }
{
    match available_parallelism(rt) {
        Ok(processors) => MOST_LOTS.min(processors.get()),
        Err(_) => MOST_LOTS,
    }
}
