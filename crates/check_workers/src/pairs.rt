//! Faces of lines that follow one another.
ghost use Rattle.std.specs.Prelude.{◌≡◌, ◌+◌, ◌<◌, ◌^◌, IfOk};
ghost use Rattle.face_data.specs.Composition.{composed};
ghost use Rattle.check_workers.specs.Faces.{AreOfOneMachine};

use face_data::Face;
use knit_base::{NoMemory, Steps};
use std::alloc::Global;
use std::sync::ledger::Ledger;
use summary_compose::{Scratch, compose_into, room_for};

/// The face of the lines of both, made in a scratch that may have been used before.
pub(crate) fn join_faces<L: Ledger>(
    alloc: Global,
    first: &Face,
    second: &Face,
    scratch: &mut Scratch,
    steps: &mut Steps<L>,
) -> Result<Face, NoMemory>
    requires machine { AreOfOneMachine first.now second.now }
    requires lines { first.now.lines + second.now.lines < 2 ^ 32 }
    ensures { IfOk result (λ face. face ≡ composed first.now second.now) }
{
    let first = first.view();
    let second = second.view();
    scratch.reserve(&room_for(&first, &second))?;
    compose_into(&first, &second, scratch, steps);
    Face::of(alloc, &scratch.view())
}
