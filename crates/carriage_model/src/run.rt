//! A whole program, run from empty beds.
ghost use Rattle.std.specs.Prelude.{◌+◌, ◌<◌, ◌^◌, length, All, IfOk};
ghost use Rattle.knit_base.specs.Lawful.{IsLawfulRead};
ghost use Rattle.knit_base.specs.Limits.{IsLawfulProfile};
ghost use Rattle.carriage_model.specs.State.{empty_state};
ghost use Rattle.carriage_model.specs.Run.{run};
ghost use Rattle.carriage_model.specs.Loops.{loops_made};
ghost use Rattle.carriage_model.specs.Verdict.{IsVerdict, NamesDeclared, HoldsFew};

use crate::{Carriage, Verdict};
use knit_base::{Declared, NoMemory, Profile, Reads};
use std::alloc::Global;

/// The verdict on these readings, the first of them that of the line `first`, run from empty beds. A fault names its line by
/// that count, and the final state's `lines` is how many readings there are.
///
/// What a program calls is a `Carriage`, which needs no list of readings; this is the same run told in one piece. `NoMemory`
/// says that memory ran out, and nothing of the verdict.
pub fn run_plain(
    alloc: Global,
    profile: &Profile,
    declared: &Declared,
    reads: &Reads,
    first: u32,
) -> Result<Verdict, NoMemory>
    requires profile { IsLawfulProfile profile.now }
    requires lawful { All (IsLawfulRead profile.now (length declared.now)) reads.now }
    requires lines { first + length reads.now < 2 ^ 32 }
    ensures verdict { IfOk result (λ verdict. IsVerdict (length reads.now) verdict (run profile.now empty_state first reads.now) (loops_made profile.now empty_state first reads.now)) }
    ensures carriers { IfOk result (NamesDeclared (length declared.now)) }
    ensures few { IfOk result HoldsFew }
{
    let mut carriage = Carriage::start(alloc, profile, first, false)?;
    'running: for read in reads.as_slice() {
        carriage.execute(read)?;
    }
    let (verdict, _) = carriage.finish()?;
    Ok(verdict)
}
