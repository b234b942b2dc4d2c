//! What most lines say, as a reading.
ghost use Rattle.std.specs.Prelude.{◌≡◌, ◌≤◌, ℕ};
ghost use Rattle.knit_base.specs.declared.profile.Profile.{Profile};
ghost use Rattle.knit_base.specs.Lawful.{IsLawfulRead};
ghost use Rattle.knit_base.specs.Usual.{usual_read};

use knit_base::{Instr, Read, Usual, Yarns};
use std::alloc::Global;

/// The same as a reading. It takes no memory, since it names one carrier at most.
pub fn usual_reading(alloc: Global, usual: Usual) -> Read
    requires { (profile : Profile) × (carriers : ℕ) × (carriers ≤ 64) × IsLawfulRead profile carriers (usual_read usual) }
    ensures { result ≡ usual_read usual }
{
    match usual {
        Usual::Knit(dir, needle, c) => {
            Read::Instr(Instr::Knit(dir, needle, Yarns::one(alloc, c)))
        }
        Usual::Tuck(dir, needle, c) => {
            Read::Instr(Instr::Tuck(dir, needle, Yarns::one(alloc, c)))
        }
        Usual::Xfer(needle, needle2) => Read::Instr(Instr::Xfer(needle, needle2)),
    }
}
