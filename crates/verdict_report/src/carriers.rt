//! The carriers of a set.
ghost use Rattle.std.specs.Prelude.{◌≡◌, ◌<◌, ◌≤◌, ◌++◌, [], ◌∷◌, cond, IfOk, OnOk};
ghost use Rattle.knit_base.specs.Yarns.{contains_carrier};
ghost use Rattle.verdict_report.specs.Carriers.{carrier, carriers_of_set};

use knit_base::{CarrierNo, NoMemory, Yarns};
use std::alloc::Global;

// Appends a carrier, where the set contains it.
fn push_if_in(number: u8, set: u64, carriers: &mut Yarns) -> Result<(), NoMemory>
    requires { number < 64 }
    ensures { OnOk result (carriers.new ≡ carriers.old ++ cond (contains_carrier set (carrier number)) (carrier number ∷ []) []) }
{
    if (set >> number) % 2 == 1 {
        carriers.push(CarrierNo(number))?;
    }
    Ok(())
}

/// The carriers of a set, of so many that are declared, in the order of the header.
pub(crate) fn carriers_of(alloc: Global, declared: u8, set: u64) -> Result<Yarns, NoMemory>
    requires { declared ≤ 64 }
    ensures { IfOk result (λ carriers. carriers ≡ carriers_of_set declared set) }
{
    let mut carriers = Yarns::new(alloc);
    'carriers: for number in 0..declared {
        push_if_in(number, set, &mut carriers)?;
    }
    Ok(carriers)
}
