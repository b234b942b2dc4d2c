//! What an instruction makes of the segments on needles.
ghost use Rattle.std.specs.Prelude.{◌≡◌, [], ◌∷◌, IfOk};
ghost use Rattle.bed_rules.specs.Beds.{changes_of, changes_with_move};

use face_data::{Segs, SymbolList, Symbols};
use knit_base::{Instr, Needle, NoMemory};
use std::alloc::Global;

/// The needles that change their segments, but for the loop that the instruction forms.
pub fn changes_of(alloc: Global, instr: &Instr, segments: &Symbols) -> Result<SymbolList, NoMemory>
    ensures { IfOk result (λ changed. changed ≡ changes_of instr.now segments.now) }
{
    match instr {
        Instr::Knit(_, n, _) | Instr::Drop(n) => emptied(alloc, *n),
        Instr::Split(_, n, n2, _) | Instr::Xfer(n, n2) => moved(alloc, *n, *n2, segments),
        _ => Ok(SymbolList::new(alloc)),
    }
}

// The needle is left with nothing.
fn emptied(alloc: Global, n: Needle) -> Result<SymbolList, NoMemory>
    ensures { IfOk result (λ changed. changed ≡ (n, []) ∷ []) }
{
    let mut changed = SymbolList::new(alloc);
    changed.push((n, Segs::new(alloc)))?;
    Ok(changed)
}

// All segments of the first needle go over behind those of the second.
fn moved(alloc: Global, n: Needle, n2: Needle, segments: &Symbols) -> Result<SymbolList, NoMemory>
    ensures { IfOk result (λ changed. changed ≡ changes_with_move segments.now n n2) }
{
    let both = segments.segs_on_both(n2, n)?;
    let mut changed = emptied(alloc, n)?;
    changed.push((n2, both))?;
    Ok(changed)
}
