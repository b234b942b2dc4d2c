//! The loop that an instruction forms.
ghost use Rattle.std.specs.Prelude.{◌≡◌, IfOk};
ghost use Rattle.block_summary.specs.Asks.{formed_loop, formed_of};

use face_data::{Segs, Symbols};
use knit_base::{Dir, Instr, Needle, NoMemory, Yarns};
use std::alloc::Global;

/// A loop that an instruction forms: on which needle, in which direction, of which carriers, and the segments of the loops
/// through which it is drawn.
#[derive(Drop)]
pub struct FormedLoop {
    pub needle: Needle,
    pub dir: Dir,
    pub yarns: Yarns,
    pub through: Segs,
}

/// The loop that the instruction forms in a block in which the needles hold these segments so far. `None` where it forms none.
pub fn formed_loop(
    alloc: Global,
    instr: &Instr,
    segments: &Symbols,
) -> Result<Option<FormedLoop>, NoMemory>
    ensures { IfOk result (λ formed. formed ≡ formed_loop instr.now segments.now) }
{
    match instr {
        Instr::Knit(dir, n, yarns) | Instr::Split(dir, n, _, yarns) => {
            let mut through = Segs::new(alloc);
            segments.append_segs(*n, &mut through)?;
            formed_of(*dir, *n, yarns, through)
        }
        Instr::Tuck(dir, n, yarns) => formed_of(*dir, *n, yarns, Segs::new(alloc)),
        _ => Ok(None),
    }
}

// The loop of these carriers. Without carriers there is none.
fn formed_of(
    dir: Dir,
    n: Needle,
    yarns: &Yarns,
    through: Segs,
) -> Result<Option<FormedLoop>, NoMemory>
    ensures { IfOk result (λ formed. formed ≡ formed_of dir n yarns.now through) }
{
    if yarns.len() == 0 {
        return Ok(None);
    }
    Ok(Some(FormedLoop {
        needle: n,
        dir,
        yarns: yarns.try_clone()?,
        through,
    }))
}
