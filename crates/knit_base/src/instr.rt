//! What a line of a knitout file says.
ghost use Rattle.std.specs.Prelude.{◌≡◌};
ghost use Rattle.knit_base.specs.Instr.{forming_needle, formed_on};

use crate::{Dir, ListOf, Needle, Reason, Yarns};

/// A rack in quarters of a needle.
#[derive(Clone, Copy, Debug, PartialEq, Eq)]
pub struct Quarter(pub i32);

/// One operation of a knitout line. The words of `stitch`, `pause` and the extensions bear no rule and aren't kept.
#[derive(Drop)]
pub enum Instr {
    CarryIn(Yarns),
    CarryOut(Yarns),
    HookIn(Yarns),
    HookOut(Yarns),
    ReleaseHook(Yarns),
    Stitch,
    Pause,
    Extension,
    Rack(Quarter),
    Knit(Dir, Needle, Yarns),
    Tuck(Dir, Needle, Yarns),
    Miss(Dir, Needle, Yarns),
    Split(Dir, Needle, Needle, Yarns),
    Xfer(Needle, Needle),
    Drop(Needle),
    Amiss(Needle),
}

impl Instr {
    /// The needle on which the instruction forms a loop: that of `knit`, `tuck` and `split` with carriers.
    pub fn forming_needle(&self) -> Option<Needle>
        ensures { result ≡ forming_needle self.now }
    {
        match self {
            Instr::Knit(_, n, yarns) | Instr::Tuck(_, n, yarns) => formed_on(*n, yarns),
            Instr::Split(_, n, _, yarns) => formed_on(*n, yarns),
            _ => None,
        }
    }
}

fn formed_on(n: Needle, yarns: &Yarns) -> Option<Needle>
    ensures { result ≡ formed_on n yarns.now }
{
    if yarns.len() == 0 { None } else { Some(n) }
}

/// What a line says: nothing, a comment, an instruction, or the first rule that the line breaks by itself.
#[derive(Drop)]
pub enum Read {
    Blank,
    Comment,
    Instr(Instr),
    Broken(Reason),
}

/// The readings of a text, line by line.
pub type Reads = ListOf<Read>;
