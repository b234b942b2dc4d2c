//! What a run gives: a verdict, and the loops that it made.
ghost use Rattle.std.specs.Prelude.{◌≡◌, ◌<◌, ◌^◌};
ghost use Rattle.carriage_model.specs.Verdict.{brief_of, held_on, HoldsFew};

use knit_base::{Dir, Fault, ListOf, Needle, Quarter, Yarns};

/// Loops, each named by the line that made it.
pub type LoopLines = ListOf<u32>;

/// A needle and the loops that it holds, in the order of their arrival.
#[derive(Drop)]
pub struct Stack {
    pub needle: Needle,
    pub loops: LoopLines,
}

/// The needles that hold loops, in the order of needles.
pub type Stacks = ListOf<Stack>;

/// What a program leaves: how many body lines it has, how many loops it made, and where the machine then stands. Sets of
/// carriers have a bit for each carrier.
#[derive(Drop)]
pub struct Final {
    pub lines: u32,
    pub made: u32,
    pub rack: Quarter,
    pub ins: u64,
    pub hook: u64,
    pub stacks: Stacks,
}

/// Either the whole program runs, or it stops at the first fault.
#[derive(Drop)]
pub enum Verdict {
    Sound(Final),
    Broken(Fault),
}

impl Verdict {
    /// The verdict in short. Each verdict on a program holds few loops.
    pub fn brief(&self) -> Brief
        requires { HoldsFew self.now }
        ensures { result ≡ brief_of self.now }
    {
        match self {
            Verdict::Sound(last) => Brief::Sound {
                lines: last.lines,
                made: last.made,
                held: held_on(&last.stacks),
                rack: last.rack,
            },
            Verdict::Broken(fault) => Brief::Broken(*fault),
        }
    }
}

// How many loops the needles of the list hold together.
fn held_on(stacks: &Stacks) -> u32
    requires { held_on stacks.now < 2 ^ 32 }
    ensures { result ≡ held_on stacks.now }
{
    stacks
        .as_slice()
        .iter()
        .map(|stack| stack.loops.len())
        .sum()
}

/// A verdict in short. `held` counts the loops on needles at the end.
#[derive(Clone, Copy, Debug, PartialEq, Eq)]
pub enum Brief {
    Sound {
        lines: u32,
        made: u32,
        held: u32,
        rack: Quarter,
    },
    Broken(Fault),
}

/// A loop: the line that made it, where, with which yarns, and through which loops.
#[derive(Drop)]
pub struct LoopFact {
    pub line: u32,
    pub needle: Needle,
    pub dir: Dir,
    pub yarns: Yarns,
    pub through: LoopLines,
}
