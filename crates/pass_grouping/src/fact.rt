//! What is told of a pass.
ghost use Rattle.std.specs.Prelude.{◌≡◌, IfOk};
ghost use Rattle.pass_grouping.specs.Facts.{way_of};

use crate::Class;
use knit_base::{CarrierNo, Dir, ListOf, NoMemory, Yarns};
use std::alloc::Global;
use std::marker::Model;

/// What is told of a pass: the lines of its first and its last operation, how many operations it has, their class, which way it goes,
/// and their carriers.
#[derive(Drop)]
pub struct PassFact {
    pub first_line: u32,
    pub last_line: u32,
    pub count: u32,
    pub class: Class,
    pub way: Dir,
    pub yarns: PassYarns,
}

/// What is told of each pass, in the order of the passes.
pub type PassFacts = ListOf<PassFact>;

/// The carriers of a pass. Where there is one alone, as in most passes, it lies in the value itself.
#[derive(Drop)]
pub struct PassYarns {
    held: HeldYarns,
}

impl Model for PassYarns {
    ghost use Rattle.std.specs.Prelude.{List};
    ghost use Rattle.knit_base.specs.declared.yarns.CarrierNo.{CarrierNo};
    ghost use Rattle.pass_grouping.specs.Carriers.{carriers_in};

    ghost Value = { List CarrierNo };

    ghost view = { λ y. carriers_in y.held };
}

// Where the carriers of a pass lie.
#[derive(Drop)]
enum HeldYarns {
    Nothing,
    One([CarrierNo; 1]),
    More(Box<Yarns>),
}

impl PassYarns {
    /// These carriers. Up to one takes no memory.
    pub fn of(alloc: Global, yarns: &Yarns) -> Result<PassYarns, NoMemory>
        ensures { IfOk result (λ held. held ≡ yarns.now) }
    {
        let held = match yarns.as_slice() {
            [] => HeldYarns::Nothing,
            [c] => HeldYarns::One([*c]),
            _ => HeldYarns::More(Box::new(alloc, yarns.try_clone()?)?),
        };
        Ok(PassYarns { held })
    }

    /// The carriers as a slice.
    pub fn as_slice(&self) -> &[CarrierNo]
        ensures { result.now ≡ self.now }
    {
        match &self.held {
            HeldYarns::Nothing => &[],
            HeldYarns::One(one) => one,
            HeldYarns::More(yarns) => yarns.as_slice(),
        }
    }
}

/// The direction that is written, or else leftward where the last place lies left of the first.
pub(crate) fn way_of(written: Option<Dir>, first: i32, last: i32) -> Dir
    ensures { result ≡ way_of written first last }
{
    match written {
        Some(dir) => dir,
        None => { if last < first { Dir::Left } else { Dir::Right } }
    }
}
