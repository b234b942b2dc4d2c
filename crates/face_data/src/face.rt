//! The lists of a face, and what stands in them.
ghost use Rattle.std.specs.Prelude.{◌≡◌};
ghost use Rattle.face_data.specs.Drafts.{no_lines};
ghost use Rattle.face_data.specs.View.{IsPacked, summary_of};

use crate::ShortList;
use knit_base::{CarrierNo, Fault, Needle, Quarter, Reason};

/// A piece of a stack: all loops that a needle held at the block's entry, or the loop that a line of the block makes. Lines
/// are counted from 0, the block's first.
#[derive(Clone, Copy, Debug, PartialEq, Eq)]
pub enum Seg {
    Entry(Needle),
    New(u32),
}

/// Pieces of a stack, the oldest loops first.
pub type Segs = ShortList<Seg>;

/// So many items of a list, from this place on.
#[derive(Clone, Copy, Debug, PartialEq, Eq)]
pub struct Part {
    pub start: u64,
    pub len: u32,
}

/// A condition on the state at a block's entry. `SizeAtMost` names needles by their part in the face's list of names, and
/// allows them so many loops together. `HookIs` has a bit for each carrier. `LastNear` asks that the carrier has no last needle or one
/// that is at most so many numbers, the second, away from the first.
#[derive(Clone, Copy, Debug, PartialEq, Eq)]
pub enum Cond {
    RackIs(Quarter),
    CarrierIn(CarrierNo),
    CarrierOut(CarrierNo),
    HookFree,
    HookIs(u64),
    HookLacks(CarrierNo),
    SizeAtMost(Part, u8),
    LastNear(CarrierNo, i16, u16),
}

/// Conditions, each with the reason that is given where it fails. None of them is a `SizeAtMost`.
pub type CondList = ShortList<(Reason, Cond)>;

/// A condition, and the fault where it fails. The fault's line is counted from 0, the block's first.
#[derive(Clone, Copy, Debug, PartialEq, Eq)]
pub struct Check {
    pub fault: Fault,
    pub cond: Cond,
}

/// A needle that holds other loops at the end: its segments by their part in the face's list of segments.
#[derive(Clone, Copy, Debug, PartialEq, Eq)]
pub struct Change {
    pub needle: Needle,
    pub part: Part,
}

/// A carrier whose last needle is another at the end: its number, or none.
#[derive(Clone, Copy, Debug, PartialEq, Eq)]
pub struct Last {
    pub carrier: CarrierNo,
    pub at: Option<i16>,
}

/// Carriers, each with its last needle.
pub type LastList = ShortList<Last>;

/// What a block changes but for loops and last needles: the rack, the carriers that came and that went, a bit for each, and the yarns in
/// the hook. `None` leaves it as it is.
#[derive(Clone, Copy, Debug, PartialEq, Eq)]
pub struct Effect {
    pub rack: Option<Quarter>,
    pub came: u64,
    pub went: u64,
    pub hook: Option<u64>,
}

/// How a block ends where all its conditions hold.
#[derive(Clone, Copy, Debug, PartialEq, Eq)]
pub enum Ending {
    Through(Effect),
    Broken(Fault),
}

/// A face as it is read: how many lines the block has and how many loops it makes, its checks with the needles that they
/// name, its changes with their segments, the last needles that it changes, and its ending.
#[derive(Clone, Copy)]
pub struct FaceView<'a> {
    pub lines: u32,
    pub made: u32,
    pub checks: &'a [Check],
    pub names: &'a [Needle],
    pub changes: &'a [Change],
    pub segs: &'a [Seg],
    pub lasts: &'a [Last],
    pub ending: Ending,
}

impl FaceView<'_> {
    /// The face of no line, which asks for nothing and changes nothing.
    pub fn of_no_line() -> FaceView<'static>
        ensures summary { summary_of result ≡ no_lines }
        ensures packed { IsPacked result }
    {
        FaceView {
            lines: 0,
            made: 0,
            checks: &[],
            names: &[],
            changes: &[],
            segs: &[],
            lasts: &[],
            ending: Ending::Through(Effect {
                rack: None,
                came: 0,
                went: 0,
                hook: None,
            }),
        }
    }
}
