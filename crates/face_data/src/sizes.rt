//! Conditions on how many loops needles hold.
ghost use Rattle.std.specs.Prelude.{◌≡◌, ◌≤◌, ◌-◌, ◌-ℤ◌, pos, [], ◌∷◌, ◌++◌, IfOk, OnOk};
ghost use Rattle.std.specs.Option.{option_copied};
ghost use Rattle.face_data.specs.Segments.{entry_needles_of, new_of, segs_or_own};
ghost use Rattle.face_data.specs.Sizes.{IsSizeAsk};

use crate::{Seg, Segs, ShortList, Symbols};
use knit_base::{Needle, NoMemory, Reason};
use std::alloc::Global;

/// Needles, the first two of them kept in place: an instruction asks of few.
pub type NeedleList = ShortList<Needle>;

/// A condition on a block's entry: these needles hold together at most `max` loops then. A negative `max` can't be met. The
/// reason is given where it fails.
#[derive(Drop)]
pub struct SizeAsk {
    pub reason: Reason,
    pub entries: NeedleList,
    pub max: i16,
}

/// Conditions on how many loops needles hold.
pub type SizeAsks = ShortList<SizeAsk>;

/// The condition on the block's entry under which these needles hold together at most `most` loops now. `NoMemory` also comes
/// where its needles would be more than a `u32` counts.
pub fn ask_size(
    alloc: Global,
    reason: Reason,
    most: u8,
    needles: &[Needle],
    segments: &Symbols,
) -> Result<SizeAsk, NoMemory>
    ensures { IfOk result (IsSizeAsk reason most needles.now segments.now) }
{
    let mut entries = NeedleList::new(alloc);
    let mut room = u16::from(most) + 1;
    for n in needles {
        room = add_segments(segments.of(*n), *n, room, &mut entries)?;
    }
    Ok(SizeAsk {
        reason,
        entries,
        max: max_of(room),
    })
}

// `room` is one more than the loops that there is room for.
fn max_of(room: u16) -> i16
    requires { room ≤ 256 }
    ensures { result ≡ pos room -ℤ pos 1 }
{
    room as i16 - 1
}

// Adds the needles whose entry stands on this needle. `room` is one more than the loops that there is room for, and 0 where
// there are too many already.
fn add_segments(
    segs: Option<&Segs>,
    n: Needle,
    room: u16,
    entries: &mut NeedleList,
) -> Result<u16, NoMemory>
    ensures entries { OnOk result (entries.new ≡ entries.old ++ entry_needles_of (segs_or_own (option_copied segs.entry) n)) }
    ensures room { IfOk result (λ left. left ≡ room - new_of (segs_or_own (option_copied segs.entry) n)) }
{
    match segs {
        Some(segs) => add_segs(segs.as_slice(), room, entries),
        None => {
            add_needle(n, entries)?;
            Ok(room)
        }
    }
}

fn add_segs(segs: &[Seg], room: u16, entries: &mut NeedleList) -> Result<u16, NoMemory>
    ensures entries { OnOk result (entries.new ≡ entries.old ++ entry_needles_of segs.now) }
    ensures room { IfOk result (λ left. left ≡ room - new_of segs.now) }
{
    let mut left = room;
    for seg in segs {
        match *seg {
            Seg::Entry(n) => add_needle(n, entries)?,
            Seg::New(_) => left = left.saturating_sub(1),
        }
    }
    Ok(left)
}

fn add_needle(n: Needle, entries: &mut NeedleList) -> Result<(), NoMemory>
    ensures { OnOk result (entries.new ≡ entries.old ++ n ∷ []) }
{
    if entries.len() == u32::MAX {
        return Err(NoMemory);
    }
    entries.push(n)
}
