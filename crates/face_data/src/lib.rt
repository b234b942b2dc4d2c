//! What a block of lines does to a machine's state, kept as a face: conditions on the state at its entry, and changes.
//!
//! Promises that `Symbols` keeps the segments of each needle that was touched, and that `ask_size` tells how many loops needles may
//! hold at entry so that they hold few enough now. `ShortList` is the list of an instruction's few conditions and changes: it
//! promises that its first two items take no memory but its own. A `Digest` tells what conditions that are kept say of another
//! one that isn't on sizes, `Effect::bearing_on` what a block says of one that is asked after it, and `Effect::then` puts two
//! effects together. `Lasts` keeps the last needles of carriers, and `last_bearing` tells what they say of a condition on one. A `Face`
//! owns the lists of a summary. `segs_through` tells segments of later lines from the entry of earlier ones, and `loops_of` those of a
//! block that was entered on empty beds. `verdict_of`, `brief_of` and `loops_on` tell what a program comes to whose good face is known,
//! run from empty beds: its verdict, the same in short, and the loops that a needle holds.
//!
//! Definitions: `specs/Segments` (what needles hold, in terms of the entry), `specs/Conditions`, `specs/Summaries` (what a
//! block makes of a state), `specs/View` (a face's lists), `specs/Lasts` (last needles), `specs/Goodness` with `specs/Bearings` and
//! `specs/Sets`, and `specs/Storage` (where a short list's items lie). Of two blocks, one after the other: `specs/Through` and `specs/Answers`
//! (segments and conditions of the second in terms of the first one's entry) and `specs/Composition` (`composed`).
//! `specs/Stands` says which lines a summary stands for, `specs/Drafts` makes it of single lines, `specs/Items` counts its items,
//! `specs/Digests` and `specs/Chains` find what is known of a condition without going through all that are kept, `specs/Verdicts`
//! says what a summary tells of empty beds, and `specs/Spots` gives each needle a place in one row.
//!
//! Lemmas that the crates above cite: `proofs/Goodness` (two good summaries compose to a good one, which does what both do, one
//! after the other), `proofs/Stands` (it stands for the lines of both), `proofs/Drafts`, `proofs/Items` (a good summary has at
//! most so many items), `proofs/KnownAnswers` (digest and chains tell what is known while conditions are read), `proofs/Front`
//! (nothing is left to ask), `proofs/ChangeEquality` (changes in order are known by what they say of each needle),
//! `proofs/Parts` (one more check or change behind a face's lists), `proofs/EmptyBeds` (the verdict is that on all lines that the
//! summary stands for, and its loops can be counted in 32 bits), `proofs/FaceOffsets` and `proofs/NeedleSpots` (numbers of lines
//! and of needles are small). Below this crate stand std, `knit_base` and `carriage_model`.
#![tactic(auto)]

mod bearing;
mod digest;
mod effect;
mod face;
mod lasts;
mod needle_loops;
mod owned;
mod read_through;
mod short_list;
mod sizes;
mod storage;
mod symbols;
mod verdicts;

pub use bearing::Bearing;
pub use digest::Digest;
pub use face::{
    Change, Check, Cond, CondList, Effect, Ending, FaceView, Last, LastList, Part, Seg, Segs,
};
pub use lasts::{Lasts, last_bearing};
pub use needle_loops::loops_on;
pub use owned::Face;
pub use read_through::segs_through;
pub use short_list::ShortList;
pub use sizes::{NeedleList, SizeAsk, SizeAsks, ask_size};
pub use symbols::{SymbolList, Symbols, slot_of};
pub use verdicts::{brief_of, loops_of, verdict_of};
