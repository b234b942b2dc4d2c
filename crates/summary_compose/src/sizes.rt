//! Conditions on sizes against those that are kept.
ghost use Rattle.std.specs.Prelude.{◌≡◌, ◌<◌, ◌≤◌, ◌+◌, ◌^◌, ◌++◌, length, map};
ghost use Rattle.summary_compose.specs.Known.{answer_in, noted_answer};

use crate::index::Index;
use knit_base::Needle;

/// What is known of a condition on sizes: that it holds, that it can't, or how many loops its needles may hold at entry.
#[derive(Clone, Copy, Debug, PartialEq, Eq)]
pub enum SizeWord {
    Holds,
    Fails,
    Asks(u8),
}

/// What the kept conditions say of at most so many loops on these needles, where there are so many new ones beside.
#[inline(always)]
#[tactic(auto, unfolding(crate::specs::Known::noted_answer))]
pub fn word_on(index: &Index, names: &[Needle], new: u64, most: u8) -> SizeWord
    requires { length names.now < 2 ^ 32 }
    ensures { noted_answer index.now.notes names.now new most ≡ answer_in names.now result }
{
    if u64::from(most) < new {
        return SizeWord::Fails;
    }
    let left = most - new as u8;
    match names {
        [] => SizeWord::Holds,
        [first, ..] => {
            if index.covers(*first, names.len() as u32, left) {
                SizeWord::Holds
            } else {
                SizeWord::Asks(left)
            }
        }
    }
}

/// Notes a kept condition on these needles.
#[inline(always)]
pub fn note_each(names: &[Needle], most: u8, index: &mut Index)
    requires few { length names.now < 2 ^ 32 }
    requires room { length index.old.notes + length names.now ≤ index.old.room }
    ensures notes { index.new.notes ≡ index.old.notes ++ map (λ n. record { needle = n; len = length names.now; most = most }) names.now }
    ensures room { index.new.room ≡ index.old.room }
{
    let len = names.len() as u32;
    for n in names {
        index.note(*n, len, most);
    }
}
