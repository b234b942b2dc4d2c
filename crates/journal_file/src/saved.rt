//! What a saved text tells.
use edit_journal::{Journal, TextList};
use knit_base::{Lines, Profile};

/// What a saved text tells: the lines of a head, the limits of the machine, the first blocks, whose ids are 0, 1, 2 and so on and
/// whose stamps are 0, and the journal.
#[derive(Drop)]
pub struct Saved {
    pub head: Lines,
    pub profile: Profile,
    pub blocks: TextList,
    pub journal: Journal,
}
