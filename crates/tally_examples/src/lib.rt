//! Worked examples of tallies, each a test: what ranges of blocks come to after each kind of edit, that an empty range comes to
//! nothing, and that the sum of two ranges is the range of both.
//!
//! Each expected number was counted by hand from the lines. Each test names public calls alone, so that the crates below are proved
//! without tests. Below it stand std and `tally_tree`, with what that stands on.
#![tactic(auto)]

#[cfg(test)]
mod tests;
