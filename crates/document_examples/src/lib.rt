//! Worked examples of documents, each a test of what no report of the program shows: turns, sessions whose order a gate directs, books
//! that make room for a text, list their blocks and are copied, and the limits on an edit's steps as numbers.
//!
//! Each test names public calls alone, so that the crates below are proved without tests. Below it stand std and the crates of
//! documents, with what they stand on.
#![tactic(auto)]

#[cfg(test)]
mod tests;
