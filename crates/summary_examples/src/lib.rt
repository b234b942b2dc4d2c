//! Worked examples of summaries, each a test of what no report of the program shows: how lists, digests, effects and faces are kept, what
//! room composing takes, and where loops came from.
//!
//! That a face is good is not assumed: `proofs/PlainLines` proves it of lines that ask nothing. Each test names public calls alone, so that
//! the crates below are proved without tests. Below it stand std, `knit_base`, `carriage_model`, `face_data`, `loop_history` and
//! `summary_compose`.
#![tactic(auto)]

#[cfg(test)]
mod compose_tests;
#[cfg(test)]
mod face_tests;
#[cfg(test)]
mod loop_tests;
