//! Worked examples of trees, each a test: which shape a run of insertions and removals leaves, that a tree of summaries has the
//! root that all its leaves have together, whatever was put, added or cut, and a tree of counts their sum, and that a span is
//! filled and given back.
//!
//! That the leaves may stand in one tree is proved: `specs/Plain` is a summary that only sets the rack, and `proofs/PlainLeaves`
//! says beside which leaves it may stand. `specs/Sums` has the laws of the store of counts, and `proofs/Sums` says what a change
//! makes of a sum. Each test names public calls alone, so that the crates below are proved without tests. Below it stand std,
//! `knit_base`, `face_data`, `loop_history`, `tree_shape`, `value_tree`, `span_pool` and `summary_tree`.
#![tactic(auto)]

#[cfg(test)]
mod shape_tests;
#[cfg(test)]
mod span_tests;
#[cfg(test)]
mod summary_tests;
#[cfg(test)]
mod value_tests;
