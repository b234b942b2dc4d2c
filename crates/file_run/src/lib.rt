//! What is made of a file while its lines come.
//!
//! Promises that a `Runner`, which is the work of a `FileReader`, comes to what one carriage makes of the file's body, carried out line by
//! line from empty beds: the verdict, the loops where these are asked for, and the line that broke a rule; and that a `Taker` beside the
//! carriage has taken the reading of each line: a tally of the operations and their passes, or nothing.
//! Definitions: `specs/Bodies` (the lines behind a head, and the verdict on them), `specs/Judgements` (that verdict with its loops) and
//! `specs/Runs` (what a runner stands at, and what it comes to). Below it stand `knit_base`, `line_cutter`, `knitout_reader`,
//! `carriage_model`, `pass_grouping` and, for the statement of a verdict alone, `block_summary`.
#![tactic(auto)]

mod body_run;
mod judgement;
mod runner;
mod taker;

pub use judgement::{Judgement, Run};
pub use runner::Runner;
pub use taker::{Nothing, Taker};
