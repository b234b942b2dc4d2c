//! The machine that knits: its state, the rules that need it, and the run of a program from empty beds.
//!
//! Promises that a `Carriage` that is given the lines of a program one by one gives the verdict on it, together with the loops
//! that it makes where that is asked, and that it stands as before after want of memory; that `run_plain` gives the verdict on a
//! list of readings, and `fact_plain` the loop of one line, where each carrier that these two name is declared. `Verdict::brief`
//! keeps the counts of a verdict.
//! Definitions: `specs/State` (where a machine stands), `specs/Rules` (which rule a line breaks there: the rules on carriers and
//! the hook, on the rack, on sliders, on sizes, on floats, in this order), `specs/Steps` (what a line does), `specs/Run` (lines one after
//! the other), `specs/Loops` (the loops that they make), `specs/Verdict`, and `specs/Carriage` (which run a carriage stands
//! for). Last needles are kept only where floats have a limit, and `specs/Unseen` says that no verdict shows it, a law of `laws`.
//! `specs/Machine` says which state the code's own `Machine` stands for, `specs/Beds` and `specs/Places` how it keeps the
//! loops on needles, `specs/FactList` how the loops made are kept. Below it stand std and `knit_base`.
#![tactic(auto)]

mod beds;
mod carriage;
mod fact_list;
mod facts;
pub mod laws;
mod machine;
mod rules;
mod run;
mod steps;
mod verdict;

pub use carriage::Carriage;
pub use fact_list::{FactRef, Facts};
pub use facts::fact_plain;
pub use rules::is_near;
pub use run::run_plain;
pub use verdict::{Brief, Final, LoopFact, LoopLines, Stack, Stacks, Verdict};
