//! What the program answers: to a file, to a script, and where a program is to be made.
//!
//! Promises that the text and the status of an answer are those that are due: for a file whose verdict, canonical text or passes are
//! asked for (`specs/Due`), for a made program (`specs/DueMade`), for a script, whose sessions edit one document, each in a thread of
//! its own (`specs/DueLive`, and `specs/DueGroups` where it has groups of edits and undos), and for a saved text, of which the verdict
//! at its end is asked for (`specs/DueReplay`), or what some of its blocks come to (`specs/DueTally`).
//! What is saved can be replayed, to the verdict at its end (`specs/SavedLaws`). What the words ask for is in `specs/Asked`. No source
//! is touched here, and no sink. Below it stand all crates of the project but `check_main`.
#![tactic(auto)]

mod answers;
mod body;
mod by_book;
mod ending;
mod file_answers;
mod file_outcome;
mod groups;
mod judge;
pub mod laws;
mod live;
mod live_text;
mod made;
mod opening;
mod operation_list;
mod outcome;
mod passes;
mod plan;
mod replay;
mod tally;

pub use answers::{answer_by_blocks, refusal_of_head, refusal_of_lines, refusal_of_size};
pub use ending::{Answer, Ending};
pub use file_answers::{answer_check, answer_passes, answer_text, writer};
pub use file_outcome::runner;
pub use groups::answer_groups;
pub use judge::Style;
pub use live::answer_live;
pub use live_text::LiveOutput;
pub use made::answer_made;
pub use opening::{OpenedBook, open};
pub use outcome::{GroupOutcome, Outcome, Status};
pub use plan::{Plan, PlanFault, plan_of, reads_file};
pub use replay::{answer_replay, refusal_of_journal, saved_in};
pub use tally::answer_tally;
