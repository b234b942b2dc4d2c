//! What is said of a document whose sessions may make groups of edits: in one report at its end, and reply by reply in a
//! conversation, as text or as JSON.
//!
//! Promises that each thing is appended whole, byte for byte as the definitions say, or not at all; that of a book is said what it
//! is at its version: what a step was answered and where the document is broken, the blocks as they stand, the entries behind a
//! version, the text that a block once got, and the verdict at the end. Definitions: `specs/GroupsText` (the lines of a reply to a
//! step, and the report of a script of groups), `specs/TallyText` (what some blocks come to), `specs/TalkText` (what is said in a
//! conversation), `specs/TalkJson` (the value whose compact text is said in its place) and `specs/TallyJson` (that of some blocks'
//! tally). Below it stand `knit_base`, `carriage_model`, `pass_grouping` (the classes of operations), `block_summary` (what a verdict
//! is), `edit_journal`, `script_reader` (why a line is refused), `edit_book`, `journal_file` (saved texts), `tally_tree`, `edit_groups`,
//! `verdict_report`, and of `serde_json` and `json` what they define.
#![tactic(auto)]

mod blocks;
mod broken;
mod frame;
mod groups;
mod loops;
mod members;
mod questions_json;
mod replies_json;
mod saved_json;
mod since_json;
mod steps;
mod steps_json;
mod strings;
mod tally;
mod tally_json;
mod texts;
mod values;
mod whole;
mod whole_json;

pub use blocks::{say_blocks, say_no_range, say_since};
pub use frame::Frame;
pub use groups::groups_of;
pub use questions_json::{json_blocks, json_no_range, json_no_version, json_text_at};
pub use saved_json::json_saved;
pub use since_json::json_since;
pub use steps::say_step;
pub use steps_json::json_step;
pub use tally::tally_of;
pub use tally_json::json_tally;
pub use texts::{say_saved, say_tally, say_text_at};
pub use whole::{say_bad_line, say_final, say_opened};
pub use whole_json::{json_bad_line, json_final, json_opened};
