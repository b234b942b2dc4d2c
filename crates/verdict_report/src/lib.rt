//! What the program writes: verdicts as text and as JSON, passes, what is made of a made program, what became of a document that
//! sessions edited, and the lines of its refusals.
//!
//! Promises that each report is appended whole, byte for byte as the definitions say, or not at all. That on a document tells the
//! replies and the journal that it is given, and a verdict on the lines that the journal leaves. Definitions: `specs/VerdictText` and
//! `specs/Refusals` (the lines), `specs/VerdictJson` (the value whose compact text is written), `specs/Carriers` (sets of carriers by
//! name), `specs/PassesText`, `specs/MadeText` and `specs/LiveText`; `specs/JsonText` is for private clauses alone. Below it stand
//! `knit_base`, `carriage_model`, `pass_grouping`, `edit_journal`, `script_reader`, `edit_book`, `serde_json`, which writes the
//! strings, and `json`, whose `quoted` says how.
#![tactic(auto)]

mod as_json;
mod brief;
mod carriers;
mod entries;
mod json_items;
mod json_list;
mod json_loops;
mod live;
mod made;
mod passes;
mod refusal;
mod replies;
mod sessions;
mod strip;
mod text;

pub use as_json::{json_of, report_json};
pub use brief::report_brief;
pub use entries::report_journal;
pub use live::{final_of, live_of, report_end, report_live};
pub use made::made_of;
pub use passes::{passes_of, passes_told, report_passes};
pub use refusal::{Refusal, report_refusal};
pub use replies::report_reply;
pub use sessions::report_told;
pub use text::{report_text, text_of};
