//! A conversation, from one line to the next: each line is answered, and the answer is said, before more is heard.
//!
//! Promises, for every port (`Talk`) and whoever answers (`Desk`), that whenever more is heard, all has been said that the whole lines
//! heard by then ask for, and nothing else; and tells how the conversation ended. Definitions: `specs/InStep` (what lines ask for, and what
//! is due when) and `specs/Conversed` (how a conversation ends). Below it stand std, `knit_base`, `line_cutter` and `knit_ports`.
#![tactic(auto)]

mod conversation;
mod desk;

pub use conversation::{TalkFault, converse};
pub use desk::Desk;
