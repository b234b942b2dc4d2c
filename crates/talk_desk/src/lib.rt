//! The desk of a conversation: what its lines ask for is answered and said here, one thing after the other.
//!
//! Promises that each step of a session has the answer at the journal that the orders before it left, or want of memory, which changes
//! nothing, and that what is said for it is that answer at the journal behind it; and that the journal and the replies are a legal
//! history, behind the entries that were there when the conversation began (`laws`). Definitions: `specs/Conversation` (what each order is
//! answered, and what is said for it), `specs/LegalConversations` (the history) and `specs/Hosts` (what is kept of a conversation).
//! `proofs/LawfulOrders` shows that lines ask for lawful steps of sessions below 64 alone, `proofs/CutLines` that a line which is kept in
//! part asks for what it should, and `proofs/Talkers` how each session stands behind one more order. Below it stand `edit_groups`, whose
//! steps are taken, `turn_book`, `reply_report`, which says them, `script_reader`, whose orders these are, and `talk_loop`.
#![tactic(auto)]

mod desk;
mod document;
mod host;
pub mod laws;
mod questions;
mod steps;
mod styles;

pub use desk::{AnswerOf, Beginning, OrderOf, TalkDesk};
pub use document::{Document, Style};
pub use host::Host;
pub use questions::take_question;
pub use steps::{Talker, take_long, take_lost, take_step};
pub use styles::say_opened_in;
