//! A conversation from its first line to its end: sessions edit one document, and each line is answered before more is heard.
//!
//! Promises, for every port, that the opening is heard and answered as soon as its last line is there, or refused for the cause that
//! holds; that the document is that of the opening text, or that of the saved text with its journal; that whenever more is heard behind
//! it, all has been said that the whole lines heard by then ask for, and nothing else; and that the status is that of how it ended.
//! Definitions: `specs/Served`, over those of `opening_reader` (which lines are an opening), `talk_desk` (what each line is answered) and
//! `talk_loop` (how a conversation goes and ends). Below it stand these, `knit_ports`, `journal_file` (saved texts) and `input_answers`
//! (documents that begin with a text).
#![tactic(auto)]

mod begin;
mod refusals;
mod talk;

pub use talk::serve;
