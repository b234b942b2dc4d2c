//! The words of the program's command line.
//!
//! Promises that the words are read as the grammar of the command line reads them: `request` gives the command and its
//! options where the words are in the grammar, and refuses them only where they aren't. Definitions: `specs/Grammar` (what
//! the words spell, from left to right), `specs/Numbers` (the numbers) and `specs/Request` (the commands, and which options
//! go with them). Below it stand `clap`, which no other crate sees, and `machine_profile`.
#![tactic(auto)]

mod arguments;
mod command;
mod fault;
mod given;
mod numbers;
mod reading;

pub use command::{Command, Request};
pub use fault::WordFault;
pub use reading::request;
