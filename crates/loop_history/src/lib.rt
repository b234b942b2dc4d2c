//! The loops that a block of lines makes, and what each of them is once it is known where the block stands.
//!
//! Promises that a `LoopTable` is a list of rows whose offsets rise, that a row is had for one step and found by its offset for
//! at most 13, that `append_through` puts the rows of a second text behind those of a first one, read through the first one's changes,
//! and that `resolve` tells the loop of a row in every state in which the row's needles hold what it is handed. A table is let go of without
//! reading its rows, where none of them has memory of its own (`row_list`); nothing is proved of that.
//!
//! Definitions: `specs/Rows` (the loop of a row, and which rows a run makes), `specs/Tables` (which lines a table stands for) and
//! `specs/Entries` (what needles hold where a block begins). Lemmas that the crates above cite: `proofs/TableLines` (a table of no
//! line, and of one line more; no more rows than lines) and `proofs/TextTables` (the table of two texts). Below it stand std, `knit_base`, `carriage_model` and `face_data`.
#![tactic(auto)]

mod joining;
mod resolving;
mod row;
mod row_list;
mod table;

pub use resolving::{Entries, resolve};
pub use row::LoopRow;
pub use table::LoopTable;
