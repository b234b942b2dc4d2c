//! Several texts, or the pieces of a long one, prepared by several threads at once.
//!
//! Promises of the texts together, however they were given out to threads, what `block_summary` promises of one: there is a block of
//! each, in their order, whose text is unchanged and which is prepared for the setting. Where texts have too many lines the first such
//! one is told, and else an error is want of memory. `prepare_wide` promises the same of one text, in however many pieces it is prepared.
//!
//! Definitions: `specs/Texts` (texts that are too long, and blocks that are made of texts), `specs/Faces` (the face of a text, and faces
//! that can be put together), `specs/Pieces` (where pieces begin, and what is made of two that follow one another) and `specs/Prepared`
//! of `block_summary`. Lemmas that the crates above cite: `proofs/LineRanges` (stretches of a list). Below it stand std, `knit_base`,
//! `knitout_reader`, `carriage_model`, `face_data`, `loop_history`, `block_summary` and `summary_compose`.
#![tactic(auto)]

mod pairs;
mod prepare;
mod wide;
mod workers;

pub use prepare::prepare_all;
pub use wide::prepare_wide;
