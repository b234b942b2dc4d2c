//! The face of one text after another, made of the faces of both.
//!
//! Promises of `compose_into` that the face that it leaves is the composition of the two summaries, that for every state and
//! first line it does what the one text and then the other does, that it is good, that the scratch keeps its room and takes no
//! memory, and that it counts a step for each item of the two faces and of the new one. `room_for` is enough room for it, and
//! the new face fits in it. `compose` promises the same of a face of its own.
//!
//! Definitions: `composed` is `face_data/specs/Composition`, a good face `face_data/specs/Goodness`. `specs/Composing` says what
//! the code asks of two faces and of a scratch, `specs/Rooms` how much room there is, `specs/Changes` and `specs/Known` what is
//! kept on the way, `specs/Tables` where needles are found (by `face_data/specs/Spots`). Lemmas that the crates above cite:
//! `proofs/GoodFaces` (good faces can be composed, to a good face), `proofs/Widths` (how many entries needles hold), `proofs/Rooms`
//! (greater rooms leave no less room) and `proofs/ComposedRooms` (the room of the result is within `room_of_both_faces`). Below it stand
//! std, `knit_base`, `carriage_model` and `face_data`.
#![tactic(auto)]

mod alike;
mod asking;
mod charging;
mod index;
mod joining;
mod kept;
mod laid;
mod making;
mod merging;
mod names;
mod noting;
mod places;
mod reading;
mod room;
mod scratch;
mod sizes;
mod spots;

pub use room::{Room, room_for};
pub use scratch::{Scratch, compose, compose_into};
