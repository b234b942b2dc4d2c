//! The passes of the carriage: the fewest that carry out a program's operations in their order, with a certificate of it.
//!
//! Promises that `operations`, and `Listing` reading by reading, list the carriage operations of a text exactly, that `check_certificate` answers true exactly
//! for the certificates, that no grouping has fewer passes than one that it accepts, and that `group` gives one with its
//! certificate. `Tally` groups the operations as the readings come, and keeps no list of them: it counts them, the passes and the
//! windows, and tells of each pass what a report says of it.
//! Definitions: `specs/Operations` (what each line is to the carriage), `specs/Listings` (operations listed one by one),
//! `specs/Passes` (one pass, by pairs of operations), `specs/Groupings` (groupings, windows and certificates), `specs/Facts` (what is
//! told of a pass), `specs/Growing` and `specs/Tallies` (operations grouped as they come) and `specs/Told` (what is said of them at the
//! end). Below it stand std and `knit_base`.
#![tactic(auto)]

mod certificate;
mod fact;
mod grouping;
mod growing;
mod listing;
mod operation;
mod pass;
mod tally;

pub use certificate::{Grouping, Starts, Window, Windows, check_certificate, pass_at};
pub use fact::{PassFact, PassFacts, PassYarns};
pub use grouping::group;
pub use growing::{Counts, ToldPasses};
pub use listing::{Listing, operations};
pub use operation::{Class, PassOp, PassOps};
pub use tally::Tally;
