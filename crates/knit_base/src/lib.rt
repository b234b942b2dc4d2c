//! The plain values of the checker: needles, carriers, instructions and their readings, texts and their lines.
//!
//! Promises that a contract of a crate above sees each of these types as the plain value that it stands for: a text as its
//! bytes, `Lines` as a list of texts, whether they are shared or not, `Yarns` and every other list type as a list, `Declared` as the
//! list of its names.
//! Definitions: `specs/Needle` (order, beds, sliders, needles that face each other), `specs/Instr` (what an instruction names),
//! `specs/Lawful` (what a machine can be asked to carry out), `specs/Spelling` (how needles, racks and rules are written),
//! `specs/Yarns` (sets of carriers as bits), `specs/Names` (look-up by name), `specs/Reasons` (which rule is broken first),
//! `specs/Lines` (the lines of bytes), `specs/Usual` (what most lines say) and `specs/Limits` (lawful profiles). Below it stand
//! std, `indexmap`, `itoa` and `smallvec`.
#![tactic(auto)]

mod block_text;
mod copies;
mod cut;
mod declared;
mod held;
mod instr;
mod lines;
mod list;
mod memory;
mod needle;
mod profile;
mod rule;
mod setting;
mod spelling;
mod steps;
mod text;
mod usual;
mod yarns;

pub use block_text::BlockText;
pub use declared::{AddName, Declared};
pub use instr::{Instr, Quarter, Read, Reads};
pub use lines::{Lines, Span};
pub use list::ListOf;
pub use memory::NoMemory;
pub use needle::{Bed, Dir, Needle, needle_order};
pub use profile::Profile;
pub use rule::{Fault, Reason, Rule};
pub use setting::Setting;
pub use spelling::{append_labelled, append_needle, append_number, append_rack};
pub use steps::Steps;
pub use text::Text;
pub use usual::Usual;
pub use yarns::{CarrierNo, Yarns, is_in_set};
