//! What the lines of a block ask of the state at its entry, and what they change there; and a block's text, prepared.
//!
//! Promises, for every state of the machine, that the first condition of `ask_instr` that isn't met tells the first rule that
//! the instruction breaks, that the state after it is the one that the answer's changes make, and that the loop that it forms is
//! the one that the answer tells: its needle, direction and carriers, and the loops through which it is drawn. `ask_line` promises
//! the same of each reading of a line. A `Draft` is the summary of the lines read so far: `Draft::line` promises that with one line
//! more it is composed with that line's summary, or that the lines are known to stop at it. `prepare` goes through a text once: it
//! promises that the face stands for the text's lines from every state, is good and has a bounded number of items, that the table
//! of loops stands for them, that a text of too many lines is refused and no other, and that a line costs at most one step.
//! `prepare_with` promises the same of a draft that was used before, and `prepare_part` of some lines of a text, as of a text of these lines alone.
//!
//! Definitions: `specs/Asks` (what a line asks and changes), `specs/LineSummaries` (the summary of a line and of a block),
//! `specs/DraftKnowledge` (what is known of lines, and of conditions that were asked), `specs/LineEnds` (how a line ends that is read
//! after others), `specs/Prepared` (what is made of a text), `specs/Verdicts` (the verdict on lines), and `specs/Segments`,
//! `specs/Conditions`, `specs/Summaries`, `specs/Stands` and `specs/Goodness` of `face_data` and `specs/Tables` of `loop_history`.
//! Lemmas that the crates above cite: `proofs/LineStands`, `proofs/LineGoodness` (the summary of a line and of a block stands for its
//! lines and is good), `proofs/LineFront` (a line that asks nothing new), `proofs/KnownNeedles` and `proofs/BedNeedles` (lines name
//! needles whose numbers have 16 bits). Below it stand std, `thiserror`, `knit_base`, `carriage_model`, `knitout_reader`, `face_data`,
//! `loop_history` and the crates of the four groups of rules.
#![tactic(auto)]

mod adding;
mod asking;
mod chains;
mod draft;
mod formed;
mod implied;
mod instr_ask;
mod kept;
mod laid;
mod line;
mod line_ask;
mod prepared;
mod room;

pub use draft::Draft;
pub use formed::FormedLoop;
pub use instr_ask::{InstrAsk, ask_instr};
pub use line::DraftedLineEnd;
pub use line_ask::{LineAsk, ask_line};
pub use prepared::{MOST_LINES, PrepareFault, Prepared, prepare, prepare_part, prepare_with};
