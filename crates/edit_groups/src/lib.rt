//! Groups of edits of one book, and undo.
//!
//! Promises that a group is carried out whole or not at all, each of its edits answered as if those before it had been accepted; that an
//! undo puts back the text that the session's last step replaced, or takes out the block that it added, and with nothing behind that
//! step gives the body of before it; that want of memory enters nothing. A `GroupBook` is shared by turns, as a book is; its journal is
//! a list of chunks, one for each step that was accepted. Sessions that share one, each in a thread of its own, leave one legal history
//! of steps, with each session's accepted steps once and in its order, and whose entries fit (`run_groups`). Where one pass has all
//! numbers, a session's step is answered at just the steps that the pass had seen, and leaves its own alone behind them (`do_alone`); one
//! whose text is too long, or was lost to want of memory, leaves none (`refuse_long`, `lose_step`).
//!
//! Definitions: `specs/Chunks` (accepted steps, the journal that they make, and what can be undone), `specs/Answers` (the one reply to
//! a step, and the edits that it leaves), `specs/Groups` (what is seen of the book, what a turn answers, what that needs, how many steps it
//! takes), `specs/Sessions` (what a session hears and remembers, and a legal run), `specs/Shared` (a book behind its lock), `specs/Turns`
//! (what a turn of one edit answers), `specs/Alone` (a session that has the book for itself: what it keeps between its steps, and what a
//! step of it is answered), `specs/Talks` (a session that hasn't begun, and one that is done), `specs/Fitting` (what fits stays fit) and
//! `specs/Laws` (what an undo gives, and what a run's replies say of their entries). For callers, `proofs/OthersStand` says that a
//! session stands behind another's step as before. Below it stand std, `knit_base`, `knit_ports` (gates), `carriage_model`,
//! `knitout_reader`, `face_data`, `block_summary`, `tree_shape`, `edit_journal`, `script_reader`, `edit_book` and `turn_book`.
#![tactic(auto)]

mod alone;
mod book;
mod chunk;
mod group;
pub mod laws;
mod replies;
mod reply;
mod run;
mod session;
mod talk;
mod turns;
mod undo;

pub use alone::{do_alone, lose_step, refuse_long};
pub use book::GroupBook;
pub use chunk::{Chunk, ChunkList, EditList};
pub use replies::GroupReplies;
pub use reply::{GroupCommand, GroupEdit, GroupEdits, GroupReply, Told};
pub use run::run_groups;
pub use session::GroupSession;
