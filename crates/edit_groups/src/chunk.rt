//! What is kept of accepted steps.
use edit_journal::Edit;
use knit_base::ListOf;

/// Edits, in order.
pub type EditList = ListOf<Edit>;

/// The edits of an accepted step, and the number of the session that made it.
#[derive(Drop)]
pub struct Chunk {
    pub session: u32,
    pub edits: EditList,
    /// Whether the document was opened with it in its journal: then no session undoes it.
    pub earlier: bool,
}

/// The accepted steps, the oldest first.
pub type ChunkList = ListOf<Chunk>;
