//! A book on which groups of edits are carried out, and edits undone.
ghost use Rattle.std.specs.Prelude.{◌≡◌, ◌<◌, ◌≤◌, ◌+◌, [], ◌∷◌, IfOk, Ok, length};
ghost use Rattle.std.specs.Option.{option_to_list};
ghost use Rattle.edit_book.specs.Replies.{edit_of, request_of_command};
ghost use Rattle.edit_book.specs.Turns.{IsFitBookCommand};
ghost use Rattle.edit_book.specs.Work.{command_limit};
ghost use Rattle.edit_groups.specs.Answers as asked;
ghost use Rattle.edit_groups.specs.Chunks.{earlier_steps, entries_of_chunks, undoable_in};
ghost use Rattle.edit_groups.specs.Groups.{IsStepTaken, number_kept};

use crate::chunk::{Chunk, ChunkList, EditList};
use crate::reply::GroupReply;
use edit_book::{Book, BookCommand, Reply};
use edit_journal::Edit;
use knit_base::{ListOf, NoMemory, Steps};
use std::alloc::Global;
use std::marker::Model;
use std::sync::ledger::Ledger;
use turn_book::Booked;

/// A book, and the edits of each step that was accepted. The journal of the book is these edits in their order.
#[derive(Drop)]
pub struct GroupBook {
    pub(crate) book: Book,
    pub(crate) chunks: Vec<Chunk>,
    // for each session the number of the entry that its undo undoes, or 0
    pub(crate) undoable: [u32; 64],
    pub(crate) alloc: Global,
}

impl Model for GroupBook {
    ghost use Rattle.std.specs.Coded.{codes};
    ghost use Rattle.tree_shape.specs.View.{tree_code};
    ghost use Rattle.edit_groups.specs.Groups.{GroupView, IsGroupBookKept};

    ghost Value = { GroupView };

    ghost view = { λ b. record { opening = b.book.opening; chunks = b.chunks.items } };

    ghost invariant = { λ b. IsGroupBookKept b.book b.chunks.items b.undoable };
}

impl GroupBook {
    /// A book that nobody has edited yet. Takes no memory.
    pub fn of(alloc: Global, book: Book) -> GroupBook
        requires { book.entries ≡ [] }
        ensures opening { result.opening ≡ book.opening }
        ensures chunks { result.chunks ≡ [] }
    {
        GroupBook {
            book,
            chunks: Vec::new(alloc),
            undoable: [0; 64],
            alloc,
        }
    }

    /// The book of a document that is opened with this journal: its entries are earlier steps, which no session undoes. The only error is
    /// want of memory.
    pub fn resume(alloc: Global, book: Book) -> Result<GroupBook, NoMemory>
        ensures opening { IfOk result (λ resumed. resumed.opening ≡ book.opening) }
        ensures chunks { IfOk result (λ resumed. resumed.chunks ≡ earlier_steps book.entries) }
    {
        let chunks = earlier_steps(alloc, &book)?;
        Ok(GroupBook {
            book,
            chunks,
            undoable: [0; 64],
            alloc,
        })
    }

    /// The book, whose journal has the edits of all accepted steps. Takes no memory.
    pub fn book(&self) -> &Book
        ensures opening { result.now.opening ≡ self.now.opening }
        ensures entries { result.now.entries ≡ entries_of_chunks self.now.chunks }
    {
        &self.book
    }

    /// The book, and the edits of each step that was accepted. Takes no memory.
    pub fn into_parts(self) -> (Book, ChunkList)
        ensures opening { result.0.opening ≡ self.opening }
        ensures entries { result.0.entries ≡ entries_of_chunks self.chunks }
        ensures chunks { result.1 ≡ self.chunks }
    {
        let GroupBook { book, chunks, .. } = self;
        (book, ListOf::of(chunks))
    }

    /// One command of the book, and its edit as a step where it is accepted.
    pub(crate) fn one<L: Ledger>(
        &mut self,
        number: u32,
        command: BookCommand,
        steps: &mut Steps<L>,
    ) -> GroupReply
        requires number { number < 64 }
        requires fits { IsFitBookCommand self.old.opening (entries_of_chunks self.old.chunks) command }
        ensures opening { self.new.opening ≡ self.old.opening }
        ensures taken { IsStepTaken self.old.opening self.old.chunks number (asked.One (Ok (request_of_command command))) result self.new.chunks }
        ensures steps { steps.new ≤ steps.old + command_limit self.old.opening (entries_of_chunks self.old.chunks) command }
    {
        let Ok(edits) = edits_asked(self.alloc, &command, self.book.ids()) else {
            return GroupReply::NoMemory;
        };
        if self.chunks.reserve(1).is_err() {
            return GroupReply::NoMemory;
        }
        match self.book.act(number, command, steps) {
            Reply::NoMemory => GroupReply::NoMemory,
            Reply::Accepted {
                version,
                block,
                brief,
            } => {
                self.undoable[number as usize] = number_undoable(edits.as_slice(), version);
                self.chunks.push_reserved(Chunk {
                    session: number,
                    edits,
                    earlier: false,
                });
                GroupReply::One(Reply::Accepted {
                    version,
                    block,
                    brief,
                })
            }
            reply => GroupReply::One(reply),
        }
    }
}

// The entries of the book's journal, as earlier steps.
fn earlier_steps(alloc: Global, book: &Book) -> Result<Vec<Chunk>, NoMemory>
    ensures { IfOk result (λ steps. steps.items ≡ earlier_steps book.now.entries) }
{
    let journal = book.journal().try_clone()?;
    let entries = journal.into_entries();
    let mut steps = Vec::with_capacity(alloc, entries.len())?;
    for entry in entries {
        let edits = only(alloc, entry.edit)?;
        steps.push(Chunk {
            session: entry.session,
            edits,
            earlier: true,
        })?;
    }
    Ok(steps)
}

// A list of this edit alone. It has no room for others, since such a list is kept for each step.
fn only(alloc: Global, edit: Edit) -> Result<EditList, NoMemory>
    ensures { IfOk result (λ edits. edits ≡ edit ∷ []) }
{
    let mut edits = ListOf::with_capacity(alloc, 1)?;
    edits.push(edit)?;
    Ok(edits)
}

/// The edit that a command asks for, where it asks for one, with this id for a new block.
pub(crate) fn edits_asked(
    alloc: Global,
    command: &BookCommand,
    ids: u32,
) -> Result<EditList, NoMemory>
    ensures { IfOk result (λ edits. edits ≡ option_to_list (edit_of (request_of_command command.now) ids)) }
{
    match command {
        BookCommand::Put {
            block,
            seen,
            prepared,
            ..
        } => only(
            alloc,
            Edit::Put {
                block: *block,
                seen: *seen,
                text: prepared.text.try_clone()?,
            },
        ),
        BookCommand::Add {
            anchor,
            prepared,
            ..
        } => only(
            alloc,
            Edit::Add {
                anchor: *anchor,
                block: ids,
                text: prepared.text.try_clone()?,
            },
        ),
        BookCommand::Cut { block, seen } => only(
            alloc,
            Edit::Cut {
                block: *block,
                seen: *seen,
            },
        ),
        BookCommand::PutHead { seen, declared, .. } => only(
            alloc,
            Edit::Head {
                seen: *seen,
                declared: declared.try_clone()?,
            },
        ),
        BookCommand::Look(_)
        | BookCommand::LoopAt(_)
        | BookCommand::Verdict
        | BookCommand::LookHead
        | BookCommand::Texts => Ok(ListOf::new(alloc)),
    }
}

/// The number of the entry that an undo of a step with these edits undoes, where this is the number of its first entry, or 0.
pub(crate) fn number_undoable(edits: &[Edit], number: u32) -> u32
    ensures { result ≡ number_kept (undoable_in number edits.now) }
{
    match edits {
        [Edit::Put { .. }] => number,
        [Edit::Add { .. }] => number,
        _ => 0,
    }
}
