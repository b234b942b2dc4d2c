//! A group of edits, carried out on a copy of the book.
ghost use Rattle.std.specs.Prelude.{◌≡◌, ◌⊎◌, ◌<◌, ◌≤◌, ◌+◌, ◌++◌, IfOk, IfErr, IfSome, length, map};
ghost use Rattle.edit_book.specs.Books.{document};
ghost use Rattle.edit_book.specs.declared.reply.Reply.TheVariants as reply;
ghost use Rattle.edit_groups.specs.Answers as asked;
ghost use Rattle.edit_groups.specs.Carried.{IsCarriedOut, IsEditDone, IsFirstRefused, IsAskedRefused, IsStopOf, IsTakenOver, stop_reply};
ghost use Rattle.edit_groups.specs.Chunks.{entries_by, entries_of_chunks, undoable_in};
ghost use Rattle.edit_groups.specs.Groups.{AreFitEdits, IsFitEdit, IsStepTaken, IsUndoable, each_limit, edit_asked, group_edit_limit, group_limit};
ghost use Rattle.edit_groups.specs.declared.group.Stop.TheVariants as stop;

use crate::book::{GroupBook, edits_asked, number_undoable};
use crate::chunk::{Chunk, EditList};
use crate::reply::{GroupEdit, GroupEdits, GroupReply};
use edit_book::{Book, Reply};
use edit_journal::Edit;
use knit_base::{ListOf, NoMemory, Steps};
use std::alloc::Global;
use std::sync::ledger::Ledger;
use turn_book::Booked;

/// Why a group, or an edit of it, wasn't carried out.
#[derive(Drop)]
pub(crate) enum Stop {
    /// The edit with this number, from 1, is answered so.
    Refused { at: u32, reply: Reply },
    NoMemory,
}

impl From<NoMemory> for Stop {
    ghost from_gives = { λ _ s. s ≡ stop.NoMemory };

    fn from(_: NoMemory) -> Self {
        Stop::NoMemory
    }
}

impl GroupBook {
    /// A group, carried out on a copy of the book, which takes the book's place where all edits are accepted. Where the first is refused
    /// nothing is copied.
    pub(crate) fn group<L: Ledger>(
        &mut self,
        number: u32,
        edits: GroupEdits,
        steps: &mut Steps<L>,
    ) -> GroupReply
        requires number { number < 64 }
        requires fits { AreFitEdits self.old.opening (entries_of_chunks self.old.chunks) edits }
        requires some { (0 < length edits) × (length edits ≤ 64) }
        ensures opening { self.new.opening ≡ self.old.opening }
        ensures taken { IsStepTaken self.old.opening self.old.chunks number (asked.Group (map edit_asked edits)) result self.new.chunks }
        ensures steps { steps.new ≤ steps.old + group_limit self.old.opening (entries_of_chunks self.old.chunks) edits }
    {
        let base = self.book.version();
        if let Some(reply) = refused_at_once(&self.book, &edits) {
            return GroupReply::Refused { base, at: 1, reply };
        }
        let Ok(mut copy) = self.book.try_clone(steps) else {
            return GroupReply::NoMemory;
        };
        match carry_out(self.alloc, &mut copy, number, edits, steps) {
            Ok(edits) => self.take_over(number, copy, edits),
            Err(stop) => stop_reply(base, stop),
        }
    }

    // The copy, on which all edits of a group were done, takes the book's place.
    #[inline(never)]
    fn take_over(&mut self, number: u32, copy: Book, edits: EditList) -> GroupReply
        requires number { number < 64 }
        requires opening { copy.opening ≡ self.old.opening }
        requires journal { copy.entries ≡ entries_of_chunks self.old.chunks ++ entries_by number edits }
        requires some { 0 < length edits }
        requires undone { IfSome (undoable_in (length (entries_of_chunks self.old.chunks) + 1) edits) (IsUndoable self.old.opening (entries_of_chunks self.old.chunks ++ entries_by number edits)) }
        ensures opening { self.new.opening ≡ self.old.opening }
        ensures taken { IsTakenOver self.old.opening self.old.chunks number copy.entries edits result self.new.chunks }
    {
        if self.chunks.reserve(1).is_err() {
            return GroupReply::NoMemory;
        }
        let from = self.book.version() + 1;
        let version = copy.version();
        let brief = copy.verdict();
        self.undoable[number as usize] = number_undoable(edits.as_slice(), from);
        self.chunks.push_reserved(Chunk {
            session: number,
            edits,
            earlier: false,
        });
        self.book = copy;
        GroupReply::Done {
            version,
            from,
            brief,
        }
    }
}

// What a group is answered that wasn't carried out.
fn stop_reply(base: u32, stop: Stop) -> GroupReply
    ensures { result ≡ stop_reply base stop }
{
    match stop {
        Stop::Refused { at, reply } => GroupReply::Refused { base, at, reply },
        Stop::NoMemory => GroupReply::NoMemory,
    }
}

// The answer to the first edit, where that refuses it whatever the others are. Other replies than a session's own refusals are told by
// the copy.
fn refused_at_once(book: &Book, edits: &GroupEdits) -> Option<Reply>
    requires { AreFitEdits book.now.opening book.now.entries edits.now }
    ensures { IfSome result (IsFirstRefused book.now.opening book.now.entries (map edit_asked edits.now)) }
{
    match edits.get(0)? {
        GroupEdit::Ready(command) => book.refusal(command),
        GroupEdit::Refused(reply) => own_refusal(reply),
    }
}

// The same refusal, where it is one that a session has itself.
fn own_refusal(reply: &Reply) -> Option<Reply>
    ensures { IfSome result (λ told. told ≡ reply.now) }
{
    match reply {
        Reply::Unseen { name } => Some(Reply::Unseen { name: *name }),
        Reply::BlockLong { lines } => Some(Reply::BlockLong { lines: *lines }),
        _ => None,
    }
}

// Carries out the edits of a group one after the other, up to the first that isn't accepted.
fn carry_out<L: Ledger>(
    alloc: Global,
    book: &mut Book,
    number: u32,
    edits: GroupEdits,
    steps: &mut Steps<L>,
) -> Result<EditList, Stop>
    requires number { number < 64 }
    requires few { length edits ≤ 64 }
    requires fits { AreFitEdits book.old.opening book.old.entries edits }
    ensures opening { book.new.opening ≡ book.old.opening }
    ensures done { IfOk result (λ done. IsCarriedOut book.old.opening number book.old.entries (map edit_asked edits) done book.new.entries) }
    ensures stopped { IfErr result (IsStopOf book.old.opening number book.old.entries (map edit_asked edits)) }
    ensures steps { steps.new ≤ steps.old + each_limit book.old.opening (document book.old) (length book.old.entries) edits }
{
    let mut done = ListOf::new(alloc);
    let mut at = 0;
    for edit in edits.into_vec() {
        at += 1;
        match carry_out_one(alloc, book, number, edit, steps) {
            Ok(edit) => done.push(edit)?,
            Err(Reply::NoMemory) => return Err(Stop::NoMemory),
            Err(reply) => return Err(Stop::Refused { at, reply }),
        }
    }
    Ok(done)
}

// One edit of a group, if it is accepted, or else its answer.
fn carry_out_one<L: Ledger>(
    alloc: Global,
    book: &mut Book,
    number: u32,
    edit: GroupEdit,
    steps: &mut Steps<L>,
) -> Result<Edit, Reply>
    requires number { number < 64 }
    requires fits { IsFitEdit book.old.opening book.old.entries edit }
    ensures opening { book.new.opening ≡ book.old.opening }
    ensures done { IfOk result (λ e. IsEditDone book.old.opening number book.old.entries (edit_asked edit) e book.new.entries) }
    ensures refused { IfErr result (λ told. (told ≡ reply.NoMemory) ⊎ IsAskedRefused book.old.opening number book.old.entries (edit_asked edit) told) }
    ensures steps { steps.new ≤ steps.old + group_edit_limit book.old.opening (document book.old) edit }
{
    let command = match edit {
        GroupEdit::Ready(command) => command,
        GroupEdit::Refused(reply) => return Err(reply),
    };
    let Ok(mut edits) = edits_asked(alloc, &command, book.ids()) else {
        return Err(Reply::NoMemory);
    };
    match book.act(number, command, steps) {
        Reply::Accepted { .. } => match edits.pop() {
            Some(edit) => Ok(edit),
            None => unreachable!(),
        },
        reply => Err(reply),
    }
}
