//! What a session's command asks of the book.
ghost use Rattle.std.specs.Prelude.{◌≡◌, ◌⊎◌, ℕ, ◌+◌, ◌<◌, ◌≤◌, length, List, Some, Ok, Err, Result, IfOk, IfErr, MatchResult};
ghost use Rattle.edit_journal.specs.declared.edit.Entry.{Entry};
ghost use Rattle.edit_journal.specs.declared.opening.Opening.{Opening};
ghost use Rattle.edit_journal.specs.Documents.{names_given};
ghost use Rattle.edit_book.specs.Replies.{Request, request_of_command};
ghost use Rattle.edit_book.specs.Turns.{IsFitBookCommand};
ghost use Rattle.block_summary.specs.Prepared.{IsPreparedFor};
ghost use Rattle.knit_base.specs.Limits.{IsLawfulProfile};
ghost use Rattle.edit_book.specs.Asking.{CommandAsks, TellsNoHeader};
ghost use Rattle.edit_book.specs.Memory.{Memory, asked_of_book, if_anchored, if_named, if_seen, text_limit, unless_long};
ghost use Rattle.edit_book.specs.Session.{HasLearned, Teaches};
ghost use Rattle.edit_book.specs.declared.reply.Reply.{Reply};
ghost use Rattle.edit_journal.specs.declared.edit.Anchor.{Anchor};

use super::learned::Learned;
use crate::{BookCommand, Reply};
use block_summary::{Draft, PrepareFault, Prepared, prepare_with};
use edit_journal::{Anchor, BlockName};
use knit_base::{BlockText, Declared, Lines, ListOf, NoMemory, Setting, Steps};
use script_reader::{Command, Place};
use std::alloc::Global;
use std::sync::ledger::Ledger;

/// What the command asks of the book, or the reply that the session has without it.
///
/// Its text, if it has one, is prepared here, before the turn is taken.
#[tactic(auto, using(crate::proofs::Asks::asks))]
pub fn ask<L: Ledger>(
    alloc: Global,
    header: &Setting,
    learned: &Learned,
    draft: &mut Draft,
    command: &Command,
    steps: &mut Steps<L>,
) -> Result<BookCommand, Reply>
    requires { IsLawfulProfile header.now.profile }
    ensures fits { IfOk result (λ request. (opening : Opening) (journal : List Entry) → opening.setting.profile ≡ header.now.profile → names_given opening journal learned.now.head ≡ Some header.now.declared → IsFitBookCommand opening journal request) }
    ensures asked { (m : Memory) → HasLearned learned.now m → MatchResult result (λ request. asked_of_book m command.now ≡ Ok (request_of_command request)) (λ reply. (reply ≡ Reply.NoMemory) ⊎ (asked_of_book m command.now ≡ Err reply)) }
    ensures kind { IfOk result (λ request. CommandAsks command.now (request_of_command request)) }
    ensures untold { IfErr result TellsNoHeader }
{
    match command {
        Command::Look(name) => match known(learned, *name) {
            Ok(id) => Ok(BookCommand::Look(id)),
            Err(reply) => Err(reply),
        },
        Command::Put(name, text) => ask_put(alloc, header, learned, draft, *name, text, steps),
        Command::Add(place, text) => ask_add(alloc, header, learned, draft, *place, text, steps),
        Command::Cut(name) => match seen(learned, *name) {
            Ok((block, seen)) => Ok(BookCommand::Cut { block, seen }),
            Err(reply) => Err(reply),
        },
        Command::LoopAt(line) => Ok(BookCommand::LoopAt(*line)),
        Command::Verdict => Ok(BookCommand::Verdict),
        Command::LookHead => Ok(BookCommand::LookHead),
        Command::PutHead(declared) => ask_put_head(alloc, learned, declared),
    }
}

#[tactic(auto, using(crate::proofs::Asks::asks))]
fn ask_put<L: Ledger>(
    alloc: Global,
    setting: &Setting,
    learned: &Learned,
    draft: &mut Draft,
    name: BlockName,
    text: &Lines,
    steps: &mut Steps<L>,
) -> Result<BookCommand, Reply>
    requires { IsLawfulProfile setting.now.profile }
    ensures fits { IfOk result (λ request. (opening : Opening) (journal : List Entry) → opening.setting.profile ≡ setting.now.profile → names_given opening journal learned.now.head ≡ Some setting.now.declared → IsFitBookCommand opening journal request) }
    ensures asked { (m : Memory) → HasLearned learned.now m → MatchResult result (λ request. asked_of_book m (Command.Put name text.now) ≡ Ok (request_of_command request)) (λ reply. (reply ≡ Reply.NoMemory) ⊎ (asked_of_book m (Command.Put name text.now) ≡ Err reply)) }
    ensures kind { IfOk result (λ request. CommandAsks (Command.Put name text.now) (request_of_command request)) }
    ensures untold { IfErr result TellsNoHeader }
{
    let (block, seen) = match seen(learned, name) {
        Ok(found) => found,
        Err(reply) => return Err(reply),
    };
    match prepared(alloc, setting, draft, text, steps) {
        Ok(prepared) => Ok(BookCommand::Put {
            block,
            seen,
            head: learned.head,
            prepared,
        }),
        Err(reply) => Err(reply),
    }
}

#[tactic(auto, using(crate::proofs::Asks::asks))]
fn ask_add<L: Ledger>(
    alloc: Global,
    setting: &Setting,
    learned: &Learned,
    draft: &mut Draft,
    place: Place,
    text: &Lines,
    steps: &mut Steps<L>,
) -> Result<BookCommand, Reply>
    requires { IsLawfulProfile setting.now.profile }
    ensures fits { IfOk result (λ request. (opening : Opening) (journal : List Entry) → opening.setting.profile ≡ setting.now.profile → names_given opening journal learned.now.head ≡ Some setting.now.declared → IsFitBookCommand opening journal request) }
    ensures asked { (m : Memory) → HasLearned learned.now m → MatchResult result (λ request. asked_of_book m (Command.Add place text.now) ≡ Ok (request_of_command request)) (λ reply. (reply ≡ Reply.NoMemory) ⊎ (asked_of_book m (Command.Add place text.now) ≡ Err reply)) }
    ensures kind { IfOk result (λ request. CommandAsks (Command.Add place text.now) (request_of_command request)) }
    ensures untold { IfErr result TellsNoHeader }
{
    let anchor = match anchor(learned, place) {
        Ok(anchor) => anchor,
        Err(reply) => return Err(reply),
    };
    match prepared(alloc, setting, draft, text, steps) {
        Ok(prepared) => Ok(BookCommand::Add {
            anchor,
            head: learned.head,
            prepared,
        }),
        Err(reply) => Err(reply),
    }
}

// Other names of the header, with no block's summary under them.
fn ask_put_head(alloc: Global, learned: &Learned, declared: &Declared) -> Result<BookCommand, Reply>
    ensures fits { IfOk result (λ request. (opening : Opening) (journal : List Entry) → IsFitBookCommand opening journal request) }
    ensures asked { (m : Memory) → HasLearned learned.now m → MatchResult result (λ request. asked_of_book m (Command.PutHead declared.now) ≡ Ok (request_of_command request)) (λ reply. reply ≡ Reply.NoMemory) }
    ensures kind { IfOk result (λ request. CommandAsks (Command.PutHead declared.now) (request_of_command request)) }
    ensures untold { IfErr result TellsNoHeader }
{
    match declared.try_clone() {
        Ok(declared) => Ok(BookCommand::PutHead {
            seen: learned.head,
            declared,
            again: ListOf::new(alloc),
        }),
        Err(NoMemory) => Err(Reply::NoMemory),
    }
}

/// The reply to a put of so many lines, more than a block may have, of which none is read. The name is asked first, as of each put.
#[tactic(auto, using(crate::proofs::Asks::long_text))]
pub fn put_too_long(learned: &Learned, name: BlockName, lines: u32) -> Reply
    requires long { text_limit < lines }
    ensures asked { (m : Memory) (text : List (List ℕ)) → HasLearned learned.now m → length text ≡ lines → asked_of_book m (Command.Put name text) ≡ Err result }
    ensures untaught { Teaches result → ⊥ }
    ensures untold { TellsNoHeader result }
{
    match seen(learned, name) {
        Ok(_) => Reply::BlockLong { lines },
        Err(reply) => reply,
    }
}

/// The same of an add, whose place is asked first.
#[tactic(auto, using(crate::proofs::Asks::long_text))]
pub fn add_too_long(learned: &Learned, place: Place, lines: u32) -> Reply
    requires long { text_limit < lines }
    ensures asked { (m : Memory) (text : List (List ℕ)) → HasLearned learned.now m → length text ≡ lines → asked_of_book m (Command.Add place text) ≡ Err result }
    ensures untaught { Teaches result → ⊥ }
    ensures untold { TellsNoHeader result }
{
    match anchor(learned, place) {
        Ok(_) => Reply::BlockLong { lines },
        Err(reply) => reply,
    }
}

// The block that a name means.
#[tactic(auto, using(crate::proofs::Asks::names))]
fn known(learned: &Learned, name: BlockName) -> Result<u32, Reply>
    ensures untaught { IfErr result (λ reply. Teaches reply → ⊥) }
    ensures untold { IfErr result TellsNoHeader }
    ensures known { (m : Memory) (ask : ℕ → Result Request Reply) → HasLearned learned.now m → MatchResult result (λ id. if_named m name ask ≡ ask id) (λ reply. if_named m name ask ≡ Err reply) }
{
    match learned.named(&name) {
        Some(id) => Ok(id),
        None => Err(Reply::Unseen { name }),
    }
}

// The block that a name means, and the stamp that the session knows of it.
#[tactic(auto, using(crate::proofs::Asks::names))]
fn seen(learned: &Learned, name: BlockName) -> Result<(u32, u32), Reply>
    ensures untaught { IfErr result (λ reply. Teaches reply → ⊥) }
    ensures untold { IfErr result TellsNoHeader }
    ensures seen { (m : Memory) (ask : ℕ → ℕ → Result Request Reply) → HasLearned learned.now m → MatchResult result (λ found. if_seen m name ask ≡ ask found.0 found.1) (λ reply. if_seen m name ask ≡ Err reply) }
{
    let Some(id) = learned.named(&name) else {
        return Err(Reply::Unseen { name });
    };
    match learned.stamp(id) {
        Some(seen) => Ok((id, seen)),
        None => Err(Reply::Unseen { name }),
    }
}

// Where a place is in the document.
#[tactic(auto, using(crate::proofs::Asks::names))]
fn anchor(learned: &Learned, place: Place) -> Result<Anchor, Reply>
    ensures untaught { IfErr result (λ reply. Teaches reply → ⊥) }
    ensures untold { IfErr result TellsNoHeader }
    ensures anchor { (m : Memory) (ask : Anchor → Result Request Reply) → HasLearned learned.now m → MatchResult result (λ anchor. if_anchored m place ask ≡ ask anchor) (λ reply. if_anchored m place ask ≡ Err reply) }
{
    match place {
        Place::Start => Ok(Anchor::Start),
        Place::After(name) => match known(learned, name) {
            Ok(id) => Ok(Anchor::After(id)),
            Err(reply) => Err(reply),
        },
    }
}

// The text of a block, of which copies share one buffer: such a text is kept in the journal and in the step, and the buffer has no room
// to spare.
fn block_text(alloc: Global, text: &Lines) -> Result<BlockText, NoMemory>
    ensures { IfOk result (λ copy. copy ≡ text.now) }
{
    let lines = text.try_clone()?.into_shared()?;
    BlockText::of(alloc, &lines, 0, lines.len())
}

// A text, prepared in this draft for the setting, or the reply that it is too long.
#[tactic(auto, using(crate::proofs::Asks::texts))]
fn prepared<L: Ledger>(
    alloc: Global,
    setting: &Setting,
    draft: &mut Draft,
    text: &Lines,
    steps: &mut Steps<L>,
) -> Result<Prepared, Reply>
    requires { IsLawfulProfile setting.now.profile }
    ensures fits { IfOk result (λ prepared. IsPreparedFor setting.now.profile setting.now.declared prepared) }
    ensures text { IfOk result (λ prepared. prepared.text ≡ text.now) }
    ensures long { (request : Request) → MatchResult result (λ prepared. unless_long text.now request ≡ Ok request) (λ reply. (reply ≡ Reply.NoMemory) ⊎ (unless_long text.now request ≡ Err reply)) }
    ensures untold { IfErr result TellsNoHeader }
{
    let Ok(copy) = block_text(alloc, text) else {
        return Err(Reply::NoMemory);
    };
    match prepare_with(draft, copy, setting, steps) {
        Ok(prepared) => Ok(prepared),
        Err(PrepareFault::BlockLong { lines }) => Err(Reply::BlockLong { lines }),
        Err(PrepareFault::NoMemory) => Err(Reply::NoMemory),
    }
}
