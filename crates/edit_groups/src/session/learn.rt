//! What a group or an undo teaches a session.
ghost use Rattle.std.specs.Prelude.{◌≡◌, List, length};
ghost use Rattle.edit_journal.specs.declared.edit.Edit.{Edit};
ghost use Rattle.edit_book.specs.Memory.{Memory};
ghost use Rattle.edit_book.specs.Session.{HasLearned, HasStampRoom};
ghost use Rattle.edit_groups.specs.Sessions.{done_memory, missed_memory};
ghost use Rattle.edit_groups.specs.Turns.{IsTaught, ids_drawn, taught_block, undone_head, undone_memory};

use crate::reply::GroupReply;
use carriage_model::Brief;
use edit_book::Reply;
use edit_book::sessions::Learned;
use script_reader::Command;

/// What a group that was done teaches: of each edit what it would teach alone. The first is the entry with this number, and so many ids
/// were drawn before it.
pub(crate) fn learn_done(
    learned: &mut Learned,
    commands: &[Command],
    from: u32,
    ids: u32,
    brief: Brief,
)
    requires room { HasStampRoom (length commands.now) learned.old }
    ensures learned { (m : Memory) (edits : List Edit) → HasLearned learned.old m → IsTaught m from ids commands.now edits → HasLearned learned.new (done_memory m from brief commands.now edits) }
    ensures head { (m : Memory) (edits : List Edit) → HasLearned learned.old m → IsTaught m from ids commands.now edits → learned.new.head ≡ learned.old.head }
{
    let mut version = from;
    let mut next_id = ids;
    for command in commands {
        let block = taught_block(learned, command, next_id);
        let accepted = Reply::Accepted {
            version,
            block,
            brief,
        };
        learned.learn(command, &accepted);
        next_id = next_id.saturating_add(ids_drawn(command));
        version = version.saturating_add(1);
    }
}

// The block of an edit that was done: the one that a put's name means, or the next id.
fn taught_block(learned: &Learned, command: &Command, next_id: u32) -> u32
    ensures { (m : Memory) → HasLearned learned.now m → result ≡ taught_block m command.now next_id }
{
    match command {
        Command::Put(name, _) => learned.named(name).unwrap_or(0),
        _ => next_id,
    }
}

// How many ids the command draws.
fn ids_drawn(command: &Command) -> u32
    ensures { result ≡ ids_drawn command.now }
{
    match command {
        Command::Add(_, _) => 1,
        _ => 0,
    }
}

/// What an undo teaches, where it is known whether that was to put a text back: the stamp that the block then has.
pub(crate) fn learn_undo(learned: &mut Learned, last_put: bool, reply: &GroupReply)
    requires room { HasStampRoom 1 learned.old }
    ensures learned { (m : Memory) → HasLearned learned.old m → HasLearned learned.new (undone_memory m last_put reply.now) }
    ensures head { learned.new.head ≡ undone_head last_put reply.now learned.old.head }
{
    if last_put {
        if let GroupReply::One(Reply::Accepted { version, block, .. }) = reply {
            learned.learn_put(*block, *version);
        }
    }
}

/// What a group that wasn't done teaches: its adds made no block.
pub(crate) fn learn_missed(learned: &mut Learned, commands: &[Command])
    ensures learned { (m : Memory) → HasLearned learned.old m → HasLearned learned.new (missed_memory m commands.now) }
    ensures head { learned.new.head ≡ learned.old.head }
{
    for command in commands {
        learned.learn(command, &Reply::NoMemory);
    }
}
