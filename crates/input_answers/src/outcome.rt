//! How the program ends, and what the sessions of a script did.
ghost use Rattle.std.specs.Prelude.{◌≡◌};
ghost use Rattle.input_answers.specs.Played.{nothing_played, played_by};

use edit_book::Replies;
use edit_groups::{ChunkList, GroupReplies};
use edit_journal::Journal;
use knit_base::{Lines, ListOf};
use script_reader::{GroupScript, Script};
use std::alloc::Global;

/// How the program ends. Each status has an exit status of its own.
#[derive(Clone, Copy, Debug, PartialEq, Eq)]
pub enum Status {
    /// The program is sound, or what was asked for was written.
    Done,
    /// A line of the program breaks a rule.
    Broken,
    /// The words of the command line are outside its grammar, or an option is out of its bounds.
    Usage,
    /// The input is no knitout file, or no script.
    BadInput,
    /// A read failed.
    ReadFault,
    /// A write failed.
    WriteFault,
    /// Memory ran out. Nothing was written.
    NoMemory,
    /// The input has too many bytes, body lines or blocks.
    TooLarge,
}

impl Status {
    ghost use Rattle.input_answers.specs.Codes.{code_of};

    /// The exit status.
    pub fn code(self) -> u8
        ensures { result ≡ code_of self }
    {
        match self {
            Status::Done => 0,
            Status::Broken => 1,
            Status::Usage => 2,
            Status::BadInput => 3,
            Status::ReadFault => 4,
            Status::WriteFault => 5,
            Status::NoMemory => 6,
            Status::TooLarge => 7,
        }
    }
}

/// What a run of the program gives: how it ended, and of a script that was carried out the script, the entries of the journal in
/// which its sessions' edits stand, and the replies to each session. Else these are empty. Of a script of groups that was carried out
/// `groups` has the like.
#[derive(Drop)]
pub struct Outcome {
    pub status: Status,
    pub script: Script,
    pub journal: Journal,
    pub replies: Replies,
    pub groups: Option<GroupOutcome>,
}

/// Of a script of groups that was carried out the script, the edits of each step that was accepted, and the replies to each session.
#[derive(Drop)]
pub struct GroupOutcome {
    pub script: GroupScript,
    pub chunks: ChunkList,
    pub replies: GroupReplies,
}

impl Outcome {
    /// This status, where no script was carried out. It takes no memory.
    pub fn without_sessions(alloc: Global, status: Status) -> Outcome
        ensures status { result.status ≡ status }
        ensures played { played_by result ≡ nothing_played }
    {
        let script = Script {
            text: Lines::new(alloc),
            sessions: ListOf::new(alloc),
        };
        Outcome {
            status,
            script,
            journal: Journal::new(alloc),
            replies: Replies::of(Vec::new(alloc)),
            groups: None,
        }
    }
}
