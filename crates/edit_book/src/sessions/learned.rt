//! What a session has learned from its replies.
ghost use Rattle.std.specs.Prelude.{◌≡◌, ℕ, ◌<◌, ◌≤◌, ◌+◌, nat_eq, Some, IsSome, length};
ghost use Rattle.std.specs.Bool.{OnTrue};
ghost use Rattle.std.specs.HashMap.{get, spare};
ghost use Rattle.edit_journal.specs.declared.opening.Opening.{Opening};
ghost use Rattle.edit_book.specs.Memory.{Memory, first_memory, memory_after, head_told, with_put, with_stamp, with_told, stamp_told_by, block_id_of_name, with_missed};
ghost use Rattle.edit_book.specs.Session.{HasLearned, HasStampRoom, Teaches};

use crate::Reply;
use edit_journal::{BlockName, HEAD};
use script_reader::Command;
use std::alloc::Global;
use std::collections::HashMap;

/// What a session has learned from its replies. The stamps of the opening blocks are known by their number alone, until a reply tells
/// another. The adds are counted, and those that were accepted are kept by their number: counting takes no memory.
#[derive(Drop)]
pub struct Learned {
    opening: u32,
    stamps: HashMap<u32, u32>,
    // the stamp of the header, which each put and add tells, beside the others
    pub head: u32,
    made: HashMap<u64, u32>,
    adds: u64,
}

fn set_stamp(stamps: &mut HashMap<u32, u32>, block: u32, stamp: u32)
    requires { 0 < spare stamps.old }
    ensures stamps { (id : ℕ) → get nat_eq stamps.new id ≡ with_stamp block stamp (get nat_eq stamps.old) id }
    ensures room { spare stamps.old ≤ spare stamps.new + 1 }
{
    let Ok(_) = stamps.insert(block, stamp) else {
        unreachable!()
    };
}

fn set_made(made: &mut HashMap<u64, u32>, n: u64, block: u32)
    requires { 0 < spare made.old }
    ensures made { (k : ℕ) → get nat_eq made.new k ≡ with_stamp n block (get nat_eq made.old) k }
    ensures room { spare made.old ≤ spare made.new + 1 }
{
    let Ok(_) = made.insert(n, block) else {
        unreachable!()
    };
}

/// The block of which a reply tells the stamp, and that stamp.
fn told(command: &Command, reply: &Reply) -> Option<(u32, u32)>
    ensures told { result ≡ stamp_told_by command.now reply.now }
    ensures teaches { IsSome result → Teaches reply.now }
{
    match reply {
        Reply::Shown { block, stamp, .. } => Some((*block, *stamp)),
        Reply::Accepted { version, block, .. } => match command {
            Command::Put(_, _) => Some((*block, *version)),
            Command::Add(_, _) => Some((*block, *version)),
            Command::PutHead(_) => Some((*block, *version)),
            _ => None,
        },
        _ => None,
    }
}

fn learn_stamp(stamps: &mut HashMap<u32, u32>, told: Option<(u32, u32)>)
    requires { IsSome told → 0 < spare stamps.old }
    ensures stamps { (id : ℕ) → get nat_eq stamps.new id ≡ with_told told (get nat_eq stamps.old) id }
    ensures room { spare stamps.old ≤ spare stamps.new + 1 }
{
    if let Some((block, stamp)) = told {
        set_stamp(stamps, block, stamp);
    }
}

fn learn_head(head: u32, told: Option<(u32, u32)>) -> u32
    ensures { result ≡ head_told told head }
{
    match told {
        Some((HEAD, stamp)) => stamp,
        _ => head,
    }
}

impl Learned {
    /// What is known at the start: stamp 0 of each of so many opening blocks, and stamp 0 of the header. It takes no memory.
    pub(crate) fn start(alloc: Global, blocks: u32) -> Learned
        ensures { (opening : Opening) → length opening.texts ≡ blocks → HasLearned result (first_memory opening) }
    {
        Learned {
            opening: blocks,
            stamps: HashMap::new(alloc),
            head: 0,
            made: HashMap::new(alloc),
            adds: 0,
        }
    }

    /// Makes room for what so many replies can teach.
    pub fn make_room(&mut self, count: u32) -> bool
        ensures kept { (m : Memory) → HasLearned self.old m → HasLearned self.new m }
        ensures head { self.new.head ≡ self.old.head }
        ensures room { OnTrue result (HasStampRoom count self.new) }
    {
        let count = count as usize;
        self.stamps.reserve(count).is_ok() && self.made.reserve(count).is_ok()
    }

    /// The block that a name means.
    pub fn named(&self, name: &BlockName) -> Option<u32>
        ensures { (m : Memory) → HasLearned self.now m → result ≡ block_id_of_name m name.now }
    {
        match name {
            BlockName::Id(id) => Some(*id),
            BlockName::Own(n) => self.made.get(&(*n as u64)).copied(),
        }
    }

    /// The stamp that the session knows of a block.
    pub fn stamp(&self, id: u32) -> Option<u32>
        ensures { (m : Memory) → HasLearned self.now m → result ≡ m.stamps id }
    {
        match self.stamps.get(&id) {
            Some(stamp) => Some(*stamp),
            None if id < self.opening => Some(0),
            None if id == HEAD => Some(0),
            None => None,
        }
    }

    /// Learns from a reply to a command.
    #[tactic(auto, using(crate::proofs::OwnBlocks::made, crate::proofs::Stamps::stamps))]
    pub fn learn(&mut self, command: &Command, reply: &Reply)
        requires { Teaches reply.now → HasStampRoom 1 self.old }
        ensures learned { (m : Memory) → HasLearned self.old m → HasLearned self.new (memory_after m command.now reply.now) }
        ensures room { (more : ℕ) → HasStampRoom (more + 1) self.old → HasStampRoom more self.new }
        ensures head { self.new.head ≡ head_told (stamp_told_by command.now reply.now) self.old.head }
    {
        let told = told(command, reply);
        self.head = learn_head(self.head, told);
        learn_stamp(&mut self.stamps, told);
        if let Command::Add(_, _) = command {
            self.adds = self.adds.saturating_add(1);
            if let Reply::Accepted { block, .. } = reply {
                set_made(&mut self.made, self.adds, *block);
            }
        }
    }

    /// Learns that so many adds made no block, of which no reply tells one by one.
    #[tactic(auto, using(crate::proofs::OwnBlocks::missed_adds))]
    pub fn learn_missed(&mut self, adds: u32)
        ensures learned { (m : Memory) → HasLearned self.old m → HasLearned self.new (with_missed adds m) }
        ensures head { self.new.head ≡ self.old.head }
    {
        self.adds = self.adds.saturating_add(u64::from(adds));
    }

    /// Learns that a block got this stamp, otherwise than by a command: an undo put its text back.
    #[tactic(auto, using(crate::proofs::Stamps::stamps))]
    pub fn learn_put(&mut self, block: u32, stamp: u32)
        requires { HasStampRoom 1 self.old }
        ensures learned { (m : Memory) → HasLearned self.old m → HasLearned self.new (with_put block stamp m) }
        ensures head { self.new.head ≡ head_told (Some (block, stamp)) self.old.head }
    {
        let told = Some((block, stamp));
        self.head = learn_head(self.head, told);
        learn_stamp(&mut self.stamps, told);
    }
}
