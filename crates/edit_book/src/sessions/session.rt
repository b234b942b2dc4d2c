//! What a session keeps between its commands.
ghost use Rattle.std.specs.Prelude.{◌≡◌, IfOk, length};
ghost use Rattle.edit_journal.specs.declared.opening.Opening.{Opening};
ghost use Rattle.edit_book.specs.Memory.{first_memory};
ghost use Rattle.edit_book.specs.Session.{Remembers};

use super::learned::Learned;
use block_summary::Draft;
use knit_base::{Declared, NoMemory, Profile, Setting};
use std::alloc::Global;

/// A session. It keeps the names that belong to its stamp of the header, in a setting whose other parts say nothing: its texts are
/// prepared under these. The draft is room in which they are prepared, one after the other.
#[derive(Drop)]
pub struct Session {
    pub number: u32,
    pub learned: Learned,
    pub header: Setting,
    pub draft: Draft,
}

impl Session {
    /// The session with this number, which knows stamp 0 of each opening block, and stamp 0 of the header, with these names.
    pub fn start(
        alloc: Global,
        number: u32,
        blocks: u32,
        declared: &Declared,
    ) -> Result<Session, NoMemory>
        ensures names { IfOk result (λ session. session.header.declared ≡ declared.now) }
        ensures number { IfOk result (λ session. session.number ≡ number) }
        ensures remembers { IfOk result (λ session. (opening : Opening) → length opening.texts ≡ blocks → Remembers session (first_memory opening)) }
    {
        Ok(Session {
            number,
            learned: Learned::start(alloc, blocks),
            header: Setting {
                profile: Profile::USUAL,
                declared: declared.try_clone()?,
                first: 1,
            },
            draft: Draft::new(alloc),
        })
    }
}
