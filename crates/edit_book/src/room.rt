//! Room for a put, made before it.
ghost use Rattle.std.specs.Prelude.{◌≡◌, ◌↔◌, true, IsOk, OnOk};
ghost use Rattle.edit_book.specs.Books.{HasMoreRoom, IsReadyToPut};

use crate::Book;
use block_summary::Prepared;
use knit_base::NoMemory;

impl Book {
    /// Whether a put of this text at the block takes no memory. For a block that isn't there it is true.
    pub fn ready(&self, block: u32, prepared: &Prepared) -> bool
        ensures { (result ≡ true) ↔ IsReadyToPut self.now block prepared.now.face }
    {
        let Some(at) = self.outline.place(block) else {
            return true;
        };
        let need = self.tree.need_replace(at as u32, &prepared.face.view());
        self.outline.has_room() && self.tree.meets(&need)
    }

    /// Makes room for a put of this text at the block, and changes nothing else. What is ready, for this block or another, stays so until
    /// the next edit that is accepted. Where it is ready already, as for a block that isn't there, it is `Ok`.
    pub fn warm(&mut self, block: u32, prepared: &Prepared) -> Result<(), NoMemory>
        ensures ok { OnOk result (IsReadyToPut self.new block prepared.now.face) }
        ensures ready { IsReadyToPut self.old block prepared.now.face → IsOk result }
        ensures keeps { HasMoreRoom self.old self.new }
        ensures opening { self.new.opening ≡ self.old.opening }
        ensures entries { self.new.entries ≡ self.old.entries }
    {
        let Some(at) = self.outline.place(block) else {
            return Ok(());
        };
        self.outline.reserve_entry()?;
        self.tree.reserve_replace(at as u32, &prepared.face.view())
    }
}
