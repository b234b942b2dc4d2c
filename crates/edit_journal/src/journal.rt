//! The journal of a document's edits.
ghost use Rattle.std.specs.Prelude.{◌≡◌, ◌<◌, ◌≤◌, [], ◌∷◌, ◌++◌, true, length, IsOk, OnOk, IfOk};
ghost use Rattle.std.specs.Option.{option_copied};
ghost use Rattle.edit_journal.specs.Entries.{entry_limit, entry_at};

use crate::Entry;
use knit_base::NoMemory;
use std::alloc::Global;
use std::marker::Model;

/// The entries of all edits that were accepted, the oldest first, at most 1,048,576. Their numbers begin at 1.
#[derive(Drop)]
pub struct Journal {
    entries: Vec<Entry>,
}

impl Model for Journal {
    ghost use Rattle.std.specs.Prelude.{◌≤◌, length, nat_lt, vec_len, vec_capacity};
    ghost use Rattle.edit_journal.specs.Entries.{JournalView, entry_limit};

    ghost Value = { JournalView };

    ghost view = { λ j. record { entries = j.entries.items; room = nat_lt (vec_len j.entries) (vec_capacity j.entries) } };

    ghost invariant = { λ j. length j.entries.items ≤ entry_limit };
}

impl Journal {
    /// A journal with no entry, which takes no memory.
    pub fn new(alloc: Global) -> Self
        ensures { result.entries ≡ [] }
    {
        Journal {
            entries: Vec::new(alloc),
        }
    }

    /// Makes room for one more entry, where it isn't there. Fails where memory runs out, with the journal as before.
    pub fn reserve_one(&mut self) -> Result<(), NoMemory>
        ensures ok { OnOk result (self.new.room ≡ true) }
        ensures entries { self.new.entries ≡ self.old.entries }
        ensures ready { self.old.room ≡ true → IsOk result }
        ensures keeps { self.old.room ≡ true → self.new.room ≡ true }
    {
        if self.has_room() {
            return Ok(());
        }
        self.entries.reserve(1)?;
        Ok(())
    }

    /// Whether one more entry can be appended without memory.
    pub fn has_room(&self) -> bool
        ensures { result ≡ self.now.room }
    {
        self.entries.len() < self.entries.capacity()
    }

    /// Appends an entry. Takes no memory.
    pub fn push(&mut self, entry: Entry)
        requires room { self.old.room ≡ true }
        requires few { length self.old.entries < entry_limit }
        ensures { self.new.entries ≡ self.old.entries ++ entry ∷ [] }
    {
        self.entries.push_reserved(entry);
    }

    /// How many entries there are: the number of the newest one, and the document's version.
    pub fn len(&self) -> u32
        ensures len { result ≡ length self.now.entries }
        ensures few { length self.now.entries ≤ entry_limit }
    {
        self.entries.len() as u32
    }

    /// The entry with this number. Numbers begin at 1; outside 1 to `len` there is none.
    pub fn get(&self, number: u32) -> Option<&Entry>
        ensures { option_copied result ≡ entry_at self.now.entries number }
    {
        if number == 0 {
            return None;
        }
        self.entries.get(number as usize - 1)
    }

    /// The entries alone, the oldest first.
    pub fn into_entries(self) -> Vec<Entry>
        ensures { result.items ≡ self.entries }
    {
        self.entries
    }

    /// A journal with equal entries. Fails where memory runs out.
    pub fn try_clone(&self) -> Result<Self, NoMemory>
        ensures { IfOk result (λ journal. journal.entries ≡ self.now.entries) }
    {
        let mut entries: Vec<Entry> = Vec::with_capacity(
            *self.entries.allocator(),
            self.entries.len(),
        )?;
        for entry in &self.entries {
            entries.push_reserved(entry.try_clone()?);
        }
        Ok(Journal { entries })
    }
}
