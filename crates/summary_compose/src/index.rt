//! Kept conditions on sizes, found by needle.
ghost use Rattle.std.specs.Prelude.{◌≡◌, ◌≤◌, ◌<◌, ◌+◌, ◌^◌, [], ◌∷◌, ◌++◌, length, map, OnOk, nat_le, ◌&&◌};
ghost use Rattle.std.specs.List.{list_any};
ghost use Rattle.knit_base.specs.declared.needle.Needle.{Needle};
ghost use Rattle.summary_compose.specs.Tables.{Leads, IsTableOf, link_needles, note_suits, Note};

use crate::spots::{Table, is_same};
use knit_base::{Needle, NoMemory};
use std::alloc::Global;
use std::marker::Model;

/// One needle of a kept condition: how many needles that names, how many loops it allows them together, and where the needle
/// may stand before.
#[derive(Clone, Copy, Debug, PartialEq, Eq)]
pub struct NeedleLink {
    pub next: usize,
    pub needle: Needle,
    pub len: u32,
    pub most: u8,
}

impl NeedleLink {
    #[inline(always)]
    fn allows(&self, len: u32, most: u8) -> bool
        ensures { result ≡ (nat_le len self.now.len && nat_le self.now.most most) }
    {
        len <= self.len && self.most <= most
    }
}

/// For each needle the kept conditions that name it, the newest first: a table of the last link by needle, and from each link
/// on to the one before it. Nothing is taken out of the table again.
#[derive(Drop)]
pub struct Index {
    table: Table,
    links: Vec<NeedleLink>,
}

impl Model for Index {
    ghost use Rattle.std.specs.Prelude.{map, vec_capacity};
    ghost use Rattle.summary_compose.specs.Tables.{IndexView, note_of, note_room, link_needles, IsTableOf, TableChainsLeadBack};

    ghost Value = { IndexView };

    ghost view = { λ i. record { notes = map note_of i.links.items; room = note_room (vec_capacity i.table.entries) (vec_capacity i.links) } };

    ghost invariant = { λ i. IsTableOf i.table.entries.items (link_needles i.links.items) × TableChainsLeadBack i.links.items };
}

impl Index {
    /// The empty index, which takes no memory.
    pub fn new(alloc: Global) -> Self
        ensures { result.notes ≡ [] }
    {
        Index {
            table: Table::new(alloc),
            links: Vec::new(alloc),
        }
    }

    /// Takes all notes out.
    pub fn clear(&mut self)
        ensures notes { self.new.notes ≡ [] }
        ensures room { self.new.room ≡ self.old.room }
    {
        self.links.clear();
    }

    /// Makes room, and takes all notes out.
    pub fn reserve(&mut self, notes: u64) -> Result<(), NoMemory>
        ensures notes { self.new.notes ≡ [] }
        ensures room { OnOk result (notes ≤ self.new.room) }
        ensures keeps { self.old.room ≤ self.new.room }
    {
        self.links.clear();
        self.table.reserve()?;
        self.links.reserve(notes as usize)?;
        Ok(())
    }

    /// Notes one needle of a kept condition.
    #[inline(always)]
    pub fn note(&mut self, needle: Needle, len: u32, most: u8)
        requires { length self.old.notes < self.old.room }
        ensures notes { self.new.notes ≡ self.old.notes ++ record { needle = needle; len = len; most = most } ∷ [] }
        ensures room { self.new.room ≡ self.old.room }
    {
        let next = self.table.get(needle);
        let place = self.links.len();
        self.table.set(needle, place);
        self.links.push_reserved(NeedleLink {
            next,
            needle,
            len,
            most,
        });
    }

    /// Whether a kept condition names this needle and at least so many needles, and allows at most so many loops.
    #[inline(always)]
    pub fn covers(&self, n: Needle, len: u32, most: u8) -> bool
        ensures { result ≡ list_any (note_suits n len most) self.now.notes }
    {
        let mut limit = self.links.len();
        let mut place = self.table.get(n);
        while place < limit {
            let link = self.links[place];
            if !is_same(link.needle, n) {
                return false;
            }
            if link.allows(len, most) {
                return true;
            }
            limit = place;
            place = link.next;
        }
        false
    }
}
