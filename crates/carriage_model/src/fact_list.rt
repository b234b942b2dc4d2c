//! The loops made, in lists that they share, so that no loop takes memory of its own.
ghost use Rattle.std.specs.Prelude.{◌≡◌, ◌+◌, ◌-◌, ◌<◌, ◌^◌, [], ◌∷◌, ◌++◌, length, take, IfOk, OnOk, OnErr, slice_get};
ghost use Rattle.std.specs.Option.{option_map};
ghost use Rattle.carriage_model.specs.FactList.{lent_fact};

use knit_base::{CarrierNo, Dir, Needle, NoMemory};
use std::alloc::Global;
use std::marker::Model;

/// The items of a list from one place to another, which isn't counted.
#[derive(Clone, Copy)]
pub(crate) struct ListStretch {
    pub(crate) start: u32,
    pub(crate) end: u32,
}

/// A loop as it is kept. Its yarns and the loops that it is drawn through are stretches of lists that all loops share.
#[derive(Clone, Copy)]
pub(crate) struct FactHead {
    pub(crate) line: u32,
    pub(crate) needle: Needle,
    pub(crate) dir: Dir,
    pub(crate) yarns: ListStretch,
    pub(crate) through: ListStretch,
}

/// A loop, as `LoopFact`, with lists that are lent.
#[derive(Clone, Copy)]
pub struct FactRef<'a> {
    pub line: u32,
    pub needle: Needle,
    pub dir: Dir,
    pub yarns: &'a [CarrierNo],
    pub through: &'a [u32],
}

/// Loops in the order of their lines. Their yarns stand in one list, and the loops that they are drawn through in another.
#[derive(Drop)]
pub struct Facts {
    heads: Vec<FactHead>,
    yarns: Vec<CarrierNo>,
    through: Vec<u32>,
}

impl Model for Facts {
    ghost use Rattle.std.specs.Prelude.{List, map};
    ghost use Rattle.carriage_model.specs.declared.verdict.LoopFact.{LoopFact};

    ghost Value = { List LoopFact };

    ghost use Rattle.carriage_model.specs.FactList.{fact_with, StoresFacts};

    ghost view = { λ f. map (fact_with f.yarns.items f.through.items) f.heads.items };

    ghost invariant = { λ f. StoresFacts f.heads.items f.yarns.items f.through.items };
}

impl Facts {
    /// No loops, which take no memory.
    pub fn new(alloc: Global) -> Self
        ensures { result ≡ [] }
    {
        Facts {
            heads: Vec::new(alloc),
            yarns: Vec::new(alloc),
            through: Vec::new(alloc),
        }
    }

    pub fn len(&self) -> u32
        ensures { result ≡ length self.now }
    {
        self.heads.len() as u32
    }

    /// The loop at this place, from 0.
    pub fn get(&self, i: u32) -> Option<FactRef<'_>>
        ensures { option_map lent_fact result ≡ slice_get self.now i }
    {
        let head = self.heads.get(i as usize)?;
        let yarns = &self.yarns[head.yarns.start as usize..head.yarns.end as usize];
        let through = &self.through[head.through.start as usize..head.through.end as usize];
        Some(FactRef {
            line: head.line,
            needle: head.needle,
            dir: head.dir,
            yarns,
            through,
        })
    }

    /// Appends a loop. After `NoMemory` the loops are as before; that is also the answer where all loops together would have
    /// more than 4,294,967,295 yarns, or go through more loops than that.
    pub fn push(
        &mut self,
        line: u32,
        needle: Needle,
        dir: Dir,
        yarns: &[CarrierNo],
        through: &[u32],
    ) -> Result<(), NoMemory>
        requires { length self.old < 2 ^ 32 - 1 }
        ensures ok { OnOk result (self.new ≡ self.old ++ record { line = line; needle = needle; dir = dir; yarns = yarns.now; through = through.now } ∷ []) }
        ensures err { OnErr result (self.new ≡ self.old) }
    {
        let head = FactHead {
            line,
            needle,
            dir,
            yarns: stretch_behind(self.yarns.len(), yarns.len())?,
            through: stretch_behind(self.through.len(), through.len())?,
        };
        self.yarns.extend_from_slice(yarns)?;
        self.through.extend_from_slice(through)?;
        self.heads.push(head)?;
        Ok(())
    }

    /// Only so many loops stay, the first of them. The room of the others' yarns isn't given back.
    pub fn truncate(&mut self, count: u32)
        ensures { self.new ≡ take count self.old }
    {
        self.heads.truncate(count as usize);
    }
}

// So many items behind so many others.
fn stretch_behind(before: usize, count: usize) -> Result<ListStretch, NoMemory>
    ensures start { IfOk result (λ stretch. stretch.start ≡ before) }
    ensures end { IfOk result (λ stretch. stretch.end ≡ before + count) }
{
    let most = u32::MAX as usize;
    if before > most || count > most - before {
        return Err(NoMemory);
    }
    Ok(ListStretch {
        start: before as u32,
        end: (before + count) as u32,
    })
}
