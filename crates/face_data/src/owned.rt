//! A face that owns its lists.
ghost use Rattle.std.specs.Prelude.{◌≡◌, IfOk};
ghost use Rattle.face_data.specs.View.{IsPacked, summary_of};

use crate::{Change, Check, Ending, FaceView, Last, Seg};
use knit_base::{Needle, NoMemory};
use std::alloc::Global;
use std::marker::Model;

/// A face at rest: its lists have no room beyond their items.
#[derive(Drop)]
pub struct Face {
    lines: u32,
    made: u32,
    checks: Vec<Check>,
    names: Vec<Needle>,
    changes: Vec<Change>,
    segs: Vec<Seg>,
    lasts: Vec<Last>,
    ending: Ending,
}

impl Model for Face {
    ghost use Rattle.std.specs.Prelude.{map};
    ghost use Rattle.face_data.specs.Summaries.{Summary};
    ghost use Rattle.face_data.specs.View.{asked_of_check, changed_of, AreNamed, ArePacked};

    ghost Value = { Summary };

    ghost view = { λ f. record { lines = f.lines; made = f.made; checks = map (asked_of_check f.names.items) f.checks.items; changes = map (changed_of f.segs.items) f.changes.items; lasts = f.lasts.items; ending = f.ending } };

    ghost invariant = { λ f. AreNamed f.names.items f.checks.items × ArePacked f.segs.items f.changes.items };
}

impl Face {
    /// A copy of the lists of a view. `NoMemory` says that memory for one of them ran out.
    pub fn of(alloc: Global, view: &FaceView) -> Result<Self, NoMemory>
        requires { IsPacked view.now }
        ensures { IfOk result (λ face. face ≡ summary_of view.now) }
    {
        Ok(Face {
            lines: view.lines,
            made: view.made,
            checks: Vec::from_slice(alloc, view.checks)?,
            names: Vec::from_slice(alloc, view.names)?,
            changes: Vec::from_slice(alloc, view.changes)?,
            segs: Vec::from_slice(alloc, view.segs)?,
            lasts: copied(alloc, view.lasts)?,
            ending: view.ending,
        })
    }

    /// The face as it is read. Takes no memory.
    pub fn view(&self) -> FaceView<'_>
        ensures summary { summary_of result ≡ self.now }
        ensures packed { IsPacked result }
    {
        FaceView {
            lines: self.lines,
            made: self.made,
            checks: &self.checks,
            names: &self.names,
            changes: &self.changes,
            segs: &self.segs,
            lasts: &self.lasts,
            ending: self.ending,
        }
    }
}

// A copy of the list. Most faces change no last needle, and theirs is told without a call.
#[inline(always)]
fn copied(alloc: Global, lasts: &[Last]) -> Result<Vec<Last>, NoMemory>
    ensures { IfOk result (λ list. list.items ≡ lasts.now) }
{
    if lasts.is_empty() {
        return Ok(Vec::new(alloc));
    }
    Ok(Vec::from_slice(alloc, lasts)?)
}
