//! A saved text, read.
ghost use Rattle.std.specs.Prelude.{◌≡◌, ℕ, List, [], ◌+◌, ◌≤◌, length, map, IfOk, IfErr};
ghost use Rattle.journal_file.specs.EntryForms.{AreEntries};
ghost use Rattle.journal_file.specs.Faults.{AreEntriesFault, IsBadJournal, IsOneSpelling, IsSavedTextRefused};
ghost use Rattle.journal_file.specs.Reading.{FormHasRead, byte_limit};
ghost use Rattle.journal_file.specs.SavedForms.{EntrySaid, entry_said};
ghost use Rattle.journal_file.specs.SavedParts.{IsLawfulSaved, KeepsBounds, MayAllCome, numbered_from, opening_with};
ghost use Rattle.journal_file.specs.Spelling.{saved_spelling};

use crate::entries::read_entries;
use crate::opening::{SavedOpening, read_opening};
use crate::text::Place;
use crate::{JournalFault, Saved};
use edit_book::Outline;
use edit_journal::{BlockAt, Opening, TextList};
use knit_base::{BlockText, Lines, ListOf, NoMemory, Profile, Setting};
use knitout_reader::{HeadFault, read_head};
use std::alloc::Global;

/// What a saved text tells, or its first bad line.
pub fn read_journal(alloc: Global, bytes: &[u8]) -> Result<Saved, JournalFault>
    requires { length bytes.now ≤ byte_limit }
    ensures spelt { IfOk result (λ saved. bytes.now ≡ saved_spelling saved.head saved.profile saved.blocks saved.journal.entries) }
    ensures lawful { IfOk result (λ saved. IsLawfulSaved saved.head saved.profile saved.blocks saved.journal.entries) }
    ensures one { IfOk result (IsOneSpelling bytes.now) }
    ensures bad { IfErr result (IsBadJournal bytes.now) }
    ensures refused { IfErr result (IsSavedTextRefused bytes.now) }
{
    let start = Place {
        rest: bytes,
        taken: 0,
    };
    match read_opening(alloc, start) {
        Ok((opening, at)) => read_behind(alloc, at, opening),
        Err(fault) => Err(fault),
    }
}

// The same, where this stands before the entries.
fn read_behind(
    alloc: Global,
    start: Place<'_>,
    opening: SavedOpening,
) -> Result<Saved, JournalFault>
    requires size { start.taken + length start.rest.now ≤ byte_limit }
    requires bounds { KeepsBounds opening.head opening.profile (numbered_from 0 opening.texts) [] }
    ensures head { IfOk result (λ saved. saved.head ≡ opening.head) }
    ensures profile { IfOk result (λ saved. saved.profile ≡ opening.profile) }
    ensures numbered { IfOk result (λ saved. saved.blocks ≡ numbered_from 0 opening.texts) }
    ensures read { IfOk result (λ saved. (said : List EntrySaid) × (saved.journal.entries ≡ map entry_said said) × (now : ℕ) × FormHasRead (AreEntries opening.entries) start.entry.rest.now start.entry.taken said [] now) }
    ensures come { IfOk result (λ saved. MayAllCome (opening_with opening.head opening.profile opening.texts) [] saved.journal.entries) }
    ensures fault { IfErr result (AreEntriesFault (opening_with opening.head opening.profile opening.texts) opening.entries start.entry.rest.now start.entry.taken) }
{
    let SavedOpening {
        profile,
        head,
        texts,
        entries,
    } = opening;
    let mut outline = open(alloc, profile, &head, texts)?;
    match read_entries(alloc, start, entries, &mut outline) {
        Ok(at) => {
            if at.rest.len() > 0 {
                return Err(at.bad());
            }
            let saved = saved_of(alloc, profile, head, outline)?;
            Ok(saved)
        }
        Err(fault) => Err(fault),
    }
}

/// The outline of a document that begins so.
pub(crate) fn open(
    alloc: Global,
    profile: Profile,
    head: &Lines,
    texts: ListOf<BlockText>,
) -> Result<Outline, NoMemory>
    requires { KeepsBounds head.now profile (numbered_from 0 texts) [] }
    ensures opening { IfOk result (λ outline. outline.opening ≡ opening_with head.now profile texts) }
    ensures entries { IfOk result (λ outline. outline.entries ≡ []) }
{
    match read_head(alloc, head) {
        Ok(read) => {
            let setting = Setting {
                profile,
                declared: read.declared,
                first: head.len() + 1,
            };
            Outline::start(alloc, setting, texts)
        }
        Err(HeadFault::NoMemory) => Err(NoMemory),
        Err(_) => unreachable!(),
    }
}

// What is kept of an outline.
fn saved_of(
    alloc: Global,
    profile: Profile,
    head: Lines,
    outline: Outline,
) -> Result<Saved, NoMemory>
    ensures profile { IfOk result (λ saved. saved.profile ≡ profile) }
    ensures head { IfOk result (λ saved. saved.head ≡ head) }
    ensures numbered { IfOk result (λ saved. saved.blocks ≡ numbered_from 0 outline.opening.texts) }
    ensures entries { IfOk result (λ saved. saved.journal.entries ≡ outline.entries) }
{
    let (opening, journal) = outline.into_parts();
    let Opening { texts, .. } = opening;
    let blocks = numbered(alloc, texts)?;
    Ok(Saved {
        head,
        profile,
        blocks,
        journal,
    })
}

// Blocks of these texts, with the ids 0, 1, 2 and so on, and stamp 0.
fn numbered(alloc: Global, texts: ListOf<BlockText>) -> Result<TextList, NoMemory>
    ensures { IfOk result (λ blocks. blocks ≡ numbered_from 0 texts) }
{
    let mut blocks = ListOf::with_capacity(alloc, texts.len())?;
    for text in texts.into_vec() {
        let block = blocks.len();
        blocks.push(BlockAt {
            block,
            stamp: 0,
            text,
        })?;
    }
    Ok(blocks)
}
