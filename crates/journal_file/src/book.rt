//! The book of a saved text.
ghost use Rattle.std.specs.Prelude.{◌≡◌, ◌<◌, [], All, IfOk, OnOk};
ghost use Rattle.journal_file.specs.SavedParts.{IsLawfulSaved, IsSpelledEntry, MayAllCome, opening_of_saved};

use crate::Saved;
use crate::read::open;
use check_workers::prepare_all;
use edit_book::{Book, Outline, block_texts};
use edit_journal::Entry;
use knit_base::{NoMemory, Steps};
use std::alloc::Global;
use std::marker::Brand;
use std::sync::ledger::{Blank, Ledger};
use std::thread::Threads;

/// The book with the opening and the journal of a saved text. The blocks that are there at its last version are prepared by several
/// threads at once.
pub fn reopen<R: Threads + Sync>(rt: &R, alloc: Global, saved: Saved) -> Result<Book, NoMemory>
    requires { IsLawfulSaved saved.head saved.profile saved.blocks saved.journal.entries }
    ensures opening { IfOk result (λ book. book.opening ≡ opening_of_saved saved.head saved.profile saved.blocks) }
    ensures entries { IfOk result (λ book. book.entries ≡ saved.journal.entries) }
{
    reopen_counted::<Brand, R>(rt, Blank::new(1), alloc, saved)
}

// The same with a counter of steps, which no contract here reads.
fn reopen_counted<L: Ledger, R: Threads + Sync>(
    rt: &R,
    blank: Blank,
    alloc: Global,
    saved: Saved,
) -> Result<Book, NoMemory>
    requires name { blank.name ≡ L.name }
    requires parts { blank.parts ≡ L.parts }
    requires some { 0 < L.parts }
    requires lawful { IsLawfulSaved saved.head saved.profile saved.blocks saved.journal.entries }
    ensures opening { IfOk result (λ book. book.opening ≡ opening_of_saved saved.head saved.profile saved.blocks) }
    ensures entries { IfOk result (λ book. book.entries ≡ saved.journal.entries) }
{
    let mut steps = Steps::<L>::start(rt, blank);
    let outline = outline_of(alloc, saved)?;
    let texts = outline.texts()?;
    match prepare_all(rt, alloc, texts, outline.setting()) {
        Ok(blocks) => Book::of_outline(outline, blocks, &mut steps),
        // No text is too long.
        Err(_) => Err(NoMemory),
    }
}

/// The document of a saved text at its last version, without the faces of its blocks. The only error is want of memory.
pub fn outline_of(alloc: Global, saved: Saved) -> Result<Outline, NoMemory>
    requires { IsLawfulSaved saved.head saved.profile saved.blocks saved.journal.entries }
    ensures opening { IfOk result (λ outline. outline.opening ≡ opening_of_saved saved.head saved.profile saved.blocks) }
    ensures entries { IfOk result (λ outline. outline.entries ≡ saved.journal.entries) }
{
    let Saved {
        head,
        profile,
        blocks,
        journal,
    } = saved;
    let texts = block_texts(alloc, &blocks)?;
    let mut outline = open(alloc, profile, &head, texts)?;
    follow_all(journal.into_entries(), &mut outline)?;
    Ok(outline)
}

// Follows the entries, one after the other.
fn follow_all(entries: Vec<Entry>, outline: &mut Outline) -> Result<(), NoMemory>
    requires none { outline.old.entries ≡ [] }
    requires come { MayAllCome outline.old.opening [] entries.items }
    requires written { All IsSpelledEntry entries.items }
    ensures opening { OnOk result (outline.new.opening ≡ outline.old.opening) }
    ensures entries { OnOk result (outline.new.entries ≡ entries.items) }
{
    for entry in entries {
        outline.follow(entry)?;
    }
    Ok(())
}
