//! What the line of an entry says.
ghost use Rattle.std.specs.Prelude.{◌≡◌, ℕ, List, ◌≤◌, true, false, length, MatchOption, IfOk};
ghost use Rattle.knit_base.specs.Lines.{HasNoLineEnd};
ghost use Rattle.edit_book.specs.Outlines.{MayCome};
ghost use Rattle.journal_file.specs.EntryForms.{IsEntryLine, text_lines_behind};
ghost use Rattle.journal_file.specs.Faults.{MayNotCome};
ghost use Rattle.journal_file.specs.SavedForms.{entry_said, line_edit};
ghost use Rattle.journal_file.specs.declared.entry_line.EntryLine.{EntryLine as LineSaid};

use crate::entry_words::{EditWords, EntryWords, entry_words};
use crate::head_words::{HeadWords, head_words};
use edit_book::Outline;
use edit_journal::Entry;
use knit_base::{BlockText, NoMemory};
use std::alloc::Global;

/// The line of an entry: of a block, or of the header.
#[derive(Drop)]
pub(crate) enum EntryLine {
    Block(EntryWords),
    Header(HeadWords),
}

impl EntryLine {
    /// How many text lines stand behind it.
    pub fn text_lines(&self) -> u32
        ensures { result ≡ text_lines_behind self.now }
    {
        match self {
            EntryLine::Block(words) => match words.edit {
                EditWords::Put { lines, .. } => lines,
                EditWords::Add { lines, .. } => lines,
                EditWords::Cut { .. } => 0,
            },
            EntryLine::Header(_) => 0,
        }
    }

    /// Whether the entry may come next, whatever its text.
    pub fn may_come(&self, outline: &Outline) -> bool
        requires { text_lines_behind self.now ≤ 4096 }
        ensures yes { (text : List (List ℕ)) → length text ≡ text_lines_behind self.now → result ≡ true → MayCome outline.now.opening outline.now.entries (line_edit self.now text) }
        ensures not { result ≡ false → MayNotCome outline.now.opening outline.now.entries self.now }
    {
        match self {
            EntryLine::Block(words) => words.edit.may_come(outline),
            EntryLine::Header(words) => outline.may_change_head(words.seen),
        }
    }

    /// The entry with this text.
    pub fn with_text(self, text: BlockText) -> Entry
        ensures { result ≡ entry_said (self, text) }
    {
        match self {
            EntryLine::Block(words) => words.with_text(text),
            EntryLine::Header(words) => words.entry(),
        }
    }
}

/// What the line says, if it is that of an entry.
pub(crate) fn entry_line(alloc: Global, line: &[u8]) -> Result<Option<EntryLine>, NoMemory>
    requires { HasNoLineEnd line.now }
    ensures { IfOk result (λ found. MatchOption found ((said : LineSaid) → IsEntryLine said line.now → ⊥) (λ said. IsEntryLine said line.now)) }
{
    match entry_words(line) {
        Some(words) => Ok(Some(EntryLine::Block(words))),
        None => match head_words(alloc, line)? {
            Some(words) => Ok(Some(EntryLine::Header(words))),
            None => Ok(None),
        },
    }
}
