//! What the line of a block's entry says.
ghost use Rattle.std.specs.Prelude.{◌≡◌, ◌≢◌, ℕ, List, ◌++◌, ◌<◌, ◌≤◌, ◌^◌, true, false, length, MatchOption};
ghost use Rattle.edit_journal.specs.declared.edit.Anchor.{Anchor as AnchorSaid};
ghost use Rattle.edit_journal.specs.EntryLine.{anchor_text};
ghost use Rattle.edit_book.specs.Outlines.{MayCome};
ghost use Rattle.journal_file.specs.Entries.{IsAdd, IsEdit, IsEntry, IsPair, IsLawfulAnchor};
ghost use Rattle.journal_file.specs.EntryForms.{edit_lines};
ghost use Rattle.journal_file.specs.SavedForms.{edit_said};
ghost use Rattle.journal_file.specs.Words.{EndsNumber};

use crate::counts::count_of;
use crate::words::{behind, labelled, number};
use edit_book::Outline;
use edit_journal::{Anchor, Edit, Entry};
use knit_base::BlockText;

/// How many lines a block has at most.
const MOST_LINES: u32 = 4096;

/// Session numbers lie below this.
pub(crate) const SESSIONS: u32 = 64;

/// An entry of a block without its text, of which the number of lines is told.
#[derive(Clone, Copy)]
pub(crate) struct EntryWords {
    pub session: u32,
    pub edit: EditWords,
}

#[derive(Clone, Copy)]
pub(crate) enum EditWords {
    Put {
        block: u32,
        seen: u32,
        lines: u32,
    },
    Add {
        anchor: Anchor,
        block: u32,
        lines: u32,
    },
    Cut {
        block: u32,
        seen: u32,
    },
}

impl EditWords {
    /// Whether the edit may come next, whatever its text.
    pub fn may_come(&self, outline: &Outline) -> bool
        requires { edit_lines self.now ≤ 4096 }
        ensures yes { (text : List (List ℕ)) → length text ≡ edit_lines self.now → result ≡ true → MayCome outline.now.opening outline.now.entries (edit_said self.now text) }
        ensures not { (text : List (List ℕ)) → length text ≡ edit_lines self.now → result ≡ false → MayCome outline.now.opening outline.now.entries (edit_said self.now text) → ⊥ }
    {
        match *self {
            EditWords::Put { block, seen, lines } => outline.may_put(block, seen, lines),
            EditWords::Add {
                anchor,
                block,
                lines,
            } => outline.may_add(anchor, block, lines),
            EditWords::Cut { block, seen } => outline.may_cut(block, seen),
        }
    }
}

impl EntryWords {
    /// The entry with this text.
    pub fn with_text(self, text: BlockText) -> Entry
        ensures { result ≡ record { session = self.session; edit = edit_said self.edit text } }
    {
        let edit = match self.edit {
            EditWords::Put { block, seen, .. } => Edit::Put { block, seen, text },
            EditWords::Add { anchor, block, .. } => Edit::Add {
                anchor,
                block,
                text,
            },
            EditWords::Cut { block, seen } => Edit::Cut { block, seen },
        };
        Entry {
            session: self.session,
            edit,
        }
    }
}

/// What the line of a block's entry says, if it is one.
pub(crate) fn entry_words(line: &[u8]) -> Option<EntryWords>
    ensures { MatchOption result ((e : EntryWords) → IsEntry e line.now → ⊥) (λ e. IsEntry e line.now) }
{
    match labelled(line, b"session ") {
        Some((session, rest)) => {
            if session >= SESSIONS {
                return None;
            }
            match edit_words(rest) {
                Some(edit) => Some(EntryWords { session, edit }),
                None => None,
            }
        }
        None => None,
    }
}

fn edit_words(text: &[u8]) -> Option<EditWords>
    ensures { MatchOption result ((e : EditWords) → IsEdit e text.now → ⊥) (λ e. IsEdit e text.now) }
{
    match labelled(text, b" put ") {
        Some((block, rest)) => match pair(rest, b" seen ", b" lines ", MOST_LINES) {
            Some((seen, lines)) => Some(EditWords::Put { block, seen, lines }),
            None => None,
        },
        None => match behind(text, b" add ") {
            Some(rest) => add_words(rest),
            None => match pair(text, b" cut ", b" seen ", u32::MAX) {
                Some((block, seen)) => Some(EditWords::Cut { block, seen }),
                None => None,
            },
        },
    }
}

// Two numbers, each behind its label, and no more.
fn pair(text: &[u8], first: &[u8], second: &[u8], most: u32) -> Option<(u32, u32)>
    requires { (more : List ℕ) → EndsNumber (second.now ++ more) }
    ensures { MatchOption result ((a b : ℕ) → IsPair first.now second.now most a b text.now → ⊥) (λ found. IsPair first.now second.now most found.0 found.1 text.now) }
{
    match labelled(text, first) {
        Some((a, rest)) => match count_of(rest, second, 0, most) {
            Some(b) => Some((a, b)),
            None => None,
        },
        None => None,
    }
}

// What stands behind the word of an add.
fn add_words(text: &[u8]) -> Option<EditWords>
    ensures { MatchOption result ((anchor : AnchorSaid) (block lines : ℕ) → IsAdd anchor block lines text.now → ⊥) (λ e. (anchor : AnchorSaid) × (block : ℕ) × (lines : ℕ) × (e ≡ EditWords.Add anchor block lines) × IsAdd anchor block lines text.now) }
{
    match anchor_of(text) {
        Some((anchor, rest)) => match pair(rest, b" block ", b" lines ", MOST_LINES) {
            Some((block, lines)) => Some(EditWords::Add {
                anchor,
                block,
                lines,
            }),
            None => None,
        },
        None => None,
    }
}

// Where a new block stands, and what stands behind that.
fn anchor_of(text: &[u8]) -> Option<(Anchor, &[u8])>
    ensures { MatchOption result ((anchor : AnchorSaid) (rest : List ℕ) → IsLawfulAnchor anchor → EndsNumber rest → text.now ≡ anchor_text anchor ++ rest → ⊥) (λ found. IsLawfulAnchor found.0 × (text.now ≡ anchor_text found.0 ++ found.1.now) × ((anchor : AnchorSaid) (rest : List ℕ) → IsLawfulAnchor anchor → EndsNumber rest → text.now ≡ anchor_text anchor ++ rest → rest ≡ found.1.now)) }
{
    match behind(text, b"start") {
        Some(rest) => Some((Anchor::Start, rest)),
        None => match number(text) {
            Some((id, rest)) => Some((Anchor::After(id), rest)),
            None => None,
        },
    }
}
