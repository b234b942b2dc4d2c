//! What the line of an entry says that gives the header other names.
ghost use Rattle.std.specs.Prelude.{◌≡◌, ℕ, List, MatchOption, IfOk};
ghost use Rattle.knit_base.specs.Lines.{HasNoLineEnd};
ghost use Rattle.edit_journal.specs.declared.edit.Edit.TheVariants as edit;
ghost use Rattle.journal_file.specs.Headers.{IsHeadEntry, IsHeadFront};

use crate::entry_words::SESSIONS;
use crate::names::names_of;
use crate::words::{behind, labelled};
use edit_journal::{Edit, Entry};
use knit_base::{Declared, NoMemory};
use std::alloc::Global;

/// An entry of the header: the session that it came from, the stamp of the header that it had seen, and the names.
#[derive(Drop)]
pub(crate) struct HeadWords {
    pub session: u32,
    pub seen: u32,
    pub names: Declared,
}

impl HeadWords {
    /// The entry.
    pub fn entry(self) -> Entry
        ensures { result ≡ record { session = self.session; edit = edit.Head self.seen self.names } }
    {
        let HeadWords {
            session,
            seen,
            names,
        } = self;
        Entry {
            session,
            edit: Edit::Head {
                seen,
                declared: names,
            },
        }
    }
}

/// What the line says, if it is that of an entry of the header.
pub(crate) fn head_words(alloc: Global, line: &[u8]) -> Result<Option<HeadWords>, NoMemory>
    requires { HasNoLineEnd line.now }
    ensures { IfOk result (λ found. MatchOption found ((session seen : ℕ) (names : List (List ℕ)) → IsHeadEntry session seen names line.now → ⊥) (λ words. IsHeadEntry words.session words.seen words.names line.now)) }
{
    match front_of(line) {
        Some((session, seen, text)) => match names_of(alloc, text)? {
            Some(names) => Ok(Some(HeadWords {
                session,
                seen,
                names,
            })),
            None => Ok(None),
        },
        None => Ok(None),
    }
}

// The session and the stamp that was seen, and what stands behind the word before the names.
fn front_of(line: &[u8]) -> Option<(u32, u32, &[u8])>
    ensures { MatchOption result ((session seen : ℕ) (text : List ℕ) → IsHeadFront session seen text line.now → ⊥) (λ found. IsHeadFront found.0 found.1 found.2.now line.now) }
{
    match labelled(line, b"session ") {
        Some((session, rest)) => {
            if session >= SESSIONS {
                return None;
            }
            match labelled(rest, b" put head seen ") {
                Some((seen, rest)) => match behind(rest, b" carriers") {
                    Some(text) => Some((session, seen, text)),
                    None => None,
                },
                None => None,
            }
        }
        None => None,
    }
}
