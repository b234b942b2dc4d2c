//! What can be shared: a value with an opening and a journal, on which one command at a time is carried out.
ghost use Rattle.std.specs.Prelude.{◌≡◌, ℕ, ◌+◌, ◌<◌, ◌≤◌, List, ◌++◌, length, Option};
ghost use Rattle.turn_book.specs.Journal.{Appends};

use knit_base::Steps;
use std::sync::ledger::Ledger;

/// A book: what sessions with numbers act on. It knows its opening and a journal of what was done.
///
/// A value that threads share is `Send`.
pub trait Booked: Drop {
    /// What a session asks for.
    type Command: Drop;

    /// What it is answered.
    type Reply: Drop;

    /// What an accepted command leaves in the journal.
    type Entry;

    /// What the book began with.
    type Opening;

    /// What the book began with. It never changes.
    ghost opening: { Self → Self.Opening };

    /// The entries of all accepted commands, the oldest first.
    ghost journal: { Self → List Self.Entry };

    /// The number of the session that made an entry.
    ghost number_of: { Self.Entry → ℕ };

    /// Whether a reply is right, and the entry that was appended with it, if there is one. It speaks of the opening, the
    /// journal before, the session's number, the command, the reply and the entry.
    ghost right: { Self.Opening → List Self.Entry → ℕ → Self.Command → Self.Reply → Option Self.Entry → Type 0 };

    /// What a command needs of the opening and of the journal before it.
    ghost fits: { Self.Opening → List Self.Entry → Self.Command → Type 0 };

    /// How many steps a command takes at most, at an opening and the journal before it.
    ghost bound: { Self.Opening → List Self.Entry → Self.Command → ℕ };

    /// The length of the journal. Takes no memory.
    fn count(&self) -> u32
        ensures { result ≡ length (journal self.now) };

    /// Carries out one command of the session with this number, and appends its entry, if it makes one. Where memory runs
    /// out, the reply says so.
    fn act<L: Ledger>(
        &mut self,
        number: u32,
        command: Self::Command,
        steps: &mut Steps<L>,
    ) -> Self::Reply
        requires number { number < 64 }
        requires fits { fits (opening self.old) (journal self.old) command }
        ensures opening { opening self.new ≡ opening self.old }
        ensures cost { steps.new ≤ steps.old + bound (opening self.old) (journal self.old) command }
        ensures turn { Appends number_of number (right (opening self.old) (journal self.old) number command result) (journal self.old) (journal self.new) };

    /// A command that fits a journal fits every longer one.
    ghost fits_longer: { (o : Self.Opening) (xs ys : List Self.Entry) (c : Self.Command) → fits o xs c → fits o (xs ++ ys) c };
}
