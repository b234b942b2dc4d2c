//! The steps of a turn, as functions on a seat: take the book, look at the count, note an entry, put the book back.
ghost use Rattle.std.specs.Prelude.{◌≡◌, ◌<◌, ◌≤◌, [], ◌∷◌, Some, None, true, length};
ghost use Rattle.turn_book.specs.Journal.{Appends};
ghost use Rattle.turn_book.specs.Passes.{first_book};
ghost use Rattle.turn_book.specs.Turn.{Catches};
ghost use Rattle.turn_book.specs.Views.{view_after_look, view_with_turn, view_without_turn};

use crate::booked::Booked;
use crate::pass::Shared;
use crate::steps::{Beside, Count, Look, Release, Take};
use crate::turn_rule::ViewOf;
use atomic_table::Seat;
use std::sync::Wait;
use std::time::Duration;

// A pass's seat at the table.
pub(crate) type Place<B> = Seat<Option<B>, ViewOf<B>>;

// How many turns end between one wake and the next.
const TURNS: u64 = 32;

// After so many milliseconds a thread that waits looks again.
const LOOK_AGAIN: u64 = 20;

impl<B: Booked> Shared<B> {
    // Waits for the turn, and takes the book.
    pub(crate) fn take<R: Wait>(&self, rt: &R, seat: &mut Place<B>) -> B
        requires of_this { (seat.old.table_id ≡ self.now.table.shared.table_id) × (seat.old.me.0.opening ≡ Some (B.opening (first_book self.now))) × (length seat.old.me.1 ≡ 0) }
        ensures same { (seat.new.table_id ≡ seat.old.table_id) × (seat.new.id ≡ seat.old.id) × (seat.new.me.1 ≡ (0, None) ∷ []) }
        ensures opening { B.opening result ≡ B.opening (first_book self.now) }
        ensures holding { seat.new.me.0 ≡ view_with_turn seat.old.me.0 (B.journal result) }
    {
        for _ in rt.forever() {
            if self.table.shared.compare_exchange::<Take<B>>(seat, 0, 0, 1) == 0 {
                let Some(book) = self.table.shared.exchange(seat, 0, None) else {
                    unreachable!()
                };
                return book;
            }
            self.wait(rt, seat);
        }
        unreachable!()
    }

    // Sleeps while the turn is held, or returns at once, and may return for no reason. The thread is counted as long as that takes.
    fn wait<R: Wait>(&self, rt: &R, seat: &mut Place<B>)
        requires of_this { seat.old.table_id ≡ self.now.table.shared.table_id }
        ensures same { (seat.new.table_id ≡ seat.old.table_id) × (seat.new.id ≡ seat.old.id) × (seat.new.me ≡ seat.old.me) }
    {
        self.table.shared.fetch_add::<Beside<B>>(seat, 2, 1);
        self.table
            .shared
            .park_timeout(rt, 0, 1, Duration::from_millis(LOOK_AGAIN));
        self.table.shared.fetch_sub::<Beside<B>>(seat, 2, 1);
    }

    // The count, under the turn. The seat has then seen the journal of the book that it took.
    pub(crate) fn look(&self, seat: &mut Place<B>) -> u64
        requires of_this { (seat.old.table_id ≡ self.now.table.shared.table_id) × (seat.old.me.0.opening ≡ Some (B.opening (first_book self.now))) }
        requires holds { seat.old.me.0.holds ≡ true }
        ensures same { (seat.new.table_id ≡ seat.old.table_id) × (seat.new.id ≡ seat.old.id) × (seat.new.me ≡ (view_after_look seat.old.me.0 seat.old.me.0.took true seat.old.me.0.took, seat.old.me.1)) }
        ensures catches { Catches B.number_of seat.old.me.0 seat.old.me.0.took }
        ensures count { result ≡ length seat.old.me.0.took }
    {
        self.table.shared.load::<Look<B>>(seat, 1)
    }

    // Counts the entry that was appended, if there is one. The book is handed back as it was.
    pub(crate) fn note(&self, seat: &mut Place<B>, found: u64, number: u32, book: B) -> B
        requires of_this { (seat.old.table_id ≡ self.now.table.shared.table_id) × (seat.old.me.0.opening ≡ Some (B.opening (first_book self.now))) }
        requires fresh { seat.old.me.0 ≡ view_after_look seat.old.me.0 seat.old.me.0.seen true seat.old.me.0.seen }
        requires number { (seat.old.me.0.first ≤ number) × (number < seat.old.me.0.past) }
        requires found { found ≡ length seat.old.me.0.seen }
        requires appends { Appends B.number_of number (λ _. Unit {0}) seat.old.me.0.seen (B.journal book) }
        ensures book { result ≡ book }
        ensures same { (seat.new.table_id ≡ seat.old.table_id) × (seat.new.id ≡ seat.old.id) }
        ensures caught { seat.new.me ≡ (view_after_look seat.old.me.0 (B.journal book) true (B.journal book), seat.old.me.1) }
    {
        let now = u64::from(book.count());
        let held = Some(book);
        if now != found {
            // No other seat counts under this turn, so the word is still as it was found.
            self.table
                .shared
                .compare_exchange_with::<Count<B>>(seat, 1, found, now, &held);
        }
        let Some(book) = held else { unreachable!() };
        book
    }

    // Puts the book back, and ends the turn. Of those that wait one is woken, where so many turns have ended since another was.
    //
    // If each turn woke one, that thread would mostly find the turn held again, and the book's memory would go from processor to
    // processor. So a thread that comes back soon keeps the turn for some commands, without a call of the kernel.
    //
    // No wake is lost. A thread is counted before it sleeps, and it sleeps only while another holds the turn, which the kernel tests
    // as it lets it sleep. That other one wakes a thread at the latest when it rests (`rest`), for which it looks at the count after
    // its last turn; and who is woken does the same, until nobody sleeps. Where a thread doesn't come back and doesn't rest, those
    // that sleep look again by themselves.
    pub(crate) fn put(&self, seat: &mut Place<B>, book: B)
        requires of_this { (seat.old.table_id ≡ self.now.table.shared.table_id) × (seat.old.me.0.opening ≡ Some (B.opening (first_book self.now))) × (seat.old.me.1 ≡ (0, None) ∷ []) × (seat.old.me.0.knows ≡ true) }
        requires opening { B.opening book ≡ B.opening (first_book self.now) }
        requires journal { B.journal book ≡ seat.old.me.0.seen }
        ensures same { (seat.new.table_id ≡ seat.old.table_id) × (seat.new.id ≡ seat.old.id) × (seat.new.me ≡ (view_without_turn seat.old.me.0, [])) }
    {
        let None = self.table.shared.exchange(seat, 0, Some(book)) else {
            unreachable!()
        };
        self.table.shared.store::<Release<B>>(seat, 0, 0);
        if self.table.shared.fetch_add::<Beside<B>>(seat, 3, 1) >= TURNS && self.is_awaited() {
            self.table.shared.store::<Beside<B>>(seat, 3, 0);
            self.table.shared.wake_one(0);
        }
    }

    /// Wakes one of the threads that wait for the turn, if there are any. A thread whose next turn isn't to come soon calls it behind its
    /// last one: else those that wait look again by themselves, after 20 milliseconds at the latest.
    pub fn rest(&self) {
        if self.is_awaited() {
            self.table.shared.wake_one(0);
        }
    }

    // Whether some thread waits for the turn.
    fn is_awaited(&self) -> bool {
        self.table.shared.peek(2) != 0
    }
}
