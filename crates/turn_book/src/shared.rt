//! The shared book from its start to its finish, and what a thread does with it by a pass.
ghost use Rattle.std.specs.Prelude.{◌+◌, ◌≡◌, ◌<◌, ◌≤◌, length, false, true, IfOk};
ghost use Rattle.turn_book.specs.Journal.{Each};
ghost use Rattle.turn_book.specs.Passes.{IsHeldOf, IsPassOf, first_book, held_view, view_of};
ghost use Rattle.turn_book.specs.Turn.{Catches, Turned};
ghost use Rattle.turn_book.specs.Views.{view_after_look, view_without_turn, view_at_start};

use crate::booked::Booked;
use crate::pass::{Held, Pass, Shared};
use crate::steps::Look;
use crate::turn_rule::Told;
use atomic_table::{Refused, Table};
use knit_base::{NoMemory, Steps};
use std::alloc::Global;
use std::snapshot::Snapshot;
use std::sync::Wait;
use std::sync::ledger::Ledger;
use std::thread::Threads;

impl<B: Booked> Shared<B> {
    /// Shares a book. The one pass that there is at first has the numbers below `numbers`, and has seen the journal that the book has.
    ///
    /// The only error is want of memory, and the book is then dropped. No later call on the shared book takes memory of its
    /// own.
    pub fn start<R: Threads>(
        _rt: &R,
        alloc: Global,
        book: B,
        numbers: u32,
    ) -> Result<(Shared<B>, Pass<B>), NoMemory>
        requires numbers { (0 < numbers) × (numbers ≤ 64) }
        requires entries { Each (λ e. B.number_of e < numbers) (B.journal book) }
        ensures of_this { IfOk result (λ r. IsPassOf r.0 r.1 × (B.opening (first_book r.0) ≡ B.opening book)) }
        ensures view { IfOk result (λ r. view_of r.1 ≡ view_at_start (B.opening book) numbers (B.journal book)) }
    {
        let told = Told {
            book: Snapshot::of(&book),
            numbers,
        };
        let Ok(mut slots) = Vec::with_capacity(alloc, 1) else {
            return Err(NoMemory);
        };
        let count = u64::from(book.count());
        slots.push_reserved(Some(book));
        match Table::new(alloc, &[0, count, 0, 0], slots, &told) {
            Ok((table, seat)) => Ok((
                Shared { table },
                Pass {
                    seat,
                    first: 0,
                    past: numbers,
                },
            )),
            Err(Refused { slots: _ }) => Err(NoMemory),
        }
    }

    /// Waits for the turn, and carries out one command under one of the pass's numbers.
    ///
    /// It may wait for as long as other threads hold the turn, and no order is promised among those that wait. What the pass
    /// has seen afterwards is the journal that the turn found, with this turn's entry behind it, if there is one.
    pub fn turn<L: Ledger, R: Wait>(
        &self,
        rt: &R,
        pass: &mut Pass<B>,
        number: u32,
        command: B::Command,
        steps: &mut Steps<L>,
    ) -> B::Reply
        requires of_this { IsPassOf self.now pass.old }
        requires number { ((view_of pass.old).first ≤ number) × (number < (view_of pass.old).past) }
        requires fits { B.fits (B.opening (first_book self.now)) (view_of pass.old).seen command }
        ensures of_this { IsPassOf self.now pass.new }
        ensures turned { Turned B.number_of number (λ before added. B.right (B.opening (first_book self.now)) before number command result added × (steps.new ≤ steps.old + B.bound (B.opening (first_book self.now)) before command)) (view_of pass.old) (view_of pass.new) }
    {
        let seat = &mut pass.seat;
        let mut book = self.take(rt, seat);
        let found = self.look(seat);
        let reply = book.act(number, command, steps);
        let book = self.note(seat, found, number, book);
        self.put(seat, book);
        reply
    }

    /// The length of the journal, which the pass has then seen.
    ///
    /// It never waits, not even while another thread holds the turn, and it takes no memory.
    pub fn newest(&self, pass: &mut Pass<B>) -> u32
        requires of_this { IsPassOf self.now pass.old }
        ensures of_this { IsPassOf self.now pass.new }
        ensures seen { view_of pass.new ≡ view_after_look (view_of pass.old) (view_of pass.new).seen false (view_of pass.old).took }
        ensures catches { Catches B.number_of (view_of pass.old) (view_of pass.new).seen }
        ensures count { result ≡ length (view_of pass.new).seen }
    {
        self.table.shared.load::<Look<B>>(&mut pass.seat, 1) as u32
    }

    /// Waits for the turn, and keeps it: the book can be looked at until the pass is given back (`give_back`).
    ///
    /// It may wait for as long as other threads hold the turn. What is seen is the journal that the turn found; a pass with all numbers
    /// finds just what it had seen.
    pub fn hold<R: Wait>(&self, rt: &R, pass: Pass<B>) -> Held<B>
        requires of_this { IsPassOf self.now pass }
        ensures of_this { IsHeldOf self.now result }
        ensures view { held_view result ≡ view_after_look (view_of pass) (held_view result).seen true (held_view result).seen }
        ensures catches { Catches B.number_of (view_of pass) (held_view result).seen }
        ensures whole { (view_of pass).first ≡ 0 → (view_of pass).past ≡ (view_of pass).count → (held_view result).seen ≡ (view_of pass).seen }
    {
        let Pass {
            mut seat,
            first,
            past,
        } = pass;
        let book = self.take(rt, &mut seat);
        let _ = self.look(&mut seat);
        Held {
            seat,
            first,
            past,
            book,
        }
    }

    /// Puts the book back, and ends the turn. Waits for nobody, and takes no memory.
    pub fn give_back(&self, held: Held<B>) -> Pass<B>
        requires of_this { IsHeldOf self.now held }
        ensures of_this { IsPassOf self.now result }
        ensures view { view_of result ≡ view_without_turn (held_view held) }
    {
        let Held {
            mut seat,
            first,
            past,
            book,
        } = held;
        self.put(&mut seat, book);
        Pass { seat, first, past }
    }

    /// Ends the sharing, with a pass that has all numbers, and gives the book.
    ///
    /// It may wait for the turn. The journal is just what the pass has seen, and goes on from each journal that was joined
    /// into the pass with no entry of the numbers that were joined with it.
    pub fn finish<R: Wait>(self, rt: &R, pass: Pass<B>) -> B
        requires of_this { IsPassOf self pass }
        requires numbers { ((view_of pass).first ≡ 0) × ((view_of pass).past ≡ (view_of pass).count) }
        ensures opening { B.opening result ≡ B.opening (first_book self) }
        ensures journal { B.journal result ≡ (view_of pass).seen }
        ensures catches { Catches B.number_of (view_of pass) (B.journal result) }
    {
        let Pass {
            mut seat,
            first: _,
            past: _,
        } = pass;
        let book = self.take(rt, &mut seat);
        let _ = self.look(&mut seat);
        book
    }
}

impl<B: Booked> Held<B> {
    /// The book, with the journal that was seen. Takes no memory.
    pub fn book(&self) -> &B
        ensures { result.now ≡ self.now.book }
    {
        &self.book
    }
}
