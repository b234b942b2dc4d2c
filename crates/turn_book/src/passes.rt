//! The numbers of a pass, and how passes divide and unite them.
ghost use Rattle.std.specs.Prelude.{◌≡◌, ◌<◌};
ghost use Rattle.turn_book.specs.Passes.{IsPassOf, view_of};
ghost use Rattle.turn_book.specs.Views.{lower, upper, view_united};

use crate::booked::Booked;
use crate::parts::{At, Cut, Unite};
use crate::pass::{Pass, Shared};
use std::marker::Brand;

impl<B: Booked> Pass<B> {
    /// The least number that the pass may act under. Takes no memory.
    pub fn first(&self) -> u32
        ensures { result ≡ (view_of self.now).first }
    {
        self.first
    }

    /// The number behind the greatest that the pass may act under. Takes no memory.
    pub fn past(&self) -> u32
        ensures { result ≡ (view_of self.now).past }
    {
        self.past
    }
}

impl<B: Booked> Shared<B> {
    /// Divides the numbers of a pass: the old pass keeps those below `at`, and the one that is returned has the others.
    ///
    /// Both have seen what the old one had. Waits for nobody, and takes no memory.
    pub fn split(&self, pass: &mut Pass<B>, at: u32) -> Pass<B>
        requires of_this { IsPassOf self.now pass.old }
        requires range { ((view_of pass.old).first < at) × (at < (view_of pass.old).past) }
        ensures of_this { IsPassOf self.now pass.new × IsPassOf self.now result }
        ensures lower { view_of pass.new ≡ lower at (view_of pass.old) }
        ensures upper { view_of result ≡ upper at (view_of pass.old) }
    {
        self.cut::<Brand>(pass, at)
    }

    /// Unites two passes whose ranges meet: the pass has the numbers of both, and the longer of the two journals that were
    /// seen.
    ///
    /// Its next `turn` or `newest` shows that both journals are beginnings of the one that is seen then, which goes on from
    /// each with no entry of the numbers that its pass had. Waits for nobody, and takes no memory.
    pub fn join(&self, pass: &mut Pass<B>, other: Pass<B>)
        requires of_this { IsPassOf self.now pass.old }
        requires other { IsPassOf self.now other }
        requires range { (view_of pass.old).past ≡ (view_of other).first }
        ensures of_this { IsPassOf self.now pass.new }
        ensures united { view_of pass.new ≡ view_united (view_of pass.old) (view_of other) }
    {
        let Pass {
            seat,
            first: _,
            past,
        } = other;
        self.table.shared.join_seat::<Unite>(&mut pass.seat, seat);
        pass.past = past;
    }

    // `split` at the number that `K` stands for, since a split of a table's seat is told nothing at run time.
    fn cut<K: At>(&self, pass: &mut Pass<B>, at: u32) -> Pass<B>
        requires at { at ≡ K.at }
        requires of_this { IsPassOf self.now pass.old }
        requires range { ((view_of pass.old).first < at) × (at < (view_of pass.old).past) }
        ensures of_this { IsPassOf self.now pass.new × IsPassOf self.now result }
        ensures lower { view_of pass.new ≡ lower at (view_of pass.old) }
        ensures upper { view_of result ≡ upper at (view_of pass.old) }
    {
        let seat = self.table.shared.split_seat::<Cut<K>>(&mut pass.seat);
        let past = pass.past;
        pass.past = at;
        Pass {
            seat,
            first: at,
            past,
        }
    }
}
