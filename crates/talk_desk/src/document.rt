//! The document of a conversation: a shared book of which one pass has all numbers.
ghost use Rattle.std.specs.Prelude.{◌≡◌, ◌<◌, All, ℕ, List, true, IfOk};
ghost use Rattle.knit_base.specs.Limits.{IsLawfulProfile};
ghost use Rattle.script_reader.specs.Groups.{is_lawful_step};
ghost use Rattle.edit_book.specs.Memory.{Memory};
ghost use Rattle.edit_book.specs.Session.{HasNames};
ghost use Rattle.edit_groups.specs.Alone.{IsAnsweredAt, IsSessionAt};
ghost use Rattle.edit_groups.specs.Chunks.{earlier_steps, entries_of_chunks};
ghost use Rattle.talk_desk.specs.Hosts.{IsDocument, IsLent, known_in, opening_in};

use edit_book::Book;
use edit_groups::{GroupBook, GroupReply, GroupSession, do_alone};
use knit_base::{Lines, NoMemory, Setting};
use script_reader::Step;
use std::alloc::Global;
use std::sync::Wait;
use std::thread::Threads;
use turn_book::{Held, Pass, Shared};

// How many sessions there may be.
pub const SESSION_LIMIT: u32 = 64;

/// How a conversation is answered: as JSON or as text, and with these lines of the document's head in a saved text.
#[derive(Drop)]
pub struct Style {
    pub json: bool,
    pub head: Lines,
}

/// A document that the sessions of a conversation edit, how they are answered, and how its first blocks are read. It has its pass, but while
/// its book is lent.
#[derive(Drop)]
pub struct Document {
    pub(crate) alloc: Global,
    pub(crate) style: Style,
    pub(crate) shared: Shared<GroupBook>,
    pub(crate) pass: Option<Pass<GroupBook>>,
    pub(crate) setting: Setting,
}

impl Document {
    /// A document of which the entries in the book's journal are earlier steps, which no session undoes. The only error is want of memory.
    pub fn start<R: Threads>(
        rt: &R,
        alloc: Global,
        style: Style,
        book: Book,
    ) -> Result<Self, NoMemory>
        requires profile { IsLawfulProfile book.opening.setting.profile }
        requires sessions { All (λ e. e.session < 64) book.entries }
        ensures document { IfOk result IsDocument }
        ensures opening { IfOk result (λ d. opening_in d ≡ book.opening) }
        ensures known { IfOk result (λ d. known_in d ≡ earlier_steps book.entries) }
        ensures style { IfOk result (λ d. d.style ≡ style) }
    {
        let setting = first_setting(&book)?;
        let book = GroupBook::resume(alloc, book)?;
        let (shared, pass) = Shared::start(rt, alloc, book, SESSION_LIMIT)?;
        Ok(Document {
            alloc,
            style,
            shared,
            pass: Some(pass),
            setting,
        })
    }

    /// Carries out one step of a session.
    pub fn step<R: Threads + Wait + Sync>(
        &mut self,
        rt: &R,
        session: &mut GroupSession,
        step: &Step,
    ) -> GroupReply
        requires document { IsDocument self.old }
        requires number { session.old.session.number < 64 }
        requires lawful { is_lawful_step step.now ≡ true }
        requires names { HasNames (opening_in self.old) (entries_of_chunks (known_in self.old)) session.old.session }
        ensures document { IsDocument self.new }
        ensures opening { opening_in self.new ≡ opening_in self.old }
        ensures style { self.new.style ≡ self.old.style }
        ensures number { session.new.session.number ≡ session.old.session.number }
        ensures answered { (m : Memory) → IsSessionAt (opening_in self.old) (known_in self.old) m session.old
            → IsAnsweredAt (opening_in self.old) session.old.session.number m step.now result (known_in self.old) (known_in self.new) session.new }
    {
        let Some(pass) = &mut self.pass else {
            unreachable!()
        };
        let setting = &self.setting;
        do_alone(rt, self.alloc, &self.shared, pass, setting, session, step)
    }

    /// Lends the book, to be looked at until it is given back.
    pub fn lend<R: Wait>(&mut self, rt: &R) -> Held<GroupBook>
        requires document { IsDocument self.old }
        ensures lent { IsLent self.new result }
        ensures opening { opening_in self.new ≡ opening_in self.old }
        ensures style { self.new.style ≡ self.old.style }
        ensures book { (result.book.opening ≡ opening_in self.old) × (result.book.chunks ≡ known_in self.old) }
    {
        let Some(pass) = self.pass.take() else {
            unreachable!()
        };
        self.shared.hold(rt, pass)
    }

    /// Takes the book back.
    pub fn take_back(&mut self, held: Held<GroupBook>)
        requires lent { IsLent self.old held }
        ensures document { IsDocument self.new }
        ensures opening { opening_in self.new ≡ opening_in self.old }
        ensures style { self.new.style ≡ self.old.style }
        ensures known { known_in self.new ≡ held.book.chunks }
    {
        self.pass = Some(self.shared.give_back(held));
    }
}

// How the book's first blocks are read: under the names that the header had first.
fn first_setting(book: &Book) -> Result<Setting, NoMemory>
    ensures { IfOk result (λ setting. setting ≡ book.now.opening.setting) }
{
    let now = book.setting();
    Ok(Setting {
        profile: now.profile,
        declared: book.names_at(0).try_clone()?,
        first: now.first,
    })
}
