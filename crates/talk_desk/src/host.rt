//! The sessions of a conversation, and what their orders are answered.
ghost use Rattle.std.specs.Prelude.{◌≡◌, ◌<◌, ◌++◌, ℕ, List, true, length, IfOk, OnOk};
ghost use Rattle.edit_groups.specs.Chunks.{earlier_steps, entries_of_chunks};
ghost use Rattle.edit_journal.specs.declared.edit.Entry.{Entry};
ghost use Rattle.edit_book.specs.Memory.{text_limit};
ghost use Rattle.script_reader.specs.Groups.{commands_of_step, is_lawful_step};
ghost use Rattle.script_reader.specs.Hearing as asks;
ghost use Rattle.script_reader.specs.Orders.{OrderStandsFor, edit_with};
ghost use Rattle.script_reader.specs.Script.{adds_in};
ghost use Rattle.script_reader.specs.declared.step.Step as steps;
ghost use Rattle.script_reader.specs.declared.step.Step.TheVariants as step;
ghost use Rattle.talk_desk.specs.Conversation.{Standing, standing_at_start};
ghost use Rattle.talk_desk.specs.Hosts.{AreFresh, IsAt, IsDocument, IsOrderTaken, known_in, opening_in};
ghost use Rattle.talk_desk.specs.LawfulOrders.{is_lawful_order};
ghost use Rattle.talk_desk.specs.Styles.{IsFinalIn};

use crate::document::{Document, SESSION_LIMIT};
use crate::questions::take_question;
use crate::steps::{Talker, take_long, take_lost, take_step};
use crate::styles::{say_bad_line_in, say_final_in};
use edit_book::Book;
use edit_groups::GroupSession;
use journal_file::first_blocks;
use knit_base::{NoMemory, Steps};
use script_reader::{Cause, Order, Question, Step, TextEdit};
use std::alloc::Global;
use std::marker::Brand;
use std::sync::Wait;
use std::sync::ledger::{Blank, Ledger};
use std::thread::Threads;

/// The document of a conversation, and all sessions that may edit it.
#[derive(Drop)]
pub struct Host {
    pub(crate) document: Document,
    pub(crate) talkers: Vec<Talker>,
}

impl Host {
    /// All sessions, none of which has asked anything, or remembers an earlier step. The only error is want of memory.
    pub fn start<R: Wait>(rt: &R, mut document: Document) -> Result<Host, NoMemory>
        requires document { IsDocument document }
        requires earlier { (entries : List Entry) × (known_in document ≡ earlier_steps entries) }
        ensures at { IfOk result (λ host. IsAt (opening_in document) host (standing_at_start document.style.json document.style.head (opening_in document) (known_in document))) }
        ensures known { IfOk result (λ host. known_in host.document ≡ known_in document) }
        ensures style { IfOk result (λ host. host.document.style ≡ document.style) }
    {
        let held = document.lend(rt);
        let talkers = talkers(document.alloc, held.book().book());
        document.take_back(held);
        let talkers = talkers?;
        Ok(Host { document, talkers })
    }

    /// Answers an order, and appends what is said for it. The only error is want of memory for what is to be said, behind which the
    /// conversation can't go on.
    pub(crate) fn take<R: Threads + Wait + Sync>(
        &mut self,
        rt: &R,
        order: Order,
        out: &mut Vec<u8>,
    ) -> Result<(), NoMemory>
        requires begun { (s : Standing) × IsAt (opening_in self.old.document) self.old s }
        requires lawful { (asked : asks.Order) × OrderStandsFor order asked × is_lawful_order asked }
        ensures opening { opening_in self.new.document ≡ opening_in self.old.document }
        ensures style { self.new.document.style ≡ self.old.document.style }
        ensures said { OnOk result ((s : Standing) (asked : asks.Order) → IsAt (opening_in self.old.document) self.old s → OrderStandsFor order asked
            → IsOrderTaken (opening_in self.old.document) s asked self.old.document.style self.new out.old.items out.new.items) }
    {
        match order {
            Order::Refuse { line, cause } => self.refuse(line, cause, out),
            Order::Ask { session, step } => self.ask(rt, session, &step, out),
            Order::TooLong {
                session,
                edit,
                lines,
            } => self.refuse_long(rt, session, &edit, lines, out),
            Order::Lost { session, adds } => self.lose(rt, session, adds, out),
            Order::Tell { session, question } => self.tell(rt, session, question, out),
        }
    }

    // Says that a line is refused.
    fn refuse(&mut self, line: u64, cause: Cause, out: &mut Vec<u8>) -> Result<(), NoMemory>
        ensures opening { opening_in self.new.document ≡ opening_in self.old.document }
        ensures style { self.new.document.style ≡ self.old.document.style }
        ensures said { OnOk result ((s : Standing) → IsAt (opening_in self.old.document) self.old s
            → IsOrderTaken (opening_in self.old.document) s (asks.Refuse line cause) self.old.document.style self.new out.old.items out.new.items) }
    {
        let (alloc, json) = (self.document.alloc, self.document.style.json);
        say_bad_line_in(alloc, json, line, cause, out)
    }

    // Carries out a step of a session.
    fn ask<R: Threads + Wait + Sync>(
        &mut self,
        rt: &R,
        session: u32,
        step: &Step,
        out: &mut Vec<u8>,
    ) -> Result<(), NoMemory>
        requires begun { (s : Standing) × IsAt (opening_in self.old.document) self.old s }
        requires low { session < 64 }
        requires lawful { is_lawful_step step.now ≡ true }
        ensures opening { opening_in self.new.document ≡ opening_in self.old.document }
        ensures style { self.new.document.style ≡ self.old.document.style }
        ensures said { OnOk result ((s : Standing) → IsAt (opening_in self.old.document) self.old s
            → IsOrderTaken (opening_in self.old.document) s (asks.Ask session step.now) self.old.document.style self.new out.old.items out.new.items) }
    {
        let Some(talker) = self.talkers.get_mut(session as usize) else {
            unreachable!()
        };
        if talker.is_worn() {
            return Err(NoMemory);
        }
        take_step(rt, &mut self.document, talker, step, out)
    }

    // Refuses an edit of a session whose text is too long.
    fn refuse_long<R: Wait>(
        &mut self,
        rt: &R,
        session: u32,
        edit: &TextEdit,
        lines: u32,
        out: &mut Vec<u8>,
    ) -> Result<(), NoMemory>
        requires begun { (s : Standing) × IsAt (opening_in self.old.document) self.old s }
        requires low { session < 64 }
        requires long { text_limit < lines }
        ensures opening { opening_in self.new.document ≡ opening_in self.old.document }
        ensures style { self.new.document.style ≡ self.old.document.style }
        ensures said { OnOk result ((s : Standing) (text : List (List ℕ)) → IsAt (opening_in self.old.document) self.old s → length text ≡ lines
            → IsOrderTaken (opening_in self.old.document) s (asks.Ask session (step.One (edit_with edit.now text))) self.old.document.style self.new out.old.items out.new.items) }
    {
        let Some(talker) = self.talkers.get_mut(session as usize) else {
            unreachable!()
        };
        if talker.is_worn() {
            return Err(NoMemory);
        }
        take_long(rt, &mut self.document, talker, edit, lines, out)
    }

    // Lets go of a step of a session, for whose texts there was no memory.
    fn lose<R: Wait>(
        &mut self,
        rt: &R,
        session: u32,
        adds: u32,
        out: &mut Vec<u8>,
    ) -> Result<(), NoMemory>
        requires begun { (s : Standing) × IsAt (opening_in self.old.document) self.old s }
        requires low { session < 64 }
        ensures opening { opening_in self.new.document ≡ opening_in self.old.document }
        ensures style { self.new.document.style ≡ self.old.document.style }
        ensures said { OnOk result ((s : Standing) (lost : steps.Step) → IsAt (opening_in self.old.document) self.old s → adds ≡ adds_in (commands_of_step lost)
            → IsOrderTaken (opening_in self.old.document) s (asks.Ask session lost) self.old.document.style self.new out.old.items out.new.items) }
    {
        let Some(talker) = self.talkers.get_mut(session as usize) else {
            unreachable!()
        };
        if talker.is_worn() {
            return Err(NoMemory);
        }
        take_lost(rt, &mut self.document, talker, adds, out)
    }

    // Answers a question of a session.
    fn tell<R: Threads + Wait + Sync>(
        &mut self,
        rt: &R,
        session: u32,
        question: Question,
        out: &mut Vec<u8>,
    ) -> Result<(), NoMemory>
        requires begun { (s : Standing) × IsAt (opening_in self.old.document) self.old s }
        requires low { session < 64 }
        ensures opening { opening_in self.new.document ≡ opening_in self.old.document }
        ensures style { self.new.document.style ≡ self.old.document.style }
        ensures said { OnOk result ((s : Standing) → IsAt (opening_in self.old.document) self.old s
            → IsOrderTaken (opening_in self.old.document) s (asks.Tell session question) self.old.document.style self.new out.old.items out.new.items) }
    {
        let Some(talker) = self.talkers.get_mut(session as usize) else {
            unreachable!()
        };
        if talker.is_worn() {
            return Err(NoMemory);
        }
        take_question(rt, &mut self.document, talker, question, out)
    }

    /// Appends the version at the end, and the verdict there. The only error is want of memory.
    pub(crate) fn say_end<R: Threads + Wait + Sync>(
        &mut self,
        rt: &R,
        out: &mut Vec<u8>,
    ) -> Result<(), NoMemory>
        requires document { IsDocument self.old.document }
        ensures said { OnOk result ((text : List ℕ) × (out.new.items ≡ out.old.items ++ text)
            × IsFinalIn self.old.document.style.json (opening_in self.old.document) (entries_of_chunks (known_in self.old.document)) text) }
    {
        let (alloc, json) = (self.document.alloc, self.document.style.json);
        let held = self.document.lend(rt);
        let book = held.book().book();
        let said = final_of::<Brand, R>(rt, Blank::new(1), alloc, json, book, out);
        self.document.take_back(held);
        said
    }
}

// Appends the version of the book, and its verdict, with a counter of steps, which no contract here reads.
fn final_of<L: Ledger, R: Threads>(
    rt: &R,
    blank: Blank,
    alloc: Global,
    json: bool,
    book: &Book,
    out: &mut Vec<u8>,
) -> Result<(), NoMemory>
    requires name { blank.name ≡ L.name }
    requires parts { blank.parts ≡ L.parts }
    requires some { 0 < L.parts }
    ensures { OnOk result ((text : List ℕ) × (out.new.items ≡ out.old.items ++ text) × IsFinalIn json book.now.opening book.now.entries text) }
{
    let mut steps = Steps::<L>::start(rt, blank);
    say_final_in(alloc, json, book, out, &mut steps)
}

// All sessions that may edit a book, whose journal has earlier steps.
fn talkers(alloc: Global, book: &Book) -> Result<Vec<Talker>, NoMemory>
    ensures all { IfOk result (λ talkers. length talkers.items ≡ 64) }
    ensures fresh { IfOk result (λ talkers. AreFresh book.now.opening (earlier_steps book.now.entries) 0 talkers.items) }
{
    let first = first_blocks(alloc, book)?;
    let blocks = first.len();
    let mut talkers = Vec::with_capacity(alloc, SESSION_LIMIT as usize)?;
    'sessions: for number in 0..SESSION_LIMIT {
        let session = GroupSession::start(alloc, number, blocks, book.names_at(0))?;
        talkers.push(Talker {
            session,
            answered: 0,
        })?;
    }
    Ok(talkers)
}
