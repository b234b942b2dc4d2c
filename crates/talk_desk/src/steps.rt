//! The steps of the sessions of a conversation, and what is said for them.
ghost use Rattle.std.specs.Prelude.{◌≡◌, ◌<◌, ◌+◌, ◌-◌, ◌^◌, ◌++◌, ℕ, List, true, false, length, OnOk};
ghost use Rattle.script_reader.specs.Groups.{commands_of_step, is_lawful_step};
ghost use Rattle.script_reader.specs.Orders.{edit_with};
ghost use Rattle.script_reader.specs.Script.{adds_in};
ghost use Rattle.script_reader.specs.declared.step.Step as steps;
ghost use Rattle.script_reader.specs.declared.step.Step.TheVariants as step;
ghost use Rattle.edit_book.specs.Memory.{Memory, text_limit};
ghost use Rattle.edit_book.specs.Session.{HasNames};
ghost use Rattle.edit_groups.specs.Alone.{IsSessionAt};
ghost use Rattle.edit_groups.specs.Chunks.{entries_of_chunks};
ghost use Rattle.talk_desk.specs.Hosts.{IsDocument, IsStepSaid, known_in, opening_in};
ghost use Rattle.talk_desk.specs.Styles.{step_in};

use crate::document::Document;
use crate::styles::say_step_in;
use edit_groups::{GroupReply, GroupSession, lose_step, refuse_long};
use knit_base::NoMemory;
use reply_report::Frame;
use script_reader::{Step, TextEdit};
use std::sync::Wait;
use std::thread::Threads;

/// A session of a conversation, and how many of its orders were answered.
#[derive(Drop)]
pub struct Talker {
    pub session: GroupSession,
    pub answered: u64,
}

impl Talker {
    /// Whether no further reply to the session can have a number: it had 18,446,744,073,709,551,615.
    pub(crate) fn is_worn(&self) -> bool
        ensures { result ≡ false → self.now.answered < 2 ^ 64 - 1 }
    {
        self.answered == u64::MAX
    }

    /// What stands in front of the next reply to the session, which is counted.
    pub fn next_frame(&mut self) -> Frame
        requires { self.old.answered < 2 ^ 64 - 1 }
        ensures frame { (result.session ≡ self.old.session.session.number) × (result.number ≡ self.old.answered + 1) }
        ensures counted { self.new.answered ≡ self.old.answered + 1 }
        ensures session { self.new.session ≡ self.old.session }
    {
        self.answered += 1;
        Frame {
            session: self.session.session.number,
            number: self.answered,
        }
    }
}

/// Carries out a step, and says what it is answered.
pub fn take_step<R: Threads + Wait + Sync>(
    rt: &R,
    document: &mut Document,
    talker: &mut Talker,
    step: &Step,
    out: &mut Vec<u8>,
) -> Result<(), NoMemory>
    requires document { IsDocument document.old }
    requires number { talker.old.session.session.number < 64 }
    requires lawful { is_lawful_step step.now ≡ true }
    requires names { HasNames (opening_in document.old) (entries_of_chunks (known_in document.old)) talker.old.session.session }
    requires few { talker.old.answered < 2 ^ 64 - 1 }
    ensures document { IsDocument document.new }
    ensures opening { opening_in document.new ≡ opening_in document.old }
    ensures style { document.new.style ≡ document.old.style }
    ensures said { OnOk result ((m : Memory) → IsSessionAt (opening_in document.old) (known_in document.old) m talker.old.session
        → IsStepSaid document.old.style.json m step.now document.old document.new talker.old talker.new out.old.items out.new.items) }
{
    let reply = document.step(rt, &mut talker.session, step);
    say_reply(rt, document, talker, &reply, out)
}

/// Refuses an edit that stands alone, with a text of so many lines, more than a block may have, and says so.
pub fn take_long<R: Wait>(
    rt: &R,
    document: &mut Document,
    talker: &mut Talker,
    edit: &TextEdit,
    lines: u32,
    out: &mut Vec<u8>,
) -> Result<(), NoMemory>
    requires document { IsDocument document.old }
    requires long { text_limit < lines }
    requires few { talker.old.answered < 2 ^ 64 - 1 }
    ensures document { IsDocument document.new }
    ensures opening { opening_in document.new ≡ opening_in document.old }
    ensures style { document.new.style ≡ document.old.style }
    ensures said { OnOk result ((m : Memory) (text : List (List ℕ)) → IsSessionAt (opening_in document.old) (known_in document.old) m talker.old.session → length text ≡ lines
        → IsStepSaid document.old.style.json m (step.One (edit_with edit.now text)) document.old document.new talker.old talker.new out.old.items out.new.items) }
{
    let reply = refuse_long(&mut talker.session, edit, lines);
    say_reply(rt, document, talker, &reply, out)
}

/// Lets go of a step with so many adds, of which there was no memory for the texts, and says so.
pub fn take_lost<R: Wait>(
    rt: &R,
    document: &mut Document,
    talker: &mut Talker,
    adds: u32,
    out: &mut Vec<u8>,
) -> Result<(), NoMemory>
    requires document { IsDocument document.old }
    requires few { talker.old.answered < 2 ^ 64 - 1 }
    ensures document { IsDocument document.new }
    ensures opening { opening_in document.new ≡ opening_in document.old }
    ensures style { document.new.style ≡ document.old.style }
    ensures said { OnOk result ((m : Memory) (lost : steps.Step) → IsSessionAt (opening_in document.old) (known_in document.old) m talker.old.session → adds ≡ adds_in (commands_of_step lost)
        → IsStepSaid document.old.style.json m lost document.old document.new talker.old talker.new out.old.items out.new.items) }
{
    let reply = lose_step(&mut talker.session, adds);
    say_reply(rt, document, talker, &reply, out)
}

// Says what a step was answered, at the journal as it is since.
fn say_reply<R: Wait>(
    rt: &R,
    document: &mut Document,
    talker: &mut Talker,
    reply: &GroupReply,
    out: &mut Vec<u8>,
) -> Result<(), NoMemory>
    requires document { IsDocument document.old }
    requires few { talker.old.answered < 2 ^ 64 - 1 }
    ensures document { IsDocument document.new }
    ensures opening { opening_in document.new ≡ opening_in document.old }
    ensures style { document.new.style ≡ document.old.style }
    ensures known { known_in document.new ≡ known_in document.old }
    ensures session { talker.new.session ≡ talker.old.session }
    ensures counted { talker.new.answered ≡ talker.old.answered + 1 }
    ensures said { OnOk result (out.new.items ≡ out.old.items ++ step_in document.old.style.json (opening_in document.old) (entries_of_chunks (known_in document.old))
        (record { session = talker.old.session.session.number; number = talker.old.answered + 1 }) reply.now) }
{
    let frame = talker.next_frame();
    let (alloc, json) = (document.alloc, document.style.json);
    let held = document.lend(rt);
    let said = say_step_in(alloc, json, frame, held.book().book(), reply, out);
    document.take_back(held);
    said
}
