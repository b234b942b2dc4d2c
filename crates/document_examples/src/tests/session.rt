//! Sessions over one shared book, each in a thread of its own, by scripts whose replies are worked out by hand.
ghost use Rattle.std.specs.Prelude.{◌≡◌, ◌<◌, [], IfOk, length};
ghost use Rattle.knit_base.specs.Limits.{IsLawfulProfile};

mod threads;

use super::script_lines;
use block_summary::prepare;
use carriage_model::Brief;
use edit_book::{Book, Replies, Reply};
use edit_sessions::run_all;
use knit_base::{BlockText, Declared, Lines, NoMemory, Profile, Quarter, Setting, Steps};
use knit_ports::Gate;
use script_reader::{Script, read_script};
use std::alloc::Global;
use std::marker::Brand;
use std::sync::Wait;
use std::sync::ledger::{Blank, Ledger};
use std::thread::Threads;
use turn_book::Shared;

// The script that these lines spell, of which each is short.
fn script(alloc: Global, texts: &[&str]) -> Result<Script, NoMemory> {
    let lines = script_lines(alloc, texts)?;
    match read_script(alloc, &lines) {
        Ok(script) => Ok(script),
        Err(_) => Err(NoMemory),
    }
}

// A book of one block, which has these lines, of a file whose head declares the carrier 1 and ends with line 2.
fn opened<L: Ledger>(alloc: Global, text: &Lines, steps: &mut Steps<L>) -> Result<Book, NoMemory>
    ensures profile { IfOk result (λ book. IsLawfulProfile book.opening.setting.profile) }
    ensures one { IfOk result (λ book. length book.opening.texts ≡ 1) }
    ensures empty { IfOk result (λ book. book.entries ≡ []) }
{
    let mut declared = Declared::new(alloc);
    let _ = declared.add("1");
    let setting = Setting {
        profile: Profile::USUAL,
        declared,
        first: 3,
    };
    let block = BlockText::of(alloc, text, 0, text.len())?;
    let Ok(block) = prepare(alloc, block, &setting, steps) else {
        return Err(NoMemory);
    };
    let mut blocks = Vec::new(alloc);
    blocks.push(block)?;
    Book::start(alloc, setting, blocks, steps)
}

fn played<L: Ledger, G: Gate + Sync, R: Threads + Wait + Sync>(
    rt: &R,
    blank: Blank,
    alloc: Global,
    gate: &G,
    script: &Script,
) -> Result<(Book, Replies), NoMemory>
    requires name { (blank.name ≡ L.name) × (blank.parts ≡ L.parts) × (0 < L.parts) }
{
    let numbers = script.sessions.len();
    if numbers == 0 || numbers > 64 {
        return Err(NoMemory);
    }
    let mut steps = Steps::<L>::start(rt, blank);
    let book = opened(alloc, &script.text, &mut steps)?;
    let setting = book.setting().try_clone()?;
    let (shared, pass) = Shared::start(rt, alloc, book, numbers)?;
    let Ok((pass, replies)) = run_all(
        rt,
        alloc,
        gate,
        &shared,
        &setting,
        1,
        script.sessions.as_slice(),
        pass,
    ) else {
        return Err(NoMemory);
    };
    Ok((shared.finish(rt, pass), replies))
}

// What a script leaves whose text is one block: the book, and the replies to each session.
fn run<G: Gate + Sync, R: Threads + Wait + Sync>(
    rt: &R,
    alloc: Global,
    gate: &G,
    texts: &[&str],
) -> Result<(Book, Replies), NoMemory> {
    let script = script(alloc, texts)?;
    played::<Brand, G, R>(rt, Blank::new(1), alloc, gate, &script)
}

/// What a test wants of that which its script leaves.
trait Wanted {
    fn is_met(&self, book: &Book, replies: &Replies) -> bool;
}

// Whether a script whose text is one block leaves what is wanted. No value with a book in it lives in a test itself, since
// each place that it may be left at would be proved anew.
fn leaves<W: Wanted, G: Gate + Sync, R: Threads + Wait + Sync>(
    rt: &R,
    alloc: Global,
    gate: &G,
    wanted: &W,
    texts: &[&str],
) -> bool {
    match run(rt, alloc, gate, texts) {
        Ok((book, replies)) => wanted.is_met(&book, &replies),
        Err(_) => false,
    }
}

// A session's reply to its command at this place, from 0.
fn reply(replies: &Replies, session: usize, at: usize) -> Option<&Reply> {
    replies.as_slice().get(session)?.get(at)
}

fn is_accepted(reply: Option<&Reply>, version: u32, block: u32, brief: Brief) -> bool {
    match reply {
        Some(
            Reply::Accepted {
                version: v,
                block: b,
                brief: told,
            },
        ) => *v == version && *b == block && *told == brief,
        _ => false,
    }
}

// Block 0 has another stamp at this version than the 0 that was seen.
fn is_stale(reply: Option<&Reply>, version: u32, now: u32) -> bool {
    match reply {
        Some(
            Reply::Stale {
                version: v,
                block: 0,
                seen: 0,
                now: n,
            },
        ) => *v == version && *n == now,
        _ => false,
    }
}

fn sound(lines: u32, made: u32, held: u32) -> Brief {
    Brief::Sound {
        lines,
        made,
        held,
        rack: Quarter(0),
    }
}

// The session that made the entry with this number.
fn session_of(book: &Book, number: u32) -> Option<u32> {
    book.journal().get(number).map(|entry| entry.session)
}
