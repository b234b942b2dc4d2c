//! Sessions beside each other: who is first is told by a gate.
use super::{Wanted, is_accepted, is_stale, leaves, reply, session_of, sound};
use edit_book::{Book, Replies};
use knit_ports::CountGate;
use std::alloc::Global;
use std::sync::Wait;
use std::thread::Threads;

// The session that was first has its entry, and the other is told so.
#[derive(Drop)]
struct InOrder {
    first: u32,
    second: u32,
}

impl Wanted for InOrder {
    fn is_met(&self, book: &Book, replies: &Replies) -> bool {
        is_accepted(reply(replies, self.first as usize, 0), 1, 0, sound(1, 0, 0))
            && is_stale(reply(replies, self.second as usize, 0), 1, 1)
            && book.version() == 1
            && session_of(book, 1) == Some(self.first)
    }
}

// Two sessions put the same block, the first of them under the number `first`.
fn two_puts<R: Threads + Wait + Sync>(rt: &R, alloc: Global, first: u32, second: u32) -> bool {
    let lines = [
        "live 1", "|in 1", "session", "put 0", "|in 1", "session", "put 0", "|",
    ];
    let gate = CountGate::of((second, 0), (first, 0), 10_000_000);
    leaves(rt, alloc, &gate, &InOrder { first, second }, &lines) && !gate.gave_up()
}

#[test]
fn who_comes_second_is_stale(rt: HostRuntime) {
    assert!(rt; two_puts(&rt, rt.alloc(), 0, 1));
    assert!(rt; two_puts(&rt, rt.alloc(), 1, 0));
}

// The session that was held comes behind another that put the block, whoever of these was first.
#[derive(Drop)]
struct HeldBack {
    held: u32,
}

impl Wanted for HeldBack {
    fn is_met(&self, book: &Book, replies: &Replies) -> bool {
        is_stale(reply(replies, self.held as usize, 0), 1, 1)
            && book.version() == 1
            && session_of(book, 1) != Some(self.held)
    }
}

// Three sessions put the same block. One of them is held until another has ended.
fn three_puts<R: Threads + Wait + Sync>(rt: &R, alloc: Global, held: u32, until: u32) -> bool {
    let lines = [
        "live 1", "|in 1", "session", "put 0", "|in 1", "session", "put 0", "|", "session",
        "put 0", "|in 1",
    ];
    let gate = CountGate::of((held, 0), (until, 0), 10_000_000);
    leaves(rt, alloc, &gate, &HeldBack { held }, &lines) && !gate.gave_up()
}

// Whether it is so whichever is held, and whichever it waits for.
fn each_waits_for_each<R: Threads + Wait + Sync>(rt: &R, alloc: Global) -> bool {
    for held in 0..3 {
        for until in 0..3 {
            if held != until && !three_puts(rt, alloc, held, until) {
                return false;
            }
        }
    }
    true
}

// Two threads for three sessions won't do: of two sessions in one thread the first would wait for the second.
#[test]
fn each_of_three_sessions_has_a_thread_of_its_own(rt: HostRuntime) {
    assert!(rt; each_waits_for_each(&rt, rt.alloc()));
}
