//! A gate for tests, which holds one command of one session.
ghost use Rattle.std.specs.Prelude.{◌≡◌};

use crate::gate::Gate;
use std::marker::Model;
use std::sync::atomic::{AtomicBool, Ordering};
use std::sync::{Mutex, Wait};
use std::thread::yield_now;

/// A gate that holds one command until the reply to another is in, though not for ever: after a stated number of looks it
/// records that it gave up, and lets the command go on. A command is named by its session and its place there, both from 0.
///
/// So a test that needs two sessions to run beside each other ends also where they don't. What the gate waits for and
/// whether it gave up is shared by threads, and no contract speaks of it.
#[derive(Drop)]
pub struct CountGate {
    held: (u32, u32),
    until: (u32, u32),
    looks: u32,
    is_in: Mutex<bool>,
    gave_up: AtomicBool,
}

impl Model for CountGate {
    ghost use Rattle.knit_ports.specs.Gates.{CountView};

    ghost Value = { CountView };

    ghost view = { λ g. record { held = g.held; until = g.until; looks = g.looks } };
}

impl CountGate {
    /// A gate that holds the command `held` until the reply to the command `until` is in, for at most so many looks. Each
    /// look takes the gate's own lock once.
    pub fn of(held: (u32, u32), until: (u32, u32), looks: u32) -> Self
        ensures { result ≡ record { held = held; until = until; looks = looks } }
    {
        CountGate {
            held,
            until,
            looks,
            is_in: Mutex::new(false),
            gave_up: AtomicBool::new(false),
        }
    }

    /// Whether the command was let go before the other's reply was in.
    pub fn gave_up(&self) -> bool {
        self.gave_up.load(Ordering::SeqCst)
    }
}

impl Gate for CountGate {
    fn before<R: Wait>(&self, rt: &R, session: u32, command: u32) {
        if (session, command) != self.held {
            return;
        }
        for _ in 0..self.looks {
            if *self.is_in.lock(rt) {
                return;
            }
            yield_now();
        }
        self.gave_up.store(true, Ordering::SeqCst);
    }

    fn after<R: Wait>(&self, rt: &R, session: u32, command: u32) {
        if (session, command) == self.until {
            *self.is_in.lock(rt) = true;
        }
    }
}
