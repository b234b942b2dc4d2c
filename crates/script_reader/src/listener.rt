//! A listener, which hears the lines of a conversation one by one.
ghost use Rattle.std.specs.Prelude.{◌≡◌};
ghost use Rattle.knit_base.specs.Lines.{HasNoLineEnd};
ghost use Rattle.script_reader.specs.Hearing.{Hearing, first_hearing, heard, orders_at_end};
ghost use Rattle.script_reader.specs.Listener.{Hears};
ghost use Rattle.script_reader.specs.Orders.{AreOrders, IsOnlyOrder};

mod alone;
mod counts;
mod edits;
mod grouped;
mod header;
mod lines;
mod state;
mod texts;

use crate::fault::Cause;
use crate::listener::counts::count;
use crate::listener::lines::line_heard;
use crate::listener::state::{ListenerMove, State};
use crate::order::{Heard, Order};
use std::alloc::Global;
use std::mem;

/// What is kept of a conversation: how many adds of each session were heard, and the text or the group that isn't whole.
#[derive(Drop)]
pub struct Listener {
    alloc: Global,
    // They stop at their last value, which no name of a block reaches.
    adds: [u64; 64],
    state: State,
}

impl Listener {
    /// A listener that has heard nothing yet of what stands behind the opening. It takes no memory.
    pub fn new(alloc: Global) -> Self
        ensures { Hears result first_hearing }
    {
        Listener {
            alloc,
            adds: [0; 64],
            state: State::Rest,
        }
    }

    /// Hears one more line, which has this number, from 1.
    ///
    /// Of a line with over 4,096 bytes the first 4,097 serve. Want of memory is told by the order of the step.
    pub fn hear(&mut self, number: u64, line: &[u8]) -> Heard
        requires line { HasNoLineEnd line.now }
        ensures heard { (h : Hearing) → Hears self.old h → Hears self.new (heard h number line.now).1 × AreOrders number result (heard h number line.now).0 }
    {
        let state = mem::replace(&mut self.state, State::Rest);
        let moved = line_heard(self.alloc, &self.adds, state, number, line);
        let ListenerMove {
            broken_off,
            state,
            order,
        } = moved;
        self.state = state;
        count(&mut self.adds, &order);
        Heard { broken_off, order }
    }

    /// What the end of the input asks for, where the line behind the last one would have this number: the refusal of a text or a group
    /// that isn't whole.
    pub fn end(&self, number: u64) -> Option<Order>
        ensures { (h : Hearing) → Hears self.now h → IsOnlyOrder result (orders_at_end h number) }
    {
        match self.state {
            State::Rest | State::Passing => None,
            _ => Some(Order::Refuse {
                line: number,
                cause: Cause::BadLine,
            }),
        }
    }
}
