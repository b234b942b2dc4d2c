//! The desk of a conversation.
ghost use Rattle.std.specs.Prelude.{◌≡◌, ◌+◌, ◌++◌, ◌∷◌, [], ℕ, List, length, OnOk};
ghost use Rattle.knit_base.specs.Lines.{HasNoLineEnd};
ghost use Rattle.knit_ports.specs.Ears.{kept_front};
ghost use Rattle.edit_groups.specs.declared.chunk.Chunk.{Chunk};
ghost use Rattle.script_reader.specs.Hearing as asks;
ghost use Rattle.script_reader.specs.Orders.{AreOrders, IsOnlyOrder};
ghost use Rattle.talk_desk.specs.Conversation as talks;
ghost use Rattle.talk_desk.specs.Desks.{AreRefusals, AreOrdersTaken, IsAtItsEnd, IsHostBehind, beginning, standing_told};
ghost use Rattle.talk_desk.specs.Hosts.{IsAt, known_in, opening_in};
ghost use Rattle.talk_desk.specs.LawfulOrders.{AllOrders};
ghost use Rattle.talk_loop.specs.Conversed.{IsLineAnswered};

use crate::document::Style;
use crate::host::Host;
use edit_groups::{ChunkList, GroupBook};
use edit_journal::Opening;
use knit_base::NoMemory;
use line_cutter::without_return;
use script_reader::{Cause, Heard, Listener, Order};
use std::alloc::Global;
use std::collections::LinkedList;
use std::marker::Model;
use std::snapshot::Snapshot;
use std::sync::Wait;
use std::thread::Threads;
use talk_loop::Desk;

/// What a line asks for, to proofs. No value of it is made.
#[derive(Drop)]
pub struct OrderOf {}

impl Model for OrderOf {
    ghost use Rattle.script_reader.specs.Hearing.{Order, Refuse};
    ghost use Rattle.script_reader.specs.declared.fault.Cause.TheVariants.{BadLine};

    ghost Value = { Order };

    ghost view = { λ o. Refuse 0 BadLine };
}

/// What is answered to it, to proofs. No value of it is made.
#[derive(Drop)]
pub struct AnswerOf {}

impl Model for AnswerOf {
    ghost use Rattle.talk_desk.specs.Conversation.{Answer, Refused};

    ghost Value = { Answer };

    ghost view = { λ a. Refused };
}

/// What a conversation begins with: how it is answered, its document, the steps that were accepted earlier, and the number of the first
/// line that is answered.
#[derive(Drop)]
pub struct Beginning {
    pub style: Style,
    pub opening: Opening,
    pub earlier: ChunkList,
    pub first: u64,
}

/// Who answers the lines of a conversation of sessions about one document.
#[derive(Drop)]
pub struct TalkDesk {
    host: Host,
    listener: Listener,
    // The book as it was when the conversation began, to proofs.
    began: Snapshot<GroupBook>,
    first: u64,
}

impl TalkDesk {
    /// A desk of which the first line has this number.
    pub fn new<R: Wait>(rt: &R, alloc: Global, mut host: Host, first: u64) -> Self
        requires at { IsAt (opening_in host.document) host (talks.standing_at_start host.document.style.json host.document.style.head (opening_in host.document) (known_in host.document)) }
        ensures begun { IsHostBehind result.host result.listener result.began.value.chunks result.first [] [] }
        ensures began { beginning result.host result.began.value.chunks result.first ≡ beginning host (known_in host.document) first }
    {
        let held = host.document.lend(rt);
        let began = Snapshot::of(held.book());
        host.document.take_back(held);
        TalkDesk {
            host,
            listener: Listener::new(alloc),
            began,
            first,
        }
    }
}

impl Desk for TalkDesk {
    type Order = OrderOf;

    type Answer = AnswerOf;

    type State = LinkedList<(OrderOf, AnswerOf)>;

    type Opening = Beginning;

    ghost opening = { λ d. beginning d.host d.began.value.chunks d.first };

    ghost asking = { λ b. talks.asking b.style.json b.style.head b.opening b.earlier b.first };

    ghost ends = { λ b. talks.Ends b.style.json b.style.head b.opening b.earlier b.first };

    ghost behind = { λ d. IsHostBehind d.host d.listener d.began.value.chunks d.first };

    fn hear<R: Threads + Wait + Sync>(
        &mut self,
        rt: &R,
        number: u64,
        line: &[u8],
        out: &mut Vec<u8>,
    ) -> Result<(), NoMemory> {
        let heard = self.listener.hear(number, without_return(line));
        answer(rt, &mut self.host, number, heard, out)
    }

    fn end<R: Threads + Wait + Sync>(
        &mut self,
        rt: &R,
        number: u64,
        out: &mut Vec<u8>,
    ) -> Result<(), NoMemory> {
        let order = self.listener.end(number);
        end_with(rt, &mut self.host, order, out)
    }
}

// Answers what the line with this number asks for.
fn answer<R: Threads + Wait + Sync>(
    rt: &R,
    host: &mut Host,
    number: u64,
    heard: Heard,
    out: &mut Vec<u8>,
) -> Result<(), NoMemory>
    requires begun { (s : talks.Standing) × IsAt (opening_in host.old.document) host.old s }
    requires lawful { (asked : List asks.Order) × AreOrders number heard asked × AllOrders asked }
    ensures opening { opening_in host.new.document ≡ opening_in host.old.document }
    ensures style { host.new.document.style ≡ host.old.document.style }
    ensures said { OnOk result ((earlier : List Chunk) (first : ℕ) (told : List (asks.Order × talks.Answer)) (asked : List asks.Order) → IsAt (opening_in host.old.document) host.old (standing_told host.old.document.style (opening_in host.old.document) earlier told)
        → AreOrders number heard asked → AreOrdersTaken host.old.document.style (opening_in host.old.document) earlier first told asked host.new out.old.items out.new.items) }
{
    let Heard { broken_off, order } = heard;
    if broken_off {
        let refusal = Order::Refuse {
            line: number,
            cause: Cause::BadLine,
        };
        host.take(rt, refusal, out)?;
        return answer_order(rt, host, order, out);
    }
    answer_order(rt, host, order, out)
}

// Answers an order, if there is one.
fn answer_order<R: Threads + Wait + Sync>(
    rt: &R,
    host: &mut Host,
    order: Option<Order>,
    out: &mut Vec<u8>,
) -> Result<(), NoMemory>
    requires begun { (s : talks.Standing) × IsAt (opening_in host.old.document) host.old s }
    requires lawful { (asked : List asks.Order) × IsOnlyOrder order asked × AllOrders asked }
    ensures opening { opening_in host.new.document ≡ opening_in host.old.document }
    ensures style { host.new.document.style ≡ host.old.document.style }
    ensures said { OnOk result ((earlier : List Chunk) (first : ℕ) (told : List (asks.Order × talks.Answer)) (asked : List asks.Order) → IsAt (opening_in host.old.document) host.old (standing_told host.old.document.style (opening_in host.old.document) earlier told)
        → IsOnlyOrder order asked → AreOrdersTaken host.old.document.style (opening_in host.old.document) earlier first told asked host.new out.old.items out.new.items) }
{
    match order {
        Some(order) => host.take(rt, order, out),
        None => Ok(()),
    }
}

// Says what is refused at the end, if anything is, and what ends the conversation.
fn end_with<R: Threads + Wait + Sync>(
    rt: &R,
    host: &mut Host,
    order: Option<Order>,
    out: &mut Vec<u8>,
) -> Result<(), NoMemory>
    requires begun { (s : talks.Standing) × IsAt (opening_in host.old.document) host.old s }
    requires lawful { (asked : List asks.Order) × IsOnlyOrder order asked × AreRefusals asked }
    ensures said { OnOk result ((s : talks.Standing) (asked : List asks.Order) → IsAt (opening_in host.old.document) host.old s → IsOnlyOrder order asked → AreRefusals asked
        → IsAtItsEnd host.old.document.style (opening_in host.old.document) s asked out.old.items out.new.items) }
{
    match order {
        Some(order) => {
            host.take(rt, order, out)?;
            host.say_end(rt, out)
        }
        None => host.say_end(rt, out),
    }
}
