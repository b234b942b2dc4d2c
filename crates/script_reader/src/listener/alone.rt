//! What a session asks where no group is open.
ghost use Rattle.std.specs.Prelude.{◌≡◌, ◌<◌, ℕ, None, [], false, true};
ghost use Rattle.script_reader.specs.Hearing.{Hearing, Nothing, asked_alone, edit_awaited, mark_heard, whole};
ghost use Rattle.script_reader.specs.Hearing.{command_with};
ghost use Rattle.script_reader.specs.Listener.{IsListenerMoved, capped_adds};
ghost use Rattle.script_reader.specs.Listening.{IsFairAsked};
ghost use Rattle.script_reader.specs.Script.{takes_text};

use crate::fault::Cause;
use crate::line::{CommandLine, Mark};
use crate::listener::counts::{names_known, question_known};
use crate::listener::edits::{LINE_LIMIT, command_without_text, edit_of};
use crate::listener::state::{
    ListenerMove, LongText, OpenGroup, PartText, Request, State, ordered, quiet, refusal,
};
use crate::order::Order;
use crate::step::Step;
use crate::talk_line::Asked;
use knit_base::{Lines, ListOf};
use std::alloc::Global;

/// What a session asks where no group is open, and no text is awaited.
pub(crate) fn alone(alloc: Global, number: u64, request: Request) -> ListenerMove
    requires fair { IsFairAsked request.asked }
    ensures broken { result.broken_off ≡ false }
    ensures moved { (h : Hearing) → h.group ≡ None → h.awaiting ≡ Nothing → request.adds ≡ capped_adds (h.adds request.session) → IsListenerMoved result h.adds number (asked_alone h number request.session request.asked) }
{
    match request.asked {
        Asked::Plain(command_line) => {
            if !names_known(request.adds, command_line) {
                return refusal(number, Cause::NoOwn);
            }
            whole(alloc, request.session, command_line)
        }
        Asked::Edit(command_line, count) => {
            if !names_known(request.adds, command_line) {
                return refusal(number, Cause::NoOwn);
            }
            awaited(alloc, request.session, command_line, count)
        }
        Asked::Header => quiet(State::Header(request.session)),
        Asked::Tell(question) => {
            if !question_known(request.adds, question) {
                return refusal(number, Cause::NoOwn);
            }
            ordered(Order::Tell {
                session: request.session,
                question,
            })
        }
        Asked::Mark(mark) => marked(alloc, number, request.session, mark),
    }
}

// A command whose text, if it takes one, is empty.
fn whole(alloc: Global, session: u32, command_line: CommandLine) -> ListenerMove
    ensures broken { result.broken_off ≡ false }
    ensures moved { (h : Hearing) (number : ℕ) → h.group ≡ None → h.awaiting ≡ Nothing → IsListenerMoved result h.adds number (whole h session (command_with command_line [])) }
{
    match command_without_text(alloc, command_line) {
        None => quiet(State::Rest),
        Some(command) => ordered(Order::Ask {
            session,
            step: Step::One(command),
        }),
    }
}

// An edit with so many lines of text.
fn awaited(alloc: Global, session: u32, command_line: CommandLine, count: u32) -> ListenerMove
    requires { takes_text command_line ≡ true }
    ensures broken { result.broken_off ≡ false }
    ensures moved { (h : Hearing) (number : ℕ) → h.group ≡ None → h.awaiting ≡ Nothing → IsListenerMoved result h.adds number (edit_awaited h session command_line count []) }
{
    if count == 0 {
        return whole(alloc, session, command_line);
    }
    let edit = edit_of(command_line);
    if LINE_LIMIT < count {
        return quiet(State::Long(LongText {
            session,
            edit,
            lines: count,
            missing: count,
        }));
    }
    quiet(State::Text(PartText {
        session,
        edit,
        missing: count,
        lines: Some(Lines::new(alloc)),
    }))
}

fn marked(alloc: Global, number: u64, session: u32, mark: Mark) -> ListenerMove
    ensures broken { result.broken_off ≡ false }
    ensures moved { (h : Hearing) → h.group ≡ None → h.awaiting ≡ Nothing → IsListenerMoved result h.adds number (mark_heard h number session mark) }
{
    match mark {
        Mark::Group => quiet(State::Group(OpenGroup {
            session,
            edits: 0,
            adds: 0,
            commands: Some(ListOf::new(alloc)),
        })),
        Mark::End => refusal(number, Cause::BadLine),
        Mark::Undo => ordered(Order::Ask {
            session,
            step: Step::Undo,
        }),
    }
}
