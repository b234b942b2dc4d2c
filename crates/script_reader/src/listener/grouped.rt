//! What a session asks where a group is open.
ghost use Rattle.std.specs.Prelude.{◌≡◌, ◌<◌, ℕ, Some, [], List, false, true, length};
ghost use Rattle.script_reader.specs.Hearing.{Hearing, Nothing, group_closed, edit_grouped, has_place, in_group};
ghost use Rattle.script_reader.specs.Listener.{HoldsGroup, IsListenerMoved, capped_adds};
ghost use Rattle.script_reader.specs.Listening.{IsFairAsked};
ghost use Rattle.script_reader.specs.Script.{takes_text};
ghost use Rattle.script_reader.specs.declared.command.Command as declared;

use crate::fault::Cause;
use crate::line::{CommandLine, Mark};
use crate::listener::counts::names_known;
use crate::listener::edits::{EDIT_LIMIT, LINE_LIMIT, command_without_text, edit_of, with_edit};
use crate::listener::state::{
    ListenerMove, OpenGroup, PartText, Request, State, ordered, quiet, refusal,
};
use crate::order::Order;
use crate::step::Step;
use crate::talk_line::Asked;
use knit_base::Lines;
use std::alloc::Global;

/// What a session asks where this group is open, and no text is awaited.
pub(crate) fn in_group(
    alloc: Global,
    number: u64,
    group: OpenGroup,
    request: Request,
) -> ListenerMove
    requires fair { IsFairAsked request.asked }
    ensures broken { result.broken_off ≡ false }
    ensures moved { (h : Hearing) (commands : List declared.Command) → HoldsGroup group commands → h.session ≡ group.session → h.group ≡ Some commands → h.awaiting ≡ Nothing → request.adds ≡ capped_adds (h.adds request.session) → IsListenerMoved result h.adds number (in_group h number request.session commands request.asked) }
{
    if request.session != group.session {
        return refusal(number, Cause::BadLine);
    }
    match request.asked {
        Asked::Plain(command_line) => edit_grouped(
            alloc,
            number,
            group,
            request.adds,
            command_line,
            0,
        ),
        Asked::Edit(command_line, count) => edit_grouped(
            alloc,
            number,
            group,
            request.adds,
            command_line,
            count,
        ),
        Asked::Mark(Mark::End) => closed(number, group),
        Asked::Header | Asked::Tell(_) | Asked::Mark(Mark::Group | Mark::Undo) => refusal(
            number,
            Cause::BadLine,
        ),
    }
}

// An edit with so many lines of text, where `adds` of the session were heard before the group.
fn edit_grouped(
    alloc: Global,
    number: u64,
    group: OpenGroup,
    adds: u64,
    command_line: CommandLine,
    count: u32,
) -> ListenerMove
    requires takes { 0 < count → takes_text command_line ≡ true }
    ensures broken { result.broken_off ≡ false }
    ensures moved { (h : Hearing) (commands : List declared.Command) → HoldsGroup group commands → h.session ≡ group.session → h.group ≡ Some commands → h.awaiting ≡ Nothing → adds ≡ capped_adds (h.adds group.session) → IsListenerMoved result h.adds number (edit_grouped h number group.session commands command_line count) }
{
    if !has_place(group.edits, command_line, count) {
        return refusal(number, Cause::BadLine);
    }
    if !names_known(adds.saturating_add(u64::from(group.adds)), command_line) {
        return refusal(number, Cause::NoOwn);
    }
    if count == 0 {
        return match command_without_text(alloc, command_line) {
            None => quiet(State::Group(group)),
            Some(command) => quiet(State::Group(with_edit(group, command))),
        };
    }
    let text = PartText {
        session: group.session,
        edit: edit_of(command_line),
        missing: count,
        lines: Some(Lines::new(alloc)),
    };
    quiet(State::GroupText(group, text))
}

// Whether an edit with so many lines of text may stand behind so many of its group.
fn has_place(edits: u32, command_line: CommandLine, count: u32) -> bool
    ensures { (commands : List declared.Command) → edits ≡ length commands → result ≡ has_place commands command_line count }
{
    match command_line {
        CommandLine::Put(_) | CommandLine::Add(_) | CommandLine::Cut(_) => {
            count <= LINE_LIMIT && edits < EDIT_LIMIT
        }
        _ => false,
    }
}

// The end of a group, which has an edit.
fn closed(number: u64, group: OpenGroup) -> ListenerMove
    ensures broken { result.broken_off ≡ false }
    ensures moved { (h : Hearing) (commands : List declared.Command) → HoldsGroup group commands → h.awaiting ≡ Nothing → IsListenerMoved result h.adds number (group_closed h number group.session commands) }
{
    let OpenGroup {
        session,
        edits,
        adds,
        commands,
    } = group;
    if edits == 0 {
        return refusal(number, Cause::BadLine);
    }
    match commands {
        Some(commands) => ordered(Order::Ask {
            session,
            step: Step::Group(commands),
        }),
        None => ordered(Order::Lost { session, adds }),
    }
}
