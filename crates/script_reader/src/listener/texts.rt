//! Text lines.
ghost use Rattle.std.specs.Prelude.{◌≡◌, ◌≤◌, ◌<◌, ◌-◌, ◌++◌, ◌∷◌, [], List, ℕ, Some, None, length};
ghost use Rattle.knit_base.specs.Lines.{IsLine};
ghost use Rattle.script_reader.specs.Hearing.{Block, Hearing, edit_awaited, text_heard};
ghost use Rattle.script_reader.specs.Listener.{HoldsGroup, KeepsItems, IsTextTooLong, IsListenerMoved, IsState, line_of_edit};
ghost use Rattle.script_reader.specs.declared.command.Command as declared;

use crate::fault::Cause;
use crate::listener::counts::adds_of_edit;
use crate::listener::edits::{edit_with, with_edit, with_line, without_edits};
use crate::listener::header::header_heard;
use crate::listener::state::{
    ListenerMove, LongText, OpenGroup, PartText, State, ordered, quiet, refusal,
};
use crate::order::Order;
use crate::step::Step;
use std::alloc::Global;

/// A text line that can't be read.
pub(crate) fn bad_text_heard(state: State, number: u64, cause: Cause) -> ListenerMove
    ensures { (h : Hearing) (text : List ℕ) → IsState state h → IsListenerMoved result h.adds number (text_heard h h.awaiting number (Some cause) text) }
{
    match state {
        State::Passing => quiet(State::Passing),
        _ => refusal(number, cause),
    }
}

/// A text line that is good, with this text.
pub(crate) fn text_heard(alloc: Global, state: State, number: u64, text: &str) -> ListenerMove
    requires line { IsLine text.now }
    requires short { length text.now ≤ 4096 }
    ensures { (h : Hearing) → IsState state h → IsListenerMoved result h.adds number (text_heard h h.awaiting number None text.now) }
{
    match state {
        State::Rest => refusal(number, Cause::BadLine),
        State::Group(_) => refusal(number, Cause::BadLine),
        State::Passing => quiet(State::Passing),
        State::Header(session) => header_heard(alloc, session, number, text),
        State::Long(long) => long_heard(long),
        State::Text(part) => part_heard(with_line(part, text)),
        State::GroupText(group, part) => group_text_heard(group, with_line(part, text)),
    }
}

// One more line of a text of which none is kept.
fn long_heard(long: LongText) -> ListenerMove
    ensures { (h : Hearing) (number : ℕ) (before : List (List ℕ)) (line : List ℕ) → h.session ≡ long.session → h.group ≡ None → IsTextTooLong long before → IsListenerMoved result h.adds number (edit_awaited h h.session (line_of_edit long.edit) (long.missing - 1) (before ++ line ∷ [])) }
{
    if 1 < long.missing {
        return quiet(State::Long(LongText {
            session: long.session,
            edit: long.edit,
            lines: long.lines,
            missing: long.missing - 1,
        }));
    }
    ordered(Order::TooLong {
        session: long.session,
        edit: long.edit,
        lines: long.lines,
    })
}

// The text of an edit that stands alone, behind one more line.
fn part_heard(part: PartText) -> ListenerMove
    ensures { (h : Hearing) (number : ℕ) (lines : List (List ℕ)) → h.session ≡ part.session → h.group ≡ None → KeepsItems part.lines lines → IsListenerMoved result h.adds number (edit_awaited h h.session (line_of_edit part.edit) part.missing lines) }
{
    if 0 < part.missing {
        return quiet(State::Text(part));
    }
    let PartText {
        session,
        edit,
        lines,
        ..
    } = part;
    match lines {
        Some(lines) => ordered(Order::Ask {
            session,
            step: Step::One(edit_with(edit, lines)),
        }),
        None => ordered(Order::Lost {
            session,
            adds: adds_of_edit(edit),
        }),
    }
}

// The text of an edit of a group, behind one more line.
fn group_text_heard(group: OpenGroup, part: PartText) -> ListenerMove
    ensures { (h : Hearing) (number : ℕ) (commands : List declared.Command) (lines : List (List ℕ)) → h.session ≡ group.session → h.group ≡ Some commands → HoldsGroup group commands → group.edits < 64 → KeepsItems part.lines lines → IsListenerMoved result h.adds number (edit_awaited h h.session (line_of_edit part.edit) part.missing lines) }
{
    if 0 < part.missing {
        return quiet(State::GroupText(group, part));
    }
    let PartText { edit, lines, .. } = part;
    match lines {
        Some(lines) => quiet(State::Group(with_edit(group, edit_with(edit, lines)))),
        None => quiet(State::Group(without_edits(group, edit))),
    }
}
