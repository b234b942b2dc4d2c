//! One line of a conversation, heard behind those before it.
ghost use Rattle.std.specs.Prelude.{◌≡◌, ◌≤◌, ◌<◌, MatchResult, false, None, Some, length};
ghost use Rattle.knit_base.specs.Lines.{HasNoLineEnd, IsLine};
ghost use Rattle.script_reader.specs.Hearing.{Hearing, Nothing, asks, heard_behind_orders, broken_off, fault_of, heard, line_heard, hearing_settled};
ghost use Rattle.script_reader.specs.Listener.{AreCounts, IsGroupOpen, IsListenerMoved, IsState, capped_adds};
ghost use Rattle.script_reader.specs.Listening.{IsFairAsked, IsFairLine};

use crate::fault::Cause;
use crate::line::{is_text_line, text_of};
use crate::listener::alone::alone;
use crate::listener::counts::adds_heard;
use crate::listener::grouped::in_group;
use crate::listener::state::{
    ListenerMove, OpenGroup, Request, SettledGroup, State, quiet, refused, settle,
};
use crate::listener::texts::{bad_text_heard, text_heard};
use crate::talk_line::{TalkLine, talk_line};
use std::alloc::Global;

/// How many bytes a line has at most.
const BYTE_LIMIT: usize = 4096;

/// The line with this number, where so many adds of each session were heard.
pub(crate) fn line_heard(
    alloc: Global,
    adds: &[u64; 64],
    state: State,
    number: u64,
    line: &[u8],
) -> ListenerMove
    requires line { HasNoLineEnd line.now }
    ensures { (h : Hearing) → AreCounts adds.now h.adds → IsState state h → IsListenerMoved result h.adds number (heard h number line.now) }
{
    match readable(line) {
        Ok(read) => {
            if is_text_line(line) {
                return text_heard(alloc, state, number, text_of(read));
            }
            said(alloc, adds, state, number, talk_line(line))
        }
        Err(cause) => {
            if is_text_line(line) {
                return bad_text_heard(state, number, cause);
            }
            refused(state, number, cause)
        }
    }
}

// The line as a text, or why it can't be read.
fn readable(line: &[u8]) -> Result<&str, Cause>
    requires line { HasNoLineEnd line.now }
    ensures { MatchResult result (λ read. (fault_of line.now ≡ None) × (read.now ≡ line.now) × IsLine read.now × (length read.now ≤ 4096)) (λ cause. fault_of line.now ≡ Some cause) }
{
    if BYTE_LIMIT < line.len() {
        return Err(Cause::LineLong);
    }
    match str::from_utf8(line) {
        Ok(read) => Ok(read),
        Err(_) => Err(Cause::NotUtf8),
    }
}

// A line that says this, and is no text line.
fn said(alloc: Global, adds: &[u64; 64], state: State, number: u64, said: TalkLine) -> ListenerMove
    requires fair { IsFairLine said }
    ensures { (h : Hearing) → AreCounts adds.now h.adds → IsState state h → IsListenerMoved result h.adds number (line_heard h number said) }
{
    match said {
        TalkLine::Skipped => quiet(state),
        TalkLine::Text => quiet(state),
        TalkLine::Bad(cause) => refused(state, number, cause),
        TalkLine::Command(session, asked) => {
            let request = Request {
                session,
                adds: adds_heard(adds, session),
                asked,
            };
            asks(alloc, state, number, request)
        }
    }
}

// What a session asks: a text that is awaited is broken off by it.
fn asks(alloc: Global, state: State, number: u64, request: Request) -> ListenerMove
    requires session { request.session < 64 }
    requires fair { IsFairAsked request.asked }
    ensures { (h : Hearing) → IsState state h → request.adds ≡ capped_adds (h.adds request.session) → IsListenerMoved result h.adds number (heard_behind_orders (broken_off number h.awaiting) (asks (hearing_settled h h.awaiting) number request.session request.asked)) }
{
    let SettledGroup { broken_off, group } = settle(state);
    let moved = group_asks(alloc, group, number, request);
    ListenerMove {
        broken_off,
        state: moved.state,
        order: moved.order,
    }
}

// What a session asks, where no text is awaited.
fn group_asks(
    alloc: Global,
    group: Option<OpenGroup>,
    number: u64,
    request: Request,
) -> ListenerMove
    requires fair { IsFairAsked request.asked }
    ensures broken { result.broken_off ≡ false }
    ensures moved { (h : Hearing) → IsGroupOpen group h → h.awaiting ≡ Nothing → request.adds ≡ capped_adds (h.adds request.session) → IsListenerMoved result h.adds number (asks h number request.session request.asked) }
{
    match group {
        None => alone(alloc, number, request),
        Some(group) => in_group(alloc, number, group, request),
    }
}
