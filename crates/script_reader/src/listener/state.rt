//! What a listener keeps between two lines.
ghost use Rattle.std.specs.Prelude.{◌≡◌, ℕ, false, None, Some};
ghost use Rattle.script_reader.specs.Hearing.{Hearing, broken_off, refused_line, hearing_settled};
ghost use Rattle.script_reader.specs.Listener.{IsListenerMoved, IsListenerSettled, IsState, listener_moved};
ghost use Rattle.script_reader.specs.Orders.{breaking};
ghost use Rattle.script_reader.specs.declared.listener.state.State.TheVariants as states;
ghost use Rattle.script_reader.specs.declared.order.Order.TheVariants as orders;

use crate::command::CommandList;
use crate::fault::Cause;
use crate::order::{Order, TextEdit};
use crate::talk_line::Asked;
use knit_base::Lines;

/// A text of at most 4,096 lines, of which some are missing yet.
#[derive(Drop)]
pub(crate) struct PartText {
    pub session: u32,
    pub edit: TextEdit,
    pub missing: u32,
    // None where memory ran out.
    pub lines: Option<Lines>,
}

/// A text of over 4,096 lines, of which some are missing yet, and none is kept.
#[derive(Clone, Copy)]
pub(crate) struct LongText {
    pub session: u32,
    pub edit: TextEdit,
    pub lines: u32,
    pub missing: u32,
}

/// A group that isn't closed: how many edits it has, how many of them are adds, and the edits.
#[derive(Drop)]
pub(crate) struct OpenGroup {
    pub session: u32,
    pub edits: u32,
    pub adds: u32,
    // None where memory ran out.
    pub commands: Option<CommandList>,
}

/// What is awaited.
#[derive(Drop)]
pub(crate) enum State {
    /// Nothing.
    Rest,
    /// Text lines of a line that was refused, which are passed over.
    Passing,
    /// The text line that gives the names of the header.
    Header(u32),
    Long(LongText),
    Text(PartText),
    /// The next line of a group.
    Group(OpenGroup),
    /// A text in a group.
    GroupText(OpenGroup, PartText),
}

/// What a line leaves, and what it asks for: first the refusal of the text that it broke off, if it did, and then an order.
#[derive(Drop)]
pub(crate) struct ListenerMove {
    pub broken_off: bool,
    pub state: State,
    pub order: Option<Order>,
}

/// What a session asks, and how many adds of it were heard.
#[derive(Clone, Copy)]
pub(crate) struct Request {
    pub session: u32,
    pub adds: u64,
    pub asked: Asked,
}

/// Whether a command line breaks a text off, and the group that is open behind that.
#[derive(Drop)]
pub(crate) struct SettledGroup {
    pub broken_off: bool,
    pub group: Option<OpenGroup>,
}

/// Nothing is asked for.
pub(crate) fn quiet(state: State) -> ListenerMove
    ensures { result ≡ listener_moved false state None }
{
    ListenerMove {
        broken_off: false,
        state,
        order: None,
    }
}

/// This is asked for, and nothing is awaited.
pub(crate) fn ordered(order: Order) -> ListenerMove
    ensures { result ≡ listener_moved false states.Rest (Some order) }
{
    ListenerMove {
        broken_off: false,
        state: State::Rest,
        order: Some(order),
    }
}

/// The line with this number is refused, where no text is broken off.
pub(crate) fn refusal(number: u64, cause: Cause) -> ListenerMove
    ensures { result ≡ listener_moved false states.Passing (Some (orders.Refuse number cause)) }
{
    ListenerMove {
        broken_off: false,
        state: State::Passing,
        order: Some(Order::Refuse {
            line: number,
            cause,
        }),
    }
}

/// The line with this number is refused, which breaks off a text that is awaited.
pub(crate) fn refused(state: State, number: u64, cause: Cause) -> ListenerMove
    ensures { (h : Hearing) → IsState state h → IsListenerMoved result h.adds number (refused_line h number cause) }
{
    let settled = settle(state);
    ListenerMove {
        broken_off: settled.broken_off,
        state: State::Passing,
        order: Some(Order::Refuse {
            line: number,
            cause,
        }),
    }
}

/// What a command line finds.
pub(crate) fn settle(state: State) -> SettledGroup
    ensures settled { (h : Hearing) → IsState state h → IsListenerSettled result (hearing_settled h h.awaiting) }
    ensures adds { (h : Hearing) → IsState state h → (hearing_settled h h.awaiting).adds ≡ h.adds }
    ensures broken { (h : Hearing) (number : ℕ) → IsState state h → broken_off number h.awaiting ≡ breaking number result.broken_off }
{
    match state {
        State::Rest | State::Passing => SettledGroup {
            broken_off: false,
            group: None,
        },
        State::Header(_) | State::Long(_) | State::Text(_) | State::GroupText(_, _) =>
            SettledGroup {
                broken_off: true,
                group: None,
            },
        State::Group(group) => SettledGroup {
            broken_off: false,
            group: Some(group),
        },
    }
}
