//! How many adds of each session were heard.
ghost use Rattle.std.specs.Prelude.{◌≡◌, ℕ, Some, get_or};
ghost use Rattle.script_reader.specs.Hearing.{question_known, with_adds};
ghost use Rattle.script_reader.specs.Listener.{AreCounts, adds_behind, capped_adds, line_of_edit};
ghost use Rattle.script_reader.specs.Script.{adds_of, is_known_name, names_known};

use crate::command::Place;
use crate::groups::adds_in_step;
use crate::line::CommandLine;
use crate::order::{Order, TextEdit};
use crate::talk_line::Question;
use edit_journal::BlockName;

/// How many sessions there are.
const SESSION_COUNT: u32 = 64;

/// Counts the adds of an order, if there is one.
pub(crate) fn count(adds: &mut [u64; 64], order: &Option<Order>)
    ensures { (all : ℕ → ℕ) → AreCounts adds.old all → AreCounts adds.new (adds_behind order.now all) }
{
    if let Some(order) = order {
        count_order(adds, order);
    }
}

fn count_order(adds: &mut [u64; 64], order: &Order)
    ensures { (all : ℕ → ℕ) → AreCounts adds.old all → AreCounts adds.new (adds_behind (Some order.now) all) }
{
    match order {
        Order::Ask { session, step } => add(adds, *session, adds_in_step(step)),
        Order::TooLong { session, edit, .. } => add(adds, *session, adds_of_edit(*edit)),
        Order::Lost {
            session,
            adds: lost,
        } => add(adds, *session, *lost),
        Order::Refuse { .. } | Order::Tell { .. } => {}
    }
}

fn add(adds: &mut [u64; 64], session: u32, more: u32)
    ensures { (all : ℕ → ℕ) → AreCounts adds.old all → AreCounts adds.new (with_adds session more all) }
{
    if session < SESSION_COUNT {
        let before = adds[session as usize];
        adds[session as usize] = before.saturating_add(u64::from(more));
    }
}

/// How many adds of the session were heard.
pub(crate) fn adds_heard(adds: &[u64; 64], session: u32) -> u64
    ensures { result ≡ get_or adds.now session 0 }
{
    if session < SESSION_COUNT {
        return adds[session as usize];
    }
    0
}

/// One for an add.
pub(crate) fn adds_of_edit(edit: TextEdit) -> u32
    ensures { result ≡ adds_of (line_of_edit edit) }
{
    match edit {
        TextEdit::Put(_) => 0,
        TextEdit::Add(_) => 1,
    }
}

/// Whether a question names blocks that can have been made, behind so many adds of its session.
pub(crate) fn question_known(adds: u64, question: Question) -> bool
    ensures { (all : ℕ) → adds ≡ capped_adds all → result ≡ question_known all question }
{
    match question {
        Question::TextAt(name, _) => is_known(adds, name),
        Question::Blocks | Question::Since(_) | Question::Save | Question::Tally(_, _) => true,
    }
}

/// The same of a command line.
pub(crate) fn names_known(adds: u64, command_line: CommandLine) -> bool
    ensures { (all : ℕ) → adds ≡ capped_adds all → result ≡ names_known all command_line }
{
    match command_line {
        CommandLine::Look(name) | CommandLine::Put(name) | CommandLine::Cut(name) => is_known(
            adds, name,
        ),
        CommandLine::Add(Place::After(name)) => is_known(adds, name),
        CommandLine::Add(Place::Start)
        | CommandLine::LoopAt(_)
        | CommandLine::Verdict
        | CommandLine::LookHead
        | CommandLine::PutHead => true,
    }
}

fn is_known(adds: u64, name: BlockName) -> bool
    ensures { (all : ℕ) → adds ≡ capped_adds all → result ≡ is_known_name all name }
{
    match name {
        BlockName::Id(_) => true,
        BlockName::Own(n) => 1 <= n && u64::from(n) <= adds,
    }
}
