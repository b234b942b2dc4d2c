//! A script of groups, read from its first line to its last.
ghost use Rattle.std.specs.Prelude.{◌≡◌, ◌≢◌, ◌^◌, get_or, ◌+◌, ◌<◌, ◌≤◌, true, List, ℕ, [], ◌∷◌, ◌++◌, ◌&&◌, None, length, nat_lt, IfOk, IfErr};
ghost use Rattle.std.specs.List.{flat_map, list_all};
ghost use Rattle.script_reader.specs.Groups.{IsGroupRefusal, IsGroupScript, IsLawfulOpen, commands_of_steps, commands_of_step, group_grammar, step_statements, step_takes_text, steps_statements};
ghost use Rattle.script_reader.specs.Places.{Say};
ghost use Rattle.script_reader.specs.Reading.{IsAtHeading, IsAtSession, IsStepAt, IsGrammarStop, is_edit_kind, is_end_kind, is_good_session, open_of};
ghost use Rattle.script_reader.specs.Script.{adds_in, last_is};
ghost use Rattle.script_reader.specs.Statements.{kind_of};
ghost use Rattle.script_reader.specs.declared.line.Kind.TheVariants as kinds;
ghost use Rattle.script_reader.specs.declared.line.Mark.TheVariants as marks;
ghost use Rattle.script_reader.specs.declared.step.GroupScript.{GroupScript};
ghost use Rattle.script_reader.specs.declared.step.Step.{Step};
ghost use Rattle.script_reader.specs.declared.step.Step.TheVariants as step;

use crate::command::{Command, CommandList};
use crate::fault::{Cause, ScriptFault};
use crate::line::{CommandLine, Kind, Mark, is_groups, kind_of};
use crate::one_command::{adds_of, bad_line, command_of_kind};
use crate::reader::is_full;
use crate::step::{GroupScript, Step, StepList, StepScripts};
use crate::text::read_text;
use knit_base::{Lines, ListOf};
use knitout_reader::nth_line;
use std::alloc::Global;

/// How many edits a group has at most.
const EDIT_LIMIT: u32 = 64;

/// Reads a script of groups.
///
/// A line that is blank or begins with `#` is as if it weren't there. The first line outside the grammar is refused, with its
/// number, from 1, and its cause. A group that isn't closed is refused at the line behind the last.
pub fn read_groups(alloc: Global, lines: &Lines) -> Result<GroupScript, ScriptFault>
    ensures script { IfOk result (IsGroupScript lines.now) }
    ensures only { IfOk result (λ script. (other : GroupScript) → IsGroupScript lines.now other → other ≡ script) }
    ensures fault { IfErr result (IsGroupRefusal lines.now) }
{
    read(alloc, lines)
}

fn read(alloc: Global, lines: &Lines) -> Result<GroupScript, ScriptFault>
    ensures script { IfOk result (IsGroupScript lines.now) }
    ensures fault { IfErr result (IsGroupRefusal lines.now) }
{
    if lines.len() == 0 || !is_groups(nth_line(lines, 0).as_bytes()) {
        return Err(ScriptFault::At {
            line: 1,
            cause: Cause::NoGroups,
        });
    }
    let (text, next) = read_text(alloc, lines, 1)?;
    let sessions = read_sessions(alloc, lines, next)?;
    Ok(GroupScript { text, sessions })
}

// The sessions from here on, up to the end.
fn read_sessions(alloc: Global, lines: &Lines, start: u32) -> Result<StepScripts, ScriptFault>
    requires start { start ≤ length lines.now }
    requires heading { IsAtHeading lines.now start }
    ensures says { IfOk result (λ sessions. Say lines.now start (length lines.now) (flat_map steps_statements sessions)) }
    ensures few { IfOk result (λ sessions. length sessions ≤ 64) }
    ensures good { IfOk result (λ sessions. list_all is_good_session sessions ≡ true) }
    ensures fault { IfErr result (λ fault. (text : List (List ℕ)) → IsGrammarStop group_grammar (open_of text [] None) lines.now start fault) }
{
    let mut sessions = ListOf::new(alloc);
    let mut at = start;
    while at < lines.len() {
        let Kind::Session = kind_of(nth_line(lines, at).as_bytes()) else {
            return Err(bad_line(at));
        };
        if is_full(sessions.len()) {
            return Err(ScriptFault::At {
                line: at + 1,
                cause: Cause::ManySessions,
            });
        }
        let (steps, next) = read_steps(alloc, lines, at + 1)?;
        sessions.push(steps)?;
        at = next;
    }
    Ok(sessions)
}

// The steps of a session from here on, and the place of the line behind them.
fn read_steps(alloc: Global, lines: &Lines, start: u32) -> Result<(StepList, u32), ScriptFault>
    requires start { start ≤ length lines.now }
    ensures says { IfOk result (λ read. Say lines.now start read.1 (flat_map step_statements read.0)) }
    ensures good { IfOk result (λ read. is_good_session read.0 ≡ true) }
    ensures session { IfOk result (λ read. IsAtSession lines.now read.1) }
    ensures fault { IfErr result (λ fault. (text : List (List ℕ)) (done : List (List Step)) → IsLawfulOpen (open_of text (done ++ [] ∷ []) None) → IsGrammarStop group_grammar (open_of text (done ++ [] ∷ []) None) lines.now start fault) }
{
    let mut steps = ListOf::new(alloc);
    let mut adds = 0;
    let mut at = start;
    while at < lines.len() {
        match kind_of(nth_line(lines, at).as_bytes()) {
            Kind::Skipped => at += 1,
            Kind::Session => return Ok((steps, at)),
            kind => {
                let (step, next) = read_step(alloc, kind, lines, at, adds)?;
                adds += adds_in_step(&step);
                steps.push(step)?;
                at = next;
            }
        }
    }
    Ok((steps, at))
}

// The step whose first line is this one, behind so many add commands of its session, and the place of the line behind it.
fn read_step(
    alloc: Global,
    kind: Kind,
    lines: &Lines,
    at: u32,
    adds: u32,
) -> Result<(Step, u32), ScriptFault>
    requires at { at < length lines.now }
    requires kind { kind ≡ kind_of (get_or lines.now at []) }
    requires said { kind ≢ kinds.Skipped }
    requires session { kind ≢ kinds.Session }
    requires few { adds ≤ at }
    ensures step { IfOk result (λ read. IsStepAt lines.now at adds read.0 read.1) }
    ensures fault { IfErr result (λ fault. (text : List (List ℕ)) (done : List (List Step)) (steps : List Step) → IsLawfulOpen (open_of text (done ++ steps ∷ []) None) → adds ≡ adds_in (commands_of_steps steps) → (last_is step_takes_text steps ≡ true → kind ≢ kinds.Text) → IsGrammarStop group_grammar (open_of text (done ++ steps ∷ []) None) lines.now at fault) }
{
    match kind {
        Kind::Mark(mark) => read_marked(alloc, mark, lines, at, adds),
        _ => {
            let (command, next) = command_of_kind(alloc, kind, lines, at, adds)?;
            Ok((Step::One(command), next))
        }
    }
}

// The step whose first line is this mark.
fn read_marked(
    alloc: Global,
    mark: Mark,
    lines: &Lines,
    at: u32,
    adds: u32,
) -> Result<(Step, u32), ScriptFault>
    requires at { at < length lines.now }
    requires kind { kind_of (get_or lines.now at []) ≡ kinds.Mark mark }
    requires few { adds ≤ at }
    ensures step { IfOk result (λ read. IsStepAt lines.now at adds read.0 read.1) }
    ensures fault { IfErr result (λ fault. (text : List (List ℕ)) (done : List (List Step)) (steps : List Step) → IsLawfulOpen (open_of text (done ++ steps ∷ []) None) → adds ≡ adds_in (commands_of_steps steps) → IsGrammarStop group_grammar (open_of text (done ++ steps ∷ []) None) lines.now at fault) }
{
    prove!(at < lines.len());
    match mark {
        Mark::Group => {
            let (commands, next) = read_group(alloc, lines, at, adds)?;
            Ok((Step::Group(commands), next))
        }
        Mark::Undo => Ok((Step::Undo, at + 1)),
        Mark::End => Err(bad_line(at)),
    }
}

// The edits of the group that begins with this line, behind so many add commands of its session, and the place of the line behind
// its `end`.
fn read_group(
    alloc: Global,
    lines: &Lines,
    start: u32,
    adds_before: u32,
) -> Result<(CommandList, u32), ScriptFault>
    requires at { start < length lines.now }
    requires kind { kind_of (get_or lines.now start []) ≡ kinds.Mark marks.Group }
    requires few { adds_before ≤ start }
    ensures group { IfOk result (λ read. IsStepAt lines.now start adds_before (step.Group read.0) read.1) }
    ensures fault { IfErr result (λ fault. (text : List (List ℕ)) (done : List (List Step)) (steps : List Step) → IsLawfulOpen (open_of text (done ++ steps ∷ []) None) → adds_before ≡ adds_in (commands_of_steps steps) → IsGrammarStop group_grammar (open_of text (done ++ steps ∷ []) None) lines.now start fault) }
{
    prove!(start < lines.len());
    let mut commands = ListOf::new(alloc);
    let mut adds = adds_before;
    let mut at = start + 1;
    while at < lines.len() {
        let kind = kind_of(nth_line(lines, at).as_bytes());
        if let Kind::Skipped = kind {
            at += 1;
            continue;
        }
        let edits = commands.len();
        if closes_group(kind, edits) {
            return Ok((commands, at + 1));
        }
        if !takes_edit(kind, edits) {
            return Err(bad_line(at));
        }
        let (command, next) = command_of_kind(alloc, kind, lines, at, adds)?;
        adds += adds_of(&command);
        commands.push(command)?;
        at = next;
    }
    Err(bad_line(lines.len()))
}

// Whether the line closes a group with so many edits.
fn closes_group(kind: Kind, edits: u32) -> bool
    ensures { result ≡ (is_end_kind kind && nat_lt 0 edits) }
{
    match kind {
        Kind::Mark(Mark::End) => 0 < edits,
        _ => false,
    }
}

// Whether the line may be that of a further edit, behind so many of its group.
fn takes_edit(kind: Kind, edits: u32) -> bool
    ensures { result ≡ (is_edit_kind kind && nat_lt edits 64) }
{
    match kind {
        Kind::Command(CommandLine::Put(_) | CommandLine::Add(_) | CommandLine::Cut(_)) => {
            edits < EDIT_LIMIT
        }
        _ => false,
    }
}

/// How many add commands the step has.
pub(crate) fn adds_in_step(step: &Step) -> u32
    ensures { result ≡ adds_in (commands_of_step step.now) }
{
    match step {
        Step::One(command) => adds_of(command),
        Step::Group(commands) => adds_in(commands.as_slice()),
        Step::Undo => 0,
    }
}

fn adds_in(commands: &[Command]) -> u32
    requires { length commands.now < 2 ^ 32 }
    ensures { result ≡ adds_in commands.now }
{
    let mut adds = 0;
    for command in commands {
        adds += adds_of(command);
    }
    adds
}
