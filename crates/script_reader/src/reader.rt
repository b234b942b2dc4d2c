//! A script, read from its first line to its last.
ghost use Rattle.std.specs.Prelude.{◌≡◌, ◌↔◌, IsTrue, ◌≤◌, true, List, ℕ, [], ◌∷◌, ◌++◌, length, IfOk, IfErr};
ghost use Rattle.std.specs.List.{flat_map, list_all};
ghost use Rattle.script_reader.specs.Places.{Say};
ghost use Rattle.script_reader.specs.Reading.{IsAtHeading, IsAtSession, IsGrammarStop, script_of};
ghost use Rattle.script_reader.specs.Script.{IsLawfulScript, IsScriptRefusal, IsScript, all_known, command_statements, live_grammar, session_statements};
ghost use Rattle.script_reader.specs.declared.command.Command.{Command};
ghost use Rattle.script_reader.specs.declared.command.Script.{Script};

use crate::command::{CommandList, Script, SessionScripts};
use crate::fault::{Cause, ScriptFault};
use crate::line::{Kind, is_live, kind_of};
use crate::one_command::{adds_of, bad_line, command_of_kind};
use crate::text::read_text;
use knit_base::{Lines, ListOf};
use knitout_reader::nth_line;
use std::alloc::Global;

/// How many sessions a script has at most.
const SESSION_LIMIT: u32 = 64;

/// Reads a script.
///
/// A line that is blank or begins with `#` is as if it weren't there. The first line outside the grammar is refused, with its
/// number, from 1, and its cause.
pub fn read_script(alloc: Global, lines: &Lines) -> Result<Script, ScriptFault>
    ensures script { IfOk result (IsScript lines.now) }
    ensures only { IfOk result (λ script. (other : Script) → IsScript lines.now other → other ≡ script) }
    ensures fault { IfErr result (IsScriptRefusal lines.now) }
{
    read(alloc, lines)
}

fn read(alloc: Global, lines: &Lines) -> Result<Script, ScriptFault>
    ensures script { IfOk result (IsScript lines.now) }
    ensures fault { IfErr result (IsScriptRefusal lines.now) }
{
    if lines.len() == 0 || !is_live(nth_line(lines, 0).as_bytes()) {
        return Err(ScriptFault::At {
            line: 1,
            cause: Cause::NoLive,
        });
    }
    let (text, next) = read_text(alloc, lines, 1)?;
    let sessions = read_sessions(alloc, lines, next)?;
    Ok(Script { text, sessions })
}

// The sessions from here on, up to the end.
fn read_sessions(alloc: Global, lines: &Lines, start: u32) -> Result<SessionScripts, ScriptFault>
    requires start { start ≤ length lines.now }
    requires heading { IsAtHeading lines.now start }
    ensures says { IfOk result (λ sessions. Say lines.now start (length lines.now) (flat_map session_statements sessions)) }
    ensures few { IfOk result (λ sessions. length sessions ≤ 64) }
    ensures known { IfOk result (λ sessions. list_all (all_known 0) sessions ≡ true) }
    ensures fault { IfErr result (λ fault. (text : List (List ℕ)) → IsGrammarStop live_grammar (script_of text []) lines.now start fault) }
{
    let mut sessions = ListOf::new(alloc);
    let mut at = start;
    while at < lines.len() {
        let Kind::Session = kind_of(nth_line(lines, at).as_bytes()) else {
            return Err(bad_line(at));
        };
        if is_full(sessions.len()) {
            return Err(ScriptFault::At {
                line: at + 1,
                cause: Cause::ManySessions,
            });
        }
        let (commands, next) = read_commands(alloc, lines, at + 1)?;
        sessions.push(commands)?;
        at = next;
    }
    Ok(sessions)
}

/// Whether no session may begin behind so many.
pub(crate) fn is_full(sessions: u32) -> bool
    ensures { IsTrue result ↔ (sessions ≡ 64) }
{
    sessions == SESSION_LIMIT
}

// The commands of a session from here on, and the place of the line behind them.
fn read_commands(
    alloc: Global,
    lines: &Lines,
    start: u32,
) -> Result<(CommandList, u32), ScriptFault>
    requires start { start ≤ length lines.now }
    ensures says { IfOk result (λ read. Say lines.now start read.1 (flat_map command_statements read.0)) }
    ensures known { IfOk result (λ read. all_known 0 read.0 ≡ true) }
    ensures session { IfOk result (λ read. IsAtSession lines.now read.1) }
    ensures fault { IfErr result (λ fault. (text : List (List ℕ)) (done : List (List Command)) → IsLawfulScript (script_of text (done ++ [] ∷ [])) → IsGrammarStop live_grammar (script_of text (done ++ [] ∷ [])) lines.now start fault) }
{
    let mut commands = ListOf::new(alloc);
    let mut adds = 0;
    let mut at = start;
    while at < lines.len() {
        match kind_of(nth_line(lines, at).as_bytes()) {
            Kind::Skipped => at += 1,
            Kind::Session => return Ok((commands, at)),
            kind => {
                let (command, next) = command_of_kind(alloc, kind, lines, at, adds)?;
                adds += adds_of(&command);
                commands.push(command)?;
                at = next;
            }
        }
    }
    Ok((commands, at))
}
