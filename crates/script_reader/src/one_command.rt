//! One command with its text, read where its line stands.
ghost use Rattle.std.specs.Prelude.{◌≡◌, get_or, ◌+◌, ◌<◌, ◌≤◌, ◌^◌, [], false, length, ℕ, IfOk, IfErr};
ghost use Rattle.script_reader.specs.Command.{IsCommandAt, IsNoCommand};
ghost use Rattle.script_reader.specs.Reading.{IsCommandBehind, IsCommandRead};
ghost use Rattle.script_reader.specs.Script.{adds_of, command_line_in, is_known_name, is_put_head, names_known};
ghost use Rattle.script_reader.specs.Statements.{kind_of};
ghost use Rattle.script_reader.specs.declared.line.Kind.TheVariants as kind;
ghost use Rattle.script_reader.specs.declared.fault.Cause.TheVariants.{BadLine};
ghost use Rattle.script_reader.specs.declared.fault.ScriptFault.TheVariants.{At};

use crate::command::{Command, Place};
use crate::fault::{Cause, ScriptFault};
use crate::line::{CommandLine, Kind, is_text_line, kind_of, text_of};
use crate::text::{next_said, read_text};
use edit_journal::BlockName;
use knit_base::{Declared, Lines, NoMemory};
use knitout_reader::{declared_in, nth_line};
use std::alloc::Global;

/// Reads the command whose line is the one at this place, counted from 0, with its text.
///
/// Told with it is the place of the first line behind it that isn't skipped, or the number of lines. `adds` is the number of add
/// commands before it in its session, whose blocks it may name.
pub fn read_command(
    alloc: Global,
    lines: &Lines,
    at: u32,
    adds: u32,
) -> Result<(Command, u32), ScriptFault>
    requires { at < length lines.now }
    ensures command { IfOk result (λ read. IsCommandAt lines.now at adds read.0 read.1) }
    ensures fault { IfErr result (IsNoCommand lines.now at adds) }
{
    let kind = kind_of(nth_line(lines, at).as_bytes());
    let (command, next) = command_of_kind(alloc, kind, lines, at, adds)?;
    Ok((command, next_said(lines, next)))
}

/// The same, where it is known what the line is. The place told is that directly behind the command.
pub(crate) fn command_of_kind(
    alloc: Global,
    kind: Kind,
    lines: &Lines,
    at: u32,
    adds: u32,
) -> Result<(Command, u32), ScriptFault>
    requires at { at < length lines.now }
    requires kind { kind ≡ kind_of (get_or lines.now at []) }
    ensures command { IfOk result (λ read. IsCommandRead lines.now at adds read.0 read.1) }
    ensures fault { IfErr result (IsNoCommand lines.now at adds) }
{
    prove!(at < lines.len());
    match kind {
        Kind::Command(command_line) => {
            if !names_known(adds, command_line) {
                return Err(ScriptFault::At {
                    line: at + 1,
                    cause: Cause::NoOwn,
                });
            }
            let read = read_operand(alloc, command_line, lines, at + 1)?;
            Ok(read)
        }
        Kind::Header => read_names(alloc, lines, at),
        Kind::Skipped | Kind::Text | Kind::Session | Kind::Mark(_) | Kind::Other => Err(bad_line(
            at,
        )),
    }
}

/// That the line at this place says nothing that may stand there.
pub(crate) fn bad_line(at: u32) -> ScriptFault
    requires { at + 1 < 2 ^ 32 }
    ensures { result ≡ At (at + 1) BadLine }
{
    ScriptFault::At {
        line: at + 1,
        cause: Cause::BadLine,
    }
}

// The command `put head` whose line stands at this place, with the names that the text behind it gives.
fn read_names(alloc: Global, lines: &Lines, at: u32) -> Result<(Command, u32), ScriptFault>
    requires at { at < length lines.now }
    requires kind { kind_of (get_or lines.now at []) ≡ kind.Header }
    ensures command { IfOk result (λ read. (adds : ℕ) → IsCommandRead lines.now at adds read.0 read.1) }
    ensures fault { IfErr result (λ fault. (adds : ℕ) → IsNoCommand lines.now at adds fault) }
{
    let count = lines.len();
    let text_at = next_said(lines, at + 1);
    if text_at == count {
        return Err(bad_line(at));
    }
    let line = nth_line(lines, text_at);
    if !is_text_line(line.as_bytes()) {
        return Err(bad_line(at));
    }
    match declared_in(alloc, text_of(line)) {
        Ok(Some(declared)) => Ok((Command::PutHead(declared), text_at + 1)),
        Ok(None) => Err(bad_line(text_at)),
        Err(NoMemory) => Err(ScriptFault::NoMemory),
    }
}

// The command with this line, whose text, if it takes one, begins here, and the place of the line behind it.
fn read_operand(
    alloc: Global,
    command_line: CommandLine,
    lines: &Lines,
    start: u32,
) -> Result<(Command, u32), NoMemory>
    requires start { start ≤ length lines.now }
    requires other { is_put_head command_line ≡ false }
    ensures { IfOk result (λ read. IsCommandBehind lines.now start command_line read.0 read.1) }
{
    match command_line {
        CommandLine::Look(name) => Ok((Command::Look(name), start)),
        CommandLine::Put(name) => {
            let (text, next) = read_text(alloc, lines, start)?;
            Ok((Command::Put(name, text), next))
        }
        CommandLine::Add(place) => {
            let (text, next) = read_text(alloc, lines, start)?;
            Ok((Command::Add(place, text), next))
        }
        CommandLine::Cut(name) => Ok((Command::Cut(name), start)),
        CommandLine::LoopAt(line) => Ok((Command::LoopAt(line), start)),
        CommandLine::Verdict => Ok((Command::Verdict, start)),
        CommandLine::LookHead => Ok((Command::LookHead, start)),
        CommandLine::PutHead => unreachable!("its names are read apart"),
    }
}

// Whether a command names blocks that can have been made, behind so many add commands of its session.
fn names_known(adds: u32, command_line: CommandLine) -> bool
    ensures { result ≡ names_known adds command_line }
{
    match command_line {
        CommandLine::Look(name) | CommandLine::Put(name) | CommandLine::Cut(name) => is_known(
            adds, name,
        ),
        CommandLine::Add(Place::After(name)) => is_known(adds, name),
        CommandLine::Add(Place::Start)
        | CommandLine::LoopAt(_)
        | CommandLine::Verdict
        | CommandLine::LookHead
        | CommandLine::PutHead => true,
    }
}

fn is_known(adds: u32, name: BlockName) -> bool
    ensures { result ≡ is_known_name adds name }
{
    match name {
        BlockName::Id(_) => true,
        BlockName::Own(n) => 1 <= n && n <= adds,
    }
}

/// One for an add command.
pub(crate) fn adds_of(command: &Command) -> u32
    ensures { result ≡ adds_of (command_line_in command.now) }
{
    match command {
        Command::Add(_, _) => 1,
        _ => 0,
    }
}
