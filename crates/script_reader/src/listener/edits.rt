//! The commands and edits that lines make whole.
ghost use Rattle.std.specs.Prelude.{◌≡◌, ◌<◌, ◌+◌, ◌-◌, ◌++◌, ◌∷◌, [], List, ℕ, Some, true, IfSome, min};
ghost use Rattle.std.specs.Option.{option_map_or};
ghost use Rattle.knit_base.specs.Lines.{IsLine};
ghost use Rattle.script_reader.specs.Hearing.{command_with};
ghost use Rattle.script_reader.specs.Listener.{KeepsItems, line_of_edit};
ghost use Rattle.script_reader.specs.Orders.{edit_with};
ghost use Rattle.script_reader.specs.Script.{adds_of, command_line_in, takes_text};
ghost use Rattle.script_reader.specs.declared.command.Command as declared;

use crate::command::{Command, CommandList};
use crate::line::CommandLine;
use crate::listener::counts::adds_of_edit;
use crate::listener::state::{OpenGroup, PartText};
use crate::one_command::adds_of;
use crate::order::TextEdit;
use knit_base::{Lines, NoMemory};
use std::alloc::Global;

/// How many lines of a text are kept at most.
pub(crate) const LINE_LIMIT: u32 = 4096;

/// How many edits a group has at most.
pub(crate) const EDIT_LIMIT: u32 = 64;

/// The command with this line, whose text, if it takes one, is empty.
pub(crate) fn command_without_text(alloc: Global, command_line: CommandLine) -> Option<Command>
    ensures { result ≡ command_with command_line [] }
{
    match command_line {
        CommandLine::Look(name) => Some(Command::Look(name)),
        CommandLine::Put(name) => Some(Command::Put(name, Lines::new(alloc))),
        CommandLine::Add(place) => Some(Command::Add(place, Lines::new(alloc))),
        CommandLine::Cut(name) => Some(Command::Cut(name)),
        CommandLine::LoopAt(line) => Some(Command::LoopAt(line)),
        CommandLine::Verdict => Some(Command::Verdict),
        CommandLine::LookHead => Some(Command::LookHead),
        CommandLine::PutHead => None,
    }
}

/// The edit with this text.
pub(crate) fn edit_with(edit: TextEdit, text: Lines) -> Command
    ensures { result ≡ edit_with edit text }
{
    match edit {
        TextEdit::Put(name) => Command::Put(name, text),
        TextEdit::Add(place) => Command::Add(place, text),
    }
}

/// The edit with this line.
pub(crate) fn edit_of(command_line: CommandLine) -> TextEdit
    requires { takes_text command_line ≡ true }
    ensures { line_of_edit result ≡ command_line }
{
    match command_line {
        CommandLine::Put(name) => TextEdit::Put(name),
        CommandLine::Add(place) => TextEdit::Add(place),
        _ => unreachable!("no other command takes a text"),
    }
}

/// The text with one more of its lines.
pub(crate) fn with_line(part: PartText, line: &str) -> PartText
    requires line { IsLine line.now }
    ensures session { result.session ≡ part.session }
    ensures edit { result.edit ≡ part.edit }
    ensures missing { result.missing ≡ part.missing - 1 }
    ensures keeps { (before : List (List ℕ)) → KeepsItems part.lines before → KeepsItems result.lines (before ++ line.now ∷ []) }
{
    PartText {
        session: part.session,
        edit: part.edit,
        missing: part.missing.saturating_sub(1),
        lines: line_pushed(part.lines, line),
    }
}

// The lines with one more behind them, where there is room for it.
fn line_pushed(kept: Option<Lines>, line: &str) -> Option<Lines>
    requires line { IsLine line.now }
    ensures { (before : List (List ℕ)) → KeepsItems kept before → KeepsItems result (before ++ line.now ∷ []) }
{
    let mut lines = kept?;
    if LINE_LIMIT <= lines.len() {
        return None;
    }
    match lines.push(line) {
        Ok(()) => Some(lines),
        Err(NoMemory) => None,
    }
}

/// The group with one more edit.
pub(crate) fn with_edit(group: OpenGroup, edit: Command) -> OpenGroup
    ensures session { result.session ≡ group.session }
    ensures edits { result.edits ≡ min (group.edits + 1) 4294967295 }
    ensures adds { result.adds ≡ min (group.adds + adds_of (command_line_in edit)) 4294967295 }
    ensures keeps { (before : List declared.Command) → KeepsItems group.commands before → KeepsItems result.commands (before ++ edit ∷ []) }
{
    OpenGroup {
        session: group.session,
        edits: group.edits.saturating_add(1),
        adds: group.adds.saturating_add(adds_of(&edit)),
        commands: command_pushed(group.commands, edit),
    }
}

// The commands with one more behind them, where there is room for it.
fn command_pushed(kept: Option<CommandList>, command: Command) -> Option<CommandList>
    ensures { (before : List declared.Command) → KeepsItems kept before → KeepsItems result (before ++ command ∷ []) }
{
    let mut commands = kept?;
    if EDIT_LIMIT <= commands.len() {
        return None;
    }
    match commands.push(command) {
        Ok(()) => Some(commands),
        Err(NoMemory) => None,
    }
}

/// The group with one more edit, for whose text memory ran out: its edits are kept no more.
pub(crate) fn without_edits(group: OpenGroup, edit: TextEdit) -> OpenGroup
    ensures session { result.session ≡ group.session }
    ensures edits { result.edits ≡ min (group.edits + 1) 4294967295 }
    ensures adds { result.adds ≡ min (group.adds + adds_of (line_of_edit edit)) 4294967295 }
    ensures keeps { (commands : List declared.Command) → KeepsItems result.commands commands }
{
    OpenGroup {
        session: group.session,
        edits: group.edits.saturating_add(1),
        adds: group.adds.saturating_add(adds_of_edit(edit)),
        commands: None,
    }
}
