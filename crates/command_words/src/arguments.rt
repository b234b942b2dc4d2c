//! The command that clap reads the words by: texts only, each option and flag at most once.
ghost use Rattle.std.specs.Prelude.{◌≡◌, IfOk};
ghost use Rattle.clap.specs.Simple.{app_of};
ghost use Rattle.command_words.specs.Arguments.{check_app, empty_app, with_flag, with_option, with_place};

use clap::{Arg, ArgAction, Command};
use std::alloc::{AllocError, Global};

/// One more option with a value, which may be given once.
fn adding_option<'a>(
    command: Command<'a>,
    alloc: Global,
    name: &'a str,
) -> Result<Command<'a>, AllocError>
    ensures { IfOk result (λ c. app_of c ≡ with_option name.now (app_of command.entry)) }
{
    command.arg(Arg::new(alloc, name).long(name).action(ArgAction::Set))
}

/// One more flag, which may be given once.
fn adding_flag<'a>(
    command: Command<'a>,
    alloc: Global,
    name: &'a str,
) -> Result<Command<'a>, AllocError>
    ensures { IfOk result (λ c. app_of c ≡ with_flag name.now (app_of command.entry)) }
{
    command.arg(Arg::new(alloc, name).long(name).action(ArgAction::SetTrue))
}

/// One more positional word, which may be left out.
fn adding_place<'a>(
    command: Command<'a>,
    alloc: Global,
    name: &'a str,
) -> Result<Command<'a>, AllocError>
    ensures { IfOk result (λ c. app_of c ≡ with_place name.now (app_of command.entry)) }
{
    command.arg(Arg::new(alloc, name))
}

/// No argument yet, no word for the program's name, and no help.
fn bare<'a>(alloc: Global) -> Command<'a>
    ensures { app_of result ≡ empty_app }
{
    Command::new(alloc, "check_main")
        .no_binary_name(true)
        .disable_help_flag(true)
}

/// The command whose words are read: six options, two flags and three positional words.
pub fn reader<'a>(alloc: Global) -> Result<Command<'a>, AllocError>
    ensures { IfOk result (λ c. app_of c ≡ check_app) }
{
    let low = adding_option(bare(alloc), alloc, "low")?;
    let high = adding_option(low, alloc, "high")?;
    let rack = adding_option(high, alloc, "rack")?;
    let hold = adding_option(rack, alloc, "hold")?;
    let block = adding_option(hold, alloc, "block")?;
    let float = adding_option(block, alloc, "float")?;
    let loops = adding_flag(float, alloc, "loops")?;
    let json = adding_flag(loops, alloc, "json")?;
    let word = adding_place(json, alloc, "command")?;
    let rows = adding_place(word, alloc, "rows")?;
    adding_place(rows, alloc, "start")
}
