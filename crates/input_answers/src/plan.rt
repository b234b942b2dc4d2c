//! What the words of the command line ask for.
ghost use Rattle.std.specs.Prelude.{◌≡◌, ℕ, map, string_bytes, IfOk, IsErrOf};
ghost use Rattle.command_words.specs.declared.command.Command.{Command};
ghost use Rattle.std.proofs.Props.{props};
ghost use Rattle.command_words.specs.Request.{IsMake};
ghost use Rattle.input_answers.specs.Asked.{AreRefused, AsksCommand, IsLawfulChosen, chooses_block, reads_file};

use command_words::{Command, WordFault, request};
use machine_profile::{Chosen, profile_of};
use std::alloc::Global;

/// A command, and the limits that its options choose.
#[derive(Drop)]
pub struct Plan {
    pub command: Command,
    pub chosen: Chosen,
    /// Whether the words say how many lines a block has. The body is then checked by blocks.
    pub by_blocks: bool,
    ghost lawful: { IsLawfulChosen chosen } by { Prim.hlevel props },
    ghost numbers: { (rows start : ℕ) → command ≡ Command.Make rows start → IsMake rows start },
}

/// Why there is no plan.
#[derive(Clone, Copy, Debug, PartialEq, Eq)]
pub enum PlanFault {
    /// The words are outside the grammar, or an option is out of its bounds.
    Usage,
    /// Memory ran out.
    NoMemory,
}

/// What the words ask for.
pub fn plan_of(alloc: Global, words: &[String]) -> Result<Plan, PlanFault>
    ensures ok { IfOk result (λ plan. AsksCommand (map string_bytes words.now) plan.command plan.chosen) }
    ensures blocks { IfOk result (λ plan. plan.by_blocks ≡ chooses_block (map string_bytes words.now)) }
    ensures usage { IsErrOf result PlanFault.Usage → AreRefused (map string_bytes words.now) }
{
    let request = match request(alloc, words) {
        Ok(request) => request,
        Err(WordFault::Usage) => return Err(PlanFault::Usage),
        Err(WordFault::NoMemory) => return Err(PlanFault::NoMemory),
    };
    let command = request.command;
    match profile_of(&request.options) {
        Ok(chosen) => {
            let by_blocks = request.options.block.is_some();
            Ok(Plan {
                command,
                chosen,
                by_blocks,
            })
        }
        Err(_) => Err(PlanFault::Usage),
    }
}

/// Whether the command reads a knitout file.
pub fn reads_file(command: Command) -> bool
    ensures { result ≡ reads_file command }
{
    match command {
        Command::Check { .. } | Command::Text | Command::Passes => true,
        Command::Live
        | Command::Save
        | Command::Groups
        | Command::Serve { .. }
        | Command::Replay
        | Command::Tally { .. }
        | Command::Make { .. } => false,
    }
}
