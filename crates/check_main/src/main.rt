//! The checker of knitout programs, whole: from the words of the command line and the bytes of a source to the bytes that a
//! sink takes and an exit status.
//!
//! Promises, for every source and every sink, that `top` ends with the status that is due for the words and the input, that
//! the sink then took exactly the report that is due, and that every other end has its cause (`specs/Top`); so a run that nothing
//! hinders ends well (`specs/Complete`). `run_alone`, by which a command without sessions is done, waits for nobody. What is due is told
//! by `input_answers`. Below it stand all crates of the project.
#![tactic(auto)]

ghost use Rattle.std.specs.Prelude.{◌≡◌};
ghost use Rattle.input_answers.specs.Codes.{code_of};

#[cfg(test)]
mod device_tests;
mod files;
#[cfg(test)]
mod order_tests;
#[cfg(test)]
mod tests;
mod top;

use input_answers::{Outcome, Status};
use knit_ports::{IdleGate, ReaderSource, WriterSink};
use std::process::ExitCode;
use std::rt::Env;
use std::{env, io, mem};
use top::top;

fn main(rt: HostRuntime) -> ExitCode {
    let mut source = ReaderSource::of(rt.reader());
    let mut sink = WriterSink::of(io::writer(&rt));
    let outcome = match words(&rt) {
        Ok(words) => top(&rt, rt.alloc(), &words, &mut source, &mut sink, &IdleGate),
        Err(error) if error.kind() == io::ErrorKind::OutOfMemory => {
            Outcome::without_sessions(rt.alloc(), Status::NoMemory)
        }
        // Words that aren't text are outside the grammar, as no words are.
        Err(_) => top(&rt, rt.alloc(), &[], &mut source, &mut sink, &IdleGate),
    };
    ExitCode::from(exit_code(outcome))
}

// The exit status of a run that ended so. The system takes back at once what a script, its journal and its replies take.
fn exit_code(outcome: Outcome) -> u8
    ensures { result ≡ code_of outcome.status }
{
    let status = outcome.status;
    mem::forget(outcome);
    status.code()
}

// The words behind the program's name.
fn words(rt: &(impl Env + AllocGlobal)) -> io::Result<Vec<String>> {
    let words = env::args(rt)?.skip(1).collect(rt.alloc())?;
    Ok(words)
}
