//! The whole program, over any source and sink.
ghost use Rattle.std.specs.Prelude.{◌≡◌, ◌≢◌, ◌+◌, ◌≤◌, List, ℕ, length, false, true, map, string_bytes, IfOk, OnErr};
ghost use Rattle.machine_profile.specs.declared.Chosen.{Chosen};
ghost use Rattle.command_words.specs.declared.command.Command.{Command};
ghost use Rattle.check_main.specs.Calls.{HasGiven, HasReadFor, IsCalled, IsDueFor, IsReading};
ghost use Rattle.check_main.specs.Complete.{EndsWell, IsUnhindered};
ghost use Rattle.input_answers.specs.Asked.{AsksCommand, has_sessions, reads_file, reads_input};
ghost use Rattle.input_answers.specs.Played.{played_by};
ghost use Rattle.check_main.specs.Top.{HasReadWithin, Ran, SourceUse, sink_use, source_use};
ghost use Rattle.knit_ports.specs.Whole.{GaveAtMost};

use crate::files::{check_source, passes_source, text_source};
use command_words::Command;
use input_answers::{
    Answer, Outcome, Plan, PlanFault, Status, Style, answer_by_blocks, answer_groups, answer_live,
    answer_made, answer_replay, answer_tally, plan_of,
};
use knit_base::NoMemory;
use knit_ports::{Ends, Gate, INPUT_LIMIT, InputFault, Sink, Source, read_input, write_report};
use live_talk::serve;
use std::alloc::Global;
use std::sync::Wait;
use std::thread::Threads;
use verdict_report::Refusal;

/// Does what the words behind the program's name ask for: reads the source to its end, makes the whole report, and only then
/// writes it to the sink. For words that are refused, or that ask for a made program, nothing is read.
///
/// Where the source tells the bytes that it has left and the sink those that it has taken, the report is the one that is due
/// for these very bytes, and the sink takes nothing else. Of a source that tells nothing, as standard input, the report
/// is due for some bytes. An input has at most 16,777,216 bytes; one byte more is read to see that it has not, and never more than that.
///
/// `serve` answers a conversation: each command is answered before more is heard, so what the sink takes is written piece by piece. Its
/// source and its sink tell nothing of the order of reads and writes, so here it is promised that some conversation was heard and said in
/// step, with this status; `live_talk::serve` promises it of the pieces that a port tells.
///
/// `live`, `save` and `groups` carry out the sessions of a script, each in a thread of its own, and may wait for other threads and for
/// the gate; nothing is claimed of how long. Every other command is done by `run_alone`, which waits for nobody. What the sessions did
/// is in the outcome, and the report tells it; the text of `save` keeps what the document began with, and the journal. `replay` reads
/// such a text, and tells the version at its end and its verdict; `tally` what blocks of that version come to.
///
/// The statuses are decided in this order:
/// - `Usage`: exactly where the words are outside the grammar or an option is out of its bounds.
/// - `ReadFault`: only where a read failed before the input was whole.
/// - `TooLarge`: exactly where the source gave a byte past the limit.
/// - `BadInput`: exactly where a line isn't UTF-8 or has more than 4,096 bytes, or else, for a script, where the lines spell none, or
///   else where the head is refused; for `replay` and `tally` exactly where the bytes are no saved text, of which the first bad line is
///   named, or else where `tally` is asked for blocks that aren't there.
/// - `TooLarge`: exactly where the body that `check`, `passes`, `make` or a script begins with has more than 1,048,576 lines, or more
///   than 65,536 blocks.
/// - `Broken`: for `check` and `passes`, exactly where a line of the body breaks a rule.
/// - `Done` otherwise. So it is for a script and a saved text, whatever the verdict on the document at its end.
///
/// `WriteFault` takes the place of any of these, only where a write failed; the sink then took a front of the report.
/// `NoMemory` may take it at any time before the first write, and the sink then took nothing.
///
/// So a run that nothing hinders ends well: where the words are lawful, the source tells an input within the grammars and limits
/// of their command, and no read and no write failed, the status is `Done`, or `Broken` as the verdict says, or `NoMemory`, if the run
/// ends.
pub fn top<R: Threads + Wait + Sync, S: Source, K: Sink, G: Gate + Sync>(
    rt: &R,
    alloc: Global,
    words: &[String],
    source: &mut S,
    sink: &mut K,
    gate: &G,
) -> Outcome
    ensures ran { Ran (map string_bytes words.now) (source_use S.left S.faults source.old source.new)
        (sink_use K.taken K.faults sink.old sink.new) (played_by result) result.status }
    ensures complete { (command : Command) (chosen : Chosen) (input : List ℕ)
        → IsUnhindered (map string_bytes words.now) command chosen input (source_use S.left S.faults source.old source.new)
        (sink_use K.taken K.faults sink.old sink.new)
        → EndsWell command chosen input result.status }
{
    match plan_of(alloc, words) {
        Ok(plan) => carry_out(rt, alloc, &plan, source, sink, gate),
        Err(PlanFault::Usage) => {
            let answer = Answer::refusal(alloc, Refusal::Usage, Status::Usage);
            end_with(alloc, answer, sink)
        }
        Err(PlanFault::NoMemory) => end_with(alloc, Err(NoMemory), sink),
    }
}

// Does what the plan asks for.
fn carry_out<R: Threads + Wait + Sync, S: Source, K: Sink, G: Gate + Sync>(
    rt: &R,
    alloc: Global,
    plan: &Plan,
    source: &mut S,
    sink: &mut K,
    gate: &G,
) -> Outcome
    ensures { (words : List (List ℕ)) → AsksCommand words plan.now.command plan.now.chosen → Ran words (source_use S.left S.faults source.old source.new)
        (sink_use K.taken K.faults sink.old sink.new) (played_by result) result.status }
{
    match plan.command {
        Command::Live | Command::Save | Command::Groups => {
            let answer = answer_sessions(rt, alloc, plan, source, gate);
            end_with(alloc, answer, sink)
        }
        Command::Serve { .. } => {
            keep_large_pieces(alloc);
            let mut ends = Ends { source, sink };
            let status = serve(rt, alloc, plan, &mut ends);
            Outcome::without_sessions(alloc, status)
        }
        Command::Check { .. }
        | Command::Text
        | Command::Passes
        | Command::Replay
        | Command::Tally { .. }
        | Command::Make { .. } => run_alone(rt, alloc, plan, source, sink),
    }
}

/// Does what the plan asks for, of a command that has no sessions: reads, answers and writes as `top` says. It waits for nobody.
pub(crate) fn run_alone<R: Threads + Sync, S: Source, K: Sink>(
    rt: &R,
    alloc: Global,
    plan: &Plan,
    source: &mut S,
    sink: &mut K,
) -> Outcome
    requires { has_sessions plan.now.command ≡ false }
    ensures ran { (words : List (List ℕ)) → AsksCommand words plan.now.command plan.now.chosen → Ran words (source_use S.left S.faults source.old source.new)
        (sink_use K.taken K.faults sink.old sink.new) (played_by result) result.status }
    ensures complete { (words : List (List ℕ)) (input : List ℕ)
        → IsUnhindered words plan.now.command plan.now.chosen input (source_use S.left S.faults source.old source.new)
        (sink_use K.taken K.faults sink.old sink.new)
        → EndsWell plan.now.command plan.now.chosen input result.status }
{
    let answer = answer_alone(rt, alloc, plan, source);
    end_with(alloc, answer, sink)
}

// What is due for the plan and for what the source gives, of a command that has no sessions.
fn answer_alone<R: Threads + Sync, S: Source>(
    rt: &R,
    alloc: Global,
    plan: &Plan,
    source: &mut S,
) -> Result<Answer, NoMemory>
    requires { has_sessions plan.now.command ≡ false }
    ensures ok { IfOk result (IsDueFor plan.now.command plan.now.chosen (source_use S.left S.faults source.old source.new)) }
    ensures err { OnErr result (HasReadFor plan.now.command (source_use S.left S.faults source.old source.new)) }
{
    match plan.command {
        Command::Check { .. } | Command::Text | Command::Passes => {
            answer_file(rt, alloc, plan, source)
        }
        Command::Replay | Command::Tally { .. } => {
            keep_large_pieces(alloc);
            answer_source(rt, alloc, plan, source)
        }
        Command::Make { rows, start } => {
            let ending = answer_made(rt, alloc, plan, rows, start)?;
            Ok(Answer::without_sessions(alloc, ending))
        }
        Command::Live | Command::Save | Command::Groups | Command::Serve { .. } => unreachable!(),
    }
}

// The same of a file: it is answered while it is read, unless its body is to open a book.
fn answer_file<R: Threads + Sync, S: Source>(
    rt: &R,
    alloc: Global,
    plan: &Plan,
    source: &mut S,
) -> Result<Answer, NoMemory>
    requires { reads_file plan.now.command ≡ true }
    ensures ok { IfOk result (IsDueFor plan.now.command plan.now.chosen (source_use S.left S.faults source.old source.new)) }
    ensures err { OnErr result (GaveAtMost (INPUT_LIMIT + 1) (S.left source.old) (S.left source.new)) }
{
    match plan.command {
        Command::Check { loops, json } => {
            if plan.by_blocks {
                return answer_source(rt, alloc, plan, source);
            }
            check_source(alloc, Style { loops, json }, plan, source)
        }
        Command::Passes => {
            if plan.by_blocks {
                return answer_source(rt, alloc, plan, source);
            }
            passes_source(alloc, plan, source)
        }
        Command::Text => text_source(alloc, plan, source),
        Command::Live
        | Command::Save
        | Command::Groups
        | Command::Serve { .. }
        | Command::Replay
        | Command::Tally { .. }
        | Command::Make { .. } => unreachable!(),
    }
}

// The same where the command reads an input whole.
fn answer_source<R: Threads + Sync, S: Source>(
    rt: &R,
    alloc: Global,
    plan: &Plan,
    source: &mut S,
) -> Result<Answer, NoMemory>
    requires reads { reads_input plan.now.command ≡ true }
    requires alone { has_sessions plan.now.command ≡ false }
    requires whole { plan.now.command ≢ Command.Text }
    ensures ok { IfOk result (IsDueFor plan.now.command plan.now.chosen (source_use S.left S.faults source.old source.new)) }
    ensures err { OnErr result (GaveAtMost (INPUT_LIMIT + 1) (S.left source.old) (S.left source.new)) }
{
    match read_whole(alloc, source)? {
        Reading::Whole(input) => answer_input(rt, alloc, plan, input),
        Reading::Refused(answer) => Ok(answer),
    }
}

// What is due for the plan and for what the source gives, of a command that carries out the sessions of a script.
fn answer_sessions<R: Threads + Wait + Sync, S: Source, G: Gate + Sync>(
    rt: &R,
    alloc: Global,
    plan: &Plan,
    source: &mut S,
    gate: &G,
) -> Result<Answer, NoMemory>
    requires sessions { has_sessions plan.now.command ≡ true }
    requires reads { reads_input plan.now.command ≡ true }
    ensures ok { IfOk result (IsDueFor plan.now.command plan.now.chosen (source_use S.left S.faults source.old source.new)) }
    ensures err { OnErr result (HasReadFor plan.now.command (source_use S.left S.faults source.old source.new)) }
{
    keep_large_pieces(alloc);
    match read_whole(alloc, source)? {
        Reading::Whole(input) => answer_script(rt, alloc, plan, input, gate),
        Reading::Refused(answer) => Ok(answer),
    }
}

// Asks for room for the longest input, and gives it back unused. The C library's allocator takes a large piece from the kernel and
// returns it there, until it is given one back; from then on it keeps pieces up to that size. So what an opening and its edits let go of
// serves those that come next, and the kernel needn't clear as many pages. Another allocator may make nothing of it, and nothing depends on
// whether there is room.
fn keep_large_pieces(alloc: Global) {
    let _ = Vec::<u8>::with_capacity(alloc, INPUT_LIMIT);
}

// What the reading of a source comes to.
#[derive(Drop)]
enum Reading {
    // The whole input.
    Whole(Vec<u8>),
    // The answer that is due because a read failed or the input is too large.
    Refused(Answer),
}

// Reads the source to its end.
fn read_whole<S: Source>(alloc: Global, source: &mut S) -> Result<Reading, NoMemory>
    ensures ok { IfOk result (IsReading (source_use S.left S.faults source.old source.new)) }
    ensures err { OnErr result (GaveAtMost (INPUT_LIMIT + 1) (S.left source.old) (S.left source.new)) }
{
    let input = match read_input(alloc, source, INPUT_LIMIT) {
        Ok(input) => input,
        Err(InputFault::Failed) => {
            let answer = Answer::refusal(alloc, Refusal::ReadFault, Status::ReadFault)?;
            return Ok(Reading::Refused(answer));
        }
        Err(InputFault::NoMemory) => return Err(NoMemory),
    };
    if input.len() > INPUT_LIMIT {
        let answer = Answer::refusal(alloc, Refusal::TooManyBytes, Status::TooLarge)?;
        return Ok(Reading::Refused(answer));
    }
    Ok(Reading::Whole(input))
}

// What is due for an input that was read whole, of a command that has no sessions.
fn answer_input<R: Threads + Sync>(
    rt: &R,
    alloc: Global,
    plan: &Plan,
    input: Vec<u8>,
) -> Result<Answer, NoMemory>
    requires size { length input.items ≤ INPUT_LIMIT }
    requires reads { reads_input plan.now.command ≡ true }
    requires alone { has_sessions plan.now.command ≡ false }
    requires whole { plan.now.command ≢ Command.Text }
    ensures { IfOk result (λ answer. (source : SourceUse) → HasGiven source input.items → IsDueFor plan.now.command plan.now.chosen source answer) }
{
    match plan.command {
        Command::Check { .. } | Command::Passes => {
            let ending = answer_by_blocks(rt, alloc, plan, input)?;
            Ok(Answer::without_sessions(alloc, ending))
        }
        Command::Replay => {
            let ending = answer_replay(rt, alloc, input)?;
            Ok(Answer::without_sessions(alloc, ending))
        }
        Command::Tally { from, to } => {
            let ending = answer_tally(rt, alloc, from, to, input)?;
            Ok(Answer::without_sessions(alloc, ending))
        }
        Command::Text
        | Command::Live
        | Command::Save
        | Command::Groups
        | Command::Serve { .. }
        | Command::Make { .. } => unreachable!(),
    }
}

// What is due for an input that was read whole, of a command that carries out the sessions of a script.
fn answer_script<R: Threads + Wait + Sync, G: Gate + Sync>(
    rt: &R,
    alloc: Global,
    plan: &Plan,
    input: Vec<u8>,
    gate: &G,
) -> Result<Answer, NoMemory>
    requires size { length input.items ≤ INPUT_LIMIT }
    requires sessions { has_sessions plan.now.command ≡ true }
    requires reads { reads_input plan.now.command ≡ true }
    ensures { IfOk result (λ answer. (source : SourceUse) → HasGiven source input.items → IsDueFor plan.now.command plan.now.chosen source answer) }
{
    match plan.command {
        Command::Live | Command::Save => answer_live(rt, alloc, plan, input, gate),
        Command::Groups => answer_groups(rt, alloc, plan, input, gate),
        Command::Check { .. }
        | Command::Text
        | Command::Passes
        | Command::Serve { .. }
        | Command::Replay
        | Command::Tally { .. }
        | Command::Make { .. } => unreachable!(),
    }
}

// Writes the text that is due, if there is memory for one. What the program then gives.
fn end_with<K: Sink>(alloc: Global, answer: Result<Answer, NoMemory>, sink: &mut K) -> Outcome
    ensures { (words : List (List ℕ)) (source : SourceUse) → IfOk answer (IsCalled words source) → OnErr answer (HasReadWithin words source)
        → Ran words source (sink_use K.taken K.faults sink.old sink.new) (played_by result) result.status }
{
    match answer {
        Ok(answer) => write_answer(answer, sink),
        Err(NoMemory) => Outcome::without_sessions(alloc, Status::NoMemory),
    }
}

// Writes the text that is due. What the program then gives.
fn write_answer<K: Sink>(answer: Answer, sink: &mut K) -> Outcome
    ensures { (words : List (List ℕ)) (source : SourceUse) → IsCalled words source answer
        → Ran words source (sink_use K.taken K.faults sink.old sink.new) (played_by result) result.status }
{
    let Answer { text, mut outcome } = answer;
    match write_report(sink, &text) {
        Ok(()) => outcome,
        Err(_) => {
            outcome.status = Status::WriteFault;
            outcome
        }
    }
}
