//! The verdict that the face of a whole program tells.
ghost use Rattle.std.specs.Prelude.{◌≡◌, ◌+◌, ◌<◌, ◌≤◌, ◌^◌, ◌++◌, [], ◌∷◌, All, IfErr, IfOk, List, OnOk, filter, find, length, map, not, option_map};
ghost use Rattle.knit_base.specs.declared.instr.Read.{Read};
ghost use Rattle.knit_base.specs.declared.profile.Profile.{Profile};
ghost use Rattle.carriage_model.specs.Loops.{loops_made};
ghost use Rattle.carriage_model.specs.Run.{run};
ghost use Rattle.carriage_model.specs.State.{empty_state};
ghost use Rattle.carriage_model.specs.Verdict.{IsVerdict, brief_of};
ghost use Rattle.face_data.specs.Conditions.{ask_of, holds, part_of};
ghost use Rattle.face_data.specs.Goodness.{IsGoodFace};
ghost use Rattle.face_data.specs.Segments.{OffsetFits, new_of, read_segs};
ghost use Rattle.face_data.specs.Stands.{StandsFor};
ghost use Rattle.face_data.specs.Summaries.{state_after_changes, summary_outcome, fault_raised};
ghost use Rattle.face_data.specs.Summaries.Outcome.{went_on, faulted};
ghost use Rattle.face_data.specs.Verdicts.{holds_loops, stacks_left, verdict_of};
ghost use Rattle.face_data.specs.View.{IsPacked, changed_of, summary_of};

use crate::{Change, Check, Cond, Effect, Ending, FaceView, Part, Seg};
use carriage_model::{Brief, Final, LoopLines, Stack, Stacks, Verdict};
use knit_base::{Fault, Needle, NoMemory, Quarter};
use std::alloc::Global;

/// The verdict on the lines that the face stands for, run from empty beds. The first of them has the number `first`, by which loops
/// and a fault are named. `NoMemory` also comes where a list would have more items than a `u32` counts.
pub fn verdict_of(alloc: Global, face: &FaceView, first: u32) -> Result<Verdict, NoMemory>
    requires good { IsGoodFace (summary_of face.now) }
    requires packed { IsPacked face.now }
    requires lines { first + face.now.lines < 2 ^ 32 }
    ensures verdict { IfOk result (λ verdict. verdict ≡ verdict_of (summary_of face.now) first) }
    ensures stands { IfOk result (λ verdict. (profile : Profile) (lines : List Read) → StandsFor profile (summary_of face.now) lines → IsVerdict (length lines) verdict (run profile empty_state first lines) (loops_made profile empty_state first lines)) }
{
    match on_empty_beds(face, first) {
        Err(fault) => Ok(Verdict::Broken(fault)),
        Ok(effect) => Ok(Verdict::Sound(Final {
            lines: face.lines,
            made: face.made,
            rack: effect.rack.unwrap_or(Quarter(0)),
            ins: effect.came,
            hook: effect.hook.unwrap_or(0),
            stacks: stacks_of(alloc, face, first)?,
        })),
    }
}

/// The same in short. Takes no memory.
pub fn brief_of(face: &FaceView, first: u32) -> Brief
    requires good { IsGoodFace (summary_of face.now) }
    requires packed { IsPacked face.now }
    requires lines { first + face.now.lines < 2 ^ 32 }
    ensures { result ≡ brief_of (verdict_of (summary_of face.now) first) }
{
    match on_empty_beds(face, first) {
        Err(fault) => Brief::Broken(fault),
        Ok(effect) => Brief::Sound {
            lines: face.lines,
            made: face.made,
            held: count_new(face.segs) as u32,
            rack: effect.rack.unwrap_or(Quarter(0)),
        },
    }
}

// What the lines do to empty beds: an effect, or the fault at which they stop.
#[tactic(auto, using(crate::proofs::EmptyBeds::faults))]
fn on_empty_beds(face: &FaceView, first: u32) -> Result<Effect, Fault>
    requires good { IsGoodFace (summary_of face.now) }
    requires lines { first + face.now.lines < 2 ^ 32 }
    ensures through { IfOk result (λ effect. summary_outcome (summary_of face.now) empty_state first ≡ went_on (state_after_changes effect face.now.lasts.now (map (changed_of face.now.segs.now) face.now.changes.now) empty_state first)) }
    ensures stops { IfErr result (λ fault. summary_outcome (summary_of face.now) empty_state first ≡ faulted fault) }
{
    if let Some(fault) = fault_on_empty(face.checks, face.names) {
        return Err(raised(fault, first));
    }
    match face.ending {
        Ending::Through(effect) => Ok(effect),
        Ending::Broken(fault) => Err(raised(fault, first)),
    }
}

// The fault of the first condition that doesn't hold there.
fn fault_on_empty(checks: &[Check], names: &[Needle]) -> Option<Fault>
    ensures { result ≡ option_map (λ c. c.fault) (find (λ c. not (holds (ask_of names.now c.cond) empty_state)) checks.now) }
{
    checks
        .iter()
        .find(|check| !holds_on_empty(&check.cond, names))
        .map(|check| check.fault)
}

// Whether a condition holds on empty beds, where the rack is 0, no carrier is in action or in the hook, and none has a last needle.
#[tactic(auto, using(crate::proofs::EmptyBeds::sizes))]
fn holds_on_empty(cond: &Cond, names: &[Needle]) -> bool
    ensures { result ≡ holds (ask_of names.now cond.now) empty_state }
{
    match cond {
        Cond::RackIs(rack) => rack.0 == 0,
        Cond::CarrierIn(_) => false,
        Cond::CarrierOut(_) => true,
        Cond::HookFree => true,
        Cond::HookIs(set) => *set == 0,
        Cond::HookLacks(_) => true,
        Cond::SizeAtMost(_, _) => true,
        Cond::LastNear(_, _, _) => true,
    }
}

// The fault, its line counted from this one.
fn raised(fault: Fault, first: u32) -> Fault
    requires { first + fault.line < 2 ^ 32 }
    ensures { result ≡ fault_raised first fault }
{
    Fault {
        line: first + fault.line,
        reason: fault.reason,
    }
}

// The needles that hold loops at the end.
fn stacks_of(alloc: Global, face: &FaceView, first: u32) -> Result<Stacks, NoMemory>
    requires good { IsGoodFace (summary_of face.now) }
    requires packed { IsPacked face.now }
    requires lines { first + face.now.lines < 2 ^ 32 }
    ensures { IfOk result (λ stacks. stacks ≡ stacks_left first (map (changed_of face.now.segs.now) face.now.changes.now)) }
{
    let mut stacks = Stacks::new(alloc);
    for change in face.changes {
        let segs = segs_at(face.segs, change.part);
        let loops = loops_of(alloc, segs, first)?;
        let needle = change.needle;
        add_stack(Stack { needle, loops }, &mut stacks)?;
    }
    Ok(stacks)
}

// Adds the stack if it holds loops.
fn add_stack(stack: Stack, stacks: &mut Stacks) -> Result<(), NoMemory>
    ensures { OnOk result (stacks.new ≡ stacks.old ++ filter holds_loops (stack ∷ [])) }
{
    if stack.loops.is_empty() {
        return Ok(());
    }
    if stacks.len() == u32::MAX {
        return Err(NoMemory);
    }
    stacks.push(stack)
}

/// The segments of a part.
pub(crate) fn segs_at(segs: &[Seg], part: Part) -> &[Seg]
    requires { part.start + part.len ≤ length segs.now }
    ensures { result.now ≡ part_of segs.now part }
{
    let start = part.start as usize;
    let end = start + part.len as usize;
    &segs[start..end]
}

/// The new loops among the segments, named by their lines, where the needles held nothing at the block's entry. The block's first line has
/// the number `first`. `NoMemory` also comes where there would be more loops than a `u32` counts.
pub fn loops_of(alloc: Global, segs: &[Seg], first: u32) -> Result<LoopLines, NoMemory>
    requires { All (OffsetFits first) segs.now }
    ensures { IfOk result (λ loops. loops ≡ read_segs empty_state first segs.now) }
{
    let mut loops = LoopLines::new(alloc);
    for seg in segs {
        add_loop(*seg, first, &mut loops)?;
    }
    Ok(loops)
}

fn add_loop(seg: Seg, first: u32, loops: &mut LoopLines) -> Result<(), NoMemory>
    requires { OffsetFits first seg }
    ensures { OnOk result (loops.new ≡ loops.old ++ read_segs empty_state first (seg ∷ [])) }
{
    let Seg::New(offset) = seg else {
        return Ok(());
    };
    if loops.len() == u32::MAX {
        return Err(NoMemory);
    }
    loops.push(first + offset)
}

// How many of the segments are new loops.
fn count_new(segs: &[Seg]) -> usize
    ensures { result ≡ new_of segs.now }
{
    let mut count = 0;
    for seg in segs {
        if let Seg::New(_) = *seg {
            count += 1;
        }
    }
    count
}
