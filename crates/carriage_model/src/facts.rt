//! The loops that a program makes.
ghost use Rattle.std.specs.Prelude.{◌≡◌, ℕ, ◌+◌, ◌<◌, ◌≤◌, ◌^◌, ◌-◌, [], ◌∷◌, ◌++◌, is_some, length, All, IfOk, IfSome, OnOk, OnErr};
ghost use Rattle.knit_base.specs.declared.profile.Profile.{Profile};
ghost use Rattle.std.specs.Option.{option_to_list};
ghost use Rattle.knit_base.specs.Lawful.{IsLawfulRead};
ghost use Rattle.knit_base.specs.Limits.{IsLawfulProfile};
ghost use Rattle.knit_base.specs.Usual.{usual_read};
ghost use Rattle.carriage_model.specs.State.{State, empty_state};
ghost use Rattle.carriage_model.specs.Loops.{loops_made, fact_made, loop_of_instr, loop_formed, fact_of};
ghost use Rattle.carriage_model.specs.Verdict.{IsOfDeclared};

use crate::machine::Machine;
use crate::{Facts, LoopFact, LoopLines};
use knit_base::{Declared, Dir, Instr, Needle, NoMemory, Profile, Read, Reads, Usual, Yarns};
use std::alloc::Global;

/// The loop that the line with the number `line` makes, where the first of the readings is that of the line `first`. `None`
/// where it makes none: it forms no loop, it is none of these lines, or it is the first that breaks a rule or comes behind that
/// one.
///
/// It runs all lines before that one, from empty beds. What reads loops from a table can be held against it. `NoMemory` says that
/// memory ran out, and nothing of the loop.
pub fn fact_plain(
    alloc: Global,
    profile: &Profile,
    declared: &Declared,
    reads: &Reads,
    first: u32,
    line: u32,
) -> Result<Option<LoopFact>, NoMemory>
    requires profile { IsLawfulProfile profile.now }
    requires lawful { All (IsLawfulRead profile.now (length declared.now)) reads.now }
    requires lines { first + length reads.now < 2 ^ 32 }
    ensures fact { IfOk result (λ fact. fact ≡ fact_of line (loops_made profile.now empty_state first reads.now)) }
    ensures carriers { IfOk result (λ fact. IfSome fact (IsOfDeclared (length declared.now))) }
{
    let mut machine = Machine::new(alloc, profile)?;
    for (i, read) in reads.as_slice().iter().enumerate() {
        let at = first + i as u32;
        if machine.broken(profile, read).is_some() {
            return Ok(None);
        }
        if at == line {
            return machine.fact_made(at, read);
        }
        machine.step(at, read)?;
    }
    Ok(None)
}

impl Machine {
    ghost use Rattle.carriage_model.specs.Steps.{step};
    ghost use Rattle.carriage_model.specs.Machine.{Represents, StandsAsBefore, IsSameKind, HasNeedles, HasNeedlesInLine, HasCarrierInSet, HasRoomInLine};

    /// Carries out this line, which breaks no rule, and appends the loop that it makes. After `NoMemory` both stand as before.
    pub fn step_with_loop(
        &mut self,
        line: u32,
        read: &Read,
        loops: &mut Facts,
    ) -> Result<(), NoMemory>
        requires needles { HasNeedlesInLine self.old read.now }
        requires room { HasRoomInLine self.old read.now }
        requires loops { length loops.old < 2 ^ 32 - 1 }
        ensures loops { OnOk result ((s : State) → Represents self.old s → loops.new ≡ loops.old ++ option_to_list (fact_made line read.now s)) }
        ensures ok { OnOk result ((profile : Profile) (s : State) → self.old.keeps_lasts ≡ is_some profile.float → Represents self.old s → Represents self.new (step profile line read.now s)) }
        ensures kept { OnOk result (IsSameKind self.old self.new) }
        ensures err { OnErr result (StandsAsBefore self.old self.new) }
        ensures err_loops { OnErr result (loops.new ≡ loops.old) }
    {
        let count = loops.len();
        self.push_made(line, read, loops)?;
        let stepped = self.step(line, read);
        if stepped.is_err() {
            loops.truncate(count);
        }
        stepped
    }

    /// Carries out this line, which breaks no rule, and appends the loop that it makes, if most lines say the like.
    pub fn step_usual_with_loop(
        &mut self,
        line: u32,
        usual: Usual,
        loops: &mut Facts,
    ) -> Result<(), NoMemory>
        requires needles { HasNeedlesInLine self.old (usual_read usual) }
        requires carrier { HasCarrierInSet usual }
        requires room { HasRoomInLine self.old (usual_read usual) }
        requires loops { length loops.old < 2 ^ 32 - 1 }
        ensures loops { OnOk result ((s : State) → Represents self.old s → loops.new ≡ loops.old ++ option_to_list (fact_made line (usual_read usual) s)) }
        ensures ok { OnOk result ((profile : Profile) (s : State) → self.old.keeps_lasts ≡ is_some profile.float → Represents self.old s → Represents self.new (step profile line (usual_read usual) s)) }
        ensures kept { OnOk result (IsSameKind self.old self.new) }
        ensures err { OnErr result (StandsAsBefore self.old self.new) }
        ensures err_loops { OnErr result (loops.new ≡ loops.old) }
    {
        let made = loops.len();
        self.push_usual(line, usual, loops)?;
        let stepped = self.step_noting(line, usual);
        if stepped.is_err() {
            loops.truncate(made);
        }
        stepped
    }

    // Appends the loop that this line makes if it breaks no rule.
    fn push_made(&self, line: u32, read: &Read, loops: &mut Facts) -> Result<(), NoMemory>
        requires needles { HasNeedlesInLine self.now read.now }
        requires loops { length loops.old < 2 ^ 32 - 1 }
        ensures ok { OnOk result ((s : State) → Represents self.now s → loops.new ≡ loops.old ++ option_to_list (fact_made line read.now s)) }
        ensures err { OnErr result (loops.new ≡ loops.old) }
    {
        match self.fact_made(line, read)? {
            Some(fact) => push_fact(&fact, loops),
            None => Ok(()),
        }
    }

    // Appends the loop that this line makes if it breaks no rule, if most lines say the like.
    fn push_usual(&self, line: u32, usual: Usual, loops: &mut Facts) -> Result<(), NoMemory>
        requires needles { HasNeedlesInLine self.now (usual_read usual) }
        requires loops { length loops.old < 2 ^ 32 - 1 }
        ensures ok { OnOk result ((s : State) → Represents self.now s → loops.new ≡ loops.old ++ option_to_list (fact_made line (usual_read usual) s)) }
        ensures err { OnErr result (loops.new ≡ loops.old) }
    {
        match usual {
            Usual::Knit(dir, n, c) => loops.push(line, n, dir, &[c], self.beds.stack(n)),
            Usual::Tuck(dir, n, c) => loops.push(line, n, dir, &[c], &[]),
            Usual::Xfer(_, _) => Ok(()),
        }
    }

    // The loop that this line makes if it breaks no rule.
    fn fact_made(&self, line: u32, read: &Read) -> Result<Option<LoopFact>, NoMemory>
        requires { HasNeedlesInLine self.now read.now }
        ensures { IfOk result (λ fact. (s : State) → Represents self.now s → fact ≡ fact_made line read.now s) }
    {
        match read {
            Read::Instr(instr) => self.loop_of_instr(line, instr),
            _ => Ok(None),
        }
    }

    fn loop_of_instr(&self, line: u32, instr: &Instr) -> Result<Option<LoopFact>, NoMemory>
        requires { HasNeedles self.now instr.now }
        ensures { IfOk result (λ fact. (s : State) → Represents self.now s → fact ≡ loop_of_instr line instr.now s) }
    {
        match instr {
            Instr::Knit(dir, n, yarns) => formed(line, *dir, *n, yarns, self.beds.copied(*n)?),
            Instr::Tuck(dir, n, yarns) => {
                formed(line, *dir, *n, yarns, LoopLines::new(self.beds.alloc))
            }
            Instr::Split(dir, n, _, yarns) => formed(line, *dir, *n, yarns, self.beds.copied(*n)?),
            _ => Ok(None),
        }
    }
}

// Appends a copy of the loop.
fn push_fact(fact: &LoopFact, loops: &mut Facts) -> Result<(), NoMemory>
    requires { length loops.old < 2 ^ 32 - 1 }
    ensures ok { OnOk result (loops.new ≡ loops.old ++ fact.now ∷ []) }
    ensures err { OnErr result (loops.new ≡ loops.old) }
{
    let yarns = fact.yarns.as_slice();
    let through = fact.through.as_slice();
    loops.push(fact.line, fact.needle, fact.dir, yarns, through)
}

fn formed(
    line: u32,
    dir: Dir,
    needle: Needle,
    yarns: &Yarns,
    through: LoopLines,
) -> Result<Option<LoopFact>, NoMemory>
    ensures { IfOk result (λ fact. fact ≡ loop_formed line dir needle yarns.now through) }
{
    if yarns.len() == 0 {
        return Ok(None);
    }
    Ok(Some(LoopFact {
        line,
        needle,
        dir,
        yarns: yarns.try_clone()?,
        through,
    }))
}

/// How many loops the line makes if it breaks no rule.
pub(crate) fn loops_of(read: &Read) -> u32
    ensures counts { (k : ℕ) (s : State) → result ≡ length (option_to_list (fact_made k read.now s)) }
    ensures one { result ≤ 1 }
{
    let Read::Instr(instr) = read else {
        return 0;
    };
    match instr.forming_needle() {
        Some(_) => 1,
        None => 0,
    }
}

/// How many loops the line makes if it breaks no rule.
#[inline(always)]
pub(crate) fn loops_of_usual(usual: Usual) -> u32
    ensures counts { (k : ℕ) (s : State) → result ≡ length (option_to_list (fact_made k (usual_read usual) s)) }
    ensures one { result ≤ 1 }
{
    match usual {
        Usual::Knit(_, _, _) | Usual::Tuck(_, _, _) => 1,
        Usual::Xfer(_, _) => 0,
    }
}
