//! A carriage that carries out a program line by line.
ghost use Rattle.std.specs.Prelude.{◌≡◌, ◌+◌, ◌<◌, ◌≤◌, ◌^◌, ℕ, Bool, true, false, List, [], ◌∷◌, ◌++◌, length, IfOk, IfSome, None, OnOk, OnErr};
ghost use Rattle.knit_base.specs.declared.instr.Read.{Read};
ghost use Rattle.knit_base.specs.Lawful.{IsLawfulRead};
ghost use Rattle.knit_base.specs.Limits.{IsLawfulProfile};
ghost use Rattle.knit_base.specs.Usual.{usual_read};
ghost use Rattle.carriage_model.specs.Carriage.{HasRun, IsRunning, RanOn, RunsAsBefore, TellsRun, WentOver, StandsStill, profile_of, line_count, next_carriage_line, is_stopped};
ghost use Rattle.carriage_model.specs.Machine.{HasCarrierInSet, HasNeedlesInLine, HasRoomInLine};

use crate::facts::{loops_of, loops_of_usual};
use crate::machine::Machine;
use crate::{Facts, Verdict};
use knit_base::{Fault, NoMemory, Profile, Read, Usual};
use std::alloc::Global;

/// A carriage over a machine. It carries out the lines of a program one by one, from empty beds, up to the first that breaks
/// a rule. Later lines it passes over: they are counted, and change nothing. Where that is asked it keeps the loops that it
/// makes. A call that answers `NoMemory` leaves it as it was, so that the same line can be tried again.
#[derive(Drop)]
pub struct Carriage {
    profile: Profile,
    is_plain: bool,
    machine: Machine,
    first: u32,
    lines: u32,
    made: u32,
    loops: Option<Facts>,
    fault: Option<Fault>,
}

impl Carriage {
    /// A carriage before the line with this number, over empty beds. It takes memory for all needles of the profile at once.
    pub fn start(
        alloc: Global,
        profile: &Profile,
        first: u32,
        with_loops: bool,
    ) -> Result<Carriage, NoMemory>
        requires { IsLawfulProfile profile.now }
        ensures { IfOk result (HasRun profile.now with_loops first []) }
    {
        let loops = if with_loops {
            Some(Facts::new(alloc))
        } else {
            None
        };
        Ok(Carriage {
            profile: *profile,
            is_plain: !with_loops && profile.float.is_none(),
            machine: Machine::new(alloc, profile)?,
            first,
            lines: 0,
            made: 0,
            loops,
            fault: None,
        })
    }

    /// Carries out the next line, or passes it over behind a line that broke a rule. It takes memory where a needle gets more
    /// loops than it ever held, and for a loop that is kept.
    pub fn execute(&mut self, read: &Read) -> Result<(), NoMemory>
        requires running { IsRunning self.old }
        requires lawful { (carriers : ℕ) × IsLawfulRead (profile_of self.old) carriers read.now }
        requires lines { next_carriage_line self.old + 1 < 2 ^ 32 }
        ensures ok { OnOk result ((profile : Profile) (with_loops : Bool) (first : ℕ) (reads : List Read)
            → HasRun profile with_loops first reads self.old → HasRun profile with_loops first (reads ++ read.now ∷ []) self.new) }
        ensures err { OnErr result ((profile : Profile) (with_loops : Bool) (first : ℕ) (reads : List Read)
            → HasRun profile with_loops first reads self.old → HasRun profile with_loops first reads self.new) }
    {
        if self.is_stopped() {
            self.lines += 1;
            return Ok(());
        }
        let line = self.first + self.lines;
        match self.machine.broken(&self.profile, read) {
            Some(reason) => {
                self.fault = Some(Fault { line, reason });
                self.lines += 1;
                Ok(())
            }
            None => self.go_over(line, read),
        }
    }

    /// Carries out the next line, where none broke a rule yet, if no loops are kept, floats have no limit and it breaks no rule.
    /// `false` says that the line is to be carried out by another call, and that nothing was done.
    #[inline(always)]
    pub fn carry_usual(&mut self, usual: Usual) -> Result<bool, NoMemory>
        requires running { IsRunning self.old }
        requires lawful { (carriers : ℕ) × (carriers ≤ 64) × IsLawfulRead (profile_of self.old) carriers (usual_read usual) }
        requires lines { next_carriage_line self.old + 1 < 2 ^ 32 }
        requires going { is_stopped self.old ≡ false }
        ensures over { IfOk result (λ over. over ≡ true → RanOn (usual_read usual) self.old self.new) }
        ensures going { IfOk result (λ over. over ≡ true → is_stopped self.new ≡ false) }
        ensures same { IfOk result (λ over. over ≡ false → self.new ≡ self.old) }
        ensures err { OnErr result (RunsAsBefore self.old self.new) }
    {
        if !self.is_plain {
            return Ok(false);
        }
        if !self.machine.allows(&self.profile, usual) {
            return Ok(false);
        }
        let line = self.first + self.lines;
        self.go_over_plain(line, usual)?;
        Ok(true)
    }

    /// The same, whether or not loops are kept or floats have a limit. It belongs out of the caller's loop, where lines whose loops
    /// aren't kept are carried out faster without it.
    #[inline(always)]
    pub fn carry_with_loop(&mut self, usual: Usual) -> Result<bool, NoMemory>
        requires running { IsRunning self.old }
        requires lawful { (carriers : ℕ) × (carriers ≤ 64) × IsLawfulRead (profile_of self.old) carriers (usual_read usual) }
        requires lines { next_carriage_line self.old + 1 < 2 ^ 32 }
        ensures over { IfOk result (λ over. over ≡ true → RanOn (usual_read usual) self.old self.new) }
        ensures same { IfOk result (λ over. over ≡ false → self.new ≡ self.old) }
        ensures err { OnErr result (RunsAsBefore self.old self.new) }
    {
        if self.is_stopped() {
            self.lines += 1;
            return Ok(true);
        }
        if !self.machine.allows(&self.profile, usual) {
            return Ok(false);
        }
        if !self.machine.allows_float(&self.profile, usual) {
            return Ok(false);
        }
        let line = self.first + self.lines;
        self.go_over_usual(line, usual)?;
        Ok(true)
    }

    /// Whether a line broke a rule. Every later line is then passed over, whatever it says.
    #[inline(always)]
    pub fn is_stopped(&self) -> bool
        ensures { result ≡ is_stopped self.now }
    {
        self.fault.is_some()
    }

    /// Passes over so many lines behind one that broke a rule, whatever they say.
    pub fn pass_over(&mut self, count: u32)
        requires stopped { is_stopped self.old ≡ true }
        requires lines { next_carriage_line self.old + count < 2 ^ 32 }
        ensures { (profile : Profile) (with_loops : Bool) (first : ℕ) (reads more : List Read) → length more ≡ count
            → HasRun profile with_loops first reads self.old → HasRun profile with_loops first (reads ++ more) self.new }
    {
        self.lines += count;
    }

    /// How many lines were carried out or passed over.
    pub fn line_count(&self) -> u32
        ensures { result ≡ line_count self.now }
    {
        self.lines
    }

    /// The verdict on the lines so far, with the loops that they make where these were asked for. It takes memory for the list of
    /// the needles that hold loops.
    pub fn finish(self) -> Result<(Verdict, Option<Facts>), NoMemory>
        ensures { IfOk result (λ ended. (profile : Profile) (with_loops : Bool) (first : ℕ) (reads : List Read)
            → HasRun profile with_loops first reads self → TellsRun profile with_loops first reads ended.0 ended.1) }
    {
        match self.fault {
            Some(fault) => Ok((Verdict::Broken(fault), self.loops)),
            None => {
                let last = self.machine.finish(self.lines, self.made)?;
                Ok((Verdict::Sound(last), self.loops))
            }
        }
    }

    // Carries out a line that breaks no rule.
    fn go_over(&mut self, line: u32, read: &Read) -> Result<(), NoMemory>
        requires needles { HasNeedlesInLine self.old.machine read.now }
        requires room { HasRoomInLine self.old.machine read.now }
        requires lines { self.old.lines + 1 < 2 ^ 32 }
        requires made { self.old.made + 1 < 2 ^ 32 }
        requires loops { IfSome self.old.loops (λ loops. length loops + 1 < 2 ^ 32) }
        ensures ok { OnOk result (WentOver line read.now self.old self.new) }
        ensures err { OnErr result (StandsStill self.old self.new) }
    {
        match &mut self.loops {
            None => self.machine.step(line, read)?,
            Some(loops) => self.machine.step_with_loop(line, read, loops)?,
        }
        self.made += loops_of(read);
        self.lines += 1;
        Ok(())
    }

    // Carries out a line that breaks no rule, if most lines say the like, no loops are kept and floats have no limit.
    #[inline(always)]
    fn go_over_plain(&mut self, line: u32, usual: Usual) -> Result<(), NoMemory>
        requires floats { self.old.machine.keeps_lasts ≡ false }
        requires no_loops { self.old.loops ≡ None }
        requires needles { HasNeedlesInLine self.old.machine (usual_read usual) }
        requires room { HasRoomInLine self.old.machine (usual_read usual) }
        requires lines { self.old.lines + 1 < 2 ^ 32 }
        requires made { self.old.made + 1 < 2 ^ 32 }
        ensures ok { OnOk result (WentOver line (usual_read usual) self.old self.new) }
        ensures err { OnErr result (StandsStill self.old self.new) }
    {
        self.machine.step_usual(line, usual)?;
        self.made += loops_of_usual(usual);
        self.lines += 1;
        Ok(())
    }

    // Carries out a line that breaks no rule, if most lines say the like.
    #[inline(always)]
    fn go_over_usual(&mut self, line: u32, usual: Usual) -> Result<(), NoMemory>
        requires needles { HasNeedlesInLine self.old.machine (usual_read usual) }
        requires carrier { HasCarrierInSet usual }
        requires room { HasRoomInLine self.old.machine (usual_read usual) }
        requires lines { self.old.lines + 1 < 2 ^ 32 }
        requires made { self.old.made + 1 < 2 ^ 32 }
        requires loops { IfSome self.old.loops (λ loops. length loops + 1 < 2 ^ 32) }
        ensures ok { OnOk result (WentOver line (usual_read usual) self.old self.new) }
        ensures err { OnErr result (StandsStill self.old self.new) }
    {
        match &mut self.loops {
            None => self.machine.step_noting(line, usual)?,
            Some(loops) => self.machine.step_usual_with_loop(line, usual, loops)?,
        }
        self.made += loops_of_usual(usual);
        self.lines += 1;
        Ok(())
    }
}
