//! The work that carries out a file.
ghost use Rattle.std.specs.Prelude.{◌≡◌, ℕ, List, IfOk};
ghost use Rattle.knit_base.specs.Limits.{IsLawfulProfile};
ghost use Rattle.knitout_reader.specs.declared.head.Head.{Head};
ghost use Rattle.knitout_reader.specs.Head.{IsHead};
ghost use Rattle.file_run.specs.Runs.{HasRunFile, IsRun, StandsReady};

use crate::body_run::BodyRun;
use crate::judgement::Run;
use crate::taker::Taker;
use knit_base::{NoMemory, Profile};
use knitout_reader::{FileWork, Head};
use line_cutter::CutFault;
use std::alloc::Global;

/// Carries out the lines of a file's body one by one from empty beds, and hands their readings to what takes them.
#[derive(Drop)]
pub struct Runner<T> {
    profile: Profile,
    with_loops: bool,
    body: Option<BodyRun<T>>,
}

impl<T: Taker> Runner<T> {
    /// Before the file, on this machine. Loops are kept where that is asked.
    pub fn new(profile: &Profile, with_loops: bool) -> Runner<T>
        requires { IsLawfulProfile profile.now }
        ensures profile { result.profile ≡ profile.now }
        ensures way { result.with_loops ≡ with_loops }
        ensures ready { StandsReady T result result }
    {
        Runner {
            profile: *profile,
            with_loops,
            body: None,
        }
    }

    /// What was made of the file.
    pub fn finish(self) -> Result<Run<T>, NoMemory>
        requires { (start : Runner T) × (head : Head) × (lines : List (List ℕ)) × HasRunFile T T.has head lines start self }
        ensures { IfOk result (λ run. (start : Runner T) (head : Head) (lines : List (List ℕ)) → IsHead lines head
            → HasRunFile T T.has head lines start self → IsRun T T.has start.with_loops start.profile head.declared lines run) }
    {
        match self.body {
            Some(body) => body.finish(),
            None => unreachable!(),
        }
    }
}

impl<T: Taker> FileWork for Runner<T> {
    ghost saw = { λ lines start now. StandsReady T start now };

    ghost took = { HasRunFile T T.has };

    fn see(&mut self, _: &str) -> Result<(), NoMemory> {
        Ok(())
    }

    fn begin(&mut self, alloc: Global, head: &Head) -> Result<(), NoMemory> {
        let body = BodyRun::start(alloc, &self.profile, self.with_loops, head)?;
        self.body = Some(body);
        Ok(())
    }

    fn take_body(
        &mut self,
        alloc: Global,
        head: &Head,
        text: &[u8],
        before: u32,
    ) -> Result<u32, CutFault> {
        match &mut self.body {
            Some(body) => body.take_lines(alloc, head, text, before),
            None => unreachable!(),
        }
    }
}
