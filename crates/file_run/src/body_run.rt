//! The lines behind a file's head, carried out as they come.
ghost use Rattle.std.specs.Prelude.{◌≡◌, ◌≤◌, ◌<◌, ◌+◌, ◌^◌, ℕ, Bool, true, false, List, [], ◌++◌, length, IfErr, IfOk, OnOk};
ghost use Rattle.knit_base.specs.Lawful.{IsLawfulRead};
ghost use Rattle.knit_base.specs.Limits.{IsLawfulProfile};
ghost use Rattle.knit_base.specs.Lines.{HasNoLineEnd, lines_of};
ghost use Rattle.knit_base.specs.Usual.{usual_read};
ghost use Rattle.line_cutter.specs.Cut.{HasGoodLines, IsFirstBadBehind, IsNextRefused, GoodLineStandsAt};
ghost use Rattle.knitout_reader.specs.declared.head.Head.{Head};
ghost use Rattle.knitout_reader.specs.Head.{IsHead};
ghost use Rattle.carriage_model.specs.Carriage.{IsRunning, RanOn, is_stopped, next_carriage_line, profile_of};
ghost use Rattle.file_run.specs.Runs.{CarriesOut, HasRunBody, IsRefusedHere, IsRun, KeepsBroken, PassesOver, TakesAnyMore, TakesBehind};

use crate::judgement::{Judgement, Run};
use crate::taker::Taker;
use carriage_model::Carriage;
use knit_base::{NoMemory, Profile, Text, Usual};
use knitout_reader::{ByteNames, Head, loose_line, read_line, usual_line, usual_reading};
use line_cutter::{CutFault, count_lines, line_at};
use std::alloc::Global;

/// A carriage over the lines behind a file's head, what takes their readings, and the line that broke a rule, if one did.
#[derive(Drop)]
pub struct BodyRun<T> {
    profile: Profile,
    names: ByteNames,
    carriage: Carriage,
    taker: T,
    broken: Option<Text>,
}

impl<T: Taker> BodyRun<T> {
    /// Before the first line behind this head, over empty beds.
    pub fn start(
        alloc: Global,
        profile: &Profile,
        with_loops: bool,
        head: &Head,
    ) -> Result<BodyRun<T>, NoMemory>
        requires lawful { IsLawfulProfile profile.now }
        requires few { head.now.lines ≤ 33554432 }
        ensures profile { IfOk result (λ run. run.profile ≡ profile.now) }
        ensures none { IfOk result (λ run. (lines : List (List ℕ)) → length lines ≡ head.now.lines
            → HasRunBody T T.has with_loops head.now lines run) }
    {
        Ok(BodyRun {
            profile: *profile,
            names: ByteNames::of(&head.declared),
            carriage: Carriage::start(alloc, profile, head.lines + 1, with_loops)?,
            taker: T::start(alloc, head.lines + 1)?,
            broken: None,
        })
    }

    /// Carries out the lines of these bytes, before which the file has so many, and says how many they are. Behind a line that broke a rule
    /// they are only counted, where their readings aren't wanted.
    pub fn take_lines(
        &mut self,
        alloc: Global,
        head: &Head,
        text: &[u8],
        before: u32,
    ) -> Result<u32, CutFault>
        requires size { length text.now ≤ 16777216 }
        requires few { before ≤ 33554432 }
        requires ran { (with_loops : Bool) × (lines : List (List ℕ)) × (length lines ≡ before)
            × HasRunBody T T.has with_loops head.now lines self.old }
        ensures good { IfOk result (HasGoodLines text.now) }
        ensures ok { OnOk result ((with_loops : Bool) (lines : List (List ℕ)) → length lines ≡ before
            → HasRunBody T T.has with_loops head.now lines self.old
            → HasRunBody T T.has with_loops head.now (lines ++ lines_of text.now) self.new) }
        ensures profile { OnOk result (self.new.profile ≡ self.old.profile) }
        ensures err { IfErr result (IsFirstBadBehind before (lines_of text.now)) }
    {
        let mut start = 0;
        let mut count = 0;
        'running: while start < text.len() {
            if self.carriage.is_stopped() {
                let more = self.take_behind(alloc, head, &text[start..], before + count)?;
                return Ok(count + more);
            }
            start = self.take_line(alloc, head, text, start, before + count + 1)?;
            count += 1;
        }
        Ok(count)
    }

    // The same behind a line that broke a rule, where the carriage only counts lines. It is called once a window at most.
    #[inline(never)]
    fn take_behind(
        &mut self,
        alloc: Global,
        head: &Head,
        text: &[u8],
        before: u32,
    ) -> Result<u32, CutFault>
        requires size { length text.now ≤ 16777216 }
        requires few { before ≤ 50331648 }
        requires stopped { is_stopped self.old.carriage ≡ true }
        requires ran { (with_loops : Bool) × (lines : List (List ℕ)) × (length lines ≡ before)
            × HasRunBody T T.has with_loops head.now lines self.old }
        ensures good { IfOk result (HasGoodLines text.now) }
        ensures ok { OnOk result (TakesBehind T T.has head.now before (lines_of text.now) self.old self.new) }
        ensures err { IfErr result (IsFirstBadBehind before (lines_of text.now)) }
    {
        if self.taker.takes_nothing() {
            return self.pass_over(text, before);
        }
        let mut start = 0;
        let mut count = 0;
        'running: while start < text.len() {
            start = self.take_any(alloc, head, text, start, before + count + 1)?;
            count += 1;
        }
        Ok(count)
    }

    // Passes over the lines of these bytes, before which the file has so many, and says how many they are.
    fn pass_over(&mut self, text: &[u8], before: u32) -> Result<u32, CutFault>
        requires size { length text.now ≤ 16777216 }
        requires few { before ≤ 67108864 }
        requires stopped { is_stopped self.old.carriage ≡ true }
        requires idle { TakesAnyMore T T.has self.old.taker }
        requires next { next_carriage_line self.old.carriage ≡ before + 1 }
        ensures good { IfOk result (HasGoodLines text.now) }
        ensures ok { OnOk result (PassesOver T T.has (lines_of text.now) self.old self.new) }
        ensures err { IfErr result (IsFirstBadBehind before (lines_of text.now)) }
    {
        let count = count_lines(text, before)?;
        self.carriage.pass_over(count);
        Ok(count)
    }

    // Carries out the line that begins at `start`, which has this number, and says where the next one begins.
    #[inline(always)]
    fn take_line(
        &mut self,
        alloc: Global,
        head: &Head,
        text: &[u8],
        start: usize,
        number: u32,
    ) -> Result<usize, CutFault>
        requires some { start < length text.now }
        requires size { length text.now ≤ 16777216 }
        requires few { number ≤ 67108865 }
        requires ran { (with_loops : Bool) × (lines : List (List ℕ)) × (length lines + 1 ≡ number)
            × HasRunBody T T.has with_loops head.now lines self.old }
        requires going { is_stopped self.old.carriage ≡ false }
        ensures ok { IfOk result (λ next. CarriesOut T T.has head.now text.now start next self.old self.new) }
        ensures err { IfErr result (IsRefusedHere text.now start number) }
    {
        let Some((usual, len)) = usual_line(&text[start..], &self.profile, &self.names) else {
            return self.take_loose(alloc, head, text, start, number);
        };
        self.taker.take_usual(alloc, usual)?;
        if self.carriage.carry_usual(usual)? {
            return Ok(start + len);
        }
        carry_on(alloc, usual, &mut self.carriage)?;
        keep_broken_at(alloc, text, start, number, &self.carriage, &mut self.broken)?;
        Ok(start + len)
    }

    // The same of a line in another spelling. It stays out of the loop above.
    #[inline(never)]
    fn take_loose(
        &mut self,
        alloc: Global,
        head: &Head,
        text: &[u8],
        start: usize,
        number: u32,
    ) -> Result<usize, CutFault>
        requires some { start < length text.now }
        requires size { length text.now ≤ 16777216 }
        requires few { number ≤ 67108865 }
        requires ran { (with_loops : Bool) × (lines : List (List ℕ)) × (length lines + 1 ≡ number)
            × HasRunBody T T.has with_loops head.now lines self.old }
        ensures ok { IfOk result (λ next. CarriesOut T T.has head.now text.now start next self.old self.new) }
        ensures err { IfErr result (IsRefusedHere text.now start number) }
    {
        let Some((said, len)) = loose_line(&text[start..], &self.profile, &self.names) else {
            return self.take_any(alloc, head, text, start, number);
        };
        self.taker.take_usual(alloc, said)?;
        carry_on(alloc, said, &mut self.carriage)?;
        keep_broken_at(alloc, text, start, number, &self.carriage, &mut self.broken)?;
        Ok(start + len)
    }

    // The same, by the whole grammar. It is seldom called, so it stays out of the loop above.
    #[inline(never)]
    fn take_any(
        &mut self,
        alloc: Global,
        head: &Head,
        text: &[u8],
        start: usize,
        number: u32,
    ) -> Result<usize, CutFault>
        requires some { start < length text.now }
        requires size { length text.now ≤ 16777216 }
        requires few { number ≤ 67108865 }
        requires ran { (with_loops : Bool) × (lines : List (List ℕ)) × (length lines + 1 ≡ number)
            × HasRunBody T T.has with_loops head.now lines self.old }
        ensures ok { IfOk result (λ next. CarriesOut T T.has head.now text.now start next self.old self.new) }
        ensures err { IfErr result (IsRefusedHere text.now start number) }
    {
        let (line, next) = line_at(text, start, number)?;
        let read = read_line(alloc, line, &self.profile, &head.declared)?;
        self.taker.take(alloc, &read)?;
        self.carriage.execute(&read)?;
        keep_broken(alloc, line, &self.carriage, &mut self.broken)?;
        Ok(next)
    }

    /// What was made of the lines.
    pub fn finish(self) -> Result<Run<T>, NoMemory>
        ensures { IfOk result (λ run. (with_loops : Bool) (head : Head) (lines : List (List ℕ)) → IsHead lines head
            → HasRunBody T T.has with_loops head lines self → IsRun T T.has with_loops self.profile head.declared lines run) }
    {
        let (verdict, loops) = self.carriage.finish()?;
        Ok(Run {
            judgement: Judgement { verdict, loops },
            broken: self.broken,
            taker: self.taker,
        })
    }
}

// Carries out a usual line, also where its loop is kept or it breaks a rule. It stays out of the loop that most lines take.
#[inline(never)]
fn carry_on(alloc: Global, usual: Usual, carriage: &mut Carriage) -> Result<(), NoMemory>
    requires running { IsRunning carriage.old }
    requires lawful { (carriers : ℕ) × (carriers ≤ 64) × IsLawfulRead (profile_of carriage.old) carriers (usual_read usual) }
    requires lines { next_carriage_line carriage.old + 1 < 2 ^ 32 }
    ensures { OnOk result (RanOn (usual_read usual) carriage.old carriage.new) }
{
    if carriage.carry_with_loop(usual)? {
        return Ok(());
    }
    let read = usual_reading(alloc, usual);
    carriage.execute(&read)
}

// Keeps the line that begins at `start`, which has this number, where the carriage has stopped and none is kept.
#[inline(always)]
fn keep_broken_at(
    alloc: Global,
    text: &[u8],
    start: usize,
    number: u32,
    carriage: &Carriage,
    broken: &mut Option<Text>,
) -> Result<(), CutFault>
    requires some { start < length text.now }
    requires size { length text.now ≤ 16777216 }
    ensures ok { OnOk result ((line : List ℕ) (next : ℕ) → GoodLineStandsAt text.now start line next
        → KeepsBroken carriage.now.fault broken.old line broken.new) }
    ensures err { IfErr result (IsRefusedHere text.now start number) }
{
    if !carriage.is_stopped() {
        return Ok(());
    }
    let (line, _) = line_at(text, start, number)?;
    keep_broken(alloc, line, carriage, broken)?;
    Ok(())
}

// Keeps the line where the carriage has stopped and none is kept.
#[inline(never)]
fn keep_broken(
    alloc: Global,
    line: &str,
    carriage: &Carriage,
    broken: &mut Option<Text>,
) -> Result<(), NoMemory>
    requires { HasNoLineEnd line.now }
    ensures { OnOk result (KeepsBroken carriage.now.fault broken.old line.now broken.new) }
{
    if !carriage.is_stopped() || broken.is_some() {
        return Ok(());
    }
    *broken = Some(Text::of(alloc, line)?);
    Ok(())
}
