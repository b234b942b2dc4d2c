//! The loops on the needles of the beds, found by one index.
ghost use Rattle.std.specs.Prelude.{◌≡◌, ◌≢◌, ◌+◌, ◌*◌, ◌<◌, ◌≤◌, ◌^◌, ℕ, pos, ◌≤ℤ◌, ◌+ℤ◌, length, [], ◌∷◌, ◌++◌, IfOk, OnOk, OnErr, slice_index_or};
ghost use Rattle.knit_base.specs.Needle.{is_front};
ghost use Rattle.carriage_model.specs.Places.{stack_place, stack_in, first_of_bed, bed_at, needle_at};
ghost use Rattle.carriage_model.specs.Verdict.{AreStacks};

use crate::{LoopLines, Stack, Stacks};
use knit_base::{Bed, Needle, NoMemory};
use std::alloc::Global;
use std::mem;

/// The loops on the needles: one bed after the other in the order of `Bed`, each from its lowest needle on. An emptied
/// needle keeps its room, so that most stitches ask for no memory.
#[derive(Drop)]
pub(crate) struct Beds {
    pub(crate) alloc: Global,
    low: i16,
    width: usize,
    stacks: Vec<LoopLines>,
    ghost full: { length stacks.items ≡ 4 * width },
    ghost reach: { (low +ℤ pos width) ≤ℤ pos 32768 },
}

impl Beds {
    ghost use Rattle.carriage_model.specs.State.{with_stack, stacks_transferred};
    ghost use Rattle.carriage_model.specs.Beds.{BedsHold, HoldsAsBefore, IsOn, loops_at};

    /// The beds with no loop on them, from the lowest needle to the highest.
    pub fn new(alloc: Global, low: i16, high: i16) -> Result<Self, NoMemory>
        requires { low ≤ℤ high }
        ensures low { IfOk result (λ beds. beds.low ≡ low) }
        ensures width { IfOk result (λ beds. (low +ℤ pos beds.width) ≡ (high +ℤ pos 1)) }
        ensures bare { IfOk result (λ beds. (n : Needle) → loops_at beds n ≡ []) }
    {
        let width = (i32::from(high) - i32::from(low) + 1) as usize;
        let stacks = empty_stacks(alloc, 4 * width)?;
        Ok(Beds {
            alloc,
            low,
            width,
            stacks,
        })
    }

    /// How many loops a needle holds.
    #[inline(always)]
    pub fn loops_on(&self, n: Needle) -> u32
        requires { IsOn self.now n.at }
        ensures { result ≡ length (loops_at self.now n) }
    {
        self.stacks[self.place(n)].len()
    }

    /// A needle's loops.
    #[inline(always)]
    pub fn stack(&self, n: Needle) -> &[u32]
        requires { IsOn self.now n.at }
        ensures is { result.now ≡ loops_at self.now n }
        ensures small { length result.now < 2 ^ 32 }
    {
        self.stacks[self.place(n)].as_slice()
    }

    /// A copy of a needle's loops.
    pub fn copied(&self, n: Needle) -> Result<LoopLines, NoMemory>
        requires { IsOn self.now n.at }
        ensures { IfOk result (λ loops. loops ≡ loops_at self.now n) }
    {
        let mut copy = LoopLines::new(self.alloc);
        copy.extend_from_slice(self.stack(n))?;
        Ok(copy)
    }

    /// The needle holds no loop.
    pub fn empty(&mut self, n: Needle)
        requires { IsOn self.old n.at }
        ensures { BedsHold self.old self.new (with_stack (loops_at self.old) n []) }
    {
        let place = self.place(n);
        self.stacks[place].clear();
    }

    /// The needle holds a new loop alone. After `NoMemory` the beds are as before, here and below.
    #[inline(always)]
    pub fn knit_off(&mut self, line: u32, n: Needle) -> Result<(), NoMemory>
        requires { IsOn self.old n.at }
        ensures ok { OnOk result (BedsHold self.old self.new (with_stack (loops_at self.old) n (line ∷ []))) }
        ensures err { OnErr result (HoldsAsBefore self.old self.new) }
    {
        let place = self.place(n);
        self.stacks[place].set_only(line)
    }

    /// A new loop joins those of the needle.
    pub fn join(&mut self, line: u32, n: Needle) -> Result<(), NoMemory>
        requires on { IsOn self.old n.at }
        requires room { length (loops_at self.old n) + 1 < 2 ^ 32 }
        ensures ok { OnOk result (BedsHold self.old self.new (with_stack (loops_at self.old) n (loops_at self.old n ++ line ∷ []))) }
        ensures err { OnErr result (HoldsAsBefore self.old self.new) }
    {
        let place = self.place(n);
        self.stacks[place].push(line)
    }

    /// All loops of a needle go over behind those of another.
    pub fn transfer(&mut self, n: Needle, n2: Needle) -> Result<(), NoMemory>
        requires from { IsOn self.old n.at }
        requires to { IsOn self.old n2.at }
        requires sides { is_front n.bed ≢ is_front n2.bed }
        requires room { length (loops_at self.old n2) + length (loops_at self.old n) < 2 ^ 32 }
        ensures ok { OnOk result (BedsHold self.old self.new (stacks_transferred n n2 [] (loops_at self.old))) }
        ensures err { OnErr result (HoldsAsBefore self.old self.new) }
    {
        if self.loops_on(n2) == 0 {
            self.exchange(n, n2);
            return Ok(());
        }
        let moved = self.take(n);
        match self.receive(n2, moved.as_slice()) {
            Ok(()) => {
                self.give_room(n, moved);
                Ok(())
            }
            Err(no_memory) => {
                self.put(n, moved);
                Err(no_memory)
            }
        }
    }

    /// All loops of a needle go over behind those of another, and a new loop alone stays.
    pub fn split(&mut self, line: u32, n: Needle, n2: Needle) -> Result<(), NoMemory>
        requires from { IsOn self.old n.at }
        requires to { IsOn self.old n2.at }
        requires sides { is_front n.bed ≢ is_front n2.bed }
        requires room { length (loops_at self.old n2) + length (loops_at self.old n) < 2 ^ 32 }
        ensures ok { OnOk result (BedsHold self.old self.new (stacks_transferred n n2 (line ∷ []) (loops_at self.old))) }
        ensures err { OnErr result (HoldsAsBefore self.old self.new) }
    {
        let mut formed = LoopLines::new(self.alloc);
        formed.push(line)?;
        self.transfer(n, n2)?;
        self.put(n, formed);
        Ok(())
    }

    // The loops of a needle, which then holds none.
    fn take(&mut self, n: Needle) -> LoopLines
        requires { IsOn self.old n.at }
        ensures loops { result ≡ loops_at self.old n }
        ensures left { BedsHold self.old self.new (with_stack (loops_at self.old) n []) }
    {
        let place = self.place(n);
        mem::replace(&mut self.stacks[place], LoopLines::new(self.alloc))
    }

    // Each of two needles gets the other's loops.
    fn exchange(&mut self, n: Needle, n2: Needle)
        requires from { IsOn self.old n.at }
        requires to { IsOn self.old n2.at }
        ensures { BedsHold self.old self.new (with_stack (with_stack (loops_at self.old) n (loops_at self.old n2)) n2 (loops_at self.old n)) }
    {
        let from = self.place(n);
        let to = self.place(n2);
        self.stacks.swap(from, to);
    }

    // The loops come behind those of the needle.
    fn receive(&mut self, n: Needle, loops: &[u32]) -> Result<(), NoMemory>
        requires on { IsOn self.old n.at }
        requires room { length (loops_at self.old n) + length loops.now < 2 ^ 32 }
        ensures ok { OnOk result (BedsHold self.old self.new (with_stack (loops_at self.old) n (loops_at self.old n ++ loops.now))) }
        ensures err { OnErr result (HoldsAsBefore self.old self.new) }
    {
        let place = self.place(n);
        self.stacks[place].extend_from_slice(loops)
    }

    // The needle holds no loop, in the room of a stack that is done with.
    fn give_room(&mut self, n: Needle, done: LoopLines)
        requires { IsOn self.old n.at }
        ensures { BedsHold self.old self.new (with_stack (loops_at self.old) n []) }
    {
        let mut room = done;
        room.clear();
        self.put(n, room);
    }

    // The needle holds these loops.
    fn put(&mut self, n: Needle, loops: LoopLines)
        requires { IsOn self.old n.at }
        ensures { BedsHold self.old self.new (with_stack (loops_at self.old) n loops) }
    {
        let place = self.place(n);
        self.stacks[place] = loops;
    }

    /// The needles that hold loops, in order, with their loops.
    pub fn list(self) -> Result<Stacks, NoMemory>
        ensures listed { IfOk result (λ list. AreStacks list (loops_at self)) }
        ensures few { IfOk result (λ list. length list ≤ 262144) }
    {
        list_stacks(self.alloc, self.low, self.width, self.stacks)
    }

    // Where the needle's stack stands.
    #[inline(always)]
    fn place(&self, n: Needle) -> usize
        requires { IsOn self.now n.at }
        ensures is { result ≡ stack_place self.now.low self.now.width n }
        ensures within { result < length self.now.stacks.items }
    {
        let above = (i32::from(n.at) - i32::from(self.low)) as usize;
        first_of_bed(self.width, n.bed) + above
    }
}

// The needles that hold loops, in order, with their loops.
fn list_stacks(
    alloc: Global,
    low: i16,
    width: usize,
    stacks: Vec<LoopLines>,
) -> Result<Stacks, NoMemory>
    requires full { length stacks.items ≡ 4 * width }
    requires reach { (low +ℤ pos width) ≤ℤ pos 32768 }
    ensures listed { IfOk result (λ list. AreStacks list (stack_in low width stacks.items)) }
    ensures few { IfOk result (λ list. length list ≤ 262144) }
{
    let mut list = Stacks::new(alloc);
    for (place, loops) in stacks.into_iter().enumerate() {
        if !loops.is_empty() {
            let needle = needle_at(low, width, place);
            list.push(Stack { needle, loops })?;
        }
    }
    Ok(list)
}

// The place of the lowest needle of a bed.
#[inline(always)]
fn first_of_bed(width: usize, bed: Bed) -> usize
    requires { width ≤ 65536 }
    ensures { result ≡ first_of_bed width bed }
{
    rank(bed) * width
}

// How many beds come before this one.
#[inline(always)]
fn rank(bed: Bed) -> usize
    ensures few { result ≤ 3 }
    ensures beds { (width : ℕ) → result * width ≡ first_of_bed width bed }
{
    match bed {
        Bed::Front => 0,
        Bed::FrontSlider => 1,
        Bed::Back => 2,
        Bed::BackSlider => 3,
    }
}

// The needle whose stack stands at this place.
fn needle_at(low: i16, width: usize, place: usize) -> Needle
    requires within { place < 4 * width }
    requires reach { (low +ℤ pos width) ≤ℤ pos 32768 }
    ensures { result ≡ needle_at low width place }
{
    let bed = bed_at(width, place);
    let above = place - first_of_bed(width, bed);
    let at = (i32::from(low) + above as i32) as i16;
    Needle { bed, at }
}

fn bed_at(width: usize, place: usize) -> Bed
    requires { width ≤ 65536 }
    ensures { result ≡ bed_at width place }
{
    if place < width {
        return Bed::Front;
    }
    if place < 2 * width {
        return Bed::FrontSlider;
    }
    if place < 3 * width {
        return Bed::Back;
    }
    Bed::BackSlider
}

// So many empty stacks, which take no memory of their own.
fn empty_stacks(alloc: Global, count: usize) -> Result<Vec<LoopLines>, NoMemory>
    requires { count ≤ 262144 }
    ensures length { IfOk result (λ stacks. length stacks.items ≡ count) }
    ensures bare { IfOk result (λ stacks. (k : ℕ) → slice_index_or stacks.items k [] ≡ []) }
{
    let mut stacks = Vec::with_capacity(alloc, count)?;
    for _ in 0..count {
        stacks.push(LoopLines::new(alloc))?;
    }
    Ok(stacks)
}
