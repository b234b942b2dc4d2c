//! Operations that are grouped as they come.
ghost use Rattle.std.specs.Prelude.{◌≡◌, ◌+◌, ◌-◌, ◌<◌, ◌≤◌, ◌^◌, [], ◌∷◌, ◌++◌, List, None, Some, IfOk, OnErr, OnOk};
ghost use Rattle.std.specs.Option.{option_to_list};
ghost use Rattle.pass_grouping.specs.declared.operation.PassOp.{PassOp};
ghost use Rattle.pass_grouping.specs.Growing.{IsGoingWay, IsGrowing, fact_now};
ghost use Rattle.pass_grouping.specs.Told.{AreOperationCounts, AreTold};

use crate::fact::{PassFact, PassFacts, PassYarns, way_of};
use crate::operation::PassOp;
use crate::pass::{follows, way_between};
use knit_base::{Dir, NoMemory};
use std::alloc::Global;

/// How many operations a text has, the fewest passes that carry them out, and the windows that show it.
#[derive(Clone, Copy, Debug, PartialEq, Eq)]
pub struct Counts {
    pub passes: u32,
    pub operations: u32,
    pub windows: u32,
}

/// What is told of each of the fewest passes that carry out the operations of a text, and how many operations it has.
#[derive(Drop)]
pub struct ToldPasses {
    pub facts: PassFacts,
    pub operations: u32,
}

/// Operations that are grouped as they come: each pass is as long as it can be behind the passes before it. Of each pass that ended what
/// is told of it is kept, and of the one that goes on how it began, its last operation, and its way once it has two.
#[derive(Drop)]
pub(crate) struct Growing {
    ended: PassFacts,
    operations: u32,
    begun: Begun,
    last: Option<PassOp>,
    way: Option<Dir>,
}

/// How a pass began: the line and the place of its first operation, and how many operations are before it.
#[derive(Clone, Copy)]
pub(crate) struct Begun {
    line: u32,
    place: i32,
    before: u32,
}

impl Growing {
    /// No operation.
    pub fn start(alloc: Global) -> Growing
        ensures { IsGrowing [] result }
    {
        Growing {
            ended: PassFacts::new(alloc),
            operations: 0,
            begun: Begun {
                line: 0,
                place: 0,
                before: 0,
            },
            last: None,
            way: None,
        }
    }

    /// One operation more, if it is one. After `NoMemory` all is as before.
    pub fn add_any(&mut self, alloc: Global, op: Option<PassOp>) -> Result<(), NoMemory>
        requires few { self.old.operations < 2 ^ 32 - 1 }
        requires growing { (ops : List PassOp) × IsGrowing ops self.old }
        ensures ok { OnOk result ((ops : List PassOp) → IsGrowing ops self.old → IsGrowing (ops ++ option_to_list op) self.new) }
        ensures err { OnErr result (self.new ≡ self.old) }
    {
        match op {
            Some(op) => self.add(alloc, op),
            None => Ok(()),
        }
    }

    /// One operation more: it goes on with the last pass, or it begins one. After `NoMemory` all is as before.
    #[inline(always)]
    pub fn add(&mut self, alloc: Global, op: PassOp) -> Result<(), NoMemory>
        requires few { self.old.operations < 2 ^ 32 - 1 }
        requires growing { (ops : List PassOp) × IsGrowing ops self.old }
        ensures ok { OnOk result ((ops : List PassOp) → IsGrowing ops self.old → IsGrowing (ops ++ op ∷ []) self.new) }
        ensures err { OnErr result (self.new ≡ self.old) }
    {
        let Some(last) = &mut self.last else {
            self.begin(op);
            return Ok(());
        };
        let way = way_on(self.way, last, &op);
        if follows(way, last, &op) {
            // (they differ in nothing else)
            move_to(last, &op);
            self.operations += 1;
            self.way = Some(way);
            return Ok(());
        }
        let fact = fact_of(alloc, self.begun, last, self.operations)?;
        self.ended.push(fact)?;
        self.begin(op);
        Ok(())
    }

    // A pass begins with this operation.
    fn begin(&mut self, op: PassOp)
        requires few { self.old.operations < 2 ^ 32 - 1 }
        ensures ended { self.new.ended ≡ self.old.ended }
        ensures operations { self.new.operations ≡ self.old.operations + 1 }
        ensures begun { self.new.begun ≡ record { line = op.line; place = op.place; before = self.old.operations } }
        ensures last { self.new.last ≡ Some op }
        ensures way { self.new.way ≡ None }
    {
        self.begun = Begun {
            line: op.line,
            place: op.place,
            before: self.operations,
        };
        self.operations += 1;
        self.last = Some(op);
        self.way = None;
    }

    /// How many operations, passes and windows there are.
    pub fn counts(&self) -> Counts
        ensures { (ops : List PassOp) → IsGrowing ops self.now → AreOperationCounts ops result }
    {
        let operations = self.operations;
        let windows = self.ended.len();
        match &self.last {
            Some(_) => Counts {
                passes: one_more(windows, operations),
                operations,
                windows,
            },
            None => Counts {
                passes: windows,
                operations,
                windows,
            },
        }
    }

    /// What is told of each pass, and how many operations there are. Fails where memory runs out.
    pub fn finish(self, alloc: Global) -> Result<ToldPasses, NoMemory>
        ensures { IfOk result (λ passes. (ops : List PassOp) → IsGrowing ops self → AreTold ops passes) }
    {
        let operations = self.operations;
        let Some(last) = &self.last else {
            return Ok(ToldPasses {
                facts: self.ended,
                operations,
            });
        };
        let fact = fact_of(alloc, self.begun, last, operations)?;
        let facts = with_last(self.ended, fact)?;
        Ok(ToldPasses { facts, operations })
    }
}

// Moves an operation to the line and the place of another.
#[inline(always)]
fn move_to(op: &mut PassOp, next: &PassOp)
    ensures { op.new ≡ record { line = next.now.line; stretch = op.old.stretch; class = op.old.class; dir = op.old.dir; yarns = op.old.yarns; place = next.now.place } }
{
    let place = next.place;
    op.line = next.line;
    op.place = place;
}

// One pass more than so many, which are fewer than the operations.
fn one_more(passes: u32, operations: u32) -> u32
    ensures { passes + 1 ≤ operations → result ≡ passes + 1 }
{
    passes.saturating_add(1)
}

// What is told of a pass that began so, where this is its last operation, and so many operations are up to there.
fn fact_of(
    alloc: Global,
    begun: Begun,
    last: &PassOp,
    operations: u32,
) -> Result<PassFact, NoMemory>
    ensures { IfOk result (λ fact. fact ≡ fact_now begun last.now operations) }
{
    Ok(PassFact {
        first_line: begun.line,
        last_line: last.line,
        count: operations.saturating_sub(begun.before),
        class: last.class,
        way: way_of(last.dir, begun.place, last.place),
        yarns: PassYarns::of(alloc, &last.yarns)?,
    })
}

// The facts, and this one behind them.
fn with_last(facts: PassFacts, fact: PassFact) -> Result<PassFacts, NoMemory>
    ensures { IfOk result (λ all. all ≡ facts ++ fact ∷ []) }
{
    let mut all = facts;
    if all.len() == u32::MAX {
        return Err(NoMemory);
    }
    all.push(fact)?;
    Ok(all)
}

// The one way in which an operation may go on with a pass: the pass's, if it has one.
#[inline(always)]
fn way_on(way: Option<Dir>, last: &PassOp, op: &PassOp) -> Dir
    ensures { IsGoingWay way last.now op.now result }
{
    match way {
        Some(way) => way,
        None => way_between(last, op),
    }
}
