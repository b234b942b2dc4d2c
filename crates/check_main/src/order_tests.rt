//! Scripts of two sessions, one of which a gate holds until the other has its reply. The replies are worked out by hand.
use crate::tests::texts;
use crate::top::top;
use input_answers::{Outcome, Status};
use knit_ports::{CalmSource, CountGate, Gate, MemorySink};
use std::alloc::Global;
use std::sync::Wait;
use std::test::Fail;
use std::thread::Threads;

// What the program wrote, and what it gave.
#[derive(Drop)]
struct Told {
    outcome: Outcome,
    text: Vec<u8>,
}

// The program on a script of edits, over a sink that takes all.
fn run_script<R: Threads + Wait + Sync, G: Gate + Sync>(
    rt: &R,
    alloc: Global,
    script: &str,
    gate: &G,
) -> Result<Told, Fail> {
    run_words(rt, alloc, &["live"], script, gate)
}

// The program with these words on a script, over a sink that takes all.
fn run_words<R: Threads + Wait + Sync, G: Gate + Sync>(
    rt: &R,
    alloc: Global,
    words: &[&str],
    script: &str,
    gate: &G,
) -> Result<Told, Fail> {
    let words = texts(alloc, words)?;
    let mut source = CalmSource::of(Vec::from_slice(alloc, script.as_bytes())?);
    let mut sink = MemorySink::of(alloc, 65_536, 65_536, Vec::new(alloc))?;
    let outcome = top(rt, alloc, &words, &mut source, &mut sink, gate);
    let text = Vec::from_slice(alloc, sink.as_slice())?;
    Ok(Told { outcome, text })
}

const TWO_SESSIONS: &str =
    "live 1\n|;!knitout-2\n|;;Carriers: 1\n|in 1\nsession\nput 0\n|in 1\nsession\nput 0\n|\n";

#[test]
fn the_first_session_comes_first(rt: HostRuntime) -> Result<(), Fail> {
    let gate = CountGate::of((1, 0), (0, 0), 10_000_000);
    let told = run_script(&rt, rt.alloc(), TWO_SESSIONS, &gate)?;
    assert!(rt; !gate.gave_up() && told.outcome.status == Status::Done);
    let text = "session 0\n\
        1 accepted version 1 block 0 sound lines 1 made 0 held 0 rack 0\n\
        session 1\n\
        1 stale version 1 block 0 seen 0 now 1\n\
        journal 1\n\
        1 session 0 put 0 seen 0 lines 1\n\
        final version 1\n\
        sound lines 1 made 0 held 0 rack 0\n\
        in: 1\n\
        hook:\n";
    assert!(rt; told.text.as_slice() == text.as_bytes());
    Ok(())
}

#[test]
fn the_second_session_comes_first(rt: HostRuntime) -> Result<(), Fail> {
    let gate = CountGate::of((0, 0), (1, 0), 10_000_000);
    let told = run_script(&rt, rt.alloc(), TWO_SESSIONS, &gate)?;
    assert!(rt; !gate.gave_up() && told.outcome.status == Status::Done);
    let text = "session 0\n\
        1 stale version 1 block 0 seen 0 now 1\n\
        session 1\n\
        1 accepted version 1 block 0 sound lines 1 made 0 held 0 rack 0\n\
        journal 1\n\
        1 session 1 put 0 seen 0 lines 1\n\
        final version 1\n\
        sound lines 1 made 0 held 0 rack 0\n\
        in:\n\
        hook:\n";
    assert!(rt; told.text.as_slice() == text.as_bytes());
    Ok(())
}

const HEADER_AND_PUT: &str =
    "live 1\n|;!knitout-2\n|;;Carriers: 1\n|in 1\nsession\nput head\n|;;Carriers: 2\nsession\nput 0\n|in 1\n";

#[test]
fn a_put_behind_other_names_is_stale(rt: HostRuntime) -> Result<(), Fail> {
    let gate = CountGate::of((1, 0), (0, 0), 10_000_000);
    let told = run_script(&rt, rt.alloc(), HEADER_AND_PUT, &gate)?;
    assert!(rt; !gate.gave_up() && told.outcome.status == Status::Done);
    let text = "session 0\n\
        1 accepted version 1 block head broken line 3 rule NoCarrier at 1\n\
        session 1\n\
        1 stale version 1 block head seen 0 now 1\n\
        journal 1\n\
        1 session 0 put head seen 0 carriers 2\n\
        final version 1\n\
        broken line 3 rule NoCarrier at 1\n\
        > in 1\n";
    assert!(rt; told.text.as_slice() == text.as_bytes());
    Ok(())
}

#[test]
fn other_names_behind_a_put_are_taken(rt: HostRuntime) -> Result<(), Fail> {
    let gate = CountGate::of((0, 0), (1, 0), 10_000_000);
    let told = run_script(&rt, rt.alloc(), HEADER_AND_PUT, &gate)?;
    assert!(rt; !gate.gave_up() && told.outcome.status == Status::Done);
    let text = "session 0\n\
        1 accepted version 2 block head broken line 3 rule NoCarrier at 1\n\
        session 1\n\
        1 accepted version 1 block 0 sound lines 1 made 0 held 0 rack 0\n\
        journal 2\n\
        1 session 1 put 0 seen 0 lines 1\n\
        2 session 0 put head seen 0 carriers 2\n\
        final version 2\n\
        broken line 3 rule NoCarrier at 1\n\
        > in 1\n";
    assert!(rt; told.text.as_slice() == text.as_bytes());
    Ok(())
}

const GROUP_AND_PUT: &str = "groups 1\n|;!knitout-2\n|;;Carriers: 1\n|in 1\nsession\n\
    group\nput 0\n|in 1\n|knit + f1 1\nadd 0\n|out 1\nend\nsession\nput 0\n|in 1\n|knit + f2 1\n";

fn in_order<R: Threads + Wait + Sync>(
    rt: &R,
    alloc: Global,
    late: u32,
    early: u32,
) -> Result<Option<Told>, Fail> {
    let gate = CountGate::of((late, 0), (early, 0), 10_000_000);
    let told = run_groups(rt, alloc, &gate)?;
    Ok((!gate.gave_up()).then_some(told))
}

fn run_groups<R: Threads + Wait + Sync, G: Gate + Sync>(
    rt: &R,
    alloc: Global,
    gate: &G,
) -> Result<Told, Fail> {
    run_words(rt, alloc, &["groups"], GROUP_AND_PUT, gate)
}

fn has_steps(told: Option<Told>, text: &str, steps: u32) -> bool {
    let Some(told) = &told else {
        return false;
    };
    let Some(groups) = &told.outcome.groups else {
        return false;
    };
    groups.chunks.len() == steps && told.text.as_slice() == text.as_bytes()
}

#[test]
fn a_put_behind_a_group_is_stale(rt: HostRuntime) -> Result<(), Fail> {
    let text = "session 0\n\
        1 group version 2 from 1 sound lines 3 made 1 held 1 rack 0\n\
        session 1\n\
        1 stale version 2 block 0 seen 0 now 1\n\
        journal 2\n\
        1 session 0 put 0 seen 0 lines 2\n\
        2 session 0 add 0 block 1 lines 1\n\
        final version 2\n\
        sound lines 3 made 1 held 1 rack 0\n\
        in:\n\
        hook:\n\
        f1: 4\n";
    assert!(rt; has_steps(in_order(&rt, rt.alloc(), 1, 0)?, text, 1));
    Ok(())
}

#[test]
fn a_group_behind_a_put_is_refused(rt: HostRuntime) -> Result<(), Fail> {
    let text = "session 0\n\
        1 refused version 1 at 1 stale version 1 block 0 seen 0 now 1\n\
        session 1\n\
        1 accepted version 1 block 0 sound lines 2 made 1 held 1 rack 0\n\
        journal 1\n\
        1 session 1 put 0 seen 0 lines 2\n\
        final version 1\n\
        sound lines 2 made 1 held 1 rack 0\n\
        in: 1\n\
        hook:\n\
        f2: 4\n";
    assert!(rt; has_steps(in_order(&rt, rt.alloc(), 0, 1)?, text, 1));
    Ok(())
}
