//! Each public call once, with ample memory.
use face_data::{
    Bearing, Change, Check, Cond, Digest, Effect, Ending, Face, FaceView, Part, Seg, Segs, Symbols,
    ask_size,
};
use knit_base::{Bed, CarrierNo, Fault, Needle, Quarter, Reason, Rule};
use std::test::Fail;

const FRONT: Needle = Needle {
    bed: Bed::Front,
    at: 1,
};

const BACK: Needle = Needle {
    bed: Bed::Back,
    at: 1,
};

// The front needle alone is touched, and holds nothing.
fn is_front_touched(symbols: &Symbols) -> bool {
    match symbols.of(FRONT) {
        Some(segs) => segs.is_empty() && symbols.of(BACK).is_none(),
        None => false,
    }
}

#[test]
fn touched_needles_have_segments(rt: HostRuntime) -> Result<(), Fail> {
    let mut symbols = Symbols::new(rt.alloc());
    symbols.set(FRONT, Segs::new(rt.alloc()))?;
    assert!(rt; is_front_touched(&symbols));
    Ok(())
}

#[test]
fn new_loops_take_room(rt: HostRuntime) -> Result<(), Fail> {
    let mut segs = Segs::new(rt.alloc());
    segs.push(Seg::Entry(BACK))?;
    segs.push(Seg::New(3))?;
    let mut symbols = Symbols::new(rt.alloc());
    symbols.set(BACK, segs)?;
    let reason = Reason {
        rule: Rule::TooManyLoops,
        at: 2,
    };
    let ask = ask_size(rt.alloc(), reason, 16, &[BACK, FRONT], &symbols)?;
    assert!(rt; ask.max == 15 && ask.entries.as_slice() == [BACK, FRONT].as_slice());
    Ok(())
}

// The segments are those of the first six loops.
fn are_six(segs: &Segs) -> bool {
    let new = [
        Seg::New(0),
        Seg::New(1),
        Seg::New(2),
        Seg::New(3),
        Seg::New(4),
        Seg::New(5),
    ];
    segs.as_slice() == new.as_slice() && segs.get(6).is_none()
}

#[test]
fn a_list_outgrows_its_places(rt: HostRuntime) -> Result<(), Fail> {
    let mut segs = Segs::new(rt.alloc());
    segs.extend_from_slice(&[Seg::New(0), Seg::New(1)])?;
    segs.push(Seg::New(2))?;
    segs.push(Seg::New(3))?;
    segs.push(Seg::New(4))?;
    segs.extend_from_slice(&[Seg::New(5)])?;
    assert!(rt; are_six(&segs));
    Ok(())
}

#[test]
fn a_digest_tells_what_is_kept(rt: HostRuntime) -> Result<(), Fail> {
    let mut digest = Digest::blank();
    assert_eq!(rt; digest.bearing_on(Cond::HookFree), Bearing::Silent);
    digest.note(Cond::CarrierIn(CarrierNo(3)));
    digest.note(Cond::HookFree);
    digest.note(Cond::RackIs(Quarter(4)));
    assert_eq!(rt;
        digest.bearing_on(Cond::CarrierIn(CarrierNo(3))),
        Bearing::Implied
    );
    assert_eq!(rt;
        digest.bearing_on(Cond::CarrierOut(CarrierNo(3))),
        Bearing::Refuted
    );
    assert_eq!(rt;
        digest.bearing_on(Cond::CarrierIn(CarrierNo(4))),
        Bearing::Silent
    );
    assert_eq!(rt; digest.bearing_on(Cond::HookIs(0)), Bearing::Implied);
    assert_eq!(rt;
        digest.bearing_on(Cond::HookLacks(CarrierNo(63))),
        Bearing::Implied
    );
    assert_eq!(rt;
        digest.bearing_on(Cond::RackIs(Quarter(0))),
        Bearing::Refuted
    );
    Ok(())
}

#[test]
fn who_came_may_go(rt: HostRuntime) -> Result<(), Fail> {
    let first = Effect {
        rack: Some(Quarter(4)),
        came: 3,
        went: 4,
        hook: None,
    };
    let second = Effect {
        rack: None,
        came: 4,
        went: 1,
        hook: Some(2),
    };
    let both = Effect {
        rack: Some(Quarter(4)),
        came: 6,
        went: 1,
        hook: Some(2),
    };
    assert_eq!(rt; first.then(&second), both);
    assert_eq!(rt;
        both.bearing_on(Cond::CarrierIn(CarrierNo(1))),
        Bearing::Implied
    );
    assert_eq!(rt;
        both.bearing_on(Cond::CarrierIn(CarrierNo(0))),
        Bearing::Refuted
    );
    assert_eq!(rt;
        both.bearing_on(Cond::CarrierIn(CarrierNo(5))),
        Bearing::Silent
    );
    assert_eq!(rt;
        both.bearing_on(Cond::HookLacks(CarrierNo(1))),
        Bearing::Refuted
    );
    Ok(())
}

// Whether the face is told as this one.
fn is_told_as(face: &Face, told: &FaceView) -> bool {
    let read = face.view();
    read.lines == told.lines
        && read.made == told.made
        && read.checks == told.checks
        && read.names == told.names
        && read.changes == told.changes
        && read.segs == told.segs
        && read.lasts == told.lasts
        && read.ending == told.ending
}

#[test]
fn an_owned_face_is_read_as_it_was(rt: HostRuntime) -> Result<(), Fail> {
    let checks = [Check {
        fault: Fault {
            line: 1,
            reason: Reason {
                rule: Rule::CarrierIsOut,
                at: 3,
            },
        },
        cond: Cond::CarrierIn(CarrierNo(0)),
    }];
    let changes = [Change {
        needle: FRONT,
        part: Part { start: 0, len: 1 },
    }];
    let view = FaceView {
        lines: 2,
        made: 1,
        checks: &checks,
        names: &[],
        changes: &changes,
        segs: &[Seg::New(1)],
        lasts: &[],
        ending: Ending::Broken(checks[0].fault),
    };
    let face = Face::of(rt.alloc(), &view)?;
    assert!(rt; is_told_as(&face, &view));
    Ok(())
}
