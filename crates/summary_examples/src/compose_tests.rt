//! What room small faces take once they are composed, worked by hand.
use std::test::Fail;
use summary_compose::Room;

const WIDE: Room = Room {
    checks: 3,
    names: 2,
    changes: 1,
    segs: 4,
    entries: 2,
    widest: 2,
    lasts: 2,
};

const NEXT: Room = Room {
    checks: 2,
    names: 5,
    changes: 1,
    segs: 1,
    entries: 1,
    widest: 2,
    lasts: 1,
};

#[test]
fn rooms_add_up(rt: HostRuntime) -> Result<(), Fail> {
    let both = Room {
        checks: 5,
        names: 11,
        changes: 2,
        segs: 5,
        entries: 3,
        widest: 3,
        lasts: 3,
    };
    assert_eq!(rt; WIDE.after(&NEXT), both);
    Ok(())
}

#[test]
fn a_needle_is_read_to_no_more_than_one_holds(rt: HostRuntime) -> Result<(), Fail> {
    let narrow = Room { widest: 1, ..WIDE };
    let both = Room {
        checks: 5,
        names: 7,
        changes: 2,
        segs: 5,
        entries: 3,
        widest: 2,
        lasts: 3,
    };
    assert_eq!(rt; narrow.after(&NEXT), both);
    Ok(())
}
