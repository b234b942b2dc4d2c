//! Lists and lines, with ample memory.
use knit_base::{Lines, ListOf};
use std::test::Fail;

#[test]
fn lists_keep_their_order(rt: HostRuntime) -> Result<(), Fail> {
    let mut list = ListOf::new(rt.alloc());
    assert!(rt; list.is_empty());
    list.push(4u32)?;
    list.extend_from_slice(&[5, 6])?;
    assert_eq!(rt; list.len(), 3);
    assert_eq!(rt; list.get(1).copied(), Some(5));
    assert_eq!(rt; list.get(3), None);
    assert_eq!(rt; list.pop(), Some(6));
    list.set_only(7)?;
    assert_eq!(rt; list.len(), 1);
    assert_eq!(rt; list.get(0).copied(), Some(7));
    Ok(())
}

#[test]
fn shared_lines_are_lines(rt: HostRuntime) -> Result<(), Fail> {
    let mut lines = Lines::new(rt.alloc());
    lines.push("in 1")?;
    lines.push("knit + f1 1")?;
    lines.push("")?;
    lines.push("out 1")?;
    let shared = lines.into_shared()?;
    let texts = Lines::range(rt.alloc(), &shared, 1, 4)?;
    let mut last = Lines::range(rt.alloc(), &texts, 1, 3)?;
    last.push("in 2")?;
    let again = texts.try_clone()?;
    assert_eq!(rt; shared.get(3), Some("out 1"));
    assert_eq!(rt; texts.len(), 3);
    assert_eq!(rt; texts.get(0), Some("knit + f1 1"));
    assert_eq!(rt; last.len(), 3);
    assert_eq!(rt; last.get(0), Some(""));
    assert_eq!(rt; last.get(1), Some("out 1"));
    assert_eq!(rt; last.get(2), Some("in 2"));
    assert_eq!(rt; again.get(2), Some("out 1"));
    assert_eq!(rt; again.get(3), None);
    Ok(())
}
