//! Each call once with ample memory.
use span_pool::{NoSpare, Pool, class_of};
use std::test::Fail;

#[test]
fn a_span_is_filled_and_given_back(rt: HostRuntime) -> Result<(), Fail> {
    let mut pool = Pool::new(rt.alloc());
    assert_eq!(rt; pool.take(1).err(), Some(NoSpare));
    assert_eq!(rt; class_of(3), 2);
    pool.reserve(2, 1)?;
    assert_eq!(rt; pool.spare(2), 1);
    let Ok(mut span) = pool.take(3) else {
        assert!(rt; false);
        return Ok(());
    };
    assert_eq!(rt; pool.spare(2), 0);
    span.fill(&[7u32, 8, 9]);
    assert_eq!(rt; span.get(), [7, 8, 9].as_slice());
    pool.give(span);
    assert_eq!(rt; pool.spare(2), 1);
    Ok(())
}
