//! Small shapes whose leaves, numbers and rows are worked by hand.
use knit_base::NoMemory;
use std::test::Fail;
use tree_shape::{Child, Dirty, Shape};

/// Inserts with room made first, where the position and the number of leaves allow it.
fn add(shape: &mut Shape, at: u32, dirty: &mut Dirty) -> Result<Option<u32>, NoMemory> {
    let len = shape.len();
    if at > len || len >= 65536 {
        return Ok(None);
    }
    shape.reserve_one()?;
    Ok(Some(shape.insert(at, dirty)))
}

fn cut(shape: &mut Shape, at: u32, dirty: &mut Dirty) -> Option<u32> {
    if at < shape.len() {
        Some(shape.remove(at, dirty))
    } else {
        None
    }
}

fn planned(shape: &Shape, at: u32, dirty: &mut Dirty) -> Option<u32> {
    let len = shape.len();
    if at > len || len >= 65536 {
        None
    } else {
        Some(shape.plan_insert(at, dirty))
    }
}

fn leaf(shape: &Shape, at: u32) -> Option<u32> {
    if at < shape.len() {
        Some(shape.leaf(at))
    } else {
        None
    }
}

/// Inserts at 0, 1, 1 and 0: the leaves then read 3, 0, 2, 1.
fn four(shape: &mut Shape, dirty: &mut Dirty) -> Result<(), NoMemory> {
    add(shape, 0, dirty)?;
    add(shape, 1, dirty)?;
    add(shape, 1, dirty)?;
    add(shape, 0, dirty)?;
    Ok(())
}

#[test]
fn leaves_stand_where_they_were_put(rt: HostRuntime) -> Result<(), Fail> {
    let mut dirty = Dirty::new();
    let mut shape = Shape::new(rt.alloc());
    four(&mut shape, &mut dirty)?;
    assert_eq!(rt; shape.len(), 4);
    assert_eq!(rt; shape.height(), 2);
    assert_eq!(rt; leaf(&shape, 0), Some(3));
    assert_eq!(rt; leaf(&shape, 1), Some(0));
    assert_eq!(rt; leaf(&shape, 2), Some(2));
    assert_eq!(rt; leaf(&shape, 3), Some(1));
    Ok(())
}

#[test]
fn a_freed_number_is_drawn_next(rt: HostRuntime) -> Result<(), Fail> {
    let mut dirty = Dirty::new();
    let mut shape = Shape::new(rt.alloc());
    four(&mut shape, &mut dirty)?;
    assert_eq!(rt; cut(&mut shape, 1, &mut dirty), Some(0));
    assert_eq!(rt; leaf(&shape, 1), Some(2));
    assert_eq!(rt; planned(&shape, 3, &mut dirty), Some(0));
    assert_eq!(rt; add(&mut shape, 3, &mut dirty)?, Some(0));
    assert_eq!(rt; leaf(&shape, 3), Some(0));
    assert_eq!(rt; add(&mut shape, 0, &mut dirty)?, Some(4));
    Ok(())
}

/// Four leaves in a height-balanced tree all stand two below the root.
#[test]
fn a_built_shape_is_read_in_order(rt: HostRuntime) -> Result<(), Fail> {
    let shape = Shape::build(rt.alloc(), 4)?;
    assert_eq!(rt; shape.len(), 4);
    assert_eq!(rt; shape.height(), 2);
    assert_eq!(rt; leaf(&shape, 0), Some(0));
    assert_eq!(rt; leaf(&shape, 1), Some(1));
    assert_eq!(rt; leaf(&shape, 2), Some(2));
    assert_eq!(rt; leaf(&shape, 3), Some(3));
    Ok(())
}

fn above(shape: &Shape, at: u32, dirty: &mut Dirty) -> bool {
    if at < shape.len() {
        shape.touch(at, dirty);
        true
    } else {
        false
    }
}

#[test]
fn the_nodes_above_a_leaf_are_listed(rt: HostRuntime) -> Result<(), Fail> {
    let mut dirty = Dirty::new();
    let shape = Shape::build(rt.alloc(), 4)?;
    assert!(rt; above(&shape, 2, &mut dirty));
    assert_eq!(rt; dirty.len(), 2);
    if let (Some(low), Some(top)) = (dirty.get(0), dirty.get(1)) {
        assert!(rt; matches!((low.left, low.right), (Child::Leaf(2), Child::Leaf(3))));
        assert!(rt; is_inner(top.right, low.node));
        assert!(rt; is_inner(top_of(&shape), top.node));
    }
    Ok(())
}

fn is_inner(child: Child, node: u32) -> bool {
    match child {
        Child::Leaf(_) => false,
        Child::Inner(number) => number == node,
    }
}

fn top_of(shape: &Shape) -> Child {
    match shape.root() {
        None => Child::Leaf(0),
        Some(child) => child,
    }
}

/// Of five leaves in order the last two are the lowest, so without the first the root's two parts are turned.
#[test]
fn a_removal_turns_what_leans(rt: HostRuntime) -> Result<(), Fail> {
    let mut dirty = Dirty::new();
    let mut shape = Shape::build(rt.alloc(), 5)?;
    assert_eq!(rt; shape.height(), 3);
    assert_eq!(rt; cut(&mut shape, 0, &mut dirty), Some(0));
    assert_eq!(rt; shape.height(), 2);
    assert_eq!(rt; dirty.len(), 2);
    if let (Some(low), Some(top)) = (dirty.get(0), dirty.get(1)) {
        assert!(rt; matches!((low.left, low.right), (Child::Leaf(1), Child::Leaf(2))));
        assert!(rt; is_inner(top.left, low.node));
        assert!(rt; is_inner(top_of(&shape), top.node));
    }
    Ok(())
}
