//! Each call once, a full stack and one of depth 0.
use return_stack::{ReturnStack, SavedStack};
use std::test::*;

#[test]
fn the_newest_comes_first(rt: HostRuntime) -> Result<(), Fail> {
    let mut stack = ReturnStack::new(rt.alloc(), 3)?;
    assert_eq!(rt; (stack.top(), stack.pop()), (None, None));
    stack.push(0x1004);
    stack.push(0xffff_ffff_ffff_fffc);
    assert_eq!(rt; stack.top(), Some(0xffff_ffff_ffff_fffc));
    assert_eq!(rt; stack.pop(), Some(0xffff_ffff_ffff_fffc));
    assert_eq!(rt; stack.pop(), Some(0x1004));
    assert_eq!(rt; stack.pop(), None);
    Ok(())
}

#[test]
fn the_oldest_falls_out(rt: HostRuntime) -> Result<(), Fail> {
    let mut stack = ReturnStack::new(rt.alloc(), 15)?;
    for index in 0..17 {
        stack.push(0x1000 + 4 * index);
    }
    for index in (2..17).rev() {
        assert_eq!(rt; stack.pop(), Some(0x1000 + 4 * index));
    }
    assert_eq!(rt; stack.pop(), None);
    Ok(())
}

#[test]
fn depth_0_keeps_nothing(rt: HostRuntime) -> Result<(), Fail> {
    let mut stack = ReturnStack::new(rt.alloc(), 0)?;
    stack.push(0x1000);
    assert_eq!(rt; stack.top(), None);
    stack.clear();
    assert_eq!(rt; stack.pop(), None);
    Ok(())
}

#[test]
fn a_saved_stack_comes_back(rt: HostRuntime) -> Result<(), Fail> {
    let mut stack = ReturnStack::new(rt.alloc(), 3)?;
    for index in 0..5 {
        stack.push(0x1000 + 4 * index);
    }
    let saved = stack.save();
    stack.clear();
    stack.push(0x2000);
    stack.restore(&saved);
    assert_eq!(rt; stack.save(), saved);
    for index in (2..5).rev() {
        assert_eq!(rt; stack.pop(), Some(0x1000 + 4 * index));
    }
    assert_eq!(rt; stack.pop(), None);
    stack.push(0x3000);
    stack.restore(&SavedStack::empty());
    assert_eq!(rt; stack.pop(), None);
    Ok(())
}
