ghost use Rattle.std.specs.Prelude.{◌≡◌, IfOk};

use lane::{Inlet, Outlet, Plain, SendEnd, TakeEnd, close, make};
use std::alloc::{AllocError, Global};
use std::sync::Wait;
use std::test::*;

#[test]
fn a_queue_gives_its_items_in_the_order_in_which_they_were_sent(
    rt: HostRuntime,
) -> Result<(), Fail> {
    let mut queue: Plain<u32> = Plain::new(rt.alloc());
    assert!(rt; queue.take().is_none());
    assert!(rt; queue.send(1).is_ok());
    assert!(rt; queue.send(2).is_ok());
    assert_eq!(rt; queue.take(), Some(1));
    assert_eq!(rt; queue.take(), Some(2));
    assert!(rt; queue.take().is_none());
    Ok(())
}

fn ends<R: Wait + Copy>(
    rt: &R,
    alloc: Global,
) -> Result<(SendEnd<u32, R>, TakeEnd<u32, R>), AllocError>
    ensures { IfOk result (λ ends. ends.0.lane ≡ ends.1.lane) }
{
    match make(rt, alloc) {
        Ok(ends) => Ok(ends),
        Err(_) => Err(AllocError),
    }
}

#[test]
fn a_lane_whose_ends_are_given_back_leaves_what_was_not_taken(rt: HostRuntime) -> Result<(), Fail> {
    let (mut send, mut take) = ends(&rt, rt.alloc())?;
    assert!(rt; take.take().is_none());
    assert!(rt; send.send(1).is_ok());
    assert!(rt; send.send(2).is_ok());
    assert!(rt; send.send(3).is_ok());
    assert_eq!(rt; take.take(), Some(1));
    let Ok(mut rest) = close(rt.alloc(), send, take) else {
        return Err(AllocError.into());
    };
    assert_eq!(rt; rest.take(), Some(2));
    assert_eq!(rt; rest.take(), Some(3));
    assert!(rt; rest.take().is_none());
    Ok(())
}

#[test]
fn a_lane_holds_two_thousand_items(rt: HostRuntime) -> Result<(), Fail> {
    let (mut send, mut take) = ends(&rt, rt.alloc())?;
    for item in 0..2000 {
        assert!(rt; send.send(item).is_ok());
    }
    for item in 0..2000 {
        assert_eq!(rt; take.take(), Some(item));
    }
    assert!(rt; take.take().is_none());
    Ok(())
}
