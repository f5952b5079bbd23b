use object_calls::{Fetches, Waiting};
use std::test::*;

#[test]
fn tasks_wait_under_numbers_of_their_own(rt: HostRuntime) -> Result<(), Fail> {
    let mut waiting = Waiting::new(rt.alloc());
    assert_eq!(rt; waiting.add(70)?, 1);
    assert_eq!(rt; waiting.add(80)?, 2);
    assert_eq!(rt; waiting.remove(2), Some(80));
    assert_eq!(rt; waiting.add(90)?, 3);
    assert_eq!(rt; waiting.find(1), Some(70));
    assert_eq!(rt; waiting.find(2), None);
    Ok(())
}

#[test]
fn fetches_are_found_by_their_objects(rt: HostRuntime) -> Result<(), Fail> {
    let mut fetches = Fetches::new(rt.alloc());
    assert_eq!(rt; fetches.issue(3, 1, 5)?, 1);
    assert_eq!(rt; fetches.issue(3, 1, 6)?, 2);
    assert_eq!(rt; fetches.find(3, 1, 6), Some(2));
    assert_eq!(rt; fetches.close(2), Some((3, 1, 6)));
    assert_eq!(rt; fetches.close(2), None);
    assert_eq!(rt; fetches.find(3, 1, 6), None);
    assert_eq!(rt; fetches.find(3, 1, 5), Some(1));
    Ok(())
}
